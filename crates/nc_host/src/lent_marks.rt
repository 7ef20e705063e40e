//! The marks of a chunk, written into a host's buffer.

ghost use Rattle.std.specs.Prelude.{◌≡◌, ◌<◌, ◌≤◌, ◌⊎◌, ◌↔◌, List, length, map, All};
ghost use Rattle.nc_decode.specs.declared.instruction.Mark.{Mark};
ghost use Rattle.nc_text.specs.MarkedText.{NamesRegister};
ghost use Rattle.nc_vet.specs.Listed.{listed};
ghost use Rattle.nc_host_acts.specs.Shown.{over};
ghost use Rattle.nc_host.specs.declared.fault_numbers.TheConstants.{NO_ROOM, OUT_OF_MEMORY};
ghost use Rattle.nc_host.specs.Shown.{mark_number};
ghost use Rattle.nc_host.specs.Outcomes.{IsAccepted, IsOutcome};

use crate::lent_results::NcVerdict;
use crate::lent_vet::admit;
use nc_decode::Mark;
use nc_vet::Marks;
use std::alloc::Global;

/// A mark as a host reads it.
fn mark_number(mark: Mark) -> u8
    requires { NamesRegister mark }
    ensures { result ≡ mark_number mark }
{
    match mark {
        Mark::Unmarked => 0,
        Mark::Plain => 1,
        Mark::After(register) => 16 + register,
    }
}

/// Writes the marks of a chunk.
fn write_marks(buffer: &mut [u8], code: &[u8], marks: &Marks)
    requires room { length code.now ≤ length buffer.old }
    requires each { length (listed code.now marks.now) ≡ length code.now }
    requires registers { All NamesRegister (listed code.now marks.now) }
    ensures { buffer.new ≡ over (map mark_number (listed code.now marks.now)) buffer.old }
{
    for i in 0..code.len() {
        buffer[i] = mark_number(marks.at(code, i));
    }
}

/// Vets a chunk in place, and writes its marks, one byte for each of its bytes. A mark is 0 if control is never there, 1 at the start
/// of an instruction, and 16 plus the number of the register at an indirect transfer, which directly follows its mask.
///
/// If the buffer is shorter than the code of a valid chunk, the fault is `NO_ROOM`. A refusal leaves the buffer as it was.
#[unsafe(no_mangle)]
pub extern "C" fn nc_host_marks(
    alloc: Global,
    base: u32,
    limit: u32,
    code: &[u8],
    marks: &mut [u8],
) -> NcVerdict
    ensures outcome { IsOutcome base limit code.now (length code.now) (length marks.old) result.fault result.at }
    // The chunk is valid with these marks, and with no others.
    ensures written { result.fault ≡ 0 → (m : List Mark) × IsAccepted base limit code.now m
        × (marks.new ≡ over (map mark_number m) marks.old) }
    ensures untouched { 0 < result.fault → marks.new ≡ marks.old }
    // A valid chunk is refused only for lack of memory, or of room.
    ensures valid { (m : List Mark) → IsAccepted base limit code.now m
        → (result.fault ≡ 0) ⊎ ((result.fault ≡ OUT_OF_MEMORY) ⊎ (result.fault ≡ NO_ROOM)) }
{
    match admit(alloc, base, limit, code, code.len(), marks.len()) {
        Ok(own) => {
            write_marks(marks, code, &own);
            NcVerdict { fault: 0, at: 0 }
        }
        Err(verdict) => verdict,
    }
}
