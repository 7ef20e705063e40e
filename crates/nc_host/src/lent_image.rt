//! The text of a region with one chunk, filled before anybody can enter.

ghost use Rattle.std.specs.Prelude.{◌≡◌, ◌+◌, ◌<◌, ◌≤◌, ◌⊎◌, List, length, replicate, IfErr, OnOk};
ghost use Rattle.nc_decode.specs.declared.instruction.Mark.{Mark};
ghost use Rattle.nc_text.specs.Machine.{IsConfined};
ghost use Rattle.nc_text.specs.MarkedText.{unused_text, with_chunk, with_span};
ghost use Rattle.nc_text.specs.Places.{limit_of};
ghost use Rattle.nc_host.specs.declared.fault_numbers.TheConstants.{OUT_OF_MEMORY};
ghost use Rattle.nc_host.specs.Outcomes.{IsAccepted, IsChunkFault, IsOutcome};

use crate::lent_results::NcVerdict;
use crate::lent_vet::verdict_of;
use nc_decode::{BUNDLE, MAX_BUNDLES, START, STOP};
use nc_vet::judge;
use std::alloc::Global;

/// The limit of a region whose text has this many bytes; 0 if no region has so many.
fn limit_for(size: usize) -> u32
    ensures { (result ≡ 0x10000 + size) ⊎ ((result ≡ 0) × (0x4000000 < size)) }
{
    if size > (BUNDLE * MAX_BUNDLES) as usize {
        return 0;
    }
    START + size as u32
}

/// Whether a chunk is valid in a text of this many bytes; else its fault.
fn judge_in(alloc: Global, base: u32, code: &[u8], size: usize) -> Result<(), NcVerdict>
    ensures valid { OnOk result ((marks : List Mark) × IsAccepted base (0x10000 + size) code.now marks) }
    ensures fault { IfErr result (λ v. (0 < v.fault) × IsChunkFault base (0x10000 + size) code.now v.fault v.at) }
{
    match judge(alloc, base, limit_for(size), code) {
        Ok(_marks) => Ok(()),
        Err(fault) => Err(verdict_of(fault)),
    }
}

/// Fills a text with stops, and with code from an offset on.
fn write_image(image: &mut [u8], start: usize, code: &[u8])
    requires { start + length code.now ≤ length image.old }
    ensures { image.new ≡ with_span (replicate (length image.old) 0xF4) start code.now }
{
    let end = start + code.len();
    image[..start].fill(STOP);
    image[start..end].copy_from_slice(code);
    image[end..].fill(STOP);
}

/// Vets a chunk for the region whose text is as long as `image`, and fills `image` with that text: the chunk's code, and stops
/// everywhere else. A host makes the memory executable afterwards, and needs neither a handle nor acts for the chunk.
///
/// The rules and the order of the faults are those of `nc_vet::vet`. Memory is taken for the marks, and given back.
#[unsafe(no_mangle)]
pub extern "C" fn nc_host_image(
    alloc: Global,
    base: u32,
    code: &[u8],
    image: &mut [u8],
) -> NcVerdict
    ensures outcome { IsOutcome base (limit_of image.old) code.now 0 0 result.fault result.at }
    // The bytes are those of an unused text with the valid chunk.
    ensures filled { result.fault ≡ 0 → (marks : List Mark) × IsAccepted base (limit_of image.old) code.now marks
        × (image.new ≡ (with_chunk (unused_text (limit_of image.old)) base code.now marks).bytes) }
    // No path through them leaves the region except to a trampoline.
    ensures confined { result.fault ≡ 0 → IsConfined image.new }
    ensures untouched { 0 < result.fault → image.new ≡ image.old }
    // A valid chunk is refused only for lack of memory.
    ensures valid { (marks : List Mark) → IsAccepted base (limit_of image.old) code.now marks
        → (result.fault ≡ 0) ⊎ (result.fault ≡ OUT_OF_MEMORY) }
{
    if let Err(verdict) = judge_in(alloc, base, code, image.len()) {
        return verdict;
    }
    write_image(image, (base - START) as usize, code);
    NcVerdict { fault: 0, at: 0 }
}
