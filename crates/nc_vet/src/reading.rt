//! Reads a chunk from its base, instruction by instruction.

ghost use Rattle.std.specs.Prelude.{◌≡◌, ◌≤◌, take, ◌<◌, ◌+◌, ◌%◌, ◌^◌, length, replicate, None, IfOk, IfErr, IfSome};
ghost use Rattle.nc_decode.specs.Spelling.{IsAtFront, IsProperFront};
ghost use Rattle.nc_vet.specs.Chunk.{mark_of};
ghost use Rattle.nc_vet.specs.Listed.{listed};
ghost use Rattle.nc_vet.specs.machinery.Running.{AreBitsTold};
ghost use Rattle.nc_vet.specs.machinery.Steps.{MayFollow, NoneMayFollow, masked_after, HasReadTo, HasReadAll, EndsReading};

use crate::fault::VetFault;
use crate::lanes::read_bundles;
use crate::vetted::Marks;
use nc_decode::{BUNDLE, DecodeFault, Instr, Mark, bundle_rest, decode};
use std::alloc::{AllocError, Global};

/// The mark at the start of an instruction.
fn mark_of(instr: Instr) -> Mark
    ensures { result ≡ mark_of instr }
{
    if instr.flow.is_indirect() {
        Mark::After(instr.reg)
    } else {
        Mark::Plain
    }
}

/// The register masked at the place after an instruction: none at a bundle start.
fn masked_after(instr: Instr, place: usize) -> Option<u8>
    ensures { result ≡ masked_after instr place }
{
    if place % BUNDLE as usize == 0 {
        None
    } else {
        instr.masks
    }
}

/// The instruction at the front of a short window of bytes.
#[inline(never)]
fn decode_window(window: &[u8]) -> Result<Instr, DecodeFault>
    ensures found { IfOk result (λ i. IsAtFront window.now i × (0 < i.len) × (i.len ≤ length window.now)) }
    ensures cut { result ≡ Err DecodeFault.Truncated → IsProperFront window.now }
    ensures refused { result ≡ Err DecodeFault.NotPermitted
        → ((i : Instr) → ¬ IsAtFront window.now i) × ¬ IsProperFront window.now }
{
    decode(window)
}

/// The instruction at the front of the first `room` bytes.
#[inline(always)]
fn decode_within(rest: &[u8], room: usize) -> Result<Instr, DecodeFault>
    requires { room ≤ length rest.now }
    ensures found { IfOk result (λ i. IsAtFront (take room rest.now) i
        × (0 < i.len) × (i.len ≤ length (take room rest.now))) }
    ensures cut { result ≡ Err DecodeFault.Truncated → IsProperFront (take room rest.now) }
    ensures refused { result ≡ Err DecodeFault.NotPermitted
        → ((i : Instr) → ¬ IsAtFront (take room rest.now) i) × ¬ IsProperFront (take room rest.now) }
{
    // Decoding is fast if there are more bytes than it needs, and the instruction found nearly always fits in the room.
    match decode(rest) {
        Ok(instr) if usize::from(instr.len) <= room => Ok(instr),
        // Unwrapped and wrapped again, so that the earlier result stays in registers.
        _ => match decode_window(&rest[..room]) {
            Ok(instr) => Ok(instr),
            Err(fault) => Err(fault),
        },
    }
}

/// The instruction at the front of the rest of a bundle: the first `room` bytes, beginning at address `at`. `masked` is the
/// register masked directly before, if any.
fn next(rest: &[u8], room: usize, masked: Option<u8>, at: u32) -> Result<Instr, VetFault>
    requires { room ≤ length rest.now }
    ensures found { IfOk result (MayFollow (take room rest.now) masked) }
    ensures refused { IfErr result (NoneMayFollow (take room rest.now) masked at) }
{
    match decode_within(rest, room) {
        Ok(instr) => {
            if instr.flow.is_indirect() && masked != Some(instr.reg) {
                Err(VetFault::Bare { at })
            } else {
                Ok(instr)
            }
        }
        Err(DecodeFault::Truncated) => Err(VetFault::Crosses { at }),
        Err(DecodeFault::NotPermitted) => Err(VetFault::NotPermitted { at }),
    }
}

/// `n` marks, all `Unmarked`.
fn unmarked(alloc: Global, n: usize) -> Result<Vec<Mark>, AllocError>
    ensures { IfOk result (λ marks. marks.items ≡ replicate n Mark.Unmarked) }
{
    let mut marks = Vec::new(alloc);
    marks.resize(n, Mark::Unmarked)?;
    Ok(marks)
}

/// The marks of all of the code, found instruction by instruction.
pub(crate) fn read_slow_path(alloc: Global, base: u32, code: &[u8]) -> Result<Vec<Mark>, VetFault>
    requires bundles { length code.now % 32 ≡ 0 }
    requires fits { base + length code.now < 2 ^ 32 }
    ensures read { IfOk result (λ marks. HasReadAll code.now marks.items) }
    ensures stuck { IfErr result (EndsReading base code.now) }
{
    let Ok(mut marks) = unmarked(alloc, code.len()) else {
        return Err(VetFault::OutOfMemory);
    };
    let mut at = 0usize;
    let mut masked = None;
    while at < code.len() {
        let room = bundle_rest(at as u32) as usize;
        let instr = next(&code[at..], room, masked, base + at as u32)?;
        marks[at] = mark_of(instr);
        at += usize::from(instr.len);
        masked = masked_after(instr, at);
    }
    Ok(marks)
}

/// The first fault at or after `start`, if there is one. All code before `start` has been read.
#[inline(never)]
fn stuck_from(base: u32, code: &[u8], start: usize) -> Option<VetFault>
    requires bundles { length code.now % 32 ≡ 0 }
    requires fits { base + length code.now < 2 ^ 32 }
    requires within { start ≤ length code.now }
    requires read { HasReadTo code.now start None }
    ensures { IfSome result (EndsReading base code.now) }
{
    let mut at = start;
    let mut masked = None;
    while at < code.len() {
        let room = bundle_rest(at as u32) as usize;
        let instr = match next(&code[at..], room, masked, base + at as u32) {
            Ok(instr) => instr,
            Err(fault) => return Some(fault),
        };
        at += usize::from(instr.len);
        masked = masked_after(instr, at);
    }
    None
}

/// Reads all of the code, and returns its marks: bundle by bundle, and from the first bundle at whose end no instruction
/// ends, instruction by instruction. Code that the first way accepts is proved sound; only the second way reports faults.
pub(crate) fn read(alloc: Global, base: u32, code: &[u8]) -> Result<Marks, VetFault>
    requires bundles { length code.now % 32 ≡ 0 }
    requires fits { base + length code.now < 2 ^ 32 }
    ensures read { IfOk result (λ marks. HasReadAll code.now (listed code.now marks)) }
    ensures told { IfOk result (AreBitsTold code.now) }
    ensures stuck { IfErr result (EndsReading base code.now) }
{
    if let Some(front) = read_bundles(alloc, code) {
        if BUNDLE as usize * front.bundles.len() == code.len() {
            return Ok(Marks::Bits(front.bundles));
        }
        if let Some(fault) = stuck_from(base, code, front.end) {
            return Err(fault);
        }
    }
    Ok(Marks::Each(read_slow_path(alloc, base, code)?))
}
