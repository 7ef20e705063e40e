//! The vetting of a chunk.

ghost use Rattle.std.specs.Prelude.{◌≡◌, ◌<◌, ◌^◌, ◌↔◌, List, length, vec_len, IfOk, IfErr, OnOk};
ghost use Rattle.nc_decode.specs.declared.instruction.Mark.{Mark};
ghost use Rattle.nc_vet.specs.Chunk.{IsValid, IsBase, IsLength, IsInRange};
ghost use Rattle.nc_vet.specs.Faults.{HasFault, HasSpanFault, HasGoodSpan};
ghost use Rattle.nc_vet.specs.Listed.{listed};
ghost use Rattle.nc_vet.specs.Verdict.{IsVerdict};

use crate::fault::VetFault;
use crate::reading::read;
use crate::targets::bad_target;
use crate::vetted::{Marks, Vetted};
use nc_decode::{BUNDLE, START, is_bundle_start, is_lawful_limit};
use std::alloc::Global;

/// The first fault of base, length and limit by themselves, if there is one.
fn check_span(base: u32, limit: u32, len: usize) -> Result<(), VetFault>
    requires { len < 2 ^ 63 }
    ensures fine { OnOk result (HasGoodSpan base limit len) }
    ensures fault { IfErr result (HasSpanFault base limit len) }
{
    if !is_bundle_start(base) || base < START {
        return Err(VetFault::BadBase);
    }
    if len == 0 || len % BUNDLE as usize != 0 {
        return Err(VetFault::BadLength);
    }
    // The last bundle below the limit is the guard, which no chunk covers.
    if !is_lawful_limit(limit) || base as usize + len + BUNDLE as usize > limit as usize {
        return Err(VetFault::OutOfRange);
    }
    Ok(())
}

/// Judges a chunk in place, by the rules of `vet`, and returns the marks of a valid chunk, or the chunk's fault.
///
/// As in `vet`, `OutOfMemory` says nothing about the code, and comes only if none of the first three faults holds.
pub fn judge(alloc: Global, base: u32, limit: u32, code: &[u8]) -> Result<Marks, VetFault>
    ensures valid { IfOk result (λ marks.
        IsValid (record { base = base; limit = limit; code = code.now; marks = listed code.now marks })) }
    ensures fault { IfErr result (HasFault base limit code.now) }
{
    check_span(base, limit, code.len())?;
    let marks = read(alloc, base, code)?;
    match bad_target(alloc, base, limit, code, &marks) {
        Some(at) => Err(VetFault::BadTarget { at }),
        None => Ok(marks),
    }
}

/// Vets a chunk: finds its instructions from its base on, and judges the targets of its jumps, branches and calls.
///
/// A chunk is valid if it is one or more whole bundles between the region's first byte and the guard, which is the last bundle
/// below a lawful limit, and is a list of permitted instructions such that
/// - none crosses the end of a 32-byte bundle;
/// - each indirect jump or call directly follows the mask of its register in the same bundle;
/// - each direct transfer into the chunk goes to the start of an instruction that isn't an indirect jump or call;
/// - each direct transfer out of the chunk goes to a bundle start below the limit.
///
/// The first three faults (`BadBase`, `BadLength`, `OutOfRange`) are tested in this order, before anything is allocated.
/// Among `NotPermitted`, `Crosses` and `Bare`, the fault at the lowest address is reported. Targets are judged only if
/// there is none of these, and the first bad one is reported. No other code in the region is examined: any bundle start
/// outside the chunk is a permitted target.
///
/// On the fast path an automaton reads several bundles at once. Code that it accepts is valid. Code that it doesn't accept is
/// read once more, instruction by instruction; this slow path decides and names the fault.
///
/// Nothing is promised about what the code does with data, or that memory is available; a valid chunk is refused only for
/// lack of memory. Every refusal gives the code back.
///
/// The rules are C3 and C5 to C7 of table 1 of Yee et al., "Native Client: A Sandbox for Portable, Untrusted x86
/// Native Code" (2009).
pub fn vet(base: u32, limit: u32, code: Vec<u8>) -> Result<Vetted, (Vec<u8>, VetFault)>
    // Both cases as one definition, which the vetting of many chunks uses too.
    ensures verdict { IsVerdict base limit code result }
    // The vetted chunk has the given code, base and limit, and is valid.
    ensures vetted { IfOk result (λ v.
        (v.base ≡ base) × (v.limit ≡ limit) × (v.code ≡ code.items) × IsValid v) }
    // A refusal reports the chunk's fault; lack of memory is reported only if none of the first three holds.
    ensures fault { IfErr result (λ e. HasFault base limit code.items e.1) }
    // A refusal gives the code back unchanged.
    ensures given_back { IfErr result (λ e. e.0 ≡ code) }
    // Each of the first three faults is reported exactly if it holds and none before it does.
    ensures bad_base { (result ≡ Err (code, VetFault.BadBase)) ↔ ¬ IsBase base }
    ensures bad_length { (result ≡ Err (code, VetFault.BadLength))
        ↔ (IsBase base × ¬ IsLength (vec_len code)) }
    ensures out_of_range { (result ≡ Err (code, VetFault.OutOfRange))
        ↔ (IsBase base × IsLength (vec_len code) × ¬ IsInRange base limit (vec_len code)) }
    // A valid chunk is refused only for lack of memory.
    ensures valid { (marks : List Mark)
        → IsValid (record { base = base; limit = limit; code = code.items; marks = marks })
        → IfErr result (λ e. e.1 ≡ VetFault.OutOfMemory) }
{
    match judge(*code.allocator(), base, limit, &code) {
        Ok(marks) => Ok(Vetted::new(base, limit, code, marks)),
        Err(fault) => Err((code, fault)),
    }
}
