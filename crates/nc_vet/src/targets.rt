//! The targets of the direct transfers of a chunk that has been read.

ghost use Rattle.std.specs.Prelude.{◌≡◌, ◌<◌, ◌+◌, ◌%◌, ◌^◌, List, IsTrue, IsFalse, ◌↔◌, IfNone, IfSome, length};
ghost use Rattle.nc_decode.specs.declared.instruction.Mark.{Mark};
ghost use Rattle.nc_decode.specs.Transfers.{is_direct, target};
ghost use Rattle.nc_vet.specs.Chunk.{IsTarget, Piece, marks_of, AreSpelled};
ghost use Rattle.nc_vet.specs.Faults.{HasFirstBadTarget};
ghost use Rattle.nc_vet.specs.Listed.{listed};
ghost use Rattle.nc_vet.specs.machinery.Running.{AreBitsTold};
ghost use Rattle.nc_vet.specs.machinery.Steps.{HasReadAll, HasNoBadTargetAt, HasBadTargetAt, HasJudged, HasJudgedAll};

use crate::lists::judged_bundles;
use crate::vetted::Marks;
use nc_decode::{BUNDLE, Instr, bundle_rest, decode, is_outside_target, may_transfer};
use std::alloc::Global;

/// Whether a direct transfer may go to this address.
fn is_good(base: u32, limit: u32, code: &[u8], marks: &Marks, to: u32) -> bool
    requires each { length (listed code.now marks.now) ≡ length code.now }
    ensures exact { (pieces : List Piece) → listed code.now marks.now ≡ marks_of pieces → AreSpelled pieces
        → IsTrue result ↔ IsTarget base limit pieces to }
{
    if base <= to && ((to - base) as usize) < code.len() {
        marks.at(code, (to - base) as usize).is_plain()
    } else {
        is_outside_target(limit, to)
    }
}

/// Whether the instruction at this address is a direct transfer with a target that isn't permitted.
fn has_bad_target(base: u32, limit: u32, code: &[u8], marks: &Marks, instr: Instr, at: u32) -> bool
    requires fits { at + instr.len < 2 ^ 32 }
    requires each { length (listed code.now marks.now) ≡ length code.now }
    ensures bad { (pieces : List Piece) → listed code.now marks.now ≡ marks_of pieces → AreSpelled pieces
        → IsTrue result → IsTrue (is_direct instr.flow) × ¬ IsTarget base limit pieces (target instr at) }
    ensures good { (pieces : List Piece) → listed code.now marks.now ≡ marks_of pieces → AreSpelled pieces
        → IsFalse result → IsTrue (is_direct instr.flow) → IsTarget base limit pieces (target instr at) }
{
    if !instr.flow.is_direct() {
        return false;
    }
    !is_good(base, limit, code, marks, instr.target(at))
}

/// Whether a direct transfer with a target that isn't permitted begins at this place.
fn has_bad_target_at(base: u32, limit: u32, code: &[u8], marks: &Marks, at: usize) -> bool
    requires place { at < length code.now }
    requires each { length (listed code.now marks.now) ≡ length code.now }
    requires bundles { length code.now % 32 ≡ 0 }
    requires fits { base + length code.now < 2 ^ 32 }
    ensures bad { (r : HasReadAll code.now (listed code.now marks.now)) → IsTrue result
        → HasBadTargetAt base limit r.pieces at }
    ensures good { (r : HasReadAll code.now (listed code.now marks.now)) → IsFalse result
        → HasNoBadTargetAt base limit r.pieces at }
{
    // The byte is tested first: few bytes pass, while the marks are hard to predict.
    if !may_transfer(code[at]) {
        return false;
    }
    if !marks.at(code, at).is_plain() {
        return false;
    }
    let end = at + bundle_rest(at as u32) as usize;
    // An instruction has been read where the mark is plain, so decoding it again succeeds.
    let Ok(instr) = decode(&code[at..end]) else {
        return false;
    };
    has_bad_target(base, limit, code, marks, instr, base + at as u32)
}

/// A place before which all direct transfers have permitted targets. If the marks are kept as bits, the code is judged by
/// them, up to the first two bundles with a bad target.
fn judged_front(alloc: Global, base: u32, limit: u32, code: &[u8], marks: &Marks) -> usize
    requires read { HasReadAll code.now (listed code.now marks.now) }
    requires told { AreBitsTold code.now marks.now }
    requires fits { base + length code.now < 2 ^ 32 }
    ensures { HasJudged base limit code.now (listed code.now marks.now) result }
{
    match marks {
        Marks::Bits(bundles) => BUNDLE as usize * judged_bundles(alloc, base, limit, code, bundles),
        Marks::Each(_) => 0,
    }
}

/// The address of the first direct transfer whose target isn't permitted. Only instructions that may be direct transfers by
/// their first byte are decoded a second time.
pub(crate) fn bad_target(
    alloc: Global,
    base: u32,
    limit: u32,
    code: &[u8],
    marks: &Marks,
) -> Option<u32>
    requires read { HasReadAll code.now (listed code.now marks.now) }
    requires told { AreBitsTold code.now marks.now }
    requires bundles { length code.now % 32 ≡ 0 }
    requires fits { base + length code.now < 2 ^ 32 }
    ensures good { IfNone result (HasJudgedAll base limit code.now (listed code.now marks.now)) }
    ensures bad { IfSome result (HasFirstBadTarget base limit code.now) }
{
    let mut at = judged_front(alloc, base, limit, code, marks);
    while at < code.len() {
        if has_bad_target_at(base, limit, code, marks, at) {
            return Some(base + at as u32);
        }
        at += 1;
    }
    None
}
