//! Whether instructions may come in the place of some of a chunk.

ghost use Rattle.std.specs.Prelude.{◌≡◌, ◌≢◌, ◌+◌, ◌<◌, ◌≤◌, ◌↔◌, ◌^◌, ℕ, List, ◌∷◌, length, IsTrue, IsFalse, OnOk, IfErr, Some, IfSome};
ghost use Rattle.std.specs.Int.{bit_at};
ghost use Rattle.nc_decode.specs.declared.instruction.Instr.{Instr};
ghost use Rattle.nc_decode.specs.declared.instruction.Mark.{Mark};
ghost use Rattle.nc_decode.specs.Front.{first_instruction};
ghost use Rattle.nc_decode.specs.Transfers.{is_direct, target};
ghost use Rattle.nc_vet.specs.Chunk.{Piece, IsTarget, mark_of};
ghost use Rattle.nc_text.specs.Places.{instruction_at, limit_of};
ghost use Rattle.nc_text.specs.MarkedText.{IsText};
ghost use Rattle.nc_list.specs.declared.chunk.Chunk.{Chunk};
ghost use Rattle.nc_region.specs.Region.{HoldsValid, IsInChunk};
ghost use Rattle.nc_region.specs.Patch.{IsPatchSpan, AreBytesOf, AreInstructions, IsRun, SparesPair, SparesPairs, GoWell, stands_there};
ghost use Rattle.nc_region.specs.machinery.PatchSteps.{Begins, Along, RunsAlong, is_after, KeepsTransfer, CanPatch, LiesInValid, MayRefuseIn};

use crate::fault::ModifyFault;
use nc_acts::Acts;
use nc_decode::{BUNDLE, Instr, Mark, decode, is_outside_target};
use nc_list::Chunk;
use nc_text::lowest_place;

/// The mark stands for some state.
fn is_marked(mark: Mark) -> bool
    ensures { IsTrue result ↔ (mark ≢ Mark.Unmarked) }
{
    !matches!(mark, Mark::Unmarked)
}

/// The mark is that of an indirect transfer.
fn is_after(mark: Mark) -> bool
    ensures { result ≡ is_after mark }
{
    matches!(mark, Mark::After(_))
}

/// There is at least one byte, and the `len` bytes from this address on lie in one bundle.
pub(crate) fn is_patch_span(at: u32, len: usize) -> bool
    ensures { IsTrue result ↔ IsPatchSpan at len }
{
    0 < len && len <= (BUNDLE - at % BUNDLE) as usize
}

/// The bytes are a sequence of whole permitted instructions.
fn are_instructions(bytes: &[u8]) -> bool
    ensures { IsTrue result ↔ AreInstructions bytes.now }
{
    if bytes.is_empty() {
        return true;
    }
    let Ok(instr) = decode(bytes) else {
        return false;
    };
    are_instructions(&bytes[instr.len as usize..])
}

/// The number of places from one of a bundle's places to the next that is set, or to the end of the bundle.
fn steps_to_next(places: u32, from: u32) -> u32
    requires { from < 32 }
    ensures some { 0 < result }
    ensures inside { from + result ≤ 32 }
    ensures between { (k : ℕ) → 0 < k → k < result → bit_at places (from + k) ≡ 0 }
    ensures next { from + result < 32 → bit_at places (from + result) ≡ 1 }
{
    let behind = places >> from >> 1;
    if behind == 0 {
        return BUNDLE - from;
    }
    let (steps, _others) = lowest_place(behind);
    steps + 1
}

/// The length of the chunk's instruction that begins at this address. It ends at the next marked place of its bundle, or else
/// at the end of the bundle, so no byte is read.
fn length_at<A: Acts>(acts: &A, chunk: Chunk, at: u32) -> u32
    requires whole { IsText (A.marked acts.now) }
    requires begins { Begins (A.marked acts.now) chunk at }
    requires inside { at < chunk.base + chunk.length }
    ensures { (i : Instr) → instruction_at (A.marked acts.now).bytes at ≡ Some i → result ≡ i.len }
{
    let from = at % BUNDLE;
    steps_to_next(acts.marked_places(at - from), from)
}

/// The chunk's instructions from this address on are, one for one, as long as the new ones. An instruction of the chunk
/// begins at the address, or the chunk ends there.
fn fits_from<A: Acts>(acts: &A, chunk: Chunk, at: u32, new: &[u8]) -> bool
    requires whole { IsText (A.marked acts.now) }
    requires begins { Begins (A.marked acts.now) chunk at }
    requires ends { at + length new.now ≤ chunk.base + chunk.length }
    ensures exact { (b : Begins (A.marked acts.now) chunk at) (news : List Piece) → AreBytesOf new.now news → IsTrue result
        ↔ RunsAlong b.rest news }
{
    if new.is_empty() {
        return true;
    }
    let Ok(instr) = decode(new) else {
        return false;
    };
    let len = u32::from(instr.len);
    if length_at(acts, chunk, at) != len {
        return false;
    }
    fits_from(acts, chunk, at + len, &new[instr.len as usize..])
}

/// The new bytes take the place of whole instructions of the chunk, each as long as the new one.
fn fits<A: Acts>(acts: &A, chunk: Chunk, at: u32, new: &[u8]) -> bool
    requires whole { IsText (A.marked acts.now) }
    requires holds { HoldsValid (A.marked acts.now) chunk }
    requires from { IsInChunk chunk at }
    requires ends { at + length new.now ≤ chunk.base + chunk.length }
    requires some { AreInstructions new.now }
    ensures run { IsTrue result → IsRun (A.marked acts.now) chunk at new.now }
    ensures none { IsFalse result → ¬ IsRun (A.marked acts.now) chunk at new.now }
{
    if !is_marked(acts.mark(at)) {
        return false;
    }
    fits_from(acts, chunk, at, new)
}

/// The new instruction is an indirect transfer exactly if the old one is, and on the same register. The mark is that of the
/// old one.
fn keeps_transfer(mark: Mark, instr: Instr) -> bool
    ensures exact { (old : Instr) → mark ≡ mark_of old → IsTrue result ↔ KeepsTransfer old instr }
{
    match mark {
        Mark::After(register) => instr.flow.is_indirect() && instr.reg == register,
        Mark::Plain => !instr.flow.is_indirect(),
        Mark::Unmarked => false,
    }
}

/// The text already has these bytes from this address on.
pub(crate) fn stands_there<A: Acts>(acts: &A, at: u32, bytes: &[u8]) -> bool
    requires whole { IsText (A.marked acts.now) }
    requires low { 0x10000 ≤ at }
    requires high { at + length bytes.now ≤ limit_of (A.marked acts.now).bytes }
    ensures { result ≡ stands_there (A.marked acts.now).bytes at bytes.now }
{
    if bytes.is_empty() {
        return true;
    }
    acts.byte(at) == bytes[0] && stands_there(acts, at + 1, &bytes[1..])
}

/// The new instruction leaves the pairs of the chunk alone. It is as long as the instruction of the chunk that it replaces.
fn spares_pair<A: Acts>(acts: &A, chunk: Chunk, at: u32, instr: Instr, bytes: &[u8]) -> bool
    requires whole { IsText (A.marked acts.now) }
    requires begins { Begins (A.marked acts.now) chunk at }
    requires some { 0 < length bytes.now }
    requires ends { at + length bytes.now ≤ chunk.base + chunk.length }
    requires sized { instr.len ≡ length bytes.now }
    ensures exact { (b : Begins (A.marked acts.now) chunk at) (old : Piece) (rest : List Piece) → b.rest ≡ old ∷ rest
        → length old.bytes ≡ length bytes.now
        → IsTrue result ↔ SparesPair old rest (record { bytes = bytes.now; instr = instr }) }
{
    if !keeps_transfer(acts.mark(at), instr) {
        return false;
    }
    if !is_after(acts.mark(at + u32::from(instr.len))) {
        return true;
    }
    stands_there(acts, at, bytes)
}

/// Each new instruction leaves the pairs of the chunk alone: the mask of a pair keeps its bytes, and a new instruction is an
/// indirect transfer exactly if the old one is, and on the same register.
fn leaves_pairs<A: Acts>(acts: &A, chunk: Chunk, at: u32, new: &[u8]) -> bool
    requires whole { IsText (A.marked acts.now) }
    requires along { Along (A.marked acts.now) chunk at new.now }
    requires ends { at + length new.now ≤ chunk.base + chunk.length }
    ensures exact { (b : Begins (A.marked acts.now) chunk at) (news : List Piece) → AreBytesOf new.now news → RunsAlong b.rest news
        → IsTrue result ↔ SparesPairs b.rest news }
{
    if new.is_empty() {
        return true;
    }
    let Ok(instr) = decode(new) else {
        return false;
    };
    let len = instr.len;
    if !spares_pair(acts, chunk, at, instr, &new[..len as usize]) {
        return false;
    }
    leaves_pairs(acts, chunk, at + u32::from(len), &new[len as usize..])
}

/// A direct transfer of the chunk may go to this address.
fn is_good<A: Acts>(acts: &A, chunk: Chunk, to: u32) -> bool
    requires whole { IsText (A.marked acts.now) }
    requires holds { HoldsValid (A.marked acts.now) chunk }
    ensures exact { (h : HoldsValid (A.marked acts.now) chunk) → IsTrue result
        ↔ IsTarget chunk.base (limit_of (A.marked acts.now).bytes) h.valid.pieces to }
{
    if chunk.base <= to && to - chunk.base < chunk.length {
        acts.mark(to).is_plain()
    } else {
        is_outside_target(acts.limit(), to)
    }
}

/// The instruction isn't a direct transfer, or its target is one that a direct transfer of the chunk may have.
fn goes_well<A: Acts>(acts: &A, chunk: Chunk, instr: Instr, at: u32) -> bool
    requires whole { IsText (A.marked acts.now) }
    requires holds { HoldsValid (A.marked acts.now) chunk }
    requires fits { at + instr.len < 2 ^ 32 }
    ensures exact { (h : HoldsValid (A.marked acts.now) chunk) → IsTrue result
        ↔ (IsTrue (is_direct instr.flow) → IsTarget chunk.base (limit_of (A.marked acts.now).bytes) h.valid.pieces (target instr at)) }
{
    if !instr.flow.is_direct() {
        return true;
    }
    is_good(acts, chunk, instr.target(at))
}

/// Each direct transfer among these instructions has a target that a direct transfer of the chunk may have.
fn keeps_targets<A: Acts>(acts: &A, chunk: Chunk, at: u32, new: &[u8]) -> bool
    requires whole { IsText (A.marked acts.now) }
    requires holds { HoldsValid (A.marked acts.now) chunk }
    requires ends { at + length new.now ≤ chunk.base + chunk.length }
    ensures exact { (h : HoldsValid (A.marked acts.now) chunk) (news : List Piece) → AreBytesOf new.now news → IsTrue result
        ↔ GoWell (IsTarget chunk.base (limit_of (A.marked acts.now).bytes) h.valid.pieces) at news }
{
    if new.is_empty() {
        return true;
    }
    let Ok(instr) = decode(new) else {
        return false;
    };
    if !goes_well(acts, chunk, instr, at) {
        return false;
    }
    let len = instr.len;
    keeps_targets(acts, chunk, at + u32::from(len), &new[len as usize..])
}

/// Whether these instructions may come in the place of some of the chunk: the first reason why not.
pub(crate) fn judge_each<A: Acts>(
    acts: &A,
    chunk: Chunk,
    at: u32,
    new: &[u8],
) -> Result<(), ModifyFault>
    requires whole { IsText (A.marked acts.now) }
    requires holds { HoldsValid (A.marked acts.now) chunk }
    requires from { IsInChunk chunk at }
    requires ends { at + length new.now ≤ chunk.base + chunk.length }
    ensures can { OnOk result (CanPatch (A.marked acts.now) chunk at new.now) }
    ensures refused { IfErr result (MayRefuseIn (A.marked acts.now) chunk at new.now) }
{
    if !are_instructions(new) {
        return Err(ModifyFault::NotPermitted);
    }
    if !fits(acts, chunk, at, new) {
        return Err(ModifyFault::Boundaries);
    }
    if !leaves_pairs(acts, chunk, at, new) {
        return Err(ModifyFault::PairTouched);
    }
    if !keeps_targets(acts, chunk, at, new) {
        return Err(ModifyFault::BadTarget);
    }
    Ok(())
}

/// The instruction that is all of the bytes, if they are one.
pub(crate) fn single(bytes: &[u8]) -> Option<Instr>
    ensures { IfSome result (λ i. (first_instruction bytes.now ≡ Some i) × (i.len ≡ length bytes.now)) }
{
    match decode(bytes) {
        Ok(instr) if instr.len as usize == bytes.len() => Some(instr),
        _ => None,
    }
}

/// Whether a single instruction may come in the place of one of the chunk: the first reason why not. The mark is that of the
/// address.
pub(crate) fn judge_single<A: Acts>(
    acts: &A,
    chunk: Chunk,
    at: u32,
    mark: Mark,
    instr: Instr,
    new: &[u8],
) -> Result<(), ModifyFault>
    requires place { LiesInValid (A.marked acts.now) chunk at mark }
    requires ends { at + length new.now ≤ chunk.base + chunk.length }
    requires first { first_instruction new.now ≡ Some instr }
    requires only { instr.len ≡ length new.now }
    ensures can { OnOk result (CanPatch (A.marked acts.now) chunk at new.now) }
    ensures refused { IfErr result (MayRefuseIn (A.marked acts.now) chunk at new.now) }
{
    if !fits_single(acts, chunk, at, mark, instr, new) {
        return Err(ModifyFault::Boundaries);
    }
    if !spares_pair(acts, chunk, at, instr, new) {
        return Err(ModifyFault::PairTouched);
    }
    if !goes_well(acts, chunk, instr, at) {
        return Err(ModifyFault::BadTarget);
    }
    Ok(())
}

/// An instruction of the chunk begins at the address, which has this mark, and is as long as the new one.
fn fits_single<A: Acts>(
    acts: &A,
    chunk: Chunk,
    at: u32,
    mark: Mark,
    instr: Instr,
    new: &[u8],
) -> bool
    requires place { LiesInValid (A.marked acts.now) chunk at mark }
    requires first { first_instruction new.now ≡ Some instr }
    requires only { instr.len ≡ length new.now }
    ensures run { IsTrue result → IsRun (A.marked acts.now) chunk at new.now }
    ensures none { IsFalse result → ¬ IsRun (A.marked acts.now) chunk at new.now }
{
    is_marked(mark) && length_at(acts, chunk, at) == u32::from(instr.len)
}
