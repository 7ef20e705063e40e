//! Replacing instructions of a chunk while threads run in its text.

ghost use Rattle.std.specs.Prelude.{◌≡◌, ◌+◌, ◌-◌, ◌<◌, ◌≤◌, ℕ, List, [], ◌∷◌, ◌++◌, length, Some, if◌then◌else◌};
ghost use Rattle.nc_decode.specs.declared.instruction.Instr.{Instr};
ghost use Rattle.nc_decode.specs.Front.{first_instruction};
ghost use Rattle.nc_text.specs.Marks.{IsClosed};
ghost use Rattle.nc_text.specs.Places.{byte_at, limit_of};
ghost use Rattle.nc_text.specs.Ready.{AreReady};
ghost use Rattle.nc_text.specs.MarkedText.{IsText, with_span};
ghost use Rattle.nc_list.specs.declared.chunk.Chunk.{Chunk};
ghost use Rattle.nc_acts.specs.Acts.{puts_where};
ghost use Rattle.nc_acts.specs.Log.{Logs, only_acts};
ghost use Rattle.nc_text.specs.Puts.{HasPut};
ghost use Rattle.nc_acts.specs.declared.acts.Act.{Act};
ghost use Rattle.nc_acts.specs.declared.acts.Entry.{Entry};
ghost use Rattle.nc_region.specs.Patch.{stands_there, any_place, log_of_instruction};
ghost use Rattle.nc_region.specs.machinery.PatchSteps.{IsReplacing, CanReplace, IsInterim, CanPatch, HasPutPatch};

use crate::patch::judge::stands_there;
use nc_acts::Acts;
use nc_decode::{STOP, decode};
use nc_list::Chunk;

/// Replaces the instructions from an address on, in ascending order, with others of the same lengths. An instruction whose
/// bytes stay the same gets no put.
pub(crate) fn put_patch<A: Acts>(acts: &mut A, chunk: Chunk, at: u32, new: &[u8])
    requires whole { IsText (A.marked acts.old) }
    requires patch { CanPatch (A.marked acts.old) chunk at new.now }
    requires ends { at + length new.now ≤ chunk.base + chunk.length }
    requires ready { AreReady (A.made acts.old) at (length new.now) }
    ensures patched { HasPutPatch (A.marked acts.old) (A.marked acts.new) (A.logged acts.old) (A.logged acts.new) chunk at new.now }
    ensures made { A.made acts.new ≡ A.made acts.old }
    ensures keeper { A.keeper acts.new ≡ A.keeper acts.old }
{
    if new.is_empty() {
        return;
    }
    let Ok(instr) = decode(new) else {
        return;
    };
    let len = instr.len;
    let bytes = &new[..len as usize];
    put_where_new(acts, at, bytes);
    put_patch(acts, chunk, at + u32::from(len), &new[len as usize..]);
}

/// Replaces an instruction with one of the same length, unless its bytes are there already.
fn put_where_new<A: Acts>(acts: &mut A, at: u32, bytes: &[u8])
    requires { CanReplace (A.marked acts.old) (A.made acts.old) at bytes.now }
    ensures bytes { (A.marked acts.new).bytes ≡ with_span (A.marked acts.old).bytes (at - 0x10000) bytes.now }
    ensures marks { (A.marked acts.new).marks ≡ (A.marked acts.old).marks }
    ensures whole { IsText (A.marked acts.new) }
    ensures made { A.made acts.new ≡ A.made acts.old }
    ensures keeper { A.keeper acts.new ≡ A.keeper acts.old }
    ensures log { Logs (A.logged acts.old) (A.logged acts.new)
        (if stands_there (A.marked acts.old).bytes at bytes.now then [] else log_of_instruction at bytes.now) }
{
    if stands_there(acts, at, bytes) {
        return;
    }
    put_instruction(acts, at, bytes);
}

/// Replaces an instruction with one of the same length.
fn put_instruction<A: Acts>(acts: &mut A, at: u32, bytes: &[u8])
    requires { CanReplace (A.marked acts.old) (A.made acts.old) at bytes.now }
    ensures bytes { (A.marked acts.new).bytes ≡ with_span (A.marked acts.old).bytes (at - 0x10000) bytes.now }
    ensures marks { (A.marked acts.new).marks ≡ (A.marked acts.old).marks }
    ensures whole { IsText (A.marked acts.new) }
    ensures made { A.made acts.new ≡ A.made acts.old }
    ensures keeper { A.keeper acts.new ≡ A.keeper acts.old }
    ensures log { Logs (A.logged acts.old) (A.logged acts.new) (log_of_instruction at bytes.now) }
{
    let first = bytes[0];
    let rest = &bytes[1..];
    if rest.is_empty() {
        acts.put(at, first);
        return;
    }
    put_longer(acts, at, first, rest);
}

/// Replaces an instruction of more than one byte: puts a stop at its first byte, then its further bytes, then its first byte.
fn put_longer<A: Acts>(acts: &mut A, at: u32, first: u8, rest: &[u8])
    requires whole { IsText (A.marked acts.old) }
    requires some { 0 < length rest.now }
    requires ready { AreReady (A.made acts.old) at (1 + length rest.now) }
    requires replacing { IsReplacing (A.marked acts.old) at (first ∷ rest.now) }
    ensures bytes { (A.marked acts.new).bytes ≡ with_span (A.marked acts.old).bytes (at - 0x10000) (first ∷ rest.now) }
    ensures marks { (A.marked acts.new).marks ≡ (A.marked acts.old).marks }
    ensures whole { IsText (A.marked acts.new) }
    ensures made { A.made acts.new ≡ A.made acts.old }
    ensures keeper { A.keeper acts.new ≡ A.keeper acts.old }
    ensures log { Logs (A.logged acts.old) (A.logged acts.new) (Entry.Did (Act.Put at 0xF4) ∷ Entry.Serialized
        ∷ (only_acts (puts_where any_place (at + 1) rest.now) ++ (Entry.Serialized ∷ Entry.Did (Act.Put at first) ∷ []))) }
{
    acts.put(at, STOP);
    put_rest(acts, at, rest);
    acts.put(at, first);
}

/// Puts all bytes but the first, in ascending order, while the first is a stop. It serializes before and after them.
fn put_rest<A: Acts>(acts: &mut A, at: u32, rest: &[u8])
    requires whole { IsText (A.marked acts.old) }
    requires low { 0x10000 ≤ at }
    requires high { at + 1 + length rest.now ≤ limit_of (A.marked acts.old).bytes }
    requires ready { AreReady (A.made acts.old) at (1 + length rest.now) }
    requires stopped { byte_at (A.marked acts.old).bytes at ≡ 0xF4 }
    requires closed { (now : List ℕ) → IsInterim (A.marked acts.old).bytes now at (1 + length rest.now)
        → IsClosed now (A.marked acts.old).marks }
    ensures bytes { HasPut any_place (at + 1) rest.now (length rest.now) (A.marked acts.old).bytes (A.marked acts.new).bytes }
    ensures marks { (A.marked acts.new).marks ≡ (A.marked acts.old).marks }
    ensures whole { IsText (A.marked acts.new) }
    ensures made { A.made acts.new ≡ A.made acts.old }
    ensures keeper { A.keeper acts.new ≡ A.keeper acts.old }
    ensures log { Logs (A.logged acts.old) (A.logged acts.new) (Entry.Serialized
        ∷ (only_acts (puts_where any_place (at + 1) rest.now) ++ Entry.Serialized ∷ [])) }
{
    acts.serialize(); // Each thread that comes here stops.
    for i in 0..rest.len() {
        acts.put(at + 1 + i as u32, rest[i]);
    }
    acts.serialize(); // Behind the first byte only new ones are read.
}

/// Replaces a single instruction, unless its bytes are there already.
pub(crate) fn put_single<A: Acts>(acts: &mut A, chunk: Chunk, at: u32, new: &[u8])
    requires whole { IsText (A.marked acts.old) }
    requires patch { CanPatch (A.marked acts.old) chunk at new.now }
    requires ready { AreReady (A.made acts.old) at (length new.now) }
    requires only { (i : Instr) × (first_instruction new.now ≡ Some i) × (i.len ≡ length new.now) }
    ensures patched { HasPutPatch (A.marked acts.old) (A.marked acts.new) (A.logged acts.old) (A.logged acts.new) chunk at new.now }
    ensures made { A.made acts.new ≡ A.made acts.old }
    ensures keeper { A.keeper acts.new ≡ A.keeper acts.old }
{
    put_where_new(acts, at, new);
}
