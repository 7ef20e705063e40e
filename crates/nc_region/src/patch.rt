//! A patch of a live chunk: judged first, then made.

ghost use Rattle.std.specs.Prelude.{◌≡◌, ◌+◌, ◌≤◌, length, OnOk, OnErr, IfErr};
ghost use Rattle.nc_text.specs.Marks.{mark_at};
ghost use Rattle.nc_text.specs.Places.{InRegion};
ghost use Rattle.nc_text.specs.Ready.{AreReady};
ghost use Rattle.nc_text.specs.MarkedText.{IsText};
ghost use Rattle.nc_region.specs.machinery.PatchSteps.{CanPatch, HasPutPatch, LiesInValid, MayRefuseIn};

mod judge;
mod put;

use crate::fault::ModifyFault;
pub(crate) use judge::is_patch_span;
use judge::{judge_each, judge_single, single};
use nc_acts::Acts;
use nc_decode::{Mark, START};
use nc_list::Chunk;
use put::{put_patch, put_single};

/// The mark at an address of the text, or `Unmarked` outside.
pub(crate) fn mark_within<A: Acts>(acts: &A, at: u32) -> Mark
    ensures { InRegion (A.marked acts.now).bytes at → result ≡ mark_at (A.marked acts.now).marks at }
{
    if START <= at && at < acts.limit() {
        acts.mark(at)
    } else {
        Mark::Unmarked
    }
}

/// Replaces instructions of a live chunk, or refuses to and changes nothing. The mark is that of the address. Nearly all patches
/// are of a single instruction, so that one is decoded only once.
pub(crate) fn patch<A: Acts>(
    acts: &mut A,
    chunk: Chunk,
    at: u32,
    mark: Mark,
    new: &[u8],
) -> Result<(), ModifyFault>
    requires place { LiesInValid (A.marked acts.old) chunk at mark }
    requires ends { at + length new.now ≤ chunk.base + chunk.length }
    requires ready { AreReady (A.made acts.old) at (length new.now) }
    ensures can { OnOk result (CanPatch (A.marked acts.old) chunk at new.now) }
    ensures patched { OnOk result
        (HasPutPatch (A.marked acts.old) (A.marked acts.new) (A.logged acts.old) (A.logged acts.new) chunk at new.now) }
    ensures marks { (A.marked acts.new).marks ≡ (A.marked acts.old).marks }
    ensures whole { IsText (A.marked acts.new) }
    ensures made { A.made acts.new ≡ A.made acts.old }
    ensures keeper { A.keeper acts.new ≡ A.keeper acts.old }
    ensures unchanged { OnErr result ((A.marked acts.new ≡ A.marked acts.old)
        × (A.logged acts.new ≡ A.logged acts.old)) }
    ensures refused { IfErr result (MayRefuseIn (A.marked acts.old) chunk at new.now) }
{
    if let Some(instr) = single(new) {
        judge_single(acts, chunk, at, mark, instr, new)?;
        put_single(acts, chunk, at, new);
        return Ok(());
    }
    judge_each(acts, chunk, at, new)?;
    put_patch(acts, chunk, at, new);
    Ok(())
}
