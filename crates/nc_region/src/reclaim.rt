//! Unmarking retired chunks and removing them from the list.

ghost use Rattle.std.specs.Prelude.{◌≡◌, ◌-◌, ◌<◌, ◌≤◌, ◌^◌, ℕ, List, [], length, IsTrue, false};
ghost use Rattle.nc_list.specs.declared.chunk.Chunk.{Chunk};
ghost use Rattle.nc_region.specs.Region.{IsRegion};
ghost use Rattle.nc_region.specs.Deletion.{freed};
ghost use Rattle.nc_region.specs.machinery.Freeing.{AreTakenOut, AreUnmarked, AreFreed, AllFreed};

use nc_acts::Acts;
use nc_list::{ChunkList, Entry};

/// The room for chunks with which a reclaim begins.
const FEW: usize = 16;

/// The room once `FEW` chunks were due at once. It is enough for a leaf of the list.
const MANY: usize = 64;

/// Unmarks the spans of chunks that have been taken out of a region's list, in ascending order.
fn unmark_taken<A: Acts>(acts: &mut A, taken: &[Entry])
    requires { (least : ℕ) × (left : List Chunk) × AreTakenOut least (A.marked acts.old) left taken.now }
    ensures region { (least : ℕ) (left : List Chunk) → AreTakenOut least (A.marked acts.old) left taken.now → IsRegion (A.marked acts.new) left }
    ensures unmarks { AreUnmarked taken.now (A.marked acts.old) (A.marked acts.new)
        (A.logged acts.old) (A.logged acts.new) }
    ensures made { A.made acts.new ≡ A.made acts.old }
    ensures keeper { A.keeper acts.new ≡ A.keeper acts.old }
{
    for i in 0..taken.len() {
        let chunk = taken[i].chunk();
        acts.unmark_span(chunk.base, chunk.length);
    }
}

/// Unmarks the spans of retired chunks of the list with a stamp of at most this number, in ascending order, and removes these chunks,
/// as many at once as there is room for. It returns false once none is left, or true once it has removed `enough` at once.
#[inline(always)]
fn free_until<A: Acts>(
    acts: &mut A,
    chunks: &mut ChunkList,
    least: u64,
    room: &mut [Entry],
    enough: usize,
) -> bool
    requires region { IsRegion (A.marked acts.old) chunks.old }
    requires least { least < 2 ^ 64 - 1 }
    requires some { 0 < length room.old }
    requires few { length room.old < 2 ^ 32 }
    ensures freed { AreFreed least chunks.old chunks.new (A.marked acts.old) (A.marked acts.new)
        (A.logged acts.old) (A.logged acts.new) }
    ensures none { result ≡ false → freed least chunks.new ≡ [] }
    ensures full { IsTrue result → enough ≤ length room.old }
    ensures made { A.made acts.new ≡ A.made acts.old }
    ensures keeper { A.keeper acts.new ≡ A.keeper acts.old }
{
    loop {
        let count = chunks.take_due(least, room);
        if count == 0 {
            return false;
        }
        unmark_taken(acts, &room[..count]);
        if count == enough {
            return true;
        }
    }
}

/// Unmarks the span of each retired chunk of the list with a stamp of at most this number, in ascending order, and removes these
/// chunks, up to `MANY` at once. It isn't inlined, so that its room costs nothing where few are due.
#[inline(never)]
fn free_many<A: Acts>(acts: &mut A, chunks: &mut ChunkList, least: u64)
    requires region { IsRegion (A.marked acts.old) chunks.old }
    requires least { least < 2 ^ 64 - 1 }
    ensures freed { AllFreed least chunks.old chunks.new (A.marked acts.old) (A.marked acts.new)
        (A.logged acts.old) (A.logged acts.new) }
    ensures made { A.made acts.new ≡ A.made acts.old }
    ensures keeper { A.keeper acts.new ≡ A.keeper acts.old }
{
    let mut room = [Entry::blank(); MANY];
    // More than the room holds are never removed at once, so all are removed.
    free_until(acts, chunks, least, &mut room, MANY + 1);
}

/// Unmarks the span of each retired chunk of the list with a stamp of at most this number, in ascending order, and removes these
/// chunks, up to `FEW` at once. Once `FEW` were removed at once, `free_many` goes on. It isn't inlined, so that its room costs nothing
/// where none is due.
#[inline(never)]
fn free_few<A: Acts>(acts: &mut A, chunks: &mut ChunkList, least: u64)
    requires region { IsRegion (A.marked acts.old) chunks.old }
    requires least { least < 2 ^ 64 - 1 }
    ensures freed { AllFreed least chunks.old chunks.new (A.marked acts.old) (A.marked acts.new)
        (A.logged acts.old) (A.logged acts.new) }
    ensures made { A.made acts.new ≡ A.made acts.old }
    ensures keeper { A.keeper acts.new ≡ A.keeper acts.old }
{
    let mut room = [Entry::blank(); FEW];
    if !free_until(acts, chunks, least, &mut room, FEW) {
        return;
    }
    free_many(acts, chunks, least);
}

/// Unmarks the span of each retired chunk of the list with a stamp of at most this number, in ascending order, removes these
/// chunks, and returns their number.
pub(crate) fn free_due<A: Acts>(acts: &mut A, chunks: &mut ChunkList, least: u64) -> u32
    requires region { IsRegion (A.marked acts.old) chunks.old }
    requires few { length chunks.old < 2 ^ 32 }
    requires least { least < 2 ^ 64 - 1 }
    ensures count { result ≡ length (freed least chunks.old) }
    ensures freed { AllFreed least chunks.old chunks.new (A.marked acts.old) (A.marked acts.new)
        (A.logged acts.old) (A.logged acts.new) }
    ensures made { A.made acts.new ≡ A.made acts.old }
    ensures keeper { A.keeper acts.new ≡ A.keeper acts.old }
{
    if !chunks.may_be_due(least) {
        return 0;
    }
    let before = chunks.len();
    free_few(acts, chunks, least);
    (before - chunks.len()) as u32
}
