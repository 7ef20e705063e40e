//! The acts of a creation and of a deletion as runs, one for each bundle and each kind of place.

ghost use Rattle.std.specs.Prelude.{◌≡◌, ◌+◌, ◌*◌, ◌/◌, ◌%◌, ◌<◌, ◌≤◌, ◌^◌, ℕ, List, length};
ghost use Rattle.nc_decode.specs.declared.instruction.Mark.{Mark};
ghost use Rattle.nc_acts.specs.Acts.{puts_where};
ghost use Rattle.nc_acts.specs.Log.{log_of_create, log_of_delete, only_acts};
ghost use Rattle.nc_host_acts.specs.Runs.{HasRuns, run_of, runs_where, runs_of_create, runs_of_delete};
ghost use Rattle.nc_host_acts.specs.Standing.{AreMarksAt};
ghost use Rattle.nc_host_acts.specs.machinery.Running.{AddsRuns, HasBits, bytes_for, picks, run_at};

use crate::act::{NcAct, bump, mark_span, serialize, write};
use crate::chunk::ReadChunk;

/// The places of a bundle that a run may include.
#[derive(Clone, Copy, Drop)]
enum Places {
    /// Those inside: all but its start.
    Inside,
    /// Its start.
    Starts,
    /// Those with a mark.
    Marked,
    /// Those without one.
    Unmarked,
}

/// The bits of a run's places in the bundle that begins at this index of a chunk's code.
fn bits_of<C: ReadChunk>(chunk: &C, from: usize, places: Places) -> u32
    requires start { from % 32 ≡ 0 }
    requires within { from + 32 ≤ length (C.code chunk.now) }
    ensures { (base : ℕ) → base % 32 ≡ 0 → HasBits (picks places (C.marks chunk.now) base) (base + from) 32 result }
{
    match places {
        Places::Inside => !1,
        Places::Starts => 1,
        Places::Marked => chunk.marked_places(from),
        Places::Unmarked => !chunk.marked_places(from),
    }
}

/// A run at this address.
fn run(places: Places, at: u32, bits: u32) -> NcAct
    ensures { result ≡ run_of (run_at places at bits) }
{
    let kind = match places {
        Places::Inside | Places::Starts => 7,
        Places::Marked | Places::Unmarked => 8,
    };
    NcAct {
        kind,
        at,
        value: bits,
    }
}

/// Writes a run for each bundle of a chunk. Returns the new number of acts.
fn write_runs<C: ReadChunk>(
    acts: &mut [NcAct],
    from: usize,
    base: u32,
    chunk: &C,
    places: Places,
) -> usize
    requires start { base % 32 ≡ 0 }
    requires high { base + length (C.code chunk.now) < 2 ^ 32 }
    requires whole { length (C.code chunk.now) % 32 ≡ 0 }
    requires room { from + length (C.code chunk.now) / 32 ≤ length acts.old }
    ensures len { length acts.new ≡ length acts.old }
    ensures count { result ≡ from + length (C.code chunk.now) / 32 }
    ensures added { AddsRuns base (C.code chunk.now) acts.old from acts.new result
        (runs_where (run_at places) (picks places (C.marks chunk.now) base) base (length (C.code chunk.now) / 32))
        (only_acts (puts_where (picks places (C.marks chunk.now) base) base (bytes_for places (C.code chunk.now)))) }
{
    let mut count = from;
    for i in 0..chunk.len() / 32 {
        let bits = bits_of(chunk, 32 * i, places);
        count = write(acts, count, run(places, base + 32 * i as u32, bits));
    }
    count
}

/// Writes the acts of the creation of a chunk at the address `base`, with the serialization, as runs into the front of a buffer: for each
/// bundle, in ascending order, one for its bytes after the first, the serialization, the marking of all places, and for each bundle one
/// for its first byte. They are two for each bundle of the chunk, and two more. What the buffer has behind them stays.
pub fn write_creation_runs<C: ReadChunk>(acts: &mut [NcAct], base: u32, chunk: &C)
    requires start { base % 32 ≡ 0 }
    requires high { base + length (C.code chunk.now) < 2 ^ 32 }
    requires whole { length (C.code chunk.now) % 32 ≡ 0 }
    requires room { 2 * (length (C.code chunk.now) / 32) + 2 ≤ length acts.old }
    // Exactly these runs, and they stand for this log.
    ensures { HasRuns acts.old acts.new (2 * (length (C.code chunk.now) / 32) + 2) base (C.code chunk.now)
        (runs_of_create base (C.code chunk.now)) (log_of_create base (C.code chunk.now)) }
{
    let count = write_runs(acts, 0, base, chunk, Places::Inside);
    let serialized = write(acts, count, serialize());
    let marked = write(acts, serialized, mark_span(base, chunk.len() as u32));
    write_runs(acts, marked, base, chunk, Places::Starts);
}

/// Writes the acts of the deletion of the chunk at the address `base`, with the serialization, as runs into the front of a buffer: for each
/// bundle, in ascending order, one for stops at its marked places, the serialization, for each bundle one for stops at its other places,
/// and the drawing of the stamp. They are two for each bundle of the chunk, and two more. What the buffer has behind them stays.
pub fn write_deletion_runs<C: ReadChunk>(acts: &mut [NcAct], base: u32, chunk: &C)
    requires start { base % 32 ≡ 0 }
    requires high { base + length (C.code chunk.now) < 2 ^ 32 }
    requires whole { length (C.code chunk.now) % 32 ≡ 0 }
    requires room { 2 * (length (C.code chunk.now) / 32) + 2 ≤ length acts.old }
    // For any text that has the chunk's marks from this base on.
    ensures { (text : List Mark) → AreMarksAt text base (length (C.code chunk.now)) (C.marks chunk.now)
        → HasRuns acts.old acts.new (2 * (length (C.code chunk.now) / 32) + 2) base (C.code chunk.now)
        (runs_of_delete text base (length (C.code chunk.now))) (log_of_delete text base (length (C.code chunk.now))) }
{
    let marked = write_runs(acts, 0, base, chunk, Places::Marked);
    let serialized = write(acts, marked, serialize());
    let count = write_runs(acts, serialized, base, chunk, Places::Unmarked);
    write(acts, count, bump());
}
