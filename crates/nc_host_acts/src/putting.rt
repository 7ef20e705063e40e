//! The acts of a creation and of a deletion with their serializations, written into a host's buffer.

ghost use Rattle.std.specs.Prelude.{◌≡◌, ◌+◌, ◌%◌, ◌==◌, ◌<◌, ◌≤◌, ◌^◌, ℕ, List, length, take, drop, replicate};
ghost use Rattle.std.specs.Int.{bit_at};
ghost use Rattle.nc_decode.specs.declared.instruction.Mark.{Mark};
ghost use Rattle.nc_acts.specs.Acts.{puts_where, is_inside};
ghost use Rattle.nc_acts.specs.Log.{log_of_create, log_of_delete};
ghost use Rattle.nc_host_acts.specs.Standing.{AreMarksAt};
ghost use Rattle.nc_host_acts.specs.Written.{HoldsLog};
ghost use Rattle.nc_host_acts.specs.machinery.Writing.{HasPutUpTo, starts_if, mark_if, marks_if, is_among};

use crate::act::{NcAct, bump, mark_span, put, serialize, write};
use crate::chunk::ReadChunk;
use nc_decode::STOP;
use nc_text::lowest_place;

/// Writes the puts of a bundle's bytes but for the first, in ascending order. Returns the new number of acts.
fn write_inside(acts: &mut [NcAct], from: usize, at: u32, bytes: &[u8]) -> usize
    requires start { at % 32 ≡ 0 }
    requires long { length bytes.now ≡ 32 }
    requires high { at + 32 ≤ 2 ^ 32 }
    requires room { from + length (puts_where is_inside at bytes.now) ≤ length acts.old }
    ensures { HasPutUpTo is_inside at bytes.now acts.old from 32 acts.new result }
{
    let mut count = from;
    for k in 1..32 {
        count = write(acts, count, put(at + k as u32, bytes[k]));
    }
    count
}

/// Writes the puts of some bytes of a bundle, which begins at `i` in the chunk and at `at` in the text: of its first byte, or,
/// with `starts` false, of the others, in ascending order. Returns the new number of acts.
fn write_bundle<C: ReadChunk>(
    acts: &mut [NcAct],
    from: usize,
    at: u32,
    chunk: &C,
    i: usize,
    starts: bool,
) -> usize
    requires start { at % 32 ≡ 0 }
    requires bundle { i % 32 ≡ 0 }
    requires within { i + 32 ≤ length (C.code chunk.now) }
    requires high { at + 32 ≤ 2 ^ 32 }
    requires room { from + length (puts_where (starts_if starts) at (take 32 (drop i (C.code chunk.now)))) ≤ length acts.old }
    ensures { HasPutUpTo (starts_if starts) at (take 32 (drop i (C.code chunk.now))) acts.old from 32 acts.new result }
{
    if starts {
        return write(acts, from, put(at, chunk.byte(i)));
    }
    write_inside(acts, from, at, &chunk.bytes(i))
}

/// Writes the puts of a chunk's bundle starts, or of its other bytes, in ascending order. Returns the new number of acts.
fn write_code<C: ReadChunk>(
    acts: &mut [NcAct],
    from: usize,
    base: u32,
    chunk: &C,
    starts: bool,
) -> usize
    requires start { base % 32 ≡ 0 }
    requires high { base + length (C.code chunk.now) < 2 ^ 32 }
    requires whole { length (C.code chunk.now) % 32 ≡ 0 }
    requires room { from + length (puts_where (starts_if starts) base (C.code chunk.now)) ≤ length acts.old }
    ensures { HasPutUpTo (starts_if starts) base (C.code chunk.now) acts.old from (length (C.code chunk.now)) acts.new result }
{
    let mut count = from;
    for n in 0..chunk.len() / 32 {
        count = write_bundle(acts, count, base + 32 * n as u32, chunk, 32 * n, starts);
    }
    count
}

/// Writes stops at the places whose bits are set among the 32 from this address on, in ascending order. Returns the new number
/// of acts.
fn write_places(acts: &mut [NcAct], from: usize, at: u32, places: u32) -> usize
    requires high { at + 32 ≤ 2 ^ 32 }
    requires room { from + length (puts_where (is_among places at) at (replicate 32 0xF4)) ≤ length acts.old }
    ensures { HasPutUpTo (is_among places at) at (replicate 32 0xF4) acts.old from 32 acts.new result }
{
    let mut count = from;
    let mut left = places;
    while left != 0 {
        let (k, others) = lowest_place(left);
        count = write(acts, count, put(at + k, STOP));
        left = others;
    }
    count
}

/// The marked places of 32 of a chunk that begin at a multiple of 32, or, with `marked` false, its others, as bits.
fn places_of<C: ReadChunk>(chunk: &C, i: usize, marked: bool) -> u32
    requires start { i % 32 ≡ 0 }
    requires within { i + 32 ≤ length (C.code chunk.now) }
    ensures { (k : ℕ) → k < 32 → (bit_at result k == 1) ≡ mark_if marked (C.marks chunk.now (i + k)) }
{
    let places = chunk.marked_places(i);
    if marked { places } else { !places }
}

/// Writes stops at a chunk's marked places, or at its others, in ascending order. Returns the new number of acts.
fn write_stops<C: ReadChunk>(
    acts: &mut [NcAct],
    from: usize,
    base: u32,
    chunk: &C,
    marked: bool,
) -> usize
    requires high { base + length (C.code chunk.now) < 2 ^ 32 }
    requires whole { length (C.code chunk.now) % 32 ≡ 0 }
    requires room { from + length (puts_where (marks_if marked (C.marks chunk.now) base) base (replicate (length (C.code chunk.now)) 0xF4))
        ≤ length acts.old }
    ensures { HasPutUpTo (marks_if marked (C.marks chunk.now) base) base (replicate (length (C.code chunk.now)) 0xF4) acts.old from
        (length (C.code chunk.now)) acts.new result }
{
    let mut count = from;
    for n in 0..chunk.len() / 32 {
        let places = places_of(chunk, 32 * n, marked);
        count = write_places(acts, count, base + 32 * n as u32, places);
    }
    count
}

/// Writes the acts of the creation of a chunk at the address `base`, with the serialization, into the front of a buffer: the puts of
/// the bytes that aren't bundle starts, in ascending order, the serialization, the marking of all places, and the puts of the bundle
/// starts, in ascending order. They are two more than the chunk has bytes. What the buffer has behind them stays.
pub fn write_creation<C: ReadChunk>(acts: &mut [NcAct], base: u32, chunk: &C)
    requires start { base % 32 ≡ 0 }
    requires high { base + length (C.code chunk.now) < 2 ^ 32 }
    requires whole { length (C.code chunk.now) % 32 ≡ 0 }
    requires room { length (C.code chunk.now) + 2 ≤ length acts.old }
    ensures { HoldsLog acts.old acts.new (length (C.code chunk.now) + 2) (log_of_create base (C.code chunk.now)) }
{
    let count = write_code(acts, 0, base, chunk, false);
    let serialized = write(acts, count, serialize());
    let marked = write(acts, serialized, mark_span(base, chunk.len() as u32));
    write_code(acts, marked, base, chunk, true);
}

/// Writes the acts of the deletion of the chunk at the address `base`, with the serialization, into the front of a buffer: stops at the
/// marked places, in ascending order, the serialization, stops at the other places, in ascending order, and the drawing of the stamp.
/// They are two more than the chunk has bytes. What the buffer has behind them stays.
pub fn write_deletion<C: ReadChunk>(acts: &mut [NcAct], base: u32, chunk: &C)
    requires high { base + length (C.code chunk.now) < 2 ^ 32 }
    requires whole { length (C.code chunk.now) % 32 ≡ 0 }
    requires room { length (C.code chunk.now) + 2 ≤ length acts.old }
    // For any text that has the chunk's marks from this base on.
    ensures { (text : List Mark) → AreMarksAt text base (length (C.code chunk.now)) (C.marks chunk.now)
        → HoldsLog acts.old acts.new (length (C.code chunk.now) + 2) (log_of_delete text base (length (C.code chunk.now))) }
{
    let marked = write_stops(acts, 0, base, chunk, true);
    let serialized = write(acts, marked, serialize());
    let count = write_stops(acts, serialized, base, chunk, false);
    write(acts, count, bump());
}
