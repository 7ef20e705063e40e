//! The acts of a patch with their serializations, written into a host's buffer.

ghost use Rattle.std.specs.Prelude.{◌≡◌, ◌+◌, ◌*◌, ◌<◌, ◌≤◌, ◌^◌, ℕ, List, [], length, if◌then◌else◌};
ghost use Rattle.nc_vet.specs.Chunk.{Piece};
ghost use Rattle.nc_region.specs.Patch.{AreBytesOf, stands_there, any_place, log_of_instruction, log_of_patch};
ghost use Rattle.nc_host_acts.specs.Standing.{AreBytesAt};
ghost use Rattle.nc_host_acts.specs.Written.{AddsEntries};
ghost use Rattle.nc_host_acts.specs.machinery.Writing.{HasPutUpTo};

use crate::act::{NcAct, put, serialize, write};
use nc_decode::{STOP, decode};

/// Whether the code has these bytes from this place on.
fn stands(code: &[u8], from: usize, bytes: &[u8]) -> bool
    requires ends { from + length bytes.now ≤ length code.now }
    ensures { (text : List ℕ) (base : ℕ) → AreBytesAt text base code.now → result ≡ stands_there text (base + from) bytes.now }
{
    if bytes.is_empty() {
        return true;
    }
    code[from] == bytes[0] && stands(code, from + 1, &bytes[1..])
}

/// Writes the puts of all these bytes, in ascending order. Returns the new number of acts.
fn write_all(acts: &mut [NcAct], from: usize, at: u32, bytes: &[u8]) -> usize
    requires high { at + length bytes.now < 2 ^ 32 }
    requires room { from + length bytes.now ≤ length acts.old }
    ensures { HasPutUpTo any_place at bytes.now acts.old from (length bytes.now) acts.new result }
{
    let mut count = from;
    for i in 0..bytes.len() {
        count = write(acts, count, put(at + i as u32, bytes[i]));
    }
    count
}

/// Writes the acts that replace an instruction by one of the same length, with their serializations. Returns the new number of
/// acts.
fn write_instruction(acts: &mut [NcAct], from: usize, at: u32, bytes: &[u8]) -> usize
    requires some { 0 < length bytes.now }
    requires high { at + length bytes.now < 2 ^ 32 }
    requires room { from + 3 * length bytes.now ≤ length acts.old }
    ensures len { length acts.new ≡ length acts.old }
    ensures within { result ≤ from + 3 * length bytes.now }
    ensures written { AddsEntries acts.old from acts.new result (log_of_instruction at bytes.now) }
{
    let first = bytes[0];
    if bytes.len() == 1 {
        return write(acts, from, put(at, first));
    }
    let count = write(acts, from, put(at, STOP));
    let stopped = write(acts, count, serialize());
    let count = write_all(acts, stopped, at + 1, &bytes[1..]);
    let serialized = write(acts, count, serialize());
    write(acts, serialized, put(at, first))
}

/// Writes the acts that replace one instruction, or none if its bytes are there already.
fn write_where_new(
    acts: &mut [NcAct],
    count: usize,
    base: u32,
    code: &[u8],
    from: usize,
    bytes: &[u8],
) -> usize
    requires some { 0 < length bytes.now }
    requires ends { from + length bytes.now ≤ length code.now }
    requires high { base + length code.now < 2 ^ 32 }
    requires room { count + 3 * length bytes.now ≤ length acts.old }
    ensures len { length acts.new ≡ length acts.old }
    ensures within { result ≤ count + 3 * length bytes.now }
    ensures written { (text : List ℕ) → AreBytesAt text base code.now → AddsEntries acts.old count acts.new result
        (if stands_there text (base + from) bytes.now then [] else log_of_instruction (base + from) bytes.now) }
{
    if stands(code, from, bytes) {
        return count;
    }
    write_instruction(acts, count, base + from as u32, bytes)
}

/// Writes the acts that replace instructions of a chunk by others of the same lengths, with the serializations, behind the first `count`
/// elements of a buffer, which stay. Returns the new number of elements, which is greater by at most three for each new byte.
///
/// `code` has the bytes that stand from the address `base` on, and `new` the instructions that come from the index `from` on, in ascending
/// order. One whose bytes stand there already has no act, and one of a single byte has one put. Any other has a stop at its first byte, a
/// serialization, the puts of its other bytes, in ascending order, a serialization, and the put of its first byte. What is written for
/// bytes that aren't whole permitted instructions is not promised, but for its length.
pub fn write_patch(
    acts: &mut [NcAct],
    count: usize,
    base: u32,
    code: &[u8],
    from: usize,
    new: &[u8],
) -> usize
    requires ends { from + length new.now ≤ length code.now }
    requires high { base + length code.now < 2 ^ 32 }
    requires room { count + 3 * length new.now ≤ length acts.old }
    ensures len { length acts.new ≡ length acts.old }
    ensures within { result ≤ count + 3 * length new.now }
    ensures written { (text : List ℕ) (news : List Piece) → AreBytesAt text base code.now → AreBytesOf new.now news
        → AddsEntries acts.old count acts.new result (log_of_patch text (base + from) news) }
{
    if new.is_empty() {
        return count;
    }
    let Ok(instr) = decode(new) else {
        return count;
    };
    let len = instr.len as usize;
    let next = write_where_new(acts, count, base, code, from, &new[..len]);
    write_patch(acts, next, base, code, from + len, &new[len..])
}
