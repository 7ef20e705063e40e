//! `run` holds back no reply to a script, and `run_gathered` no more bytes than it is given.

use crate::hostile::devices::Bytewise;
use crate::lower::rows::right;
use crate::lower::writes::Counting;
use nc_lines::ReplayFault;
use nc_script::{run, run_gathered};
use std::alloc::{AllocError, Global};
use std::io::{Read, Write};
use std::test::Fail;

/// How often a script asks for the list of chunks.
const DUMPS: usize = 200;

/// A script that creates a chunk of so many bundles of nops, and then asks for the list of chunks, on lines that one read brings.
/// The last line has no line end.
fn script(alloc: Global, bundles: usize) -> Result<Vec<u8>, AllocError> {
    let mut lines = Vec::new(alloc);
    lines.extend_from_slice(b"create 00010000 ")?;
    for _ in 0..bundles.wrapping_mul(32) {
        lines.extend_from_slice(b"90")?;
    }
    for _ in 0..DUMPS {
        lines.extend_from_slice(b"\ndump")?;
    }
    Ok(lines)
}

/// The length of each list: `dump 00010000 live`, the digits, a space before them, and a line end.
fn list_len(bundles: usize) -> usize {
    bundles.wrapping_mul(64).wrapping_add(20)
}

/// Runs a script as `run` does, or holds back at most so many bytes. The function has no clause, so that proofs of its callers
/// don't deal with the contracts of both calls.
fn replay<R: Read, W: Write>(
    alloc: Global,
    reader: &mut R,
    writer: &mut W,
    most: Option<usize>,
) -> Result<(), ReplayFault> {
    match most {
        Some(most) => run_gathered(alloc, reader, writer, 256, 1, most),
        None => run(alloc, reader, writer, 256, 1),
    }
}

/// The number of bundles of the chunk, and how many bytes are held back; `None` stands for a call of `run`.
type Holding = (usize, Option<usize>);

/// A list has 84 bytes or 4,116.
#[rattlefmt::skip]
static HOLDINGS: [Holding; 13] = [
    (1, None), (1, Some(0)), (1, Some(83)), (1, Some(84)), (1, Some(85)), (1, Some(167)), (1, Some(168)), (1, Some(840)),
    (64, None), (64, Some(0)), (64, Some(4_115)), (64, Some(65_536)), (64, Some(131_072)),
];

/// Whether the writes are those of a call that holds back at most `most` bytes of lists of this length. A write brings what was
/// held back, or a list by itself, and the longest one leaves no room for another list.
fn are_bounded(writer: &Counting, len: usize, most: usize) -> bool {
    writer.longest <= most.max(len) && most < writer.longest.wrapping_add(len)
}

/// Whether all replies go out, and as the row says: each in a write of its own, or at most so many bytes together.
fn is_held(alloc: Global, lines: &[u8], row: &Holding) -> bool {
    let (bundles, most) = *row;
    let len = list_len(bundles);
    let mut reader = lines;
    let mut writer = Counting::new();
    let end = replay(alloc, &mut reader, &mut writer, most);
    let is_whole = end.is_ok() && writer.bytes == len.wrapping_mul(DUMPS).wrapping_add(3);
    match most {
        Some(most) if most > 0 => is_whole && are_bounded(&writer, len, most),
        _ => is_whole && writer.writes == DUMPS + 1,
    }
}

#[test]
fn held_back(rt: HostRuntime) -> Result<(), Fail> {
    let mut number = 0u32;
    for row in &HOLDINGS {
        number = number.wrapping_add(1);
        let is_right = match script(rt.alloc(), row.0) {
            Ok(lines) => is_held(rt.alloc(), lines.as_slice(), row),
            Err(_) => false,
        };
        right(is_right, number)?;
    }
    Ok(())
}

/// Whether each of three replies is a write of its own where each read brings one byte, however much may be held back.
fn is_held_over_no_read(alloc: Global, most: Option<usize>) -> bool {
    let mut reader = Bytewise::whole(b"dump\n\ndump");
    let mut writer = Counting::new();
    let end = replay(alloc, &mut reader, &mut writer, most);
    end.is_ok() && writer.bytes == 19 && writer.writes == 3
}

#[test]
fn held_over_no_read(rt: HostRuntime) -> Result<(), Fail> {
    let mut number = 0u32;
    for most in [None, Some(0), Some(14), Some(65_536)] {
        number = number.wrapping_add(1);
        right(is_held_over_no_read(rt.alloc(), most), number)?;
    }
    Ok(())
}
