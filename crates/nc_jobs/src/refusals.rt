//! Lines of chunks of which some are refused, and some lines name none.

use crate::plan::Live;
use crate::random::Random;
use crate::texts::{FIRST, Hex, push_byte, push_chunk};
use std::alloc::{AllocError, Global};

/// What makes a chunk's line one that is refused: how far its base is moved, how many nops follow its piece, the bytes after
/// these, and how many bytes all that follows the piece has; nops fill it up.
struct Refused {
    shift: u32,
    before: usize,
    code: &'static [u8],
    len: usize,
}

/// One for each fault, in the faults' order.
#[rattlefmt::skip]
static REFUSED: [Refused; 7] = [
    Refused { shift: 1, before: 0, code: &[], len: 0 },
    Refused { shift: 0, before: 0, code: &[0x90], len: 1 },
    Refused { shift: 0x0400_0000, before: 0, code: &[], len: 0 },
    // a return
    Refused { shift: 0, before: 0, code: &[0xC3], len: 32 },
    // an instruction of five bytes in the last byte of a bundle
    Refused { shift: 0, before: 31, code: &[0xB8], len: 64 },
    // an indirect jump without its mask
    Refused { shift: 0, before: 0, code: &[0xFF, 0xE0], len: 32 },
    // a jump into an instruction
    Refused { shift: 0, before: 0, code: &[0xEB, 0x01, 0xB8], len: 32 },
];

/// What is added to a chunk's line so that it names none: a word more, half a byte, a letter that is no digit, an empty word.
static BAD: [&[u8]; 4] = [b" 90", b"9", b"0g", b" "];

/// Adds what follows a piece that is refused.
fn push_tail(text: &mut Vec<u8>, refused: &Refused) -> Result<(), AllocError> {
    for i in 0..refused.len {
        let byte = match i.checked_sub(refused.before) {
            Some(place) => refused.code.get(place).copied().unwrap_or(0x90),
            None => 0x90,
        };
        push_byte(text, byte)?;
    }
    Ok(())
}

/// Adds the line of this number: one of sixteen is refused, by each fault in turn, and one is a bad line.
fn push_line(
    text: &mut Vec<u8>,
    hex: &Hex<'_>,
    piece: usize,
    number: u32,
) -> Result<(), AllocError> {
    let base = FIRST.wrapping_add(number.wrapping_mul(256));
    let turn = (number / 16) as usize;
    match number % 16 {
        5 => {
            let refused = &REFUSED[turn % REFUSED.len()];
            let base = base.wrapping_add(refused.shift);
            push_chunk(text, hex, b"", Live { base, piece })?;
            push_tail(text, refused)?;
        }
        11 => {
            push_chunk(text, hex, b"", Live { base, piece })?;
            text.extend_from_slice(BAD[turn % BAD.len()])?;
        }
        _ => push_chunk(text, hex, b"", Live { base, piece })?,
    }
    text.push(b'\n')?;
    Ok(())
}

/// Lines of 30,000 chunks of 1 to 8 bundles before what is added to them.
pub fn refusal_lines(
    alloc: Global,
    hex: &Hex<'_>,
    random: &mut Random,
) -> Result<Vec<u8>, AllocError> {
    let mut text = Vec::new(alloc);
    let count = hex.count_to(8);
    for number in 0..30_000u32 {
        push_line(&mut text, hex, random.index(count), number)?;
    }
    Ok(text)
}
