//! An address and bytes, parsed from a text at once and from a list of its words.

use crate::lower::rows::right;
use nc_lines::{placed_at, placed_of, words_of};
use std::alloc::{AllocError, Global};
use std::test::Fail;

/// A text, and the address and the bytes that its two words denote.
type Placed = (&'static [u8], Option<(u32, &'static [u8])>);

#[rattlefmt::skip]
static PLACED: [Placed; 22] = [
    (b"00010000 90", Some((0x10000, &[0x90]))),
    (b"00010000 -", Some((0x10000, &[]))),
    (b"FEDCBA98 0aFf", Some((0xFEDC_BA98, &[0x0A, 0xFF]))),
    (b"00010020 000102030405060708090a0b0c0d0e0f101112",
        Some((0x10020, &[0, 1, 2, 3, 4, 5, 6, 7, 8, 9, 10, 11, 12, 13, 14, 15, 16, 17, 18]))),
    (b"", None),
    (b" ", None),
    (b"00010000", None),
    (b"00010000 ", None),
    (b" 00010000 90", None),
    (b"00010000  90", None),
    (b"00010000 90 ", None),
    (b"00010000 90 90", None),
    (b"00010000 - -", None),
    (b"00010000 --", None),
    (b"0001000 90", None),
    (b"000100000 90", None),
    (b"0001000g 90", None),
    (b"00010000 9", None),
    (b"00010000 9g", None),
    (b"00010000\t90", None),
    (b"00010000 000102030405060708090a0b0c0d0e0g101112", None),
    (b"00010000 000102030405060708090a0b0c0d0e0f10 112", None),
];

/// Whether that is the address, and these the bytes.
fn is_placed(found: &Option<(u32, Vec<u8>)>, due: &Option<(u32, &'static [u8])>) -> bool {
    match (found, due) {
        (Some((at, bytes)), Some((due_at, due_bytes))) => {
            at == due_at && bytes.as_slice() == *due_bytes
        }
        (None, None) => true,
        _ => false,
    }
}

/// Whether a text denotes this, at once and by its words.
fn denotes(alloc: Global, row: &Placed) -> Result<bool, AllocError> {
    let (text, due) = row;
    let words = words_of(alloc, text)?;
    let by_words = placed_of(alloc, words.as_slice())?;
    let at_once = placed_at(alloc, text)?;
    Ok(is_placed(&by_words, due) && is_placed(&at_once, due))
}

#[test]
fn placed(rt: HostRuntime) -> Result<(), Fail> {
    let mut number = 0u32;
    for row in &PLACED {
        number = number.wrapping_add(1);
        right(denotes(rt.alloc(), row)?, number)?;
    }
    Ok(())
}
