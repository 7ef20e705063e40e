//! The text of an instruction. It has room for each name, which is tested.

/// The number of bytes that a text has room for.
const ROOM: usize = 64;

/// The number of bytes of a piece.
const PIECE: usize = 8;

/// At most seven letters, spaces after them, and the number of letters as a digit. A piece of any length is copied as eight bytes.
pub(crate) type Piece = [u8; PIECE];

/// The text of an instruction.
#[derive(Clone, Copy)]
pub struct Text {
    /// The text. What follows it means nothing, but is as printable as the pieces are.
    pub bytes: [u8; ROOM],
    /// The length of the text.
    pub len: usize,
}

/// The hexadecimal digits.
static DIGITS: [u8; 16] = *b"0123456789abcdef";

/// No text.
pub(crate) fn empty() -> Text {
    Text {
        bytes: [b' '; ROOM],
        len: 0,
    }
}

/// Adds the first bytes of a piece.
#[inline(always)]
fn push_front(text: &mut Text, piece: Piece, count: u32) {
    if text.len <= ROOM - PIECE && count <= PIECE as u32 {
        text.bytes[text.len..text.len + PIECE].copy_from_slice(&piece);
        text.len += count as usize;
    }
}

/// Adds the letters of a piece.
#[inline(always)]
pub(crate) fn push(text: &mut Text, piece: Piece) {
    let [.., digit] = piece;
    push_front(text, piece, u32::from(digit % 8));
}

/// Adds a space.
#[inline(always)]
pub(crate) fn push_space(text: &mut Text) {
    push_front(text, *b"        ", 1);
}

/// A number as eight hexadecimal digits.
#[inline(always)]
fn digits(number: u32) -> Piece {
    let mut digits = [0u8; PIECE];
    for k in 0..8u32 {
        digits[k as usize] = DIGITS[(number >> (28 - 4 * k)) as usize % 16];
    }
    digits
}

/// Adds the digits of a number, from the first one that isn't 0 on.
#[inline(always)]
fn push_digits(text: &mut Text, number: u32) {
    let zeros = (number | 1).leading_zeros() / 4 % 8;
    push_front(text, digits(number << (4 * zeros)), 8 - zeros);
}

/// Adds a number.
pub(crate) fn push_number(text: &mut Text, number: u32) {
    push(text, *b"0x     2");
    push_digits(text, number);
}

/// Adds an immediate.
pub(crate) fn push_immediate(text: &mut Text, value: u32) {
    push(text, *b"$0x    3");
    push_digits(text, value);
}

/// Adds the target of a direct transfer.
pub(crate) fn push_target(text: &mut Text, target: u32) {
    push_front(text, digits(target), 8);
}
