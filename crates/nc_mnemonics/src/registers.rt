//! The names of registers, and the scales of indexes.

use crate::text::Piece;

/// The size of a register.
#[derive(Clone, Copy)]
pub(crate) enum Size {
    /// A byte.
    Byte,
    /// 16 bits.
    Word,
    /// 32 bits.
    Long,
}

/// The registers of each `Size`, in the same order.
#[rattlefmt::skip]
static REGISTERS: [[Piece; 8]; 3] = [
    [*b"%al    3", *b"%cl    3", *b"%dl    3", *b"%bl    3", *b"%ah    3", *b"%ch    3", *b"%dh    3", *b"%bh    3"],
    [*b"%ax    3", *b"%cx    3", *b"%dx    3", *b"%bx    3", *b"%sp    3", *b"%bp    3", *b"%si    3", *b"%di    3"],
    [*b"%eax   4", *b"%ecx   4", *b"%edx   4", *b"%ebx   4", *b"%esp   4", *b"%ebp   4", *b"%esi   4", *b"%edi   4"],
];

/// The registers as an index, after a comma. None has the name that objdump gives it.
#[rattlefmt::skip]
static INDEXES: [Piece; 8] = [
    *b",%eax  5", *b",%ecx  5", *b",%edx  5", *b",%ebx  5",
    *b",%eiz  5", *b",%ebp  5", *b",%esi  5", *b",%edi  5",
];

/// The registers as a base, after a parenthesis.
#[rattlefmt::skip]
static BASES: [Piece; 8] = [
    *b"(%eax  5", *b"(%ecx  5", *b"(%edx  5", *b"(%ebx  5",
    *b"(%esp  5", *b"(%ebp  5", *b"(%esi  5", *b"(%edi  5",
];

/// The scales of an index, after a comma.
static SCALES: [Piece; 4] = [*b",1     2", *b",2     2", *b",4     2", *b",8     2"];

/// A register, by the low three bits of a number.
pub(crate) fn register(size: Size, number: u8) -> Piece {
    REGISTERS[usize::from(size as u8)][usize::from(number % 8)]
}

/// A comma and a register as an index, by the low three bits of a number.
pub(crate) fn index(number: u8) -> Piece {
    INDEXES[usize::from(number % 8)]
}

/// A parenthesis and a register as a base, by the low three bits of a number.
pub(crate) fn base(number: u8) -> Piece {
    BASES[usize::from(number % 8)]
}

/// A comma and a scale, by the low two bits of its logarithm.
pub(crate) fn scale(number: u8) -> Piece {
    SCALES[usize::from(number % 4)]
}
