//! The names that rows have, and their letters.

use crate::text::Piece;

/// A name, or the letters before those of a condition. Those have the manual's `cc` for the condition.
#[rattlefmt::skip]
#[derive(Clone, Copy)]
pub(crate) enum Word {
    Bsf, Bsr, Bswap,
    Call, Cbtw, Clc, Cld, Cltd, Cmc, Cmovcc, Cmps, Cmpsb, Cmpxchg, Cpuid, Cwtd, Cwtl,
    Dec, Hlt, Imul, Inc, Jcc, Jecxz, Jmp,
    Lea, Leave, Lods, Loop, Loope, Loopne,
    Mov, Movs, Movsb, Movsw, Movzb, Movzw, Nop, Pop, Push,
    Scas, Setcc, Shld, Shrd, Stc, Std, Stos, Test, Ud2,
    Xadd, Xchg,
}

/// The letters of each `Word`, in the same order.
#[rattlefmt::skip]
static LETTERS: [Piece; 49] = [
    *b"bsf    3", *b"bsr    3", *b"bswap  5", *b"call   4", *b"cbtw   4",
    *b"clc    3", *b"cld    3", *b"cltd   4", *b"cmc    3", *b"cmov   4",
    *b"cmps   4", *b"cmpsb  5", *b"cmpxchg7", *b"cpuid  5", *b"cwtd   4",
    *b"cwtl   4", *b"dec    3", *b"hlt    3", *b"imul   4", *b"inc    3",
    *b"j      1", *b"jecxz  5", *b"jmp    3", *b"lea    3", *b"leave  5",
    *b"lods   4", *b"loop   4", *b"loope  5", *b"loopne 6", *b"mov    3",
    *b"movs   4", *b"movsb  5", *b"movsw  5", *b"movzb  5", *b"movzw  5",
    *b"nop    3", *b"pop    3", *b"push   4", *b"scas   4", *b"set    3",
    *b"shld   4", *b"shrd   4", *b"stc    3", *b"std    3", *b"stos   4",
    *b"test   4", *b"ud2    3", *b"xadd   4", *b"xchg   4",
];

/// Eight names, of which three bits choose one.
#[derive(Clone, Copy)]
pub(crate) enum Group {
    /// Arithmetic, also in group 1.
    Arithmetic,
    /// Rotations and shifts, group 2.
    Shifts,
    /// The instructions of group 3 that have one operand.
    Unary,
    /// Tests and changes of a bit, also in group 8.
    Bits,
}

/// The names of each `Group`, in the same order.
#[rattlefmt::skip]
static GROUPS: [[Piece; 8]; 4] = [
    [*b"add    3", *b"or     2", *b"adc    3", *b"sbb    3", *b"and    3", *b"sub    3", *b"xor    3", *b"cmp    3"],
    [*b"rol    3", *b"ror    3", *b"rcl    3", *b"rcr    3", *b"shl    3", *b"shr    3", *b"        ", *b"sar    3"],
    [*b"        ", *b"        ", *b"not    3", *b"neg    3", *b"mul    3", *b"imul   4", *b"div    3", *b"idiv   4"],
    [*b"        ", *b"        ", *b"        ", *b"        ", *b"bt     2", *b"bts    3", *b"btr    3", *b"btc    3"],
];

/// The conditions.
#[rattlefmt::skip]
static CONDITIONS: [Piece; 16] = [
    *b"o      1", *b"no     2", *b"b      1", *b"ae     2",
    *b"e      1", *b"ne     2", *b"be     2", *b"a      1",
    *b"s      1", *b"ns     2", *b"p      1", *b"np     2",
    *b"l      1", *b"ge     2", *b"le     2", *b"g      1",
];

/// The letters of a word.
pub(crate) fn letters(word: Word) -> Piece {
    LETTERS[usize::from(word as u8)]
}

/// The name in a group, by the low three bits of a number.
pub(crate) fn member(group: Group, number: u8) -> Piece {
    GROUPS[usize::from(group as u8)][usize::from(number % 8)]
}

/// The letters of a condition, by the low four bits of a number.
pub(crate) fn condition(number: u8) -> Piece {
    CONDITIONS[usize::from(number % 16)]
}
