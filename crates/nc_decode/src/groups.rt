//! The entries of the opcode maps for which ModRM's reg field selects the instruction.
//!
//! `G1` to `G11` are the groups of these numbers in the manual (Intel SDM volume 2, appendix A, table A-6). Groups 6, 7 and
//! 10 are missing, since none of their instructions is permitted. At the end of a name, `I` means an immediate byte where
//! the group has another form, `Z` an immediate of the operand's size, and `V` the byte 66 as in `entries`. Bit r of a form
//! is reg r with an operand in memory; bit 8 + r is reg r with an operand in a register.

use crate::entries::{ANY, M};
use crate::entry::{Entry, Number};

/// Arithmetic on a byte with an immediate byte; all but CMP (reg 7) also locked.
pub(crate) const G1: Entry = Entry {
    number: Number::Byte,
    forms: [ANY, 0, 0, 0, 0x007F],
    ..M
};
/// Arithmetic on 16 or 32 bits with an immediate of that size; all but CMP (reg 7) also locked.
pub(crate) const G1Z: Entry = Entry {
    number: Number::Sized,
    forms: [ANY, ANY, 0, 0, 0x007F],
    ..M
};
/// Arithmetic on 16 or 32 bits with an immediate byte; all but CMP (reg 7) also locked.
pub(crate) const G1V: Entry = Entry {
    number: Number::Byte,
    forms: [ANY, ANY, 0, 0, 0x007F],
    ..M
};
/// Rotations and shifts of a byte by 1 or CL; reg 6 has no instruction.
pub(crate) const G2: Entry = Entry {
    forms: [0xBFBF, 0, 0, 0, 0],
    ..M
};
/// Rotations and shifts of 16 or 32 bits by 1 or CL; reg 6 has no instruction.
pub(crate) const G2V: Entry = Entry {
    forms: [0xBFBF, 0xBFBF, 0, 0, 0],
    ..M
};
/// Rotations and shifts of a byte by an immediate byte.
pub(crate) const G2I: Entry = Entry {
    number: Number::Byte,
    forms: [0xBFBF, 0, 0, 0, 0],
    ..M
};
/// Rotations and shifts of 16 or 32 bits by an immediate byte.
pub(crate) const G2IV: Entry = Entry {
    number: Number::Byte,
    forms: [0xBFBF, 0xBFBF, 0, 0, 0],
    ..M
};
/// On a byte: TEST with an immediate (reg 0), NOT and NEG (2, 3, also locked), MUL to IDIV (4 to 7).
pub(crate) const G3: Entry = Entry {
    number: Number::TestByte,
    forms: [0xFDFD, 0, 0, 0, 0x000C],
    ..M
};
/// On 16 or 32 bits: TEST with an immediate (reg 0), NOT and NEG (2, 3, also locked), MUL to IDIV (4 to 7).
pub(crate) const G3V: Entry = Entry {
    number: Number::TestSized,
    forms: [0xFDFD, 0xFDFD, 0, 0, 0x000C],
    ..M
};
/// INC and DEC of a byte (reg 0, 1), also locked.
pub(crate) const G4: Entry = Entry {
    forms: [0x0303, 0, 0, 0, 0x0003],
    ..M
};
/// INC and DEC (reg 0, 1, also locked), PUSH (6), and a call (2) or jump (4) to where a register points.
pub(crate) const G5: Entry = Entry {
    indirect: true,
    forms: [0x5743, 0x4343, 0, 0, 0x0003],
    ..M
};
/// BT, BTS, BTR and BTC with an immediate byte (reg 4 to 7); all but BT (4) also locked.
pub(crate) const G8: Entry = Entry {
    number: Number::Byte,
    forms: [0xF0F0, 0xF0F0, 0, 0, 0x00E0],
    ..M
};
/// CMPXCHG8B (reg 1), which compares eight bytes in memory, also locked.
pub(crate) const G9: Entry = Entry {
    forms: [0x0002, 0, 0, 0, 0x0002],
    ..M
};
/// MOV of an immediate byte (reg 0).
pub(crate) const G11: Entry = Entry {
    number: Number::Byte,
    forms: [0x0101, 0, 0, 0, 0],
    ..M
};
/// MOV of an immediate of 16 or 32 bits (reg 0).
pub(crate) const G11V: Entry = Entry {
    number: Number::Sized,
    forms: [0x0101, 0x0101, 0, 0, 0],
    ..M
};
/// NOP with an operand (reg 0).
pub(crate) const NOPV: Entry = Entry {
    forms: [0x0101, 0x0101, 0, 0, 0],
    ..M
};
