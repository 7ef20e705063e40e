//! The entries of the opcode maps.
//!
//! A name says what follows the opcode, in the letters of the manual's opcode maps (Intel SDM volume 2, appendix A):
//! `OP` nothing, `IB` a byte, `IZ` four bytes (two after 66), `OFF` a memory offset, `M` ModRM with its SIB and
//! displacement, `MIB` and `MIZ` ModRM and then an immediate. Transfers and LEA have their own names, with `B` for a
//! displacement of one byte and `Z` for one of four. Letters at the end name the prefixes that may precede the opcode:
//! `V` the byte 66, which gives the operand 16 bits, and `L` the lock prefix F0, only with an operand in memory. The five
//! forms are those without a prefix and after 66, F3, F2 and F0.

use crate::entry::{Entry, Number};
use crate::instruction::Flow;

/// Every form of ModRM: any reg field, with an operand in memory (low byte) or in a register (high byte).
pub(crate) const ANY: u16 = 0xFFFF;
/// Any reg field, with an operand in memory.
const MEM: u16 = 0x00FF;

// ---- the opcode by itself, or with a number after it

/// No permitted instruction.
pub(crate) const NO: Entry = Entry {
    operand: false,
    number: Number::Absent,
    flow: Flow::Next,
    indirect: false,
    forms: [0, 0, 0, 0, 0],
};

/// The opcode by itself.
pub(crate) const OP: Entry = Entry {
    forms: [1, 0, 0, 0, 0],
    ..NO
};
/// The opcode by itself, also after 66.
pub(crate) const OPV: Entry = Entry {
    forms: [1, 1, 0, 0, 0],
    ..NO
};
/// A string instruction that F3 may repeat, on bytes: MOVS, STOS.
pub(crate) const STR: Entry = Entry {
    forms: [1, 0, 1, 0, 0],
    ..NO
};
/// A string instruction that F3 may repeat, on 16 or 32 bits.
pub(crate) const STRV: Entry = Entry {
    forms: [1, 1, 1, 0, 0],
    ..NO
};
/// A string instruction that compares, which F3 and F2 may repeat, on bytes: CMPS, SCAS.
pub(crate) const SCN: Entry = Entry {
    forms: [1, 0, 1, 1, 0],
    ..NO
};
/// A string instruction that compares, which F3 and F2 may repeat, on 16 or 32 bits.
pub(crate) const SCNV: Entry = Entry {
    forms: [1, 1, 1, 1, 0],
    ..NO
};

/// An immediate byte.
pub(crate) const IB: Entry = Entry {
    number: Number::Byte,
    forms: [1, 0, 0, 0, 0],
    ..NO
};
/// An immediate byte, also after 66.
pub(crate) const IBV: Entry = Entry {
    number: Number::Byte,
    forms: [1, 1, 0, 0, 0],
    ..NO
};
/// An immediate of the operand's size.
pub(crate) const IZV: Entry = Entry {
    number: Number::Sized,
    forms: [1, 1, 0, 0, 0],
    ..NO
};
/// The address of a byte.
pub(crate) const OFF: Entry = Entry {
    number: Number::Offset,
    forms: [1, 0, 0, 0, 0],
    ..NO
};
/// The address of 16 or 32 bits.
pub(crate) const OFFV: Entry = Entry {
    number: Number::Offset,
    forms: [1, 1, 0, 0, 0],
    ..NO
};

// ---- no opcode

/// 0F, the first byte of an opcode of two bytes.
pub(crate) const ESC: Entry = NO;
/// The prefix 66.
pub(crate) const P66: Entry = NO;
/// The prefix F0.
pub(crate) const PF0: Entry = NO;
/// The prefix F2.
pub(crate) const PF2: Entry = NO;
/// The prefix F3.
pub(crate) const PF3: Entry = NO;

// ---- transfers

/// A branch with a displacement of one byte: Jcc, LOOP, JECXZ.
pub(crate) const JCCB: Entry = Entry {
    number: Number::Short,
    flow: Flow::Branch,
    forms: [1, 0, 0, 0, 0],
    ..NO
};
/// A branch with a displacement of four bytes: Jcc.
pub(crate) const JCCZ: Entry = Entry {
    number: Number::Near,
    flow: Flow::Branch,
    forms: [1, 0, 0, 0, 0],
    ..NO
};
/// A jump with a displacement of one byte.
pub(crate) const JMPB: Entry = Entry {
    number: Number::Short,
    flow: Flow::Jump,
    forms: [1, 0, 0, 0, 0],
    ..NO
};
/// A jump with a displacement of four bytes.
pub(crate) const JMPZ: Entry = Entry {
    number: Number::Near,
    flow: Flow::Jump,
    forms: [1, 0, 0, 0, 0],
    ..NO
};
/// A call with a displacement of four bytes.
pub(crate) const CALL: Entry = Entry {
    number: Number::Near,
    flow: Flow::Call,
    forms: [1, 0, 0, 0, 0],
    ..NO
};
/// HLT and UD2, at which a thread traps.
pub(crate) const TRAP: Entry = Entry {
    flow: Flow::Stop,
    forms: [1, 0, 0, 0, 0],
    ..NO
};

// ---- ModRM

/// ModRM.
pub(crate) const M: Entry = Entry {
    operand: true,
    forms: [ANY, 0, 0, 0, 0],
    ..NO
};
/// ModRM, also after 66.
pub(crate) const MV: Entry = Entry {
    forms: [ANY, ANY, 0, 0, 0],
    ..M
};
/// ModRM, also locked.
pub(crate) const ML: Entry = Entry {
    forms: [ANY, 0, 0, 0, MEM],
    ..M
};
/// ModRM, also after 66 and also locked, but never both.
pub(crate) const MVL: Entry = Entry {
    forms: [ANY, ANY, 0, 0, MEM],
    ..M
};
/// ModRM and an immediate byte, also after 66.
pub(crate) const MIBV: Entry = Entry {
    number: Number::Byte,
    forms: [ANY, ANY, 0, 0, 0],
    ..M
};
/// ModRM and an immediate of the operand's size.
pub(crate) const MIZV: Entry = Entry {
    number: Number::Sized,
    forms: [ANY, ANY, 0, 0, 0],
    ..M
};
/// LEA: ModRM with an operand in memory.
pub(crate) const LEA: Entry = Entry {
    forms: [MEM, MEM, 0, 0, 0],
    ..M
};
