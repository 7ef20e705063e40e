//! The states of the automaton.

/// What the automaton expects after some bytes, in the order of the rows of its table.
///
/// A name that begins with `After` says what has just been read; any other name says what must follow. If the instruction
/// ends with a number, `Byte`, `Word` or `Long` at the end of the name means that it has 1, 2 or 4 bytes. A digit after
/// `Mask`, `Pair` or `AfterMask` is the masked register.
#[derive(Clone, Copy)]
pub(crate) enum State {
    /// No permitted instruction begins with these bytes.
    Dead,

    // An opcode, after a prefix or 0F.
    After66,
    AfterF3,
    AfterF2,
    AfterF0,
    After0F,
    After66_0F,
    AfterF0_0F,

    // ModRM. `Any` and `Memory` permit the forms `ANY` and `MEM` of `entries`. Groups are those of `groups`, with all their
    // forms or only those that may be locked.
    /// INC and DEC with an operand in memory, for group 5 too.
    Group4Locked,
    Group3LockedByte,
    Group3LockedLong,
    Group1LockedByte,
    Group1LockedLong,
    Group8LockedByte,
    Memory,
    Nop,
    Group11Byte,
    Group11Word,
    Group11Long,
    Group4,
    /// Group 5 without its indirect transfers, which are permitted only after a mask.
    Group5,
    Group2,
    Group2Byte,
    Group8Byte,
    Group3Byte,
    Group3Word,
    Group3Long,
    Any,
    AnyByte,
    AnyWord,
    AnyLong,
    /// Any form, and a byte after it; with a register, the instruction may be a mask.
    After83,

    // The immediate byte after 83 and a register: E0 makes the instruction a mask.
    Mask0,
    Mask1,
    Mask2,
    Mask3,
    Mask5,
    Mask6,
    Mask7,

    // ModRM of FF directly after a mask.
    Pair0,
    Pair1,
    Pair2,
    Pair3,
    Pair5,
    Pair6,
    Pair7,

    // SIB after ModRM with mod 0.
    Sib,
    SibByte,
    SibWord,
    SibLong,

    // The last 1 to 9 bytes.
    Left1,
    Left2,
    Left3,
    Left4,
    Left5,
    Left6,
    Left7,
    Left8,
    Left9,

    // A displacement of a direct transfer: one byte, or the last 1 to 4 of four.
    Short,
    Near1,
    Near2,
    Near3,
    Near4,

    // ModRM of CMPXCHG8B.
    Group9,

    // The next instruction. All states from here on are at the end of one.
    End,
    AfterMask0,
    AfterMask1,
    AfterMask2,
    AfterMask3,
    AfterMask5,
    AfterMask6,
    AfterMask7,
    AfterShort,
    AfterNear,
    AfterPair,
}
