//! What a row of the table of names has.

use crate::words::{Group, Word};

/// An operand. The names of most are those of the manual's opcode maps (Intel SDM volume 2, appendix A).
///
/// A `b` at the end means a byte, a `w` 16 bits, and a `v` 32 bits, or 16 after the prefix 66.
#[derive(Clone, Copy)]
pub(crate) enum Operand {
    /// The register or the memory that ModRM's mod and rm fields name.
    Eb,
    Ew,
    Ev,
    /// The register that ModRM's reg field names.
    Gb,
    Gv,
    /// The register that the opcode's low three bits name.
    Zb,
    Zv,
    /// The register AL.
    Al,
    /// The register EAX, or AX.
    Ax,
    /// The register CL.
    Cl,
    /// An immediate byte.
    Ib,
    /// An immediate byte, extended by its sign to 32 bits, or to 16.
    Is,
    /// An immediate of 32 bits, or of 16.
    Iz,
    /// The memory at an address of 32 bits.
    O,
    /// The target of a direct transfer.
    J,
    /// The register that ModRM's rm field names, which holds a target.
    Rt,
    /// The memory at ESI, in the data segment.
    X,
    /// The memory at EDI, in the extra segment.
    Y,
}

/// The operands of some opcodes in the manual's order, in which the one that is written comes first.
#[derive(Clone, Copy)]
pub(crate) enum Operands {
    None,
    One(Operand),
    Two(Operand, Operand),
    Three(Operand, Operand, Operand),
}

/// The name of some opcodes.
#[derive(Clone, Copy)]
pub(crate) enum Name {
    /// The same for all.
    Same(Word),
    /// By bits 3 to 5 of the opcode.
    ByOpcode(Group),
    /// By the reg field of ModRM, which is bits 3 to 5 of it.
    ByField(Group),
    /// These letters, and then those of the condition in bits 0 to 3 of the opcode.
    If(Word),
}

/// What follows a name and says how large the operand is. `b` means a byte, `l` 32 bits, and `w` 16.
#[derive(Clone, Copy)]
pub(crate) enum Suffix {
    /// None.
    Never,
    /// `b` where ModRM names memory.
    Byte,
    /// `l` or `w` where ModRM names memory.
    Sized,
    /// `l` or `w`.
    Always,
    /// `w` after the prefix 66, else none.
    Word,
    /// `8b`, which means eight bytes.
    Eight,
}

/// Some opcodes.
#[derive(Clone, Copy)]
pub(crate) struct Row {
    /// The bits of an instruction's key that count.
    pub mask: u32,
    /// Their values. The key of an instruction is the prefix 66 if there is one, the opcode, with 0F if there is one, and the byte after it.
    pub key: u32,
    pub name: Name,
    pub suffix: Suffix,
    pub operands: Operands,
}
