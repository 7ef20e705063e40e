//! An instruction in parts, and the numbers in it.

/// A whole permitted instruction.
#[derive(Clone, Copy)]
pub(crate) struct Parts<'a> {
    /// The prefix.
    pub prefix: Option<u8>,
    /// The opcode, of one byte, or of 0F and the byte after it.
    pub opcode: u16,
    /// The bytes after the opcode, which are ModRM with its SIB and displacement if there is one, and a number.
    pub rest: &'a [u8],
    /// The target, if the instruction is a direct transfer.
    pub target: u32,
}

/// The byte at `k`, or 0 after the last.
pub(crate) fn byte_at(bytes: &[u8], k: usize) -> u8 {
    bytes.get(k).copied().unwrap_or(0)
}

/// The number of one, two or four bytes, the lowest first.
fn number(bytes: &[u8]) -> u32 {
    match bytes {
        [low] => u32::from(*low),
        [low, high] => u32::from(u16::from_le_bytes([*low, *high])),
        [a, b, c, d] => u32::from_le_bytes([*a, *b, *c, *d]),
        _ => 0,
    }
}

impl<'a> Parts<'a> {
    /// Takes an instruction apart.
    pub fn new(bytes: &'a [u8], target: u32) -> Parts<'a> {
        let (prefix, bytes) = match bytes {
            [first @ (0x66 | 0xF0 | 0xF2 | 0xF3), rest @ ..] => (Some(*first), rest),
            _ => (None, bytes),
        };
        let (opcode, rest) = match bytes {
            [0x0F, second, rest @ ..] => (0x0F00 + u16::from(*second), rest),
            [first, rest @ ..] => (u16::from(*first), rest),
            [] => (0, bytes),
        };
        Parts {
            prefix,
            opcode,
            rest,
            target,
        }
    }

    /// The operand has 16 bits where it would otherwise have 32.
    pub fn is_word(&self) -> bool {
        self.prefix == Some(0x66)
    }

    /// ModRM, if there is one.
    pub fn modrm(&self) -> u8 {
        byte_at(self.rest, 0)
    }

    /// ModRM names memory, if there is one.
    pub fn is_in_memory(&self) -> bool {
        self.modrm() < 0xC0
    }

    /// The prefix 66 if there is one, the opcode and the byte after it, by which rows are found.
    pub fn key(&self) -> u32 {
        let prefix = if self.is_word() { 0x6600_0000 } else { 0 };
        prefix + u32::from(self.opcode) * 256 + u32::from(self.modrm())
    }

    /// The number of the eight opcodes, of one byte or after 0F, among which this one is.
    pub fn eight(&self) -> usize {
        let half = if self.opcode < 256 { 0 } else { 32 };
        half + usize::from(self.opcode % 256) / 8
    }

    /// The number of this many bytes at the end.
    pub fn last(&self, count: usize) -> u32 {
        number(&self.rest[self.rest.len().saturating_sub(count)..])
    }

    /// The byte at the end, extended by its sign to 32 bits, or to 16.
    pub fn last_signed(&self) -> u32 {
        let byte = self.last(1);
        let above = if self.is_word() { 0xFF00 } else { 0xFFFF_FF00 };
        if byte < 0x80 { byte } else { byte | above }
    }

    /// The displacement after ModRM, or after its SIB, which ends before `start`. Without a base it has four bytes.
    pub fn displacement(&self, start: usize, is_baseless: bool) -> Option<i32> {
        let rest = self.rest.get(start..).unwrap_or(&[]);
        match self.modrm() / 64 {
            1 => Some(i32::from(byte_at(rest, 0).cast_signed())),
            2 => Some(four_at(rest).cast_signed()),
            0 if is_baseless => Some(four_at(rest).cast_signed()),
            _ => None,
        }
    }
}

/// The number of the first four bytes.
fn four_at(bytes: &[u8]) -> u32 {
    number(bytes.get(..4).unwrap_or(&[]))
}
