//! The calls that other crates use.

ghost use Rattle.std.specs.Prelude.{◌≡◌, ◌<◌, ◌≤◌, length, IfSome, IfNone, OnOk, OnErr};
ghost use Rattle.std.specs.List.{list_all};
ghost use Rattle.nc_decode.specs.Spelling.{Spells, IsAtFront};
ghost use Rattle.nc_decode.specs.declared.instruction.Instr.{Instr};
ghost use Rattle.nc_disasm.specs.Names.{is_printable, IsName, AddsPrintable, HasLength};

use nc_decode::{Instr, decode};
use nc_mnemonics::{Text, text_of};
use std::alloc::AllocError;

/// The name and the operands of an instruction, as text.
#[derive(Clone, Copy)]
pub struct Name {
    /// The text. What follows it means nothing, but is printable too.
    pub text: [u8; 64],
    /// The length of the text.
    pub len: usize,
}

/// What stands for a name that is missing. Each instruction has one, which is tested.
const UNNAMED: Name = Name {
    text: [b'?'; 64],
    len: 1,
};

/// A printable character of ASCII. No branches, so that many are tested at once.
#[inline(always)]
fn is_printable(byte: u8) -> bool
    ensures { result ≡ is_printable byte }
{
    (byte >= 0x20) & (byte < 0x7F)
}

/// All of these bytes are printable.
#[inline(always)]
fn are_printable(bytes: &[u8]) -> bool
    ensures { result ≡ list_all is_printable bytes.now }
{
    let mut all = true;
    for byte in bytes {
        all &= is_printable(*byte);
    }
    all
}

/// The permitted instruction that these bytes are, with none after it.
fn whole(bytes: &[u8]) -> Option<Instr>
    ensures is { IfSome result (Spells bytes.now) }
    ensures only { (i : Instr) → Spells bytes.now i → result ≡ Some i }
{
    match decode(bytes) {
        Ok(instr) if usize::from(instr.len) == bytes.len() => Some(instr),
        _ => None,
    }
}

/// The name of an instruction. One that is empty, or that isn't printable, becomes `UNNAMED`. So nothing has to be proved about the
/// table.
#[inline(always)]
fn name_of(at: u32, bytes: &[u8], instr: &Instr) -> Name
    ensures { IsName result }
{
    let Text { bytes: text, len } = text_of(at, bytes, instr);
    if 0 < len && len <= 64 && are_printable(&text) {
        Name { text, len }
    } else {
        UNNAMED
    }
}

/// The name and the operands of the permitted instruction at the front of these bytes, as [`push_instruction`] writes them for this
/// address, and the instruction's length. None if the bytes don't begin with a permitted instruction.
pub fn front_name(at: u32, bytes: &[u8]) -> Option<(Name, usize)>
    // At least one character, at most 64, and none of them ends the line or controls a terminal.
    ensures named { IfSome result (λ found. IsName found.0) }
    // The instruction at the front has this length.
    ensures front { IfSome result (λ found. HasLength bytes.now found.1) }
    ensures sized { IfSome result (λ found. (0 < found.1) × (found.1 ≤ length bytes.now)) }
    // Other bytes have no name.
    ensures none { IfNone result ((i : Instr) → ¬ IsAtFront bytes.now i) }
{
    let Ok(instr) = decode(bytes) else {
        return None;
    };
    let len = usize::from(instr.len);
    Some((name_of(at, &bytes[..len], &instr), len))
}

/// Adds a name.
fn push_name(out: &mut Vec<u8>, name: &Name) -> Result<(), AllocError>
    requires { IsName name.now }
    ensures added { OnOk result (AddsPrintable out.old.items out.new.items) }
    ensures some { OnOk result (length out.old.items < length out.new.items) }
    ensures err { OnErr result (out.new.items ≡ out.old.items) }
{
    out.extend_from_slice(&name.text[..name.len])
}

/// Adds the name and the operands of the permitted instruction that these bytes are, at this address, in AT&T syntax as GNU objdump
/// writes it. The target of a direct transfer has eight hexadecimal digits.
///
/// Nothing is added if the bytes aren't exactly one permitted instruction. The names are tested for every row of the opcode table, and
/// aren't proved to be right. The only refusal is that of an allocation.
pub fn push_instruction(out: &mut Vec<u8>, at: u32, bytes: &[u8]) -> Result<(), AllocError>
    // At most 64 characters are added, and none of them ends the line or controls a terminal.
    ensures printable { OnOk result (AddsPrintable out.old.items out.new.items) }
    // An instruction has a name.
    ensures named { (i : Instr) → Spells bytes.now i → OnOk result (length out.old.items < length out.new.items) }
    // Other bytes have none.
    ensures refused { ((i : Instr) → ¬ Spells bytes.now i) → OnOk result (out.new.items ≡ out.old.items) }
    // Without memory the text stays as it was.
    ensures err { OnErr result (out.new.items ≡ out.old.items) }
{
    let Some(instr) = whole(bytes) else {
        return Ok(());
    };
    push_name(out, &name_of(at, bytes, &instr))
}
