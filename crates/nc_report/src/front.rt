//! The instruction at the front of some bytes. A direct transfer of a usual form is found without the opcode table.

ghost use Rattle.std.specs.Prelude.{◌≡◌, IfSome};
ghost use Rattle.std.specs.Int.{w8, cast_signed};
ghost use Rattle.nc_decode.specs.Front.{first_instruction};
ghost use Rattle.nc_report.specs.machinery.Transfers.{transfer};

use nc_decode::{Flow, Instr, decode};

/// A direct transfer of this length, flow and displacement.
#[inline(always)]
fn transfer(len: u8, flow: Flow, rel: i32) -> Instr
    ensures { result ≡ transfer len flow rel }
{
    Instr {
        len,
        flow,
        rel,
        reg: 0,
        masks: None,
    }
}

/// A displacement of one byte.
#[inline(always)]
fn short(number: u8) -> i32
    ensures { result ≡ cast_signed w8 number }
{
    i32::from(number.cast_signed())
}

/// The branch or the jump at the front whose displacement has one byte: 70 to 7F, or EB.
#[inline(always)]
fn front_short(bytes: &[u8]) -> Option<Instr>
    ensures { IfSome result (λ i. first_instruction bytes.now ≡ Some i) }
{
    let [opcode, number, ..] = bytes else {
        return None;
    };
    let rel = short(*number);
    if 0x70 <= *opcode && *opcode <= 0x7F {
        Some(transfer(2, Flow::Branch, rel))
    } else if *opcode == 0xEB {
        Some(transfer(2, Flow::Jump, rel))
    } else {
        None
    }
}

/// The call or the jump at the front whose displacement has four bytes: E8 or E9.
#[inline(always)]
fn front_near(bytes: &[u8]) -> Option<Instr>
    ensures { IfSome result (λ i. first_instruction bytes.now ≡ Some i) }
{
    let [opcode, a, b, c, d, ..] = bytes else {
        return None;
    };
    let rel = i32::from_le_bytes([*a, *b, *c, *d]);
    if *opcode == 0xE8 {
        Some(transfer(5, Flow::Call, rel))
    } else if *opcode == 0xE9 {
        Some(transfer(5, Flow::Jump, rel))
    } else {
        None
    }
}

/// The branch at the front whose displacement has four bytes: 0F, and then 80 to 8F.
#[inline(always)]
fn front_branch(bytes: &[u8]) -> Option<Instr>
    ensures { IfSome result (λ i. first_instruction bytes.now ≡ Some i) }
{
    let [first, opcode, a, b, c, d, ..] = bytes else {
        return None;
    };
    let rel = i32::from_le_bytes([*a, *b, *c, *d]);
    if *first == 0x0F && 0x80 <= *opcode && *opcode <= 0x8F {
        Some(transfer(6, Flow::Branch, rel))
    } else {
        None
    }
}

/// The permitted instruction at the front, if there is one.
///
/// It is faster than [`decode`] where a direct transfer may begin, since most instructions there are of the forms above.
#[inline(always)]
pub(crate) fn front_instruction(bytes: &[u8]) -> Option<Instr>
    ensures { result ≡ first_instruction bytes.now }
{
    if let Some(instr) = front_short(bytes) {
        return Some(instr);
    }
    if let Some(instr) = front_near(bytes) {
        return Some(instr);
    }
    if let Some(instr) = front_branch(bytes) {
        return Some(instr);
    }
    decode(bytes).ok()
}
