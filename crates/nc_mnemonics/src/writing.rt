//! The name and the operands of an instruction as text.

use crate::memory::push_memory;
use crate::parts::Parts;
use crate::registers::{Size, register};
use crate::row::{Name, Operand, Operands, Row, Suffix};
use crate::rows::{FIRST, ROWS};
use crate::text::{Piece, Text, empty, push, push_immediate, push_number, push_space, push_target};
use crate::words::{condition, letters, member};
use nc_decode::Instr;

/// The row for an instruction, if there is one.
fn row_for(parts: &Parts<'_>) -> Option<&'static Row> {
    let key = parts.key();
    let first = FIRST[parts.eight() % 64];
    let rows = ROWS.get(usize::from(first)..).unwrap_or(&[]);
    rows.iter().find(|row| key & row.mask == row.key)
}

/// The prefix that is written before the name, if there is one. F3 is `repz` before an instruction that compares.
fn prefix(parts: &Parts<'_>) -> Option<Piece> {
    match parts.prefix {
        Some(0xF0) => Some(*b"lock   4"),
        Some(0xF2) => Some(*b"repnz  5"),
        Some(0xF3) if matches!(parts.opcode, 0xA6 | 0xA7 | 0xAE | 0xAF) => Some(*b"repz   4"),
        Some(0xF3) => Some(*b"rep    3"),
        _ => None,
    }
}

/// Adds the prefix and a space, if there is one.
fn push_prefix(text: &mut Text, parts: &Parts<'_>) {
    if let Some(piece) = prefix(parts) {
        push(text, piece);
        push_space(text);
    }
}

/// What follows the name, if anything does.
fn suffix(parts: &Parts<'_>, suffix: Suffix) -> Option<Piece> {
    let letter = if parts.is_word() {
        *b"w      1"
    } else {
        *b"l      1"
    };
    match suffix {
        Suffix::Byte if parts.is_in_memory() => Some(*b"b      1"),
        Suffix::Sized if parts.is_in_memory() => Some(letter),
        Suffix::Always => Some(letter),
        Suffix::Word if parts.is_word() => Some(letter),
        Suffix::Eight => Some(*b"8b     2"),
        _ => None,
    }
}

/// Adds what follows the name, if anything does.
fn push_suffix(text: &mut Text, parts: &Parts<'_>, row: &Row) {
    if let Some(piece) = suffix(parts, row.suffix) {
        push(text, piece);
    }
}

/// Adds the name without its suffix.
fn push_name(text: &mut Text, parts: &Parts<'_>, name: Name) {
    match name {
        Name::Same(word) => push(text, letters(word)),
        Name::ByOpcode(group) => push(text, member(group, (parts.opcode / 8 % 8) as u8)),
        Name::ByField(group) => push(text, member(group, parts.modrm() / 8)),
        Name::If(word) => {
            push(text, letters(word));
            push(text, condition((parts.opcode % 16) as u8));
        }
    }
}

/// The operand's size, 32 bits or 16.
fn sized(parts: &Parts<'_>) -> Size {
    if parts.is_word() {
        Size::Word
    } else {
        Size::Long
    }
}

/// The register of an operand that is always a register.
fn register_of(parts: &Parts<'_>, operand: Operand) -> Piece {
    let (reg, low) = (parts.modrm() / 8, (parts.opcode % 8) as u8);
    match operand {
        Operand::Gb => register(Size::Byte, reg),
        Operand::Gv => register(sized(parts), reg),
        Operand::Zb => register(Size::Byte, low),
        Operand::Zv => register(sized(parts), low),
        Operand::Ax => register(sized(parts), 0),
        Operand::Cl => register(Size::Byte, 1),
        // AL, the only one left.
        _ => register(Size::Byte, 0),
    }
}

/// Adds the register or the memory that ModRM names.
fn push_either(text: &mut Text, parts: &Parts<'_>, size: Size) {
    if parts.is_in_memory() {
        push_memory(text, parts);
    } else {
        push(text, register(size, parts.modrm()));
    }
}

/// Adds the register that holds a target.
fn push_target_register(text: &mut Text, number: u8) {
    push(text, *b"*      1");
    push(text, register(Size::Long, number));
}

/// Adds the memory that a register names, in a segment.
fn push_in_segment(text: &mut Text, segment: Piece, pointer: Piece) {
    push(text, segment);
    push(text, pointer);
}

/// Adds an operand.
fn push_operand(text: &mut Text, parts: &Parts<'_>, operand: Operand) {
    match operand {
        Operand::Eb => push_either(text, parts, Size::Byte),
        Operand::Ew => push_either(text, parts, Size::Word),
        Operand::Ev => push_either(text, parts, sized(parts)),
        Operand::Ib => push_immediate(text, parts.last(1)),
        Operand::Is => push_immediate(text, parts.last_signed()),
        Operand::Iz => push_immediate(text, parts.last(if parts.is_word() { 2 } else { 4 })),
        Operand::O => push_number(text, parts.last(4)),
        Operand::J => push_target(text, parts.target),
        Operand::Rt => push_target_register(text, parts.modrm()),
        Operand::X => push_in_segment(text, *b"%ds:   4", *b"(%esi) 6"),
        Operand::Y => push_in_segment(text, *b"%es:   4", *b"(%edi) 6"),
        Operand::Gb
        | Operand::Gv
        | Operand::Zb
        | Operand::Zv
        | Operand::Al
        | Operand::Ax
        | Operand::Cl => push(text, register_of(parts, operand)),
    }
}

/// Adds a comma and an operand.
fn push_next(text: &mut Text, parts: &Parts<'_>, operand: Operand) {
    push(text, *b",      1");
    push_operand(text, parts, operand);
}

/// Adds a space and the operands, the last of the manual's order first.
fn push_operands(text: &mut Text, parts: &Parts<'_>, operands: Operands) {
    if !matches!(operands, Operands::None) {
        push_space(text);
    }
    match operands {
        Operands::None => {}
        Operands::One(first) => push_operand(text, parts, first),
        Operands::Two(first, second) => {
            push_operand(text, parts, second);
            push_next(text, parts, first);
        }
        Operands::Three(first, second, third) => {
            push_operand(text, parts, third);
            push_next(text, parts, second);
            push_next(text, parts, first);
        }
    }
}

/// Adds the instruction.
fn push_row(text: &mut Text, parts: &Parts<'_>, row: &Row) {
    push_prefix(text, parts);
    push_name(text, parts, row.name);
    push_suffix(text, parts, row);
    push_operands(text, parts, row.operands);
}

/// The name and the operands of the instruction that `decode` found in these bytes, at this address. The text is empty if the table lacks
/// the instruction. Tests show that it lacks none.
pub fn text_of(at: u32, bytes: &[u8], instr: &Instr) -> Text {
    let mut text = empty();
    let next = at.wrapping_add(u32::from(instr.len));
    let parts = Parts::new(bytes, next.wrapping_add_signed(instr.rel));
    if let Some(row) = row_for(&parts) {
        push_row(&mut text, &parts, row);
    }
    text
}
