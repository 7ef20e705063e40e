//! An operand in memory, by ModRM, SIB and displacement (Intel SDM volume 2, tables 2-2 and 2-3).

use crate::parts::{Parts, byte_at};
use crate::registers::{base, index, scale};
use crate::text::{Text, push, push_number};

/// Adds a displacement with its sign.
fn push_displacement(text: &mut Text, displacement: Option<i32>) {
    if let Some(value) = displacement {
        if value < 0 {
            push(text, *b"-      1");
        }
        push_number(text, value.unsigned_abs());
    }
}

/// Adds the memory that SIB names.
fn push_scaled(text: &mut Text, parts: &Parts<'_>) {
    let sib = byte_at(parts.rest, 1);
    let is_baseless = parts.modrm() < 0x40 && sib % 8 == 5;
    push_displacement(text, parts.displacement(2, is_baseless));
    push(text, if is_baseless { *b"(      1" } else { base(sib) });
    if sib != 0x24 {
        push(text, index(sib / 8));
        push(text, scale(sib / 64));
    }
    push(text, *b")      1");
}

/// Adds the memory that ModRM names.
pub(crate) fn push_memory(text: &mut Text, parts: &Parts<'_>) {
    let modrm = parts.modrm();
    if modrm % 8 == 4 {
        push_scaled(text, parts);
    } else if modrm < 0x40 && modrm % 8 == 5 {
        push_number(
            text,
            parts.displacement(1, true).unwrap_or(0).cast_unsigned(),
        );
    } else {
        push_displacement(text, parts.displacement(1, false));
        push(text, base(modrm));
        push(text, *b")      1");
    }
}
