//! The table of names, in the order of opcodes (Intel SDM volume 2, appendix A). The names are those that GNU objdump writes.

use crate::row::Name::{ByField, ByOpcode, If, Same};
use crate::row::Operand::{Al, Ax, Cl, Eb, Ev, Ew, Gb, Gv, Ib, Is, Iz, J, O, Rt, X, Y, Zb, Zv};
use crate::row::{Operands, Row, Suffix};
use crate::words::Group::{Arithmetic, Bits, Shifts, Unary};
use crate::words::Word::{
    Bsf, Bsr, Bswap, Call, Cbtw, Clc, Cld, Cltd, Cmc, Cmovcc, Cmps, Cmpsb, Cmpxchg, Cpuid, Cwtd,
    Cwtl, Dec, Hlt, Imul, Inc, Jcc, Jecxz, Jmp, Lea, Leave, Lods, Loop, Loope, Loopne, Mov, Movs,
    Movsb, Movsw, Movzb, Movzw, Nop, Pop, Push, Scas, Setcc, Shld, Shrd, Stc, Std, Stos, Test, Ud2,
    Xadd, Xchg,
};

/// A row, by its mask, its key, its name, its suffix and its operands.
macro_rules! row {
    ($mask:literal, $key:literal, $name:expr, $suffix:ident, [$($operand:ident),*]) => {
        Row {
            mask: $mask,
            key: $key,
            name: $name,
            suffix: Suffix::$suffix,
            operands: operands!($($operand),*),
        }
    };
}

/// At most three operands.
macro_rules! operands {
    () => { Operands::None };
    ($a:ident) => { Operands::One($a) };
    ($a:ident, $b:ident) => { Operands::Two($a, $b) };
    ($a:ident, $b:ident, $c:ident) => { Operands::Three($a, $b, $c) };
}

/// All opcodes. An instruction has the first row that fits.
#[rattlefmt::skip]
pub(crate) static ROWS: [Row; 111] = [
    row!(0xFFC7_00, 0x0000_00, ByOpcode(Arithmetic), Never, [Eb, Gb]),
    row!(0xFFC7_00, 0x0001_00, ByOpcode(Arithmetic), Never, [Ev, Gv]),
    row!(0xFFC7_00, 0x0002_00, ByOpcode(Arithmetic), Never, [Gb, Eb]),
    row!(0xFFC7_00, 0x0003_00, ByOpcode(Arithmetic), Never, [Gv, Ev]),
    row!(0xFFC7_00, 0x0004_00, ByOpcode(Arithmetic), Never, [Al, Ib]),
    row!(0xFFC7_00, 0x0005_00, ByOpcode(Arithmetic), Never, [Ax, Iz]),
    row!(0xFFF8_00, 0x0040_00, Same(Inc), Never, [Zv]),
    row!(0xFFF8_00, 0x0048_00, Same(Dec), Never, [Zv]),
    row!(0xFFF8_00, 0x0050_00, Same(Push), Never, [Zv]),
    row!(0xFFF8_00, 0x0058_00, Same(Pop), Never, [Zv]),
    row!(0xFFFF_00, 0x0068_00, Same(Push), Word, [Iz]),
    row!(0xFFFF_00, 0x0069_00, Same(Imul), Never, [Gv, Ev, Iz]),
    row!(0xFFFF_00, 0x006A_00, Same(Push), Word, [Is]),
    row!(0xFFFF_00, 0x006B_00, Same(Imul), Never, [Gv, Ev, Is]),
    row!(0xFFF0_00, 0x0070_00, If(Jcc), Never, [J]),
    row!(0xFFFF_00, 0x0080_00, ByField(Arithmetic), Byte, [Eb, Ib]),
    row!(0xFFFF_00, 0x0081_00, ByField(Arithmetic), Sized, [Ev, Iz]),
    row!(0xFFFF_00, 0x0083_00, ByField(Arithmetic), Sized, [Ev, Is]),
    row!(0xFFFF_00, 0x0084_00, Same(Test), Never, [Eb, Gb]),
    row!(0xFFFF_00, 0x0085_00, Same(Test), Never, [Ev, Gv]),
    row!(0xFFFF_00, 0x0086_00, Same(Xchg), Never, [Eb, Gb]),
    row!(0xFFFF_00, 0x0087_00, Same(Xchg), Never, [Ev, Gv]),
    row!(0xFFFF_00, 0x0088_00, Same(Mov), Never, [Eb, Gb]),
    row!(0xFFFF_00, 0x0089_00, Same(Mov), Never, [Ev, Gv]),
    row!(0xFFFF_00, 0x008A_00, Same(Mov), Never, [Gb, Eb]),
    row!(0xFFFF_00, 0x008B_00, Same(Mov), Never, [Gv, Ev]),
    row!(0xFFFF_00, 0x008D_00, Same(Lea), Never, [Gv, Ev]),
    row!(0xFF_FFFF_00, 0x66_0090_00, Same(Xchg), Never, [Zv, Ax]),
    row!(0xFFFF_00, 0x0090_00, Same(Nop), Never, []),
    row!(0xFFF8_00, 0x0090_00, Same(Xchg), Never, [Zv, Ax]),
    row!(0xFF_FFFF_00, 0x66_0098_00, Same(Cbtw), Never, []),
    row!(0xFFFF_00, 0x0098_00, Same(Cwtl), Never, []),
    row!(0xFF_FFFF_00, 0x66_0099_00, Same(Cwtd), Never, []),
    row!(0xFFFF_00, 0x0099_00, Same(Cltd), Never, []),
    row!(0xFFFF_00, 0x00A0_00, Same(Mov), Never, [Al, O]),
    row!(0xFFFF_00, 0x00A1_00, Same(Mov), Never, [Ax, O]),
    row!(0xFFFF_00, 0x00A2_00, Same(Mov), Never, [O, Al]),
    row!(0xFFFF_00, 0x00A3_00, Same(Mov), Never, [O, Ax]),
    row!(0xFFFF_00, 0x00A4_00, Same(Movsb), Never, [Y, X]),
    row!(0xFFFF_00, 0x00A5_00, Same(Movs), Always, [Y, X]),
    row!(0xFFFF_00, 0x00A6_00, Same(Cmpsb), Never, [X, Y]),
    row!(0xFFFF_00, 0x00A7_00, Same(Cmps), Always, [X, Y]),
    row!(0xFFFF_00, 0x00A8_00, Same(Test), Never, [Al, Ib]),
    row!(0xFFFF_00, 0x00A9_00, Same(Test), Never, [Ax, Iz]),
    row!(0xFFFF_00, 0x00AA_00, Same(Stos), Never, [Y, Al]),
    row!(0xFFFF_00, 0x00AB_00, Same(Stos), Never, [Y, Ax]),
    row!(0xFFFF_00, 0x00AC_00, Same(Lods), Never, [Al, X]),
    row!(0xFFFF_00, 0x00AD_00, Same(Lods), Never, [Ax, X]),
    row!(0xFFFF_00, 0x00AE_00, Same(Scas), Never, [Al, Y]),
    row!(0xFFFF_00, 0x00AF_00, Same(Scas), Never, [Ax, Y]),
    row!(0xFFF8_00, 0x00B0_00, Same(Mov), Never, [Zb, Ib]),
    row!(0xFFF8_00, 0x00B8_00, Same(Mov), Never, [Zv, Iz]),
    row!(0xFFFF_00, 0x00C0_00, ByField(Shifts), Byte, [Eb, Ib]),
    row!(0xFFFF_00, 0x00C1_00, ByField(Shifts), Sized, [Ev, Ib]),
    row!(0xFFFF_00, 0x00C6_00, Same(Mov), Byte, [Eb, Ib]),
    row!(0xFFFF_00, 0x00C7_00, Same(Mov), Sized, [Ev, Iz]),
    row!(0xFFFF_00, 0x00C9_00, Same(Leave), Never, []),
    row!(0xFFFF_00, 0x00D0_00, ByField(Shifts), Byte, [Eb]),
    row!(0xFFFF_00, 0x00D1_00, ByField(Shifts), Sized, [Ev]),
    row!(0xFFFF_00, 0x00D2_00, ByField(Shifts), Byte, [Eb, Cl]),
    row!(0xFFFF_00, 0x00D3_00, ByField(Shifts), Sized, [Ev, Cl]),
    row!(0xFFFF_00, 0x00E0_00, Same(Loopne), Never, [J]),
    row!(0xFFFF_00, 0x00E1_00, Same(Loope), Never, [J]),
    row!(0xFFFF_00, 0x00E2_00, Same(Loop), Never, [J]),
    row!(0xFFFF_00, 0x00E3_00, Same(Jecxz), Never, [J]),
    row!(0xFFFF_00, 0x00E8_00, Same(Call), Never, [J]),
    row!(0xFFFF_00, 0x00E9_00, Same(Jmp), Never, [J]),
    row!(0xFFFF_00, 0x00EB_00, Same(Jmp), Never, [J]),
    row!(0xFFFF_00, 0x00F4_00, Same(Hlt), Never, []),
    row!(0xFFFF_00, 0x00F5_00, Same(Cmc), Never, []),
    row!(0xFFFF_38, 0x00F6_00, Same(Test), Byte, [Eb, Ib]),
    row!(0xFFFF_00, 0x00F6_00, ByField(Unary), Byte, [Eb]),
    row!(0xFFFF_38, 0x00F7_00, Same(Test), Sized, [Ev, Iz]),
    row!(0xFFFF_00, 0x00F7_00, ByField(Unary), Sized, [Ev]),
    row!(0xFFFF_00, 0x00F8_00, Same(Clc), Never, []),
    row!(0xFFFF_00, 0x00F9_00, Same(Stc), Never, []),
    row!(0xFFFF_00, 0x00FC_00, Same(Cld), Never, []),
    row!(0xFFFF_00, 0x00FD_00, Same(Std), Never, []),
    row!(0xFFFF_38, 0x00FE_00, Same(Inc), Byte, [Eb]),
    row!(0xFFFF_38, 0x00FE_08, Same(Dec), Byte, [Eb]),
    row!(0xFFFF_38, 0x00FF_00, Same(Inc), Sized, [Ev]),
    row!(0xFFFF_38, 0x00FF_08, Same(Dec), Sized, [Ev]),
    row!(0xFFFF_38, 0x00FF_10, Same(Call), Never, [Rt]),
    row!(0xFFFF_38, 0x00FF_20, Same(Jmp), Never, [Rt]),
    row!(0xFFFF_F8, 0x00FF_F0, Same(Push), Never, [Ev]),
    row!(0xFFFF_38, 0x00FF_30, Same(Push), Word, [Ev]),
    row!(0xFFFF_00, 0x0F0B_00, Same(Ud2), Never, []),
    row!(0xFFFF_00, 0x0F1F_00, Same(Nop), Sized, [Ev]),
    row!(0xFFF0_00, 0x0F40_00, If(Cmovcc), Never, [Gv, Ev]),
    row!(0xFFF0_00, 0x0F80_00, If(Jcc), Never, [J]),
    row!(0xFFF0_00, 0x0F90_00, If(Setcc), Never, [Eb]),
    row!(0xFFFF_00, 0x0FA2_00, Same(Cpuid), Never, []),
    row!(0xFFE7_00, 0x0FA3_00, ByOpcode(Bits), Never, [Ev, Gv]),
    row!(0xFFFF_00, 0x0FA4_00, Same(Shld), Never, [Ev, Gv, Ib]),
    row!(0xFFFF_00, 0x0FA5_00, Same(Shld), Never, [Ev, Gv, Cl]),
    row!(0xFFFF_00, 0x0FAC_00, Same(Shrd), Never, [Ev, Gv, Ib]),
    row!(0xFFFF_00, 0x0FAD_00, Same(Shrd), Never, [Ev, Gv, Cl]),
    row!(0xFFFF_00, 0x0FAF_00, Same(Imul), Never, [Gv, Ev]),
    row!(0xFFFF_00, 0x0FB0_00, Same(Cmpxchg), Never, [Eb, Gb]),
    row!(0xFFFF_00, 0x0FB1_00, Same(Cmpxchg), Never, [Ev, Gv]),
    row!(0xFFFF_00, 0x0FB6_00, Same(Movzb), Always, [Gv, Eb]),
    row!(0xFFFF_00, 0x0FB7_00, Same(Movzw), Always, [Gv, Ew]),
    row!(0xFFFF_00, 0x0FBA_00, ByField(Bits), Sized, [Ev, Ib]),
    row!(0xFFFF_00, 0x0FBC_00, Same(Bsf), Never, [Gv, Ev]),
    row!(0xFFFF_00, 0x0FBD_00, Same(Bsr), Never, [Gv, Ev]),
    row!(0xFFFF_00, 0x0FBE_00, Same(Movsb), Always, [Gv, Eb]),
    row!(0xFFFF_00, 0x0FBF_00, Same(Movsw), Always, [Gv, Ew]),
    row!(0xFFFF_00, 0x0FC0_00, Same(Xadd), Never, [Eb, Gb]),
    row!(0xFFFF_00, 0x0FC1_00, Same(Xadd), Never, [Ev, Gv]),
    row!(0xFFFF_38, 0x0FC7_08, Same(Cmpxchg), Eight, [Ev]),
    row!(0xFFF8_00, 0x0FC8_00, Same(Bswap), Never, [Zv]),
];

/// For each eight opcodes a row before which none of them has one. The opcodes after 0F are in the lower half.
#[rattlefmt::skip]
pub(crate) static FIRST: [u8; 64] = [
    0, 0, 0, 0, 0, 0, 0, 0,
    6, 7, 8, 9, 10, 10, 14, 14,
    15, 22, 27, 30, 34, 42, 50, 51,
    52, 56, 57, 61, 61, 65, 68, 74,
    86, 86, 87, 87, 88, 88, 88, 88,
    88, 88, 89, 89, 89, 89, 89, 89,
    89, 89, 90, 90, 91, 92, 92, 92,
    107, 110, 110, 110, 110, 110, 110, 110,
];
