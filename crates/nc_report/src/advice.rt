//! The kinds of refused bytes, and what a fault means.

ghost use Rattle.std.specs.Prelude.{◌≤◌, length};

use crate::judged::Judged;
use crate::kind::Kind;
use crate::words::*;
use nc_decode::{BUNDLE, MAX_BUNDLES, START};
use nc_vet::VetFault;
use std::alloc::{AllocError, Global};

/// The kind of bytes whose first three, as one big-endian number of 24 bits, masked with `mask` are `key`.
#[derive(Clone, Copy)]
pub(crate) struct Row {
    pub mask: u32,
    pub key: u32,
    pub kind: Kind,
}

/// The kinds of bytes that are not a permitted instruction. The first row that matches decides.
#[rattlefmt::skip]
pub(crate) static ROWS: [Row; 124] = [
    // Returns and far transfers.
    Row { mask: 0xFE_00_00, key: 0xC2_00_00, kind: Kind::Return },
    Row { mask: 0xFE_FE_00, key: 0xF2_C2_00, kind: Kind::Return },
    Row { mask: 0xFF_FE_00, key: 0x66_C2_00, kind: Kind::Return },
    Row { mask: 0xFE_00_00, key: 0xCA_00_00, kind: Kind::Far },
    Row { mask: 0xFF_00_00, key: 0xCF_00_00, kind: Kind::Far },
    Row { mask: 0xFF_00_00, key: 0x9A_00_00, kind: Kind::Far },
    Row { mask: 0xFF_00_00, key: 0xEA_00_00, kind: Kind::Far },
    // Group 5: a far transfer with a register operand is undefined; with a memory operand, far and near transfers.
    Row { mask: 0xFF_C0_00, key: 0xFF_C0_00, kind: Kind::General },
    Row { mask: 0xFF_38_00, key: 0xFF_18_00, kind: Kind::Far },
    Row { mask: 0xFF_38_00, key: 0xFF_28_00, kind: Kind::Far },
    Row { mask: 0xFF_38_00, key: 0xFF_10_00, kind: Kind::CallThroughMemory },
    Row { mask: 0xFF_38_00, key: 0xFF_20_00, kind: Kind::JumpThroughMemory },
    // Floating point, FWAIT, SAHF and LAHF.
    Row { mask: 0xF8_00_00, key: 0xD8_00_00, kind: Kind::FloatingPoint },
    Row { mask: 0xFF_00_00, key: 0x9B_00_00, kind: Kind::FloatingPoint },
    Row { mask: 0xFE_00_00, key: 0x9E_00_00, kind: Kind::FloatingPoint },
    // With the prefixes F3 and 3E: marks of entries and jumps, hints, and counts of bits.
    Row { mask: 0xFF_FF_FF, key: 0xF3_0F_1E, kind: Kind::EntryMark },
    Row { mask: 0xFF_FF_38, key: 0x3E_FF_10, kind: Kind::EntryMark },
    Row { mask: 0xFF_FF_38, key: 0x3E_FF_20, kind: Kind::EntryMark },
    Row { mask: 0xFF_FF_00, key: 0xF3_90_00, kind: Kind::Pause },
    Row { mask: 0xFF_FF_FE, key: 0xF3_0F_BC, kind: Kind::TrailingZeros },
    Row { mask: 0xFF_FF_FF, key: 0xF3_0F_B8, kind: Kind::Population },
    // The system, after 0F: SYSCALL and SYSRET, SYSENTER and SYSEXIT, clocks, and privileged instructions.
    Row { mask: 0xFF_FD_00, key: 0x0F_05_00, kind: Kind::SystemCall },
    Row { mask: 0xFF_FE_00, key: 0x0F_34_00, kind: Kind::SystemCall },
    Row { mask: 0xFF_FF_FF, key: 0x0F_01_F9, kind: Kind::Clock },
    Row { mask: 0xFF_FD_00, key: 0x0F_31_00, kind: Kind::Clock },
    Row { mask: 0xFF_FF_F0, key: 0x0F_C7_F0, kind: Kind::Clock },
    Row { mask: 0xFF_FF_30, key: 0x0F_C7_30, kind: Kind::Privileged },
    Row { mask: 0xFF_FD_00, key: 0x0F_30_00, kind: Kind::Privileged },
    Row { mask: 0xFF_FC_00, key: 0x0F_00_00, kind: Kind::Privileged },
    Row { mask: 0xFF_FF_00, key: 0x0F_06_00, kind: Kind::Privileged },
    Row { mask: 0xFF_FE_00, key: 0x0F_08_00, kind: Kind::Privileged },
    Row { mask: 0xFF_FC_00, key: 0x0F_20_00, kind: Kind::Privileged },
    Row { mask: 0xFF_FF_00, key: 0x0F_37_00, kind: Kind::Privileged },
    Row { mask: 0xFF_FE_00, key: 0x0F_78_00, kind: Kind::Privileged },
    Row { mask: 0xFF_FF_00, key: 0x0F_AA_00, kind: Kind::Privileged },
    // Undefined instructions: UD1 and UD0.
    Row { mask: 0xFF_FF_00, key: 0x0F_B9_00, kind: Kind::Trap },
    Row { mask: 0xFF_FF_00, key: 0x0F_FF_00, kind: Kind::Trap },
    Row { mask: 0xFF_FF_FF, key: 0x66_0F_FF, kind: Kind::Trap },
    Row { mask: 0xFE_FF_FF, key: 0xF2_0F_FF, kind: Kind::Trap },
    // Prefetches, and other hints that are long nops.
    Row { mask: 0xFF_FF_00, key: 0x0F_0D_00, kind: Kind::Prefetch },
    Row { mask: 0xFF_F8_C0, key: 0x0F_18_C0, kind: Kind::Padding },
    Row { mask: 0xFF_FF_20, key: 0x0F_18_00, kind: Kind::Prefetch },
    Row { mask: 0xFF_FE_00, key: 0x0F_1A_00, kind: Kind::General },
    Row { mask: 0xFF_F8_00, key: 0x0F_18_00, kind: Kind::Padding },
    // Groups 15 and 9: fences with a register operand, state with a memory operand.
    Row { mask: 0xFF_FF_F8, key: 0x0F_AE_E8, kind: Kind::Fence },
    Row { mask: 0xFF_FF_F0, key: 0x0F_AE_F0, kind: Kind::Fence },
    Row { mask: 0xFF_FF_C0, key: 0x0F_AE_C0, kind: Kind::General },
    Row { mask: 0xFF_FF_00, key: 0x0F_AE_00, kind: Kind::State },
    Row { mask: 0xFF_FF_38, key: 0x0F_C7_18, kind: Kind::State },
    Row { mask: 0xFF_FF_30, key: 0x0F_C7_20, kind: Kind::State },
    // Segment registers, after 0F.
    Row { mask: 0xFF_F6_00, key: 0x0F_A0_00, kind: Kind::SegmentRegister },
    Row { mask: 0xFF_FF_00, key: 0x0F_B2_00, kind: Kind::SegmentRegister },
    Row { mask: 0xFF_FE_00, key: 0x0F_B4_00, kind: Kind::SegmentRegister },
    // Opcodes of three bytes.
    Row { mask: 0xFF_FD_00, key: 0x0F_38_00, kind: Kind::Later },
    Row { mask: 0xFF_FF_FD, key: 0x66_0F_38, kind: Kind::Later },
    Row { mask: 0xFE_FF_FD, key: 0xF2_0F_38, kind: Kind::Later },
    // Vectors, after 0F.
    Row { mask: 0xFF_FE_00, key: 0x0F_0E_00, kind: Kind::Vector },
    Row { mask: 0xFF_F8_00, key: 0x0F_10_00, kind: Kind::Vector },
    Row { mask: 0xFF_F8_00, key: 0x0F_28_00, kind: Kind::Vector },
    Row { mask: 0xFF_F0_00, key: 0x0F_50_00, kind: Kind::Vector },
    Row { mask: 0xFF_E0_00, key: 0x0F_60_00, kind: Kind::Vector },
    Row { mask: 0xFF_FE_00, key: 0x0F_C2_00, kind: Kind::Vector },
    Row { mask: 0xFF_FE_00, key: 0x0F_C4_00, kind: Kind::Vector },
    Row { mask: 0xFF_FF_00, key: 0x0F_C6_00, kind: Kind::Vector },
    Row { mask: 0xFF_F0_00, key: 0x0F_D0_00, kind: Kind::Vector },
    Row { mask: 0xFF_E0_00, key: 0x0F_E0_00, kind: Kind::Vector },
    // Vectors, after 66 0F.
    Row { mask: 0xFF_FF_F8, key: 0x66_0F_10, kind: Kind::Vector },
    Row { mask: 0xFF_FF_F8, key: 0x66_0F_28, kind: Kind::Vector },
    Row { mask: 0xFF_FF_F0, key: 0x66_0F_50, kind: Kind::Vector },
    Row { mask: 0xFF_FF_E0, key: 0x66_0F_60, kind: Kind::Vector },
    Row { mask: 0xFF_FF_FF, key: 0x66_0F_C2, kind: Kind::Vector },
    Row { mask: 0xFF_FF_FE, key: 0x66_0F_C4, kind: Kind::Vector },
    Row { mask: 0xFF_FF_FF, key: 0x66_0F_C6, kind: Kind::Vector },
    Row { mask: 0xFF_FF_F0, key: 0x66_0F_D0, kind: Kind::Vector },
    Row { mask: 0xFF_FF_E0, key: 0x66_0F_E0, kind: Kind::Vector },
    // Vectors, after F2 0F and F3 0F.
    Row { mask: 0xFE_FF_F8, key: 0xF2_0F_10, kind: Kind::Vector },
    Row { mask: 0xFE_FF_F8, key: 0xF2_0F_28, kind: Kind::Vector },
    Row { mask: 0xFE_FF_F0, key: 0xF2_0F_50, kind: Kind::Vector },
    Row { mask: 0xFE_FF_E0, key: 0xF2_0F_60, kind: Kind::Vector },
    Row { mask: 0xFE_FF_FF, key: 0xF2_0F_C2, kind: Kind::Vector },
    Row { mask: 0xFE_FF_F0, key: 0xF2_0F_D0, kind: Kind::Vector },
    Row { mask: 0xFE_FF_E0, key: 0xF2_0F_E0, kind: Kind::Vector },
    // Interrupts, and BOUND where it isn't AVX-512.
    Row { mask: 0xFF_00_00, key: 0xCC_00_00, kind: Kind::Trap },
    Row { mask: 0xFF_00_00, key: 0xF1_00_00, kind: Kind::Trap },
    Row { mask: 0xFF_00_00, key: 0xCD_00_00, kind: Kind::SystemCall },
    Row { mask: 0xFF_00_00, key: 0xCE_00_00, kind: Kind::SystemCall },
    Row { mask: 0xFF_C0_00, key: 0x62_C0_00, kind: Kind::Avx },
    Row { mask: 0xFF_00_00, key: 0x62_00_00, kind: Kind::SystemCall },
    // C4 and C5: AVX with a register operand, else LES or LDS. 8F: POP, else XOP.
    Row { mask: 0xFE_C0_00, key: 0xC4_C0_00, kind: Kind::Avx },
    Row { mask: 0xFE_00_00, key: 0xC4_00_00, kind: Kind::SegmentRegister },
    Row { mask: 0xFF_38_00, key: 0x8F_00_00, kind: Kind::PopMemory },
    Row { mask: 0xFF_08_00, key: 0x8F_08_00, kind: Kind::Avx },
    Row { mask: 0xFF_10_00, key: 0x8F_10_00, kind: Kind::Avx },
    // Padding: 66 before another prefix, and segment prefixes before a long nop or LEA.
    Row { mask: 0xFF_FF_FF, key: 0x66_66_90, kind: Kind::Padding },
    Row { mask: 0xFF_FF_FF, key: 0x66_66_66, kind: Kind::Padding },
    Row { mask: 0xFF_FF_E7, key: 0x66_66_26, kind: Kind::Padding },
    Row { mask: 0xFF_FF_FF, key: 0x66_66_0F, kind: Kind::Padding },
    Row { mask: 0xFF_E7_FF, key: 0x66_26_0F, kind: Kind::Padding },
    Row { mask: 0xE7_FF_FF, key: 0x26_0F_1F, kind: Kind::Padding },
    Row { mask: 0xE7_FF_00, key: 0x26_8D_00, kind: Kind::Padding },
    // Segment prefixes, also after 66: 26, 2E, 36, 3E, 64, 65; and segment registers.
    Row { mask: 0xE7_00_00, key: 0x26_00_00, kind: Kind::Segment },
    Row { mask: 0xFE_00_00, key: 0x64_00_00, kind: Kind::Segment },
    Row { mask: 0xFF_E7_00, key: 0x66_26_00, kind: Kind::Segment },
    Row { mask: 0xFF_FE_00, key: 0x66_64_00, kind: Kind::Segment },
    Row { mask: 0xFD_00_00, key: 0x8C_00_00, kind: Kind::SegmentRegister },
    Row { mask: 0xFE_00_00, key: 0x06_00_00, kind: Kind::SegmentRegister },
    Row { mask: 0xFF_00_00, key: 0x0E_00_00, kind: Kind::SegmentRegister },
    Row { mask: 0xF6_00_00, key: 0x16_00_00, kind: Kind::SegmentRegister },
    // Devices and the system: INS to OUTS, also repeated, IN and OUT, CLI and STI, ARPL.
    Row { mask: 0xFC_00_00, key: 0x6C_00_00, kind: Kind::Privileged },
    Row { mask: 0xFE_FC_00, key: 0xF2_6C_00, kind: Kind::Privileged },
    Row { mask: 0xF4_00_00, key: 0xE4_00_00, kind: Kind::Privileged },
    Row { mask: 0xFE_00_00, key: 0xFA_00_00, kind: Kind::Privileged },
    Row { mask: 0xFF_00_00, key: 0x63_00_00, kind: Kind::Privileged },
    // Single instructions.
    Row { mask: 0xFF_00_00, key: 0x67_00_00, kind: Kind::AddressSize },
    Row { mask: 0xFF_00_00, key: 0xC8_00_00, kind: Kind::Frame },
    Row { mask: 0xFE_00_00, key: 0x9C_00_00, kind: Kind::Flags },
    Row { mask: 0xFE_00_00, key: 0x60_00_00, kind: Kind::AllRegisters },
    Row { mask: 0xFF_00_00, key: 0xD7_00_00, kind: Kind::TableByte },
    // Prefixes before instructions that don't permit them.
    Row { mask: 0xFF_00_00, key: 0xF0_00_00, kind: Kind::Lock },
    Row { mask: 0xFF_FF_00, key: 0x66_F0_00, kind: Kind::Lock },
    Row { mask: 0xFE_FF_00, key: 0xF2_F0_00, kind: Kind::Lock },
    Row { mask: 0xFF_FE_00, key: 0x66_F2_00, kind: Kind::Repeat },
    Row { mask: 0xFE_00_00, key: 0xF2_00_00, kind: Kind::Repeat },
    Row { mask: 0xFF_00_00, key: 0x66_00_00, kind: Kind::OperandSize },
];

/// The byte at `k`, or 0 after the last.
fn byte_at(bytes: &[u8], k: usize) -> u8 {
    if k < bytes.len() { bytes[k] } else { 0 }
}

/// The first three bytes as one big-endian number; a missing byte counts as 0.
fn key_of(bytes: &[u8]) -> u32 {
    (u32::from(byte_at(bytes, 0)) * 256 + u32::from(byte_at(bytes, 1))) * 256
        + u32::from(byte_at(bytes, 2))
}

/// The kind of bytes with this key, by these rows.
fn kind_in(rows: &[Row], key: u32) -> Kind {
    for row in rows {
        if key & row.mask == row.key {
            return row.kind;
        }
    }
    Kind::General
}

/// A prefix is the last byte of its bundle, cut off from its instruction.
fn is_cut_prefix(at: u32, byte: u8) -> bool {
    at % BUNDLE == 31 && (byte == 0xF0 || byte == 0xF2 || byte == 0xF3)
}

/// What a fault means; the bytes are those from its place on, or all of the code if it has no place.
fn meaning(fault: VetFault, bytes: &[u8]) -> &'static [u8] {
    match fault {
        VetFault::BadBase => BAD_BASE,
        VetFault::BadLength if bytes.len() == 0 => EMPTY_FILE,
        VetFault::BadLength => BAD_LENGTH,
        VetFault::OutOfRange => OUT_OF_RANGE,
        VetFault::NotPermitted { .. } => kind_in(&ROWS, key_of(bytes)).words(),
        VetFault::Crosses { at } if is_cut_prefix(at, byte_at(bytes, 0)) => CUT_PREFIX,
        VetFault::Crosses { .. } => CROSSES,
        VetFault::Bare { .. } => BARE,
        VetFault::BadTarget { .. } => BAD_TARGET,
        VetFault::OutOfMemory => NO_MEMORY,
    }
}

/// The number of bundles of the smallest region that has room for the code and its guard, if there is one.
fn enough_bundles(judged: &Judged<'_>) -> Option<u64> {
    let end = u64::from(judged.base).saturating_add(judged.code.len() as u64);
    let count = end
        .saturating_sub(u64::from(START))
        .div_ceil(u64::from(BUNDLE))
        + 1;
    if count <= u64::from(MAX_BUNDLES) {
        Some(count)
    } else {
        None
    }
}

/// The words about a fault that has no place.
pub(crate) fn words_without_place(
    alloc: Global,
    judged: &Judged<'_>,
    fault: VetFault,
) -> Result<Vec<u8>, AllocError> {
    let mut words = Vec::from_slice(alloc, words_about(judged, fault, 0))?;
    if fault == VetFault::OutOfRange && judged.form.is_none() {
        if let Some(count) = enough_bundles(judged) {
            let more = format!(in alloc; ", or give --bundles of at least {count}")?;
            words.extend_from_slice(more.as_bytes())?;
        }
    }
    Ok(words)
}

/// The words about a fault at a place of the code, 0 if it has none.
pub(crate) fn words_about(judged: &Judged<'_>, fault: VetFault, place: usize) -> &'static [u8]
    requires { place ≤ length judged.now.code.now }
{
    match judged.form {
        Some(words) => words,
        None => meaning(fault, &judged.code[place..]),
    }
}
