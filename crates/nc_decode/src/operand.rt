//! The length of an operand: ModRM, the SIB byte after it if there is one, and the displacement.

ghost use Rattle.std.specs.Prelude.{◌≡◌, ◌≤◌, false};
ghost use Rattle.nc_decode.specs.machinery.Shapes.{has_sib, is_baseless};
ghost use Rattle.nc_decode.specs.Spelling.{operand_len};

/// The length of an operand by its ModRM, unless SIB adds to it: a row for the first digit of ModRM, a column for the
/// second (Intel SDM volume 2, table 2-2). Mod is 0 in rows 0 to 3, 1 in rows 4 to 7, 2 in rows 8 to B, and 3 below.
#[rattlefmt::skip]
pub(crate) static OPERAND: [u8; 256] = [
    //      0  1  2  3  4  5  6  7  8  9  A  B  C  D  E  F
    /* 0 */ 1, 1, 1, 1, 2, 5, 1, 1, 1, 1, 1, 1, 2, 5, 1, 1,
    /* 1 */ 1, 1, 1, 1, 2, 5, 1, 1, 1, 1, 1, 1, 2, 5, 1, 1,
    /* 2 */ 1, 1, 1, 1, 2, 5, 1, 1, 1, 1, 1, 1, 2, 5, 1, 1,
    /* 3 */ 1, 1, 1, 1, 2, 5, 1, 1, 1, 1, 1, 1, 2, 5, 1, 1,
    /* 4 */ 2, 2, 2, 2, 3, 2, 2, 2, 2, 2, 2, 2, 3, 2, 2, 2,
    /* 5 */ 2, 2, 2, 2, 3, 2, 2, 2, 2, 2, 2, 2, 3, 2, 2, 2,
    /* 6 */ 2, 2, 2, 2, 3, 2, 2, 2, 2, 2, 2, 2, 3, 2, 2, 2,
    /* 7 */ 2, 2, 2, 2, 3, 2, 2, 2, 2, 2, 2, 2, 3, 2, 2, 2,
    /* 8 */ 5, 5, 5, 5, 6, 5, 5, 5, 5, 5, 5, 5, 6, 5, 5, 5,
    /* 9 */ 5, 5, 5, 5, 6, 5, 5, 5, 5, 5, 5, 5, 6, 5, 5, 5,
    /* A */ 5, 5, 5, 5, 6, 5, 5, 5, 5, 5, 5, 5, 6, 5, 5, 5,
    /* B */ 5, 5, 5, 5, 6, 5, 5, 5, 5, 5, 5, 5, 6, 5, 5, 5,
    /* C */ 1, 1, 1, 1, 1, 1, 1, 1, 1, 1, 1, 1, 1, 1, 1, 1,
    /* D */ 1, 1, 1, 1, 1, 1, 1, 1, 1, 1, 1, 1, 1, 1, 1, 1,
    /* E */ 1, 1, 1, 1, 1, 1, 1, 1, 1, 1, 1, 1, 1, 1, 1, 1,
    /* F */ 1, 1, 1, 1, 1, 1, 1, 1, 1, 1, 1, 1, 1, 1, 1, 1,
];

/// The length of an operand whose SIB, if it has one, doesn't add to it.
#[inline(always)]
fn usual_len(modrm: u8) -> u8
    ensures { result ≡ operand_len modrm 0 }
{
    OPERAND[modrm as usize]
}

/// Mod is 0 and SIB names no base: four bytes of displacement follow.
#[inline(always)]
fn is_baseless(modrm: u8, sib: u8) -> bool
    ensures { result ≡ is_baseless modrm sib }
{
    (modrm < 64) & (modrm % 8 == 4) & (sib % 8 == 5)
}

/// The length of an operand. If no SIB follows ModRM, `sib` doesn't matter.
#[inline(always)]
pub(crate) fn operand_len(modrm: u8, sib: u8) -> u8
    ensures len { result ≡ operand_len modrm sib }
    ensures alone { has_sib modrm ≡ false → result ≡ operand_len modrm 0 }
    ensures small { result ≤ 6 }
{
    // No branches: the form of the next operand is hard to predict.
    usual_len(modrm) + 4 * u8::from(is_baseless(modrm, sib))
}
