//! Decodes the instruction at the front of some bytes: first its shape, then a test that all of it is present.

ghost use Rattle.std.specs.Prelude.{◌≡◌, ◌≤◌, ◌<◌, ◌+◌, ◌↔◌, length, drop, IfOk};
ghost use Rattle.std.specs.Result.{result_ok};
ghost use Rattle.nc_decode.specs.Barred.{IsBarred};
ghost use Rattle.nc_decode.specs.Front.{first_instruction};
ghost use Rattle.nc_decode.specs.machinery.Reading.{reading, rel_of, whole_of, IsSized};
ghost use Rattle.nc_decode.specs.Spelling.{masks_of, IsAtFront, IsProperFront};

use crate::entry::{Number, Shape};
use crate::instruction::{DecodeFault, Instr};
use crate::shape::shape;
use byteorder::{ByteOrder, LittleEndian};

/// The displacement at the front of `rest` if the number is a displacement, else 0.
#[inline(always)]
fn rel(number: Number, rest: &[u8]) -> i32
    requires short { number ≡ Number.Short → 1 ≤ length rest.now }
    requires near { number ≡ Number.Near → 4 ≤ length rest.now }
    ensures { result ≡ rel_of number rest.now }
{
    match number {
        Number::Short => i32::from(rest[0].cast_signed()),
        Number::Near => LittleEndian::read_i32(rest),
        _ => 0,
    }
}

/// The register that a whole instruction masks, if any.
#[inline(always)]
fn masks(bytes: &[u8]) -> Option<u8>
    ensures { result ≡ masks_of bytes.now }
{
    // The opcode is tested first: few instructions have it, while the length by itself rules out few.
    let [0x83, rest @ ..] = bytes else {
        return None;
    };
    match rest {
        [modrm, 0xE0] if 0xE0 <= *modrm && *modrm < 0xE8 && *modrm != 0xE4 => Some(*modrm - 0xE0),
        _ => None,
    }
}

/// The instruction of this shape, if all its bytes are present.
#[inline(always)]
#[tactic(auto, unfolding(crate::specs::machinery::Reading::whole_of))]
fn whole(bytes: &[u8], shape: Shape) -> Result<Instr, DecodeFault>
    requires { IsSized shape }
    ensures { result ≡ whole_of bytes.now shape }
{
    let len = shape.head + shape.number_len;
    if bytes.len() < len as usize {
        return Err(DecodeFault::Truncated);
    }
    Ok(Instr {
        len,
        flow: shape.flow,
        rel: rel(shape.number, &bytes[shape.head as usize..]),
        reg: shape.reg,
        masks: masks(&bytes[..len as usize]),
    })
}

/// The instruction at the front, read from the left.
#[inline(always)]
#[tactic(auto, unfolding(crate::specs::machinery::Reading::reading))]
fn read(bytes: &[u8]) -> Result<Instr, DecodeFault>
    ensures { result ≡ reading bytes.now }
{
    whole(bytes, shape(bytes)?)
}

/// The instruction at the front of the bytes: one whole permitted instruction, whatever follows it.
///
/// The permitted instructions are a subset of 32-bit x86 without floating point and vectors: the rows of `specs/Rows`,
/// combined as in `specs/Spelling`, with the lengths of the Intel SDM, volume 2. An instruction may have at most one
/// prefix, and only where the prefix table permits it. Segment overrides, returns, far transfers, software interrupts,
/// SYSCALL and SYSENTER are never permitted.
///
/// It allocates nothing, accepts any bytes, and needs none after the instruction. It doesn't judge whether the
/// instruction is permitted at an address: `nc_vet` checks bundles, masks before indirect transfers, and targets.
///
/// # Errors
///
/// `Truncated` exactly if the bytes are the beginning of a permitted instruction but not all of it, `NotPermitted` in all
/// other cases in which they don't begin with one.
#[inline(always)]
pub fn decode(bytes: &[u8]) -> Result<Instr, DecodeFault>
    // The bytes begin with a whole instruction, described by `i`.
    ensures found { (i : Instr) → (result ≡ Ok i) ↔ IsAtFront bytes.now i }
    // The bytes are the beginning of an instruction, but not all of it.
    ensures truncated { (result ≡ Err DecodeFault.Truncated) ↔ IsProperFront bytes.now }
    // The bytes neither begin with a whole instruction nor are the beginning of one.
    ensures refused { (result ≡ Err DecodeFault.NotPermitted)
        ↔ (((i : Instr) → ¬ IsAtFront bytes.now i) × ¬ IsProperFront bytes.now) }
    // The instruction at the front is not barred.
    ensures allowed { (i : Instr) (f : IsAtFront bytes.now i) → ¬ IsBarred f.front }
    // The layers above know the table only by this function.
    ensures first { result_ok result ≡ first_instruction bytes.now }
    // The length is at least 1, and at most the number of bytes given.
    ensures sized { IfOk result (λ i. (0 < i.len) × (i.len ≤ length bytes.now)) }
{
    read(bytes)
}
