//! A valid chunk with one byte replaced. It is a masked jump and nops, and each byte gets each value.

ghost use Rattle.std.specs.Prelude.{◌≡◌};

use crate::lower::rows::right;
use crate::region::calls::Calls;
use crate::region::fixtures::one_seat;
use nc_decode::{START, decode};
use nc_gens::{Gens, Keeper};
use nc_region::{Acts, Region, RegionOf};
use nc_vet::{Vetted, vet};
use std::alloc::{AllocError, Global};
use std::test::Fail;

/// The limit of a region of four bundles.
const LIMIT: u32 = 0x10080;

/// A masked jump on EBX.
const PAIR: [u8; 5] = [0x83, 0xE3, 0xE0, 0xFF, 0xE3];

/// The choices of the walks: each branch falls through, each goes to its target, and each masked jump goes to 00010040.
static CHOICES: [[u32; 40]; 3] = [[0; 40], [1; 40], [0x1005F; 40]];

/// The number of chunks that are accepted, by a second reading of the opcode table that was written apart from `nc_decode`.
const ACCEPTED: u32 = 4_109;

/// The masked jump and nops, with another byte at this place.
fn code(alloc: Global, place: usize, value: u8) -> Result<Vec<u8>, AllocError> {
    let mut code = Vec::new(alloc);
    code.extend_from_slice(&PAIR)?;
    code.resize(32, 0x90)?;
    if let Some(byte) = code.get_mut(place) {
        *byte = value;
    }
    Ok(code)
}

/// The bytes of a region.
fn copied<A: Acts + Drop>(region: &RegionOf<A>) -> [u8; 128] {
    let mut bytes = [0; 128];
    let limit = region.limit();
    for index in 0..128u32 {
        let at = START.wrapping_add(index);
        if at < limit {
            bytes[index as usize] = region.byte(at);
        }
    }
    bytes
}

/// Whether an instruction is at this address, and ends in its bundle, or the address is below the region.
fn is_on_instruction(bytes: &[u8; 128], at: u32) -> bool {
    let Some(index) = at.checked_sub(START) else {
        return true;
    };
    let first = index as usize;
    let end = first.saturating_sub(first % 32).saturating_add(32);
    match bytes.get(first..end) {
        Some(rest) => decode(rest).is_ok(),
        None => false,
    }
}

/// Whether an instruction is at each of these places that is in the region.
fn are_on_instructions(bytes: &[u8; 128], places: &[u32]) -> bool {
    for at in places {
        if !is_on_instruction(bytes, *at) {
            return false;
        }
    }
    true
}

/// Whether a walk with these choices is only at instructions while it is in the region.
fn is_walked<C: Calls>(region: &C, bytes: &[u8; 128], choices: &[u32]) -> bool {
    match region.walked(START, choices) {
        Ok(trace) => are_on_instructions(bytes, trace.places.as_slice()),
        Err(_) => false,
    }
}

/// Whether each walk is.
fn are_walked<A: Acts + Drop>(region: &RegionOf<A>) -> bool {
    let bytes = copied(region);
    for choices in &CHOICES {
        if !is_walked(region, &bytes, choices) {
            return false;
        }
    }
    true
}

/// Whether the chunk is created, and each walk is only at instructions.
fn is_created<A: Acts + Drop>(region: RegionOf<A>, vetted: Vetted) -> bool {
    let mut region = region;
    region.created(vetted).is_ok() && are_walked(&region)
}

/// Whether the chunk is so in a new region over this table.
fn is_created_over<'g>(alloc: Global, gens: &'g Gens, keeper: Keeper, vetted: Vetted) -> bool
    requires { keeper.table ≡ gens.now }
{
    match Region::new(alloc, 4, gens, keeper) {
        Ok(region) => is_created(region, vetted),
        Err(_) => false,
    }
}

/// Whether the chunk is so in a region of its own.
fn is_created_anew(alloc: Global, vetted: Vetted) -> bool {
    match one_seat(alloc) {
        Ok((gens, keeper, _pass)) => is_created_over(alloc, &gens, keeper, vetted),
        Err(_) => false,
    }
}

/// Whether the chunk with this byte is accepted; if it is, it is created and walked. The number of the row is that of the chunk.
fn is_accepted(alloc: Global, place: u32, value: u8) -> Result<bool, Fail> {
    let row = place.wrapping_mul(256).wrapping_add(u32::from(value));
    match vet(START, LIMIT, code(alloc, place as usize, value)?) {
        Ok(vetted) => {
            right(is_created_anew(alloc, vetted), row)?;
            Ok(true)
        }
        Err(_) => Ok(false),
    }
}

/// The number of values of the byte at this place with which the chunk is accepted.
fn accepted_at(alloc: Global, place: u32) -> Result<u32, Fail> {
    let mut accepted = 0u32;
    for value in 0..=255u8 {
        if is_accepted(alloc, place, value)? {
            accepted = accepted.wrapping_add(1);
        }
    }
    Ok(accepted)
}

/// `vet` returns on each of the 8,192 chunks. What it accepts is created, and is walked only over instructions.
#[test]
fn one_byte_off(rt: HostRuntime) -> Result<(), Fail> {
    let mut accepted = 0u32;
    for place in 0..32u32 {
        accepted = accepted.wrapping_add(accepted_at(rt.alloc(), place)?);
    }
    right(accepted == ACCEPTED, accepted)
}
