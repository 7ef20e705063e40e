//! The calls of a region, while they are refused an allocation.

ghost use Rattle.std.specs.Prelude.{◌≡◌};

use crate::growths::marks::{begin, end};
use crate::lower::rows::right;
use crate::region::calls::Calls;
use crate::region::fixtures::{chunk, one_seat};
use nc_decode::{Mark, START};
use nc_gens::{Gens, Keeper};
use nc_region::{Acts, CreateFault, End, Region, RegionFault, RegionOf, Trace, WalkFault};
use nc_vet::Vetted;
use std::alloc::Global;
use std::test::Fail;

const LIMIT: u32 = 0x10080;

/// A jump to the next bundle, with which the chunk begins; nops follow.
const JUMP: [u8; 2] = [0xEB, 0x1E];

/// A new region, also if memory is refused once.
fn opened<'g>(alloc: Global, gens: &'g Gens, keeper: Keeper) -> Option<Region<'g>>
    requires { keeper.table ≡ gens.now }
{
    match Region::new(alloc, 4, gens, keeper) {
        Ok(region) => Some(region),
        Err((keeper, RegionFault::OutOfMemory)) => Region::new(alloc, 4, gens, keeper).ok(),
        Err(_) => None,
    }
}

/// The byte that a place of an unused bundle or of the chunk has.
fn due_byte(index: u32, is_created: bool) -> u8 {
    match index {
        0 if is_created => JUMP[0],
        1 if is_created => JUMP[1],
        2..32 if is_created => 0x90,
        _ => 0xF4,
    }
}

/// The mark that a place of an unused bundle or of the chunk has.
fn due_mark(index: u32, is_created: bool) -> Mark {
    if index % 32 == 0 || (is_created && index > 1 && index < 32) {
        Mark::Plain
    } else {
        Mark::Unmarked
    }
}

/// Whether a place of the region is as it should be.
fn is_place<A: Acts + Drop>(region: &RegionOf<A>, index: u32, is_created: bool) -> bool {
    let at = START.wrapping_add(index);
    START <= at
        && at < region.limit()
        && region.byte(at) == due_byte(index, is_created)
        && region.mark(at) == due_mark(index, is_created)
}

/// Whether the region has the chunk and nothing else, or nothing.
fn is_as_due<A: Acts + Drop>(region: &RegionOf<A>, is_created: bool) -> bool {
    for index in 0..128u32 {
        if !is_place(region, index, is_created) {
            return false;
        }
    }
    region.chunk_count() == usize::from(is_created)
}

/// Whether the chunk is created, also if memory is refused once, which gives the chunk back and leaves all as it was.
fn is_created<A: Acts + Drop>(region: &mut RegionOf<A>, vetted: Vetted) -> bool {
    match region.created(vetted) {
        Ok(()) => is_as_due(region, true),
        Err((vetted, CreateFault::OutOfMemory)) => {
            is_as_due(region, false) && region.created(vetted).is_ok() && is_as_due(region, true)
        }
        Err(_) => false,
    }
}

/// Whether a trace has the places of the chunk's jump.
fn is_trace(trace: &Trace) -> bool {
    trace.places.as_slice() == [0x10000, 0x10020].as_slice() && trace.end == End::Stop
}

/// Whether the walk has its trace.
fn is_walked_now<C: Calls>(region: &C) -> bool {
    match region.walked(START, &[0, 0]) {
        Ok(trace) => is_trace(&trace),
        Err(_) => false,
    }
}

/// Whether the walk has its trace, also if memory is refused once.
fn is_walked<C: Calls>(region: &C) -> bool {
    match region.walked(START, &[0, 0]) {
        Ok(trace) => is_trace(&trace),
        Err(WalkFault::OutOfMemory) => is_walked_now(region),
        Err(_) => false,
    }
}

/// Whether the calls succeed in a new region.
fn are_made<A: Acts + Drop>(region: RegionOf<A>, vetted: Vetted) -> bool {
    let mut region = region;
    is_created(&mut region, vetted) && is_walked(&region) && is_as_due(&region, true)
}

/// Whether a region is made over this table, and its calls succeed.
fn are_made_over<'g>(alloc: Global, gens: &'g Gens, keeper: Keeper, vetted: Vetted) -> bool
    requires { keeper.table ≡ gens.now }
{
    match opened(alloc, gens, keeper) {
        Some(region) => are_made(region, vetted),
        None => false,
    }
}

/// `Region::new`, `create` and `walk` refuse for lack of memory and change nothing, or succeed.
#[test]
fn each_growth_refused(rt: HostRuntime) -> Result<(), Fail> {
    let alloc = rt.alloc();
    let (gens, keeper, _pass) = one_seat(alloc)?;
    let vetted = chunk(alloc, START, LIMIT, 1, &JUMP).ok_or("refused")?;
    begin(&rt)?;
    let are_made = are_made_over(alloc, &gens, keeper, vetted);
    end(&rt)?;
    right(are_made, 1)
}
