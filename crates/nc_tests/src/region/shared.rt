//! A region that threads share, and its calls under the lock.
ghost use Rattle.std.specs.Prelude.{◌≡◌};

use crate::lower::rows::right;
use crate::region::calls::{Calls, Locked};
use crate::region::fixtures::{chunk, one_seat, shared};
use crate::region::steps::{Step, creates, take_steps};
use nc_gens::Pass;
use nc_region::{Acts, CreateFault, DeleteFault, End, ModifyFault, SharedOf, Trace};
use std::alloc::Global;
use std::sync::Wait;
use std::test::Fail;
use std::thread::{Threads, join};

/// The limit of the region, which has 4 bundles.
const LIMIT: u32 = 0x10080;

/// The base of the chunk that is created before, a jump to itself.
const BEFORE: u32 = 0x10040;

/// A jump from 00010000 to 00010020, and one back.
const FORTH: &[u8] = &[0xEB, 0x1E];

const BACK: &[u8] = &[0xEB, 0xDE];

/// The places of walks over both chunks, from the first one and from the second one.
const FROM_FIRST: &[u32] = &[0x10000, 0x10020, 0x10000, 0x10020];

const FROM_SECOND: &[u32] = &[0x10020, 0x10000, 0x10020, 0x10000];

/// The length of a trace that has all of these places, or the first two and then ends at a stop; 0 of any other.
fn length(trace: &Trace, places: &[u32]) -> usize {
    let found = trace.places.as_slice();
    let is_long = found == places && trace.end == End::More;
    let is_short = Some(found) == places.get(..2) && trace.end == End::Stop;
    if is_long || is_short { found.len() } else { 0 }
}

/// Creates a chunk of one bundle, and walks from it: the length of the trace, which should begin with these places.
fn create_and_walk<C: Calls + Drop>(
    alloc: Global,
    mut region: C,
    base: u32,
    front: &[u8],
    places: &[u32],
) -> usize {
    if !creates(&mut region, chunk(alloc, base, LIMIT, 1, front), Ok(())) {
        return 0;
    }
    match region.walked(base, &[0, 0, 0]) {
        Ok(trace) => length(&trace, places),
        Err(_) => 0,
    }
}

/// Two threads each create a chunk of their own and walk from it. They share a region over any acts that can be sent to another
/// thread.
fn run_two<R: Threads + Wait + Sync, A: Acts + Drop + Send>(
    rt: &R,
    alloc: Global,
    shared: &SharedOf<'_, A>,
) -> (usize, usize) {
    join(
        rt,
        move || create_and_walk(alloc, Locked { rt, shared }, 0x10000, FORTH, FROM_FIRST),
        move || create_and_walk(alloc, Locked { rt, shared }, 0x10020, BACK, FROM_SECOND),
    )
}

/// At least one of the threads went over both chunks, and both walked as they should.
fn one_is_long(lengths: (usize, usize)) -> bool {
    lengths == (4, 4) || lengths == (2, 4) || lengths == (4, 2)
}

/// Both chunks and the one before them are there. The first jump is patched to go to the latter, the second chunk is deleted,
/// and its span stays occupied.
static JOINED: [Step<'static>; 12] = [
    Step::Count(3),
    Step::Walk(0x10000, &[0, 0, 0], FROM_FIRST, End::More),
    Step::Create(0x10020, 1, &[0x40], Err(CreateFault::Occupied)),
    Step::Create(BEFORE, 1, &[0x40], Err(CreateFault::Occupied)),
    Step::Patch(0x10000, &[0xEB, 0x3E], Ok(())),
    Step::Patch(0x10002, &[0xC3], Err(ModifyFault::NotPermitted)),
    Step::Walk(0x10000, &[0, 0], &[0x10000, BEFORE, BEFORE], End::More),
    Step::Delete(0x10060, Err(DeleteFault::NoChunk)),
    Step::Delete(0x10020, Ok(1)),
    Step::Reclaim(0),
    Step::Count(3),
    Step::Create(0x10020, 1, &[], Err(CreateFault::Occupied)),
];

/// Once the seat has checked in, the second chunk's span is free, and then used again. Two chunks are deleted.
static CHECKED_IN: [Step<'static>; 6] = [
    Step::Reclaim(1),
    Step::Count(2),
    Step::Create(0x10020, 1, &[], Ok(())),
    Step::Delete(0x10020, Ok(2)),
    Step::Delete(0x10000, Ok(3)),
    Step::Reclaim(0),
];

/// Once the seat has left, both are freed.
static LEFT: [Step<'static>; 3] = [
    Step::Reclaim(2),
    Step::Count(1),
    Step::Walk(0x10000, &[0], &[0x10000], End::Stop),
];

/// Makes the calls under the lock, with a check-in without it in between; then the seat leaves.
fn calls_are_right<C: Calls, A: Acts + Drop>(
    alloc: Global,
    region: &mut C,
    shared: &SharedOf<'_, A>,
    mut pass: Pass,
) -> bool
    requires { pass.table ≡ shared.now.table }
{
    let joined = take_steps(alloc, region, LIMIT, &JOINED);
    shared.check_in(&mut pass);
    let checked_in = take_steps(alloc, region, LIMIT, &CHECKED_IN);
    shared.leave(pass);
    let left = take_steps(alloc, region, LIMIT, &LEFT);
    joined && checked_in && left
}

/// Two threads share the region, and then every call is made.
fn is_shared<R: Threads + Wait + Sync, A: Acts + Drop + Send>(
    rt: &R,
    alloc: Global,
    shared: SharedOf<'_, A>,
    pass: Pass,
) -> bool
    requires { pass.table ≡ shared.table }
{
    let shared = &shared;
    let lengths = run_two(rt, alloc, shared);
    calls_are_right(alloc, &mut Locked { rt, shared }, shared, pass) && one_is_long(lengths)
}

#[test]
fn two_threads(rt: HostRuntime) -> Result<(), Fail> {
    let alloc = rt.alloc();
    let (gens, keeper, pass) = one_seat(alloc)?;
    let found = match shared(alloc, 4, BEFORE, &gens, keeper) {
        Some(shared) => is_shared(&rt, alloc, shared, pass),
        None => false,
    };
    right(found, 1)
}
