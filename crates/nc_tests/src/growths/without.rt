//! The calls of a region that take no memory, with every allocation refused.

ghost use Rattle.std.specs.Prelude.{◌≡◌};

use crate::growths::marks::{begin, end};
use crate::lower::rows::right;
use crate::region::calls::Calls;
use crate::region::fixtures::chunk;
use crate::region::steps::{Step, creates, take_steps};
use nc_gens::{Gens, Keeper, Pass};
use nc_region::{DeleteFault, ModifyFault, Region};
use std::alloc::Global;
use std::test::Fail;

const LIMIT: u32 = 0x10080;

/// A jump to itself and an instruction of five bytes, with which the first two chunks begin; nops follow.
#[rattlefmt::skip]
static FRONT: [u8; 7] = [0xEB, 0xFE, 0xB8, 1, 0, 0, 0];

/// A masked jump by EAX, with which the third chunk begins.
static PAIR: [u8; 5] = [0x83, 0xE0, 0xE0, 0xFF, 0xE0];

/// Patches, which may be refused, and the deletion of the first chunk.
#[rattlefmt::skip]
static UNTIL_RETIRED: [Step<'static>; 11] = [
    Step::Patch(0x10002, &[0xB8, 2, 0, 0, 0], Ok(())),
    Step::Patch(0x10002, &[0xEB, 0xFE, 0x90, 0x90, 0x90], Err(ModifyFault::Boundaries)),
    Step::Patch(0x10040, &[0x83, 0xE1, 0xE0, 0xFF, 0xE1], Err(ModifyFault::PairTouched)),
    Step::Patch(0x10000, &[0xEB, 0x7E], Err(ModifyFault::BadTarget)),
    Step::Patch(0x10000, &[0xEB, 0x1E], Ok(())),
    Step::Patch(0x1001F, &[0x90, 0x90], Err(ModifyFault::BadSpan)),
    Step::Patch(0x10060, &[0x90], Err(ModifyFault::NotLive)),
    Step::Patch(0x10007, &[0xC3], Err(ModifyFault::NotPermitted)),
    Step::Delete(0x10060, Err(DeleteFault::NoChunk)),
    Step::Delete(0x10000, Ok(1)),
    Step::Reclaim(0),
];

/// While one seat has checked in and the other hasn't, nothing is freed.
static UNTIL_HELD: [Step<'static>; 1] = [Step::Reclaim(0)];

/// Once the other seat has left, the first chunk is freed, and the second one deleted.
#[rattlefmt::skip]
static UNTIL_FREE: [Step<'static>; 3] = [
    Step::Reclaim(1),
    Step::Delete(0x10020, Ok(2)),
    Step::Reclaim(0),
];

/// Once both seats have left, the second chunk is freed.
static UNTIL_LEFT: [Step<'static>; 2] = [Step::Reclaim(1), Step::Count(1)];

/// Whether the calls have their results.
fn are_made<C: Calls>(alloc: Global, region: &mut C, gens: &Gens, first: Pass, second: Pass) -> bool
    requires { (first.table ≡ gens.now) × (second.table ≡ gens.now) }
{
    let mut first = first;
    let are_retired = take_steps(alloc, region, LIMIT, &UNTIL_RETIRED);
    gens.check_in(&mut first);
    let are_held = take_steps(alloc, region, LIMIT, &UNTIL_HELD);
    gens.leave(second);
    let are_freed = take_steps(alloc, region, LIMIT, &UNTIL_FREE);
    gens.leave(first);
    are_retired && are_held && are_freed && take_steps(alloc, region, LIMIT, &UNTIL_LEFT)
}

/// Whether the chunks are created.
fn are_created<C: Calls>(alloc: Global, region: &mut C) -> bool {
    creates(region, chunk(alloc, 0x10000, LIMIT, 1, &FRONT), Ok(()))
        && creates(region, chunk(alloc, 0x10020, LIMIT, 1, &FRONT), Ok(()))
        && creates(region, chunk(alloc, 0x10040, LIMIT, 1, &PAIR), Ok(()))
}

/// A region with the three chunks.
fn opened<'g>(alloc: Global, gens: &'g Gens, keeper: Keeper) -> Option<Region<'g>>
    requires { keeper.table ≡ gens.now }
{
    let mut region = Region::new(alloc, 4, gens, keeper).ok()?;
    if are_created(alloc, &mut region) {
        return Some(region);
    }
    None
}

/// `modify`, `delete`, `reclaim`, `check_in` and `leave` have the same results without memory.
#[test]
fn no_growth(rt: HostRuntime) -> Result<(), Fail> {
    let alloc = rt.alloc();
    let (gens, keeper, mut passes) = Gens::new(alloc, 2)?;
    let first = passes.remove(0);
    let second = passes.remove(0);
    let mut region = opened(alloc, &gens, keeper).ok_or("refused")?;
    begin(&rt)?;
    let are_made = are_made(alloc, &mut region, &gens, first, second);
    end(&rt)?;
    right(are_made, 1)
}
