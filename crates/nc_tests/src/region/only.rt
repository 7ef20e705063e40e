//! A call under the lock does what the region's call of that name does, and nothing else.
ghost use Rattle.std.specs.Prelude.{◌≡◌};

use crate::lower::rows::right;
use crate::region::calls::Locked;
use crate::region::fixtures::one_seat;
use crate::region::steps::{Step, take_steps};
use nc_gens::{Gens, Keeper};
use nc_region::{CreateFault, DeleteFault, End, ModifyFault, Region, Shared};
use std::alloc::Global;
use std::sync::Wait;
use std::test::Fail;

/// The limit of the region, which has 8 bundles.
const LIMIT: u32 = 0x10100;

/// The first bytes of the chunk that stays, an instruction that is patched and a jump to the chunk's base.
const FRONT: &[u8] = &[0xB8, 1, 0, 0, 0, 0xEB, 0xF9];

/// Two turns through the chunk that stays.
const TURNS: &[u32] = &[0x10000, 0x10005, 0x10000, 0x10005, 0x10000];

/// Before the region is shared: a chunk stays, and another one is deleted. No seat holds it back, so it is due.
static BEFORE: [Step<'static>; 3] = [
    Step::Create(0x10000, 1, FRONT, Ok(())),
    Step::Create(0x10020, 1, &[], Ok(())),
    Step::Delete(0x10020, Ok(1)),
];

/// Neither sharing nor any call but `reclaim` frees what is due. A refused call changes nothing, and no call deletes a chunk that
/// it isn't asked to.
static SHARED: [Step<'static>; 22] = [
    Step::Count(2),
    Step::Walk(0x10000, &[0; 4], TURNS, End::More),
    Step::Count(2),
    Step::Patch(0x10000, &[0xB8, 2, 0, 0, 0], Ok(())),
    Step::Count(2),
    Step::Patch(0x10000, &[0xC3], Err(ModifyFault::NotPermitted)),
    Step::Count(2),
    Step::Create(0x10020, 1, &[], Err(CreateFault::Occupied)),
    Step::Count(2),
    Step::Create(0x10040, 1, &[0xEB, 0xFE], Ok(())),
    Step::Count(3),
    Step::Walk(0x10040, &[0], &[0x10040, 0x10040], End::More),
    Step::Delete(0x10020, Err(DeleteFault::NoChunk)),
    Step::Count(3),
    Step::Delete(0x10040, Ok(2)),
    Step::Count(3),
    Step::Walk(0x10040, &[0], &[0x10040], End::Stop),
    Step::Walk(0x10000, &[0; 4], TURNS, End::More),
    Step::Reclaim(2),
    Step::Count(1),
    Step::Reclaim(0),
    Step::Walk(0x10000, &[0; 4], TURNS, End::More),
];

/// The calls have their results before the region is shared, and under the lock.
fn are_right<R: Wait>(rt: &R, alloc: Global, region: Region<'_>) -> bool {
    let mut region = region;
    let is_begun = take_steps(alloc, &mut region, LIMIT, &BEFORE);
    let shared = &Shared::new(region);
    is_begun && take_steps(alloc, &mut Locked { rt, shared }, LIMIT, &SHARED)
}

/// The calls have their results in a new region over this table, whose seat has left.
fn are_right_in<'g, R: Wait>(rt: &R, alloc: Global, gens: &'g Gens, keeper: Keeper) -> bool
    requires { keeper.table ≡ gens.now }
{
    match Region::new(alloc, 8, gens, keeper) {
        Ok(region) => are_right(rt, alloc, region),
        Err(_) => false,
    }
}

#[test]
fn only_the_call(rt: HostRuntime) -> Result<(), Fail> {
    let alloc = rt.alloc();
    let (gens, keeper, pass) = one_seat(alloc)?;
    gens.leave(pass);
    right(are_right_in(&rt, alloc, &gens, keeper), 1)
}
