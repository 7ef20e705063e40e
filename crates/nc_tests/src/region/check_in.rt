//! Check-in without the lock, while a writer works.
ghost use Rattle.std.specs.Prelude.{◌≡◌, All};
ghost use Rattle.std.specs.Thread.{IsSync};

use crate::lower::rows::right;
use crate::region::calls::{Calls, Locked};
use crate::region::fixtures::{chunk, shared_anew};
use crate::region::steps::{Step, creates, take_steps};
use nc_gens::{Gens, Pass};
use nc_region::{Acts, SharedOf};
use std::alloc::Global;
use std::sync::Wait;
use std::test::Fail;
use std::thread::{Threads, for_each_mut, join_mut};

/// The limit of the region, which has 128 bundles.
const LIMIT: u32 = 0x11000;

/// Checks in several times, without the lock.
fn check_in_often<A: Acts + Drop>(shared: &SharedOf<'_, A>, pass: &mut Pass, times: usize)
    requires { pass.old.table ≡ shared.now.table }
    ensures { pass.new.table ≡ pass.old.table }
{
    for _ in 0..times {
        shared.check_in(pass);
    }
}

/// Checks each pass in several times, each in a thread of its own.
fn all_check_in<R: Threads + Sync, A: Acts + Drop + Send>(
    rt: &R,
    shared: &SharedOf<'_, A>,
    passes: &mut [Pass],
    times: usize,
)
    requires { All (λ p. p.table ≡ shared.now.table) passes.old }
    ensures { All (λ p. p.table ≡ shared.now.table) passes.new }
{
    for_each_mut(
        rt,
        passes,
        4,
        &|_, pass| check_in_often(shared, pass, times),
    );
}

/// Creates 32 nops, deletes them and reclaims: the number of freed chunks, if the stamp is one more than the index.
fn write_one<C: Calls>(alloc: Global, region: &mut C, i: u32) -> Option<u32> {
    let base = 0x10000u32.wrapping_add(i.wrapping_mul(32));
    let created = creates(region, chunk(alloc, base, LIMIT, 1, &[]), Ok(()));
    let stamp = region.deleted(base);
    if created && stamp == Ok(u64::from(i).wrapping_add(1)) {
        return Some(region.reclaimed());
    }
    None
}

/// Creates, deletes and reclaims a hundred times (`write_one`).
fn write_all<C: Calls>(alloc: Global, region: &mut C) -> Option<u32> {
    let mut freed = 0u32;
    for i in 0..100 {
        freed = freed.wrapping_add(write_one(alloc, region, i)?);
    }
    Some(freed)
}

/// Four passes check in a thousand times each while a writer works.
fn check_in_beside<R: Threads + Wait + Sync, A: Acts + Drop + Send>(
    rt: &R,
    alloc: Global,
    shared: &SharedOf<'_, A>,
    passes: &mut [Pass],
) -> Option<u32>
    requires { All (λ p. p.table ≡ shared.now.table) passes.old }
    ensures { All (λ p. p.table ≡ shared.now.table) passes.new }
{
    let (_, wrote) = join_mut(
        rt,
        &mut ||
            requires { IsSync R.row × All (λ p. p.table ≡ shared.now.table) passes.now }
            ensures { All (λ p. p.table ≡ shared.entry.now.table) passes.exit.now }
        { all_check_in(rt, shared, passes, 1000) },
        &mut || write_all(alloc, &mut Locked { rt, shared }),
    );
    wrote
}

/// All passes but the last check in once more, and the last one leaves. The function may start threads but not wait, so
/// neither call waits.
fn last_leaves<R: Threads + Sync, A: Acts + Drop + Send>(
    rt: &R,
    shared: &SharedOf<'_, A>,
    passes: Vec<Pass>,
)
    requires { All (λ p. p.table ≡ shared.now.table) passes.items }
{
    let mut passes = passes;
    if let Some(last) = passes.pop() {
        all_check_in(rt, shared, passes.as_mut_slice(), 1);
        shared.leave(last);
    }
}

/// A last chunk is created and deleted.
static LAST: [Step<'static>; 2] = [
    Step::Create(0x10C80, 1, &[], Ok(())),
    Step::Delete(0x10C80, Ok(101)),
];

/// A last chunk is created and deleted; afterwards at least one chunk is listed.
fn is_last_retired<C: Calls>(alloc: Global, region: &mut C) -> bool {
    take_steps(alloc, region, LIMIT, &LAST) && region.counted() >= 1
}

/// The chunks that are reclaimed are 101 with those freed before, and none is left.
fn are_all_freed<C: Calls>(region: &mut C, before: u32) -> bool {
    before.wrapping_add(region.reclaimed()) == 101 && region.counted() == 0
}

/// Passes check in beside a writer, and once more or leave after a last chunk is retired: all chunks are freed.
fn check_in_and_leave<R: Threads + Wait + Sync, A: Acts + Drop + Send>(
    rt: &R,
    alloc: Global,
    shared: SharedOf<'_, A>,
    passes: Vec<Pass>,
) -> bool
    requires { All (λ p. p.table ≡ shared.table) passes.items }
{
    let shared = &shared;
    let mut passes = passes;
    let freed = check_in_beside(rt, alloc, shared, passes.as_mut_slice());
    let retired = is_last_retired(alloc, &mut Locked { rt, shared });
    last_leaves(rt, shared, passes);
    match freed {
        Some(freed) => retired && are_all_freed(&mut Locked { rt, shared }, freed),
        None => false,
    }
}

#[test]
fn check_in_beside_writer(rt: HostRuntime) -> Result<(), Fail> {
    let alloc = rt.alloc();
    let (gens, keeper, passes) = Gens::new(alloc, 4)?;
    let freed = match shared_anew(alloc, 128, &gens, keeper) {
        Some(shared) => check_in_and_leave(&rt, alloc, shared, passes),
        None => false,
    };
    right(freed, 1)
}
