//! The time of a check-in, and for comparison that of a bare load and store of atomic words with the same memory ordering.

ghost use Rattle.std.specs.Prelude.{◌≡◌};

use crate::timing::{now, report, since};
use nc_gens::{Gens, Keeper, Pass};
use nc_region::{Acts, Region, RegionOf, SharedOf};
use std::alloc::Global;
use std::io;
use std::sync::atomic::{AtomicU64, Ordering};
use std::time::{Clock, Duration};

/// Checks in `times` times.
#[inline(never)]
fn check_in_times<A: Acts + Drop>(shared: &SharedOf<'_, A>, pass: &mut Pass, times: u32)
    requires { pass.old.table ≡ shared.now.table }
    ensures { pass.new.table ≡ pass.old.table }
{
    for _ in 0..times {
        shared.check_in(pass);
    }
}

/// Loads one word and stores it into the other.
#[inline(always)]
fn bare_step(generation: &AtomicU64, word: &AtomicU64) {
    word.store(generation.load(Ordering::SeqCst), Ordering::SeqCst);
}

/// Does the bare step `times` times. It is a function of its own, since a compiler that sees that the words aren't shared
/// turns them into plain ones.
#[inline(never)]
fn bare_times(generation: &AtomicU64, word: &AtomicU64, times: u32) {
    for _ in 0..times {
        bare_step(generation, word);
    }
}

/// The time of the bare steps, on adjacent words.
fn bare_once<R: Clock>(rt: &R, times: u32) -> Duration {
    let words = [AtomicU64::new(0), AtomicU64::new(0)];
    let start = now(rt);
    bare_times(&words[0], &words[1], times);
    since(rt, start)
}

/// The time of the check-ins in this region over this table of generations.
fn check_in_timed<R: Clock, A: Acts + Drop>(
    rt: &R,
    region: RegionOf<A>,
    gens: &Gens,
    pass: &mut Pass,
    times: u32,
) -> Duration
    requires { (region.keeper.table ≡ gens.now) × (pass.old.table ≡ gens.now) }
{
    let shared = SharedOf::over(region, gens);
    let start = now(rt);
    check_in_times(&shared, pass, times);
    since(rt, start)
}

/// The time of the check-ins in a new region over this table of generations, or the maximum if there is no memory for it.
fn check_in_over<R: Clock>(
    rt: &R,
    alloc: Global,
    gens: &Gens,
    keeper: Keeper,
    pass: &mut Pass,
    times: u32,
) -> Duration
    requires { (keeper.table ≡ gens.now) × (pass.old.table ≡ gens.now) }
{
    match Region::new(alloc, 2, gens, keeper) {
        Ok(region) => check_in_timed(rt, region, gens, pass, times),
        Err(_refused) => Duration::MAX,
    }
}

/// The time of the check-ins in a new region over a new table of generations, or the maximum if there is no memory for both.
fn check_in_once<R: Clock>(rt: &R, alloc: Global, times: u32) -> Duration {
    match Gens::new(alloc, 1) {
        Ok((gens, keeper, mut passes)) => {
            let mut pass = passes.remove(0);
            check_in_over(rt, alloc, &gens, keeper, &mut pass, times)
        }
        Err(_refused) => Duration::MAX,
    }
}

/// Times check-ins and bare steps alternately, and prints the best times.
pub fn measure_check_in<R: Clock + Print + AllocGlobal>(
    rt: &R,
    times: u32,
    rounds: u32,
) -> io::Result<()> {
    let mut check_in = Duration::MAX;
    let mut bare = Duration::MAX;
    for _ in 0..rounds {
        check_in = check_in.min(check_in_once(rt, rt.alloc(), times));
        bare = bare.min(bare_once(rt, times));
    }
    report(rt, times, "check-ins", check_in)?;
    report(rt, times, "bare loads and stores", bare)
}
