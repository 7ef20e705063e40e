//! The time of a region's calls on chunks.

ghost use Rattle.std.specs.Prelude.{◌≡◌};

use crate::load::{Load, create_all};
use crate::ordinary::{PATCH, PATCH_AT};
use crate::timing::{now, report, since};
use nc_gens::{Gens, Keeper, Pass};
use nc_region::{Acts, Region, RegionOf};
use nc_vet::Vetted;
use std::alloc::Global;
use std::io;
use std::time::{Clock, Duration};

/// The names of the parts of a round.
static PARTS: [&str; 4] = ["created", "patched", "deleted", "reclaimed"];

/// The number of chunks that were created, patched, deleted and reclaimed, and the time of each of these parts.
#[derive(Clone, Copy, Drop)]
struct Times {
    done: [u32; 4],
    took: [Duration; 4],
}

impl Times {
    /// Times that are worse than any others.
    fn worst() -> Times {
        Times {
            done: [0; 4],
            took: [Duration::MAX; 4],
        }
    }

    /// The better time of each part, and the counts of the later round.
    fn best(self, later: Times) -> Times {
        let mut best = later;
        for i in 0..4 {
            best.took[i] = self.took[i].min(later.took[i]);
        }
        best
    }
}

/// Patches the first bundle of each chunk, and counts those that were patched.
fn patch_all<A: Acts + Drop>(region: &mut RegionOf<A>, load: Load) -> u32 {
    let mut done = 0u32;
    for i in 0..load.count {
        let at = load.base(i).saturating_add(PATCH_AT);
        if region.modify(at, &PATCH).is_ok() {
            done = done.saturating_add(1);
        }
    }
    done
}

/// Deletes the chunks, and counts those that were deleted.
fn delete_all<A: Acts + Drop>(region: &mut RegionOf<A>, load: Load) -> u32 {
    let mut done = 0u32;
    for i in 0..load.count {
        if region.delete(load.base(i)).is_ok() {
            done = done.saturating_add(1);
        }
    }
    done
}

/// Creates all chunks in a region without a chunk, then patches, deletes and reclaims them.
fn live_in<R: Clock, A: Acts + Drop>(
    rt: &R,
    load: Load,
    all: Vec<Vetted>,
    region: &mut RegionOf<A>,
    gens: &Gens,
    pass: &mut Pass,
) -> Times
    requires { pass.old.table ≡ gens.now }
{
    let start = now(rt);
    let created = create_all(region, all);
    let create = since(rt, start);
    let start = now(rt);
    let patched = patch_all(region, load);
    let patch = since(rt, start);
    let start = now(rt);
    let deleted = delete_all(region, load);
    let delete = since(rt, start);
    gens.check_in(pass);
    let start = now(rt);
    let reclaimed = region.reclaim();
    let reclaim = since(rt, start);
    Times {
        done: [created, patched, deleted, reclaimed],
        took: [create, patch, delete, reclaim],
    }
}

/// The life of these chunks in a new region over this table of generations, or the worst times if there is no memory for it.
fn live_over<R: Clock>(
    rt: &R,
    load: Load,
    all: Vec<Vetted>,
    gens: &Gens,
    keeper: Keeper,
    pass: &mut Pass,
) -> Times
    requires { (keeper.table ≡ gens.now) × (pass.old.table ≡ gens.now) }
{
    match Region::new(*all.allocator(), load.region(), gens, keeper) {
        Ok(mut region) => live_in(rt, load, all, &mut region, gens, pass),
        Err(_refused) => Times::worst(),
    }
}

/// The life of these chunks in a new region over a new table of generations, or the worst times if there is no memory for
/// both.
fn live_once<R: Clock>(rt: &R, load: Load, all: Vec<Vetted>) -> Times {
    match Gens::new(*all.allocator(), 1) {
        Ok((gens, keeper, mut passes)) => {
            let mut pass = passes.remove(0);
            live_over(rt, load, all, &gens, keeper, &mut pass)
        }
        Err(_refused) => Times::worst(),
    }
}

/// The best times of these rounds.
fn live<R: Clock>(rt: &R, alloc: Global, load: Load, rounds: u32) -> Times {
    let mut best = Times::worst();
    for _ in 0..rounds {
        best = best.best(live_once(rt, load, load.chunks(alloc)));
    }
    best
}

/// Times the chunks in rounds, and prints the best times and the counts of the last round.
pub fn measure_chunks<R: Clock + Print + AllocGlobal>(
    rt: &R,
    load: Load,
    rounds: u32,
) -> io::Result<()> {
    let best = live(rt, rt.alloc(), load, rounds);
    for i in 0..4 {
        report(rt, best.done[i], PARTS[i], best.took[i])?;
    }
    Ok(())
}
