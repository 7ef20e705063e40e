//! The time of a reclaim that frees nothing.

use crate::load::{Load, create_all, delete_each};
use crate::order::Order;
use crate::tables::held_table;
use crate::timing::{Timed, now, since};
use nc_region::{Acts, Region, RegionOf};
use nc_vet::Vetted;
use std::alloc::Global;
use std::io;
use std::time::Clock;

/// This number of chunks of one bundle.
fn chunks_of_one(count: u32) -> Load {
    Load {
        count,
        bundles: 1,
        order: Order::Ascending,
    }
}

/// Reclaims this many times, and counts the chunks that were reclaimed.
fn reclaim_times<A: Acts + Drop>(region: &mut RegionOf<A>, times: u32) -> u32 {
    let mut freed = 0u32;
    for _ in 0..times {
        freed = freed.saturating_add(region.reclaim());
    }
    freed
}

/// Creates and deletes the chunks, and times this many reclaims, after a first one that isn't timed.
fn idle_in<R: Clock, A: Acts + Drop>(
    rt: &R,
    region: &mut RegionOf<A>,
    load: Load,
    all: Vec<Vetted>,
    times: u32,
) -> Timed {
    let numbers = load.order.numbers(*all.allocator(), load.count);
    let _created = create_all(region, all);
    let _deleted = delete_each(region, load, &numbers);
    let first = region.reclaim();
    let start = now(rt);
    let freed = reclaim_times(region, times);
    let took = since(rt, start);
    let done = if first == 0 && freed == 0 { times } else { 0 };
    Timed { done, took }
}

/// The time of this many reclaims in a new region whose chunks are all retired and held back, if there is memory for it.
fn idle_once<R: Clock>(rt: &R, alloc: Global, load: Load, times: u32) -> Option<Timed> {
    let all = load.chunks(alloc);
    let (gens, keeper) = held_table(alloc)?;
    let mut region = Region::new(alloc, load.region(), &gens, keeper).ok()?;
    Some(idle_in(rt, &mut region, load, all, times))
}

/// Times reclaims that free nothing among this many retired chunks, and in a region without a chunk, and prints the best times.
pub fn measure_idle<R: Clock + Print + AllocGlobal>(
    rt: &R,
    count: u32,
    rounds: u32,
) -> io::Result<()> {
    // So many that reading the clock is negligible.
    let times = (1_000_000 / count.max(1)).max(1000);
    let mut held = Timed::worst();
    let mut none = Timed::worst();
    for _ in 0..rounds {
        held = held.best(idle_once(rt, rt.alloc(), chunks_of_one(count), times));
        none = none.best(idle_once(rt, rt.alloc(), chunks_of_one(0), times));
    }
    held.report(rt, "reclaims among retired chunks")?;
    none.report(rt, "reclaims without a chunk")
}
