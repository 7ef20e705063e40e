//! The time of looking up each chunk of a region, by its index and by its address.

use crate::load::{Load, create_all};
use crate::order::Order;
use crate::tables::left_table;
use crate::timing::{Timed, now, since};
use nc_region::{Acts, Chunk, Region, RegionOf};
use std::alloc::Global;
use std::io;
use std::time::{Clock, Duration};

/// The times of a round.
#[derive(Clone, Copy, Drop)]
struct Times {
    ascending: Timed,
    random: Timed,
    addresses: Timed,
}

impl Times {
    /// Times that are worse than any others.
    fn worst() -> Times {
        Times {
            ascending: Timed::worst(),
            random: Timed::worst(),
            addresses: Timed::worst(),
        }
    }

    /// The better time of each part.
    fn best(self, later: Times) -> Times {
        Times {
            ascending: self.ascending.best(Some(later.ascending)),
            random: self.random.best(Some(later.random)),
            addresses: self.addresses.best(Some(later.addresses)),
        }
    }
}

/// How a chunk is looked up.
#[derive(Clone, Copy, Drop)]
enum Key {
    Index,
    Address,
}

/// The address after a chunk's last byte, or 0 if there is no chunk.
#[inline(always)]
fn end(found: Option<Chunk>) -> u32 {
    match found {
        Some(chunk) => chunk.base.wrapping_add(chunk.length),
        None => 0,
    }
}

/// Looks up the chunks of these indices, and adds their ends to a sum.
#[inline(never)]
fn by_index<A: Acts + Drop>(region: &RegionOf<A>, indices: &[u32], sum: u64) -> u64 {
    let mut sum = sum;
    for i in indices {
        sum = sum.wrapping_add(u64::from(end(region.chunk(*i as usize))));
    }
    sum
}

/// Looks up the chunks of these addresses, and adds their ends to a sum.
#[inline(never)]
fn by_address<A: Acts + Drop>(region: &RegionOf<A>, addresses: &[u32], sum: u64) -> u64 {
    let mut sum = sum;
    for at in addresses {
        sum = sum.wrapping_add(u64::from(end(region.chunk_at(*at))));
    }
    sum
}

/// The keys of the chunks of these numbers, as many as there is memory for.
fn keys(alloc: Global, load: Load, order: Order, key: Key) -> Vec<u32> {
    let mut keys = order.numbers(alloc, load.count);
    if matches!(key, Key::Address) {
        for number in &mut keys {
            *number = load.base(*number);
        }
    }
    keys
}

/// The sum of the ends of all chunks.
fn sum_of_ends(load: Load) -> u64 {
    let mut sum = 0u64;
    for i in 0..load.count {
        sum = sum.wrapping_add(u64::from(load.base(i.saturating_add(1))));
    }
    sum
}

/// Looks up each of these keys this many times. The number is 0 if other chunks were found than those of the load.
fn look_up<R: Clock, A: Acts + Drop>(
    rt: &R,
    region: &RegionOf<A>,
    load: Load,
    keys: &[u32],
    key: Key,
) -> Timed {
    let times = repeats(load.count);
    let mut sum = 0u64;
    let start = now(rt);
    for _ in 0..times {
        sum = match key {
            Key::Index => by_index(region, keys, sum),
            Key::Address => by_address(region, keys, sum),
        };
    }
    let took = since(rt, start);
    let is_right = sum == sum_of_ends(load).wrapping_mul(u64::from(times));
    let done = load.count.saturating_mul(times);
    Timed {
        done: if is_right { done } else { 0 },
        took,
    }
}

/// How often the chunks are looked up in a round. It is so often that reading the clock is negligible.
fn repeats(count: u32) -> u32 {
    (100_000 / count.max(1)).max(1)
}

/// Creates the chunks, and times looking them up in rounds.
fn lookups_in<R: Clock, A: Acts + Drop>(
    rt: &R,
    region: &mut RegionOf<A>,
    alloc: Global,
    load: Load,
    rounds: u32,
) -> Times {
    let _created = create_all(region, load.chunks(alloc));
    let ascending = keys(alloc, load, Order::Ascending, Key::Index);
    let random = keys(alloc, load, Order::Random, Key::Index);
    let addresses = keys(alloc, load, Order::Random, Key::Address);
    let mut best = Times::worst();
    for _ in 0..rounds {
        let later = Times {
            ascending: look_up(rt, region, load, &ascending, Key::Index),
            random: look_up(rt, region, load, &random, Key::Index),
            addresses: look_up(rt, region, load, &addresses, Key::Address),
        };
        best = best.best(later);
    }
    best
}

/// The times in a new region, if there is memory for it.
fn lookups<R: Clock>(rt: &R, alloc: Global, load: Load, rounds: u32) -> Option<Times> {
    let (gens, keeper) = left_table(alloc)?;
    let mut region = Region::new(alloc, load.region(), &gens, keeper).ok()?;
    Some(lookups_in(rt, &mut region, alloc, load, rounds))
}

/// Times looking up the chunks of a region, and prints the best times.
pub fn measure_lookups<R: Clock + Print + AllocGlobal>(
    rt: &R,
    load: Load,
    rounds: u32,
) -> io::Result<()> {
    let best = lookups(rt, rt.alloc(), load, rounds).unwrap_or(Times::worst());
    best.ascending.report(rt, "by index, ascending")?;
    best.random.report(rt, "by index, random")?;
    best.addresses.report(rt, "by address, random")
}
