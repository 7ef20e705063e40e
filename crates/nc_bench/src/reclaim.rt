//! The time of one reclaim in a region of which a share of the chunks is due.

use crate::load::{Load, create_all, delete_each};
use crate::order::Order;
use crate::tables::left_table;
use crate::timing::{Timed, bare_clockings, now, since};
use nc_region::{Acts, Region, RegionOf};
use nc_vet::Vetted;
use std::alloc::Global;
use std::io;
use std::time::Clock;

/// A number of chunks of one bundle, and of how many of them one is due.
#[derive(Clone, Copy, Drop)]
pub struct Share {
    pub count: u32,
    pub of: u32,
}

impl Share {
    /// The chunks.
    fn load(self) -> Load {
        Load {
            count: self.count,
            bundles: 1,
            order: Order::Ascending,
        }
    }

    /// The numbers of the chunks that are due, at least one, as many as there is memory for.
    fn due(self, alloc: Global) -> Vec<u32> {
        let mut numbers = Order::Random.numbers(alloc, self.count);
        numbers.truncate((self.count / self.of.max(1)).max(1) as usize);
        numbers
    }
}

/// Creates the chunks, deletes those that are to be due, and times the reclaim.
fn reclaim_in<R: Clock, A: Acts + Drop>(
    rt: &R,
    region: &mut RegionOf<A>,
    load: Load,
    all: Vec<Vetted>,
    due: &[u32],
) -> Timed {
    let _created = create_all(region, all);
    let _deleted = delete_each(region, load, due);
    let start = now(rt);
    let done = region.reclaim();
    let took = since(rt, start);
    Timed { done, took }
}

/// The time of the reclaim in a new region, if there is memory for it.
fn reclaim_once<R: Clock>(rt: &R, alloc: Global, share: Share) -> Option<Timed> {
    let load = share.load();
    let all = load.chunks(alloc);
    let due = share.due(alloc);
    let (gens, keeper) = left_table(alloc)?;
    let mut region = Region::new(alloc, load.region(), &gens, keeper).ok()?;
    Some(reclaim_in(rt, &mut region, load, all, &due))
}

/// Times the reclaim, and a bare clocking for comparison, and prints the best times.
pub fn measure_reclaim<R: Clock + Print + AllocGlobal>(
    rt: &R,
    share: Share,
    rounds: u32,
) -> io::Result<()> {
    let mut reclaim = Timed::worst();
    let mut clocking = Timed::worst();
    for _ in 0..rounds {
        reclaim = reclaim.best(reclaim_once(rt, rt.alloc(), share));
        clocking = clocking.best(Some(bare_clockings(rt, 1)));
    }
    reclaim.report(rt, "reclaimed at once")?;
    clocking.report(rt, "bare clocking")
}
