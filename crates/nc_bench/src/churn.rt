//! The time of a turn in which chunks are created and as many deleted, and a reclaim follows.
//!
//! The region has places for twice as many chunks as are live, and for a batch more. `plan` says which places the chunks of a
//! turn take and leave.

use crate::load::{Load, create_all, delete_each};
use crate::order::Order;
use crate::plan::{Churn, Work};
use crate::tables::left_table;
use crate::timing::{Timed, bare_clockings, now, since};
use nc_region::{Acts, Region, RegionOf};
use std::alloc::Global;
use std::io;
use std::time::{Clock, Duration};

/// Creates the chunks of a turn, and then deletes its chunks.
#[inline(always)]
fn create_and_delete<A: Acts + Drop>(region: &mut RegionOf<A>, batch: u32, work: &mut Work) {
    create_batch(region, batch, work);
    delete_batch(region, batch, work);
}

/// Creates the chunks of a turn.
#[inline(always)]
fn create_batch<A: Acts + Drop>(region: &mut RegionOf<A>, batch: u32, work: &mut Work) {
    for _ in 0..batch {
        if let Some(vetted) = work.created.pop() {
            let _created = region.create(vetted);
        }
    }
}

/// Deletes the chunks of a turn.
#[inline(always)]
fn delete_batch<A: Acts + Drop>(region: &mut RegionOf<A>, batch: u32, work: &mut Work) {
    for _ in 0..batch {
        if let Some(base) = work.deleted.pop() {
            let _deleted = region.delete(base);
        }
    }
}

/// Takes the turns, and counts those whose reclaim freed all that was deleted.
fn take_turns<A: Acts + Drop>(region: &mut RegionOf<A>, churn: Churn, mut work: Work) -> u32 {
    let mut done = 0u32;
    for _ in 0..churn.turns {
        create_and_delete(region, churn.batch, &mut work);
        if region.reclaim() == churn.batch {
            done = done.saturating_add(1);
        }
    }
    done
}

/// The time of all turns.
fn turns_timed<R: Clock, A: Acts + Drop>(
    rt: &R,
    region: &mut RegionOf<A>,
    churn: Churn,
    work: Work,
) -> Timed {
    let start = now(rt);
    let done = take_turns(region, churn, work);
    let took = since(rt, start);
    Timed { done, took }
}

/// The time of the turns' reclaims alone, each clocked, and so with the time of a bare clocking for each.
fn reclaims_timed<R: Clock, A: Acts + Drop>(
    rt: &R,
    region: &mut RegionOf<A>,
    churn: Churn,
    mut work: Work,
) -> Timed {
    let mut done = 0u32;
    let mut took = Duration::ZERO;
    for _ in 0..churn.turns {
        create_and_delete(region, churn.batch, &mut work);
        let start = now(rt);
        let freed = region.reclaim();
        took = took.saturating_add(since(rt, start));
        if freed == churn.batch {
            done = done.saturating_add(1);
        }
    }
    Timed { done, took }
}

/// Makes all pages of the region, by a chunk that fills it and is deleted and reclaimed.
fn make_pages<A: Acts + Drop>(region: &mut RegionOf<A>, alloc: Global, places: u32) {
    let whole = Load {
        count: 1,
        bundles: places,
        order: Order::Ascending,
    };
    let _created = create_all(region, whole.chunks(alloc));
    let _deleted = delete_each(region, whole, &[0]);
    let _freed = region.reclaim();
}

/// Creates the chunks that are live throughout, and times the turns, or their reclaims alone.
fn churn_in<R: Clock, A: Acts + Drop>(
    rt: &R,
    region: &mut RegionOf<A>,
    alloc: Global,
    churn: Churn,
    is_clocked: bool,
) -> Timed {
    make_pages(region, alloc, churn.places());
    let order = churn.load().order.numbers(alloc, churn.places());
    let _created = create_all(region, churn.first_chunks(alloc, &order));
    let work = churn.work(alloc, &order);
    if is_clocked {
        reclaims_timed(rt, region, churn, work)
    } else {
        turns_timed(rt, region, churn, work)
    }
}

/// The time of the turns in a new region, or of their reclaims alone, if there is memory for it.
fn churn_once<R: Clock>(rt: &R, alloc: Global, churn: Churn, is_clocked: bool) -> Option<Timed> {
    let (gens, keeper) = left_table(alloc)?;
    let mut region = Region::new(alloc, churn.load().region(), &gens, keeper).ok()?;
    Some(churn_in(rt, &mut region, alloc, churn, is_clocked))
}

/// Times turns in rounds, once as a whole and once with each reclaim clocked, and bare clockings for comparison, and prints the
/// best times.
pub fn measure_churn<R: Clock + Print + AllocGlobal>(
    rt: &R,
    churn: Churn,
    rounds: u32,
) -> io::Result<()> {
    let mut turns = Timed::worst();
    let mut reclaims = Timed::worst();
    let mut clockings = Timed::worst();
    for _ in 0..rounds {
        turns = turns.best(churn_once(rt, rt.alloc(), churn, false));
        reclaims = reclaims.best(churn_once(rt, rt.alloc(), churn, true));
        clockings = clockings.best(Some(bare_clockings(rt, churn.turns)));
    }
    turns.report(rt, "turns")?;
    reclaims.report(rt, "reclaims of turns, clocked")?;
    clockings.report(rt, "bare clockings")
}
