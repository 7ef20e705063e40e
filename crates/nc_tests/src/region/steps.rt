//! Tables of calls of a region, each with its expected result.

use crate::region::calls::Calls;
use crate::region::fixtures::chunk;
use nc_region::{CreateFault, DeleteFault, End, ModifyFault};
use nc_vet::Vetted;
use std::alloc::Global;

/// A call, with its expected result last.
pub(crate) enum Step<'s> {
    /// Creates a chunk: its base, its number of bundles, and its first bytes. Nops follow.
    Create(u32, usize, &'s [u8], Result<(), CreateFault>),
    /// Patches: the address, and the new bytes.
    Patch(u32, &'s [u8], Result<(), ModifyFault>),
    /// Deletes the chunk with this base.
    Delete(u32, Result<u64, DeleteFault>),
    /// Walks: the start, the choices, and the places and the end of the trace.
    Walk(u32, &'s [u32], &'s [u32], End),
    /// Reclaims: the number of freed chunks.
    Reclaim(u32),
    /// Counts the chunks.
    Count(usize),
}

/// Whether there is a chunk, and its creation has this result.
pub(crate) fn creates<C: Calls>(
    region: &mut C,
    chunk: Option<Vetted>,
    due: Result<(), CreateFault>,
) -> bool {
    let Some(vetted) = chunk else {
        return false;
    };
    match region.created(vetted) {
        Ok(()) => due == Ok(()),
        Err((_, fault)) => due == Err(fault),
    }
}

/// Whether a walk has these places and this end.
fn walks<C: Calls>(region: &C, start: u32, choices: &[u32], places: &[u32], end: End) -> bool {
    match region.walked(start, choices) {
        Ok(trace) => trace.places.as_slice() == places && trace.end == end,
        Err(_) => false,
    }
}

/// Whether a call has its expected result.
fn answers<C: Calls>(alloc: Global, region: &mut C, limit: u32, step: &Step<'_>) -> bool {
    match step {
        Step::Create(base, bundles, front, due) => {
            creates(region, chunk(alloc, *base, limit, *bundles, front), *due)
        }
        Step::Patch(at, new, due) => region.patched(*at, new) == *due,
        Step::Delete(base, due) => region.deleted(*base) == *due,
        Step::Walk(start, choices, places, end) => walks(region, *start, choices, places, *end),
        Step::Reclaim(due) => region.reclaimed() == *due,
        Step::Count(due) => region.counted() == *due,
    }
}

/// Makes these calls in turn on a region with this limit, up to the first one that hasn't its expected result. Returns whether
/// all have.
pub(crate) fn take_steps<C: Calls>(
    alloc: Global,
    region: &mut C,
    limit: u32,
    steps: &[Step<'_>],
) -> bool {
    for step in steps {
        if !answers(alloc, region, limit, step) {
            return false;
        }
    }
    true
}
