//! A list of a hundred thousand chunks, beside a plain one.
//!
//! Each chunk jumps to the next one of a circle through all of them, so walks show which chunks are live.

ghost use Rattle.std.specs.Prelude.{◌≡◌};

use crate::lower::rows::right;
use crate::region::calls::{Calls, Locked};
use crate::region::fixtures::{chunk, one_seat};
use crate::region::steps::creates;
use nc_gens::{Gens, Keeper};
use nc_region::{Acts, Chunk, ChunkState, End, Region, RegionOf, Shared, Trace};
use nc_vet::Vetted;
use std::alloc::Global;
use std::sync::Wait;
use std::test::Fail;

/// The number of slots, each of two bundles, of which a chunk takes the first. It is a prime.
const SLOTS: u32 = 100_003;

/// A chunk jumps to the one that is this many slots above its own, in a circle.
const STRIDE: u32 = 61_803;

/// The number of choices of a long walk, the most that a line of a script can hold.
const CHOICES: usize = 116_507;

/// The end of the region, in which all slots are.
const LIMIT: u32 = 0x10000 + 64 * SLOTS + 32;

/// The slot that is the `i`th in one of four orders.
fn in_order(order: u32, i: u32) -> u32 {
    let last = SLOTS - 1;
    match order {
        0 => i,
        1 => last.saturating_sub(i),
        2 if i % 2 == 0 => i / 2,
        2 => last.saturating_sub(i / 2),
        // Each slot comes once, since the factor doesn't divide the prime.
        _ => (u64::from(i).wrapping_mul(3_779) % u64::from(SLOTS)) as u32,
    }
}

/// A plan deletes the chunk of this slot.
fn is_deleted(plan: u32, slot: u32) -> bool {
    match plan {
        0 => slot % 2 == 0,
        1 => slot != SLOTS / 2,
        2 => slot < SLOTS / 2,
        3 => SLOTS / 2 < slot,
        4 => slot % 63 == 20,
        _ => true,
    }
}

/// Where the chunk of a slot begins.
fn base(slot: u32) -> u32 {
    slot.wrapping_mul(64).wrapping_add(0x10000)
}

/// The slot to whose chunk that of a slot jumps.
fn after(slot: u32) -> u32 {
    slot.wrapping_add(STRIDE) % SLOTS
}

/// The chunk of a slot: a jump, and nops.
fn chunk_of(alloc: Global, slot: u32) -> Option<Vetted> {
    let behind = base(slot).wrapping_add(5);
    let [a, b, c, d] = base(after(slot)).wrapping_sub(behind).to_le_bytes();
    chunk(alloc, base(slot), LIMIT, 1, &[0xE9, a, b, c, d])
}

/// A region whose chunks can be compared with those of the slots.
trait Listing: Calls {
    /// The region has the chunks of the slots, in their order, and no other.
    fn lists(&self, slots: &[Option<Chunk>]) -> bool;
}

impl<A: Acts + Drop> Listing for RegionOf<A> {
    fn lists(&self, slots: &[Option<Chunk>]) -> bool {
        is_listed(self, slots) && is_found(self, slots)
    }
}

impl<R: Wait, A: Acts + Drop> Listing for Locked<'_, '_, R, A> {
    fn lists(&self, slots: &[Option<Chunk>]) -> bool {
        self.counted() == count(slots)
    }
}

/// Creates a chunk in the slot, if there is none.
fn fill<L: Listing>(alloc: Global, region: &mut L, slots: &mut [Option<Chunk>], slot: u32) -> bool {
    let Some(place) = slots.get_mut(slot as usize) else {
        return false;
    };
    if place.is_some() {
        return true;
    }
    if !creates(region, chunk_of(alloc, slot), Ok(())) {
        return false;
    }
    *place = Some(Chunk {
        base: base(slot),
        length: 32,
        state: ChunkState::Live,
    });
    true
}

/// Creates a chunk in each slot without one, in this order.
fn fill_all<L: Listing>(
    alloc: Global,
    region: &mut L,
    slots: &mut [Option<Chunk>],
    order: u32,
) -> bool {
    for i in 0..SLOTS {
        if !fill(alloc, region, slots, in_order(order, i)) {
            return false;
        }
    }
    true
}

/// Deletes the chunk of the slot.
fn delete<L: Listing>(region: &mut L, slots: &mut [Option<Chunk>], slot: u32) -> bool {
    let Ok(stamp) = region.deleted(base(slot)) else {
        return false;
    };
    if let Some(place) = slots.get_mut(slot as usize) {
        *place = Some(Chunk {
            base: base(slot),
            length: 32,
            state: ChunkState::Retired(stamp),
        });
    }
    true
}

/// Deletes the chunks of a plan, in this order, and returns their number.
fn delete_all<L: Listing>(
    region: &mut L,
    slots: &mut [Option<Chunk>],
    plan: u32,
    order: u32,
) -> Option<u32> {
    let mut count = 0u32;
    for i in 0..SLOTS {
        let slot = in_order(order, i);
        if is_deleted(plan, slot) {
            if !delete(region, slots, slot) {
                return None;
            }
            count = count.wrapping_add(1);
        }
    }
    Some(count)
}

/// Leaves only the live chunks.
fn forget_retired(slots: &mut [Option<Chunk>]) {
    for k in 0..slots.len() {
        if let Some(chunk) = slots[k] {
            if chunk.state != ChunkState::Live {
                slots[k] = None;
            }
        }
    }
}

/// The number of slots with a chunk.
fn count(slots: &[Option<Chunk>]) -> usize {
    let mut count = 0usize;
    for slot in slots {
        if slot.is_some() {
            count = count.wrapping_add(1);
        }
    }
    count
}

/// The region lists the chunks of the slots, in their order, and no other.
fn is_listed<A: Acts + Drop>(region: &RegionOf<A>, slots: &[Option<Chunk>]) -> bool {
    let mut index = 0usize;
    for k in 0..slots.len() {
        if let Some(chunk) = slots[k] {
            if region.chunk(index) != Some(chunk) {
                return false;
            }
            index = index.wrapping_add(1);
        }
    }
    region.chunk_count() == index && region.chunk(index).is_none()
}

/// The region finds the chunk of each slot, or the next one above it, by the slot's first address and by the one past its chunk.
fn is_found<A: Acts + Drop>(region: &RegionOf<A>, slots: &[Option<Chunk>]) -> bool {
    let mut next: Option<Chunk> = None;
    for slot in (0..SLOTS).rev() {
        if region.chunk_at(base(slot).wrapping_add(32)) != next {
            return false;
        }
        if let Some(Some(chunk)) = slots.get(slot as usize) {
            next = Some(*chunk);
        }
        if region.chunk_at(base(slot)) != next {
            return false;
        }
    }
    true
}

/// The slot has a live chunk.
fn is_live(slots: &[Option<Chunk>], slot: u32) -> bool {
    match slots.get(slot as usize) {
        Some(Some(chunk)) => chunk.state == ChunkState::Live,
        _ => false,
    }
}

/// A walk from a slot with this many choices goes from chunk to chunk, until it is at none or has no choice left. There is room
/// for its places, and not for more than twice as many.
fn is_path(trace: &Trace, slots: &[Option<Chunk>], slot: u32, choices: usize) -> bool {
    let mut slot = slot;
    let mut goes_on = true;
    for place in trace.places.as_slice() {
        if !goes_on || *place != base(slot) {
            return false;
        }
        goes_on = is_live(slots, slot);
        slot = after(slot);
    }
    let places = trace.places.len();
    let is_end = match trace.end {
        End::More => goes_on && places == choices.wrapping_add(1),
        End::Stop => !goes_on,
        _ => false,
    };
    is_end && trace.places.capacity() <= places.wrapping_mul(2).wrapping_add(8)
}

/// A walk from a slot with these choices is a path.
fn is_walked<L: Listing>(region: &L, slots: &[Option<Chunk>], slot: u32, choices: &[u32]) -> bool {
    match region.walked(base(slot), choices) {
        Ok(trace) => is_path(&trace, slots, slot, choices.len()),
        Err(_) => false,
    }
}

/// Walks with one choice from each slot, and a long one from the first, are paths.
fn are_walked<L: Listing>(region: &L, slots: &[Option<Chunk>], choices: &[u32]) -> bool {
    for slot in 0..SLOTS {
        if !is_walked(region, slots, slot, &[0]) {
            return false;
        }
    }
    is_walked(region, slots, 0, choices)
}

/// The region has the chunks of the slots, by its list and by walks.
fn is_right<L: Listing>(region: &L, slots: &[Option<Chunk>], choices: &[u32]) -> bool {
    region.lists(slots) && are_walked(region, slots, choices)
}

/// The chunks that are missing are created. A plan's chunks are deleted, and reclaimed.
fn plan_holds<L: Listing>(
    alloc: Global,
    region: &mut L,
    slots: &mut [Option<Chunk>],
    choices: &[u32],
    order: u32,
    plan: u32,
) -> bool {
    if !fill_all(alloc, region, slots, order) || !is_right(region, slots, choices) {
        return false;
    }
    let count = delete_all(region, slots, plan, order);
    if count.is_none() || !is_right(region, slots, choices) || Some(region.reclaimed()) != count {
        return false;
    }
    forget_retired(slots);
    is_right(region, slots, choices)
}

/// Each plan holds in a new region.
fn plans_hold<L: Listing>(alloc: Global, region: &mut L, order: u32) -> bool {
    let mut slots: Vec<Option<Chunk>> = Vec::new(alloc);
    let mut choices: Vec<u32> = Vec::new(alloc);
    if slots.resize(SLOTS as usize, None).is_err() || choices.resize(CHOICES, 0).is_err() {
        return false;
    }
    for plan in 0..6 {
        if !plan_holds(alloc, region, &mut slots, &choices, order, plan) {
            return false;
        }
    }
    true
}

/// The plans hold in this region, or behind a lock.
fn hold_in<R: Wait>(
    rt: &R,
    alloc: Global,
    region: Region<'_>,
    order: u32,
    is_shared: bool,
) -> bool {
    let mut region = region;
    if !is_shared {
        return plans_hold(alloc, &mut region, order);
    }
    let shared = &Shared::new(region);
    plans_hold(alloc, &mut Locked { rt, shared }, order)
}

/// The plans hold in a new region over this table, whose seat has left.
fn hold_over<'g, R: Wait>(
    rt: &R,
    alloc: Global,
    gens: &'g Gens,
    keeper: Keeper,
    order: u32,
    is_shared: bool,
) -> bool
    requires { keeper.table ≡ gens.now }
{
    match Region::new(alloc, 2 * SLOTS + 1, gens, keeper) {
        Ok(region) => hold_in(rt, alloc, region, order, is_shared),
        Err(_) => false,
    }
}

/// The plans hold in a list that is made in this order.
fn hold<R: Wait>(rt: &R, alloc: Global, order: u32, is_shared: bool) -> bool {
    match one_seat(alloc) {
        Ok((gens, keeper, pass)) => {
            gens.leave(pass);
            hold_over(rt, alloc, &gens, keeper, order, is_shared)
        }
        Err(_) => false,
    }
}

#[test]
fn long_lists(rt: HostRuntime) -> Result<(), Fail> {
    for order in 0..4 {
        right(hold(&rt, rt.alloc(), order, false), order)?;
    }
    Ok(())
}

#[test]
fn long_list_under_lock(rt: HostRuntime) -> Result<(), Fail> {
    right(hold(&rt, rt.alloc(), 3, true), 3)
}
