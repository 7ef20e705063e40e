//! The job of a region under a JIT compiler: small chunks at scattered bases, created, patched, looked at, deleted and reclaimed,
//! with the acts or runs of each change.

use crate::digest::Digest;
use crate::input::Input;
use crate::loading::{NONE, load};
use crate::pieces::Pieces;
use crate::plan::{Live, Plan, SEATS};
use nc_decode::MAX_BUNDLES;
use nc_host_handles::{NcAct, RegionHandle, SeatHandle};
use std::alloc::{AllocError, Global};

/// The number of slots, of which half are live.
const SLOTS: u32 = 40_000;

/// The most bundles of a chunk.
const MOST: usize = 16;

/// Room for the runs of a chunk of `MOST` bundles, and for the acts of a patch.
const ROOM: usize = 2 * MOST + 2;

/// A region, its threads' seats, and what its host does with it.
#[derive(Drop)]
struct Jit {
    handle: RegionHandle,
    seats: Vec<Box<SeatHandle, Global>>,
    plan: Plan,
    acts: [NcAct; ROOM],
    count: usize,
}

impl Jit {
    /// A new region, with its seats given out; chunks are made of the first `count` pieces. Nothing without memory.
    fn new(alloc: Global, seed: u32, slots: u32, count: usize) -> Option<Jit> {
        let Ok(mut handle) = RegionHandle::new(alloc, MAX_BUNDLES, SEATS) else {
            return None;
        };
        let mut seats = Vec::new(alloc);
        for _ in 0..SEATS {
            let Ok(seat) = handle.seat(alloc) else {
                return None;
            };
            if seats.push(seat).is_err() {
                return None;
            }
        }
        let Ok(plan) = Plan::new(alloc, seed, slots, 32 * MOST as u32) else {
            return None;
        };
        Some(Jit {
            handle,
            seats,
            plan,
            acts: [NONE; ROOM],
            count,
        })
    }

    /// Adds the first acts in the buffer to a digest.
    fn add_acts(&self, digest: &mut Digest, count: usize) {
        for act in self.acts.iter().take(count) {
            digest.add(u64::from(act.kind).wrapping_mul(31) ^ u64::from(act.at));
            digest.add(u64::from(act.value));
        }
    }

    /// Vets the code of a chunk, and creates it.
    fn load(&mut self, digest: &mut Digest, live: Live, code: Vec<u8>) {
        if let Some(count) = load(&mut self.handle, digest, live.base, code, &mut self.acts) {
            self.add_acts(digest, count);
        }
    }

    /// Creates a chunk.
    fn create(
        &mut self,
        alloc: Global,
        digest: &mut Digest,
        pieces: &Pieces,
    ) -> Result<(), AllocError> {
        if let Some(live) = self.plan.create(self.count)? {
            let code = Vec::from_slice(alloc, pieces.code(live.piece))?;
            self.load(digest, live, code);
        }
        Ok(())
    }

    /// Patches one instruction of a chunk.
    fn patch(&mut self, digest: &mut Digest, pieces: &Pieces) {
        let Some(patch) = self.plan.patch(pieces) else {
            return;
        };
        match self.handle.patch(patch.at, &patch.new, &mut self.acts) {
            Ok(count) => self.add_acts(digest, count),
            Err(_) => digest.add(4),
        }
    }

    /// Deletes the chunk with a base.
    fn delete(&mut self, digest: &mut Digest, base: u32) {
        if self.handle.begin_delete(base, &mut []).is_err() {
            return digest.add(5);
        }
        match self.handle.deletion_runs(&mut self.acts) {
            Ok(count) => self.add_acts(digest, count),
            Err(_) => digest.add(6),
        }
        digest.add(self.handle.end_delete().unwrap_or(0));
    }

    /// Asks where a thread may be, as a profiler does.
    fn look(&mut self, digest: &mut Digest) {
        let Some(live) = self.plan.pick() else {
            return;
        };
        let at = live.base.wrapping_add(self.plan.random.below(32));
        digest.add(u64::from(self.handle.byte(at).unwrap_or(0)));
        digest.add(u64::from(matches!(self.handle.mark(at), Some(nc_decode::Mark::Plain))));
    }

    /// A thread checks in.
    fn check_in(&mut self) {
        let number = self.plan.check_in();
        if let Some(seat) = self.seats.get_mut(number) {
            seat.check_in();
        }
    }

    /// One creation with what goes with it.
    fn turn(
        &mut self,
        alloc: Global,
        digest: &mut Digest,
        pieces: &Pieces,
    ) -> Result<(), AllocError> {
        self.create(alloc, digest, pieces)?;
        for _ in 0..10 {
            // About half of the chunks have an instruction that can be patched.
            self.patch(digest, pieces);
            self.patch(digest, pieces);
            self.look(digest);
        }
        if let Some(base) = self.plan.delete()? {
            self.delete(digest, base);
        }
        for _ in 0..4 {
            self.check_in();
        }
        Ok(())
    }

    /// Frees the spans that are due.
    fn reclaim(&mut self, digest: &mut Digest) -> Result<(), AllocError> {
        digest.add(u64::from(self.handle.reclaim().unwrap_or(0)));
        self.plan.reclaim()
    }
}

/// Fills half of the slots, and then takes this many turns, with a reclaim after every fourth.
pub fn run_jit(alloc: Global, digest: &mut Digest, input: Input<'_>) -> Result<(), AllocError> {
    let pieces = input.pieces;
    let slots = SLOTS.min(input.count);
    let Some(mut jit) = Jit::new(alloc, input.seed, slots, pieces.count_to(MOST)) else {
        return Err(AllocError);
    };
    for _ in 0..slots / 2 {
        jit.create(alloc, digest, pieces)?;
    }
    for i in 0..input.count {
        jit.turn(alloc, digest, pieces)?;
        if i % 4 == 3 {
            jit.reclaim(digest)?;
        }
    }
    digest.add(jit.handle.chunk_count() as u64);
    Ok(())
}
