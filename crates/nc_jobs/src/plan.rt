//! What a host does with a region: chunks in slots, the freed ones used again in any order.

use crate::pieces::Pieces;
use crate::random::Random;
use std::alloc::{AllocError, Global};
use std::collections::VecDeque;

/// The address of the first slot: far enough from the region's start for the transfers out of any piece.
const FIRST: u32 = 0x100_0000;

/// The number of bundles that a call can be patched to, from the first slot on.
const TARGETS: u32 = 65_536;

/// The number of seats.
pub const SEATS: u32 = 8;

/// A live chunk: its base and its piece.
#[derive(Clone, Copy, Drop)]
pub struct Live {
    pub base: u32,
    pub piece: usize,
}

/// A patch: its address, and the new instruction.
#[derive(Clone, Copy, Drop)]
pub struct Patch {
    pub at: u32,
    pub new: [u8; 5],
}

/// The slots of a region, and the threads' check-ins. It follows the region's own rule: a span is free once each seat has
/// checked in since its deletion.
#[derive(Drop)]
pub struct Plan {
    pub random: Random,
    free: Vec<u32>,
    live: Vec<Live>,
    retired: VecDeque<(u64, u32)>,
    generation: u64,
    since: Vec<u64>,
}

impl Plan {
    /// Slots of this many bytes, all of them free, in a random order.
    pub fn new(alloc: Global, seed: u32, slots: u32, bytes: u32) -> Result<Plan, AllocError> {
        let mut random = Random::new(seed);
        let mut free = Vec::with_capacity(alloc, slots as usize)?;
        for slot in 0..slots {
            let base = FIRST.saturating_add(slot.saturating_mul(bytes));
            free.push(base)?;
            let other = random.index(free.len());
            let last = free.len().saturating_sub(1);
            if last < free.len() && other < free.len() {
                free.swap(last, other);
            }
        }
        let mut since = Vec::with_capacity(alloc, SEATS as usize)?;
        for _ in 0..SEATS {
            since.push(0u64)?;
        }
        Ok(Plan {
            random,
            free,
            live: Vec::new(alloc),
            retired: VecDeque::new(alloc),
            generation: 0,
            since,
        })
    }

    /// A chunk to be created, in a free slot: one of the first `count` pieces.
    pub fn create(&mut self, count: usize) -> Result<Option<Live>, AllocError> {
        let Some(base) = self.free.pop() else {
            return Ok(None);
        };
        let piece = self.random.index(count);
        let live = Live { base, piece };
        self.live.push(live)?;
        Ok(Some(live))
    }

    /// Any live chunk.
    pub fn pick(&mut self) -> Option<Live> {
        let i = self.random.index(self.live.len());
        self.live.get(i).copied()
    }

    /// A patch of a live chunk, if the one that is picked has an instruction for it: a call gets another target, a move another
    /// constant.
    pub fn patch(&mut self, pieces: &Pieces) -> Option<Patch> {
        let live = self.pick()?;
        let (offset, first) = pieces.patch(live.piece)?;
        let at = live.base.wrapping_add(offset);
        let word = if first == 0xE8 {
            let target = FIRST.wrapping_add(self.random.below(TARGETS).wrapping_mul(32));
            target.wrapping_sub(at).wrapping_sub(5)
        } else {
            self.random.word()
        };
        let [a, b, c, d] = word.to_le_bytes();
        Some(Patch {
            at,
            new: [first, a, b, c, d],
        })
    }

    /// The base of a live chunk that is to be deleted.
    pub fn delete(&mut self) -> Result<Option<u32>, AllocError> {
        let i = self.random.index(self.live.len());
        if i >= self.live.len() {
            return Ok(None);
        }
        let live = self.live.swap_remove(i);
        self.generation = self.generation.wrapping_add(1);
        self.retired.push_back((self.generation, live.base))?;
        Ok(Some(live.base))
    }

    /// A seat that is to check in.
    pub fn check_in(&mut self) -> usize {
        let seat = self.random.index(self.since.len());
        if let Some(since) = self.since.get_mut(seat) {
            *since = self.generation;
        }
        seat
    }

    /// Frees the slots that a reclaim frees.
    pub fn reclaim(&mut self) -> Result<(), AllocError> {
        let least = self.since.iter().copied().min().unwrap_or(0);
        for _ in 0..self.retired.len() {
            match self.retired.front() {
                Some((stamp, _)) if *stamp <= least => {}
                _ => break,
            }
            if let Some((_, base)) = self.retired.pop_front() {
                self.free.push(base)?;
            }
        }
        Ok(())
    }
}
