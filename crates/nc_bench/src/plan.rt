//! The chunks that come and go by turns.
//!
//! New chunks take the places of a region one after the other, in an order, and then from the first place again. Where the chunk that
//! came last is deleted, its place is taken again at once.

use crate::load::Load;
use crate::order::Order;
use nc_vet::Vetted;
use std::alloc::Global;

/// The chunk that a turn deletes.
#[derive(Clone, Copy, Drop)]
pub enum Out {
    /// The one that came first. The order of places is ascending.
    First,
    /// The one that came last. The order of places is ascending.
    Last,
    /// The one that came first. The order of places is random, so this chunk stands anywhere among the others.
    Random,
}

/// The number of chunks that stay live, the number of turns, and how many chunks a turn creates and deletes, and which.
#[derive(Clone, Copy, Drop)]
pub struct Churn {
    pub count: u32,
    pub turns: u32,
    pub batch: u32,
    pub out: Out,
}

/// The chunks that turns create, and the bases of those that they delete, each in the opposite order.
#[derive(Drop)]
pub struct Work {
    pub created: Vec<Vetted>,
    pub deleted: Vec<u32>,
}

impl Churn {
    /// The number of places: two for each chunk that stays live, and those of a batch.
    pub fn places(self) -> u32 {
        self.count.saturating_mul(2).saturating_add(self.batch)
    }

    /// A chunk of one bundle for each place, in the order in which places are taken.
    pub fn load(self) -> Load {
        Load {
            count: self.places(),
            bundles: 1,
            order: match self.out {
                Out::First | Out::Last => Order::Ascending,
                Out::Random => Order::Random,
            },
        }
    }

    /// The number of chunks that all turns create, and of those that they delete.
    fn steps(self) -> u32 {
        self.turns.saturating_mul(self.batch)
    }

    /// The place in the order of the chunk that is created as the `i`th, counted from 0.
    fn created(self, i: u32) -> u32 {
        match self.out {
            Out::First | Out::Random => self.count.saturating_add(i) % self.places().max(1),
            Out::Last => self.count.saturating_add(i % self.batch.max(1)),
        }
    }

    /// The place in the order of the chunk that is deleted as the `i`th, counted from 0.
    fn deleted(self, i: u32) -> u32 {
        match self.out {
            Out::First | Out::Random => i % self.places().max(1),
            Out::Last => self
                .count
                .saturating_add(self.batch)
                .saturating_sub(i % self.batch.max(1))
                .saturating_sub(1),
        }
    }

    /// The chunks that are created before the first turn, as many as there is memory for.
    pub fn first_chunks(self, alloc: Global, order: &[u32]) -> Vec<Vetted> {
        let first = order.get(..self.count as usize).unwrap_or(order);
        self.load().chunks_of(alloc, first)
    }

    /// The numbers of the places that the turns take, or leave, in the opposite order.
    fn numbers(self, alloc: Global, order: &[u32], is_created: bool) -> Vec<u32> {
        let mut numbers = Vec::new(alloc);
        for i in 0..self.steps() {
            let place = if is_created {
                self.created(i)
            } else {
                self.deleted(i)
            };
            let _pushed = numbers.push(order.get(place as usize).copied().unwrap_or(0));
        }
        numbers.reverse();
        numbers
    }

    /// The work of all turns, as much as there is memory for.
    pub fn work(self, alloc: Global, order: &[u32]) -> Work {
        let load = self.load();
        let created = self.numbers(alloc, order, true);
        let mut deleted = self.numbers(alloc, order, false);
        for number in &mut deleted {
            *number = load.base(*number);
        }
        Work {
            created: load.chunks_of(alloc, &created),
            deleted,
        }
    }
}
