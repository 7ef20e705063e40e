//! The calls of a region, without their contracts.
//!
//! The postconditions of a call are known at each later line of the function that makes it, and each proof there has to
//! consider them. The tests only compare results, so they make the calls through these methods, which have no contract.

use nc_region::{
    Acts, CreateFault, DeleteFault, ModifyFault, RegionOf, SharedOf, Trace, WalkFault,
};
use nc_vet::Vetted;
use std::sync::Wait;

/// The results of a region's calls, whether it is called directly or under its lock.
pub(crate) trait Calls {
    /// The result of `create`.
    fn created(&mut self, vetted: Vetted) -> Result<(), (Vetted, CreateFault)>;

    /// The result of `modify`.
    fn patched(&mut self, at: u32, new: &[u8]) -> Result<(), ModifyFault>;

    /// The result of `delete`.
    fn deleted(&mut self, base: u32) -> Result<u64, DeleteFault>;

    /// The result of `reclaim`.
    fn reclaimed(&mut self) -> u32;

    /// The result of `walk`.
    fn walked(&self, start: u32, choices: &[u32]) -> Result<Trace, WalkFault>;

    /// The result of `chunk_count`.
    fn counted(&self) -> usize;
}

impl<A: Acts + Drop> Calls for RegionOf<A> {
    fn created(&mut self, vetted: Vetted) -> Result<(), (Vetted, CreateFault)> {
        self.create(vetted)
    }

    fn patched(&mut self, at: u32, new: &[u8]) -> Result<(), ModifyFault> {
        self.modify(at, new)
    }

    fn deleted(&mut self, base: u32) -> Result<u64, DeleteFault> {
        self.delete(base)
    }

    fn reclaimed(&mut self) -> u32 {
        self.reclaim()
    }

    fn walked(&self, start: u32, choices: &[u32]) -> Result<Trace, WalkFault> {
        self.walk(start, choices)
    }

    fn counted(&self) -> usize {
        self.chunk_count()
    }
}

/// A region that is called under its lock.
#[derive(Drop)]
pub(crate) struct Locked<'s, 'g, R: Wait, A: Acts + Drop> {
    /// The runtime of the calls.
    pub(crate) rt: &'s R,
    /// The region behind its lock.
    pub(crate) shared: &'s SharedOf<'g, A>,
}

impl<R: Wait, A: Acts + Drop> Calls for Locked<'_, '_, R, A> {
    fn created(&mut self, vetted: Vetted) -> Result<(), (Vetted, CreateFault)> {
        self.shared.create(self.rt, vetted)
    }

    fn patched(&mut self, at: u32, new: &[u8]) -> Result<(), ModifyFault> {
        self.shared.modify(self.rt, at, new)
    }

    fn deleted(&mut self, base: u32) -> Result<u64, DeleteFault> {
        self.shared.delete(self.rt, base)
    }

    fn reclaimed(&mut self) -> u32 {
        self.shared.reclaim(self.rt)
    }

    fn walked(&self, start: u32, choices: &[u32]) -> Result<Trace, WalkFault> {
        self.shared.walk(self.rt, start, choices)
    }

    fn counted(&self) -> usize {
        self.shared.chunk_count(self.rt)
    }
}
