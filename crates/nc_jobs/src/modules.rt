//! The job of loading modules: large chunks of compiled code, vetted, created and later deleted, with the runs of each change.

use crate::digest::Digest;
use crate::input::Input;
use crate::loading::{NONE, load};
use crate::random::Random;
use nc_decode::MAX_BUNDLES;
use nc_host_handles::{NcAct, RegionHandle};
use std::alloc::{AllocError, Global};

/// The address of the first module.
const FIRST: u32 = 0x100_0000;

/// The most bundles of a module.
const MOST: u32 = 131_072;

/// The number of places for modules, each of `MOST` bundles.
const PLACES: u32 = 8;

/// A region for modules.
#[derive(Drop)]
struct Host {
    handle: RegionHandle,
    runs: Vec<NcAct>,
}

impl Host {
    /// Adds the first runs in the buffer to a digest.
    fn add_runs(&self, digest: &mut Digest, count: usize) {
        for run in self.runs.iter().take(count) {
            digest.add((u64::from(run.at) << 32) ^ u64::from(run.kind) ^ u64::from(run.value));
        }
    }

    /// Vets the code of a module, and creates it.
    fn load(&mut self, digest: &mut Digest, base: u32, code: Vec<u8>) {
        if let Some(count) = load(&mut self.handle, digest, base, code, &mut self.runs) {
            self.add_runs(digest, count);
        }
    }

    /// Deletes the module with a base, if there is one, and frees its span.
    fn unload(&mut self, digest: &mut Digest, base: u32) {
        if self.handle.begin_delete(base, &mut []).is_err() {
            return digest.add(4);
        }
        match self.handle.deletion_runs(&mut self.runs) {
            Ok(count) => self.add_runs(digest, count),
            Err(_) => digest.add(5),
        }
        digest.add(self.handle.end_delete().unwrap_or(0));
        digest.add(u64::from(self.handle.reclaim().unwrap_or(0)));
    }
}

/// A new region, with room for the runs of a module.
fn new_host(alloc: Global) -> Result<Host, AllocError> {
    let Ok(handle) = RegionHandle::new(alloc, MAX_BUNDLES, 1) else {
        return Err(AllocError);
    };
    let mut runs = Vec::new(alloc);
    runs.resize(2 * MOST as usize + 2, NONE)?;
    Ok(Host { handle, runs })
}

/// The numbers of bundles of modules, from 64 KiB to 4 MiB.
static SIZES: [usize; 7] = [2048, 4096, 8192, 16_384, 32_768, 65_536, 131_072];

/// The number of bundles of a module.
fn draw_size(random: &mut Random) -> usize {
    SIZES[random.index(SIZES.len()) % 7]
}

/// Loads this many modules, each in the place of an older one.
pub fn run_load(alloc: Global, digest: &mut Digest, input: Input<'_>) -> Result<(), AllocError> {
    let mut random = Random::new(input.seed);
    let mut host = new_host(alloc)?;
    for i in 0..input.count {
        let base = FIRST.saturating_add((i % PLACES).saturating_mul(32 * MOST));
        if i >= PLACES {
            host.unload(digest, base);
        }
        let size = draw_size(&mut random);
        let code = input.pieces.module(alloc, &mut random, size)?;
        host.load(digest, base, code);
    }
    Ok(())
}
