//! A chunk in 16 bytes.

ghost use Rattle.std.specs.Prelude.{◌≡◌, ◌-◌, ◌<◌, ◌^◌};
ghost use Rattle.nc_list.specs.declared.chunk.ChunkState.{ChunkState};
ghost use Rattle.nc_list.specs.Chunks.{is_due};
ghost use Rattle.nc_list.specs.Stamps.{IsSince};

use crate::chunk::{Chunk, ChunkState};
use std::marker::Model;

/// The stamp of a live chunk, which is above those of all retired ones.
pub(crate) const LIVE: u64 = u64::MAX;

/// A chunk in 16 bytes.
#[derive(Clone, Copy, Drop)]
pub struct Entry {
    base: u32,
    length: u32,
    /// `LIVE`, or the stamp of a retired chunk.
    stamp: u64,
}

impl Model for Entry {
    ghost use Rattle.nc_list.specs.declared.chunk.Chunk.{Chunk};

    ghost Value = { Chunk };

    ghost use Rattle.nc_list.specs.Entries.{chunk_of, inside_of, entry_back};

    ghost view = { chunk_of };

    ghost inverse = { inside_of };

    ghost inverse_ok = { λ a h. entry_back a };
}

impl Entry {
    /// A live chunk.
    pub(crate) fn live(base: u32, length: u32) -> Entry
        ensures { result ≡ record { base = base; length = length; state = ChunkState.Live } }
    {
        Entry {
            base,
            length,
            stamp: LIVE,
        }
    }

    /// An entry that stands for no chunk of a list, as initial contents of room. Its bytes are all 0.
    pub fn blank() -> Entry
        ensures { result ≡ record { base = 0; length = 0; state = ChunkState.Retired 0 } }
    {
        Entry {
            base: 0,
            length: 0,
            stamp: 0,
        }
    }

    /// The chunk, retired with this stamp.
    pub(crate) fn retired(self, stamp: u64) -> Entry
        requires { stamp < 2 ^ 64 - 1 }
        ensures { result ≡ record self { state = ChunkState.Retired stamp } }
    {
        Entry {
            base: self.base,
            length: self.length,
            stamp,
        }
    }

    /// The chunk.
    pub fn chunk(self) -> Chunk
        ensures { result ≡ self }
    {
        let state = if self.stamp == LIVE {
            ChunkState::Live
        } else {
            ChunkState::Retired(self.stamp)
        };
        Chunk {
            base: self.base,
            length: self.length,
            state,
        }
    }

    /// The address of its first byte.
    pub fn base(self) -> u32
        ensures { result ≡ self.base }
    {
        self.base
    }

    /// The number of its bytes.
    pub fn length(self) -> u32
        ensures { result ≡ self.length }
    {
        self.length
    }

    /// The chunk's stamp, or the greatest number if it is live.
    pub(crate) fn stamp(self) -> u64
        ensures { IsSince result self.state }
    {
        self.stamp
    }

    /// Whether the chunk is retired with a stamp of at most this number.
    pub(crate) fn is_due(self, least: u64) -> bool
        requires { least < 2 ^ 64 - 1 }
        ensures { result ≡ is_due least self.state }
    {
        self.stamp <= least
    }
}
