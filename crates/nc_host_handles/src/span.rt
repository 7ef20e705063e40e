//! A span of a region, read place by place.

ghost use Rattle.nc_text.specs.Places.{limit_of};
ghost use Rattle.nc_vet.specs.Faults.{HasGoodSpan};

use crate::region_handle::HandleActs;
use nc_host_acts::ReadChunk;
use nc_region::{Acts, RegionOf};

/// A span of a region that holds a chunk.
#[derive(Drop)]
pub(crate) struct Span<'a> {
    pub(crate) region: &'a RegionOf<HandleActs>,
    pub(crate) base: u32,
    pub(crate) length: u32,
    ghost placed: { HasGoodSpan base (limit_of region.now.marked.bytes) length },
}

impl<'a> ReadChunk for Span<'a> {
    ghost use Rattle.std.specs.Prelude.{◌+◌};
    ghost use Rattle.nc_text.specs.Marks.{mark_at};
    ghost use Rattle.nc_host_handles.specs.Lent.{bytes_of_span};

    ghost code = { λ s. bytes_of_span s.region.now.marked.bytes s.base s.length };

    ghost marks = { λ s k. mark_at s.region.now.marked.marks (s.base + k) };

    fn len(&self) -> usize {
        self.length as usize
    }

    fn byte(&self, i: usize) -> u8 {
        self.region.byte(self.base + i as u32)
    }

    fn bytes(&self, i: usize) -> [u8; 32] {
        self.region.acts().text().read_run(self.base + i as u32, 32)
    }

    fn marked_places(&self, i: usize) -> u32 {
        self.region.acts().marked_places(self.base + i as u32)
    }
}
