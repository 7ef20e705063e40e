//! Searches of the list of chunks.

ghost use Rattle.std.specs.Prelude.{◌≡◌, ◌+◌, ◌<◌, ◌^◌, false, IsTrue, IfSome, IfNone, Contains};
ghost use Rattle.nc_list.specs.declared.chunk.Chunk.{Chunk};
ghost use Rattle.nc_list.specs.declared.chunk.ChunkState.{ChunkState};
ghost use Rattle.nc_base.specs.Each.{Each};
ghost use Rattle.nc_region.specs.Deletion.{HasLive};
ghost use Rattle.nc_region.specs.Region.{IsAscending, IsLive, Meets};
ghost use Rattle.nc_region.specs.Patch.{IsHeldBy, IsHeld};

use nc_list::{Chunk, ChunkList, ChunkState, Place};

/// The place for a chunk in the list, if its span overlaps no other.
pub(crate) fn free_place(chunks: &ChunkList, base: u32, len: u32) -> Option<Place>
    requires fits { base + len < 2 ^ 32 }
    requires ascending { IsAscending 0x10000 chunks.now }
    ensures free { IfSome result (λ place. ¬ Meets base len chunks.now) }
    ensures meets { IfNone result (Meets base len chunks.now) }
{
    let (next, place) = chunks.find(base);
    if let Some(chunk) = next {
        if chunk.base < base + len {
            return None;
        }
    }
    Some(place)
}

/// The live chunk in which the place lies.
pub(crate) fn holder(chunks: &ChunkList, at: u32) -> Option<Chunk>
    requires { IsAscending 0x10000 chunks.now }
    ensures some { IfSome result (IsHeldBy chunks.now at) }
    ensures none { IfNone result (¬ IsHeld chunks.now at) }
{
    let chunk = chunks.chunk_at(at)?;
    if is_live(chunk) && chunk.base <= at {
        Some(chunk)
    } else {
        None
    }
}

/// The live chunk with this base.
pub(crate) fn live_at(chunks: &ChunkList, base: u32) -> Option<Chunk>
    requires ascending { IsAscending 0x10000 chunks.now }
    requires some { Each (λ (d : Chunk). 0 < d.length) chunks.now }
    ensures some { IfSome result (λ c. Contains chunks.now c × (c.state ≡ ChunkState.Live) × (c.base ≡ base)) }
    ensures none { IfNone result (¬ HasLive chunks.now base) }
{
    let (chunk, _) = live_place(chunks, base)?;
    Some(chunk)
}

/// The live chunk with this base, and its place in the list.
pub(crate) fn live_place(chunks: &ChunkList, base: u32) -> Option<(Chunk, Place)>
    requires ascending { IsAscending 0x10000 chunks.now }
    requires some { Each (λ (d : Chunk). 0 < d.length) chunks.now }
    ensures some { IfSome result (λ r. Contains chunks.now r.0 × (r.0.state ≡ ChunkState.Live) × (r.0.base ≡ base)) }
    ensures none { IfNone result (¬ HasLive chunks.now base) }
{
    let (next, place) = chunks.find(base);
    let Some(chunk) = next else {
        return None;
    };
    if is_live(chunk) && chunk.base == base {
        Some((chunk, place))
    } else {
        None
    }
}

/// The chunk is live.
fn is_live(chunk: Chunk) -> bool
    ensures live { IsTrue result → chunk.state ≡ ChunkState.Live }
    ensures not { result ≡ false → ¬ IsLive chunk.state }
{
    chunk.state == ChunkState::Live
}
