//! The text of replies: single spaces, decimal numbers, addresses and bytes in lower-case hexadecimal.

ghost use Rattle.std.specs.Prelude.{◌≡◌, ◌++◌, ◌∷◌, [], ◌+◌, ◌<◌, ◌≤◌, ◌^◌, OnOk, codes};
ghost use Rattle.std.specs.Fmt.{decimal};
ghost use Rattle.hex.specs.Hex.{encode_lower};
ghost use Rattle.nc_text.specs.Places.{limit_of};
ghost use Rattle.nc_script.specs.machinery.Session.{bytes_at, script_chunk};
ghost use Rattle.nc_output.specs.Verdicts.{with_line_end, refused_words};
ghost use Rattle.nc_script.specs.Replies.{places_words, end_word, walk_reply};
ghost use Rattle.nc_script.specs.Replies.{chunk_words, patch_words, deletion_words, stamp_reply, freed_reply};

use nc_output::{push_address, push_byte};
use nc_region::{
    Acts, Chunk, ChunkState, CreateFault, DeleteFault, End, ModifyFault, RegionOf, Trace,
};
use std::alloc::{AllocError, Global};

/// Adds a decimal number.
pub(crate) fn push_number(alloc: Global, out: &mut Vec<u8>, number: u64) -> Result<(), AllocError>
    ensures { OnOk result (out.new.items ≡ out.old.items ++ decimal number) }
{
    let digits = number.to_string(alloc)?;
    out.extend_from_slice(digits.as_bytes())
}

/// Adds the places of a walk, each after a space.
pub(crate) fn push_places(out: &mut Vec<u8>, places: &[u32]) -> Result<(), AllocError>
    ensures { OnOk result (out.new.items ≡ out.old.items ++ places_words places.now) }
{
    for place in places {
        out.push(b' ')?;
        push_address(out, *place)?;
    }
    Ok(())
}

/// Adds the reply to a refused creation. Lack of memory is not a refusal: it is returned as an error.
pub(crate) fn push_create_fault(out: &mut Vec<u8>, fault: CreateFault) -> Result<(), AllocError>
    ensures { OnOk result ((fault ≡ CreateFault.Occupied)
        × (out.new.items ≡ out.old.items ++ with_line_end (refused_words (codes "Occupied")))) }
{
    match fault {
        CreateFault::Occupied => out.extend_from_slice(b"refused Occupied\n"),
        CreateFault::OutOfMemory => Err(AllocError),
        // this can't happen: the chunk was vetted for the region's own limit
        CreateFault::WrongLimit => Err(AllocError),
    }
}

/// Adds the reply to a refused patch.
pub(crate) fn push_patch_fault(out: &mut Vec<u8>, fault: ModifyFault) -> Result<(), AllocError>
    ensures { OnOk result (out.new.items ≡ out.old.items ++ with_line_end (refused_words (patch_words fault))) }
{
    match fault {
        ModifyFault::BadSpan => out.extend_from_slice(b"refused BadSpan\n"),
        ModifyFault::NotLive => out.extend_from_slice(b"refused NotLive\n"),
        ModifyFault::NotPermitted => out.extend_from_slice(b"refused NotPermitted\n"),
        ModifyFault::Boundaries => out.extend_from_slice(b"refused Boundaries\n"),
        ModifyFault::PairTouched => out.extend_from_slice(b"refused PairTouched\n"),
        ModifyFault::BadTarget => out.extend_from_slice(b"refused BadTarget\n"),
    }
}

/// Adds the reply to a refused deletion.
pub(crate) fn push_delete_fault(out: &mut Vec<u8>, fault: DeleteFault) -> Result<(), AllocError>
    ensures { OnOk result (out.new.items ≡ out.old.items ++ with_line_end (refused_words (deletion_words fault))) }
{
    match fault {
        DeleteFault::NoChunk => out.extend_from_slice(b"refused NoChunk\n"),
        DeleteFault::GensFull => out.extend_from_slice(b"refused GensFull\n"),
    }
}

/// Adds the reply to a deletion: the chunk's stamp.
pub(crate) fn push_stamp(alloc: Global, out: &mut Vec<u8>, stamp: u64) -> Result<(), AllocError>
    ensures { OnOk result (out.new.items ≡ out.old.items ++ with_line_end (stamp_reply stamp)) }
{
    out.extend_from_slice(b"stamp ")?;
    push_number(alloc, out, stamp)?;
    out.push(b'\n')?;
    Ok(())
}

/// Adds the reply to a reclaim: the number of chunks that were freed.
pub(crate) fn push_freed(alloc: Global, out: &mut Vec<u8>, count: u32) -> Result<(), AllocError>
    ensures { OnOk result (out.new.items ≡ out.old.items ++ with_line_end (freed_reply count)) }
{
    out.extend_from_slice(b"freed ")?;
    push_number(alloc, out, u64::from(count))?;
    out.push(b'\n')?;
    Ok(())
}

/// Adds the word for the end of a walk.
fn push_end(out: &mut Vec<u8>, end: End) -> Result<(), AllocError>
    ensures { OnOk result (out.new.items ≡ out.old.items ++ end_word end) }
{
    match end {
        End::Stop => out.extend_from_slice(b" stop"),
        End::Trampoline => out.extend_from_slice(b" trampoline"),
        End::Beyond => out.extend_from_slice(b" beyond"),
        End::More => out.extend_from_slice(b" more"),
    }
}

/// Adds the reply to a walk.
pub(crate) fn push_trace(out: &mut Vec<u8>, trace: &Trace) -> Result<(), AllocError>
    ensures { OnOk result (out.new.items ≡ out.old.items ++ with_line_end (walk_reply trace.now.places.items trace.now.end)) }
{
    out.extend_from_slice(b"walk")?;
    push_places(out, &trace.places)?;
    push_end(out, trace.end)?;
    out.push(b'\n')?;
    Ok(())
}

/// Adds the bytes of a span of the region.
fn push_span<A: Acts + Drop>(
    region: &RegionOf<A>,
    base: u32,
    length: u32,
    out: &mut Vec<u8>,
) -> Result<(), AllocError>
    requires low { 0x10000 ≤ base }
    requires high { base + length ≤ limit_of region.now.marked.bytes }
    requires fits { base + length < 2 ^ 32 }
    ensures { OnOk result (out.new.items ≡ out.old.items ++ encode_lower (bytes_at region.now.marked.bytes base length)) }
{
    for at in base..base + length {
        push_byte(out, region.byte(at))?;
    }
    Ok(())
}

/// Adds one chunk of a dump.
pub(crate) fn push_chunk<A: Acts + Drop>(
    alloc: Global,
    region: &RegionOf<A>,
    chunk: Chunk,
    out: &mut Vec<u8>,
) -> Result<(), AllocError>
    requires low { 0x10000 ≤ chunk.base }
    requires high { chunk.base + chunk.length ≤ limit_of region.now.marked.bytes }
    requires fits { chunk.base + chunk.length < 2 ^ 32 }
    ensures { OnOk result (out.new.items ≡ out.old.items ++ chunk_words (script_chunk region.now.marked.bytes chunk)) }
{
    out.push(b' ')?;
    push_address(out, chunk.base)?;
    match chunk.state {
        ChunkState::Live => {
            out.extend_from_slice(b" live ")?;
            push_span(region, chunk.base, chunk.length, out)
        }
        ChunkState::Retired(stamp) => {
            out.extend_from_slice(b" retired ")?;
            push_number(alloc, out, u64::from(chunk.length))?;
            out.push(b' ')?;
            push_number(alloc, out, stamp)
        }
    }
}
