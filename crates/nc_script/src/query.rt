//! Queries: lines that ask for something and change nothing.

ghost use Rattle.std.specs.Prelude.{◌≡◌, ◌++◌, List, ℕ, OnOk, map};
ghost use Rattle.nc_script.specs.Queries.{next_chunk, query_in, reply_to};
ghost use Rattle.nc_script.specs.Replies.{chunk_reply, dump_reply};
ghost use Rattle.nc_script.specs.Requests as spec;
ghost use Rattle.nc_script.specs.Script.{ScriptSeat};
ghost use Rattle.nc_script.specs.machinery.Session.{FollowsIn, script_chunk, script_of};

use crate::reply::push_chunk;
use crate::request::is_word;
use nc_region::{Acts, RegionOf};
use std::alloc::{AllocError, Global};

/// A query: a request that changes nothing.
#[derive(Clone, Copy)]
pub(crate) enum Query {
    /// The list of all chunks.
    Dump,
    /// The chunk that has this address, or else the first one above it.
    ChunkAt { at: u32 },
}

/// The query of this one word, if there is one.
pub(crate) fn query_of(word: &[u8]) -> Option<Query>
    ensures { result ≡ query_in word.now }
{
    if is_word(word, b"dump") {
        return Some(Query::Dump);
    }
    None
}

/// Replies to a query.
pub(crate) fn reply_to_query<A: Acts + Drop>(
    alloc: Global,
    region: &RegionOf<A>,
    query: Query,
    out: &mut Vec<u8>,
) -> Result<(), AllocError>
    ensures { OnOk result ((reply : List ℕ) × (out.new.items ≡ out.old.items ++ reply)
        × FollowsIn (spec.Query query) region.now reply region.now) }
{
    push_reply(alloc, region, query, out)?;
    out.push(b'\n')?;
    Ok(())
}

/// Adds the reply to a query, without its line end.
fn push_reply<A: Acts + Drop>(
    alloc: Global,
    region: &RegionOf<A>,
    query: Query,
    out: &mut Vec<u8>,
) -> Result<(), AllocError>
    ensures { (seats : List ScriptSeat) (freed : ℕ)
        → OnOk result (out.new.items ≡ out.old.items ++ reply_to query (script_of region.now seats freed)) }
{
    match query {
        Query::Dump => push_dump(alloc, region, out),
        Query::ChunkAt { at } => push_chunk_at(alloc, region, at, out),
    }
}

/// Adds every chunk of the region.
fn push_dump<A: Acts + Drop>(
    alloc: Global,
    region: &RegionOf<A>,
    out: &mut Vec<u8>,
) -> Result<(), AllocError>
    ensures { OnOk result (out.new.items
        ≡ out.old.items ++ dump_reply (map (script_chunk region.now.marked.bytes) region.now.chunks)) }
{
    out.extend_from_slice(b"dump")?;
    for i in 0..region.chunk_count() {
        let chunk = region.chunk(i).unwrap();
        push_chunk(alloc, region, chunk, out)?;
    }
    Ok(())
}

/// Adds the chunk that has an address, or else the first one above it.
fn push_chunk_at<A: Acts + Drop>(
    alloc: Global,
    region: &RegionOf<A>,
    at: u32,
    out: &mut Vec<u8>,
) -> Result<(), AllocError>
    ensures { OnOk result (out.new.items
        ≡ out.old.items ++ chunk_reply (next_chunk at (map (script_chunk region.now.marked.bytes) region.now.chunks))) }
{
    // Called for its postconditions.
    let _facts = region.chunk_count();
    let Some(chunk) = region.chunk_at(at) else {
        return out.extend_from_slice(b"none");
    };
    out.extend_from_slice(b"chunk")?;
    push_chunk(alloc, region, chunk, out)
}
