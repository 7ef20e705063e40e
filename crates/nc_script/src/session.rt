//! Replies to a script's lines, by the calls of a region.

ghost use Rattle.std.specs.Prelude.{◌≡◌, ◌++◌, List, ℕ, OnOk, ◌<◌};
ghost use Rattle.nc_region.specs.Region.{IsRegion, Region};
ghost use Rattle.nc_script.specs.Requests.{Create, Modify, Delete, CheckIn, Leave, Reclaim, Walk};
ghost use Rattle.nc_script.specs.machinery.Session.{Follows, FollowsIn, FollowsLine};
ghost use Rattle.nc_script.specs.machinery.Shown.{shown};

use crate::query::reply_to_query;
use crate::reply::{
    push_create_fault, push_delete_fault, push_freed, push_patch_fault, push_stamp, push_trace,
};
use crate::request::{Request, request_of};
use crate::seats::Seats;
use nc_lines::Responder;
use nc_output::push_fault;
use nc_region::{Acts, Region, RegionOf, WalkFault};
use nc_vet::vet;
use std::alloc::{AllocError, Global};
use std::marker::Model;

/// A region and its threads' seats, by whose calls a script's lines get their replies.
#[derive(Drop)]
pub struct Session<'g> {
    alloc: Global,
    region: Region<'g>,
    seats: Seats<'g>,
    /// Whether `chunk` lines are taken; otherwise they are bad lines.
    queries: bool,
}

impl<'g> Model for Session<'g> {
    ghost use Rattle.std.specs.Prelude.{◌≡◌};
    ghost use Rattle.nc_script.specs.machinery.Session.{SessionOf};

    ghost Value = { SessionOf };

    ghost view = { λ s. record { queries = s.queries; state = record { region = s.region; seats = s.seats } } };

    ghost invariant = { λ s. s.region.keeper.table ≡ s.seats.table };
}

impl<'g> Session<'g> {
    /// A session over a region and its threads' seats, whose passes belong to the region's table. It takes `chunk` lines if
    /// `queries` are wanted.
    pub fn new(alloc: Global, region: Region<'g>, seats: Seats<'g>, queries: bool) -> Session<'g>
        requires { region.keeper.table ≡ seats.table }
        ensures { result ≡ record { queries = queries; state = record { region = region.entry; seats = seats.entry } } }
    {
        Session {
            alloc,
            region,
            seats,
            queries,
        }
    }
}

impl<'g> Responder for Session<'g> {
    ghost replies = { FollowsLine };

    fn reply(&mut self, kept: &[u8], out: &mut Vec<u8>) -> Result<(), AllocError> {
        // Called for its contract only.
        let _facts = self.region.limit();
        match request_of(self.alloc, kept, self.queries)? {
            Some(request) => serve(self.alloc, &mut self.region, &mut self.seats, request, out),
            None => out.extend_from_slice(b"bad line\n"),
        }
    }
}

/// Replies to a request.
fn serve<A: Acts + Drop>(
    alloc: Global,
    region: &mut RegionOf<A>,
    seats: &mut Seats<'_>,
    request: Request,
    out: &mut Vec<u8>,
) -> Result<(), AllocError>
    requires region { IsRegion region.old.marked region.old.chunks }
    requires table { region.old.keeper.table ≡ seats.old.table }
    ensures follows { OnOk result ((reply : List ℕ) × (out.new.items ≡ out.old.items ++ reply)
        × Follows (shown request) (record { region = region.old; seats = seats.old }) reply
        (record { region = region.new; seats = seats.new })) }
    ensures table { region.new.keeper.table ≡ seats.new.table }
{
    match request {
        Request::Create { at, bytes } => reply_to_create(region, at, bytes, out),
        Request::Modify { at, bytes } => reply_to_modify(region, at, &bytes, out),
        Request::Delete { base } => reply_to_delete(alloc, region, base, out),
        Request::CheckIn { seat } => reply_to_check_in(region, seats, seat, out),
        Request::Leave { seat } => reply_to_leave(seats, seat, out),
        Request::Reclaim => reply_to_reclaim(alloc, region, seats, out),
        Request::Walk { start, choices } => reply_to_walk(region, start, &choices, out),
        Request::Query { query } => reply_to_query(alloc, region, query, out),
    }
}

/// Vets a chunk for the region's limit and creates it.
fn reply_to_create<A: Acts + Drop>(
    region: &mut RegionOf<A>,
    base: u32,
    bytes: Vec<u8>,
    out: &mut Vec<u8>,
) -> Result<(), AllocError>
    ensures follows { OnOk result ((reply : List ℕ) × (out.new.items ≡ out.old.items ++ reply)
        × FollowsIn (Create base bytes.items) region.old reply region.new) }
    ensures keeper { region.new.keeper ≡ region.old.keeper }
{
    let limit = region.limit();
    let vetted = match vet(base, limit, bytes) {
        Ok(vetted) => vetted,
        Err((_, fault)) => return push_fault(out, fault),
    };
    match region.create(vetted) {
        Ok(()) => out.extend_from_slice(b"ok\n"),
        Err((_, fault)) => push_create_fault(out, fault),
    }
}

/// Replaces instructions of a live chunk.
fn reply_to_modify<A: Acts + Drop>(
    region: &mut RegionOf<A>,
    at: u32,
    bytes: &[u8],
    out: &mut Vec<u8>,
) -> Result<(), AllocError>
    requires { IsRegion region.old.marked region.old.chunks }
    ensures follows { OnOk result ((reply : List ℕ) × (out.new.items ≡ out.old.items ++ reply)
        × FollowsIn (Modify at bytes.now) region.old reply region.new) }
    ensures keeper { region.new.keeper ≡ region.old.keeper }
{
    match region.modify(at, bytes) {
        Ok(()) => out.extend_from_slice(b"ok\n"),
        Err(fault) => push_patch_fault(out, fault),
    }
}

/// Deletes a live chunk.
fn reply_to_delete<A: Acts + Drop>(
    alloc: Global,
    region: &mut RegionOf<A>,
    base: u32,
    out: &mut Vec<u8>,
) -> Result<(), AllocError>
    requires { IsRegion region.old.marked region.old.chunks }
    ensures follows { OnOk result ((reply : List ℕ) × (out.new.items ≡ out.old.items ++ reply)
        × FollowsIn (Delete base) region.old reply region.new) }
    ensures table { region.new.keeper.table ≡ region.old.keeper.table }
{
    match region.delete(base) {
        Ok(stamp) => push_stamp(alloc, out, stamp),
        Err(fault) => push_delete_fault(out, fault),
    }
}

/// A seat checks in.
fn reply_to_check_in<A: Acts + Drop>(
    region: &mut RegionOf<A>,
    seats: &mut Seats<'_>,
    seat: u32,
    out: &mut Vec<u8>,
) -> Result<(), AllocError>
    requires { region.old.keeper.table ≡ seats.old.table }
    ensures follows { OnOk result ((reply : List ℕ) × (out.new.items ≡ out.old.items ++ reply)
        × Follows (CheckIn seat) (record { region = region.old; seats = seats.old }) reply
        (record { region = region.new; seats = seats.new })) }
    ensures table { region.new.keeper.table ≡ seats.new.table }
{
    if seats.check_in(region, seat as usize) {
        out.extend_from_slice(b"ok\n")
    } else {
        out.extend_from_slice(b"refused NoSeat\n")
    }
}

/// A seat leaves for good.
fn reply_to_leave(seats: &mut Seats<'_>, seat: u32, out: &mut Vec<u8>) -> Result<(), AllocError>
    ensures follows { (region : Region) → OnOk result ((reply : List ℕ) × (out.new.items ≡ out.old.items ++ reply)
        × Follows (Leave seat) (record { region = region; seats = seats.old }) reply (record { region = region; seats = seats.new })) }
    ensures table { seats.new.table ≡ seats.old.table }
{
    if seats.leave(seat as usize) {
        out.extend_from_slice(b"ok\n")
    } else {
        out.extend_from_slice(b"refused NoSeat\n")
    }
}

/// Frees the spans of deleted chunks, as far as the seats allow. The keeper meets every seat afterwards, which shows the
/// number by which it freed.
fn reply_to_reclaim<A: Acts + Drop>(
    alloc: Global,
    region: &mut RegionOf<A>,
    seats: &mut Seats<'_>,
    out: &mut Vec<u8>,
) -> Result<(), AllocError>
    requires { region.old.keeper.table ≡ seats.old.table }
    ensures follows { OnOk result ((reply : List ℕ) × (out.new.items ≡ out.old.items ++ reply)
        × Follows Reclaim (record { region = region.old; seats = seats.old }) reply (record { region = region.new; seats = seats.new })) }
    ensures table { region.new.keeper.table ≡ seats.new.table }
{
    let count = region.reclaim();
    seats.meet(region);
    push_freed(alloc, out, count)
}

/// Walks through the region.
fn reply_to_walk<A: Acts + Drop>(
    region: &RegionOf<A>,
    start: u32,
    choices: &[u32],
    out: &mut Vec<u8>,
) -> Result<(), AllocError>
    requires { IsRegion region.now.marked region.now.chunks }
    ensures { OnOk result ((reply : List ℕ) × (out.new.items ≡ out.old.items ++ reply)
        × FollowsIn (Walk start choices.now) region.now reply region.now) }
{
    match region.walk(start, choices) {
        Ok(trace) => push_trace(out, &trace),
        Err(WalkFault::NotBundle) => out.extend_from_slice(b"refused NotBundle\n"),
        Err(WalkFault::OutOfMemory) => Err(AllocError),
    }
}
