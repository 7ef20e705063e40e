//! Running a script from a reader to a writer.

ghost use Rattle.std.specs.Prelude.{false, true};
ghost use Rattle.nc_gens.specs.Seen.{AreSeats};
ghost use Rattle.nc_decode.specs.Bundles.{IsRegionSize};
ghost use Rattle.nc_script.specs.Laws.{BeginsAll, HasOneReply, FreesByLeast, LeavesOpen};
ghost use Rattle.nc_script.specs.Run.{HasRun};

use crate::seats::Seats;
use crate::session::Session;
use nc_decode::is_region_size;
use nc_gens::{Gens, are_seats};
use nc_lines::{ReplayFault, reply_gathered};
use nc_region::Region;
use std::alloc::Global;
use std::io::{Read, Write};

/// How a script is run.
#[derive(Clone, Copy)]
struct Manner {
    /// The most bytes of replies that are held back.
    most: usize,
    /// Whether `chunk` lines are taken; otherwise they are bad lines.
    queries: bool,
}

/// Runs a script on a new region of `bundles` bundles, for threads with `seats` seats: reads its lines, and writes the reply
/// to each as soon as its line end has been read. Each reply is a write of its own, unless the writer takes only a part.
///
/// A line ends at a byte 0A or at the end of the input, and begins with one of these words:
///
/// - `create` with an address and bytes vets a chunk and creates it;
/// - `modify` with an address and bytes replaces instructions of a chunk;
/// - `delete` with an address retires a chunk;
/// - `checkin` and `leave` with a seat act for the seat's thread;
/// - `reclaim` frees each retired chunk for which every seat has checked in since its deletion or has left;
/// - `walk` with an address and choices shows the places of a walk and its end;
/// - `dump` shows every chunk.
///
/// Any other line, and any line of more than 1,048,576 bytes, is a bad line. The promises about bytes hold for a
/// reader and a writer whose bytes are known; nothing is promised about when a device fails.
pub fn run<R: Read, W: Write>(
    alloc: Global,
    reader: &mut R,
    writer: &mut W,
    bundles: u32,
    seats: u32,
) -> Result<(), ReplayFault>
    ensures { HasRun false bundles seats R.remaining W.contents reader.old reader.new writer.old writer.new result }
{
    run_gathered(alloc, reader, writer, bundles, seats, 0)
}

/// Runs a script as [`run`] does, but holds back at most `most` bytes of replies and writes them together, at the moments and for the
/// writers that `reply_gathered` of `nc_lines` names.
pub fn run_gathered<R: Read, W: Write>(
    alloc: Global,
    reader: &mut R,
    writer: &mut W,
    bundles: u32,
    seats: u32,
    most: usize,
) -> Result<(), ReplayFault>
    ensures { HasRun false bundles seats R.remaining W.contents reader.old reader.new writer.old writer.new result }
{
    let manner = Manner {
        most,
        queries: false,
    };
    run_in(alloc, reader, writer, bundles, seats, manner)
}

/// Runs a script as [`run_gathered`] does, but also takes lines with the word `chunk` and an address. They show the chunk that has the
/// address, or else the first one above it.
pub fn run_queries<R: Read, W: Write>(
    alloc: Global,
    reader: &mut R,
    writer: &mut W,
    bundles: u32,
    seats: u32,
    most: usize,
) -> Result<(), ReplayFault>
    ensures { HasRun true bundles seats R.remaining W.contents reader.old reader.new writer.old writer.new result }
{
    let manner = Manner {
        most,
        queries: true,
    };
    run_in(alloc, reader, writer, bundles, seats, manner)
}

/// Runs a script on a new region, if the numbers of bundles and of seats are valid.
fn run_in<R: Read, W: Write>(
    alloc: Global,
    reader: &mut R,
    writer: &mut W,
    bundles: u32,
    seats: u32,
    manner: Manner,
) -> Result<(), ReplayFault>
    ensures { HasRun manner.queries bundles seats R.remaining W.contents reader.old reader.new writer.old writer.new result }
{
    if !is_region_size(bundles) {
        return Err(ReplayFault::BadSize);
    }
    if !are_seats(seats) {
        return Err(ReplayFault::BadSeats);
    }
    run_new(alloc, reader, writer, bundles, seats, manner)
}

/// Runs a script on a new region with valid numbers of bundles and of seats.
fn run_new<R: Read, W: Write>(
    alloc: Global,
    reader: &mut R,
    writer: &mut W,
    bundles: u32,
    seats: u32,
    manner: Manner,
) -> Result<(), ReplayFault>
    requires size { IsRegionSize bundles }
    requires seats { AreSeats seats }
    ensures { HasRun manner.queries bundles seats R.remaining W.contents reader.old reader.new writer.old writer.new result }
{
    let Ok((gens, keeper, passes)) = Gens::new(alloc, seats) else {
        return Err(ReplayFault::OutOfMemory);
    };
    let Ok(threads) = Seats::new(alloc, &gens, passes) else {
        return Err(ReplayFault::OutOfMemory);
    };
    match Region::new(alloc, bundles, &gens, keeper) {
        Ok(region) => {
            let mut session = Session::new(alloc, region, threads, manner.queries);
            reply_gathered(alloc, &mut session, reader, writer, manner.most)
        }
        Err(_) => Err(ReplayFault::OutOfMemory),
    }
}

/// As long as no seat leaves, the replies of a run depend on the script alone. Lines have no other replies than those that a run
/// wrote, and a part that it wrote is a prefix of the replies to all lines. A reclaim frees by the least number of all seats. The
/// function does nothing when called.
pub fn law_of_replies()
    ensures one_text { HasOneReply }
    ensures begins_all { BeginsAll }
    ensures least { FreesByLeast }

    // Once a seat has left, a reclaim can have two replies.
    ensures leaves_open { LeavesOpen }
{}
