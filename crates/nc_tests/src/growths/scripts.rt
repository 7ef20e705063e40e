//! `run` and `vet_lines`, while they are refused an allocation.

use crate::growths::marks::{begin, end};
use crate::hostile::script::{CHUNKS, REPLIES, SCRIPT, VERDICTS};
use crate::lower::rows::right;
use nc_lines::{ReplayFault, vet_lines};
use nc_script::run;
use nc_work::Open;
use std::alloc::Global;
use std::sync::Wait;
use std::test::Fail;
use std::thread::Threads;

/// Runs the script with one seat for a region of four bundles. The function has no clause, so that proofs of its callers don't
/// deal with the contract of `run`.
fn replay(alloc: Global, writer: &mut Vec<u8>) -> Result<(), ReplayFault> {
    let mut reader = SCRIPT;
    run(alloc, &mut reader, writer, 4, 1)
}

/// Vets the lines of chunks for a region of four bundles, without the contract of `vet_lines`.
fn vetted<R: Threads + Wait + Sync>(
    rt: &R,
    alloc: Global,
    writer: &mut Vec<u8>,
    workers: u32,
) -> Result<(), ReplayFault> {
    let mut reader = CHUNKS;
    vet_lines(rt, alloc, &mut reader, writer, 4, workers, &Open)
}

/// Whether these are the replies to some first lines of the script.
fn are_first_replies(written: &[u8]) -> bool {
    REPLIES.starts_with(written) && (written.is_empty() || written.ends_with(b"\n"))
}

/// Whether the script gets its replies. If memory is refused once, those to the first lines were written, and a second run gets all.
/// The writer has room for all.
fn is_replayed(alloc: Global, writer: &mut Vec<u8>) -> bool {
    match replay(alloc, writer) {
        Ok(()) => writer.as_slice() == REPLIES,
        Err(ReplayFault::OutOfMemory) => {
            let are_first = are_first_replies(writer.as_slice());
            writer.clear();
            are_first && replay(alloc, writer).is_ok() && writer.as_slice() == REPLIES
        }
        Err(_) => false,
    }
}

/// Whether the lines of chunks get their verdicts. If memory is refused once, nothing was written, and a second run writes all.
fn is_vetted<R: Threads + Wait + Sync>(
    rt: &R,
    alloc: Global,
    writer: &mut Vec<u8>,
    workers: u32,
) -> bool {
    match vetted(rt, alloc, writer, workers) {
        Ok(()) => writer.as_slice() == VERDICTS,
        Err(ReplayFault::OutOfMemory) => {
            writer.is_empty()
                && vetted(rt, alloc, writer, workers).is_ok()
                && writer.as_slice() == VERDICTS
        }
        Err(_) => false,
    }
}

/// `run` and `vet_lines` refuse for lack of memory, or write everything.
#[test]
fn each_growth_refused(rt: HostRuntime) -> Result<(), Fail> {
    let alloc = rt.alloc();
    let mut replies = Vec::with_capacity(alloc, 2 * REPLIES.len())?;
    let mut first = Vec::with_capacity(alloc, 2 * VERDICTS.len())?;
    let mut second = Vec::with_capacity(alloc, 2 * VERDICTS.len())?;
    begin(&rt)?;
    let is_replayed = is_replayed(alloc, &mut replies);
    let is_first = is_vetted(&rt, alloc, &mut first, 1);
    let is_second = is_vetted(&rt, alloc, &mut second, 2);
    end(&rt)?;
    right(is_replayed, 1)?;
    right(is_first, 2)?;
    right(is_second, 3)
}
