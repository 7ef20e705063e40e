//! The vetting speed of one thread.

use crate::code::{LIMIT, Source, read_code};
use crate::timing::{now, since};
use nc_vet::vet;
use nc_work::Verdict;
use std::alloc::{AllocError, Global};
use std::io;
use std::rt::Files;
use std::time::{Clock, Duration};

/// The number of bytes that are vetted in a round, unless the codes together have more.
const ROUND: usize = 65_536;

/// The code of the source, and of further files that are prepared as it is.
fn read_codes<R: Files + AllocGlobal>(
    rt: &R,
    source: &Source<'_>,
    also: &[&str],
) -> io::Result<Vec<Vec<u8>>> {
    let mut codes = Vec::new(rt.alloc());
    codes.push(read_code(rt, source)?)?;
    for path in also {
        let further = Source { path, ..*source };
        codes.push(read_code(rt, &further)?)?;
    }
    Ok(codes)
}

/// The number of bytes of all codes.
fn total(codes: &[Vec<u8>]) -> usize {
    let mut bytes = 0usize;
    for code in codes {
        bytes = bytes.saturating_add(code.len());
    }
    bytes
}

/// A copy of each code.
fn copy_each(
    alloc: Global,
    codes: &[Vec<u8>],
    chunks: &mut Vec<Vec<u8>>,
) -> Result<(), AllocError> {
    for code in codes {
        chunks.push(Vec::from_slice(alloc, code)?)?;
    }
    Ok(())
}

/// This many copies of the codes, in turn.
fn copies(alloc: Global, codes: &[Vec<u8>], turns: usize) -> Result<Vec<Vec<u8>>, AllocError> {
    let mut chunks = Vec::with_capacity(alloc, turns.saturating_mul(codes.len()))?;
    for _ in 0..turns {
        copy_each(alloc, codes, &mut chunks)?;
    }
    Ok(chunks)
}

/// The number of accepted chunks.
pub fn count_accepted(verdicts: &[Verdict]) -> usize {
    let mut accepted = 0usize;
    for verdict in verdicts {
        if verdict.is_ok() {
            accepted = accepted.saturating_add(1);
        }
    }
    accepted
}

/// Vets the chunks, and times only the vetting: the time for all of them, and the number of accepted chunks. The verdicts are
/// kept, in a list with room for them.
fn vet_timed<R: Clock>(
    rt: &R,
    base: u32,
    chunks: Vec<Vec<u8>>,
    room: Vec<Verdict>,
) -> (Duration, usize) {
    let mut verdicts = room;
    let start = now(rt);
    for code in chunks {
        let _pushed = verdicts.push(vet(base, LIMIT, code));
    }
    let took = since(rt, start);
    (took, count_accepted(&verdicts))
}

/// Vets copies of the codes in turn: the time for one copy of each, and the number of accepted chunks.
fn vet_round<R: Clock>(
    rt: &R,
    alloc: Global,
    base: u32,
    codes: &[Vec<u8>],
) -> Result<(Duration, usize), AllocError> {
    let turns = (ROUND / total(codes).max(1)).max(1);
    let chunks = copies(alloc, codes, turns)?;
    let room = Vec::with_capacity(alloc, chunks.len())?;
    let (took, accepted) = vet_timed(rt, base, chunks, room);
    let each = took.checked_div(u32::try_from(turns).unwrap_or(u32::MAX));
    Ok((each.unwrap_or(Duration::MAX), accepted))
}

/// Prints the time for one copy of each code in the best round. A megabyte is a million bytes.
fn report<R: Print>(rt: &R, bytes: usize, accepted: usize, best: Duration) -> io::Result<()> {
    let nanos = u64::try_from(best.as_nanos()).unwrap_or(u64::MAX).max(1);
    let speed = (bytes as u64).saturating_mul(1000) / nanos;
    let verdict = if accepted == 0 { "refused" } else { "accepted" };
    println!(rt; "{bytes} bytes {verdict}, {nanos} ns, {speed} MB/s")
}

/// Vets the code of a source and of further files in rounds, and reports the best round.
pub fn measure_vet<R: Files + Clock + Print + AllocGlobal>(
    rt: &R,
    source: &Source<'_>,
    also: &[&str],
    rounds: u32,
) -> io::Result<()> {
    let codes = read_codes(rt, source, also)?;
    let mut best = Duration::MAX;
    let mut accepted = 0;
    for _ in 0..rounds {
        let (took, valid) = vet_round(rt, rt.alloc(), source.base, &codes)?;
        best = best.min(took);
        accepted = valid;
    }
    report(rt, total(&codes), accepted, best)
}
