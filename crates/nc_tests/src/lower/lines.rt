//! Scripts and lines of chunks in cases that no real system shows: how often a writer is flushed, a flush that fails, errors
//! of kinds that no device returns, and numbers that no command line lets through.

use crate::lower::devices::{Failing, Slow};
use crate::lower::rows::right;
use nc_lines::{ReplayFault, vet_lines};
use nc_output::PipeWriter;
use nc_script::run;
use nc_work::Open;
use std::alloc::Global;
use std::io::{ErrorKind, Read, Write};
use std::sync::Wait;
use std::test::Fail;
use std::thread::Threads;

/// Runs a script for a region of `bundles` bundles with this number of seats. The function has no clause, so that proofs of
/// its callers don't deal with the contract of `run`.
fn replay<R: Read, W: Write>(
    alloc: Global,
    reader: &mut R,
    writer: &mut W,
    bundles: u32,
    seats: u32,
) -> Result<(), ReplayFault> {
    run(alloc, reader, writer, bundles, seats)
}

/// Vets lines of chunks for a region of `bundles` bundles, by this number of workers. The function has no clause, so that
/// proofs of its callers don't deal with the contract of `vet_lines`.
fn vet<T: Threads + Wait + Sync, R: Read, W: Write>(
    rt: &T,
    alloc: Global,
    reader: &mut R,
    writer: &mut W,
    bundles: u32,
    workers: u32,
) -> Result<(), ReplayFault> {
    vet_lines(rt, alloc, reader, writer, bundles, workers, &Open)
}

/// A script and its replies, and lines of chunks and their verdicts.
const SCRIPT: &[u8] = b"dump\n\ndump";

const REPLIES: &[u8] = b"dump\nbad line\ndump\n";

const CHUNKS: &[u8] = b"00010000 -\n00010001 -\n00010000\n";

const VERDICTS: &[u8] = b"refused BadLength\nrefused BadBase\nbad line\n";

/// How a run ends.
type End = Result<(), ReplayFault>;

/// A run over these lines: the number of bundles, and that of seats or workers; how it ends, the number of bytes that are then
/// unread, and the output.
#[derive(Drop)]
struct Run {
    lines: &'static [u8],
    bundles: u32,
    number: u32,
    due: End,
    unread: usize,
    output: &'static [u8],
}

impl Run {
    /// Whether the run ended as it should.
    fn is_due(&self, end: End, rest: &[u8], writer: &Slow) -> bool {
        end == self.due && rest.len() == self.unread && writer.has(self.output)
    }

    /// Whether the lines are run as a script.
    fn is_replayed(&self, alloc: Global, mut writer: Slow) -> bool {
        let mut rest = self.lines;
        let end = replay(alloc, &mut rest, &mut writer, self.bundles, self.number);
        self.is_due(end, rest, &writer)
    }

    /// Whether the lines are vetted as chunks.
    fn is_vetted<T: Threads + Wait + Sync>(&self, rt: &T, alloc: Global, mut writer: Slow) -> bool {
        let mut rest = self.lines;
        let end = vet(rt, alloc, &mut rest, &mut writer, self.bundles, self.number);
        self.is_due(end, rest, &writer)
    }
}

/// How a writer behaves: the size of writes, the errors of a write and of a flush; how a run then ends, and whether it writes all
/// of the output.
type Flush = (usize, Option<ErrorKind>, Option<ErrorKind>, End, bool);

#[rattlefmt::skip]
static FLUSHES: [Flush; 4] = [
    (1, None, None, Ok(()), true),
    (7, None, None, Ok(()), true),
    (1, None, Some(ErrorKind::Other), Err(ReplayFault::WriteFailed), true),
    // elsewhere this error means that nothing was taken
    (9, Some(ErrorKind::WriteZero), None, Err(ReplayFault::WriteFailed), false),
];

/// A run over all of these lines, by two seats or workers, that ends so with this output.
fn whole_run(lines: &'static [u8], due: End, output: &'static [u8]) -> Run {
    Run {
        lines,
        bundles: 4,
        number: 2,
        due,
        unread: 0,
        output,
    }
}

/// A script and lines of chunks end as they should with such a writer.
fn are_flushed<T: Threads + Wait + Sync>(rt: &T, alloc: Global, row: &Flush) -> bool {
    let (size, write_error, flush_error, due, all) = *row;
    let replayed = whole_run(SCRIPT, due, if all { REPLIES } else { b"" });
    let vetted = whole_run(CHUNKS, due, if all { VERDICTS } else { b"" });
    replayed.is_replayed(alloc, Slow::new(alloc, size, write_error, flush_error))
        && vetted.is_vetted(rt, alloc, Slow::new(alloc, size, write_error, flush_error))
}

/// The output is flushed once, after all of it was written, whatever the sizes of writes; a flush that fails is a failed write.
#[test]
fn flushed(rt: HostRuntime) -> Result<(), Fail> {
    let mut row = 0u32;
    for flush in &FLUSHES {
        row = row.wrapping_add(1);
        right(are_flushed(&rt, rt.alloc(), flush), row)?;
    }
    Ok(())
}

/// A read that fails with an error which elsewhere means the end of the input.
fn is_read_failed(alloc: Global) -> bool {
    let mut reader = Failing {
        kind: ErrorKind::UnexpectedEof,
    };
    let mut writer = Slow::new(alloc, 9, None, None);
    let end = replay(alloc, &mut reader, &mut writer, 4, 1);
    end == Err(ReplayFault::ReadFailed) && writer.has(b"")
}

#[test]
fn read_fails(rt: HostRuntime) -> Result<(), Fail> {
    right(is_read_failed(rt.alloc()), 1)
}

/// The number of bundles; the number of seats, and how a script ends; the number of workers, and how vetting ends.
type Numbers = (u32, u32, End, u32, End);

#[rattlefmt::skip]
static NUMBERS: [Numbers; 8] = [
    (0, 1, Err(ReplayFault::BadSize), 1, Err(ReplayFault::BadSize)),
    (1, 0, Err(ReplayFault::BadSize), 0, Err(ReplayFault::BadSize)),
    (2_097_153, 257, Err(ReplayFault::BadSize), 17, Err(ReplayFault::BadSize)),
    (2, 0, Err(ReplayFault::BadSeats), 0, Err(ReplayFault::BadWorkers)),
    (2_097_152, 257, Err(ReplayFault::BadSeats), 17, Err(ReplayFault::BadWorkers)),
    (2, 1, Ok(()), 1, Ok(())),
    (524_288, 64, Ok(()), 4, Ok(())),
    (2_097_152, 256, Ok(()), 16, Ok(())),
];

/// A run on a bad line that ends so: if a number is out of range, nothing is read or written.
fn run_of_numbers(bundles: u32, number: u32, due: End) -> Run {
    Run {
        lines: b"bad",
        bundles,
        number,
        due,
        unread: if due.is_ok() { 0 } else { 3 },
        output: if due.is_ok() { b"bad line\n" } else { b"" },
    }
}

/// A script and lines of chunks end as they should with such numbers.
fn are_ended<T: Threads + Wait + Sync>(rt: &T, alloc: Global, row: &Numbers) -> bool {
    let (bundles, seats, replay_due, workers, vet_due) = *row;
    let replayed = run_of_numbers(bundles, seats, replay_due);
    let vetted = run_of_numbers(bundles, workers, vet_due);
    replayed.is_replayed(alloc, Slow::new(alloc, 9, None, None))
        && vetted.is_vetted(rt, alloc, Slow::new(alloc, 9, None, None))
}

/// The number of bundles is tested before that of seats or of workers, and both before anything is read.
#[test]
fn numbers(rt: HostRuntime) -> Result<(), Fail> {
    let mut row = 0u32;
    for numbers in &NUMBERS {
        row = row.wrapping_add(1);
        right(are_ended(&rt, rt.alloc(), numbers), row)?;
    }
    Ok(())
}

/// Whether a flush that fails with an error of this kind reports that the pipe is closed.
fn is_closed_by(alloc: Global, kind: ErrorKind) -> bool {
    let mut writer = PipeWriter::new(Slow::new(alloc, 9, None, Some(kind)));
    writer.flush().is_err() && writer.is_closed()
}

/// Only the error of a closed pipe reports that it is closed.
#[test]
fn closed(rt: HostRuntime) -> Result<(), Fail> {
    let alloc = rt.alloc();
    let is_right = is_closed_by(alloc, ErrorKind::BrokenPipe)
        && !is_closed_by(alloc, ErrorKind::StorageFull)
        && !is_closed_by(alloc, ErrorKind::Interrupted)
        && !is_closed_by(alloc, ErrorKind::Other);
    right(is_right, 1)
}
