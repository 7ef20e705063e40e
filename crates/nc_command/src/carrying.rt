//! The work that a command line of `nc_replay` asks for, carried out over any reader and writer.

ghost use Rattle.std.specs.Prelude.{◌≡◌, false};
ghost use Rattle.nc_command.specs.Range.{AsksInRange};
ghost use Rattle.nc_command.specs.declared.carrying.Ask.{Ask};
ghost use Rattle.nc_command.specs.Start.{IfWords, IfRun, IsDone};

use crate::halt::Halt;
use crate::replay::ask;
use nc_lines::{ReplayFault, vet_lines};
use nc_script::{run, run_gathered, run_queries};
use nc_work::Open;
use std::alloc::Global;
use std::io::{Read, Write};
use std::sync::Wait;
use std::thread::Threads;

/// The work that a command line of `nc_replay` asks for.
#[derive(Clone, Copy, Debug, Drop, PartialEq, Eq)]
pub enum Ask {
    /// Runs a script.
    Replay { bundles: u32, seats: u32 },
    /// Vets lines of chunks.
    Vet { bundles: u32, workers: u32 },
}

/// All that a command line of `nc_replay` asks for: its work, and what is done beside it.
#[derive(Clone, Copy, Debug, Drop, PartialEq, Eq)]
pub struct ReplayRequest {
    pub work: Ask,
    /// Whether a script's `chunk` lines are taken.
    pub queries: bool,
    /// Whether each bad line and each refusal is explained on standard error.
    pub explain: bool,
    /// Whether the exit status is 1 if a line was bad.
    pub strict: bool,
}

/// Carries out the words of a command line, which don't begin with the program's own name. It runs a script, or vets lines of chunks
/// by workers. The words are those that [`ask`] takes. Each reply to a script's line is a write of its own.
pub fn start<'a, T: Threads + Wait + Sync, R: Read, W: Write>(
    rt: &T,
    alloc: Global,
    words: &'a [&'a str],
    reader: &mut R,
    writer: &mut W,
) -> Result<(), Halt>
    // A fault of the command line: nothing was read or written.
    ensures words { IfWords result ((reader.new ≡ reader.old) × (writer.new ≡ writer.old)) }

    // Otherwise some work with numbers in range was done.
    ensures ran { IfRun result (λ outcome. (work : Ask) × AsksInRange work
        × IsDone false work R.remaining W.contents reader.old reader.new writer.old writer.new outcome) }
{
    let work = match ask(alloc, words) {
        Ok(work) => work,
        Err(error) => return Err(Halt::Words(error)),
    };
    let done = match work {
        Ask::Replay { bundles, seats } => run(alloc, reader, writer, bundles, seats),
        Ask::Vet { bundles, workers } => {
            vet_lines(rt, alloc, reader, writer, bundles, workers, &Open)
        }
    };
    match done {
        Ok(()) => Ok(()),
        Err(fault) => Err(Halt::Fault(fault)),
    }
}

/// Does the work that a command line asks for. Of a script's replies at most `most` bytes are held back and written together, and
/// its `chunk` lines are taken if that is asked for. Lines and refusals are explained by the reader and the writer, if at all.
pub fn carry_out<T: Threads + Wait + Sync, R: Read, W: Write>(
    rt: &T,
    alloc: Global,
    request: ReplayRequest,
    reader: &mut R,
    writer: &mut W,
    most: usize,
) -> Result<(), ReplayFault>
    ensures { IsDone request.queries request.work R.remaining W.contents reader.old reader.new writer.old writer.new result }
{
    match request.work {
        Ask::Replay { bundles, seats } if request.queries => {
            run_queries(alloc, reader, writer, bundles, seats, most)
        }
        Ask::Replay { bundles, seats } => run_gathered(alloc, reader, writer, bundles, seats, most),
        Ask::Vet { bundles, workers } => {
            vet_lines(rt, alloc, reader, writer, bundles, workers, &Open)
        }
    }
}
