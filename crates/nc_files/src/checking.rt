//! Judging files, one round after another.

ghost use Rattle.std.specs.Prelude.{◌≡◌, ◌||◌, ◌∷◌, [], Bool, IfOk, OnOk};
ghost use Rattle.std.specs.List.{AllZip};
ghost use Rattle.std.specs.Io.KnownBytes.{Appends};
ghost use Rattle.nc_report.specs.Report.{HasWritten};
ghost use Rattle.nc_files.specs.Reports.{FitsFile};
ghost use Rattle.nc_files.specs.Files.{PrintsFiles, exit_status};
ghost use Rattle.nc_files.specs.Outcomes.{HasPrinted};

use crate::files::Unread;
use crate::judging::{Unjudged, Unreported, judge_file};
use crate::outcome::{Failure, Outcome};
use crate::progress::Progress;
use crate::request::Request;
use crate::working::{Report, judge_files};
use nc_output::{PipeWriter, write_out};
use std::alloc::Global;
use std::io::{Input, Write};
use std::rt::Files;
use std::thread::Threads;

/// The bytes of a block that is larger than most files.
const KEPT_BLOCK: usize = 31 << 20;

/// The number of files that several workers judge before the reports on them are printed.
const ROUND: usize = 256;

/// The state of the program: the outcome so far, and the progress that it shows.
#[derive(Drop)]
struct State {
    outcome: Outcome,
    progress: Progress,
}

/// Makes the C library keep the memory of a file for the next one: glibc does so for up to twice the size of the largest block
/// that was freed (up to 32 MiB). Otherwise it would return much of it to the system, which allocates it anew, page by page.
/// The block isn't touched. If there is no memory for it, only time is lost.
fn keep_memory(alloc: Global) {
    let _ = Vec::<u8>::with_capacity(alloc, KEPT_BLOCK);
}

/// Prints on standard error why a file isn't judged. If that fails, nothing else is left to do.
fn eprint_fault<R: Eprint>(rt: &R, file: &str, unread: Unread) {
    let _ = eprintln!(rt; "nc_check: {file}: {}", unread.text());
}

/// Judges a file alone, and prints the report on it as it is made.
fn judge_alone<R: AllocGlobal + Input + Files + Eprint, W: Write>(
    rt: &R,
    request: &Request<'_>,
    state: &mut State,
    file: &str,
    writer: &mut PipeWriter<W>,
) -> Result<(), Failure>
    ensures { OnOk result (HasPrinted request.now (file.entry ∷ []) state.old.outcome state.new.outcome
        (W.contents writer.old.writer) (W.contents writer.new.writer)) }
{
    state.progress.yield_output(rt);
    match judge_file(rt, request, file, writer) {
        Ok(is_refused) => {
            state.outcome.is_refused |= is_refused;
            Ok(())
        }
        Err(Unjudged::Unread(unread)) => {
            state.progress.wipe(rt);
            eprint_fault(rt, file, unread);
            state.outcome.is_faulty = true;
            Ok(())
        }
        Err(Unjudged::Unreported(Unreported::OutOfMemory)) => Err(Failure::OutOfMemory),
        Err(Unjudged::Unreported(Unreported::WriteFailed)) => {
            Err(Failure::of_writing(writer.is_closed()))
        }
    }
}

/// Prints the report that a worker has made.
fn print<R: Eprint, W: Write>(
    rt: &R,
    state: &mut State,
    report: &Report,
    writer: &mut PipeWriter<W>,
) -> Result<(), Failure>
    ensures text { OnOk result (Appends (W.contents writer.old.writer) (W.contents writer.new.writer) report.now.text.items) }
    ensures faulty { state.new.outcome.is_faulty ≡ state.old.outcome.is_faulty }
    ensures refused { state.new.outcome.is_refused ≡ state.old.outcome.is_refused || report.now.is_refused }
{
    state.progress.yield_output(rt);
    state.outcome.is_refused |= report.is_refused;
    match write_out(writer, &report.text) {
        Ok(()) => Ok(()),
        Err(_) => Err(Failure::of_writing(writer.is_closed())),
    }
}

/// Prints the report on a file, which is in the file's place. A file that no worker has judged is judged here.
fn print_place<R: AllocGlobal + Input + Files + Eprint, W: Write>(
    rt: &R,
    request: &Request<'_>,
    state: &mut State,
    file: &str,
    place: &Option<Report>,
    writer: &mut PipeWriter<W>,
) -> Result<(), Failure>
    requires { FitsFile request.now file.now place.now }
    ensures { OnOk result (HasPrinted request.now (file.entry ∷ []) state.old.outcome state.new.outcome
        (W.contents writer.old.writer) (W.contents writer.new.writer)) }
{
    match place {
        Some(report) => print(rt, state, report, writer),
        None => judge_alone(rt, request, state, file, writer),
    }
}

/// Prints the reports on the files of a round, in the order of the files.
fn print_round<R: AllocGlobal + Input + Files + Eprint, W: Write>(
    rt: &R,
    request: &Request<'_>,
    state: &mut State,
    files: &[&str],
    places: &[Option<Report>],
    writer: &mut PipeWriter<W>,
) -> Result<(), Failure>
    requires { AllZip (λ file place. FitsFile request.now file.now place) files.now places.now }
    ensures { OnOk result (HasPrinted request.now files.now state.old.outcome state.new.outcome
        (W.contents writer.old.writer) (W.contents writer.new.writer)) }
{
    for number in 0..files.len() {
        match places.get(number) {
            Some(place) => print_place(rt, request, state, files[number], place, writer)?,
            None => unreachable!(),
        }
    }
    Ok(())
}

/// Judges the files of a round, by several workers if there are several files, and prints the reports on them.
fn judge_round<R: Threads + Sync + AllocGlobal + Input + Files + Eprint, W: Write>(
    rt: &R,
    request: &Request<'_>,
    state: &mut State,
    files: &[&str],
    writer: &mut PipeWriter<W>,
) -> Result<(), Failure>
where
    R::File: Send + Sync,
    R::Dir: Send + Sync,
    R::Reader: Send + Sync,
    ensures { OnOk result (HasPrinted request.now files.now state.old.outcome state.new.outcome
        (W.contents writer.old.writer) (W.contents writer.new.writer)) }
{
    if files.len() == 1 {
        return judge_alone(rt, request, state, files[0], writer);
    }
    match judge_files(rt, request, files) {
        Ok(places) => print_round(rt, request, state, files, places.as_slice(), writer),
        Err(_) => Err(Failure::OutOfMemory),
    }
}

/// Judges the files that are asked for, one round after another.
fn judge_all<R: Threads + Sync + AllocGlobal + Input + Files + Eprint, W: Write>(
    rt: &R,
    request: &Request<'_>,
    state: &mut State,
    writer: &mut PipeWriter<W>,
) -> Result<(), Failure>
where
    R::File: Send + Sync,
    R::Dir: Send + Sync,
    R::Reader: Send + Sync,
    ensures { OnOk result (HasPrinted request.now request.now.files.items state.old.outcome state.new.outcome
        (W.contents writer.old.writer) (W.contents writer.new.writer)) }
{
    let round = if request.workers > 1 { ROUND } else { 1 };
    let mut done: usize = 0;
    for files in request.files.chunks(round) {
        judge_round(rt, request, state, files, writer)?;
        done = files.len().saturating_add(done);
        state.progress.show(rt, done);
    }
    state.progress.wipe(rt);
    Ok(())
}

/// Judges the files that are asked for, and writes the reports on them. Returns the exit status: 2 if a file wasn't judged, otherwise 1 if
/// one was refused, otherwise 0. A file that can't be read is named on standard error.
pub fn check_files<R: Threads + Sync + AllocGlobal + Input + Files + Eprint, W: Write>(
    rt: &R,
    request: &Request<'_>,
    progress: Progress,
    writer: &mut PipeWriter<W>,
) -> Result<u8, Failure>
where
    R::File: Send + Sync,
    R::Dir: Send + Sync,
    R::Reader: Send + Sync,
    // For each file, in the files' order, exactly the report on a file of this name was written; or nothing, and then the status is 2. What
    // bytes a file has, and whether it can be read, is up to its device.
    ensures { IfOk result (λ status. (faulty refused : Bool) × (status ≡ exit_status faulty refused)
        × HasWritten (PrintsFiles request.now request.now.files.items faulty refused)
        (W.contents writer.old.writer) (W.contents writer.new.writer)) }
{
    keep_memory(rt.alloc());
    let mut state = State {
        outcome: Outcome {
            is_faulty: false,
            is_refused: false,
        },
        progress,
    };
    match judge_all(rt, request, &mut state, writer) {
        Ok(()) => Ok(state.outcome.status()),
        Err(failure) => Err(failure),
    }
}
