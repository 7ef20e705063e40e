//! The program `nc_replay`: scripts for a code region, and chunks to be vetted, from standard input to standard output.
//!
//! It has two subcommands. `replay` runs a script: it creates, patches, deletes and reclaims chunks in a code region, walks
//! through them and shows them. `vet` only vets chunks, several at a time. `ask_replay` of `nc_command` parses the command line, and
//! `carry_out` does what it asks for over any reader and writer. `gathering` says whether replies may be written
//! together. `explaining` has the reader and the writer that explain bad lines and refusals on standard error.
#![tactic(auto)]

ghost use Rattle.std.specs.Prelude.{◌≡◌, ◌⊎◌};
ghost use Rattle.nc_command.specs.Status.{status_of};

mod explaining;
mod gathering;

use clap::error::ErrorKind as ClapKind;
use explaining::{ExplainedInput, ExplainedOutput};
use gathering::most_held;
use nc_cli::arguments;
use nc_command::{Halt, ReplayRequest, ask_replay, carry_out, replay_words};
use nc_lines::ReplayFault;
use nc_output::PipeWriter;
use std::io::{self, BufReader, ErrorKind, Input, Write};
use std::process::ExitCode;
use std::rt::Env;
use std::sync::Wait;
use std::thread::Threads;

/// Does what is asked for over an output that explains refusals. Bad lines are explained if that is asked for.
fn run_over<R: Threads + Wait + Sync + Eprint + AllocGlobal + Input, W: Write>(
    rt: &R,
    request: ReplayRequest,
    output: &mut ExplainedOutput<'_, '_, W, R>,
    most: usize,
) -> Result<(), ReplayFault> {
    let alloc = rt.alloc();
    if !request.explain {
        return carry_out(rt, alloc, request, &mut rt.reader(), output, most);
    }
    let Ok(reader) = BufReader::new(alloc, rt.reader()) else {
        return Err(ReplayFault::OutOfMemory);
    };
    let mut input = ExplainedInput::new(rt, alloc, reader, request);
    carry_out(rt, alloc, request, &mut input, output, 0)
}

/// Does what is asked for, explains bad lines and refusals if that is asked for, and returns the number of bad lines.
fn run_explained<R: Threads + Wait + Sync + Eprint + AllocGlobal + Input, W: Write>(
    rt: &R,
    request: ReplayRequest,
    writer: &mut W,
    most: usize,
) -> Result<u64, ReplayFault> {
    let mut output = ExplainedOutput::new(rt, rt.alloc(), writer, request.explain);
    match run_over(rt, request, &mut output, most) {
        Ok(()) => Ok(output.bad_lines()),
        Err(fault) => Err(fault),
    }
}

/// Does what is asked for, and writes to this writer, of a script at most `most` bytes of replies together. Returns the number of bad
/// lines if they are failures.
fn run_asked<R: Threads + Wait + Sync + Eprint + AllocGlobal + Input, W: Write>(
    rt: &R,
    request: ReplayRequest,
    writer: &mut W,
    most: usize,
) -> Result<u64, ReplayFault> {
    if !request.explain && !request.strict {
        carry_out(rt, rt.alloc(), request, &mut rt.reader(), writer, most)?;
        return Ok(0);
    }
    let bad = run_explained(rt, request, writer, most)?;
    Ok(if request.strict { bad } else { 0 })
}

/// Carries out words, as [`run_asked`] does what they ask for.
fn run_arguments<R: Threads + Wait + Sync + Eprint + AllocGlobal + Input, W: Write>(
    rt: &R,
    words: &[&str],
    writer: &mut W,
    most: usize,
) -> Result<u64, Halt> {
    let request = match ask_replay(rt.alloc(), words) {
        Ok(request) => request,
        Err(error) => return Err(Halt::Words(error)),
    };
    match run_asked(rt, request, writer, most) {
        Ok(bad) => Ok(bad),
        Err(fault) => Err(Halt::Fault(fault)),
    }
}

/// Carries out the command line, as [`run_arguments`] does its words.
fn run_words<R: Threads + Wait + Sync + Env + Eprint + AllocGlobal + Input, W: Write>(
    rt: &R,
    writer: &mut W,
    most: usize,
) -> Result<u64, Halt> {
    let words = match replay_words(rt) {
        Ok(words) => words,
        Err(error) => return Err(Halt::Words(error)),
    };
    match arguments(rt.alloc(), words.as_slice()) {
        Ok(arguments) => run_arguments(rt, arguments.as_slice(), writer, most),
        Err(_) => Err(Halt::Fault(ReplayFault::OutOfMemory)),
    }
}

/// Prints a fault as one line on standard error. If that fails, nothing else is left to do.
fn eprint_fault<R: Eprint>(rt: &R, fault: ReplayFault) {
    let _ = eprintln!(rt; "nc_replay: {fault}");
}

/// Prints that a write failed, unless the reader of the output is gone.
fn eprint_unwritten<R: Eprint>(rt: &R, is_closed: bool) {
    if !is_closed {
        eprint_fault(rt, ReplayFault::WriteFailed);
    }
}

/// Prints why the program stops, and returns the exit status, which is 1 also if help can't be printed.
fn stop<R: Print + Eprint>(rt: &R, halt: &Halt, is_closed: bool) -> u8
    ensures { (result ≡ status_of halt.now) ⊎ ((status_of halt.now ≡ 0) × (result ≡ 1)) }
{
    match halt {
        Halt::Fault(ReplayFault::WriteFailed) => eprint_unwritten(rt, is_closed),
        Halt::Fault(fault) => eprint_fault(rt, *fault),
        Halt::Words(error) if error.kind() == ClapKind::OutOfMemory => {
            eprint_fault(rt, ReplayFault::OutOfMemory);
        }
        Halt::Words(error) => {
            if let Err(fault) = error.print(rt) {
                if !error.use_stderr() {
                    eprint_unwritten(rt, fault.kind() == ErrorKind::BrokenPipe);
                    return Halt::Fault(ReplayFault::WriteFailed).status();
                }
            }
        }
    }
    halt.status()
}

fn main(rt: HostRuntime) -> ExitCode {
    let mut writer = PipeWriter::new(io::writer(&rt));
    match run_words(&rt, &mut writer, most_held(&rt)) {
        Ok(0) => ExitCode::SUCCESS,
        Ok(bad) => {
            let _ = eprintln!(&rt; "nc_replay: bad lines: {bad}");
            ExitCode::from(1)
        }
        Err(halt) => ExitCode::from(stop(&rt, &halt, writer.is_closed())),
    }
}
