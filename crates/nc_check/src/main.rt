//! The program `nc_check`: files of code, and the verdict on each.
//!
//! `ask_check` of `nc_command` parses the command line, and `check_files` of `nc_files` judges the files and prints the reports.
#![tactic(auto)]

ghost use Rattle.std.specs.Prelude.{◌≡◌, ◌⊎◌};
ghost use Rattle.nc_check.specs.Status.{halt_status};

mod halt;

use clap::error::ErrorKind as ClapKind;
use halt::Halt;
use nc_cli::arguments;
use nc_command::{ask_check, check_words};
use nc_files::{Failure, Progress, Request, check_files};
use nc_output::PipeWriter;
use std::io::{self, ErrorKind, Input, IsTerminal};
use std::process::ExitCode;
use std::rt::{Env, Files};
use std::thread::Threads;

/// Carries out the words of the command line, the program's own name first, and returns the exit status.
fn run_words<R: Threads + Sync + AllocGlobal + Input + Files + Print + Eprint>(
    rt: &R,
    words: &[String],
    is_terminal: bool,
    is_shared: bool,
) -> Result<u8, Halt>
where
    R::File: Send + Sync,
    R::Dir: Send + Sync,
    R::Reader: Send + Sync,
{
    let Ok(arguments) = arguments(rt.alloc(), words) else {
        return Err(Halt::Files(Failure::OutOfMemory));
    };
    let request: Request<'_> = match ask_check(rt.alloc(), arguments.as_slice()) {
        Ok(request) => request,
        Err(error) => return Err(Halt::Words(error)),
    };
    let progress = Progress::new(request.files.len(), is_terminal, is_shared);
    let mut writer = PipeWriter::new(io::writer(rt));
    match check_files(rt, &request, progress, &mut writer) {
        Ok(status) => Ok(status),
        Err(failure) => Err(Halt::Files(failure)),
    }
}

/// Carries out the command line, and returns the exit status.
fn run<R: Threads + Sync + Env + AllocGlobal + Input + Files + Print + Eprint>(
    rt: &R,
    is_terminal: bool,
    is_shared: bool,
) -> Result<u8, Halt>
where
    R::File: Send + Sync,
    R::Dir: Send + Sync,
    R::Reader: Send + Sync,
{
    match check_words(rt) {
        Ok(words) => run_words(rt, words.as_slice(), is_terminal, is_shared),
        Err(error) => Err(Halt::Words(error)),
    }
}

/// Prints a fault as one line on standard error, if it has a text. If printing fails, nothing else is left to do.
fn eprint_fault<R: Eprint>(rt: &R, failure: Failure) {
    if let Some(text) = failure.text() {
        let _ = eprintln!(rt; "nc_check: {text}");
    }
}

/// Prints why the program stops, and returns the exit status, which is 2 also if help can't be printed.
fn stop<R: Print + Eprint>(rt: &R, halt: &Halt) -> u8
    ensures { (result ≡ halt_status halt.now) ⊎ ((halt_status halt.now ≡ 0) × (result ≡ 2)) }
{
    match halt {
        Halt::Files(failure) => eprint_fault(rt, *failure),
        Halt::Words(error) if error.kind() == ClapKind::OutOfMemory => eprint_fault(
            rt,
            Failure::OutOfMemory,
        ),
        Halt::Words(error) => {
            if let Err(fault) = error.print(rt) {
                if !error.use_stderr() {
                    eprint_fault(
                        rt,
                        Failure::of_writing(fault.kind() == ErrorKind::BrokenPipe),
                    );
                    return 2;
                }
            }
        }
    }
    halt.status()
}

fn main(rt: HostRuntime) -> ExitCode {
    let is_terminal = rt.stderr().is_terminal();
    let is_shared = rt.stdout().is_terminal();
    match run(&rt, is_terminal, is_shared) {
        Ok(status) => ExitCode::from(status),
        Err(halt) => ExitCode::from(stop(&rt, &halt)),
    }
}
