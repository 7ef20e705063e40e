//! The program `nc_jobs`: jobs that users of this software wait for, on inputs that a seed makes, and a digest of all results.
//!
//! `bench/run` times it in two checkouts. `words` reads the command line, `pieces` the file of compiled code that inputs are
//! made of, and `plan` follows a host's use of a region. Each job is in a file of its own:
//!
//! | Job | File |
//! |---|---|
//! | `jit` | `jit` |
//! | `load` | `modules` |
//! | `judge`, `faults` | `files` |
//! | `lines`, `refusals` | `lines` |
//! | `replay` | `texts` |
//!
//! A job is done on an `input`, makes its choices by numbers of `random`, and adds its results to a `digest`. `loading` loads a chunk into
//! a region, and `refusals` makes lines of which some are refused.
//!
//! `names` is no job: it names the instructions of a file of code, by which `tests/decoding/names` tries `nc_disasm`.
#![tactic(auto)]

mod digest;
mod files;
mod input;
mod jit;
mod lines;
mod loading;
mod modules;
mod names;
mod pieces;
mod plan;
mod random;
mod refusals;
mod texts;
mod words;

use clap::Error;
use digest::Digest;
use input::Input;
use lines::Kind;
use nc_cli::arguments;
use pieces::Pieces;
use std::alloc::AllocError;
use std::io::Write;
use std::process::ExitCode;
use std::rt::{Env, Files};
use std::sync::Wait;
use std::thread::Threads;
use std::{env, fs, io};
use words::{Ask, Job, Work, asked};

/// Does a job.
fn do_job<R: Threads + Wait + Sync + AllocGlobal>(
    rt: &R,
    digest: &mut Digest,
    job: Job,
    input: Input<'_>,
) -> Result<(), AllocError> {
    let alloc = rt.alloc();
    match job {
        Job::Jit => jit::run_jit(alloc, digest, input),
        Job::Load => modules::run_load(alloc, digest, input),
        Job::Judge => files::run_judge(alloc, digest, input),
        Job::Faults => files::run_faults(alloc, digest, input),
        Job::Lines => lines::run_lines(rt, alloc, digest, input, Kind::Valid),
        Job::Refusals => lines::run_lines(rt, alloc, digest, input, Kind::Refused),
        Job::Replay => texts::run_replay(alloc, digest, input),
    }
}

/// Does a job, and prints the digest of its results.
fn print_job<R: Threads + Wait + Sync + AllocGlobal + Print>(
    rt: &R,
    pieces: &Pieces,
    job: Job,
    ask: &Ask<'_>,
) -> io::Result<()> {
    let mut digest = Digest::new();
    let input = Input {
        pieces,
        seed: ask.seed,
        count: ask.count,
    };
    do_job(rt, &mut digest, job, input)?;
    let value = digest.value();
    let name = job.name();
    println!(rt; "{name} {value:016x}")
}

/// Does each job.
fn do_each<R: Threads + Wait + Sync + AllocGlobal + Print>(
    rt: &R,
    pieces: &Pieces,
    ask: &Ask<'_>,
) -> io::Result<()> {
    for job in words::JOBS {
        print_job(rt, pieces, job, ask)?;
    }
    Ok(())
}

/// Prints the names of the instructions of code.
fn print_names<R: AllocGlobal + Print>(rt: &R, at: u32, code: &[u8]) -> io::Result<()> {
    let text = names::lines_of(rt.alloc(), at, code)?;
    io::writer(rt).write_all(&text)
}

/// Does the work that is asked for.
fn do_asked<R: Threads + Wait + Sync + AllocGlobal + Print + Files>(
    rt: &R,
    ask: &Ask<'_>,
) -> io::Result<()> {
    let file = fs::read(rt, ask.file)?;
    match ask.work {
        Work::Names => print_names(rt, ask.seed, &file),
        Work::One(job) => print_job(rt, &Pieces::new(rt.alloc(), file)?, job, ask),
        Work::Each => do_each(rt, &Pieces::new(rt.alloc(), file)?, ask),
    }
}

/// Prints a fault of the command line, or help, and returns the exit status.
fn report_fault<R: Print + Eprint>(rt: &R, error: &Error) -> io::Result<ExitCode> {
    error.print(rt)?;
    Ok(ExitCode::from(if error.use_stderr() { 2 } else { 0 }))
}

/// Does what these words ask for.
fn run_words<R: Threads + Wait + Sync + Files + Print + Eprint + AllocGlobal>(
    rt: &R,
    words: &[&str],
) -> io::Result<ExitCode> {
    let ask = match words::matches(rt.alloc(), words) {
        Ok(found) => asked(&found),
        Err(error) => return report_fault(rt, &error),
    };
    do_asked(rt, &ask)?;
    Ok(ExitCode::SUCCESS)
}

/// The words of the command line, the program's own name first.
fn all_words<R: Env + AllocGlobal>(rt: &R) -> io::Result<Vec<String>> {
    Ok(env::args(rt)?.collect(rt.alloc())?)
}

fn main(rt: HostRuntime) -> io::Result<ExitCode> {
    let words = all_words(&rt)?;
    let arguments = arguments(rt.alloc(), &words)?;
    run_words(&rt, arguments.as_slice())
}
