//! The program `nc_bench`: how fast code is vetted, and how long a region's calls take.
//!
//! It has a subcommand for each measurement; without words it prints the list of them. `measurements` defines them with their
//! words, and `command_line` reads these. Each measurement works in rounds, prints the best time, and has a file of its own:
//!
//! | Subcommand | File |
//! |---|---|
//! | `vet` | `vetting`, on code that `code` makes from a file |
//! | `workers` | `workers` |
//! | `chunks` | `chunks` |
//! | `reclaim` | `reclaim` |
//! | `idle` | `idle` |
//! | `churn` | `churn`, on turns that `plan` makes |
//! | `lookups` | `lookups` |
//! | `checkin` | `check_in` |
//!
//! `timing` takes times and prints them. A `load` is chunks of `ordinary` code that fill a region, taken in an `order`. `tables` makes
//! tables of generations of one seat.
#![tactic(auto)]

mod check_in;
mod chunks;
mod churn;
mod code;
mod command_line;
mod idle;
mod load;
mod lookups;
mod measurements;
mod order;
mod ordinary;
mod plan;
mod reclaim;
mod tables;
mod timing;
mod vetting;
mod workers;

use check_in::measure_check_in;
use chunks::measure_chunks;
use churn::measure_churn;
use clap::Error;
use command_line::{Ask, asked};
use idle::measure_idle;
use lookups::measure_lookups;
use measurements::matches;
use nc_cli::arguments;
use reclaim::measure_reclaim;
use std::process::ExitCode;
use std::rt::{Env, Files};
use std::sync::Wait;
use std::thread::Threads;
use std::time::Clock;
use std::{env, io};
use vetting::measure_vet;
use workers::measure_workers;

/// Makes the measurement that is asked for.
fn measure<R: Threads + Wait + Sync + Clock + Files + Print + AllocGlobal>(
    rt: &R,
    ask: Ask<'_>,
    rounds: u32,
) -> io::Result<()> {
    match ask {
        Ask::Vet(source, also) => measure_vet(rt, &source, &also, rounds),
        Ask::Workers(jobs, workers) => measure_workers(rt, jobs, rounds, workers),
        Ask::Chunks(load) => measure_chunks(rt, load, rounds),
        Ask::Reclaim(share) => measure_reclaim(rt, share, rounds),
        Ask::Idle(count) => measure_idle(rt, count, rounds),
        Ask::Churn(churn) => measure_churn(rt, churn, rounds),
        Ask::Lookups(load) => measure_lookups(rt, load, rounds),
        Ask::CheckIn(times) => measure_check_in(rt, times, rounds),
    }
}

/// Prints a fault of the command line, or help, and returns the exit status.
fn report_fault<R: Print + Eprint>(rt: &R, error: &Error) -> io::Result<ExitCode> {
    error.print(rt)?;
    Ok(ExitCode::from(if error.use_stderr() { 2 } else { 0 }))
}

/// Makes the measurement that these words ask for.
fn run<R: Threads + Wait + Sync + Clock + Files + Print + Eprint + AllocGlobal>(
    rt: &R,
    words: &[&str],
) -> io::Result<ExitCode> {
    let asked = match matches(rt.alloc(), words) {
        Ok(found) => asked(rt.alloc(), &found),
        Err(error) => return report_fault(rt, &error),
    };
    let (ask, rounds) = asked?;
    measure(rt, ask, rounds)?;
    Ok(ExitCode::SUCCESS)
}

/// The words of the command line, the program's own name first.
fn words<R: Env + AllocGlobal>(rt: &R) -> io::Result<Vec<String>> {
    Ok(env::args(rt)?.collect(rt.alloc())?)
}

fn main(rt: HostRuntime) -> io::Result<ExitCode> {
    let words = words(&rt)?;
    let arguments = arguments(rt.alloc(), &words)?;
    run(&rt, arguments.as_slice())
}
