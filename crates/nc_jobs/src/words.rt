//! The words of the command line.

use clap::builder::ValueParser;
use clap::{ArgAction, ArgMatches, Error};
use nc_cli::{Program, Usage, Word};
use std::alloc::Global;

/// A job.
#[derive(Clone, Copy, Drop)]
pub enum Job {
    Jit,
    Load,
    Judge,
    Faults,
    Lines,
    Refusals,
    Replay,
}

/// All jobs.
pub const JOBS: [Job; 7] = [
    Job::Jit,
    Job::Load,
    Job::Judge,
    Job::Faults,
    Job::Lines,
    Job::Refusals,
    Job::Replay,
];

impl Job {
    /// The job's name.
    pub fn name(self) -> &'static str {
        match self {
            Job::Jit => "jit",
            Job::Load => "load",
            Job::Judge => "judge",
            Job::Faults => "faults",
            Job::Lines => "lines",
            Job::Refusals => "refusals",
            Job::Replay => "replay",
        }
    }
}

/// What is done.
#[derive(Clone, Copy, Drop)]
pub enum Work {
    /// Each job.
    Each,
    /// One job.
    One(Job),
    /// The instructions of a file of code are named.
    Names,
}

/// What is asked for; the seed of its input, or the address of the code; how much there is of it; and the file of pieces, or of
/// code.
#[derive(Clone, Copy, Drop)]
pub struct Ask<'a> {
    pub work: Work,
    pub seed: u32,
    pub count: u32,
    pub file: &'a str,
}

/// A word that must be given.
macro_rules! word {
    ($name:literal, $parser:expr, $help:literal) => {
        Word {
            name: $name,
            is_option: false,
            action: ArgAction::Set,
            value_names: &[],
            parser: $parser,
            defaults: &[],
            is_required: true,
            conflicts: &[],
            help: $help,
        }
    };
}

/// The parser of a job's name.
const JOB: ValueParser<'static> = ValueParser::Names(&[
    "jit", "load", "judge", "faults", "lines", "refusals", "replay", "each", "names",
]);

/// The program.
#[rattlefmt::skip]
static PROGRAM: Program = Program {
    usage: Usage {
        name: "nc_jobs",
        about: "Do a job on an input that a seed makes, and print a digest of its results",
        words: &[
            word!("JOB", JOB, "Name of the job, or each; or names, which names the instructions of code"),
            word!("SEED", ValueParser::Signed(0, u32::MAX as i64), "Seed of the input, or address of the code"),
            word!("COUNT", ValueParser::Signed(1, u32::MAX as i64), "Number of turns, files or texts"),
            word!("FILE", ValueParser::String, "File of pieces of compiled code, or of the code to be named"),
        ],
    },
    subcommands: &[],
};

/// Reads the words of a command line, without the program's own name.
pub fn matches<'a>(alloc: Global, words: &'a [&'a str]) -> Result<ArgMatches<'a>, Error> {
    nc_cli::matches(alloc, &PROGRAM, words)
}

/// The job of this name, if there is one.
fn named(name: &str) -> Option<Job> {
    match name {
        "jit" => Some(Job::Jit),
        "load" => Some(Job::Load),
        "judge" => Some(Job::Judge),
        "faults" => Some(Job::Faults),
        "lines" => Some(Job::Lines),
        "refusals" => Some(Job::Refusals),
        "replay" => Some(Job::Replay),
        _ => None,
    }
}

/// The work of this name.
fn work_named(name: &str) -> Work {
    match named(name) {
        Some(job) => Work::One(job),
        None if name == "names" => Work::Names,
        None => Work::Each,
    }
}

/// What is asked for.
pub fn asked<'a>(found: &ArgMatches<'a>) -> Ask<'a> {
    Ask {
        work: work_named(found.get_str("JOB").unwrap_or("")),
        seed: found.get_one::<u32>("SEED").unwrap_or(0),
        count: found.get_one::<u32>("COUNT").unwrap_or(1),
        file: found.get_str("FILE").unwrap_or(""),
    }
}
