//! The command line of `nc_replay`.

ghost use Rattle.std.specs.Prelude.{◌≡◌, IfOk, IfSome};
ghost use Rattle.nc_command.specs.Range.{AsksInRange};

use crate::carrying::{Ask, ReplayRequest};
use crate::options::{BUNDLES, WORKERS, number};
use clap::builder::ValueParser;
use clap::error::ErrorKind;
use clap::{ArgMatches, Error};
use nc_cli::{FLAG, OPTION, Program, Usage, Word, command_words, fault, matches};
use nc_decode::MAX_BUNDLES;
use nc_gens::MOST_SEATS;
use std::alloc::Global;
use std::rt::Env;

/// The option for the size of the region, with its value.
const SMALL: Word = Word {
    defaults: &["2048"],
    ..BUNDLES
};

/// The option for the number of seats.
const SEATS: Word = Word {
    name: "seats",
    value_names: &["N"],
    parser: ValueParser::Signed(1, MOST_SEATS as i64),
    defaults: &["4"],
    help: "Number of seats for threads, from 1 to 256",
    ..OPTION
};

/// The flag by which `chunk` lines are taken.
const QUERIES: Word = Word {
    name: "queries",
    help: "Also answer `chunk <address>`, which shows one chunk",
    ..FLAG
};

/// The flag by which bad lines and refusals are explained.
const EXPLAIN: Word = Word {
    name: "explain",
    help: "Explain each bad line and each refusal on standard error",
    ..FLAG
};

/// The flag by which a bad line is a failure.
const STRICT: Word = Word {
    name: "strict",
    help: "End with status 1 if a line was bad",
    ..FLAG
};

/// The program, before it has subcommands.
const USAGE: Usage = Usage {
    name: "nc_replay",
    about: "Run a script on a code region, or vet chunks of 32-bit x86 code",
    words: &[],
};

/// The subcommand that runs a script, with the options of its work alone.
const SCRIPT: Usage = Usage {
    name: "replay",
    about: "Run a script from standard input and write one reply line for each of its lines",
    words: &[SMALL, SEATS],
};

/// The subcommand that vets chunks, with the options of its work alone.
const CHUNKS: Usage = Usage {
    name: "vet",
    about: "Vet the chunks on standard input, one `<address> <bytes>` a line, and write one verdict for each",
    words: &[SMALL, WORKERS],
};

/// The command line of the work alone.
static WORK: Program = Program {
    usage: USAGE,
    subcommands: &[SCRIPT, CHUNKS],
};

/// The command line of the program `nc_replay`.
static REPLAY: Program = Program {
    usage: USAGE,
    subcommands: &[
        Usage {
            words: &[SMALL, SEATS, QUERIES, EXPLAIN, STRICT],
            ..SCRIPT
        },
        Usage {
            words: &[SMALL, WORKERS, EXPLAIN, STRICT],
            ..CHUNKS
        },
    ],
};

/// The command line of the work alone. Only this function names its table, so the proofs of its callers don't go through the table.
fn work() -> &'static Program {
    &WORK
}

/// The command line of the program, likewise.
fn program() -> &'static Program {
    &REPLAY
}

/// The work that a subcommand asks for.
fn work_in(found: &ArgMatches<'_>) -> Option<Ask>
    ensures { IfSome result AsksInRange }
{
    if let Some(found) = found.subcommand_matches("replay") {
        return Some(Ask::Replay {
            bundles: number(found, "bundles", 2, MAX_BUNDLES),
            seats: number(found, "seats", 1, MOST_SEATS as u32),
        });
    }
    let found = found.subcommand_matches("vet")?;
    Some(Ask::Vet {
        bundles: number(found, "bundles", 2, MAX_BUNDLES),
        workers: number(found, "workers", 1, 16),
    })
}

/// All that a subcommand asks for.
fn request_in(found: &ArgMatches<'_>) -> Option<ReplayRequest>
    ensures { IfSome result (λ request. AsksInRange request.work) }
{
    let work = work_in(found)?;
    let replay = found.subcommand_matches("replay");
    let flags = match replay {
        Some(found) => found,
        None => found.subcommand_matches("vet")?,
    };
    Some(ReplayRequest {
        work,
        queries: replay.is_some_and(|found| found.get_flag("queries")),
        explain: flags.get_flag("explain"),
        strict: flags.get_flag("strict"),
    })
}

/// Whether a word is an option whose value is the next word.
fn takes_next(word: &str) -> bool {
    word == "--bundles" || word == "--seats" || word == "--workers"
}

/// Whether a word after the subcommand is neither an option nor the value of one, as the name of a file is.
fn names_file(words: &[&str]) -> bool {
    words.windows(2).any(|pair| !takes_next(pair[0])
        && (pair[1] == "-" || !pair[1].starts_with('-')))
}

/// The refusal of words that name a file.
fn refusal_of_file(alloc: Global, program: &Program) -> Error {
    fault(
        alloc,
        program,
        ErrorKind::UnknownArgument,
        "no file can be named: the lines are read from standard input, as in `nc_replay replay < FILE`",
    )
}

/// The refusal of words that name no subcommand. The parser gives it itself.
fn refusal_of_none(alloc: Global, program: &Program) -> Error {
    fault(
        alloc,
        program,
        ErrorKind::MissingSubcommand,
        "a subcommand is missing",
    )
}

/// The refusal of words. If one of them names a file, it says where lines are read.
fn refusal(alloc: Global, program: &Program, words: &[&str], error: Error) -> Error {
    if error.kind() == ErrorKind::UnknownArgument && names_file(words) {
        return refusal_of_file(alloc, program);
    }
    error
}

/// Reads words that ask for the work of `nc_replay` alone, without the program's own name and without the flags of [`ask_replay`].
/// Returns the work, or else a fault of the words, a wish for help or the version, or lack of memory.
pub fn ask<'a>(alloc: Global, words: &'a [&'a str]) -> Result<Ask, Error>
    // The numbers are in the ranges of the options.
    ensures { IfOk result AsksInRange }
{
    let found = match matches(alloc, work(), words) {
        Ok(found) => found,
        Err(error) => return Err(refusal(alloc, work(), words, error)),
    };
    let asked = work_in(&found);
    drop(found);
    match asked {
        Some(work) => Ok(work),
        None => Err(refusal_of_none(alloc, work())),
    }
}

/// Reads the words of a command line of `nc_replay`, which don't begin with the program's own name. Returns all that they ask for,
/// or else a fault of the words, a wish for help or the version, or lack of memory.
pub fn ask_replay<'a>(alloc: Global, words: &'a [&'a str]) -> Result<ReplayRequest, Error>
    // The numbers are in the ranges of the options.
    ensures { IfOk result (λ request. AsksInRange request.work) }
{
    let found = match matches(alloc, program(), words) {
        Ok(found) => found,
        Err(error) => return Err(refusal(alloc, program(), words, error)),
    };
    let request = request_in(&found);
    drop(found);
    match request {
        Some(request) => Ok(request),
        None => Err(refusal_of_none(alloc, program())),
    }
}

/// The words of the command line of `nc_replay`, the program's own name first. If there is no memory for them, the fault has
/// the kind `OutOfMemory`.
pub fn replay_words<R: Env + AllocGlobal>(rt: &R) -> Result<Vec<String>, Error> {
    command_words(rt, program())
}
