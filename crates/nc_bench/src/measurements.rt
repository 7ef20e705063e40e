//! The measurements, and the words that each takes on the command line.

use clap::builder::ValueParser;
use clap::{ArgAction, ArgMatches, Error};
use nc_cli::{Program, Usage, Word};
use std::alloc::Global;

/// The parser of a number from 1 on.
const NUMBER: ValueParser<'static> = ValueParser::Signed(1, u32::MAX as i64);

/// The parser of a number from 0 on.
const ANY_NUMBER: ValueParser<'static> = ValueParser::Signed(0, u32::MAX as i64);

/// The parser of any text.
const TEXT: ValueParser<'static> = ValueParser::String;

/// The parser of a kind of code.
const KIND: ValueParser<'static> = ValueParser::Names(&["accepted", "stuck", "astray"]);

/// The parser of an order of creations.
const ORDER: ValueParser<'static> = ValueParser::Names(&[
    "ascending",
    "descending",
    "scattered",
    "random",
]);

/// The parser of an order of deletions.
const OUT: ValueParser<'static> = ValueParser::Names(&["first", "last", "random"]);

/// A word that must be given, or one that may be left out.
macro_rules! word {
    ($is_required:expr, $name:literal, $parser:ident, $help:literal) => {
        Word {
            name: $name,
            is_option: false,
            action: ArgAction::Set,
            value_names: &[],
            parser: $parser,
            defaults: &[],
            is_required: $is_required,
            conflicts: &[],
            help: $help,
        }
    };
}

/// The number of rounds.
const ROUNDS: Word = word!(
    true,
    "ROUNDS",
    NUMBER,
    "Number of rounds, of which the best is printed"
);

/// The number of chunks.
const COUNT: Word = word!(true, "COUNT", NUMBER, "Number of chunks");

/// The order of creations.
const CREATIONS: Word = word!(
    false,
    "ORDER",
    ORDER,
    "Order of the bases in which the chunks are created [default: ascending]"
);

/// The program, with a subcommand for each measurement.
#[rattlefmt::skip]
static BENCH: Program = Program {
    usage: Usage {
        name: "nc_bench",
        about: "Time vetting and the calls of a region",
        words: &[],
    },
    subcommands: &[
        Usage {
            name: "vet",
            about: "Time vetting by one thread, on the code of a file, or of several in turn",
            words: &[
                word!(true, "FILE", TEXT, "File of raw code"),
                word!(true, "ADDRESS", TEXT, "Address of its first byte, in hexadecimal"),
                ROUNDS,
                word!(false, "KIND", KIND, "Verdict: accepted, or refused at the end for a byte or a target [default: accepted]"),
                word!(false, "BUNDLES", NUMBER, "Number of bundles, each file's first [default: all]"),
                Word {
                    is_option: true,
                    action: ArgAction::Append,
                    value_names: &["FILE"],
                    ..word!(false, "also", TEXT, "Further file for the same address, vetted in turn with the others")
                },
            ],
        },
        Usage {
            name: "workers",
            about: "Time vetting by several threads, on jobs of different sizes",
            words: &[
                word!(true, "JOBS", NUMBER, "Number of jobs"),
                word!(true, "BUNDLES", NUMBER, "Most bundles of a job"),
                ROUNDS,
                word!(false, "WORKERS", NUMBER, "Number of threads [default: 1, 2, 3, 4, 8 and 16 in turn]"),
            ],
        },
        Usage {
            name: "chunks",
            about: "Time creating, patching, deleting and reclaiming chunks in a new region",
            words: &[
                COUNT,
                word!(true, "BUNDLES", NUMBER, "Bundles of a chunk"),
                ROUNDS,
                CREATIONS,
            ],
        },
        Usage {
            name: "reclaim",
            about: "Time one reclaim among chunks of one bundle, of which some are due",
            words: &[
                COUNT,
                word!(true, "SHARE", NUMBER, "Number of chunks of which one is due"),
                ROUNDS,
            ],
        },
        Usage {
            name: "idle",
            about: "Time reclaims that free nothing, among retired chunks and without a chunk",
            words: &[word!(true, "COUNT", NUMBER, "Number of retired chunks"), ROUNDS],
        },
        Usage {
            name: "churn",
            about: "Time turns of a creation, a deletion and a reclaim among live chunks of one bundle",
            words: &[
                word!(true, "COUNT", ANY_NUMBER, "Number of live chunks between turns"),
                word!(true, "TURNS", NUMBER, "Turns of a round"),
                ROUNDS,
                word!(false, "OUT", OUT, "Chunk that is deleted: the first in, the last in, or the first in where places are taken in random order [default: first]"),
                word!(false, "BATCH", NUMBER, "Creations of a turn, and deletions before its reclaim [default: 1]"),
            ],
        },
        Usage {
            name: "lookups",
            about: "Time looking up each chunk of a region, by its index and by its address",
            words: &[COUNT, ROUNDS, CREATIONS],
        },
        Usage {
            name: "checkin",
            about: "Time check-ins, and as many bare loads and stores of atomic words",
            words: &[word!(true, "TIMES", NUMBER, "Check-ins of a round"), ROUNDS],
        },
    ],
};

/// The words that are read in place of a command line without any.
static HELP: [&str; 1] = ["--help"];

/// Reads the words of a command line, without the program's own name. If there are none, the error is the help.
pub fn matches<'a>(alloc: Global, words: &'a [&'a str]) -> Result<ArgMatches<'a>, Error> {
    let words = if words.is_empty() {
        HELP.as_slice()
    } else {
        words
    };
    nc_cli::matches(alloc, &BENCH, words)
}
