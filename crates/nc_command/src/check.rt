//! The command line of `nc_check`, and the request that its words make.

ghost use Rattle.std.specs.Prelude.{◌≡◌, ◌≤◌, ℕ, List, IfOk, IfSome, Some, length};
ghost use Rattle.std.specs.Str.Parse.{IsNumeral};
ghost use Rattle.nc_command.specs.Checking.{EndsInDigits, SpellsBase, IsCheckInRange};

use crate::options::{BUNDLES, WORKERS, number};
use clap::builder::ValueParser;
use clap::error::ErrorKind;
use clap::{ArgAction, ArgMatches, Error};
use nc_cli::{FLAG, OPTION, Program, Usage, Word, command_words, fault, matches};
use nc_decode::MAX_BUNDLES;
use nc_files::Request;
use nc_output::{Detail, Format, Style};
use std::alloc::{AllocError, Global};
use std::rt::Env;

/// The program `nc_check`.
#[rattlefmt::skip]
static CHECK: Program = Program {
    usage: Usage {
        name: "nc_check",
        about: "Judge files of 32-bit x86 code for a region of untrusted code",
        words: &[
            Word {
                name: "base",
                value_names: &["ADDRESS"],
                defaults: &["00010000"],
                help: "Address of a raw file's first byte, 1 to 8 hexadecimal digits",
                ..OPTION
            },
            Word {
                name: "raw",
                help: "Judge each file as raw code, even one that begins as ELF files do",
                ..FLAG
            },
            Word { defaults: &["2097152"], ..BUNDLES },
            WORKERS,
            Word {
                name: "quiet",
                help: "Write only one line for each file that is refused",
                ..FLAG
            },
            Word {
                name: "all",
                conflicts: &["quiet"],
                help: "Also write each further fault, and the number of faults",
                ..FLAG
            },
            Word {
                name: "calls",
                conflicts: &["quiet", "all"],
                help: "Also write the outside addresses that an accepted file jumps to or calls; 00000000 stands for unresolved symbols",
                ..FLAG
            },
            Word {
                name: "format",
                value_names: &["FORMAT"],
                parser: ValueParser::Names(&["text", "json"]),
                defaults: &["text"],
                help: "Form of the verdicts",
                ..OPTION
            },
            Word {
                name: "files",
                is_option: false,
                action: ArgAction::Append,
                value_names: &["FILE"],
                is_required: true,
                help: "ELF files and files of raw code; `-` is standard input",
                ..OPTION
            },
        ],
    },
    subcommands: &[],
};

/// The program. Only this function names its table, so the proofs of its callers don't go through the table.
fn program() -> &'static Program {
    &CHECK
}

/// A text without the prefix `0x` or `0X`, if it has one.
fn without_prefix(text: &str) -> &str
    ensures is { EndsInDigits text.now result.now }
    ensures only { (digits : List ℕ) → EndsInDigits text.now digits → IsNumeral 16 digits → result.now ≡ digits }
{
    match text.strip_prefix("0x") {
        Some(digits) => digits,
        None => text.strip_prefix("0X").unwrap_or(text),
    }
}

/// The address that a text denotes: 1 to 8 hexadecimal digits, with or without the prefix `0x` or `0X`.
fn base_of(text: &str) -> Option<u32>
    ensures spelled { IfSome result (SpellsBase text.now) }
    ensures only { (base : ℕ) → SpellsBase text.now base → result ≡ Some base }
{
    let digits = without_prefix(text);
    if digits.len() > 8 || digits.starts_with('+') {
        return None;
    }
    u32::from_str_radix(digits, 16).ok()
}

/// A fault of the words that the parser doesn't find.
fn refusal(alloc: Global, message: &str) -> Error {
    fault(alloc, program(), ErrorKind::InvalidValue, message)
}

/// The fault with this message, or lack of memory if there was none for the message.
fn refusal_by(alloc: Global, message: Result<String, AllocError>) -> Error {
    match message {
        Ok(message) => refusal(alloc, message.as_str()),
        Err(error) => Error::from(error),
    }
}

/// How much is to be written about a file.
fn detail_asked(found: &ArgMatches<'_>) -> Detail {
    if found.get_flag("quiet") {
        Detail::Brief
    } else if found.get_flag("all") {
        Detail::All
    } else if found.get_flag("calls") {
        Detail::Calls
    } else {
        Detail::Usual
    }
}

/// The form in which it is to be written.
fn format_asked(found: &ArgMatches<'_>) -> Format {
    if found.get_str("format") == Some("json") {
        Format::Json
    } else {
        Format::Text
    }
}

/// The address that is asked for.
fn base_asked(alloc: Global, found: &ArgMatches<'_>) -> Result<u32, Error> {
    let text = found.get_str("base").unwrap_or("00010000");
    if let Some(base) = base_of(text) {
        return Ok(base);
    }
    let message = format!(in alloc;
        "invalid value '{text}' for '--base <ADDRESS>': not 1 to 8 hexadecimal digits"
    );
    Err(refusal_by(alloc, message))
}

/// The files that are named, at least one.
fn files_asked<'a>(alloc: Global, found: &ArgMatches<'a>) -> Result<Vec<&'a str>, Error>
    ensures { IfOk result (λ files. 1 ≤ length files.items) }
{
    let files = found.get_strs("files").unwrap_or(&[]);
    if files.is_empty() {
        // this can't happen: the parser requires a file
        return Err(refusal(alloc, "a file is missing"));
    }
    Ok(files.to_vec(alloc)?)
}

/// The request that the matches of a command line of `nc_check` make.
fn request_in<'a>(alloc: Global, found: &ArgMatches<'a>) -> Result<Request<'a>, Error>
    ensures { IfOk result IsCheckInRange }
{
    let base = base_asked(alloc, found)?;
    let style = Style {
        detail: detail_asked(found),
        format: format_asked(found),
    };
    let files = files_asked(alloc, found)?;
    Ok(Request {
        base,
        raw: found.get_flag("raw"),
        bundles: number(found, "bundles", 2, MAX_BUNDLES),
        workers: number(found, "workers", 1, 16),
        style,
        files,
    })
}

/// Reads the words of a command line of `nc_check`, which don't begin with the program's own name. Returns the request that they
/// make, or else a fault of the words, a wish for help or the version, or lack of memory.
pub fn ask_check<'a>(alloc: Global, words: &'a [&'a str]) -> Result<Request<'a>, Error>
    // The numbers are in the ranges of the options, and there is a file.
    ensures { IfOk result IsCheckInRange }
{
    let found = matches(alloc, program(), words)?;
    let request = request_in(alloc, &found);
    drop(found);
    request
}

/// The words of the command line of `nc_check`, the program's own name first. If there is no memory for them, the fault has
/// the kind `OutOfMemory`.
pub fn check_words<R: Env + AllocGlobal>(rt: &R) -> Result<Vec<String>, Error> {
    command_words(rt, program())
}
