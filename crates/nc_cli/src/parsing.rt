//! Command lines that tables describe: built and parsed by `clap`, over the words that the system gives.

ghost use Rattle.std.specs.Prelude.{◌≡◌, IfOk, map, drop, string_bytes};

use crate::table::{Program, Usage, Word};
use clap::error::ErrorKind;
use clap::{Arg, ArgMatches, Command, Error};
use std::alloc::{AllocError, Global};
use std::env::{self, FillError};
use std::io;
use std::rt::Env;

/// The version of all programs.
const VERSION: &str = "0.1.0";

/// The most bytes of a word that are shown if it is no text.
const MOST_SHOWN: usize = 4096;

/// A row of a table, which describes a part of a command line.
trait Row<T> {
    /// The part that the row describes.
    fn part(&self, alloc: Global) -> Result<T, AllocError>;
}

impl<'a> Row<Arg<'a>> for Word {
    fn part(&self, alloc: Global) -> Result<Arg<'a>, AllocError> {
        let argument = Arg::new(alloc, self.name)
            .help(self.help)
            .action(self.action)
            .value_names(self.value_names)
            .value_parser(self.parser)
            .default_values(self.defaults)
            .required(self.is_required);
        let argument = if self.is_option {
            argument.long(self.name)
        } else {
            argument
        };
        argument.conflicts_with_all(self.conflicts)
    }
}

impl<'a> Row<Command<'a>> for Usage {
    fn part(&self, alloc: Global) -> Result<Command<'a>, AllocError> {
        let words = parts(alloc, self.words)?;
        Command::new(alloc, self.name).about(self.about).args(words)
    }
}

/// The parts that the rows of a table describe. The proof of a loop over parts of any type takes a fraction of the time that
/// one over the types of `clap` takes.
fn parts<T: Drop, W: Row<T>>(alloc: Global, rows: &[W]) -> Result<Vec<T>, AllocError> {
    let mut parts = Vec::new(alloc);
    for row in rows {
        parts.push(row.part(alloc)?)?;
    }
    Ok(parts)
}

/// Two parts, if both were made.
fn both<S: Drop, T: Drop>(
    one: Result<S, AllocError>,
    other: Result<T, AllocError>,
) -> Result<(S, T), AllocError> {
    Ok((one?, other?))
}

/// A command line that has all its parts, with the program's version and name, for words without the program's own name.
fn named<'a>(command: Command<'a>, program: &Program) -> Result<Command<'a>, AllocError> {
    command
        .version(VERSION)
        .no_binary_name(true)
        .subcommand_required(!program.subcommands.is_empty())
        .bin_name(program.usage.name)
}

/// The whole command line of a program.
fn command<'a>(alloc: Global, program: &Program) -> Result<Command<'a>, AllocError> {
    let subcommands = parts(alloc, program.subcommands);
    let (usage, subcommands) = both(program.usage.part(alloc), subcommands)?;
    named(usage.subcommands(subcommands)?, program)
}

/// The matches of the words of a command line.
pub fn matches<'a>(
    alloc: Global,
    program: &Program,
    words: &'a [&'a str],
) -> Result<ArgMatches<'a>, Error> {
    match command(alloc, program) {
        Ok(command) => command.try_get_matches_from(words),
        Err(error) => Err(Error::from(error)),
    }
}

/// A fault of words for this command line, or lack of memory if there is none for the fault.
fn fault_by(command: &mut Command<'_>, kind: ErrorKind, message: &str) -> Error {
    match command.error(kind, message) {
        Ok(error) => error,
        Err(error) => Error::from(error),
    }
}

/// A fault of a command line, or lack of memory if there is none for the fault.
pub fn fault(alloc: Global, program: &Program, kind: ErrorKind, message: &str) -> Error {
    match command(alloc, program) {
        Ok(mut command) => fault_by(&mut command, kind, message),
        Err(error) => Error::from(error),
    }
}

/// The first word that is no text, with escapes for other bytes than those of printable ASCII. None is found if it has more than
/// [`MOST_SHOWN`] bytes.
fn first_no_text<R: Env + AllocGlobal>(rt: &R) -> Result<Option<String>, AllocError> {
    let mut word = [0u8; MOST_SHOWN];
    for number in 0..usize::MAX {
        match rt.arg(number, &mut word) {
            Ok(len) if str::from_utf8(&word[..len]).is_err() => {
                return Ok(Some(format!(in rt.alloc(); "{}", word[..len].escape_ascii())?));
            }
            Ok(_) | Err(FillError::TooLong) => {}
            Err(FillError::NotPresent) => return Ok(None),
        }
    }
    Ok(None)
}

/// The refusal of words of which one is no text.
fn refusal_of_no_text<R: Env + AllocGlobal>(
    rt: &R,
    program: &Program,
) -> Result<Error, AllocError> {
    let message = match first_no_text(rt)? {
        Some(word) => format!(in rt.alloc(); "the word '{word}' is not valid UTF-8 text")?,
        None => format!(in rt.alloc(); "a word is not valid UTF-8 text")?,
    };
    Ok(fault(
        rt.alloc(),
        program,
        ErrorKind::InvalidValue,
        message.as_str(),
    ))
}

/// The words of the command line, the program's own name first. If there is no memory for them, the fault has the kind
/// `OutOfMemory`.
pub fn command_words<R: Env + AllocGlobal>(
    rt: &R,
    program: &Program,
) -> Result<Vec<String>, Error> {
    match env::args(rt) {
        Ok(words) => match words.collect::<Vec<String>>(rt.alloc()) {
            Ok(words) => Ok(words),
            Err(error) => Err(Error::from(error)),
        },
        Err(error) if error.kind() == io::ErrorKind::OutOfMemory => Err(Error::from(AllocError)),
        Err(_) => match refusal_of_no_text(rt, program) {
            Ok(error) => Err(error),
            Err(error) => Err(Error::from(error)),
        },
    }
}

/// The texts of words.
fn texts_of<'a>(alloc: Global, words: &'a [String]) -> Result<Vec<&'a str>, AllocError>
    ensures { IfOk result (λ texts. map (λ text. text.now) texts.items ≡ map string_bytes words.now) }
{
    let mut texts = Vec::new(alloc);
    for word in words {
        texts.push(word.as_str())?;
    }
    Ok(texts)
}

/// The words after the program's own name.
pub fn arguments<'a>(alloc: Global, words: &'a [String]) -> Result<Vec<&'a str>, AllocError>
    ensures { IfOk result (λ texts. map (λ text. text.now) texts.items ≡ map string_bytes (drop 1 words.now)) }
{
    match words.split_first() {
        Some((_, rest)) => texts_of(alloc, rest),
        None => texts_of(alloc, words),
    }
}
