//! The meaning of the words of the command line.

use crate::code::{Kind, Source};
use crate::load::Load;
use crate::order::Order;
use crate::plan::{Churn, Out};
use crate::reclaim::Share;
use crate::workers::Jobs;
use clap::ArgMatches;
use std::alloc::{AllocError, Global};
use std::io;

/// The measurement that is asked for.
#[derive(Drop)]
pub enum Ask<'a> {
    /// Vetting by one thread, of the source and of these further files for the same address.
    Vet(Source<'a>, Vec<&'a str>),
    /// Vetting by this number of workers, or by several numbers of them in turn.
    Workers(Jobs, Option<u32>),
    /// The calls of a region.
    Chunks(Load),
    /// One reclaim of a share of the chunks.
    Reclaim(Share),
    /// Reclaims that free nothing, among this number of retired chunks.
    Idle(u32),
    /// Creations, deletions and reclaims by turns.
    Churn(Churn),
    /// Looking up the chunks of a region.
    Lookups(Load),
    /// This number of check-ins.
    CheckIn(u32),
}

/// The number that a word gives, or 1 if the word isn't there.
fn number(found: &ArgMatches<'_>, name: &str) -> u32 {
    found.get_one::<u32>(name).unwrap_or(1)
}

/// The text of a word, empty if the word isn't there.
fn text<'a>(found: &ArgMatches<'a>, name: &str) -> &'a str {
    found.get_str(name).unwrap_or("")
}

/// The kind of code that is asked for.
fn kind(found: &ArgMatches<'_>) -> Kind {
    match text(found, "KIND") {
        "stuck" => Kind::Stuck,
        "astray" => Kind::Astray,
        _ => Kind::Accepted,
    }
}

/// The code that is asked for.
fn source<'a>(found: &ArgMatches<'a>) -> io::Result<Source<'a>> {
    let Ok(base) = u32::from_str_radix(text(found, "ADDRESS"), 16) else {
        return Err(io::Error::from(io::ErrorKind::InvalidInput));
    };
    Ok(Source {
        path: text(found, "FILE"),
        base,
        kind: kind(found),
        bundles: found.get_one("BUNDLES"),
    })
}

/// The further files that are asked for.
fn also<'a>(alloc: Global, found: &ArgMatches<'a>) -> Result<Vec<&'a str>, AllocError> {
    found.get_strs("also").unwrap_or(&[]).to_vec(alloc)
}

/// The order of creations that is asked for.
fn order(found: &ArgMatches<'_>) -> Order {
    match text(found, "ORDER") {
        "descending" => Order::Descending,
        "scattered" => Order::Scattered,
        "random" => Order::Random,
        _ => Order::Ascending,
    }
}

/// The chunks that are asked for; each number that no word gives is 1.
fn load(found: &ArgMatches<'_>) -> Load {
    Load {
        count: number(found, "COUNT"),
        bundles: number(found, "BUNDLES"),
        order: order(found),
    }
}

/// The share of chunks that is asked for.
fn share(found: &ArgMatches<'_>) -> Share {
    Share {
        count: number(found, "COUNT"),
        of: number(found, "SHARE"),
    }
}

/// The order of deletions that is asked for.
fn out(found: &ArgMatches<'_>) -> Out {
    match text(found, "OUT") {
        "last" => Out::Last,
        "random" => Out::Random,
        _ => Out::First,
    }
}

/// The turns that are asked for.
fn churn(found: &ArgMatches<'_>) -> Churn {
    Churn {
        count: number(found, "COUNT"),
        turns: number(found, "TURNS"),
        batch: number(found, "BATCH"),
        out: out(found),
    }
}

/// The jobs that are asked for.
fn jobs(found: &ArgMatches<'_>) -> Jobs {
    Jobs {
        count: number(found, "JOBS"),
        bundles: number(found, "BUNDLES"),
    }
}

/// The measurement of this name that is asked for.
fn named<'a>(alloc: Global, name: &str, found: &ArgMatches<'a>) -> io::Result<Ask<'a>> {
    match name {
        "vet" => Ok(Ask::Vet(source(found)?, also(alloc, found)?)),
        "workers" => Ok(Ask::Workers(jobs(found), found.get_one("WORKERS"))),
        "chunks" => Ok(Ask::Chunks(load(found))),
        "reclaim" => Ok(Ask::Reclaim(share(found))),
        "idle" => Ok(Ask::Idle(number(found, "COUNT"))),
        "churn" => Ok(Ask::Churn(churn(found))),
        "lookups" => Ok(Ask::Lookups(load(found))),
        _ => Ok(Ask::CheckIn(number(found, "TIMES"))),
    }
}

/// The measurement that is asked for, and its number of rounds. The parser requires that there is one.
pub fn asked<'a>(alloc: Global, found: &ArgMatches<'a>) -> io::Result<(Ask<'a>, u32)> {
    match found.subcommand() {
        Some((name, found)) => Ok((named(alloc, name, found)?, number(found, "ROUNDS"))),
        None => Err(io::Error::from(io::ErrorKind::InvalidInput)),
    }
}
