//! Options that both programs have.

ghost use Rattle.std.specs.Prelude.{◌≤◌};

use clap::ArgMatches;
use clap::builder::ValueParser;
use nc_cli::{OPTION, Word};
use nc_decode::MAX_BUNDLES;

/// The option for the size of the region, before it has a value.
pub(crate) const BUNDLES: Word = Word {
    name: "bundles",
    value_names: &["N"],
    parser: ValueParser::Signed(2, MAX_BUNDLES as i64),
    help: "Size of the code region in 32-byte bundles, from 2 to 2097152",
    ..OPTION
};

/// The option for the number of threads.
pub(crate) const WORKERS: Word = Word {
    name: "workers",
    value_names: &["N"],
    parser: ValueParser::Signed(1, 16),
    defaults: &["4"],
    help: "Number of threads that vet, from 1 to 16",
    ..OPTION
};

/// The number of an option. The option's parser has refused every number outside the range, so this function only has to
/// return some number for the words that were refused.
pub(crate) fn number(found: &ArgMatches<'_>, name: &str, least: u32, most: u32) -> u32
    requires { least ≤ most }
    ensures least { least ≤ result }
    ensures most { result ≤ most }
{
    found
        .get_one::<u32>(name)
        .unwrap_or(least)
        .clamp(least, most)
}
