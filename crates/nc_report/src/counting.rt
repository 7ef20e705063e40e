//! The number of instructions in a valid chunk.

ghost use Rattle.std.specs.Prelude.{◌≡◌, ◌<◌, ◌≤◌, ◌^◌, length};
ghost use Rattle.std.specs.List.{sum_by};
ghost use Rattle.nc_report.specs.machinery.Found.{HasInstructions};
ghost use Rattle.nc_report.specs.machinery.Counts.{count_mark, begun_in};

use nc_decode::BUNDLE;
use nc_vet::{Bundle, Mark, Vetted};

/// The number of instructions that begin in a bundle.
#[inline(always)]
fn begun(bundle: Bundle) -> usize
    ensures value { result ≡ begun_in bundle }
    ensures small { result ≤ 32 }
{
    ((bundle.ends << 1) | 1 | (bundle.pairs >> 1)).count_ones() as usize
}

/// The number of instructions that begin in some bundles.
fn count_bits(bundles: &[Bundle]) -> usize
    requires { length bundles.now < 2 ^ 58 }
    ensures { result ≡ sum_by begun_in bundles.now }
{
    let mut count = 0;
    for bundle in bundles {
        count += begun(*bundle);
    }
    count
}

/// 1 for a marked place, and 0 for an unmarked one.
fn count_mark(mark: Mark) -> usize
    ensures value { result ≡ count_mark mark }
    ensures small { result ≤ 1 }
{
    match mark {
        Mark::Unmarked => 0,
        Mark::Plain => 1,
        Mark::After(_) => 1,
    }
}

/// The number of marked places of a chunk.
fn count_marks(chunk: &Vetted) -> usize
    ensures { result ≡ sum_by count_mark chunk.now.marks }
{
    let length = chunk.code().len();
    let mut count = 0;
    for i in 0..length {
        count += count_mark(chunk.mark(i));
    }
    count
}

/// The number of instructions in a chunk.
pub(crate) fn count_instructions(chunk: &Vetted) -> usize
    ensures { HasInstructions chunk.now.code result }
{
    let length = chunk.code().len();
    match chunk.bundles() {
        Some(bundles) if BUNDLE as usize * bundles.len() == length => count_bits(bundles),
        _ => count_marks(chunk),
    }
}
