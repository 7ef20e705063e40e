//! The last lines about a refused chunk: the number of its faults, and whether the code is in bundles.

ghost use Rattle.std.specs.Prelude.{false, ◌≡◌, ◌<◌, ◌≤◌, ◌+◌, ◌/◌, ◌^◌, ◌++◌, Bool, if◌then◌else◌, ◌==◌, codes, length, map, List, ℕ, OnOk};
ghost use Rattle.std.specs.Fmt.{decimal};
ghost use Rattle.nc_output.specs.Shown.{detail_line};
ghost use Rattle.nc_report.specs.Report.{about_all, Shows, counts_text};
ghost use Rattle.nc_report.specs.Totals.{total, kinds_from, totals_line};
ghost use Rattle.nc_output.specs.Adds.{Adds};
ghost use Rattle.nc_report.specs.machinery.CountedFault.{counted, kind_words};

use crate::further::{class_at, is_begun};
use crate::numbers::{choose, push_all, push_text};
use crate::saying::push_said;
use nc_decode::BUNDLE;
use nc_output::Format;
use nc_reading::Class;
use nc_vet::VetFault;
use std::alloc::{AllocError, Global};

/// The number of faults of each kind.
#[derive(Clone, Copy)]
pub(crate) struct Counts {
    pub crosses: usize,
    pub not_permitted: usize,
    pub bare: usize,
    pub bad_target: usize,
}

/// No faults.
pub(crate) const NO_FAULTS: Counts = Counts {
    crosses: 0,
    not_permitted: 0,
    bare: 0,
    bad_target: 0,
};

/// The counts with one more for the kind of this fault, if there is one.
pub(crate) fn counted(counts: Counts, found: Option<VetFault>) -> Counts
    requires { total counts < 2 ^ 63 }
    ensures { result ≡ counted counts found }
{
    let mut counts = counts;
    match found {
        Some(VetFault::Crosses { .. }) => counts.crosses += 1,
        Some(VetFault::NotPermitted { .. }) => counts.not_permitted += 1,
        Some(VetFault::Bare { .. }) => counts.bare += 1,
        Some(VetFault::BadTarget { .. }) => counts.bad_target += 1,
        _ => {}
    }
    counts
}

/// 1 for a bundle that begins inside an instruction, otherwise 0.
fn count_start(is_inside: bool) -> usize
    ensures { result ≤ 1 }
{
    if is_inside { 1 } else { 0 }
}

/// The number of bundles that begin inside an instruction.
fn count_inside(classes: &[Class]) -> usize
    ensures { result ≤ length classes.now / 32 }
{
    let mut inside = 0;
    for n in 0..classes.len() / BUNDLE as usize {
        inside += count_start(!is_begun(class_at(classes, BUNDLE as usize * n)));
    }
    inside
}

/// Adds a number of faults with the name of their kind, if it isn't 0, after a comma if a kind has been written.
fn push_kind(
    out: &mut Vec<u8>,
    begun: bool,
    n: usize,
    name: &'static [u8],
) -> Result<(), AllocError>
    ensures { OnOk result (out.new.items ≡ out.old.items ++ kind_words begun n name.now) }
{
    if n == 0 {
        return Ok(());
    }
    let count = n.to_string(*out.allocator())?;
    push_all(
        out,
        &[choose(begun, b", ", b""), count.as_bytes(), b" ", name],
    )
}

/// Adds the kinds whose number isn't 0, with a comma before each but the first.
fn push_kinds(out: &mut Vec<u8>, kinds: &[(usize, &'static [u8])]) -> Result<(), AllocError>
    ensures { OnOk result (out.new.items ≡ out.old.items ++ kinds_from false (map (λ kind. (kind.0, kind.1.now)) kinds.now)) }
{
    let mut begun = false;
    for (n, name) in kinds {
        push_kind(out, begun, *n, name)?;
        begun |= *n != 0;
    }
    Ok(())
}

/// Adds the number of all faults.
fn push_total(out: &mut Vec<u8>, n: usize) -> Result<(), AllocError>
    ensures { OnOk result (out.new.items
        ≡ out.old.items ++ (codes "  " ++ (decimal n ++ (if n == 1 then codes " fault: " else codes " faults: ")))) }
{
    let total = n.to_string(*out.allocator())?;
    let faults = choose(n == 1, b" fault: ", b" faults: ");
    push_all(out, &[b"  ", total.as_bytes(), faults])
}

/// Adds the line of totals.
fn push_totals(out: &mut Vec<u8>, counts: Counts) -> Result<(), AllocError>
    requires { total counts < 2 ^ 63 }
    ensures { OnOk result (out.new.items ≡ out.old.items ++ detail_line (totals_line counts)) }
{
    let n = counts.crosses + counts.not_permitted + counts.bare + counts.bad_target;
    push_total(out, n)?;
    push_kinds(
        out,
        &[
            (counts.crosses, b"Crosses"),
            (counts.not_permitted, b"NotPermitted"),
            (counts.bare, b"Bare"),
            (counts.bad_target, b"BadTarget"),
        ],
    )?;
    push_text(out, b"\n")
}

/// Adds the member with the number of faults of each kind, after the end of the array of faults.
fn push_members(out: &mut Vec<u8>, counts: Counts) -> Result<(), AllocError>
    ensures { OnOk result (out.new.items ≡ out.old.items ++ counts_text Format.Json counts) }
{
    let Counts {
        crosses,
        not_permitted,
        bare,
        bad_target,
    } = counts;
    let first = format!(in *out.allocator(); "{crosses},\"NotPermitted\":{not_permitted}")?;
    let second = format!(in *out.allocator(); "{bare},\"BadTarget\":{bad_target}")?;
    push_all(
        out,
        &[
            b"],\"counts\":{\"Crosses\":",
            first.as_bytes(),
            b",\"Bare\":",
            second.as_bytes(),
            b"}",
        ],
    )
}

/// Adds the numbers of faults.
fn push_counts(out: &mut Vec<u8>, counts: Counts, format: Format) -> Result<(), AllocError>
    requires { total counts < 2 ^ 63 }
    ensures { OnOk result (out.new.items ≡ out.old.items ++ counts_text format counts) }
{
    match format {
        Format::Text => push_totals(out, counts),
        Format::Json => push_members(out, counts),
    }
}

/// The words about code that isn't in bundles, since this many of its bundles begin inside an instruction.
fn adrift_words(alloc: Global, inside: usize, bundles: usize) -> Result<String, AllocError> {
    format!(in alloc;
        "the code isn't in bundles: {inside} of {bundles} bundle starts lie inside an instruction; compile with nc-cc, or assemble with .bundle_align_mode 5; see docs/GUIDE.md"
    )
}

/// Adds that this many of the bundles begin inside an instruction, so the code isn't in bundles.
fn push_adrift(
    out: &mut Vec<u8>,
    inside: usize,
    bundles: usize,
    format: Format,
) -> Result<(), AllocError>
    ensures { OnOk result (Adds out.old.items out.new.items (Shows about_all format)) }
{
    let words = adrift_words(*out.allocator(), inside, bundles)?;
    push_said(out, b"note", words.as_bytes(), format)
}

/// Adds whether the code is in bundles, if more than half of them begin inside an instruction.
fn push_note(out: &mut Vec<u8>, classes: &[Class], format: Format) -> Result<(), AllocError>
    ensures { OnOk result (Adds out.old.items out.new.items (Shows about_all format)) }
{
    let bundles = classes.len() / BUNDLE as usize;
    let inside = count_inside(classes);
    if inside <= bundles / 2 {
        return Ok(());
    }
    push_adrift(out, inside, bundles, format)
}

/// Adds the last of what is shown: the totals, and whether the code is in bundles.
pub(crate) fn push_last(
    out: &mut Vec<u8>,
    counts: Counts,
    classes: &[Class],
    format: Format,
) -> Result<(), AllocError>
    requires { total counts < 2 ^ 63 }
    ensures { OnOk result ((last : List ℕ) × Shows about_all format last
        × (out.new.items ≡ out.old.items ++ (counts_text format counts ++ last))) }
{
    push_counts(out, counts, format)?;
    push_note(out, classes, format)
}
