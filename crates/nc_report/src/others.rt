//! The other faults of a refused chunk, found by one reading of all of it.

ghost use Rattle.std.specs.Prelude.{◌≡◌, ◌++◌, ◌∷◌, [], ◌+◌, ◌%◌, ◌<◌, ◌^◌, ℕ, List, length, take, ◌==◌, if◌then◌else◌, IfOk, IfErr, OnOk, OnErr, option_to_list, vec_len};
ghost use Rattle.std.specs.Io.KnownBytes.{Appends};
ghost use Rattle.nc_vet.specs.Faults.{HasGoodSpan};
ghost use Rattle.nc_report.specs.Further.{others_to};
ghost use Rattle.nc_report.specs.Totals.{counts_to};
ghost use Rattle.nc_report.specs.Report.{heading, Opens, ReportsEach, ReportsOthers, HasBegun};
ghost use Rattle.nc_output.specs.Adds.{Adds};
ghost use Rattle.nc_report.specs.machinery.Added.{After, WritesOn, IsOfWriting};

use crate::explaining::push_finding;
use crate::fault::ReportFault;
use crate::finding::{Finding, finding_at};
use crate::further::{fault_at, next_fault};
use crate::judged::Judged;
use crate::labels::Labels;
use crate::numbers::push_text;
use crate::objects::push_fault_object;
use crate::totals::{Counts, NO_FAULTS, counted, push_last};
use nc_output::{Format, push_name, write_out};
use nc_reading::{Class, none_seen, read_classes};
use nc_vet::VetFault;
use std::alloc::AllocError;
use std::io::Write;

/// Text is written once it has at least this many bytes.
const PIECE: usize = 65536;

/// Adds the line that names a further fault.
fn push_heading(out: &mut Vec<u8>, fault: VetFault) -> Result<(), AllocError>
    ensures { OnOk result (out.new.items ≡ out.old.items ++ heading Format.Text fault) }
{
    push_text(out, b"  also ")?;
    push_name(out, fault)?;
    push_text(out, b"\n")
}

/// Adds the lines about a further fault.
fn push_lines(
    out: &mut Vec<u8>,
    labels: &Labels,
    fault: VetFault,
    finding: &Finding<'_>,
) -> Result<(), AllocError>
    ensures { OnOk result (Adds out.old.items out.new.items (ReportsEach Format.Text (fault ∷ []))) }
{
    push_heading(out, fault)?;
    push_finding(out, labels, finding)
}

/// Adds the text about a further fault.
fn push_also(
    out: &mut Vec<u8>,
    labels: &Labels,
    fault: VetFault,
    finding: &Finding<'_>,
    format: Format,
) -> Result<(), AllocError>
    ensures { OnOk result (Adds out.old.items out.new.items (ReportsEach format (fault ∷ []))) }
{
    match format {
        Format::Text => push_lines(out, labels, fault, finding),
        Format::Json => push_fault_object(out, b",", labels, fault, finding),
    }
}

/// The fault at a place, if it isn't the chunk's own.
fn other_than(own: usize, k: usize, found: Option<VetFault>) -> Option<VetFault>
    ensures { option_to_list result ≡ (if k == own then [] else option_to_list found) }
{
    if k == own { None } else { found }
}

/// Adds the text about a place of the code, by the fault there other than the chunk's own, if there is one.
#[inline(always)]
fn push_place(
    out: &mut Vec<u8>,
    judged: &Judged<'_>,
    classes: &[Class],
    k: usize,
    other: Option<VetFault>,
    format: Format,
) -> Result<(), AllocError>
    requires span { judged.now.base + length judged.now.code.now < 2 ^ 32 }
    requires whole { length judged.now.code.now % 32 ≡ 0 }
    requires each { length classes.now ≡ length judged.now.code.now }
    requires within { k < length judged.now.code.now }
    ensures { OnOk result (Adds out.old.items out.new.items (ReportsEach format (option_to_list other))) }
{
    match other {
        Some(fault) => {
            let finding = finding_at(judged, classes, fault, k);
            push_also(out, judged.labels, fault, &finding, format)
        }
        None => Ok(()),
    }
}

/// Writes all text in `out` and clears it, once there is at least a piece of it.
fn write_much<W: Write>(out: &mut Vec<u8>, writer: &mut W) -> Result<(), ReportFault>
    ensures ok { OnOk result ((part : List ℕ) × Appends (W.contents writer.old) (W.contents writer.new) part
        × (part ++ out.new.items ≡ out.old.items)) }
    ensures short { OnOk result (vec_len out.new < 65536) }
    ensures cut { OnErr result ((count : ℕ)
        × Appends (W.contents writer.old) (W.contents writer.new) (take count out.old.items)) }
    ensures faults { IfErr result IsOfWriting }
{
    if out.len() < PIECE {
        return Ok(());
    }
    match write_out(writer, out) {
        Ok(()) => {}
        Err(_) => return Err(ReportFault::WriteFailed),
    }
    out.clear();
    Ok(())
}

/// Writes the text about all places of the code, and returns the number of its faults of each kind. Text that isn't written
/// yet is kept in `out`.
fn write_places<W: Write>(
    out: &mut Vec<u8>,
    judged: &Judged<'_>,
    classes: &[Class],
    own: usize,
    format: Format,
    writer: &mut W,
) -> Result<Counts, ReportFault>
    requires span { judged.now.base + length judged.now.code.now < 2 ^ 32 }
    requires whole { length judged.now.code.now % 32 ≡ 0 }
    requires each { length classes.now ≡ length judged.now.code.now }
    ensures ok { OnOk result (WritesOn (W.contents writer.old) (W.contents writer.new) out.old.items out.new.items
        (ReportsEach format (others_to judged.now.base judged.now.limit judged.now.code.now classes.now own (length judged.now.code.now)))) }
    ensures counts { IfOk result (λ counts. counts
        ≡ counts_to judged.now.base judged.now.limit judged.now.code.now classes.now (length judged.now.code.now)) }
    ensures cut { OnErr result (HasBegun (After out.old.items (ReportsEach format (others_to judged.now.base judged.now.limit judged.now.code.now
        classes.now own (length judged.now.code.now)))) (W.contents writer.old) (W.contents writer.new)) }
    ensures faults { IfErr result IsOfWriting }
    ensures short { OnOk result (vec_len out.old < 65536 → vec_len out.new < 65536) }
{
    let mut counts = NO_FAULTS;
    let mut seen = none_seen(classes);
    let mut k = 0;
    while k < judged.code.len() {
        let found = fault_at(judged, classes, k);
        match push_place(out, judged, classes, k, other_than(own, k, found), format) {
            Ok(()) => {}
            Err(_) => return Err(ReportFault::OutOfMemory),
        }
        match write_much(out, writer) {
            Ok(()) => {}
            Err(fault) => return Err(fault),
        }
        counts = counted(counts, found);
        k = next_fault(judged, classes, k + 1, &mut seen);
    }
    Ok(counts)
}

/// Adds the text before the further faults: in JSON the beginning of an array whose first element is the chunk's own fault.
fn push_opening(
    out: &mut Vec<u8>,
    labels: &Labels,
    fault: VetFault,
    finding: &Finding<'_>,
    format: Format,
) -> Result<(), AllocError>
    ensures { OnOk result (Adds out.old.items out.new.items (Opens format fault)) }
{
    match format {
        Format::Text => Ok(()),
        Format::Json => push_fault_object(out, b",\"faults\":[", labels, fault, finding),
    }
}

/// Reads all of the code once, past its faults, and writes the text about each fault except this one at `own`, and then the
/// last of what is shown. Text that isn't written yet is kept in `out`.
pub(crate) fn write_others<W: Write>(
    out: &mut Vec<u8>,
    judged: &Judged<'_>,
    fault: VetFault,
    own: usize,
    format: Format,
    writer: &mut W,
) -> Result<(), ReportFault>
    requires span { HasGoodSpan judged.now.base judged.now.limit (length judged.now.code.now) }
    requires within { own < length judged.now.code.now }
    ensures ok { OnOk result (WritesOn (W.contents writer.old) (W.contents writer.new) out.old.items out.new.items
        (ReportsOthers format judged.now.base judged.now.limit judged.now.code.now fault own)) }
    ensures cut { OnErr result (HasBegun
        (After out.old.items (ReportsOthers format judged.now.base judged.now.limit judged.now.code.now fault own))
        (W.contents writer.old) (W.contents writer.new)) }
    ensures faults { IfErr result IsOfWriting }
{
    let Ok(classes) = read_classes(*out.allocator(), judged.code) else {
        return Err(ReportFault::OutOfMemory);
    };
    let finding = finding_at(judged, &classes, fault, own);
    match push_opening(out, judged.labels, fault, &finding, format) {
        Ok(()) => {}
        Err(_) => return Err(ReportFault::OutOfMemory),
    }
    let counts = match write_places(out, judged, &classes, own, format, writer) {
        Ok(counts) => counts,
        Err(fault) => return Err(fault),
    };
    match push_last(out, counts, &classes, format) {
        Ok(()) => Ok(()),
        Err(_) => Err(ReportFault::OutOfMemory),
    }
}
