//! The report on one source.

ghost use Rattle.std.specs.Prelude.{◌≡◌, ◌≢◌, ◌++◌, Bool, ℕ, List, length, take, IfOk, IfErr, OnOk, OnErr};
ghost use Rattle.std.specs.Io.KnownBytes.{Appends};
ghost use Rattle.nc_vet.specs.Faults.{HasFault};
ghost use Rattle.nc_vet.specs.declared.fault.VetFault.TheVariants.{OutOfMemory};
ghost use Rattle.nc_output.specs.Verdicts.{with_line_end, place_of};
ghost use Rattle.nc_vet.specs.Chunk.{Piece, code_of, AreSpelled};
ghost use Rattle.nc_report.specs.Report.{said_of, accepted_words, ok_text, end_of, refused_line, refused_text, about_fault, Shows};
ghost use Rattle.nc_report.specs.Report.{ReportsAccepted, ReportsFault, ReportsMore, ReportsRefused, Reports};
ghost use Rattle.nc_report.specs.Report.{HasWritten, HasBegun};
ghost use Rattle.nc_output.specs.Adds.{Adds};
ghost use Rattle.nc_report.specs.machinery.Added.{After, WritesOn, IsOfWriting};
ghost use Rattle.nc_report.specs.machinery.Found.{IsPlaceIfAny, AddsCalls, AddsAccepted};

use crate::advice::words_without_place;
use crate::counting::count_instructions;
use crate::explaining::push_finding;
use crate::fault::ReportFault;
use crate::finding::{Finding, own_finding};
use crate::forms::form_words;
use crate::json::push_members;
use crate::judged::Judged;
use crate::labels::Labels;
use crate::numbers::{push_all, push_text};
use crate::objects::{finding_members, push_accepted_members, push_refused_members};
use crate::others::write_others;
use crate::outside::push_calls;
use crate::saying::push_said;
use crate::source::Source;
use nc_output::{Detail, Format, Style, place_of, push_fault, write_out};
use nc_vet::{VetFault, Vetted, vet};
use std::alloc::{AllocError, Global};
use std::io::Write;

/// Adds the line that is the verdict on an accepted source.
fn push_ok_line(
    out: &mut Vec<u8>,
    name: &[u8],
    bytes: usize,
    instructions: usize,
) -> Result<(), AllocError>
    ensures { OnOk result (out.new.items ≡ out.old.items ++ said_of name.now (with_line_end (accepted_words bytes instructions))) }
{
    let words = format!(in *out.allocator(); ": ok, {bytes} bytes, {instructions} instructions\n")?;
    push_all(out, &[name, words.as_bytes()])
}

/// Adds the beginning of the report on an accepted source.
fn push_ok(
    out: &mut Vec<u8>,
    name: &[u8],
    chunk: &Vetted,
    instructions: usize,
    format: Format,
) -> Result<(), AllocError>
    ensures { OnOk result (out.new.items
        ≡ out.old.items ++ ok_text format chunk.now.base name.now (length chunk.now.code) instructions) }
{
    let bytes = chunk.code().len();
    match format {
        Format::Text => push_ok_line(out, name, bytes, instructions),
        Format::Json => push_accepted_members(out, name, chunk.base(), bytes, instructions),
    }
}

/// Adds the transfers of an accepted source to addresses outside it, if they are asked for.
fn push_transfers(
    out: &mut Vec<u8>,
    chunk: &Vetted,
    detail: Detail,
    format: Format,
) -> Result<(), AllocError>
    ensures { OnOk result ((pieces : List Piece) → AreSpelled pieces → chunk.now.code ≡ code_of pieces
        → AddsCalls detail format out.old.items out.new.items chunk.now.base pieces) }
{
    match detail {
        Detail::Calls => push_calls(out, chunk.base(), chunk.code(), format),
        _ => Ok(()),
    }
}

/// Adds what ends a report.
fn push_end(out: &mut Vec<u8>, format: Format) -> Result<(), AllocError>
    ensures { OnOk result (out.new.items ≡ out.old.items ++ end_of format) }
{
    match format {
        Format::Text => Ok(()),
        Format::Json => push_text(out, b"}\n"),
    }
}

/// Adds the report on an accepted source.
fn push_accepted(
    out: &mut Vec<u8>,
    name: &[u8],
    chunk: &Vetted,
    style: Style,
) -> Result<(), AllocError>
    ensures { OnOk result (AddsAccepted out.old.items out.new.items style name.now chunk.now) }
{
    // Called for its postconditions.
    let _facts = chunk.code();
    match style.detail {
        Detail::Brief => return Ok(()),
        _ => {}
    }
    push_ok(out, name, chunk, count_instructions(chunk), style.format)?;
    push_transfers(out, chunk, style.detail, style.format)?;
    push_end(out, style.format)
}

/// Writes the last text of a report, and flushes the writer.
fn write_last<W: Write>(out: &[u8], writer: &mut W) -> Result<(), ReportFault>
    ensures ok { OnOk result (Appends (W.contents writer.old) (W.contents writer.new) out.now) }
    ensures cut { OnErr result ((count : ℕ) × Appends (W.contents writer.old) (W.contents writer.new) (take count out.now)) }
    ensures faults { IfErr result IsOfWriting }
{
    match write_out(writer, out) {
        Ok(()) => {}
        Err(_) => return Err(ReportFault::WriteFailed),
    }
    match writer.flush() {
        Ok(()) => Ok(()),
        Err(_) => Err(ReportFault::WriteFailed),
    }
}

/// Writes the report on an accepted source.
fn report_accepted<W: Write>(
    alloc: Global,
    name: &[u8],
    chunk: &Vetted,
    style: Style,
    writer: &mut W,
) -> Result<(), ReportFault>
    ensures ok { OnOk result (HasWritten (ReportsAccepted chunk.now.base chunk.now.limit style name.now chunk.now.code)
        (W.contents writer.old) (W.contents writer.new)) }
    ensures cut { OnErr result (HasBegun (ReportsAccepted chunk.now.base chunk.now.limit style name.now chunk.now.code)
        (W.contents writer.old) (W.contents writer.new)) }
    ensures faults { IfErr result IsOfWriting }
{
    let mut out = Vec::new(alloc);
    match push_accepted(&mut out, name, chunk, style) {
        Ok(()) => {}
        Err(_) => return Err(ReportFault::OutOfMemory),
    }
    write_last(&out, writer)
}

/// Adds the verdict on a refused source. Lack of memory is not a verdict: it is returned as an error.
fn push_refusal(out: &mut Vec<u8>, name: &[u8], fault: VetFault) -> Result<(), AllocError>
    ensures { OnOk result ((fault ≢ OutOfMemory) × (out.new.items ≡ out.old.items ++ refused_line name.now fault)) }
{
    push_all(out, &[name, b": "])?;
    push_fault(out, fault)
}

/// Adds the verdict on a refused source. Lack of memory is not a verdict: it is returned as an error.
fn push_verdict(
    out: &mut Vec<u8>,
    name: &[u8],
    base: u32,
    fault: VetFault,
    format: Format,
) -> Result<(), AllocError>
    ensures { OnOk result ((fault ≢ OutOfMemory) × (out.new.items ≡ out.old.items ++ refused_text format base name.now fault)) }
{
    match format {
        Format::Text => push_refusal(out, name, fault),
        Format::Json => push_refused_members(out, name, base, fault),
    }
}

/// Adds the members about a fault at an address.
fn push_found_members(
    out: &mut Vec<u8>,
    labels: &Labels,
    finding: &Finding<'_>,
) -> Result<(), AllocError>
    ensures { OnOk result (Adds out.old.items out.new.items (Shows about_fault Format.Json)) }
{
    let members = finding_members(*out.allocator(), labels, finding)?;
    push_members(out, members)
}

/// Adds what is shown about a fault at an address.
fn push_found(
    out: &mut Vec<u8>,
    labels: &Labels,
    finding: &Finding<'_>,
    format: Format,
) -> Result<(), AllocError>
    ensures { OnOk result (Adds out.old.items out.new.items (Shows about_fault format)) }
{
    match format {
        Format::Text => push_finding(out, labels, finding),
        Format::Json => push_found_members(out, labels, finding),
    }
}

/// Adds what is shown about a fault.
fn push_explained(
    out: &mut Vec<u8>,
    judged: &Judged<'_>,
    fault: VetFault,
    format: Format,
) -> Result<(), AllocError>
    requires { IsPlaceIfAny judged.now.base judged.now.code.now (place_of fault) }
    ensures { OnOk result (Adds out.old.items out.new.items (Shows about_fault format)) }
{
    let Some(at) = place_of(fault) else {
        let words = words_without_place(*out.allocator(), judged, fault)?;
        return push_said(out, b"meaning", &words, format);
    };
    let place = (at - judged.base) as usize;
    let finding = own_finding(*out.allocator(), judged, fault, place)?;
    push_found(out, judged.labels, &finding, format)
}

/// Adds the verdict on a refused source, and unless it is to be brief, what is shown about its fault. Lack of memory is not a
/// verdict: it is returned as an error.
fn push_refused(
    out: &mut Vec<u8>,
    name: &[u8],
    judged: &Judged<'_>,
    fault: VetFault,
    style: Style,
) -> Result<(), AllocError>
    requires { IsPlaceIfAny judged.now.base judged.now.code.now (place_of fault) }
    ensures { OnOk result ((fault ≢ OutOfMemory)
        × Adds out.old.items out.new.items (ReportsFault style.detail style.format judged.now.base name.now fault)) }
{
    push_verdict(out, name, judged.base, fault, style.format)?;
    match style.detail {
        Detail::Brief => return Ok(()),
        _ => {}
    }
    push_explained(out, judged, fault, style.format)
}

/// Writes the text about the other faults of a refused source, if they are asked for. Text that isn't written yet is kept
/// in `out`.
fn write_more<W: Write>(
    out: &mut Vec<u8>,
    judged: &Judged<'_>,
    fault: VetFault,
    style: Style,
    writer: &mut W,
) -> Result<(), ReportFault>
    requires { HasFault judged.now.base judged.now.limit judged.now.code.now fault }
    ensures ok { OnOk result (WritesOn (W.contents writer.old) (W.contents writer.new) out.old.items out.new.items
        (ReportsMore style.detail style.format judged.now.base judged.now.limit judged.now.code.now fault)) }
    ensures cut { OnErr result (HasBegun (After out.old.items
        (ReportsMore style.detail style.format judged.now.base judged.now.limit judged.now.code.now fault)) (W.contents writer.old) (W.contents writer.new)) }
    ensures faults { IfErr result IsOfWriting }
{
    match style.detail {
        Detail::All => {}
        _ => return Ok(()),
    }
    let Some(at) = place_of(fault) else {
        return Ok(());
    };
    let own = (at - judged.base) as usize;
    write_others(out, judged, fault, own, style.format, writer)
}

/// Writes the report on a refused source.
fn report_refused<W: Write>(
    alloc: Global,
    name: &[u8],
    judged: &Judged<'_>,
    fault: VetFault,
    style: Style,
    writer: &mut W,
) -> Result<(), ReportFault>
    requires { HasFault judged.now.base judged.now.limit judged.now.code.now fault }
    ensures ok { OnOk result (HasWritten (ReportsRefused judged.now.base judged.now.limit style name.now judged.now.code.now)
        (W.contents writer.old) (W.contents writer.new)) }
    ensures cut { OnErr result (HasBegun (ReportsRefused judged.now.base judged.now.limit style name.now judged.now.code.now)
        (W.contents writer.old) (W.contents writer.new)) }
    ensures faults { IfErr result IsOfWriting }
{
    let mut out = Vec::new(alloc);
    match push_refused(&mut out, name, judged, fault, style) {
        Ok(()) => {}
        Err(_) => return Err(ReportFault::OutOfMemory),
    }
    match write_more(&mut out, judged, fault, style, writer) {
        Ok(()) => {}
        Err(fault) => return Err(fault),
    }
    match push_end(&mut out, style.format) {
        Ok(()) => {}
        Err(_) => return Err(ReportFault::OutOfMemory),
    }
    write_last(&out, writer)
}

/// Vets a source, writes the report on it, and flushes the writer. Returns whether the source is refused.
pub(crate) fn vet_and_report<W: Write>(
    alloc: Global,
    source: Source,
    base: u32,
    limit: u32,
    style: Style,
    writer: &mut W,
) -> Result<bool, ReportFault>
    ensures ok { IfOk result (λ refused. HasWritten (Reports base limit style source.name.items source.code.items refused)
        (W.contents writer.old) (W.contents writer.new)) }
    ensures cut { OnErr result (HasBegun
        (λ text. (refused : Bool) × Reports base limit style source.name.items source.code.items refused text)
        (W.contents writer.old) (W.contents writer.new)) }
    ensures faults { IfErr result IsOfWriting }
{
    let Source { name, code, labels } = source;
    match vet(base, limit, code) {
        Ok(chunk) => match report_accepted(alloc, &name, &chunk, style, writer) {
            Ok(()) => Ok(false),
            Err(fault) => Err(fault),
        },
        Err((code, fault)) => {
            let judged = Judged {
                base,
                limit,
                code: &code,
                labels: &labels,
                form: form_words(&code),
            };
            match report_refused(alloc, &name, &judged, fault, style, writer) {
                Ok(()) => Ok(true),
                Err(fault) => Err(fault),
            }
        }
    }
}
