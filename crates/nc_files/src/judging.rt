//! Judging one file, and writing the report on it.

ghost use Rattle.std.specs.Prelude.{◌≡◌, ◌≢◌, ◌++◌, ℕ, List, true, IfOk, IfErr, OnOk, map};
ghost use Rattle.std.specs.Io.KnownBytes.{Appends};
ghost use Rattle.nc_elf.specs.Faults.{HasElfFault};
ghost use Rattle.nc_elf.specs.declared.fault.ElfFault.TheVariants as elf;
ghost use Rattle.nc_report.specs.Report.{HasWritten};
ghost use Rattle.nc_files.specs.Files.{IsUnread};
ghost use Rattle.nc_files.specs.Reports.{judged_in, ReportsCode, ReportsAll, ReportsRaw, RefusesElf, ReportsElf, ReportsFile, explanation, has_lines, has_note, note_if, refusal_text};

use crate::files::{Unread, read_file};
use crate::parts::{Part, parts_of};
use crate::request::Request;
use nc_elf::{ElfFault, is_elf};
use nc_output::{Detail, Format, Style, write_out};
use nc_report::{ReportFault, Source, is_hexadecimal, push_file_object, report};
use std::alloc::{AllocError, Global};
use std::io::{Input, Write};
use std::rt::Files;

/// Why the report on code isn't complete.
#[derive(Clone, Copy, Drop)]
pub enum Unreported {
    /// There is no memory.
    OutOfMemory,
    /// The writer failed.
    WriteFailed,
}

/// Why a file isn't judged.
#[derive(Clone, Copy, Drop)]
pub enum Unjudged {
    /// It can't be read.
    Unread(Unread),
    /// The report on it isn't complete.
    Unreported(Unreported),
}

/// Judges code and writes the report on it. Returns whether it was refused.
fn judge_part<W: Write>(
    alloc: Global,
    request: &Request<'_>,
    part: Part,
    writer: &mut W,
) -> Result<bool, Unreported>
    ensures { IfOk result (λ refused. HasWritten (ReportsCode request.now (judged_in part) refused)
        (W.contents writer.old) (W.contents writer.new)) }
{
    let Part { base, source } = part;
    match report(alloc, source, base, request.bundles, request.style, writer) {
        Ok(refused) => Ok(refused),
        Err(ReportFault::WriteFailed) => Err(Unreported::WriteFailed),
        // the number of bundles is in range, since the command line was parsed
        Err(_) => Err(Unreported::OutOfMemory),
    }
}

/// Judges the parts of an ELF file, in order. Returns whether any of them was refused.
fn judge_parts<W: Write>(
    alloc: Global,
    request: &Request<'_>,
    parts: Vec<Part>,
    writer: &mut W,
) -> Result<bool, Unreported>
    ensures { IfOk result (λ refused. HasWritten (ReportsAll request.now (map judged_in parts.items) refused)
        (W.contents writer.old) (W.contents writer.new)) }
{
    let mut is_refused = false;
    for part in parts {
        match judge_part(alloc, request, part, writer) {
            Ok(more) => is_refused |= more,
            Err(unreported) => return Err(unreported),
        }
    }
    Ok(is_refused)
}

/// Adds the line that explains a fault, unless only verdicts are written.
fn push_explanation(text: &mut Vec<u8>, detail: Detail, meaning: &[u8]) -> Result<(), AllocError>
    ensures { OnOk result (text.new.items ≡ text.old.items ++ explanation detail meaning.now) }
{
    match detail {
        Detail::Brief => return Ok(()),
        _ => {}
    }
    text.extend_from_slice(b"  ")?;
    text.extend_from_slice(meaning)?;
    text.push(b'\n')?;
    Ok(())
}

/// Adds the text written for an ELF file that is refused as a whole, for a fault of this meaning.
fn push_refusal(
    text: &mut Vec<u8>,
    style: Style,
    name: &[u8],
    meaning: &[u8],
) -> Result<(), AllocError>
    ensures { OnOk result (text.new.items
        ≡ text.old.items ++ refusal_text style.format style.detail name.now meaning.now) }
{
    match style.format {
        Format::Json => push_file_object(text, name, b"BadElf", meaning),
        Format::Text => {
            text.extend_from_slice(name)?;
            text.extend_from_slice(b": refused BadElf\n")?;
            push_explanation(text, style.detail, meaning)
        }
    }
}

/// The text written for an ELF file that is refused as a whole.
fn refusal(alloc: Global, style: Style, name: &[u8], fault: ElfFault) -> Result<Vec<u8>, AllocError>
    ensures { IfOk result (λ text. (meaning : List ℕ)
        × (text.items ≡ refusal_text style.format style.detail name.now meaning)) }
{
    let meaning = fault.to_string(alloc)?;
    let mut text = Vec::new(alloc);
    push_refusal(&mut text, style, name, meaning.as_bytes())?;
    Ok(text)
}

/// Writes the refusal of an ELF file that has this fault.
fn refuse<W: Write>(
    alloc: Global,
    request: &Request<'_>,
    file: &Source,
    fault: ElfFault,
    writer: &mut W,
) -> Result<bool, Unreported>
    requires has { HasElfFault file.now.code.items fault }
    requires real { fault ≢ elf.OutOfMemory }
    ensures { IfOk result (λ refused. (refused ≡ true)
        × HasWritten (RefusesElf request.now.style file.now.name.items file.now.code.items)
        (W.contents writer.old) (W.contents writer.new)) }
{
    let Ok(text) = refusal(alloc, request.style, file.name.as_slice(), fault) else {
        return Err(Unreported::OutOfMemory);
    };
    match write_out(writer, &text) {
        Ok(()) => Ok(true),
        Err(_) => Err(Unreported::WriteFailed),
    }
}

/// Judges the code of an ELF file, and writes the report on it. Returns whether any of it was refused.
fn judge_elf<W: Write>(
    alloc: Global,
    request: &Request<'_>,
    file: &Source,
    writer: &mut W,
) -> Result<bool, Unreported>
    ensures { IfOk result (λ refused. HasWritten (ReportsElf request.now file.now.name.items file.now.code.items refused)
        (W.contents writer.old) (W.contents writer.new)) }
{
    match parts_of(alloc, file, request.style) {
        Ok(parts) => judge_parts(alloc, request, parts, writer),
        Err(ElfFault::OutOfMemory) => Err(Unreported::OutOfMemory),
        Err(fault) => refuse(alloc, request, file, fault, writer),
    }
}

/// What is said about an accepted file of hexadecimal text, whose characters were judged.
const NOTE: &[u8] =
    b"  this is hexadecimal text: its characters were judged, and not the bytes that they spell; turn it into bytes with xxd -r -p\n";

/// Whether more than the verdict is written about an accepted file, in lines of text.
fn has_lines(style: Style) -> bool
    ensures { result ≡ has_lines style.detail style.format }
{
    style.format == Format::Text && style.detail != Detail::Brief
}

/// Whether an accepted file of this raw code has the note: it is hexadecimal text.
fn has_note(style: Style, code: &[u8]) -> bool
    ensures { result ≡ has_note style code.now }
{
    has_lines(style) && is_hexadecimal(code)
}

/// Writes the note, if there is to be one.
fn write_note<W: Write>(is_noted: bool, writer: &mut W) -> Result<(), Unreported>
    ensures { OnOk result (Appends (W.contents writer.old) (W.contents writer.new) (note_if is_noted)) }
{
    if !is_noted {
        return Ok(());
    }
    match write_out(writer, NOTE) {
        Ok(()) => Ok(()),
        Err(_) => Err(Unreported::WriteFailed),
    }
}

/// Judges raw code, and writes the report on it, with a note on an accepted file of hexadecimal text. Returns whether it was refused.
fn judge_raw<W: Write>(
    alloc: Global,
    request: &Request<'_>,
    source: Source,
    writer: &mut W,
) -> Result<bool, Unreported>
    ensures { IfOk result (λ refused. HasWritten (ReportsRaw request.now source.name.items source.code.items refused)
        (W.contents writer.old) (W.contents writer.new)) }
{
    let base = request.base;
    let is_noted = has_note(request.style, source.code.as_slice());
    let is_refused = match judge_part(alloc, request, Part { base, source }, writer) {
        Ok(is_refused) => is_refused,
        Err(unreported) => return Err(unreported),
    };
    if is_refused {
        return Ok(true);
    }
    match write_note(is_noted, writer) {
        Ok(()) => Ok(false),
        Err(unreported) => Err(unreported),
    }
}

/// Judges the code of a file, and writes the report on it. Returns whether any of it was refused.
fn judge_source<W: Write>(
    alloc: Global,
    request: &Request<'_>,
    source: Source,
    writer: &mut W,
) -> Result<bool, Unreported>
    ensures { IfOk result (λ refused. HasWritten (ReportsFile request.now source.name.items source.code.items refused)
        (W.contents writer.old) (W.contents writer.new)) }
{
    if request.raw || !is_elf(source.code.as_slice()) {
        judge_raw(alloc, request, source, writer)
    } else {
        judge_elf(alloc, request, &source, writer)
    }
}

/// Reads a file, judges its code, and writes the report on it. Returns whether any of it was refused.
pub fn judge_file<R: AllocGlobal + Input + Files, W: Write>(
    rt: &R,
    request: &Request<'_>,
    file: &str,
    writer: &mut W,
) -> Result<bool, Unjudged>
    // Exactly the report on a file of this name was written, and the result says whether it is refused. What bytes a file has is up
    // to its device.
    ensures report { IfOk result (λ refused. (code : List ℕ) × HasWritten (ReportsFile request.now file.now code refused)
        (W.contents writer.old) (W.contents writer.new)) }
    // Nothing is written for a file that can't be read.
    ensures unread { IfErr result (λ unjudged. IsUnread unjudged → W.contents writer.new ≡ W.contents writer.old) }
{
    match read_file(rt, file) {
        Ok(source) => match judge_source(rt.alloc(), request, source, writer) {
            Ok(is_refused) => Ok(is_refused),
            Err(unreported) => Err(Unjudged::Unreported(unreported)),
        },
        Err(Unread::OutOfMemory) => Err(Unjudged::Unreported(Unreported::OutOfMemory)),
        Err(unread) => Err(Unjudged::Unread(unread)),
    }
}
