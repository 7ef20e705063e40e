//! The segments of code of an ELF file, each as a source of its own.

ghost use Rattle.std.specs.Prelude.{◌≡◌, ◌+◌, ◌≤◌, All, IfOk, IfErr, OnOk, length, map};
ghost use Rattle.nc_elf.specs.Faults.{HasElfFault};
ghost use Rattle.nc_elf.specs.Segments.{IsPlaced, IsWellFormed, bytes_of, segments_of};
ghost use Rattle.nc_elf.specs.Symbols.{AreAscending, IsNamed};
ghost use Rattle.nc_files.specs.Parts.{code_in, bases_in, codes_in, names_in, part_name, labels_in, named, labels_of, AreLabelled};

use crate::labelling::{labels_of, names_by};
use nc_elf::{ElfFault, Segment, Symbol, code_segments};
use nc_output::{Format, Style, push_address};
use nc_report::Source;
use std::alloc::{AllocError, Global};

/// Code to be judged, and the address of its first byte.
#[derive(Drop)]
pub struct Part {
    pub base: u32,
    pub source: Source,
}

/// The name of a segment: the file's name and the segment's address, or in JSON, where the address is a member of its own, the
/// file's name alone.
fn segment_name(
    alloc: Global,
    file: &[u8],
    address: u32,
    format: Format,
) -> Result<Vec<u8>, AllocError>
    ensures { IfOk result (λ name. name.items ≡ part_name format file.now address) }
{
    let mut name = Vec::from_slice(alloc, file)?;
    match format {
        Format::Text => {
            name.extend_from_slice(b" (")?;
            push_address(&mut name, address)?;
            name.push(b')')?;
        }
        Format::Json => {}
    }
    Ok(name)
}

/// The part that consists of a segment of a file.
fn part_of(
    alloc: Global,
    file: &Source,
    symbols: &[Symbol],
    segment: Segment,
    format: Format,
) -> Result<Part, AllocError>
    requires in_file { segment.offset + segment.len ≤ length file.now.code.items }
    requires named { All (IsNamed file.now.code.items) symbols.now }
    requires ascending { AreAscending symbols.now }
    ensures base { IfOk result (λ part. part.base ≡ segment.address) }
    ensures code { IfOk result (λ part. code_in part ≡ bytes_of file.now.code.items segment) }
    ensures name { IfOk result (λ part. part.source.name.items ≡ part_name format file.now.name.items segment.address) }
    ensures labels { IfOk result (λ part. map named part.source.labels ≡ labels_of file.now.code.items symbols.now segment) }
{
    let name = segment_name(alloc, file.name.as_slice(), segment.address, format)?;
    let code = Vec::from_slice(alloc, segment.bytes(file.code.as_slice()))?;
    let labels = labels_of(alloc, file.code.as_slice(), symbols, segment)?;
    Ok(Part {
        base: segment.address,
        source: Source { name, code, labels },
    })
}

/// The parts that consist of these segments of a file, in order.
fn list_parts(
    alloc: Global,
    file: &Source,
    symbols: &[Symbol],
    segments: Vec<Segment>,
    format: Format,
) -> Result<Vec<Part>, AllocError>
    requires in_file { All (IsPlaced file.now.code.items) segments.items }
    requires named { All (IsNamed file.now.code.items) symbols.now }
    requires ascending { AreAscending symbols.now }
    ensures bases { IfOk result (λ parts. bases_in parts.items ≡ map (λ s. s.address) segments.items) }
    ensures codes { IfOk result (λ parts. codes_in parts.items ≡ map (bytes_of file.now.code.items) segments.items) }
    ensures names { IfOk result (λ parts. names_in parts.items
        ≡ map (λ s. part_name format file.now.name.items s.address) segments.items) }
    ensures labels { IfOk result (λ parts. labels_in parts.items ≡ map (labels_of file.now.code.items symbols.now) segments.items) }
{
    let mut parts = Vec::new(alloc);
    for segment in segments {
        parts.push(part_of(alloc, file, symbols, segment, format)?)?;
    }
    Ok(parts)
}

/// The parts of an ELF file, for a report in this style: its segments of code, in the order of its program headers. Each has the
/// file's name, with its address unless that is written separately.
pub fn parts_of(alloc: Global, file: &Source, style: Style) -> Result<Vec<Part>, ElfFault>
    // The bytes to be judged are those that the program headers name, at the addresses that they name.
    ensures bases { IfOk result (λ parts. bases_in parts.items ≡ map (λ s. s.address) (segments_of file.now.code.items)) }
    ensures codes { IfOk result (λ parts. codes_in parts.items
        ≡ map (bytes_of file.now.code.items) (segments_of file.now.code.items)) }
    // Each report has the name of its segment.
    ensures names { IfOk result (λ parts. names_in parts.items
        ≡ map (λ s. part_name style.format file.now.name.items s.address) (segments_of file.now.code.items)) }
    // Faults are named by the file's symbols of code, or not at all if only verdicts are written.
    ensures labels { IfOk result (λ parts. AreLabelled style.detail file.now.code.items parts.items) }
    // A refusal reports the file's fault, and a file with parts has none.
    ensures well_formed { OnOk result (IsWellFormed file.now.code.items) }
    ensures fault { IfErr result (HasElfFault file.now.code.items) }
{
    let segments = code_segments(alloc, file.code.as_slice())?;
    let Ok(symbols) = names_by(alloc, file.code.as_slice(), style.detail) else {
        return Err(ElfFault::OutOfMemory);
    };
    match list_parts(alloc, file, symbols.as_slice(), segments, style.format) {
        Ok(parts) => Ok(parts),
        Err(_) => Err(ElfFault::OutOfMemory),
    }
}
