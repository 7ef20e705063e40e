//! Names for addresses of a segment: the file's symbols of code in it.

ghost use Rattle.std.specs.Prelude.{◌≡◌, All, IfOk, filter, map};
ghost use Rattle.nc_elf.specs.Symbols.{AreAscending, IsNamed};
ghost use Rattle.nc_files.specs.Parts.{NamesBy, is_in, name_in, named, labels_of};

use nc_elf::{Segment, Symbol, code_symbols};
use nc_output::Detail;
use nc_report::{Label, Labels};
use std::alloc::{AllocError, Global};

/// The symbols that name faults; none if only verdicts are written.
pub fn names_by(alloc: Global, file: &[u8], detail: Detail) -> Result<Vec<Symbol>, AllocError>
    ensures symbols { IfOk result (λ symbols. NamesBy detail file.now symbols.items) }
    ensures named { IfOk result (λ symbols. All (IsNamed file.now) symbols.items) }
    ensures ascending { IfOk result (λ symbols. AreAscending symbols.items) }
{
    if detail == Detail::Brief {
        return Ok(Vec::new(alloc));
    }
    code_symbols(alloc, file)
}

/// The label for a symbol, with a copy of its name.
fn label_of(alloc: Global, file: &[u8], symbol: Symbol) -> Result<Label, AllocError>
    requires { IsNamed file.now symbol }
    ensures { IfOk result (λ label. named label ≡ name_in file.now symbol) }
{
    let name = Vec::from_slice(alloc, symbol.name(file))?;
    Ok(Label {
        address: symbol.address,
        name,
    })
}

/// The labels for these symbols, in order.
fn list_labels(alloc: Global, file: &[u8], symbols: &[Symbol]) -> Result<Vec<Label>, AllocError>
    requires { All (IsNamed file.now) symbols.now }
    ensures { IfOk result (λ list. map named list.items ≡ map (name_in file.now) symbols.now) }
{
    let mut list = Vec::with_capacity(alloc, symbols.len())?;
    for symbol in symbols {
        list.push(label_of(alloc, file, *symbol)?)?;
    }
    Ok(list)
}

/// The symbols that are in a segment, out of symbols in ascending order of their addresses.
fn symbols_in(symbols: &[Symbol], segment: Segment) -> &[Symbol]
    requires { AreAscending symbols.now }
    ensures { result.now ≡ filter (is_in segment) symbols.now }
{
    let start = symbols.partition_point(|symbol| symbol.address < segment.address);
    let rest = &symbols[start..];
    let end = u64::from(segment.address) + u64::from(segment.len);
    let count = rest.partition_point(|symbol| u64::from(symbol.address) < end);
    &rest[..count]
}

/// The labels of a segment.
pub fn labels_of(
    alloc: Global,
    file: &[u8],
    symbols: &[Symbol],
    segment: Segment,
) -> Result<Labels, AllocError>
    requires named { All (IsNamed file.now) symbols.now }
    requires ascending { AreAscending symbols.now }
    ensures { IfOk result (λ labels. map named labels ≡ labels_of file.now symbols.now segment) }
{
    let list = list_labels(alloc, file, symbols_in(symbols, segment))?;
    match Labels::new(list) {
        Some(labels) => Ok(labels),
        None => unreachable!(),
    }
}
