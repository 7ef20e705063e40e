//! The symbols of code: names for addresses.

ghost use Rattle.std.specs.Prelude.{◌≡◌, ◌+◌, ◌≤◌, IfOk, All, length};
ghost use Rattle.nc_elf.specs.Sections.{AreSymbolSections};
ghost use Rattle.nc_elf.specs.Symbols.{symbols_of, AreAscending, AreCodeSymbols, IsNamed, name_of};

use crate::entries::{entry_count, listed_symbol, symbol_entry};
use crate::sections::{SymbolSections, symbol_sections};
use std::alloc::{AllocError, Global};

/// An address, and the position of its name in the file.
#[derive(Clone, Copy, Debug, Drop, PartialEq, Eq)]
pub struct Symbol {
    /// The address.
    pub address: u32,
    /// The offset of the name's first byte in the file.
    pub name_at: usize,
    /// The length of the name in bytes.
    pub name_len: usize,
}

impl Symbol {
    /// The symbol's name, as a slice of its file.
    pub fn name<'a>(self, file: &'a [u8]) -> &'a [u8]
        requires { self.name_at + self.name_len ≤ length file.now }
        ensures { result.now ≡ name_of file.now self }
    {
        &file[self.name_at..self.name_at + self.name_len]
    }
}

/// The symbols of the entries that are listed, in the table's order.
fn list_symbols(
    alloc: Global,
    file: &[u8],
    sections: SymbolSections,
) -> Result<Vec<Symbol>, AllocError>
    requires { AreSymbolSections file.now sections }
    ensures listed { IfOk result (λ symbols. symbols.items ≡ symbols_of file.now sections) }
    ensures named { IfOk result (λ symbols. All (IsNamed file.now) symbols.items) }
{
    let mut symbols = Vec::new(alloc);
    for number in 0..entry_count(sections.symbols) {
        let entry = symbol_entry(file, sections.symbols, number);
        if let Some(symbol) = listed_symbol(file, sections.names, entry) {
            symbols.push(symbol)?;
        }
    }
    Ok(symbols)
}

/// The symbols of code in the file's symbol table, by ascending address. A file without such a table, or with a malformed
/// one, has none, and isn't refused. The only refusal is that of an allocation.
pub fn code_symbols(alloc: Global, file: &[u8]) -> Result<Vec<Symbol>, AllocError>
    // The symbols of all listed entries, sorted by address, those with the same address in the table's order; none if there is
    // no well-formed table.
    ensures symbols { IfOk result (λ symbols. AreCodeSymbols file.now symbols.items) }
    // Each name is short and in the file.
    ensures named { IfOk result (λ symbols. All (IsNamed file.now) symbols.items) }
    // The addresses ascend.
    ensures ascending { IfOk result (λ symbols. AreAscending symbols.items) }
{
    let Some(sections) = symbol_sections(file) else {
        return Ok(Vec::new(alloc));
    };
    let mut symbols = list_symbols(alloc, file, sections)?;
    symbols.sort_by_key(|symbol| symbol.address)?;
    Ok(symbols)
}
