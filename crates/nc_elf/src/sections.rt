//! The section headers, and the two sections that hold the symbols and their names.

ghost use Rattle.std.specs.Prelude.{◌≡◌, ◌+◌, ◌<◌, ◌≤◌, ◌↔◌, IsTrue, IfSome, IfNone, length, find};
ghost use Rattle.nc_elf.specs.Sections.{e_shnum, HasSections, section_header, section_headers, is_symbol_table};
ghost use Rattle.nc_elf.specs.Sections.{IsSectionInFile, AreSymbolSections, HasSymbols};

use crate::header::{HEADER_LEN, is_elf, is_elf32};
use crate::numbers::{u16_at, u32_at};

// The offsets of the header's fields, by their names in the System V ABI.
const E_SHOFF: usize = 32;

const E_SHENTSIZE: usize = 46;

const E_SHNUM: usize = 48;

/// The length of a section header.
const SECTION_HEADER_LEN: usize = 40;

// The offsets of a section header's fields, by their names in the System V ABI.
const SH_TYPE: usize = 4;

const SH_OFFSET: usize = 16;

const SH_SIZE: usize = 20;

const SH_LINK: usize = 24;

const SH_ENTSIZE: usize = 36;

/// The type of a symbol table.
const SHT_SYMTAB: u32 = 2;

/// The type of a string table.
const SHT_STRTAB: u32 = 3;

/// The length of an entry of a symbol table.
pub(crate) const SYMBOL_ENTRY_LEN: u32 = 16;

/// The contents of a section header.
#[derive(Clone, Copy, Drop)]
pub(crate) struct SectionHeader {
    /// The section's type.
    pub kind: u32,
    /// The offset of its first byte in the file.
    pub offset: u32,
    /// The number of its bytes.
    pub len: u32,
    /// The number of another section; for a symbol table, that of its string table.
    pub link: u32,
    /// The length of an entry, for a table.
    pub entry_len: u32,
}

/// The sections that hold the symbols and their names.
#[derive(Clone, Copy, Drop)]
pub(crate) struct SymbolSections {
    /// The symbol table.
    pub symbols: SectionHeader,
    /// The string table with the symbols' names.
    pub names: SectionHeader,
}

impl SectionHeader {
    /// Whether the section is a symbol table.
    fn is_symbol_table(self) -> bool
        ensures { result ≡ is_symbol_table self }
    {
        self.kind == SHT_SYMTAB
    }

    /// Whether the section's bytes are in the file.
    fn is_in_file(self, file: &[u8]) -> bool
        ensures { IsTrue result ↔ IsSectionInFile file.now self }
    {
        self.offset as usize + self.len as usize <= file.len()
    }
}

/// Whether the file is a 32-bit one with its section headers in it, each of 40 bytes.
fn has_sections(file: &[u8]) -> bool
    ensures { IsTrue result ↔ HasSections file.now }
{
    is_elf(file)
        && file.len() >= HEADER_LEN
        && is_elf32(file)
        && u16_at(file, E_SHENTSIZE) as usize == SECTION_HEADER_LEN
        && u32_at(file, E_SHOFF) as usize + SECTION_HEADER_LEN * u16_at(file, E_SHNUM) as usize
            <= file.len()
}

/// The number of section headers.
fn section_count(file: &[u8]) -> usize
    requires { 52 ≤ length file.now }
    ensures { result ≡ e_shnum file.now }
{
    u16_at(file, E_SHNUM) as usize
}

/// The section header of this number, counted from 0.
fn section_header(file: &[u8], number: usize) -> SectionHeader
    requires sections { HasSections file.now }
    requires listed { number < e_shnum file.now }
    ensures { result ≡ section_header file.now number }
{
    let at = u32_at(file, E_SHOFF) as usize + SECTION_HEADER_LEN * number;
    SectionHeader {
        kind: u32_at(file, at + SH_TYPE),
        offset: u32_at(file, at + SH_OFFSET),
        len: u32_at(file, at + SH_SIZE),
        link: u32_at(file, at + SH_LINK),
        entry_len: u32_at(file, at + SH_ENTSIZE),
    }
}

/// The first symbol table.
fn symbol_table(file: &[u8]) -> Option<SectionHeader>
    requires { HasSections file.now }
    ensures { result ≡ find is_symbol_table (section_headers file.now) }
{
    for number in 0..section_count(file) {
        let header = section_header(file, number);
        if header.is_symbol_table() {
            return Some(header);
        }
    }
    None
}

/// The sections with the symbols and their names, if the file has both, well-formed by the ABI.
pub(crate) fn symbol_sections(file: &[u8]) -> Option<SymbolSections>
    ensures some { IfSome result (AreSymbolSections file.now) }
    ensures none { IfNone result (¬ HasSymbols file.now) }
{
    if !has_sections(file) {
        return None;
    }
    let Some(symbols) = symbol_table(file) else {
        return None;
    };
    if symbols.entry_len != SYMBOL_ENTRY_LEN || !symbols.is_in_file(file) {
        return None;
    }
    if symbols.link as usize >= section_count(file) {
        return None;
    }
    let names = section_header(file, symbols.link as usize);
    if names.kind != SHT_STRTAB || !names.is_in_file(file) {
        return None;
    }
    Some(SymbolSections { symbols, names })
}
