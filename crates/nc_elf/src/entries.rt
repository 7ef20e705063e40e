//! The entries of a symbol table, and their names.

ghost use Rattle.std.specs.Prelude.{◌≡◌, ◌+◌, ◌<◌, ◌≤◌, ◌/◌, IfSome, IfNone, IsTrue, length, false, true};
ghost use Rattle.nc_elf.specs.Sections.{IsSectionInFile, AreSymbolSections};
ghost use Rattle.nc_elf.specs.Symbols.{symbol_entry, is_code_type, is_defined, name_field, is_name_byte, name_len, has_name};
ghost use Rattle.nc_elf.specs.Symbols.{is_local_label, is_listed, symbol_of, IsNamed};

use crate::numbers::{u16_at, u32_at};
use crate::sections::{SYMBOL_ENTRY_LEN, SectionHeader};
use crate::symbols::Symbol;

// The offsets of an entry's fields, by their names in the System V ABI.
const ST_NAME: usize = 0;

const ST_VALUE: usize = 4;

const ST_INFO: usize = 12;

const ST_SHNDX: usize = 14;

/// The bits of `st_info` that give the symbol's type.
const TYPE_MASK: u8 = 0x0F;

/// The type of a symbol without a specified type.
const STT_NOTYPE: u8 = 0;

/// The type of a function.
const STT_FUNC: u8 = 2;

/// The section of a symbol that the file doesn't define.
const SHN_UNDEF: u16 = 0;

/// The first reserved section number, which no section has.
const SHN_LORESERVE: u16 = 0xFF00;

/// The length of the longest name and its terminating 0.
const NAME_FIELD_LEN: usize = 256;

/// The contents of an entry of a symbol table.
#[derive(Clone, Copy, Drop)]
pub(crate) struct SymbolEntry {
    /// The offset of the name in the string table.
    pub name: u32,
    /// The address.
    pub address: u32,
    /// The symbol's type and binding.
    pub info: u8,
    /// The number of the section in which the symbol is defined.
    pub section: u16,
}

impl SymbolEntry {
    /// Whether the symbol's type is none or a function.
    fn is_code_type(self) -> bool
        ensures { result ≡ is_code_type self }
    {
        let kind = self.info & TYPE_MASK;
        kind == STT_NOTYPE || kind == STT_FUNC
    }

    /// Whether the symbol is defined in a section.
    fn is_defined(self) -> bool
        ensures { result ≡ is_defined self }
    {
        self.section > SHN_UNDEF && self.section < SHN_LORESERVE
    }
}

/// The number of whole entries in a symbol table.
pub(crate) fn entry_count(table: SectionHeader) -> usize
    ensures { result ≡ table.len / 16 }
{
    (table.len / SYMBOL_ENTRY_LEN) as usize
}

/// The entry of this number, counted from 0.
pub(crate) fn symbol_entry(file: &[u8], table: SectionHeader, number: usize) -> SymbolEntry
    requires inside { IsSectionInFile file.now table }
    requires listed { number < table.len / 16 }
    ensures { result ≡ symbol_entry file.now table number }
{
    let at = table.offset as usize + SYMBOL_ENTRY_LEN as usize * number;
    SymbolEntry {
        name: u32_at(file, at + ST_NAME),
        address: u32_at(file, at + ST_VALUE),
        info: file[at + ST_INFO],
        section: u16_at(file, at + ST_SHNDX),
    }
}

/// The bytes of the string table from the entry's name on, at most 256.
fn name_field<'a>(file: &'a [u8], names: SectionHeader, entry: SymbolEntry) -> &'a [u8]
    requires { IsSectionInFile file.now names }
    ensures field { result.now ≡ name_field file.now names entry }
    ensures short { length result.now ≤ 256 }
    ensures inside { 0 < length result.now → names.offset + entry.name + length result.now ≤ length file.now }
{
    let start = names.offset as usize;
    let texts = &file[start..start + names.len as usize];
    let rest = &texts[(entry.name as usize).min(texts.len())..];
    &rest[..NAME_FIELD_LEN.min(rest.len())]
}

/// Whether a name may contain this byte.
fn is_name_byte(byte: u8) -> bool
    ensures { result ≡ is_name_byte byte }
{
    0x21 <= byte && byte <= 0x7E
}

/// The length of the name at the beginning of a field.
fn name_len(field: &[u8]) -> usize
    ensures { result ≡ name_len field.now }
{
    for len in 0..field.len() {
        if !is_name_byte(field[len]) {
            return len;
        }
    }
    field.len()
}

/// Whether a field begins with a name of this length, terminated by a 0.
fn has_name(field: &[u8], len: usize) -> bool
    requires { len ≡ name_len field.now }
    ensures name { result ≡ has_name field.now }
    ensures ends { IsTrue result → (0 < len) × (len < length field.now) }
{
    len > 0 && len < field.len() && field[len] == 0
}

/// Whether the name at the beginning of a field is an assembler's own label, or a mark in code.
fn is_local_label(field: &[u8]) -> bool
    ensures { result ≡ is_local_label field.now }
{
    field.starts_with(b".L") || field.starts_with(b"$")
}

/// The symbol of an entry, if it is listed.
pub(crate) fn listed_symbol(file: &[u8], names: SectionHeader, entry: SymbolEntry) -> Option<Symbol>
    requires { IsSectionInFile file.now names }
    ensures some { IfSome result (λ s. IsTrue (is_listed file.now names entry) × (s ≡ symbol_of file.now names entry)) }
    ensures none { IfNone result (is_listed file.now names entry ≡ false) }
    ensures named { IfSome result (IsNamed file.now) }
{
    if !entry.is_code_type() || !entry.is_defined() {
        return None;
    }
    let field = name_field(file, names, entry);
    let len = name_len(field);
    if !has_name(field, len) || is_local_label(field) {
        return None;
    }
    Some(Symbol {
        address: entry.address,
        name_at: names.offset as usize + entry.name as usize,
        name_len: len,
    })
}
