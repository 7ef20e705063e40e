//! The ELF header.

ghost use Rattle.std.specs.Prelude.{◌≡◌, ◌≢◌, ◌↔◌, IsTrue, OnOk, IfErr};
ghost use Rattle.nc_elf.specs.declared.fault.ElfFault.{ElfFault};
ghost use Rattle.nc_elf.specs.Header.{IsElf, HasWholeHeader, IsElf32, IsX86, IsLinked, HasTable};
ghost use Rattle.nc_elf.specs.Faults.{HasElfFault};

use crate::fault::ElfFault;
use crate::numbers::{u16_at, u32_at};
use crate::program::PROGRAM_HEADER_LEN;

/// The bytes with which every ELF file begins.
const MAGIC: [u8; 4] = [0x7F, b'E', b'L', b'F'];

/// The length of the header.
pub(crate) const HEADER_LEN: usize = 52;

// The offsets of the header's fields, by their names in the System V ABI.
const EI_CLASS: usize = 4;

const EI_DATA: usize = 5;

const EI_VERSION: usize = 6;

const E_TYPE: usize = 16;

const E_MACHINE: usize = 18;

const E_VERSION: usize = 20;

pub(crate) const E_PHOFF: usize = 28;

const E_PHENTSIZE: usize = 42;

pub(crate) const E_PHNUM: usize = 44;

// Values of the fields.
const ELFCLASS32: u8 = 1;

const ELFCLASS64: u8 = 2;

const ELFDATA2LSB: u8 = 1;

const EV_CURRENT: u8 = 1;

const ET_REL: u16 = 1;

const ET_EXEC: u16 = 2;

const ET_DYN: u16 = 3;

const EM_386: u16 = 3;

/// The count of program headers that means that the real count is stored elsewhere.
const PN_XNUM: u16 = 0xFFFF;

/// Whether a file begins as ELF files do: with 7F, `E`, `L`, `F`.
pub fn is_elf(file: &[u8]) -> bool
    ensures { IsTrue result ↔ IsElf file.now }
{
    file.starts_with(&MAGIC)
}

/// Whether a file with a whole header is a 32-bit little-endian file of version 1.
pub(crate) fn is_elf32(file: &[u8]) -> bool
    requires { HasWholeHeader file.now }
    ensures { IsTrue result ↔ IsElf32 file.now }
{
    file[EI_CLASS] == ELFCLASS32
        && file[EI_DATA] == ELFDATA2LSB
        && file[EI_VERSION] == EV_CURRENT
        && u32_at(file, E_VERSION) == u32::from(EV_CURRENT)
}

/// Whether the program headers of a linked file are in it, fewer than 65535 and each of 32 bytes.
fn has_table(file: &[u8]) -> bool
    requires { IsLinked file.now }
    ensures { IsTrue result ↔ HasTable file.now }
{
    let count = u16_at(file, E_PHNUM);
    u16_at(file, E_PHENTSIZE) as usize == PROGRAM_HEADER_LEN
        && count != PN_XNUM
        && u32_at(file, E_PHOFF) as usize + PROGRAM_HEADER_LEN * count as usize <= file.len()
}

/// The first fault of the header, if there is one.
pub(crate) fn check_header(file: &[u8]) -> Result<(), ElfFault>
    ensures fine { OnOk result (HasTable file.now) }
    ensures fault { IfErr result (HasElfFault file.now) }
    ensures named { IfErr result (λ fault. fault ≢ ElfFault.OutOfMemory) }
{
    if !is_elf(file) {
        return Err(ElfFault::NotElf);
    }
    if file.len() < HEADER_LEN {
        return Err(ElfFault::ShortHeader);
    }
    if file[EI_CLASS] == ELFCLASS64 {
        return Err(ElfFault::Elf64);
    }
    if !is_elf32(file) {
        return Err(ElfFault::OtherFormat);
    }
    if u16_at(file, E_MACHINE) != EM_386 {
        return Err(ElfFault::OtherMachine);
    }
    let kind = u16_at(file, E_TYPE);
    if kind == ET_REL {
        return Err(ElfFault::Unlinked);
    }
    if kind != ET_EXEC && kind != ET_DYN {
        return Err(ElfFault::OtherType);
    }
    if !has_table(file) {
        return Err(ElfFault::BadTable);
    }
    Ok(())
}
