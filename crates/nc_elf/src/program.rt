//! Program headers, each of which names a segment.

ghost use Rattle.std.specs.Prelude.{◌≡◌, ◌+◌, ◌<◌, ◌↔◌, IsTrue};
ghost use Rattle.nc_elf.specs.Header.{e_phnum, HasTable};
ghost use Rattle.nc_elf.specs.Segments.{program_header, is_load, is_executable, is_writable, is_code, is_present, segment_of, loaded_of, IsInFile};

use crate::header::{E_PHNUM, E_PHOFF};
use crate::listing::Segment;
use crate::loaded::NcSegment;
use crate::numbers::{u16_at, u32_at};

/// The length of a program header.
pub(crate) const PROGRAM_HEADER_LEN: usize = 32;

// The offsets of a program header's fields, by their names in the System V ABI.
const P_TYPE: usize = 0;

const P_OFFSET: usize = 4;

const P_VADDR: usize = 8;

const P_FILESZ: usize = 16;

const P_MEMSZ: usize = 20;

const P_FLAGS: usize = 24;

/// The type of a segment that is loaded.
const PT_LOAD: u32 = 1;

/// The flag of an executable segment.
const PF_X: u32 = 1;

/// The flag of a writable segment.
const PF_W: u32 = 2;

/// The contents of a program header.
#[derive(Clone, Copy, Drop)]
pub(crate) struct ProgramHeader {
    /// The segment's type.
    pub kind: u32,
    /// The offset of its first byte in the file.
    pub offset: u32,
    /// The address of its first byte.
    pub address: u32,
    /// The number of its bytes in the file.
    pub file_len: u32,
    /// The number of its bytes in memory.
    pub memory_len: u32,
    /// Whether it may be executed, written and read.
    pub flags: u32,
}

impl ProgramHeader {
    /// Whether the segment is loaded into memory.
    pub(crate) fn is_load(self) -> bool
        ensures { result ≡ is_load self }
    {
        self.kind == PT_LOAD
    }

    /// Whether the segment is executable.
    pub(crate) fn is_executable(self) -> bool
        ensures { result ≡ is_executable self }
    {
        self.flags & PF_X == PF_X
    }

    /// Whether the segment is writable.
    pub(crate) fn is_writable(self) -> bool
        ensures { result ≡ is_writable self }
    {
        self.flags & PF_W == PF_W
    }

    /// Whether the segment is loaded and executable, and has bytes in the file.
    pub(crate) fn is_code(self) -> bool
        ensures { result ≡ is_code self }
    {
        self.is_load() && self.is_executable() && self.file_len > 0
    }

    /// Whether the segment is loaded, and has bytes in memory.
    pub(crate) fn is_present(self) -> bool
        ensures { result ≡ is_present self }
    {
        self.is_load() && self.memory_len > 0
    }

    /// Whether the file contains all the bytes that the header places in it.
    pub(crate) fn is_in_file(self, file: &[u8]) -> bool
        ensures { IsTrue result ↔ IsInFile file.now self }
    {
        self.offset as usize + self.file_len as usize <= file.len()
    }

    /// The first address after the segment.
    pub(crate) fn end(self) -> u64
        ensures { result ≡ self.address + self.memory_len }
    {
        u64::from(self.address) + u64::from(self.memory_len)
    }

    /// The position of those of the segment's bytes that are in the file.
    pub(crate) fn segment(self) -> Segment
        ensures { result ≡ segment_of self }
    {
        Segment {
            address: self.address,
            offset: self.offset,
            len: self.file_len,
        }
    }

    /// The segment as a loader needs it.
    pub(crate) fn loaded(self) -> NcSegment
        ensures { result ≡ loaded_of self }
    {
        NcSegment {
            address: self.address,
            offset: self.offset,
            file_len: self.file_len,
            memory_len: self.memory_len,
            flags: self.flags,
        }
    }
}

/// The number of program headers.
pub(crate) fn header_count(file: &[u8]) -> usize
    requires { HasTable file.now }
    ensures { result ≡ e_phnum file.now }
{
    u16_at(file, E_PHNUM) as usize
}

/// The program header of this number, counted from 0.
pub(crate) fn program_header(file: &[u8], number: usize) -> ProgramHeader
    requires table { HasTable file.now }
    requires listed { number < e_phnum file.now }
    ensures { result ≡ program_header file.now number }
{
    let at = u32_at(file, E_PHOFF) as usize + PROGRAM_HEADER_LEN * number;
    ProgramHeader {
        kind: u32_at(file, at + P_TYPE),
        offset: u32_at(file, at + P_OFFSET),
        address: u32_at(file, at + P_VADDR),
        file_len: u32_at(file, at + P_FILESZ),
        memory_len: u32_at(file, at + P_MEMSZ),
        flags: u32_at(file, at + P_FLAGS),
    }
}
