//! The faults for which the segments of a file aren't listed.

use thiserror::Error;

/// The fault of a loaded segment: the first that holds, in this order.
#[derive(Clone, Copy, Debug, Drop, PartialEq, Eq, Error)]
pub enum SegmentFault {
    /// Some of its bytes would be after the end of the file.
    #[error("reaches beyond the end of the file")]
    BeyondFile,
    /// It has more bytes in the file than in memory.
    #[error("has more bytes in the file than in memory")]
    BeyondMemory,
    /// It ends above the last address.
    #[error("ends above the last address, ffffffff")]
    Wraps,
    /// It overlaps an earlier loaded segment, or is below one.
    #[error("overlaps an earlier segment or lies below it")]
    OutOfOrder,
    /// It is both writable and executable.
    #[error("is both writable and executable")]
    WritableCode,
    /// It is executable, and has bytes in memory that aren't in the file.
    #[error("is executable and has bytes in memory that aren't in the file")]
    UnfilledCode,
}

/// The fault for which the segments of a file aren't listed: the first that holds, in this order.
#[derive(Clone, Copy, Debug, Drop, PartialEq, Eq, Error)]
pub enum ElfFault {
    /// The file doesn't begin with 7F, `E`, `L`, `F`.
    #[error("not an ELF file")]
    NotElf,
    /// The file ends before the end of its header.
    #[error("the file ends in its ELF header")]
    ShortHeader,
    /// The file is for 64 bits.
    #[error("a 64-bit file: compile its source with nc-cc")]
    Elf64,
    /// The file is big-endian, or of an unknown size or version.
    #[error("not a 32-bit little-endian ELF file of version 1")]
    OtherFormat,
    /// The file is for another processor.
    #[error("not for the Intel 80386: compile its source with nc-cc")]
    OtherMachine,
    /// The file is an object file, which hasn't been linked.
    #[error("not linked: link it with nc-cc, or with ld -T chunk.ld")]
    Unlinked,
    /// The file is neither an executable file nor a shared object.
    #[error("neither an executable file nor a shared object")]
    OtherType,
    /// The program headers aren't 32 bytes long, are too many for the header's count, or aren't all in the file.
    #[error("the program headers aren't 32 bytes long, are 65535 or more, or aren't all in the file")]
    BadTable,
    /// A loaded segment has a fault. It is the first such segment; `number` is that of its program header, counted from 0.
    #[error("the segment of program header {number} {fault}")]
    BadSegment { number: usize, fault: SegmentFault },
    /// No loaded segment is executable and has bytes in the file.
    #[error("no loaded segment is executable and has bytes in the file")]
    NoCode,
    /// There was no memory for the list.
    #[error("out of memory")]
    OutOfMemory,
}

/// Why the loaded segments of a file aren't written into a buffer.
#[derive(Clone, Copy, Drop)]
pub enum LoadedFault {
    /// The file has this fault.
    Refused(ElfFault),
    /// The buffer has fewer elements than the file has loaded segments, which are this many.
    NoRoom(usize),
}
