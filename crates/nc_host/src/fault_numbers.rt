//! The numbers of faults, in the order of `nc_host.h` and by its names without `NC_`. 0, its `NC_OK`, is no fault.

/// The base isn't a bundle start, or is below the region.
pub(crate) const BAD_BASE: u32 = 1;

/// The length is 0, or no whole number of bundles.
pub(crate) const BAD_LENGTH: u32 = 2;

/// No region has this limit, or the chunk reaches into the guard.
pub(crate) const OUT_OF_RANGE: u32 = 3;

/// No permitted instruction is there.
pub(crate) const NOT_PERMITTED: u32 = 4;

/// An instruction crosses the end of its bundle.
pub(crate) const CROSSES: u32 = 5;

/// An indirect transfer doesn't directly follow its mask.
pub(crate) const BARE: u32 = 6;

/// A direct transfer has a target that isn't permitted.
pub(crate) const BAD_TARGET: u32 = 7;

/// The allocator gave no memory.
pub(crate) const OUT_OF_MEMORY: u32 = 8;

/// The buffer is too short.
pub(crate) const NO_ROOM: u32 = 9;

/// The bytes are a proper prefix of a permitted instruction's bytes.
pub(crate) const CUT_SHORT: u32 = 10;

/// There are no new bytes, or they don't lie in one bundle.
pub(crate) const PATCH_BAD_SPAN: u32 = 16;

/// The new bytes don't begin in a live chunk.
pub(crate) const PATCH_NOT_LIVE: u32 = 17;

/// The new bytes aren't whole permitted instructions.
pub(crate) const PATCH_NOT_PERMITTED: u32 = 18;

/// The new instructions don't replace whole ones of the same lengths.
pub(crate) const PATCH_BOUNDARIES: u32 = 19;

/// A mask would get other bytes, or an indirect transfer would come, go or change its register.
pub(crate) const PATCH_PAIR_TOUCHED: u32 = 20;

/// A new direct transfer would have a target that isn't permitted.
pub(crate) const PATCH_BAD_TARGET: u32 = 21;

/// The handle is empty.
pub(crate) const NO_HANDLE: u32 = 32;

/// The handle to be filled isn't empty.
pub(crate) const HANDLE_TAKEN: u32 = 33;

/// No table has this number of seats.
pub(crate) const BAD_SEATS: u32 = 34;

/// No region has this number of bundles.
pub(crate) const BAD_SIZE: u32 = 35;

/// Every seat has been given.
pub(crate) const NO_SEAT: u32 = 36;

/// A deletion is under way.
pub(crate) const UNDER_WAY: u32 = 37;

/// No deletion is under way.
pub(crate) const NOT_BEGUN: u32 = 38;

/// The chunk was vetted for another limit than the region's.
pub(crate) const WRONG_LIMIT: u32 = 39;

/// The span overlaps a chunk of the region.
pub(crate) const OCCUPIED: u32 = 40;

/// There is no such chunk.
pub(crate) const NO_CHUNK: u32 = 41;

/// No stamp is left.
pub(crate) const FULL: u32 = 42;

/// The address isn't in the region.
pub(crate) const NO_PLACE: u32 = 43;

/// No walk begins at the address.
pub(crate) const NO_START: u32 = 44;

/// The file isn't an ELF file.
pub(crate) const ELF_NOT_ELF: u32 = 48;

/// The file ends in its ELF header.
pub(crate) const ELF_SHORT_HEADER: u32 = 49;

/// The file is a 64-bit one.
pub(crate) const ELF_64_BITS: u32 = 50;

/// The file isn't a 32-bit little-endian one of version 1.
pub(crate) const ELF_OTHER_FORMAT: u32 = 51;

/// The file isn't for the Intel 80386.
pub(crate) const ELF_OTHER_MACHINE: u32 = 52;

/// The file is an object file.
pub(crate) const ELF_UNLINKED: u32 = 53;

/// The file is neither an executable file nor a shared object.
pub(crate) const ELF_OTHER_TYPE: u32 = 54;

/// The program headers have another length, are too many, or aren't all in the file.
pub(crate) const ELF_BAD_TABLE: u32 = 55;

/// A loaded segment reaches beyond the end of the file.
pub(crate) const ELF_BEYOND_FILE: u32 = 56;

/// A loaded segment has more bytes in the file than in memory.
pub(crate) const ELF_BEYOND_MEMORY: u32 = 57;

/// A loaded segment ends above the last address.
pub(crate) const ELF_WRAPS: u32 = 58;

/// A loaded segment overlaps an earlier one or lies below it.
pub(crate) const ELF_OUT_OF_ORDER: u32 = 59;

/// A loaded segment is both writable and executable.
pub(crate) const ELF_WRITABLE_CODE: u32 = 60;

/// A loaded segment is executable, and has bytes in memory that aren't in the file.
pub(crate) const ELF_UNFILLED_CODE: u32 = 61;

/// No loaded segment is executable and has bytes in the file.
pub(crate) const ELF_NO_CODE: u32 = 62;
