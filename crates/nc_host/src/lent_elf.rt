//! The loaded segments of an ELF file, each judged, written into a host's buffer.

ghost use Rattle.std.specs.Prelude.{◌≡◌, ◌≢◌, ◌<◌, ◌^◌, length, All, AllPairs};
ghost use Rattle.nc_elf.specs.declared.fault.ElfFault.{ElfFault};
ghost use Rattle.nc_elf.specs.declared.fault.LoadedFault.{LoadedFault};
ghost use Rattle.nc_elf.specs.Faults.{HasElfFault, MayRefuseLoaded};
ghost use Rattle.nc_elf.specs.Segments.{IsLoadable, IsLoadedBelow, IsWellFormed, loaded_segments_of};
ghost use Rattle.nc_host_acts.specs.Shown.{over};
ghost use Rattle.nc_host.specs.Files.{elf_header, elf_number, refused_file, segment_number};

use crate::fault_numbers::{
    ELF_64_BITS, ELF_BAD_TABLE, ELF_BEYOND_FILE, ELF_BEYOND_MEMORY, ELF_NO_CODE, ELF_NOT_ELF,
    ELF_OTHER_FORMAT, ELF_OTHER_MACHINE, ELF_OTHER_TYPE, ELF_OUT_OF_ORDER, ELF_SHORT_HEADER,
    ELF_UNFILLED_CODE, ELF_UNLINKED, ELF_WRAPS, ELF_WRITABLE_CODE, NO_ROOM, OUT_OF_MEMORY,
};
use crate::lent_results::NcSegments;
use nc_elf::{ElfFault, LoadedFault, NcSegment, SegmentFault, loaded_segments};

/// The number of the fault of a loaded segment.
fn segment_number(fault: SegmentFault) -> u32
    ensures { result ≡ segment_number fault }
{
    match fault {
        SegmentFault::BeyondFile => ELF_BEYOND_FILE,
        SegmentFault::BeyondMemory => ELF_BEYOND_MEMORY,
        SegmentFault::Wraps => ELF_WRAPS,
        SegmentFault::OutOfOrder => ELF_OUT_OF_ORDER,
        SegmentFault::WritableCode => ELF_WRITABLE_CODE,
        SegmentFault::UnfilledCode => ELF_UNFILLED_CODE,
    }
}

/// The number of the fault of an ELF file.
fn elf_number(fault: ElfFault) -> u32
    ensures { result ≡ elf_number fault }
{
    match fault {
        ElfFault::NotElf => ELF_NOT_ELF,
        ElfFault::ShortHeader => ELF_SHORT_HEADER,
        ElfFault::Elf64 => ELF_64_BITS,
        ElfFault::OtherFormat => ELF_OTHER_FORMAT,
        ElfFault::OtherMachine => ELF_OTHER_MACHINE,
        ElfFault::Unlinked => ELF_UNLINKED,
        ElfFault::OtherType => ELF_OTHER_TYPE,
        ElfFault::BadTable => ELF_BAD_TABLE,
        ElfFault::BadSegment { number: _, fault } => segment_number(fault),
        ElfFault::NoCode => ELF_NO_CODE,
        ElfFault::OutOfMemory => OUT_OF_MEMORY,
    }
}

/// The number of the program header that names the segment with the fault, if a segment has it.
fn elf_header(fault: ElfFault) -> u32
    requires { elf_header fault < 2 ^ 32 }
    ensures { result ≡ elf_header fault }
{
    match fault {
        ElfFault::BadSegment { number, fault: _ } => number as u32,
        _ => 0,
    }
}

/// A refusal as a host reads it.
fn refused_file(fault: LoadedFault) -> NcSegments
    requires { (refused_file fault).header < 2 ^ 32 }
    ensures { result ≡ refused_file fault }
{
    match fault {
        LoadedFault::Refused(fault) => NcSegments {
            count: 0,
            fault: elf_number(fault),
            header: elf_header(fault),
        },
        LoadedFault::NoRoom(wanted) => NcSegments {
            count: wanted,
            fault: NO_ROOM,
            header: 0,
        },
    }
}

/// Writes the loaded segments of a linked 32-bit x86 ELF file, of code and of data, in the order of its program headers, if each
/// of them can be loaded as its header says. It takes no memory.
#[unsafe(no_mangle)]
pub extern "C" fn nc_host_elf(file: &[u8], segments: &mut [NcSegment]) -> NcSegments
    // All loaded segments with bytes in memory, and nothing else.
    ensures written { result.fault ≡ 0 → (result ≡ record { count = length (loaded_segments_of file.now); fault = 0; header = 0 })
        × (segments.new ≡ over (loaded_segments_of file.now) segments.old) }
    ensures well_formed { result.fault ≡ 0 → IsWellFormed file.now }
    ensures loadable { result.fault ≡ 0 → All (IsLoadable file.now) (loaded_segments_of file.now) }
    ensures apart { result.fault ≡ 0 → AllPairs IsLoadedBelow (loaded_segments_of file.now) }
    // A refusal says what is wrong with the file, or how much room it needs.
    ensures refused { 0 < result.fault → (f : LoadedFault) × MayRefuseLoaded file.now (length segments.old) f × (result ≡ refused_file f) }
    // The fault that a file has is the one that is reported.
    ensures exact { (f : ElfFault) → f ≢ ElfFault.OutOfMemory → HasElfFault file.now f → result ≡ refused_file (LoadedFault.Refused f) }
    ensures untouched { 0 < result.fault → segments.new ≡ segments.old }
{
    match loaded_segments(file, segments) {
        Ok(count) => NcSegments {
            count,
            fault: 0,
            header: 0,
        },
        Err(fault) => refused_file(fault),
    }
}
