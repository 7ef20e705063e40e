//! The loaded segments of a file, of code and of data, written into a caller's buffer.

ghost use Rattle.std.specs.Prelude.{◌≡◌, ◌≢◌, ◌<◌, ◌≤◌, ◌++◌, ◌↔◌, length, drop, IfOk, IfErr, OnOk, OnErr, All, AllPairs};
ghost use Rattle.nc_elf.specs.declared.fault.ElfFault.{ElfFault};
ghost use Rattle.nc_elf.specs.Header.{HasTable};
ghost use Rattle.nc_elf.specs.Segments.{loaded_segments_of, IsWellFormed, IsLoadable, IsLoadedBelow};
ghost use Rattle.nc_elf.specs.Faults.{HasElfFault, MayRefuseLoaded};

use crate::checks::check;
use crate::fault::{ElfFault, LoadedFault};
use crate::program::{header_count, program_header};

/// A loaded segment, as its program header describes it, with the layout that C reads.
#[repr(C)]
#[derive(Clone, Copy)]
pub struct NcSegment {
    /// The address of its first byte in memory.
    pub address: u32,
    /// The offset of its first byte in the file.
    pub offset: u32,
    /// The number of its bytes in the file.
    pub file_len: u32,
    /// The number of its bytes in memory; those after the ones in the file are 0.
    pub memory_len: u32,
    /// The flags of the program header: 1 if it may be executed, 2 if it may be written, 4 if it may be read, and any others.
    pub flags: u32,
}

/// The number of loaded segments.
fn loaded_count(file: &[u8]) -> usize
    requires { HasTable file.now }
    ensures { result ≡ length (loaded_segments_of file.now) }
{
    let mut count = 0;
    for number in 0..header_count(file) {
        if program_header(file, number).is_present() {
            count += 1;
        }
    }
    count
}

/// Writes the loaded segments over the first elements of a slice that is no shorter.
fn write_loaded(file: &[u8], room: &mut [NcSegment])
    requires table { HasTable file.now }
    requires fits { length (loaded_segments_of file.now) ≤ length room.old }
    ensures { room.new ≡ loaded_segments_of file.now ++ drop (length (loaded_segments_of file.now)) room.old }
{
    let mut count = 0;
    for number in 0..header_count(file) {
        let header = program_header(file, number);
        if header.is_present() {
            room[count] = header.loaded();
            count += 1;
        }
    }
}

/// Writes the loaded segments of a linked 32-bit x86 file, of code and of data, over the first elements of `room`, in the order
/// of its program headers, and returns their number. It allocates nothing.
///
/// # Errors
///
/// `Refused` exactly if the file has a fault, with the fault that `code_segments` reports; `NoRoom`, with the number of segments, if
/// there are more of them than elements. Both leave `room` as it was.
pub fn loaded_segments(file: &[u8], room: &mut [NcSegment]) -> Result<usize, LoadedFault>
    // All loaded segments with bytes in memory, and nothing else; what is behind them stays.
    ensures written { IfOk result (λ count. (count ≡ length (loaded_segments_of file.now))
        × (room.new ≡ loaded_segments_of file.now ++ drop count room.old)) }
    // The file is linked and for the Intel 80386, and its loaded segments have no fault.
    ensures well_formed { OnOk result (IsWellFormed file.now) }
    // Each segment can be loaded from the file.
    ensures loadable { OnOk result (All (IsLoadable file.now) (loaded_segments_of file.now)) }
    // Each segment ends at or below the addresses where the later ones begin.
    ensures apart { OnOk result (AllPairs IsLoadedBelow (loaded_segments_of file.now)) }
    ensures untouched { OnErr result (room.new ≡ room.old) }
    // A refusal reports the file's fault, or that there is no room.
    ensures fault { IfErr result (MayRefuseLoaded file.now (length room.old)) }
    // Each fault except lack of memory is reported exactly if the file has it.
    ensures exact { (fault : ElfFault) → fault ≢ ElfFault.OutOfMemory
        → ((result ≡ Err (LoadedFault.Refused fault)) ↔ HasElfFault file.now fault) }
{
    if let Err(fault) = check(file) {
        return Err(LoadedFault::Refused(fault));
    }
    let count = loaded_count(file);
    if count > room.len() {
        return Err(LoadedFault::NoRoom(count));
    }
    write_loaded(file, room);
    Ok(count)
}
