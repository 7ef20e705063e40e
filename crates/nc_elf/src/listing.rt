//! A segment of code, and the list of those of a file.

ghost use Rattle.std.specs.Prelude.{◌≡◌, ◌≢◌, ◌↔◌, IfOk, IfErr, OnOk, All, AllPairs, ◌+◌, ◌≤◌, length};
ghost use Rattle.nc_elf.specs.declared.fault.ElfFault.{ElfFault};
ghost use Rattle.nc_elf.specs.Header.{HasTable};
ghost use Rattle.nc_elf.specs.Segments.{segments_of, IsWellFormed, IsPlaced, EndsBefore, bytes_of};
ghost use Rattle.nc_elf.specs.Faults.{HasElfFault};

use crate::checks::check;
use crate::fault::ElfFault;
use crate::program::{header_count, program_header};
use std::alloc::{AllocError, Global};

/// The position of a segment's bytes in memory and in the file.
#[derive(Clone, Copy, Debug, Drop, PartialEq, Eq)]
pub struct Segment {
    /// The address of the first byte.
    pub address: u32,
    /// The offset of the first byte in the file.
    pub offset: u32,
    /// The number of bytes.
    pub len: u32,
}

impl Segment {
    /// The segment's bytes, as a slice of its file.
    pub fn bytes<'a>(self, file: &'a [u8]) -> &'a [u8]
        requires { self.offset + self.len ≤ length file.now }
        ensures { result.now ≡ bytes_of file.now self }
    {
        let start = self.offset as usize;
        &file[start..start + self.len as usize]
    }
}

/// The segments of code that the program headers name.
fn list_segments(alloc: Global, file: &[u8]) -> Result<Vec<Segment>, AllocError>
    requires { HasTable file.now }
    ensures { IfOk result (λ segments. segments.items ≡ segments_of file.now) }
{
    let mut segments = Vec::new(alloc);
    for number in 0..header_count(file) {
        let header = program_header(file, number);
        if header.is_code() {
            segments.push(header.segment())?;
        }
    }
    Ok(segments)
}

/// The segments of code of a linked 32-bit x86 file, in the order of its program headers.
///
/// # Errors
///
/// The file's fault is returned exactly if it has one, before anything is allocated. `OutOfMemory` is returned only if an
/// allocation was refused.
pub fn code_segments(alloc: Global, file: &[u8]) -> Result<Vec<Segment>, ElfFault>
    // All segments of code that the program headers name, and nothing else.
    ensures segments { IfOk result (λ segments. segments.items ≡ segments_of file.now) }
    // The file is linked and for the Intel 80386, and its loaded segments have no fault.
    ensures well_formed { OnOk result (IsWellFormed file.now) }
    // Each segment has bytes, which are in the file, and below 2^32 in memory.
    ensures placed { IfOk result (λ segments. All (IsPlaced file.now) segments.items) }
    // Each segment ends at or below the addresses where the later ones begin.
    ensures apart { IfOk result (λ segments. AllPairs EndsBefore segments.items) }
    // A refusal reports the file's fault.
    ensures fault { IfErr result (HasElfFault file.now) }
    // Each fault except lack of memory is reported exactly if the file has it.
    ensures exact { (fault : ElfFault) → fault ≢ ElfFault.OutOfMemory
        → ((result ≡ Err fault) ↔ HasElfFault file.now fault) }
{
    if let Err(fault) = check(file) {
        return Err(fault);
    }
    match list_segments(alloc, file) {
        Ok(segments) => Ok(segments),
        Err(AllocError) => Err(ElfFault::OutOfMemory),
    }
}
