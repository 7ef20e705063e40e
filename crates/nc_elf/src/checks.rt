//! Checks whether a file is well-formed.

ghost use Rattle.std.specs.Prelude.{◌≢◌, ◌<◌, ◌↔◌, IsTrue, IfErr, OnOk, IfNone, IfSome};
ghost use Rattle.nc_elf.specs.declared.fault.ElfFault.{ElfFault};
ghost use Rattle.nc_elf.specs.Header.{e_phnum, HasTable};
ghost use Rattle.nc_elf.specs.Segments.{AreGood, IsGoodSegment, HasCode, IsWellFormed};
ghost use Rattle.nc_elf.specs.Faults.{HasElfFault, HasSegmentFault};
ghost use Rattle.nc_elf.specs.machinery.Pass.{IsFloor};

use crate::fault::{ElfFault, SegmentFault};
use crate::header::check_header;
use crate::program::{header_count, program_header};

/// The number of addresses.
const TOP: u64 = 1 << 32;

/// The first fault of a loaded segment, which has to begin at `floor` or above.
fn segment_fault(file: &[u8], number: usize, floor: u64) -> Option<SegmentFault>
    requires table { HasTable file.now }
    requires listed { number < e_phnum file.now }
    requires floor { IsFloor file.now number floor }
    ensures none { IfNone result (IsGoodSegment file.now number) }
    ensures some { IfSome result (HasSegmentFault file.now number) }
{
    let header = program_header(file, number);
    if !header.is_in_file(file) {
        return Some(SegmentFault::BeyondFile);
    }
    if header.file_len > header.memory_len {
        return Some(SegmentFault::BeyondMemory);
    }
    if header.end() > TOP {
        return Some(SegmentFault::Wraps);
    }
    if (header.address as u64) < floor {
        return Some(SegmentFault::OutOfOrder);
    }
    if header.is_executable() && header.is_writable() {
        return Some(SegmentFault::WritableCode);
    }
    if header.is_executable() && header.file_len < header.memory_len {
        return Some(SegmentFault::UnfilledCode);
    }
    None
}

/// The first fault of the loaded segments, if there is one.
fn check_segments(file: &[u8]) -> Result<(), ElfFault>
    requires { HasTable file.now }
    ensures fine { OnOk result (AreGood file.now (e_phnum file.now)) }
    ensures fault { IfErr result (HasElfFault file.now) }
    ensures named { IfErr result (λ fault. fault ≢ ElfFault.OutOfMemory) }
{
    let mut floor = 0;
    for number in 0..header_count(file) {
        let header = program_header(file, number);
        if header.is_load() {
            if let Some(fault) = segment_fault(file, number, floor) {
                return Err(ElfFault::BadSegment { number, fault });
            }
            floor = header.end();
        }
    }
    Ok(())
}

/// Whether a program header names code.
fn has_code(file: &[u8]) -> bool
    requires { HasTable file.now }
    ensures { IsTrue result ↔ HasCode file.now }
{
    for number in 0..header_count(file) {
        if program_header(file, number).is_code() {
            return true;
        }
    }
    false
}

/// The first fault of a file, if there is one.
pub(crate) fn check(file: &[u8]) -> Result<(), ElfFault>
    ensures fine { OnOk result (IsWellFormed file.now) }
    ensures fault { IfErr result (HasElfFault file.now) }
    ensures named { IfErr result (λ fault. fault ≢ ElfFault.OutOfMemory) }
{
    check_header(file)?;
    check_segments(file)?;
    if !has_code(file) {
        return Err(ElfFault::NoCode);
    }
    Ok(())
}
