//! Numbers in a file.

ghost use Rattle.std.specs.Prelude.{◌≡◌, ◌+◌, ◌≤◌, length};
ghost use Rattle.nc_elf.specs.Header.{u16_at, u32_at};

use byteorder::{ByteOrder, LittleEndian};

/// The little-endian number in the two bytes at an offset.
#[tactic(auto, unfolding(crate::specs::Header::u16_at))]
pub(crate) fn u16_at(file: &[u8], at: usize) -> u16
    requires { at + 2 ≤ length file.now }
    ensures { result ≡ u16_at file.now at }
{
    LittleEndian::read_u16(&file[at..])
}

/// The little-endian number in the four bytes at an offset.
#[tactic(auto, unfolding(crate::specs::Header::u32_at))]
pub(crate) fn u32_at(file: &[u8], at: usize) -> u32
    requires { at + 4 ≤ length file.now }
    ensures { result ≡ u32_at file.now at }
{
    LittleEndian::read_u32(&file[at..])
}
