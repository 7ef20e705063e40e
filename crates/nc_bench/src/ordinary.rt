//! The code that chunks are made of.

use std::alloc::{AllocError, Global};

/// A bundle of ordinary code with a direct branch and a masked jump in it.
static BUNDLE: [u8; 32] = [
    0x8B, 0x45, 0x08, 0x89, 0x44, 0x24, 0x04, 0x83, 0xC0, 0x01, 0x85, 0xC0, 0x74, 0x05, 0xB8, 0x01,
    0x00, 0x00, 0x00, 0x0F, 0xB6, 0xC0, 0x8D, 0x04, 0x80, 0x55, 0x5D, 0x83, 0xE1, 0xE0, 0xFF, 0xE1,
];

/// The offset in the bundle of the instruction that is patched: `mov eax, 1`.
pub const PATCH_AT: u32 = 14;

/// The new instruction: `mov eax, 2`.
pub static PATCH: [u8; 5] = [0xB8, 0x02, 0x00, 0x00, 0x00];

/// Ordinary code of this many bundles.
pub fn ordinary_code(alloc: Global, bundles: u32) -> Result<Vec<u8>, AllocError> {
    BUNDLE.repeat(alloc, bundles as usize)
}
