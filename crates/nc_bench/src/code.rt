//! The code that is vetted, made from a file's bytes.

use nc_vet::{VetFault, vet};
use std::alloc::{AllocError, Global};
use std::rt::Files;
use std::{fs, io};

/// The limit of the region that the code is vetted for.
pub const LIMIT: u32 = 0x101_0000;

/// A nop.
const NOP: u8 = 0x90;

/// The number of bytes of a bundle.
const BUNDLE: usize = 32;

/// The last bundle of a stuck chunk: nops, and a return, which is not permitted.
static STUCK: [u8; BUNDLE] = [
    0x90, 0x90, 0x90, 0x90, 0x90, 0x90, 0x90, 0x90, 0x90, 0x90, 0x90, 0x90, 0x90, 0x90, 0x90, 0x90,
    0x90, 0x90, 0x90, 0x90, 0x90, 0x90, 0x90, 0x90, 0x90, 0x90, 0x90, 0x90, 0x90, 0x90, 0x90, 0xC3,
];

/// The last bundle of a chunk that goes astray: nops, and a jump into itself.
static ASTRAY: [u8; BUNDLE] = [
    0x90, 0x90, 0x90, 0x90, 0x90, 0x90, 0x90, 0x90, 0x90, 0x90, 0x90, 0x90, 0x90, 0x90, 0x90, 0x90,
    0x90, 0x90, 0x90, 0x90, 0x90, 0x90, 0x90, 0x90, 0x90, 0x90, 0x90, 0x90, 0x90, 0x90, 0xEB, 0xFF,
];

/// The verdict that the code is prepared for.
#[derive(Clone, Copy, Drop)]
pub enum Kind {
    /// The code is accepted: nops replace each direct transfer to a bad target.
    Accepted,
    /// As `Accepted`, but the last bundle is nops that end with a byte that is not permitted.
    Stuck,
    /// As `Accepted`, but the last bundle is nops that end with a jump to a bad target.
    Astray,
}

/// The source of the code: the first bundles of a file of raw code, or all of them, for an address.
#[derive(Clone, Copy, Drop)]
pub struct Source<'a> {
    pub path: &'a str,
    pub base: u32,
    pub kind: Kind,
    pub bundles: Option<u32>,
}

/// Nops in place of a direct transfer that begins with this byte.
fn nops(byte: u8) -> &'static [u8] {
    match byte {
        0x0F => &[NOP; 6],
        0xE8 | 0xE9 => &[NOP; 5],
        _ => &[NOP; 2],
    }
}

/// Writes bytes over the code from a place on, as far as it goes.
fn overwrite(code: &mut [u8], start: usize, bytes: &[u8]) {
    for (i, byte) in bytes.iter().enumerate() {
        if let Some(place) = code.get_mut(start.saturating_add(i)) {
            *place = *byte;
        }
    }
}

/// The place of the direct transfer to a bad target for which the code is refused, if it is refused for one.
fn bad_target(base: u32, code: Vec<u8>) -> Option<u32> {
    match vet(base, LIMIT, code) {
        Err((_, VetFault::BadTarget { at })) => Some(at),
        _ => None,
    }
}

/// Writes nops over each direct transfer to a bad target, until the code is accepted or refused for another reason.
fn erase_bad_targets(alloc: Global, code: &mut [u8], base: u32) -> Result<(), AllocError> {
    for _ in 0..code.len() {
        let copied = Vec::from_slice(alloc, code)?;
        let Some(at) = bad_target(base, copied) else {
            break;
        };
        let start = at.saturating_sub(base) as usize;
        let first = code.get(start).copied().unwrap_or(NOP);
        overwrite(code, start, nops(first));
    }
    Ok(())
}

/// Prepares code as a source's kind says.
fn prepare(alloc: Global, source: &Source<'_>, code: &mut [u8]) -> Result<(), AllocError> {
    erase_bad_targets(alloc, code, source.base)?;
    let last = code.len().saturating_sub(BUNDLE);
    match source.kind {
        Kind::Accepted => {}
        Kind::Stuck => overwrite(code, last, &STUCK),
        Kind::Astray => overwrite(code, last, &ASTRAY),
    }
    Ok(())
}

/// The code of a source, prepared as its kind says.
pub fn read_code<R: Files + AllocGlobal>(rt: &R, source: &Source<'_>) -> io::Result<Vec<u8>> {
    let mut code = fs::read(rt, source.path)?;
    let bundles = source
        .bundles
        .map_or(code.len() / BUNDLE, |bundles| bundles as usize);
    code.truncate(bundles.saturating_mul(BUNDLE));
    match prepare(rt.alloc(), source, &mut code) {
        Ok(()) => Ok(code),
        Err(error) => Err(io::Error::from(error)),
    }
}
