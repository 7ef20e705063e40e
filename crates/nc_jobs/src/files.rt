//! The jobs of judging files: compiled code that is mostly accepted, and code whose every fault is asked for.

use crate::digest::Digest;
use crate::input::Input;
use crate::pieces::{BUNDLE, Pieces};
use crate::random::Random;
use nc_decode::MAX_BUNDLES;
use nc_output::{Detail, Format, Style};
use nc_report::{Labels, Source, report};
use std::alloc::{AllocError, Global};

/// The address of each file's code.
const BASE: u32 = 0x100_0000;

/// Writes the report on a file to the digest.
fn judge(
    alloc: Global,
    digest: &mut Digest,
    code: Vec<u8>,
    detail: Detail,
) -> Result<(), AllocError> {
    let source = Source {
        name: Vec::from_slice(alloc, b"file")?,
        code,
        labels: Labels::none(alloc),
    };
    let style = Style {
        detail,
        format: Format::Text,
    };
    match report(alloc, source, BASE, MAX_BUNDLES, style, digest) {
        Ok(refused) => digest.add(u64::from(refused)),
        Err(_) => digest.add(7),
    }
    Ok(())
}

/// Overwrites this many bytes at random.
fn spoil(code: &mut [u8], random: &mut Random, count: u32) {
    for _ in 0..count {
        let i = random.index(code.len());
        let byte = (random.word() >> 24) as u8;
        if let Some(place) = code.get_mut(i) {
            *place = byte;
        }
    }
}

/// Judges this many files of 64 KB to 2 MB, each sixteenth of them with a few bytes spoiled.
pub fn run_judge(alloc: Global, digest: &mut Digest, input: Input<'_>) -> Result<(), AllocError> {
    let mut random = Random::new(input.seed);
    for i in 0..input.count {
        let bundles = 2048usize.saturating_add(random.index(63_488));
        let mut code = input.pieces.module(alloc, &mut random, bundles)?;
        if i % 16 == 15 {
            spoil(&mut code, &mut random, 3);
        }
        judge(alloc, digest, code, Detail::Usual)?;
    }
    Ok(())
}

/// Code as a plain compiler emits it, which knows nothing of bundles: pieces that begin anywhere.
fn plain(
    alloc: Global,
    pieces: &Pieces,
    random: &mut Random,
    bundles: usize,
) -> Result<Vec<u8>, AllocError> {
    let len = bundles.saturating_mul(BUNDLE);
    let mut code = Vec::with_capacity(alloc, len)?;
    for _ in 0..bundles {
        let piece = pieces.code(random.index(pieces.count()));
        let start = random.index(piece.len().min(BUNDLE));
        if piece.len().saturating_sub(start) > len.saturating_sub(code.len()) {
            break;
        }
        for byte in piece.iter().skip(start) {
            code.push(*byte)?;
        }
    }
    code.resize(len, 0x90)?;
    Ok(code)
}

/// Asks for all faults of this many files: three of four are of 512 KB with some hundred faults, each fourth is 128 KB from a
/// plain compiler.
pub fn run_faults(alloc: Global, digest: &mut Digest, input: Input<'_>) -> Result<(), AllocError> {
    let mut random = Random::new(input.seed);
    for i in 0..input.count {
        let code = if i % 4 == 3 {
            plain(alloc, input.pieces, &mut random, 4096)?
        } else {
            let mut code = input.pieces.module(alloc, &mut random, 16_384)?;
            spoil(&mut code, &mut random, 100);
            code
        };
        judge(alloc, digest, code, Detail::All)?;
    }
    Ok(())
}
