//! The jobs over lines of chunks that are only vetted.

use crate::digest::Digest;
use crate::input::Input;
use crate::plan::Live;
use crate::random::Random;
use crate::refusals::refusal_lines;
use crate::texts::{FIRST, Hex, push_address, push_chunk};
use nc_decode::MAX_BUNDLES;
use nc_lines::vet_lines;
use nc_work::Open;
use std::alloc::{AllocError, Global};
use std::sync::Wait;
use std::thread::Threads;

/// What the lines of a job's texts are.
#[derive(Clone, Copy, Drop)]
pub enum Kind {
    /// Valid chunks, which are large ones in each eighth text.
    Valid,
    /// Chunks of which some are refused, and lines that name none.
    Refused,
}

/// Lines of chunks: 30,000 of 1 to 8 bundles, or 150 modules of 64 KB where `is_large`.
fn chunk_lines(
    alloc: Global,
    hex: &Hex<'_>,
    random: &mut Random,
    is_large: bool,
) -> Result<Vec<u8>, AllocError> {
    let mut text = Vec::new(alloc);
    if is_large {
        for _ in 0..150 {
            push_address(&mut text, b"", FIRST)?;
            text.push(b' ')?;
            hex.push_module(&mut text, random, 65_536)?;
            text.push(b'\n')?;
        }
        return Ok(text);
    }
    let count = hex.count_to(8);
    for i in 0..30_000u32 {
        let base = FIRST.wrapping_add(i.wrapping_mul(256));
        let piece = random.index(count);
        push_chunk(&mut text, hex, b"", Live { base, piece })?;
        text.push(b'\n')?;
    }
    Ok(text)
}

/// Vets this many texts of lines.
pub fn run_lines<T: Threads + Wait + Sync>(
    rt: &T,
    alloc: Global,
    digest: &mut Digest,
    input: Input<'_>,
    kind: Kind,
) -> Result<(), AllocError> {
    let mut random = Random::new(input.seed);
    let hex = Hex::new(alloc, input.pieces)?;
    for i in 0..input.count {
        let text = match kind {
            Kind::Valid => chunk_lines(alloc, &hex, &mut random, i % 8 == 7)?,
            Kind::Refused => refusal_lines(alloc, &hex, &mut random)?,
        };
        let mut reader = text.as_slice();
        if vet_lines(rt, alloc, &mut reader, digest, MAX_BUNDLES, 1, &Open).is_err() {
            digest.add(8);
        }
    }
    Ok(())
}
