//! Pieces of compiled code, of which chunks are made.

use crate::random::Random;
use std::alloc::{AllocError, Global};

/// The number of bytes of a bundle.
pub const BUNDLE: usize = 32;

/// A nop.
const NOP: u8 = 0x90;

/// The place of a piece in the code of all pieces.
#[derive(Clone, Copy, Drop)]
struct Span {
    start: usize,
    len: usize,
    patch: u32,
}

/// Pieces of compiled code, by ascending length. Each is whole bundles, and its direct transfers go to places within it, or to
/// bundle starts at most some two megabytes away; so pieces in any order are a valid chunk.
#[derive(Drop)]
pub struct Pieces {
    file: Vec<u8>,
    spans: Vec<Span>,
}

/// The number of two bytes at an index of a file.
fn number_at(file: &[u8], at: usize) -> u16 {
    let low = file.get(at).copied().unwrap_or(0);
    let high = file.get(at.saturating_add(1)).copied().unwrap_or(0);
    u16::from_le_bytes([low, high])
}

/// The bytes from a place of a file on, or none where it has fewer.
fn part(file: &[u8], start: usize, len: usize) -> &[u8] {
    if start <= file.len() && len <= file.len() - start {
        &file[start..start + len]
    } else {
        &[]
    }
}

impl Pieces {
    /// The pieces of a file: their number; for each the number of its bundles, and the offset of an instruction of five bytes
    /// that can be patched, or FFFF; then their code. Numbers have two bytes.
    pub fn new(alloc: Global, file: Vec<u8>) -> Result<Pieces, AllocError> {
        let count = usize::from(number_at(&file, 0));
        let mut spans = Vec::with_capacity(alloc, count)?;
        let mut start = 2 + 4 * count;
        for i in 0..count {
            let len = BUNDLE * usize::from(number_at(&file, 2 + 4 * i));
            spans.push(Span {
                start,
                len,
                patch: u32::from(number_at(&file, 4 + 4 * i)),
            })?;
            start = start.saturating_add(len);
        }
        Ok(Pieces { file, spans })
    }

    /// The number of pieces of at most this many bundles.
    pub fn count_to(&self, bundles: usize) -> usize {
        let mut count = 0usize;
        for span in &self.spans {
            if span.len <= bundles.saturating_mul(BUNDLE) {
                count = count.saturating_add(1);
            }
        }
        count
    }

    /// The number of pieces.
    pub fn count(&self) -> usize {
        self.spans.len()
    }

    /// The code of a piece.
    pub fn code(&self, i: usize) -> &[u8] {
        match self.spans.get(i) {
            Some(span) => part(&self.file, span.start, span.len),
            None => &[],
        }
    }

    /// The offset in a piece of an instruction that can be patched, and its first byte.
    pub fn patch(&self, i: usize) -> Option<(u32, u8)> {
        let span = self.spans.get(i)?;
        let first = self.code(i).get(span.patch as usize)?;
        Some((span.patch, *first))
    }

    /// A chunk of this many bundles, made of pieces at random; nops fill it up.
    pub fn module(
        &self,
        alloc: Global,
        random: &mut Random,
        bundles: usize,
    ) -> Result<Vec<u8>, AllocError> {
        let len = bundles.saturating_mul(BUNDLE);
        let mut code = Vec::with_capacity(alloc, len)?;
        for _ in 0..bundles {
            let piece = self.code(random.index(self.count()));
            if piece.len() > len.saturating_sub(code.len()) {
                break;
            }
            code.extend_from_slice(piece)?;
        }
        code.resize(len, NOP)?;
        Ok(code)
    }
}
