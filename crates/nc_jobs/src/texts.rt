//! Lines of text, and the job over a script of what a host did.

use crate::digest::Digest;
use crate::input::Input;
use crate::pieces::Pieces;
use crate::plan::{Live, Plan, SEATS};
use crate::random::Random;
use nc_decode::MAX_BUNDLES;
use nc_script::run;
use std::alloc::{AllocError, Global};

/// The address of the first chunk that is only vetted.
pub const FIRST: u32 = 0x100_0000;

/// The most bundles of a chunk in a script.
const MOST: usize = 4;

/// The digits of numbers.
static DIGITS: [u8; 16] = *b"0123456789abcdef";

/// The pieces' code as hexadecimal digits, and the number of pieces that may be a chunk of a script.
#[derive(Drop)]
pub struct Hex<'a> {
    pieces: &'a Pieces,
    texts: Vec<Vec<u8>>,
    small: usize,
}

/// Adds a byte as two hexadecimal digits.
pub fn push_byte(text: &mut Vec<u8>, byte: u8) -> Result<(), AllocError> {
    text.push(DIGITS[usize::from(byte >> 4)])?;
    text.push(DIGITS[usize::from(byte & 15)])?;
    Ok(())
}

/// Adds bytes as hexadecimal digits.
fn push_bytes(text: &mut Vec<u8>, bytes: &[u8]) -> Result<(), AllocError> {
    for byte in bytes {
        push_byte(text, *byte)?;
    }
    Ok(())
}

impl<'a> Hex<'a> {
    /// The digits of each piece.
    pub fn new(alloc: Global, pieces: &'a Pieces) -> Result<Hex<'a>, AllocError> {
        let mut texts = Vec::with_capacity(alloc, pieces.count())?;
        for i in 0..pieces.count() {
            let mut text = Vec::new(alloc);
            push_bytes(&mut text, pieces.code(i))?;
            texts.push(text)?;
        }
        let small = pieces.count_to(MOST);
        Ok(Hex {
            pieces,
            texts,
            small,
        })
    }

    /// The number of pieces of at most this many bundles.
    pub fn count_to(&self, bundles: usize) -> usize {
        self.pieces.count_to(bundles)
    }

    /// The digits of a piece.
    fn digits(&self, piece: usize) -> &[u8] {
        match self.texts.get(piece) {
            Some(digits) => digits.as_slice(),
            None => &[],
        }
    }

    /// Adds the digits of a chunk of this many bytes, made of pieces at random; nops fill it up.
    pub fn push_module(
        &self,
        text: &mut Vec<u8>,
        random: &mut Random,
        bytes: usize,
    ) -> Result<(), AllocError> {
        let mut left = bytes;
        for _ in 0..bytes {
            let digits = self.digits(random.index(self.texts.len()));
            if digits.len() / 2 > left {
                break;
            }
            text.extend_from_slice(digits)?;
            left = left.saturating_sub(digits.len() / 2);
        }
        for _ in 0..left {
            push_byte(text, 0x90)?;
        }
        Ok(())
    }
}

/// Adds an address and a piece, after a word; the line doesn't end with them.
pub fn push_chunk(
    text: &mut Vec<u8>,
    hex: &Hex<'_>,
    word: &[u8],
    live: Live,
) -> Result<(), AllocError> {
    text.extend_from_slice(word)?;
    push_bytes(text, &live.base.to_be_bytes())?;
    text.push(b' ')?;
    text.extend_from_slice(hex.digits(live.piece))
}

/// Adds a line with a word and an address.
pub fn push_address(text: &mut Vec<u8>, word: &[u8], base: u32) -> Result<(), AllocError> {
    text.extend_from_slice(word)?;
    push_bytes(text, &base.to_be_bytes())
}

/// Adds a line that creates a chunk.
fn push_create(text: &mut Vec<u8>, hex: &Hex<'_>, plan: &mut Plan) -> Result<(), AllocError> {
    match plan.create(hex.small)? {
        Some(live) => {
            push_chunk(text, hex, b"create ", live)?;
            text.push(b'\n')?;
            Ok(())
        }
        None => Ok(()),
    }
}

/// Adds a line that patches a chunk.
fn push_patch(text: &mut Vec<u8>, hex: &Hex<'_>, plan: &mut Plan) -> Result<(), AllocError> {
    let Some(patch) = plan.patch(hex.pieces) else {
        return Ok(());
    };
    push_address(text, b"modify ", patch.at)?;
    text.push(b' ')?;
    push_bytes(text, &patch.new)?;
    text.push(b'\n')?;
    Ok(())
}

/// Adds a line that walks through a chunk, with 1 to 30 choices.
fn push_walk(text: &mut Vec<u8>, plan: &mut Plan) -> Result<(), AllocError> {
    let Some(live) = plan.pick() else {
        return Ok(());
    };
    push_address(text, b"walk ", live.base)?;
    for _ in 0..plan.random.below(30).saturating_add(1) {
        let choice = plan.random.word() & 0x01FF_FFE0;
        push_address(text, b" ", choice)?;
    }
    text.push(b'\n')?;
    Ok(())
}

/// Adds a line that deletes a chunk.
fn push_delete(text: &mut Vec<u8>, plan: &mut Plan) -> Result<(), AllocError> {
    if let Some(base) = plan.delete()? {
        push_address(text, b"delete ", base)?;
        text.push(b'\n')?;
    }
    Ok(())
}

/// Adds a line by which a seat checks in.
fn push_check_in(text: &mut Vec<u8>, plan: &mut Plan) -> Result<(), AllocError> {
    let seat = plan.check_in() % 10;
    text.extend_from_slice(b"checkin ")?;
    text.push(DIGITS[seat])?;
    text.push(b'\n')?;
    Ok(())
}

/// Adds twenty lines: creations, patches, walks, deletions, check-ins, and a reclaim.
fn push_turn(text: &mut Vec<u8>, hex: &Hex<'_>, plan: &mut Plan) -> Result<(), AllocError> {
    for _ in 0..3 {
        push_create(text, hex, plan)?;
        push_patch(text, hex, plan)?;
        push_patch(text, hex, plan)?;
        push_walk(text, plan)?;
        push_delete(text, plan)?;
        push_check_in(text, plan)?;
    }
    push_walk(text, plan)?;
    text.extend_from_slice(b"reclaim\n")?;
    plan.reclaim()
}

/// Replays a script of this many times twenty lines, over some two thousand live chunks, with a dump after every four thousand
/// times twenty.
pub fn run_replay(alloc: Global, digest: &mut Digest, input: Input<'_>) -> Result<(), AllocError> {
    let hex = Hex::new(alloc, input.pieces)?;
    let slots = 4096u32.min(input.count);
    let mut plan = Plan::new(alloc, input.seed, slots, 32 * MOST as u32)?;
    let mut text = Vec::new(alloc);
    for _ in 0..slots / 2 {
        push_create(&mut text, &hex, &mut plan)?;
    }
    for i in 0..input.count {
        push_turn(&mut text, &hex, &mut plan)?;
        if i % 4096 == 4095 {
            text.extend_from_slice(b"dump\n")?;
        }
    }
    let mut reader = text.as_slice();
    if run(alloc, &mut reader, digest, MAX_BUNDLES, SEATS).is_err() {
        digest.add(9);
    }
    Ok(())
}
