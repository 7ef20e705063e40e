//! A chunk that is known to be valid, and its marks in the form in which they are kept.

ghost use Rattle.std.specs.Prelude.{◌≡◌, ◌<◌, length, slice_get, Some, IfSome, slice_index};
ghost use Rattle.nc_decode.specs.Bits.{marks_in, bit_mark, mark_by_bits};
ghost use Rattle.nc_vet.specs.Listed.{listed};

use nc_decode::{Bundle, Mark, bundle_at};
use std::marker::Model;

/// The marks of a chunk. They mean nothing without its code.
#[derive(Drop)]
pub enum Marks {
    /// The bits of its bundles, from which a mark is computed on request.
    Bits(Vec<Bundle>),
    /// One mark for each byte, if there was no memory for bits.
    Each(Vec<Mark>),
}

/// The mark at byte `k` of a bundle; `next`, the byte after it, names the register of an indirect transfer.
#[inline(always)]
fn bit_mark(bundle: Bundle, k: usize, next: u8) -> Mark
    requires { k < 32 }
    ensures { result ≡ bit_mark bundle k next }
{
    if u64::from(bundle.pairs) >> (k + 1) & 1 == 1 {
        Mark::After(next % 8)
    } else if k == 0 || bundle.ends >> (k - 1) & 1 == 1 {
        Mark::Plain
    } else {
        Mark::Unmarked
    }
}

/// The byte at `k`, or 0 after the last.
#[inline(always)]
fn byte_at(code: &[u8], k: usize) -> u8
    ensures { result ≡ slice_index code.now k }
{
    if k < code.len() { code[k] } else { 0 }
}

/// The mark of place `k`, by the bits of the bundles.
#[inline(always)]
fn mark_at(code: &[u8], bundles: &[Bundle], k: usize) -> Mark
    requires { k < length code.now }
    ensures { result ≡ mark_by_bits code.now bundles.now k }
{
    bit_mark(bundle_at(bundles, k / 32), k % 32, byte_at(code, k + 1))
}

impl Marks {
    /// The mark of place `k` of the code.
    #[inline(always)]
    pub fn at(&self, code: &[u8], k: usize) -> Mark
        requires place { k < length code.now }
        requires each { length (listed code.now self.now) ≡ length code.now }
        ensures { slice_get (listed code.now self.now) k ≡ Some result }
    {
        match self {
            Marks::Bits(bundles) => mark_at(code, bundles, k),
            Marks::Each(marks) => marks[k],
        }
    }
}

/// A valid chunk, with its base, the limit for which it was vetted, and its marks.
///
/// It can be made only from a chunk that is known to be valid, and it never changes.
#[derive(Drop)]
pub struct Vetted {
    base: u32,
    limit: u32,
    code: Vec<u8>,
    marks: Marks,
}

impl Model for Vetted {
    ghost use Rattle.nc_vet.specs.Chunk.{MarkedChunk, IsValid};
    ghost use Rattle.nc_vet.specs.Listed.{listed};

    ghost Value = { MarkedChunk };

    ghost view = { λ v. record { base = v.base; limit = v.limit; code = v.code.items; marks = listed v.code.items v.marks } };

    ghost invariant = { λ v.
        IsValid (record { base = v.base; limit = v.limit; code = v.code.items; marks = listed v.code.items v.marks }) };
}

impl Vetted {
    ghost use Rattle.nc_vet.specs.Chunk.{IsValid};
    ghost use Rattle.nc_vet.specs.Listed.{listed};

    /// Makes a `Vetted` of a chunk that is known to be valid.
    pub fn new(base: u32, limit: u32, code: Vec<u8>, marks: Marks) -> Vetted
        requires { IsValid (record { base = base; limit = limit; code = code.items; marks = listed code.items marks }) }
        ensures { result ≡ record { base = base; limit = limit; code = code.items; marks = listed code.items marks } }
    {
        Vetted {
            base,
            limit,
            code,
            marks,
        }
    }

    /// The address of the chunk's first byte.
    pub fn base(&self) -> u32
        ensures value { result ≡ self.now.base }
    {
        self.base
    }

    /// The end of the region for which the chunk was vetted.
    pub fn limit(&self) -> u32
        ensures value { result ≡ self.now.limit }
    {
        self.limit
    }

    /// The chunk's bytes.
    pub fn code(&self) -> &[u8]
        ensures value { result.now ≡ self.now.code }
        ensures valid { IsValid self.now }
    {
        &self.code
    }

    /// The mark of the byte at offset `i` from the base: `After(r)` for an indirect transfer on register r, `Plain` for the
    /// start of any other instruction, `Unmarked` elsewhere.
    pub fn mark(&self, i: usize) -> Mark
        requires { i < length self.now.code }
        ensures value { slice_get self.now.marks i ≡ Some result }
    {
        self.marks.at(&self.code, i)
    }

    /// The bits of the chunk's bundles, if its marks are kept as bits. They are, unless there was no memory for bits.
    pub fn bundles(&self) -> Option<&[Bundle]>
        ensures marks { IfSome result (λ b. self.now.marks ≡ marks_in self.now.code b.now) }
    {
        match &self.marks {
            Marks::Bits(bundles) => Some(bundles),
            Marks::Each(_) => None,
        }
    }
}
