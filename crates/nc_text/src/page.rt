//! One page of a text.

use crate::masks::Masks;
use nc_decode::{Bundle, Mark, STOP, bundle_at};

/// The number of places on a page.
pub(crate) const PAGE: usize = 4096;

/// The number of places in a bundle.
pub(crate) const BUNDLE: usize = 32;

/// The number of bundles on a page.
const BUNDLES: usize = 128;

/// 4096 bytes of a text and the marks of their 128 bundles.
#[derive(Drop)]
pub(crate) struct Page {
    bytes: [u8; PAGE],
    masks: [Masks; BUNDLES],
}

impl Page {
    ghost use Rattle.std.specs.Prelude.{◌≡◌, ◌≢◌, ℕ, ◌+◌, ◌%◌, ◌^◌, ◌<◌, ◌≤◌, ◌⊎◌, ◌==◌, if◌then◌else◌, All, length, slice_index};
    ghost use Rattle.std.specs.Prelude.{slice_index_or, IfOk};
    ghost use Rattle.nc_decode.specs.Bits.{mark_bit, mark_by_bits};
    ghost use Rattle.nc_decode.specs.declared.instruction.Mark.TheVariants.{Unmarked};
    ghost use Rattle.std.specs.Int.{bit_at};
    ghost use Rattle.nc_text.specs.machinery.Pages.{byte_on, mark_on};
    ghost use Rattle.nc_text.specs.machinery.Masks.{mark_in};
    ghost use Rattle.nc_text.specs.MarkedText.{unused_mark, NamesRegister};

    /// A page of stops with only bundle starts marked.
    pub(crate) fn new() -> Self
        ensures bytes { (k : ℕ) → k < 4096 → byte_on result k ≡ 0xF4 }
        ensures marks { (k : ℕ) → k < 4096 → mark_on result k ≡ unused_mark k }
    {
        Page {
            bytes: [STOP; PAGE],
            masks: [Masks::unused(); BUNDLES],
        }
    }

    /// The byte at a place.
    pub(crate) fn byte(&self, at: usize) -> u8
        requires { at < 4096 }
        ensures { result ≡ byte_on self.now at }
    {
        self.bytes[at]
    }

    /// The mark at a place.
    pub(crate) fn mark(&self, at: usize) -> Mark
        requires { at < 4096 }
        ensures { result ≡ mark_on self.now at }
    {
        self.masks[at / 32].mark((at % 32) as u32)
    }

    /// The marked places of the bundle that starts at `at`, one bit for each.
    pub(crate) fn marked(&self, at: usize) -> u32
        requires inside { at < 4096 }
        requires start { at % 32 ≡ 0 }
        ensures { (k : ℕ) → k < 32 → bit_at result k ≡ mark_bit (mark_on self.now (at + k)) }
    {
        self.masks[at / 32].marked()
    }

    /// Bytes from `at` on: the first `len` of the result.
    #[inline(always)]
    pub(crate) fn read_run(&self, at: usize, len: usize) -> [u8; 32]
        requires inside { at + len ≤ 4096 }
        requires few { len ≤ 32 }
        ensures { (k : ℕ) → k < len → slice_index result k ≡ byte_on self.now (at + k) }
    {
        let mut bytes = [0; 32];
        for k in 0..len {
            bytes[k] = self.bytes[at + k];
        }
        bytes
    }

    /// Puts one byte.
    pub(crate) fn put(&mut self, at: usize, byte: u8)
        requires { at < 4096 }
        ensures same { byte_on self.new at ≡ byte }
        ensures other { (k : ℕ) → k ≢ at → byte_on self.new k ≡ byte_on self.old k }
        ensures marks { (k : ℕ) → mark_on self.new k ≡ mark_on self.old k }
    {
        self.bytes[at] = byte;
    }

    /// Puts the bytes of a span.
    pub(crate) fn put_span(&mut self, at: usize, code: &[u8])
        requires inside { at + length code.now ≤ 4096 }
        ensures within { (k : ℕ) → k < length code.now → byte_on self.new (at + k) ≡ slice_index code.now k }
        ensures others { (k : ℕ) → (k < at) ⊎ (at + length code.now ≤ k) → byte_on self.new k ≡ byte_on self.old k }
        ensures marks { (k : ℕ) → mark_on self.new k ≡ mark_on self.old k }
    {
        self.bytes[at..at + code.len()].copy_from_slice(code);
    }

    /// Puts stops at all places of a span.
    pub(crate) fn stop(&mut self, at: usize, len: usize)
        requires inside { at + len ≤ 4096 }
        ensures within { (k : ℕ) → k < len → byte_on self.new (at + k) ≡ 0xF4 }
        ensures others { (k : ℕ) → (k < at) ⊎ (at + len ≤ k) → byte_on self.new k ≡ byte_on self.old k }
        ensures marks { (k : ℕ) → mark_on self.new k ≡ mark_on self.old k }
    {
        self.bytes[at..at + len].fill(STOP);
    }

    /// Sets the marks of a span inside one bundle.
    pub(crate) fn set_marks(&mut self, at: usize, marks: &[Mark])
        requires inside { at < 4096 }
        requires one_bundle { at % 32 + length marks.now ≤ 32 }
        requires registers { All NamesRegister marks.now }
        ensures within { (k : ℕ) → k < length marks.now → mark_on self.new (at + k) ≡ slice_index_or marks.now k Unmarked }
        ensures others { (k : ℕ) → (k < at) ⊎ (at + length marks.now ≤ k) → mark_on self.new k ≡ mark_on self.old k }
        ensures bytes { (k : ℕ) → byte_on self.new k ≡ byte_on self.old k }
    {
        self.masks[at / 32].set_from((at % 32) as u32, marks);
    }

    /// Sets the marks of whole bundles by the bits of their instructions. They begin at offset `from` of their chunk's code.
    pub(crate) fn set_bundles(
        &mut self,
        at: usize,
        code: &[u8],
        bundles: &[Bundle],
        from: usize,
        len: usize,
    )
        requires inside { at + len ≤ 4096 }
        requires start { at % 32 ≡ 0 }
        requires whole { len % 32 ≡ 0 }
        requires from { from % 32 ≡ 0 }
        requires fits { from + len < 2 ^ 62 }
        ensures within { (k : ℕ) → k < len → mark_on self.new (at + k) ≡ mark_by_bits code.now bundles.now (from + k) }
        ensures others { (k : ℕ) → (k < at) ⊎ (at + len ≤ k) → mark_on self.new k ≡ mark_on self.old k }
        ensures bytes { (k : ℕ) → byte_on self.new k ≡ byte_on self.old k }
    {
        for n in 0..len / BUNDLE {
            let bundle = bundle_at(bundles, from / BUNDLE + n);
            let masks = Masks::of_bits(bundle, code, from + BUNDLE * n);
            self.set_bundle(at + BUNDLE * n, masks);
        }
    }

    /// Sets the marks of the bundle that starts at `at`.
    fn set_bundle(&mut self, at: usize, masks: Masks)
        requires inside { at < 4096 }
        requires start { at % 32 ≡ 0 }
        ensures within { (k : ℕ) → k < 32 → mark_on self.new (at + k) ≡ mark_in masks k }
        ensures others { (k : ℕ) → (k < at) ⊎ (at + 32 ≤ k) → mark_on self.new k ≡ mark_on self.old k }
        ensures bytes { (k : ℕ) → byte_on self.new k ≡ byte_on self.old k }
    {
        self.masks[at / 32] = masks;
    }

    /// Leaves only bundle starts marked in a span.
    pub(crate) fn unmark(&mut self, at: usize, len: usize)
        requires inside { at + len ≤ 4096 }
        ensures within { (k : ℕ) → k < len → mark_on self.new (at + k) ≡ unused_mark (at + k) }
        ensures others { (k : ℕ) → (k < at) ⊎ (at + len ≤ k) → mark_on self.new k ≡ mark_on self.old k }
        ensures bytes { (k : ℕ) → byte_on self.new k ≡ byte_on self.old k }
    {
        let head = ((PAGE - at) % BUNDLE).min(len);
        let first = (at + head) / BUNDLE;
        let whole = (len - head) / BUNDLE;
        let done = head + BUNDLE * whole;
        self.unmark_part(at, head);
        self.masks[first..first + whole].fill(Masks::unused());
        self.unmark_part(at + done, len - done);
    }

    /// Leaves only bundle starts marked in a span inside one bundle.
    fn unmark_part(&mut self, at: usize, len: usize)
        requires inside { at + len ≤ 4096 }
        requires one_bundle { at % 32 + len ≤ 32 }
        ensures within { (k : ℕ) → k < len → mark_on self.new (at + k) ≡ unused_mark (at + k) }
        ensures others { (k : ℕ) → (k < at) ⊎ (at + len ≤ k) → mark_on self.new k ≡ mark_on self.old k }
        ensures bytes { (k : ℕ) → byte_on self.new k ≡ byte_on self.old k }
    {
        if len == 0 {
            return;
        }
        self.masks[at / 32].unmark((at % 32) as u32, len as u32);
    }
}
