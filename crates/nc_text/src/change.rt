//! Changes of the bytes or of the marks of whole bundles.

ghost use Rattle.std.specs.Prelude.{◌≡◌, ℕ, ◌+◌, ◌%◌, ◌^◌, ◌<◌, ◌≤◌, ◌⊎◌, length, slice_index};
ghost use Rattle.nc_decode.specs.Bits.{mark_by_bits};
ghost use Rattle.nc_decode.specs.declared.instruction.Mark.{Mark};
ghost use Rattle.nc_text.specs.machinery.Pages.{byte_on, mark_on};

use crate::page::Page;
use nc_decode::Bundle;

/// A change of a span of places, which is made page by page.
pub(crate) trait Change {
    /// The number of places.
    ghost size: { Self → ℕ };

    /// The byte of a place afterwards, by its number in the span, its mark and its byte before.
    ghost byte: { Self → ℕ → Mark → ℕ → ℕ };

    /// The mark of a place afterwards, by its number in the span and its mark before.
    ghost mark: { Self → ℕ → Mark → Mark };

    /// The number of places.
    fn size(&self) -> usize
        ensures { result ≡ size self.now };

    /// Makes the change at `len` places of a page from `at` on, which are those of the span from number `from` on.
    fn make(&self, page: &mut Page, at: usize, from: usize, len: usize)
        requires inside { at + len ≤ 4096 }
        requires start { at % 32 ≡ 0 }
        requires from { from % 32 ≡ 0 }
        requires whole { len % 32 ≡ 0 }
        requires part { from + len ≤ size self.now }
        requires fits { size self.now < 2 ^ 62 }
        ensures bytes { (k : ℕ) → k < len
            → byte_on page.new (at + k) ≡ byte self.now (from + k) (mark_on page.old (at + k)) (byte_on page.old (at + k)) }
        ensures marks { (k : ℕ) → k < len → mark_on page.new (at + k) ≡ mark self.now (from + k) (mark_on page.old (at + k)) }
        ensures other_bytes { (k : ℕ) → (k < at) ⊎ (at + len ≤ k) → byte_on page.new k ≡ byte_on page.old k }
        ensures other_marks { (k : ℕ) → (k < at) ⊎ (at + len ≤ k) → mark_on page.new k ≡ mark_on page.old k };
}

/// Puts the bytes of code, and sets their marks by the bits of its bundles.
#[derive(Drop)]
pub(crate) struct PutBundles<'a> {
    pub(crate) code: &'a [u8],
    pub(crate) bundles: &'a [Bundle],
}

impl Change for PutBundles<'_> {
    ghost size = { λ p. length p.code.now };

    ghost byte = { λ p k mark old. slice_index p.code.now k };

    ghost mark = { λ p k mark. mark_by_bits p.code.now p.bundles.now k };

    fn size(&self) -> usize {
        self.code.len()
    }

    fn make(&self, page: &mut Page, at: usize, from: usize, len: usize) {
        page.put_span(at, &self.code[from..from + len]);
        page.set_bundles(at, self.code, self.bundles, from, len);
    }
}

/// Puts stops at all places of a span.
#[derive(Drop)]
pub(crate) struct Stops {
    pub(crate) len: usize,
}

impl Change for Stops {
    ghost size = { λ s. s.len };

    ghost byte = { λ s k mark old. 0xF4 };

    ghost mark = { λ s k mark. mark };

    fn size(&self) -> usize {
        self.len
    }

    fn make(&self, page: &mut Page, at: usize, _from: usize, len: usize) {
        page.stop(at, len);
    }
}
