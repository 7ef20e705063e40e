//! A chunk that is read place by place.

ghost use Rattle.std.specs.Prelude.{◌≡◌, ◌+◌, ◌%◌, ◌<◌, ◌≤◌, ℕ, List, length, slice_index};
ghost use Rattle.std.specs.Int.{bit_at};
ghost use Rattle.nc_decode.specs.declared.instruction.Mark.{Mark};
ghost use Rattle.nc_decode.specs.Bits.{mark_bit};

/// A chunk, wherever it is stored, read place by place. A place is an index into its code.
///
/// An implementer says which code and marks it reads. No call is refused: the caller stays within the code.
pub trait ReadChunk {
    /// Its code.
    ghost code: { Self → List ℕ };

    /// The mark of each of its places.
    ghost marks: { Self → ℕ → Mark };

    /// The number of its bytes.
    fn len(&self) -> usize
        ensures { result ≡ length (code self.now) };

    /// The byte at a place.
    fn byte(&self, i: usize) -> u8
        requires { i < length (code self.now) }
        ensures { result ≡ slice_index (code self.now) i };

    /// The 32 bytes that begin at a multiple of 32.
    fn bytes(&self, i: usize) -> [u8; 32]
        requires start { i % 32 ≡ 0 }
        requires within { i + 32 ≤ length (code self.now) }
        ensures long { length result ≡ 32 }
        ensures bytes { (k : ℕ) → k < 32 → slice_index result k ≡ slice_index (code self.now) (i + k) };

    /// The marked places of 32 that begin at a multiple of 32: a bit for each, the lowest for the first.
    fn marked_places(&self, i: usize) -> u32
        requires start { i % 32 ≡ 0 }
        requires within { i + 32 ≤ length (code self.now) }
        ensures { (k : ℕ) → k < 32 → bit_at result k ≡ mark_bit (marks self.now (i + k)) };
}
