//! The marks of one bundle, as masks.

ghost use Rattle.std.specs.Prelude.{◌≡◌, ◌≢◌, ℕ, ◌+◌, ◌*◌, ◌^◌, ◌<◌, if◌then◌else◌, length, slice_index, slice_index_or};
ghost use Rattle.std.specs.Int.{bit_at};
ghost use Rattle.nc_decode.specs.declared.instruction.Mark.{Mark};
ghost use Rattle.nc_text.specs.MarkedText.{unused_mark};
ghost use Rattle.nc_text.specs.machinery.Masks.{plain_bit, second_bit};

use crate::places::lowest_place;
use nc_decode::{Bundle, Mark};

/// The marks of the 32 places of a bundle, one bit for each place in each mask.
#[derive(Clone, Copy)]
pub(crate) struct Masks {
    /// The starts of instructions that may be entered whatever was masked: `Plain`.
    pub(crate) starts: u32,
    /// The starts of the second halves of pairs: `After`.
    pub(crate) seconds: u32,
    /// The lowest bit of the register of each second half.
    pub(crate) low: u32,
    /// The middle bit of the register of each second half.
    pub(crate) middle: u32,
    /// The highest bit of the register of each second half.
    pub(crate) high: u32,
}

impl Masks {
    ghost use Rattle.std.specs.Prelude.{◌≡◌, ◌≢◌, ℕ, ◌+◌, ◌^◌, ◌<◌, ◌≤◌, ◌⊎◌, All, length, slice_index, slice_index_or};
    ghost use Rattle.nc_decode.specs.Bits.{bit_mark, mark_bit};
    ghost use Rattle.nc_decode.specs.declared.instruction.Mark.TheVariants.{Unmarked};
    ghost use Rattle.std.specs.Int.{bit_at};
    ghost use Rattle.nc_text.specs.machinery.Masks.{mark_in, unused_masks};
    ghost use Rattle.nc_text.specs.MarkedText.{NamesRegister, unused_mark};

    /// The marks of a bundle that no chunk uses.
    pub(crate) fn unused() -> Self
        ensures { result ≡ unused_masks }
    {
        Masks {
            starts: 1,
            seconds: 0,
            low: 0,
            middle: 0,
            high: 0,
        }
    }

    /// The mark of a place.
    pub(crate) fn mark(&self, at: u32) -> Mark
        requires { at < 32 }
        ensures { result ≡ mark_in self.now at }
    {
        if bit(self.starts, at) == 1 {
            Mark::Plain
        } else if bit(self.seconds, at) == 1 {
            let register = bit(self.low, at) + 2 * bit(self.middle, at) + 4 * bit(self.high, at);
            Mark::After(register as u8)
        } else {
            Mark::Unmarked
        }
    }

    /// The marked places, one bit for each.
    pub(crate) fn marked(&self) -> u32
        ensures { (k : ℕ) → k < 32 → bit_at result k ≡ mark_bit (mark_in self.now k) }
    {
        self.starts | self.seconds
    }

    /// Sets the mark of one place.
    pub(crate) fn set(&mut self, at: u32, mark: Mark)
        requires inside { at < 32 }
        requires register { NamesRegister mark }
        ensures same { mark_in self.new at ≡ mark }
        ensures other { (k : ℕ) → k < 32 → k ≢ at → mark_in self.new k ≡ mark_in self.old k }
    {
        self.starts = with_bit(self.starts, at, mark == Mark::Plain);
        let Mark::After(register) = mark else {
            self.seconds = with_bit(self.seconds, at, false);
            return;
        };
        self.seconds = with_bit(self.seconds, at, true);
        self.low = with_bit(self.low, at, register % 2 == 1);
        self.middle = with_bit(self.middle, at, register / 2 % 2 == 1);
        self.high = with_bit(self.high, at, register / 4 % 2 == 1);
    }

    /// The masks of a bundle with these marks.
    fn of(marks: &[Mark]) -> Self
        requires whole { length marks.now ≡ 32 }
        requires registers { All NamesRegister marks.now }
        ensures { (k : ℕ) → k < 32 → mark_in result k ≡ slice_index_or marks.now k Unmarked }
    {
        let (starts, seconds) = starts_and_seconds(marks);
        let mut masks = Masks {
            starts,
            seconds: 0,
            low: 0,
            middle: 0,
            high: 0,
        };
        let mut left = seconds;
        while left != 0 {
            let (at, others) = lowest_place(left);
            masks.set(at, marks[at as usize]);
            left = others;
        }
        masks
    }

    /// The marks of a bundle by the bits of its instructions. The bundle begins at offset `start` of its chunk's code, and the
    /// second byte of a second half names its register.
    pub(crate) fn of_bits(bundle: Bundle, code: &[u8], start: usize) -> Self
        requires { start + 32 < 2 ^ 63 }
        ensures { (k : ℕ) → k < 32 → mark_in result k ≡ bit_mark bundle k (slice_index code.now (start + k + 1)) }
    {
        let mut masks = Masks {
            // An instruction begins at the first place, and after each end except one at the end of the bundle.
            starts: 2 * (bundle.ends % 0x8000_0000) + 1,
            seconds: 0,
            low: 0,
            middle: 0,
            high: 0,
        };
        let mut left = bundle.pairs / 2;
        while left != 0 {
            let (at, others) = lowest_place(left);
            let next = byte_or_zero(code, start + at as usize + 1);
            masks.set(at, Mark::After(next % 8));
            left = others;
        }
        masks
    }

    /// Sets the marks of the places from `from` on.
    pub(crate) fn set_from(&mut self, from: u32, marks: &[Mark])
        requires inside { from + length marks.now ≤ 32 }
        requires registers { All NamesRegister marks.now }
        ensures within { (k : ℕ) → k < length marks.now → mark_in self.new (from + k) ≡ slice_index_or marks.now k Unmarked }
        ensures others { (k : ℕ) → k < 32 → (k < from) ⊎ (from + length marks.now ≤ k) → mark_in self.new k ≡ mark_in self.old k }
    {
        if marks.len() == 32 {
            *self = Masks::of(marks);
            return;
        }
        let mut masks = *self;
        for i in 0..marks.len() {
            masks.set(from + i as u32, marks[i]);
        }
        *self = masks;
    }

    /// Unmarks `len` places from `from` on, except the bundle's start.
    pub(crate) fn unmark(&mut self, from: u32, len: u32)
        requires inside { from + len ≤ 32 }
        ensures within { (k : ℕ) → k < len → mark_in self.new (from + k) ≡ unused_mark (from + k) }
        ensures others { (k : ℕ) → k < 32 → (k < from) ⊎ (from + len ≤ k) → mark_in self.new k ≡ mark_in self.old k }
    {
        let mut masks = *self;
        for i in 0..len {
            masks.set(from + i, unused_mark(from + i));
        }
        *self = masks;
    }
}

/// The mark of a place of a bundle that no chunk uses.
fn unused_mark(at: u32) -> Mark
    ensures { result ≡ unused_mark at }
{
    if at % 32 == 0 {
        Mark::Plain
    } else {
        Mark::Unmarked
    }
}

/// The places of a bundle that are `Plain`, and those that are `After`, from one pass over its marks. Doubling the bits so
/// far and adding those of the next mark is cheaper than setting a bit at its place, and has no branch that real code would
/// make hard to predict.
fn starts_and_seconds(marks: &[Mark]) -> (u32, u32)
    requires { length marks.now ≡ 32 }
    ensures starts { (k : ℕ) → k < 32 → bit_at result.0 k ≡ plain_bit (slice_index_or marks.now k Mark.Unmarked) }
    ensures seconds { (k : ℕ) → k < 32 → bit_at result.1 k ≡ second_bit (slice_index_or marks.now k Mark.Unmarked) }
{
    let mut both = 0u64;
    for n in 0..32 {
        both = 2 * both + both_bits(marks[31 - n]);
    }
    ((both % 0x1_0000_0000) as u32, (both / 0x1_0000_0000) as u32)
}

/// Bit 0 for `Plain`, and bit 32 for `After`.
fn both_bits(mark: Mark) -> u64
    ensures { result ≡ plain_bit mark + 2 ^ 32 * second_bit mark }
{
    match mark {
        Mark::Unmarked => 0,
        Mark::Plain => 1,
        Mark::After(_) => 0x1_0000_0000,
    }
}

/// Byte `k` of the code, or 0 after the last.
fn byte_or_zero(code: &[u8], k: usize) -> u8
    ensures { result ≡ slice_index code.now k }
{
    if k < code.len() { code[k] } else { 0 }
}

/// One bit of a mask.
fn bit(mask: u32, at: u32) -> u32
    requires { at < 32 }
    ensures { result ≡ bit_at mask at }
{
    (mask >> at) & 1
}

/// The mask with this bit on or off.
fn with_bit(mask: u32, at: u32, on: bool) -> u32
    requires { at < 32 }
    ensures same { bit_at result at ≡ (if on then 1 else 0) }
    ensures other { (k : ℕ) → k < 32 → k ≢ at → bit_at result k ≡ bit_at mask k }
{
    let bit = 1 << at;
    if on { mask | bit } else { mask & !bit }
}
