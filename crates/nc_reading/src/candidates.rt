//! The places of a refused chunk that may have a fault, by their classes and bytes alone.

ghost use Rattle.std.specs.Prelude.{◌≡◌, ◌≤◌, ◌<◌, ◌+◌, ◌%◌, ◌==◌, ℕ, List, true, length, get_or, slice_index, if◌then◌else◌};
ghost use Rattle.std.specs.Int.{bit_at};
ghost use Rattle.nc_reading.specs.Quiet.{is_quiet, AreCandidates};

use crate::class::Class;
use nc_decode::{BUNDLE, may_transfer};
use std::simd::prelude::*;

/// A place whose byte has this class and this value has no fault, whatever the targets of transfers. Either no fault begins at
/// a byte of the class, or it is an entry and the value begins no direct transfer.
#[inline(always)]
fn is_quiet(class: Class, byte: u8) -> bool
    ensures { result ≡ is_quiet class byte }
{
    let may_go = matches!(class, Class::Entry) & may_transfer(byte);
    let is_fault = matches!(class, Class::NotPermitted | Class::Crosses | Class::Bare);
    !(may_go | is_fault)
}

/// 1 for a quiet place, and 0 for any other.
#[inline(always)]
fn quiet_mark(class: Class, byte: u8) -> u8
    ensures { result ≡ (if is_quiet class byte then 1 else 0) }
{
    if is_quiet(class, byte) { 1 } else { 0 }
}

/// The marks of 32 places.
#[inline(always)]
fn quiet_marks(code: &[u8], classes: &[Class], at: usize) -> [u8; 32]
    requires each { length classes.now ≡ length code.now }
    requires within { at + 32 ≤ length code.now }
    ensures { (k : ℕ) → k < 32 → get_or result k 0
        ≡ (if is_quiet (get_or classes.now (at + k) Class.Inside) (slice_index code.now (at + k)) then 1 else 0) }
{
    let mut marks = [0u8; 32];
    for k in 0..32 {
        marks[k] = quiet_mark(classes[at + k], code[at + k]);
    }
    marks
}

/// The bits of a mask of 32 lanes.
#[inline(always)]
fn bits(mask: u64) -> u32
    requires { mask < 4294967296 }
    ensures { result ≡ mask }
{
    mask as u32
}

/// Bit k says whether lane k is 0.
#[inline(always)]
fn zeros(marks: u8x32) -> u32
    ensures { (k : ℕ) → k < 32 → (bit_at result k == 1) ≡ (slice_index marks k == 0) }
{
    bits(marks.simd_eq(u8x32::splat(0)).to_bitmask())
}

/// 32 places by bits: where bit k is 0, the place `at + k` is quiet.
#[inline(always)]
fn candidates(code: &[u8], classes: &[Class], at: usize) -> u32
    requires each { length classes.now ≡ length code.now }
    requires within { at + 32 ≤ length code.now }
    ensures { AreCandidates code.now classes.now at result }
{
    let marks = quiet_marks(code, classes, at);
    zeros(u8x32::from_slice(&marks))
}

/// The places of one bundle that may have a fault, kept from one call of [`next_candidate`] to the next.
#[derive(Clone, Copy)]
pub struct Seen {
    /// The place of the bundle.
    pub at: usize,
    /// Where bit k is 0, the place `at + k` is quiet.
    pub bits: u32,
}

/// What is known of no bundle: no place after the last byte has a fault.
pub fn none_seen(classes: &[Class]) -> Seen
    ensures { (code : List ℕ) → AreCandidates code classes.now result.at result.bits }
{
    Seen {
        at: classes.len(),
        bits: 0,
    }
}

/// The bits of the bundle at a place, which are computed unless they were seen last.
#[inline(always)]
fn look(code: &[u8], classes: &[Class], at: usize, seen: &mut Seen) -> u32
    requires each { length classes.now ≡ length code.now }
    requires within { at + 32 ≤ length code.now }
    requires known { AreCandidates code.now classes.now seen.old.at seen.old.bits }
    ensures bits { AreCandidates code.now classes.now at result }
    ensures known { AreCandidates code.now classes.now seen.new.at seen.new.bits }
{
    if seen.at == at {
        return seen.bits;
    }
    let bits = candidates(code, classes, at);
    *seen = Seen { at, bits };
    bits
}

/// The first place at or after `from` that may have a fault, by its class and its byte, or the end of the code if there is none.
///
/// A place is the number of a byte, from 0 on. The code is whole bundles, and `classes` has the class of each of its bytes, as
/// [`read_classes`](crate::read_classes) gives them. No place that is passed over has a fault, whatever the base and the limit. The
/// place of the result need not have one: a direct transfer may go where it is allowed to. `seen` is what an earlier call for the same
/// code left, or [`none_seen`].
#[inline(always)]
pub fn next_candidate(code: &[u8], classes: &[Class], from: usize, seen: &mut Seen) -> usize
    requires bundles { length code.now % 32 ≡ 0 }
    requires each { length classes.now ≡ length code.now }
    requires within { from ≤ length code.now }
    requires known { AreCandidates code.now classes.now seen.old.at seen.old.bits }
    ensures low { from ≤ result }
    ensures within { result ≤ length code.now }
    ensures quiet { (k : ℕ) → from ≤ k → k < result
        → is_quiet (get_or classes.now k Class.Inside) (slice_index code.now k) ≡ true }
    ensures known { AreCandidates code.now classes.now seen.new.at seen.new.bits }
{
    let mut at = from;
    while at < code.len() {
        let passed = at % BUNDLE as usize;
        let room = BUNDLE as usize - passed;
        let left = look(code, classes, at - passed, seen) >> passed;
        if left != 0 {
            return at + room.min(left.trailing_zeros() as usize);
        }
        at += room;
    }
    at
}
