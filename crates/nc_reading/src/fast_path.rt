//! The fast path: bundles of a refused chunk, read by the automaton.

ghost use Rattle.std.specs.Prelude.{◌≡◌, ◌≤◌, ◌<◌, ◌+◌, ◌%◌, ◌++◌, ◌==◌, ℕ, List, Option, None, length, replicate, slice_index, if◌then◌else◌};
ghost use Rattle.nc_vet.specs.States.{AreBundleStates};
ghost use Rattle.nc_reading.specs.declared.class.Class.{Class};
ghost use Rattle.nc_reading.specs.machinery.FastPath.{class_by, bundle_classes, ReadsOn};
ghost use Rattle.nc_reading.specs.machinery.Seen.{HasFilled};

use crate::class::Class;
use nc_decode::{AFTER_PAIR, BUNDLE, END};
use nc_vet::{States, run_four, run_one};

/// The number of bytes of four bundles.
const FOUR: usize = 128;

/// The class of a byte, by the state before it and the state after the byte that follows it.
#[inline(always)]
fn class_by(before: u8, next: u8) -> Class
    ensures { result ≡ class_by before next }
{
    if before < END {
        Class::Inside
    } else if next == AFTER_PAIR {
        Class::Second
    } else {
        Class::Entry
    }
}

/// Writes the classes of the bytes of the bundle at `at`, which has these states. The class of each byte `k` follows from the elements
/// `k` and `k + 2`, that of the last byte too, so LLVM computes classes by vectors.
#[inline(always)]
fn put_bundle(classes: &mut [Class], at: usize, states: &States)
    requires within { at + 32 ≤ length classes.old }
    ensures put { (code : List ℕ) (front after : List Class) → at + 32 ≤ length code → AreBundleStates code at states.now
        → length front ≡ at → classes.old ≡ front ++ (replicate 32 Class.Inside ++ after)
        → classes.new ≡ front ++ (bundle_classes code at ++ after) }
    ensures long { length classes.new ≡ length classes.old }
{
    for k in 0..32 {
        classes[at + k] = class_by(states[k], states[k + 2]);
    }
}

/// Writes the classes of the bundle at `at`, which has these states, over as many that are `Inside`, if `end` is `at` and an
/// instruction ends at the end of the bundle. All of its instructions are then allowed. Classes are written up to `end` before, and up
/// to the result afterwards.
#[inline(always)]
fn put(classes: &mut [Class], at: usize, end: usize, states: &States) -> usize
    requires start { at % 32 ≡ 0 }
    requires within { at + 32 ≤ length classes.old }
    requires before { end ≤ at }
    ensures read { (code : List ℕ) (masked : Option ℕ) (from : ℕ) → at + 32 ≤ length code → from ≤ at
        → ((k : ℕ) → slice_index code k < 256) → AreBundleStates code at states.now
        → HasFilled code end (if end == from then masked else None) classes.old
        → HasFilled code result (if result == from then masked else None) classes.new }
    ensures low { end ≤ result }
    ensures high { result ≤ at + 32 }
    ensures long { length classes.new ≡ length classes.old }
{
    if end != at {
        return end;
    }
    if states[32] < END {
        return end;
    }
    put_bundle(classes, at, states);
    at + 32
}

/// Reads the bundle at a place, and writes its classes if an instruction ends at its end. Returns the place up to which classes are
/// written.
#[inline(always)]
fn fill_one(classes: &mut [Class], code: &[u8], at: usize) -> usize
    requires start { at % 32 ≡ 0 }
    requires room { at + 32 ≤ length code.now }
    requires each { length classes.old ≡ length code.now }
    ensures { ReadsOn code.now at classes.old result classes.new }
{
    put(classes, at, at, &run_one(code, at))
}

/// Reads the four bundles at a place, and writes the classes of those before the first at whose end no instruction ends. Returns the
/// place up to which classes are written.
#[inline(never)]
fn fill_four(classes: &mut [Class], code: &[u8], at: usize) -> usize
    requires start { at % 32 ≡ 0 }
    requires room { at + 128 ≤ length code.now }
    requires each { length classes.old ≡ length code.now }
    ensures { ReadsOn code.now at classes.old result classes.new }
{
    let (a, b, c, d) = run_four(code, [at, at + 32, at + 64, at + 96]);
    let first = put(classes, at, at, &a);
    let second = put(classes, at + 32, first, &b);
    let third = put(classes, at + 64, second, &c);
    put(classes, at + 96, third, &d)
}

/// If a bundle begins at a place, reads four from there, or one where fewer are left. The instructions before the first bundle at
/// whose end none ends are all allowed, and their classes are written over as many that are `Inside`. Returns the place up to which
/// classes are written.
#[inline(always)]
pub(crate) fn fill_bundles(classes: &mut [Class], code: &[u8], at: usize) -> usize
    requires bundles { length code.now % 32 ≡ 0 }
    requires within { at < length code.now }
    requires each { length classes.old ≡ length code.now }
    ensures { ReadsOn code.now at classes.old result classes.new }
{
    if at % BUNDLE as usize != 0 {
        return at;
    }
    if code.len() - at < FOUR {
        return fill_one(classes, code, at);
    }
    fill_four(classes, code, at)
}
