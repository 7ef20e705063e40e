//! The reading of a refused chunk, one instruction after another and past its faults.

ghost use Rattle.std.specs.Prelude.{◌≡◌, ◌≤◌, ◌<◌, ◌+◌, ◌-◌, ◌%◌, ◌^◌, ◌++◌, ℕ, List, length, replicate, IfOk, IfSome};
ghost use Rattle.nc_decode.specs.Spelling.{IsAtFront};
ghost use Rattle.nc_reading.specs.declared.class.Class.{Class};
ghost use Rattle.nc_reading.specs.Reading.{extent, masked_by, class_of, step_classes, Finds, IsStep, HasClasses};

use crate::class::Class;
use crate::fast_path::fill_bundles;
use crate::lengths::known_len;
use nc_decode::{BUNDLE, DecodeFault, Instr, decode};
use std::alloc::{AllocError, Global};

/// What the reading finds at a place.
#[derive(Clone, Copy)]
pub enum Found {
    /// An instruction that is allowed there.
    Sound(Instr),
    /// An indirect transfer without its mask.
    Bare,
    /// A permitted instruction that the end of the bundle cuts.
    Crosses,
    /// No permitted instruction.
    NotPermitted,
}

/// One step of the reading. Contracts say by steps what a reading is, and no call takes or gives one.
#[derive(Clone, Copy)]
pub struct Step {
    /// The finding where it begins.
    pub found: Found,
    /// The number of bytes after which the next step begins.
    pub len: usize,
    /// Whether these bytes are one instruction. If not, its length isn't known, and they are the rest of the bundle.
    pub whole: bool,
}

/// The finding at an instruction that ends in its bundle. The register, if any, was masked directly before.
#[inline(always)]
fn found_at(instr: Instr, masked: Option<u8>) -> Found
    ensures { (window : List ℕ) → IsAtFront window instr → Finds window masked result }
{
    if instr.flow.is_indirect() && masked != Some(instr.reg) {
        Found::Bare
    } else {
        Found::Sound(instr)
    }
}

/// The finding at the front of the bytes up to the end of a bundle. The register, if any, was masked directly before.
fn found_in(window: &[u8], masked: Option<u8>) -> Found
    ensures { Finds window.now masked result }
{
    match decode(window) {
        Ok(instr) => found_at(instr, masked),
        Err(DecodeFault::Truncated) => Found::Crosses,
        Err(DecodeFault::NotPermitted) => Found::NotPermitted,
    }
}

/// The length of the instruction at the front of these bytes, if it is known.
fn extent(rest: &[u8]) -> Option<usize>
    ensures value { result ≡ extent rest.now }
    ensures within { IfSome result (λ n. (1 ≤ n) × (n ≤ length rest.now)) }
{
    match decode(rest) {
        Ok(instr) => Some(usize::from(instr.len)),
        Err(_) => known_len(rest),
    }
}

/// The step at the front of these bytes, of which the first `room` are in its bundle, whatever begins there. The register, if
/// any, was masked directly before.
#[inline(never)]
fn any_step(rest: &[u8], room: usize, masked: Option<u8>) -> Step
    requires some { 1 ≤ room }
    requires within { room ≤ length rest.now }
    ensures step { IsStep room masked rest.now result }
    ensures some { 1 ≤ result.len }
    ensures within { result.len ≤ length rest.now }
{
    let found = found_in(&rest[..room], masked);
    match extent(rest) {
        Some(len) => Step {
            found,
            len,
            whole: true,
        },
        None => Step {
            found,
            len: room,
            whole: false,
        },
    }
}

/// The step at the front of these bytes, of which the first `room` are in its bundle. The register, if any, was masked
/// directly before. An instruction that ends in its bundle, as nearly all do, is decoded once.
#[inline(always)]
fn step_at(rest: &[u8], room: usize, masked: Option<u8>) -> Step
    requires some { 1 ≤ room }
    requires within { room ≤ length rest.now }
    ensures step { IsStep room masked rest.now result }
    ensures some { 1 ≤ result.len }
    ensures within { result.len ≤ length rest.now }
{
    match decode(rest) {
        Ok(instr) if usize::from(instr.len) <= room => Step {
            found: found_at(instr, masked),
            len: usize::from(instr.len),
            whole: true,
        },
        _ => any_step(rest, room, masked),
    }
}

/// The register that a step at this place masks for the next one, if both begin in the same bundle.
#[inline(always)]
fn masked_by(step: Step, at: usize) -> Option<u8>
    requires { at + step.len < 2 ^ 64 }
    ensures { result ≡ masked_by at step }
{
    match step.found {
        Found::Sound(instr) if at / BUNDLE as usize == (at + step.len) / BUNDLE as usize =>
            instr.masks,
        _ => None,
    }
}

/// The class of the first byte of a step.
#[inline(always)]
fn class_of(found: Found) -> Class
    ensures { result ≡ class_of found }
{
    match found {
        Found::Sound(instr) if instr.flow.is_indirect() => Class::Second,
        Found::Sound(_) => Class::Entry,
        Found::Bare => Class::Bare,
        Found::Crosses => Class::Crosses,
        Found::NotPermitted => Class::NotPermitted,
    }
}

/// Writes the classes of the later bytes of a step that isn't whole.
#[inline(never)]
fn put_skipped(classes: &mut [Class], from: usize, count: usize)
    requires { from + count ≤ length classes.old }
    ensures { (before after : List Class) → length before ≡ from → classes.old ≡ before ++ (replicate count Class.Inside ++ after)
        → classes.new ≡ before ++ (replicate count Class.Skipped ++ after) }
{
    for k in 0..count {
        classes[from + k] = Class::Skipped;
    }
}

/// Writes the classes of the bytes of a step at a place. All classes from there on are `Inside` before.
#[inline(always)]
fn put_classes(classes: &mut [Class], at: usize, step: Step)
    requires some { 1 ≤ step.len }
    requires within { at + step.len ≤ length classes.old }
    ensures { (before : List Class) (more : ℕ) → length before ≡ at → classes.old ≡ before ++ replicate (step.len + more) Class.Inside
        → classes.new ≡ before ++ (step_classes step ++ replicate more Class.Inside) }
{
    classes[at] = class_of(step.found);
    if !step.whole {
        put_skipped(classes, at + 1, step.len - 1);
    }
}

/// Reads the code, and writes the classes of all its bytes over as many that are `Inside`.
fn fill_classes(classes: &mut [Class], code: &[u8])
    requires bundles { length code.now % 32 ≡ 0 }
    requires clear { classes.old ≡ replicate (length code.now) Class.Inside }
    ensures { HasClasses code.now classes.new }
{
    let mut at = 0usize;
    let mut masked = None;
    while at < code.len() {
        let end = fill_bundles(classes, code, at);
        if end > at {
            masked = None;
            at = end;
            continue;
        }
        let room = BUNDLE as usize - at % BUNDLE as usize;
        let step = step_at(&code[at..], room, masked);
        put_classes(classes, at, step);
        masked = masked_by(step, at);
        at += step.len;
    }
}

/// The classes of all bytes of the code, which is whole bundles: element `k` is the class of byte `k`.
///
/// The reading begins at the first byte, which begins a bundle, and no register is masked before it. After a fault it goes on behind
/// the instruction, or at the next bundle if the instruction's length isn't known. Code has only one reading.
///
/// The only refusal is that of an allocation: one class a byte.
pub fn read_classes(alloc: Global, code: &[u8]) -> Result<Vec<Class>, AllocError>
    requires { length code.now % 32 ≡ 0 }
    ensures { IfOk result (λ classes. HasClasses code.now classes.items) }
{
    let mut classes = Vec::with_capacity(alloc, code.len())?;
    classes.resize(code.len(), Class::Inside)?;
    fill_classes(classes.as_mut_slice(), code);
    Ok(classes)
}
