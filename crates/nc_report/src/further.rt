//! The faults that the reading of a refused chunk finds.

ghost use Rattle.std.specs.Prelude.{◌≡◌, ◌≤◌, ◌<◌, ◌+◌, ◌%◌, ◌^◌, ℕ, None, drop, length, get_or};
ghost use Rattle.nc_decode.specs.Front.{first_instruction};
ghost use Rattle.nc_reading.specs.Quiet.{AreCandidates};
ghost use Rattle.nc_report.specs.Further.{is_open, is_begun, may_go, has_bad_target, fault_by, fault_at};

use crate::front::front_instruction;
use crate::judged::Judged;
use nc_decode::is_outside_target;
use nc_reading::{Class, Seen, next_candidate};
use nc_vet::VetFault;

/// The class of a byte; after the last byte, `Inside`.
pub(crate) fn class_at(classes: &[Class], k: usize) -> Class
    ensures { result ≡ get_or classes.now k Class.Inside }
{
    if k < classes.len() {
        classes[k]
    } else {
        Class::Inside
    }
}

/// A direct transfer may target a byte of this class. Skipped bytes pass, because nothing is known about them.
fn is_open(class: Class) -> bool
    ensures { result ≡ is_open class }
{
    !matches!(class, Class::Inside | Class::Second)
}

/// A step of the reading begins at this byte: an instruction, or the bytes that are skipped after one, end before it.
pub(crate) fn is_begun(class: Class) -> bool
    ensures { result ≡ is_begun class }
{
    !matches!(class, Class::Inside | Class::Skipped)
}

/// A direct transfer may target this address.
fn may_go(judged: &Judged<'_>, classes: &[Class], to: u32) -> bool
    requires { judged.now.base + length classes.now < 2 ^ 32 }
    ensures { result ≡ may_go judged.now.base judged.now.limit classes.now to }
{
    let base = judged.base;
    if base <= to && to < base + classes.len() as u32 {
        is_open(class_at(classes, (to - base) as usize))
    } else {
        is_outside_target(judged.limit, to)
    }
}

/// The instruction at a place of the code is a direct transfer to an address that it may not target.
#[inline(always)]
fn has_bad_target(judged: &Judged<'_>, classes: &[Class], k: usize) -> bool
    requires span { judged.now.base + length judged.now.code.now < 2 ^ 32 }
    requires each { length classes.now ≡ length judged.now.code.now }
    requires within { k < length judged.now.code.now }
    ensures { result ≡ has_bad_target judged.now.base judged.now.limit classes.now (judged.now.base + k)
        (first_instruction (drop k judged.now.code.now)) }
{
    let Some(instr) = front_instruction(&judged.code[k..]) else {
        return false;
    };
    instr.flow.is_direct() && !may_go(judged, classes, instr.target(judged.base + k as u32))
}

/// The fault at an address, by the class of its byte.
fn fault_by(class: Class, bad_target: bool, at: u32) -> Option<VetFault>
    ensures { result ≡ fault_by class bad_target at }
{
    match class {
        Class::Inside | Class::Skipped | Class::Second => None,
        Class::Entry if bad_target => Some(VetFault::BadTarget { at }),
        Class::Entry => None,
        Class::NotPermitted => Some(VetFault::NotPermitted { at }),
        Class::Crosses => Some(VetFault::Crosses { at }),
        Class::Bare => Some(VetFault::Bare { at }),
    }
}

/// The fault at a place of the code, if there is one.
#[inline(always)]
pub(crate) fn fault_at(judged: &Judged<'_>, classes: &[Class], k: usize) -> Option<VetFault>
    requires span { judged.now.base + length judged.now.code.now < 2 ^ 32 }
    requires each { length classes.now ≡ length judged.now.code.now }
    requires within { k < length judged.now.code.now }
    ensures { result ≡ fault_at judged.now.base judged.now.limit judged.now.code.now classes.now k }
{
    let class = class_at(classes, k);
    let bad_target = class == Class::Entry && has_bad_target(judged, classes, k);
    fault_by(class, bad_target, judged.base + k as u32)
}

/// The first place at or after `from` that has a fault, or the end of the code if there is none. `seen` is as [`next_candidate`] has it.
///
/// Most candidates are direct transfers with a good target. This loop does nothing else, so that passing over one costs little more than
/// decoding it.
#[inline(never)]
pub(crate) fn next_fault(
    judged: &Judged<'_>,
    classes: &[Class],
    from: usize,
    seen: &mut Seen,
) -> usize
    requires span { judged.now.base + length judged.now.code.now < 2 ^ 32 }
    requires whole { length judged.now.code.now % 32 ≡ 0 }
    requires each { length classes.now ≡ length judged.now.code.now }
    requires within { from ≤ length judged.now.code.now }
    requires known { AreCandidates judged.now.code.now classes.now seen.old.at seen.old.bits }
    ensures low { from ≤ result }
    ensures within { result ≤ length judged.now.code.now }
    ensures faultless { (k : ℕ) → from ≤ k → k < result
        → fault_at judged.now.base judged.now.limit judged.now.code.now classes.now k ≡ None }
    ensures fault { result < length judged.now.code.now
        → ¬ (fault_at judged.now.base judged.now.limit judged.now.code.now classes.now result ≡ None) }
    ensures known { AreCandidates judged.now.code.now classes.now seen.new.at seen.new.bits }
{
    let mut at = from;
    while at < judged.code.len() {
        let place = next_candidate(judged.code, classes, at, seen);
        if place >= judged.code.len() {
            return place;
        }
        match fault_at(judged, classes, place) {
            Some(_) => return place,
            None => {}
        }
        at = place + 1;
    }
    at
}
