//! The target of a refused direct transfer, and why it is not allowed.

ghost use Rattle.std.specs.Prelude.{◌≤◌, ◌<◌, ◌+◌, ◌^◌, length};

use crate::further::{class_at, is_begun};
use crate::judged::Judged;
use crate::words::{BEYOND_REGION, IN_ZONE, INSIDE, OUTSIDE_CODE, SECOND_HALF};
use nc_decode::{START, decode};
use nc_reading::Class;
use nc_vet::VetFault;

/// The length of a mask, in bytes.
const MASK: u32 = 3;

/// The target of a refused direct transfer, and why it is not allowed.
#[derive(Clone, Copy)]
pub(crate) struct Target {
    pub to: u32,
    pub words: &'static [u8],
    /// The address of an instruction that the words name, if they name one.
    pub named: Option<u32>,
}

/// The target of a transfer at a place of the code that is refused for this fault, if that is about its target.
pub(crate) fn target_of(judged: &Judged<'_>, fault: VetFault, k: usize) -> Option<u32>
    requires span { judged.now.base + length judged.now.code.now < 2 ^ 32 }
    requires within { k < length judged.now.code.now }
{
    match (fault, decode(&judged.code[k..])) {
        (VetFault::BadTarget { .. }, Ok(instr)) => Some(instr.target(judged.base + k as u32)),
        _ => None,
    }
}

/// Why a direct transfer may not target an address outside the code.
pub(crate) fn target_outside(limit: u32, to: u32) -> Target {
    let words = if limit <= to {
        BEYOND_REGION
    } else if to < START {
        IN_ZONE
    } else {
        OUTSIDE_CODE
    };
    Target {
        to,
        words,
        named: None,
    }
}

/// The last place, at or before this one, where an instruction begins.
fn begun_before(classes: &[Class], k: usize) -> usize
    ensures { result ≤ k }
{
    let mut at = k;
    while at > 0 && !is_begun(class_at(classes, at)) {
        at -= 1;
    }
    at
}

/// Why a direct transfer may not target an address inside the code. The first of these classes is that of the byte at `first`.
pub(crate) fn target_inside(first: u32, classes: &[Class], to: u32) -> Target
    requires { first ≤ to }
{
    let place = (to - first) as usize;
    if is_begun(class_at(classes, place)) {
        return Target {
            to,
            words: SECOND_HALF,
            named: Some(to.saturating_sub(MASK)),
        };
    }
    let start = first + begun_before(classes, place) as u32;
    Target {
        to,
        words: INSIDE,
        named: Some(start),
    }
}
