//! What is shown about a fault that has an address.

ghost use Rattle.std.specs.Prelude.{◌≡◌, ◌≤◌, ◌<◌, ◌+◌, ◌%◌, ◌^◌, length};

use crate::advice::words_about;
use crate::further::is_begun;
use crate::judged::Judged;
use crate::targets::{Target, target_inside, target_of, target_outside};
use nc_decode::BUNDLE;
use nc_reading::{Class, read_classes};
use nc_vet::VetFault;
use std::alloc::{AllocError, Global};

/// The number of bytes in a bundle.
const SIZE: usize = BUNDLE as usize;

/// What is shown about a fault that has an address.
#[derive(Clone, Copy)]
pub(crate) struct Finding<'a> {
    /// The address.
    pub at: u32,
    /// The bytes of its bundle.
    pub bundle: [u8; 32],
    /// The code from the bundle's first byte on.
    pub rest: &'a [u8],
    /// Bit k says whether an instruction begins at byte k of the bundle.
    pub starts: u32,
    /// The target of a refused direct transfer.
    pub target: Option<Target>,
    /// What the fault means.
    pub meaning: &'static [u8],
}

/// The bundle at a place of the code.
fn bundle_at(code: &[u8], start: usize) -> [u8; 32]
    requires { start + 32 ≤ length code.now }
{
    let mut bundle = [0u8; 32];
    bundle.copy_from_slice(&code[start..start + SIZE]);
    bundle
}

/// Bit k says whether an instruction begins at the place k after this one.
fn starts_at(classes: &[Class], start: usize) -> u32
    requires { start + 32 ≤ length classes.now }
{
    // No branches, so that LLVM tests many classes at once.
    let mut starts = 0u32;
    for k in 0..32u32 {
        starts |= u32::from(is_begun(classes[start + k as usize])) << k;
    }
    starts
}

/// The target of a refused direct transfer at a place of the code, by the classes of all its bytes.
fn target_by(judged: &Judged<'_>, classes: &[Class], fault: VetFault, k: usize) -> Option<Target>
    requires span { judged.now.base + length judged.now.code.now < 2 ^ 32 }
    requires within { k < length judged.now.code.now }
{
    let to = target_of(judged, fault, k)?;
    if to < judged.base || (to - judged.base) as usize >= judged.code.len() {
        return Some(target_outside(judged.limit, to));
    }
    Some(target_inside(judged.base, classes, to))
}

/// What is shown about a fault at a place of the code, by the classes of all its bytes.
pub(crate) fn finding_at<'a>(
    judged: &Judged<'a>,
    classes: &[Class],
    fault: VetFault,
    k: usize,
) -> Finding<'a>
    requires span { judged.now.base + length judged.now.code.now < 2 ^ 32 }
    requires whole { length judged.now.code.now % 32 ≡ 0 }
    requires each { length classes.now ≡ length judged.now.code.now }
    requires within { k < length judged.now.code.now }
{
    let start = k - k % SIZE;
    Finding {
        at: judged.base + k as u32,
        bundle: bundle_at(judged.code, start),
        rest: &judged.code[start..],
        starts: starts_at(classes, start),
        target: target_by(judged, classes, fault, k),
        meaning: words_about(judged, fault, k),
    }
}

/// The target of a refused direct transfer at a place of the code, which has no other fault. Of such code each bundle can be read
/// by itself, and only that of the target is.
fn own_target(
    alloc: Global,
    judged: &Judged<'_>,
    fault: VetFault,
    k: usize,
) -> Result<Option<Target>, AllocError>
    requires span { judged.now.base + length judged.now.code.now < 2 ^ 32 }
    requires whole { length judged.now.code.now % 32 ≡ 0 }
    requires within { k < length judged.now.code.now }
{
    let Some(to) = target_of(judged, fault, k) else {
        return Ok(None);
    };
    if to < judged.base || (to - judged.base) as usize >= judged.code.len() {
        return Ok(Some(target_outside(judged.limit, to)));
    }
    let place = (to - judged.base) as usize;
    let start = place - place % SIZE;
    let classes = read_classes(alloc, &judged.code[start..start + SIZE])?;
    Ok(Some(target_inside(judged.base + start as u32, &classes, to)))
}

/// What is shown about a chunk's own fault, at a place of the code. The instructions before it have no fault, so its bundle is read
/// by itself.
pub(crate) fn own_finding<'a>(
    alloc: Global,
    judged: &Judged<'a>,
    fault: VetFault,
    k: usize,
) -> Result<Finding<'a>, AllocError>
    requires span { judged.now.base + length judged.now.code.now < 2 ^ 32 }
    requires whole { length judged.now.code.now % 32 ≡ 0 }
    requires within { k < length judged.now.code.now }
{
    let start = k - k % SIZE;
    let classes = read_classes(alloc, &judged.code[start..start + SIZE])?;
    let target = own_target(alloc, judged, fault, k)?;
    Ok(Finding {
        at: judged.base + k as u32,
        bundle: bundle_at(judged.code, start),
        rest: &judged.code[start..],
        starts: starts_at(&classes, 0),
        target,
        meaning: words_about(judged, fault, k),
    })
}
