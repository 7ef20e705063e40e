//! The judge is tried over texts that are wrong at known places.

use crate::life::judge::Copied;
use crate::lower::rows::right;
use nc_decode::Mark;
use std::test::Fail;

/// Stops of which only the bundle starts are marked.
fn unused() -> Copied {
    let mut text = Copied {
        bytes: [0xF4; 128],
        marks: [Mark::Unmarked; 128],
    };
    text.marks[0] = Mark::Plain;
    text.marks[32] = Mark::Plain;
    text.marks[64] = Mark::Plain;
    text.marks[96] = Mark::Plain;
    text
}

/// An index in a text of stops, the bytes and the marks from there on, and the number of wrong places.
type Broken = (usize, &'static [u8], &'static [Mark], u32);

const NO: Mark = Mark::Unmarked;

const PLAIN: Mark = Mark::Plain;

const AFTER_0: Mark = Mark::After(0);

#[rattlefmt::skip]
static BROKEN: [Broken; 16] = [
    (1, &[0xF4], &[PLAIN], 0),
    (1, &[0xF4], &[Mark::After(3)], 0),
    // a return
    (1, &[0xC3], &[PLAIN], 1),
    (1, &[0xC3], &[NO], 0),
    // a nop before a place that isn't marked, and before a bundle start
    (1, &[0x90], &[PLAIN], 1),
    (31, &[0x90], &[PLAIN], 0),
    // a nop before the limit
    (127, &[0x90], &[PLAIN], 1),
    // a bundle start that isn't plain
    (32, &[0xF4], &[NO], 1),
    (32, &[0xF4], &[AFTER_0], 1),
    // the beginning of an instruction that crosses the end of its bundle
    (31, &[0xB8], &[PLAIN], 1),
    // a masked jump; one whose jump may be reached without its mask; one on another register; one without a mask
    (33, &[0x83, 0xE0, 0xE0, 0xFF, 0xE0], &[PLAIN, NO, NO, AFTER_0, NO], 0),
    (33, &[0x83, 0xE0, 0xE0, 0xFF, 0xE0], &[PLAIN, NO, NO, PLAIN, NO], 1),
    (33, &[0x83, 0xE0, 0xE0, 0xFF, 0xE1], &[PLAIN, NO, NO, AFTER_0, NO], 1),
    (33, &[0x90, 0x90, 0x90, 0xFF, 0xE0], &[PLAIN, PLAIN, PLAIN, AFTER_0, NO], 1),
    // a jump to a place that is marked for another state, and to one that isn't marked
    (33, &[0xEB, 0x01, 0xF4, 0xF4, 0xF4], &[PLAIN, NO, NO, AFTER_0, NO], 1),
    (33, &[0xEB, 0x00, 0xF4, 0xF4, 0xF4], &[PLAIN, NO, NO, NO, NO], 1),
];

/// A text of stops with these bytes and marks from an index on.
fn broken(index: usize, bytes: &[u8], marks: &[Mark]) -> Copied {
    let mut text = unused();
    for i in 0..bytes.len().min(5) {
        let place = index.saturating_add(i);
        if let (Some(byte), Some(mark)) = (bytes.get(i).copied(), marks.get(i).copied()) {
            if place < 128 {
                text.bytes[place] = byte;
                text.marks[place] = mark;
            }
        }
    }
    text
}

/// The number of wrong places of such a text.
fn faults_of(index: usize, bytes: &[u8], marks: &[Mark]) -> u32 {
    broken(index, bytes, marks).faults()
}

/// Tries each of these texts.
fn try_broken(rows: &[Broken]) -> Result<(), Fail> {
    let mut row = 0u32;
    for (index, bytes, marks, faults) in rows {
        row = row.wrapping_add(1);
        right(faults_of(*index, bytes, marks) == *faults, row)?;
    }
    Ok(())
}

/// Wrong places are found.
#[test]
fn broken_texts(_rt: HostRuntime) -> Result<(), Fail> {
    try_broken(&BROKEN)
}
