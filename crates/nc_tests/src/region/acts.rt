//! The acts that a region tells, their order, and the serializations among them.
ghost use Rattle.std.specs.Prelude.{◌≡◌};
ghost use Rattle.nc_region.specs.Region.{IsNew};

use crate::lower::rows::right;
use crate::region::calls::Calls;
use crate::region::fixtures::{chunk, one_seat};
use crate::region::recording::{Recording, plain};
use crate::region::steps::{Step, creates, take_steps};
use nc_gens::{Gens, Pass};
use nc_histories::law_of_calls;
use nc_region::{Act, Acts, DeleteFault, Entry, ModifyFault, Recorder, RegionOf, law_of_schedules};
use std::alloc::Global;
use std::slice::Iter;
use std::test::Fail;

/// The address of the chunk.
const BASE: u32 = 0x10020;

/// The limit of the region, which has 8 bundles.
const LIMIT: u32 = 0x10100;

/// The first bytes of the chunk: a stop, a jump of two bytes, an instruction of five; nops follow.
#[rattlefmt::skip]
static FRONT: [u8; 8] = [0xF4, 0xEB, 0xFE, 0xB8, 1, 0, 0, 0];

/// The unmarked places of the chunk: all but the first byte of each instruction.
static UNMARKED: [u32; 5] = [0x10022, 0x10024, 0x10025, 0x10026, 0x10027];

/// The patch: a nop for the stop, another target, another immediate, and a nop for a nop.
#[rattlefmt::skip]
const PATCH: &[u8] = &[0x90, 0xEB, 0x1D, 0xB8, 2, 0, 0, 0, 0x90];

/// The expected entries of the patch: a put; a stop, a serialization, a further byte, a serialization, the first byte; and the same
/// with four further bytes.
#[rattlefmt::skip]
static PATCH_OWES: [Entry; 14] = [
    Entry::Did(Act::Put(0x10020, 0x90)),
    Entry::Did(Act::Put(0x10021, 0xF4)),
    Entry::Serialized,
    Entry::Did(Act::Put(0x10022, 0x1D)),
    Entry::Serialized,
    Entry::Did(Act::Put(0x10021, 0xEB)),
    Entry::Did(Act::Put(0x10023, 0xF4)),
    Entry::Serialized,
    Entry::Did(Act::Put(0x10024, 2)),
    Entry::Did(Act::Put(0x10025, 0)),
    Entry::Did(Act::Put(0x10026, 0)),
    Entry::Did(Act::Put(0x10027, 0)),
    Entry::Serialized,
    Entry::Did(Act::Put(0x10023, 0xB8)),
];

/// The remaining expected entries of a deletion, a look that frees nothing, and one that frees the chunk.
#[rattlefmt::skip]
static THEN_OWES: [Entry; 9] = [
    Entry::Serialized,
    Entry::Did(Act::Put(0x10022, 0xF4)),
    Entry::Did(Act::Put(0x10024, 0xF4)),
    Entry::Did(Act::Put(0x10025, 0xF4)),
    Entry::Did(Act::Put(0x10026, 0xF4)),
    Entry::Did(Act::Put(0x10027, 0xF4)),
    Entry::Did(Act::Bump),
    Entry::Did(Act::Look),
    Entry::Did(Act::Look),
];

/// After the creation: the patch, a patch and a deletion that are refused, the deletion, and a reclaim that frees nothing.
static UNTIL_RETIRED: [Step<'static>; 5] = [
    Step::Patch(BASE, PATCH, Ok(())),
    Step::Patch(BASE, &[0xC3], Err(ModifyFault::NotPermitted)),
    Step::Delete(0x10000, Err(DeleteFault::NoChunk)),
    Step::Delete(BASE, Ok(1)),
    Step::Reclaim(0),
];

/// Once the seat has checked in: a reclaim.
static UNTIL_FREE: [Step<'static>; 1] = [Step::Reclaim(1)];

/// The next entry of a log is this one.
fn is_next(log: &mut Iter<'_, Entry>, owed: Entry) -> bool {
    log.next() == Some(&owed)
}

/// The next entries of a log are these.
fn are_next(log: &mut Iter<'_, Entry>, owed: &[Entry]) -> bool {
    for entry in owed {
        if !is_next(log, *entry) {
            return false;
        }
    }
    true
}

/// The next entries are the puts of the chunk's bytes at bundle starts, or of its other bytes.
fn are_puts(log: &mut Iter<'_, Entry>, len: usize, at_starts: bool) -> bool {
    let mut at = BASE;
    for i in 0..len {
        let byte = *FRONT.get(i).unwrap_or(&0x90);
        if (at % 32 == 0) == at_starts && !is_next(log, Entry::Did(Act::Put(at, byte))) {
            return false;
        }
        at = at.wrapping_add(1);
    }
    true
}

/// The next entries are those of the chunk's creation: the puts that aren't at bundle starts, a serialization, the marks, the puts
/// at bundle starts.
fn are_of_creation(log: &mut Iter<'_, Entry>, len: u32) -> bool {
    are_puts(log, len as usize, false)
        && is_next(log, Entry::Serialized)
        && is_next(log, Entry::Did(Act::MarkSpan(BASE, len)))
        && are_puts(log, len as usize, true)
}

/// The next entries are the stops of a deletion at the marked places.
fn are_stops(log: &mut Iter<'_, Entry>, len: u32) -> bool {
    for at in BASE..BASE.saturating_add(len) {
        if !UNMARKED.contains(&at) && !is_next(log, Entry::Did(Act::Put(at, 0xF4))) {
            return false;
        }
    }
    true
}

/// The entries are those of the whole life of a chunk: creation, patch, deletion (stops at the marked places, a serialization, stops
/// at the others, the stamp), and two reclaims.
fn are_of_life(entries: &[Entry], len: u32) -> bool {
    let mut log = entries.iter();
    let created = are_of_creation(&mut log, len);
    let patched = are_next(&mut log, &PATCH_OWES);
    let stopped = are_stops(&mut log, len);
    let freed = are_next(&mut log, &THEN_OWES);
    let unmarked = is_next(&mut log, Entry::Did(Act::UnmarkSpan(BASE, len)));
    created && patched && stopped && freed && unmarked && log.next().is_none()
}

/// A chunk's life, until its span is free: the number of bundles of the chunk and its length, the number of entries for which
/// there is room, and whether all are told.
struct Life {
    bundles: usize,
    len: u32,
    room: usize,
    is_told: bool,
}

impl Life {
    /// What is recorded is all of the life, or nothing where there wasn't room for all.
    fn is_owed(&self, recorded: Option<&[Entry]>) -> bool {
        match recorded {
            Some(entries) => self.is_told && are_of_life(entries, self.len),
            None => !self.is_told,
        }
    }

    /// Creates, patches, deletes and reclaims the chunk.
    fn run<C: Calls>(&self, alloc: Global, region: &mut C, gens: &Gens, pass: &mut Pass) -> bool
        requires { pass.old.table ≡ gens.now }
    {
        let created = creates(
            region,
            chunk(alloc, BASE, LIMIT, self.bundles, &FRONT),
            Ok(()),
        );
        let retired = take_steps(alloc, region, LIMIT, &UNTIL_RETIRED);
        gens.check_in(pass);
        let freed = take_steps(alloc, region, LIMIT, &UNTIL_FREE);
        created && retired && freed
    }

    /// Runs in a new region over these acts, which then are as owed.
    fn is_as_owed<A: Acts + Recording + Drop>(
        &self,
        alloc: Global,
        acts: A,
        gens: &Gens,
        pass: &mut Pass,
    ) -> bool
        requires { IsNew (A.marked acts) × (pass.old.table ≡ gens.now) }
    {
        let mut region = RegionOf::over(alloc, acts);
        let has_run = self.run(alloc, &mut region, gens, pass);
        has_run && self.is_owed(region.acts().recorded())
    }

    /// Runs in a new region over these acts, which are recorded.
    fn is_recorded_over<A: Acts + Drop>(
        &self,
        alloc: Global,
        acts: A,
        gens: &Gens,
        pass: &mut Pass,
    ) -> bool
        requires { IsNew (A.marked acts) × (pass.old.table ≡ gens.now) }
    {
        match Recorder::new(alloc, acts, self.room) {
            Ok(acts) => self.is_as_owed(alloc, acts, gens, pass),
            Err(_) => false,
        }
    }

    /// Runs in a new region that is recorded.
    fn is_recorded(&self, alloc: Global) -> bool {
        let Ok((gens, keeper, mut pass)) = one_seat(alloc) else {
            return false;
        };
        match plain(alloc, 8, &gens, keeper) {
            Some(acts) => self.is_recorded_over(alloc, acts, &gens, &mut pass),
            None => false,
        }
    }
}

/// The life of a chunk of one bundle has 79 acts and 6 serializations.
#[rattlefmt::skip]
static LIVES: [Life; 6] = [
    Life { bundles: 1, len: 32, room: 300, is_told: true },
    Life { bundles: 2, len: 64, room: 300, is_told: true },
    Life { bundles: 3, len: 96, room: 300, is_told: true },
    Life { bundles: 1, len: 32, room: 85, is_told: true },
    Life { bundles: 1, len: 32, room: 84, is_told: false },
    Life { bundles: 1, len: 32, room: 0, is_told: false },
];

/// Tries each life.
fn try_lives(alloc: Global, lives: &[Life]) -> Result<(), Fail> {
    let mut row = 0u32;
    for life in lives {
        row = row.wrapping_add(1);
        right(life.is_recorded(alloc), row)?;
    }
    Ok(())
}

/// The laws about these acts are called too: they require nothing, and do nothing.
#[test]
fn order_of_acts(rt: HostRuntime) -> Result<(), Fail> {
    law_of_schedules();
    law_of_calls();
    try_lives(rt.alloc(), &LIVES)
}
