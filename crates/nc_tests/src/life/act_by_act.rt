//! Two chunks are created, patched, deleted, reclaimed and created again, under a watcher.

ghost use Rattle.std.specs.Prelude.{◌≡◌};
ghost use Rattle.nc_region.specs.Region.{IsNew};

use crate::life::watcher::{Findings, Watcher};
use crate::lower::rows::right;
use crate::region::fixtures::one_seat;
use crate::region::recording::{Recording, plain};
use crate::region::steps::{Step, take_steps};
use nc_gens::{Gens, Pass};
use nc_region::{Acts, Entry, Recorder, RegionOf};
use std::alloc::Global;
use std::test::Fail;

/// The limit of the region, which has four bundles.
const LIMIT: u32 = 0x10080;

/// A masked jump, with which the first chunk begins.
const PAIR: &[u8] = &[0x83, 0xE0, 0xE0, 0xFF, 0xE0];

/// A jump to the first chunk, with which the second one begins.
const JUMP: &[u8] = &[0xEB, 0xDE];

/// A chunk that begins with a masked jump, and one beside it that jumps there, are created; the first one is patched after its pair
/// and deleted.
#[rattlefmt::skip]
static JUMPING: [Step<'static>; 4] = [
    Step::Create(0x10000, 1, PAIR, Ok(())),
    Step::Create(0x10020, 1, JUMP, Ok(())),
    Step::Patch(0x10005, &[0x40], Ok(())),
    Step::Delete(0x10000, Ok(1)),
];

/// The same, but the masked jump becomes a masked call before the deletion.
#[rattlefmt::skip]
static CALLING: [Step<'static>; 5] = [
    Step::Create(0x10000, 1, PAIR, Ok(())),
    Step::Create(0x10020, 1, JUMP, Ok(())),
    Step::Patch(0x10005, &[0x40], Ok(())),
    Step::Patch(0x10003, &[0xFF, 0xD0], Ok(())),
    Step::Delete(0x10000, Ok(1)),
];

/// Once the seat has checked in, the first chunk is freed, and created again.
#[rattlefmt::skip]
static AGAIN: [Step<'static>; 2] = [
    Step::Reclaim(1),
    Step::Create(0x10000, 1, PAIR, Ok(())),
];

/// A life: the calls before the check-in, and what is found.
#[derive(Drop)]
struct Life<'s> {
    before: &'s [Step<'s>],
    due: Findings,
}

/// What is found after this number of acts, of which the second half of the pair is marked after this number.
fn findings(acts: u32, held: u32) -> Findings {
    Findings {
        acts,
        faults: 0,
        held,
        lost: 0,
        stopped: 3,
        running: 0,
    }
}

/// The number of acts is that of 33 for each creation, 1 for the patch, 3 for the call, 33 for the deletion, and 2 for the reclaim. No
/// place is wrong after any of them. The second half of the pair is marked by the 32nd act, and stays so until the span is unmarked.
/// The span has only stops after the bump, the look and the unmarking.
fn lives() -> [Life<'static>; 2] {
    [
        Life {
            before: &JUMPING,
            due: findings(135, 70),
        },
        Life {
            before: &CALLING,
            due: findings(138, 73),
        },
    ]
}

/// The number of acts among the entries of a log.
fn acts_among(entries: &[Entry]) -> u32 {
    let mut count = 0u32;
    for entry in entries {
        if *entry != Entry::Serialized {
            count = count.saturating_add(1);
        }
    }
    count
}

/// The number of acts that were recorded.
fn recorded<A: Acts + Recording + Drop>(acts: &A) -> u32 {
    match acts.recorded() {
        Some(entries) => acts_among(entries),
        None => 0,
    }
}

impl Life<'_> {
    /// Whether this is found, and the recorder has as many acts.
    fn is_found<A: Acts + Recording + Drop>(&self, watcher: &Watcher<A>) -> bool {
        watcher.findings() == self.due && recorded(watcher.acts()) == self.due.acts
    }

    /// Whether the calls have their results in this region.
    fn is_lived_in<A: Acts + Drop>(
        &self,
        alloc: Global,
        region: &mut RegionOf<A>,
        gens: &Gens,
        pass: &mut Pass,
    ) -> bool
        requires { pass.old.table ≡ gens.now }
    {
        let retired = take_steps(alloc, region, LIMIT, self.before);
        gens.check_in(pass);
        retired && take_steps(alloc, region, LIMIT, &AGAIN)
    }

    /// Whether the life in a new region over these acts is as it should be.
    fn is_lived_over<A: Acts + Recording + Drop>(
        &self,
        alloc: Global,
        acts: A,
        gens: &Gens,
        pass: &mut Pass,
    ) -> bool
        requires { IsNew (A.marked acts) × (pass.old.table ≡ gens.now) }
    {
        let mut region = RegionOf::over(alloc, Watcher::new(acts));
        let is_lived = self.is_lived_in(alloc, &mut region, gens, pass);
        is_lived && self.is_found(region.acts())
    }

    /// Whether the life in a new region over these acts, which are recorded, is as it should be.
    fn is_recorded_over<A: Acts + Drop>(
        &self,
        alloc: Global,
        acts: A,
        gens: &Gens,
        pass: &mut Pass,
    ) -> bool
        requires { IsNew (A.marked acts) × (pass.old.table ≡ gens.now) }
    {
        match Recorder::new(alloc, acts, 200) {
            Ok(acts) => self.is_lived_over(alloc, acts, gens, pass),
            Err(_) => false,
        }
    }

    /// Whether the life in a new region is as it should be.
    fn is_lived(&self, alloc: Global) -> bool {
        let Ok((gens, keeper, mut pass)) = one_seat(alloc) else {
            return false;
        };
        match plain(alloc, 4, &gens, keeper) {
            Some(acts) => self.is_recorded_over(alloc, acts, &gens, &mut pass),
            None => false,
        }
    }
}

/// Tries each life.
fn try_lives(alloc: Global, lives: &[Life<'_>]) -> Result<(), Fail> {
    let mut row = 0u32;
    for life in lives {
        row = row.wrapping_add(1);
        right(life.is_lived(alloc), row)?;
    }
    Ok(())
}

/// After each act of a region's life each state for which a mark stands is safe, and leads only to such states.
#[test]
fn closed_after_each_act(rt: HostRuntime) -> Result<(), Fail> {
    try_lives(rt.alloc(), &lives())
}
