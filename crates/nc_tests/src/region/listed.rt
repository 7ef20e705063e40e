//! Chunks whose marks are set from a list, since the acts take no bits.
ghost use Rattle.std.specs.Prelude.{◌≡◌};
ghost use Rattle.nc_region.specs.Region.{IsNew};

use crate::lower::rows::right;
use crate::region::fixtures::{chunk, one_seat};
use crate::region::recording::plain;
use crate::region::steps::creates;
use nc_gens::{GensFull, Pass};
use nc_region::{Acts, RegionOf};
use nc_text::TextFault;
use nc_vet::Mark;
use std::alloc::Global;
use std::test::Fail;

/// The first address of the region.
const START: u32 = 0x10000;

/// The address of the chunk.
const BASE: u32 = 0x10020;

/// The number of bundles of the region.
const BUNDLES: u32 = 20;

/// The limit of the region.
const LIMIT: u32 = 0x10280;

/// The first bytes of the chunk: a masked jump, whose second half is marked `After`, and an instruction of five bytes; nops
/// follow.
#[rattlefmt::skip]
static FRONT: [u8; 10] = [0x83, 0xE1, 0xE0, 0xFF, 0xE1, 0xB8, 1, 0, 0, 0];

/// Acts that take no bits, so a creation's marks come as a list: `put_bundles` is the trait's.
#[derive(Drop)]
struct Listing<A: Acts + Drop> {
    acts: A,
}

impl<A: Acts + Drop> Acts for Listing<A> {
    ghost marked = { λ l. A.marked l.acts };

    ghost made = { λ l. A.made l.acts };

    ghost keeper = { λ l. A.keeper l.acts };

    ghost logged = { λ l. A.logged l.acts };

    fn ready(&mut self, at: u32, len: u32) -> Result<(), TextFault> {
        self.acts.ready(at, len)
    }

    fn is_ready(&self, at: u32, len: u32) -> bool {
        self.acts.is_ready(at, len)
    }

    fn put(&mut self, at: u32, byte: u8) {
        self.acts.put(at, byte);
    }

    fn serialize(&mut self) {
        self.acts.serialize();
    }

    fn mark_span(&mut self, at: u32, marks: &[Mark]) {
        self.acts.mark_span(at, marks);
    }

    fn unmark_span(&mut self, at: u32, len: u32) {
        self.acts.unmark_span(at, len);
    }

    fn byte(&self, at: u32) -> u8 {
        self.acts.byte(at)
    }

    fn limit(&self) -> u32 {
        self.acts.limit()
    }

    fn mark(&self, at: u32) -> Mark {
        self.acts.mark(at)
    }

    fn bump(&mut self) -> Result<u64, GensFull> {
        self.acts.bump()
    }

    fn look(&mut self) -> u64 {
        self.acts.look()
    }

    fn meet(&mut self, pass: &mut Pass) {
        self.acts.meet(pass);
    }

    fn generation(&self) -> u64 {
        self.acts.generation()
    }
}

/// The mark at an address, where the region has one.
fn mark_in<A: Acts + Drop>(region: &RegionOf<A>, at: u32) -> Mark {
    if at < START || at >= region.limit() {
        return Mark::Unmarked;
    }
    region.mark(at)
}

/// The marks of a region, if there is memory for them.
fn marks_of<A: Acts + Drop>(alloc: Global, region: &RegionOf<A>) -> Option<Vec<Mark>> {
    let mut marks = Vec::new(alloc);
    for at in START..LIMIT {
        marks.push(mark_in(region, at)).ok()?;
    }
    Some(marks)
}

/// The marks of a new region over these acts, in which a chunk of this many bundles was created.
fn marks_over<A: Acts + Drop>(alloc: Global, acts: A, bundles: usize) -> Option<Vec<Mark>>
    requires { IsNew (A.marked acts) }
{
    let mut region = RegionOf::over(alloc, acts);
    if creates(
        &mut region,
        chunk(alloc, BASE, LIMIT, bundles, &FRONT),
        Ok(()),
    ) {
        return marks_of(alloc, &region);
    }
    None
}

/// The marks of such a region, whose acts are these, or these without taking bits.
fn marks_from<A: Acts + Drop>(
    alloc: Global,
    acts: A,
    bundles: usize,
    has_bits: bool,
) -> Option<Vec<Mark>>
    requires { IsNew (A.marked acts) }
{
    if has_bits {
        marks_over(alloc, acts, bundles)
    } else {
        marks_over(alloc, Listing { acts }, bundles)
    }
}

/// The marks of such a region whose acts take bits, or take none.
fn marks(alloc: Global, bundles: usize, has_bits: bool) -> Option<Vec<Mark>> {
    let Ok((gens, keeper, _pass)) = one_seat(alloc) else {
        return None;
    };
    match plain(alloc, BUNDLES, &gens, keeper) {
        Some(acts) => marks_from(alloc, acts, bundles, has_bits),
        None => None,
    }
}

/// The marks of a chunk of this many bundles are the same, whether they are set from bits or from a list.
fn are_alike(alloc: Global, bundles: usize) -> bool {
    let Some(bits) = marks(alloc, bundles, true) else {
        return false;
    };
    match marks(alloc, bundles, false) {
        Some(list) => bits.as_slice() == list.as_slice(),
        None => false,
    }
}

/// The list of the marks of 16 bundles is an array, and that of 17 is on the heap.
#[test]
fn marks_from_a_list(rt: HostRuntime) -> Result<(), Fail> {
    for bundles in [1, 15, 16, 17] {
        right(are_alike(rt.alloc(), bundles), bundles as u32)?;
    }
    Ok(())
}
