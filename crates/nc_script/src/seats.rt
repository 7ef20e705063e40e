//! The seats of a script's threads.

ghost use Rattle.std.specs.Prelude.{◌≡◌, ◌<◌, map, IfOk, IfSome, length, MatchOption, Some};
ghost use Rattle.nc_gens.specs.Seen.{new_passes};
ghost use Rattle.nc_script.specs.machinery.Session.{AreSeated};
ghost use Rattle.nc_script.specs.machinery.Seats.{HasChecked, ChecksIn, Leaves, HasNoPass, IsTaken, HasMetOne, HaveMet, IsOnlyKeeper};

use nc_gens::{Gens, Pass};
use nc_region::{Acts, RegionOf};
use std::alloc::{AllocError, Global};
use std::marker::Model;

/// The seats of a script: for each the pass of its thread, until it leaves.
#[derive(Drop)]
pub struct Seats<'g> {
    gens: &'g Gens,
    passes: Vec<Option<Pass>>,
}

impl<'g> Model for Seats<'g> {
    ghost use Rattle.nc_script.specs.machinery.Session.{SeatsState, AreSeated};

    ghost Value = { SeatsState };

    ghost view = { λ s. record { table = s.gens.now; passes = s.passes.items } };

    ghost invariant = { λ s. AreSeated s.gens.now s.passes.items };
}

/// A pass checks in. The region's keeper meets it before and after, so that the pass's own word and the keeper's bound for it
/// are known.
fn check_in_pass<A: Acts + Drop>(gens: &Gens, region: &mut RegionOf<A>, pass: &mut Pass)
    requires table { pass.old.table ≡ gens.now }
    requires keeper { region.old.keeper.table ≡ gens.now }
    ensures checked { HasChecked pass.old region.old.keeper pass.new region.new.keeper }
    ensures others { region.new ≡ record region.old { keeper = region.new.keeper } }
{
    region.meet(pass);
    gens.check_in(pass);
    region.meet(pass);
}

/// The pass of a seat checks in, if it is there; returns whether it is.
fn check_in_at<A: Acts + Drop>(
    gens: &Gens,
    region: &mut RegionOf<A>,
    passes: &mut [Option<Pass>],
    seat: usize,
) -> bool
    requires table { region.old.keeper.table ≡ gens.now }
    requires seated { AreSeated gens.now passes.old }
    ensures checks { ChecksIn result seat passes.old region.old passes.new region.new }
    ensures seated { AreSeated gens.now passes.new }
{
    if seat >= passes.len() {
        return false;
    }
    if let Some(pass) = &mut passes[seat] {
        check_in_pass(gens, region, pass);
        return true;
    }
    false
}

/// Takes away and returns the pass of a seat, if it is there.
fn take_pass(passes: &mut [Option<Pass>], seat: usize) -> Option<Pass>
    ensures { MatchOption result (HasNoPass passes.old seat × (passes.new ≡ passes.old)) (IsTaken seat passes.old passes.new) }
{
    if seat >= passes.len() {
        return None;
    }
    passes[seat].take()
}

/// The region's keeper meets the pass of a seat, if it is there.
fn meet_at<A: Acts + Drop>(region: &mut RegionOf<A>, passes: &mut [Option<Pass>], seat: usize)
    requires inside { seat < length passes.old }
    requires seated { AreSeated region.old.keeper.table passes.old }
    ensures seated { AreSeated region.old.keeper.table passes.new }
    ensures met { HasMetOne seat passes.old region.old.keeper.numbers.bounds passes.new region.new.keeper.numbers.bounds }
    ensures keeper { IsOnlyKeeper region.old region.new }
{
    if let Some(pass) = &mut passes[seat] {
        region.meet(pass);
    }
}

/// The region's keeper meets each pass.
fn meet_each<A: Acts + Drop>(region: &mut RegionOf<A>, passes: &mut [Option<Pass>])
    requires seated { AreSeated region.old.keeper.table passes.old }
    ensures seated { AreSeated region.old.keeper.table passes.new }
    ensures met { HaveMet passes.old region.old.keeper.numbers.bounds passes.new region.new.keeper.numbers.bounds }
    ensures keeper { IsOnlyKeeper region.old region.new }
{
    for seat in 0..passes.len() {
        meet_at(region, passes, seat);
    }
}

/// Slots that hold these passes, in order.
fn hold_passes(alloc: Global, passes: Vec<Pass>) -> Result<Vec<Option<Pass>>, AllocError>
    ensures { IfOk result (λ held. held.items ≡ map Some passes.items) }
{
    let mut held = Vec::with_capacity(alloc, passes.len())?;
    for pass in passes {
        held.push(Some(pass))?;
    }
    Ok(held)
}

impl<'g> Seats<'g> {
    /// A seat for each pass, in order.
    pub fn new(alloc: Global, gens: &'g Gens, passes: Vec<Pass>) -> Result<Seats<'g>, AllocError>
        requires { passes.items ≡ new_passes gens.now (length passes.items) }
        ensures { IfOk result (λ s. s ≡ record { table = gens.now; passes = map Some passes.items }) }
    {
        let passes = hold_passes(alloc, passes)?;
        Ok(Seats { gens, passes })
    }

    /// The thread of a seat checks in, if there is such a seat and it hasn't left; returns whether it did.
    pub fn check_in<A: Acts + Drop>(&mut self, region: &mut RegionOf<A>, seat: usize) -> bool
        requires { region.old.keeper.table ≡ self.old.table }
        ensures checks { ChecksIn result seat self.old.passes region.old self.new.passes region.new }
        ensures table { self.new.table ≡ self.old.table }
    {
        check_in_at(self.gens, region, self.passes.as_mut_slice(), seat)
    }

    /// The thread of a seat leaves for good, if there is such a seat and it hasn't left; returns whether it did.
    pub fn leave(&mut self, seat: usize) -> bool
        ensures leaves { Leaves result seat self.old.passes self.new.passes }
        ensures table { self.new.table ≡ self.old.table }
    {
        match take_pass(self.passes.as_mut_slice(), seat) {
            Some(pass) => {
                self.gens.leave(pass);
                true
            }
            None => false,
        }
    }

    /// The region's keeper meets each pass.
    pub fn meet<A: Acts + Drop>(&mut self, region: &mut RegionOf<A>)
        requires { region.old.keeper.table ≡ self.old.table }
        ensures table { self.new.table ≡ self.old.table }
        ensures met { HaveMet self.old.passes region.old.keeper.numbers.bounds self.new.passes region.new.keeper.numbers.bounds }
        ensures keeper { IsOnlyKeeper region.old region.new }
    {
        meet_each(region, self.passes.as_mut_slice());
    }
}
