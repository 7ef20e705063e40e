//! A region behind a lock, shared by threads.

ghost use Rattle.std.specs.Prelude.{◌≡◌, ℕ, List, length, IfOk, IfErr, Some, OnOk, OnErr};
ghost use Rattle.nc_gens.specs.Seen.{HasCheckedIn};
ghost use Rattle.nc_decode.specs.Bundles.{IsLawfulLimit};
ghost use Rattle.nc_text.specs.Machine.{IsConfined};
ghost use Rattle.nc_text.specs.Places.{limit_of};
ghost use Rattle.nc_region.specs.Deletion.{IsDeleted, IsReclaimed, MayRefuseDelete, HasProgressed};
ghost use Rattle.nc_region.specs.Patch.{IsPatched, IsPatch, MayRefusePatch};
ghost use Rattle.nc_region.specs.Region.{IsRegion, IsCreated, IsRefused, MayRefuse};
ghost use Rattle.nc_region.specs.Region as spec;
ghost use Rattle.nc_region.specs.Reached.{IsReachedFrom};
ghost use Rattle.nc_region.specs.Trace.{IsTrace, IsWalkStart, MayRefuseWalk};

use crate::fault::{CreateFault, DeleteFault, ModifyFault, WalkFault};
use crate::lock::Lock;
use crate::lock::ruled::{HasRegion, Rule, Ruled};
use crate::region::{Region, RegionOf};
use crate::trace::Trace;
use nc_acts::{Acts, Plain};
use nc_gens::{Gens, Pass};
use nc_vet::Vetted;
use std::marker::{Brand, Model};
use std::sync::Wait;

/// A region over a text of its own, shared by threads.
pub type Shared<'g> = SharedOf<'g, Plain<'g>>;

/// A region that threads share by reference, behind a lock.
///
/// Whenever the lock is free the region is confined, since every value of `RegionOf` is. Each call but `check_in` and
/// `leave` takes the lock and runs the call of `RegionOf` with the same name. It may wait for the lock, and no order of waiting
/// threads is promised. No clause can name the region at the moment when the lock is held. The clauses here say that there
/// are such regions: `old` is the one that the lock found, and `new`, or `next`, the one that it left. Every such `old` was reached
/// by calls, one after the other, from the region that `new` or `over` was given (`IsReachedFrom`); contracts see that region as
/// `first`. What each call does to the region that it is lent is said exactly by the contracts of `create_in` and the other
/// functions below. That it does nothing else is tested (`only_the_call`).
///
/// Threads can share it if its acts can be sent to another thread.
#[derive(Drop)]
pub struct SharedOf<'g, A: Acts + Drop> {
    gens: &'g Gens,
    region: Lock<RegionOf<A>>,
}

impl<'g, A: Acts + Drop> Model for SharedOf<'g, A> {
    ghost use Rattle.nc_region.specs.Reached.{SharedRegion};

    ghost Value = { SharedRegion };

    ghost view = { λ s. record { table = s.gens.now; first = s.region } };
}

impl<A: Acts + Drop> HasRegion for RegionOf<A> {
    ghost region = { λ r. r };
}

impl<'g> SharedOf<'g, Plain<'g>> {
    /// This region, for threads to share. Contracts see which table of generations it is over, and the region as it was given.
    pub fn new(region: Region<'g>) -> Shared<'g>
        ensures table { result.table ≡ region.entry.keeper.table }
        ensures first { result.first ≡ region.entry }
    {
        let gens = region.gens();
        SharedOf::over(region, gens)
    }
}

impl<'g, A: Acts + Drop> SharedOf<'g, A> {
    /// This region, for threads to share, beside the table of generations to which its keeper belongs: `check_in` and
    /// `leave` need the table without the lock. Contracts see which table it is, and the region as it was given.
    pub fn over(region: RegionOf<A>, gens: &'g Gens) -> SharedOf<'g, A>
        requires { region.keeper.table ≡ gens.now }
        ensures table { result.table ≡ region.keeper.table }
        ensures first { result.first ≡ region }
    {
        SharedOf {
            gens,
            region: Lock::new(region),
        }
    }

    /// `Gens::check_in`, without the lock: it never waits, whatever other threads do or hold.
    ///
    /// Call it only while the seat's thread is outside the region. No contract here can express this, and reclaiming relies on it.
    pub fn check_in(&self, pass: &mut Pass)
        requires { pass.old.table ≡ self.now.table }
        ensures checked_in { HasCheckedIn pass.old pass.new }
    {
        self.gens.check_in(pass);
    }

    /// `Gens::leave`, without the lock: it never waits. Call it only while the seat's thread is outside the region, for good.
    pub fn leave(&self, pass: Pass)
        requires { pass.table ≡ self.now.table }
    {
        self.gens.leave(pass);
    }

    /// `Region::delete` under the lock.
    pub fn delete(&self, rt: &impl Wait, base: u32) -> Result<u64, DeleteFault>
        // The live chunk with this base was deleted in the region found under the lock, with this stamp.
        ensures deleted { IfOk result (λ stamp. (old new : spec.Region) × IsReachedFrom self.now.first old
            × IsRegion old.marked old.chunks × IsDeleted old new base stamp) }
        // The refusal is one that a region reached by calls may return.
        ensures refused { IfErr result (λ fault. (r : spec.Region) × IsReachedFrom self.now.first r
            × IsRegion r.marked r.chunks × MayRefuseDelete r base fault) }
    {
        delete_at::<A, Brand>(&self.region, rt, base)
    }

    /// `Region::reclaim` under the lock.
    pub fn reclaim(&self, rt: &impl Wait) -> u32
        // This many chunks were due in the region found under the lock, and were freed: each for which every seat had checked in
        // since its stamp, or had left, at some moment before the look.
        ensures reclaimed { (old new : spec.Region) × IsReachedFrom self.now.first old
            × IsRegion old.marked old.chunks × IsReclaimed old new result × HasProgressed new }
    {
        reclaim_at::<A, Brand>(&self.region, rt)
    }

    /// `Region::chunk_count` under the lock.
    pub fn chunk_count(&self, rt: &impl Wait) -> usize
        // The region found under the lock has this many chunks.
        ensures count { (r : spec.Region) × IsReachedFrom self.now.first r
            × IsRegion r.marked r.chunks × (result ≡ length r.chunks) }
    {
        count_at::<A, Brand>(&self.region, rt)
    }

    /// `Region::create` under the lock. A refusal gives the chunk back.
    pub fn create(&self, rt: &impl Wait, vetted: Vetted) -> Result<(), (Vetted, CreateFault)>
        ensures given_back { IfErr result (λ e. e.0 ≡ vetted) }
        // The chunk was created in the region found under the lock.
        ensures created { OnOk result ((old new : spec.Region) × IsReachedFrom self.now.first old
            × IsRegion old.marked old.chunks × IsCreated old new vetted) }
        // The refusal is one that a region reached by calls may return.
        ensures refused { IfErr result (λ e. (r : spec.Region) × IsReachedFrom self.now.first r
            × IsRegion r.marked r.chunks × MayRefuse r vetted e.1) }
    {
        create_at::<A, Brand>(&self.region, rt, vetted)
    }

    /// `Region::modify` under the lock.
    pub fn modify(&self, rt: &impl Wait, at: u32, new: &[u8]) -> Result<(), ModifyFault>
        // The patch is a lawful one of the region found under the lock, and was made there.
        ensures modified { OnOk result ((old next : spec.Region) × IsReachedFrom self.now.first old
            × IsRegion old.marked old.chunks × IsPatch old at new.now × IsPatched old next at new.now) }
        // The refusal is one that a region reached by calls may return.
        ensures refused { IfErr result (λ fault. (r : spec.Region) × IsReachedFrom self.now.first r
            × IsRegion r.marked r.chunks × MayRefusePatch r at new.now fault) }
    {
        patch_at::<A, Brand>(&self.region, rt, at, new)
    }

    /// `Region::walk` under the lock: the trace through the text at that moment. The contract says that the text of some region
    /// that was reached by calls is confined and has this trace.
    pub fn walk(&self, rt: &impl Wait, start: u32, choices: &[u32]) -> Result<Trace, WalkFault>
        // The text found under the lock is confined, and this is a walk through it from one of its bundle starts.
        ensures trace { IfOk result (λ t. (r : spec.Region) × IsReachedFrom self.now.first r
            × IsConfined r.marked.bytes × IsWalkStart r.marked.bytes start
            × IsTrace r.marked.bytes start choices.now t.places.items t.end) }
        // The refusal is one that a text of a lawful size, of a region reached by calls, may return.
        ensures refused { IfErr result (λ e. (r : spec.Region) × IsReachedFrom self.now.first r
            × IsLawfulLimit (limit_of r.marked.bytes) × MayRefuseWalk r.marked.bytes start e) }
    {
        walk_at::<A, Brand>(&self.region, rt, start, choices)
    }
}

/// `delete`, for a rule that says from which region the one under the lock was reached.
fn delete_at<A: Acts + Drop, K: Rule>(
    lock: &Lock<RegionOf<A>>,
    rt: &impl Wait,
    base: u32,
) -> Result<u64, DeleteFault>
    requires { K.first ≡ Some lock.now }
    ensures deleted { IfOk result (λ stamp. (old new : spec.Region) × IsReachedFrom lock.now old
        × IsRegion old.marked old.chunks × IsDeleted old new base stamp) }
    ensures refused { IfErr result (λ fault. (r : spec.Region) × IsReachedFrom lock.now r
        × IsRegion r.marked r.chunks × MayRefuseDelete r base fault) }
{
    delete_in(&mut lock.at::<K>().mutex.lock(rt), base)
}

/// Deletes a chunk of the region under the lock, and does nothing else.
fn delete_in<A: Acts + Drop, K: Rule>(
    ruled: &mut Ruled<RegionOf<A>, K>,
    base: u32,
) -> Result<u64, DeleteFault>
    ensures reached { (first : spec.Region) → K.first ≡ Some first → IsReachedFrom first ruled.old }
    ensures found { IsRegion ruled.old.marked ruled.old.chunks }
    ensures deleted { IfOk result (IsDeleted ruled.old ruled.new base) }
    ensures unchanged { OnErr result (ruled.new ≡ ruled.old) }
    ensures refused { IfErr result (MayRefuseDelete ruled.old base) }
{
    // Called for its postconditions.
    let _facts = ruled.value.limit();
    ruled.value.delete(base)
}

/// `reclaim`, for a rule that says from which region the one under the lock was reached.
fn reclaim_at<A: Acts + Drop, K: Rule>(lock: &Lock<RegionOf<A>>, rt: &impl Wait) -> u32
    requires { K.first ≡ Some lock.now }
    ensures reclaimed { (old new : spec.Region) × IsReachedFrom lock.now old
        × IsRegion old.marked old.chunks × IsReclaimed old new result × HasProgressed new }
{
    reclaim_in(&mut lock.at::<K>().mutex.lock(rt))
}

/// Reclaims in the region under the lock, and does nothing else.
fn reclaim_in<A: Acts + Drop, K: Rule>(ruled: &mut Ruled<RegionOf<A>, K>) -> u32
    ensures reached { (first : spec.Region) → K.first ≡ Some first → IsReachedFrom first ruled.old }
    ensures found { IsRegion ruled.old.marked ruled.old.chunks }
    ensures reclaimed { IsReclaimed ruled.old ruled.new result }
    ensures progress { HasProgressed ruled.new }
{
    // Called for its postconditions.
    let _facts = ruled.value.limit();
    ruled.value.reclaim()
}

/// `chunk_count`, for a rule that says from which region the one under the lock was reached.
fn count_at<A: Acts + Drop, K: Rule>(lock: &Lock<RegionOf<A>>, rt: &impl Wait) -> usize
    requires { K.first ≡ Some lock.now }
    ensures count { (r : spec.Region) × IsReachedFrom lock.now r
        × IsRegion r.marked r.chunks × (result ≡ length r.chunks) }
{
    count_in(&lock.at::<K>().mutex.lock(rt))
}

/// The number of chunks of the region under the lock.
fn count_in<A: Acts + Drop, K: Rule>(ruled: &Ruled<RegionOf<A>, K>) -> usize
    ensures reached { (first : spec.Region) → K.first ≡ Some first → IsReachedFrom first ruled.now }
    ensures found { IsRegion ruled.now.marked ruled.now.chunks }
    ensures count { result ≡ length ruled.now.chunks }
{
    ruled.value.chunk_count()
}

/// `create`, for a rule that says from which region the one under the lock was reached.
fn create_at<A: Acts + Drop, K: Rule>(
    lock: &Lock<RegionOf<A>>,
    rt: &impl Wait,
    vetted: Vetted,
) -> Result<(), (Vetted, CreateFault)>
    requires { K.first ≡ Some lock.now }
    ensures given_back { IfErr result (λ e. e.0 ≡ vetted) }
    ensures created { OnOk result ((old new : spec.Region) × IsReachedFrom lock.now old
        × IsRegion old.marked old.chunks × IsCreated old new vetted) }
    ensures refused { IfErr result (λ e. (r : spec.Region) × IsReachedFrom lock.now r
        × IsRegion r.marked r.chunks × MayRefuse r vetted e.1) }
{
    create_in(&mut lock.at::<K>().mutex.lock(rt), vetted)
}

/// Creates a chunk in the region under the lock, and does nothing else.
fn create_in<A: Acts + Drop, K: Rule>(
    ruled: &mut Ruled<RegionOf<A>, K>,
    vetted: Vetted,
) -> Result<(), (Vetted, CreateFault)>
    ensures reached { (first : spec.Region) → K.first ≡ Some first → IsReachedFrom first ruled.old }
    ensures found { IsRegion ruled.old.marked ruled.old.chunks }
    ensures created { OnOk result (IsCreated ruled.old ruled.new vetted) }
    ensures unchanged { IfErr result (λ e. (e.0 ≡ vetted) × IsRefused ruled.old ruled.new vetted e.1) }
    ensures refused { IfErr result (λ e. MayRefuse ruled.old vetted e.1) }
{
    // Both are called for their postconditions.
    let _facts = ruled.value.limit();
    let _facts = vetted.code();
    ruled.value.create(vetted)
}

/// `SharedOf::modify`, for a rule that says from which region the one under the lock was reached.
fn patch_at<A: Acts + Drop, K: Rule>(
    lock: &Lock<RegionOf<A>>,
    rt: &impl Wait,
    at: u32,
    new: &[u8],
) -> Result<(), ModifyFault>
    requires { K.first ≡ Some lock.now }
    ensures patched { OnOk result ((old next : spec.Region) × IsReachedFrom lock.now old
        × IsRegion old.marked old.chunks × IsPatch old at new.now × IsPatched old next at new.now) }
    ensures refused { IfErr result (λ fault. (r : spec.Region) × IsReachedFrom lock.now r
        × IsRegion r.marked r.chunks × MayRefusePatch r at new.now fault) }
{
    patch_in(&mut lock.at::<K>().mutex.lock(rt), at, new)
}

/// Patches the region under the lock, and does nothing else.
fn patch_in<A: Acts + Drop, K: Rule>(
    ruled: &mut Ruled<RegionOf<A>, K>,
    at: u32,
    new: &[u8],
) -> Result<(), ModifyFault>
    ensures reached { (first : spec.Region) → K.first ≡ Some first → IsReachedFrom first ruled.old }
    ensures found { IsRegion ruled.old.marked ruled.old.chunks }
    ensures lawful { OnOk result (IsPatch ruled.old at new.now) }
    ensures patched { OnOk result (IsPatched ruled.old ruled.new at new.now) }
    ensures unchanged { OnErr result (ruled.new ≡ ruled.old) }
    ensures refused { IfErr result (MayRefusePatch ruled.old at new.now) }
{
    // Called for its postconditions.
    let _facts = ruled.value.limit();
    ruled.value.modify(at, new)
}

/// `walk`, for a rule that says from which region the one under the lock was reached.
fn walk_at<A: Acts + Drop, K: Rule>(
    lock: &Lock<RegionOf<A>>,
    rt: &impl Wait,
    start: u32,
    choices: &[u32],
) -> Result<Trace, WalkFault>
    requires { K.first ≡ Some lock.now }
    ensures trace { IfOk result (λ t. (r : spec.Region) × IsReachedFrom lock.now r
        × IsConfined r.marked.bytes × IsWalkStart r.marked.bytes start
        × IsTrace r.marked.bytes start choices.now t.places.items t.end) }
    ensures refused { IfErr result (λ e. (r : spec.Region) × IsReachedFrom lock.now r
        × IsLawfulLimit (limit_of r.marked.bytes) × MayRefuseWalk r.marked.bytes start e) }
{
    walk_confined(&lock.at::<K>().mutex.lock(rt), start, choices)
}

/// A walk through the text of the region under the lock, which is confined.
fn walk_confined<A: Acts + Drop, K: Rule>(
    ruled: &Ruled<RegionOf<A>, K>,
    start: u32,
    choices: &[u32],
) -> Result<Trace, WalkFault>
    ensures reached { (first : spec.Region) → K.first ≡ Some first → IsReachedFrom first ruled.now }
    ensures confined { IsConfined ruled.now.marked.bytes }
    ensures lawful { IsLawfulLimit (limit_of ruled.now.marked.bytes) }
    ensures trace { IfOk result (λ t. IsTrace ruled.now.marked.bytes start choices.now t.places.items t.end) }
    ensures begins { OnOk result (IsWalkStart ruled.now.marked.bytes start) }
    ensures refused { IfErr result (MayRefuseWalk ruled.now.marked.bytes start) }
{
    // Called for its postconditions.
    let _facts = ruled.value.chunk_count();
    ruled.value.walk(start, choices)
}
