//! Numbers of seats that are refused, and calls that never wait.
ghost use Rattle.std.specs.Prelude.{◌≡◌};

use crate::lower::rows::right;
use crate::region::fixtures::{one_seat, shared_anew};
use nc_gens::{Gens, GensFault, Keeper, Pass};
use nc_region::Shared;
use std::alloc::Global;
use std::test::Fail;
use std::thread::Threads;

/// A table with this number of seats is refused.
fn is_refused(alloc: Global, seats: u32) -> bool {
    matches!(Gens::new(alloc, seats), Err(GensFault::BadSeats))
}

#[test]
fn bad_seats_are_refused(rt: HostRuntime) -> Result<(), Fail> {
    let alloc = rt.alloc();
    let are_refused = is_refused(alloc, 0) && is_refused(alloc, 257) && is_refused(alloc, u32::MAX);
    right(
        are_refused && !is_refused(alloc, 1) && !is_refused(alloc, 256),
        1,
    )
}

/// The function may start threads but not wait, so nothing that it calls waits. It returns the first stamp, `since` after a
/// meeting and after a check-in, and the result of a look once the seat has left without taking the second stamp. A visitor of a
/// shared region checks in and leaves too.
fn all_calls<T: Threads>(
    _rt: &T,
    gens: &Gens,
    keeper: &mut Keeper,
    mut pass: Pass,
    shared: &Shared<'_>,
    mut visitor: Pass,
) -> [u64; 4]
    requires { (keeper.old.table ≡ gens.now) × (pass.table ≡ gens.now) × (visitor.table ≡ shared.now.table) }
{
    let stamp = gens.bump(keeper).unwrap_or(0);
    gens.meet(&mut pass, keeper);
    let met = pass.since();
    gens.check_in(&mut pass);
    let since = pass.since();
    let _second = gens.bump(keeper);
    gens.leave(pass);
    shared.check_in(&mut visitor);
    shared.leave(visitor);
    [stamp, met, since, gens.look(keeper)]
}

#[test]
fn no_wait(rt: HostRuntime) -> Result<(), Fail> {
    let alloc = rt.alloc();
    let (gens, mut keeper, pass) = one_seat(alloc)?;
    let (others, second, visitor) = one_seat(alloc)?;
    let called = match shared_anew(alloc, 2, &others, second) {
        Some(shared) => {
            let answers = all_calls(&rt, &gens, &mut keeper, pass, &shared, visitor);
            answers == [1, 0, 1, 2] && keeper.generation() == 2
        },
        None => false,
    };
    right(called, 1)
}
