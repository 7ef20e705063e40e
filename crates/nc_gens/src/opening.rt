//! Creates a table with its keeper and its passes.

ghost use Rattle.std.specs.Prelude.{◌≡◌, ◌+◌, ◌<◌, ◌≤◌, ◌↔◌, ◌⊎◌, [], All, IfOk, OnOk, IsErrOf, IsTrue, length, replicate};
ghost use Rattle.nc_gens.specs.machinery.Views.{giving_view};
ghost use Rattle.nc_gens.specs.Seen.{AreSeats, new_passes, first_keeper};

use crate::fault::GensFault;
use crate::steps::GivePass;
use crate::table::{Gens, Keeper, Pass};
use crate::view::{Token, WordTable};
use arrayvec::ArrayVec;
use std::alloc::{AllocError, Global};

/// The largest number of seats in a table.
pub const MOST_SEATS: usize = 256;

/// Whether a table may have this number of seats.
pub fn are_seats(seats: u32) -> bool
    ensures { IsTrue result ↔ AreSeats seats }
{
    seats != 0 && seats as usize <= MOST_SEATS
}

impl Gens {
    /// The table, its keeper, and a pass for each seat, in the seats' order. The generation, every word and every `since` begin at 0.
    ///
    /// Refusals, the first in this order: `BadSeats` exactly if `seats` isn't in 1 to [`MOST_SEATS`], before anything is allocated;
    /// `OutOfMemory` if an allocation was refused. No other call allocates.
    ///
    /// Not promised: that memory is available.
    pub fn new(alloc: Global, seats: u32) -> Result<(Gens, Keeper, Vec<Pass>), GensFault>
        ensures bad_seats { IsErrOf result GensFault.BadSeats ↔ ¬ AreSeats seats }
        ensures keeper { IfOk result (λ r. r.1 ≡ first_keeper r.0 seats) }
        ensures passes { IfOk result (λ r. r.2.items ≡ new_passes r.0 seats) }

        // Passes and keeper belong to the table that this call made.
        ensures count { IfOk result (λ r. length r.2.items ≡ seats) }
        ensures tables { IfOk result (λ r. (r.1.table ≡ r.0) × All (λ p. p.table ≡ r.0) r.2.items) }
    {
        if !are_seats(seats) {
            return Err(GensFault::BadSeats);
        }
        open(alloc, seats as usize).map_err(|_| GensFault::OutOfMemory)
    }
}

/// The table, its keeper, and its passes, for a number of seats that is in range.
fn open(alloc: Global, seats: usize) -> Result<(Gens, Keeper, Vec<Pass>), AllocError>
    requires { AreSeats seats }
    ensures keeper { IfOk result (λ r. (r.1 ≡ first_keeper r.0 seats) × (r.1.table ≡ r.0)) }
    ensures passes { IfOk result (λ r. r.2.items ≡ new_passes r.0 seats) }
    ensures count { IfOk result (λ r. length r.2.items ≡ seats) }
    ensures tables { IfOk result (λ r. All (λ p. p.table ≡ r.0) r.2.items) }
{
    let (words, mut token) = lay_words(alloc, seats)?;
    let passes = give_passes(alloc, &words, &mut token, seats)?;
    let keeper = Keeper {
        generation: 0,
        bounds: zero_bounds(seats),
        token,
    };
    Ok((Gens { words }, keeper, passes))
}

/// The words of a table, all 0, and the token of its keeper, which has given out no pass.
fn lay_words(alloc: Global, seats: usize) -> Result<(WordTable, Token), AllocError>
    requires { AreSeats seats }
    ensures words { IfOk result (λ r. r.0.shared.table_id.words ≡ seats + 1) }
    ensures token { IfOk result (λ r. r.1.table_id ≡ r.0.shared.table_id) }
    ensures view { IfOk result (λ r. r.1.me ≡ (giving_view seats 0, [])) }
{
    let zeros = Vec::from_elem(alloc, 0u64, seats + 1)?;
    WordTable::of_words(alloc, zeros.as_slice(), &seats)
}

/// A pass for each seat, in the seats' order. The token of each is split off the keeper's.
fn give_passes(
    alloc: Global,
    words: &WordTable,
    keeper: &mut Token,
    seats: usize,
) -> Result<Vec<Pass>, AllocError>
    requires few { AreSeats seats }
    requires table { keeper.old.table_id ≡ words.now.shared.table_id }
    requires words { keeper.old.table_id.words ≡ seats + 1 }
    requires view { keeper.old.me ≡ (giving_view seats 0, []) }
    ensures passes { IfOk result (λ v. v.items ≡ new_passes keeper.old.table_id seats) }
    ensures count { IfOk result (λ v. length v.items ≡ seats) }
    ensures tables { IfOk result (λ v. All (λ p. p.table ≡ keeper.old.table_id) v.items) }
    ensures table { OnOk result (keeper.new.table_id ≡ keeper.old.table_id) }
    ensures view { OnOk result (keeper.new.me ≡ (giving_view seats seats, [])) }
{
    let mut passes = Vec::with_capacity(alloc, seats)?;
    for seat in 0..seats {
        let token = words.shared.split_seat::<GivePass>(keeper);
        passes.push(Pass {
            seat,
            since: 0,
            token,
        })?;
    }
    Ok(passes)
}

/// The bound of each seat, 0.
fn zero_bounds(seats: usize) -> ArrayVec<u64, MOST_SEATS>
    requires { AreSeats seats }
    ensures { result.items ≡ replicate seats 0 }
{
    let mut bounds = ArrayVec::new();
    for _seat in 0..seats {
        bounds.push(0);
    }
    bounds
}
