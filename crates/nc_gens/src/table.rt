//! The table, its passes and its keeper.

ghost use Rattle.std.specs.Prelude.{◌≡◌, ◌^◌, ◌≤◌};

use crate::opening::MOST_SEATS;
use crate::view::{Token, WordTable};
use arrayvec::ArrayVec;
use std::marker::Model;

/// The word of a seat that has left.
pub(crate) const LEFT: u64 = u64::MAX;

/// The table of generations. Contracts see its identity and not its words, which other threads may change at any moment.
///
/// A `&Gens` may be shared among threads. Each call takes effect by single atomic steps.
#[derive(Drop)]
pub struct Gens {
    pub(crate) words: WordTable,
}

impl Model for Gens {
    ghost use Rattle.atomic_table.specs.Seated.{TableId, table_id_coded};

    ghost Value = { TableId };

    ghost coded = { table_id_coded };

    ghost view = { λ g. g.words.shared.table_id };
}

/// One seat's right to check in and to leave. There is one for each seat, and it can't be copied.
///
/// If a pass is dropped without [`Gens::leave`], its seat keeps its last word for good, and no span with a stamp above that word is ever
/// reclaimed.
#[derive(Drop)]
pub struct Pass {
    pub(crate) seat: usize,
    pub(crate) since: u64,
    pub(crate) token: Token,
}

impl Model for Pass {
    ghost use Rattle.nc_gens.specs.Seen.{PassState};

    ghost Value = { PassState };

    ghost use Rattle.nc_gens.specs.machinery.Fields.{pass_state, IsPass};

    ghost view = { pass_state };

    ghost invariant = { IsPass };
}

/// The one right to raise the generation, with a lower bound on the word of each seat.
#[derive(Drop)]
pub struct Keeper {
    pub(crate) generation: u64,
    pub(crate) bounds: ArrayVec<u64, MOST_SEATS>,
    pub(crate) token: Token,
}

impl Model for Keeper {
    ghost use Rattle.nc_gens.specs.Seen.{KeeperState};

    ghost Value = { KeeperState };

    ghost use Rattle.nc_gens.specs.machinery.Fields.{keeper_state, IsKeeper};

    ghost view = { keeper_state };

    ghost invariant = { IsKeeper };
}

impl Pass {
    /// The generation that the last check-in took, or 0 if there was none. The seat holds back every span that is retired with a higher
    /// stamp.
    pub fn since(&self) -> u64
        ensures { result ≡ self.now.numbers.since }
    {
        self.since
    }
}

impl Keeper {
    /// The generation. Only the keeper changes it, so this needs no load.
    pub fn generation(&self) -> u64
        ensures generation { result ≡ self.now.numbers.generation }
        ensures in_range { result ≤ 2 ^ 62 }
    {
        self.generation
    }
}
