//! The table's words, and what the holder of each token knows about them.
//!
//! Word 0 is the generation, and word i + 1 is the word of seat i. The structs of numbers exist only for proofs: no value of them is ever
//! made, so they cost nothing at run time.

use atomic_table::{Seat, Table, TableRule};
use std::alloc::Global;

/// The numbers of a pass. No value of it is made.
pub struct PassNumbers {
    /// The value of the word of the pass's own seat.
    pub word: u64,
    /// The generation that the last check-in took.
    pub since: u64,
    /// The last generation that the pass has loaded, by a check-in or a meeting.
    pub seen: u64,
    /// The number of times that the pass has loaded the generation.
    pub loads: u64,
}

/// The numbers of the keeper. No value of it is made.
pub struct KeeperNumbers {
    pub generation: u64,
    /// For each seat, the number last loaded from its word, initially 0. In a clause, an array is a list of any length.
    pub bounds: [u64; 0],
    /// For each seat, the number of times that its word was loaded.
    pub looks: [u64; 0],
}

/// One atomic step on the words, by the pass of a seat or by the keeper. No value of it is made.
pub enum WordStep {
    /// The pass of this seat loaded the generation, and took it as its `since`.
    TookGeneration(usize),
    /// The pass of this seat loaded the generation, and its `since` is unchanged.
    SawGeneration(usize),
    /// The pass of this seat stored its `since` in its own word.
    StoredSince(usize),
    /// The pass of this seat stored "left" in its own word.
    StoredLeft(usize),
    /// The keeper added one to the generation.
    AddedOne,
    /// The keeper loaded the word of this seat.
    TookWord(usize),
}

/// What a token knows about the words: a pass's part, the keeper's, both while they meet, or neither. No value of it is made.
pub(crate) struct View {
    /// The number of seats of the table.
    pub seats: usize,
    pub is_pass: bool,
    /// The seat of the pass.
    pub seat: usize,
    pub pass: PassNumbers,
    /// The steps on the words up to the last one of the pass.
    pub pass_trail: [WordStep; 0],
    pub is_keeper: bool,
    pub keeper: KeeperNumbers,
    /// The steps on the words up to the last one of the keeper.
    pub keeper_trail: [WordStep; 0],
    /// The keeper has given out the passes of the seats below this one.
    pub given: usize,
}

/// The rule that ties every view to the words. It holds between any two steps.
pub(crate) struct WordRule;

impl TableRule<(), View, usize> for WordRule {
    ghost use Rattle.nc_gens.specs.Record.{Recorded};
    ghost use Rattle.nc_gens.specs.machinery.Views.{first_view};

    ghost holds = { λ _. Recorded };

    ghost first = { first_view };
}

pub(crate) type WordTable = Table<(), View, usize, WordRule, Global>;

/// The right to take steps on the words, with a view. It occupies no memory.
pub(crate) type Token = Seat<(), View>;
