//! The calls of a pass, which checks in and leaves.

ghost use Rattle.std.specs.Prelude.{◌≡◌, [], ◌∷◌};
ghost use Rattle.nc_gens.specs.declared.view.WordStep.{WordStep};
ghost use Rattle.nc_gens.specs.Rule.{left_stored};
ghost use Rattle.nc_gens.specs.Trail.{Adds, is_by_pass};
ghost use Rattle.nc_gens.specs.Seen.{HasCheckedIn};

use crate::steps::{StoreLeft, StoreSince, TakeGeneration};
use crate::table::{Gens, LEFT, Pass};
use crate::view::Token;

impl Gens {
    /// Loads the generation, and then stores it in the seat's own word. `since` becomes that generation, and never decreases.
    ///
    /// It must be called while the seat's thread is quiescent, outside the code region: no contract here can express that, and reclaiming
    /// relies on it. It allocates nothing, takes no lock, never waits, whatever other threads do or hold, and is never refused.
    ///
    /// Not promised: that the generation taken is still the highest when the call returns, that a concurrent look of the keeper sees the
    /// new word, or any order between the check-ins of two seats.
    pub fn check_in(&self, pass: &mut Pass)
        requires { pass.old.table ≡ self.now }
        ensures checked_in { HasCheckedIn pass.old pass.new }
    {
        let words = &self.words.shared;
        let generation = words.load::<TakeGeneration>(&mut pass.token, 0);
        words.store::<StoreSince>(&mut pass.token, pass.seat + 1, generation);
        pass.since = generation;
    }

    /// Stores "left" in the seat's own word, and consumes the pass: the seat no longer holds anything back, and nobody can check in for it
    /// again.
    ///
    /// It must be called once the seat's thread is outside the code region for good. It allocates nothing, takes no lock, never waits, and
    /// is never refused.
    ///
    /// Not promised: that a concurrent look of the keeper sees it. No clause of this call says what was stored, since the pass is consumed.
    pub fn leave(&self, pass: Pass)
        requires { pass.table ≡ self.now }
    {
        self.store_left(pass);
    }

    /// Stores "left" in the seat's own word. The token is returned only so that the contract can say what was stored.
    fn store_left(&self, pass: Pass) -> Token
        requires { pass.table ≡ self.now }
        ensures stored { result.me.0.pass ≡ left_stored pass.numbers }
        ensures trail { Adds (is_by_pass pass.seat) pass.trail result.me.0.pass_trail (WordStep.StoredLeft pass.seat ∷ []) }
    {
        let Pass {
            seat,
            since: _,
            mut token,
        } = pass;
        self.words
            .shared
            .store::<StoreLeft>(&mut token, seat + 1, LEFT);
        token
    }
}
