//! The calls of the keeper, which draws stamps and looks at the words of the seats.

ghost use Rattle.std.specs.Prelude.{◌≡◌, ◌≢◌, ◌+◌, ◌^◌, ◌<◌, ◌≤◌, ◌↔◌, [], ◌∷◌, All, length, slice_index, IfOk, IsOk, OnOk, OnErr};
ghost use Rattle.nc_gens.specs.declared.view.WordStep.{WordStep};
ghost use Rattle.nc_gens.specs.Rule.{left_word, word_taken};
ghost use Rattle.nc_gens.specs.Trail.{IsRising};
ghost use Rattle.nc_gens.specs.Seen.{HasLooked, HasRaised, IsLedTo, KeeperSteps, least_number, least_or, staying};

use crate::fault::GensFull;
use crate::steps::{AddOne, TakeWord};
use crate::table::{Gens, Keeper, LEFT};

/// The last generation, 2^62. No stamp is drawn after it.
pub const LAST_GENERATION: u64 = 1 << 62;

impl Gens {
    /// Adds one to the generation, and returns the new one: the stamp for spans retired now.
    ///
    /// It allocates nothing and never waits. It is refused exactly if the generation is 2^62, and then changes nothing.
    ///
    /// Not promised: that any seat ever takes the new generation.
    pub fn bump(&self, keeper: &mut Keeper) -> Result<u64, GensFull>
        requires { keeper.old.table ≡ self.now }
        ensures room { IsOk result ↔ (keeper.old.numbers.generation < 2 ^ 62) }
        ensures stamp { IfOk result (λ n. n ≡ keeper.old.numbers.generation + 1) }
        ensures raised { OnOk result (HasRaised keeper.old keeper.new) }
        ensures full { OnErr result ((keeper.old.numbers.generation ≡ 2 ^ 62) × (keeper.new ≡ keeper.old)) }
    {
        if keeper.generation >= LAST_GENERATION {
            return Err(GensFull);
        }
        self.words
            .shared
            .fetch_add::<AddOne>(&mut keeper.token, 0, 1);
        keeper.generation += 1;
        Ok(keeper.generation)
    }

    /// Loads each seat's word, and raises the keeper's bound for that seat to the number loaded. Returns the least bound of the seats whose
    /// word it didn't find to be "left", or the generation if there are none. A span retired with a stamp of at most the result can be
    /// reclaimed: every seat has checked in since, or has left. Conversely, the result is at least each stamp for which that was so before
    /// the look ([`law_of_progress`](crate::law_of_progress)).
    ///
    /// It allocates nothing, never waits, and is never refused.
    ///
    /// Not promised: that the result ever increases, since a seat that neither checks in nor leaves holds it back; or that the words had
    /// these values at a single moment. They are loaded one after the other, and never decrease.
    pub fn look(&self, keeper: &mut Keeper) -> u64
        requires { keeper.old.table ≡ self.now }
        // Each seat's word is loaded once, no bound decreases, and the generation is unchanged. Each bound is what the seat's last
        // check-in or its leaving has stored.
        ensures looked { HasLooked keeper.old keeper.new }
        ensures seats { self.now.words ≡ length keeper.new.numbers.bounds + 1 }

        ensures least { result ≡ least_number keeper.new.numbers }
        ensures below { All (λ b. b ≢ left_word → result ≤ b) keeper.new.numbers.bounds }
        ensures at_most { result ≤ keeper.new.numbers.generation }
    {
        for seat in 0..keeper.bounds.len() {
            self.look_at(keeper, seat);
        }
        least_bound(keeper.bounds.as_slice(), keeper.generation)
    }

    /// Loads the word of a seat, and raises the keeper's bound for that seat to the number loaded.
    fn look_at(&self, keeper: &mut Keeper, seat: usize)
        requires table { keeper.old.table ≡ self.now }
        requires inside { seat < length keeper.old.numbers.bounds }
        ensures taken { keeper.new ≡ record keeper.old {
          numbers = word_taken seat (slice_index keeper.new.numbers.bounds seat) keeper.old.numbers;
          trail = keeper.new.trail;
        } }
        ensures raised { slice_index keeper.old.numbers.bounds seat ≤ slice_index keeper.new.numbers.bounds seat }
        ensures stepped { KeeperSteps keeper.old keeper.new (WordStep.TookWord seat ∷ []) }
        ensures led_to { IsLedTo keeper.new }
        ensures rising { IsRising (length keeper.new.numbers.bounds) keeper.new.trail }
    {
        let found = self
            .words
            .shared
            .load::<TakeWord>(&mut keeper.token, seat + 1);
        keeper.bounds[seat] = found;
    }
}

/// The least bound that isn't "left", or the generation if there is none.
fn least_bound(bounds: &[u64], generation: u64) -> u64
    requires { All (λ b. b ≢ left_word → b ≤ generation) bounds.now }
    ensures least { result ≡ least_or generation (staying bounds.now) }
    ensures below { All (λ b. b ≢ left_word → result ≤ b) bounds.now }
    ensures at_most { result ≤ generation }
{
    let mut least = generation;
    for bound in bounds {
        if *bound != LEFT {
            least = least.min(*bound);
        }
    }
    least
}
