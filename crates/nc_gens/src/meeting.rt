//! The meeting of a pass and the keeper.

ghost use Rattle.std.specs.Prelude.{◌≡◌};
ghost use Rattle.nc_gens.specs.Seen.{HasMet};

use crate::steps::{PassIn, PassOut, SeeGeneration, TakeWord};
use crate::table::{Gens, Keeper, Pass};

impl Gens {
    /// The pass loads the generation, and the keeper loads the pass's word, so that each knows the other's number. `since` is unchanged:
    /// this is not a check-in.
    ///
    /// It allocates nothing, never waits, and is never refused.
    ///
    /// Not promised: anything about other seats.
    pub fn meet(&self, pass: &mut Pass, keeper: &mut Keeper)
        requires pass { pass.old.table ≡ self.now }
        requires keeper { keeper.old.table ≡ self.now }
        ensures { HasMet pass.old keeper.old pass.new keeper.new }
    {
        // A load reveals nothing about another token's view. The keeper's token therefore takes in the pass's view for the two loads, and
        // then gives it back.
        let words = &self.words.shared;
        let lent = words.split_seat::<PassOut>(&mut pass.token);
        words.join_seat::<PassIn>(&mut keeper.token, lent);
        words.load::<SeeGeneration>(&mut keeper.token, 0);
        let found = words.load::<TakeWord>(&mut keeper.token, pass.seat + 1);
        pass.token = words.split_seat::<PassOut>(&mut keeper.token);
        keeper.bounds[pass.seat] = found;
    }
}
