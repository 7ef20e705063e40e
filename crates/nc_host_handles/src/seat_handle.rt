//! A seat, with a share of its table of generations.

ghost use Rattle.std.specs.Prelude.{◌≡◌};
ghost use Rattle.std.specs.Arc.{arc_value};
ghost use Rattle.nc_gens.specs.Seen.{HasCheckedIn};

use nc_gens::{Gens, Pass};
use std::alloc::Global;
use std::marker::Model;
use std::sync::Arc;

/// A seat that was given out: its pass, and a share of the table.
#[derive(Drop)]
pub struct SeatHandle {
    gens: Arc<Gens, Global>,
    pass: Pass,
}

impl Model for SeatHandle {
    ghost use Rattle.std.specs.Prelude.{◌≡◌};
    ghost use Rattle.std.specs.Arc.{arc_value};
    ghost use Rattle.nc_gens.specs.Seen.{PassState};

    ghost Value = { PassState };

    ghost view = { λ h. h.pass };

    ghost invariant = { λ h. h.pass.table ≡ arc_value h.gens };
}

impl SeatHandle {
    /// The seat of this pass, with a share of its table.
    pub fn new(gens: Arc<Gens, Global>, pass: Pass) -> SeatHandle
        requires { pass.table ≡ arc_value gens }
        ensures { result ≡ pass }
    {
        SeatHandle { gens, pass }
    }

    /// The pass. The share of the table is given back.
    pub(crate) fn into_pass(self) -> Pass
        ensures { result ≡ self }
    {
        let SeatHandle { pass, .. } = self;
        pass
    }

    /// `Gens::check_in`: it takes no memory and no lock, never waits and is never refused.
    ///
    /// It must be called while the seat's thread is outside the region: no contract here can state that, and reclaiming
    /// relies on it.
    pub fn check_in(&mut self)
        ensures checked_in { HasCheckedIn self.old self.new }
    {
        self.gens.check_in(&mut self.pass);
    }

    /// `Gens::leave`, which also gives back the share of the table. It takes no lock and never waits.
    ///
    /// It must be called once the seat's thread is outside the region for good.
    pub fn leave(self) {
        let SeatHandle { gens, pass } = self;
        gens.leave(pass);
    }
}
