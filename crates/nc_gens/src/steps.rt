//! The kinds of atomic step on the words, and the moves of a view from one token to another.

ghost use Rattle.nc_gens.specs.machinery.Steps.{TakesGeneration, SeesGeneration, StoresSince, StoresLeft, AddsOne, TakesWord};
ghost use Rattle.nc_gens.specs.machinery.Views.{given_one_more};
ghost use Rattle.nc_gens.specs.machinery.Views.{new_pass_view, without_pass, without_keeper, with_pass_of, spent_view};

use crate::view::View;
use atomic_table::{Join, Play, Split};

/// A pass loads the generation, and takes it as its `since`.
pub(crate) struct TakeGeneration;

impl Play<(), View> for TakeGeneration {
    ghost then = { TakesGeneration };
}

/// A pass loads the generation, and its `since` is unchanged.
pub(crate) struct SeeGeneration;

impl Play<(), View> for SeeGeneration {
    ghost then = { SeesGeneration };
}

/// A pass stores its `since` in its own word.
pub(crate) struct StoreSince;

impl Play<(), View> for StoreSince {
    ghost then = { StoresSince };
}

/// A pass stores "left" in its own word.
pub(crate) struct StoreLeft;

impl Play<(), View> for StoreLeft {
    ghost then = { StoresLeft };
}

/// The keeper adds one to the generation.
pub(crate) struct AddOne;

impl Play<(), View> for AddOne {
    ghost then = { AddsOne };
}

/// The keeper loads the word of a seat.
pub(crate) struct TakeWord;

impl Play<(), View> for TakeWord {
    ghost then = { TakesWord };
}

/// The keeper gives out the next pass.
pub(crate) struct GivePass;

impl Split<View> for GivePass {
    ghost left = { given_one_more };

    ghost right = { new_pass_view };
}

/// The pass is taken out of a view. The keeper stays, if it is in the view.
pub(crate) struct PassOut;

impl Split<View> for PassOut {
    ghost left = { without_pass };

    ghost right = { without_keeper };
}

/// The pass is put into a view.
pub(crate) struct PassIn;

impl Join<View> for PassIn {
    ghost both = { with_pass_of };

    ghost spent = { spent_view };
}
