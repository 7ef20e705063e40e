//! Acts that report what they did.
ghost use Rattle.std.specs.Prelude.{◌≡◌, IfSome};
ghost use Rattle.nc_region.specs.Region.{IsNew};

use nc_gens::{Gens, Keeper};
use nc_region::{Acts, Entry, Plain, Recorder};
use nc_text::Text;
use std::alloc::Global;

/// Acts that report which of them were done. Tests are generic over them, since a proof over a region whose acts are a recorder
/// takes several times as long.
pub(crate) trait Recording {
    /// The acts with the serializations among them, first to last, as long as there was room.
    fn recorded(&self) -> Option<&[Entry]>;
}

impl<A: Acts + Drop> Recording for Recorder<A> {
    fn recorded(&self) -> Option<&[Entry]> {
        self.entries()
    }
}

/// Acts for a new region of this size, which nobody records.
pub(crate) fn plain<'g>(
    alloc: Global,
    bundles: u32,
    gens: &'g Gens,
    keeper: Keeper,
) -> Option<Plain<'g>>
    requires { keeper.table ≡ gens.now }
    ensures new { IfSome result (λ p. IsNew p.marked) }
    ensures table { IfSome result (λ p. p.keeper.table ≡ gens.now) }
{
    match Text::new(alloc, bundles) {
        Ok(text) => Some(Plain::new(text, gens, keeper)),
        Err(_) => None,
    }
}
