//! Tables of generations of one seat, for measurements without a thread.

ghost use Rattle.std.specs.Prelude.{◌≡◌, IfSome};

use nc_gens::{Gens, Keeper};
use std::alloc::Global;

/// A new table whose seat has left, if there is memory for it. A chunk is due as soon as it is deleted.
pub fn left_table(alloc: Global) -> Option<(Gens, Keeper)>
    ensures { IfSome result (λ r. r.1.table ≡ r.0) }
{
    match Gens::new(alloc, 1) {
        Ok((gens, keeper, mut passes)) => {
            gens.leave(passes.remove(0));
            Some((gens, keeper))
        }
        Err(_refused) => None,
    }
}

/// A new table whose seat never checks in, if there is memory for it. No chunk is ever due.
pub fn held_table(alloc: Global) -> Option<(Gens, Keeper)>
    ensures { IfSome result (λ r. r.1.table ≡ r.0) }
{
    match Gens::new(alloc, 1) {
        Ok((gens, keeper, _passes)) => Some((gens, keeper)),
        Err(_refused) => None,
    }
}
