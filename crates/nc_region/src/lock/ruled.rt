//! A lock over a value whose region keeps a rule.

ghost use Rattle.std.specs.Prelude.{◌≡◌, Option, None, refl};
ghost use Rattle.nc_region.specs.Region as spec;
ghost use Rattle.nc_region.specs.Reached.{IsUnderRule};

use std::marker::{Brand, Model, PhantomData};
use std::sync::Mutex;

/// A value that has a region.
pub(crate) trait HasRegion {
    ghost region: { Self → spec.Region };
}

/// From which region the one under a lock was reached, if that is said. A type with one value stands for it, so that a caller can pick the
/// region where it passes `Brand`.
pub(crate) trait Rule {
    ghost first: { Option spec.Region };

    ghost one: { Self };

    ghost only: { (x y : Self) → x ≡ y };
}

impl Rule for Brand {
    ghost first = { None };

    ghost one = { record {} };

    ghost only = { λ x y. refl };
}

/// A value whose region keeps the rule.
#[derive(Drop)]
pub(crate) struct Ruled<T: HasRegion, K: Rule> {
    pub(crate) value: T,
    pub(super) rule: PhantomData<K>,
}

impl<T: HasRegion, K: Rule> Model for Ruled<T, K> {
    ghost Value = { T };

    ghost coded = { T.code };

    ghost view = { λ l. l.value };

    ghost invariant = { λ l. IsUnderRule K.first (T.region l.value) };
}

/// A lock over such a value.
#[derive(Drop)]
pub(crate) struct RuledLock<T: HasRegion, K: Rule> {
    pub(crate) mutex: Mutex<Ruled<T, K>>,
}
