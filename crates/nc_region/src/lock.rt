//! A lock over a region that calls led to from the one that the lock was made with.
//!
//! What a `Mutex` holds is known by its type alone. The type here is a `Ruled`, whose rule is a type parameter that stands for the first
//! region. A `Lock` has no such parameter: what it owns is what a `RuledLock` owns under the rule of the region that the `Lock` was
//! made with (`lock_row`).

ghost use Rattle.std.specs.Prelude.{◌≡◌, Some};
ghost use Rattle.nc_region.specs.Region as spec;
ghost use Rattle.nc_region.specs.Locks.{lock_owns, lock_shares};

use std::marker::{Brand, Move, Owns, PhantomData};
use std::sync::Mutex;

pub(crate) mod ruled;

use ruled::{HasRegion, Rule, Ruled, RuledLock};

/// A lock over a value. In a clause it is the region that the value had when the lock was made.
pub(crate) struct Lock<T: HasRegion> {
    mutex: Mutex<Ruled<T, Brand>>,
}

impl<T: HasRegion> Owns for Lock<T> {
    ghost Value = { spec.Region };

    ghost shr_at = { λ first p κ. lock_shares T.row T.region first p κ };
}

impl<T: HasRegion> Move for Lock<T> {
    ghost own_val = { λ first vs. lock_owns T.row T.region first vs };
}

impl<T: HasRegion> Lock<T> {
    /// This value behind a lock, which remembers its region.
    pub(crate) fn new(value: T) -> Lock<T>
        ensures { result ≡ T.region value }
    {
        Lock {
            mutex: mutex_under::<T, Brand>(value),
        }
    }

    /// The lock under a rule that says which region its value had first.
    pub(crate) fn at<K: Rule>(&self) -> &RuledLock<T, K>
        requires { K.first ≡ Some self.now }
    {
        // SAFETY: A rule has no run-time representation, so both types are laid out as the mutex is. `&Lock` shares what
        // `&RuledLock` shares for any rule that names this region (`lock_shares`), and `K` is one.
        unsafe { &*(self as *const Lock<T> as *const RuledLock<T, K>) }
    }

    /// The value.
    fn into_inner(self) -> T {
        let Lock { mutex } = self;
        out_of::<T, Brand>(mutex)
    }
}

impl<T: HasRegion + Drop> Drop for Lock<T> {
    fn drop(self) {
        drop(self.into_inner());
    }
}

// SAFETY: What a `Lock` owns is what a `RuledLock` owns, which may be sent where its value may.
unsafe impl<T: HasRegion + Send> Send for Lock<T> {}

// SAFETY: What `&Lock` shares is what `&RuledLock` shares, a mutex.
unsafe impl<T: HasRegion + Send> Sync for Lock<T> {}

/// A value behind a lock, under a rule that says which region the value has.
fn mutex_under<T: HasRegion, K: Rule>(value: T) -> Mutex<Ruled<T, K>>
    requires { K.first ≡ Some (T.region value) }
{
    Mutex::new(Ruled {
        value,
        rule: PhantomData,
    })
}

/// The value behind a lock.
fn out_of<T: HasRegion, K: Rule>(mutex: Mutex<Ruled<T, K>>) -> T {
    let Ruled { value, rule: _ } = mutex.into_inner();
    value
}
