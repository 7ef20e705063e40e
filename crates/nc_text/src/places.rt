//! Places of a bundle as bits.

ghost use Rattle.std.specs.Prelude.{◌≡◌, ◌≢◌, ℕ, ◌<◌};
ghost use Rattle.std.specs.Int.{bit_at};

/// The lowest of the places whose bits are set, and the bits of the others. It is one step of a loop over `marked_places`, and
/// requires that some bit is set.
#[inline(always)]
pub fn lowest_place(places: u32) -> (u32, u32)
    requires { 0 < places }
    ensures place { result.0 < 32 }
    ensures set { bit_at places result.0 ≡ 1 }
    ensures below { (i : ℕ) → i < result.0 → bit_at places i ≡ 0 }
    ensures cleared { bit_at result.1 result.0 ≡ 0 }
    ensures others { (i : ℕ) → i < 32 → i ≢ result.0 → bit_at result.1 i ≡ bit_at places i }
    ensures fewer { result.1 < places }
{
    let place = places.trailing_zeros();
    (place, places & !(1 << place))
}
