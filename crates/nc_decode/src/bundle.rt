//! The bits that describe a bundle that has been read.

ghost use Rattle.std.specs.Prelude.{◌≡◌, get_or};
ghost use Rattle.nc_decode.specs.Bits.{no_bits};

/// The instructions of a bundle: bit k is about the one whose last byte is byte k.
#[derive(Clone, Copy, Drop)]
pub struct Bundle {
    /// An instruction ends at byte k.
    pub ends: u32,
    /// An indirect transfer, directly after its mask, ends at byte k.
    pub pairs: u32,
    /// A direct transfer with a displacement of one byte ends at byte k.
    pub shorts: u32,
    /// A direct transfer with a displacement of four bytes ends at byte k.
    pub nears: u32,
}

/// No instructions.
const NO_BITS: Bundle = Bundle {
    ends: 0,
    pairs: 0,
    shorts: 0,
    nears: 0,
};

/// The bits of bundle `n`, or no bits if there is no such bundle.
#[inline(always)]
pub fn bundle_at(bundles: &[Bundle], n: usize) -> Bundle
    ensures { result ≡ get_or bundles.now n no_bits }
{
    if n < bundles.len() {
        bundles[n]
    } else {
        NO_BITS
    }
}
