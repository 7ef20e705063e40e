//! The constants of bundles and regions, for every crate.

ghost use Rattle.std.specs.Prelude.{◌≡◌, ◌+◌, ◌*◌, ◌%◌, ◌-◌, ◌≤◌, ◌<◌, ◌↔◌, IsTrue};
ghost use Rattle.nc_decode.specs.Bundles.{IsBundleStart, IsLawfulLimit, IsRegionSize, limit_after};

/// The number of bytes in a bundle. No permitted instruction crosses the end of one.
pub const BUNDLE: u32 = 32;

/// The address of a region's first byte. Code below it is trusted.
pub const START: u32 = 0x10000;

/// The smallest number of bundles in a region: one for code, and the guard.
pub const MIN_BUNDLES: u32 = 2;

/// The largest number of bundles in a region, which is then 64 MiB.
pub const MAX_BUNDLES: u32 = 2_097_152;

/// Whether this address is a bundle start.
#[inline(always)]
pub fn is_bundle_start(at: u32) -> bool
    ensures { IsTrue result ↔ IsBundleStart at }
{
    at % BUNDLE == 0
}

/// Whether a direct transfer may go to this address, if it is outside the transfer's chunk: a bundle start below the limit.
#[inline(always)]
pub fn is_outside_target(limit: u32, to: u32) -> bool
    ensures { IsTrue result ↔ (IsBundleStart to × (to < limit)) }
{
    is_bundle_start(to) && to < limit
}

/// The number of bytes from this address to the end of its bundle, from 1 to 32.
#[inline(always)]
pub fn bundle_rest(at: u32) -> u32
    ensures rest { result ≡ 32 - at % 32 }
    ensures some { (1 ≤ result) × (result ≤ 32) }
{
    BUNDLE - at % BUNDLE
}

/// Whether a region may have this number of bundles.
pub fn is_region_size(bundles: u32) -> bool
    ensures { IsTrue result ↔ IsRegionSize bundles }
{
    MIN_BUNDLES <= bundles && bundles <= MAX_BUNDLES
}

/// The limit of a region of this number of bundles.
pub fn limit_after(bundles: u32) -> u32
    requires { IsRegionSize bundles }
    ensures { result ≡ limit_after bundles }
{
    START + BUNDLE * bundles
}

/// Whether a region may end at this address.
pub fn is_lawful_limit(limit: u32) -> bool
    ensures { IsTrue result ↔ IsLawfulLimit limit }
{
    is_bundle_start(limit) && limit_after(MIN_BUNDLES) <= limit && limit <= limit_after(MAX_BUNDLES)
}
