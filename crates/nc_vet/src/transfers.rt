//! The targets of direct transfers, by the bits of the bundles that have been read.

ghost use Rattle.std.specs.Prelude.{◌≡◌, ◌≢◌, ◌<◌, ◌≤◌, ◌+◌, ◌*◌, ◌^◌, ℕ, length, true, false, IsTrue};
ghost use Rattle.std.specs.Int.{bit_at};
ghost use Rattle.nc_decode.specs.Bits.{starts_instruction, is_second};
ghost use Rattle.nc_vet.specs.machinery.Judged.{short_to, near_to, IsGood, AreGoodShorts, AreGoodNears, AreJudged};

use byteorder::{ByteOrder, LittleEndian};
use nc_decode::{BUNDLE, Bundle, bundle_at, is_outside_target};

/// Whether an instruction that isn't the second half of a pair begins at byte `k` of a bundle.
#[inline(always)]
fn is_entry(bundle: Bundle, k: u32) -> bool
    requires { k < 32 }
    ensures start { IsTrue result → starts_instruction bundle k ≡ true }
    ensures second { IsTrue result → is_second bundle k ≡ false }
{
    let starts = 2 * u64::from(bundle.ends) + 1;
    starts >> k & 1 == 1 && (bundle.pairs / 2) >> k & 1 == 0
}

/// Whether a direct transfer may go to this address.
#[inline(always)]
fn is_good(base: u32, limit: u32, code: &[u8], bundles: &[Bundle], to: u32) -> bool
    requires each { length code.now ≡ 32 * length bundles.now }
    requires fits { base + length code.now < 2 ^ 32 }
    ensures { IsTrue result → IsGood base limit code.now bundles.now to }
{
    let at = to.wrapping_sub(base);
    if ((at / BUNDLE) as usize) < bundles.len() {
        is_entry(bundles[(at / BUNDLE) as usize], at % BUNDLE)
    } else {
        is_outside_target(limit, to)
    }
}

/// The index of the lowest set bit, and the other bits.
#[inline(always)]
fn lowest(bits: u64) -> (u32, u64)
    requires { 0 < bits }
    ensures place { result.0 < 64 }
    ensures set { bit_at bits result.0 ≡ 1 }
    ensures others { (i : ℕ) → i < 64 → i ≢ result.0 → bit_at result.1 i ≡ bit_at bits i }
    ensures fewer { result.1 < bits }
{
    let place = bits.trailing_zeros();
    (place, bits & !(1 << place))
}

/// The bits of two neighbouring bundles. One loop over both ends half as often as two loops, and each end is hard to predict.
#[inline(always)]
pub(crate) fn both(first: u32, second: u32) -> u64
    ensures first { (k : ℕ) → k < 32 → bit_at result k ≡ bit_at first k }
    ensures second { (k : ℕ) → k < 32 → bit_at result (32 + k) ≡ bit_at second k }
{
    u64::from(second) * 0x1_0000_0000 + u64::from(first)
}

/// The target of a transfer whose displacement is the byte at `at`.
#[inline(always)]
pub(crate) fn short_target(base: u32, code: &[u8], at: usize) -> u32
    requires place { at < length code.now }
    requires fits { base + length code.now < 2 ^ 32 }
    ensures { result ≡ short_to base code.now at }
{
    (base + at as u32 + 1).wrapping_add_signed(i32::from(code[at].cast_signed()))
}

/// The target of a transfer whose displacement is the four bytes that end with the byte at `at`.
#[inline(always)]
fn near_target(base: u32, code: &[u8], at: usize) -> u32
    requires four { 3 ≤ at }
    requires place { at < length code.now }
    requires fits { base + length code.now < 2 ^ 32 }
    ensures { result ≡ near_to base code.now at }
{
    (base + at as u32 + 1).wrapping_add_signed(LittleEndian::read_i32(&code[at - 3..]))
}

/// Whether the transfers with one-byte displacements and these last bytes, counted from `start`, have permitted targets.
#[inline(always)]
fn shorts_good(
    base: u32,
    limit: u32,
    code: &[u8],
    bundles: &[Bundle],
    start: usize,
    ends: u64,
) -> bool
    requires start { start < length code.now }
    requires each { length code.now ≡ 32 * length bundles.now }
    requires fits { base + length code.now < 2 ^ 32 }
    ensures { IsTrue result → AreGoodShorts base limit code.now bundles.now start ends }
{
    let mut left = ends;
    while left != 0 {
        let (k, others) = lowest(left);
        let at = start + k as usize;
        if at >= code.len() {
            return false;
        }
        let to = short_target(base, code, at);
        if !is_good(base, limit, code, bundles, to) {
            return false;
        }
        left = others;
    }
    true
}

/// Whether the transfers with four-byte displacements and these last bytes, counted from `start`, have permitted targets.
#[inline(always)]
fn nears_good(
    base: u32,
    limit: u32,
    code: &[u8],
    bundles: &[Bundle],
    start: usize,
    ends: u64,
) -> bool
    requires start { start < length code.now }
    requires each { length code.now ≡ 32 * length bundles.now }
    requires fits { base + length code.now < 2 ^ 32 }
    ensures { IsTrue result → AreGoodNears base limit code.now bundles.now start ends }
{
    let mut left = ends;
    while left != 0 {
        let (k, others) = lowest(left);
        let at = start + k as usize;
        if at < 3 || at >= code.len() {
            return false;
        }
        let to = near_target(base, code, at);
        if !is_good(base, limit, code, bundles, to) {
            return false;
        }
        left = others;
    }
    true
}

/// The number of bundles at the front whose direct transfers all have permitted targets, of which these many are known. Bundles
/// are judged two at a time, and the count ends before the first two with a bad target.
#[inline(always)]
pub(crate) fn judged_from(
    base: u32,
    limit: u32,
    code: &[u8],
    bundles: &[Bundle],
    known: usize,
) -> usize
    requires each { length code.now ≡ 32 * length bundles.now }
    requires fits { base + length code.now < 2 ^ 32 }
    requires known { AreJudged base limit code.now bundles.now known }
    requires some { known ≤ length bundles.now + 1 }
    ensures judged { AreJudged base limit code.now bundles.now result }
    ensures within { result ≤ length bundles.now + 1 }
{
    let mut n = known;
    while n < bundles.len() {
        let first = bundles[n];
        let second = bundle_at(bundles, n + 1);
        let start = 32 * n;
        let shorts = both(first.shorts, second.shorts);
        let nears = both(first.nears, second.nears);
        if !shorts_good(base, limit, code, bundles, start, shorts) {
            return n;
        }
        if !nears_good(base, limit, code, bundles, start, nears) {
            return n;
        }
        n += 2;
    }
    n
}
