//! The targets of direct transfers in many bundles. Transfers are listed without branches, and a second loop judges the list.

ghost use Rattle.std.specs.Prelude.{◌≡◌, ◌≢◌, ◌<◌, ◌≤◌, ◌+◌, ◌-◌, ◌*◌, ◌/◌, ◌%◌, ◌^◌, ℕ, List, length, drop, get_or, count_ones, true, false, IsTrue, IsFalse, IfOk};
ghost use Rattle.std.specs.Int.{bit_at, w8, w32, cast_signed, cast_unsigned};
ghost use Rattle.byteorder.specs.Endian.{little_number};
ghost use Rattle.nc_decode.specs.declared.bundle.Bundle.{Bundle};
ghost use Rattle.nc_decode.specs.Bits.{starts_instruction, is_second, no_bits};
ghost use Rattle.nc_vet.specs.machinery.Judged.{short_to, near_to, IsGood, IsGoodEnd, AreJudged, AreStarts};
ghost use Rattle.nc_vet.specs.machinery.Lists.{HasAdded, AreBelow, AreListed, AreEndsApart};

use crate::transfers::{both, judged_from, short_target};
use byteorder::{ByteOrder, LittleEndian};
use nc_decode::{BUNDLE, Bundle, is_outside_target};
use std::alloc::{AllocError, Global};

/// Room for a list of transfers.
const ROOM: usize = 256;

/// The number of transfers that two bundles have at most.
const MOST: usize = 64;

/// The number of places that are written for two bundles even if they have fewer transfers: few have more.
const USUAL: usize = 6;

/// The number of bundles from which on lists pay. Fewer are judged two at a time, which is faster where the processor has learnt
/// their branches, and needs no memory.
const MANY: usize = 64;

/// The highest bit.
const TOP: u64 = 0x8000_0000_0000_0000;

/// The index of the lowest set bit, and the other bits. If none is set, the index is that of the highest, so LLVM needs no test.
#[inline(always)]
fn lowest_or_last(bits: u64) -> (u32, u64)
    ensures place { result.0 < 64 }
    ensures others { (i : ℕ) → i < 64 → bit_at bits i ≡ 1 → i ≢ result.0 → bit_at result.1 i ≡ 1 }
    ensures fewer { count_ones result.1 ≡ count_ones bits - 1 }
{
    ((bits | TOP).trailing_zeros(), bits & bits.wrapping_sub(1))
}

/// Writes as many places as are usual into the list: those of the lowest set bits, counted from `from`. Returns the other bits.
#[inline(always)]
fn add_usual(list: &mut [u32; ROOM], start: usize, from: u32, bits: u64) -> u64
    requires room { start + 6 ≤ 256 }
    requires fits { from + 64 < 2 ^ 32 }
    ensures { HasAdded list.old list.new start from bits 6 result }
{
    let mut left = bits;
    for i in 0..USUAL {
        let (place, others) = lowest_or_last(left);
        list[start + i] = from + place;
        left = others;
    }
    left
}

/// Writes the places of the set bits into the list, counted from `from`.
#[inline(always)]
fn add_rest(list: &mut [u32; ROOM], start: usize, from: u32, bits: u64)
    requires room { start + 64 ≤ 256 }
    requires fits { from + 64 < 2 ^ 32 }
    ensures { HasAdded list.old list.new start from bits (count_ones bits) 0 }
{
    let mut left = bits;
    let mut end = start;
    while left != 0 {
        let (place, others) = lowest_or_last(left);
        list[end] = from + place;
        end += 1;
        left = others;
    }
}

/// Adds the places of the set bits, counted from `from`, to the first `count` entries, and returns the number of entries then.
#[inline(always)]
fn add_places(list: &mut [u32; ROOM], count: usize, from: u32, bits: u64) -> usize
    requires room { count + 70 ≤ 256 }
    requires fits { from + 64 < 2 ^ 32 }
    ensures count { result ≡ count + count_ones bits }
    ensures added { HasAdded list.old list.new count from bits (count_ones bits) 0 }
{
    let rest = add_usual(list, count, from, bits);
    add_rest(list, count + USUAL, from, rest);
    count + bits.count_ones() as usize
}

/// Lists the transfers of the bundles from `start` on, two bundles at a time, as long as there is room; returns their number, and
/// the first bundle that isn't listed.
#[inline(always)]
fn list_transfers(list: &mut [u32; ROOM], bundles: &[Bundle], start: usize) -> (usize, usize)
    requires some { start + 1 < length bundles.now }
    requires fits { 32 * length bundles.now < 2 ^ 32 }
    requires small { AreBelow (32 * length bundles.now) list.old }
    ensures room { result.0 ≤ 256 }
    ensures more { start < result.1 }
    ensures within { result.1 ≤ length bundles.now }
    ensures small { AreBelow (32 * length bundles.now) list.new }
    ensures listed { AreListed bundles.now list.new result.0 start result.1 }
{
    let mut count = 0;
    let mut n = start;
    while n + 1 < bundles.len() && count <= ROOM - MOST - USUAL {
        let first = bundles[n];
        let second = bundles[n + 1];
        let bits = both(first.shorts | first.nears, second.shorts | second.nears);
        count = add_places(list, count, 32 * n as u32, bits);
        n += 2;
    }
    (count, n)
}

/// Bit k says whether an instruction that isn't the second half of a pair begins at byte k of the bundle.
#[inline(always)]
fn starts_of(bundle: Bundle) -> u32
    ensures start { (k : ℕ) → k < 32 → bit_at result k ≡ 1 → starts_instruction bundle k ≡ true }
    ensures second { (k : ℕ) → k < 32 → bit_at result k ≡ 1 → is_second bundle k ≡ false }
{
    let starts = 2 * u64::from(bundle.ends) + 1;
    (starts % 0x1_0000_0000) as u32 & !(bundle.pairs / 2)
}

/// The starts of all bundles, so that one bit of a word tells whether a target is permitted.
#[inline(never)]
fn starts_of_all(alloc: Global, bundles: &[Bundle]) -> Result<Vec<u32>, AllocError>
    ensures { IfOk result (λ starts. AreStarts bundles.now starts.items) }
{
    let mut starts = Vec::with_capacity(alloc, bundles.len())?;
    for i in 0..bundles.len() {
        starts.push_reserved(starts_of(bundles[i]));
    }
    Ok(starts)
}

/// Whether a direct transfer may go to this offset from the base.
#[inline(always)]
fn is_good_offset(base: u32, limit: u32, starts: &[u32], offset: u32) -> bool
    requires fits { base + 32 * length starts.now < 2 ^ 32 }
    ensures { (code : List ℕ) (bundles : List Bundle) → length code ≡ 32 * length bundles → AreStarts bundles starts.now → IsTrue result
        → IsGood base limit code bundles ((base + offset) % 2 ^ 32) }
{
    if ((offset / BUNDLE) as usize) < starts.len() {
        starts[(offset / BUNDLE) as usize] >> (offset % BUNDLE) & 1 == 1
    } else {
        let to = base.wrapping_add(offset);
        is_outside_target(limit, to)
    }
}

/// The little-endian number in the four bytes at a place.
#[inline(always)]
fn word_at(code: &[u8], at: usize) -> u32
    requires { at + 4 ≤ length code.now }
    ensures { result ≡ little_number 4 (drop at code.now) }
{
    LittleEndian::read_u32(&code[at..])
}

/// The target of a transfer that ends at `at` and has this one-byte displacement, as an offset from the base.
#[inline(always)]
fn short_offset(at: usize, displacement: u8) -> u32
    requires { at + 1 < 2 ^ 32 }
    ensures { result ≡ (at + 1 + cast_unsigned w32 (cast_signed w8 displacement)) % 2 ^ 32 }
{
    (at as u32 + 1).wrapping_add_signed(i32::from(displacement.cast_signed()))
}

/// The targets of a transfer that ends at `at`, as offsets from the base, if it has a one-byte displacement and if it has a
/// four-byte one.
///
/// One load gives both displacements. Of two loads LLVM would make a branch, which is hard to predict.
#[inline(always)]
fn offsets(code: &[u8], at: usize) -> (u32, u32)
    requires four { 3 ≤ at }
    requires place { at < length code.now }
    requires fits { length code.now < 2 ^ 32 }
    ensures short { result.0 ≡ short_to 0 code.now at }
    ensures near { result.1 ≡ near_to 0 code.now at }
{
    let word = word_at(code, at - 3);
    let last = (word >> 24) as u8;
    (short_offset(at, last), (at as u32 + 1).wrapping_add(word))
}

/// Whether the transfer that ends at this place has a four-byte displacement.
#[inline(always)]
fn is_near(bundles: &[Bundle], at: usize) -> bool
    requires { at / 32 < length bundles.now }
    ensures near { IsTrue result → bit_at (get_or bundles.now (at / 32) no_bits).nears (at % 32) ≡ 1 }
    ensures short { IsFalse result → bit_at (get_or bundles.now (at / 32) no_bits).nears (at % 32) ≡ 0 }
{
    bundles[at / 32].nears >> (at % 32) & 1 == 1
}

/// Whether the transfer that ends at this place has a permitted target.
#[inline(always)]
fn is_transfer_good(
    base: u32,
    limit: u32,
    code: &[u8],
    bundles: &[Bundle],
    starts: &[u32],
    at: usize,
) -> bool
    requires place { at < length code.now }
    requires each { length code.now ≡ 32 * length bundles.now }
    requires fits { base + length code.now < 2 ^ 32 }
    requires starts { AreStarts bundles.now starts.now }
    ensures { IsTrue result → IsGoodEnd base limit code.now bundles.now at }
{
    if at < 3 {
        let offset = short_target(0, code, at);
        return !is_near(bundles, at) && is_good_offset(base, limit, starts, offset);
    }
    let (short, near) = offsets(code, at);
    let offset = if is_near(bundles, at) { near } else { short };
    is_good_offset(base, limit, starts, offset)
}

/// Whether the transfers that end at these places have permitted targets.
#[inline(never)]
fn are_good(
    base: u32,
    limit: u32,
    code: &[u8],
    bundles: &[Bundle],
    starts: &[u32],
    places: &[u32],
) -> bool
    requires each { length code.now ≡ 32 * length bundles.now }
    requires fits { base + length code.now < 2 ^ 32 }
    requires starts { AreStarts bundles.now starts.now }
    requires small { AreBelow (length code.now) places.now }
    ensures { IsTrue result → (i : ℕ) → i < length places.now → IsGoodEnd base limit code.now bundles.now (get_or places.now i 0) }
{
    for i in 0..places.len() {
        if !is_transfer_good(base, limit, code, bundles, starts, places[i] as usize) {
            return false;
        }
    }
    true
}

/// The number of bundles at the front whose direct transfers all have permitted targets, as far as whole lists of them do. Without
/// memory for the starts it is 0.
#[inline(never)]
fn judged_by_lists(alloc: Global, base: u32, limit: u32, code: &[u8], bundles: &[Bundle]) -> usize
    requires each { length code.now ≡ 32 * length bundles.now }
    requires fits { base + length code.now < 2 ^ 32 }
    requires some { 0 < length bundles.now }
    requires apart { AreEndsApart bundles.now }
    ensures judged { AreJudged base limit code.now bundles.now result }
    ensures within { result ≤ length bundles.now }
{
    let Ok(starts) = starts_of_all(alloc, bundles) else {
        return 0;
    };
    let mut list = [0; ROOM];
    let mut n = 0;
    while n + 1 < bundles.len() {
        let (count, next) = list_transfers(&mut list, bundles, n);
        if !are_good(base, limit, code, bundles, &starts, &list[..count]) {
            return n;
        }
        n = next;
    }
    n
}

/// The number of bundles at the front whose direct transfers all have permitted targets. The count ends before the first two
/// with a bad target.
#[inline(never)]
pub(crate) fn judged_bundles(
    alloc: Global,
    base: u32,
    limit: u32,
    code: &[u8],
    bundles: &[Bundle],
) -> usize
    requires each { length code.now ≡ 32 * length bundles.now }
    requires fits { base + length code.now < 2 ^ 32 }
    requires apart { AreEndsApart bundles.now }
    ensures judged { AreJudged base limit code.now bundles.now result }
    ensures within { result ≤ length bundles.now + 1 }
{
    let known = if bundles.len() < MANY {
        0
    } else {
        judged_by_lists(alloc, base, limit, code, bundles)
    };
    judged_from(base, limit, code, bundles, known)
}
