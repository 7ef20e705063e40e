//! Reads the first bundles of a chunk, eight of them in lock step as long as there are as many.

ghost use Rattle.std.specs.Prelude.{◌≡◌, ◌≢◌, ◌<◌, ◌≤◌, ◌+◌, ◌-◌, ◌*◌, ◌%◌, ◌^◌, ℕ, length, vec_len, vec_capacity, get_or, slice_index, IfNone, IfSome};
ghost use Rattle.std.specs.Int.{bit_at};
ghost use Rattle.nc_decode.specs.Bits.{no_bits};
ghost use Rattle.nc_vet.specs.machinery.Running.{TellsBundle, AreEightRuns, AreTold, EndsFront};

use crate::lane::{bits_of_states, bundle_bits, run_four, run_one, run_two, step_at};
use nc_decode::{Bundle, Row};
use std::alloc::Global;

/// The number of bundles read in lock step: no instruction crosses the end of a bundle, so each is read independently.
const LANES: usize = 8;

/// The number of bundles read in lock step when fewer than eight are left.
const FEW_LANES: usize = 4;

/// The offset of the last byte in a bundle.
const LAST: u32 = 31;

/// The last byte of each mask.
const MASK_END: u8 = 0xE0;

/// The beginning of a chunk, as far as it was read by bundles.
#[derive(Drop)]
pub(crate) struct Front {
    /// The bits of its bundles; an instruction ends at the end of each.
    pub(crate) bundles: Vec<Bundle>,
    /// The place at which reading continues: an instruction that masks nothing ends there too.
    pub(crate) end: usize,
}

/// Runs the automaton over the eight bundles from place `at` on, and leaves the states after each of their bytes.
///
/// The places at which states are stored are counted by `stride`, which is 1. LLVM doesn't know its value, and so keeps one
/// pointer for all stores. If it counted places and bytes together, it would give each store an index, and a store with an index waits
/// for one of the two ports that also serve loads, on Intel's processors before Ice Lake. Apart from its caller the loop has a
/// register for each lane.
#[inline(never)]
fn run_eight(code: &[u8], at: usize, stride: usize, states: &mut [u8; 256])
    requires start { at % 32 ≡ 0 }
    requires room { at + 256 ≤ length code.now }
    requires stride { stride ≡ 1 }
    ensures { AreEightRuns code.now at states.new }
{
    let mut a = Row::start();
    let mut b = Row::start();
    let mut c = Row::start();
    let mut d = Row::start();
    let mut e = Row::start();
    let mut f = Row::start();
    let mut g = Row::start();
    let mut h = Row::start();
    let mut place = 0;
    for i in 0..32 {
        a = step_at(states, place, &a, code[at + i]);
        b = step_at(states, place + 32, &b, code[at + 32 + i]);
        c = step_at(states, place + 64, &c, code[at + 64 + i]);
        d = step_at(states, place + 96, &d, code[at + 96 + i]);
        e = step_at(states, place + 128, &e, code[at + 128 + i]);
        f = step_at(states, place + 160, &f, code[at + 160 + i]);
        g = step_at(states, place + 192, &g, code[at + 192 + i]);
        h = step_at(states, place + 224, &h, code[at + 224 + i]);
        place += stride;
    }
}

/// Adds the bits of eight bundles, up to the first at whose end no instruction ends, of which it returns the bits.
#[inline(always)]
fn push_whole(bundles: &mut Vec<Bundle>, code: &[u8], states: &[u8; 256]) -> Option<Bundle>
    requires told { AreTold code.now bundles.old.items }
    requires states { AreEightRuns code.now (32 * vec_len bundles.old) states.now }
    requires room { vec_len bundles.old + 8 ≤ vec_capacity bundles.old }
    ensures told { AreTold code.now bundles.new.items }
    ensures all { IfNone result (vec_len bundles.new ≡ vec_len bundles.old + 8) }
    ensures stop { IfSome result (λ last. TellsBundle code.now (32 * vec_len bundles.new) last) }
    ensures within { IfSome result (λ _. vec_len bundles.new < vec_len bundles.old + 8) }
    ensures room { vec_capacity bundles.new ≡ vec_capacity bundles.old }
{
    for n in 0..LANES {
        let bundle = bits_of_states(&states[32 * n..]);
        if bundle.ends >> LAST & 1 == 0 {
            return Some(bundle);
        }
        bundles.push_reserved(bundle);
    }
    None
}

/// The bits of the bundle at place `at`, read by itself.
#[inline(always)]
fn read_one(code: &[u8], at: usize) -> Bundle
    requires start { at % 32 ≡ 0 }
    requires room { at + 32 ≤ length code.now }
    ensures { TellsBundle code.now at result }
{
    bundle_bits(&run_one(code, at))
}

/// The bits of the two bundles from place `at` on.
#[inline(always)]
fn read_two(code: &[u8], at: usize) -> (Bundle, Bundle)
    requires start { at % 32 ≡ 0 }
    requires room { at + 64 ≤ length code.now }
    ensures first { TellsBundle code.now at result.0 }
    ensures second { TellsBundle code.now (at + 32) result.1 }
{
    let (a, b) = run_two(code, at);
    (bundle_bits(&a), bundle_bits(&b))
}

/// The bits of the four bundles from place `at` on. A lane whose bundle would be after the end of the code reads the last
/// bundle instead.
#[inline(always)]
fn read_four(code: &[u8], at: usize) -> [Bundle; FEW_LANES]
    requires start { at % 32 ≡ 0 }
    requires bundles { length code.now % 32 ≡ 0 }
    requires room { at < length code.now }
    ensures { (n : ℕ) → n < 4 → at + 32 * n < length code.now → TellsBundle code.now (at + 32 * n) (get_or result n no_bits) }
{
    let last = code.len() - 32;
    let places = [at, last.min(at + 32), last.min(at + 64), last.min(at + 96)];
    let (a, b, c, d) = run_four(code, places);
    [
        bundle_bits(&a),
        bundle_bits(&b),
        bundle_bits(&c),
        bundle_bits(&d),
    ]
}

/// The number of bundles at the front such that an instruction ends at the end of each.
#[inline(always)]
fn whole_front(bundles: &[Bundle]) -> usize
    ensures within { result ≤ length bundles.now }
    ensures whole { (n : ℕ) → n < result → bit_at (get_or bundles.now n no_bits).ends 31 ≡ 1 }
{
    let mut n = 0;
    while n < bundles.len() && bundles[n].ends >> LAST & 1 == 1 {
        n += 1;
    }
    n
}

/// The place at which reading may continue in a bundle that begins at `start` and has these ends: after the last instruction
/// that ends in it, or at its start if none does or if that instruction, by its last byte, may be a mask.
fn last_end(code: &[u8], start: usize, ends: u32) -> usize
    requires start { start % 32 ≡ 0 }
    requires room { start + 32 ≤ length code.now }
    ensures low { start ≤ result }
    ensures near { result ≤ start + 32 }
    ensures ended { start < result
        → (bit_at ends (result - start - 1) ≡ 1) × (slice_index code.now (result - 1) ≢ 0xE0) }
{
    let len = (u32::BITS - ends.leading_zeros()) as usize;
    if len == 0 {
        return start;
    }
    let end = start + len;
    if code[end - 1] == MASK_END {
        return start;
    }
    end
}

/// The beginning of the code up to the end of its last bundle, or to where reading continues in that bundle, which has these
/// bits.
#[inline(always)]
fn with_last(mut bundles: Vec<Bundle>, code: &[u8], last: Bundle) -> Option<Front>
    requires place { 32 * vec_len bundles + 32 ≡ length code.now }
    requires told { AreTold code.now bundles.items }
    requires last { TellsBundle code.now (32 * vec_len bundles) last }
    ensures { IfSome result (λ front. EndsFront code.now front.bundles.items front.end) }
{
    if last.ends >> LAST & 1 == 0 {
        let end = last_end(code, code.len() - 32, last.ends);
        return Some(Front { bundles, end });
    }
    bundles.push(last).ok()?;
    let end = code.len();
    Some(Front { bundles, end })
}

/// Reads the last bundle of the code. One lane takes no longer than four, but leaves the processor time for what comes before
/// and after it.
#[inline(never)]
fn read_last(bundles: Vec<Bundle>, code: &[u8]) -> Option<Front>
    requires place { 32 * vec_len bundles + 32 ≡ length code.now }
    requires told { AreTold code.now bundles.items }
    ensures { IfSome result (λ front. EndsFront code.now front.bundles.items front.end) }
{
    let last = read_one(code, code.len() - 32);
    with_last(bundles, code, last)
}

/// Reads the last two bundles of the code.
#[inline(never)]
fn read_last_two(mut bundles: Vec<Bundle>, code: &[u8]) -> Option<Front>
    requires place { 32 * vec_len bundles + 64 ≡ length code.now }
    requires told { AreTold code.now bundles.items }
    ensures { IfSome result (λ front. EndsFront code.now front.bundles.items front.end) }
{
    let start = code.len() - 64;
    let (first, last) = read_two(code, start);
    if first.ends >> LAST & 1 == 0 {
        let end = last_end(code, start, first.ends);
        return Some(Front { bundles, end });
    }
    bundles.push(first).ok()?;
    with_last(bundles, code, last)
}

/// Reads eight bundles at a time while there are as many, up to the first at whose end no instruction ends, of which it returns
/// the bits.
fn read_eights(bundles: &mut Vec<Bundle>, code: &[u8]) -> Option<Bundle>
    requires bundles { length code.now % 32 ≡ 0 }
    requires fits { length code.now < 2 ^ 32 }
    requires told { AreTold code.now bundles.old.items }
    requires within { 32 * vec_len bundles.old ≤ length code.now }
    requires room { length code.now ≤ 32 * vec_capacity bundles.old }
    ensures told { AreTold code.now bundles.new.items }
    ensures within { 32 * vec_len bundles.new ≤ length code.now }
    ensures stop { IfSome result (λ last. TellsBundle code.now (32 * vec_len bundles.new) last) }
    ensures inside { IfSome result (λ _. 32 * vec_len bundles.new + 32 ≤ length code.now) }
{
    let count = code.len() / 32;
    if count < LANES {
        return None;
    }
    // One: the code consists of whole bundles.
    let stride = usize::from(code.len() % 32 == 0);
    let mut states = [0; 256];
    while bundles.len() + LANES <= count {
        run_eight(code, 32 * bundles.len(), stride, &mut states);
        if let Some(last) = push_whole(bundles, code, &states) {
            return Some(last);
        }
    }
    None
}

/// Reads the bundles of the code, if there is memory for their bits, up to the first at whose end no instruction ends.
#[inline(never)]
pub(crate) fn read_bundles(alloc: Global, code: &[u8]) -> Option<Front>
    requires bundles { length code.now % 32 ≡ 0 }
    requires fits { length code.now < 2 ^ 32 }
    ensures { IfSome result (λ front. EndsFront code.now front.bundles.items front.end) }
{
    let count = code.len() / 32;
    let mut bundles = Vec::new(alloc);
    if bundles.reserve(count).is_err() {
        return None;
    }
    if let Some(last) = read_eights(&mut bundles, code) {
        let end = last_end(code, 32 * bundles.len(), last.ends);
        return Some(Front { bundles, end });
    }
    match count - bundles.len() {
        1 => return read_last(bundles, code),
        2 => return read_last_two(bundles, code),
        _ => {}
    }
    while bundles.len() < count {
        let more = read_four(code, 32 * bundles.len());
        let few = FEW_LANES.min(count - bundles.len());
        let whole = whole_front(&more[..few]);
        bundles.extend_from_slice(&more[..whole]).ok()?;
        if whole < few {
            let end = last_end(code, 32 * bundles.len(), more[whole].ends);
            return Some(Front { bundles, end });
        }
    }
    let end = 32 * bundles.len();
    Some(Front { bundles, end })
}
