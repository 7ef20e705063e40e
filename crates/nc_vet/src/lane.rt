//! Runs the automaton over bundles.

ghost use Rattle.std.specs.Prelude.{◌≡◌, ◌<◌, ◌≤◌, ◌+◌, ◌%◌, ℕ, List, ◌==◌, length, get_or, nat_le, slice_index, slice_set};
ghost use Rattle.std.specs.Int.{bit_at};
ghost use Rattle.nc_decode.specs.Automaton.{next_state};
ghost use Rattle.nc_vet.specs.States.{bundle_bytes, AreBundleStates};
ghost use Rattle.nc_vet.specs.machinery.Running.{TellsStates, TellsBundle, LaneHasRead};

use nc_decode::{AFTER_NEAR, AFTER_PAIR, AFTER_SHORT, Bundle, END, Row};
use std::simd::prelude::*;

/// The states of the automaton over one bundle.
///
/// Element 0 is the state before the first byte, and element `k + 1` is the state after byte `k`. The last element is 0, which is no
/// state after an instruction.
pub type States = [u8; 34];

/// The automaton over one bundle.
#[derive(Drop)]
struct Lane {
    /// The state after the last byte that is read.
    state: Row,
    /// The states up to that byte, and 0 after them.
    states: States,
}

impl Lane {
    /// A lane before its first byte.
    #[inline(always)]
    fn new() -> Lane
        ensures { (bytes : List ℕ) → LaneHasRead bytes 0 result.state result.states }
    {
        let mut states = [0; 34];
        states[0] = END;
        Lane {
            state: Row::start(),
            states,
        }
    }

    /// Reads this byte, byte `i` of the bundle.
    #[inline(always)]
    fn read(&mut self, i: usize, byte: u8)
        requires place { i < 32 }
        ensures { (bytes : List ℕ) → length bytes ≡ 32 → byte ≡ get_or bytes i 0 → LaneHasRead bytes i self.old.state self.old.states
            → LaneHasRead bytes (i + 1) self.new.state self.new.states }
    {
        self.state = self.state.next(byte);
        self.states[i + 1] = self.state.state();
    }

    /// Reads byte `i` of the bundle at this place of the code.
    #[inline(always)]
    fn step(&mut self, code: &[u8], at: usize, i: usize)
        requires place { i < 32 }
        requires room { at + 32 ≤ length code.now }
        ensures { LaneHasRead (bundle_bytes code.now at) i self.old.state self.old.states
            → LaneHasRead (bundle_bytes code.now at) (i + 1) self.new.state self.new.states }
    {
        self.read(i, code[at + i]);
    }
}

/// The states of the bundle at place `at`, the offset of its first byte in the code. All of the bundle is in the code.
#[inline(always)]
pub fn run_one(code: &[u8], at: usize) -> States
    requires room { at + 32 ≤ length code.now }
    ensures { AreBundleStates code.now at result }
{
    let mut lane = Lane::new();
    for i in 0..32 {
        lane.step(code, at, i);
    }
    lane.states
}

/// The states of the two bundles from place `at` on.
#[inline(always)]
pub(crate) fn run_two(code: &[u8], at: usize) -> (States, States)
    requires room { at + 64 ≤ length code.now }
    ensures first { AreBundleStates code.now at result.0 }
    ensures second { AreBundleStates code.now (at + 32) result.1 }
{
    let mut a = Lane::new();
    let mut b = Lane::new();
    for i in 0..32 {
        a.step(code, at, i);
        b.step(code, at + 32, i);
    }
    (a.states, b.states)
}

/// The states of the four bundles at these places, the offsets of their first bytes in the code. All of each bundle is in the code.
///
/// The bundles are read in lock step. Each state depends on the one before, so a lane mostly waits, and four of them take little
/// longer than one.
#[inline(always)]
pub fn run_four(code: &[u8], at: [usize; 4]) -> (States, States, States, States)
    requires room { (n : ℕ) → n < 4 → get_or at n 0 + 32 ≤ length code.now }
    ensures first { AreBundleStates code.now (get_or at 0 0) result.0 }
    ensures second { AreBundleStates code.now (get_or at 1 0) result.1 }
    ensures third { AreBundleStates code.now (get_or at 2 0) result.2 }
    ensures fourth { AreBundleStates code.now (get_or at 3 0) result.3 }
{
    let mut a = Lane::new();
    let mut b = Lane::new();
    let mut c = Lane::new();
    let mut d = Lane::new();
    for i in 0..32 {
        a.step(code, at[0], i);
        b.step(code, at[1], i);
        c.step(code, at[2], i);
        d.step(code, at[3], i);
    }
    (a.states, b.states, c.states, d.states)
}

/// Reads one more byte in a state; returns the state after it, which is stored at a place.
#[inline(always)]
pub(crate) fn step_at(states: &mut [u8; 256], place: usize, state: &Row, byte: u8) -> Row
    requires place { place < 256 }
    ensures state { result ≡ next_state state.now byte }
    ensures states { states.new ≡ slice_set states.old place (next_state state.now byte) }
{
    let next = state.next(byte);
    states[place] = next.state();
    next
}

/// The bits of a mask of 32 lanes.
#[inline(always)]
fn bits(mask: u64) -> u32
    requires { mask < 4294967296 }
    ensures { result ≡ mask }
{
    mask as u32
}

/// Bit k says whether lane k is this state.
#[inline(always)]
fn equal(states: u8x32, state: u8) -> u32
    ensures { (k : ℕ) → k < 32 → (bit_at result k == 1) ≡ (slice_index states k == state) }
{
    bits(states.simd_eq(u8x32::splat(state)).to_bitmask())
}

/// Bit k says whether lane k is a state after an instruction.
#[inline(always)]
fn ended(states: u8x32) -> u32
    ensures { (k : ℕ) → k < 32 → (bit_at result k == 1) ≡ nat_le END (slice_index states k) }
{
    bits(states.simd_ge(u8x32::splat(END)).to_bitmask())
}

/// The bits of a bundle, by its states.
#[inline(always)]
pub(crate) fn bundle_bits(states: &States) -> Bundle
    ensures { (code : List ℕ) (at : ℕ) → at % 32 ≡ 0 → at + 32 ≤ length code → AreBundleStates code at states.now → TellsBundle code at result }
{
    bits_of_states(&states[1..])
}

/// The bits of a bundle, by the states after its bytes, which are the first of these.
#[inline(always)]
pub(crate) fn bits_of_states(states: &[u8]) -> Bundle
    requires { 32 ≤ length states.now }
    ensures { TellsStates states.now result }
{
    let states = u8x32::from_slice(states);
    Bundle {
        ends: ended(states),
        pairs: equal(states, AFTER_PAIR),
        shorts: equal(states, AFTER_SHORT),
        nears: equal(states, AFTER_NEAR),
    }
}
