//! Walks through a text: one state after the other, with each step picked by a choice.

ghost use Rattle.std.specs.Prelude.{◌≡◌, ◌≢◌, ℕ, ◌+◌, ◌-◌, ◌%◌, ◌^◌, ◌<◌, ◌≤◌, List, ◌∷◌, Some, IsTrue, IsSomeAnd, IfOk, IfErr, IfSome};
ghost use Rattle.std.specs.Prelude.{IfNone, slice_index};
ghost use Rattle.nc_decode.specs.Bundles.{IsBundleStart, IsInOneBundle};
ghost use Rattle.nc_decode.specs.Transfers.{is_indirect};
ghost use Rattle.nc_text.specs.Places.{InRegion, byte_at, instruction_at, limit_of};
ghost use Rattle.nc_text.specs.Machine.{IsMaskedFor, IsSafe, Leads, state};
ghost use Rattle.nc_text.specs.MarkedText.{IsText};
ghost use Rattle.nc_region.specs.Trace.{EndsBy, GoesOn, IsOnlyTrace, IsSafeWalk, IsTrace, Moves, Picks, IsWalkStart, bundle_of};

use crate::trace::{End, Trace};
use nc_acts::Acts;
use nc_decode::{BUNDLE, Flow, Instr, START, decode};
use std::alloc::{AllocError, Global};

/// The number of bytes that are read first for an instruction.
const FEW: u32 = 6;

/// The place of a thread, and the register that the instruction just executed has masked.
#[derive(Clone, Copy, Drop)]
struct State {
    place: u32,
    masked: Option<u8>,
}

impl State {
    /// The state of a thread that reaches a place by a transfer, which masks nothing.
    fn at(place: u32) -> State
        ensures { result ≡ record { place = place; masked = None } }
    {
        State {
            place,
            masked: None,
        }
    }
}

/// The trace of a walk from a bundle start of the region. Memory is allocated only for its places.
pub(crate) fn walk_from<A: Acts>(
    alloc: Global,
    acts: &A,
    start: u32,
    choices: &[u32],
) -> Result<Trace, AllocError>
    requires whole { IsText (A.marked acts.now) }
    requires begins { IsWalkStart (A.marked acts.now).bytes start }
    ensures trace { IfOk result (λ t. IsTrace (A.marked acts.now).bytes start choices.now t.places.items t.end) }
    ensures only { IfOk result (λ t. IsOnlyTrace (A.marked acts.now).bytes start choices.now t.places.items t.end) }
    ensures safe { IfOk result (λ t. IsSafeWalk (A.marked acts.now).bytes start choices.now t.end) }
{
    let mut places = Vec::new(alloc);
    let mut now = State::at(start);
    places.push(start)?;
    for choice in choices {
        match step(acts, now, *choice) {
            Ok(next) => {
                places.push(next.place)?;
                now = next;
            }
            Err(end) => return Ok(Trace { places, end }),
        }
    }
    let end = match instruction_or_end(acts, now) {
        Ok(_) => End::More,
        Err(end) => end,
    };
    Ok(Trace { places, end })
}

/// The state to which a choice leads from a safe one, or how the walk ends there.
fn step<A: Acts>(acts: &A, now: State, choice: u32) -> Result<State, End>
    requires whole { IsText (A.marked acts.now) }
    requires safe { IsSafe (A.marked acts.now).bytes (state now.place now.masked) }
    ensures moves { IfOk result (λ next. GoesOn (A.marked acts.now).bytes (state now.place now.masked)
        × Moves (A.marked acts.now).bytes (state now.place now.masked) choice (state next.place next.masked)) }
    ensures ends { IfErr result (λ end. (rest : List ℕ)
        → EndsBy (A.marked acts.now).bytes (state now.place now.masked) (choice ∷ rest) end) }
{
    let instr = instruction_or_end(acts, now)?;
    next(instr, now, choice, acts.limit()).ok_or(End::Beyond)
}

/// The instruction that continues the walk from a safe state, or how the walk ends there for any choices.
fn instruction_or_end<A: Acts>(acts: &A, now: State) -> Result<Instr, End>
    requires whole { IsText (A.marked acts.now) }
    requires safe { IsSafe (A.marked acts.now).bytes (state now.place now.masked) }
    ensures goes { IfOk result (λ i. GoesOn (A.marked acts.now).bytes (state now.place now.masked)
        × (instruction_at (A.marked acts.now).bytes now.place ≡ Some i)) }
    ensures ends { IfErr result (λ end. (choices : List ℕ)
        → EndsBy (A.marked acts.now).bytes (state now.place now.masked) choices end) }
{
    if now.place < START {
        return Err(End::Trampoline);
    }
    let instr = instruction(acts, now.place);
    if instr.flow == Flow::Stop {
        return Err(End::Stop);
    }
    Ok(instr)
}

/// The instruction at a place, wholly inside its bundle. Few instructions are longer than six bytes, so six are read first.
fn instruction<A: Acts>(acts: &A, at: u32) -> Instr
    requires whole { IsText (A.marked acts.now) }
    requires inside { InRegion (A.marked acts.now).bytes at }
    requires stands { IsSomeAnd (instruction_at (A.marked acts.now).bytes at) (λ i. IsInOneBundle at i.len) }
    ensures { instruction_at (A.marked acts.now).bytes at ≡ Some result }
{
    let rest = BUNDLE - at % BUNDLE;
    if rest > FEW {
        let few = read(acts, at, FEW);
        if let Ok(instr) = decode(&few[..FEW as usize]) {
            return instr;
        }
    }
    let bytes = read(acts, at, rest);
    let Ok(instr) = decode(&bytes[..rest as usize]) else {
        unreachable!()
    };
    instr
}

/// The `len` bytes from an address on, in its bundle, followed by zeros.
fn read<A: Acts>(acts: &A, at: u32, len: u32) -> [u8; 32]
    requires whole { IsText (A.marked acts.now) }
    requires inside { InRegion (A.marked acts.now).bytes at }
    requires one_bundle { at % 32 + len ≤ 32 }
    ensures { (k : ℕ) → k < len → slice_index result k ≡ byte_at (A.marked acts.now).bytes (at + k) }
{
    let mut bytes = [0; 32];
    for k in 0..len {
        bytes[k as usize] = acts.byte(at + k);
    }
    bytes
}

/// The state to which a choice leads from an instruction, unless that is at the limit or above it.
fn next(instr: Instr, now: State, choice: u32, limit: u32) -> Option<State>
    requires goes { instr.flow ≢ Flow.Stop }
    requires masked { IsMaskedFor instr.flow instr.reg now.masked }
    requires fits { now.place + instr.len < 2 ^ 32 }
    ensures moves { IfSome result (λ next. Leads limit instr (state now.place now.masked) (state next.place next.masked)
        × Picks instr.flow instr (state now.place now.masked) choice (state next.place next.masked)) }
    ensures beyond { IfNone result (IsTrue (is_indirect instr.flow) × (limit ≤ bundle_of choice)) }
{
    let behind = now.place + u32::from(instr.len);
    match instr.flow {
        Flow::Next => Some(State {
            place: behind,
            masked: instr.masks,
        }),
        Flow::Branch if choice == 0 => Some(State::at(behind)),
        Flow::Branch | Flow::Jump | Flow::Call => Some(State::at(instr.target(now.place))),
        Flow::IndirectJump | Flow::IndirectCall => masked_target(choice, limit),
        Flow::Stop => unreachable!(),
    }
}

/// The target of an indirect transfer on this choice: the choice with its low five bits cleared, if that is below the limit.
fn masked_target(choice: u32, limit: u32) -> Option<State>
    ensures below { IfSome result (λ next. (next.place ≡ bundle_of choice) × (next.masked ≡ None) × IsBundleStart next.place
        × (next.place < limit)) }
    ensures beyond { IfNone result (limit ≤ bundle_of choice) }
{
    let place = choice - choice % BUNDLE;
    if place >= limit {
        return None;
    }
    Some(State::at(place))
}
