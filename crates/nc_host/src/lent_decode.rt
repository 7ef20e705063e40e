//! The instruction with which some bytes begin.

ghost use Rattle.std.specs.Prelude.{◌≡◌, ◌↔◌, ◌⊎◌};
ghost use Rattle.nc_decode.specs.declared.instruction.Instr.{Instr};
ghost use Rattle.nc_decode.specs.Spelling.{IsAtFront, IsProperFront};
ghost use Rattle.nc_host.specs.declared.fault_numbers.TheConstants.{CUT_SHORT, NOT_PERMITTED};
ghost use Rattle.nc_host.specs.Shown.{flow_number, register_number, instruction_of, no_instruction};

use crate::fault_numbers::{CUT_SHORT, NOT_PERMITTED};
use crate::lent_results::NcInstruction;
use nc_decode::{DecodeFault, Flow, Instr, decode};

/// The number of a flow.
fn flow_number(flow: Flow) -> u32
    ensures { result ≡ flow_number flow }
{
    match flow {
        Flow::Next => 1,
        Flow::Branch => 2,
        Flow::Jump => 3,
        Flow::Call => 4,
        Flow::IndirectJump => 5,
        Flow::IndirectCall => 6,
        Flow::Stop => 7,
    }
}

/// 16 plus the number of a register, or 0 for none.
fn register_number(register: Option<u8>) -> u32
    ensures { result ≡ register_number register }
{
    match register {
        Some(register) => 16 + u32::from(register),
        None => 0,
    }
}

/// An instruction as a host reads it.
fn instruction_of(instr: Instr) -> NcInstruction
    ensures { result ≡ instruction_of instr }
{
    NcInstruction {
        fault: 0,
        length: u32::from(instr.len),
        flow: flow_number(instr.flow),
        rel: instr.rel,
        register: u32::from(instr.reg),
        masks: register_number(instr.masks),
    }
}

/// No instruction, for this reason.
fn no_instruction(fault: u32) -> NcInstruction
    ensures { result ≡ no_instruction fault }
{
    NcInstruction {
        fault,
        length: 0,
        flow: 0,
        rel: 0,
        register: 0,
        masks: 0,
    }
}

/// The instruction with which the bytes begin, or why there is none: `NOT_PERMITTED` if no permitted instruction begins like them,
/// `CUT_SHORT` if they are a proper prefix of a permitted instruction's bytes, as no bytes at all are.
///
/// It says nothing about addresses: bundles, pairs and targets are judged by `nc_host_vet`. It takes no memory.
#[unsafe(no_mangle)]
pub extern "C" fn nc_host_decode(code: &[u8]) -> NcInstruction
    // The bytes begin with a whole instruction, and the result describes it.
    ensures found { (i : Instr) → (result ≡ instruction_of i) ↔ IsAtFront code.now i }
    ensures cut_short { (result ≡ no_instruction CUT_SHORT) ↔ IsProperFront code.now }
    ensures not_permitted { (result ≡ no_instruction NOT_PERMITTED)
        ↔ (((i : Instr) → ¬ IsAtFront code.now i) × ¬ IsProperFront code.now) }
    // The result is one of the three.
    ensures faults { (result.fault ≡ 0) ⊎ ((result ≡ no_instruction CUT_SHORT) ⊎ (result ≡ no_instruction NOT_PERMITTED)) }
{
    match decode(code) {
        Ok(instr) => instruction_of(instr),
        Err(DecodeFault::Truncated) => no_instruction(CUT_SHORT),
        Err(DecodeFault::NotPermitted) => no_instruction(NOT_PERMITTED),
    }
}
