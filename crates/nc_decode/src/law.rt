//! The laws of the permitted instructions.

ghost use Rattle.nc_decode.specs.Front.{IsExact, IsPrefixFree, IsStopFirst, HasItsLength, DependsOnItsBytes, MasksOnlyBeforeNext};
ghost use Rattle.nc_decode.specs.Front.{NamesRegisters, MasksExactly, GoesOnAfterPrefix, BeginsAsTransfer, NeverBarred};
ghost use Rattle.nc_decode.specs.Front.{NeverBarredAtFront};
ghost use Rattle.nc_decode.specs.Automaton.{ReadsByStates, HasStates, NoneIsPaired};

/// All that the layers above may assume about the opcode table. Calling this law does nothing.
///
/// The function `first_instruction` of the definitions finds exactly the instruction with which some bytes begin, as
/// `specs/Spelling` defines it; `decode` returns it. The other laws are those that the layers above need.
pub fn law_of_fronts()
    // `first_instruction` finds `i` exactly if the bytes begin with a whole instruction described by `i`, for every list.
    ensures exact { IsExact }
    // No instruction is the beginning of a longer one.
    ensures prefix_free { IsPrefixFree }
    // The byte F4 is an instruction after which control goes nowhere, whatever follows it.
    ensures stop { IsStopFirst }
    // The length of an instruction is at least 1, and at most the number of bytes given.
    ensures length { HasItsLength }
    // The bytes after an instruction don't matter.
    ensures local { DependsOnItsBytes }
    // Only an instruction with the flow `Next` masks a register.
    ensures masks { MasksOnlyBeforeNext }
    // Registers are numbered from 0 to 7, and register 4 is never masked.
    ensures registers { NamesRegisters }
    // A register is masked exactly by the three bytes of its mask.
    ensures exact_masks { MasksExactly }
    // An instruction with a prefix has the flow `Next` and masks nothing.
    ensures prefixes { GoesOnAfterPrefix }
    // No permitted instruction is barred: none is RET, IRET, a far transfer, INT3, INT n, INTO, SYSCALL or SYSENTER, and
    // none has a segment override.
    ensures allowed { NeverBarred }
    // The instruction at the front of some bytes isn't barred.
    ensures allowed_at_front { NeverBarredAtFront }
    // A direct transfer begins with one of the bytes that `may_transfer` names.
    ensures transfers { BeginsAsTransfer }
{}

/// All that a run of the automaton says about the bytes that it has read. Calling this law does nothing.
pub fn law_of_automaton()
    // Bytes that lead from a state after an instruction to the next such state are one instruction.
    ensures reads { ReadsByStates }
    // The next state is always below `STATES`.
    ensures states { HasStates }
    // An indirect transfer has more than one byte.
    ensures pairs { NoneIsPaired }
{}
