//! Decodes one instruction of the permitted subset of x86-32 from the front of some bytes.
//!
//! Untrusted code may run only if every instruction in it is known beforehand. It is therefore limited to a subset of
//! 32-bit x86 that can be decoded in only one way, and this crate decodes it.
//!
//! - The *permitted instructions* are data in `specs/Rows`, and `specs/Spelling` defines a whole instruction. Lengths
//!   and encodings are those of the Intel 64 and IA-32 Architectures Software Developer's Manual (SDM), volume 2.
//! - [`Instr`] describes one instruction's effect on control: its length, where control goes after it ([`Flow`]), and the
//!   register that it masks. It says nothing about the data that the instruction reads and writes.
//! - A *bundle* is 32 bytes; no instruction crosses the end of one. `bundles` has the constants of bundles and regions, and
//!   the bits of a [`Bundle`] say where its instructions end.
//!
//! Which call to use: [`decode`] decodes one instruction or reports the fault. [`Row::next`] reads one byte at a time and
//! answers only yes or no, which is much faster over a whole text. [`may_transfer`] rules out direct transfers by the first
//! byte of an instruction. `law_of_fronts` and `law_of_automaton` do nothing; the crates above rely only on their contracts.
//!
//! ```
//! // 83 E3 E0 is `and ebx, -32`, the mask of register 3.
//! let Ok(instr) = decode(&[0x83, 0xE3, 0xE0, 0xFF, 0xE3]) else { .. };
//! assert!(instr.len == 3 && instr.flow == Flow::Next && instr.masks == Some(3));
//! assert!(decode(&[0xC3]) == Err(DecodeFault::NotPermitted)); // a return
//! assert!(decode(&[0xE8, 0x00]) == Err(DecodeFault::Truncated)); // the beginning of a call
//! ```
//!
//! `decode` is in `decoding`. It finds the shape of an instruction first (`shape`): the opcode's entry in the opcode maps (`table`),
//! whose names `entries`, `groups` and `entry` explain, and the operand's length (`operand`). `instruction` has the result. The
//! automaton is in `automaton`, with its states in `states`, and a bundle's bits are in `bundle`. `bundles` has the constants,
//! `transfer` the direct transfers, and `law` the laws.
#![tactic(auto)]

mod automaton;
mod bundle;
mod bundles;
mod decoding;
mod entries;
mod entry;
mod groups;
mod instruction;
mod law;
mod operand;
mod shape;
mod states;
mod table;
mod transfer;

pub use automaton::{AFTER_MASK, AFTER_NEAR, AFTER_PAIR, AFTER_SHORT, DEAD, END, Row, STATES};
pub use bundle::{Bundle, bundle_at};
pub use bundles::{
    BUNDLE, MAX_BUNDLES, MIN_BUNDLES, START, bundle_rest, is_bundle_start, is_lawful_limit,
    is_outside_target, is_region_size, limit_after,
};
pub use decoding::decode;
pub use instruction::{DecodeFault, Flow, Instr, Mark, STOP, mark_bit};
pub use law::{law_of_automaton, law_of_fronts};
pub use transfer::may_transfer;
