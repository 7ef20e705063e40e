//! Permitted instructions as text, in the AT&T syntax that GNU objdump writes.
//!
//! [`push_instruction`] adds the name and the operands of one instruction to a text. [`front_name`] gives those of the instruction at the
//! front of some bytes, and its length. No verdict depends on either.
//!
//! The names are those of `nc_mnemonics`. No proof relies on that table, so a name that is not printable would become `?`.
//!
//! ```
//! push_instruction(&mut out, 0x10000, &[0x8B, 0x45, 0xF4])?; // mov -0xc(%ebp),%eax
//! push_instruction(&mut out, 0x10000, &[0x75, 0x20])?; // jne 00010022
//! push_instruction(&mut out, 0x10000, &[0xC3])?; // adds nothing, since a return isn't permitted
//! ```
#![tactic(auto)]

mod naming;

pub use naming::{Name, front_name, push_instruction};
