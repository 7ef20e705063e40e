//! The names of permitted instructions, in the AT&T syntax that GNU objdump writes.
//!
//! [`text_of`] gives the name and the operands of one instruction. Tests show that each name is right. Nothing is proved about the
//! table, and no proof relies on it.
//!
//! `rows` is the table of names by opcode, `row` says what a row has, and `words` has the letters of the names. `parts` takes an
//! instruction apart. `writing` writes the name and the operands, `memory` an operand in memory, `registers` has the names of registers,
//! and `text` adds a piece to a text. A piece is eight bytes, so that one of any length is copied at once.
#![tactic(auto)]

mod memory;
mod parts;
mod registers;
mod row;
mod rows;
mod text;
mod words;
mod writing;

pub use text::Text;
pub use writing::text_of;
