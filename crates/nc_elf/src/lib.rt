//! The segments of linked 32-bit x86 ELF files, and the symbols of their code.
//!
//! Code is vetted as bytes at an address. A linker puts both into a file, whose program headers say which bytes a loader
//! maps where, and which of them may be executed. [`code_segments`] reads these headers, as the System V ABI defines them,
//! and lists the executable segments: for each its address, and the position of its bytes in the file ([`Segment::bytes`]).
//!
//! The list is all of the code: by the headers of loaded segments, a loader makes exactly these bytes executable, at these
//! addresses. A file for which that would not hold is refused ([`ElfFault`]): one with an executable segment that is
//! writable or has bytes in memory that aren't in the file, or with segments that overlap. Headers of other types aren't
//! read: a loader that makes data executable because of the stack's header (PT_GNU_STACK) goes beyond the list.
//!
//! Neither section headers nor the bytes of segments are read for this list. A loader that maps whole pages isn't bound by
//! the program headers: besides a segment's bytes it maps the rest of the segment's first and last page.
//!
//! ```
//! let segments = code_segments(alloc, file)?;
//! for segment in &segments {
//!     judge(alloc, segment.address, limit, segment.bytes(file))?;
//! }
//! ```
//!
//! [`loaded_segments`] writes all loaded segments of the same files, of code and of data, into a buffer of the caller's, and
//! allocates nothing.
//!
//! [`code_symbols`] lists the names that the file's symbol table has for code, by ascending address. Symbols decide nothing:
//! they are names for messages. A file without a symbol table, or with a malformed one, has none, and isn't refused.
//!
//! ```
//! let symbols = code_symbols(alloc, file)?;
//! for symbol in &symbols {
//!     print(symbol.address, symbol.name(file));
//! }
//! ```
//!
//! `header` and `program` read the ELF header and the program headers, and `checks` has the checks, with the faults of `fault`.
//! `listing` lists the segments of code, and `loaded` writes all loaded ones. `symbols` lists the symbols: `sections` finds
//! the symbol table, and `entries` reads its entries and their names. `numbers` reads a number in the file.
#![tactic(auto)]

mod checks;
mod entries;
mod fault;
mod header;
mod listing;
mod loaded;
mod numbers;
mod program;
mod sections;
mod symbols;

pub use fault::{ElfFault, LoadedFault, SegmentFault};
pub use header::is_elf;
pub use listing::{Segment, code_segments};
pub use loaded::{NcSegment, loaded_segments};
pub use symbols::{Symbol, code_symbols};
