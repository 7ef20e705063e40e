//! A list of chunks by ascending base, in which a chunk is found without going through the others.
//!
//! A *chunk* is a span of addresses, live or retired with a stamp. [`ChunkList`] is a tree of three levels: leaves of up to 64
//! chunks, rows of up to 128 leaves, and a row of rows. Each part of a row knows its first base, and a lower bound of the stamps of its
//! retired chunks; a row also knows how many chunks stand before each part. From the root down, a binary search in each row finds the
//! chunk of an address or the chunk at an index, in O(log n) for n chunks. A part that is full is split in two when a chunk is
//! inserted, and two neighbours that have become small are joined when chunks are taken out.
//!
//! A search returns the [`Place`] where it ended, so a caller that looks before it inserts or retires searches once.
//!
//! The bounds of stamps take the place of a queue of retired chunks. [`take_due`](ChunkList::take_due) goes down only where a
//! chunk may be due, so it gives due chunks by ascending base without sorting them. Retiring a chunk and taking chunks out need
//! no memory.
//!
//! A chunk takes 16 bytes. Two neighbouring leaves have more than 48 chunks in room for 128, and two neighbouring rows more than
//! 96 leaves in room for 256. So a list takes at most 48 bytes for each chunk once it has more chunks than one leaf.
//!
//! `list` is [`ChunkList`] and [`Place`], and `chunk` what it lists. `row`, `leaf` and `entry` are the levels of the tree, down to a chunk in 16
//! bytes. `part` is what rows and leaves have in common, `parts` are those of a row, and `starts` counts the chunks before each of
//! them.
#![tactic(auto)]

mod chunk;
mod entry;
mod leaf;
mod list;
mod part;
mod parts;
mod row;
mod starts;

pub use chunk::{Chunk, ChunkState};
pub use entry::Entry;
pub use list::{ChunkList, Place};
