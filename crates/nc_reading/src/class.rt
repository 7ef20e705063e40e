//! What the reading of a refused chunk finds at a byte.

/// The class of a byte of a refused chunk, as the reading of the chunk finds it. An instruction is *allowed* where it is permitted and
/// ends in its bundle, and follows its mask if it is an indirect transfer.
#[derive(Clone, Copy, PartialEq, Eq)]
pub enum Class {
    /// A later byte of an instruction.
    Inside,
    /// A byte that is skipped, because the length of the instruction before it isn't known.
    Skipped,
    /// An instruction that is allowed here begins, and it is not the second half of a pair.
    Entry,
    /// The second half of a pair begins.
    Second,
    /// No permitted instruction begins here.
    NotPermitted,
    /// The end of the bundle cuts an instruction that begins here.
    Crosses,
    /// An indirect transfer without its mask begins.
    Bare,
}
