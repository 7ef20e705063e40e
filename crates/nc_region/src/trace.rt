//! The trace of a walk through a region's text.

/// The places of a walk, first to last, and how it ended.
#[derive(Debug, Drop)]
pub struct Trace {
    /// Addresses, beginning with the start of the walk.
    pub places: Vec<u32>,
    /// Why the walk went no further.
    pub end: End,
}

/// How a walk ends.
#[derive(Clone, Copy, Debug, Drop, PartialEq, Eq)]
pub enum End {
    /// At an instruction that goes nowhere.
    Stop,
    /// Below the region, where there is only trusted code.
    Trampoline,
    /// By an indirect transfer to the limit or above it.
    Beyond,
    /// At an instruction for which no choice was left.
    More,
}
