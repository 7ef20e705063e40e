//! Why a call of a region is refused.

use thiserror::Error;

/// Why no region is made.
#[derive(Clone, Copy, Debug, PartialEq, Eq, Error)]
pub enum RegionFault {
    /// The number of bundles doesn't give a lawful limit.
    #[error("bad size")]
    BadSize,
    /// There was no memory for the table of pages.
    #[error("out of memory")]
    OutOfMemory,
}

/// Why a chunk isn't created: the first of these that applies, in this order.
#[derive(Clone, Copy, Debug, PartialEq, Eq, Error)]
pub enum CreateFault {
    /// The chunk was vetted for a limit other than the region's.
    #[error("wrong limit")]
    WrongLimit,
    /// The chunk's span overlaps a chunk of the region.
    #[error("occupied")]
    Occupied,
    /// There was no memory for the list of chunks, for the chunk's marks or for the pages of its span. Some of these pages may
    /// have been made; nothing else has changed.
    #[error("out of memory")]
    OutOfMemory,
}

/// Why a walk isn't made.
#[derive(Clone, Copy, Debug, PartialEq, Eq, Error)]
pub enum WalkFault {
    /// The walk would not begin at a bundle start of the region.
    #[error("not a bundle start")]
    NotBundle,
    /// There was no memory for the trace.
    #[error("out of memory")]
    OutOfMemory,
}

/// Why a patch isn't made: the first of these that applies, in this order.
#[derive(Clone, Copy, Debug, PartialEq, Eq, Error)]
pub enum ModifyFault {
    /// There are no new bytes, or they don't lie in one bundle.
    #[error("bad span")]
    BadSpan,
    /// The bytes don't begin in a live chunk.
    #[error("not live")]
    NotLive,
    /// The new bytes aren't a sequence of whole permitted instructions.
    #[error("not permitted")]
    NotPermitted,
    /// The new bytes don't take the place of whole instructions of the chunk, each as long as the new one.
    #[error("other boundaries")]
    Boundaries,
    /// The mask of a pair would get other bytes, or an indirect transfer would be added, removed, or given another
    /// register. Only a masked jump may become a masked call on its register, and vice versa.
    #[error("a pair would be touched")]
    PairTouched,
    /// A direct transfer would go to an address that no direct transfer of the chunk may go to.
    #[error("bad target")]
    BadTarget,
}

/// Why a chunk isn't deleted: the first of these that applies, in this order.
#[derive(Clone, Copy, Debug, PartialEq, Eq, Error)]
pub enum DeleteFault {
    /// No live chunk has this base.
    #[error("no chunk")]
    NoChunk,
    /// The last generation has been reached, so no stamp can be drawn.
    #[error("the last generation is reached")]
    GensFull,
}
