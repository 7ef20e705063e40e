//! The chunks of a list.

/// Whether a chunk is in use.
#[derive(Clone, Copy, Debug, Drop, PartialEq, Eq)]
pub enum ChunkState {
    /// It is in use.
    Live,
    /// It is no longer in use. The number is its stamp. The chunk is taken out of the list once its stamp is due.
    Retired(u64),
}

/// One chunk of a list.
#[derive(Clone, Copy, Debug, Drop, PartialEq, Eq)]
pub struct Chunk {
    /// The address of its first byte.
    pub base: u32,
    /// The number of its bytes.
    pub length: u32,
    pub state: ChunkState,
}
