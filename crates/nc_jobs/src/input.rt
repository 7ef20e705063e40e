//! What a job is done on.

use crate::pieces::Pieces;

/// The pieces that an input is made of, the seed that makes it, and how much of it there is.
#[derive(Clone, Copy, Drop)]
pub struct Input<'a> {
    pub pieces: &'a Pieces,
    pub seed: u32,
    pub count: u32,
}
