//! A vetted chunk that isn't in a region yet.

use nc_vet::Vetted;

/// A slot for a vetted chunk: creating the chunk in a region empties it, and a refusal refills it without allocating.
#[derive(Drop)]
pub struct VettedHandle {
    pub chunk: Option<Vetted>,
}
