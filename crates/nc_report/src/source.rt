//! What a report is on.

use crate::labels::Labels;

/// Bytes that were read from one file, and the file's name as it is printed.
#[derive(Drop)]
pub struct Source {
    pub name: Vec<u8>,
    pub code: Vec<u8>,
    /// Names for addresses of the code, if known.
    pub labels: Labels,
}
