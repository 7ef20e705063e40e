//! Code that is judged.

use crate::labels::Labels;

/// Code that is judged, with the address of its first byte, the end of its region, names for its addresses, and words about the form
/// of its file, if that isn't raw code.
#[derive(Clone, Copy)]
pub(crate) struct Judged<'a> {
    pub base: u32,
    pub limit: u32,
    pub code: &'a [u8],
    pub labels: &'a Labels,
    pub form: Option<&'static [u8]>,
}
