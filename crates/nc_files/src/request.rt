//! Requests to judge files.

use nc_output::Style;

/// A request to judge the code of files.
#[derive(Drop)]
pub struct Request<'a> {
    /// The address of the first byte of each file of raw code.
    pub base: u32,
    /// Whether files that begin as ELF files do are judged as raw code too.
    pub raw: bool,
    /// The size of the region in bundles.
    pub bundles: u32,
    /// The number of threads that judge.
    pub workers: u32,
    /// How much is written about each file, and in which form.
    pub style: Style,
    /// The files, at least one; `-` is standard input.
    pub files: Vec<&'a str>,
}
