//! The marks between which allocations are refused.

use std::io;

/// Allocations are refused after the second write to standard output.
pub(crate) fn begin<R: Print>(rt: &R) -> io::Result<()> {
    print!(rt; "\n")?;
    print!(rt; "call\n")
}

/// Allocations are no longer refused after the third write.
pub(crate) fn end<R: Print>(rt: &R) -> io::Result<()> {
    print!(rt; "answer\n")
}
