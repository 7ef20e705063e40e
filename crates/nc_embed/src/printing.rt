//! Printing.

use crate::fault::HostFault;
use std::fmt::Display;

/// Prints a line: what happened, and its outcome.
pub fn print_outcome<R: Print, T: Display + Drop>(
    rt: &R,
    what: &str,
    outcome: T,
) -> Result<(), HostFault> {
    match println!(rt; "{what}: {outcome}") {
        Ok(()) => Ok(()),
        Err(_) => Err(HostFault::NotPrinted),
    }
}
