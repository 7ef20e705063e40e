//! Tables whose rows are each right or wrong.

use std::test::Fail;

/// Fails with the number of the row unless that is right. Tests compare by this function, since a loop over `assert_eq!` takes
/// several times as long to prove.
pub fn right(is_right: bool, row: u32) -> Result<(), Fail> {
    if is_right {
        return Ok(());
    }
    Err(Fail::new(format_args!("row {row} is wrong")))
}
