//! The rows of tables.

use std::test::Fail;

/// Fails with the name of a row that does not hold.
pub fn expect(holds: bool, row: &str) -> Result<(), Fail> {
    if holds { Ok(()) } else { Err(Fail::new(row)) }
}
