//! Assertions on whole tables, whose message is the row that doesn't hold.

use std::process::Abort;
use test_support::rows::{Table, failing_row};

/// Asserts that each row holds, and that there are as many as the table says.
pub fn assert_rows<T: Table>(rt: &impl Abort, table: &mut T) {
    let failing = failing_row(table);
    assert!(rt; failing.is_none(), "{}", failing.unwrap_or_default());
}
