//! Assertions on whole tables, whose message is the row that doesn't hold.

use std::alloc::{AllocError, Global};
use std::process::Abort;
use test_support::decoder_vectors::{VectorTest, failing_vector};
use test_support::rows::{Table, failing_row};

/// Asserts that each row holds, and that there are as many as the table says.
pub fn assert_rows<T: Table>(rt: &impl Abort, table: &mut T) {
    let failing = failing_row(table);
    assert!(rt; failing.is_none(), "{}", failing.unwrap_or_default());
}

/// Asserts that each of the decoder's vectors passes.
pub fn assert_vectors<T: VectorTest>(
    rt: &impl Abort,
    alloc: Global,
    test: &mut T,
) -> Result<(), AllocError> {
    let failing = failing_vector(alloc, test)?;
    assert!(rt; failing.is_none(), "{}", failing.unwrap_or_default());
    Ok(())
}
