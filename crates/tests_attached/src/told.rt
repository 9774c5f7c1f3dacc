//! What a test asserts of what it is told.

use std::process::Abort;

/// Asserts that this holds of the row.
pub(crate) fn holds(rt: &impl Abort, row: &str, holds: bool) {
    assert!(rt; holds, "{row}");
}

/// Asserts that this holds of the row of that number.
pub(crate) fn holds_at(rt: &impl Abort, row: usize, holds: bool) {
    assert!(rt; holds, "row {row}");
}
