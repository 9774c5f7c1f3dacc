//! What a test asserts of what it is told.

use std::process::Abort;

/// Asserts that this holds of the row.
pub(crate) fn holds(rt: &impl Abort, row: &str, holds: bool) {
    assert!(rt; holds, "{row}");
}

/// Asserts that this number is told.
pub(crate) fn is_number(rt: &impl Abort, wanted: usize, told: Option<usize>) {
    assert!(rt; told == Some(wanted), "{told:?} and not {wanted}");
}
