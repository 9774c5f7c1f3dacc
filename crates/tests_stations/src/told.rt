//! What a test asserts of what it is told.

use std::process::Abort;

/// Asserts that this number is told of the row.
pub(crate) fn is_number(rt: &impl Abort, row: &str, wanted: usize, told: usize) {
    assert!(rt; told == wanted, "{row}: {told} and not {wanted}");
}
