//! What a test asserts of what it is told.

use std::alloc::AllocError;
use std::process::Abort;

/// Asserts that this holds of the row.
pub(crate) fn holds(rt: &impl Abort, row: &str, holds: bool) {
    assert!(rt; holds, "{row}");
}

/// Whether this text is told.
fn is_told(told: &Result<String, AllocError>, wanted: &str) -> bool {
    match told {
        Ok(text) => text.as_str() == wanted,
        Err(_) => false,
    }
}

/// Asserts that this text is told.
pub(crate) fn is_text(rt: &impl Abort, wanted: &str, told: Result<String, AllocError>) {
    assert!(rt; is_told(&told, wanted), "{told:?} and not {wanted}");
}
