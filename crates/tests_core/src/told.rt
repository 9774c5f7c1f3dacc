//! What a test asserts of what it is told.

use jm_base::Refusal;
use std::alloc::AllocError;
use std::process::Abort;

/// Asserts that this holds of the row.
pub(crate) fn holds(rt: &impl Abort, row: &str, holds: bool) {
    assert!(rt; holds, "{row}");
}

/// Asserts that this holds of the row, and that nothing was refused on the way.
pub(crate) fn is_true(rt: &impl Abort, row: &str, told: Result<bool, Refusal>) {
    assert!(rt; told == Ok(true), "{row}");
}

/// Asserts that this text is told.
pub(crate) fn is_text(rt: &impl Abort, wanted: &str, told: Result<String, AllocError>) {
    match told {
        Ok(text) => assert!(rt; text.as_str() == wanted, "{text} and not {wanted}"),
        Err(_) => assert!(rt; false, "no memory for {wanted}"),
    }
}

/// Asserts that this text is told, and that nothing was refused on the way.
pub(crate) fn is_told(rt: &impl Abort, wanted: &str, told: Result<String, Refusal>) {
    match told {
        Ok(text) => assert!(rt; text.as_str() == wanted, "{text} and not {wanted}"),
        Err(_) => assert!(rt; false, "refused, and not {wanted}"),
    }
}
