//! What a test asserts of what it is told.

use jm_base::Refusal;
use std::alloc::AllocError;
use std::process::Abort;

/// Asserts that this holds of the row.
pub(crate) fn holds(rt: &impl Abort, row: &str, holds: bool) {
    assert!(rt; holds, "{row}");
}

/// Asserts that this truth value, or this refusal, is told of the row.
pub(crate) fn is_truth(
    rt: &impl Abort,
    row: &str,
    wanted: &Result<bool, Refusal>,
    told: Result<bool, Refusal>,
) {
    assert!(rt; told == *wanted, "{row}: {told:?}");
}

/// Asserts that this number, or this refusal, is told of the row.
pub(crate) fn is_number(
    rt: &impl Abort,
    row: &str,
    wanted: &Result<u64, Refusal>,
    told: Result<u64, Refusal>,
) {
    assert!(rt; told == *wanted, "{row}: {told:?} and not {wanted:?}");
}

/// Whether this text is told.
fn is_told(told: &Result<String, AllocError>, wanted: &str) -> bool {
    match told {
        Ok(text) => text.as_str() == wanted,
        Err(_) => false,
    }
}

/// Asserts that this text is told.
pub(crate) fn is_text(rt: &impl Abort, wanted: &str, told: Result<String, AllocError>) {
    assert!(rt; is_told(&told, wanted), "{told:?} and not {wanted}");
}
