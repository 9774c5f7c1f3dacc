//! Texts and bytes that several own.

use crate::told::is_number;
use jm_shared::{SharedBytes, SharedStr};
use std::alloc::{AllocError, Global};
use std::cmp::Ordering;

/// Two texts, and how the first stands to the second: 0 before it, 1 equal to it, 2 behind it.
static PAIRS: [(&str, &str, usize); 7] = [
    ("", "", 1),
    ("", "a", 0),
    ("orders", "orders", 1),
    ("order", "orders", 0),
    ("orders", "order", 2),
    ("Z", "a", 0),
    ("z", "\u{e4}", 0),
];

/// The answer where memory was wanted, or two answers of one question differ.
const WRONG: usize = 9;

fn number_of(order: Ordering) -> usize {
    match order {
        Ordering::Less => 0,
        Ordering::Equal => 1,
        Ordering::Greater => 2,
    }
}

/// How a copy of the first text stands to the second, which was a `String`.
fn texts(alloc: Global, one: &str, other: &str) -> Result<usize, AllocError> {
    let one = SharedStr::from_str(alloc, one)?;
    let other = SharedStr::from_string(String::from_str(alloc, other)?)?;
    let copy = one.copy()?;
    let clone = other.clone()?;
    drop(one);
    drop(other);
    let order = number_of(copy.cmp(&clone));
    if (copy == clone) == (order == 1) && (copy.as_str() == clone.as_str()) == (order == 1) {
        Ok(order)
    } else {
        Ok(WRONG)
    }
}

/// How a copy of the bytes of the first text stands to those of the second, which were a `Vec`.
fn bytes(alloc: Global, one: &str, other: &str) -> Result<usize, AllocError> {
    let one = SharedBytes::from_slice(alloc, one.as_bytes())?;
    let other = SharedBytes::from_vec(Vec::from_slice(alloc, other.as_bytes())?)?;
    let copy = one.copy()?;
    let clone = other.clone()?;
    drop(one);
    drop(other);
    let order = number_of(copy.cmp(&clone));
    if (copy == clone) == (order == 1) && (copy.as_bytes() == clone.as_bytes()) == (order == 1) {
        Ok(order)
    } else {
        Ok(WRONG)
    }
}

#[test]
fn texts_stand_by_their_bytes(rt: HostRuntime) {
    for (row, (one, other, wanted)) in PAIRS.iter().enumerate() {
        is_number(
            &rt,
            row,
            *wanted,
            texts(rt.alloc(), one, other).unwrap_or(WRONG),
        );
        is_number(
            &rt,
            row,
            *wanted,
            bytes(rt.alloc(), one, other).unwrap_or(WRONG),
        );
    }
}
