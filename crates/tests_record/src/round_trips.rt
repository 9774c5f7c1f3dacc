//! Messages that are read again from their records.

use crate::both_ways::{is_read_as, is_written_as, written};
use crate::full::{RECORD, message, sent};
use crate::told::{holds, is_number};
use jm_header::{Draft, Message};
use jm_property::Property;
use std::alloc::{AllocError, Global};

/// How long the record of the message is, where the message is read again from it.
fn length(alloc: Global, message: &Message) -> Option<usize> {
    match written(alloc, message) {
        Ok(record) if is_read_as(alloc, record.as_slice(), message) => Some(record.len()),
        _ => None,
    }
}

/// The same of a message that may not be there.
fn length_of(alloc: Global, message: Option<Message>) -> Option<usize> {
    match message {
        Some(message) => length(alloc, &message),
        None => None,
    }
}

#[test]
fn every_field(rt: HostRuntime) {
    is_number(&rt, 231, length_of(rt.alloc(), message(rt.alloc())));
}

/// Whether a message that is protected has the record.
fn is_written_protected(alloc: Global, message: Option<Message>) -> bool {
    match message {
        Some(mut message) => {
            message.protect();
            is_written_as(alloc, &message, RECORD)
        }
        None => false,
    }
}

#[test]
fn marks_are_no_part(rt: HostRuntime) {
    holds(
        &rt,
        "marks",
        is_written_protected(rt.alloc(), message(rt.alloc())),
    );
}

/// How long the record is of a message whose body has so many bytes.
fn length_of_bytes(alloc: Global, count: usize) -> Result<Option<usize>, AllocError> {
    let bytes = vec![in alloc; 7; count]?;
    let mut draft = Draft::new(alloc);
    let _ = draft.set_bytes(bytes.as_slice());
    Ok(length_of(alloc, sent(alloc, draft)))
}

/// The record of a message with a body of bytes has 68 bytes besides.
#[test]
fn bodies_of_bytes(rt: HostRuntime) {
    for (count, wanted) in &[(0, 68), (1, 69), (1_000_000, 1_000_068)] {
        let length = length_of_bytes(rt.alloc(), *count);
        is_number(&rt, *wanted, length.unwrap_or(None));
    }
}

/// How long the record is of a message with that text.
fn length_of_text(alloc: Global, text: &str) -> Option<usize> {
    let mut draft = Draft::new(alloc);
    let _ = draft.set_text(text);
    length_of(alloc, sent(alloc, draft))
}

#[test]
fn bodies_of_text(rt: HostRuntime) {
    for (text, wanted) in &[("", 68), ("hi", 70), ("\u{e9}", 70)] {
        is_number(&rt, *wanted, length_of_text(rt.alloc(), text));
    }
}

#[test]
fn no_body(rt: HostRuntime) {
    let message = sent(rt.alloc(), Draft::new(rt.alloc()));
    is_number(&rt, 60, length_of(rt.alloc(), message));
}

/// Sets the property of that number: p0, p1, p2 and so on.
fn set_numbered(draft: &mut Draft, alloc: Global, number: u32) {
    if let Ok(name) = format!(in alloc; "p{number}") {
        let _ = draft.set_property(name.as_str(), Property::Long(i64::from(number)));
    }
}

/// A draft with so many properties.
fn draft_of_many(alloc: Global, count: u32) -> Draft {
    let mut draft = Draft::new(alloc);
    for number in 0..count {
        set_numbered(&mut draft, alloc, number);
    }
    draft
}

/// Each of 3,000 properties has 17 bytes and its name, and the names have 13,890.
#[test]
fn many_properties(rt: HostRuntime) {
    let message = sent(rt.alloc(), draft_of_many(rt.alloc(), 3_000));
    is_number(&rt, 60 + 51_000 + 13_890, length_of(rt.alloc(), message));
}
