//! Texts, lists, boxes, and the names of refusals.

use crate::told::{holds, is_text};
use jm_base::{Boxed, Cause, List, Refusal, Str};
use std::alloc::{AllocError, Global};

/// A copy of the text, as it is moved out.
fn copied(alloc: Global, text: &str) -> Result<String, AllocError> {
    let text = Str::new(String::from_str(alloc, text)?);
    Ok(text.copy()?.into_inner())
}

#[test]
fn texts(rt: HostRuntime) {
    for text in &["", "hi", "it's \u{e9}"] {
        is_text(&rt, text, copied(rt.alloc(), text));
    }
}

/// How many elements there are after two were pushed.
fn pushed(alloc: Global) -> Result<usize, AllocError> {
    let mut list = List::new(Vec::new(alloc));
    list.push(1u8)?;
    list.push(2)?;
    Ok(list.into_inner().len())
}

#[test]
fn lists(rt: HostRuntime) {
    holds(&rt, "two elements", pushed(rt.alloc()) == Ok(2));
}

fn boxed(alloc: Global) -> Result<u8, AllocError> {
    Ok(Boxed::new(alloc, 7u8)?.into_inner())
}

#[test]
fn boxes(rt: HostRuntime) {
    holds(&rt, "7 in a box", boxed(rt.alloc()) == Ok(7));
}

static REFUSALS: [(Refusal, &str); 10] = [
    (Refusal::IllegalState, "IllegalState"),
    (Refusal::BadName, "BadName"),
    (Refusal::OutOfRange, "OutOfRange"),
    (Refusal::MessageFormat, "MessageFormat"),
    (Refusal::InvalidDestination, "InvalidDestination"),
    (Refusal::InvalidClientId, "InvalidClientId"),
    (Refusal::SubscriptionInUse, "SubscriptionInUse"),
    (Refusal::Exhausted, "Exhausted"),
    (Refusal::Memory, "Memory"),
    (Refusal::Store, "Store"),
];

fn shown(alloc: Global, refusal: Refusal) -> Result<String, AllocError> {
    format!(in alloc; "{refusal}")
}

#[test]
fn names_of_refusals(rt: HostRuntime) {
    for (refusal, name) in &REFUSALS {
        is_text(&rt, name, shown(rt.alloc(), *refusal));
    }
}

static CAUSES: [(Cause, &str); 8] = [
    (Cause::Token, "InvalidSelector Token 4"),
    (Cause::Expected, "InvalidSelector Expected 4"),
    (Cause::Kind, "InvalidSelector Kind 4"),
    (Cause::Number, "InvalidSelector Number 4"),
    (Cause::Floating, "InvalidSelector Floating 4"),
    (Cause::TooLong, "InvalidSelector TooLong 4"),
    (Cause::TooDeep, "InvalidSelector TooDeep 4"),
    (Cause::Memory, "InvalidSelector Memory 4"),
];

#[test]
fn names_of_causes(rt: HostRuntime) {
    for (cause, name) in &CAUSES {
        let cause = *cause;
        is_text(
            &rt,
            name,
            shown(rt.alloc(), Refusal::InvalidSelector { at: 4, cause }),
        );
    }
}
