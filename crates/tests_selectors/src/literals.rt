//! The literals that selectors ask for, and those of messages.

use crate::told::is_text;
use jm_base::{Refusal, Str};
use jm_selector::{Selector, law_literal};
use std::alloc::{AllocError, Global};

/// The selector of the text.
fn selector(alloc: Global, text: &str) -> Result<Selector, Refusal> {
    let text = Some(Str::new(String::from_str(alloc, text)?));
    Selector::read(alloc, &text)
}

/// The literal that the selector asks for, as it is printed.
fn told_of_selector(alloc: Global, selector: &Selector) -> Result<String, AllocError> {
    let literal = selector.literal()?;
    format!(in alloc; "{literal:?}")
}

/// The same of the selector of the text.
fn told(alloc: Global, text: &str) -> Result<String, AllocError> {
    match selector(alloc, text) {
        Ok(selector) => told_of_selector(alloc, &selector),
        Err(_) => Err(AllocError),
    }
}

/// Selectors, and the literals that they ask for.
static SELECTORS: [(&str, &str); 13] = [
    ("x = 7", "Some(Number(7))"),
    ("7 = x", "Some(Number(7))"),
    ("x = 'a'", "Some(Text(\"a\"))"),
    ("x = 7 AND y", "Some(Number(7))"),
    ("y AND 7 = x", "Some(Number(7))"),
    ("y = 'a' AND x = 7", "Some(Text(\"a\"))"),
    ("x = 7 OR y", "None"),
    ("x <> 7", "None"),
    ("x = y", "None"),
    ("JMSPriority = 4", "None"),
    ("JMSType = 'a'", "Some(Text(\"a\"))"),
    ("JMSCorrelationID = 'a'", "Some(Text(\"a\"))"),
    ("", "None"),
];

#[test]
fn literals_of_selectors(rt: HostRuntime) {
    for (text, wanted) in &SELECTORS {
        is_text(&rt, wanted, told(rt.alloc(), text));
    }
}

/// What is left of the selector once it is cleared, as it is printed.
fn left_of(alloc: Global, text: &str) -> Result<String, AllocError> {
    match selector(alloc, text) {
        Ok(mut selector) => {
            selector.clear();
            format!(in alloc; "{:?}", selector.text())
        }
        Err(_) => Err(AllocError),
    }
}

#[test]
fn nothing_is_left_of_what_is_cleared(rt: HostRuntime) {
    for (text, _) in &SELECTORS {
        is_text(&rt, "None", left_of(rt.alloc(), text));
    }
}

#[test]
fn law_of_literals_is_stated() {
    law_literal();
}
