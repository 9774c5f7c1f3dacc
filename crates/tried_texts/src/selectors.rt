//! Selectors as they stand.

use crate::records::message;
use jm_base::{Refusal, Str};
use jm_header::Message;
use jm_selector::{Literal, Selector, copy_text, literals};
use std::alloc::{AllocError, Global};
use tried::{Answer, Called, Made, Trial, same, tell};

/// The text of a selector, the selector, one that asks for a literal, and a message.
#[derive(Drop)]
struct Selectors {
    alloc: Global,
    number: usize,
    text: Option<Str>,
    selector: Selector,
    asking: Selector,
    message: Message,
}

fn text(alloc: Global) -> Result<Option<Str>, AllocError> {
    Ok(Some(Str::new(String::from_str(alloc, "x = 1 OR y IN ('a')")?)))
}

fn selector(alloc: Global) -> Result<Selector, Refusal> {
    Selector::read(alloc, &text(alloc)?)
}

fn asking_text(alloc: Global) -> Result<Option<Str>, AllocError> {
    Ok(Some(Str::new(String::from_str(alloc, "JMSType = 'order'")?)))
}

fn asking(alloc: Global) -> Result<Selector, Refusal> {
    Selector::read(alloc, &asking_text(alloc)?)
}

/// The length of the text.
fn length(selector: &Selector) -> u64 {
    match selector.text() {
        Some(text) => text.len() as u64,
        None => 0,
    }
}

fn read(alloc: Global, text: &Option<Str>) -> Answer {
    match Selector::read(alloc, text) {
        Ok(selector) => Ok(length(&selector)),
        Err(refusal) => Err(refusal),
    }
}

fn copied(selector: &Selector) -> Answer {
    match selector.copy() {
        Ok(copy) => Ok(length(&copy)),
        Err(_) => Err(Refusal::Memory),
    }
}

fn copied_text(text: &Option<Str>) -> Answer {
    match copy_text(text) {
        Ok(copy) => Ok(same(&copy, text)),
        Err(_) => Err(Refusal::Memory),
    }
}

/// The length of the text.
fn size(literal: &Option<Literal>) -> u64 {
    match literal {
        Some(Literal::Text(text)) => text.as_str().len() as u64,
        _ => 0,
    }
}

fn asked(selector: &Selector) -> Answer {
    match selector.literal() {
        Ok(literal) => Ok(size(&literal)),
        Err(_) => Err(Refusal::Memory),
    }
}

/// How many literals the message has.
fn counted(alloc: Global, message: &Message) -> Answer {
    match literals(alloc, message) {
        Ok(literals) => Ok(literals.len() as u64),
        Err(_) => Err(Refusal::Memory),
    }
}

impl Selectors {
    fn new(alloc: Global, number: usize) -> Result<Selectors, Refusal> {
        Ok(Selectors {
            alloc,
            number,
            text: text(alloc)?,
            selector: selector(alloc)?,
            asking: asking(alloc)?,
            message: message(alloc)?,
        })
    }
}

impl Trial for Selectors {
    /// The length of the selector's text.
    fn state(&self) -> u64 {
        length(&self.selector)
    }

    fn call(&mut self) -> Called {
        match self.number {
            0 => Called {
                name: "jm_selector Selector::read",
                answer: read(self.alloc, &self.text),
            },
            1 => Called {
                name: "jm_selector Selector::copy",
                answer: copied(&self.selector),
            },
            2 => Called {
                name: "jm_selector copy_text",
                answer: copied_text(&self.text),
            },
            3 => Called {
                name: "jm_selector Selector::literal",
                answer: asked(&self.asking),
            },
            4 => Called {
                name: "jm_selector literals",
                answer: counted(self.alloc, &self.message),
            },
            _ => Called::NONE,
        }
    }
}

/// Makes the call of that number.
pub fn made(alloc: Global, number: usize) -> Made {
    tell(Selectors::new(alloc, number))
}
