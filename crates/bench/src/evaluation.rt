//! Counted evaluation of one selector over one message.

use jm_base::{Refusal, Str};
use jm_dest::{ConnectionId, Destination, Moment, Number, SessionId};
use jm_header::{Draft, Message, Sender, stamp};
use jm_property::Property;
use jm_selector::Selector;
use jm_shared::SharedStr;
use std::alloc::Global;

/// The property of a value: a whole number where it writes one, and else a text.
fn property(alloc: Global, value: &str) -> Result<Property, Refusal> {
    match value.parse() {
        Ok(number) => Ok(Property::Long(number)),
        Err(_) => Ok(Property::Text(SharedStr::from_str(alloc, value)?)),
    }
}

/// Sets the properties, each written `NAME=VALUE`; what is not written so, or may not be set, is left out.
fn set(alloc: Global, draft: &mut Draft, properties: &[String]) -> Result<(), Refusal> {
    for word in properties {
        if let Some((name, value)) = word.as_str().split_once("=") {
            let _ = draft.set_property(name, property(alloc, value)?);
        }
    }
    Ok(())
}

/// A message with these properties.
fn message(alloc: Global, properties: &[String]) -> Result<Message, Refusal> {
    let sender = Sender {
        opening: Number::new(1)?,
        session: SessionId::new(ConnectionId::new(1)?, 1)?,
    };
    let topic = Destination::topic(alloc, "topic")?;
    let now = Moment::new(1)?;
    let mut draft = Draft::new(alloc);
    match set(alloc, &mut draft, properties) {
        Ok(()) => stamp(draft, topic, sender, 1, now),
        Err(refusal) => Err(refusal),
    }
}

/// What is evaluated, and how often.
#[derive(Drop)]
pub(crate) struct Evaluation {
    selector: Selector,
    message: Message,
    rounds: u32,
}

impl Evaluation {
    /// The evaluation of the selector of that text over a message with these properties.
    pub(crate) fn new(
        alloc: Global,
        rounds: u32,
        text: &str,
        properties: &[String],
    ) -> Result<Evaluation, Refusal> {
        let selector = Selector::read(alloc, &Some(Str::new(format!(in alloc; "{text}")?)))?;
        let message = message(alloc, properties)?;
        Ok(Evaluation {
            selector,
            message,
            rounds,
        })
    }

    /// How often the selector is evaluated.
    pub(crate) fn rounds(&self) -> u32 {
        self.rounds
    }

    /// How often the message was selected.
    pub(crate) fn work(&self) -> u32 {
        let mut selected = 0u32;
        for _ in 0..self.rounds {
            selected = selected.wrapping_add(u32::from(self.selector.selects(&self.message)));
        }
        selected
    }
}
