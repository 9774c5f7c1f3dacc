//! Messages, and steps that carry them.

use crate::op::{At, session};
use jm_base::{List, Refusal, Str};
use jm_dest::{Destination, Moment, Number};
use jm_header::{Draft, Message, Sender, stamp};
use jm_machine::{Call, Step, Who};
use jm_property::Property;
use std::alloc::{AllocError, Global};

/// The text of a selector, or none. `AllocError` where a request for memory was refused.
pub fn selector(alloc: Global, text: Option<&str>) -> Result<Option<Str>, AllocError> {
    match text {
        None => Ok(None),
        Some(text) => Ok(Some(Str::new(String::from_str(alloc, text)?))),
    }
}

/// The destination. `BadName` where its name is none; `Memory` where a request for memory was refused.
pub fn destination(alloc: Global, at: At) -> Result<Destination, Refusal> {
    match at {
        At::Topic(name) => Destination::topic(alloc, name),
        At::Queue(name) => Destination::queue(alloc, name),
    }
}

/// A text, with that property x or with none; a want of memory is seen by what is missing.
pub fn draft(alloc: Global, text: &str, x: Option<i64>) -> Draft {
    let mut draft = Draft::new(alloc);
    let _ = draft.set_text(text);
    if let Some(x) = x {
        let _ = draft.set_property("x", Property::Long(x));
    }
    draft
}

/// A text with that time to live; a want of memory is seen by what is missing.
pub(crate) fn expiring(alloc: Global, text: &str, time_to_live: i64) -> Draft {
    let mut draft = draft(alloc, text, None);
    let _ = draft.set_time_to_live(time_to_live);
    draft
}

/// A text with that delivery delay, and with that property x or with none; a want of memory is seen by what is missing.
pub(crate) fn delayed(alloc: Global, text: &str, delay: i64, x: Option<i64>) -> Draft {
    let mut draft = draft(alloc, text, x);
    let _ = draft.set_delivery_delay(delay);
    draft
}

/// A message of the text a to that destination, of session 2.1 in that opening, with that property x or with none.
/// `OutOfRange` where the opening is 0; `BadName` where the destination's name is none; `Memory` where a request for memory
/// was refused.
pub fn sent(alloc: Global, opening: u32, at: At, x: Option<i64>) -> Result<Message, Refusal> {
    let opening = Number::new(opening)?;
    let session = session(2)?;
    let now = Moment::new(1000)?;
    let destination = destination(alloc, at)?;
    let sender = Sender { opening, session };
    stamp(draft(alloc, "a", x), destination, sender, 1, now)
}

/// Puts so many messages of session 2.1 to that destination, stamped in that opening, into the list.
fn fill(
    alloc: Global,
    messages: &mut List<Message>,
    opening: u32,
    at: At,
    x: Option<i64>,
    count: u32,
) -> Result<(), Refusal> {
    for _ in 0..count {
        messages.push(sent(alloc, opening, at, x)?)?;
    }
    Ok(())
}

/// So many messages of session 2.1 to that destination, stamped in that opening, with that property x or with none.
fn messages(
    alloc: Global,
    opening: u32,
    at: At,
    x: Option<i64>,
    count: u32,
) -> Result<List<Message>, Refusal> {
    let mut messages = List::new(Vec::new(alloc));
    match fill(alloc, &mut messages, opening, at, x, count) {
        Ok(()) => Ok(messages),
        Err(refusal) => Err(refusal),
    }
}

/// A step that publishes so many messages of session 2.1 to that destination, stamped in that opening, with that property x
/// or with none. It is refused as `sent` is.
pub fn publication(
    alloc: Global,
    opening: u32,
    at: At,
    x: Option<i64>,
    count: u32,
) -> Result<Step, Refusal> {
    let who = Who::Session(session(2)?);
    let call = Call::Publish(messages(alloc, opening, at, x, count)?);
    Ok(Step { who, call })
}

/// A step that commits so many messages of session 2.1 to t, stamped in that opening. It is refused as `sent` is.
pub fn commit(alloc: Global, opening: u32, count: u32) -> Result<Step, Refusal> {
    let who = Who::Session(session(2)?);
    let call = Call::Commit(messages(alloc, opening, At::Topic("t"), None, count)?);
    Ok(Step { who, call })
}
