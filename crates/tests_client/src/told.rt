//! What calls are told.

use jm_client::{Body, Delivery, Error, Message, Refusal};
use std::process::Abort;

/// What a call is told.
#[derive(Clone, Copy, PartialEq, Eq)]
pub(crate) enum Told {
    Done,
    /// The number of a send, or how many publications were missed.
    Number(u64),
    /// No message came.
    Nothing,
    /// A message whose body begins with that byte, 0 where there is none, and how often it was delivered.
    Message(u8, u32),
    /// So many connections, sessions and consumers are open.
    Open(usize, usize, usize),
    /// There are so many subscriptions, and subscriptions and queues hold so many messages.
    Held(usize, usize, usize),
    Refused(Refusal),
    /// Who should make the call is not there.
    Absent,
}

/// What is told of a call that hands out nothing.
pub(crate) fn done(reply: Result<(), Error>) -> Told {
    match reply {
        Ok(()) => Told::Done,
        Err(error) => Told::Refused(error.refusal()),
    }
}

/// What is told of one that tells a number.
pub(crate) fn number(reply: Result<u64, Error>) -> Told {
    match reply {
        Ok(number) => Told::Number(number),
        Err(error) => Told::Refused(error.refusal()),
    }
}

/// The first byte of the body, or 0.
fn first_byte(message: &Message) -> u8 {
    let first = match message.body() {
        Body::None => None,
        Body::Text(text) => text.as_str().as_bytes().first(),
        Body::Bytes(bytes) => bytes.as_bytes().first(),
    };
    match first {
        Some(first) => *first,
        None => 0,
    }
}

/// What is told of one that hands out a message, or none.
pub(crate) fn delivered(reply: Result<Option<Delivery>, Error>) -> Told {
    match reply {
        Ok(Some(delivery)) => Told::Message(first_byte(&delivery.message), delivery.count),
        Ok(None) => Told::Nothing,
        Err(error) => Told::Refused(error.refusal()),
    }
}

/// Asserts that all rows of that many are told what they should be.
pub(crate) fn agrees(rt: &impl Abort, name: &str, right: usize, rows: usize) {
    assert_eq!(rt; right, rows, "{name}");
}
