//! Replies in few letters.

use jm_header::Body;
use jm_machine::{Answer, Delivery, Reply};
use std::alloc::{AllocError, Global};

/// A delivery in a few letters: `a#1` is the text a with count 1.
fn delivery_text(alloc: Global, delivery: &Delivery) -> Result<String, AllocError> {
    let count = delivery.count;
    match delivery.message.body() {
        Body::Text(text) => {
            let text = text.as_str();
            format!(in alloc; "{text}#{count}")
        }
        _ => format!(in alloc; "no text"),
    }
}

/// A reply in a few letters: `ok`, `sent 1`, `none`, `missed 1`, `a#1` for the text a with count 1, and a refusal's name.
/// `AllocError` where a request for memory was refused.
pub fn shown(alloc: Global, reply: &Reply) -> Result<String, AllocError> {
    match reply {
        Ok(Answer::Done) => format!(in alloc; "ok"),
        Ok(Answer::Sent(number)) => format!(in alloc; "sent {number}"),
        Ok(Answer::Nothing) => format!(in alloc; "none"),
        Ok(Answer::Missed(number)) => format!(in alloc; "missed {number}"),
        Ok(Answer::Delivered(delivery)) => delivery_text(alloc, delivery),
        Err(refusal) => format!(in alloc; "{refusal}"),
    }
}

/// The replies, each followed by a comma and a space. `AllocError` where a request for memory was refused.
pub fn all_shown(alloc: Global, replies: &[Reply]) -> Result<String, AllocError> {
    let mut text = String::new(alloc);
    for reply in replies {
        text.push_str(shown(alloc, reply)?.as_str())?;
        text.push_str(", ")?;
    }
    Ok(text)
}
