//! Messages, selectors and keys of tests in few words.
#![tactic(auto)]

use jm_base::{Refusal, Str};
use jm_dest::{ConnectionId, ConsumerId, Destination, Key, Moment, Number, SessionId};
use jm_header::{Body, Draft, Message, Sender, stamp};
use jm_selector::Selector;
use std::alloc::Global;

/// What a message differs in: its text, which is its JMSType too, its priority, and its time to live in milliseconds,
/// where 0 means without end.
pub type Words = (&'static str, u8, i64);

/// The session of that number. `OutOfRange` where it is 0.
pub fn session(number: u32) -> Result<SessionId, Refusal> {
    SessionId::new(ConnectionId::new(1)?, number)
}

/// A draft of those words, with that delivery delay in milliseconds; a want of memory is seen by what is missing.
fn draft(alloc: Global, words: Words, delay: i64) -> Draft {
    let mut draft = Draft::new(alloc);
    let _ = draft.set_text(words.0);
    let _ = draft.set_type(words.0);
    let _ = draft.set_priority(words.1);
    let _ = draft.set_time_to_live(words.2);
    let _ = draft.set_delivery_delay(delay);
    draft
}

/// A message of those words to the topic t, sent at the moment 1000. `OutOfRange` where its expiration is past
/// 9,223,372,036,854,775,807; `Memory` where a request for memory was refused.
pub fn sent(alloc: Global, words: Words) -> Result<Message, Refusal> {
    delayed(alloc, words, 0)
}

/// The same with that delivery delay in milliseconds. `OutOfRange` also where its due moment is past that.
pub fn delayed(alloc: Global, words: Words, delay: i64) -> Result<Message, Refusal> {
    let opening = Number::new(1)?;
    let session = session(1)?;
    let now = Moment::new(1000)?;
    let topic = Destination::topic(alloc, "t")?;
    let sender = Sender { opening, session };
    stamp(draft(alloc, words, delay), topic, sender, 1, now)
}

/// The selector of that text. `InvalidSelector` where the text is refused; `Memory` where a request for memory was refused.
pub fn selector(alloc: Global, text: &str) -> Result<Selector, Refusal> {
    let text = String::from_str(alloc, text)?;
    Selector::read(alloc, &Some(Str::new(text)))
}

/// The key of the consumer, by the numbers of its session and its own. `OutOfRange` where one of them is 0.
pub fn key(of: (u32, u32)) -> Result<Key, Refusal> {
    Ok(Key::Own(session(of.0)?, ConsumerId::new(of.1)?))
}

/// Whether there is a message.
pub fn is_there(message: Option<Message>) -> bool {
    message.is_some()
}

/// Whether the message has that text.
pub fn is_text(message: &Message, text: &str) -> bool {
    match message.body() {
        Body::Text(it) => it.as_str() == text,
        _ => false,
    }
}
