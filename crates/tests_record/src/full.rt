//! A record with every field that there may be, and its message.

use jm_base::Refusal;
use jm_dest::{ConnectionId, Destination, Moment, Number, SessionId};
use jm_header::{DeliveryMode, Draft, Message, Sender, stamp};
use jm_property::Property;
use jm_shared::SharedStr;
use std::alloc::Global;

/// The bytes: of the fields before the destination's name, of the texts and the body, and of each property.
pub(crate) const RECORD: &[u8; 231] = b"\
\x01\0\0\0\x07\0\0\0\x02\0\0\0\x03\0\0\0\0\0\0\0\x05\0\0\0\0\0\0\x03\xe8\0\0\0\0\0\0\x03\xf2\0\x09\0\
\0\0\0\0\0\0\0\x01q\x01\0\0\0\0\0\0\0\x01c\x01\0\0\0\0\0\0\0\x01t\x02\0\0\0\0\0\0\0\x02\0\xff\
\0\0\0\0\0\0\0\x08\
\0\0\0\0\0\0\0\x01a\x01\x01\
\0\0\0\0\0\0\0\x01b\x02\x80\
\0\0\0\0\0\0\0\x01c\x03\xff\xfe\
\0\0\0\0\0\0\0\x04NULM\x04\x7f\xff\xff\xff\
\0\0\0\0\0\0\0\x01e\x05\x80\0\0\0\0\0\0\0\
\0\0\0\0\0\0\0\x01f\x06\0\0\0\0\0\0\0\x02\xc3\xa9\
\0\0\0\0\0\0\0\x0bJMSXGroupID\x06\0\0\0\0\0\0\0\x01g\
\0\0\0\0\0\0\0\x0cJMSXGroupSeq\x04\0\0\0\x01";

fn session(connection: u32, session: u32) -> Result<SessionId, Refusal> {
    SessionId::new(ConnectionId::new(connection)?, session)
}

/// The session of that number in that connection, in that opening.
pub(crate) fn sender(opening: u32, connection: u32, number: u32) -> Option<Sender> {
    match (Number::new(opening), session(connection, number)) {
        (Ok(opening), Ok(session)) => Some(Sender { opening, session }),
        _ => None,
    }
}

/// The draft sent at moment 1000 as the send of number 5.
pub(crate) fn sent(alloc: Global, draft: Draft) -> Option<Message> {
    match (
        Destination::queue(alloc, "q"),
        sender(7, 2, 3),
        Moment::new(1000),
    ) {
        (Ok(queue), Some(sender), Ok(now)) => stamp(draft, queue, sender, 5, now).ok(),
        _ => None,
    }
}

/// Sets the fields besides the body and the properties; what is refused is seen by what is missing, as in all that follows.
fn set_header(draft: &mut Draft) {
    draft.set_mode(DeliveryMode::NonPersistent);
    let _ = draft.set_priority(9);
    let _ = draft.set_time_to_live(10);
    let _ = draft.set_correlation("c");
    let _ = draft.set_type("t");
}

fn set_numbers(draft: &mut Draft) {
    let _ = draft.set_property("a", Property::Bool(true));
    let _ = draft.set_property("b", Property::Byte(-128));
    let _ = draft.set_property("c", Property::Short(-2));
    let _ = draft.set_property("NULM", Property::Int(2147483647));
    let _ = draft.set_property("e", Property::Long(-9223372036854775808));
}

fn set_text(draft: &mut Draft, alloc: Global, name: &str, text: &str) {
    if let Ok(text) = SharedStr::from_str(alloc, text) {
        let _ = draft.set_property(name, Property::Text(text));
    }
}

fn set_texts(draft: &mut Draft, alloc: Global) {
    set_text(draft, alloc, "f", "\u{e9}");
    set_text(draft, alloc, "JMSXGroupID", "g");
    let _ = draft.set_property("JMSXGroupSeq", Property::Int(1));
}

/// The message.
pub(crate) fn message(alloc: Global) -> Option<Message> {
    let mut draft = Draft::new(alloc);
    set_header(&mut draft);
    let _ = draft.set_bytes(&[0, 0xff]);
    set_numbers(&mut draft);
    set_texts(&mut draft, alloc);
    sent(alloc, draft)
}
