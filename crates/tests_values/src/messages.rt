//! Drafts and messages: stamps, header fields, expiry, delivery delay, and what is read-only.

use crate::told::{holds, is_truth};
use jm_base::{MessageFault, Refusal};
use jm_dest::{ConnectionId, Destination, Moment, Number, SessionId};
use jm_header::{Body, DeliveryMode, Draft, Message, Sender, stamp};
use jm_property::Property;
use jm_shared::SharedStr;
use std::alloc::{AllocError, Global};

/// A send: of a draft, as the session's message of that number, at that moment.
#[derive(Clone, Copy)]
struct Send {
    priority: u8,
    time_to_live: i64,
    delivery_delay: i64,
    number: u64,
    now: i64,
}

const FIRST: Send = Send {
    priority: 4,
    time_to_live: 0,
    delivery_delay: 0,
    number: 1,
    now: 1000,
};

fn sender() -> Result<Sender, Refusal> {
    Ok(Sender {
        opening: Number::new(1)?,
        session: SessionId::new(ConnectionId::new(2)?, 1)?,
    })
}

fn set(draft: &mut Draft, send: Send) -> Result<(), Refusal> {
    draft.set_priority(send.priority)?;
    draft.set_time_to_live(send.time_to_live)?;
    draft.set_delivery_delay(send.delivery_delay)
}

/// A message. It is dropped by one call, so that a function with several ways out does not drop a message, field by
/// field, on each.
struct HeldMessage {
    message: Message,
}

impl Drop for HeldMessage {
    fn drop(self) {
        let HeldMessage { message: _message } = self;
    }
}

impl HeldMessage {
    fn into_draft(self) -> Draft {
        let HeldMessage { message } = self;
        message.into_draft()
    }

    fn copy(&self) -> Result<HeldMessage, AllocError> {
        match self.message.copy() {
            Ok(message) => Ok(HeldMessage { message }),
            Err(error) => Err(error),
        }
    }
}

/// What a message is stamped with, besides its number.
type Stamp = (Destination, Sender, Moment);

fn stamp_at(alloc: Global, now: i64) -> Result<Stamp, Refusal> {
    let (sender, now) = (sender()?, Moment::new(now)?);
    Ok((Destination::topic(alloc, "t")?, sender, now))
}

fn stamped(draft: Draft, with: Stamp, number: u64) -> Result<HeldMessage, Refusal> {
    let (topic, sender, now) = with;
    match stamp(draft, topic, sender, number, now) {
        Ok(message) => Ok(HeldMessage { message }),
        Err(refusal) => Err(refusal),
    }
}

fn sent(alloc: Global, send: Send) -> Result<HeldMessage, Refusal> {
    let with = stamp_at(alloc, send.now)?;
    let mut draft = Draft::new(alloc);
    let is_set = set(&mut draft, send);
    let sent = stamped(draft, with, send.number)?;
    match is_set {
        Ok(()) => Ok(sent),
        Err(refusal) => Err(refusal),
    }
}

/// The priority, the number, the timestamp, the expiration and the delivery time.
fn numbers(message: &Message) -> [u64; 5] {
    [
        u64::from(message.priority()),
        message.number(),
        message.timestamp().get(),
        message.expiration().get(),
        message.delivery_time().get(),
    ]
}

fn numbers_of(alloc: Global, send: Send) -> Result<[u64; 5], Refusal> {
    match sent(alloc, send) {
        Ok(sent) => Ok(numbers(&sent.message)),
        Err(refusal) => Err(refusal),
    }
}

const LAST: u64 = 9223372036854775807;

/// Sends, and the priority, the number, the timestamp, the expiration and the delivery time of each.
static SENDS: [(Send, Result<[u64; 5], Refusal>); 15] = [
    (FIRST, Ok([4, 1, 1000, 0, 1000])),
    (
        Send {
            priority: 0,
            ..FIRST
        },
        Ok([0, 1, 1000, 0, 1000]),
    ),
    (
        Send {
            priority: 9,
            ..FIRST
        },
        Ok([9, 1, 1000, 0, 1000]),
    ),
    (
        Send {
            priority: 10,
            ..FIRST
        },
        Err(Refusal::OutOfRange),
    ),
    (Send { number: 0, ..FIRST }, Err(Refusal::OutOfRange)),
    (
        Send {
            number: LAST,
            time_to_live: 5,
            ..FIRST
        },
        Ok([4, LAST, 1000, 1005, 1000]),
    ),
    (
        Send {
            number: 9223372036854775808,
            ..FIRST
        },
        Err(Refusal::OutOfRange),
    ),
    (
        Send {
            now: i64::MAX,
            ..FIRST
        },
        Ok([4, 1, LAST, 0, LAST]),
    ),
    (
        Send {
            now: i64::MAX,
            time_to_live: 1,
            ..FIRST
        },
        Err(Refusal::OutOfRange),
    ),
    (
        Send {
            time_to_live: -1,
            ..FIRST
        },
        Err(Refusal::OutOfRange),
    ),
    (
        Send {
            delivery_delay: 500,
            ..FIRST
        },
        Ok([4, 1, 1000, 0, 1500]),
    ),
    (
        Send {
            time_to_live: 600,
            delivery_delay: 500,
            ..FIRST
        },
        Ok([4, 1, 1000, 1600, 1500]),
    ),
    (
        Send {
            now: i64::MAX - 1,
            delivery_delay: 1,
            ..FIRST
        },
        Ok([4, 1, LAST - 1, 0, LAST]),
    ),
    (
        Send {
            now: i64::MAX,
            delivery_delay: 1,
            ..FIRST
        },
        Err(Refusal::OutOfRange),
    ),
    (
        Send {
            delivery_delay: -1,
            ..FIRST
        },
        Err(Refusal::OutOfRange),
    ),
];

#[test]
fn stamps_at_the_limits(rt: HostRuntime) {
    for (send, wanted) in &SENDS {
        holds(&rt, "a send", numbers_of(rt.alloc(), *send) == *wanted);
    }
}

/// Whether a message that is sent at 1000 is expired at that moment.
fn is_expired(alloc: Global, time_to_live: i64, now: i64) -> Result<bool, Refusal> {
    let now = Moment::new(now)?;
    match sent(
        alloc,
        Send {
            time_to_live,
            ..FIRST
        },
    ) {
        Ok(sent) => Ok(sent.message.expired(now)),
        Err(refusal) => Err(refusal),
    }
}

/// Times to live, moments, and whether a message is expired then.
static EXPIRIES: [(&str, i64, i64, Result<bool, Refusal>); 4] = [
    ("500 at 1499", 500, 1499, Ok(false)),
    ("500 at 1500", 500, 1500, Ok(true)),
    ("500 at 1400", 500, 1400, Ok(false)),
    ("0 at the last", 0, i64::MAX, Ok(false)),
];

#[test]
fn expiry(rt: HostRuntime) {
    for (row, time_to_live, now, wanted) in &EXPIRIES {
        let is_expired = is_expired(rt.alloc(), *time_to_live, *now);
        is_truth(&rt, row, wanted, is_expired);
    }
}

/// Whether a message that is sent at 1000 is held back at that moment.
fn is_held_back(alloc: Global, delivery_delay: i64, now: i64) -> Result<bool, Refusal> {
    let now = Moment::new(now)?;
    match sent(
        alloc,
        Send {
            delivery_delay,
            ..FIRST
        },
    ) {
        Ok(sent) => Ok(sent.message.held_back(now)),
        Err(refusal) => Err(refusal),
    }
}

/// Delivery delays, moments, and whether a message is held back then.
static DELAYS: [(&str, i64, i64, Result<bool, Refusal>); 5] = [
    ("500 at 900", 500, 900, Ok(true)),
    ("500 at 1499", 500, 1499, Ok(true)),
    ("500 at 1500", 500, 1500, Ok(false)),
    ("0 at 900", 0, 900, Ok(false)),
    ("1 at 1000", 1, 1000, Ok(true)),
];

#[test]
fn delivery_delay(rt: HostRuntime) {
    for (row, delivery_delay, now, wanted) in &DELAYS {
        let is_held_back = is_held_back(rt.alloc(), *delivery_delay, *now);
        is_truth(&rt, row, wanted, is_held_back);
    }
}

fn has_default_fields(message: &Message) -> bool {
    message.mode() == DeliveryMode::Persistent
        && message.correlation().is_none()
        && message.message_type().is_none()
        && message.properties().is_empty()
        && !message.is_delayed()
}

#[test]
fn defaults_are_stamped(rt: HostRuntime) {
    let has_defaults = match sent(rt.alloc(), FIRST) {
        Ok(sent) => has_default_fields(&sent.message),
        Err(_) => false,
    };
    holds(&rt, "defaults", has_defaults);
}

/// Sets the fields that a text or bytes make; a want of memory is seen by what is missing.
fn fill(draft: &mut Draft) {
    draft.set_mode(DeliveryMode::NonPersistent);
    let _ = draft.set_correlation("request 1");
    let _ = draft.set_type("order");
    let _ = draft.set_bytes(&[0, 255]);
}

fn add_properties(draft: &mut Draft) {
    let _ = draft.set_property("x", Property::Long(1));
    let _ = draft.properties_mut().set("y", Property::Bool(true));
}

fn order(alloc: Global) -> Result<HeldMessage, Refusal> {
    let with = stamp_at(alloc, 1000)?;
    let mut draft = Draft::new(alloc);
    fill(&mut draft);
    add_properties(&mut draft);
    stamped(draft, with, 1)
}

fn is_text(text: Option<&SharedStr>, wanted: &str) -> bool {
    match text {
        Some(text) => text.as_str() == wanted,
        None => false,
    }
}

fn is_bytes(body: &Body, wanted: &[u8]) -> bool {
    match body {
        Body::Bytes(bytes) => bytes.as_bytes() == wanted,
        _ => false,
    }
}

fn is_order(message: &Message) -> bool {
    is_text(message.correlation(), "request 1")
        && is_text(message.message_type(), "order")
        && is_bytes(message.body(), &[0, 255])
        && message.properties().len() == 2
}

#[test]
fn fields_are_as_they_were_set(rt: HostRuntime) {
    let is_kept = match order(rt.alloc()) {
        Ok(order) => is_order(&order.message),
        Err(_) => false,
    };
    holds(&rt, "an order", is_kept);
}

/// The fault of each kind of write to the message: of a text, of bytes and of a property.
fn writes(message: &mut Message) -> [Option<MessageFault>; 3] {
    let text = message.set_text("a").err();
    let bytes = message.set_bytes(&[1]).err();
    let property = message.set_property("x", Property::Long(2)).err();
    [text, bytes, property]
}

static WRITTEN: [Option<MessageFault>; 3] = [None; 3];

static REFUSED: [Option<MessageFault>; 3] = [Some(MessageFault::NotWriteable); 3];

/// Whether the message can be written, not when it is protected, and again when it is cleared.
fn is_protected(message: &mut Message) -> bool {
    let is_written = writes(message) == WRITTEN;
    message.protect();
    let is_refused = writes(message) == REFUSED;
    message.clear_body();
    message.clear_properties();
    let is_cleared = *message.body() == Body::None && message.properties().is_empty();
    is_written && is_refused && is_cleared && writes(message) == WRITTEN
}

#[test]
fn properties_and_writes(rt: HostRuntime) {
    let is_protected = match order(rt.alloc()) {
        Ok(mut order) => is_protected(&mut order.message) && is_bytes(order.message.body(), &[1]),
        Err(_) => false,
    };
    holds(&rt, "an order", is_protected);
}

/// Whether the copy is the same, and not when it is protected.
fn is_same(copy: &mut Message, message: &Message) -> bool {
    let is_same = copy.is(message);
    copy.protect();
    is_same && !copy.is(message)
}

fn is_copied(order: &HeldMessage) -> bool {
    match order.copy() {
        Ok(mut copy) => is_same(&mut copy.message, &order.message),
        Err(_) => false,
    }
}

#[test]
fn copies_are_equal(rt: HostRuntime) {
    let is_copied = match order(rt.alloc()) {
        Ok(order) => is_copied(&order),
        Err(_) => false,
    };
    holds(&rt, "an order", is_copied);
}

/// The numbers of what is sent again at 2000, from a message that was sent with a time to live and a delivery delay.
fn sent_again(alloc: Global) -> Result<[u64; 5], Refusal> {
    let with = stamp_at(alloc, 2000)?;
    let first = sent(
        alloc,
        Send {
            time_to_live: 600,
            delivery_delay: 500,
            ..FIRST
        },
    );
    match first {
        Ok(first) => second_of(first, with),
        Err(refusal) => Err(refusal),
    }
}

fn second_of(first: HeldMessage, with: Stamp) -> Result<[u64; 5], Refusal> {
    match stamped(first.into_draft(), with, 2) {
        Ok(second) => Ok(numbers(&second.message)),
        Err(refusal) => Err(refusal),
    }
}

#[test]
fn a_draft_of_a_message_has_no_delay(rt: HostRuntime) {
    holds(
        &rt,
        "sent again",
        sent_again(rt.alloc()) == Ok([4, 2, 2000, 0, 2000]),
    );
}

/// Whether a copy of the draft equals it.
fn draft_is_copied(draft: &Draft) -> bool {
    match draft.copy() {
        Ok(copy) => copy == *draft,
        Err(_) => false,
    }
}

/// The same of the draft of a message with another text.
fn becomes_a_draft(order: HeldMessage) -> bool {
    let mut draft = order.into_draft();
    let _ = draft.set_text("b");
    draft_is_copied(&draft)
}

#[test]
fn a_message_becomes_a_draft(rt: HostRuntime) {
    let is_draft = match order(rt.alloc()) {
        Ok(order) => becomes_a_draft(order),
        Err(_) => false,
    };
    holds(&rt, "an order", is_draft);
}
