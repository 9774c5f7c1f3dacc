//! Names, numbers, moments, destinations and keys, within their limits and past them.

use crate::told::{is_number, is_truth};
use jm_base::Refusal;
use jm_dest::{
    ClientId, ConnectionId, ConsumerId, Destination, Key, Moment, Name, Number, SessionId,
    SubscriptionName,
};
use std::alloc::Global;

/// Whether a copy of the name has the text.
fn is_copied_name(name: &Name, text: &str) -> bool {
    match name.copy() {
        Ok(copy) => copy.as_str() == text,
        Err(_) => false,
    }
}

fn is_copied_client(client: &ClientId, text: &str) -> bool {
    match client.copy() {
        Ok(copy) => copy.as_str() == text,
        Err(_) => false,
    }
}

fn is_copied_subscription(name: &SubscriptionName, text: &str) -> bool {
    match name.copy() {
        Ok(copy) => copy.as_str() == text,
        Err(_) => false,
    }
}

/// Whether the text is a name of which a copy has the text.
fn is_name(alloc: Global, text: &str) -> Result<bool, Refusal> {
    match Name::new(alloc, text) {
        Ok(name) => Ok(is_copied_name(&name, text)),
        Err(refusal) => Err(refusal),
    }
}

fn is_client(alloc: Global, text: &str) -> Result<bool, Refusal> {
    match ClientId::new(alloc, text) {
        Ok(client) => Ok(is_copied_client(&client, text)),
        Err(refusal) => Err(refusal),
    }
}

fn is_subscription(alloc: Global, text: &str) -> Result<bool, Refusal> {
    match SubscriptionName::new(alloc, text) {
        Ok(name) => Ok(is_copied_subscription(&name, text)),
        Err(refusal) => Err(refusal),
    }
}

/// Texts, and whether each is a name, a client identifier and a name of a subscription.
static NAMES: [(&str, Result<bool, Refusal>); 10] = [
    ("a", Ok(true)),
    (" ", Ok(true)),
    ("queue/1", Ok(true)),
    ("\u{e4}", Ok(true)),
    ("~", Ok(true)),
    ("{name}", Ok(true)),
    ("", Err(Refusal::BadName)),
    ("a\u{1f}", Err(Refusal::BadName)),
    ("\u{7f}", Err(Refusal::BadName)),
    ("line\nbreak", Err(Refusal::BadName)),
];

#[test]
fn names(rt: HostRuntime) {
    for (text, wanted) in &NAMES {
        is_truth(&rt, text, wanted, is_name(rt.alloc(), text));
        is_truth(&rt, text, wanted, is_client(rt.alloc(), text));
        is_truth(&rt, text, wanted, is_subscription(rt.alloc(), text));
    }
}

/// Whether so many letters are a name.
fn is_long_name(alloc: Global, count: usize) -> Result<bool, Refusal> {
    match "a".repeat(alloc, count) {
        Ok(text) => is_name(alloc, text.as_str()),
        Err(_) => Err(Refusal::Memory),
    }
}

#[test]
fn long_names(rt: HostRuntime) {
    let last = is_long_name(rt.alloc(), 255);
    is_truth(&rt, "255 letters", &Ok(true), last);
    let past = is_long_name(rt.alloc(), 256);
    is_truth(&rt, "256 letters", &Err(Refusal::BadName), past);
}

fn session(number: u32) -> Result<u64, Refusal> {
    let session = SessionId::new(ConnectionId::new(4294967295)?, number)?;
    Ok(u64::from(session.number.get()))
}

fn connection(number: u32) -> Result<u64, Refusal> {
    Ok(u64::from(ConnectionId::new(number)?.get()))
}

fn consumer(number: u32) -> Result<u64, Refusal> {
    Ok(u64::from(ConsumerId::new(number)?.get()))
}

fn number(number: u32) -> Result<u64, Refusal> {
    Ok(u64::from(Number::new(number)?.get()))
}

/// Numbers, and what each kind of number answers.
static NUMBERS: [(u32, Result<u64, Refusal>); 4] = [
    (0, Err(Refusal::OutOfRange)),
    (1, Ok(1)),
    (2, Ok(2)),
    (4294967295, Ok(4294967295)),
];

#[test]
fn numbers_from_one(rt: HostRuntime) {
    for (given, wanted) in &NUMBERS {
        is_number(&rt, "a number", wanted, number(*given));
        is_number(&rt, "a connection", wanted, connection(*given));
        is_number(&rt, "a consumer", wanted, consumer(*given));
        is_number(&rt, "a session", wanted, session(*given));
    }
}

/// Milliseconds, and the moments of them.
static MOMENTS: [(i64, Result<u64, Refusal>); 3] = [
    (-1, Err(Refusal::OutOfRange)),
    (0, Ok(0)),
    (i64::MAX, Ok(9223372036854775807)),
];

fn moment(milliseconds: i64) -> Result<u64, Refusal> {
    Ok(Moment::new(milliseconds)?.get())
}

#[test]
fn moments_from_zero(rt: HostRuntime) {
    for (given, wanted) in &MOMENTS {
        is_number(&rt, "a moment", wanted, moment(*given));
    }
}

/// Whether a copy of the one is the other.
fn is_destination(one: &Destination, other: &Destination) -> bool {
    match one.copy() {
        Ok(copy) => copy == *other,
        Err(_) => false,
    }
}

/// Whether a copy of the queue equals it, and the topic of that name does not.
fn is_no_topic(alloc: Global, queue: &Destination, name: &str) -> Result<bool, Refusal> {
    match Destination::topic(alloc, name) {
        Ok(topic) => Ok(is_destination(queue, queue) && !is_destination(&topic, queue)),
        Err(refusal) => Err(refusal),
    }
}

/// The same of the queue of that name.
fn is_told_apart(alloc: Global, name: &str) -> Result<bool, Refusal> {
    match Destination::queue(alloc, name) {
        Ok(queue) => is_no_topic(alloc, &queue, name),
        Err(refusal) => Err(refusal),
    }
}

#[test]
fn destinations_are_told_apart(rt: HostRuntime) {
    let named = is_told_apart(rt.alloc(), "a");
    is_truth(&rt, "a", &Ok(true), named);
    let not_named = is_told_apart(rt.alloc(), "");
    is_truth(&rt, "", &Err(Refusal::BadName), not_named);
}

fn own_key() -> Result<Key, Refusal> {
    let session = SessionId::new(ConnectionId::new(1)?, 1)?;
    Ok(Key::Own(session, ConsumerId::new(1)?))
}

fn client(alloc: Global, is_named: bool) -> Result<Option<ClientId>, Refusal> {
    match is_named {
        true => Ok(Some(ClientId::new(alloc, "client")?)),
        false => Ok(None),
    }
}

fn shared_key(alloc: Global, client: Option<ClientId>) -> Result<Key, Refusal> {
    match SubscriptionName::new(alloc, "name") {
        Ok(name) => Ok(Key::SharedOwn(client, name)),
        Err(refusal) => Err(refusal),
    }
}

fn durable_key(alloc: Global, client: Option<ClientId>) -> Result<Key, Refusal> {
    match SubscriptionName::new(alloc, "name") {
        Ok(name) => Ok(Key::Durable(client, name)),
        Err(refusal) => Err(refusal),
    }
}

/// One of six keys, that differ in their family or their client.
fn key(alloc: Global, index: u32) -> Result<Key, Refusal> {
    match index {
        0 => Ok(Key::Queue(Name::new(alloc, "name")?)),
        1 => own_key(),
        2 | 3 => shared_key(alloc, client(alloc, index == 3)?),
        _ => durable_key(alloc, client(alloc, index == 5)?),
    }
}

/// A key. It is dropped by one call, so that a function with several ways out does not drop a key, variant by variant,
/// on each.
struct HeldKey {
    key: Key,
}

impl Drop for HeldKey {
    fn drop(self) {
        let HeldKey { key: _key } = self;
    }
}

fn held(alloc: Global, index: u32) -> Result<HeldKey, Refusal> {
    match key(alloc, index) {
        Ok(key) => Ok(HeldKey { key }),
        Err(refusal) => Err(refusal),
    }
}

fn copied(held: &HeldKey) -> Result<HeldKey, Refusal> {
    match held.key.copy() {
        Ok(key) => Ok(HeldKey { key }),
        Err(_) => Err(Refusal::Memory),
    }
}

/// Whether a copy of one key is the other.
fn is_key(alloc: Global, one: u32, other: u32) -> Result<bool, Refusal> {
    let copy = copied(&held(alloc, one)?)?;
    let other = held(alloc, other)?;
    Ok(copy.key.is(&other.key))
}

#[test]
fn keys_are_told_apart(rt: HostRuntime) {
    for one in 0..6 {
        for other in 0..6 {
            let is_same = is_key(rt.alloc(), one, other);
            is_truth(&rt, "keys", &Ok(one == other), is_same);
        }
    }
}
