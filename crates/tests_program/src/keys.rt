//! Texts of keys.

use crate::told::holds;
use jm_base::Refusal;
use jm_dest::{ClientId, ConnectionId, ConsumerId, Key, SessionId, SubscriptionName};
use jm_scenario::read_key;
use std::alloc::Global;

/// The key of consumer 3 of session 1.2.
fn own() -> Result<Key, Refusal> {
    let session = SessionId::new(ConnectionId::new(1)?, 2)?;
    Ok(Key::Own(session, ConsumerId::new(3)?))
}

/// The key of the durable subscription `n` of the client `k`.
fn durable(alloc: Global) -> Result<Key, Refusal> {
    let client = ClientId::new(alloc, "k")?;
    Ok(Key::Durable(Some(client), SubscriptionName::new(alloc, "n")?))
}

/// Whether the text spells that key; a want of memory is no key.
fn spells(alloc: Global, text: &str, wanted: Result<Key, Refusal>) -> bool {
    match (read_key(alloc, text), wanted) {
        (Ok(Some(key)), Ok(wanted)) => key == wanted,
        _ => false,
    }
}

fn spells_none(alloc: Global, text: &str) -> bool {
    read_key(alloc, text).is_ok_and(|key| key.is_none())
}

/// Texts that spell no key.
static NONE: [&str; 6] = [
    "{\"own\":[1,2]}",
    "{",
    "{\"durable\":[\"n\"]}",
    "{\"durable\":[null,\"n\"]}",
    "{\"durable\":[\"k\",\"\"]}",
    "{\"shared\":[\"k\",\"n\"]}",
];

#[test]
fn texts_of_no_key(rt: HostRuntime) {
    for text in &NONE {
        holds(&rt, text, spells_none(rt.alloc(), text));
    }
}

#[test]
fn keys_of_texts(rt: HostRuntime) {
    let alloc = rt.alloc();
    holds(
        &rt,
        "own",
        spells(alloc, " { \"own\" : [ 1, 2, 3 ] } ", own()),
    );
    let text = "{\"durable\":[\"k\",\"n\"]}";
    holds(&rt, "durable", spells(alloc, text, durable(alloc)));
}
