//! What one durable subscription answers alone, and which keys are not unshared.

use crate::runs::replies_of;
use crate::told::is_text;
use jm_base::{Mode, Refusal};
use jm_core::{Core, Reply};
use jm_dest::{ClientId, ConsumerId, Key, SubscriptionName};
use jm_machine::Entry;
use jm_model::{LoneFault, entries, lone_replies};
use std::alloc::{AllocError, Global};
use tests_calls::{Kind, Op, calls, session, shown};

/// What a key is of.
#[derive(Clone, Copy)]
enum Of {
    /// That consumer of session 1 of the connection.
    Own(u32, u32),
    /// The shared non-durable subscription of that name, of no client.
    Shared(&'static str),
    /// The durable subscription of that name, of that client or of none.
    Durable(Option<&'static str>, &'static str),
}

fn client(alloc: Global, client: Option<&str>) -> Result<Option<ClientId>, Refusal> {
    match client {
        Some(client) => Ok(Some(ClientId::new(alloc, client)?)),
        None => Ok(None),
    }
}

fn durable(alloc: Global, of: Option<&str>, name: &str) -> Result<Key, Refusal> {
    let client = client(alloc, of)?;
    Ok(Key::Durable(client, SubscriptionName::new(alloc, name)?))
}

fn key(alloc: Global, of: Of) -> Result<Key, Refusal> {
    match of {
        Of::Own(connection, consumer) => {
            Ok(Key::Own(session(connection)?, ConsumerId::new(consumer)?))
        }
        Of::Shared(name) => Ok(Key::SharedOwn(None, SubscriptionName::new(alloc, name)?)),
        Of::Durable(client, name) => durable(alloc, client, name),
    }
}

fn placed_shown(alloc: Global, replies: &[(usize, Reply)]) -> Result<String, AllocError> {
    let mut text = String::new(alloc);
    for (place, reply) in replies {
        let reply = shown(alloc, reply)?;
        text.push_str(format!(in alloc; "{place} {reply}, ")?.as_str())?;
    }
    Ok(text)
}

/// The record of a run of the calls.
fn record(alloc: Global, core: &mut Core, ops: &[Op]) -> Result<Vec<Entry>, Refusal> {
    let replies = replies_of(alloc, core, ops)?;
    let calls = calls(alloc, ops)?;
    Ok(entries(alloc, core.opening(), &calls, &replies)?)
}

/// What the key's subscription answers alone over the record from a new core, each reply after its place.
fn alone(alloc: Global, record: &[Entry], key: &Key) -> Result<String, AllocError> {
    let Ok(opening) = Core::new(alloc, 1, 100_000) else {
        return Err(AllocError);
    };
    match lone_replies(alloc, &opening, record, key) {
        Ok(replies) => placed_shown(alloc, &replies),
        Err(LoneFault::NotUnshared) => String::from_str(alloc, "not unshared"),
        Err(LoneFault::Memory) => Err(AllocError),
    }
}

fn alone_in(alloc: Global, record: &[Entry], of: Of) -> Result<String, AllocError> {
    match key(alloc, of) {
        Ok(key) => alone(alloc, record, &key),
        Err(_) => Err(AllocError),
    }
}

/// What the key's subscription answers alone over a run of the calls.
fn told(alloc: Global, ops: &[Op], of: Of) -> Result<String, AllocError> {
    let Ok(mut core) = Core::new(alloc, 1, 100_000) else {
        return Err(AllocError);
    };
    match record(alloc, &mut core, ops) {
        Ok(record) => alone_in(alloc, &record, of),
        Err(_) => Err(AllocError),
    }
}

/// A durable subscription with consumers of two sessions, beside a shared non-durable one of the same name.
const RESUMED: [Op; 15] = [
    Op::OpenFor(1, "k"),
    Op::Open(2),
    Op::Session((1, 1), Mode::Transacted),
    Op::Session((2, 1), Mode::Auto),
    Op::Start(1),
    Op::Named((1, 1), 2, Kind::Durable, "n", None),
    Op::Send(2, "a", None),
    Op::Receive((1, 1), 2),
    Op::CloseConsumer((1, 1), 2),
    Op::Session((1, 2), Mode::Auto),
    Op::Named((1, 2), 1, Kind::Durable, "n", None),
    Op::Receive((1, 2), 1),
    Op::Rollback((1, 1)),
    Op::Receive((1, 2), 1),
    Op::Named((2, 1), 1, Kind::Shared, "n", None),
];

/// Two consumers that share a subscription, and one with its own; a shared durable subscription of the client k, and an
/// unshared one, for which a session without a client asks too.
const SHARED: [Op; 19] = [
    Op::OpenFor(1, "k"),
    Op::Open(2),
    Op::Open(3),
    Op::Session((1, 1), Mode::Auto),
    Op::Session((2, 1), Mode::Auto),
    Op::Session((3, 1), Mode::Auto),
    Op::Start(3),
    Op::Named((2, 1), 1, Kind::Shared, "g", None),
    Op::Named((3, 1), 2, Kind::Shared, "g", None),
    Op::Consumer((3, 1), 1, None),
    Op::Named((1, 1), 1, Kind::SharedDurable, "d", None),
    Op::Named((1, 1), 2, Kind::Durable, "n", None),
    Op::Named((2, 1), 2, Kind::SharedDurable, "n", None),
    Op::Send(2, "a", None),
    Op::Send(2, "b", None),
    Op::Receive((3, 1), 1),
    Op::Receive((3, 1), 2),
    Op::Receive((3, 1), 1),
    Op::Unsubscribe((1, 1), "n"),
];

/// Calls of which one, refused, asks for an unshared durable subscription as a shared one.
const ASKED_AS_SHARED: [Op; 4] = [
    Op::OpenFor(1, "k"),
    Op::Session((1, 1), Mode::Auto),
    Op::Named((1, 1), 1, Kind::Durable, "n", None),
    Op::Named((1, 1), 2, Kind::SharedDurable, "n", None),
];

/// Runs, keys, and what the subscription of each answers alone.
static ALONE: [(&[Op], Of, &str); 11] = [
    (
        &RESUMED,
        Of::Durable(Some("k"), "n"),
        "5 ok, 7 a#1, 8 ok, 10 ok, 11 none, 13 a#2, ",
    ),
    (&RESUMED, Of::Durable(Some("k"), "m"), ""),
    (&RESUMED, Of::Durable(Some("l"), "n"), ""),
    (&RESUMED, Of::Durable(None, "n"), "not unshared"),
    (&RESUMED, Of::Shared("n"), "not unshared"),
    (&SHARED, Of::Own(3, 1), "9 ok, 15 a#1, 17 b#1, "),
    (&SHARED, Of::Own(3, 2), "not unshared"),
    (&SHARED, Of::Shared("g"), "not unshared"),
    (&SHARED, Of::Durable(Some("k"), "d"), "not unshared"),
    (
        &SHARED,
        Of::Durable(Some("k"), "n"),
        "11 ok, 18 SubscriptionInUse, ",
    ),
    (
        &ASKED_AS_SHARED,
        Of::Durable(Some("k"), "n"),
        "not unshared",
    ),
];

#[test]
fn subscriptions_alone(rt: HostRuntime) {
    for (ops, of, wanted) in &ALONE {
        is_text(&rt, wanted, told(rt.alloc(), ops, *of));
    }
}
