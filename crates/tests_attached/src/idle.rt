//! How many active consumers subscriptions that have names have, as consumers are made and close.

use crate::keys::{Of, key};
use crate::told::holds_at;
use jm_base::{Mode, Refusal};
use jm_dest::{ConnectionId, ConsumerId, Key};
use jm_machine::Consumer;
use jm_selector::Selector;
use jm_session::{Sessions, Source};
use std::alloc::Global;
use tests_calls::session;

/// What is done in session 1 of a connection.
#[derive(Clone, Copy)]
enum Op {
    Open(u32),
    /// Makes that consumer of a queue.
    Plain(u32, u32),
    /// The same of that key.
    Named(u32, u32, Of),
    CloseConsumer(u32, u32),
    CloseSession(u32),
    CloseConnection(u32),
}

fn open(sessions: &mut Sessions, connection: u32) -> Result<(), Refusal> {
    sessions.open(ConnectionId::new(connection)?, None)?;
    sessions.session(&session(connection)?, Mode::Auto)
}

/// A source of the queue.
fn plain(alloc: Global) -> Result<Source, Refusal> {
    let key = key(alloc, Of::Queue)?;
    match key {
        Key::Queue(name) => Ok(Source::plain(Key::Queue(name), Selector::none(alloc))),
        _ => Err(Refusal::Store),
    }
}

fn named(alloc: Global, of: Of) -> Result<Source, Refusal> {
    Ok(Source::named(alloc, key(alloc, of)?)?)
}

fn create(
    sessions: &mut Sessions,
    connection: u32,
    number: u32,
    source: Source,
) -> Result<(), Refusal> {
    match (session(connection), ConsumerId::new(number)) {
        (Ok(session), Ok(id)) => sessions.consumer(&session, id, source),
        _ => Err(Refusal::OutOfRange),
    }
}

fn make(alloc: Global, sessions: &mut Sessions, op: Op) -> Result<(), Refusal> {
    match op {
        Op::Open(c) => open(sessions, c),
        Op::Plain(c, k) => create(sessions, c, k, plain(alloc)?),
        Op::Named(c, k, of) => create(sessions, c, k, named(alloc, of)?),
        Op::CloseConsumer(c, k) => sessions.close_consumer(&session(c)?, ConsumerId::new(k)?),
        Op::CloseSession(c) => sessions.close_session(&session(c)?),
        Op::CloseConnection(c) => sessions.close_connection(ConnectionId::new(c)?),
    }
}

/// The number of active consumers at the key, where the key is idle exactly where there is none.
fn number_at(sessions: &Sessions, key: &Key) -> Option<u64> {
    let number = sessions.attached().number(key);
    let is_idle = sessions.is_idle(key);
    (is_idle == (number == 0)).then_some(number)
}

fn number(alloc: Global, sessions: &Sessions, of: Of) -> Option<u64> {
    match key(alloc, of) {
        Ok(key) => number_at(sessions, &key),
        Err(_) => None,
    }
}

fn numbers(alloc: Global, sessions: &Sessions) -> [Option<u64>; 2] {
    [
        number(alloc, sessions, Of::Shared),
        number(alloc, sessions, Of::Durable),
    ]
}

/// The same of a copy.
fn numbers_of_copy(alloc: Global, sessions: &Sessions) -> [Option<u64>; 2] {
    match sessions.copy() {
        Ok(copy) => numbers(alloc, &copy),
        Err(_) => [None, None],
    }
}

/// What is done in turn, whether it is accepted, and the numbers at the shared key and at the durable after it.
static CALLS: [(Op, bool, [u64; 2]); 14] = [
    (Op::Open(1), true, [0, 0]),
    (Op::Open(2), true, [0, 0]),
    (Op::Plain(1, 1), true, [0, 0]),
    (Op::Named(1, 2, Of::Shared), true, [1, 0]),
    (Op::Named(2, 1, Of::Shared), true, [2, 0]),
    (Op::Named(2, 2, Of::Durable), true, [2, 1]),
    (Op::Named(2, 2, Of::Shared), false, [2, 1]),
    (Op::Named(1, 3, Of::Shared), true, [3, 1]),
    (Op::CloseConsumer(1, 2), true, [2, 1]),
    (Op::CloseConsumer(1, 2), true, [2, 1]),
    (Op::CloseConsumer(1, 1), true, [2, 1]),
    (Op::CloseSession(1), true, [1, 1]),
    (Op::CloseConsumer(1, 3), true, [1, 1]),
    (Op::CloseConnection(2), true, [0, 0]),
];

/// The first call after which other numbers stand, also in a copy, or how many calls there are.
fn first_other(alloc: Global, sessions: &mut Sessions) -> usize {
    for (row, (op, is_done, wanted)) in CALLS.iter().enumerate() {
        let wanted = [Some(wanted[0]), Some(wanted[1])];
        if make(alloc, sessions, *op).is_ok() != *is_done
            || numbers(alloc, sessions) != wanted
            || numbers_of_copy(alloc, sessions) != wanted
        {
            return row;
        }
    }
    CALLS.len()
}

#[test]
fn consumers_of_names_are_counted(rt: HostRuntime) {
    let mut sessions = Sessions::new(rt.alloc());
    let first_other = first_other(rt.alloc(), &mut sessions);
    holds_at(&rt, first_other, first_other == CALLS.len());
}

/// Makes a consumer of the shared subscription, and closes it where that is said.
fn make_one(alloc: Global, sessions: &mut Sessions, is_closed: bool) -> Result<(), Refusal> {
    make(alloc, sessions, Op::Open(1))?;
    make(alloc, sessions, Op::Named(1, 1, Of::Shared))?;
    if is_closed {
        make(alloc, sessions, Op::CloseConnection(1))?;
    }
    Ok(())
}

/// A copy of that consumer, where it was made.
fn copied(sessions: &Sessions) -> Result<Option<Consumer>, Refusal> {
    let session = session(1)?;
    match sessions.consumer_of(&session, ConsumerId::new(1)?) {
        Some(consumer) => Ok(Some(consumer.copy()?)),
        None => Ok(None),
    }
}

/// The number at the key of the shared subscription where nothing is known but that consumer.
fn number_of_copy(alloc: Global, consumer: Option<Consumer>) -> Option<u64> {
    match Sessions::of_one(alloc, None, None, consumer) {
        Ok(one) => number(alloc, &one, Of::Shared),
        Err(_) => None,
    }
}

/// The same of a consumer that is active, or closed.
fn number_of_one(alloc: Global, is_closed: bool) -> Option<u64> {
    let mut sessions = Sessions::new(alloc);
    let _ = make_one(alloc, &mut sessions, is_closed);
    match copied(&sessions) {
        Ok(consumer) => number_of_copy(alloc, consumer),
        Err(_) => None,
    }
}

#[test]
fn one_consumer_is_counted(rt: HostRuntime) {
    holds_at(&rt, 0, number_of_one(rt.alloc(), false) == Some(1));
    holds_at(&rt, 1, number_of_one(rt.alloc(), true) == Some(0));
}
