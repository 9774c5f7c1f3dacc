//! The same call by another connection.

use tests_calls::{Numbers, Op};

fn on(numbers: Numbers, by: u32) -> Numbers {
    (raised(numbers.0, by), numbers.1)
}

fn raised(connection: u32, by: u32) -> u32 {
    connection.saturating_add(by)
}

/// The same call, whose connection has a number that is higher by so much.
pub(crate) fn moved(op: Op, by: u32) -> Op {
    match op {
        Op::Open(c) => Op::Open(raised(c, by)),
        Op::OpenFor(c, client) => Op::OpenFor(raised(c, by), client),
        Op::Start(c) => Op::Start(raised(c, by)),
        Op::Stop(c) => Op::Stop(raised(c, by)),
        Op::CloseConnection(c) => Op::CloseConnection(raised(c, by)),
        Op::Send(c, text, x) => Op::Send(raised(c, by), text, x),
        Op::SendTo(c, at, text, x) => Op::SendTo(raised(c, by), at, text, x),
        Op::SendAt(c, text, now, ttl) => Op::SendAt(raised(c, by), text, now, ttl),
        Op::SendDelayed(c, at, text, delay, x) => {
            Op::SendDelayed(raised(c, by), at, text, delay, x)
        }
        _ => moved_session(op, by),
    }
}

/// The same of a session's call but a send.
fn moved_session(op: Op, by: u32) -> Op {
    match op {
        Op::Session(s, mode) => Op::Session(on(s, by), mode),
        Op::CloseSession(s) => Op::CloseSession(on(s, by)),
        Op::Consumer(s, k, text) => Op::Consumer(on(s, by), k, text),
        Op::ConsumerAt(s, k, at, text, others) => Op::ConsumerAt(on(s, by), k, at, text, others),
        Op::Named(s, k, kind, name, text) => Op::Named(on(s, by), k, kind, name, text),
        Op::NamedAt(s, k, kind, at, name, text) => Op::NamedAt(on(s, by), k, kind, at, name, text),
        Op::CloseConsumer(s, k) => Op::CloseConsumer(on(s, by), k),
        Op::Unsubscribe(s, name) => Op::Unsubscribe(on(s, by), name),
        Op::Receive(s, k) => Op::Receive(on(s, by), k),
        Op::ReceiveAt(s, k, now) => Op::ReceiveAt(on(s, by), k, now),
        Op::Listener(s, k, is_on) => Op::Listener(on(s, by), k, is_on),
        Op::Take(s, k) => Op::Take(on(s, by), k),
        Op::TakeAt(s, k, now) => Op::TakeAt(on(s, by), k, now),
        Op::Done(s, k, ok) => Op::Done(on(s, by), k, ok),
        Op::Acknowledge(s) => Op::Acknowledge(on(s, by)),
        Op::Recover(s) => Op::Recover(on(s, by)),
        Op::Rollback(s) => Op::Rollback(on(s, by)),
        Op::Commit(s) => Op::Commit(on(s, by)),
        Op::Missed(s, k) => Op::Missed(on(s, by), k),
        _ => op,
    }
}
