//! A thread that sends, and one whose listener handles what is sent, through a queue.

use crate::desk::{consumer_of, holds, send};
use jm_client::{
    After, Backend, Connection, Delivery, Error, Listener, ListenerFault, Mode, Provider, Session,
};
use std::alloc::Global;
use std::sync::Wait;
use std::thread;
use std::thread::Threads;
use std::time::{Clock, Duration};

/// How many messages are sent.
const MESSAGES: u64 = 200;

/// How long a listener waits at most for a message, in seconds.
const PATIENCE: u64 = 30;

/// Handles messages that are numbered each one above the one before, and fails with any other.
#[derive(Drop)]
struct InOrder {
    last: u64,
}

impl Listener for InOrder {
    fn on_message(&mut self, delivery: &Delivery) -> Result<After, ListenerFault> {
        let number = delivery.message.number();
        if number.checked_sub(1) == Some(self.last) {
            self.last = number;
            Ok(After::Go)
        } else {
            Err(ListenerFault)
        }
    }
}

/// Sends all messages; whether that was accepted.
fn sends<R: Wait + Clock, B: Backend>(provider: &Provider<'_, R, B>) -> bool {
    match provider.create_connection(None) {
        Ok(connection) => send(&connection, MESSAGES).is_ok(),
        Err(_) => false,
    }
}

/// A session of a connection that is started.
fn open_session<'p, R: Wait + Clock, B: Backend>(
    connection: &Connection<'p, R, B>,
) -> Result<Session<'p, R, B>, Error> {
    connection.start()?;
    connection.create_session(Mode::Auto)
}

/// How many deliveries the session's listener handled, and the number of the last message that came in order.
fn handled<R: Wait + Clock, B: Backend>(
    session: &mut Session<'_, R, B>,
) -> Result<(u64, u64), Error> {
    let consumer = consumer_of(session)?;
    let mut listener = InOrder { last: 0 };
    let patience = Duration::from_secs(PATIENCE);
    let deliveries = session.listen(&consumer, &mut listener, patience, MESSAGES)?;
    Ok((deliveries, listener.last))
}

/// The same of a new connection; none where a call was refused.
fn listens<R: Wait + Clock, B: Backend>(provider: &Provider<'_, R, B>) -> Option<(u64, u64)> {
    match provider.create_connection(None) {
        Ok(connection) => match open_session(&connection) {
            Ok(mut session) => handled(&mut session).ok(),
            Err(_) => None,
        },
        Err(_) => None,
    }
}

/// Sends on another thread, and listens on this one.
fn both<R: Threads + Wait + Clock + Sync>(
    rt: &R,
    provider: &Provider<'_, R>,
) -> (bool, Option<(u64, u64)>) {
    thread::join(rt, || sends(provider), || listens(provider))
}

/// The same over a new provider.
fn both_over<R: Threads + Wait + Clock + Sync>(rt: &R, alloc: Global) -> bool {
    let provider = Provider::in_memory(rt, alloc);
    both(rt, &provider) == (true, Some((MESSAGES, MESSAGES)))
}

#[test]
fn a_listener_handles_what_another_thread_sends(rt: HostRuntime) {
    let handled = both_over(&rt, rt.alloc());
    holds(&rt, "all messages in order", handled);
}
