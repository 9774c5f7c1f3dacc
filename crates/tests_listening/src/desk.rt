//! Sessions at the queue q.

use jm_client::{Backend, Connection, Consumer, Destination, Error, Mode, Session};
use std::process::Abort;
use std::sync::Wait;
use std::time::Clock;

/// The queue.
pub(crate) fn queue_of<R: Wait + Clock, B: Backend>(
    session: &Session<'_, R, B>,
) -> Result<Destination, Error> {
    session.create_queue("q")
}

/// A consumer of the queue.
pub(crate) fn consumer_of<'p, R: Wait + Clock, B: Backend>(
    session: &Session<'p, R, B>,
) -> Result<Consumer<'p, R, B>, Error> {
    let queue = queue_of(session)?;
    session.create_consumer(&queue, None, false)
}

fn send_one<R: Wait + Clock, B: Backend>(
    session: &mut Session<'_, R, B>,
    queue: &Destination,
) -> Result<(), Error> {
    let draft = session.create_text_message("work")?;
    session.send(queue, draft)?;
    Ok(())
}

/// Sends so many messages to the queue.
fn send_all<R: Wait + Clock, B: Backend>(
    session: &mut Session<'_, R, B>,
    messages: u64,
) -> Result<(), Error> {
    let queue = queue_of(session)?;
    for _ in 0..messages {
        send_one(session, &queue)?;
    }
    Ok(())
}

/// The same by a new session of the connection.
pub(crate) fn send<R: Wait + Clock, B: Backend>(
    connection: &Connection<'_, R, B>,
    messages: u64,
) -> Result<(), Error> {
    let mut session = connection.create_session(Mode::Auto)?;
    send_all(&mut session, messages)
}

/// Asserts that this holds of the row.
pub(crate) fn holds(rt: &impl Abort, row: &str, holds: bool) {
    assert!(rt; holds, "{row}");
}
