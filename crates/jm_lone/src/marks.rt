//! What is started, stopped or closed stays known: it is marked where it stands.

ghost use Rattle.std.specs.Prelude.{◌≡◌, map};
ghost use Rattle.jm_machine.specs.Life as life;
ghost use Rattle.jm_machine.specs.Machine as machine;
ghost use Rattle.jm_lone.specs.Sessions.{is_on, is_session};

use jm_dest::{ConnectionId, ConsumerId, SessionId};
use jm_machine::find::same_session;
use jm_machine::{ConnectionState, Consumer, Consumers, SessionState};

fn mark_started(connection: &mut ConnectionState, id: ConnectionId, is_started: bool)
    ensures { connection.new ≡ life.started_if id is_started connection.old }
{
    if connection.id == id {
        connection.is_started = is_started;
    }
}

/// The connection of that number is started or stopped, where it was opened.
pub(crate) fn set_started(connections: &mut [ConnectionState], id: ConnectionId, is_started: bool)
    ensures { connections.new ≡ life.with_started id is_started connections.old }
{
    for connection in connections.iter_mut() {
        mark_started(connection, id, is_started);
    }
}

fn mark_closed(connection: &mut ConnectionState, id: ConnectionId)
    ensures { connection.new ≡ life.closed_if id connection.old }
{
    if connection.id == id {
        connection.client = None;
        connection.is_started = false;
        connection.is_open = false;
    }
}

/// The connection of that number is closed, where it was opened.
pub(crate) fn close_connection(connections: &mut [ConnectionState], id: ConnectionId)
    ensures { connections.new ≡ map (life.closed_if id) connections.old }
{
    for connection in connections.iter_mut() {
        mark_closed(connection, id);
    }
}

fn close_on(session: &mut SessionState, connection: ConnectionId)
    ensures { session.new ≡ life.closed_where (is_on connection) session.old }
{
    if session.id.connection == connection {
        session.is_open = false;
    }
}

/// The sessions of the connection are closed.
pub(crate) fn close_sessions_of(sessions: &mut [SessionState], connection: ConnectionId)
    ensures { sessions.new ≡ life.close_sessions (is_on connection) sessions.old }
{
    for session in sessions.iter_mut() {
        close_on(session, connection);
    }
}

fn close_if(session: &mut SessionState, id: &SessionId)
    ensures { session.new ≡ life.closed_where (is_session id.now) session.old }
{
    if same_session(&session.id, id) {
        session.is_open = false;
    }
}

/// The session of that number is closed, where it was opened.
pub(crate) fn close_session(sessions: &mut [SessionState], id: &SessionId)
    ensures { sessions.new ≡ life.close_sessions (is_session id.now) sessions.old }
{
    for session in sessions.iter_mut() {
        close_if(session, id);
    }
}

fn close_among(consumer: &mut Consumer, which: &Consumers)
    ensures { consumer.new ≡ machine.closed_consumer (machine.are_meant which.now) consumer.old }
{
    if which.include(&consumer.session, consumer.id) {
        consumer.close();
    }
}

/// The consumers that are meant are closed.
pub(crate) fn close_consumers(consumers: &mut [Consumer], which: &Consumers)
    ensures { consumers.new ≡ map (machine.closed_consumer (machine.are_meant which.now)) consumers.old }
{
    for consumer in consumers.iter_mut() {
        close_among(consumer, which);
    }
}

fn mark_listening(consumer: &mut Consumer, session: &SessionId, id: ConsumerId, on: bool)
    ensures { consumer.new ≡ machine.listening_if session.now id on consumer.old }
{
    if same_session(&consumer.session, session) && consumer.id == id {
        consumer.is_listening = on;
    }
}

/// The session's consumer of that number has that mark of its listener, where it was made.
pub(crate) fn set_listening(
    consumers: &mut [Consumer],
    session: &SessionId,
    id: ConsumerId,
    on: bool,
)
    ensures { consumers.new ≡ machine.set_listening session.now id on consumers.old }
{
    for consumer in consumers.iter_mut() {
        mark_listening(consumer, session, id, on);
    }
}

fn mark_busy(consumer: &mut Consumer, session: &SessionId, id: ConsumerId, on: bool)
    ensures { consumer.new ≡ machine.busy_if session.now id on consumer.old }
{
    if same_session(&consumer.session, session) && consumer.id == id {
        consumer.is_busy = on;
    }
}

/// The session's consumer of that number is busy, or not, where it was made.
pub(crate) fn set_busy(consumers: &mut [Consumer], session: &SessionId, id: ConsumerId, on: bool)
    ensures { consumers.new ≡ machine.set_busy session.now id on consumers.old }
{
    for consumer in consumers.iter_mut() {
        mark_busy(consumer, session, id, on);
    }
}
