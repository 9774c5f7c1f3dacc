//! What is known of the connections, sessions and consumers, by their lists.

ghost use Rattle.std.specs.Prelude.{◌≡◌, ◌&&◌, is_some, not, if◌then◌else◌};
ghost use Rattle.std.specs.List.{list_any};
ghost use Rattle.jm_machine.specs.Life as life;
ghost use Rattle.jm_machine.specs.Life.{connection_of as connection_at, session_of as session_at};
ghost use Rattle.jm_machine.specs.Machine as machine;

use jm_dest::{ConnectionId, ConsumerId, SessionId};
use jm_machine::find::{connection_of, consumer_of, mode_of, session_of};
use jm_machine::{ConnectionState, Consumer, SessionState};

/// Whether the connection of that number is open.
pub(crate) fn is_open(connections: &[ConnectionState], id: ConnectionId) -> bool
    ensures { result ≡ life.is_open_connection (connection_at connections.now id) }
{
    match connection_of(connections, id) {
        Some(connection) => connection.is_open,
        None => false,
    }
}

/// Whether the connection of that number was opened, and is closed.
pub(crate) fn is_closed(connections: &[ConnectionState], id: ConnectionId) -> bool
    ensures { result ≡ life.is_closed_connection (connection_at connections.now id) }
{
    match connection_of(connections, id) {
        Some(connection) => !connection.is_open,
        None => false,
    }
}

/// Whether the connection of that number is started.
pub(crate) fn is_started(connections: &[ConnectionState], id: ConnectionId) -> bool
    ensures { result ≡ life.is_started_connection (connection_at connections.now id) }
{
    match connection_of(connections, id) {
        Some(connection) => connection.is_started,
        None => false,
    }
}

/// Whether the connection of that number was opened for a client.
pub(crate) fn has_client(connections: &[ConnectionState], id: ConnectionId) -> bool
    ensures { result ≡ is_some (life.client_at (connection_at connections.now id)) }
{
    match connection_of(connections, id) {
        Some(connection) => connection.client.is_some(),
        None => false,
    }
}

/// Whether the session may be opened: its connection is open, and its number was not used.
pub(crate) fn is_new_session(
    connections: &[ConnectionState],
    sessions: &[SessionState],
    id: &SessionId,
) -> bool
    ensures { result ≡ life.is_new_session (record { connections = connections.now; sessions = sessions.now }) id.now }
{
    is_open(connections, id.connection) && session_of(sessions, id).is_none()
}

/// Whether the session may be closed: it was opened, or its connection is closed.
pub(crate) fn may_close_session(
    connections: &[ConnectionState],
    sessions: &[SessionState],
    id: &SessionId,
) -> bool
    ensures { result ≡ machine.may_close_session (record { connections = connections.now; sessions = sessions.now }) id.now }
{
    session_of(sessions, id).is_some() || is_closed(connections, id.connection)
}

/// Whether the session is open, and has no consumer of that number yet.
pub(crate) fn may_begin(
    sessions: &[SessionState],
    consumers: &[Consumer],
    session: &SessionId,
    id: ConsumerId,
) -> bool
    ensures { result ≡ (is_some (life.open_mode (session_at sessions.now session.now)) && not (is_some (machine.consumer_of consumers.now session.now id))) }
{
    mode_of(sessions, session).is_some() && consumer_of(consumers, session, id).is_none()
}

/// Whether the session's consumer of that number is active.
pub(crate) fn is_active(consumers: &[Consumer], session: &SessionId, id: ConsumerId) -> bool
    ensures { result ≡ machine.is_active (machine.consumer_of consumers.now session.now id) }
{
    match consumer_of(consumers, session, id) {
        Some(consumer) => consumer.is_active,
        None => false,
    }
}

/// Whether the session's consumer of that number listens: it is active, and its listener was set.
pub(crate) fn is_listening(consumers: &[Consumer], session: &SessionId, id: ConsumerId) -> bool
    ensures { result ≡ machine.is_listening (machine.consumer_of consumers.now session.now id) }
{
    match consumer_of(consumers, session, id) {
        Some(consumer) => consumer.is_active && consumer.is_listening,
        None => false,
    }
}

/// Whether the session's consumer of that number is busy: it is active, and its listener is not done with a message.
pub(crate) fn is_busy(consumers: &[Consumer], session: &SessionId, id: ConsumerId) -> bool
    ensures { result ≡ machine.is_busy (machine.consumer_of consumers.now session.now id) }
{
    match consumer_of(consumers, session, id) {
        Some(consumer) => consumer.is_active && consumer.is_busy,
        None => false,
    }
}

/// Whether the consumer of that number may be closed: the session is open and has it, and it is not busy, or the session is
/// closed.
pub(crate) fn may_close_consumer(
    sessions: &[SessionState],
    consumers: &[Consumer],
    session: &SessionId,
    id: ConsumerId,
) -> bool
    ensures { result ≡ (if is_some (life.open_mode (session_at sessions.now session.now))
        then is_some (machine.consumer_of consumers.now session.now id) && not (machine.is_busy (machine.consumer_of consumers.now session.now id))
        else is_some (session_at sessions.now session.now)) }
{
    match session_of(sessions, session) {
        Some(state) if state.is_open => {
            consumer_of(consumers, session, id).is_some() && !is_busy(consumers, session, id)
        }
        Some(_) => true,
        None => false,
    }
}

/// Whether one of the consumers is active.
pub(crate) fn is_used(consumers: &[Consumer]) -> bool
    ensures { result ≡ list_any (λ x. x.is_active) consumers.now }
{
    consumers.iter().any(|x| x.is_active)
}
