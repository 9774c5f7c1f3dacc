//! Looks for connections, sessions and consumers in lists of them. Nothing here takes memory.

ghost use Rattle.std.specs.Prelude.{◌≡◌};
ghost use Rattle.std.specs.Option.{option_copied};
ghost use Rattle.jm_dest.specs.Names.{session_eq};
ghost use Rattle.jm_machine.specs.Life as life;
ghost use Rattle.jm_machine.specs.Machine as machine;

use crate::state::{ConnectionState, Consumer, SessionState};
use jm_base::Mode;
use jm_dest::{ConnectionId, ConsumerId, SessionId};

/// The connection of that number, where it was opened.
pub fn connection_of(connections: &[ConnectionState], id: ConnectionId) -> Option<&ConnectionState>
    ensures { option_copied result ≡ life.connection_of connections.now id }
{
    connections.iter().find(|x| x.id == id)
}

/// Whether both are the same session.
pub fn same_session(a: &SessionId, b: &SessionId) -> bool
    ensures { result ≡ session_eq a.now b.now }
{
    a.connection == b.connection && a.number == b.number
}

/// The session of that number, where it was opened.
pub fn session_of(sessions: &[SessionState], id: &SessionId) -> Option<SessionState>
    ensures { result ≡ life.session_of sessions.now id.now }
{
    sessions.iter().copied().find(|x| same_session(&x.id, id))
}

/// The mode of the session of that number, where it is open.
pub fn mode_of(sessions: &[SessionState], id: &SessionId) -> Option<Mode>
    ensures { result ≡ life.open_mode (life.session_of sessions.now id.now) }
{
    match session_of(sessions, id) {
        Some(session) if session.is_open => Some(session.mode),
        _ => None,
    }
}

/// The session's consumer of that number, where it was made.
pub fn consumer_of<'a>(
    consumers: &'a [Consumer],
    session: &SessionId,
    id: ConsumerId,
) -> Option<&'a Consumer>
    ensures { option_copied result ≡ machine.consumer_of consumers.now session.now id }
{
    consumers
        .iter()
        .find(|x| same_session(&x.session, session) && x.id == id)
}
