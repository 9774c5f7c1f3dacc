//! What requests mean for sessions.

ghost use Rattle.std.specs.Prelude.{◌≡◌};
ghost use Rattle.jm_seats.specs.Seat as seat;

use jm_base::Mode;
use jm_dest::SessionId;
use jm_machine::find::same_session;
use jm_machine::{Request, Who};

/// What an accepted request means for a session.
#[derive(Clone, Copy)]
pub(crate) enum Effect {
    /// Nothing.
    Nothing,
    /// The session opens in that mode.
    Opens(Mode),
    /// The session closes.
    Closes,
    /// Its transaction is rolled back.
    RollsBack,
}

fn connection_effect(request: &Request) -> Effect
    ensures { result ≡ seat.connection_effect request.now }
{
    match request {
        Request::CloseConnection => Effect::Closes,
        _ => Effect::Nothing,
    }
}

fn session_effect(request: &Request) -> Effect
    ensures { result ≡ seat.session_effect request.now }
{
    match request {
        Request::CreateSession { mode } => Effect::Opens(*mode),
        Request::CloseSession => Effect::Closes,
        Request::Rollback => Effect::RollsBack,
        _ => Effect::Nothing,
    }
}

/// What the request means for the session, where it is accepted.
pub(crate) fn effect_of(session: &SessionId, who: &Who, request: &Request) -> Effect
    ensures { result ≡ seat.effect_of session.now who.now request.now }
{
    match who {
        Who::Connection(connection) => {
            if session.connection == *connection {
                connection_effect(request)
            } else {
                Effect::Nothing
            }
        }
        Who::Session(other) => {
            if same_session(session, other) {
                session_effect(request)
            } else {
                Effect::Nothing
            }
        }
    }
}
