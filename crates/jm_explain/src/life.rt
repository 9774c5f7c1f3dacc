//! Causes in connections and sessions.

ghost use Rattle.std.specs.Prelude.{◌≡◌, is_some, not};
ghost use Rattle.jm_plans.specs.Provider.{state_of};
ghost use Rattle.jm_machine.specs.Life as life;
ghost use Rattle.jm_machine.specs.Machine as machine;
ghost use Rattle.jm_why.specs.Why as spec;

use jm_base::Mode;
use jm_core::Core;
use jm_dest::{ConnectionId, SessionId};
use jm_machine::find::{connection_of, session_of};
use jm_why::Why;

/// The cause, where the check fails.
pub(crate) fn unless(holds: bool, why: Why) -> Option<Why>
    ensures { result ≡ spec.unless holds why }
{
    if holds { None } else { Some(why) }
}

/// The first of two causes, where one stands.
pub(crate) fn first_why(earlier: Option<Why>, later: Option<Why>) -> Option<Why>
    ensures { result ≡ spec.first_why earlier later }
{
    match earlier {
        Some(why) => Some(why),
        None => later,
    }
}

/// Whether the connection of that number is open.
fn is_open_connection(core: &Core, id: ConnectionId) -> bool
    ensures { result ≡ life.is_open_connection (life.connection_of (state_of core.now).life.connections id) }
{
    match connection_of(core.connections(), id) {
        Some(connection) => connection.is_open,
        None => false,
    }
}

/// Whether the connection of that number was opened, and is closed.
fn is_closed_connection(core: &Core, id: ConnectionId) -> bool
    ensures { result ≡ life.is_closed_connection (life.connection_of (state_of core.now).life.connections id) }
{
    match connection_of(core.connections(), id) {
        Some(connection) => !connection.is_open,
        None => false,
    }
}

/// Why a connection of that number cannot be opened.
pub(crate) fn open_why(core: &Core, id: ConnectionId) -> Option<Why>
    ensures { result ≡ spec.unless (not (is_some (life.connection_of (state_of core.now).life.connections id))) Why.NumberUsed }
{
    unless(
        connection_of(core.connections(), id).is_none(),
        Why::NumberUsed,
    )
}

/// Why the connection of that number cannot make a call.
pub(crate) fn connection_why(core: &Core, id: ConnectionId) -> Option<Why>
    ensures { result ≡ spec.connection_why (state_of core.now).life id }
{
    unless(is_open_connection(core, id), Why::ConnectionNotOpen)
}

/// Why it cannot be closed.
pub(crate) fn close_connection_why(core: &Core, id: ConnectionId) -> Option<Why>
    ensures { result ≡ spec.unless (is_some (life.connection_of (state_of core.now).life.connections id)) Why.ConnectionNotOpen }
{
    unless(
        connection_of(core.connections(), id).is_some(),
        Why::ConnectionNotOpen,
    )
}

/// Why a session of that number cannot be opened.
pub(crate) fn create_session_why(core: &Core, id: &SessionId) -> Option<Why>
    ensures { result ≡ spec.first_why (spec.connection_why (state_of core.now).life id.now.connection)
        (spec.unless (not (is_some (life.session_of (state_of core.now).life.sessions id.now))) Why.NumberUsed) }
{
    let is_new = session_of(core.sessions(), id).is_none();
    first_why(
        connection_why(core, id.connection),
        unless(is_new, Why::NumberUsed),
    )
}

/// Why the session cannot be closed.
pub(crate) fn close_session_why(core: &Core, id: &SessionId) -> Option<Why>
    ensures { result ≡ spec.unless (machine.may_close_session (state_of core.now).life id.now) Why.SessionNotOpen }
{
    let may_close = session_of(core.sessions(), id).is_some()
        || is_closed_connection(core, id.connection);
    unless(may_close, Why::SessionNotOpen)
}

/// Why the session cannot make a call.
pub(crate) fn session_why(core: &Core, id: &SessionId) -> Option<Why>
    ensures { result ≡ spec.session_why (state_of core.now).life id.now }
{
    if core.mode_of(id).is_some() {
        None
    } else if is_open_connection(core, id.connection) {
        Some(Why::SessionNotOpen)
    } else {
        Some(Why::ConnectionNotOpen)
    }
}

/// Whether that is the mode of a session that is transacted.
fn is_transacted(mode: Option<Mode>) -> bool
    ensures { result ≡ machine.is_transacted mode }
{
    match mode {
        Some(Mode::Transacted) => true,
        Some(Mode::Auto | Mode::Client | Mode::Dups) | None => false,
    }
}

/// Whether that is the mode of one that is not.
fn is_untransacted(mode: Option<Mode>) -> bool
    ensures { result ≡ machine.is_untransacted mode }
{
    match mode {
        Some(Mode::Auto | Mode::Client | Mode::Dups) => true,
        Some(Mode::Transacted) | None => false,
    }
}

/// Why the session cannot make a call that is for transacted ones.
pub(crate) fn transacted_why(core: &Core, id: &SessionId) -> Option<Why>
    ensures { result ≡ spec.transacted_why (state_of core.now).life id.now }
{
    let is_transacted = is_transacted(core.mode_of(id));
    first_why(
        session_why(core, id),
        unless(is_transacted, Why::NotTransacted),
    )
}

/// Why it cannot make one that is for the others.
pub(crate) fn untransacted_why(core: &Core, id: &SessionId) -> Option<Why>
    ensures { result ≡ spec.untransacted_why (state_of core.now).life id.now }
{
    let is_untransacted = is_untransacted(core.mode_of(id));
    first_why(
        session_why(core, id),
        unless(is_untransacted, Why::Transacted),
    )
}
