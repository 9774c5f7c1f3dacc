//! Causes in a session's consumers.

ghost use Rattle.std.specs.Prelude.{◌≡◌, is_some, not};
ghost use Rattle.std.specs.Option.{option_copied};
ghost use Rattle.jm_plans.specs.Provider.{state_of};
ghost use Rattle.jm_machine.specs.Machine as machine;
ghost use Rattle.jm_why.specs.Why as spec;

use crate::life::{first_why, session_why, unless};
use jm_core::Core;
use jm_dest::{ConsumerId, SessionId};
use jm_machine::Consumer;
use jm_machine::find::session_of;
use jm_why::Why;

/// Whether the consumer is there, and active.
fn is_active(consumer: Option<&Consumer>) -> bool
    ensures { result ≡ machine.is_active (option_copied consumer.entry) }
{
    match consumer {
        Some(consumer) => consumer.is_active,
        None => false,
    }
}

/// Whether the consumer is there, and listens.
fn is_listening(consumer: Option<&Consumer>) -> bool
    ensures { result ≡ machine.is_listening (option_copied consumer.entry) }
{
    match consumer {
        Some(consumer) => consumer.is_active && consumer.is_listening,
        None => false,
    }
}

/// Whether the consumer is there, and busy.
fn is_busy(consumer: Option<&Consumer>) -> bool
    ensures { result ≡ machine.is_busy (option_copied consumer.entry) }
{
    match consumer {
        Some(consumer) => consumer.is_active && consumer.is_busy,
        None => false,
    }
}

/// Why a consumer of that number cannot be made in the session.
pub(crate) fn begin_why(core: &Core, session: &SessionId, id: ConsumerId) -> Option<Why>
    ensures { result ≡ spec.begin_why (state_of core.now).life (state_of core.now).consumers session.now id }
{
    let is_new = core.consumer_of(session, id).is_none();
    first_why(session_why(core, session), unless(is_new, Why::NumberUsed))
}

/// Why the session's consumer cannot be used.
pub(crate) fn use_why(core: &Core, session: &SessionId, id: ConsumerId) -> Option<Why>
    ensures { result ≡ spec.use_why (state_of core.now).life (state_of core.now).consumers session.now id }
{
    let is_active = is_active(core.consumer_of(session, id));
    first_why(
        session_why(core, session),
        unless(is_active, Why::ConsumerNotOpen),
    )
}

/// Why it cannot be closed in a session that is open.
fn close_in_open_why(core: &Core, session: &SessionId, id: ConsumerId) -> Option<Why>
    ensures { result ≡ spec.first_why
        (spec.unless (is_some (machine.consumer_of (state_of core.now).consumers session.now id)) Why.ConsumerNotOpen)
        (spec.unless (not (machine.is_busy (machine.consumer_of (state_of core.now).consumers session.now id))) Why.Busy) }
{
    match core.consumer_of(session, id) {
        None => Some(Why::ConsumerNotOpen),
        Some(consumer) => unless(!(consumer.is_active && consumer.is_busy), Why::Busy),
    }
}

/// Why it cannot be closed.
pub(crate) fn close_why(core: &Core, session: &SessionId, id: ConsumerId) -> Option<Why>
    ensures { result ≡ spec.close_why (state_of core.now).life (state_of core.now).consumers session.now id }
{
    if core.mode_of(session).is_some() {
        close_in_open_why(core, session, id)
    } else {
        let is_known = session_of(core.sessions(), session).is_some();
        unless(is_known, Why::SessionNotOpen)
    }
}

/// Why it cannot receive.
pub(crate) fn receive_why(core: &Core, session: &SessionId, id: ConsumerId) -> Option<Why>
    ensures { result ≡ spec.first_why (spec.use_why (state_of core.now).life (state_of core.now).consumers session.now id)
        (spec.unless (not (machine.is_listening (machine.consumer_of (state_of core.now).consumers session.now id))) Why.Listening) }
{
    let is_listening = is_listening(core.consumer_of(session, id));
    first_why(
        use_why(core, session, id),
        unless(!is_listening, Why::Listening),
    )
}

/// Why its listener cannot be set, or taken away.
pub(crate) fn listener_why(core: &Core, session: &SessionId, id: ConsumerId) -> Option<Why>
    ensures { result ≡ spec.first_why (spec.use_why (state_of core.now).life (state_of core.now).consumers session.now id)
        (spec.unless (not (machine.is_busy (machine.consumer_of (state_of core.now).consumers session.now id))) Why.Busy) }
{
    let is_busy = is_busy(core.consumer_of(session, id));
    first_why(use_why(core, session, id), unless(!is_busy, Why::Busy))
}

/// Why its listener cannot take a message.
pub(crate) fn take_why(core: &Core, session: &SessionId, id: ConsumerId) -> Option<Why>
    ensures { result ≡ spec.first_why (spec.use_why (state_of core.now).life (state_of core.now).consumers session.now id)
        (spec.first_why
        (spec.unless (machine.is_listening (machine.consumer_of (state_of core.now).consumers session.now id)) Why.NotListening)
        (spec.unless (not (machine.is_busy (machine.consumer_of (state_of core.now).consumers session.now id))) Why.Busy)) }
{
    let consumer = core.consumer_of(session, id);
    let later = first_why(
        unless(is_listening(consumer), Why::NotListening),
        unless(!is_busy(consumer), Why::Busy),
    );
    first_why(use_why(core, session, id), later)
}

/// Why its listener cannot be done with a message.
pub(crate) fn done_why(core: &Core, session: &SessionId, id: ConsumerId) -> Option<Why>
    ensures { result ≡ spec.first_why (spec.use_why (state_of core.now).life (state_of core.now).consumers session.now id)
        (spec.unless (machine.is_busy (machine.consumer_of (state_of core.now).consumers session.now id)) Why.NotBusy) }
{
    let is_busy = is_busy(core.consumer_of(session, id));
    first_why(use_why(core, session, id), unless(is_busy, Why::NotBusy))
}
