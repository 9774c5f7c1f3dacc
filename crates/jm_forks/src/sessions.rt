ghost use Rattle.std.specs.Prelude.{◌≡◌, ◌↔◌, Contains, IfOk, OnOk};
ghost use Rattle.std.specs.List.{IsDistinct};
ghost use Rattle.jm_dest.specs.Names.{session_eq};
ghost use Rattle.jm_dest.specs.declared.session.SessionId.{SessionId};
ghost use Rattle.jm_forks.specs.Forks as spec;

use crate::part::Part;
use indexmap::IndexSet;
use jm_dest::SessionId;
use jm_machine::{ClientCall, Who};
use std::alloc::{AllocError, Global};

/// The session that makes the call, where no connection makes it.
fn session_of(call: &ClientCall) -> Option<SessionId>
    ensures { result ≡ spec.session_of call.now }
{
    match call {
        ClientCall::Ask {
            who: Who::Connection(_),
            ..
        } => None,
        ClientCall::Ask {
            who: Who::Session(session),
            ..
        } => Some(*session),
        ClientCall::Send { session, .. } | ClientCall::CommitSession(session) => Some(*session),
    }
}

/// Notes the session that makes the call, if one does.
fn note_call(sessions: &mut IndexSet<SessionId>, call: &ClientCall) -> Result<(), AllocError>
    ensures { OnOk result (sessions.new.keys ≡ spec.with_session sessions.old.keys (spec.session_of call.now)) }
{
    if let Some(session) = session_of(call) {
        sessions.insert(session)?;
    }
    Ok(())
}

/// Notes the sessions that make the calls.
fn note_calls(sessions: &mut IndexSet<SessionId>, calls: &[ClientCall]) -> Result<(), AllocError>
    ensures { OnOk result (sessions.new.keys ≡ spec.with_sessions sessions.old.keys calls.now) }
{
    for call in calls {
        note_call(sessions, call)?;
    }
    Ok(())
}

/// Notes the sessions that make the calls of the part.
fn note_part(sessions: &mut IndexSet<SessionId>, part: &Part) -> Result<(), AllocError>
    ensures { OnOk result (sessions.new.keys ≡ spec.with_sessions sessions.old.keys (spec.calls_in part.now)) }
{
    match part {
        Part::Alone(call) => note_call(sessions, call),
        Part::Together(calls) => note_calls(sessions, calls.as_slice()),
    }
}

/// The sessions of the set, in order.
fn listed(alloc: Global, sessions: &[SessionId]) -> Result<Vec<SessionId>, AllocError>
    ensures { IfOk result (λ list. list.items ≡ sessions.now) }
{
    sessions.iter().copied().collect(alloc)
}

/// The sessions that make a call in the parts, each once, in order of first call. `AllocError` where a request for
/// memory was refused.
pub fn sessions_of(alloc: Global, parts: &[Part]) -> Result<Vec<SessionId>, AllocError>
    ensures sessions { IfOk result (λ sessions. sessions.items ≡ spec.sessions_of parts.now) }
    ensures distinct { IfOk result (λ sessions. IsDistinct session_eq sessions.items) }
    ensures callers { IfOk result (λ sessions. (s : SessionId)
        → Contains sessions.items s ↔ spec.IsCaller s parts.now) }
{
    let mut sessions = IndexSet::new(alloc);
    for part in parts {
        note_part(&mut sessions, part)?;
    }
    listed(alloc, sessions.as_slice())
}
