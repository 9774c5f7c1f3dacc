//! The own sessions of a key.

ghost use Rattle.std.specs.Prelude.{◌≡◌, ◌++◌, IfOk, OnOk};
ghost use Rattle.jm_machine.specs.Lone as lone;
ghost use Rattle.jm_machine.specs.Rows.{bare};
ghost use Rattle.jm_scope.specs.Parts as spec;
ghost use Rattle.jm_scope.specs.Parts.{client_seen};

use crate::clients::client_of;
use crate::naming::asks_for;
use jm_dest::{ClientId, ConnectionId, Key, SessionId};
use jm_machine::{Consumer, Entry, PlacedRow, RowState, Who};
use std::alloc::{AllocError, Global};
use std::collections::HashMap;

/// Adds the sessions of the key's consumers, in their order.
fn add_consuming(
    sessions: &mut Vec<SessionId>,
    key: &Key,
    consumers: &[Consumer],
) -> Result<(), AllocError>
    ensures { OnOk result (sessions.new.items ≡ sessions.old.items ++ lone.consuming key.now consumers.now) }
{
    for consumer in consumers {
        if consumer.key.is(key) {
            sessions.push(consumer.session)?;
        }
    }
    Ok(())
}

/// Adds the sessions to which rows are out, in the rows' order.
fn add_holding(sessions: &mut Vec<SessionId>, rows: &[PlacedRow]) -> Result<(), AllocError>
    ensures { OnOk result (sessions.new.items ≡ sessions.old.items ++ lone.holding_rows (bare rows.now)) }
{
    for placed in rows {
        if let RowState::Out(session, _) = placed.row.state {
            sessions.push(session)?;
        }
    }
    Ok(())
}

/// The session that asks by the entry for the unshared durable subscription of the key, or to delete it.
fn asker<'a>(
    key: &Key,
    clients: &HashMap<ConnectionId, Option<ClientId>>,
    entry: &'a Entry,
) -> Option<SessionId>
    ensures { result ≡ spec.asker key.now (client_seen clients.now) entry.now }
{
    match entry {
        Entry::Asked {
            who: Who::Session(session),
            request,
            ..
        } if asks_for(
            key,
            client_of(clients, session.connection),
            session,
            request,
        ) => { Some(*session) }
        _ => None,
    }
}

/// Adds the sessions that ask for the unshared durable subscription of the key, or to delete it, in the entries' order.
fn add_asking(
    sessions: &mut Vec<SessionId>,
    key: &Key,
    clients: &HashMap<ConnectionId, Option<ClientId>>,
    entries: &[Entry],
) -> Result<(), AllocError>
    ensures { OnOk result (sessions.new.items ≡ sessions.old.items ++ lone.askers key.now (client_seen clients.now) entries.now) }
{
    for entry in entries {
        if let Some(session) = asker(key, clients, entry) {
            sessions.push(session)?;
        }
    }
    Ok(())
}

/// The own sessions of the key: of a consumer's subscription the consumer's session; of a durable one those that have a
/// consumer or a row of it in the opening, and those that ask for it among the entries.
pub(crate) fn sessions_for(
    alloc: Global,
    key: &Key,
    clients: &HashMap<ConnectionId, Option<ClientId>>,
    consumers: &[Consumer],
    rows: &[PlacedRow],
    entries: &[Entry],
) -> Result<Vec<SessionId>, AllocError>
    ensures { IfOk result (λ sessions. sessions.items
        ≡ spec.sessions_for key.now (client_seen clients.now) consumers.now (bare rows.now) entries.now) }
{
    let mut sessions = Vec::new(alloc);
    match key {
        Key::Queue(_) | Key::SharedOwn(..) => {}
        Key::Own(session, _) => sessions.push(*session)?,
        Key::Durable(..) => {
            add_consuming(&mut sessions, key, consumers)?;
            add_holding(&mut sessions, rows)?;
            add_asking(&mut sessions, key, clients, entries)?;
        }
    }
    Ok(sessions)
}
