//! The parts that one subscription starts with, from those of an opening.

ghost use Rattle.std.specs.Prelude.{◌≡◌, filter, Some, IfOk};
ghost use Rattle.jm_dest.specs.Keys.{key_eq};
ghost use Rattle.jm_machine.specs.Machine as machine;
ghost use Rattle.jm_machine.specs.Owns as owns;
ghost use Rattle.jm_machine.specs.Rows.{bare};
ghost use Rattle.jm_scope.specs.Scopes.{scope_seen};

use jm_dest::Key;
use jm_machine::{ConnectionState, Consumer, Definition, SessionState, Station};
use jm_rows::Rows;
use jm_scope::Scope;
use std::alloc::{AllocError, Global};

/// The connections of own sessions.
pub(crate) fn own_connections(
    alloc: Global,
    scope: &Scope,
    connections: &[ConnectionState],
) -> Result<Vec<ConnectionState>, AllocError>
    ensures { IfOk result (λ own. own.items
        ≡ filter (λ x. owns.is_own_connection (scope_seen scope.now).sessions x.id) connections.now) }
{
    let mut own = Vec::new(alloc);
    for connection in connections {
        if scope.is_own_connection(connection.id) {
            own.push(connection.copy()?)?;
        }
    }
    Ok(own)
}

/// The own ones among the sessions.
pub(crate) fn own_sessions(
    alloc: Global,
    scope: &Scope,
    sessions: &[SessionState],
) -> Result<Vec<SessionState>, AllocError>
    ensures { IfOk result (λ own. own.items
        ≡ filter (λ x. owns.is_own (scope_seen scope.now).sessions x.id) sessions.now) }
{
    let mut own = Vec::new(alloc);
    for session in sessions {
        if scope.is_own(&session.id) {
            own.push(*session)?;
        }
    }
    Ok(own)
}

/// The consumers of the key.
pub(crate) fn consumers_of(
    alloc: Global,
    key: &Key,
    consumers: &[Consumer],
) -> Result<Vec<Consumer>, AllocError>
    ensures { IfOk result (λ own. own.items ≡ filter (λ x. key_eq x.key key.now) consumers.now) }
{
    let mut own = Vec::new(alloc);
    for consumer in consumers {
        if consumer.key.is(key) {
            own.push(consumer.copy()?)?;
        }
    }
    Ok(own)
}

/// What a subscription starts with: what it asks for, where there is one, how many publications it missed, and its rows.
pub(crate) struct Parts {
    pub(crate) definition: Option<Definition>,
    pub(crate) missed: u64,
    pub(crate) rows: Rows,
}

/// What the subscription that stands there starts with.
fn parts_of(alloc: Global, key: &Key, station: Station) -> Result<Parts, AllocError>
    ensures definition { IfOk result (λ parts. parts.definition ≡ Some station.definition) }
    ensures missed { IfOk result (λ parts. parts.missed ≡ station.missed) }
    ensures rows { IfOk result (λ parts. parts.rows ≡ bare station.rows) }
{
    let Station {
        key: _,
        definition,
        missed,
        rows,
    } = station;
    let rows = Rows::of(alloc, key.copy()?, rows.into_inner())?;
    Ok(Parts {
        definition: Some(definition),
        missed,
        rows,
    })
}

/// The same of a subscription that may stand there.
pub(crate) fn own_parts(
    alloc: Global,
    key: &Key,
    station: Option<Station>,
) -> Result<Parts, AllocError>
    ensures definition { IfOk result (λ parts. parts.definition ≡ machine.definition_of station) }
    ensures missed { IfOk result (λ parts. parts.missed ≡ machine.missed_of station) }
    ensures rows { IfOk result (λ parts. parts.rows ≡ machine.rows_of station) }
{
    match station {
        None => Ok(Parts {
            definition: None,
            missed: 0,
            rows: Rows::new(alloc, key.copy()?),
        }),
        Some(station) => parts_of(alloc, key, station),
    }
}
