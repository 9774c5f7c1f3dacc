//! One connection, session or consumer, or none, by its number, and the numbers of what is open of it.

ghost use Rattle.std.specs.Prelude.{◌≡◌, map, option_to_list, IfOk};
ghost use Rattle.jm_session.specs.Numbers.{number_of};
ghost use Rattle.jm_session.specs.Opened.{AreActive, AreOpen};

use crate::number::ConsumerNumber;
use indexmap::IndexMap;
use jm_dest::{ConnectionId, SessionId};
use jm_indexed::KeySet;
use jm_machine::{ConnectionState, Consumer, SessionState};
use std::alloc::{AllocError, Global};

pub(crate) fn one_connection(
    alloc: Global,
    connection: Option<ConnectionState>,
) -> Result<IndexMap<ConnectionId, ConnectionState>, AllocError>
    ensures { IfOk result (λ one. one.entries ≡ map (λ x. (x.id, x)) (option_to_list connection)) }
{
    let mut one = IndexMap::new(alloc);
    if let Some(connection) = connection {
        drop(one.insert(connection.id, connection)?);
    }
    Ok(one)
}

pub(crate) fn one_session(
    alloc: Global,
    session: Option<SessionState>,
) -> Result<IndexMap<SessionId, SessionState>, AllocError>
    ensures { IfOk result (λ one. one.entries ≡ map (λ x. (x.id, x)) (option_to_list session)) }
{
    let mut one = IndexMap::new(alloc);
    if let Some(session) = session {
        drop(one.insert(session.id, session)?);
    }
    Ok(one)
}

pub(crate) fn one_consumer(
    alloc: Global,
    consumer: Option<Consumer>,
) -> Result<IndexMap<ConsumerNumber, Consumer>, AllocError>
    ensures { IfOk result (λ one. one.entries ≡ map (λ x. (number_of x, x)) (option_to_list consumer)) }
{
    let mut one = IndexMap::new(alloc);
    if let Some(consumer) = consumer {
        let number = ConsumerNumber::of(&consumer);
        drop(one.insert(number, consumer)?);
    }
    Ok(one)
}

/// The number of the consumer, where there is one and it is active. `AllocError` where a request for memory was refused.
pub(crate) fn one_active(
    alloc: Global,
    consumer: &Option<Consumer>,
) -> Result<KeySet<ConsumerNumber>, AllocError>
    ensures { IfOk result (AreActive (option_to_list consumer.now)) }
{
    let mut one = KeySet::new(alloc);
    match consumer {
        Some(consumer) if consumer.is_active => {
            one.reserve(1)?;
            one.insert(ConsumerNumber::of(consumer));
        }
        _ => {}
    }
    Ok(one)
}

/// The number of the session, where there is one and it is open. `AllocError` where a request for memory was refused.
pub(crate) fn one_open(
    alloc: Global,
    session: &Option<SessionState>,
) -> Result<KeySet<SessionId>, AllocError>
    ensures { IfOk result (AreOpen (option_to_list session.now)) }
{
    let mut one = KeySet::new(alloc);
    match session {
        Some(session) if session.is_open => {
            one.reserve(1)?;
            one.insert(session.id);
        }
        _ => {}
    }
    Ok(one)
}
