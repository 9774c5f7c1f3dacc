//! Changes of what is stored, in few words.

use jm_base::{List, Refusal, Str};
use jm_dest::{ClientId, ConnectionId, ConsumerId, Key, Moment, Name, SessionId, SubscriptionName};
use jm_keep::RowChange;
use jm_machine::Definition;
use jm_selector::Selector;
use std::alloc::{AllocError, Global};

/// What a change speaks of.
#[derive(Clone, Copy)]
pub enum Of {
    Queue(&'static str),
    /// A durable subscription of that client, or of none, and of that name.
    Durable(Option<&'static str>, &'static str),
    /// A shared subscription of that name, of no client, which is not durable.
    Shared(&'static str),
    /// The subscription of consumer 1 of session 1.1.
    Own,
}

/// What a subscription asks for: its topic, its selector or none, whether it is one of others' messages alone, and whether it is
/// shared.
#[derive(Clone, Copy)]
pub struct Asks(
    pub &'static str,
    pub Option<&'static str>,
    pub bool,
    pub bool,
);

/// A change of what is stored.
#[derive(Clone, Copy)]
pub enum Change {
    DropHeld(Of, u64),
    DropMessage(u64),
    DropStation(Of),
    /// The station comes, with what it asks for or with nothing.
    PutStation(Of, Option<Asks>),
    PutMessage(u64, &'static [u8]),
    PutHeld(Of, u64),
    SetCount(Of, u64, u32),
    DropDelay(u64),
    PutDelay(u64, i64),
}

fn durable(alloc: Global, client: Option<&str>, name: &str) -> Result<Key, Refusal> {
    let name = SubscriptionName::new(alloc, name)?;
    match client {
        None => Ok(Key::Durable(None, name)),
        Some(client) => Ok(Key::Durable(Some(ClientId::new(alloc, client)?), name)),
    }
}

fn shared(alloc: Global, name: &str) -> Result<Key, Refusal> {
    Ok(Key::SharedOwn(None, SubscriptionName::new(alloc, name)?))
}

fn own() -> Result<Key, Refusal> {
    let session = SessionId::new(ConnectionId::new(1)?, 1)?;
    Ok(Key::Own(session, ConsumerId::new(1)?))
}

fn key(alloc: Global, of: Of) -> Result<Key, Refusal> {
    match of {
        Of::Queue(name) => Ok(Key::Queue(Name::new(alloc, name)?)),
        Of::Durable(client, name) => durable(alloc, client, name),
        Of::Shared(name) => shared(alloc, name),
        Of::Own => own(),
    }
}

fn selector(alloc: Global, text: Option<&str>) -> Result<Selector, Refusal> {
    match text {
        None => Ok(Selector::none(alloc)),
        Some(text) => {
            let text = Str::new(String::from_str(alloc, text)?);
            Selector::read(alloc, &Some(text))
        }
    }
}

fn definition(alloc: Global, asks: Asks) -> Result<Definition, Refusal> {
    let topic = Name::new(alloc, asks.0)?;
    let selector = selector(alloc, asks.1)?;
    Ok(Definition {
        topic,
        selector,
        no_local: asks.2,
        shared: asks.3,
    })
}

fn put_station(alloc: Global, of: Of, asks: Option<Asks>) -> Result<RowChange, Refusal> {
    let definition = match asks {
        None => None,
        Some(asks) => Some(definition(alloc, asks)?),
    };
    let key = key(alloc, of)?;
    Ok(RowChange::PutStation { key, definition })
}

fn bytes(alloc: Global, bytes: &[u8]) -> Result<List<u8>, AllocError> {
    Ok(List::new(Vec::from_slice(alloc, bytes)?))
}

fn row_change(alloc: Global, change: Change) -> Result<RowChange, Refusal> {
    match change {
        Change::DropHeld(of, place) => Ok(RowChange::DropHeld {
            key: key(alloc, of)?,
            place,
        }),
        Change::DropMessage(place) => Ok(RowChange::DropMessage { place }),
        Change::DropStation(of) => Ok(RowChange::DropStation {
            key: key(alloc, of)?,
        }),
        Change::PutStation(of, asks) => put_station(alloc, of, asks),
        Change::PutMessage(place, record) => Ok(RowChange::PutMessage {
            place,
            bytes: bytes(alloc, record)?,
        }),
        Change::PutHeld(of, place) => Ok(RowChange::PutHeld {
            key: key(alloc, of)?,
            place,
        }),
        Change::SetCount(of, place, count) => Ok(RowChange::SetCount {
            key: key(alloc, of)?,
            place,
            count,
        }),
        Change::DropDelay(place) => Ok(RowChange::DropDelay { place }),
        Change::PutDelay(place, due) => Ok(RowChange::PutDelay {
            place,
            due: Moment::new(due)?,
        }),
    }
}

/// The changes, in turn, refused as the first that is refused.
pub fn changes(alloc: Global, rows: &[Change]) -> Result<Vec<RowChange>, Refusal> {
    let mut changes = Vec::new(alloc);
    for row in rows {
        let change = row_change(alloc, *row)?;
        if changes.push(change).is_err() {
            return Err(Refusal::Memory);
        }
    }
    Ok(changes)
}
