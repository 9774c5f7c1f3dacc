//! What a keeper in memory holds, as the rows of the tables that stand for it.

use jm_base::Refusal;
use jm_decoding::{DelayRow, HeldRow, MessageRow, StationRow};
use jm_dest::{ClientId, Key, Name, SubscriptionName};
use jm_keep::MemKeep;
use jm_record::read_record;
use std::alloc::{AllocError, Global};

/// The greatest place that a run reaches: it makes fewer publications.
const PLACES: u64 = 150;

/// The queues, and the clients with the names of their durable subscriptions, in the order in which rows are read.
static QUEUES: [&str; 2] = ["q", "r"];

static DURABLES: [(Option<&str>, &str); 6] = [
    (None, "m"),
    (None, "n"),
    (Some("k"), "m"),
    (Some("k"), "n"),
    (Some("l"), "m"),
    (Some("l"), "n"),
];

/// The rows of all tables.
#[derive(Drop)]
pub(crate) struct Rows {
    pub stations: Vec<StationRow>,
    pub messages: Vec<MessageRow>,
    pub held: Vec<HeldRow>,
    pub delays: Vec<DelayRow>,
}

fn durable(alloc: Global, client: Option<&str>, name: &str) -> Result<Key, Refusal> {
    let client = match client {
        None => None,
        Some(client) => Some(ClientId::new(alloc, client)?),
    };
    Ok(Key::Durable(client, SubscriptionName::new(alloc, name)?))
}

/// Adds the key.
fn add<T: Drop>(items: &mut Vec<T>, item: T) -> Result<(), AllocError> {
    items.push(item)?;
    Ok(())
}

/// The keys of the queues and durable subscriptions of the runs.
fn keys(alloc: Global) -> Result<Vec<Key>, Refusal> {
    let mut keys = Vec::new(alloc);
    for name in &QUEUES {
        add(&mut keys, Key::Queue(Name::new(alloc, name)?))?;
    }
    for (client, name) in &DURABLES {
        add(&mut keys, durable(alloc, *client, name)?)?;
    }
    Ok(keys)
}

/// The row of the key's station, where one is kept. The station of a queue goes with nothing that a run does.
fn station(keeper: &MemKeep, key: &Key) -> Result<Option<StationRow>, AllocError> {
    if let Key::Queue(_) = key {
        return Ok(Some(StationRow {
            key: key.copy()?,
            definition: None,
        }));
    }
    let Some(definition) = keeper.definition(key) else {
        return Ok(None);
    };
    Ok(Some(StationRow {
        key: key.copy()?,
        definition: Some(definition.copy()?),
    }))
}

fn stations(alloc: Global, keeper: &MemKeep, keys: &[Key]) -> Result<Vec<StationRow>, AllocError> {
    let mut stations = Vec::new(alloc);
    for key in keys {
        if let Some(station) = station(keeper, key)? {
            stations.push(station)?;
        }
    }
    Ok(stations)
}

fn messages(alloc: Global, keeper: &MemKeep) -> Result<Vec<MessageRow>, Refusal> {
    let mut messages = Vec::new(alloc);
    for place in 1..PLACES {
        if let Some(bytes) = keeper.message(place) {
            let Ok(message) = read_record(alloc, bytes.as_slice()) else {
                return Err(Refusal::Memory);
            };
            add(&mut messages, MessageRow { place, message })?;
        }
    }
    Ok(messages)
}

fn hold(held: &mut Vec<HeldRow>, keeper: &MemKeep, key: &Key) -> Result<(), AllocError> {
    for place in 1..PLACES {
        if let Some(count) = keeper.count(key, place) {
            let key = key.copy()?;
            held.push(HeldRow { key, place, count })?;
        }
    }
    Ok(())
}

fn held(alloc: Global, keeper: &MemKeep, keys: &[Key]) -> Result<Vec<HeldRow>, AllocError> {
    let mut held = Vec::new(alloc);
    for key in keys {
        hold(&mut held, keeper, key)?;
    }
    Ok(held)
}

fn delays(alloc: Global, keeper: &MemKeep) -> Result<Vec<DelayRow>, AllocError> {
    let mut delays = Vec::new(alloc);
    for place in 1..PLACES {
        if let Some(due) = keeper.due(place) {
            delays.push(DelayRow { place, due })?;
        }
    }
    Ok(delays)
}

/// The rows that stand for what the keeper holds. `Memory` where a request for memory was refused, or what is kept of a message
/// is no record.
pub(crate) fn rows_of(alloc: Global, keeper: &MemKeep) -> Result<Rows, Refusal> {
    let keys = keys(alloc)?;
    Ok(Rows {
        stations: stations(alloc, keeper, &keys)?,
        messages: messages(alloc, keeper)?,
        held: held(alloc, keeper, &keys)?,
        delays: delays(alloc, keeper)?,
    })
}
