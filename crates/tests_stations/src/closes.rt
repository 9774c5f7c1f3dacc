//! Keys that go where consumers close: by whose they are, and by how many active ones are left.

use crate::held::HeldStations;
use crate::keys::add;
use crate::outgoing::{Which, consumers};
use crate::told::is_number;
use jm_base::Refusal;
use jm_dest::{ClientId, Key, Name, SubscriptionName};
use jm_machine::Attached;
use jm_stations::Stations;
use std::alloc::Global;
use tests_messages::key;

/// How many keys there are.
const KEYS: usize = 6;

fn client(alloc: Global) -> Result<Option<ClientId>, Refusal> {
    Ok(Some(ClientId::new(alloc, "c")?))
}

/// The shared non-durable key g of that client.
fn shared(alloc: Global, client: Option<ClientId>) -> Result<Key, Refusal> {
    let name = SubscriptionName::new(alloc, "g")?;
    Ok(Key::SharedOwn(client, name))
}

/// The durable key g of that client.
fn durable(alloc: Global, client: Option<ClientId>) -> Result<Key, Refusal> {
    let name = SubscriptionName::new(alloc, "g")?;
    Ok(Key::Durable(client, name))
}

/// The keys of the first consumers of sessions 1 and 2, two that are shared, of the client c and of none, one that is durable,
/// and a queue's.
fn key_at(alloc: Global, index: usize) -> Result<Key, Refusal> {
    match index {
        0 => key((1, 1)),
        1 => key((2, 1)),
        2 => shared(alloc, client(alloc)?),
        3 => shared(alloc, None),
        4 => durable(alloc, client(alloc)?),
        _ => Ok(Key::Queue(Name::new(alloc, "g")?)),
    }
}

fn add_key(alloc: Global, stations: &mut Stations, index: usize) -> Result<(), Refusal> {
    add(stations, key_at(alloc, index)?, None)
}

/// How many keys stand, where none stood before.
fn added(alloc: Global, stations: &mut Stations) -> usize {
    for index in 0..KEYS {
        let _ = add_key(alloc, stations, index);
    }
    stations.len()
}

/// Counts one active consumer of the key.
fn count(attached: &mut Attached, key: Key) -> Result<(), Refusal> {
    if attached.number(&key) > 100 {
        return Err(Refusal::IllegalState);
    }
    attached.reserve(1)?;
    attached.join(key);
    Ok(())
}

/// The numbers where one consumer is active at each shared key of which that is said.
fn attached(alloc: Global, are_active: [bool; 2]) -> Result<Attached, Refusal> {
    let mut attached = Attached::new(alloc);
    if are_active[0] {
        count(&mut attached, key_at(alloc, 2)?)?;
    }
    if are_active[1] {
        count(&mut attached, key_at(alloc, 3)?)?;
    }
    Ok(attached)
}

/// Consumers that close, whether each shared key has an active one left, and whether each key is left then.
type Close = (Which, [bool; 2], [bool; KEYS]);

static CLOSES: [Close; 6] = [
    (
        Which::One(1, 1),
        [false, false],
        [false, true, false, false, true, true],
    ),
    (
        Which::One(1, 1),
        [true, true],
        [false, true, true, true, true, true],
    ),
    (
        Which::One(1, 2),
        [true, false],
        [true, true, true, false, true, true],
    ),
    (
        Which::OfSession(2),
        [false, true],
        [true, false, false, true, true, true],
    ),
    (
        Which::OfConnection(1),
        [true, false],
        [false, false, true, false, true, true],
    ),
    (
        Which::OfConnection(2),
        [true, true],
        [true, true, true, true, true, true],
    ),
];

fn is_left(alloc: Global, stations: &Stations, index: usize) -> bool {
    match key_at(alloc, index) {
        Ok(key) => stations.index_of(&key).is_some(),
        Err(_) => false,
    }
}

/// How many of the keys are left or gone as they should be.
fn as_wanted(alloc: Global, stations: &Stations, wanted: &[bool; KEYS]) -> usize {
    let mut number: usize = 0;
    for (index, wanted) in wanted.iter().enumerate() {
        let is_wanted = is_left(alloc, stations, index) == *wanted;
        number = number.saturating_add(usize::from(is_wanted));
    }
    number
}

fn close(alloc: Global, stations: &mut Stations, close: &Close) -> Result<(), Refusal> {
    let consumers = consumers(&close.0)?;
    stations.close(&consumers, &attached(alloc, close.1)?);
    Ok(())
}

/// How many keys stood, and how many are left or gone as they should be after the closing.
fn counts(alloc: Global, it: &Close) -> (usize, usize) {
    let mut held = HeldStations::new(alloc);
    let added = added(alloc, &mut held.stations);
    let _ = close(alloc, &mut held.stations, it);
    (added, as_wanted(alloc, &held.stations, &it.2))
}

#[test]
fn keys_go_with_their_last_consumers(rt: HostRuntime) {
    for it in &CLOSES {
        let (added, as_wanted) = counts(rt.alloc(), it);
        is_number(&rt, "keys", KEYS, added);
        is_number(&rt, "keys as they should be", KEYS, as_wanted);
    }
}
