//! Where keys stand.

use crate::held::HeldStations;
use crate::told::is_number;
use jm_base::Refusal;
use jm_dest::Key;
use jm_stations::Stations;
use std::alloc::Global;
use tests_messages::key;

/// Adds the key, where it is not there.
pub(crate) fn add(stations: &mut Stations, key: Key, limit: Option<u32>) -> Result<(), Refusal> {
    stations.reserve_key()?;
    if stations.index_of(&key).is_none() {
        stations.create(key, limit);
    }
    Ok(())
}

/// Adds the key of the consumer of those numbers, where it is not there.
pub(crate) fn create(
    stations: &mut Stations,
    of: (u32, u32),
    limit: Option<u32>,
) -> Result<(), Refusal> {
    add(stations, key(of)?, limit)
}

fn index_of(stations: &Stations, number: u32) -> Result<Option<usize>, Refusal> {
    let key = key((1, number))?;
    Ok(stations.index_of(&key))
}

/// Numbers of keys in order of creation, one of them twice.
static NUMBERS: [u32; 5] = [7, 3, 9, 3, 1];

/// A number of a key, and where that key stands.
static INDEXES: [(u32, Option<usize>); 6] = [
    (7, Some(0)),
    (3, Some(1)),
    (9, Some(2)),
    (1, Some(3)),
    (2, None),
    (4294967295, None),
];

fn all_added(stations: &mut Stations) -> usize {
    for number in &NUMBERS {
        let _ = create(stations, (1, *number), None);
    }
    stations.len()
}

/// How many of the keys stand where they should.
fn found(stations: &Stations) -> usize {
    let mut found: usize = 0;
    for (number, index) in &INDEXES {
        found = found.saturating_add(usize::from(index_of(stations, *number) == Ok(*index)));
    }
    found
}

/// How many keys there are, and how many stand where they should.
fn counts(alloc: Global) -> (usize, usize) {
    let mut held = HeldStations::new(alloc);
    let added = all_added(&mut held.stations);
    (added, found(&held.stations))
}

#[test]
fn keys_stand_in_order_of_creation(rt: HostRuntime) {
    let (added, found) = counts(rt.alloc());
    is_number(&rt, "keys", 4, added);
    is_number(&rt, "where keys stand", 6, found);
}

/// Numbers of two keys, and where they stand.
static PAIRS: [(u32, u32, [usize; 2]); 3] = [(7, 1, [0, 3]), (9, 3, [2, 1]), (1, 7, [3, 0])];

/// Whether the keys of those numbers stand there.
fn stand(stations: &Stations, one: u32, other: u32, at: [usize; 2]) -> Result<bool, Refusal> {
    let keys = [key((1, one))?, key((1, other))?];
    if stations.index_of(&keys[0]).is_none() {
        return Ok(false);
    }
    if stations.index_of(&keys[1]).is_none() {
        return Ok(false);
    }
    Ok(stations.indexes_of(&keys)?.as_slice() == at.as_slice())
}

/// How many of the pairs stand where they should.
fn standing(stations: &Stations) -> usize {
    let mut standing: usize = 0;
    for (one, other, at) in &PAIRS {
        let stands = stand(stations, *one, *other, *at) == Ok(true);
        standing = standing.saturating_add(usize::from(stands));
    }
    standing
}

fn standing_of_all(alloc: Global) -> usize {
    let mut held = HeldStations::new(alloc);
    let _ = all_added(&mut held.stations);
    standing(&held.stations)
}

#[test]
fn indexes_stand_in_the_order_that_is_asked(rt: HostRuntime) {
    is_number(&rt, "pairs of keys", 3, standing_of_all(rt.alloc()));
}
