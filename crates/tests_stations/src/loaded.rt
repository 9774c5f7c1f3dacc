//! Rows that were held elsewhere, loaded under one key at their places.

ghost use Rattle.std.specs.Prelude.{◌<◌, ◌≤◌, length};

use crate::held::{HeldStations, delivers, receive};
use crate::keys::create;
use crate::told::is_number;
use jm_base::Refusal;
use jm_dest::ConsumerId;
use jm_machine::{Consumers, PlacedRow, Row, RowState};
use jm_stations::Stations;
use std::alloc::Global;
use tests_messages::{Words, sent, session};

/// A place, the words of the message there, how often it was delivered, and whether it is out.
type Loaded = (u64, Words, u32, bool);

static ROWS: [Loaded; 5] = [
    (3, ("a", 4, 0), 0, false),
    (4, ("b", 9, 0), 2, false),
    (7, ("e", 9, 600), 4, true),
    (9, ("c", 4, 0), 2147483647, false),
    (10, ("d", 0, 500), 1, false),
];

/// What is delivered in turn at the moment 1500, with its count.
static DELIVERED: [(&str, u32); 4] = [("b", 3), ("a", 1), ("c", 2147483647), ("", 0)];

/// The same, once what was out waits again.
static AGAIN: [(&str, u32); 2] = [("e", 5), ("", 0)];

fn state(is_out: bool) -> Result<RowState, Refusal> {
    if is_out {
        Ok(RowState::Out(session(1)?, ConsumerId::new(1)?))
    } else {
        Ok(RowState::Waiting)
    }
}

fn row(alloc: Global, loaded: &Loaded) -> Result<Row, Refusal> {
    let state = state(loaded.3)?;
    Ok(Row {
        message: sent(alloc, loaded.1)?,
        count: loaded.2,
        state,
    })
}

fn load_at(
    alloc: Global,
    stations: &mut Stations,
    place: u64,
    loaded: &Loaded,
) -> Result<(), Refusal>
    requires there { 0 < length stations.old.list }
    requires from { stations.old.next_place ≤ place }
    requires to { place ≤ 100 }
{
    stations.reserve(&[0], 1)?;
    stations.skip_to(place);
    stations.load(0, row(alloc, loaded)?);
    Ok(())
}

/// Loads the row at its place under the first key.
fn load(alloc: Global, stations: &mut Stations, loaded: &Loaded) -> Result<(), Refusal> {
    let place = loaded.0;
    if stations.len() == 0 || place < stations.next_place() || place > 100 {
        return Err(Refusal::IllegalState);
    }
    load_at(alloc, stations, place, loaded)
}

fn loads(alloc: Global, stations: &mut Stations, loaded: &Loaded) -> bool {
    load(alloc, stations, loaded).is_ok() && stations.next_place() == loaded.0.saturating_add(1)
}

/// How many of the rows are loaded.
fn all_loaded(alloc: Global, stations: &mut Stations) -> usize {
    let mut all: usize = 0;
    for row in &ROWS {
        all = all.saturating_add(usize::from(loads(alloc, stations, row)));
    }
    all
}

/// Whether the row is the one that was loaded.
fn is_loaded(row: &PlacedRow, loaded: &Loaded) -> bool {
    let (place, _, count, is_out) = *loaded;
    row.place == place && row.row.count == count && state(is_out) == Ok(row.row.state)
}

/// The same of the row of that number, where there is one.
fn is_row(row: &PlacedRow, number: usize) -> bool {
    match ROWS.get(number) {
        Some(loaded) => is_loaded(row, loaded),
        None => false,
    }
}

/// How many of the rows are those that were loaded.
fn at_their_places(rows: &[PlacedRow]) -> usize {
    let mut found: usize = 0;
    for (number, row) in rows.iter().enumerate() {
        found = found.saturating_add(usize::from(is_row(row, number)));
    }
    found
}

/// The same of the rows under the first key.
fn standing(stations: &Stations) -> usize {
    if stations.len() == 0 {
        return 0;
    }
    match stations.rows_of(0) {
        Ok(rows) => at_their_places(rows.as_slice()),
        Err(_) => 0,
    }
}

/// How many of the deliveries come out as they are written.
fn delivered(stations: &mut Stations, rows: &[(&str, u32)]) -> usize {
    let mut delivered: usize = 0;
    for (text, count) in rows {
        let is_delivered = delivers(receive(stations, 0, 1500), text, *count);
        delivered = delivered.saturating_add(usize::from(is_delivered));
    }
    delivered
}

fn give_back(stations: &mut Stations) -> Result<(), Refusal> {
    stations.give_back(&Consumers::OfSession(session(1)?));
    Ok(())
}

/// How many rows are loaded, how many stand as they were loaded, and how many deliveries come out as they are written,
/// before and after what is out is given back.
fn counts(alloc: Global) -> [usize; 4] {
    let mut held = HeldStations::new(alloc);
    let _ = create(&mut held.stations, (1, 1), None);
    let loaded = all_loaded(alloc, &mut held.stations);
    let standing = standing(&held.stations);
    let before = delivered(&mut held.stations, &DELIVERED);
    let _ = give_back(&mut held.stations);
    [
        loaded,
        standing,
        before,
        delivered(&mut held.stations, &AGAIN),
    ]
}

#[test]
fn rows_are_loaded_with_their_states_and_counts(rt: HostRuntime) {
    let [loaded, standing, before, after] = counts(rt.alloc());
    is_number(&rt, "rows that are loaded", 5, loaded);
    is_number(&rt, "rows that stand as they were loaded", 5, standing);
    is_number(&rt, "deliveries", 4, before);
    is_number(&rt, "deliveries after what is given back", 2, after);
}
