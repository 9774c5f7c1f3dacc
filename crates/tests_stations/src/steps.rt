//! Publications to three keys, deliveries from them, and keys that go.

use crate::held::{HeldStations, delivers, publish_to, receive, receive_where};
use crate::keys::create;
use crate::told::is_number;
use jm_base::Refusal;
use jm_stations::Stations;
use std::alloc::Global;
use tests_messages::Words;

/// What is done to what is held under the keys.
enum Op {
    /// A message comes to the first so many keys.
    Publish(usize, Words),
    /// The next row under the key with that index is delivered at that moment.
    Receive(usize, i64),
    /// The next row of those that the selector selects is delivered at that moment.
    ReceiveWhere(usize, i64, &'static str),
    /// The key with that index goes.
    Remove(usize),
}

/// What is done, the text that is delivered or none, how many messages are kept after it, and how many rows stand under
/// the first key.
type Step = (Op, &'static str, usize, usize);

/// The keys of the numbers 1 to 3, with those limits.
fn created(stations: &mut Stations, limits: &[Option<u32>; 3]) -> Result<(), Refusal> {
    create(stations, (1, 1), limits[0])?;
    create(stations, (1, 2), limits[1])?;
    create(stations, (1, 3), limits[2])
}

/// Publishes to the first so many of three keys.
fn publish(
    alloc: Global,
    stations: &mut Stations,
    count: usize,
    words: Words,
) -> Result<(), Refusal> {
    if stations.len() < 3 || stations.next_place() > 100 {
        return Err(Refusal::IllegalState);
    }
    match count {
        1 => publish_to(alloc, stations, words, &[0]),
        2 => publish_to(alloc, stations, words, &[0, 1]),
        _ => publish_to(alloc, stations, words, &[0, 1, 2]),
    }
}

fn removes(stations: &mut Stations, index: usize) -> bool {
    if index < stations.len() {
        stations.remove(index);
        true
    } else {
        false
    }
}

fn does(alloc: Global, stations: &mut Stations, op: &Op, text: &str) -> bool {
    match op {
        Op::Publish(count, words) => publish(alloc, stations, *count, *words).is_ok(),
        Op::Receive(index, at) => delivers(receive(stations, *index, *at), text, 1),
        Op::ReceiveWhere(index, at, selector) => {
            delivers(
                receive_where(alloc, stations, *index, *at, selector),
                text,
                1,
            )
        }
        Op::Remove(index) => removes(stations, *index),
    }
}

fn kept_by_a_copy(stations: &Stations) -> usize {
    match stations.copy() {
        Ok(stations) => HeldStations { stations }.stations.kept(),
        Err(_) => usize::MAX,
    }
}

fn rows_of_the_first(stations: &Stations) -> usize {
    if stations.len() == 0 {
        return 0;
    }
    match stations.rows_of(0) {
        Ok(rows) => rows.len(),
        Err(_) => usize::MAX,
    }
}

/// Whether that is there after the step.
fn comes_out(alloc: Global, stations: &mut Stations, step: &Step) -> bool {
    let (op, text, kept, rows) = step;
    does(alloc, stations, op, text)
        && stations.kept() == *kept
        && kept_by_a_copy(stations) == *kept
        && rows_of_the_first(stations) == *rows
}

/// The first step after which something else is there, or how many steps there are.
fn first_other(alloc: Global, stations: &mut Stations, steps: &[Step]) -> usize {
    for (n, step) in steps.iter().enumerate() {
        if !comes_out(alloc, stations, step) {
            return n;
        }
    }
    steps.len()
}

/// The same over three keys with those limits.
fn run(alloc: Global, limits: &[Option<u32>; 3], steps: &[Step]) -> usize {
    let mut held = HeldStations::new(alloc);
    match created(&mut held.stations, limits) {
        Ok(()) => first_other(alloc, &mut held.stations, steps),
        Err(_) => usize::MAX,
    }
}

/// A message is kept until its last row is delivered.
const SHARED: [Step; 6] = [
    (Op::Publish(3, ("a", 4, 0)), "", 1, 1),
    (Op::Receive(0, 1000), "a", 1, 0),
    (Op::Receive(1, 1000), "a", 1, 0),
    (Op::Receive(2, 1000), "a", 0, 0),
    (Op::Receive(0, 1000), "", 0, 0),
    (Op::Receive(2, 1000), "", 0, 0),
];

/// Higher priorities go first, and earlier messages first among equals.
const IN_TURN: [Step; 9] = [
    (Op::Publish(1, ("a", 4, 0)), "", 1, 1),
    (Op::Publish(1, ("b", 9, 0)), "", 2, 2),
    (Op::Publish(1, ("c", 4, 0)), "", 3, 3),
    (Op::Publish(2, ("d", 9, 0)), "", 4, 4),
    (Op::Receive(0, 1000), "b", 3, 3),
    (Op::Receive(0, 1000), "d", 3, 2),
    (Op::Receive(0, 1000), "a", 2, 1),
    (Op::Receive(0, 1000), "c", 1, 0),
    (Op::Receive(1, 1000), "d", 0, 0),
];

/// At its limit a key misses a message.
const LIMITED: [Step; 6] = [
    (Op::Publish(3, ("a", 4, 0)), "", 1, 1),
    (Op::Publish(3, ("b", 4, 0)), "", 2, 2),
    (Op::Receive(1, 1000), "a", 2, 2),
    (Op::Receive(1, 1000), "", 2, 2),
    (Op::Receive(2, 1000), "", 2, 2),
    (Op::Receive(0, 1000), "a", 1, 1),
];

/// A message that is expired goes when its key is asked, from its expiration on.
const EXPIRING: [Step; 6] = [
    (Op::Publish(2, ("a", 4, 500)), "", 1, 1),
    (Op::Publish(1, ("b", 4, 0)), "", 2, 2),
    (Op::Receive(1, 1499), "a", 2, 2),
    (Op::Receive(0, 1500), "b", 0, 0),
    (Op::Publish(2, ("c", 9, 1)), "", 1, 1),
    (Op::Receive(0, 1001), "", 1, 0),
];

/// A key goes with its rows, and those behind it move up.
const REMOVED: [Step; 6] = [
    (Op::Publish(2, ("a", 4, 0)), "", 1, 1),
    (Op::Publish(1, ("b", 4, 0)), "", 2, 2),
    (Op::Remove(0), "", 1, 1),
    (Op::Receive(0, 1000), "a", 0, 0),
    (Op::Remove(1), "", 0, 0),
    (Op::Remove(0), "", 0, 0),
];

/// What a selector does not select stays under its key, in its order; each key goes by itself.
const CHOSEN: [Step; 9] = [
    (Op::Publish(2, ("a", 4, 0)), "", 1, 1),
    (Op::Publish(1, ("b", 9, 0)), "", 2, 2),
    (Op::Publish(2, ("c", 4, 0)), "", 3, 3),
    (Op::ReceiveWhere(0, 1000, "JMSType = 'c'"), "c", 3, 2),
    (Op::ReceiveWhere(1, 1000, "JMSType = 'c'"), "c", 2, 2),
    (Op::ReceiveWhere(0, 1000, "JMSPriority < 5"), "a", 2, 1),
    (Op::ReceiveWhere(0, 1000, "JMSPriority < 5"), "", 2, 1),
    (Op::Receive(1, 1000), "a", 1, 1),
    (Op::ReceiveWhere(0, 1000, ""), "b", 0, 0),
];

/// The limits of the three keys, and what is done with them.
static RUNS: [(&str, [Option<u32>; 3], &[Step]); 6] = [
    ("shared", [None, None, None], &SHARED),
    ("in turn", [None, None, None], &IN_TURN),
    ("limited", [None, Some(1), Some(0)], &LIMITED),
    ("expiring", [None, None, None], &EXPIRING),
    ("removed", [Some(2), Some(1), None], &REMOVED),
    ("chosen", [None, None, None], &CHOSEN),
];

#[test]
fn steps_come_out_as_they_are_written(rt: HostRuntime) {
    for (name, limits, steps) in &RUNS {
        is_number(&rt, name, steps.len(), run(rt.alloc(), limits, steps));
    }
}
