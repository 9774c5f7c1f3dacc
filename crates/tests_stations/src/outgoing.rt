//! Rows that go out to sessions, are settled, and wait again; keys that close; publications that are missed.

use crate::held::{HeldStations, delivers, publish_to};
use crate::keys::create;
use crate::told::is_number;
use jm_base::Refusal;
use jm_dest::{ConnectionId, ConsumerId, Moment};
use jm_machine::{Answer, Attached, Consumers};
use jm_stations::Stations;
use std::alloc::Global;
use tests_messages::{Words, selector, session};

/// The consumers that a step is about, by the number of a connection, or of a session of the connection 1.
pub(crate) enum Which {
    OfConnection(u32),
    OfSession(u32),
    /// That consumer of the session.
    One(u32, u32),
}

/// What is done to what is held under the keys.
enum Op {
    /// A message comes to both keys.
    Publish(Words),
    /// The next row under the key with that index goes out to its session at that moment, and this text with this
    /// count is handed out, or nothing where the text is empty.
    Deliver(usize, i64, &'static str, u32),
    /// The same of those rows that the selector selects.
    DeliverWhere(usize, i64, &'static str, &'static str, u32),
    Settle(Which),
    GiveBack(Which),
    Close(Which),
}

/// What is done, how many messages are kept after it, how many publications the first key missed, and whether there is a
/// first key of which no row is out.
type Step = (Op, usize, u64, bool);

/// The sessions of the two keys, each of its first consumer.
static SESSIONS: [u32; 2] = [1, 2];

pub(crate) fn consumers(which: &Which) -> Result<Consumers, Refusal> {
    match which {
        Which::OfConnection(connection) => {
            Ok(Consumers::OfConnection(ConnectionId::new(*connection)?))
        }
        Which::OfSession(number) => Ok(Consumers::OfSession(session(*number)?)),
        Which::One(of, number) => Ok(Consumers::One(session(*of)?, ConsumerId::new(*number)?)),
    }
}

fn publish(alloc: Global, stations: &mut Stations, words: Words) -> Result<(), Refusal> {
    if stations.len() < 2 || stations.next_place() > 100 {
        return Err(Refusal::IllegalState);
    }
    publish_to(alloc, stations, words, &[0, 1])
}

fn deliver(stations: &mut Stations, index: usize, at: i64) -> Result<Answer, Refusal> {
    let now = Moment::new(at)?;
    if index >= stations.len() || index >= 2 {
        return Err(Refusal::IllegalState);
    }
    let to = session(SESSIONS[index])?;
    let consumer = ConsumerId::new(1)?;
    let picked = stations.pick(index, now, false)?;
    Ok(stations.deliver(index, now, picked, to, consumer))
}

fn deliver_where(
    alloc: Global,
    stations: &mut Stations,
    index: usize,
    at: i64,
    text: &str,
) -> Result<Answer, Refusal> {
    let now = Moment::new(at)?;
    if index >= stations.len() || index >= 2 {
        return Err(Refusal::IllegalState);
    }
    let to = session(SESSIONS[index])?;
    let consumer = ConsumerId::new(1)?;
    let selector = selector(alloc, text)?;
    let picked = stations.pick_where(index, now, false, &selector)?;
    Ok(stations.deliver(index, now, picked, to, consumer))
}

fn settle(stations: &mut Stations, which: &Which) -> Result<(), Refusal> {
    stations.settle(&consumers(which)?);
    Ok(())
}

fn give_back(stations: &mut Stations, which: &Which) -> Result<(), Refusal> {
    stations.give_back(&consumers(which)?);
    Ok(())
}

fn close(alloc: Global, stations: &mut Stations, which: &Which) -> Result<(), Refusal> {
    stations.close(&consumers(which)?, &Attached::new(alloc));
    Ok(())
}

fn does(alloc: Global, stations: &mut Stations, op: &Op) -> bool {
    match op {
        Op::Publish(words) => publish(alloc, stations, *words).is_ok(),
        Op::Deliver(index, at, text, count) => {
            delivers(deliver(stations, *index, *at), text, *count)
        }
        Op::DeliverWhere(index, at, selector, text, count) => delivers(
            deliver_where(alloc, stations, *index, *at, selector),
            text,
            *count,
        ),
        Op::Settle(which) => settle(stations, which).is_ok(),
        Op::GiveBack(which) => give_back(stations, which).is_ok(),
        Op::Close(which) => close(alloc, stations, which).is_ok(),
    }
}

fn missed(stations: &Stations) -> u64 {
    if stations.len() == 0 {
        0
    } else {
        stations.missed(0)
    }
}

fn is_home(stations: &Stations) -> bool {
    stations.len() > 0 && stations.is_home(0)
}

/// Whether that is there after the step.
fn comes_out(alloc: Global, stations: &mut Stations, step: &Step) -> bool {
    let (op, kept, lost, home) = step;
    does(alloc, stations, op)
        && stations.kept() == *kept
        && missed(stations) == *lost
        && is_home(stations) == *home
}

/// The first step after which something else is there, or how many steps there are.
fn first_other(alloc: Global, stations: &mut Stations, steps: &[Step]) -> usize {
    for (n, step) in steps.iter().enumerate() {
        if !comes_out(alloc, stations, step) {
            return n;
        }
    }
    steps.len()
}

fn created(stations: &mut Stations, limit: Option<u32>) -> Result<(), Refusal> {
    create(stations, (SESSIONS[0], 1), limit)?;
    create(stations, (SESSIONS[1], 1), None)
}

/// The same over two keys, of which the first has that limit.
fn run(alloc: Global, limit: Option<u32>, steps: &[Step]) -> usize {
    let mut held = HeldStations::new(alloc);
    match created(&mut held.stations, limit) {
        Ok(()) => first_other(alloc, &mut held.stations, steps),
        Err(_) => usize::MAX,
    }
}

/// What is out stays held until it is settled, also where it expires.
const SETTLED: [Step; 7] = [
    (Op::Publish(("a", 4, 500)), 1, 0, true),
    (Op::Deliver(0, 1000, "a", 1), 1, 0, false),
    (Op::Deliver(0, 1000, "", 0), 1, 0, false),
    (Op::Deliver(1, 1500, "", 0), 1, 0, false),
    (Op::Deliver(0, 1500, "", 0), 1, 0, false),
    (Op::Settle(Which::OfSession(2)), 1, 0, false),
    (Op::Settle(Which::OfSession(1)), 0, 0, true),
];

/// What is given back comes again in its order, with its count; what another session has stays out.
const GIVEN_BACK: [Step; 9] = [
    (Op::Publish(("a", 4, 0)), 1, 0, true),
    (Op::Publish(("b", 4, 0)), 2, 0, true),
    (Op::Deliver(0, 1000, "a", 1), 2, 0, false),
    (Op::Deliver(0, 1000, "b", 1), 2, 0, false),
    (Op::Deliver(1, 1000, "a", 1), 2, 0, false),
    (Op::GiveBack(Which::OfSession(1)), 2, 0, true),
    (Op::Deliver(1, 1000, "b", 1), 2, 0, true),
    (Op::Deliver(0, 1000, "a", 2), 2, 0, false),
    (Op::Deliver(0, 1000, "b", 2), 2, 0, false),
];

/// Rows that are out count for the limit.
const LIMITED: [Step; 5] = [
    (Op::Publish(("a", 4, 0)), 1, 0, true),
    (Op::Deliver(0, 1000, "a", 1), 1, 0, false),
    (Op::Publish(("b", 4, 0)), 2, 1, false),
    (Op::Settle(Which::OfConnection(1)), 2, 1, true),
    (Op::Publish(("c", 4, 0)), 3, 1, true),
];

/// A session's keys go with what is held under them, and the other's stay.
const CLOSED: [Step; 5] = [
    (Op::Publish(("a", 4, 0)), 1, 0, true),
    (Op::Deliver(1, 1000, "a", 1), 1, 0, true),
    (Op::Close(Which::OfSession(1)), 1, 0, false),
    (Op::Deliver(0, 1000, "", 0), 1, 0, false),
    (Op::Close(Which::OfConnection(1)), 0, 0, false),
];

/// What a selector does not select waits where it was; what was chosen and is given back comes again at its place.
const CHOSEN: [Step; 12] = [
    (Op::Publish(("a", 4, 0)), 1, 0, true),
    (Op::Publish(("b", 9, 0)), 2, 0, true),
    (Op::Publish(("c", 4, 0)), 3, 0, true),
    (
        Op::DeliverWhere(0, 1000, "JMSType = 'c'", "c", 1),
        3,
        0,
        false,
    ),
    (
        Op::DeliverWhere(0, 1000, "JMSPriority < 5", "a", 1),
        3,
        0,
        false,
    ),
    (
        Op::DeliverWhere(0, 1000, "JMSPriority < 5", "", 0),
        3,
        0,
        false,
    ),
    (Op::GiveBack(Which::OfSession(1)), 3, 0, true),
    (Op::Deliver(0, 1000, "b", 1), 3, 0, false),
    (
        Op::DeliverWhere(0, 1000, "JMSType <> 'a'", "c", 2),
        3,
        0,
        false,
    ),
    (
        Op::DeliverWhere(1, 1000, "JMSType = 'a'", "a", 1),
        3,
        0,
        false,
    ),
    (Op::Settle(Which::OfConnection(1)), 3, 0, true),
    (Op::Deliver(0, 1000, "a", 2), 3, 0, false),
];

/// The limit of the first key, and what is done.
static RUNS: [(&str, Option<u32>, &[Step]); 5] = [
    ("settled", None, &SETTLED),
    ("given back", None, &GIVEN_BACK),
    ("limited", Some(1), &LIMITED),
    ("closed", None, &CLOSED),
    ("chosen", None, &CHOSEN),
];

#[test]
fn rows_go_out_and_come_again(rt: HostRuntime) {
    for (name, limit, steps) in &RUNS {
        is_number(&rt, name, steps.len(), run(rt.alloc(), *limit, steps));
    }
}
