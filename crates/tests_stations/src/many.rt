//! Many keys, of which few have rows out: what is out is found wherever it stands, also once keys went.

use crate::held::{HeldStations, publish_to};
use crate::keys::create;
use crate::outgoing::{Which, consumers};
use crate::told::is_number;
use jm_base::Refusal;
use jm_dest::{ConsumerId, Moment};
use jm_machine::{Answer, Attached};
use jm_stations::Stations;
use std::alloc::Global;
use tests_messages::session;

/// What is done to what is held under the keys.
enum Op {
    /// A message comes to the key with that index, and its next row goes out to the session of that number.
    Send(usize, u32),
    /// The key with that index goes.
    Remove(usize),
    Settle(Which),
    GiveBack(Which),
    Close(Which),
}

/// What is done, how many messages are kept after it, and the indexes of the keys that have rows out.
type Step = (Op, usize, &'static [usize]);

/// How many keys there are at first. Those with an odd index are of the session 1, the others of the session 2.
const KEYS: u32 = 200;

fn created(stations: &mut Stations) -> Result<(), Refusal> {
    for number in 0..KEYS {
        create(stations, (2 - number % 2, number + 1), None)?;
    }
    Ok(())
}

fn publish(alloc: Global, stations: &mut Stations, index: usize) -> Result<(), Refusal> {
    if index >= stations.len() || stations.next_place() > 100 {
        return Err(Refusal::IllegalState);
    }
    publish_to(alloc, stations, ("m", 4, 0), &[index])
}

fn deliver(stations: &mut Stations, index: usize, number: u32) -> Result<Answer, Refusal> {
    let now = Moment::new(1000)?;
    let to = session(number)?;
    let consumer = ConsumerId::new(1)?;
    if index >= stations.len() {
        return Err(Refusal::IllegalState);
    }
    let picked = stations.pick(index, now, false)?;
    Ok(stations.deliver(index, now, picked, to, consumer))
}

fn sends(alloc: Global, stations: &mut Stations, index: usize, number: u32) -> bool {
    publish(alloc, stations, index).is_ok() && deliver(stations, index, number).is_ok()
}

fn removes(stations: &mut Stations, index: usize) -> bool {
    if index < stations.len() {
        stations.remove(index);
        true
    } else {
        false
    }
}

fn settle(stations: &mut Stations, which: &Which) -> Result<(), Refusal> {
    stations.settle(&consumers(which)?);
    Ok(())
}

fn give_back(stations: &mut Stations, which: &Which) -> Result<(), Refusal> {
    stations.give_back(&consumers(which)?);
    Ok(())
}

fn close(alloc: Global, stations: &mut Stations, which: &Which) -> Result<(), Refusal> {
    stations.close(&consumers(which)?, &Attached::new(alloc));
    Ok(())
}

fn does(alloc: Global, stations: &mut Stations, op: &Op) -> bool {
    match op {
        Op::Send(index, number) => sends(alloc, stations, *index, *number),
        Op::Remove(index) => removes(stations, *index),
        Op::Settle(which) => settle(stations, which).is_ok(),
        Op::GiveBack(which) => give_back(stations, which).is_ok(),
        Op::Close(which) => close(alloc, stations, which).is_ok(),
    }
}

/// How many keys have rows out.
fn away(stations: &Stations) -> usize {
    let mut number: usize = 0;
    for index in 0..stations.len() {
        if !stations.is_home(index) {
            number = number.saturating_add(1);
        }
    }
    number
}

/// Whether the keys with those indexes have rows out, and no others.
fn are_away(stations: &Stations, indexes: &[usize]) -> bool {
    for index in indexes {
        if *index >= stations.len() || stations.is_home(*index) {
            return false;
        }
    }
    away(stations) == indexes.len()
}

/// The first step after which something else is there, or how many steps there are.
fn first_other(alloc: Global, stations: &mut Stations, steps: &[Step]) -> usize {
    for (n, step) in steps.iter().enumerate() {
        let (op, kept, indexes) = step;
        if !does(alloc, stations, op) || stations.kept() != *kept || !are_away(stations, indexes) {
            return n;
        }
    }
    steps.len()
}

fn run(alloc: Global, steps: &[Step]) -> usize {
    let mut held = HeldStations::new(alloc);
    match created(&mut held.stations) {
        Ok(()) => first_other(alloc, &mut held.stations, steps),
        Err(_) => usize::MAX,
    }
}

static STEPS: [Step; 17] = [
    (Op::Send(7, 1), 1, &[7]),
    (Op::Send(150, 2), 2, &[7, 150]),
    (Op::Send(199, 1), 3, &[7, 150, 199]),
    (Op::Remove(3), 3, &[6, 149, 198]),
    (Op::Remove(149), 2, &[6, 197]),
    (Op::Settle(Which::OfSession(2)), 2, &[6, 197]),
    (Op::Send(149, 2), 3, &[6, 149, 197]),
    (Op::GiveBack(Which::OfSession(1)), 3, &[149]),
    (Op::Settle(Which::OfSession(2)), 2, &[]),
    (Op::Send(6, 1), 3, &[6]),
    (Op::Send(0, 2), 4, &[0, 6]),
    (Op::Remove(0), 3, &[5]),
    (Op::Close(Which::OfSession(2)), 3, &[2]),
    (Op::Settle(Which::OfConnection(1)), 2, &[]),
    (Op::Send(98, 1), 3, &[98]),
    (Op::Settle(Which::One(1, 2)), 3, &[98]),
    (Op::GiveBack(Which::One(1, 1)), 3, &[]),
];

#[test]
fn rows_that_are_out_are_found_among_many_keys(rt: HostRuntime) {
    is_number(&rt, "many", STEPS.len(), run(rt.alloc(), &STEPS));
}
