//! Keys with the rows that are held under them.

use jm_base::{Refusal, Str};
use jm_dest::{Key, Moment, Name};
use jm_machine::{Row, RowState};
use jm_selector::Selector;
use jm_stations::Stations;
use std::alloc::{AllocError, Global};
use tests_calls::{At, sent};
use tried::{Answer, Called, Made, Trial, tell, two};

/// A queue that holds a message, or none yet, and what it is asked.
#[derive(Drop)]
struct Queues {
    number: usize,
    now: Moment,
    selector: Selector,
    key: Key,
    stations: Stations,
}

fn key(alloc: Global) -> Result<Key, Refusal> {
    Ok(Key::Queue(Name::new(alloc, "orders")?))
}

fn text(alloc: Global) -> Result<Option<Str>, AllocError> {
    Ok(Some(Str::new(String::from_str(alloc, "JMSPriority = 4")?)))
}

fn selector(alloc: Global) -> Result<Selector, Refusal> {
    Selector::read(alloc, &text(alloc)?)
}

fn row(alloc: Global) -> Result<Row, Refusal> {
    Ok(Row {
        message: sent(alloc, 1, At::Queue("orders"), Some(1))?,
        count: 0,
        state: RowState::Waiting,
    })
}

/// Adds the key, where it is not there.
fn add(stations: &mut Stations, key: Key) -> Result<(), Refusal> {
    stations.reserve_key()?;
    if stations.index_of(&key).is_none() {
        stations.create(key, None);
    }
    Ok(())
}

/// Loads the row under the first key, at a place below the hundredth.
fn load(alloc: Global, stations: &mut Stations) -> Result<(), Refusal> {
    if stations.len() == 0 || stations.next_place() > 100 {
        return Err(Refusal::IllegalState);
    }
    stations.reserve(&[0], 1)?;
    stations.load(0, row(alloc)?);
    Ok(())
}

fn fill(alloc: Global, stations: &mut Stations) -> Result<(), Refusal> {
    add(stations, key(alloc)?)?;
    load(alloc, stations)
}

fn one(alloc: Global) -> Result<Stations, Refusal> {
    let mut stations = Stations::new(alloc);
    match fill(alloc, &mut stations) {
        Ok(()) => Ok(stations),
        Err(refusal) => Err(refusal),
    }
}

/// What the call is made on: it makes room for a first key where that is the call.
fn stations_for(alloc: Global, number: usize) -> Result<Stations, Refusal> {
    if number == 3 {
        return Ok(Stations::new(alloc));
    }
    one(alloc)
}

/// How many keys there are, and how many messages.
fn numbers(stations: &Stations) -> u64 {
    two(stations.len(), stations.kept())
}

fn copied(stations: &Stations) -> Answer {
    match stations.copy() {
        Ok(copy) => Ok(numbers(&copy)),
        Err(_) => Err(Refusal::Memory),
    }
}

fn rows(stations: &Stations) -> Answer {
    if stations.len() == 0 {
        return Ok(0);
    }
    match stations.rows_of(0) {
        Ok(rows) => Ok(rows.len() as u64),
        Err(_) => Err(Refusal::Memory),
    }
}

fn indexes(stations: &Stations, key: Key) -> Answer {
    let keys = [key];
    if stations.index_of(&keys[0]).is_none() {
        return Ok(0);
    }
    match stations.indexes_of(&keys) {
        Ok(indexes) => Ok(indexes.len() as u64),
        Err(_) => Err(Refusal::Memory),
    }
}

fn reserved_key(stations: &mut Stations) -> Answer {
    match stations.reserve_key() {
        Ok(()) => Ok(numbers(stations)),
        Err(_) => Err(Refusal::Memory),
    }
}

fn reserved(stations: &mut Stations) -> Answer {
    if stations.len() == 0 {
        return Ok(0);
    }
    match stations.reserve(&[0], 100) {
        Ok(()) => Ok(numbers(stations)),
        Err(_) => Err(Refusal::Memory),
    }
}

fn picked(stations: &Stations, now: Moment) -> Answer {
    if stations.len() == 0 {
        return Ok(0);
    }
    match stations.pick(0, now, false) {
        Ok(picked) => Ok(u64::from(picked.is_some())),
        Err(_) => Err(Refusal::Memory),
    }
}

fn picked_where(stations: &Stations, now: Moment, selector: &Selector) -> Answer {
    if stations.len() == 0 {
        return Ok(0);
    }
    match stations.pick_where(0, now, false, selector) {
        Ok(picked) => Ok(u64::from(picked.is_some())),
        Err(_) => Err(Refusal::Memory),
    }
}

impl Queues {
    fn new(alloc: Global, number: usize) -> Result<Queues, Refusal> {
        let now = Moment::new(1000)?;
        Ok(Queues {
            number,
            now,
            selector: selector(alloc)?,
            key: key(alloc)?,
            stations: stations_for(alloc, number)?,
        })
    }
}

impl Trial for Queues {
    fn state(&self) -> u64 {
        numbers(&self.stations)
    }

    fn call(&mut self) -> Called {
        match self.number {
            0 => Called {
                name: "jm_stations Stations::copy",
                answer: copied(&self.stations),
            },
            1 => Called {
                name: "jm_stations Stations::rows_of",
                answer: rows(&self.stations),
            },
            2 => Called {
                name: "jm_stations Stations::indexes_of",
                answer: match self.key.copy() {
                    Ok(key) => indexes(&self.stations, key),
                    Err(_) => Err(Refusal::Memory),
                },
            },
            3 => Called {
                name: "jm_stations Stations::reserve_key",
                answer: reserved_key(&mut self.stations),
            },
            4 => Called {
                name: "jm_stations Stations::reserve",
                answer: reserved(&mut self.stations),
            },
            5 => Called {
                name: "jm_stations Stations::pick",
                answer: picked(&self.stations, self.now),
            },
            6 => Called {
                name: "jm_stations Stations::pick_where",
                answer: picked_where(&self.stations, self.now, &self.selector),
            },
            _ => Called::NONE,
        }
    }
}

/// Makes the call of that number.
pub fn made(alloc: Global, number: usize) -> Made {
    tell(Queues::new(alloc, number))
}
