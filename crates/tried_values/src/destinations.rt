//! Destinations, and the keys of what is held for them.

use jm_base::Refusal;
use jm_dest::{Destination, Key, Name};
use std::alloc::Global;
use tried::{Answer, Called, Made, Trial, same, tell, two};

/// A destination and a key.
#[derive(Drop)]
struct Destinations {
    alloc: Global,
    number: usize,
    destination: Destination,
    key: Key,
}

/// The length of the name; 100 more of a topic's.
fn length(destination: &Destination) -> u64 {
    match destination {
        Destination::Queue(name) => two(0, name.as_str().len()),
        Destination::Topic(name) => two(1, name.as_str().len()),
    }
}

fn queue(alloc: Global) -> Answer {
    Ok(length(&Destination::queue(alloc, "orders")?))
}

fn topic(alloc: Global) -> Answer {
    Ok(length(&Destination::topic(alloc, "news")?))
}

fn copied(destination: &Destination) -> Answer {
    Ok(length(&destination.copy()?))
}

fn copied_key(key: &Key) -> Answer {
    match key.copy() {
        Ok(copy) => Ok(same(&copy, key)),
        Err(_) => Err(Refusal::Memory),
    }
}

fn queue_key(alloc: Global) -> Result<Key, Refusal> {
    Ok(Key::Queue(Name::new(alloc, "orders")?))
}

impl Destinations {
    fn new(alloc: Global, number: usize) -> Result<Destinations, Refusal> {
        Ok(Destinations {
            alloc,
            number,
            destination: Destination::topic(alloc, "a")?,
            key: queue_key(alloc)?,
        })
    }
}

impl Trial for Destinations {
    /// The length of the destination's name.
    fn state(&self) -> u64 {
        length(&self.destination)
    }

    fn call(&mut self) -> Called {
        match self.number {
            0 => Called {
                name: "jm_dest Destination::queue",
                answer: queue(self.alloc),
            },
            1 => Called {
                name: "jm_dest Destination::topic",
                answer: topic(self.alloc),
            },
            2 => Called {
                name: "jm_dest Destination::copy",
                answer: copied(&self.destination),
            },
            3 => Called {
                name: "jm_dest Key::copy",
                answer: copied_key(&self.key),
            },
            _ => Called::NONE,
        }
    }
}

/// Makes the call of that number.
pub fn made(alloc: Global, number: usize) -> Made {
    tell(Destinations::new(alloc, number))
}
