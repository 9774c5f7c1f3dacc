//! The record of events.

use jm_base::Refusal;
use jm_machine::{Answer as Told, Event};
use jm_model::expand;
use std::alloc::Global;
use std::slice;
use tests_calls::{At, publication};
use tried::{Answer, Called, Made, Trial, tell};

/// The publication of two messages, which was accepted.
#[derive(Drop)]
struct Events {
    alloc: Global,
    number: usize,
    event: Event,
}

fn event(alloc: Global) -> Result<Event, Refusal> {
    Ok(Event {
        step: publication(alloc, 1, At::Topic("t"), None, 2)?,
        reply: Ok(Told::Done),
    })
}

fn expanded(alloc: Global, events: &[Event]) -> Answer {
    match expand(alloc, events) {
        Ok(entries) => Ok(entries.len() as u64),
        Err(_) => Err(Refusal::Memory),
    }
}

impl Events {
    fn new(alloc: Global, number: usize) -> Result<Events, Refusal> {
        Ok(Events {
            alloc,
            number,
            event: event(alloc)?,
        })
    }
}

impl Trial for Events {
    fn state(&self) -> u64 {
        0
    }

    fn call(&mut self) -> Called {
        match self.number {
            0 => Called {
                name: "jm_model expand",
                answer: expanded(self.alloc, slice::from_ref(&self.event)),
            },
            _ => Called::NONE,
        }
    }
}

/// Makes the call of that number.
pub fn made(alloc: Global, number: usize) -> Made {
    tell(Events::new(alloc, number))
}
