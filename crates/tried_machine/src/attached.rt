//! How many active consumers subscriptions that have names have.

use crate::definitions::{consumer, key};
use jm_base::Refusal;
use jm_dest::Key;
use jm_machine::{Attached, Consumer};
use std::alloc::Global;
use tried::{Answer, Called, Made, Trial, tell};

/// A consumer, and the counts of it.
#[derive(Drop)]
struct Counts {
    alloc: Global,
    number: usize,
    consumers: Vec<Consumer>,
    attached: Attached,
    key: Key,
}

fn consumers(alloc: Global) -> Result<Vec<Consumer>, Refusal> {
    let mut consumers = Vec::new(alloc);
    if consumers.push(consumer(alloc)?).is_err() {
        return Err(Refusal::Memory);
    }
    Ok(consumers)
}

fn attached(alloc: Global, consumers: &[Consumer]) -> Result<Attached, Refusal> {
    match Attached::of(alloc, consumers) {
        Ok(attached) => Ok(attached),
        Err(_) => Err(Refusal::Memory),
    }
}

impl Counts {
    fn new(alloc: Global, number: usize) -> Result<Counts, Refusal> {
        let consumers = consumers(alloc)?;
        let attached = attached(alloc, consumers.as_slice())?;
        Ok(Counts {
            alloc,
            number,
            consumers,
            attached,
            key: key(alloc)?,
        })
    }

    fn counted(&self) -> Answer {
        match attached(self.alloc, self.consumers.as_slice()) {
            Ok(attached) => Ok(attached.number(&self.key)),
            Err(refusal) => Err(refusal),
        }
    }

    fn reserved(&mut self) -> Answer {
        match self.attached.reserve(100) {
            Ok(()) => Ok(self.attached.number(&self.key)),
            Err(_) => Err(Refusal::Memory),
        }
    }
}

impl Trial for Counts {
    /// How many active consumers there are.
    fn state(&self) -> u64 {
        self.attached.number(&self.key)
    }

    fn call(&mut self) -> Called {
        match self.number {
            0 => Called {
                name: "jm_machine Attached::of",
                answer: self.counted(),
            },
            1 => Called {
                name: "jm_machine Attached::reserve",
                answer: self.reserved(),
            },
            _ => Called::NONE,
        }
    }
}

/// Makes the call of that number.
pub fn made(alloc: Global, number: usize) -> Made {
    tell(Counts::new(alloc, number))
}
