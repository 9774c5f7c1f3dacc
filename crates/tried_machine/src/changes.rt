//! Changes of what is stored.

use crate::definitions::{definition, key};
use jm_base::Refusal;
use jm_keep::RowChange;
use std::alloc::Global;
use tried::{Answer, Called, Made, Trial, same, tell};

/// The change that a durable subscription comes.
#[derive(Drop)]
struct Changes {
    alloc: Global,
    number: usize,
    change: RowChange,
}

fn change(alloc: Global) -> Result<RowChange, Refusal> {
    let definition = definition(alloc)?;
    Ok(RowChange::PutStation {
        key: key(alloc)?,
        definition: Some(definition),
    })
}

fn copied(alloc: Global, change: &RowChange) -> Answer {
    match change.copy(alloc) {
        Ok(copy) => Ok(same(&copy, change)),
        Err(_) => Err(Refusal::Memory),
    }
}

impl Changes {
    fn new(alloc: Global, number: usize) -> Result<Changes, Refusal> {
        Ok(Changes {
            alloc,
            number,
            change: change(alloc)?,
        })
    }
}

impl Trial for Changes {
    fn state(&self) -> u64 {
        0
    }

    fn call(&mut self) -> Called {
        match self.number {
            0 => Called {
                name: "jm_keep RowChange::copy",
                answer: copied(self.alloc, &self.change),
            },
            _ => Called::NONE,
        }
    }
}

/// Makes the call of that number.
pub fn made(alloc: Global, number: usize) -> Made {
    tell(Changes::new(alloc, number))
}
