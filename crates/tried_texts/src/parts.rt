//! Lists whose items several owners have.

use jm_base::Refusal;
use jm_parted::parted;
use std::alloc::{AllocError, Global};
use tried::{Answer, Called, Made, Trial, tell};

/// No more than a number.
#[derive(Drop)]
struct Parts {
    alloc: Global,
    number: usize,
}

fn items(alloc: Global) -> Result<Vec<u64>, AllocError> {
    [5, 6, 7].to_vec(alloc)
}

/// How many items the first of two owners has.
fn of_first(alloc: Global) -> Answer {
    let owners = [0, 1, 0];
    let items = items(alloc)?;
    if items.len() != 3 {
        return Ok(0);
    }
    match parted(alloc, &owners, 2, items) {
        Ok(parts) => Ok(first(parts.as_slice())),
        Err(_) => Err(Refusal::Memory),
    }
}

fn first(parts: &[Vec<u64>]) -> u64 {
    match parts.first() {
        Some(part) => part.len() as u64,
        None => 0,
    }
}

impl Trial for Parts {
    fn state(&self) -> u64 {
        0
    }

    fn call(&mut self) -> Called {
        match self.number {
            0 => Called {
                name: "jm_parted parted",
                answer: of_first(self.alloc),
            },
            _ => Called::NONE,
        }
    }
}

/// Makes the call of that number.
pub fn made(alloc: Global, number: usize) -> Made {
    tell(Ok(Parts { alloc, number }))
}
