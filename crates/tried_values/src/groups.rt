//! Values in order of coming, of which equal ones are found together.

use jm_base::Refusal;
use jm_grouped::GroupedList;
use std::alloc::{AllocError, Global};
use tried::{Answer, Called, Made, Trial, tell, two};

/// A list of three values, of which the first and the last are equal.
#[derive(Drop)]
struct Groups {
    alloc: Global,
    number: usize,
    list: GroupedList<u64>,
}

fn fill(list: &mut GroupedList<u64>) -> Result<(), AllocError> {
    list.reserve(3)?;
    list.push(30);
    list.push(20);
    list.push(30);
    Ok(())
}

fn filled(alloc: Global) -> Result<GroupedList<u64>, AllocError> {
    let mut list = GroupedList::new(alloc);
    match fill(&mut list) {
        Ok(()) => Ok(list),
        Err(AllocError) => Err(AllocError),
    }
}

/// The index of the last value that is equal to that one, or 9.
fn last_of(list: &GroupedList<u64>, value: u64) -> usize {
    let mut last = 9;
    for index in list.indexes_of(&value) {
        last = index;
    }
    last
}

fn reserved(list: &mut GroupedList<u64>) -> Answer {
    match list.reserve(100) {
        Ok(()) => Ok(list.len() as u64),
        Err(AllocError) => Err(Refusal::Memory),
    }
}

/// A copy of the list.
fn copy_of(alloc: Global, list: &GroupedList<u64>) -> Result<GroupedList<u64>, AllocError> {
    let mut items = Vec::with_capacity(alloc, list.len())?;
    for index in 0..list.len() {
        items.push(*list.at(index))?;
    }
    list.copy_with(items)
}

/// The index of the last of the equal values in the copy.
fn copied(alloc: Global, list: &GroupedList<u64>) -> Answer {
    let copy = copy_of(alloc, list)?;
    Ok(last_of(&copy, 30) as u64)
}

impl Groups {
    fn new(alloc: Global, number: usize) -> Result<Groups, Refusal> {
        Ok(Groups {
            alloc,
            number,
            list: filled(alloc)?,
        })
    }
}

impl Trial for Groups {
    /// How many values there are, and the index of the last of the equal ones.
    fn state(&self) -> u64 {
        two(self.list.len(), last_of(&self.list, 30))
    }

    fn call(&mut self) -> Called {
        match self.number {
            3 => Called {
                name: "jm_grouped GroupedList::reserve",
                answer: reserved(&mut self.list),
            },
            4 => Called {
                name: "jm_grouped GroupedList::copy_with",
                answer: copied(self.alloc, &self.list),
            },
            _ => Called::NONE,
        }
    }
}

/// Makes the call of that number.
pub(crate) fn made(alloc: Global, number: usize) -> Made {
    tell(Groups::new(alloc, number))
}
