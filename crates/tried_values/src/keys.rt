//! Keys in order of coming.

use crate::groups;
use jm_base::Refusal;
use jm_indexed::{KeyMap, KeySet};
use std::alloc::{AllocError, Global};
use tried::{Answer, Called, Made, Trial, tell, two};

/// A set of two keys.
#[derive(Drop)]
struct Keys {
    alloc: Global,
    number: usize,
    set: KeySet<u64>,
}

/// Adds the key, where it is not there.
fn add(set: &mut KeySet<u64>, key: u64) -> Result<(), AllocError> {
    set.reserve(1)?;
    if set.index_of(&key).is_none() {
        set.insert(key);
    }
    Ok(())
}

fn fill(set: &mut KeySet<u64>) -> Result<(), AllocError> {
    add(set, 30)?;
    add(set, 20)
}

fn filled(alloc: Global) -> Result<KeySet<u64>, AllocError> {
    let mut set = KeySet::new(alloc);
    match fill(&mut set) {
        Ok(()) => Ok(set),
        Err(AllocError) => Err(AllocError),
    }
}

fn reserved(set: &mut KeySet<u64>) -> Answer {
    match set.reserve(100) {
        Ok(()) => Ok(set.len() as u64),
        Err(AllocError) => Err(Refusal::Memory),
    }
}

/// A copy of the set.
fn copy_of(alloc: Global, set: &KeySet<u64>) -> Result<KeySet<u64>, AllocError> {
    let mut keys = Vec::with_capacity(alloc, set.len())?;
    for index in 0..set.len() {
        keys.push(*set.key_at(index))?;
    }
    set.copy_with(keys)
}

/// The index of the second key in the copy.
fn copied(alloc: Global, set: &KeySet<u64>) -> Answer {
    let copy = copy_of(alloc, set)?;
    Ok(copy.index_of(&20).unwrap_or(9) as u64)
}

impl Keys {
    fn new(alloc: Global, number: usize) -> Result<Keys, Refusal> {
        Ok(Keys {
            alloc,
            number,
            set: filled(alloc)?,
        })
    }
}

impl Trial for Keys {
    /// How many keys there are, and the index of the second.
    fn state(&self) -> u64 {
        two(self.set.len(), self.set.index_of(&20).unwrap_or(9))
    }

    fn call(&mut self) -> Called {
        match self.number {
            0 => Called {
                name: "jm_indexed KeySet::reserve",
                answer: reserved(&mut self.set),
            },
            1 => Called {
                name: "jm_indexed KeySet::copy_with",
                answer: copied(self.alloc, &self.set),
            },
            _ => Called::NONE,
        }
    }
}

/// A map of two keys.
#[derive(Drop)]
struct Entries {
    map: KeyMap<u64, u64>,
}

/// Adds the key with that value, where it is not there.
fn put(map: &mut KeyMap<u64, u64>, key: u64, value: u64) -> Result<(), AllocError> {
    map.reserve(1)?;
    match map.get_mut(&key) {
        Some(held) => *held = value,
        None => map.insert(key, value),
    }
    Ok(())
}

fn put_two(map: &mut KeyMap<u64, u64>) -> Result<(), AllocError> {
    put(map, 30, 3)?;
    put(map, 20, 2)
}

impl Entries {
    fn new(alloc: Global) -> Result<Entries, Refusal> {
        let mut map = KeyMap::new(alloc);
        match put_two(&mut map) {
            Ok(()) => Ok(Entries { map }),
            Err(AllocError) => Err(Refusal::Memory),
        }
    }
}

impl Trial for Entries {
    /// How many keys there are, and the index of the second.
    fn state(&self) -> u64 {
        two(self.map.len(), self.map.index_of(&20).unwrap_or(9))
    }

    fn call(&mut self) -> Called {
        let answer = match self.map.reserve(100) {
            Ok(()) => Ok(self.map.len() as u64),
            Err(AllocError) => Err(Refusal::Memory),
        };
        Called {
            name: "jm_indexed KeyMap::reserve",
            answer,
        }
    }
}

/// Makes the call of that number.
pub fn made(alloc: Global, number: usize) -> Made {
    match number {
        2 => tell(Entries::new(alloc)),
        3 | 4 => groups::made(alloc, number),
        _ => tell(Keys::new(alloc, number)),
    }
}
