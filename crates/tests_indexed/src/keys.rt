//! Where keys stand, as they come and go.

ghost use Rattle.std.specs.Prelude.{◌+◌, ◌<◌, ◌^◌};

use crate::told::is_number;
use jm_indexed::{Choice, KeySet};
use jm_shared::SharedStr;
use std::alloc::{AllocError, Global};

/// What is asked of a set of numbers.
enum Ask {
    /// Puts it behind the others, where it is new; answers how many there are.
    Insert(u32),
    /// Where it stands.
    Find(u32),
    /// Which one stands there.
    At(usize),
    /// Takes out the one that stands there, where one does, and answers how many are left.
    Remove(usize),
    /// Leaves those that are not below it; answers how many there are.
    Keep(u32),
    /// Where it stands in a copy.
    FindInCopy(u32),
    /// How many there are.
    Len,
    /// 1 where there is none, else 0.
    IsEmpty,
    /// 1 where one is not below it, else 0.
    AnyNotBelow(u32),
}

/// The answer where nothing stands there.
const NONE: usize = 1000;

/// The answer where memory was wanted.
const MEMORY: usize = 2000;

/// What is asked in turn of one set, and what is answered.
static ROWS: [(Ask, usize); 57] = [
    (Ask::IsEmpty, 1),
    (Ask::Find(30), NONE),
    (Ask::Insert(30), 1),
    (Ask::Insert(10), 2),
    (Ask::Insert(20), 3),
    (Ask::Insert(10), 3),
    (Ask::Insert(40), 4),
    (Ask::Insert(0), 5),
    (Ask::IsEmpty, 0),
    (Ask::Find(30), 0),
    (Ask::Find(10), 1),
    (Ask::Find(20), 2),
    (Ask::Find(40), 3),
    (Ask::Find(0), 4),
    (Ask::Find(25), NONE),
    (Ask::Find(41), NONE),
    (Ask::At(2), 20),
    (Ask::At(5), NONE),
    (Ask::FindInCopy(20), 2),
    (Ask::FindInCopy(21), NONE),
    (Ask::AnyNotBelow(40), 1),
    (Ask::AnyNotBelow(41), 0),
    (Ask::Remove(1), 4),
    (Ask::Remove(4), NONE),
    (Ask::Len, 4),
    (Ask::At(1), 20),
    (Ask::At(3), 0),
    (Ask::FindInCopy(0), 3),
    (Ask::FindInCopy(10), NONE),
    (Ask::Find(10), NONE),
    (Ask::Find(30), 0),
    (Ask::Find(20), 1),
    (Ask::Find(0), 3),
    (Ask::Insert(10), 5),
    (Ask::Find(10), 4),
    (Ask::Remove(2), 4),
    (Ask::AnyNotBelow(31), 0),
    (Ask::Remove(0), 3),
    (Ask::Find(20), 0),
    (Ask::Find(0), 1),
    (Ask::Find(10), 2),
    (Ask::FindInCopy(10), 2),
    (Ask::Insert(30), 4),
    (Ask::Insert(40), 5),
    (Ask::Find(40), 4),
    (Ask::Remove(0), 4),
    (Ask::Insert(20), 5),
    (Ask::Find(20), 4),
    (Ask::Keep(20), 3),
    (Ask::Find(30), 0),
    (Ask::Find(40), 1),
    (Ask::Find(20), 2),
    (Ask::Find(0), NONE),
    (Ask::Insert(5), 4),
    (Ask::Find(5), 3),
    (Ask::Keep(100), 0),
    (Ask::IsEmpty, 1),
];

/// Keeps what is not below a number.
#[derive(Clone, Copy)]
struct NotBelow {
    least: u32,
}

impl Choice<u32> for NotBelow {
    ghost use Rattle.std.specs.Prelude.{nat_le};

    ghost kept = { λ choice key. nat_le choice.least key };

    fn keeps(&self, key: &u32) -> bool {
        self.least <= *key
    }
}

fn inserted(set: &mut KeySet<u32>, key: u32) -> usize {
    if set.reserve(1).is_err() {
        return MEMORY;
    }
    if set.index_of(&key).is_none() {
        set.insert(key);
    }
    set.len()
}

fn at(set: &KeySet<u32>, index: usize) -> usize {
    if index < set.len() {
        *set.key_at(index) as usize
    } else {
        NONE
    }
}

fn removed(set: &mut KeySet<u32>, index: usize) -> usize {
    if index < set.len() {
        set.remove(index);
        set.len()
    } else {
        NONE
    }
}

fn kept(set: &mut KeySet<u32>, least: u32) -> usize {
    set.retain(&NotBelow { least });
    set.len()
}

fn copied(alloc: Global, set: &KeySet<u32>) -> Result<KeySet<u32>, AllocError> {
    let mut keys = Vec::with_capacity(alloc, set.len())?;
    for index in 0..set.len() {
        keys.push(*set.key_at(index))?;
    }
    set.copy_with(keys)
}

fn found_in_copy(alloc: Global, set: &KeySet<u32>, key: u32) -> usize {
    match copied(alloc, set) {
        Ok(copy) => copy.index_of(&key).unwrap_or(NONE),
        Err(_) => MEMORY,
    }
}

fn answer(alloc: Global, set: &mut KeySet<u32>, ask: &Ask) -> usize {
    match ask {
        Ask::Insert(key) => inserted(set, *key),
        Ask::Find(key) => set.index_of(key).unwrap_or(NONE),
        Ask::At(index) => at(set, *index),
        Ask::Remove(index) => removed(set, *index),
        Ask::Keep(least) => kept(set, *least),
        Ask::FindInCopy(key) => found_in_copy(alloc, set, *key),
        Ask::Len => set.len(),
        Ask::IsEmpty => usize::from(set.is_empty()),
        Ask::AnyNotBelow(least) => usize::from(set.any(&NotBelow { least: *least })),
    }
}

#[test]
fn numbers_come_and_go(rt: HostRuntime) {
    let mut set = KeySet::new(rt.alloc());
    for (row, (ask, wanted)) in ROWS.iter().enumerate() {
        let told = answer(rt.alloc(), &mut set, ask);
        is_number(&rt, row, *wanted, told);
    }
}

/// Puts so many numbers into a set, the largest first, which is the worst order, and answers how many then stand where they should.
fn found_of_many(alloc: Global, many: u32) -> usize {
    let mut set = KeySet::new(alloc);
    for passed in 0..many {
        let _ = inserted(&mut set, many - passed);
    }
    let mut found: usize = 0;
    for passed in 0..many {
        let stands = set.index_of(&(many - passed)) == Some(passed as usize);
        found = found.saturating_add(usize::from(stands));
    }
    found
}

#[test]
fn many_numbers_in_the_worst_order(rt: HostRuntime) {
    is_number(&rt, 0, 20000, found_of_many(rt.alloc(), 20000));
}

/// Puts so many numbers into a set, and takes out the first of them over and over while a new one comes behind the others; answers
/// how many then stand where they should.
fn found_after_turns(alloc: Global, many: u32, turns: u32) -> usize
    requires { many + turns < 2 ^ 32 }
{
    let mut set = KeySet::new(alloc);
    for key in 0..many {
        let _ = inserted(&mut set, key);
    }
    for turn in 0..turns {
        let _ = removed(&mut set, 0);
        let _ = inserted(&mut set, many + turn);
    }
    let mut found: usize = 0;
    for passed in 0..many {
        let stands = set.index_of(&(turns + passed)) == Some(passed as usize);
        found = found.saturating_add(usize::from(stands));
    }
    found
}

#[test]
fn first_numbers_go_as_new_ones_come(rt: HostRuntime) {
    is_number(&rt, 0, 100, found_after_turns(rt.alloc(), 100, 1000));
}

#[test]
fn first_number_of_one_goes_as_a_new_one_comes(rt: HostRuntime) {
    is_number(&rt, 0, 1, found_after_turns(rt.alloc(), 1, 50));
}

/// Names in order of coming, and where each stands in the end: one comes twice.
static NAMES: [(&str, usize); 6] = [
    ("orders", 0),
    ("", 1),
    ("order", 2),
    ("orders", 0),
    ("\u{e4}", 3),
    ("Orders", 4),
];

fn add_name(alloc: Global, set: &mut KeySet<SharedStr>, name: &str) -> Result<(), AllocError> {
    set.reserve(1)?;
    let name = SharedStr::from_str(alloc, name)?;
    if set.index_of(&name).is_none() {
        set.insert(name);
    }
    Ok(())
}

fn index_of_name(alloc: Global, set: &KeySet<SharedStr>, name: &str) -> usize {
    match SharedStr::from_str(alloc, name) {
        Ok(name) => set.index_of(&name).unwrap_or(NONE),
        Err(_) => MEMORY,
    }
}

#[test]
fn names_stand_in_order_of_coming(rt: HostRuntime) {
    let mut set = KeySet::new(rt.alloc());
    for (name, _) in &NAMES {
        let _ = add_name(rt.alloc(), &mut set, name);
    }
    is_number(&rt, 100, 5, set.len());
    for (row, (name, wanted)) in NAMES.iter().enumerate() {
        is_number(&rt, row, *wanted, index_of_name(rt.alloc(), &set, name));
    }
}
