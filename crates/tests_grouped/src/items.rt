//! Where equal items stand, as they come and go.

ghost use Rattle.std.specs.Prelude.{◌+◌, ◌<◌, ◌^◌};

use crate::told::is_number;
use jm_grouped::{GroupedList, Indexes};
use std::alloc::{AllocError, Global};

/// What is asked of a list of numbers.
enum Ask {
    /// Puts it behind the others; answers how many there are.
    Push(u32),
    /// Where all those stand that are equal to it: a digit for each, one more than its index.
    Find(u32),
    /// Where the first of them stands.
    First(u32),
    /// How many stand there that are found, where each is read again and is equal to it.
    Read(u32),
    /// As `Find`, of a copy.
    FindInCopy(u32),
    /// Which one stands there.
    At(usize),
    /// Takes out the one that stands there, where one does, and answers how many are left.
    Remove(usize),
    /// How many there are.
    Len,
    /// 1 where there is none, else 0.
    IsEmpty,
}

/// The answer where nothing stands there.
const NONE: usize = 1000;

/// The answer where memory was wanted.
const MEMORY: usize = 2000;

/// What is asked in turn of one list, and what is answered.
static ROWS: [(Ask, usize); 63] = [
    (Ask::IsEmpty, 1),
    (Ask::Find(30), 0),
    (Ask::At(0), NONE),
    (Ask::Push(30), 1),
    (Ask::Push(10), 2),
    (Ask::Push(30), 3),
    (Ask::Push(20), 4),
    (Ask::Push(10), 5),
    (Ask::Push(30), 6),
    (Ask::Push(0), 7),
    (Ask::IsEmpty, 0),
    (Ask::Find(30), 136),
    (Ask::Find(10), 25),
    (Ask::Find(20), 4),
    (Ask::Find(0), 7),
    (Ask::Find(5), 0),
    (Ask::Find(25), 0),
    (Ask::Find(31), 0),
    (Ask::First(10), 1),
    (Ask::First(15), NONE),
    (Ask::Read(30), 3),
    (Ask::Read(15), 0),
    (Ask::FindInCopy(30), 136),
    (Ask::FindInCopy(15), 0),
    (Ask::At(2), 30),
    (Ask::At(6), 0),
    (Ask::At(7), NONE),
    // 30 10 20 10 30 0: the second of the three goes.
    (Ask::Remove(2), 6),
    (Ask::Find(30), 15),
    (Ask::Find(10), 24),
    (Ask::Find(20), 3),
    (Ask::Find(0), 6),
    (Ask::FindInCopy(10), 24),
    (Ask::FindInCopy(30), 15),
    (Ask::First(0), 5),
    (Ask::At(2), 20),
    (Ask::At(5), 0),
    // 30 10 20 10 30 0 30
    (Ask::Push(30), 7),
    (Ask::Find(30), 157),
    // 10 20 10 30 0 30, with the gaps closed.
    (Ask::Remove(0), 6),
    (Ask::Find(30), 46),
    (Ask::Find(10), 13),
    (Ask::Remove(7), NONE),
    // 10 20 10 30 0
    (Ask::Remove(5), 5),
    (Ask::Find(30), 4),
    // 20 10 30 0
    (Ask::Remove(0), 4),
    (Ask::Find(10), 2),
    (Ask::Len, 4),
    // 20 10 30 0 20 20
    (Ask::Push(20), 5),
    (Ask::Push(20), 6),
    (Ask::Find(20), 156),
    // 20 30 0 20 20
    (Ask::Remove(1), 5),
    (Ask::Find(10), 0),
    (Ask::Find(20), 145),
    // 30 0 20 20
    (Ask::Remove(0), 4),
    (Ask::Find(20), 34),
    (Ask::At(0), 30),
    (Ask::Remove(3), 3),
    (Ask::Remove(2), 2),
    (Ask::Find(20), 0),
    (Ask::Remove(0), 1),
    (Ask::Remove(0), 0),
    (Ask::IsEmpty, 1),
];

fn pushed(list: &mut GroupedList<u32>, value: u32) -> usize {
    if list.reserve(1).is_err() {
        return MEMORY;
    }
    list.push(value);
    list.len()
}

fn digits(indexes: Indexes<'_>) -> usize {
    let mut told: usize = 0;
    for index in indexes {
        told = told
            .saturating_mul(10)
            .saturating_add(index.saturating_add(1));
    }
    told
}

fn found(list: &GroupedList<u32>, value: u32) -> usize {
    digits(list.indexes_of(&value))
}

fn first(list: &GroupedList<u32>, value: u32) -> usize {
    list.indexes_of(&value).next().unwrap_or(NONE)
}

fn read(list: &GroupedList<u32>, value: u32) -> usize {
    let mut equal: usize = 0;
    for index in list.indexes_of(&value) {
        equal = equal.saturating_add(usize::from(*list.at(index) == value));
    }
    equal
}

fn copied(alloc: Global, list: &GroupedList<u32>) -> Result<GroupedList<u32>, AllocError> {
    let mut items = Vec::with_capacity(alloc, list.len())?;
    for index in 0..list.len() {
        items.push(*list.at(index))?;
    }
    list.copy_with(items)
}

fn found_in_copy(alloc: Global, list: &GroupedList<u32>, value: u32) -> usize {
    match copied(alloc, list) {
        Ok(copy) => found(&copy, value),
        Err(_) => MEMORY,
    }
}

fn at(list: &GroupedList<u32>, index: usize) -> usize {
    if index < list.len() {
        *list.at(index) as usize
    } else {
        NONE
    }
}

fn removed(list: &mut GroupedList<u32>, index: usize) -> usize {
    if index < list.len() {
        list.remove_at(index);
        list.len()
    } else {
        NONE
    }
}

fn answer(alloc: Global, list: &mut GroupedList<u32>, ask: &Ask) -> usize {
    match ask {
        Ask::Push(value) => pushed(list, *value),
        Ask::Find(value) => found(list, *value),
        Ask::First(value) => first(list, *value),
        Ask::Read(value) => read(list, *value),
        Ask::FindInCopy(value) => found_in_copy(alloc, list, *value),
        Ask::At(index) => at(list, *index),
        Ask::Remove(index) => removed(list, *index),
        Ask::Len => list.len(),
        Ask::IsEmpty => usize::from(list.is_empty()),
    }
}

#[test]
fn numbers_come_and_go(rt: HostRuntime) {
    let mut list = GroupedList::new(rt.alloc());
    for (row, (ask, wanted)) in ROWS.iter().enumerate() {
        let told = answer(rt.alloc(), &mut list, ask);
        is_number(&rt, row, *wanted, told);
    }
}

/// Puts so many numbers into a list, the largest first, which is the worst order, and answers of how many each is then found where
/// it should be, and alone.
fn found_of_many(alloc: Global, many: u32) -> usize {
    let mut list = GroupedList::new(alloc);
    for passed in 0..many {
        let _ = pushed(&mut list, many - passed);
    }
    let mut found: usize = 0;
    for passed in 0..many {
        let mut indexes = list.indexes_of(&(many - passed));
        let stands = indexes.next() == Some(passed as usize) && indexes.next().is_none();
        found = found.saturating_add(usize::from(stands));
    }
    found
}

#[test]
fn many_numbers_in_the_worst_order(rt: HostRuntime) {
    is_number(&rt, 0, 20000, found_of_many(rt.alloc(), 20000));
}

/// Puts so many numbers into a list, of which each is one of a few, and answers how many are then found where they should be: each
/// number at every index that leaves it as the rest.
fn found_in_groups(alloc: Global, many: u32, few: u32) -> usize
    requires { 0 < few }
{
    let mut list = GroupedList::new(alloc);
    for passed in 0..many {
        let _ = pushed(&mut list, passed % few);
    }
    let mut found: usize = 0;
    for value in 0..few {
        let mut wanted = value as usize;
        for index in list.indexes_of(&value) {
            found = found.saturating_add(usize::from(index == wanted));
            wanted = wanted.saturating_add(few as usize);
        }
    }
    found
}

#[test]
fn many_numbers_in_few_groups(rt: HostRuntime) {
    is_number(&rt, 0, 20000, found_in_groups(rt.alloc(), 20000, 7));
    is_number(&rt, 1, 20000, found_in_groups(rt.alloc(), 20000, 1));
}

/// Puts so many numbers into a list, of which each is one of a few, and takes out the first item over and over while the next
/// number comes behind the others; answers how many are then found where they should be.
fn found_after_turns(alloc: Global, many: u32, few: u32, turns: u32) -> usize
    requires some { 0 < few }
    requires fits { many + turns < 2 ^ 32 }
{
    let mut list = GroupedList::new(alloc);
    for passed in 0..many {
        let _ = pushed(&mut list, passed % few);
    }
    for turn in 0..turns {
        let _ = removed(&mut list, 0);
        let _ = pushed(&mut list, (many + turn) % few);
    }
    let mut found: usize = 0;
    for passed in 0..many {
        let value = (turns + passed) % few;
        for index in list.indexes_of(&value) {
            found = found.saturating_add(usize::from(index == passed as usize));
        }
    }
    found
}

#[test]
fn first_numbers_go_as_new_ones_come(rt: HostRuntime) {
    is_number(&rt, 0, 100, found_after_turns(rt.alloc(), 100, 3, 1000));
    is_number(&rt, 1, 1, found_after_turns(rt.alloc(), 1, 1, 50));
}

/// Names in order of coming, and where all stand that are equal to each: a digit for each, one more than its index.
static NAMES: [(&str, usize); 6] = [
    ("orders", 14),
    ("", 2),
    ("order", 3),
    ("orders", 14),
    ("\u{e4}", 5),
    ("Orders", 6),
];

fn add_name(alloc: Global, list: &mut GroupedList<String>, name: &str) -> Result<(), AllocError> {
    list.reserve(1)?;
    list.push(String::from_str(alloc, name)?);
    Ok(())
}

fn found_name(alloc: Global, list: &GroupedList<String>, name: &str) -> usize {
    match String::from_str(alloc, name) {
        Ok(name) => digits(list.indexes_of(&name)),
        Err(_) => MEMORY,
    }
}

#[test]
fn names_stand_in_order_of_coming(rt: HostRuntime) {
    let mut list = GroupedList::new(rt.alloc());
    for (name, _) in &NAMES {
        let _ = add_name(rt.alloc(), &mut list, name);
    }
    is_number(&rt, 100, 6, list.len());
    for (row, (name, wanted)) in NAMES.iter().enumerate() {
        is_number(&rt, row, *wanted, found_name(rt.alloc(), &list, name));
    }
}
