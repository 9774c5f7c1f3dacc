//! What stands under keys, as they come and go.

use crate::told::is_number;
use jm_indexed::{Choice, EntryChoice, KeyMap};

/// What is asked of a map of numbers.
enum Ask {
    /// Puts the value under the key, where it is new, and else in the place of what stands there; answers how many keys there
    /// are.
    Put(u32, u32),
    /// What stands under the key.
    Get(u32),
    /// Where the key stands.
    Find(u32),
    /// What stands at that index.
    At(usize),
    /// Takes the key out, and answers what stood under it.
    Remove(u32),
    /// Takes out what stands at that index, where something does, and answers its value.
    RemoveAt(usize),
    /// Leaves those whose values are not below it; answers how many there are.
    Keep(u32),
    /// 1 where the key is there, else 0.
    Contains(u32),
    /// 1 where there is none, else 0.
    IsEmpty,
    /// Which key stands at that index.
    KeyAt(usize),
    /// 1 where a key is not below it, else 0.
    AnyKeyNotBelow(u32),
    /// Where the key stands, which is looked for at that index first.
    FindNear(u32, usize),
}

/// The answer where nothing stands there.
const NONE: usize = 1000;

/// The answer where memory was wanted.
const MEMORY: usize = 2000;

/// What is asked in turn of one map, and what is answered.
static ROWS: [(Ask, usize); 53] = [
    (Ask::IsEmpty, 1),
    (Ask::Get(3), NONE),
    (Ask::Put(30, 5), 1),
    (Ask::Put(10, 6), 2),
    (Ask::Put(20, 7), 3),
    (Ask::Put(10, 8), 3),
    (Ask::IsEmpty, 0),
    (Ask::Get(30), 5),
    (Ask::Get(10), 8),
    (Ask::Find(20), 2),
    (Ask::At(1), 8),
    (Ask::At(3), NONE),
    (Ask::Contains(10), 1),
    (Ask::Contains(15), 0),
    (Ask::Remove(30), 5),
    (Ask::Remove(30), NONE),
    (Ask::Find(10), 0),
    (Ask::Get(20), 7),
    (Ask::At(0), 8),
    (Ask::At(1), 7),
    (Ask::At(2), NONE),
    (Ask::KeyAt(0), 10),
    (Ask::KeyAt(1), 20),
    (Ask::FindNear(20, 0), 1),
    (Ask::FindNear(20, 1), 1),
    (Ask::FindNear(30, 0), NONE),
    (Ask::AnyKeyNotBelow(20), 1),
    (Ask::AnyKeyNotBelow(21), 0),
    (Ask::Put(30, 4), 3),
    (Ask::Find(30), 2),
    (Ask::Put(20, 3), 3),
    (Ask::Get(20), 3),
    (Ask::Get(30), 4),
    (Ask::Remove(30), 4),
    (Ask::Contains(30), 0),
    (Ask::Put(20, 7), 2),
    (Ask::Put(5, 9), 3),
    (Ask::Keep(8), 2),
    (Ask::Get(20), NONE),
    (Ask::Find(5), 1),
    (Ask::Put(40, 12), 3),
    (Ask::Put(25, 11), 4),
    (Ask::RemoveAt(4), NONE),
    (Ask::RemoveAt(1), 9),
    (Ask::Get(5), NONE),
    (Ask::Get(10), 8),
    (Ask::Get(40), 12),
    (Ask::Contains(5), 0),
    (Ask::RemoveAt(0), 8),
    (Ask::Find(40), 0),
    (Ask::Get(25), 11),
    (Ask::Keep(100), 0),
    (Ask::IsEmpty, 1),
];

/// Keeps what has a value that is not below a number.
#[derive(Clone, Copy)]
struct NotBelow {
    least: u32,
}

impl EntryChoice<u32, u32> for NotBelow {
    ghost use Rattle.std.specs.Prelude.{nat_le};

    ghost kept = { λ choice key value. nat_le choice.least value };

    fn keeps(&self, _key: &u32, value: &u32) -> bool {
        self.least <= *value
    }
}

/// Keeps what has a key that is not below a number.
#[derive(Clone, Copy)]
struct KeyNotBelow {
    least: u32,
}

impl Choice<u32> for KeyNotBelow {
    ghost use Rattle.std.specs.Prelude.{nat_le};

    ghost kept = { λ choice key. nat_le choice.least key };

    fn keeps(&self, key: &u32) -> bool {
        self.least <= *key
    }
}

fn put(map: &mut KeyMap<u32, u32>, key: u32, value: u32) -> usize {
    if map.reserve(1).is_err() {
        return MEMORY;
    }
    match map.get_mut(&key) {
        Some(held) => *held = value,
        None => map.insert(key, value),
    }
    map.len()
}

fn at(map: &KeyMap<u32, u32>, index: usize) -> usize {
    if index < map.len() {
        *map.entry_at(index).1 as usize
    } else {
        NONE
    }
}

fn key_at(map: &KeyMap<u32, u32>, index: usize) -> usize {
    if index < map.len() {
        *map.key_at(index) as usize
    } else {
        NONE
    }
}

fn removed_at(map: &mut KeyMap<u32, u32>, index: usize) -> usize {
    if index < map.len() {
        map.remove_at(index) as usize
    } else {
        NONE
    }
}

fn kept(map: &mut KeyMap<u32, u32>, least: u32) -> usize {
    map.retain(&NotBelow { least });
    map.len()
}

fn answer(map: &mut KeyMap<u32, u32>, ask: &Ask) -> usize {
    match ask {
        Ask::Put(key, value) => put(map, *key, *value),
        Ask::Get(key) => map.get(key).map_or(NONE, |value| *value as usize),
        Ask::Find(key) => map.index_of(key).unwrap_or(NONE),
        Ask::At(index) => at(map, *index),
        Ask::Remove(key) => map.remove(key).map_or(NONE, |value| value as usize),
        Ask::RemoveAt(index) => removed_at(map, *index),
        Ask::Keep(least) => kept(map, *least),
        Ask::Contains(key) => usize::from(map.contains_key(key)),
        Ask::IsEmpty => usize::from(map.is_empty()),
        Ask::KeyAt(index) => key_at(map, *index),
        Ask::AnyKeyNotBelow(least) => usize::from(map.any_key(&KeyNotBelow { least: *least })),
        Ask::FindNear(key, guess) => map.index_near(key, *guess).unwrap_or(NONE),
    }
}

#[test]
fn values_come_and_go(rt: HostRuntime) {
    let mut map = KeyMap::new(rt.alloc());
    for (row, (ask, wanted)) in ROWS.iter().enumerate() {
        let told = answer(&mut map, ask);
        is_number(&rt, row, *wanted, told);
    }
}
