//! Where items stand, as they come and go.

use crate::told::is_number;
use jm_gaps::GapList;
use std::alloc::Global;

/// What is asked of a list of numbers.
enum Ask {
    /// Puts it behind the others; answers its index.
    Push(u32),
    /// Takes out what stands at the index, and answers it.
    Remove(usize),
    /// Writes the number at the index, and answers the one that stood there.
    Write(usize, u32),
    /// What stands at the index.
    At(usize),
    /// How many there are.
    Len,
    /// 1 where there is none, else 0.
    IsEmpty,
}

/// The answer where nothing stands there.
const NONE: usize = 1000;

/// The answer where memory was wanted.
const MEMORY: usize = 2000;

/// For how many items room is made at the outset: then two may go before the gaps are closed.
const ROOM: usize = 16;

/// What is asked in turn of one list, and what is answered.
static ROWS: [(Ask, usize); 42] = [
    (Ask::IsEmpty, 1),
    (Ask::Len, 0),
    (Ask::At(0), NONE),
    (Ask::Remove(0), NONE),
    (Ask::Push(10), 0),
    (Ask::Push(11), 1),
    (Ask::Push(12), 2),
    (Ask::Push(13), 3),
    (Ask::Push(14), 4),
    (Ask::Push(15), 5),
    (Ask::IsEmpty, 0),
    (Ask::Len, 6),
    (Ask::At(5), 15),
    (Ask::At(6), NONE),
    // 10 12 13 15
    (Ask::Remove(4), 14),
    (Ask::Remove(1), 11),
    (Ask::Remove(4), NONE),
    (Ask::Len, 4),
    (Ask::At(0), 10),
    (Ask::At(1), 12),
    (Ask::At(2), 13),
    (Ask::At(3), 15),
    (Ask::At(4), NONE),
    // 10 20 13 15 16
    (Ask::Push(16), 4),
    (Ask::Write(1, 20), 12),
    (Ask::Write(5, 21), NONE),
    (Ask::At(1), 20),
    (Ask::At(2), 13),
    (Ask::At(4), 16),
    // 20 13 22
    (Ask::Remove(3), 15),
    (Ask::Remove(0), 10),
    (Ask::Write(2, 22), 16),
    (Ask::At(0), 20),
    (Ask::At(1), 13),
    (Ask::At(2), 22),
    (Ask::Len, 3),
    (Ask::Remove(2), 22),
    (Ask::Remove(0), 20),
    (Ask::Remove(0), 13),
    (Ask::IsEmpty, 1),
    (Ask::Push(17), 0),
    (Ask::At(0), 17),
];

fn pushed(list: &mut GapList<u32>, item: u32) -> usize {
    if list.reserve(1).is_err() {
        return MEMORY;
    }
    let index = list.len();
    list.push(item);
    index
}

fn removed(list: &mut GapList<u32>, index: usize) -> usize {
    if index < list.len() {
        list.remove(index) as usize
    } else {
        NONE
    }
}

fn written(list: &mut GapList<u32>, index: usize, item: u32) -> usize {
    if index >= list.len() {
        return NONE;
    }
    let held = list.at_mut(index);
    let stood = *held as usize;
    *held = item;
    stood
}

fn at(list: &GapList<u32>, index: usize) -> usize {
    if index < list.len() {
        *list.at(index) as usize
    } else {
        NONE
    }
}

fn answer(list: &mut GapList<u32>, ask: &Ask) -> usize {
    match ask {
        Ask::Push(item) => pushed(list, *item),
        Ask::Remove(index) => removed(list, *index),
        Ask::Write(index, item) => written(list, *index, *item),
        Ask::At(index) => at(list, *index),
        Ask::Len => list.len(),
        Ask::IsEmpty => usize::from(list.is_empty()),
    }
}

#[test]
fn numbers_are_found_by_their_index(rt: HostRuntime) {
    let mut list = GapList::new(rt.alloc());
    is_number(&rt, 100, 0, list.spare());
    assert!(&rt; list.reserve(ROOM).is_ok(), "no memory");
    assert!(&rt; list.spare() >= ROOM, "room for {}", list.spare());
    for (row, (ask, wanted)) in ROWS.iter().enumerate() {
        let told = answer(&mut list, ask);
        is_number(&rt, row, *wanted, told);
    }
}

/// Puts the numbers below that one into a list, takes each second one out, and answers how many stand then where they should.
fn found_of_many(alloc: Global, many: u32) -> usize {
    let mut list = GapList::new(alloc);
    for number in 0..many {
        let _ = pushed(&mut list, number);
    }
    for index in 0..many as usize / 2 {
        let _ = removed(&mut list, index);
    }
    let mut found: usize = 0;
    for index in 0..list.len() {
        let number = at(&list, index);
        let stands = number % 2 == 1 && number / 2 == index;
        found = found.saturating_add(usize::from(stands));
    }
    found
}

#[test]
fn each_second_number_goes(rt: HostRuntime) {
    is_number(&rt, 0, 10000, found_of_many(rt.alloc(), 20000));
}

/// Puts that many numbers into a list, of which it holds at most so many, since the first goes as another comes: for how many
/// there is room at the end, with those that are held.
fn room_after(alloc: Global, many: u32, held: usize) -> usize {
    let mut list = GapList::new(alloc);
    for number in 0..many {
        let _ = pushed(&mut list, number);
        if list.len() > held {
            let _ = removed(&mut list, 0);
        }
    }
    list.len().saturating_add(list.spare())
}

#[test]
fn numbers_that_come_as_others_go_want_no_more_memory(rt: HostRuntime) {
    let room = room_after(rt.alloc(), 20000, 60);
    assert!(&rt; room <= 256, "room for {room}");
}
