//! Where items stand, as they come and go.

use crate::told::is_number;
use jm_slots::Slots;
use std::alloc::Global;

/// What is asked of a list of numbers.
enum Ask {
    /// Puts it behind the others; answers its slot.
    Push(u32),
    /// Takes out what stands in the slot, and answers it.
    Take(usize),
    /// Closes the gaps; answers how many slots there are then.
    Sweep,
    /// Lets all go; answers how many slots there are then.
    Clear,
    /// Writes the number into the slot, and answers the one that stood there.
    Write(usize, u32),
    /// What stands in the slot.
    Get(usize),
    /// What stands at the index.
    At(usize),
    /// How many stand before the slot.
    IndexOf(usize),
    /// The slot of the one at the index.
    SlotOf(usize),
    /// How many there are.
    Len,
    /// How many slots there are.
    End,
    /// 1 where there is none, else 0.
    IsEmpty,
}

/// The answer where nothing stands there.
const NONE: usize = 1000;

/// The answer where memory was wanted.
const MEMORY: usize = 2000;

/// The answer where the gaps have to be closed first.
const FULL: usize = 3000;

/// For how many items room is made at the outset: then four may go before the gaps have to be closed.
const ROOM: usize = 32;

/// What is asked in turn of one list, and what is answered.
static ROWS: [(Ask, usize); 72] = [
    (Ask::IsEmpty, 1),
    (Ask::End, 0),
    (Ask::Get(0), NONE),
    (Ask::At(0), NONE),
    (Ask::IndexOf(0), 0),
    (Ask::SlotOf(0), NONE),
    (Ask::Push(10), 0),
    (Ask::Push(11), 1),
    (Ask::Push(12), 2),
    (Ask::Push(13), 3),
    (Ask::Push(14), 4),
    (Ask::Push(15), 5),
    (Ask::IsEmpty, 0),
    (Ask::Len, 6),
    (Ask::SlotOf(5), 5),
    // 10 - 12 13 - 15
    (Ask::Take(4), 14),
    (Ask::Take(1), 11),
    (Ask::Take(1), NONE),
    (Ask::Take(9), NONE),
    (Ask::Len, 4),
    (Ask::End, 6),
    (Ask::Get(0), 10),
    (Ask::Get(1), NONE),
    (Ask::Get(5), 15),
    (Ask::Get(6), NONE),
    (Ask::IndexOf(0), 0),
    (Ask::IndexOf(1), 1),
    (Ask::IndexOf(2), 1),
    (Ask::IndexOf(3), 2),
    (Ask::IndexOf(4), 3),
    (Ask::IndexOf(5), 3),
    (Ask::IndexOf(6), 4),
    (Ask::IndexOf(7), NONE),
    (Ask::SlotOf(0), 0),
    (Ask::SlotOf(1), 2),
    (Ask::SlotOf(2), 3),
    (Ask::SlotOf(3), 5),
    (Ask::SlotOf(4), NONE),
    (Ask::At(0), 10),
    (Ask::At(1), 12),
    (Ask::At(3), 15),
    (Ask::At(4), NONE),
    // 10 - 12 13 - 15 16
    (Ask::Push(16), 6),
    (Ask::SlotOf(4), 6),
    // - - 12 20 - 15 -
    (Ask::Take(0), 10),
    (Ask::Write(3, 20), 13),
    (Ask::Write(4, 21), NONE),
    (Ask::Take(6), 16),
    (Ask::Len, 3),
    (Ask::End, 7),
    (Ask::IndexOf(2), 0),
    (Ask::IndexOf(5), 2),
    (Ask::IndexOf(7), 3),
    (Ask::SlotOf(0), 2),
    (Ask::SlotOf(2), 5),
    (Ask::At(1), 20),
    // 12 20 15
    (Ask::Sweep, 3),
    (Ask::Len, 3),
    (Ask::Get(0), 12),
    (Ask::Get(1), 20),
    (Ask::Get(2), 15),
    (Ask::Get(3), NONE),
    // 12 - 15 17
    (Ask::Push(17), 3),
    (Ask::Take(1), 20),
    (Ask::SlotOf(1), 2),
    (Ask::At(2), 17),
    (Ask::IndexOf(3), 2),
    (Ask::Clear, 0),
    (Ask::IsEmpty, 1),
    (Ask::Get(0), NONE),
    (Ask::Push(18), 0),
    (Ask::At(0), 18),
];

fn pushed(slots: &mut Slots<u32>, item: u32) -> usize {
    if slots.reserve(1).is_err() {
        return MEMORY;
    }
    let slot = slots.end();
    slots.push(item);
    slot
}

fn taken(slots: &mut Slots<u32>, slot: usize) -> usize {
    if slots.leaving() == 0 {
        return FULL;
    }
    if slots.get(slot).is_none() {
        return NONE;
    }
    slots.take(slot) as usize
}

fn written(slots: &mut Slots<u32>, slot: usize, item: u32) -> usize {
    if slots.get(slot).is_none() {
        return NONE;
    }
    let held = slots.get_mut(slot);
    let stood = *held as usize;
    *held = item;
    stood
}

fn at(slots: &Slots<u32>, index: usize) -> usize {
    if index < slots.len() {
        *slots.at(index) as usize
    } else {
        NONE
    }
}

fn index_of(slots: &Slots<u32>, slot: usize) -> usize {
    if slot <= slots.end() {
        slots.index_of(slot)
    } else {
        NONE
    }
}

fn slot_of(slots: &Slots<u32>, index: usize) -> usize {
    if index < slots.len() {
        slots.slot_of(index)
    } else {
        NONE
    }
}

fn swept(slots: &mut Slots<u32>) -> usize {
    slots.sweep();
    slots.end()
}

fn cleared(slots: &mut Slots<u32>) -> usize {
    slots.clear();
    slots.end()
}

fn answer(slots: &mut Slots<u32>, ask: &Ask) -> usize {
    match ask {
        Ask::Push(item) => pushed(slots, *item),
        Ask::Take(slot) => taken(slots, *slot),
        Ask::Sweep => swept(slots),
        Ask::Clear => cleared(slots),
        Ask::Write(slot, item) => written(slots, *slot, *item),
        Ask::Get(slot) => slots.get(*slot).map_or(NONE, |item| *item as usize),
        Ask::At(index) => at(slots, *index),
        Ask::IndexOf(slot) => index_of(slots, *slot),
        Ask::SlotOf(index) => slot_of(slots, *index),
        Ask::Len => slots.len(),
        Ask::End => slots.end(),
        Ask::IsEmpty => usize::from(slots.is_empty()),
    }
}

#[test]
fn numbers_keep_their_slots(rt: HostRuntime) {
    let mut slots = Slots::new(rt.alloc());
    is_number(&rt, 100, 0, slots.spare());
    is_number(&rt, 101, 0, slots.leaving());
    assert!(&rt; slots.reserve(ROOM).is_ok(), "no memory");
    assert!(&rt; slots.spare() >= ROOM, "room for {}", slots.spare());
    assert!(&rt; slots.leaving() >= ROOM / 8, "{} may go", slots.leaving());
    for (row, (ask, wanted)) in ROWS.iter().enumerate() {
        let told = answer(&mut slots, ask);
        is_number(&rt, row, *wanted, told);
    }
}

/// Takes out the number at the index, where one is, and closes the gaps first where that is wanted.
fn take_at(slots: &mut Slots<u32>, index: usize) {
    if slots.leaving() == 0 {
        slots.sweep();
    }
    let slot = slot_of(slots, index);
    let _ = taken(slots, slot);
}

/// Puts the numbers below that one into a list, takes each second one out, and answers how many stand then where they should.
fn found_of_many(alloc: Global, many: u32) -> usize {
    let mut slots = Slots::new(alloc);
    for number in 0..many {
        let _ = pushed(&mut slots, number);
    }
    for index in 0..many as usize / 2 {
        take_at(&mut slots, index);
    }
    let mut found: usize = 0;
    for index in 0..slots.len() {
        let number = at(&slots, index);
        let stands = number % 2 == 1 && number / 2 == index;
        found = found.saturating_add(usize::from(stands));
    }
    found
}

#[test]
fn each_second_number_goes(rt: HostRuntime) {
    is_number(&rt, 0, 10000, found_of_many(rt.alloc(), 20000));
}
