//! A queue and a durable subscription, with the worked record: a message of priority 4 to the topic t, with the text hi and
//! the long property x, 1.

use crate::told::holds;
use jm_base::List;
use jm_dest::{Key, Moment, Name, SubscriptionName};
use jm_keep::{Keep, MemKeep, NoKeep, RowChange};
use jm_machine::Definition;
use jm_selector::Selector;
use std::alloc::Global;

static RECORD: [u8; 88] = [
    1, 0, 0, 0, 1, 0, 0, 0, 1, 0, 0, 0, 1, // version, opening, connection, session
    0, 0, 0, 0, 0, 0, 0, 1, // number
    0, 0, 0, 0, 0, 0, 3, 0xe8, // timestamp
    0, 0, 0, 0, 0, 0, 0, 0, 1, 4, // expiration, mode, priority
    1, 0, 0, 0, 0, 0, 0, 0, 1, 0x74, 0, 0, // destination, correlation, type
    1, 0, 0, 0, 0, 0, 0, 0, 2, 0x68, 0x69, // body
    0, 0, 0, 0, 0, 0, 0, 1, // property count
    0, 0, 0, 0, 0, 0, 0, 1, 0x78, 5, 0, 0, 0, 0, 0, 0, 0, 1, // property
];

/// The same with a delivery delay of 500 milliseconds.
static DELAYED_RECORD: [u8; 96] = [
    2, 0, 0, 0, 1, 0, 0, 0, 1, 0, 0, 0, 1, // version, opening, connection, session
    0, 0, 0, 0, 0, 0, 0, 1, // number
    0, 0, 0, 0, 0, 0, 3, 0xe8, // timestamp
    0, 0, 0, 0, 0, 0, 0, 0, // expiration
    0, 0, 0, 0, 0, 0, 5, 0xdc, 1, 4, // delivery time, mode, priority
    1, 0, 0, 0, 0, 0, 0, 0, 1, 0x74, 0, 0, // destination, correlation, type
    1, 0, 0, 0, 0, 0, 0, 0, 2, 0x68, 0x69, // body
    0, 0, 0, 0, 0, 0, 0, 1, // property count
    0, 0, 0, 0, 0, 0, 0, 1, 0x78, 5, 0, 0, 0, 0, 0, 0, 0, 1, // property
];

fn queue(alloc: Global) -> Option<Key> {
    Some(Key::Queue(Name::new(alloc, "q").ok()?))
}

fn durable(alloc: Global) -> Option<Key> {
    Some(Key::Durable(None, SubscriptionName::new(alloc, "n").ok()?))
}

fn definition(alloc: Global) -> Option<Definition> {
    Some(Definition {
        topic: Name::new(alloc, "t").ok()?,
        selector: Selector::none(alloc),
        no_local: false,
        shared: true,
    })
}

fn record(alloc: Global) -> Option<List<u8>> {
    Some(List::new(Vec::from_slice(alloc, RECORD.as_slice()).ok()?))
}

/// Writes the changes; whether they are kept.
fn writes<K: Keep>(keeper: &mut K, changes: &[RowChange]) -> bool {
    keeper.write(changes).is_ok()
}

/// A subscription comes with a message and its row. None where memory was wanted.
fn comes(alloc: Global, keeper: &mut MemKeep) -> Option<bool> {
    let key = durable(alloc)?;
    let changes = [
        RowChange::PutStation {
            key: durable(alloc)?,
            definition: Some(definition(alloc)?),
        },
        RowChange::PutMessage {
            place: 1,
            bytes: record(alloc)?,
        },
        RowChange::PutHeld {
            key: durable(alloc)?,
            place: 1,
        },
    ];
    Some(
        writes(keeper, &changes)
            && keeper.definition(&key) == Some(&definition(alloc)?)
            && keeper.count(&key, 1) == Some(0)
            && keeper.message(1) == Some(&record(alloc)?),
    )
}

/// The row is counted, and none where there is none. None where memory was wanted.
fn is_counted(alloc: Global, keeper: &mut MemKeep) -> Option<bool> {
    let key = durable(alloc)?;
    let changes = [
        RowChange::SetCount {
            key: durable(alloc)?,
            place: 1,
            count: 3,
        },
        RowChange::SetCount {
            key: durable(alloc)?,
            place: 2,
            count: 3,
        },
    ];
    Some(
        writes(keeper, &changes)
            && keeper.count(&key, 1) == Some(3)
            && keeper.count(&key, 2).is_none(),
    )
}

/// The row goes, its message, and the subscription. None where memory was wanted.
fn goes(alloc: Global, keeper: &mut MemKeep) -> Option<bool> {
    let key = durable(alloc)?;
    let changes = [
        RowChange::DropHeld {
            key: durable(alloc)?,
            place: 1,
        },
        RowChange::DropMessage { place: 1 },
        RowChange::DropStation {
            key: durable(alloc)?,
        },
    ];
    Some(
        writes(keeper, &changes)
            && keeper.definition(&key).is_none()
            && keeper.count(&key, 1).is_none()
            && keeper.message(1).is_none()
            && keeper.changes().len() == 8,
    )
}

/// The station of a queue shows nowhere; its row does. None where memory was wanted.
fn of_a_queue(alloc: Global, keeper: &mut MemKeep) -> Option<bool> {
    let key = queue(alloc)?;
    let comes = [
        RowChange::PutStation {
            key: queue(alloc)?,
            definition: None,
        },
        RowChange::PutMessage {
            place: 2,
            bytes: record(alloc)?,
        },
        RowChange::PutHeld {
            key: queue(alloc)?,
            place: 2,
        },
    ];
    Some(
        writes(keeper, &comes)
            && keeper.definition(&key).is_none()
            && keeper.count(&key, 2) == Some(0)
            && keeper.count(&durable(alloc)?, 2).is_none(),
    )
}

/// A delayed message comes to a queue with its delivery time. None where memory was wanted.
fn comes_delayed(alloc: Global, keeper: &mut MemKeep) -> Option<bool> {
    let due = Moment::new(1500).ok()?;
    let changes = [
        RowChange::PutMessage {
            place: 3,
            bytes: List::new(Vec::from_slice(alloc, DELAYED_RECORD.as_slice()).ok()?),
        },
        RowChange::PutDelay { place: 3, due },
        RowChange::PutHeld {
            key: queue(alloc)?,
            place: 3,
        },
    ];
    Some(writes(keeper, &changes) && keeper.due(3) == Some(due) && keeper.due(2).is_none())
}

/// Its delivery time goes with it. None where memory was wanted.
fn goes_delayed(alloc: Global, keeper: &mut MemKeep) -> Option<bool> {
    let changes = [
        RowChange::DropHeld {
            key: queue(alloc)?,
            place: 3,
        },
        RowChange::DropDelay { place: 3 },
        RowChange::DropMessage { place: 3 },
    ];
    Some(writes(keeper, &changes) && keeper.due(3).is_none() && keeper.message(3).is_none())
}

#[test]
fn rows_in_memory(rt: HostRuntime) {
    let mut keeper = MemKeep::new(rt.alloc());
    holds(&rt, "in memory rows are kept", keeper.keeps());
    let is_kept = comes(rt.alloc(), &mut keeper);
    holds(&rt, "a subscription comes", is_kept == Some(true));
    let is_kept = is_counted(rt.alloc(), &mut keeper);
    holds(&rt, "its row is counted", is_kept == Some(true));
    let is_kept = goes(rt.alloc(), &mut keeper);
    holds(&rt, "all of it goes", is_kept == Some(true));
    let is_kept = of_a_queue(rt.alloc(), &mut keeper);
    holds(&rt, "a queue", is_kept == Some(true));
}

#[test]
fn delivery_times_in_memory(rt: HostRuntime) {
    let mut keeper = MemKeep::new(rt.alloc());
    let is_kept = comes_delayed(rt.alloc(), &mut keeper);
    holds(&rt, "a delayed message comes", is_kept == Some(true));
    let is_kept = goes_delayed(rt.alloc(), &mut keeper);
    holds(&rt, "it goes with its delivery time", is_kept == Some(true));
}

#[test]
fn nothing_is_kept(rt: HostRuntime) {
    let mut keeper = NoKeep;
    holds(&rt, "nothing is kept", !keeper.keeps());
    let is_taken = writes(&mut keeper, &[RowChange::DropMessage { place: 1 }]);
    holds(&rt, "a write is taken", is_taken);
}
