//! Active consumers counted by their keys.

use crate::keys::{Closing, Of, key, meant};
use crate::told::holds_at;
use jm_base::{Refusal, Str};
use jm_dest::{ConsumerId, Key};
use jm_machine::{Attached, Consumer, is_named};
use jm_selector::Selector;
use std::alloc::Global;
use tests_calls::session;

/// Keys, and whether the subscription of each has a name.
static NAMED: [(Of, bool); 4] = [
    (Of::Own(1), false),
    (Of::Shared, true),
    (Of::Durable, true),
    (Of::Queue, false),
];

/// Whether the subscription of the key has a name.
fn has_name(alloc: Global, of: Of) -> Result<bool, Refusal> {
    Ok(is_named(&key(alloc, of)?))
}

#[test]
fn names_of_subscriptions(rt: HostRuntime) {
    for (row, (of, wanted)) in NAMED.iter().enumerate() {
        holds_at(&rt, row, has_name(rt.alloc(), *of) == Ok(*wanted));
    }
}

/// A consumer of the key, of session 1 of connection 1.
fn consumer(alloc: Global, of: Of, is_active: bool) -> Result<Consumer, Refusal> {
    let session = session(1)?;
    let id = ConsumerId::new(1)?;
    let key = key(alloc, of)?;
    Ok(Consumer {
        session,
        id,
        key,
        selector: Selector::none(alloc),
        is_active,
        is_listening: false,
        is_busy: false,
    })
}

/// Whether a consumer that selects is active no more once it closes, and whether it has a selector then.
fn closed(alloc: Global, is_active: bool) -> Result<(bool, bool), Refusal> {
    let mut consumer = consumer(alloc, Of::Queue, is_active)?;
    let text = Some(Str::new(String::from_str(alloc, "x = 7")?));
    consumer.selector = Selector::read(alloc, &text)?;
    consumer.close();
    Ok((!consumer.is_active, !consumer.selector.is_none()))
}

#[test]
fn what_closes_has_no_selector(rt: HostRuntime) {
    holds_at(&rt, 0, closed(rt.alloc(), true) == Ok((true, false)));
    holds_at(&rt, 1, closed(rt.alloc(), false) == Ok((true, true)));
}

/// Those consumers; a want of memory is seen by what is missing.
fn consumers(alloc: Global, rows: &[(Of, bool)]) -> Vec<Consumer> {
    let mut consumers = Vec::new(alloc);
    for (of, is_active) in rows {
        if let Ok(consumer) = consumer(alloc, *of, *is_active) {
            let _ = consumers.push(consumer);
        }
    }
    consumers
}

/// The number at the key, and whether its subscription ends with that closing.
fn at_key(
    alloc: Global,
    attached: &Attached,
    closing: Closing,
    of: Of,
) -> Result<(u64, bool), Refusal> {
    let consumers = meant(closing)?;
    let key = key(alloc, of)?;
    Ok((attached.number(&key), attached.ends(&consumers, &key)))
}

/// Whether that is told of the consumer's own key, the shared, the durable and the queue's.
fn are_told(alloc: Global, attached: &Attached, row: &Row) -> bool {
    let (_, closing, numbers, ends) = row;
    at_key(alloc, attached, *closing, Of::Shared) == Ok((numbers[0], ends[1]))
        && at_key(alloc, attached, *closing, Of::Durable) == Ok((numbers[1], ends[2]))
        && matches!(at_key(alloc, attached, *closing, Of::Own(1)), Ok((_, it)) if it == ends[0])
        && matches!(at_key(alloc, attached, *closing, Of::Queue), Ok((_, it)) if it == ends[3])
}

/// Consumers, and whether each is active; those that close; the numbers at the shared key and at the durable; and whether the
/// own key, the shared, the durable and the queue's end.
type Row = (&'static [(Of, bool)], Closing, [u64; 2], [bool; 4]);

static ROWS: [Row; 6] = [
    (&[], Closing::One(1, 1), [0, 0], [true, true, false, false]),
    (
        &[(Of::Shared, true)],
        Closing::OfSession(1),
        [1, 0],
        [true, false, false, false],
    ),
    (
        &[(Of::Shared, false), (Of::Durable, true)],
        Closing::One(1, 2),
        [0, 1],
        [false, true, false, false],
    ),
    (
        &[
            (Of::Shared, true),
            (Of::Own(1), true),
            (Of::Shared, false),
            (Of::Shared, true),
        ],
        Closing::OfConnection(1),
        [2, 0],
        [true, false, false, false],
    ),
    (
        &[(Of::Durable, true), (Of::Queue, true), (Of::Durable, true)],
        Closing::OfSession(2),
        [0, 2],
        [false, true, false, false],
    ),
    (
        &[(Of::Shared, true), (Of::Durable, false)],
        Closing::OfConnection(2),
        [1, 0],
        [false, false, false, false],
    ),
];

fn row_holds(alloc: Global, row: &Row) -> bool {
    let consumers = consumers(alloc, row.0);
    match Attached::of(alloc, consumers.as_slice()) {
        Ok(attached) => consumers.len() == row.0.len() && are_told(alloc, &attached, row),
        Err(_) => false,
    }
}

#[test]
fn active_consumers_are_counted(rt: HostRuntime) {
    for (number, row) in ROWS.iter().enumerate() {
        holds_at(&rt, number, row_holds(rt.alloc(), row));
    }
}

#[derive(Clone, Copy)]
enum Change {
    Joins(Of),
    Leaves(Of),
}

/// Counts one more of the key, of which there are few.
pub(crate) fn join(attached: &mut Attached, key: Key) -> Result<(), Refusal> {
    if attached.number(&key) <= 100 && attached.reserve(1).is_ok() {
        attached.join(key);
        Ok(())
    } else {
        Err(Refusal::Memory)
    }
}

fn leave(attached: &mut Attached, key: &Key) -> Result<(), Refusal> {
    attached.leave(key);
    Ok(())
}

fn make(alloc: Global, attached: &mut Attached, change: Change) -> Result<(), Refusal> {
    match change {
        Change::Joins(of) => join(attached, key(alloc, of)?),
        Change::Leaves(of) => leave(attached, &key(alloc, of)?),
    }
}

fn number(alloc: Global, attached: &Attached, of: Of) -> Result<u64, Refusal> {
    Ok(attached.number(&key(alloc, of)?))
}

/// Changes in turn, and the numbers at the shared key and at the durable after each.
static CHANGES: [(Change, u64, u64); 8] = [
    (Change::Joins(Of::Shared), 1, 0),
    (Change::Joins(Of::Shared), 2, 0),
    (Change::Joins(Of::Durable), 2, 1),
    (Change::Leaves(Of::Shared), 1, 1),
    (Change::Leaves(Of::Durable), 1, 0),
    (Change::Leaves(Of::Durable), 1, 0),
    (Change::Leaves(Of::Shared), 0, 0),
    (Change::Joins(Of::Durable), 0, 1),
];

/// The first change after which other numbers stand, or how many changes there are.
fn first_other(alloc: Global, attached: &mut Attached) -> usize {
    for (row, (change, shared, durable)) in CHANGES.iter().enumerate() {
        let is_made = make(alloc, attached, *change).is_ok();
        if !is_made
            || number(alloc, attached, Of::Shared) != Ok(*shared)
            || number(alloc, attached, Of::Durable) != Ok(*durable)
        {
            return row;
        }
    }
    CHANGES.len()
}

#[test]
fn numbers_follow_changes(rt: HostRuntime) {
    let mut attached = Attached::new(rt.alloc());
    let first_other = first_other(rt.alloc(), &mut attached);
    holds_at(&rt, first_other, first_other == CHANGES.len());
}
