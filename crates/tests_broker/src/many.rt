//! A thousand calls, in which each kind of call comes with each of its answers and refusals but those that are wants of
//! numbers, of memory and of the keeper.

use crate::alike::are_alike;
use crate::moved::moved;
use crate::steps::holds;
use jm_base::Mode;
use std::alloc::{AllocError, Global};
use std::marker::Brand;
use std::sync::ledger::Blank;
use tests_calls::{At, Kind, Op};

const Q: At = At::Queue("q");

const T: At = At::Topic("t");

const LAST: i64 = 9_223_372_036_854_775_807;

/// A call, and what it is told the first time.
type Row = (Op, &'static str);

/// How many calls open what the others use: these come first in each round.
const OPENING: usize = 17;

/// How many calls come behind those.
const OTHERS: usize = 108;

/// A round of calls.
static ROUND: [Row; 125] = [
    (Op::OpenFor(1, "k"), "ok"),
    (Op::Open(2), "ok"),
    (Op::OpenFor(3, "k"), "InvalidClientId"),
    (Op::Open(1), "IllegalState"),
    (Op::Open(4), "ok"),
    (Op::Start(1), "ok"),
    (Op::Start(4), "ok"),
    (Op::Start(3), "IllegalState"),
    (Op::Stop(2), "ok"),
    (Op::Stop(3), "IllegalState"),
    (Op::Session((1, 1), Mode::Auto), "ok"),
    (Op::Session((1, 1), Mode::Auto), "IllegalState"),
    (Op::Session((1, 2), Mode::Client), "ok"),
    (Op::Session((2, 1), Mode::Auto), "ok"),
    (Op::Session((3, 1), Mode::Auto), "IllegalState"),
    (Op::Session((4, 1), Mode::Transacted), "ok"),
    (Op::Session((4, 2), Mode::Dups), "ok"),
    // A consumer's own subscriptions, and sends.
    (Op::Consumer((1, 1), 1, None), "ok"),
    (Op::Consumer((1, 1), 1, None), "IllegalState"),
    (
        Op::Consumer((1, 1), 2, Some("x = ")),
        "InvalidSelector Expected 4",
    ),
    (Op::Consumer((1, 1), 2, Some("x > 0")), "ok"),
    (Op::Consumer((4, 2), 1, None), "ok"),
    (Op::Send(2, "a", Some(1)), "sent 1"),
    (Op::Send(3, "a", None), "IllegalState"),
    (Op::SendAt(2, "z", LAST, 1), "OutOfRange"),
    (Op::Receive((1, 1), 1), "a#1"),
    (Op::Receive((1, 1), 1), "none"),
    (Op::Receive((1, 1), 3), "IllegalState"),
    (Op::Receive((4, 2), 1), "a#1"),
    (Op::Missed((1, 1), 1), "missed 0"),
    (Op::Missed((1, 1), 3), "IllegalState"),
    // A listener.
    (Op::Take((1, 1), 2), "IllegalState"),
    (Op::Listener((1, 1), 2, true), "ok"),
    (Op::Listener((1, 1), 3, true), "IllegalState"),
    (Op::Receive((1, 1), 2), "IllegalState"),
    (Op::Take((1, 1), 2), "a#1"),
    (Op::Take((1, 1), 2), "IllegalState"),
    (Op::Listener((1, 1), 2, false), "IllegalState"),
    (Op::CloseConsumer((1, 1), 2), "IllegalState"),
    (Op::Done((1, 1), 2, false), "ok"),
    (Op::Done((1, 1), 2, true), "IllegalState"),
    (Op::Take((1, 1), 2), "a#2"),
    (Op::Done((1, 1), 2, true), "ok"),
    (Op::TakeAt((1, 1), 2, 2000), "none"),
    (Op::Listener((1, 1), 2, false), "ok"),
    (Op::CloseConsumer((1, 1), 2), "ok"),
    (Op::CloseConsumer((1, 1), 2), "ok"),
    (Op::CloseConsumer((1, 1), 3), "IllegalState"),
    // A durable subscription, and acknowledgement.
    (Op::Named((1, 2), 1, Kind::Durable, "n", None), "ok"),
    (
        Op::Named((1, 2), 1, Kind::Durable, "n", None),
        "IllegalState",
    ),
    (
        Op::Named((2, 1), 1, Kind::Durable, "n", None),
        "IllegalState",
    ),
    (
        Op::NamedAt((1, 2), 2, Kind::Durable, Q, "n", None),
        "InvalidDestination",
    ),
    (
        Op::Named((1, 2), 2, Kind::Durable, "n", Some("x = ")),
        "InvalidSelector Expected 4",
    ),
    (
        Op::Named((1, 2), 2, Kind::Durable, "n", None),
        "SubscriptionInUse",
    ),
    (Op::Send(2, "b", None), "sent 2"),
    (Op::Receive((1, 2), 1), "b#1"),
    (Op::Unsubscribe((1, 2), "n"), "SubscriptionInUse"),
    (Op::Recover((1, 2)), "ok"),
    (Op::Receive((1, 2), 1), "b#2"),
    (Op::Acknowledge((1, 2)), "ok"),
    (Op::Acknowledge((3, 1)), "IllegalState"),
    (Op::Recover((4, 1)), "IllegalState"),
    (Op::Rollback((1, 2)), "IllegalState"),
    (Op::Commit((1, 2)), "IllegalState"),
    (Op::CloseConsumer((1, 2), 1), "ok"),
    (Op::Unsubscribe((1, 2), "m"), "InvalidDestination"),
    (Op::Unsubscribe((3, 1), "n"), "IllegalState"),
    (Op::Unsubscribe((1, 2), "n"), "ok"),
    // Shared subscriptions, durable and not.
    (Op::Named((1, 1), 4, Kind::Shared, "g", None), "ok"),
    (
        Op::Named((1, 1), 4, Kind::Shared, "g", None),
        "IllegalState",
    ),
    (
        Op::NamedAt((1, 1), 5, Kind::Shared, Q, "g", None),
        "InvalidDestination",
    ),
    (
        Op::Named((1, 1), 5, Kind::Shared, "g", Some("x = ")),
        "InvalidSelector Expected 4",
    ),
    (
        Op::Named((1, 1), 5, Kind::Shared, "g", Some("x = 1")),
        "SubscriptionInUse",
    ),
    (Op::Named((1, 2), 5, Kind::Shared, "g", None), "ok"),
    (Op::Named((1, 1), 6, Kind::SharedDurable, "s", None), "ok"),
    (
        Op::Named((1, 1), 6, Kind::SharedDurable, "s", None),
        "IllegalState",
    ),
    (
        Op::NamedAt((1, 1), 7, Kind::SharedDurable, Q, "s", None),
        "InvalidDestination",
    ),
    (
        Op::Named((1, 1), 7, Kind::SharedDurable, "s", Some("x = ")),
        "InvalidSelector Expected 4",
    ),
    (
        Op::Named((1, 1), 7, Kind::SharedDurable, "s", Some("x = 1")),
        "SubscriptionInUse",
    ),
    (Op::Named((1, 2), 7, Kind::SharedDurable, "s", None), "ok"),
    // Transactions.
    (Op::Consumer((4, 1), 1, None), "ok"),
    (Op::Send(4, "c", Some(2)), "sent 1"),
    (Op::Receive((4, 1), 1), "none"),
    (Op::Commit((4, 1)), "ok"),
    (Op::Receive((4, 1), 1), "c#1"),
    (Op::Send(4, "d", None), "sent 2"),
    (Op::Rollback((4, 1)), "ok"),
    (Op::Receive((4, 1), 1), "c#2"),
    (Op::Commit((4, 1)), "ok"),
    (Op::Receive((4, 1), 1), "none"),
    (Op::Receive((1, 1), 4), "c#1"),
    (Op::Receive((1, 2), 5), "none"),
    (Op::Receive((1, 2), 7), "c#1"),
    (Op::Receive((1, 1), 6), "none"),
    (Op::Recover((1, 2)), "ok"),
    (Op::Receive((1, 1), 6), "c#2"),
    (Op::Receive((1, 1), 1), "b#1"),
    (Op::Receive((1, 1), 1), "c#1"),
    // A queue.
    (Op::SendTo(2, Q, "e", Some(1)), "sent 3"),
    (Op::ConsumerAt((1, 1), 8, Q, Some("x > 1"), false), "ok"),
    (Op::ConsumerAt((1, 1), 9, Q, None, false), "ok"),
    (Op::Receive((1, 1), 8), "none"),
    (Op::Receive((1, 1), 9), "e#1"),
    (Op::Missed((1, 1), 9), "missed 0"),
    // Expiry and delay.
    (Op::SendAt(2, "f", 1000, 500), "sent 4"),
    (Op::ReceiveAt((1, 1), 1, 1499), "f#1"),
    (Op::ReceiveAt((4, 1), 1, 1500), "none"),
    (Op::SendDelayed(2, T, "h", 500, None), "sent 5"),
    (Op::ReceiveAt((1, 1), 1, 1499), "none"),
    (Op::ReceiveAt((1, 1), 1, 1500), "h#1"),
    // Closes.
    (Op::CloseSession((1, 2)), "ok"),
    (Op::CloseSession((1, 2)), "ok"),
    (Op::CloseSession((3, 1)), "IllegalState"),
    (Op::CloseConsumer((1, 2), 7), "ok"),
    (Op::CloseConsumer((1, 1), 6), "ok"),
    (Op::Unsubscribe((1, 1), "s"), "ok"),
    (Op::CloseConnection(1), "ok"),
    (Op::CloseConnection(1), "ok"),
    (Op::CloseConnection(3), "IllegalState"),
    (Op::Start(1), "IllegalState"),
    (Op::Done((1, 1), 1, true), "IllegalState"),
    (Op::Listener((1, 1), 1, true), "IllegalState"),
    (Op::CloseConnection(2), "ok"),
    (Op::CloseConnection(4), "ok"),
    (Op::Rollback((4, 1)), "IllegalState"),
];

/// By how much the places of a round's other calls go up: 1 in the round as it is written down; any other, which has no
/// divisor with their number in common, gives another order of the same calls.
static STRIDES: [usize; 8] = [1, 5, 7, 11, 1, 25, 77, 103];

/// The place in the round of its call of that number.
fn place_of(number: usize, stride: usize) -> usize {
    if number < OPENING {
        return number;
    }
    OPENING + (number - OPENING) % OTHERS * (stride % OTHERS) % OTHERS
}

/// Adds the calls of a round, whose connections have numbers that are higher by so much.
fn add_round(ops: &mut Vec<Op>, stride: usize, by: u32) -> Result<(), AllocError> {
    for number in 0..ROUND.len() {
        let place = place_of(number, stride);
        if place < ROUND.len() {
            ops.push(moved(ROUND[place].0, by))?;
        }
    }
    Ok(())
}

/// All rounds, each with connections of its own.
fn all_rounds(heap: Global) -> Result<Vec<Op>, AllocError> {
    let mut ops = Vec::new(heap);
    let mut by = 0u32;
    for stride in &STRIDES {
        add_round(&mut ops, *stride, by)?;
        by = by.saturating_add(10);
    }
    Ok(ops)
}

/// What the calls of the first round are told.
fn first_told(heap: Global) -> Result<String, AllocError> {
    let mut text = String::new(heap);
    for row in &ROUND {
        text.push_str(row.1)?;
        text.push_str(", ")?;
    }
    Ok(text)
}

#[test]
fn a_round_of_all_calls(rt: HostRuntime) {
    let heap = rt.alloc();
    let mut ops = Vec::new(heap);
    let is_made = add_round(&mut ops, 1, 0).is_ok();
    holds(&rt, "calls", is_made && ops.len() == 125);
    match first_told(heap) {
        Ok(told) => {
            let told = Some(told.as_str());
            let are_told = are_alike::<Brand, _>(
                &rt,
                heap,
                Blank::new(2),
                100_000,
                ops.as_slice(),
                told,
            );
            holds(&rt, "each answer and refusal", are_told);
        }
        Err(_) => holds(&rt, "text", false),
    }
}

#[test]
fn a_thousand_calls(rt: HostRuntime) {
    let heap = rt.alloc();
    match all_rounds(heap) {
        Ok(ops) => {
            let are_told = are_alike::<Brand, _>(
                &rt,
                heap,
                Blank::new(2),
                100_000,
                ops.as_slice(),
                None,
            );
            holds(&rt, "a thousand calls", are_told && ops.len() == 1000);
        }
        Err(_) => holds(&rt, "calls", false),
    }
}
