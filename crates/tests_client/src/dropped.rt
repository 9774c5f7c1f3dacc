//! A connection, its session and its consumer, dropped in every order.

use crate::desk::Desk;
use crate::op::{At, Kind, Op, Part, What};
use crate::runs::{Row, right_rows};
use crate::told::{Told, agrees};
use crate::watch::Watch;
use jm_client::{Mode, Provider};
use std::alloc::Global;
use std::sync::Wait;

/// A message of a durable subscription is out.
static BEFORE: [Row; 7] = [
    (Op::Connect(Some("k")), Told::Done),
    (Op::Start(0), Told::Done),
    (Op::Session(0, Mode::Client), Told::Done),
    (
        Op::Consumer(0, Kind::Durable("n"), At::Topic("t"), None),
        Told::Done,
    ),
    (
        Op::Send(0, At::Topic("t"), What::Text("a")),
        Told::Number(1),
    ),
    (Op::Receive(0), Told::Message(b'a', 1)),
    (Op::Open, Told::Open(1, 1, 1)),
];

const CONNECTION: Row = (Op::Drop(Part::Connection(0)), Told::Done);

const SESSION: Row = (Op::Drop(Part::Session(0)), Told::Done);

const CONSUMER: Row = (Op::Drop(Part::Consumer(0)), Told::Done);

/// Nothing is open any more.
const NOTHING: Row = (Op::Open, Told::Open(0, 0, 0));
/// The connection alone is open.
const WITHOUT_SESSION: Row = (Op::Open, Told::Open(1, 0, 0));
/// The connection and its session are open.
const WITHOUT_CONSUMER: Row = (Op::Open, Told::Open(1, 1, 0));

static ORDERS: [[Row; 6]; 6] = [
    [CONNECTION, NOTHING, SESSION, NOTHING, CONSUMER, NOTHING],
    [CONNECTION, NOTHING, CONSUMER, NOTHING, SESSION, NOTHING],
    [
        SESSION,
        WITHOUT_SESSION,
        CONNECTION,
        NOTHING,
        CONSUMER,
        NOTHING,
    ],
    [
        SESSION,
        WITHOUT_SESSION,
        CONSUMER,
        WITHOUT_SESSION,
        CONNECTION,
        NOTHING,
    ],
    [
        CONSUMER,
        WITHOUT_CONSUMER,
        SESSION,
        WITHOUT_SESSION,
        CONNECTION,
        NOTHING,
    ],
    [
        CONSUMER,
        WITHOUT_CONSUMER,
        CONNECTION,
        NOTHING,
        SESSION,
        NOTHING,
    ],
];

/// The subscription stands, and its message waits again: the next one who asks has it.
static AFTER: [Row; 8] = [
    (Op::Held, Told::Held(1, 1, 0)),
    (Op::Connect(Some("k")), Told::Done),
    (Op::Start(1), Told::Done),
    (Op::Session(1, Mode::Auto), Told::Done),
    (
        Op::Consumer(1, Kind::Durable("n"), At::Topic("t"), None),
        Told::Done,
    ),
    (Op::Receive(1), Told::Message(b'a', 2)),
    (Op::Receive(1), Told::Nothing),
    (Op::Held, Told::Held(1, 0, 0)),
];

/// How many rows are told what they should be, where the parts are dropped in that order.
fn right_in_order<R: Wait + Drop>(rt: R, alloc: Global, order: &[Row]) -> usize {
    let watch = Watch::new(rt);
    let provider = Provider::in_memory(&watch, alloc);
    let mut desk = Desk::new(alloc, &watch, &provider);
    let before = right_rows(&mut desk, BEFORE.as_slice());
    let dropped = right_rows(&mut desk, order);
    let after = right_rows(&mut desk, AFTER.as_slice());
    before.saturating_add(dropped).saturating_add(after)
}

#[test]
fn drops_in_every_order(rt: HostRuntime) {
    for order in &ORDERS {
        let right = right_in_order(&rt, rt.alloc(), order.as_slice());
        agrees(&rt, "drops", right, 21);
    }
}
