//! Each refusal.

use crate::op::{At, Kind, Op, Part, What};
use crate::runs::{Run, right_in, right_over};
use crate::told::{Told, agrees};
use crate::watch::Watch;
use jm_base::Cause;
use jm_client::{Mode, Refusal};
use jm_core::{Call, Core, Request, Step, Who};
use jm_dest::ConnectionId;
use std::alloc::Global;
use std::sync::Wait;

static RUNS: [Run; 5] = [
    Run {
        name: "names, selectors and client identifiers",
        limit: 100_000,
        writes: None,
        rows: &[
            (Op::Connect(Some("")), Told::Refused(Refusal::BadName)),
            (Op::Connect(Some("k")), Told::Done),
            (
                Op::Connect(Some("k")),
                Told::Refused(Refusal::InvalidClientId),
            ),
            (Op::Connect(None), Told::Done),
            (Op::Session(0, Mode::Auto), Told::Done),
            (Op::Session(1, Mode::Auto), Told::Done),
            (Op::Name(0, At::Topic("")), Told::Refused(Refusal::BadName)),
            (
                Op::Name(0, At::Queue("a\u{7f}")),
                Told::Refused(Refusal::BadName),
            ),
            (
                Op::Consumer(0, Kind::Plain, At::Topic("t"), Some("= 1")),
                Told::Refused(Refusal::InvalidSelector {
                    at: 0,
                    cause: Cause::Expected,
                }),
            ),
            (
                Op::Consumer(0, Kind::Durable("n"), At::Topic("t"), Some("= 1")),
                Told::Refused(Refusal::InvalidSelector {
                    at: 0,
                    cause: Cause::Expected,
                }),
            ),
            (
                Op::Consumer(0, Kind::Durable(""), At::Topic("t"), None),
                Told::Refused(Refusal::BadName),
            ),
            (
                Op::Consumer(0, Kind::Shared(""), At::Topic("t"), None),
                Told::Refused(Refusal::BadName),
            ),
            (
                Op::Consumer(0, Kind::SharedDurable(""), At::Topic("t"), None),
                Told::Refused(Refusal::BadName),
            ),
            (
                Op::Consumer(1, Kind::Durable("n"), At::Topic("t"), None),
                Told::Refused(Refusal::IllegalState),
            ),
            (
                Op::Consumer(0, Kind::Durable("n"), At::Queue("q"), None),
                Told::Refused(Refusal::InvalidDestination),
            ),
            (
                Op::Consumer(0, Kind::Shared("n"), At::Queue("q"), None),
                Told::Refused(Refusal::InvalidDestination),
            ),
            (
                Op::Consumer(0, Kind::SharedDurable("n"), At::Queue("q"), None),
                Told::Refused(Refusal::InvalidDestination),
            ),
            (Op::Unsubscribe(0, ""), Told::Refused(Refusal::BadName)),
            (
                Op::Unsubscribe(0, "n"),
                Told::Refused(Refusal::InvalidDestination),
            ),
            (Op::Open, Told::Open(2, 2, 0)),
            (Op::Held, Told::Held(0, 0, 0)),
        ],
    },
    Run {
        name: "a durable subscription in use",
        limit: 100_000,
        writes: None,
        rows: &[
            (Op::Connect(Some("k")), Told::Done),
            (Op::Start(0), Told::Done),
            (Op::Session(0, Mode::Client), Told::Done),
            (Op::Session(0, Mode::Auto), Told::Done),
            (
                Op::Consumer(0, Kind::Durable("n"), At::Topic("t"), None),
                Told::Done,
            ),
            (
                Op::Consumer(1, Kind::Durable("n"), At::Topic("t"), None),
                Told::Refused(Refusal::SubscriptionInUse),
            ),
            (
                Op::Consumer(1, Kind::SharedDurable("n"), At::Topic("t"), None),
                Told::Refused(Refusal::SubscriptionInUse),
            ),
            (
                Op::Unsubscribe(1, "n"),
                Told::Refused(Refusal::SubscriptionInUse),
            ),
            (
                Op::Send(1, At::Topic("t"), What::Text("a")),
                Told::Number(1),
            ),
            (Op::Receive(0), Told::Message(b'a', 1)),
            (Op::Close(Part::Consumer(0)), Told::Done),
            // The message is out.
            (
                Op::Consumer(1, Kind::Durable("n"), At::Topic("u"), None),
                Told::Refused(Refusal::SubscriptionInUse),
            ),
            (
                Op::Unsubscribe(1, "n"),
                Told::Refused(Refusal::SubscriptionInUse),
            ),
            (Op::Held, Told::Held(1, 1, 0)),
            (Op::Acknowledge(0), Told::Done),
            (
                Op::Consumer(1, Kind::Durable("n"), At::Topic("u"), None),
                Told::Done,
            ),
            (Op::Close(Part::Consumer(1)), Told::Done),
            (Op::Unsubscribe(1, "n"), Told::Done),
            (Op::Held, Told::Held(0, 0, 0)),
        ],
    },
    Run {
        name: "shared subscriptions in use",
        limit: 100_000,
        writes: None,
        rows: &[
            (Op::Connect(None), Told::Done),
            (Op::Session(0, Mode::Auto), Told::Done),
            (
                Op::Consumer(0, Kind::Shared("m"), At::Topic("t"), None),
                Told::Done,
            ),
            (
                Op::Consumer(0, Kind::Shared("m"), At::Topic("u"), None),
                Told::Refused(Refusal::SubscriptionInUse),
            ),
            (
                Op::Consumer(0, Kind::Shared("m"), At::Topic("t"), None),
                Told::Done,
            ),
            (
                Op::Consumer(0, Kind::SharedDurable("m"), At::Topic("t"), None),
                Told::Done,
            ),
            (
                Op::Consumer(0, Kind::SharedDurable("m"), At::Topic("u"), None),
                Told::Refused(Refusal::SubscriptionInUse),
            ),
            (
                Op::Consumer(0, Kind::SharedDurable("m"), At::Topic("t"), None),
                Told::Done,
            ),
            (
                Op::Unsubscribe(0, "m"),
                Told::Refused(Refusal::SubscriptionInUse),
            ),
            (Op::Open, Told::Open(1, 1, 4)),
            (Op::Held, Told::Held(2, 0, 0)),
        ],
    },
    Run {
        name: "calls of the other modes",
        limit: 100_000,
        writes: None,
        rows: &[
            (Op::Connect(None), Told::Done),
            (Op::Session(0, Mode::Auto), Told::Done),
            (Op::Session(0, Mode::Transacted), Told::Done),
            (Op::Commit(0), Told::Refused(Refusal::IllegalState)),
            (Op::Rollback(0), Told::Refused(Refusal::IllegalState)),
            (Op::Recover(0), Told::Done),
            (Op::Acknowledge(0), Told::Done),
            (Op::Recover(1), Told::Refused(Refusal::IllegalState)),
            (Op::Acknowledge(1), Told::Done),
            (Op::Rollback(1), Told::Done),
            (Op::Commit(1), Told::Done),
        ],
    },
    Run {
        name: "calls after the connection is closed",
        limit: 100_000,
        writes: None,
        rows: &[
            (Op::Connect(Some("k")), Told::Done),
            (Op::Start(0), Told::Done),
            (Op::Session(0, Mode::Auto), Told::Done),
            (Op::Session(0, Mode::Transacted), Told::Done),
            (
                Op::Consumer(0, Kind::Plain, At::Topic("t"), None),
                Told::Done,
            ),
            (
                Op::Consumer(1, Kind::Plain, At::Queue("q"), None),
                Told::Done,
            ),
            (
                Op::Send(1, At::Queue("q"), What::Text("a")),
                Told::Number(1),
            ),
            (Op::Close(Part::Connection(0)), Told::Done),
            (Op::Start(0), Told::Absent),
            (Op::Open, Told::Open(0, 0, 0)),
            (
                Op::Send(0, At::Topic("t"), What::Text("a")),
                Told::Refused(Refusal::IllegalState),
            ),
            // One that is transacted tells it at its commit, and what it sent is never published.
            (
                Op::Send(1, At::Queue("q"), What::Text("b")),
                Told::Number(2),
            ),
            (Op::Commit(1), Told::Refused(Refusal::IllegalState)),
            (Op::Rollback(1), Told::Refused(Refusal::IllegalState)),
            (Op::Acknowledge(0), Told::Refused(Refusal::IllegalState)),
            (Op::Recover(0), Told::Refused(Refusal::IllegalState)),
            (
                Op::Unsubscribe(0, "n"),
                Told::Refused(Refusal::IllegalState),
            ),
            (Op::Receive(0), Told::Refused(Refusal::IllegalState)),
            (Op::Wait(1), Told::Refused(Refusal::IllegalState)),
            (Op::Missed(0), Told::Refused(Refusal::IllegalState)),
            (
                Op::Consumer(0, Kind::Plain, At::Queue("q"), None),
                Told::Refused(Refusal::IllegalState),
            ),
            (
                Op::Consumer(0, Kind::Durable("n"), At::Topic("t"), None),
                Told::Refused(Refusal::IllegalState),
            ),
            (
                Op::Consumer(0, Kind::Shared("n"), At::Topic("t"), None),
                Told::Refused(Refusal::IllegalState),
            ),
            (
                Op::Consumer(0, Kind::SharedDurable("n"), At::Topic("t"), None),
                Told::Refused(Refusal::IllegalState),
            ),
            (Op::Close(Part::Consumer(0)), Told::Done),
            (Op::Close(Part::Session(0)), Told::Done),
            (Op::Close(Part::Session(1)), Told::Done),
            (Op::Close(Part::Consumer(1)), Told::Done),
            (Op::Held, Told::Held(0, 0, 0)),
        ],
    },
];

#[test]
fn each_refusal(rt: HostRuntime) {
    for run in &RUNS {
        let right = right_in(&rt, rt.alloc(), run);
        agrees(&rt, run.name, right, run.rows.len());
    }
}

/// The last number of a connection is given.
static NUMBERS: [(Op, Told); 2] = [
    (Op::Connect(None), Told::Refused(Refusal::Exhausted)),
    (Op::Open, Told::Open(1, 0, 0)),
];

/// Opens the connection of the last number; whether that was accepted.
fn opens_last(core: &mut Core) -> bool {
    match ConnectionId::new(u32::MAX) {
        Ok(id) => {
            let step = Step {
                who: Who::Connection(id),
                call: Call::Ask(Request::Open { client: None }),
            };
            core.step(&step).is_ok()
        }
        Err(_) => false,
    }
}

/// How many rows are told what they should be, over a core of which the last connection is open.
fn right_after_last<R: Wait + Drop>(rt: R, alloc: Global) -> usize {
    let watch = Watch::new(rt);
    match Core::new(alloc, 1, 1) {
        Ok(mut core) => {
            if opens_last(&mut core) {
                right_over(alloc, &watch, core, None, NUMBERS.as_slice())
            } else {
                0
            }
        }
        Err(_) => 0,
    }
}

#[test]
fn connection_after_the_last_number(rt: HostRuntime) {
    let right = right_after_last(&rt, rt.alloc());
    agrees(&rt, "numbers of connections", right, NUMBERS.len());
}
