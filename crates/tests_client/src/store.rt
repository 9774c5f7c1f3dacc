//! A store that fails once: the call is refused, the next one works, and nothing is lost.

use crate::op::{At, Kind, Op, Part, What};
use crate::runs::{Run, right_in};
use crate::told::{Told, agrees};
use jm_client::{Mode, Refusal};

/// In each the durable subscription is the store's first write.
static RUNS: [Run; 5] = [
    Run {
        name: "a send",
        limit: 100_000,
        writes: Some(1),
        rows: &[
            (Op::Connect(Some("k")), Told::Done),
            (Op::Start(0), Told::Done),
            (Op::Session(0, Mode::Auto), Told::Done),
            (
                Op::Consumer(0, Kind::Durable("n"), At::Topic("t"), None),
                Told::Done,
            ),
            (
                Op::Send(0, At::Topic("t"), What::Text("a")),
                Told::Refused(Refusal::Store),
            ),
            (Op::Held, Told::Held(1, 0, 0)),
            (Op::Receive(0), Told::Nothing),
            // The number of the send was used.
            (
                Op::Send(0, At::Topic("t"), What::Text("b")),
                Told::Number(2),
            ),
            (Op::Receive(0), Told::Message(b'b', 1)),
            (Op::Receive(0), Told::Nothing),
        ],
    },
    Run {
        name: "a commit",
        limit: 100_000,
        writes: Some(1),
        rows: &[
            (Op::Connect(Some("k")), Told::Done),
            (Op::Start(0), Told::Done),
            (Op::Session(0, Mode::Transacted), Told::Done),
            (
                Op::Consumer(0, Kind::Durable("n"), At::Topic("t"), None),
                Told::Done,
            ),
            (
                Op::Send(0, At::Topic("t"), What::Text("a")),
                Told::Number(1),
            ),
            (
                Op::Send(0, At::Topic("t"), What::Text("b")),
                Told::Number(2),
            ),
            (Op::Commit(0), Told::Refused(Refusal::Store)),
            (Op::Receive(0), Told::Nothing),
            (Op::Commit(0), Told::Done),
            (Op::Receive(0), Told::Message(b'a', 1)),
            (Op::Receive(0), Told::Message(b'b', 1)),
            (Op::Receive(0), Told::Nothing),
        ],
    },
    Run {
        name: "a receive that settles",
        limit: 100_000,
        writes: Some(2),
        rows: &[
            (Op::Connect(Some("k")), Told::Done),
            (Op::Start(0), Told::Done),
            (Op::Session(0, Mode::Auto), Told::Done),
            (
                Op::Consumer(0, Kind::Durable("n"), At::Topic("t"), None),
                Told::Done,
            ),
            (
                Op::Send(0, At::Topic("t"), What::Text("a")),
                Told::Number(1),
            ),
            (Op::Receive(0), Told::Refused(Refusal::Store)),
            (Op::Held, Told::Held(1, 1, 0)),
            (Op::Receive(0), Told::Message(b'a', 1)),
            (Op::Receive(0), Told::Nothing),
        ],
    },
    Run {
        name: "a subscription that is made",
        limit: 100_000,
        writes: Some(0),
        rows: &[
            (Op::Connect(Some("k")), Told::Done),
            (Op::Session(0, Mode::Auto), Told::Done),
            (
                Op::Consumer(0, Kind::Durable("n"), At::Topic("t"), None),
                Told::Refused(Refusal::Store),
            ),
            (Op::Open, Told::Open(1, 1, 0)),
            (Op::Held, Told::Held(0, 0, 0)),
            (
                Op::Consumer(0, Kind::Durable("n"), At::Topic("t"), None),
                Told::Done,
            ),
            (Op::Open, Told::Open(1, 1, 1)),
            (Op::Held, Told::Held(1, 0, 0)),
        ],
    },
    Run {
        name: "a subscription that is deleted",
        limit: 100_000,
        writes: Some(1),
        rows: &[
            (Op::Connect(Some("k")), Told::Done),
            (Op::Session(0, Mode::Auto), Told::Done),
            (
                Op::Consumer(0, Kind::Durable("n"), At::Topic("t"), None),
                Told::Done,
            ),
            (Op::Close(Part::Consumer(0)), Told::Done),
            (Op::Unsubscribe(0, "n"), Told::Refused(Refusal::Store)),
            (Op::Held, Told::Held(1, 0, 0)),
            (Op::Unsubscribe(0, "n"), Told::Done),
            (Op::Held, Told::Held(0, 0, 0)),
            (
                Op::Unsubscribe(0, "n"),
                Told::Refused(Refusal::InvalidDestination),
            ),
        ],
    },
];

#[test]
fn store_that_fails_once_refuses_one_call(rt: HostRuntime) {
    for run in &RUNS {
        let right = right_in(&rt, rt.alloc(), run);
        agrees(&rt, run.name, right, run.rows.len());
    }
}
