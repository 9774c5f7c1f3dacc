//! Each call on its happy path.

use crate::op::{At, Kind, Op, Part, What};
use crate::runs::{Run, right_in};
use crate::told::{Told, agrees};
use jm_client::Mode;

static RUNS: [Run; 4] = [
    Run {
        name: "a durable subscription and transactions",
        limit: 100_000,
        writes: None,
        rows: &[
            (Op::Connect(Some("billing")), Told::Done),
            (Op::Start(0), Told::Done),
            (Op::Session(0, Mode::Transacted), Told::Done),
            (Op::Name(0, At::Topic("orders")), Told::Done),
            (Op::Name(0, At::Queue("orders")), Told::Done),
            (
                Op::Consumer(0, Kind::Durable("invoices"), At::Topic("orders"), None),
                Told::Done,
            ),
            (
                Op::Send(0, At::Topic("orders"), What::Text("a")),
                Told::Number(1),
            ),
            (Op::Receive(0), Told::Nothing),
            (Op::Commit(0), Told::Done),
            (Op::Receive(0), Told::Message(b'a', 1)),
            (Op::Rollback(0), Told::Done),
            (Op::Wait(0), Told::Message(b'a', 2)),
            (Op::Commit(0), Told::Done),
            (Op::Receive(0), Told::Nothing),
            (
                Op::Send(0, At::Topic("orders"), What::Text("b")),
                Told::Number(2),
            ),
            (Op::Rollback(0), Told::Done),
            (Op::Commit(0), Told::Done),
            (Op::Receive(0), Told::Nothing),
            (Op::Close(Part::Consumer(0)), Told::Done),
            (Op::Held, Told::Held(1, 0, 0)),
            (Op::Unsubscribe(0, "invoices"), Told::Done),
            (Op::Held, Told::Held(0, 0, 0)),
            (Op::Close(Part::Session(0)), Told::Done),
            (Op::Close(Part::Connection(0)), Told::Done),
            (Op::Open, Told::Open(0, 0, 0)),
        ],
    },
    Run {
        name: "consumers of each kind of a topic",
        limit: 100_000,
        writes: None,
        rows: &[
            (Op::Connect(Some("k")), Told::Done),
            (Op::Session(0, Mode::Auto), Told::Done),
            (Op::Session(0, Mode::Client), Told::Done),
            (
                Op::Consumer(0, Kind::Plain, At::Topic("t"), Some("JMSPriority = 4")),
                Told::Done,
            ),
            (
                Op::Consumer(0, Kind::Plain, At::Topic("t"), Some("JMSPriority = 5")),
                Told::Done,
            ),
            (
                Op::Consumer(0, Kind::Others, At::Topic("t"), None),
                Told::Done,
            ),
            (
                Op::Consumer(0, Kind::DurableOthers("o"), At::Topic("t"), None),
                Told::Done,
            ),
            (
                Op::Consumer(1, Kind::SharedDurable("d"), At::Topic("t"), None),
                Told::Done,
            ),
            (
                Op::Consumer(1, Kind::Shared("s"), At::Topic("t"), None),
                Told::Done,
            ),
            (Op::Open, Told::Open(1, 2, 6)),
            (
                Op::Send(0, At::Topic("t"), What::Text("a")),
                Told::Number(1),
            ),
            (Op::Receive(0), Told::Nothing),
            (Op::Start(0), Told::Done),
            (Op::Receive(0), Told::Message(b'a', 1)),
            (Op::Receive(0), Told::Nothing),
            (Op::Receive(1), Told::Nothing),
            (Op::Receive(2), Told::Nothing),
            (Op::Receive(3), Told::Nothing),
            (Op::Receive(4), Told::Message(b'a', 1)),
            (Op::Receive(5), Told::Message(b'a', 1)),
            (Op::Recover(1), Told::Done),
            (Op::Receive(4), Told::Message(b'a', 2)),
            (Op::Receive(5), Told::Message(b'a', 2)),
            (Op::Held, Told::Held(6, 1, 0)),
            (Op::Acknowledge(1), Told::Done),
            (Op::Recover(1), Told::Done),
            (Op::Receive(4), Told::Nothing),
            (Op::Held, Told::Held(6, 0, 0)),
            (Op::Missed(0), Told::Number(0)),
        ],
    },
    Run {
        name: "a queue, and bodies of each kind",
        limit: 100_000,
        writes: None,
        rows: &[
            (Op::Connect(None), Told::Done),
            (Op::Start(0), Told::Done),
            (Op::Session(0, Mode::Dups), Told::Done),
            (
                Op::Consumer(0, Kind::Plain, At::Queue("q"), None),
                Told::Done,
            ),
            (
                Op::Send(0, At::Queue("q"), What::Bytes(b"bc")),
                Told::Number(1),
            ),
            (Op::Send(0, At::Queue("q"), What::NoBody), Told::Number(2)),
            (Op::Held, Told::Held(0, 0, 2)),
            (Op::Receive(0), Told::Message(b'b', 1)),
            (Op::Wait(0), Told::Message(0, 1)),
            (Op::Receive(0), Told::Nothing),
            (Op::Stop(0), Told::Done),
            (
                Op::Send(0, At::Queue("q"), What::Text("c")),
                Told::Number(3),
            ),
            (Op::Receive(0), Told::Nothing),
            (Op::Wait(0), Told::Nothing),
            (Op::Start(0), Told::Done),
            (Op::Receive(0), Told::Message(b'c', 1)),
            (Op::Missed(0), Told::Number(0)),
        ],
    },
    Run {
        name: "a subscription at its limit",
        limit: 1,
        writes: None,
        rows: &[
            (Op::Connect(None), Told::Done),
            (Op::Start(0), Told::Done),
            (Op::Session(0, Mode::Auto), Told::Done),
            (
                Op::Consumer(0, Kind::Plain, At::Topic("t"), None),
                Told::Done,
            ),
            (
                Op::Send(0, At::Topic("t"), What::Text("a")),
                Told::Number(1),
            ),
            (
                Op::Send(0, At::Topic("t"), What::Text("b")),
                Told::Number(2),
            ),
            (Op::Missed(0), Told::Number(1)),
            (Op::Receive(0), Told::Message(b'a', 1)),
            (Op::Receive(0), Told::Nothing),
        ],
    },
];

#[test]
fn each_call_on_its_happy_path(rt: HostRuntime) {
    for run in &RUNS {
        let right = right_in(&rt, rt.alloc(), run);
        agrees(&rt, run.name, right, run.rows.len());
    }
}
