//! A clock that goes back, and one that is not read.

use crate::op::{At, Kind, Op, What};
use crate::runs::{Run, right_in};
use crate::told::{Told, agrees};
use jm_client::{Mode, Refusal};

static RUNS: [Run; 2] = [
    Run {
        name: "a clock that goes back",
        limit: 100_000,
        writes: None,
        rows: &[
            (Op::Connect(None), Told::Done),
            (Op::Start(0), Told::Done),
            (Op::Session(0, Mode::Client), Told::Done),
            (
                Op::Consumer(0, Kind::Plain, At::Topic("t"), None),
                Told::Done,
            ),
            // It expires at 1500.
            (
                Op::Send(0, At::Topic("t"), What::Living("a", 500)),
                Told::Number(1),
            ),
            (Op::Clock(Some(200)), Told::Done),
            (Op::Receive(0), Told::Message(b'a', 1)),
            (Op::Recover(0), Told::Done),
            (Op::Clock(Some(1500)), Told::Done),
            (Op::Receive(0), Told::Nothing),
            // What was dropped does not come again.
            (Op::Clock(Some(1000)), Told::Done),
            (Op::Wait(0), Told::Nothing),
            // It is held back until 1500.
            (
                Op::Send(0, At::Topic("t"), What::Delayed("b", 500)),
                Told::Number(2),
            ),
            (Op::Wait(0), Told::Nothing),
            (Op::Clock(Some(1500)), Told::Done),
            (Op::Wait(0), Told::Message(b'b', 1)),
            (Op::Recover(0), Told::Done),
            (Op::Clock(Some(1499)), Told::Done),
            (Op::Receive(0), Told::Nothing),
            (Op::Wait(0), Told::Nothing),
            (Op::Clock(Some(1500)), Told::Done),
            (Op::Receive(0), Told::Message(b'b', 2)),
        ],
    },
    Run {
        name: "a clock that is not read, or past its range",
        limit: 100_000,
        writes: None,
        rows: &[
            (Op::Connect(None), Told::Done),
            (Op::Start(0), Told::Done),
            (Op::Session(0, Mode::Client), Told::Done),
            (
                Op::Consumer(0, Kind::Plain, At::Topic("t"), None),
                Told::Done,
            ),
            (
                Op::Send(0, At::Topic("t"), What::Text("a")),
                Told::Number(1),
            ),
            (Op::Clock(None), Told::Done),
            (
                Op::Send(0, At::Topic("t"), What::Text("b")),
                Told::Refused(Refusal::OutOfRange),
            ),
            (Op::Receive(0), Told::Refused(Refusal::OutOfRange)),
            (Op::Wait(0), Told::Refused(Refusal::OutOfRange)),
            (Op::Acknowledge(0), Told::Done),
            (Op::Clock(Some(u64::MAX)), Told::Done),
            (
                Op::Send(0, At::Topic("t"), What::Text("b")),
                Told::Refused(Refusal::OutOfRange),
            ),
            (Op::Receive(0), Told::Refused(Refusal::OutOfRange)),
            (Op::Clock(Some(1000)), Told::Done),
            (
                Op::Send(0, At::Topic("t"), What::Living("b", i64::MAX)),
                Told::Refused(Refusal::OutOfRange),
            ),
            (
                Op::Send(0, At::Topic("t"), What::Delayed("b", i64::MAX)),
                Told::Refused(Refusal::OutOfRange),
            ),
            (Op::Receive(0), Told::Message(b'a', 1)),
            // No number was used.
            (
                Op::Send(0, At::Topic("t"), What::Text("b")),
                Told::Number(2),
            ),
            (Op::Receive(0), Told::Message(b'b', 1)),
        ],
    },
];

#[test]
fn clocks(rt: HostRuntime) {
    for run in &RUNS {
        let right = right_in(&rt, rt.alloc(), run);
        agrees(&rt, run.name, right, run.rows.len());
    }
}
