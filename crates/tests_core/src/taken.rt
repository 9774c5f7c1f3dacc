//! The row that a planned delivery takes, by its place.

use crate::plans::asked;
use crate::runs::run;
use crate::told::holds;
use jm_base::{Mode, Refusal};
use jm_core::Core;
use std::alloc::Global;
use tests_calls::{At, Op, call};

/// The calls of a run, a call behind them that is no send, and the place of the row that this one takes, where it takes one.
struct Row {
    ops: &'static [Op],
    last: Op,
    taken: Option<u64>,
}

const Q: At = At::Queue("q");

static SESSIONS: [Op; 5] = [
    Op::Open(1),
    Op::Open(2),
    Op::Session((1, 1), Mode::Client),
    Op::Session((2, 1), Mode::Auto),
    Op::Start(1),
];

static ROWS: [Row; 7] = [
    // Of a queue, the next row.
    Row {
        ops: &[
            Op::ConsumerAt((1, 1), 1, Q, None, false),
            Op::SendTo(2, At::Queue("r"), "a", None),
            Op::SendTo(2, Q, "b", None),
            Op::SendTo(2, Q, "c", None),
        ],
        last: Op::Receive((1, 1), 1),
        taken: Some(2),
    },
    // Of a queue, the next row that the selector selects.
    Row {
        ops: &[
            Op::ConsumerAt((1, 1), 1, Q, Some("x > 0"), false),
            Op::SendTo(2, Q, "a", None),
            Op::SendTo(2, Q, "b", Some(0)),
            Op::SendTo(2, Q, "c", Some(1)),
        ],
        last: Op::Receive((1, 1), 1),
        taken: Some(3),
    },
    // Where none is selected, nothing.
    Row {
        ops: &[
            Op::ConsumerAt((1, 1), 1, Q, Some("x > 0"), false),
            Op::SendTo(2, Q, "a", None),
        ],
        last: Op::Receive((1, 1), 1),
        taken: None,
    },
    // Of a subscription, the next row that is not out.
    Row {
        ops: &[
            Op::Consumer((1, 1), 1, None),
            Op::Send(2, "a", None),
            Op::Send(2, "b", None),
            Op::Receive((1, 1), 1),
        ],
        last: Op::Receive((1, 1), 1),
        taken: Some(2),
    },
    // For a listener.
    Row {
        ops: &[
            Op::ConsumerAt((1, 1), 1, Q, None, false),
            Op::Listener((1, 1), 1, true),
            Op::SendTo(2, Q, "a", None),
        ],
        last: Op::Take((1, 1), 1),
        taken: Some(1),
    },
    // While the connection is stopped, nothing.
    Row {
        ops: &[
            Op::ConsumerAt((1, 1), 1, Q, None, false),
            Op::SendTo(2, Q, "a", None),
            Op::Stop(1),
        ],
        last: Op::Receive((1, 1), 1),
        taken: None,
    },
    // By a call that delivers nothing.
    Row {
        ops: &[
            Op::ConsumerAt((1, 1), 1, Q, None, false),
            Op::SendTo(2, Q, "a", None),
        ],
        last: Op::Acknowledge((1, 1)),
        taken: None,
    },
];

/// What the row's last call takes, which is planned and let go.
fn taken(alloc: Global, row: &Row) -> Result<Option<u64>, Refusal> {
    let mut core = Core::new(alloc, 1, 100_000)?;
    let _ = run(alloc, &mut core, &SESSIONS);
    let _ = run(alloc, &mut core, row.ops);
    let step = asked(alloc, call(alloc, row.last)?)?;
    let plan = core.plan(&step)?;
    Ok(core.taken(&plan))
}

#[test]
fn rows_that_are_taken(rt: HostRuntime) {
    for row in &ROWS {
        holds(&rt, "a row", taken(rt.alloc(), row) == Ok(row.taken));
    }
}
