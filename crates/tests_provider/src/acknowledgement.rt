//! Acknowledgement, redelivery, closing and the limit of held rows: what each call of a run answers, and how many
//! subscriptions and messages are left.

use crate::runs::run;
use crate::told::is_text;
use jm_base::{Mode, Refusal};
use jm_core::{Core, Reply};
use std::alloc::{AllocError, Global};
use tests_calls::{Op, all_shown};

/// A run: the limit of rows, the mode of session 1.1, its calls, and what they answer and leave. Before them connection 1 is
/// started, session 1.1 has consumer 1 of all, and session 2.1 is there to send.
pub(crate) struct Row {
    pub limit: u32,
    pub mode: Mode,
    pub ops: &'static [Op],
    pub told: &'static str,
}

static ROWS: [Row; 8] = [
    // The third of three messages is missed.
    Row {
        limit: 2,
        mode: Mode::Auto,
        ops: &[
            Op::Send(2, "a", None),
            Op::Send(2, "b", None),
            Op::Send(2, "c", None),
            Op::Missed((1, 1), 1),
            Op::Receive((1, 1), 1),
            Op::Receive((1, 1), 1),
            Op::Receive((1, 1), 1),
        ],
        told: "sent 1, sent 2, sent 3, missed 1, a#1, b#1, none, 1 and 0",
    },
    // A row that is expired and not yet dropped counts for the limit.
    Row {
        limit: 1,
        mode: Mode::Auto,
        ops: &[
            Op::SendAt(2, "a", 1000, 10),
            Op::SendAt(2, "b", 2000, 0),
            Op::Missed((1, 1), 1),
            Op::ReceiveAt((1, 1), 1, 2000),
            Op::SendAt(2, "c", 2000, 0),
            Op::ReceiveAt((1, 1), 1, 2000),
        ],
        told: "sent 1, sent 2, missed 1, none, sent 3, c#1, 1 and 0",
    },
    // What is out through a consumer ends with the consumer's own subscription.
    Row {
        limit: 100_000,
        mode: Mode::Client,
        ops: &[
            Op::Send(2, "a", None),
            Op::Receive((1, 1), 1),
            Op::CloseConsumer((1, 1), 1),
            Op::Recover((1, 1)),
            Op::Consumer((1, 1), 2, None),
            Op::Receive((1, 1), 2),
            Op::Receive((1, 1), 1),
        ],
        told: "sent 1, a#1, ok, ok, ok, none, IllegalState, 1 and 0",
    },
    // A lazy session has settled what it received.
    Row {
        limit: 100_000,
        mode: Mode::Dups,
        ops: &[
            Op::Send(2, "a", None),
            Op::Receive((1, 1), 1),
            Op::Recover((1, 1)),
            Op::Receive((1, 1), 1),
        ],
        told: "sent 1, a#1, ok, none, 1 and 0",
    },
    // Two messages come again, and are acknowledged.
    Row {
        limit: 100_000,
        mode: Mode::Client,
        ops: &[
            Op::Send(2, "a", None),
            Op::Send(2, "b", None),
            Op::Receive((1, 1), 1),
            Op::Receive((1, 1), 1),
            Op::Recover((1, 1)),
            Op::Receive((1, 1), 1),
            Op::Receive((1, 1), 1),
            Op::Acknowledge((1, 1)),
            Op::Recover((1, 1)),
            Op::Receive((1, 1), 1),
        ],
        told: "sent 1, sent 2, a#1, b#1, ok, a#2, b#2, ok, ok, none, 1 and 0",
    },
    // A message comes three times.
    Row {
        limit: 100_000,
        mode: Mode::Client,
        ops: &[
            Op::Send(2, "a", None),
            Op::Receive((1, 1), 1),
            Op::Recover((1, 1)),
            Op::Receive((1, 1), 1),
            Op::Recover((1, 1)),
            Op::Receive((1, 1), 1),
            Op::Acknowledge((1, 1)),
            Op::Recover((1, 1)),
            Op::Receive((1, 1), 1),
        ],
        told: "sent 1, a#1, ok, a#2, ok, a#3, ok, ok, none, 1 and 0",
    },
    // A connection closes while three of its sessions hold a row, and a session of another holds one too.
    Row {
        limit: 100_000,
        mode: Mode::Client,
        ops: &[
            Op::Session((1, 2), Mode::Client),
            Op::Session((1, 3), Mode::Client),
            Op::Session((2, 2), Mode::Client),
            Op::Consumer((1, 2), 1, None),
            Op::Consumer((1, 3), 1, None),
            Op::Consumer((2, 2), 1, None),
            Op::Start(2),
            Op::Send(2, "a", None),
            Op::Receive((1, 1), 1),
            Op::Receive((1, 2), 1),
            Op::Receive((1, 3), 1),
            Op::Receive((2, 2), 1),
            Op::CloseConnection(1),
            Op::Receive((1, 2), 1),
            Op::Receive((2, 2), 1),
            Op::Recover((2, 2)),
            Op::Receive((2, 2), 1),
            Op::CloseConnection(1),
        ],
        told: "ok, ok, ok, ok, ok, ok, ok, sent 1, a#1, a#1, a#1, a#1, ok, IllegalState, none, ok, a#2, ok, 1 and 1",
    },
    // Closing again does nothing, and what was closed is not opened again.
    Row {
        limit: 100_000,
        mode: Mode::Client,
        ops: &[
            Op::CloseSession((1, 1)),
            Op::CloseSession((1, 1)),
            Op::Send(1, "a", None),
            Op::Open(1),
        ],
        told: "ok, ok, IllegalState, IllegalState, 0 and 0",
    },
];

/// The calls that come before those of a row.
fn opening(mode: Mode) -> [Op; 6] {
    [
        Op::Open(1),
        Op::Open(2),
        Op::Session((1, 1), mode),
        Op::Session((2, 1), Mode::Auto),
        Op::Consumer((1, 1), 1, None),
        Op::Start(1),
    ]
}

/// The replies, then how many subscriptions and how many messages are left.
fn with_left(alloc: Global, replies: &[Reply], left: (usize, usize)) -> Result<String, AllocError> {
    let replies = all_shown(alloc, replies)?;
    let (subscriptions, messages) = left;
    format!(in alloc; "{replies}{subscriptions} and {messages}")
}

fn told_by(alloc: Global, core: &mut Core, row: &Row) -> Result<String, AllocError> {
    let _ = run(alloc, core, &opening(row.mode));
    match run(alloc, core, row.ops) {
        Ok(replies) => with_left(alloc, &replies, (core.stations_len(), core.kept())),
        Err(_) => Err(AllocError),
    }
}

/// What the row's calls answer and leave.
pub(crate) fn told(alloc: Global, row: &Row) -> Result<String, AllocError> {
    match Core::new(alloc, 1, row.limit) {
        Ok(mut core) => told_by(alloc, &mut core, row),
        Err(Refusal::OutOfRange) => format!(in alloc; "out of range"),
        Err(_) => Err(AllocError),
    }
}

#[test]
fn rows_go_out_and_come_back(rt: HostRuntime) {
    for row in &ROWS {
        is_text(&rt, row.told, told(rt.alloc(), row));
    }
}
