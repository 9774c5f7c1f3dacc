//! Queues, client identifiers, and consumers of others' messages: what each call of a run answers, and what is left.

use crate::runs::run;
use crate::told::is_text;
use jm_base::{Mode, Refusal};
use jm_core::{Core, Reply};
use std::alloc::{AllocError, Global};
use tests_calls::{At, Op, all_shown};

/// A run: the limit of rows, the mode of session 1.1, its calls, and what they answer, with how many subscriptions, messages
/// of subscriptions and messages of queues are left. Before them connection 1 is started, session 1.1 is there, and session
/// 2.1 to send.
struct Row {
    limit: u32,
    mode: Mode,
    ops: &'static [Op],
    told: &'static str,
}

const Q: At = At::Queue("q");

static ROWS: [Row; 15] = [
    // What is sent to a queue waits for the first consumer that comes, whatever waits at another queue.
    Row {
        limit: 100_000,
        mode: Mode::Auto,
        ops: &[
            Op::SendTo(2, Q, "a", None),
            Op::SendTo(2, At::Queue("r"), "b", None),
            Op::ConsumerAt((1, 1), 1, Q, None, false),
            Op::Receive((1, 1), 1),
            Op::Receive((1, 1), 1),
            Op::Missed((1, 1), 1),
        ],
        told: "sent 1, sent 2, ok, a#1, none, missed 0, 0 and 0 and 1",
    },
    // A queue and a topic of one name have nothing in common.
    Row {
        limit: 100_000,
        mode: Mode::Auto,
        ops: &[
            Op::ConsumerAt((1, 1), 1, At::Topic("q"), None, false),
            Op::ConsumerAt((1, 1), 2, Q, None, false),
            Op::SendTo(2, Q, "a", None),
            Op::SendTo(2, At::Topic("q"), "b", None),
            Op::Receive((1, 1), 1),
            Op::Receive((1, 1), 1),
            Op::Receive((1, 1), 2),
        ],
        told: "ok, ok, sent 1, sent 2, b#1, none, a#1, 1 and 0 and 0",
    },
    // Each message of a queue comes to one of its consumers.
    Row {
        limit: 100_000,
        mode: Mode::Auto,
        ops: &[
            Op::ConsumerAt((1, 1), 1, Q, None, false),
            Op::ConsumerAt((1, 1), 2, Q, None, false),
            Op::SendTo(2, Q, "a", None),
            Op::SendTo(2, Q, "b", None),
            Op::SendTo(2, Q, "c", None),
            Op::Receive((1, 1), 1),
            Op::Receive((1, 1), 2),
            Op::Receive((1, 1), 1),
            Op::Receive((1, 1), 2),
        ],
        told: "ok, ok, sent 1, sent 2, sent 3, a#1, b#1, c#1, none, 0 and 0 and 0",
    },
    // A selector takes a later message, and the earlier one waits for another consumer.
    Row {
        limit: 100_000,
        mode: Mode::Auto,
        ops: &[
            Op::ConsumerAt((1, 1), 1, Q, Some("x > 0"), false),
            Op::ConsumerAt((1, 1), 2, Q, None, false),
            Op::SendTo(2, Q, "a", None),
            Op::SendTo(2, Q, "b", Some(1)),
            Op::Receive((1, 1), 1),
            Op::Receive((1, 1), 1),
            Op::Receive((1, 1), 2),
            Op::Receive((1, 1), 2),
        ],
        told: "ok, ok, sent 1, sent 2, b#1, none, a#1, none, 0 and 0 and 0",
    },
    // A delayed message of a queue is held back from all its consumers, and hides none that they select.
    Row {
        limit: 100_000,
        mode: Mode::Auto,
        ops: &[
            Op::ConsumerAt((1, 1), 1, Q, Some("x > 0"), false),
            Op::ConsumerAt((1, 1), 2, Q, None, false),
            Op::SendDelayed(2, Q, "a", 500, Some(1)),
            Op::SendTo(2, Q, "b", Some(1)),
            Op::ReceiveAt((1, 1), 1, 1499),
            Op::ReceiveAt((1, 1), 1, 1499),
            Op::ReceiveAt((1, 1), 2, 1499),
            Op::ReceiveAt((1, 1), 1, 1500),
        ],
        told: "ok, ok, sent 1, sent 2, b#1, none, none, a#1, 0 and 0 and 0",
    },
    // A delayed message counts at the limit of a subscription that is not durable.
    Row {
        limit: 1,
        mode: Mode::Auto,
        ops: &[
            Op::Consumer((1, 1), 1, None),
            Op::SendDelayed(2, At::Topic("t"), "a", 500, None),
            Op::Send(2, "b", None),
            Op::Missed((1, 1), 1),
            Op::Receive((1, 1), 1),
            Op::ReceiveAt((1, 1), 1, 1500),
        ],
        told: "ok, sent 1, sent 2, missed 1, none, a#1, 1 and 0 and 0",
    },
    // A refused selector leaves the number free, and a text without a token is none.
    Row {
        limit: 100_000,
        mode: Mode::Auto,
        ops: &[
            Op::ConsumerAt((1, 1), 1, Q, Some("x = "), false),
            Op::SendTo(2, Q, "a", None),
            Op::Receive((1, 1), 1),
            Op::ConsumerAt((1, 1), 1, Q, Some(" "), false),
            Op::Receive((1, 1), 1),
        ],
        told: "InvalidSelector Expected 4, sent 1, IllegalState, ok, a#1, 0 and 0 and 0",
    },
    // What a session did not acknowledge comes to another, with its count, when the session closes.
    Row {
        limit: 100_000,
        mode: Mode::Client,
        ops: &[
            Op::SendTo(2, Q, "a", None),
            Op::SendTo(2, Q, "b", None),
            Op::ConsumerAt((1, 1), 1, Q, None, false),
            Op::Receive((1, 1), 1),
            Op::Session((1, 2), Mode::Client),
            Op::ConsumerAt((1, 2), 1, Q, None, false),
            Op::Receive((1, 2), 1),
            Op::Receive((1, 2), 1),
            Op::CloseSession((1, 1)),
            Op::Receive((1, 2), 1),
            Op::Acknowledge((1, 2)),
            Op::Receive((1, 2), 1),
        ],
        told: "sent 1, sent 2, ok, a#1, ok, ok, b#1, none, ok, a#2, ok, none, 0 and 0 and 0",
    },
    // What waits at a queue is left when its consumer closes, and what is out stays out to the session.
    Row {
        limit: 100_000,
        mode: Mode::Client,
        ops: &[
            Op::SendTo(2, Q, "a", None),
            Op::SendTo(2, Q, "b", None),
            Op::ConsumerAt((1, 1), 1, Q, None, false),
            Op::Receive((1, 1), 1),
            Op::CloseConsumer((1, 1), 1),
            Op::ConsumerAt((1, 1), 2, Q, None, false),
            Op::Receive((1, 1), 2),
            Op::Receive((1, 1), 2),
            Op::Recover((1, 1)),
            Op::Receive((1, 1), 2),
            Op::Receive((1, 1), 2),
            Op::Receive((1, 1), 1),
        ],
        told: "sent 1, sent 2, ok, a#1, ok, ok, b#1, none, ok, a#2, b#2, IllegalState, 0 and 0 and 2",
    },
    // A rollback gives back to the queue at the old places, before what was sent since.
    Row {
        limit: 100_000,
        mode: Mode::Transacted,
        ops: &[
            Op::SendTo(2, Q, "a", None),
            Op::SendTo(2, Q, "b", None),
            Op::ConsumerAt((1, 1), 1, Q, None, false),
            Op::Receive((1, 1), 1),
            Op::Receive((1, 1), 1),
            Op::SendTo(2, Q, "c", None),
            Op::Rollback((1, 1)),
            Op::Receive((1, 1), 1),
            Op::Receive((1, 1), 1),
            Op::Receive((1, 1), 1),
            Op::Commit((1, 1)),
            Op::Rollback((1, 1)),
            Op::Receive((1, 1), 1),
        ],
        told: "sent 1, sent 2, ok, a#1, b#1, sent 3, ok, a#2, b#2, c#1, ok, ok, none, 0 and 0 and 0",
    },
    // What a transacted session sends to a queue comes there with its commit, behind what came before.
    Row {
        limit: 100_000,
        mode: Mode::Transacted,
        ops: &[
            Op::ConsumerAt((1, 1), 1, Q, None, false),
            Op::SendTo(1, Q, "a", None),
            Op::SendTo(2, Q, "b", None),
            Op::Receive((1, 1), 1),
            Op::Receive((1, 1), 1),
            Op::Commit((1, 1)),
            Op::Receive((1, 1), 1),
            Op::SendTo(1, Q, "c", None),
            Op::Rollback((1, 1)),
        ],
        told: "ok, sent 1, sent 1, b#1, none, ok, a#1, sent 2, ok, 0 and 0 and 1",
    },
    // A queue has no limit.
    Row {
        limit: 1,
        mode: Mode::Auto,
        ops: &[
            Op::SendTo(2, Q, "a", None),
            Op::SendTo(2, Q, "b", None),
            Op::SendTo(2, Q, "c", None),
            Op::ConsumerAt((1, 1), 1, Q, None, false),
            Op::Missed((1, 1), 1),
            Op::Receive((1, 1), 1),
            Op::Receive((1, 1), 1),
        ],
        told: "sent 1, sent 2, sent 3, ok, missed 0, a#1, b#1, 0 and 0 and 1",
    },
    // A client identifier that an open connection has is refused, with the number left free, until that connection closes; a
    // number that was used comes before.
    Row {
        limit: 100_000,
        mode: Mode::Auto,
        ops: &[
            Op::OpenFor(3, "c"),
            Op::OpenFor(4, "c"),
            Op::OpenFor(4, "d"),
            Op::OpenFor(3, "d"),
            Op::Open(5),
            Op::Open(6),
            Op::CloseConnection(3),
            Op::OpenFor(7, "c"),
            Op::OpenFor(8, "c"),
        ],
        told: "ok, InvalidClientId, ok, IllegalState, ok, ok, ok, ok, InvalidClientId, 0 and 0 and 0",
    },
    // A consumer of others' messages gets none that a session of its connection sends, and all of another connection.
    Row {
        limit: 100_000,
        mode: Mode::Auto,
        ops: &[
            Op::Session((1, 2), Mode::Auto),
            Op::ConsumerAt((1, 1), 1, At::Topic("t"), None, true),
            Op::ConsumerAt((1, 2), 1, At::Topic("t"), None, true),
            Op::ConsumerAt((1, 2), 2, At::Topic("t"), None, false),
            Op::Send(1, "a", None),
            Op::Send(2, "b", None),
            Op::Receive((1, 1), 1),
            Op::Receive((1, 1), 1),
            Op::Receive((1, 2), 1),
            Op::Receive((1, 2), 1),
            Op::Receive((1, 2), 2),
            Op::Receive((1, 2), 2),
        ],
        told: "ok, ok, ok, ok, sent 1, sent 1, b#1, none, b#1, none, a#1, b#1, 3 and 0 and 0",
    },
    // At a queue a consumer gets the messages of its own connection, whatever it asks for.
    Row {
        limit: 100_000,
        mode: Mode::Auto,
        ops: &[
            Op::ConsumerAt((1, 1), 1, Q, None, true),
            Op::SendTo(1, Q, "a", None),
            Op::SendTo(2, Q, "b", None),
            Op::Receive((1, 1), 1),
            Op::Receive((1, 1), 1),
        ],
        told: "ok, sent 1, sent 1, a#1, b#1, 0 and 0 and 0",
    },
];

/// The calls that come before those of a row.
fn opening(mode: Mode) -> [Op; 5] {
    [
        Op::Open(1),
        Op::Open(2),
        Op::Session((1, 1), mode),
        Op::Session((2, 1), Mode::Auto),
        Op::Start(1),
    ]
}

/// The replies, then how many subscriptions, messages of subscriptions and messages of queues are left.
fn with_left(alloc: Global, replies: &[Reply], core: &Core) -> Result<String, AllocError> {
    let replies = all_shown(alloc, replies)?;
    let subscriptions = core.stations_len();
    let (messages, queued) = (core.kept(), core.kept_by_queues());
    format!(in alloc; "{replies}{subscriptions} and {messages} and {queued}")
}

fn told_by(alloc: Global, core: &mut Core, row: &Row) -> Result<String, AllocError> {
    let _ = run(alloc, core, &opening(row.mode));
    match run(alloc, core, row.ops) {
        Ok(replies) => with_left(alloc, &replies, core),
        Err(_) => Err(AllocError),
    }
}

/// What the row's calls answer and leave.
fn told(alloc: Global, row: &Row) -> Result<String, AllocError> {
    match Core::new(alloc, 1, row.limit) {
        Ok(mut core) => told_by(alloc, &mut core, row),
        Err(Refusal::OutOfRange) => format!(in alloc; "out of range"),
        Err(_) => Err(AllocError),
    }
}

#[test]
fn queues_clients_and_others_messages(rt: HostRuntime) {
    for row in &ROWS {
        is_text(&rt, row.told, told(rt.alloc(), row));
    }
}
