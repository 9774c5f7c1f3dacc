//! Unshared durable subscriptions.

use crate::runs::{Run, told};
use crate::told::is_text;
use jm_base::Mode;
use tests_calls::{At, Kind, Op};

static RUNS: [Run; 6] = [
    // A consumer closes with a row out; the next one gets nothing until the session rolls back.
    Run {
        limit: 100_000,
        ops: &[
            Op::OpenFor(1, "k"),
            Op::Open(2),
            Op::Session((1, 1), Mode::Transacted),
            Op::Session((2, 1), Mode::Auto),
            Op::Start(1),
            Op::Named((1, 1), 2, Kind::Durable, "n", None),
            Op::Send(2, "a", None),
            Op::Receive((1, 1), 2),
            Op::CloseConsumer((1, 1), 2),
            Op::Session((1, 2), Mode::Auto),
            Op::Named((1, 2), 1, Kind::Durable, "n", None),
            Op::Receive((1, 2), 1),
            Op::Rollback((1, 1)),
            Op::Receive((1, 2), 1),
        ],
        told: "ok, ok, ok, ok, ok, ok, sent 1, a#1, ok, ok, ok, none, ok, a#2, 1 and 0",
    },
    // One consumer at a time; another selector replaces the subscription with its rows, unless a row is out; it is deleted
    // once, when no row is out.
    Run {
        limit: 100_000,
        ops: &[
            Op::OpenFor(1, "k"),
            Op::Open(2),
            Op::Session((1, 1), Mode::Auto),
            Op::Session((2, 1), Mode::Auto),
            Op::Start(1),
            Op::Named((1, 1), 2, Kind::Durable, "n", Some("x = 1")),
            Op::Session((1, 2), Mode::Client),
            Op::Named((1, 2), 1, Kind::Durable, "n", Some("x = 1")),
            Op::CloseConsumer((1, 1), 2),
            Op::Send(2, "a", Some(1)),
            Op::Named((1, 2), 2, Kind::Durable, "n", Some("x = 2")),
            Op::Receive((1, 2), 2),
            Op::Send(2, "b", Some(2)),
            Op::Receive((1, 2), 2),
            Op::CloseConsumer((1, 2), 2),
            Op::Named((1, 2), 3, Kind::Durable, "n", Some("x = 3")),
            Op::Unsubscribe((1, 2), "n"),
            Op::Acknowledge((1, 2)),
            Op::Unsubscribe((1, 2), "n"),
            Op::Unsubscribe((1, 2), "n"),
        ],
        told: "ok, ok, ok, ok, ok, ok, ok, SubscriptionInUse, ok, sent 1, ok, none, sent 2, b#1, ok, SubscriptionInUse, \
               SubscriptionInUse, ok, ok, InvalidDestination, 0 and 0",
    },
    // Of others' messages alone: none comes of a connection that has the client identifier, also of a later one.
    Run {
        limit: 100_000,
        ops: &[
            Op::OpenFor(1, "k"),
            Op::Open(2),
            Op::Session((1, 1), Mode::Auto),
            Op::Session((2, 1), Mode::Auto),
            Op::Named((1, 1), 1, Kind::Others, "n", None),
            Op::CloseConnection(1),
            Op::OpenFor(3, "k"),
            Op::OpenFor(4, "k"),
            Op::Session((3, 1), Mode::Auto),
            Op::Send(3, "a", None),
            Op::Send(2, "b", None),
            Op::Named((3, 1), 1, Kind::Others, "n", None),
            Op::Start(3),
            Op::Receive((3, 1), 1),
            Op::Receive((3, 1), 1),
        ],
        told: "ok, ok, ok, ok, ok, ok, ok, InvalidClientId, ok, sent 1, sent 1, ok, ok, b#1, none, 1 and 0",
    },
    // It goes on without a consumer, and past the limit, which a consumer's own subscription has.
    Run {
        limit: 1,
        ops: &[
            Op::OpenFor(1, "k"),
            Op::Open(2),
            Op::Session((1, 1), Mode::Auto),
            Op::Session((2, 1), Mode::Auto),
            Op::Start(1),
            Op::Consumer((1, 1), 1, None),
            Op::Named((1, 1), 2, Kind::Durable, "n", None),
            Op::CloseConsumer((1, 1), 2),
            Op::Send(2, "a", None),
            Op::Send(2, "b", None),
            Op::Missed((1, 1), 1),
            Op::Named((1, 1), 3, Kind::Durable, "n", None),
            Op::Missed((1, 1), 3),
            Op::Receive((1, 1), 3),
            Op::Receive((1, 1), 3),
        ],
        told: "ok, ok, ok, ok, ok, ok, ok, ok, sent 1, sent 2, missed 1, ok, missed 0, a#1, b#1, 2 and 1",
    },
    // Two clients have one each of one name.
    Run {
        limit: 100_000,
        ops: &[
            Op::OpenFor(1, "k"),
            Op::OpenFor(2, "l"),
            Op::Session((1, 1), Mode::Auto),
            Op::Session((2, 1), Mode::Auto),
            Op::Named((1, 1), 1, Kind::Durable, "n", None),
            Op::Named((2, 1), 1, Kind::Durable, "n", Some("x = 1")),
            Op::Start(1),
            Op::Start(2),
            Op::Send(2, "a", None),
            Op::Receive((1, 1), 1),
            Op::Receive((2, 1), 1),
            Op::CloseSession((1, 1)),
            Op::Unsubscribe((2, 1), "n"),
            Op::Session((1, 2), Mode::Auto),
            Op::Unsubscribe((1, 2), "n"),
        ],
        told: "ok, ok, ok, ok, ok, ok, ok, ok, sent 1, a#1, none, ok, SubscriptionInUse, ok, ok, 1 and 0",
    },
    // A selector without a token is none: the subscription stands as it is. Another topic replaces it.
    Run {
        limit: 100_000,
        ops: &[
            Op::OpenFor(1, "k"),
            Op::Open(2),
            Op::Session((1, 1), Mode::Auto),
            Op::Session((2, 1), Mode::Auto),
            Op::Start(1),
            Op::Named((1, 1), 1, Kind::Durable, "n", None),
            Op::Send(2, "a", None),
            Op::CloseConsumer((1, 1), 1),
            Op::Named((1, 1), 2, Kind::Durable, "n", Some(" ")),
            Op::Receive((1, 1), 2),
            Op::Send(2, "b", None),
            Op::CloseConsumer((1, 1), 2),
            Op::NamedAt((1, 1), 3, Kind::Durable, At::Topic("u"), "n", None),
            Op::Receive((1, 1), 3),
            Op::SendTo(2, At::Topic("u"), "c", None),
            Op::Receive((1, 1), 3),
        ],
        told: "ok, ok, ok, ok, ok, ok, sent 1, ok, ok, a#1, sent 2, ok, ok, none, sent 3, c#1, 1 and 0",
    },
];

#[test]
fn durable_subscriptions(rt: HostRuntime) {
    for run in &RUNS {
        is_text(&rt, run.told, told(rt.alloc(), run));
    }
}
