//! Shared subscriptions, durable and not.

use crate::runs::{Run, told};
use crate::told::is_text;
use jm_base::Mode;
use tests_calls::{Kind, Op};

static RUNS: [Run; 6] = [
    // Each message comes to one of the consumers that share, and to an unshared one; the subscription ends with its last
    // consumer, and is made anew.
    Run {
        limit: 100_000,
        ops: &[
            Op::Open(1),
            Op::Open(2),
            Op::Open(3),
            Op::Session((1, 1), Mode::Auto),
            Op::Session((2, 1), Mode::Auto),
            Op::Session((3, 1), Mode::Auto),
            Op::Start(1),
            Op::Start(2),
            Op::Start(3),
            Op::Named((1, 1), 1, Kind::Shared, "g", None),
            Op::Named((2, 1), 1, Kind::Shared, "g", None),
            Op::Consumer((3, 1), 1, None),
            Op::Send(2, "a", None),
            Op::Send(2, "b", None),
            Op::Receive((1, 1), 1),
            Op::Receive((2, 1), 1),
            Op::Receive((3, 1), 1),
            Op::Receive((3, 1), 1),
            Op::Named((3, 1), 2, Kind::Shared, "g", Some("x = 1")),
            Op::CloseConsumer((1, 1), 1),
            Op::CloseConsumer((2, 1), 1),
            Op::Send(2, "c", None),
            Op::Named((1, 1), 2, Kind::Shared, "g", None),
            Op::Receive((1, 1), 2),
        ],
        told: "ok, ok, ok, ok, ok, ok, ok, ok, ok, ok, ok, ok, sent 1, sent 2, a#1, b#1, a#1, b#1, SubscriptionInUse, ok, ok, \
               sent 3, ok, none, 2 and 1",
    },
    // A row that is out stays out to its session when its consumer closes, until that recovers.
    Run {
        limit: 100_000,
        ops: &[
            Op::Open(1),
            Op::Open(2),
            Op::Session((1, 1), Mode::Client),
            Op::Session((2, 1), Mode::Client),
            Op::Start(1),
            Op::Start(2),
            Op::Named((1, 1), 1, Kind::Shared, "g", None),
            Op::Named((2, 1), 1, Kind::Shared, "g", None),
            Op::Send(2, "a", None),
            Op::Receive((1, 1), 1),
            Op::CloseConsumer((1, 1), 1),
            Op::Receive((2, 1), 1),
            Op::Recover((1, 1)),
            Op::Receive((2, 1), 1),
        ],
        told: "ok, ok, ok, ok, ok, ok, ok, ok, sent 1, a#1, ok, none, ok, a#2, 1 and 1",
    },
    // The last close takes what is out with it, and the limit holds.
    Run {
        limit: 1,
        ops: &[
            Op::Open(1),
            Op::Open(2),
            Op::Session((1, 1), Mode::Client),
            Op::Session((2, 1), Mode::Auto),
            Op::Start(1),
            Op::Named((1, 1), 1, Kind::Shared, "g", None),
            Op::Send(2, "a", None),
            Op::Send(2, "b", None),
            Op::Missed((1, 1), 1),
            Op::Receive((1, 1), 1),
            Op::CloseConsumer((1, 1), 1),
            Op::Recover((1, 1)),
            Op::Named((1, 1), 2, Kind::Shared, "g", Some("x = 1")),
            Op::Receive((1, 1), 2),
            Op::Missed((1, 1), 2),
        ],
        told: "ok, ok, ok, ok, ok, ok, sent 1, sent 2, missed 1, a#1, ok, ok, ok, none, missed 0, 1 and 0",
    },
    // A shared durable one stays without a consumer; another selector replaces it once no consumer is active and no row is
    // out; it is deleted then.
    Run {
        limit: 1,
        ops: &[
            Op::Open(1),
            Op::Open(2),
            Op::Session((1, 1), Mode::Client),
            Op::Session((2, 1), Mode::Auto),
            Op::Start(1),
            Op::Start(2),
            Op::Named((1, 1), 1, Kind::SharedDurable, "d", None),
            Op::Named((2, 1), 1, Kind::SharedDurable, "d", None),
            Op::Send(2, "a", None),
            Op::Send(2, "b", None),
            Op::Receive((1, 1), 1),
            Op::Receive((2, 1), 1),
            Op::CloseConsumer((2, 1), 1),
            Op::Named((2, 1), 2, Kind::SharedDurable, "d", Some("x = 1")),
            Op::Unsubscribe((2, 1), "d"),
            Op::CloseConsumer((1, 1), 1),
            Op::Named((2, 1), 2, Kind::SharedDurable, "d", Some("x = 1")),
            Op::Unsubscribe((2, 1), "d"),
            Op::Recover((1, 1)),
            Op::Named((2, 1), 2, Kind::SharedDurable, "d", None),
            Op::Receive((2, 1), 2),
            Op::Send(2, "c", Some(1)),
            Op::CloseSession((2, 1)),
            Op::Named((1, 1), 2, Kind::SharedDurable, "d", Some("x = 1")),
            Op::Receive((1, 1), 2),
            Op::CloseConsumer((1, 1), 2),
            Op::Unsubscribe((1, 1), "d"),
            Op::Unsubscribe((1, 1), "d"),
        ],
        told: "ok, ok, ok, ok, ok, ok, ok, ok, sent 1, sent 2, a#1, b#1, ok, SubscriptionInUse, SubscriptionInUse, ok, \
               SubscriptionInUse, SubscriptionInUse, ok, ok, a#2, sent 3, ok, ok, none, ok, ok, InvalidDestination, 0 and 0",
    },
    // Of one name there is one of each client and one of none; a durable one and one that is not are separate.
    Run {
        limit: 100_000,
        ops: &[
            Op::OpenFor(1, "k"),
            Op::Open(2),
            Op::Session((1, 1), Mode::Auto),
            Op::Session((2, 1), Mode::Auto),
            Op::Start(1),
            Op::Start(2),
            Op::Named((1, 1), 1, Kind::Shared, "g", None),
            Op::Named((2, 1), 1, Kind::Shared, "g", Some("x = 1")),
            Op::Named((1, 1), 2, Kind::SharedDurable, "g", Some("x = 1")),
            Op::Named((2, 1), 2, Kind::SharedDurable, "g", Some("x = 2")),
            Op::Send(2, "a", Some(1)),
            Op::Send(2, "b", Some(2)),
            Op::Receive((1, 1), 1),
            Op::Receive((1, 1), 1),
            Op::Receive((2, 1), 1),
            Op::Receive((2, 1), 1),
            Op::Receive((1, 1), 2),
            Op::Receive((1, 1), 2),
            Op::Receive((2, 1), 2),
            Op::Receive((2, 1), 2),
        ],
        told: "ok, ok, ok, ok, ok, ok, ok, ok, ok, ok, sent 1, sent 2, a#1, b#1, a#1, none, a#1, none, b#1, none, 4 and 0",
    },
    // A connection that closes gives back what is out, and ends the subscription of which it had the last consumers.
    Run {
        limit: 100_000,
        ops: &[
            Op::Open(1),
            Op::Open(2),
            Op::Session((1, 1), Mode::Client),
            Op::Session((2, 1), Mode::Auto),
            Op::Start(1),
            Op::Start(2),
            Op::Named((1, 1), 1, Kind::Shared, "g", None),
            Op::Named((1, 1), 2, Kind::SharedDurable, "g", None),
            Op::Named((1, 1), 3, Kind::Shared, "h", None),
            Op::Named((2, 1), 1, Kind::Shared, "h", None),
            Op::Send(2, "a", None),
            Op::Receive((1, 1), 1),
            Op::Receive((1, 1), 2),
            Op::Receive((1, 1), 3),
            Op::CloseConnection(1),
            Op::Receive((2, 1), 1),
            Op::Named((2, 1), 2, Kind::SharedDurable, "g", None),
            Op::Receive((2, 1), 2),
            Op::Named((2, 1), 3, Kind::Shared, "g", None),
            Op::Receive((2, 1), 3),
        ],
        told: "ok, ok, ok, ok, ok, ok, ok, ok, ok, ok, sent 1, a#1, a#1, a#1, ok, a#2, ok, a#2, ok, none, 3 and 0",
    },
];

#[test]
fn shared_subscriptions(rt: HostRuntime) {
    for run in &RUNS {
        is_text(&rt, run.told, told(rt.alloc(), run));
    }
}
