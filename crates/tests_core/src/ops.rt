//! A run with a call of each kind but those of subscriptions that have names.

use jm_base::Mode;
use tests_calls::{At, Op};

/// Two connections with a session each, the second for a client; in the first a consumer of all, one with a selector, one of
/// others' messages, and one of a queue; and three messages, of which one was received; then each further kind of call.
pub(crate) static OPS: [Op; 27] = [
    Op::Open(1),
    Op::OpenFor(2, "c"),
    Op::Session((1, 1), Mode::Auto),
    Op::Session((2, 1), Mode::Auto),
    Op::Consumer((1, 1), 1, None),
    Op::Consumer((1, 1), 2, Some("x > 0")),
    Op::Consumer((1, 1), 3, Some("x = ")),
    Op::ConsumerAt((1, 1), 4, At::Topic("t"), None, true),
    Op::ConsumerAt((1, 1), 5, At::Queue("q"), Some("x > 0"), false),
    Op::Start(1),
    Op::Send(2, "a", Some(1)),
    Op::Send(2, "b", None),
    Op::SendTo(2, At::Queue("q"), "c", None),
    Op::Receive((1, 1), 1),
    Op::Receive((1, 1), 5),
    Op::Stop(2),
    Op::Receive((1, 1), 3),
    Op::Missed((1, 1), 1),
    Op::Acknowledge((1, 1)),
    Op::Recover((1, 1)),
    Op::Session((1, 2), Mode::Transacted),
    Op::Rollback((1, 2)),
    Op::Commit((1, 2)),
    Op::CloseConsumer((1, 2), 1),
    Op::CloseSession((1, 2)),
    Op::CloseConnection(3),
    Op::OpenFor(3, "c"),
];
