//! Each cause.

use crate::runs::{Row, right_rows};
use jm_base::Mode;
use jm_explain::Why;
use tests_calls::{At, Kind, Op};

/// Connections and sessions.
static LIFE: [Row; 16] = [
    (Op::Start(1), Some(Why::ConnectionNotOpen)),
    (Op::CloseConnection(1), Some(Why::ConnectionNotOpen)),
    (
        Op::Session((1, 1), Mode::Auto),
        Some(Why::ConnectionNotOpen),
    ),
    (Op::Open(1), None),
    (Op::Open(1), Some(Why::NumberUsed)),
    (Op::Acknowledge((1, 1)), Some(Why::SessionNotOpen)),
    (Op::Session((1, 1), Mode::Auto), None),
    (Op::Session((1, 1), Mode::Auto), Some(Why::NumberUsed)),
    (Op::Session((1, 2), Mode::Transacted), None),
    (Op::Rollback((1, 1)), Some(Why::NotTransacted)),
    (Op::Commit((1, 1)), Some(Why::NotTransacted)),
    (Op::Recover((1, 2)), Some(Why::Transacted)),
    (Op::CloseSession((1, 1)), None),
    (Op::Recover((1, 1)), Some(Why::SessionNotOpen)),
    (Op::CloseConnection(1), None),
    (Op::Recover((1, 2)), Some(Why::ConnectionNotOpen)),
];

/// Consumers and listeners.
static CONSUMERS: [Row; 18] = [
    (Op::Open(1), None),
    (Op::Start(1), None),
    (Op::Session((1, 1), Mode::Auto), None),
    (Op::Receive((1, 1), 1), Some(Why::ConsumerNotOpen)),
    (Op::CloseConsumer((1, 1), 1), Some(Why::ConsumerNotOpen)),
    (Op::Consumer((1, 1), 1, None), None),
    (Op::Consumer((1, 1), 1, None), Some(Why::NumberUsed)),
    (Op::Take((1, 1), 1), Some(Why::NotListening)),
    (Op::Listener((1, 1), 1, true), None),
    (Op::Receive((1, 1), 1), Some(Why::Listening)),
    (Op::Done((1, 1), 1, true), Some(Why::NotBusy)),
    (Op::Send(1, "a", None), None),
    (Op::Take((1, 1), 1), None),
    (Op::Take((1, 1), 1), Some(Why::Busy)),
    (Op::Listener((1, 1), 1, false), Some(Why::Busy)),
    (Op::CloseConsumer((1, 1), 1), Some(Why::Busy)),
    (Op::Done((1, 1), 1, true), None),
    (Op::CloseConsumer((1, 1), 1), None),
];

/// Subscriptions that have names.
static SUBSCRIPTIONS: [Row; 22] = [
    (Op::Open(2), None),
    (Op::Session((2, 1), Mode::Auto), None),
    (
        Op::Named((2, 1), 1, Kind::Durable, "n", None),
        Some(Why::NoClient),
    ),
    (Op::OpenFor(1, "k"), None),
    (Op::Start(1), None),
    (Op::Session((1, 1), Mode::Client), None),
    (Op::Named((1, 1), 1, Kind::Durable, "n", None), None),
    (
        Op::Named((1, 1), 2, Kind::SharedDurable, "n", None),
        Some(Why::OtherKind),
    ),
    (
        Op::Named((1, 1), 2, Kind::Durable, "n", None),
        Some(Why::ActiveConsumer),
    ),
    (Op::Unsubscribe((1, 1), "n"), Some(Why::ActiveConsumer)),
    (Op::Unsubscribe((1, 1), "m"), None),
    (Op::Send(2, "a", None), None),
    (Op::Receive((1, 1), 1), None),
    (Op::CloseConsumer((1, 1), 1), None),
    (
        Op::Named((1, 1), 2, Kind::Durable, "n", Some("x = 1")),
        Some(Why::RowOut),
    ),
    (Op::Unsubscribe((1, 1), "n"), Some(Why::RowOut)),
    (
        Op::NamedAt((1, 1), 2, Kind::Durable, At::Queue("q"), "n", None),
        None,
    ),
    (Op::Named((1, 1), 2, Kind::Durable, "n", Some("=")), None),
    (Op::Named((1, 1), 3, Kind::Shared, "s", None), None),
    (
        Op::Named((1, 1), 4, Kind::Shared, "s", Some("x = 1")),
        Some(Why::OtherDefinition),
    ),
    (Op::Named((1, 1), 5, Kind::SharedDurable, "d", None), None),
    (
        Op::Named((1, 1), 6, Kind::SharedDurable, "d", Some("x = 1")),
        Some(Why::ActiveConsumer),
    ),
];

#[test]
fn causes_of_connections_and_sessions(rt: HostRuntime) {
    let right = right_rows(rt.alloc(), LIFE.as_slice());
    assert_eq!(&rt; right, LIFE.len());
}

#[test]
fn causes_of_consumers(rt: HostRuntime) {
    let right = right_rows(rt.alloc(), CONSUMERS.as_slice());
    assert_eq!(&rt; right, CONSUMERS.len());
}

#[test]
fn causes_of_subscriptions(rt: HostRuntime) {
    let right = right_rows(rt.alloc(), SUBSCRIPTIONS.as_slice());
    assert_eq!(&rt; right, SUBSCRIPTIONS.len());
}
