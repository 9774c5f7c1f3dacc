//! Each cause that a client can bring about, and the call that goes through once it is gone.

use crate::desk::right_in_memory;
use crate::meanwhile::Meanwhile;
use crate::op::{At, Kind, Op, Row, Told};
use jm_client::{Mode, Refusal, Why};

const CONNECTION_NOT_OPEN: Told = Told::Because(Refusal::IllegalState, Why::ConnectionNotOpen);

const SESSION_NOT_OPEN: Told = Told::Because(Refusal::IllegalState, Why::SessionNotOpen);

const CONSUMER_NOT_OPEN: Told = Told::Because(Refusal::IllegalState, Why::ConsumerNotOpen);

const LISTENING: Told = Told::Because(Refusal::IllegalState, Why::Listening);

const BUSY: Told = Told::Because(Refusal::IllegalState, Why::Busy);

const NO_CLIENT: Told = Told::Because(Refusal::IllegalState, Why::NoClient);

const TRANSACTED: Told = Told::Because(Refusal::IllegalState, Why::Transacted);

const NOT_TRANSACTED: Told = Told::Because(Refusal::IllegalState, Why::NotTransacted);

const OTHER_KIND: Told = Told::Because(Refusal::SubscriptionInUse, Why::OtherKind);

const OTHER_DEFINITION: Told = Told::Because(Refusal::SubscriptionInUse, Why::OtherDefinition);

const ACTIVE_CONSUMER: Told = Told::Because(Refusal::SubscriptionInUse, Why::ActiveConsumer);

const ROW_OUT: Told = Told::Because(Refusal::SubscriptionInUse, Why::RowOut);

const A: At = At::Topic("a");

const B: At = At::Topic("b");

const Q: At = At::Queue("q");

/// A session is closed, and later its connection, while the client still has what they made.
static CLOSED: [Row; 25] = [
    (Op::Connect(None), Told::Done),
    (Op::Start(0), Told::Done),
    (Op::Session(0, Mode::Auto), Told::Done),
    (Op::Session(0, Mode::Auto), Told::Done),
    (Op::Session(0, Mode::Transacted), Told::Done),
    (Op::Consumer(0, Kind::Plain, A), Told::Done),
    (Op::Consumer(1, Kind::Plain, Q), Told::Done),
    (Op::CloseSession(1), Told::Done),
    (Op::Receive(1), SESSION_NOT_OPEN),
    (Op::Missed(1), SESSION_NOT_OPEN),
    (Op::Consumer(0, Kind::Plain, Q), Told::Done),
    (Op::Send(0, Q), Told::Done),
    (Op::Receive(2), Told::Done),
    (Op::CloseConnection(0), Told::Done),
    (Op::Receive(0), CONNECTION_NOT_OPEN),
    (Op::Receive(1), CONNECTION_NOT_OPEN),
    (Op::Acknowledge(0), CONNECTION_NOT_OPEN),
    (Op::Send(0, A), CONNECTION_NOT_OPEN),
    (Op::Consumer(0, Kind::Durable("n"), A), CONNECTION_NOT_OPEN),
    (Op::Unsubscribe(0, "n"), CONNECTION_NOT_OPEN),
    (Op::Commit(2), CONNECTION_NOT_OPEN),
    (
        Op::Says("IllegalState: the connection is not open: create another"),
        Told::Done,
    ),
    (Op::Connect(None), Told::Done),
    (Op::Session(1, Mode::Auto), Told::Done),
    (Op::Send(3, A), Told::Done),
];

/// Calls of the other modes.
static MODES: [Row; 17] = [
    (Op::Connect(None), Told::Done),
    (Op::Start(0), Told::Done),
    (Op::Session(0, Mode::Client), Told::Done),
    (Op::Session(0, Mode::Transacted), Told::Done),
    (Op::Commit(0), NOT_TRANSACTED),
    (Op::Rollback(0), NOT_TRANSACTED),
    (
        Op::Says("IllegalState: the session is not transacted: acknowledge, or recover"),
        Told::Done,
    ),
    (Op::Recover(0), Told::Done),
    (Op::Acknowledge(0), Told::Done),
    (Op::Consumer(1, Kind::Plain, Q), Told::Done),
    (Op::Send(0, Q), Told::Done),
    (Op::Receive(0), Told::Done),
    (Op::Recover(1), TRANSACTED),
    (Op::Rollback(1), Told::Done),
    (Op::Receive(0), Told::Done),
    (Op::Commit(1), Told::Done),
    (Op::Receive(0), Told::Nothing),
];

/// Subscriptions of another kind, that ask for another thing, or that have an open consumer.
static CONSUMERS: [Row; 25] = [
    (Op::Connect(None), Told::Done),
    (Op::Session(0, Mode::Auto), Told::Done),
    (Op::Consumer(0, Kind::Durable("n"), A), NO_CLIENT),
    (Op::Connect(Some("k")), Told::Done),
    (Op::Session(1, Mode::Auto), Told::Done),
    (Op::Consumer(1, Kind::Durable("n"), A), Told::Done),
    (Op::Consumer(1, Kind::SharedDurable("n"), A), OTHER_KIND),
    (Op::Consumer(1, Kind::SharedDurable("m"), A), Told::Done),
    (Op::Consumer(1, Kind::Durable("m"), A), OTHER_KIND),
    (Op::Consumer(1, Kind::Durable("n"), A), ACTIVE_CONSUMER),
    (Op::Unsubscribe(1, "n"), ACTIVE_CONSUMER),
    (
        Op::Says("SubscriptionInUse: a consumer of the subscription is open: close it"),
        Told::Done,
    ),
    (Op::CloseConsumer(0), Told::Done),
    (Op::Consumer(1, Kind::Durable("n"), A), Told::Done),
    (
        Op::Consumer(1, Kind::SharedDurable("m"), B),
        ACTIVE_CONSUMER,
    ),
    (Op::CloseConsumer(1), Told::Done),
    (Op::Consumer(1, Kind::SharedDurable("m"), B), Told::Done),
    (Op::CloseConsumer(3), Told::Done),
    (Op::Unsubscribe(1, "m"), Told::Done),
    (Op::Consumer(0, Kind::Shared("s"), A), Told::Done),
    (Op::Consumer(0, Kind::Shared("s"), B), OTHER_DEFINITION),
    (Op::Consumer(0, Kind::Shared("s"), A), Told::Done),
    (Op::CloseConsumer(4), Told::Done),
    (Op::CloseConsumer(5), Told::Done),
    (Op::Consumer(0, Kind::Shared("s"), B), Told::Done),
];

/// A message of a subscription is out: the session gives it back, or settles it.
static OUT: [Row; 24] = [
    (Op::Connect(Some("k")), Told::Done),
    (Op::Start(0), Told::Done),
    (Op::Session(0, Mode::Client), Told::Done),
    (Op::Consumer(0, Kind::Durable("n"), A), Told::Done),
    (Op::Send(0, A), Told::Done),
    (Op::Receive(0), Told::Done),
    (Op::CloseConsumer(0), Told::Done),
    (Op::Consumer(0, Kind::Durable("n"), B), ROW_OUT),
    (Op::Unsubscribe(0, "n"), ROW_OUT),
    (Op::Recover(0), Told::Done),
    (Op::Consumer(0, Kind::Durable("n"), A), Told::Done),
    (Op::Receive(1), Told::Done),
    (Op::CloseConsumer(1), Told::Done),
    (Op::Unsubscribe(0, "n"), ROW_OUT),
    (Op::Acknowledge(0), Told::Done),
    (Op::Unsubscribe(0, "n"), Told::Done),
    (Op::Consumer(0, Kind::SharedDurable("m"), A), Told::Done),
    (Op::Send(0, A), Told::Done),
    (Op::Receive(2), Told::Done),
    (Op::CloseConsumer(2), Told::Done),
    (Op::Consumer(0, Kind::SharedDurable("m"), B), ROW_OUT),
    (Op::Recover(0), Told::Done),
    (Op::Consumer(0, Kind::SharedDurable("m"), B), Told::Done),
    (Op::Receive(3), Told::Nothing),
];

/// A session listens to another's consumer; and a listener has a message while its consumer is called, and once it has none.
static LISTENERS: [Row; 17] = [
    (Op::Connect(None), Told::Done),
    (Op::Start(0), Told::Done),
    (Op::Session(0, Mode::Auto), Told::Done),
    (Op::Session(0, Mode::Auto), Told::Done),
    (Op::Consumer(0, Kind::Plain, Q), Told::Done),
    (Op::Listen(1, 0, Meanwhile::Nothing), CONSUMER_NOT_OPEN),
    (Op::Listen(0, 0, Meanwhile::Nothing), Told::Nothing),
    (Op::Send(1, Q), Told::Done),
    (Op::Listen(0, 0, Meanwhile::Receive), LISTENING),
    (
        Op::Says("IllegalState: the consumer listens: take its listener away before a receive"),
        Told::Done,
    ),
    (Op::Receive(0), Told::Nothing),
    (Op::Send(1, Q), Told::Done),
    (Op::Listen(0, 0, Meanwhile::Listen), BUSY),
    (Op::Listen(0, 0, Meanwhile::Listen), Told::Nothing),
    (Op::Send(1, Q), Told::Done),
    (Op::Listen(0, 0, Meanwhile::Nothing), Told::Done),
    (Op::Receive(0), Told::Nothing),
];

#[test]
fn each_cause(rt: HostRuntime) {
    let runs = [
        CLOSED.as_slice(),
        MODES.as_slice(),
        CONSUMERS.as_slice(),
        OUT.as_slice(),
        LISTENERS.as_slice(),
    ];
    for rows in &runs {
        let right = right_in_memory(&rt, rt.alloc(), rows);
        assert_eq!(&rt; right, rows.len());
    }
}
