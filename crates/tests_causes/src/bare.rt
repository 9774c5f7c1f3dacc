//! Refusals that have no cause, and a message that is read-only.

use crate::desk::right_in_memory;
use crate::op::{At, Kind, Op, Row, Told};
use jm_base::Cause;
use jm_client::{Mode, Refusal};

const BAD_NAME: Told = Told::Bare(Refusal::BadName);

const IN_USE: Told = Told::Bare(Refusal::InvalidClientId);

const NO_TOPIC: Told = Told::Bare(Refusal::InvalidDestination);

const NO_SELECTOR: Told = Told::Bare(Refusal::InvalidSelector {
    at: 0,
    cause: Cause::Expected,
});

const NO_TIME: Told = Told::Bare(Refusal::OutOfRange);

const NO_INT: Told = Told::Bare(Refusal::MessageFormat);

const READ_ONLY: Told = Told::Bare(Refusal::IllegalState);

const A: At = At::Topic("a");

const Q: At = At::Queue("q");

/// Names, client identifiers, destinations and selectors.
static ASKED: [Row; 19] = [
    (Op::Connect(Some("")), BAD_NAME),
    (Op::Connect(Some("k")), Told::Done),
    (Op::Connect(Some("k")), IN_USE),
    (
        Op::Says(
            "InvalidClientId: close the connection that has the client identifier, or take another",
        ),
        Told::Done,
    ),
    (Op::CloseConnection(0), Told::Done),
    (Op::Connect(Some("k")), Told::Done),
    (Op::Session(1, Mode::Auto), Told::Done),
    (Op::Consumer(0, Kind::Plain, At::Topic("")), BAD_NAME),
    (Op::Consumer(0, Kind::Durable(""), A), BAD_NAME),
    (Op::Unsubscribe(0, ""), BAD_NAME),
    (Op::Consumer(0, Kind::Selecting("= 1"), Q), NO_SELECTOR),
    (Op::Consumer(0, Kind::Selecting("x = 1"), Q), Told::Done),
    (Op::Consumer(0, Kind::Durable("n"), Q), NO_TOPIC),
    (Op::Consumer(0, Kind::Shared("n"), Q), NO_TOPIC),
    (Op::Consumer(0, Kind::SharedDurable("n"), Q), NO_TOPIC),
    (Op::Unsubscribe(0, "n"), NO_TOPIC),
    (Op::Consumer(0, Kind::Durable("n"), A), Told::Done),
    (Op::CloseConsumer(1), Told::Done),
    (Op::Unsubscribe(0, "n"), Told::Done),
];

/// A clock that is not read, a boolean that is read as an int, and a message that is read-only: it is in no state for a write,
/// and no state of the provider is the cause.
static MESSAGES: [Row; 14] = [
    (Op::Connect(None), Told::Done),
    (Op::Start(0), Told::Done),
    (Op::Session(0, Mode::Client), Told::Done),
    (Op::Consumer(0, Kind::Plain, Q), Told::Done),
    (Op::Clock(None), Told::Done),
    (Op::Send(0, Q), NO_TIME),
    (Op::Receive(0), NO_TIME),
    (Op::Clock(Some(1000)), Told::Done),
    (Op::Send(0, Q), Told::Done),
    (Op::Read(0), NO_INT),
    (Op::Recover(0), Told::Done),
    (Op::Write(0), READ_ONLY),
    (Op::Recover(0), Told::Done),
    (Op::Receive(0), Told::Done),
];

#[test]
fn no_cause(rt: HostRuntime) {
    let runs = [ASKED.as_slice(), MESSAGES.as_slice()];
    for rows in &runs {
        let right = right_in_memory(&rt, rt.alloc(), rows);
        assert_eq!(&rt; right, rows.len());
    }
}
