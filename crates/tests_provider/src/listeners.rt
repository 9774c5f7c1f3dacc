//! Listeners: what each call of a run answers, and how many subscriptions and messages are left.

use crate::acknowledgement::{Row, told};
use crate::told::is_text;
use jm_base::Mode;
use tests_calls::{At, Kind, Op};

static ROWS: [Row; 12] = [
    // A message is given back, taken again, and settled; each call is refused where another is due.
    Row {
        limit: 100_000,
        mode: Mode::Auto,
        ops: &[
            Op::Send(2, "a", None),
            Op::Listener((1, 1), 1, true),
            Op::Receive((1, 1), 1),
            Op::Take((1, 1), 1),
            Op::Take((1, 1), 1),
            Op::CloseConsumer((1, 1), 1),
            Op::Done((1, 1), 1, false),
            Op::Take((1, 1), 1),
            Op::Done((1, 1), 1, true),
            Op::Take((1, 1), 1),
            Op::Done((1, 1), 1, true),
        ],
        told: "sent 1, ok, IllegalState, a#1, IllegalState, IllegalState, ok, a#2, ok, none, IllegalState, 1 and 0",
    },
    // A message that a recovery gave back, and that another consumer of the shared subscription has by then, is not
    // settled with the first delivery of it.
    Row {
        limit: 100_000,
        mode: Mode::Auto,
        ops: &[
            Op::CloseConsumer((1, 1), 1),
            Op::Session((1, 2), Mode::Auto),
            Op::Named((1, 1), 2, Kind::Shared, "g", None),
            Op::Named((1, 2), 1, Kind::Shared, "g", None),
            Op::Listener((1, 1), 2, true),
            Op::Listener((1, 2), 1, true),
            Op::Send(2, "a", None),
            Op::Take((1, 1), 2),
            Op::Recover((1, 1)),
            Op::Take((1, 1), 2),
            Op::Take((1, 2), 1),
            Op::Done((1, 1), 2, true),
            Op::Done((1, 2), 1, false),
            Op::Take((1, 1), 2),
            Op::Done((1, 1), 2, true),
            Op::Take((1, 2), 1),
        ],
        told: "ok, ok, ok, ok, ok, ok, sent 1, a#1, ok, IllegalState, a#2, ok, ok, a#3, ok, none, 1 and 0",
    },
    // Nor is it given back with it.
    Row {
        limit: 100_000,
        mode: Mode::Auto,
        ops: &[
            Op::CloseConsumer((1, 1), 1),
            Op::Session((1, 2), Mode::Client),
            Op::Named((1, 1), 2, Kind::Shared, "g", None),
            Op::Named((1, 2), 1, Kind::Shared, "g", None),
            Op::Listener((1, 1), 2, true),
            Op::Send(2, "a", None),
            Op::Take((1, 1), 2),
            Op::Recover((1, 1)),
            Op::Receive((1, 2), 1),
            Op::Done((1, 1), 2, false),
            Op::Take((1, 1), 2),
            Op::Acknowledge((1, 2)),
        ],
        told: "ok, ok, ok, ok, ok, sent 1, a#1, ok, a#2, ok, none, ok, 1 and 0",
    },
    // In a lazy session a message is settled with its listener too.
    Row {
        limit: 100_000,
        mode: Mode::Dups,
        ops: &[
            Op::Send(2, "a", None),
            Op::Listener((1, 1), 1, true),
            Op::Take((1, 1), 1),
            Op::Done((1, 1), 1, true),
            Op::Recover((1, 1)),
            Op::Take((1, 1), 1),
        ],
        told: "sent 1, ok, a#1, ok, ok, none, 1 and 0",
    },
    // Where the client acknowledges, what its listener was done with stays out until then.
    Row {
        limit: 100_000,
        mode: Mode::Client,
        ops: &[
            Op::Send(2, "a", None),
            Op::Listener((1, 1), 1, true),
            Op::Take((1, 1), 1),
            Op::Done((1, 1), 1, false),
            Op::Take((1, 1), 1),
            Op::Recover((1, 1)),
            Op::Take((1, 1), 1),
            Op::Recover((1, 1)),
            Op::Take((1, 1), 1),
            Op::Done((1, 1), 1, true),
            Op::Take((1, 1), 1),
            Op::Acknowledge((1, 1)),
        ],
        told: "sent 1, ok, a#1, ok, none, ok, a#2, ok, IllegalState, ok, a#3, ok, 1 and 0",
    },
    // In a transaction it stays out until the commit or the rollback, which leaves the consumer busy.
    Row {
        limit: 100_000,
        mode: Mode::Transacted,
        ops: &[
            Op::Send(2, "a", None),
            Op::Listener((1, 1), 1, true),
            Op::Take((1, 1), 1),
            Op::Rollback((1, 1)),
            Op::Take((1, 1), 1),
            Op::Done((1, 1), 1, true),
            Op::Take((1, 1), 1),
            Op::Done((1, 1), 1, false),
            Op::Take((1, 1), 1),
            Op::Commit((1, 1)),
        ],
        told: "sent 1, ok, a#1, ok, IllegalState, ok, a#2, ok, none, ok, 1 and 0",
    },
    // On a stopped connection nothing is taken, nothing dropped, and nobody busy; it stops while a consumer is.
    Row {
        limit: 100_000,
        mode: Mode::Auto,
        ops: &[
            Op::SendAt(2, "a", 1000, 10),
            Op::Listener((1, 1), 1, true),
            Op::Stop(1),
            Op::TakeAt((1, 1), 1, 2000),
            Op::Done((1, 1), 1, true),
            Op::Start(1),
            Op::TakeAt((1, 1), 1, 1000),
            Op::Stop(1),
            Op::Listener((1, 1), 1, false),
            Op::Done((1, 1), 1, true),
            Op::Listener((1, 1), 1, false),
            Op::Take((1, 1), 1),
        ],
        told: "sent 1, ok, ok, none, IllegalState, ok, a#1, ok, IllegalState, ok, ok, IllegalState, 1 and 0",
    },
    // A take drops what is expired, and a consumer that found nothing is free.
    Row {
        limit: 1,
        mode: Mode::Auto,
        ops: &[
            Op::SendAt(2, "a", 1000, 10),
            Op::Listener((1, 1), 1, true),
            Op::TakeAt((1, 1), 1, 2000),
            Op::SendAt(2, "b", 2000, 0),
            Op::Listener((1, 1), 1, false),
            Op::ReceiveAt((1, 1), 1, 2000),
        ],
        told: "sent 1, ok, none, sent 2, ok, b#1, 1 and 0",
    },
    // A session closes while a consumer of it is busy, and a connection too.
    Row {
        limit: 100_000,
        mode: Mode::Auto,
        ops: &[
            Op::Session((1, 2), Mode::Auto),
            Op::Consumer((1, 2), 1, None),
            Op::Send(2, "a", None),
            Op::Listener((1, 1), 1, true),
            Op::Listener((1, 2), 1, true),
            Op::Take((1, 1), 1),
            Op::Take((1, 2), 1),
            Op::CloseSession((1, 1)),
            Op::Done((1, 1), 1, true),
            Op::CloseConsumer((1, 1), 1),
            Op::CloseConnection(1),
            Op::Done((1, 2), 1, true),
        ],
        told: "ok, ok, sent 1, ok, ok, a#1, a#1, ok, IllegalState, ok, ok, IllegalState, 0 and 0",
    },
    // A queue's message that a closed session's listener had goes to another.
    Row {
        limit: 100_000,
        mode: Mode::Auto,
        ops: &[
            Op::Session((1, 2), Mode::Auto),
            Op::ConsumerAt((1, 1), 2, At::Queue("q"), Some("x > 0"), false),
            Op::ConsumerAt((1, 2), 1, At::Queue("q"), None, false),
            Op::Listener((1, 1), 2, true),
            Op::Listener((1, 2), 1, true),
            Op::SendTo(2, At::Queue("q"), "a", None),
            Op::SendTo(2, At::Queue("q"), "b", Some(1)),
            Op::Take((1, 1), 2),
            Op::Take((1, 2), 1),
            Op::CloseSession((1, 1)),
            Op::Done((1, 2), 1, false),
            Op::Take((1, 2), 1),
            Op::Done((1, 2), 1, true),
            Op::Take((1, 2), 1),
            Op::Done((1, 2), 1, true),
            Op::Take((1, 2), 1),
        ],
        told: "ok, ok, ok, ok, ok, sent 1, sent 2, b#1, a#1, ok, ok, a#2, ok, b#2, ok, none, 0 and 0",
    },
    // A consumer that does not listen, was never made, or is closed takes nothing, and is never done.
    Row {
        limit: 100_000,
        mode: Mode::Auto,
        ops: &[
            Op::Take((1, 1), 1),
            Op::Done((1, 1), 1, true),
            Op::Listener((1, 1), 2, true),
            Op::Listener((1, 2), 1, true),
            Op::Listener((1, 1), 1, true),
            Op::Missed((1, 1), 1),
            Op::CloseConsumer((1, 1), 1),
            Op::Listener((1, 1), 1, true),
            Op::Take((1, 1), 1),
            Op::Done((1, 1), 1, true),
        ],
        told: "IllegalState, IllegalState, IllegalState, IllegalState, ok, missed 0, ok, IllegalState, IllegalState, IllegalState, 0 and 0",
    },
    // A listener that is taken away leaves the consumer to receive.
    Row {
        limit: 100_000,
        mode: Mode::Auto,
        ops: &[
            Op::Send(2, "a", None),
            Op::Send(2, "b", None),
            Op::Listener((1, 1), 1, true),
            Op::Take((1, 1), 1),
            Op::Done((1, 1), 1, true),
            Op::Listener((1, 1), 1, false),
            Op::Receive((1, 1), 1),
            Op::Receive((1, 1), 1),
        ],
        told: "sent 1, sent 2, ok, a#1, ok, ok, b#1, none, 1 and 0",
    },
];

#[test]
fn listeners_take_and_are_done(rt: HostRuntime) {
    for row in &ROWS {
        is_text(&rt, row.told, told(rt.alloc(), row));
    }
}
