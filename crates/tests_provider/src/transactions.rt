//! Local transactions: what each call of a run answers, and how many subscriptions and messages are left.

use crate::acknowledgement::{Row, told};
use crate::told::is_text;
use jm_base::Mode;
use tests_calls::Op;

/// What is sent comes with the commit, which settles what was received; a rollback lets come again what was received since.
const COMMITTED: [Op; 12] = [
    Op::Send(2, "a", None),
    Op::Receive((1, 1), 1),
    Op::Send(1, "b", None),
    Op::Receive((1, 1), 1),
    Op::Commit((1, 1)),
    Op::Receive((1, 1), 1),
    Op::Rollback((1, 1)),
    Op::Receive((1, 1), 1),
    Op::Commit((1, 1)),
    Op::Rollback((1, 1)),
    Op::Receive((1, 1), 1),
    Op::Acknowledge((1, 1)),
];

/// What was sent before a rollback never comes, and its numbers are used.
const ROLLED_BACK: [Op; 7] = [
    Op::Send(2, "a", None),
    Op::Receive((1, 1), 1),
    Op::Send(1, "b", None),
    Op::Rollback((1, 1)),
    Op::Send(1, "c", None),
    Op::Commit((1, 1)),
    Op::Receive((1, 1), 1),
];

/// A commit settles before it publishes, and is accepted past the limit.
const PAST_THE_LIMIT: [Op; 10] = [
    Op::Send(2, "a", None),
    Op::Send(2, "b", None),
    Op::Receive((1, 1), 1),
    Op::Send(1, "c", None),
    Op::Send(1, "d", None),
    Op::Commit((1, 1)),
    Op::Missed((1, 1), 1),
    Op::Receive((1, 1), 1),
    Op::Receive((1, 1), 1),
    Op::Receive((1, 1), 1),
];

/// A session that closes in its transaction, and one whose connection closes, never commit.
const CLOSED: [Op; 9] = [
    Op::Open(3),
    Op::Session((3, 1), Mode::Transacted),
    Op::Send(3, "a", None),
    Op::CloseConnection(3),
    Op::Commit((3, 1)),
    Op::Send(1, "b", None),
    Op::CloseSession((1, 1)),
    Op::Commit((1, 1)),
    Op::Send(1, "c", None),
];

/// A transacted session does not recover, and one in another mode neither commits nor rolls back.
const REFUSED: [Op; 4] = [
    Op::Recover((1, 1)),
    Op::Commit((2, 1)),
    Op::Rollback((2, 1)),
    Op::Commit((2, 2)),
];

const ROWS: [Row; 5] = [
    Row {
        limit: 100_000,
        mode: Mode::Transacted,
        ops: &COMMITTED,
        told: "sent 1, a#1, sent 1, none, ok, b#1, ok, b#2, ok, ok, none, ok, 1 and 0",
    },
    Row {
        limit: 100_000,
        mode: Mode::Transacted,
        ops: &ROLLED_BACK,
        told: "sent 1, a#1, sent 1, ok, sent 2, ok, a#2, 1 and 2",
    },
    Row {
        limit: 2,
        mode: Mode::Transacted,
        ops: &PAST_THE_LIMIT,
        told: "sent 1, sent 2, a#1, sent 1, sent 2, ok, missed 1, b#1, c#1, none, 1 and 2",
    },
    Row {
        limit: 100_000,
        mode: Mode::Transacted,
        ops: &CLOSED,
        told: "ok, ok, sent 1, ok, IllegalState, sent 1, ok, IllegalState, IllegalState, 0 and 0",
    },
    Row {
        limit: 100_000,
        mode: Mode::Transacted,
        ops: &REFUSED,
        told: "IllegalState, IllegalState, IllegalState, IllegalState, 1 and 0",
    },
];

#[test]
fn transactions_come_whole_or_not_at_all(rt: HostRuntime) {
    for row in &ROWS {
        is_text(&rt, row.told, told(rt.alloc(), row));
    }
}
