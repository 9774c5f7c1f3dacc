//! What is refused, and as what.

use crate::parts::{
    DUE, HI, HI_AGAIN, HOLDS_HI, HOLDS_HI_AGAIN, HOLDS_LATE, HOLDS_LATE_AGAIN, LAST, LATE,
    LATE_AGAIN, N, Q, QUEUED,
};
use crate::told::holds;
use jm_store::{Left, OpenFault, TableName, Unopened, open};
use sqlite::{Alter, Connection};
use std::alloc::Global;
use std::process::Abort;
use tests_databases::{META, Part, is_shown, made};

/// A database that is refused.
struct Fault {
    what: &'static str,
    /// What makes it.
    parts: &'static [Part],
    fault: OpenFault,
    /// The rows of meta then: what is refused by the load counts as opened.
    last: &'static [&'static str],
}

/// How many rows a subscription that is not durable may hold.
const HELD_LIMIT: u32 = 100_000;

/// What the opening refuses, or what the load does of a store that is carried over.
static OPENINGS: [Fault; 7] = [
    Fault {
        what: "no row in meta",
        parts: &[Part::Current],
        fault: OpenFault::Damaged(TableName::Meta, 0),
        last: &[],
    },
    Fault {
        what: "version 7",
        parts: &[
            Part::Current,
            Part::Sql("INSERT INTO meta VALUES (1, 7, 1)"),
        ],
        fault: OpenFault::WrongVersion(7),
        last: &["1|7|1"],
    },
    Fault {
        what: "the greatest opening",
        parts: &[
            Part::Current,
            Part::Sql("INSERT INTO meta VALUES (1, 2, 4294967295)"),
        ],
        fault: OpenFault::Exhausted,
        last: &["1|2|4294967295"],
    },
    Fault {
        what: "no tables but meta",
        parts: &[Part::Meta, LAST],
        fault: OpenFault::Store,
        last: &["1|2|1"],
    },
    Fault {
        what: "an opening that is refused before a station",
        parts: &[
            Part::Current,
            Part::Sql("INSERT INTO meta VALUES (1, 2, 0)"),
            Part::Sql("INSERT INTO station VALUES (3, 'k', 'n', 0, 't', '', 0)"),
        ],
        fault: OpenFault::Damaged(TableName::Meta, 0),
        last: &["1|2|0"],
    },
    Fault {
        what: "version 1 with a station that is none",
        parts: &[
            Part::Bare,
            Part::Sql("INSERT INTO meta VALUES (1, 1, 1)"),
            Part::Sql("INSERT INTO station VALUES (3, 'k', 'n', 0, 't', '', 0)"),
        ],
        fault: OpenFault::Damaged(TableName::Station, 0),
        last: &["1|2|2"],
    },
    Fault {
        what: "version 1 with a delayed message",
        parts: &[
            Part::Bare,
            Part::Sql("INSERT INTO meta VALUES (1, 1, 1)"),
            N,
            LATE,
            HOLDS_LATE,
        ],
        fault: OpenFault::Damaged(TableName::Message, 0),
        last: &["1|2|2"],
    },
];

/// What is refused for a row of station.
static STATIONS: [Fault; 23] = [
    Fault {
        what: "a family that is none",
        parts: &[
            Part::Current,
            LAST,
            Part::Sql("INSERT INTO station VALUES (3, 'k', 'n', 0, 't', '', 0)"),
        ],
        fault: OpenFault::Damaged(TableName::Station, 0),
        last: &["1|2|2"],
    },
    Fault {
        what: "family 0",
        parts: &[
            Part::Current,
            LAST,
            Part::Sql("INSERT INTO station VALUES (0, '', 'q', 0, '', '', 0)"),
        ],
        fault: OpenFault::Damaged(TableName::Station, 0),
        last: &["1|2|2"],
    },
    Fault {
        what: "a queue without a name",
        parts: &[
            Part::Current,
            LAST,
            Part::Sql("INSERT INTO station VALUES (1, '', '', 0, '', '', 0)"),
        ],
        fault: OpenFault::Damaged(TableName::Station, 0),
        last: &["1|2|2"],
    },
    Fault {
        what: "a queue with a name that is none",
        parts: &[
            Part::Current,
            LAST,
            Part::Sql("INSERT INTO station VALUES (1, '', CAST(x'617f' AS TEXT), 0, '', '', 0)"),
        ],
        fault: OpenFault::Damaged(TableName::Station, 0),
        last: &["1|2|2"],
    },
    Fault {
        what: "a queue of a client",
        parts: &[
            Part::Current,
            LAST,
            Part::Sql("INSERT INTO station VALUES (1, 'k', 'q', 0, '', '', 0)"),
        ],
        fault: OpenFault::Damaged(TableName::Station, 0),
        last: &["1|2|2"],
    },
    Fault {
        what: "a shared queue",
        parts: &[
            Part::Current,
            LAST,
            Part::Sql("INSERT INTO station VALUES (1, '', 'q', 1, '', '', 0)"),
        ],
        fault: OpenFault::Damaged(TableName::Station, 0),
        last: &["1|2|2"],
    },
    Fault {
        what: "a queue of a topic",
        parts: &[
            Part::Current,
            LAST,
            Part::Sql("INSERT INTO station VALUES (1, '', 'q', 0, 't', '', 0)"),
        ],
        fault: OpenFault::Damaged(TableName::Station, 0),
        last: &["1|2|2"],
    },
    Fault {
        what: "a queue with a selector",
        parts: &[
            Part::Current,
            LAST,
            Part::Sql("INSERT INTO station VALUES (1, '', 'q', 0, '', 'x = 1', 0)"),
        ],
        fault: OpenFault::Damaged(TableName::Station, 0),
        last: &["1|2|2"],
    },
    Fault {
        what: "a queue of others' messages",
        parts: &[
            Part::Current,
            LAST,
            Part::Sql("INSERT INTO station VALUES (1, '', 'q', 0, '', '', 1)"),
        ],
        fault: OpenFault::Damaged(TableName::Station, 0),
        last: &["1|2|2"],
    },
    Fault {
        what: "a subscription that is shared twice",
        parts: &[
            Part::Current,
            LAST,
            Part::Sql("INSERT INTO station VALUES (2, 'k', 'n', 2, 't', '', 0)"),
        ],
        fault: OpenFault::Damaged(TableName::Station, 0),
        last: &["1|2|2"],
    },
    Fault {
        what: "a subscription that is shared less than not",
        parts: &[
            Part::Current,
            LAST,
            Part::Sql("INSERT INTO station VALUES (2, 'k', 'n', -1, 't', '', 0)"),
        ],
        fault: OpenFault::Damaged(TableName::Station, 0),
        last: &["1|2|2"],
    },
    Fault {
        what: "a mark of others' messages that is none",
        parts: &[
            Part::Current,
            LAST,
            Part::Sql("INSERT INTO station VALUES (2, 'k', 'n', 0, 't', '', 2)"),
        ],
        fault: OpenFault::Damaged(TableName::Station, 0),
        last: &["1|2|2"],
    },
    Fault {
        what: "a subscription without a name",
        parts: &[
            Part::Current,
            LAST,
            Part::Sql("INSERT INTO station VALUES (2, 'k', '', 0, 't', '', 0)"),
        ],
        fault: OpenFault::Damaged(TableName::Station, 0),
        last: &["1|2|2"],
    },
    Fault {
        what: "a subscription without a topic",
        parts: &[
            Part::Current,
            LAST,
            Part::Sql("INSERT INTO station VALUES (2, 'k', 'n', 0, '', '', 0)"),
        ],
        fault: OpenFault::Damaged(TableName::Station, 0),
        last: &["1|2|2"],
    },
    Fault {
        what: "a topic that is none",
        parts: &[
            Part::Current,
            LAST,
            Part::Sql("INSERT INTO station VALUES (2, 'k', 'n', 0, CAST(x'7f' AS TEXT), '', 0)"),
        ],
        fault: OpenFault::Damaged(TableName::Station, 0),
        last: &["1|2|2"],
    },
    Fault {
        what: "a client that is none",
        parts: &[
            Part::Current,
            LAST,
            Part::Sql("INSERT INTO station VALUES (2, CAST(x'1f' AS TEXT), 'n', 0, 't', '', 0)"),
        ],
        fault: OpenFault::Damaged(TableName::Station, 0),
        last: &["1|2|2"],
    },
    Fault {
        what: "a name that is no text",
        parts: &[
            Part::Current,
            LAST,
            Part::Sql("INSERT INTO station VALUES (2, 'k', CAST(x'ff' AS TEXT), 0, 't', '', 0)"),
        ],
        fault: OpenFault::Damaged(TableName::Station, 0),
        last: &["1|2|2"],
    },
    Fault {
        what: "a selector that is refused",
        parts: &[
            Part::Current,
            LAST,
            Part::Sql("INSERT INTO station VALUES (2, 'k', 'n', 0, 't', 'x = ', 0)"),
        ],
        fault: OpenFault::Damaged(TableName::Station, 0),
        last: &["1|2|2"],
    },
    Fault {
        what: "an unshared subscription without a client",
        parts: &[
            Part::Current,
            LAST,
            Part::Sql("INSERT INTO station VALUES (2, '', 'n', 0, 't', '', 0)"),
        ],
        fault: OpenFault::Damaged(TableName::Station, 0),
        last: &["1|2|2"],
    },
    Fault {
        what: "a shared subscription of others' messages",
        parts: &[
            Part::Current,
            LAST,
            Part::Sql("INSERT INTO station VALUES (2, 'k', 'n', 1, 't', '', 1)"),
        ],
        fault: OpenFault::Damaged(TableName::Station, 0),
        last: &["1|2|2"],
    },
    Fault {
        what: "the second by its key",
        parts: &[
            Part::Current,
            LAST,
            N,
            Part::Sql("INSERT INTO station VALUES (2, 'k', 'o', 0, 't', 'x = ', 0)"),
        ],
        fault: OpenFault::Damaged(TableName::Station, 1),
        last: &["1|2|2"],
    },
    Fault {
        what: "the third by its key",
        parts: &[
            Part::Current,
            LAST,
            N,
            Part::Sql("INSERT INTO station VALUES (2, 'k', 'o', 0, 't', 'x = ', 0)"),
            Q,
        ],
        fault: OpenFault::Damaged(TableName::Station, 2),
        last: &["1|2|2"],
    },
    Fault {
        what: "before a message",
        parts: &[
            Part::Current,
            LAST,
            Part::Sql("INSERT INTO station VALUES (3, 'k', 'n', 0, 't', '', 0)"),
            Part::Sql("INSERT INTO message VALUES (0, x'')"),
        ],
        fault: OpenFault::Damaged(TableName::Station, 0),
        last: &["1|2|2"],
    },
];

/// What is refused for a row of message, which is none of a store's, or which nothing holds, or makes due, at last.
static MESSAGES: [Fault; 14] = [
    Fault {
        what: "place 0",
        parts: &[
            Part::Current,
            LAST,
            N,
            Part::Sql(
                "INSERT INTO message VALUES (0, x'01000000010000000100000001000000000000000100000000000003e80000000000000000010401000000000000000174000001000000000000000268690000000000000001000000000000000178050000000000000001')",
            ),
            Part::Sql("INSERT INTO held VALUES (2, 'k', 'n', 0, 0)"),
        ],
        fault: OpenFault::Damaged(TableName::Message, 0),
        last: &["1|2|2"],
    },
    Fault {
        what: "a negative place",
        parts: &[
            Part::Current,
            LAST,
            N,
            Part::Sql(
                "INSERT INTO message VALUES (-1, x'01000000010000000100000001000000000000000100000000000003e80000000000000000010401000000000000000174000001000000000000000268690000000000000001000000000000000178050000000000000001')",
            ),
            Part::Sql("INSERT INTO held VALUES (2, 'k', 'n', -1, 0)"),
        ],
        fault: OpenFault::Damaged(TableName::Message, 0),
        last: &["1|2|2"],
    },
    Fault {
        what: "an empty record",
        parts: &[
            Part::Current,
            LAST,
            N,
            Part::Sql("INSERT INTO message VALUES (1, x'')"),
            HOLDS_HI,
        ],
        fault: OpenFault::Damaged(TableName::Message, 0),
        last: &["1|2|2"],
    },
    Fault {
        what: "a record with a byte more",
        parts: &[
            Part::Current,
            LAST,
            N,
            Part::Sql(
                "INSERT INTO message VALUES (1, x'01000000010000000100000001000000000000000100000000000003e8000000000000000001040100000000000000017400000100000000000000026869000000000000000100000000000000017805000000000000000100')",
            ),
            HOLDS_HI,
        ],
        fault: OpenFault::Damaged(TableName::Message, 0),
        last: &["1|2|2"],
    },
    Fault {
        what: "a record with a byte less",
        parts: &[
            Part::Current,
            LAST,
            N,
            Part::Sql(
                "INSERT INTO message VALUES (1, x'01000000010000000100000001000000000000000100000000000003e800000000000000000104010000000000000001740000010000000000000002686900000000000000010000000000000001780500000000000000')",
            ),
            HOLDS_HI,
        ],
        fault: OpenFault::Damaged(TableName::Message, 0),
        last: &["1|2|2"],
    },
    Fault {
        what: "a record of version 3",
        parts: &[
            Part::Current,
            LAST,
            N,
            Part::Sql(
                "INSERT INTO message VALUES (1, x'03000000010000000100000001000000000000000100000000000003e80000000000000000010401000000000000000174000001000000000000000268690000000000000001000000000000000178050000000000000001')",
            ),
            HOLDS_HI,
        ],
        fault: OpenFault::Damaged(TableName::Message, 0),
        last: &["1|2|2"],
    },
    Fault {
        what: "a message that is not persistent",
        parts: &[
            Part::Current,
            LAST,
            N,
            Part::Sql(
                "INSERT INTO message VALUES (1, x'01000000010000000100000001000000000000000100000000000003e80000000000000000000401000000000000000174000001000000000000000268690000000000000000')",
            ),
            HOLDS_HI,
        ],
        fault: OpenFault::Damaged(TableName::Message, 0),
        last: &["1|2|2"],
    },
    Fault {
        what: "the second by its place",
        parts: &[
            Part::Current,
            LAST,
            N,
            HI,
            HOLDS_HI,
            Part::Sql("INSERT INTO message VALUES (2, x'01')"),
            HOLDS_HI_AGAIN,
        ],
        fault: OpenFault::Damaged(TableName::Message, 1),
        last: &["1|2|2"],
    },
    Fault {
        what: "a message that nobody holds",
        parts: &[Part::Current, LAST, HI],
        fault: OpenFault::Damaged(TableName::Message, 0),
        last: &["1|2|2"],
    },
    Fault {
        what: "the second, which nobody holds",
        parts: &[Part::Current, LAST, N, HI, HOLDS_HI, HI_AGAIN],
        fault: OpenFault::Damaged(TableName::Message, 1),
        last: &["1|2|2"],
    },
    Fault {
        what: "the first of two that nobody holds",
        parts: &[Part::Current, LAST, HI, HI_AGAIN],
        fault: OpenFault::Damaged(TableName::Message, 0),
        last: &["1|2|2"],
    },
    Fault {
        what: "a delayed message that becomes due at no moment",
        parts: &[Part::Current, LAST, N, LATE, HOLDS_LATE],
        fault: OpenFault::Damaged(TableName::Message, 0),
        last: &["1|2|2"],
    },
    Fault {
        what: "the third, which becomes due at no moment",
        parts: &[
            Part::Current,
            LAST,
            N,
            HI,
            HOLDS_HI,
            LATE,
            HOLDS_LATE,
            DUE,
            LATE_AGAIN,
            HOLDS_LATE_AGAIN,
        ],
        fault: OpenFault::Damaged(TableName::Message, 2),
        last: &["1|2|2"],
    },
    Fault {
        what: "before what is held",
        parts: &[
            Part::Current,
            LAST,
            N,
            HI,
            Part::Sql("INSERT INTO held VALUES (2, 'k', 'n', 1, 2147483648)"),
            Part::Sql("INSERT INTO message VALUES (2, x'')"),
        ],
        fault: OpenFault::Damaged(TableName::Message, 1),
        last: &["1|2|2"],
    },
];

/// What is refused for a row of held.
static HELD: [Fault; 11] = [
    Fault {
        what: "a count past the greatest",
        parts: &[
            Part::Current,
            LAST,
            N,
            HI,
            Part::Sql("INSERT INTO held VALUES (2, 'k', 'n', 1, 2147483648)"),
        ],
        fault: OpenFault::Damaged(TableName::Held, 0),
        last: &["1|2|2"],
    },
    Fault {
        what: "a selector that is FALSE",
        parts: &[
            Part::Current,
            LAST,
            Part::Sql("INSERT INTO station VALUES (2, 'k', 'n', 0, 't', 'x = 2', 0)"),
            HI,
            HOLDS_HI,
        ],
        fault: OpenFault::Damaged(TableName::Held, 0),
        last: &["1|2|2"],
    },
    Fault {
        what: "a selector that is UNKNOWN",
        parts: &[
            Part::Current,
            LAST,
            Part::Sql("INSERT INTO station VALUES (2, 'k', 'n', 0, 't', 'y = 1', 0)"),
            HI,
            HOLDS_HI,
        ],
        fault: OpenFault::Damaged(TableName::Held, 0),
        last: &["1|2|2"],
    },
    Fault {
        what: "a message of another topic",
        parts: &[
            Part::Current,
            LAST,
            Part::Sql("INSERT INTO station VALUES (2, 'k', 'n', 0, 'u', '', 0)"),
            HI,
            HOLDS_HI,
        ],
        fault: OpenFault::Damaged(TableName::Held, 0),
        last: &["1|2|2"],
    },
    Fault {
        what: "a queue's message under a subscription",
        parts: &[
            Part::Current,
            LAST,
            Part::Sql("INSERT INTO station VALUES (2, 'k', 'n', 0, 'q', '', 0)"),
            QUEUED,
            Part::Sql("INSERT INTO held VALUES (2, 'k', 'n', 3, 0)"),
        ],
        fault: OpenFault::Damaged(TableName::Held, 0),
        last: &["1|2|2"],
    },
    Fault {
        what: "a message of another queue",
        parts: &[
            Part::Current,
            LAST,
            Part::Sql("INSERT INTO station VALUES (1, '', 'p', 0, '', '', 0)"),
            QUEUED,
            Part::Sql("INSERT INTO held VALUES (1, '', 'p', 3, 0)"),
        ],
        fault: OpenFault::Damaged(TableName::Held, 0),
        last: &["1|2|2"],
    },
    Fault {
        what: "a topic's message in a queue",
        parts: &[
            Part::Current,
            LAST,
            Part::Sql("INSERT INTO station VALUES (1, '', 't', 0, '', '', 0)"),
            HI,
            Part::Sql("INSERT INTO held VALUES (1, '', 't', 1, 0)"),
        ],
        fault: OpenFault::Damaged(TableName::Held, 0),
        last: &["1|2|2"],
    },
    Fault {
        what: "the second by its key",
        parts: &[
            Part::Current,
            LAST,
            N,
            Q,
            HI,
            Part::Sql("INSERT INTO held VALUES (2, 'k', 'n', 1, 2147483648)"),
            QUEUED,
            Part::Sql("INSERT INTO held VALUES (1, '', 'q', 3, 0)"),
        ],
        fault: OpenFault::Damaged(TableName::Held, 1),
        last: &["1|2|2"],
    },
    Fault {
        what: "the second by its place",
        parts: &[
            Part::Current,
            LAST,
            N,
            HI,
            HOLDS_HI,
            HI_AGAIN,
            Part::Sql("INSERT INTO held VALUES (2, 'k', 'n', 2, 2147483648)"),
        ],
        fault: OpenFault::Damaged(TableName::Held, 1),
        last: &["1|2|2"],
    },
    Fault {
        what: "before a delay",
        parts: &[
            Part::Current,
            LAST,
            N,
            HI,
            Part::Sql("INSERT INTO held VALUES (2, 'k', 'n', 1, 2147483648)"),
            Part::Sql("INSERT INTO delayed VALUES (1, 1500)"),
        ],
        fault: OpenFault::Damaged(TableName::Held, 0),
        last: &["1|2|2"],
    },
    Fault {
        what: "before a message that nobody holds",
        parts: &[
            Part::Current,
            LAST,
            N,
            HI,
            HI_AGAIN,
            Part::Sql("INSERT INTO held VALUES (2, 'k', 'n', 2, 2147483648)"),
        ],
        fault: OpenFault::Damaged(TableName::Held, 0),
        last: &["1|2|2"],
    },
];

/// What is refused for a row of delayed.
static DELAYS: [Fault; 4] = [
    Fault {
        what: "a message without a delay",
        parts: &[
            Part::Current,
            LAST,
            N,
            HI,
            HOLDS_HI,
            Part::Sql("INSERT INTO delayed VALUES (1, 1500)"),
        ],
        fault: OpenFault::Damaged(TableName::Delayed, 0),
        last: &["1|2|2"],
    },
    Fault {
        what: "another moment",
        parts: &[
            Part::Current,
            LAST,
            N,
            LATE,
            HOLDS_LATE,
            Part::Sql("INSERT INTO delayed VALUES (5, 1501)"),
        ],
        fault: OpenFault::Damaged(TableName::Delayed, 0),
        last: &["1|2|2"],
    },
    Fault {
        what: "the second by its place",
        parts: &[
            Part::Current,
            LAST,
            N,
            LATE,
            HOLDS_LATE,
            DUE,
            LATE_AGAIN,
            HOLDS_LATE_AGAIN,
            Part::Sql("INSERT INTO delayed VALUES (6, 1499)"),
        ],
        fault: OpenFault::Damaged(TableName::Delayed, 1),
        last: &["1|2|2"],
    },
    Fault {
        what: "before a message that nobody holds",
        parts: &[
            Part::Current,
            LAST,
            N,
            HI,
            LATE,
            HOLDS_LATE,
            Part::Sql("INSERT INTO delayed VALUES (5, 1501)"),
        ],
        fault: OpenFault::Damaged(TableName::Delayed, 0),
        last: &["1|2|2"],
    },
];

/// Whether the connection that is left shows those rows of meta.
fn is_left<S: Alter + Drop>(left: Left<S>, last: &[&str]) -> bool {
    match left {
        Left::Settled(mut conn) => is_shown(&mut conn, META, last),
        Left::Shut(_) => false,
    }
}

/// Whether the store of the connection is refused as it should be.
fn is_refused<S: Alter + Drop>(alloc: Global, conn: Connection<S>, row: &Fault) -> bool {
    match open(alloc, conn, HELD_LIMIT) {
        Ok(_) => false,
        Err(unopened) => {
            let Unopened { fault, left } = unopened;
            fault == row.fault && is_left(left, row.last)
        }
    }
}

fn passes(alloc: Global, row: &Fault) -> bool {
    match made(alloc, row.parts) {
        Some(conn) => is_refused(alloc, conn, row),
        None => false,
    }
}

/// Asserts that each row is refused as it should be.
fn are_refused(rt: &(impl Abort + AllocGlobal), rows: &[Fault]) {
    for row in rows {
        let passes = passes(rt.alloc(), row);
        holds(rt, row.what, passes);
    }
}

#[test]
fn databases_whose_opening_is_refused(rt: HostRuntime) {
    are_refused(&rt, &OPENINGS);
}

#[test]
fn databases_with_a_station_that_is_none(rt: HostRuntime) {
    are_refused(&rt, &STATIONS);
}

#[test]
fn databases_with_a_message_that_is_none(rt: HostRuntime) {
    are_refused(&rt, &MESSAGES);
}

#[test]
fn databases_that_hold_what_may_not_be_held(rt: HostRuntime) {
    are_refused(&rt, &HELD);
}

#[test]
fn databases_with_a_delay_that_is_none(rt: HostRuntime) {
    are_refused(&rt, &DELAYS);
}
