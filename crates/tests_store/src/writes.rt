//! What rows stand after a list of changes, and after the store was opened again.

ghost use Rattle.std.specs.Prelude.{◌≡◌, false, IfSome};

use crate::told::holds;
use jm_keep::{RowChange, StoreFault};
use jm_opening::open;
use jm_writes::write;
use sqlite::{Alter, Connection, Error, ErrorCode, MemStore};
use std::alloc::Global;
use tests_databases::{
    Asks, Change, DELAYED, HELD, MESSAGE, META, Of, Part, STATION, changes, is_shown, made,
};

/// What stands before: a queue and two durable subscriptions of one name, one of them of no client, and two messages, of which
/// one is delayed.
static BEFORE: [Part; 2] = [
    Part::Current,
    Part::Sql(
        "INSERT INTO meta VALUES (1, 2, 4); INSERT INTO station VALUES (1, '', 'q', 0, '', '', 0), (2, '', 'n', 1, 't', '', 0), (2, 'k', 'n', 0, 't', 'x > 1', 1); INSERT INTO message VALUES (5, x'05'), (8, x'0808'); INSERT INTO delayed VALUES (8, 1500); INSERT INTO held VALUES (1, '', 'q', 5, 2), (2, '', 'n', 5, 0), (2, 'k', 'n', 8, 7)",
    ),
];

/// What stands in a table then.
#[derive(Clone, Copy)]
enum Table {
    Station(&'static [&'static str]),
    Message(&'static [&'static str]),
    Held(&'static [&'static str]),
    Delayed(&'static [&'static str]),
}

/// A list of changes, what is told of it, and the tables in which something else stands then.
struct Write {
    what: &'static str,
    changes: &'static [Change],
    fault: Option<StoreFault>,
    tables: &'static [Table],
}

const N: Of = Of::Durable(None, "n");

const KN: Of = Of::Durable(Some("k"), "n");

const NEW: Of = Of::Durable(Some("k"), "m");

const Q: Of = Of::Queue("q");

/// What the first row of each table is.
const STATIONS: [&str; 3] = ["1||q|0|||0", "2||n|1|t||0", "2|k|n|0|t|x > 1|1"];

const MESSAGES: [&str; 2] = ["5|05", "8|0808"];

const ROWS: [&str; 3] = ["1||q|5|2", "2||n|5|0", "2|k|n|8|7"];

const DELAYS: [&str; 1] = ["8|1500"];

static WRITTEN: [Write; 22] = [
    Write {
        what: "nothing",
        changes: &[],
        fault: None,
        tables: &[],
    },
    Write {
        what: "a subscription that asks for little",
        changes: &[Change::PutStation(NEW, Some(Asks("t", None, false, false)))],
        fault: None,
        tables: &[Table::Station(&[
            "1||q|0|||0",
            "2||n|1|t||0",
            "2|k|m|0|t||0",
            "2|k|n|0|t|x > 1|1",
        ])],
    },
    Write {
        what: "a subscription that asks for much",
        changes: &[Change::PutStation(
            Of::Durable(Some("a"), "n"),
            Some(Asks("u", Some("s = 'it''s'"), true, false)),
        )],
        fault: None,
        tables: &[Table::Station(&[
            "1||q|0|||0",
            "2||n|1|t||0",
            "2|a|n|0|u|s = 'it''s'|1",
            "2|k|n|0|t|x > 1|1",
        ])],
    },
    Write {
        what: "a shared subscription of no client",
        changes: &[Change::PutStation(Of::Durable(None, "m"), Some(Asks("t", None, false, true)))],
        fault: None,
        tables: &[Table::Station(&[
            "1||q|0|||0",
            "2||m|1|t||0",
            "2||n|1|t||0",
            "2|k|n|0|t|x > 1|1",
        ])],
    },
    Write {
        what: "a queue",
        changes: &[Change::PutStation(Of::Queue("n"), None)],
        fault: None,
        tables: &[Table::Station(&[
            "1||n|0|||0",
            "1||q|0|||0",
            "2||n|1|t||0",
            "2|k|n|0|t|x > 1|1",
        ])],
    },
    Write {
        what: "a queue that stands",
        changes: &[Change::PutStation(Q, None), Change::PutStation(Q, None)],
        fault: None,
        tables: &[],
    },
    Write {
        what: "a message with its rows",
        changes: &[
            Change::PutMessage(9, &[0, 255]),
            Change::PutHeld(KN, 9),
            Change::PutHeld(N, 9),
        ],
        fault: None,
        tables: &[
            Table::Message(&["5|05", "8|0808", "9|00ff"]),
            Table::Held(&["1||q|5|2", "2||n|5|0", "2||n|9|0", "2|k|n|8|7", "2|k|n|9|0"]),
        ],
    },
    Write {
        what: "a message at the greatest place",
        changes: &[
            Change::PutMessage(9_223_372_036_854_775_807, &[]),
            Change::PutHeld(Q, 9_223_372_036_854_775_807),
        ],
        fault: None,
        tables: &[
            Table::Message(&["5|05", "8|0808", "9223372036854775807|"]),
            Table::Held(&[
                "1||q|5|2",
                "1||q|9223372036854775807|0",
                "2||n|5|0",
                "2|k|n|8|7",
            ]),
        ],
    },
    Write {
        what: "a delayed message",
        changes: &[
            Change::PutMessage(9, &[9]),
            Change::PutDelay(9, 9_223_372_036_854_775_807),
            Change::PutHeld(Q, 9),
        ],
        fault: None,
        tables: &[
            Table::Message(&["5|05", "8|0808", "9|09"]),
            Table::Delayed(&["8|1500", "9|9223372036854775807"]),
            Table::Held(&["1||q|5|2", "1||q|9|0", "2||n|5|0", "2|k|n|8|7"]),
        ],
    },
    Write {
        what: "a count",
        changes: &[Change::SetCount(Q, 5, 3)],
        fault: None,
        tables: &[Table::Held(&["1||q|5|3", "2||n|5|0", "2|k|n|8|7"])],
    },
    Write {
        what: "a count, twice",
        changes: &[
            Change::SetCount(N, 5, 1),
            Change::SetCount(N, 5, 2_147_483_647),
        ],
        fault: None,
        tables: &[Table::Held(&["1||q|5|2", "2||n|5|2147483647", "2|k|n|8|7"])],
    },
    Write {
        what: "a count of no row",
        changes: &[Change::SetCount(KN, 5, 1), Change::SetCount(NEW, 8, 1)],
        fault: None,
        tables: &[],
    },
    Write {
        what: "a row goes",
        changes: &[Change::DropHeld(Q, 5)],
        fault: None,
        tables: &[Table::Held(&["2||n|5|0", "2|k|n|8|7"])],
    },
    Write {
        what: "an empty client and none are one",
        changes: &[Change::DropHeld(N, 5)],
        fault: None,
        tables: &[Table::Held(&["1||q|5|2", "2|k|n|8|7"])],
    },
    Write {
        what: "what is not there goes",
        changes: &[
            Change::DropHeld(KN, 5),
            Change::DropHeld(Q, 8),
            Change::DropMessage(6),
            Change::DropDelay(5),
            Change::DropStation(NEW),
        ],
        fault: None,
        tables: &[],
    },
    Write {
        what: "a message goes with its last row",
        changes: &[
            Change::DropHeld(KN, 8),
            Change::DropDelay(8),
            Change::DropMessage(8),
        ],
        fault: None,
        tables: &[
            Table::Held(&["1||q|5|2", "2||n|5|0"]),
            Table::Delayed(&[]),
            Table::Message(&["5|05"]),
        ],
    },
    Write {
        what: "a subscription goes with all that it holds",
        changes: &[
            Change::DropHeld(KN, 8),
            Change::DropDelay(8),
            Change::DropMessage(8),
            Change::DropStation(KN),
        ],
        fault: None,
        tables: &[
            Table::Held(&["1||q|5|2", "2||n|5|0"]),
            Table::Delayed(&[]),
            Table::Message(&["5|05"]),
            Table::Station(&["1||q|0|||0", "2||n|1|t||0"]),
        ],
    },
    Write {
        what: "another definition",
        changes: &[
            Change::DropHeld(KN, 8),
            Change::DropDelay(8),
            Change::DropMessage(8),
            Change::DropStation(KN),
            Change::PutStation(KN, Some(Asks("u", None, false, false))),
        ],
        fault: None,
        tables: &[
            Table::Held(&["1||q|5|2", "2||n|5|0"]),
            Table::Delayed(&[]),
            Table::Message(&["5|05"]),
            Table::Station(&["1||q|0|||0", "2||n|1|t||0", "2|k|n|0|u||0"]),
        ],
    },
    Write {
        what: "a row comes again at its place",
        changes: &[Change::DropHeld(Q, 5), Change::PutHeld(Q, 5)],
        fault: None,
        tables: &[Table::Held(&["1||q|5|0", "2||n|5|0", "2|k|n|8|7"])],
    },
    Write {
        what: "a message comes and goes",
        changes: &[
            Change::PutMessage(9, &[9]),
            Change::PutDelay(9, 1),
            Change::PutHeld(Q, 9),
            Change::DropHeld(Q, 9),
            Change::DropDelay(9),
            Change::DropMessage(9),
        ],
        fault: None,
        tables: &[],
    },
    Write {
        what: "names of several bytes and of quotes",
        changes: &[Change::PutStation(Of::Queue("\u{e9}' OR 1"), None)],
        fault: None,
        tables: &[Table::Station(&[
            "1||q|0|||0",
            "1||\u{e9}' OR 1|0|||0",
            "2||n|1|t||0",
            "2|k|n|0|t|x > 1|1",
        ])],
    },
    Write {
        what: "all of it goes",
        changes: &[
            Change::DropHeld(Q, 5),
            Change::DropHeld(N, 5),
            Change::DropHeld(KN, 8),
            Change::DropMessage(5),
            Change::DropDelay(8),
            Change::DropMessage(8),
            Change::DropStation(N),
            Change::DropStation(KN),
        ],
        fault: None,
        tables: &[
            Table::Held(&[]),
            Table::Message(&[]),
            Table::Delayed(&[]),
            Table::Station(&["1||q|0|||0"]),
        ],
    },
];

/// What is refused, each after a change that is undone with it.
static REFUSED: [Write; 25] = [
    Write {
        what: "a subscription that stands",
        changes: &[
            Change::SetCount(Q, 5, 3),
            Change::PutStation(KN, Some(Asks("u", None, false, false))),
        ],
        fault: Some(StoreFault::Device),
        tables: &[],
    },
    Write {
        what: "a queue that asks for something",
        changes: &[
            Change::SetCount(Q, 5, 3),
            Change::PutStation(Of::Queue("p"), Some(Asks("t", None, false, true))),
        ],
        fault: Some(StoreFault::Device),
        tables: &[],
    },
    Write {
        what: "a subscription that asks for nothing",
        changes: &[Change::SetCount(Q, 5, 3), Change::PutStation(NEW, None)],
        fault: Some(StoreFault::Device),
        tables: &[],
    },
    Write {
        what: "a shared subscription that is not durable",
        changes: &[
            Change::SetCount(Q, 5, 3),
            Change::PutStation(Of::Shared("g"), Some(Asks("t", None, false, true))),
        ],
        fault: Some(StoreFault::Device),
        tables: &[],
    },
    Write {
        what: "a consumer's own subscription",
        changes: &[
            Change::SetCount(Q, 5, 3),
            Change::PutStation(Of::Own, Some(Asks("t", None, false, false))),
        ],
        fault: Some(StoreFault::Device),
        tables: &[],
    },
    Write {
        what: "a row of a shared subscription that is not durable",
        changes: &[
            Change::SetCount(Q, 5, 3),
            Change::PutHeld(Of::Shared("n"), 5),
        ],
        fault: Some(StoreFault::Device),
        tables: &[],
    },
    Write {
        what: "a row of a consumer's own subscription",
        changes: &[Change::SetCount(Q, 5, 3), Change::DropHeld(Of::Own, 5)],
        fault: Some(StoreFault::Device),
        tables: &[],
    },
    Write {
        what: "a count of a consumer's own subscription",
        changes: &[Change::SetCount(Q, 5, 3), Change::SetCount(Of::Own, 5, 1)],
        fault: Some(StoreFault::Device),
        tables: &[],
    },
    Write {
        what: "the end of a shared subscription that is not durable",
        changes: &[
            Change::SetCount(Q, 5, 3),
            Change::DropStation(Of::Shared("n")),
        ],
        fault: Some(StoreFault::Device),
        tables: &[],
    },
    Write {
        what: "a message at a place that is taken",
        changes: &[Change::SetCount(Q, 5, 3), Change::PutMessage(5, &[5])],
        fault: Some(StoreFault::Device),
        tables: &[],
    },
    Write {
        what: "a row that stands",
        changes: &[Change::SetCount(Q, 5, 3), Change::PutHeld(N, 5)],
        fault: Some(StoreFault::Device),
        tables: &[],
    },
    Write {
        what: "a row without a message",
        changes: &[Change::SetCount(Q, 5, 3), Change::PutHeld(Q, 6)],
        fault: Some(StoreFault::Device),
        tables: &[],
    },
    Write {
        what: "a row without a subscription",
        changes: &[Change::SetCount(Q, 5, 3), Change::PutHeld(NEW, 5)],
        fault: Some(StoreFault::Device),
        tables: &[],
    },
    Write {
        what: "a delivery time without a message",
        changes: &[Change::SetCount(Q, 5, 3), Change::PutDelay(6, 1)],
        fault: Some(StoreFault::Device),
        tables: &[],
    },
    Write {
        what: "a second delivery time",
        changes: &[Change::SetCount(Q, 5, 3), Change::PutDelay(8, 1500)],
        fault: Some(StoreFault::Device),
        tables: &[],
    },
    Write {
        what: "an unshared subscription of no client",
        changes: &[
            Change::SetCount(Q, 5, 3),
            Change::PutStation(Of::Durable(None, "m"), Some(Asks("t", None, false, false))),
        ],
        fault: Some(StoreFault::Device),
        tables: &[],
    },
    Write {
        what: "a shared subscription with noLocal",
        changes: &[
            Change::SetCount(Q, 5, 3),
            Change::PutStation(NEW, Some(Asks("t", None, true, true))),
        ],
        fault: Some(StoreFault::Device),
        tables: &[],
    },
    Write {
        what: "a count past the greatest",
        changes: &[
            Change::SetCount(Q, 5, 3),
            Change::SetCount(Q, 5, 2_147_483_648),
        ],
        fault: Some(StoreFault::Device),
        tables: &[],
    },
    Write {
        what: "a delivery time of 0",
        changes: &[Change::SetCount(Q, 5, 3), Change::PutDelay(5, 0)],
        fault: Some(StoreFault::Device),
        tables: &[],
    },
    Write {
        what: "a message that a row holds goes",
        changes: &[
            Change::DropHeld(Q, 5),
            Change::DropMessage(5),
            Change::DropHeld(N, 5),
        ],
        fault: Some(StoreFault::Device),
        tables: &[],
    },
    Write {
        what: "a message goes before its delivery time",
        changes: &[Change::DropHeld(KN, 8), Change::DropMessage(8)],
        fault: Some(StoreFault::Device),
        tables: &[],
    },
    Write {
        what: "a subscription that holds a row goes",
        changes: &[Change::DropHeld(Q, 5), Change::DropStation(KN)],
        fault: Some(StoreFault::Device),
        tables: &[],
    },
    Write {
        what: "a place past the greatest",
        changes: &[
            Change::SetCount(Q, 5, 3),
            Change::PutMessage(9_223_372_036_854_775_808, &[1]),
        ],
        fault: Some(StoreFault::Device),
        tables: &[],
    },
    Write {
        what: "the end of a message past the greatest place",
        changes: &[
            Change::SetCount(Q, 5, 3),
            Change::DropMessage(18_446_744_073_709_551_615),
        ],
        fault: Some(StoreFault::Device),
        tables: &[],
    },
    Write {
        what: "the last of many",
        changes: &[
            Change::PutStation(NEW, Some(Asks("t", None, false, false))),
            Change::PutMessage(9, &[9]),
            Change::PutHeld(NEW, 9),
            Change::PutHeld(Q, 9),
            Change::SetCount(Q, 9, 1),
            Change::DropHeld(Q, 5),
            Change::PutHeld(NEW, 9),
        ],
        fault: Some(StoreFault::Device),
        tables: &[],
    },
];

fn is_table<S: Alter>(conn: &mut Connection<S>, table: Table) -> bool {
    match table {
        Table::Station(rows) => is_shown(conn, STATION, rows),
        Table::Message(rows) => is_shown(conn, MESSAGE, rows),
        Table::Held(rows) => is_shown(conn, HELD, rows),
        Table::Delayed(rows) => is_shown(conn, DELAYED, rows),
    }
}

/// The kind of the table, as a number.
fn kind(table: Table) -> usize {
    match table {
        Table::Station(_) => 0,
        Table::Message(_) => 1,
        Table::Held(_) => 2,
        Table::Delayed(_) => 3,
    }
}

/// Whether the list tells of a table of that kind.
fn tells_of(tables: &[Table], wanted: usize) -> bool {
    for table in tables {
        if kind(*table) == wanted {
            return true;
        }
    }
    false
}

fn are_tables<S: Alter>(conn: &mut Connection<S>, tables: &[Table]) -> bool {
    for table in tables {
        if !is_table(conn, *table) {
            return false;
        }
    }
    true
}

/// The tables as they were before, in which the list tells nothing else.
fn are_others<S: Alter>(conn: &mut Connection<S>, tables: &[Table]) -> bool {
    (tells_of(tables, 0) || is_shown(conn, STATION, &STATIONS))
        && (tells_of(tables, 1) || is_shown(conn, MESSAGE, &MESSAGES))
        && (tells_of(tables, 2) || is_shown(conn, HELD, &ROWS))
        && (tells_of(tables, 3) || is_shown(conn, DELAYED, &DELAYS))
}

/// Whether those tables stand in the database, the others as before, and that row in meta.
fn stand<S: Alter>(conn: &mut Connection<S>, tables: &[Table], last: &str) -> bool {
    is_shown(conn, META, &[last]) && are_tables(conn, tables) && are_others(conn, tables)
}

/// The database of the connection, opened.
fn opened(alloc: Global, conn: Connection<MemStore>) -> Option<Connection<MemStore>>
    ensures { IfSome result (λ conn. conn.in_transaction ≡ false) }
{
    match open(alloc, conn) {
        Ok(opened) => Some(opened.conn),
        Err(_) => None,
    }
}

/// The database that the parts make, opened.
fn made_before(alloc: Global) -> Option<Connection<MemStore>>
    ensures { IfSome result (λ conn. conn.in_transaction ≡ false) }
{
    match made(alloc, &BEFORE) {
        Some(conn) => opened(alloc, conn),
        None => None,
    }
}

/// The error as a store tells it.
fn fault_of(error: &Error) -> StoreFault {
    match error {
        Error::SqliteFailure(ErrorCode::OutOfMemory) => StoreFault::Memory,
        _ => StoreFault::Device,
    }
}

/// Whether that is told of the changes.
fn is_told(
    conn: &mut Connection<MemStore>,
    changes: &[RowChange],
    fault: Option<StoreFault>,
) -> bool
    requires { conn.old.in_transaction ≡ false }
{
    match write(conn, changes) {
        Ok(()) => fault.is_none(),
        Err(error) => fault == Some(fault_of(&error)),
    }
}

fn is_written(alloc: Global, conn: &mut Connection<MemStore>, row: &Write) -> bool
    requires { conn.old.in_transaction ≡ false }
{
    match changes(alloc, row.changes) {
        Ok(changes) => is_told(conn, &changes, row.fault),
        Err(_) => false,
    }
}

/// Whether those tables stand in the database, and also once it was opened again.
fn are_left(alloc: Global, mut conn: Connection<MemStore>, tables: &[Table]) -> bool {
    if !stand(&mut conn, tables, "1|2|5") {
        return false;
    }
    match opened(alloc, conn) {
        Some(mut conn) => stand(&mut conn, tables, "1|2|6"),
        None => false,
    }
}

/// Whether the changes are told what they should be, over what stood before, and leave what they should.
fn passes(alloc: Global, row: &Write) -> bool {
    match made_before(alloc) {
        Some(mut conn) => {
            let is_written = is_written(alloc, &mut conn, row);
            let are_left = are_left(alloc, conn, row.tables);
            is_written && are_left
        }
        None => false,
    }
}

#[test]
fn changes_that_are_written(rt: HostRuntime) {
    for row in &WRITTEN {
        let passes = passes(rt.alloc(), row);
        holds(&rt, row.what, passes);
    }
}

#[test]
fn changes_that_are_refused(rt: HostRuntime) {
    for row in &REFUSED {
        let passes = passes(rt.alloc(), row);
        holds(&rt, row.what, passes);
    }
}
