//! What the opening of a store answers to a database, and what stands in the database then.

use crate::told::holds;
use jm_opening::{Left, OpenFault, TableName, Unopened, open};
use sqlite::{Alter, Connection, MemStore};
use std::alloc::Global;
use tests_databases::{HELD, MESSAGE, META, Part, STATION, is_shown, made};

/// What is told of an opening.
#[derive(Clone, Copy)]
enum Told {
    Opens(u32),
    Refused(OpenFault),
}

/// What stands in a database.
#[derive(Clone, Copy)]
enum Seen {
    /// Meta has that row alone: key, version and opening.
    Last(&'static str),
    /// It has these tables and indexes, and no others.
    Objects(&'static [&'static str]),
    /// The subscription of `Part::Rows` and its message stand, and no others.
    Rows,
    /// There is no station, no message and no row.
    NoRows,
}

/// A database, what its opening is told, and what stands in it then, whether it is open or handed back.
struct Opening {
    what: &'static str,
    /// What makes it, of which the last may leave a transaction open.
    parts: &'static [Part],
    told: Told,
    seen: &'static [Seen],
}

const OBJECTS: &str =
    "SELECT type || ' ' || name FROM sqlite_schema WHERE name < 'sqlite' OR name > 'sqlitf' ORDER BY name";

const BARE: Seen = Seen::Objects(&["table held", "table message", "table meta", "table station"]);

const CURRENT: Seen = Seen::Objects(&[
    "table delayed",
    "table held",
    "index held_by_place",
    "table message",
    "table meta",
    "table station",
]);

const META_DAMAGED: Told = Told::Refused(OpenFault::Damaged(TableName::Meta, 0));

/// What is opened.
static ACCEPTED: [Opening; 12] = [
    Opening {
        what: "a new database",
        parts: &[],
        told: Told::Opens(1),
        seen: &[Seen::Last("1|2|1"), CURRENT, Seen::NoRows],
    },
    Opening {
        what: "what was not committed",
        parts: &[Part::Sql("BEGIN; CREATE TABLE note (id INTEGER PRIMARY KEY)")],
        told: Told::Opens(1),
        seen: &[Seen::Last("1|2|1"), CURRENT, Seen::NoRows],
    },
    Opening {
        what: "version 1 without the index",
        parts: &[Part::Bare, Part::Sql("INSERT INTO meta VALUES (1, 1, 1)")],
        told: Told::Opens(2),
        seen: &[Seen::Last("1|2|2"), CURRENT, Seen::NoRows],
    },
    Opening {
        what: "version 1 with the index",
        parts: &[
            Part::Bare,
            Part::Index,
            Part::Sql("INSERT INTO meta VALUES (1, 1, 7)"),
        ],
        told: Told::Opens(8),
        seen: &[Seen::Last("1|2|8"), CURRENT, Seen::NoRows],
    },
    Opening {
        what: "rows of version 1 without the index",
        parts: &[
            Part::Bare,
            Part::Sql("INSERT INTO meta VALUES (1, 1, 1)"),
            Part::Rows,
        ],
        told: Told::Opens(2),
        seen: &[Seen::Last("1|2|2"), CURRENT, Seen::Rows],
    },
    Opening {
        what: "rows of version 1 with the index",
        parts: &[
            Part::Bare,
            Part::Index,
            Part::Sql("INSERT INTO meta VALUES (1, 1, 1)"),
            Part::Rows,
        ],
        told: Told::Opens(2),
        seen: &[Seen::Last("1|2|2"), CURRENT, Seen::Rows],
    },
    Opening {
        what: "version 1 before the greatest opening",
        parts: &[
            Part::Bare,
            Part::Sql("INSERT INTO meta VALUES (1, 1, 4294967294)"),
        ],
        told: Told::Opens(4_294_967_295),
        seen: &[Seen::Last("1|2|4294967295"), CURRENT, Seen::NoRows],
    },
    Opening {
        what: "version 2",
        parts: &[
            Part::Current,
            Part::Sql("INSERT INTO meta VALUES (1, 2, 1)"),
        ],
        told: Told::Opens(2),
        seen: &[Seen::Last("1|2|2"), CURRENT, Seen::NoRows],
    },
    Opening {
        what: "rows of version 2",
        parts: &[
            Part::Current,
            Part::Sql("INSERT INTO meta VALUES (1, 2, 41)"),
            Part::Rows,
        ],
        told: Told::Opens(42),
        seen: &[Seen::Last("1|2|42"), CURRENT, Seen::Rows],
    },
    Opening {
        what: "rows of version 2 of which some were not committed",
        parts: &[
            Part::Current,
            Part::Sql("INSERT INTO meta VALUES (1, 2, 41)"),
            Part::Rows,
            Part::Sql("BEGIN; DELETE FROM held; DELETE FROM message"),
        ],
        told: Told::Opens(42),
        seen: &[Seen::Last("1|2|42"), CURRENT, Seen::Rows],
    },
    Opening {
        what: "version 2 before the greatest opening",
        parts: &[
            Part::Current,
            Part::Sql("INSERT INTO meta VALUES (1, 2, 4294967294)"),
        ],
        told: Told::Opens(4_294_967_295),
        seen: &[Seen::Last("1|2|4294967295"), CURRENT, Seen::NoRows],
    },
    Opening {
        what: "what rows stand for is not looked at",
        parts: &[
            Part::Current,
            Part::Sql("INSERT INTO meta VALUES (1, 2, 1)"),
            Part::Sql("INSERT INTO message VALUES (0, x'')"),
        ],
        told: Told::Opens(2),
        seen: &[Seen::Last("1|2|2"), CURRENT],
    },
];

/// What is refused for its row of meta.
static REFUSED: [Opening; 17] = [
    Opening {
        what: "version 3",
        parts: &[
            Part::Current,
            Part::Sql("INSERT INTO meta VALUES (1, 3, 1)"),
        ],
        told: Told::Refused(OpenFault::WrongVersion(3)),
        seen: &[Seen::Last("1|3|1"), CURRENT, Seen::NoRows],
    },
    Opening {
        what: "version 7 of a bare one with rows",
        parts: &[
            Part::Bare,
            Part::Sql("INSERT INTO meta VALUES (1, 7, 1)"),
            Part::Rows,
        ],
        told: Told::Refused(OpenFault::WrongVersion(7)),
        seen: &[Seen::Last("1|7|1"), BARE, Seen::Rows],
    },
    Opening {
        what: "version 0",
        parts: &[Part::Bare, Part::Sql("INSERT INTO meta VALUES (1, 0, 1)")],
        told: Told::Refused(OpenFault::WrongVersion(0)),
        seen: &[Seen::Last("1|0|1"), BARE, Seen::NoRows],
    },
    Opening {
        what: "a negative version",
        parts: &[Part::Bare, Part::Sql("INSERT INTO meta VALUES (1, -1, 1)")],
        told: Told::Refused(OpenFault::WrongVersion(-1)),
        seen: &[Seen::Last("1|-1|1"), BARE, Seen::NoRows],
    },
    Opening {
        what: "the least version, before its opening",
        parts: &[
            Part::Bare,
            Part::Sql("INSERT INTO meta VALUES (1, -9223372036854775808, 0)"),
        ],
        told: Told::Refused(OpenFault::WrongVersion(-9_223_372_036_854_775_808)),
        seen: &[Seen::Last("1|-9223372036854775808|0"), BARE, Seen::NoRows],
    },
    Opening {
        what: "the greatest opening of version 1",
        parts: &[
            Part::Bare,
            Part::Sql("INSERT INTO meta VALUES (1, 1, 4294967295)"),
            Part::Rows,
        ],
        told: Told::Refused(OpenFault::Exhausted),
        seen: &[Seen::Last("1|1|4294967295"), BARE, Seen::Rows],
    },
    Opening {
        what: "the greatest opening of version 2",
        parts: &[
            Part::Current,
            Part::Sql("INSERT INTO meta VALUES (1, 2, 4294967295)"),
            Part::Rows,
        ],
        told: Told::Refused(OpenFault::Exhausted),
        seen: &[Seen::Last("1|2|4294967295"), CURRENT, Seen::Rows],
    },
    Opening {
        what: "opening 0",
        parts: &[
            Part::Current,
            Part::Sql("INSERT INTO meta VALUES (1, 2, 0)"),
        ],
        told: META_DAMAGED,
        seen: &[Seen::Last("1|2|0"), CURRENT, Seen::NoRows],
    },
    Opening {
        what: "a negative opening",
        parts: &[Part::Bare, Part::Sql("INSERT INTO meta VALUES (1, 1, -5)")],
        told: META_DAMAGED,
        seen: &[Seen::Last("1|1|-5"), BARE, Seen::NoRows],
    },
    Opening {
        what: "an opening past the greatest",
        parts: &[
            Part::Current,
            Part::Sql("INSERT INTO meta VALUES (1, 2, 4294967296)"),
        ],
        told: META_DAMAGED,
        seen: &[Seen::Last("1|2|4294967296"), CURRENT, Seen::NoRows],
    },
    Opening {
        what: "no row in meta",
        parts: &[Part::Current, Part::Rows],
        told: META_DAMAGED,
        seen: &[CURRENT, Seen::Rows],
    },
    Opening {
        what: "no row in meta of version 1",
        parts: &[Part::Bare],
        told: META_DAMAGED,
        seen: &[BARE, Seen::NoRows],
    },
    Opening {
        what: "two rows in meta",
        parts: &[Part::Sql(
            "CREATE TABLE meta (id INTEGER PRIMARY KEY, version INTEGER NOT NULL, opening INTEGER NOT NULL) STRICT; INSERT INTO meta VALUES (1, 2, 1), (2, 2, 1)",
        )],
        told: Told::Refused(OpenFault::Damaged(TableName::Meta, 1)),
        seen: &[Seen::Objects(&["table meta"])],
    },
    Opening {
        what: "a row of another key in meta",
        parts: &[Part::Sql(
            "CREATE TABLE meta (id INTEGER PRIMARY KEY, version INTEGER NOT NULL, opening INTEGER NOT NULL) STRICT; INSERT INTO meta VALUES (2, 2, 1)",
        )],
        told: META_DAMAGED,
        seen: &[Seen::Last("2|2|1"), Seen::Objects(&["table meta"])],
    },
    Opening {
        what: "a version that is a text",
        parts: &[Part::Sql(
            "CREATE TABLE meta (id INTEGER PRIMARY KEY, version TEXT, opening INTEGER) STRICT; INSERT INTO meta VALUES (1, 'two', 1)",
        )],
        told: META_DAMAGED,
        seen: &[Seen::Last("1|two|1"), Seen::Objects(&["table meta"])],
    },
    Opening {
        what: "an opening that is none",
        parts: &[Part::Sql(
            "CREATE TABLE meta (id INTEGER PRIMARY KEY, version INTEGER, opening INTEGER) STRICT; INSERT INTO meta VALUES (1, 2, NULL)",
        )],
        told: META_DAMAGED,
        seen: &[Seen::Objects(&["table meta"])],
    },
    Opening {
        what: "a wrong version before tables that are none of a store's",
        parts: &[Part::Meta, Part::Sql("INSERT INTO meta VALUES (1, 9, 1)")],
        told: Told::Refused(OpenFault::WrongVersion(9)),
        seen: &[Seen::Last("1|9|1"), Seen::Objects(&["table meta"])],
    },
];

/// What is refused for its tables.
static UNKNOWN: [Opening; 17] = [
    Opening {
        what: "a table of another program",
        parts: &[Part::Sql("CREATE TABLE note (id INTEGER PRIMARY KEY)")],
        told: Told::Refused(OpenFault::Store),
        seen: &[Seen::Objects(&["table note"])],
    },
    Opening {
        what: "a view alone",
        parts: &[Part::Sql("CREATE VIEW note AS SELECT 1")],
        told: Told::Refused(OpenFault::Store),
        seen: &[Seen::Objects(&["view note"])],
    },
    Opening {
        what: "no meta",
        parts: &[Part::Station, Part::Message, Part::Held, Part::Rows],
        told: Told::Refused(OpenFault::Store),
        seen: &[
            Seen::Objects(&["table held", "table message", "table station"]),
            Seen::Rows,
        ],
    },
    Opening {
        what: "no station, no held",
        parts: &[
            Part::Meta,
            Part::Message,
            Part::Sql("INSERT INTO meta VALUES (1, 1, 1)"),
        ],
        told: Told::Refused(OpenFault::Store),
        seen: &[
            Seen::Last("1|1|1"),
            Seen::Objects(&["table message", "table meta"]),
        ],
    },
    Opening {
        what: "no held",
        parts: &[
            Part::Meta,
            Part::Station,
            Part::Message,
            Part::Sql("INSERT INTO meta VALUES (1, 1, 1)"),
        ],
        told: Told::Refused(OpenFault::Store),
        seen: &[
            Seen::Last("1|1|1"),
            Seen::Objects(&["table message", "table meta", "table station"]),
        ],
    },
    Opening {
        what: "meta alone",
        parts: &[Part::Meta, Part::Sql("INSERT INTO meta VALUES (1, 2, 1)")],
        told: Told::Refused(OpenFault::Store),
        seen: &[Seen::Last("1|2|1"), Seen::Objects(&["table meta"])],
    },
    Opening {
        what: "no delayed in version 2",
        parts: &[
            Part::Bare,
            Part::Index,
            Part::Sql("INSERT INTO meta VALUES (1, 2, 1)"),
        ],
        told: Told::Refused(OpenFault::Store),
        seen: &[Seen::Last("1|2|1"), Seen::NoRows],
    },
    Opening {
        what: "no index in version 2",
        parts: &[
            Part::Bare,
            Part::Delayed,
            Part::Sql("INSERT INTO meta VALUES (1, 2, 1)"),
        ],
        told: Told::Refused(OpenFault::Store),
        seen: &[Seen::Last("1|2|1"), Seen::NoRows],
    },
    Opening {
        what: "version 1 with the tables of version 2",
        parts: &[
            Part::Current,
            Part::Sql("INSERT INTO meta VALUES (1, 1, 1)"),
            Part::Rows,
        ],
        told: Told::Refused(OpenFault::Store),
        seen: &[Seen::Last("1|1|1"), CURRENT, Seen::Rows],
    },
    Opening {
        what: "version 2 with the tables of version 1",
        parts: &[
            Part::Bare,
            Part::Sql("INSERT INTO meta VALUES (1, 2, 1)"),
            Part::Rows,
        ],
        told: Told::Refused(OpenFault::Store),
        seen: &[Seen::Last("1|2|1"), BARE, Seen::Rows],
    },
    Opening {
        what: "a table more",
        parts: &[
            Part::Current,
            Part::Sql("INSERT INTO meta VALUES (1, 2, 1)"),
            Part::Sql("CREATE TABLE note (id INTEGER PRIMARY KEY)"),
        ],
        told: Told::Refused(OpenFault::Store),
        seen: &[Seen::Last("1|2|1"), Seen::NoRows],
    },
    Opening {
        what: "a table more in version 1",
        parts: &[
            Part::Bare,
            Part::Sql("INSERT INTO meta VALUES (1, 1, 1)"),
            Part::Sql("CREATE TABLE note (id INTEGER PRIMARY KEY)"),
        ],
        told: Told::Refused(OpenFault::Store),
        seen: &[Seen::Last("1|1|1"), Seen::NoRows],
    },
    Opening {
        what: "an index more",
        parts: &[
            Part::Current,
            Part::Sql("INSERT INTO meta VALUES (1, 2, 1)"),
            Part::Sql("CREATE INDEX held_by_deliveries ON held(deliveries)"),
        ],
        told: Told::Refused(OpenFault::Store),
        seen: &[Seen::Last("1|2|1"), Seen::NoRows],
    },
    Opening {
        what: "a view more",
        parts: &[
            Part::Current,
            Part::Sql("INSERT INTO meta VALUES (1, 2, 1)"),
            Part::Sql("CREATE VIEW note AS SELECT place FROM message"),
        ],
        told: Told::Refused(OpenFault::Store),
        seen: &[Seen::Last("1|2|1"), Seen::NoRows],
    },
    Opening {
        what: "another order of the tables",
        parts: &[
            Part::Station,
            Part::Meta,
            Part::Message,
            Part::Held,
            Part::Sql("INSERT INTO meta VALUES (1, 1, 1)"),
        ],
        told: Told::Refused(OpenFault::Store),
        seen: &[Seen::Last("1|1|1"), BARE, Seen::NoRows],
    },
    Opening {
        what: "a column more",
        parts: &[
            Part::Meta,
            Part::Station,
            Part::Sql(
                "CREATE TABLE message (place INTEGER PRIMARY KEY, record BLOB NOT NULL, note TEXT) STRICT",
            ),
            Part::Held,
            Part::Sql("INSERT INTO meta VALUES (1, 1, 1)"),
        ],
        told: Told::Refused(OpenFault::Store),
        seen: &[Seen::Last("1|1|1"), BARE, Seen::NoRows],
    },
    Opening {
        what: "an index of another column",
        parts: &[
            Part::Bare,
            Part::Sql("CREATE INDEX held_by_place ON held(deliveries)"),
            Part::Sql("INSERT INTO meta VALUES (1, 1, 1)"),
        ],
        told: Told::Refused(OpenFault::Store),
        seen: &[Seen::Last("1|1|1"), Seen::NoRows],
    },
];

/// Whether the subscription of `Part::Rows` and its message stand, and no others.
fn has_rows<S: Alter>(conn: &mut Connection<S>) -> bool {
    is_shown(conn, STATION, &["2|k|n|0|t||0"])
        && is_shown(conn, MESSAGE, &["3|01"])
        && is_shown(conn, HELD, &["2|k|n|3|5"])
}

fn has_no_rows<S: Alter>(conn: &mut Connection<S>) -> bool {
    is_shown(conn, STATION, &[]) && is_shown(conn, MESSAGE, &[]) && is_shown(conn, HELD, &[])
}

fn is_seen<S: Alter>(conn: &mut Connection<S>, seen: Seen) -> bool {
    match seen {
        Seen::Last(row) => is_shown(conn, META, &[row]),
        Seen::Objects(objects) => is_shown(conn, OBJECTS, objects),
        Seen::Rows => has_rows(conn),
        Seen::NoRows => has_no_rows(conn),
    }
}

fn are_seen<S: Alter>(conn: &mut Connection<S>, seen: &[Seen]) -> bool {
    for one in seen {
        if !is_seen(conn, *one) {
            return false;
        }
    }
    true
}

/// The connection that is left.
fn connection_left(left: Left<MemStore>) -> Option<Connection<MemStore>> {
    match left {
        Left::Settled(conn) => Some(conn),
        Left::Shut(_) => None,
    }
}

/// What an opening told, and the connection that it made or handed back.
fn opened(alloc: Global, conn: Connection<MemStore>) -> (Told, Option<Connection<MemStore>>) {
    match open(alloc, conn) {
        Ok(opened) => (Told::Opens(opened.opening), Some(opened.conn)),
        Err(unopened) => {
            let Unopened { fault, left } = unopened;
            (Told::Refused(fault), connection_left(left))
        }
    }
}

fn is_told(told: Told, wanted: Told) -> bool {
    match (told, wanted) {
        (Told::Opens(opening), Told::Opens(wanted)) => opening == wanted,
        (Told::Refused(fault), Told::Refused(wanted)) => fault == wanted,
        _ => false,
    }
}

/// Whether the opening of that database is told what it should be, and leaves what it should.
fn is_opened(alloc: Global, conn: Connection<MemStore>, row: &Opening) -> bool {
    let (told, conn) = opened(alloc, conn);
    match conn {
        Some(mut conn) => is_told(told, row.told) && are_seen(&mut conn, row.seen),
        None => false,
    }
}

fn passes(alloc: Global, row: &Opening) -> bool {
    match made(alloc, row.parts) {
        Some(conn) => is_opened(alloc, conn, row),
        None => false,
    }
}

#[test]
fn databases_that_are_opened(rt: HostRuntime) {
    for row in &ACCEPTED {
        let passes = passes(rt.alloc(), row);
        holds(&rt, row.what, passes);
    }
}

#[test]
fn databases_whose_meta_is_refused(rt: HostRuntime) {
    for row in &REFUSED {
        let passes = passes(rt.alloc(), row);
        holds(&rt, row.what, passes);
    }
}

#[test]
fn databases_whose_tables_are_refused(rt: HostRuntime) {
    for row in &UNKNOWN {
        let passes = passes(rt.alloc(), row);
        holds(&rt, row.what, passes);
    }
}
