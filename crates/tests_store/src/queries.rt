//! The queries of the page on the store, over a store that has some of all.

use crate::told::holds;
use sqlite::types::ValueRef;
use sqlite::{Alter, Connection, Error, Row};
use std::alloc::Global;
use tests_databases::{Part, made};

/// A column of a row.
#[derive(Clone, Copy)]
enum Cell {
    Null,
    Int(i64),
    Text(&'static str),
}

struct Query {
    what: &'static str,
    text: &'static str,
    rows: &'static [&'static [Cell]],
}

/// Two subscriptions of the client k, of which one holds nothing, and a shared one of no client; a queue with two messages, and
/// one that is empty. The messages were sent at 1000, 1002 and 66,000 milliseconds, the last with a delay of one second.
static STORE: [Part; 2] = [
    Part::Current,
    Part::Sql(
        "INSERT INTO meta VALUES (1, 2, 4);
        INSERT INTO station VALUES (1, '', 'empty', 0, '', '', 0), (1, '', 'orders', 0, '', '', 0), (2, '', 'audit', 1, 't', '', 0), (2, 'k', 'bills', 0, 't', 'x > 1', 0), (2, 'k', 'none', 0, 'u', '', 1);
        INSERT INTO message VALUES
        (3, x'01000000010000000100000001000000000000000100000000000003e800000000000000000104'),
        (4, x'01000000010000000100000001000000000000000200000000000003ea00000000000000000104'),
        (9, x'02000000020000000100000001000000000000000100000000000101d0000000000000000000000000000105b80104');
        INSERT INTO delayed VALUES (9, 67000);
        INSERT INTO held VALUES (1, '', 'orders', 4, 0), (1, '', 'orders', 9, 0), (2, '', 'audit', 3, 2), (2, '', 'audit', 4, 1), (2, '', 'audit', 9, 0), (2, 'k', 'bills', 4, 7)",
    ),
];

static QUERIES: [Query; 3] = [
    Query {
        what: "durable subscriptions",
        text: "SELECT b.client, b.name, b.topic, b.selector, b.backlog, b.deliveries, b.oldest, hex(substr(m.record, 22, 8)) AS sent FROM (SELECT s.client AS client, s.name AS name, s.topic AS topic, s.selector AS selector, count(h.place) AS backlog, max(h.deliveries) AS deliveries, min(h.place) AS oldest FROM station AS s LEFT JOIN held AS h ON h.family = 2 AND h.client = s.client AND h.name = s.name WHERE s.family = 2 GROUP BY s.client, s.name, s.topic, s.selector) AS b LEFT JOIN message AS m ON m.place = b.oldest ORDER BY b.client, b.name",
        rows: &[
            &[
                Cell::Text(""),
                Cell::Text("audit"),
                Cell::Text("t"),
                Cell::Text(""),
                Cell::Int(3),
                Cell::Int(2),
                Cell::Int(3),
                Cell::Text("00000000000003E8"),
            ],
            &[
                Cell::Text("k"),
                Cell::Text("bills"),
                Cell::Text("t"),
                Cell::Text("x > 1"),
                Cell::Int(1),
                Cell::Int(7),
                Cell::Int(4),
                Cell::Text("00000000000003EA"),
            ],
            &[
                Cell::Text("k"),
                Cell::Text("none"),
                Cell::Text("u"),
                Cell::Text(""),
                Cell::Int(0),
                Cell::Null,
                Cell::Null,
                Cell::Text(""),
            ],
        ],
    },
    Query {
        what: "queues",
        text: "SELECT q.name, q.backlog, q.deliveries, q.oldest, hex(substr(m.record, 22, 8)) AS sent FROM (SELECT name AS name, count(*) AS backlog, max(deliveries) AS deliveries, min(place) AS oldest FROM held WHERE family = 1 GROUP BY name) AS q JOIN message AS m ON m.place = q.oldest ORDER BY q.name",
        rows: &[&[
            Cell::Text("orders"),
            Cell::Int(2),
            Cell::Int(0),
            Cell::Int(4),
            Cell::Text("00000000000003EA"),
        ]],
    },
    Query {
        what: "delayed messages",
        text: "SELECT place, due FROM delayed ORDER BY due, place",
        rows: &[&[Cell::Int(9), Cell::Int(67_000)]],
    },
];

fn is_cell(row: &Row, at: usize, wanted: Cell) -> bool {
    match (row.get_ref(at), wanted) {
        (Ok(ValueRef::Null), Cell::Null) => true,
        (Ok(ValueRef::Int(number)), Cell::Int(wanted)) => number == wanted,
        (Ok(ValueRef::Text(bytes)), Cell::Text(wanted)) => bytes == wanted.as_bytes(),
        _ => false,
    }
}

/// Whether the columns of the row are those.
fn is_row(row: &Row, wanted: &[Cell]) -> bool {
    if row.column_count() != wanted.len() {
        return false;
    }
    for (at, cell) in wanted.iter().enumerate() {
        if !is_cell(row, at, *cell) {
            return false;
        }
    }
    true
}

fn are_rows(rows: &[Row], wanted: &[&[Cell]]) -> bool {
    let mut wanted = wanted.iter();
    for row in rows {
        let is_wanted = match wanted.next() {
            Some(cells) => is_row(row, cells),
            None => false,
        };
        if !is_wanted {
            return false;
        }
    }
    wanted.next().is_none()
}

fn rows_of<S: Alter>(conn: &mut Connection<S>, query: &str) -> Result<Vec<Row>, Error> {
    conn.query_all(query, &[])
}

fn shows<S: Alter>(conn: &mut Connection<S>, query: &Query) -> bool {
    match rows_of(conn, query.text) {
        Ok(rows) => are_rows(&rows, query.rows),
        Err(_) => false,
    }
}

fn passes(alloc: Global, query: &Query) -> bool {
    match made(alloc, &STORE) {
        Some(mut conn) => shows(&mut conn, query),
        None => false,
    }
}

#[test]
fn queries_of_the_page_on_the_store(rt: HostRuntime) {
    for query in &QUERIES {
        let passes = passes(rt.alloc(), query);
        holds(&rt, query.what, passes);
    }
}
