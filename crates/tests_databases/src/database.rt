//! Databases of tests: what makes them, and what stands in them.

use sqlite::types::ValueRef;
use sqlite::{Alter, Connection, Error, Row};

/// The row of meta: its key, the version and the opening.
pub const META: &str = "SELECT id || '|' || version || '|' || opening FROM meta ORDER BY id";

/// The rows of station, a text each, by their key.
pub const STATION: &str =
    "SELECT family || '|' || client || '|' || name || '|' || shared || '|' || topic || '|' || selector || '|' || no_local FROM station ORDER BY family, client, name";

/// The place of each message, and its record.
pub const MESSAGE: &str = "SELECT place || '|' || lower(hex(record)) FROM message ORDER BY place";

/// The rows of held, by their key.
pub const HELD: &str =
    "SELECT family || '|' || client || '|' || name || '|' || place || '|' || deliveries FROM held ORDER BY family, client, name, place";

/// The place of each delayed message, and when it becomes due.
pub const DELAYED: &str = "SELECT place || '|' || due FROM delayed ORDER BY place";

/// Runs the statements in turn; whether all were accepted.
pub fn runs<S: Alter>(conn: &mut Connection<S>, script: &str) -> bool {
    conn.execute_batch(script).is_ok()
}

fn rows_of<S: Alter>(conn: &mut Connection<S>, query: &str) -> Result<Vec<Row>, Error> {
    conn.query_all(query, &[])
}

/// Whether the only column of the row is that text.
fn is_text(row: &Row, wanted: &str) -> bool {
    match row.get_ref(0) {
        Ok(ValueRef::Text(bytes)) => bytes == wanted.as_bytes(),
        _ => false,
    }
}

/// Whether the rows are these texts, in turn.
fn are_texts(rows: &[Row], wanted: &[&str]) -> bool {
    let mut wanted = wanted.iter();
    for row in rows {
        let is_wanted = match wanted.next() {
            Some(text) => is_text(row, text),
            None => false,
        };
        if !is_wanted {
            return false;
        }
    }
    wanted.next().is_none()
}

/// Whether the query shows these rows, in turn.
pub fn is_shown<S: Alter>(conn: &mut Connection<S>, query: &str, wanted: &[&str]) -> bool {
    match rows_of(conn, query) {
        Ok(rows) => are_texts(&rows, wanted),
        Err(_) => false,
    }
}
