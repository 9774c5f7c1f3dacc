//! What stands in the tables of a database.

use sqlite::{Alter, Connection};
use tests_databases::{DELAYED, HELD, MESSAGE, META, STATION, is_shown};

/// The rows of a table, a text each; none where there is no such table.
pub(crate) type Rows = Option<&'static [&'static str]>;

/// What stands in the tables.
#[derive(Clone, Copy)]
pub(crate) struct Tables {
    pub(crate) meta: Rows,
    pub(crate) stations: Rows,
    pub(crate) messages: Rows,
    pub(crate) held: Rows,
    pub(crate) delays: Rows,
}

/// Whether the query shows these rows, or is refused where there are none.
fn is_table<S: Alter>(conn: &mut Connection<S>, query: &str, rows: Rows) -> bool {
    match rows {
        Some(rows) => is_shown(conn, query, rows),
        None => conn.query_all(query, &[]).is_err(),
    }
}

impl Tables {
    /// Whether the same stands in the database as far as the provider's state goes.
    pub(crate) fn hold_state<S: Alter>(&self, conn: &mut Connection<S>) -> bool {
        is_table(conn, STATION, self.stations)
            && is_table(conn, MESSAGE, self.messages)
            && is_table(conn, HELD, self.held)
            && is_table(conn, DELAYED, self.delays)
    }

    /// Whether the same stands in the database.
    pub(crate) fn hold<S: Alter>(&self, conn: &mut Connection<S>) -> bool {
        is_table(conn, META, self.meta) && self.hold_state(conn)
    }

    /// How many messages stand there.
    pub(crate) fn messages_len(&self) -> usize {
        match self.messages {
            Some(rows) => rows.len(),
            None => 0,
        }
    }

    /// How many durable subscriptions stand there, which have family 2.
    pub(crate) fn subscriptions_len(&self) -> usize {
        match self.stations {
            Some(rows) => rows.iter().filter(|row| row.starts_with("2|")).count(),
            None => 0,
        }
    }
}
