//! What makes a database of a test, part by part.

use crate::database::runs;
use sqlite::{Alter, Connection, MemStore};
use std::alloc::Global;

/// What makes part of a database.
#[derive(Clone, Copy)]
pub enum Part {
    Meta,
    Station,
    Message,
    Held,
    /// The index of rows by place.
    Index,
    Delayed,
    /// The tables of version 1, without the index.
    Bare,
    /// The tables of version 2 with the index.
    Current,
    /// A durable subscription with a message that was delivered five times.
    Rows,
    Sql(&'static str),
}

/// The statements that make the part, but for those of several tables.
fn text(part: Part) -> &'static str {
    match part {
        Part::Meta =>
            "CREATE TABLE meta (id INTEGER PRIMARY KEY CHECK (id = 1), version INTEGER NOT NULL, opening INTEGER NOT NULL) STRICT",
        Part::Station =>
            "CREATE TABLE station (family INTEGER NOT NULL, client TEXT NOT NULL, name TEXT NOT NULL, shared INTEGER NOT NULL, topic TEXT NOT NULL, selector TEXT NOT NULL, no_local INTEGER NOT NULL, PRIMARY KEY (family, client, name)) STRICT",
        Part::Message =>
            "CREATE TABLE message (place INTEGER PRIMARY KEY, record BLOB NOT NULL) STRICT",
        Part::Held =>
            "CREATE TABLE held (family INTEGER NOT NULL, client TEXT NOT NULL, name TEXT NOT NULL, place INTEGER NOT NULL REFERENCES message(place), deliveries INTEGER NOT NULL CHECK (deliveries >= 0), PRIMARY KEY (family, client, name, place), FOREIGN KEY (family, client, name) REFERENCES station(family, client, name)) STRICT",
        Part::Index => "CREATE INDEX held_by_place ON held(place)",
        Part::Delayed =>
            "CREATE TABLE delayed (place INTEGER PRIMARY KEY REFERENCES message(place), due INTEGER NOT NULL CHECK (due > 0)) STRICT",
        Part::Rows =>
            "INSERT INTO station VALUES (2, 'k', 'n', 0, 't', '', 0); INSERT INTO message VALUES (3, x'01'); INSERT INTO held VALUES (2, 'k', 'n', 3, 5)",
        Part::Bare | Part::Current => "",
        Part::Sql(text) => text,
    }
}

/// The parts of that part, in the order in which they are made.
fn parts_of(part: Part) -> &'static [Part] {
    match part {
        Part::Bare => &[Part::Meta, Part::Station, Part::Message, Part::Held],
        Part::Current => &[
            Part::Meta,
            Part::Station,
            Part::Message,
            Part::Held,
            Part::Index,
            Part::Delayed,
        ],
        _ => &[],
    }
}

fn makes_each<S: Alter>(conn: &mut Connection<S>, parts: &[Part]) -> bool {
    for part in parts {
        if !runs(conn, text(*part)) {
            return false;
        }
    }
    true
}

/// Makes the parts in turn; whether all were accepted.
pub fn makes<S: Alter>(conn: &mut Connection<S>, parts: &[Part]) -> bool {
    for part in parts {
        if !makes_each(conn, parts_of(*part)) || !runs(conn, text(*part)) {
            return false;
        }
    }
    true
}

/// A database in memory that has the parts, or none where one was refused.
pub fn made(alloc: Global, parts: &[Part]) -> Option<Connection<MemStore>> {
    match Connection::open_in_memory(alloc) {
        Ok(mut conn) => {
            if makes(&mut conn, parts) {
                Some(conn)
            } else {
                None
            }
        }
        Err(_) => None,
    }
}
