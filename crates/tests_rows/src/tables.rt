//! The table of messages.

use crate::told::is_number;
use jm_base::Refusal;
use jm_pending::Table;
use std::alloc::Global;
use tests_messages::{is_text, is_there, sent};

/// Puts a message of that text at the place, where none stands.
fn put(alloc: Global, table: &mut Table, place: u64, text: &'static str) -> Result<(), Refusal> {
    table.reserve(1)?;
    if table.holders(place) == 0 {
        table.put(place, sent(alloc, (text, 4, 0))?);
    }
    Ok(())
}

/// Whether the message at the place has that text.
fn stands(table: &Table, place: u64, text: &str) -> bool {
    match table.get(place) {
        Some(message) => is_text(message, text),
        None => false,
    }
}

/// Whether a message at the place went with its one holder.
fn goes(table: &mut Table, place: u64) -> bool {
    table.holders(place) == 1 && is_there(table.release(place))
}

static TEXTS: [(u64, &str); 3] = [(1, "a"), (2, "b"), (9, "c")];

/// How many of the messages stand at their places.
fn standing(table: &Table) -> usize {
    let mut standing: usize = 0;
    for (place, text) in &TEXTS {
        standing = standing.saturating_add(usize::from(stands(table, *place, text)));
    }
    standing
}

fn length_of_copy(table: &Table) -> usize {
    match table.copy() {
        Ok(copy) => copy.len(),
        Err(_) => usize::MAX,
    }
}

fn fill(alloc: Global, table: &mut Table) {
    for (place, text) in &TEXTS {
        let _ = put(alloc, table, *place, text);
    }
}

/// A place, and how many messages the table has once that there went.
static LEFT: [(u64, usize); 3] = [(1, 2), (2, 1), (9, 0)];

/// How many messages go from their places in turn.
fn going(table: &mut Table) -> usize {
    let mut going: usize = 0;
    for (place, left) in &LEFT {
        let is_gone = goes(table, *place) && table.len() == *left;
        going = going.saturating_add(usize::from(is_gone));
    }
    going
}

/// How many of the messages stand at their places, how many the table and its copy have, and how many then go.
fn counts(alloc: Global) -> [usize; 4] {
    let mut table = Table::new(alloc);
    fill(alloc, &mut table);
    let standing = standing(&table);
    let (length, of_copy) = (table.len(), length_of_copy(&table));
    [standing, length, of_copy, going(&mut table)]
}

#[test]
fn messages_stand_at_their_places(rt: HostRuntime) {
    let [standing, length, of_copy, going] = counts(rt.alloc());
    is_number(&rt, "messages at their places", 3, standing);
    is_number(&rt, "messages", 3, length);
    is_number(&rt, "messages of the copy", 3, of_copy);
    is_number(&rt, "messages that go", 3, going);
}
