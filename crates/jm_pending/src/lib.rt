//! What is held for subscriptions: a table in which each message stands once, and for each
//! subscription the rows that hold messages of it, by priority. Contracts see the rows as one list by
//! place. Only `reserve` takes memory; every other call succeeds under its conditions.
//!
//! # Contract
//!
//! `Table` and `Row` are those of `jm_lane`: a table is seen as its messages by place with the number of their holders; a
//! message goes with its last holder. `Held` is seen as the list of its rows by place, with limit, missed count and room;
//! inside they stand in the lanes of `jm_lanes`, made when room is first made for a row, of which nothing is said outside.
//! Where there are no rows, none is looked at, and else none but those between the first and the last that got a row since
//! there were none.
//!
//! A row waits, or is out to a session through one of its consumers, and `add` takes it in either state, behind all
//! others; rows in both states count at the limit, where a row is missed instead and counted. `add`, `deliver_at`,
//! `receive_at`, `drop_expired`, `settle`, `settle_one`, `give_back`, `give_back_one` and `clear` are one equation each on
//! that list, and say what they do to the holders (`Follows`).
//!
//! `next` gives the row that a delivery takes: the first in order of priority and place of those that wait, are not expired
//! and are not held back (`is_ready`); what is held back stays, counts at the limit and hides no other. `next_where` gives
//! the first of those whose messages a selector selects; with no selector it looks at no message.
//!
//! `deliver_at` drops the expired rows that wait, and sends the row at a place out, counted once more; `receive_at` takes it
//! out instead and hands its message out exactly where no other row holds it. So a row is searched once, by `next` or
//! `next_where`, and then taken by its place.
//!
//! `settle` and `give_back` are of the rows that are out through consumers that are meant (`Consumers`), and of no
//! other: these go, or wait again at their places with their counts; those that end in `_one` are of the row at one
//! place. `is_home` says whether no row is out.
//!
//! `row_from` answers the first row by place from a place on, so that all rows are met in turn, each at the cost of
//! at most sixty binary searches; `row_of` gives the row at a place, `lapsed_from` and `out_from` the first row by
//! place, from a place on, that waits and is expired at a moment, or is out through certain consumers.
//!
//! A lane of which no row expires by then, and rows of which it is known that none is out to them, cost nothing. A
//! `copy` of either is equal but for the room. Only the `reserve`s and the copies take memory.
#![tactic(auto)]

mod held;
mod receivers;

pub use held::{Held, Taken};
pub use jm_lane::{Row, Table};
