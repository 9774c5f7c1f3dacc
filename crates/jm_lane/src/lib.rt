//! Messages with their holders, the rows that hold them, and one lane of rows: rows of one priority, by place. `jm_lanes` has
//! the lanes of one subscription, and `jm_pending` what is held for it.
//!
//! # Contract
//!
//! `Table` is seen as its messages by place with the number of their holders; a message goes with its last holder.
//!
//! `Row` is what a subscription holds of a message: its place, count, state, priority and moments. `Outs` says which rows
//! that are out are meant.
//!
//! `Lane` is seen as the list of its rows by place, with their priority and for how many more there is room; inside four
//! bounds spare walks, of which nothing is said outside. `push` adds a row behind all others; `drop_expired`, `settle` and
//! `clear` are one filter each on that list, `give_back` and `send_at` change states alone, and `remove_at` takes out the row
//! of a `Spot`; `spot_of` gives the spot of the row at a place. Those that drop rows say what they do to the holders in the
//! table (`Follows`).
//!
//! `first_ready` and `first_choice` say where the row stands that goes first of those that may be delivered, of all or of
//! those whose messages a selector selects, and `first_lapsed` and `first_out` where the first by place stands that waits and
//! is expired, or is out through certain consumers: each only where it is better than the best of the lanes before it.
//!
//! Only the `reserve`s and the copies take memory; every other call succeeds under its conditions.
#![tactic(auto)]

mod cursors;
mod lane;
mod row;
mod spot;
mod table;
mod walks;

pub use lane::Lane;
pub use row::{Outs, Row};
pub use spot::Spot;
pub use table::Table;
