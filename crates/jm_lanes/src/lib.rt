//! The rows of one subscription, in lanes: three for each priority, from the highest on. `jm_lane` has one lane, and
//! `jm_pending` what a subscription holds of them.
//!
//! # Contract
//!
//! `UsedLanes` is seen as the list of its lanes, none before `make` and thirty after it, each seen as `jm_lane` says; which
//! of them are looked at is not said outside: those between the first and the last that got a row since there were none.
//! Which of the three lanes of its priority a row stands in is free.
//!
//! `push` adds a row to one lane; `drop_expired`, `settle`, `give_back` and `clear` are one edit each of the rows of each lane
//! (`EachBecomes`), and those that drop rows say what they do to the holders in the table (`Follows`). `next` gives the row that
//! goes first of those that may be delivered, by priority and then by place (`IsSoonestOf`), and `next_where` the first of
//! those whose messages a selector selects; `send_at` and `remove_at` take the row at a place, which is found by halves.
//! `row_at`, `row_from`, `lapsed_from` and `out_from` are of the rows of all lanes by place (`rows_of`).
//!
//! Only `copy`, `make` and `reserve` take memory; every other call succeeds under its conditions.
#![tactic(auto)]

mod cursors;
mod lanes;
mod span;
mod used;

pub use used::UsedLanes;
