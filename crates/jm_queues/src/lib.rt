//! What the queues hold, by their names, and the rows under a key, read without a copy of their messages.
//!
//! # Contract
//!
//! `Queues` is seen as a `Stations` of its own, with messages and places of its own count; `rows_in` of that says what each
//! queue holds, by its name: a queue has a key from the first message on that is sent to it, or planned to be, and one
//! without a key and one with no rows hold the same. No queue has a limit, and at each place stands one row at most
//! (`AreQueues`).
//!
//! `reserve` makes a key of a queue that has none, and room for more rows there and for more messages; also where memory is
//! wanted each key stands where it stood, and the queues hold the same (`HaveMoreRoom`). `publish` and `load` then put a row
//! under the key with that index, behind all others, at a place from the next one on; they take no memory.
//!
//! `pick` is `pick_where` of `Stations`, and `row_picked`, `receive`, `deliver`, `settle`, `give_back`, `settle_at` and
//! `give_back_at` are those of `Stations`, as what each queue holds tells. A `copy` holds the same, by the same keys.
//!
//! `Rows` is what stands under one key, lent: the first row from a place on, and the first from there that is expired at a moment
//! or that is out.
#![tactic(auto)]

pub mod queues;
pub mod rows;
