//! What a running provider can be asked: what stands under each key.
//!
//! # Contract
//!
//! `overview_at`: of the key with that index, how many of its rows wait and how many are out, and the place and the
//! moment of its oldest (`overview` of the rows of the core's state). Takes no memory, copies no message, changes
//! nothing; each row is looked at once.
#![tactic(auto)]

mod overview;
mod tally;

pub use overview::{KeyOverview, Oldest, overview_at};
