//! Databases of tests, part by part, what stands in them, and changes of what is stored, in few words.
#![tactic(auto)]

mod database;
mod listed;
mod parts;

pub use database::{DELAYED, HELD, MESSAGE, META, STATION, is_shown, runs};
pub use listed::{Asks, Change, Of, changes};
pub use parts::{Part, made, makes};
