//! The laws of reading a record: each rule reads exactly the values of its fields. Nothing here runs.
//!
//! # Contract
//!
//! `law_parts`: the rule of each part of a message reads exactly its values, by their fields (`IsRead`).
#![tactic(auto)]

mod laws;

pub use laws::law_parts;
