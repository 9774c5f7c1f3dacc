//! The calls that take memory of what the provider's state is made of: rows, subscriptions, sessions, and counts of sends, each with
//! what it is made on.
//!
//! # Contract
//!
//! None: each module makes the call of a number, and says so where there is none.
#![tactic(auto)]

pub mod rows;
pub mod sends;
pub mod sessions;
pub mod stations;
pub mod subscriptions;
pub mod tables;
