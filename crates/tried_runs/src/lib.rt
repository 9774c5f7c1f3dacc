//! Calls that take memory and do much: a store is opened, and a scenario is played over a keeper.
//!
//! # Contract
//!
//! None: each module makes the call of a number, and says so where there is none.
#![tactic(auto)]

pub mod plays;
pub mod stores;
