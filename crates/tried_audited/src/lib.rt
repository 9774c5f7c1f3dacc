//! The calls of an audited provider that take memory, each with what it is made on.
//!
//! # Contract
//!
//! None: each module makes the call of a number, and says so where there is none.
#![tactic(auto)]

pub mod backends;
pub mod openings;
