//! The calls of the lock that take memory, and of the audit of its trace, each with what it is made on.
//!
//! # Contract
//!
//! None: each module makes the call of a number, and says so where there is none.
#![tactic(auto)]

pub mod anew;
pub mod left_out;
mod locked;
pub mod locks;
pub mod openings;
pub mod segments;
