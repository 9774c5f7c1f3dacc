//! The calls that take memory of the core and of what is told of it, each with what it is made on.
//!
//! # Contract
//!
//! None: each module makes the call of a number, and says so where there is none.
#![tactic(auto)]

pub mod causes;
pub mod cores;
pub mod events;
pub mod steps;
