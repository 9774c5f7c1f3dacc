//! The calls of selectors and records that take memory, each with what it is made on.
//!
//! # Contract
//!
//! None: each module makes the call of a number, and says so where there is none.
#![tactic(auto)]

pub mod memberships;
pub mod parts;
pub mod patterns;
pub mod records;
pub mod selectors;
pub mod syntax;
