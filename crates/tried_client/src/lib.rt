//! The calls of the provider that a service embeds that take memory, each with what it is made on, over a keeper that keeps nothing, and is
//! told all that changes.
//!
//! # Contract
//!
//! None: each module makes the call of a number, and says so where there is none.
#![tactic(auto)]

pub mod connections;
mod keeping;
mod overview;
pub mod receiving;
pub mod sessions;
