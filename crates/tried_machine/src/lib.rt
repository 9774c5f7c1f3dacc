//! The calls that take memory of what is asked of the provider, of what it answers and of what it holds, and of what is kept: copies,
//! each with what it is made of, and the counts of active consumers.
//!
//! # Contract
//!
//! None: each module makes the call of a number, and says so where there is none.
#![tactic(auto)]

pub mod answers;
pub mod attached;
pub mod calls;
pub mod changes;
pub mod definitions;
pub mod stations;
