//! The call that has listeners work at once, whose requests for memory are refused.
//!
//! # Contract
//!
//! None: the module makes the call of a number, and says so where there is none.
#![tactic(auto)]

pub mod listeners;
