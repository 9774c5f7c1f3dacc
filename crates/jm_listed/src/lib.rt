//! What a step that is planned on the core changes of what is stored.
//!
//! # Contract
//!
//! `changes` lists what a step changes of what is stored that was planned on the core as it stands, of takes and of what is done,
//! too: exactly
//! `AreChanges` of `jm_keep`, and it leads from what is stored before the step to what is stored after it. It wants
//! memory for copies of keys and for records alone.
#![tactic(auto)]

mod listing;
mod planned;

pub use listing::changes;
