//! The calls of texts, lists, keys, names, properties, drafts and messages that take memory, or that copy what several own, each with
//! what it is made on.
//!
//! # Contract
//!
//! None: each module makes the call of a number, and says so where there is none.
#![tactic(auto)]

pub mod destinations;
pub mod drafts;
mod groups;
pub mod keys;
pub mod lists;
pub mod messages;
pub mod names;
pub mod properties;
pub mod shared;
