//! The laws of the selector grammar (Jakarta Messaging 3.1, section 3.8.1): reading and spelling are
//! one. Nothing here runs.
//!
//! # Contract
//!
//! `law_one_tree`: two trees never spell one list of tokens. `law_fault`: a text has a fault exactly where it is too
//! long, has a lexical fault, or has tokens that no tree spells.
#![tactic(auto)]

mod laws;

pub use laws::{law_fault, law_one_tree};
