//! The parts of a scenario, where the calls between a fork and its join are one part, and the sessions that make calls
//! in parts (ours).
//!
//! # Contract
//!
//! `parts_of` parts the items of a scenario (`parts`): a call outside forks is a part of its own, and the calls
//! between a fork and its join, or the end of the items, are one together. No call is lost, and none comes twice: the
//! calls of the parts, one after another, are those of the items. Where the items are well forked
//! (`AreWellForked`), what is together is by sessions alone.
//!
//! `sessions_of` lists the sessions that make a call in parts, and no others, each once, in order of first call
//! (`sessions_of`).
#![tactic(auto)]

mod part;
mod parting;
mod sessions;

pub use part::Part;
pub use parting::parts_of;
pub use sessions::sessions_of;
