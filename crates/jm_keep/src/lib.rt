//! What is stored of the provider's state, the changes that a step makes of it, and who keeps them.
//!
//! # Contract
//!
//! What is stored of the provider's state (`Stored`: the definition of a durable subscription by its key, the count
//! by key and place, the record by place, the delivery time by place of each message with a delay), what a change
//! makes of it (`changed`, `changed_all`), and that this is what is stored of a state (`IsPersisted`: the definitions
//! of durable subscriptions, and the rows of PERSISTENT messages under them and under queues, waiting or out, and of
//! a message with a delay its delivery time).
//!
//! `RowChange` has an exact copy and `==`. `Keep`: `write` makes all changes in turn or none, and says so of a keeper
//! that is clean at its end; `Device` only where the count of faults has risen in the call, or is at its last value.
//! `keeps` is true where a keeper is clean; one that does not keep is never written to, and says so of its kind
//! (`is_keeping`).
//!
//! `MemKeep` keeps in memory all changes ever made (so it grows): always clean, never `Device`; it tells `changes`,
//! and of a key or a place `definition`, `count`, `message` and `due`, exactly as the changes leave them. `NoKeep`
//! keeps nothing, is never clean, and takes every write. Its specs say which changes each kind of call asks for
//! (`AreChanges`) and state the laws.
#![tactic(auto)]

mod change;
mod keep;
mod memory;

pub use change::RowChange;
pub use keep::{Keep, NoKeep, StoreFault};
pub use memory::MemKeep;
