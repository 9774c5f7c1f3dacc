//! Scenarios of calls, with forks and joins between them, and keys of subscriptions, as JSON texts spell them; and the lines
//! of replies (ours).
//!
//! # Contract
//!
//! `read_scenario` answers the scenario that the JSON text spells, its items and its limit of held rows where it says
//! one, exactly where it spells one whose forks, joins and calls have their places (`AreWellForked`: fork and join
//! alternate, beginning with a fork, which the end joins where no join does, and between them stand calls by sessions
//! alone).
//!
//! `item_kinds`, `into_calls` and `copy_calls` are the kinds of items and the calls among them; `replies_in_place`
//! puts the replies to calls at their places, where each fork and each join is answered Done (`replies_with_marks`).
//!
//! `read_key` answers the key that a text spells, or none; `write_reply` and `write_replies` are `line` and `lines`.
//! Operations `listener` (`on`), `take` (`now`) and `done` (`ok`) are the calls of listeners.
//!
//! Which field a fault names is not in its contract, nor that a misplaced item is told at its `op` before its other
//! fields are read: both are tested. What the value of a field spells is said in `jm_fields`; `Field` and `FieldName`,
//! which faults name, are given out again.
#![tactic(auto)]

mod call;
mod held;
mod item;
mod key;
mod lines;
mod numbers;
mod outer;
mod outline;
mod parsed;
mod records;
mod scenario;

pub use item::{Item, ItemKind};
pub use jm_fields::{Field, FieldName};
pub use key::read_key;
pub use lines::{write_replies, write_reply};
pub use outline::{copy_calls, into_calls, item_kinds, replies_in_place};
pub use scenario::{Scenario, ScenarioFault, read_scenario};
