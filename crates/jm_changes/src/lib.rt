//! What a planned step changes of what is stored: the list of row changes that a keeper is to write.
//!
//! # Contract
//!
//! `changes` lists what a planned step changes of what is stored: exactly the list that `AreChanges` of `jm_keep`
//! asks for; where the call is not refused, it leads from what is stored before the step to what is stored after it.
//!
//! It reads the step and what is held before it through the trait `Planned`: the keys of subscriptions and queues by
//! index, the first row by place from a place on that is meant (any, one that has lapsed, one that is out through
//! given consumers), a session's mode and consumer, the keys that take each message, which subscription was planned to
//! be put or deleted, and the place of the row that was planned to be taken. A delivery's row is read at that place:
//! no message selector is asked.
//!
//! Rows go before their messages, a delivery time directly before its message, and messages and stations come before
//! their rows, a delivery time directly after its message; whether a message is delayed is read with its row
//! (`Standing`). A listener that is done looks at one key. A message goes with the last stored row that holds it.
//!
//! Listing a settling goes over all keys, and under each over the rows that are out; of each row that goes it is
//! asked under all keys whether a stored row stays at its place (one look at each key). Nothing is listed of a
//! message that is not PERSISTENT, nor under a subscription that is not durable.
#![tactic(auto)]

mod going;
mod listing;
mod lost;
mod planned;
mod sending;
mod settling;
mod subscriptions;

pub use listing::changes;
pub use planned::{Planned, Standing, Which};
