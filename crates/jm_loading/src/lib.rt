//! What the rows of a store's tables make together (ours): the durable subscriptions and the messages that a core is made of
//! again, or the first row that does not fit the others.
//!
//! # Contract
//!
//! `assemble` makes of decoded rows the durable subscriptions, in the order of their keys, and the messages, by place
//! and with who holds them: they may be made a core of (`MayReopen`), somebody holds each message, and they say the
//! same as the rows (`AreSaid`, pointwise: definitions, counts, records, delivery times). `reopened` makes the core,
//! and what the rows say is what is stored of its state (`IsPersisted`); where the rows have messages, and no selector that
//! is refused, each row of it holds a message that its key may hold (`holds`, with `HoldsMessages` of `jm_holds`).
//!
//! A refusal as Damaged is exact (`IsFirstFault`): the row that is named is the first, in the order station, message,
//! held, delayed, that does not stand behind the one before by its key or says what the others do not allow
//! (`IsKnown`, `IsPlaced`, `IsHeld`, `IsDelayed`); or all rows fit (`AreAllFit`) and it is the first message that
//! nobody holds or that is delayed and has no row (`IsKept`).
//!
//! Only a want of memory may come in place of it. The limit of the core is the one that was given.
#![tactic(auto)]

mod assembled;
mod delays;
mod holders;
mod messages;
mod order;
mod reopening;
mod stations;
mod taking;

pub use assembled::{Assembled, assemble};
pub use reopening::reopened;
