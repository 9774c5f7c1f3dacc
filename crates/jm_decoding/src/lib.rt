//! What the rows of a store's tables stand for (ours): stations, messages, held rows and delays, each as its table has it.
//!
//! # Contract
//!
//! `station_of`, `message_of`, `held_of`, `delay_of`: what one row stands for (`IsStationOf`, `IsMessageOf`,
//! `IsHeldOf`, `IsDelayOf`), or that it may not be read (`IsReadableStation`, ..: each column is of its kind, a text
//! is UTF-8, and the row is one that a store writes), or that memory is wanted. `decode_stations`, .. do so for all
//! rows of a table, in their order, or tell the index of the first that may not be read.
//!
//! Its proofs say which rows of a valid file may be read.
#![tactic(auto)]

mod columns;
mod delay;
mod fault;
mod held;
mod key;
mod message;
mod station;
mod tables;

pub use delay::{DelayRow, delay_of};
pub use fault::{RowFault, TableFault};
pub use held::{HeldRow, held_of};
pub use message::{MessageRow, message_of};
pub use station::{StationRow, station_of};
pub use tables::{decode_delays, decode_held, decode_messages, decode_stations};
