//! The fields of scenarios, of their calls and of keys: their names, and their values read of JSON; or why one cannot be
//! read (ours).
//!
//! # Contract
//!
//! A reader answers what the value of its field spells (`specs/Values.antt`, and `draft` of `specs/Drafts.antt`), exactly
//! where it spells something (`Reads`, and `ReadsExactly` where it takes no memory); else its error is not `Memory`, or a
//! request for memory was refused. `Owner` is what has fields: `unknown` is a field of an object exactly where its owner does
//! not have each (`is_known`).
//!
//! Which other fault a reader tells is defined beside what it reads (`specs/Misfits.antt`): `Floating` where a value is a number
//! that is no whole number of 64 bits, else `Shape` of the field, as where it is missing, of another type or out of its range.
//! Only of `draft`, which reads several fields, is not in the contract, but tested, which of their faults it tells.
#![tactic(auto)]

mod drafts;
mod field;
mod misfit;
mod value;

pub use drafts::draft;
pub use field::{Field, FieldName, Owner, not_known, unknown};
pub use misfit::Misfit;
pub use value::{
    client, connection, consumer, consumer_of, destination, held, mark, mode, no_local, now,
    selector, session, session_of, subscription,
};
