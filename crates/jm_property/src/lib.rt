//! The properties of a message: names with values, in the order in which they were first set, and
//! the conversions by which they are read (Jakarta Messaging 3.1, section 3.5).
//!
//! # Contract
//!
//! `Properties` is a list of distinct names with values; a name is found in turn among up to sixteen, and among more
//! by an order of their places that the type's invariant speaks of (`IsIndex`); each typed read answers by the
//! conversion table, `Unset` or `MessageFormat`; a refused `set` leaves all as before.
#![tactic(auto)]

mod identifier;
mod order;
mod properties;
mod property;

pub use identifier::is_identifier;
pub use properties::{Properties, is_settable};
pub use property::Property;
