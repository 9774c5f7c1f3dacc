//! The rows of one subscription, in order, as the subscription alone holds them.
//!
//! # Contract
//!
//! `Rows` is seen as the rows of one subscription, in order, without their places, of which there may be any number.
//! `new` has no rows; `of` takes rows up as they are, waiting or out, with their counts. `len` is their number, which
//! is found without a walk. `push` puts the row of a message that comes behind all others. `clear` drops all.
//!
//! `receive` answers the machine's `delivery` of the next row and changes the rows by the machine's `deliver`, as the
//! mode says (`left_of`). `settle` and `give_back` are of the rows that are out through consumers that are meant
//! (`Consumers`). `take` delivers the next row, which goes out to the session through its consumer.
//!
//! Where memory is wanted, `push`, `receive` and `take` leave all as before; but for these and `of`, none takes
//! memory.
#![tactic(auto)]

mod rows;

pub use rows::Rows;
