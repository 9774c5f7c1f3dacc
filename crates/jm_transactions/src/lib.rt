//! What the entries of a record have said so far of connections, sessions and transactions.
//!
//! # Contract
//!
//! `Transactions` is seen by what the entries of a record have said so far (`course_of`): whether a connection is
//! open, and its client; the mode of a session; where the messages stand that a session has sent since its
//! transaction began. `of` and `note` keep it so that it `Follows` the record; every look-up is by number.
#![tactic(auto)]

mod transactions;

pub use transactions::Transactions;
