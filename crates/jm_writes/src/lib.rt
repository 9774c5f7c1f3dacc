//! The store's writes: each list of changes is one transaction.
//!
//! # Contract
//!
//! `write` makes all changes of a list in one transaction whose commit is its last call, or none of them, where the
//! disk is clean at its end: what is stored is `changed_all`, the opening stays, the database still serves, and where
//! each of its rows by itself was one of a store's it is so again (`HasOwnRows`). Whatever the moment of a crash, what is
//! left is what could be left before, or has all the changes, and is a store's database again where the rows were
//! (`HasChanges`), and after an accepted write only the latter.
//!
//! `Store` is a `Keep` over any store of the library's: never clean once its connection is shut, it counts each
//! `Device`. Its type keeps that the database is a store's, was committed, and has only rows that by themselves are a
//! store's (`IsOurs`, with `HasOwnRows`): `over` takes a connection of which that is so, in no transaction, as
//! `jm_store::open` has it once the rows were read, and `into_connection` gives it back so. So a crash within its `write`
//! leaves what could be left before, or a store's database that has all the changes (`LeavesOr`, `AreOurs`), and after an
//! accepted one only the latter (`LeavesOnly`).
//!
//! Whatever its `write` answers, each message that is stored is stored by its record, if that was so and the changes
//! bring records alone (`records`; `StoresRecords`, `BringsRecord`); the changes that a call asks for bring records
//! alone where what it publishes are messages (`call_brings`, a lemma). A change that the tables cannot hold, or that
//! would bring a row which is none of a store's, is answered `Device`; that is not in the contract.
#![tactic(auto)]

mod columns;
mod rows;
mod store;
mod transaction;

pub use store::Store;
pub use transaction::write;
