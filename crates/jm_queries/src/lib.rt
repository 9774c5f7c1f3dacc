//! The queries that load a store (ours): the rows of each of its tables, in the order of their keys.
//!
//! # Contract
//!
//! `stations`, `messages`, `held`, `delays`: where the database serves a store (`Serves`), the rows of one table,
//! each column at its index in the tree: messages and delays as they stand, by place (`AreMessages`, `AreDelays`);
//! stations and rows of held all of them, each once, and their keys rise strictly, by family, client and name, and
//! under one key by place (`AreStations`, `AreHeld`).
//!
//! The query is rolled back: nothing is changed. An error has its cause: memory was refused, the disk failed, the
//! database was shut before, or a limit on steps was reached (`IsQueryFault`). Its proofs say that each column of a
//! row of a database that serves a store is of the kind that its table says (`proofs/Columns.antt`).
#![tactic(auto)]

mod asked;
mod tables;

pub use tables::{delays, held, messages, stations};
