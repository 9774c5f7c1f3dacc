//! The opening of a database as a store (ours): its tables are made or carried over, and the number of the opening is raised,
//! in one transaction.
//!
//! # Contract
//!
//! `settle`: each table has its rowids once, and the rows of the last commit; a stop leaves what it could leave before,
//! whatever it answers. `read_meta`: the rows of meta, nothing changed. `judge`: the last opening, or exactly why not.
//! `write`: one transaction that makes or carries over the tables and sets the opening; refused: as before; a stop:
//! before or after.
//!
//! `open_settled` joins them over a settled connection: a blank database gets the tables of version 2 and opening 1,
//! version 1 is carried over, version 2 raised; the result serves a store (`Serves`) and tells the number of the
//! opening, or a fault leaves the rows as before; a stop leaves what was there, or the opened database
//! (`LeavesOpened`). Its cause is exact where the schema is one of ours.
//!
//! `open` takes the connection by value: `settle`, then `open_settled`; an error hands back what is left (`Left`: the
//! connection, or the store alone where it is shut), and what was committed stands. After an opening a crash leaves
//! the opened database (`durable`); one within the call leaves what it could leave before, or what was committed, opened:
//! the same rows, under the next number (`stop`, with `LeavesOf`). The next opening finds that as one of version 2
//! (`opened_is_found`, a lemma).
#![tactic(auto)]

mod by_value;
mod found;
mod judged;
mod memory;
mod opening;
mod outcome;
mod reading;
mod settled;
mod statements;
mod versions;
mod written;

pub use by_value::open;
pub use found::Found;
pub use judged::{LastOpening, OpenFault, TableName, judge};
pub use opening::open_settled;
pub use outcome::{Left, Opened, Unopened};
pub use reading::read_meta;
pub use settled::settle;
pub use written::write;
