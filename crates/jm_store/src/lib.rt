//! The store of a provider (ours): a database that holds what outlasts the process. It is opened and loaded into a core, and keeps
//! what the steps of that core change.
//!
//! # Contract
//!
//! Names what callers need of the store: `open`, `Reopened`, `close`, `Store`, `Unopened`, `Left`, `OpenFault`, `TableName`.
//!
//! `open` is `jm_opening::open`, then `load`: while the disk is clean and the connection open, the database is what
//! was committed, opened with the number of the core's opening (`IsOpenedAgain`), the core's limit is the one that
//! was given, what is stored of the core is what its tables hold, and a crash leaves that database and nothing else.
//!
//! What a store writes is valid as a whole: the core of an opening holds messages that their keys may hold (`holds`, with
//! `HoldsMessages` of `jm_holds`), so does each core that steps lead to which publish messages (`law_steps_hold`, there), and
//! where the tables hold what is stored of such a core, `close` hands back a valid file (`valid`), which the next opening does
//! not tell as damaged (`valid_is_undamaged`, a lemma). So is what a stop leaves: after an opening the database is a valid file
//! (`valid`), and nothing else may be left (`durable`); within one it leaves what it could leave before, or the opened database
//! (`stop`), and a valid file where it was one (`stop_valid`); a write of changes leaves what could be left before or a store's
//! database that has them all (`stop` of `Store`, in `jm_writes`), which is valid again where they lead to a core that holds
//! messages (`law_changed_valid` of `jm_valid`).
//!
//! A refusal hands back what is left: as it was, or opened, where what it holds could not be loaded; and then the
//! fault is the first of what it holds (`IsLeft`, with `IsFaultOf` of `jm_load`), which of a database that was valid
//! is Memory or Store (`valid_is_undamaged`, a lemma).
#![tactic(auto)]

mod closing;
mod opening;

pub use closing::close;
pub use jm_opening::{Left, OpenFault, TableName, Unopened};
pub use jm_writes::Store;
pub use opening::{Reopened, open};
