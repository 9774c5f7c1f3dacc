//! Plays scenarios: makes the calls of a scenario on a provider, a new one or one over a keeper, and prints the reply of each
//! on a line.
//!
//! # Contract
//!
//! `Source` counts its reads, at most 16,777,217 a command, and notes a failed one; `Sink` notes a failed write and
//! whether all is flushed. `scenario_of` gives the scenario that the source spells, or why there is none.
//!
//! `play` composes the reading of a scenario, `run` on a new provider that keeps nothing, with the limit of held rows
//! that is given, else the scenario's own, else 100,000 (`held_limit`), and the lines of the replies.
//!
//! `play_over` makes the calls of a scenario on the core over the keeper that it is handed, by `jm_kept::run`: the
//! lines are those of replies each of which is the machine's, or was not made (`IsRunOver`), and they are isolated;
//! `Store` comes only where the keeper has failed; where the keeper is clean it has stored what is stored of the
//! state; where the source gives no scenario, core and keeper are as before.
//!
//! Each `Ends`: its whole text flushed with its status, a beginning of it with status 1 where a write failed, or a
//! fault with nothing written; a fault comes only where its cause stands. A want of memory for the lines comes after
//! the calls were made. The lines are those of the run of a scenario's calls, with the line `ok` of each fork and
//! join at its place.
#![tactic(auto)]

mod database;
mod ending;
mod fault;
mod over;
mod provider;
mod reading;
mod runs;
mod scenario;
mod sink;
mod source;

pub use database::DatabaseFault;
pub use ending::{Ending, Printout, ended};
pub use fault::{Fault, KeyFault};
pub use over::{play_over, printout_over};
pub use provider::{OPENING, held_limit, new_core};
pub use reading::scenario_of;
pub use runs::{printout_of, run, status_of};
pub use scenario::play;
pub use sink::Sink;
pub use source::Source;
