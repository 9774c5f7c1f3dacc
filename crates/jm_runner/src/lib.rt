//! The runner: makes the calls of a scenario on the provider and prints the reply of each on a line, or
//! over a store where one is named, and with threads where that is asked for; or
//! prints the value of a selector over each send of a scenario, or what one subscription alone answers.
//!
//! # Contract
//!
//! Its commands end as `play` does.
//!
//! `pick` composes the lines of a selector and a scenario's sends; `lone` those of a run with the scenario's own
//! limit, its record, and the lone subscription's replies, and these are the lines of the replies that the run gave
//! to the key's calls, with their numbers, where the numbers of the key's consumers name nothing else (`IsOfRun`, by
//! the law); `perform` does what the words ask for, with the databases that are handed in (`Performs`): a run is
//! `play`, or where the words name a store, the database of that name is opened first, which is told as a fault where
//! that fails, with nothing read or written (`IsUnopened`), and then it is `play_stored` over a connection that this
//! name opens (`IsStored`). Where the words ask for threads it is `play_on_threads`, or `play_stored_on_threads`
//! (`IsStoredOnThreads`); and else what is called is not handed the runtime, so that it starts no thread. Which name opens
//! what is said by the databases (`opens` of `Databases`).
//!
//! It asks nothing of the words but that a limit of held rows is one, and of the blank that its ledger has `PARTS`
//! parts. `run_program` is the whole program over a runtime and a writer for faults, and has no contract: nothing is
//! known of a process's words and files.
//!
//! `play_stored` reads a scenario, opens and loads the store of a connection, makes the calls over it, and hands the
//! connection back: each reply is the machine's or counts as not made, the replies are isolated, and while the store
//! is clean it holds what is stored of the state that they lead to, which was loaded from what was committed
//! (`PlaysStored`); a store that is not opened is told as its fault, and stands as it was or opened
//! (`RefusesStored`), but that a want of memory says nothing of it.
//!
//! `play_on_threads` reads a scenario, makes its calls on a new provider as `jm_threaded` makes them, each session's between a
//! fork and its join on a thread of its own, and prints the line of each reply at the place of its call: what the calls were told
//! fits the seats at which they were made, whose passes are audited beside a legal trace (`PlaysOnThreads`).
//! `play_stored_on_threads` does so over the store of a connection: faults, what is left and what was loaded are as
//! `play_stored` says, and while the store is clean it holds what is stored of the state in which the trace ends
//! (`PlaysStoredOnThreads`). The audit's verdict is not printed; the status is 3 where memory was wanted for it. Which state
//! the trace begins with is not said, nor anything of waiting, or of the order between threads.
//!
//! A run on a new provider without threads has the limit of held rows that is given, else the scenario's own, else 100,000
//! (`held_limit`); which limit the core of a run over a store, or on threads, has is in no clause. The numbers that `select`
//! and `lone` print are those of items: forks and joins count too.
#![tactic(auto)]

mod command;
mod databases;
mod program;
mod remembering;
mod select;
mod stored;
mod subscription;
mod threaded;

pub use command::perform;
pub use databases::Databases;
pub use jm_play::{Ending, Fault, KeyFault, Sink, Source, play};
pub use program::run_program;
pub use select::pick;
pub use stored::{Played, play_stored};
pub use subscription::lone;
pub use threaded::{PARTS, play_on_threads, play_stored_on_threads};
