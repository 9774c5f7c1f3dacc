//! A run of a scenario in which sessions call on threads of their own, over the lock round a core and its keeper, audited at the end
//! (ours).
//!
//! # Contract
//!
//! `run_parts` makes the parts of a scenario at seats in turn (`PartsFit`): a call outside forks at its seat, and what a fork and
//! its join hold as a stretch, each session's calls on a thread of its own. It stops at the first fault, and says which; of
//! that part and of those behind it no call was made (`StopsAt`).
//!
//! `audited` takes core and keeper back from the lock, with the trace, and says whether the passes of the seats account
//! for it (`Audits`).
//!
//! `play_threaded` does both over a core, its keeper and the items of a scenario. Where it tells the replies, one to each call in
//! the order of the items, there are seats at which the parts were made and told so, and a trace that is legal and ends
//! in the core's state, for which their passes account where the verdict is Ok (`PlaysThreaded`). Which state the trace opens
//! with is not said: the lock hides it. Where the keeper is clean, it has stored what is stored of the core's state.
//! Core and keeper come back in every case; `NoSeat` never comes where the items are well forked.
//!
//! Nothing is promised of waiting, or of the order between threads.
#![tactic(auto)]

mod audit;
mod playing;
mod run;
mod threaded;

pub use audit::audited;
pub use jm_broker::FinishFault;
pub use playing::play_threaded;
pub use run::{Stopped, run_parts};
pub use threaded::{Threaded, ThreadedFault, Told};
