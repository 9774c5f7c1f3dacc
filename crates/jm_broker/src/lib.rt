//! One lock round the provider's core, its keeper, and the trace of all that was called.
//!
//! # Contract
//!
//! `PlannedCore` is what the lock needs of a core: it plans a step, tells the answer and what changes of what is
//! stored, and installs.
//!
//! `Traced` is seen as the opening core, the position of the first event, the events, the core, the keeper, and the
//! parts of the ledger that are left; by its type the events are legal from the opening and end in the core's state,
//! what a clean keeper has stored is what is stored of that state, and the ledger's total is the first position and
//! the number of events.
//!
//! `apply` answers the machine's reply and leaves its state, and adds one event to the trace and one entry, at its
//! position, to the pass; where the call counts as not made (`Memory`, also past 2^62 events, or `Store`, only where
//! the keeper's count of faults rose or is at its last value) state, trace and pass are as before, and so is what a
//! clean keeper has stored.
//!
//! `cut` hands out the trace so far (`Trace`, legal by its type) and goes on from the core's state, at the next
//! position; it is refused as `Exhausted` where that is above 2^62, or wants memory, and changes nothing then.
//! `split` gives a pass, unless one part is left. `finish` gives all back with the verdict of `gather_last`, and the
//! number of calls of all passes is at most the first position and the number of events, and just that where all parts
//! are handed in. `Broker` is one lock round that:
//!
//! `pass`, `call` and `receive` say what they give or do to the pass handed in (`Noted`, `Received`), and `pass` and
//! `cut` which refusals come: `Exhausted` only as some trace that may stand under the lock (`IsHeld`) has one part left,
//! or ends above 2^62. `finish` is `Traced`'s.
//!
//! The provider's `Core` is such a core: its plan, its copied answer, its listed changes and its install are the
//! lock's. `Call::wakes` says which calls wake all that wait: a start, a publication, a commit, a rollback, a recover, the
//! end of a listener's delivery, or a close, where it is accepted. Nothing is promised of waiting, of waking, or of the
//! order between threads.
#![tactic(auto)]

mod advance;
mod broker;
mod planned;
mod provider;
mod trace;
mod traced;

pub use broker::{Broker, Clock};
pub use jm_audit::{FinishFault, Pass, PassEntry};
pub use planned::PlannedCore;
pub use trace::Trace;
pub use traced::{Finished, MOST, NotMade, Traced};
