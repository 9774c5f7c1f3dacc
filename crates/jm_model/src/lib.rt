//! The lone subscription, executable, and the law of isolation on a core; most laws of the definitions are given out again.
//!
//! # Contract
//!
//! `entries` is `entries_of`, and `expand` the record of events; `lone_replies` answers `alone` for every list of
//! entries, legal or not, or `NotUnshared` exactly where the key is not unshared (`is_unshared`): a consumer's own
//! number names something else in the opening or in a creating call of the list, or a durable one has no client, is
//! shared in the opening, or is asked for as a shared one in the list.
//!
//! It feeds the subscription alone (`Lone`) entry by entry, from an opening whose rows may be out, with what the
//! record has said so far (`Transactions`), so a commit looks nothing up but its own messages; `law_core_isolation`
//! is the law on a core that a caller holds, also for a list that is run on the end of another. It gives those laws of
//! `jm_law` out again that a caller of it cites.
#![tactic(auto)]

mod expanded;
mod fault;
mod law;
mod recorded;
mod replies;

pub use expanded::expand;
pub use fault::LoneFault;
pub use jm_law::{
    law_isolation, law_isolation_of_events, law_one_consumer, law_one_place, law_queue,
    law_reached, law_runs_fit, law_subscription, law_two_worlds,
};
pub use law::law_core_isolation;
pub use recorded::entries;
pub use replies::lone_replies;
