//! What a provider holds are messages: laws over definitions alone, each proved on a public function that does nothing.
//!
//! # Contract
//!
//! `law_steps_hold`: where each row of a state holds a message that its queue or its subscription may hold, sent to the
//! queue, or to the subscription's topic and selected, at a place from 1 on, and no subscription has a selector that is
//! refused (`HoldsMessages`), it is so after each call that publishes messages alone. `law_events_hold` says it of a list
//! of events, and `law_new_holds` that it is so of a new core. That it is so of a core that was made of a store's rows is
//! a clause of what makes it (`holds` of `reopened` in `jm_loading`, of `load` in `jm_load`, of `open` in `jm_store`).
#![tactic(auto)]

mod law;

pub use law::{law_events_hold, law_new_holds, law_steps_hold};
