//! Why a running core refuses a call: the cause, computed from what the core holds.
//!
//! # Contract
//!
//! `why` answers of a core and a step exactly `why state who call` of `jm_why`, or that a name cannot be shared once more; it
//! changes nothing. With `law_explained` its answer has a cause exactly where the core's reply is IllegalState or
//! SubscriptionInUse. Where the step names a subscription it goes over all consumers that were ever made and over the
//! rows of the subscription.
//!
//! `why` fails only where what is held under a key of a subscription is looked at (`IsNoState`): never for a cause behind an
//! `IllegalState`.
//!
//! `send_why` answers the same, without fail, of a session that publishes one message, of which it needs the sender alone: so
//! a message that is moved into its publication can be gone by then.
#![tactic(auto)]

mod calls;
mod consumers;
mod held;
mod life;
mod named;

pub use calls::{send_why, why};
pub use jm_why::Why;
