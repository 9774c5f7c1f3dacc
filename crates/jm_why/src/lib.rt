//! Why a call is refused: the cause behind an `IllegalState` or a `SubscriptionInUse`.
//!
//! # Contract
//!
//! `why state who call` is defined: the first cause that stands behind a refusal (closed, a number that was used,
//! busy, transacted, a foreign stamp, an active consumer, a row that is out, another kind or definition).
//! `law_explained`: a call that is refused as IllegalState or SubscriptionInUse has a cause of just that refusal, and
//! no other call has one. `jm_explain` computes it.
#![tactic(auto)]

mod cause;
mod law;

pub use cause::Why;
pub use law::law_explained;
