//! What is stored of a core that was made of what was stored: the same again. A law, over definitions alone, proved on a
//! public function that does nothing.
//!
//! # Contract
//!
//! `law_reopened`: what is stored of a core that `Core::reopen` made is what it was made of (`ReopenedIsGiven`:
//! `IsPersisted` of `state_stored` and `given`), where somebody holds each message; the delivery times of delayed
//! messages too.
#![tactic(auto)]

mod law;

pub use law::law_reopened;
