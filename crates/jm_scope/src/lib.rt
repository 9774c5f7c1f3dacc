//! What belongs to the unshared topic subscription of a key, in an opening and a list of entries: its key, its own sessions,
//! the clients of their connections, and its consumers' numbers; and whether a key is that of an unshared subscription.
//!
//! # Contract
//!
//! `Scope` is seen as what belongs to the key in an opening and a list of entries (`scope_of`): the key, its own
//! sessions, their clients, and its consumers' numbers. `is_own` and `is_own_connection` walk over the own sessions;
//! `belongs`, `names` and `deletes` look clients and numbers up by their hash. `is_unshared` is the definition's, and
//! takes no memory.
#![tactic(auto)]

mod clients;
mod naming;
mod numbers;
mod scope;
mod sessions;
mod unshared;

pub use scope::Scope;
pub use unshared::is_unshared;
