//! What a store holds of a provider, and what a stop leaves of it, is a valid file: laws over definitions alone, proved on
//! public functions that do nothing.
//!
//! # Contract
//!
//! `law_valid`: a database that serves a store, has only rows that by themselves are a store's (`HasOwnRows`), and holds
//! what is stored of a state (`IsPersisted`) each of whose rows holds a message that its key may hold (`HoldsMessages`),
//! is a valid file (`IsValid`): each row of held has its station and its message and may stand there, each message is
//! held by somebody, each delay is that of its message, and none lacks one.
//!
//! `law_changed_valid`: a database that has all changes of a valid file and is a store's, as a stop of their write leaves
//! it where it does not leave what it could leave before (`LeavesOr` of `jm_writes`), is a valid file of the same opening,
//! where the changes lead from what is stored of one state to what is stored of another whose rows hold messages
//! (`LeadsTo`). So by induction, from an opening on, each file that a stop may leave is valid.
#![tactic(auto)]

mod law;

pub use law::{law_changed_valid, law_valid};
