//! The embedded provider with an audit, for tests of a service: its calls by the same names, each noted in a trace and in a pass.
//!
//! # Contract
//!
//! `Audited` is a backend of `jm_client`, over `Traced` (`jm_broker`). It is seen as the trace with its core and keeper, those
//! who called, in the order of their first calls, and the pass of each: of a connection, or of a session with its consumers.
//! `call` has the clauses of `Traced::apply`: a call that is made adds one event to the trace and one entry, at its position
//! and with its reply, to the caller's pass, and the other passes stay (`IsNoted` in `specs/Audits.antt`); one that counts as
//! not made adds none (`IsUnnoted`). A message that a send publishes is published by such a call, or counts as not made.
//!
//! `finish` takes all back, with the trace, which is legal by its type, and the verdict of `gather_last` over all passes; so
//! many calls were made with these as the trace has events, from the first on. `in_memory` makes such a provider over a new
//! core. `Audited_sync` of `proofs/Sends.antt`: threads may share it where they may share the runtime, and where the keeper
//! may cross threads; whoever starts threads over it cites it.
#![tactic(auto)]

mod audited;
mod callers;
mod provider;

pub use audited::Audited;
pub use jm_broker::{FinishFault, Finished, NotMade, Trace};
pub use provider::{PARTS, in_memory, shared_by};
