//! Tests of what a client is told of a refused call by a provider in memory: each cause that a client can bring about, each
//! refusal without a cause, and the texts.
//!
//! By the provider's objects no client can bring about these causes, which `tests_explain` brings about over a core:
//!
//! - `NumberUsed`: the provider gives the numbers of connections, sessions and consumers, each once.
//! - `NotListening`, `NotBusy`: a session that listens sets the listener before it asks for a message, and ends the delivery
//!   of one that came.
//! - `ForeignStamp`: what is sent is a draft, which the session that sends it stamps.
//! - `OtherCaller`: a connection makes a connection's calls alone, and a session and its consumers a session's.
#![tactic(auto)]

#[cfg(test)]
mod bare;
#[cfg(test)]
mod causes;
#[cfg(test)]
mod desk;
#[cfg(test)]
mod meanwhile;
#[cfg(test)]
mod op;
#[cfg(test)]
mod watch;
