//! A provider of messages that a service embeds: connections, sessions and consumers in the names of Jakarta Messaging, over
//! one lock round a backend: a core with its keeper, or in tests one that is audited.
//!
//! # Contract
//!
//! What makes the calls under its lock is a `Backend`, whose step is told the machine's reply and leaves the machine's
//! state, or counts as not made and leaves the state; what it does beside is the backend's own to say (`IsStep`). A message that
//! a send publishes is handed to it, and of that is said what is of the step that publishes it alone (`publication`). `Plain`, a
//! core with its keeper, carries by its type that where the keeper is clean what it has stored is what is stored of the core's
//! state, and its step has the clauses of `jm_kept::step`, under the lock too (`IsKeptStep` in `specs/Locked.antt`;
//! `Shared::apply` and `Shared::publish`, clause `backend`). Through the lock a call is told the machine's reply to its request
//! in some state that the provider reaches, or counts as not made (`Told`).
//!
//! `send` stamps the draft and publishes it, and tells its number; in a transacted session it waits behind all that waited
//! (`Sends`). A commit or a rollback that is refused leaves all that waits; one that is accepted leaves nothing.
//!
//! `listen` has a listener handle messages (`Listens` in `specs/Listening.antt`): it is set, and in each turn a message
//! is taken, the listener handles just that, its delivery is ended, well just where it answered `Ok`, and the call that it
//! names is accepted, a commit of all that waits; and it is taken away. A refusal is that of the first call that is refused;
//! that the listener is taken away after one is only tested.
//!
//! A listener is a `Listener`, or a `SessionListener`, which is lent its session and may say by a ghost member what it does
//! (`handles_in`); a `Listener` is one that leaves the session as it is.
//!
//! `overview` tells how many connections and sessions are open, how many consumers are active, how many subscriptions
//! there are, and how many messages these and the queues hold, in one state that the provider reaches (`IsOverview`). Of
//! waiting nothing is said.
//!
//! A refusal is told as an `Error`, which contracts see as the refusal and its cause. Of an `IllegalState` or a
//! `SubscriptionInUse` that the machine replies, `Error::cause` is exactly `why` (`jm_why`) of the state in which the call
//! was refused, found under the same hold of the lock (`IsToldIn` in `specs/Told.antt`; `Shared::apply` and `Shared::publish`,
//! clause `told`), but that it may be absent for a `SubscriptionInUse`, where memory was wanted to find it. No other refusal has
//! a cause.
#![tactic(auto)]

mod backend;
mod connection;
mod consumer;
mod lent;
mod listening;
mod overview;
mod plain;
mod provider;
mod session;
mod shared;
mod texts;
mod time;
mod waiting;

pub use backend::Backend;
pub use connection::Connection;
pub use consumer::Consumer;
pub use jm_base::{MessageFault, Mode, Refusal};
pub use jm_dest::Destination;
pub use jm_error::Error;
pub use jm_header::{Body, DeliveryMode, Draft, Message};
pub use jm_listener::{After, Listener, ListenerFault};
pub use jm_machine::Delivery;
pub use jm_why::Why;
pub use lent::SessionListener;
pub use overview::Overview;
pub use plain::Plain;
pub use provider::Provider;
pub use session::Session;
