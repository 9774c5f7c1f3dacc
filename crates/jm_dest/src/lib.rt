//! Names and numbers that are within the limits: destinations, clients, subscriptions, moments,
//! connections, sessions, consumers, and the key of what is held for a queue or a subscription.
//!
//! # Contract
//!
//! Names, numbers, moments, sessions, destinations and keys that are within the limits: each constructor refuses
//! exactly what the limits refuse (`BadName`, `OutOfRange`). `Key::is` is `key_eq`.
#![tactic(auto)]

mod destination;
mod key;
mod moment;
mod name;
mod number;
mod session;

pub use destination::Destination;
pub use key::Key;
pub use moment::Moment;
pub use name::{ClientId, Name, SubscriptionName};
pub use number::{ConnectionId, ConsumerId, Number};
pub use session::SessionId;
