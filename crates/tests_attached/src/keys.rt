//! Keys of four families, and consumers that close.

use jm_base::Refusal;
use jm_dest::{ClientId, ConnectionId, ConsumerId, Key, Name, SubscriptionName};
use jm_machine::Consumers;
use std::alloc::Global;
use tests_calls::session;

/// What a key is of.
#[derive(Clone, Copy, PartialEq)]
pub(crate) enum Of {
    /// That consumer of session 1 of connection 1.
    Own(u32),
    /// The shared non-durable subscription g of no client.
    Shared,
    /// The durable subscription g of the client c.
    Durable,
    /// The queue g.
    Queue,
}

fn durable(alloc: Global) -> Result<Key, Refusal> {
    let client = ClientId::new(alloc, "c")?;
    let name = SubscriptionName::new(alloc, "g")?;
    Ok(Key::Durable(Some(client), name))
}

pub(crate) fn key(alloc: Global, of: Of) -> Result<Key, Refusal> {
    match of {
        Of::Own(consumer) => Ok(Key::Own(session(1)?, ConsumerId::new(consumer)?)),
        Of::Shared => Ok(Key::SharedOwn(None, SubscriptionName::new(alloc, "g")?)),
        Of::Durable => durable(alloc),
        Of::Queue => Ok(Key::Queue(Name::new(alloc, "g")?)),
    }
}

/// Which consumers close.
#[derive(Clone, Copy)]
pub(crate) enum Closing {
    OfConnection(u32),
    /// Those of session 1 of that connection.
    OfSession(u32),
    /// That one of session 1 of that connection.
    One(u32, u32),
}

pub(crate) fn meant(closing: Closing) -> Result<Consumers, Refusal> {
    match closing {
        Closing::OfConnection(c) => Ok(Consumers::OfConnection(ConnectionId::new(c)?)),
        Closing::OfSession(c) => Ok(Consumers::OfSession(session(c)?)),
        Closing::One(c, k) => Ok(Consumers::One(session(c)?, ConsumerId::new(k)?)),
    }
}
