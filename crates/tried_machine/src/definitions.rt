//! Connections, consumers, and what subscriptions ask for.

use jm_base::{Refusal, Str};
use jm_dest::{ClientId, ConnectionId, ConsumerId, Key, Name, SessionId, SubscriptionName};
use jm_machine::{ConnectionState, Consumer, Definition};
use jm_selector::Selector;
use std::alloc::{AllocError, Global};
use tests_calls::session;
use tried::{Answer, Called, Made, Trial, same, tell};

/// One of each.
#[derive(Drop)]
struct Definitions {
    number: usize,
    connection: ConnectionState,
    definition: Definition,
    consumer: Consumer,
}

/// The key of a durable subscription of a client.
pub(crate) fn key(alloc: Global) -> Result<Key, Refusal> {
    let name = SubscriptionName::new(alloc, "invoices")?;
    Ok(Key::Durable(Some(ClientId::new(alloc, "billing")?), name))
}

fn text(alloc: Global) -> Result<Option<Str>, AllocError> {
    Ok(Some(Str::new(String::from_str(alloc, "x = 1")?)))
}

fn selector(alloc: Global) -> Result<Selector, Refusal> {
    Selector::read(alloc, &text(alloc)?)
}

fn connection(alloc: Global) -> Result<ConnectionState, Refusal> {
    let id = ConnectionId::new(1)?;
    Ok(ConnectionState {
        id,
        client: Some(ClientId::new(alloc, "billing")?),
        is_started: true,
        is_open: true,
    })
}

pub(crate) fn definition(alloc: Global) -> Result<Definition, Refusal> {
    let topic = Name::new(alloc, "orders")?;
    Ok(Definition {
        topic,
        selector: selector(alloc)?,
        no_local: false,
        shared: false,
    })
}

fn consumer_of(session: SessionId, id: ConsumerId, key: Key, selector: Selector) -> Consumer {
    Consumer {
        session,
        id,
        key,
        selector,
        is_active: true,
        is_listening: false,
        is_busy: false,
    }
}

pub(crate) fn consumer(alloc: Global) -> Result<Consumer, Refusal> {
    let (session, id) = (session(1)?, ConsumerId::new(1)?);
    let selector = selector(alloc)?;
    Ok(consumer_of(session, id, key(alloc)?, selector))
}

fn copied_connection(connection: &ConnectionState) -> Answer {
    match connection.copy() {
        Ok(copy) => Ok(same(&copy, connection)),
        Err(_) => Err(Refusal::Memory),
    }
}

fn copied_consumer(consumer: &Consumer) -> Answer {
    match consumer.copy() {
        Ok(copy) => Ok(same(&copy, consumer)),
        Err(_) => Err(Refusal::Memory),
    }
}

fn copied_definition(definition: &Definition) -> Answer {
    match definition.copy() {
        Ok(copy) => Ok(same(&copy, definition)),
        Err(_) => Err(Refusal::Memory),
    }
}

impl Definitions {
    fn new(alloc: Global, number: usize) -> Result<Definitions, Refusal> {
        Ok(Definitions {
            number,
            connection: connection(alloc)?,
            definition: definition(alloc)?,
            consumer: consumer(alloc)?,
        })
    }
}

impl Trial for Definitions {
    /// The length of the topic's name.
    fn state(&self) -> u64 {
        self.definition.topic.as_str().len() as u64
    }

    fn call(&mut self) -> Called {
        match self.number {
            0 => Called {
                name: "jm_machine ConnectionState::copy",
                answer: copied_connection(&self.connection),
            },
            1 => Called {
                name: "jm_machine Consumer::copy",
                answer: copied_consumer(&self.consumer),
            },
            2 => Called {
                name: "jm_machine Definition::copy",
                answer: copied_definition(&self.definition),
            },
            _ => Called::NONE,
        }
    }
}

/// Makes the call of that number.
pub fn made(alloc: Global, number: usize) -> Made {
    tell(Definitions::new(alloc, number))
}
