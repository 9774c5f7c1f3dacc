//! What was stored of a provider, and what of it a core is made of again.

ghost use Rattle.std.specs.Prelude.{◌≡◌};
ghost use Rattle.jm_machine.specs.Under as under;
ghost use Rattle.jm_parts.specs.Stored as spec;

use jm_dest::{Destination, Key, Name};
use jm_header::{DeliveryMode, Message};
use jm_machine::Definition;
use jm_stations::StoredRow;

/// A durable subscription that was stored.
#[derive(Debug, PartialEq, Drop)]
pub struct StoredSubscription {
    pub key: Key,
    pub definition: Definition,
}

/// Who holds a message that was stored.
#[derive(Debug, Drop)]
pub enum Holders {
    /// The queue to which it was sent: the count of its deliveries there, at most 2,147,483,647.
    Queue(u32),
    /// Durable subscriptions, each once: a row of each.
    Subscriptions(Vec<StoredRow>),
}

/// A message that was stored, once for all who hold it.
#[derive(Debug, Drop)]
pub struct StoredMessage {
    /// The place of its publication, from 1 to 9,223,372,036,854,775,807.
    pub place: u64,
    pub message: Message,
    pub holders: Holders,
}

/// Whether the message is stored at all (Jakarta Messaging 3.1, section 3.4.2).
fn is_persistent(message: &Message) -> bool
    ensures { result ≡ under.is_persistent message.now.mode }
{
    match message.mode() {
        DeliveryMode::NonPersistent => false,
        DeliveryMode::Persistent => true,
    }
}

/// Whether a durable subscription that asks for that may hold the stored message: the message is PERSISTENT and goes to the
/// subscription's topic, and the selector is absent or TRUE for it. Takes no memory.
pub fn admits(definition: &Definition, message: &Message) -> bool
    ensures { result ≡ spec.admits definition.now message.now }
{
    is_persistent(message) && definition.is_to(message) && definition.selector.selects(message)
}

/// Whether the queue of that name may hold the stored message: the message is PERSISTENT, and was sent to that queue.
/// Takes no memory.
pub fn queue_admits(name: &Name, message: &Message) -> bool
    ensures { result ≡ spec.queue_admits name.now message.now }
{
    match message.destination() {
        Destination::Queue(queue) => is_persistent(message) && *queue == *name,
        Destination::Topic(_) => false,
    }
}
