ghost use Rattle.std.specs.Prelude.{◌≡◌, IfOk};
ghost use Rattle.jm_machine.specs.Machine as machine;

use jm_base::{List, Mode};
use jm_dest::{ClientId, ConnectionId, ConsumerId, Destination, Key, Name, SessionId};
use jm_header::Message;
use jm_selector::Selector;
use std::alloc::{AllocError, Global};

/// A connection that was opened.
#[derive(Clone, Debug, PartialEq, Drop)]
pub struct ConnectionState {
    pub id: ConnectionId,
    /// The client for which it was opened, if any, until it closes.
    pub client: Option<ClientId>,
    pub is_started: bool,
    /// A connection that was closed stays known, and is not opened again.
    pub is_open: bool,
}

/// A session that was opened.
#[derive(Clone, Copy, Debug, PartialEq, Eq)]
pub struct SessionState {
    pub id: SessionId,
    pub mode: Mode,
    /// A session that was closed stays known, and is not opened again.
    pub is_open: bool,
}

/// A consumer that was made.
#[derive(Clone, Debug, PartialEq, Drop)]
pub struct Consumer {
    pub session: SessionId,
    pub id: ConsumerId,
    /// What it receives from.
    pub key: Key,
    /// Which messages of a queue it takes; that of a topic's consumer stands with the subscription.
    pub selector: Selector,
    /// A consumer that was closed stays known, without its selector, and is not made again.
    pub is_active: bool,
    /// Whether its listener was set, and not taken away since.
    pub is_listening: bool,
    /// Whether its listener was given a message, and is not done with it. A consumer that was closed keeps both marks, and
    /// neither listens nor is busy.
    pub is_busy: bool,
}

/// What a subscription asks for.
#[derive(Clone, Debug, PartialEq, Drop)]
pub struct Definition {
    pub topic: Name,
    /// The selector as it was handed in, and none where its text holds no token.
    pub selector: Selector,
    /// Whether it asks for no message that a local publisher sends: of a consumer's own subscription its own connection,
    /// of a durable one a connection with its client identifier.
    pub no_local: bool,
    /// Whether it may have more than one active consumer.
    pub shared: bool,
}

/// Where a row is (ours).
#[derive(Clone, Copy, Debug, PartialEq, Eq)]
pub enum RowState {
    /// It waits for a delivery.
    Waiting,
    /// It was delivered to the session through that consumer, and is not settled.
    Out(SessionId, ConsumerId),
}

/// A message that is held for a subscription, with the count of its deliveries.
#[derive(Clone, Debug, PartialEq, Drop)]
pub struct Row {
    pub message: Message,
    pub count: u32,
    pub state: RowState,
}

/// A row at the place of its publication, from 1.
#[derive(Clone, Debug, PartialEq, Drop)]
pub struct PlacedRow {
    pub place: u64,
    pub row: Row,
}

/// What is held under a key: a subscription with its definition and its rows, by place.
#[derive(Debug, PartialEq, Drop)]
pub struct Station {
    pub key: Key,
    pub definition: Definition,
    /// How many publications did not come to it, since it was at its limit; at 2^64-1 it stays.
    pub missed: u64,
    pub rows: List<PlacedRow>,
}

/// An equal client identifier, or none. `AllocError` where a request for memory was refused.
pub fn copy_client(client: &Option<ClientId>) -> Result<Option<ClientId>, AllocError>
    ensures { IfOk result (λ copy. copy ≡ client.now) }
{
    client.clone()
}

impl ConnectionState {
    /// An equal connection. `AllocError` where a request for memory was refused.
    pub fn copy(&self) -> Result<ConnectionState, AllocError>
        ensures { IfOk result (λ copy. copy ≡ self.now) }
    {
        ConnectionState::clone(self)
    }
}

impl Consumer {
    /// An equal consumer. `AllocError` where a request for memory was refused.
    pub fn copy(&self) -> Result<Consumer, AllocError>
        ensures { IfOk result (λ copy. copy ≡ self.now) }
    {
        Consumer::clone(self)
    }

    /// Closes it: its number, its key and its marks stay, and its selector goes. One that was closed stays as it is. Takes no
    /// memory.
    pub fn close(&mut self)
        ensures { self.new ≡ machine.shut self.old }
    {
        if self.is_active {
            self.is_active = false;
            self.selector.clear();
        }
    }
}

impl Definition {
    /// An equal definition. `AllocError` where a request for memory was refused.
    pub fn copy(&self) -> Result<Definition, AllocError>
        ensures { IfOk result (λ copy. copy ≡ self.now) }
    {
        Definition::clone(self)
    }

    /// Whether the message goes to the subscription's topic.
    pub fn is_to(&self, message: &Message) -> bool
        ensures { result ≡ machine.is_to self.now.topic message.now.destination }
    {
        match message.destination() {
            Destination::Queue(_) => false,
            Destination::Topic(name) => self.topic == *name,
        }
    }
}

impl Row {
    /// An equal row. `AllocError` where a request for memory was refused.
    pub fn copy(&self) -> Result<Row, AllocError>
        ensures { IfOk result (λ copy. copy ≡ self.now) }
    {
        Row::clone(self)
    }
}

impl PlacedRow {
    /// An equal row. `AllocError` where a request for memory was refused.
    pub fn copy(&self) -> Result<PlacedRow, AllocError>
        ensures { IfOk result (λ copy. copy ≡ self.now) }
    {
        PlacedRow::clone(self)
    }
}

fn copy_rows(alloc: Global, rows: &List<PlacedRow>) -> Result<List<PlacedRow>, AllocError>
    ensures { IfOk result (λ copies. copies ≡ rows.now) }
{
    Ok(List::new(rows.as_slice().to_vec(alloc)?))
}

impl Station {
    /// An equal station. `AllocError` where a request for memory was refused.
    pub fn copy(&self, alloc: Global) -> Result<Station, AllocError>
        ensures { IfOk result (λ copy. copy ≡ self.now) }
    {
        let rows = copy_rows(alloc, &self.rows)?;
        Ok(Station {
            key: self.key.copy()?,
            definition: self.definition.copy()?,
            missed: self.missed,
            rows,
        })
    }
}
