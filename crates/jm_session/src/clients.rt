//! Which clients have an open connection.

ghost use Rattle.std.specs.Prelude.{◌≡◌, ◌≤◌, ◌+◌, [], ℕ, List, true, false, ◌||◌, ◌&&◌, not, Some, IfOk, OnOk, OnErr};
ghost use Rattle.jm_machine.specs.Life.{is_client_open};
ghost use Rattle.jm_session.specs.Clients.{IsIndexOf, has_client, is_indexed, room};

use jm_dest::{ClientId, ConnectionId};
use jm_indexed::KeyMap;
use jm_machine::ConnectionState;
use std::alloc::{AllocError, Global};

/// The clients of open connections, each found by halves, with the connection that has it. An entry is a copy, for which memory may be
/// refused: then a client is not here, and a look-up is by a walk, until all are gathered again.
pub(crate) struct Clients {
    owners: KeyMap<ClientId, ConnectionId>,
    has_all: bool,
}

impl Drop for Clients {
    fn drop(self) {
        let Clients {
            owners: _owners,
            has_all: _,
        } = self;
    }
}

fn has(connection: &ConnectionState, client: &ClientId) -> bool
    ensures { result ≡ has_client connection.now client.now }
{
    match &connection.client {
        Some(own) => connection.is_open && own == client,
        None => false,
    }
}

impl Clients {
    /// No connection is open. Takes no memory.
    pub(crate) fn new(alloc: Global) -> Clients
        ensures clients { IsIndexOf [] result }
        ensures all { result.has_all ≡ true }
    {
        Clients {
            owners: KeyMap::new(alloc),
            has_all: true,
        }
    }

    /// The clients of the open ones among the connections. `AllocError` where a request for memory was refused.
    pub(crate) fn of(alloc: Global, connections: &[ConnectionState]) -> Result<Clients, AllocError>
        ensures clients { IfOk result (IsIndexOf connections.now) }
        ensures all { IfOk result (λ clients. clients.has_all ≡ true) }
    {
        let mut clients = Clients::new(alloc);
        for connection in connections {
            clients.add(connection)?;
        }
        Ok(clients)
    }

    /// Whether an open one among the connections has the client.
    pub(crate) fn include(&self, client: &ClientId, connections: &[ConnectionState]) -> bool
        requires { self.now.has_all ≡ true → IsIndexOf connections.now self.now }
        ensures { result ≡ is_client_open connections.now client.now }
    {
        if self.has_all {
            self.owners.contains_key(client)
        } else {
            connections.iter().any(|x| has(x, client))
        }
    }

    /// Adds the client of the connection, where it is open and has one. `AllocError` where a request for memory was
    /// refused; then the clients are as before.
    #[tactic(auto, unfolding(crate::specs::Clients::room))]
    fn add(&mut self, connection: &ConnectionState) -> Result<(), AllocError>
        ensures ok { OnOk result ((client : List ℕ) → is_indexed self.new client ≡ (is_indexed self.old client || has_client connection.now client)) }
        ensures all { self.new.has_all ≡ self.old.has_all }
        ensures room { room self.old ≤ room self.new + 1 }
    {
        if !connection.is_open {
            return Ok(());
        }
        let Some(client) = &connection.client else {
            return Ok(());
        };
        if self.owners.contains_key(client) {
            return Ok(());
        }
        self.owners.reserve(1)?;
        self.owners.insert(client.copy()?, connection.id);
        Ok(())
    }

    /// Notes the client of the connection, where it is open and has one. Where a request for memory was refused, not all
    /// clients are here from then on.
    #[tactic(auto, unfolding(crate::specs::Clients::room))]
    pub(crate) fn note(&mut self, connection: &ConnectionState)
        ensures clients { self.new.has_all ≡ true → (client : List ℕ) → is_indexed self.new client ≡ (is_indexed self.old client || has_client connection.now client) }
        ensures all { self.new.has_all ≡ true → self.old.has_all ≡ true }
        ensures room { room self.old ≤ room self.new + 1 }
    {
        if self.add(connection).is_err() {
            self.has_all = false;
        }
    }

    /// Takes out the client of the connection, where it is open and has one. Takes no memory.
    #[tactic(auto, unfolding(crate::specs::Clients::room))]
    pub(crate) fn free(&mut self, connection: &ConnectionState)
        ensures clients { (client : List ℕ) → is_indexed self.new client ≡ (is_indexed self.old client && not (has_client connection.now client)) }
        ensures all { self.new.has_all ≡ self.old.has_all }
        ensures room { room self.old ≤ room self.new }
    {
        if !connection.is_open {
            return;
        }
        if let Some(client) = &connection.client {
            self.owners.remove(client);
        }
    }

    /// Gathers the clients of the open ones among the connections again; there is as much room as before. `AllocError`
    /// where a request for memory was refused; then the clients are as before.
    #[tactic(auto, unfolding(crate::specs::Clients::room))]
    fn gather(&mut self, alloc: Global, connections: &[ConnectionState]) -> Result<(), AllocError>
        ensures ok { OnOk result (IsIndexOf connections.now self.new) }
        ensures all { OnOk result (self.new.has_all ≡ true) }
        ensures err { OnErr result (self.new ≡ self.old) }
        ensures room { room self.old ≤ room self.new }
    {
        let mut gathered = Clients::of(alloc, connections)?;
        gathered.owners.reserve(self.owners.spare())?;
        *self = gathered;
        Ok(())
    }

    /// Makes room for `n` more, and gathers the clients of the open ones among the connections again where not all are
    /// here. `AllocError` where a request for memory was refused.
    #[tactic(auto, unfolding(crate::specs::Clients::room))]
    pub(crate) fn reserve(
        &mut self,
        alloc: Global,
        connections: &[ConnectionState],
        n: usize,
    ) -> Result<(), AllocError>
        requires { self.old.has_all ≡ true → IsIndexOf connections.now self.old }
        ensures clients { self.new.has_all ≡ true → IsIndexOf connections.now self.new }
        ensures all { OnOk result (self.new.has_all ≡ true) }
        ensures room { OnOk result (n ≤ room self.new) }
        ensures spare { room self.old ≤ room self.new }
    {
        if !self.has_all {
            self.gather(alloc, connections)?;
        }
        self.owners.reserve(n)
    }
}
