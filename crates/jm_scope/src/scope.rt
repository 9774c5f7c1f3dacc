//! What belongs to an unshared topic subscription.

ghost use Rattle.std.specs.Prelude.{◌≡◌, ◌&&◌, IfOk};
ghost use Rattle.jm_machine.specs.Lone as lone;
ghost use Rattle.jm_machine.specs.Machine.{State, station_of, rows_of};
ghost use Rattle.jm_machine.specs.Owns as owns;
ghost use Rattle.jm_machine.specs.Rows.{bare};
ghost use Rattle.jm_scope.specs.Scopes.{scope_seen};

use crate::clients::{client_of, clients_for};
use crate::naming::{is_durable, names_key};
use crate::numbers::{ConsumerNumber, is_made, numbers_for};
use crate::sessions::sessions_for;
use jm_dest::{ClientId, ConnectionId, ConsumerId, Key, SessionId, SubscriptionName};
use jm_machine::find::same_session;
use jm_machine::{ConnectionState, Consumer, Entry, PlacedRow, Request};
use std::alloc::{AllocError, Global};
use std::collections::HashMap;

/// What belongs to an unshared topic subscription, in an opening and a list of entries: its key, its own sessions, the clients
/// of their connections, and its consumers' numbers. Contracts see it as the
/// `Scope` of the definitions (`scope_seen`).
#[derive(Drop)]
pub struct Scope {
    key: Key,
    sessions: Vec<SessionId>,
    /// The client identifiers of all connections, where the key is a durable one's.
    clients: HashMap<ConnectionId, Option<ClientId>>,
    /// Whether a number was made for the key, which may be one of the key.
    numbers: HashMap<ConsumerNumber, bool>,
}

impl Scope {
    /// What belongs to the subscription of the key, by the connections and consumers of an opening, the rows that it holds of
    /// the key's subscription, if any, and the entries that a list of calls leaves. To a queue, and to a shared subscription
    /// that is not durable, nothing belongs. `AllocError` where a request for memory was refused.
    pub fn of(
        alloc: Global,
        key: &Key,
        connections: &[ConnectionState],
        consumers: &[Consumer],
        rows: &[PlacedRow],
        entries: &[Entry],
    ) -> Result<Scope, AllocError>
        ensures { (opening : State) → opening.life.connections ≡ connections.now → opening.consumers ≡ consumers.now
            → rows_of (station_of key.now opening.stations) ≡ bare rows.now
            → IfOk result (λ scope. scope_seen scope ≡ lone.scope_of key.now opening entries.now) }
    {
        let clients = clients_for(alloc, key, connections, entries)?;
        let sessions = sessions_for(alloc, key, &clients, consumers, rows, entries)?;
        let numbers = numbers_for(alloc, key, &clients, consumers, entries)?;
        Ok(Scope {
            key: key.copy()?,
            sessions,
            clients,
            numbers,
        })
    }

    /// The key of the subscription.
    #[tactic(auto, unfolding(crate::specs::Scopes::scope_seen))]
    pub fn key(&self) -> &Key
        ensures { result.now ≡ (scope_seen self.now).key }
    {
        &self.key
    }

    /// Whether the session is an own one.
    #[tactic(auto, unfolding(crate::specs::Scopes::scope_seen))]
    pub fn is_own(&self, session: &SessionId) -> bool
        ensures { result ≡ owns.is_own (scope_seen self.now).sessions session.now }
    {
        self.sessions.iter().any(|own| same_session(session, own))
    }

    /// Whether the connection is that of an own session.
    #[tactic(auto, unfolding(crate::specs::Scopes::scope_seen))]
    pub fn is_own_connection(&self, id: ConnectionId) -> bool
        ensures { result ≡ owns.is_own_connection (scope_seen self.now).sessions id }
    {
        self.sessions.iter().any(|own| own.connection == id)
    }

    /// Whether the session's consumer of that number is one of the subscription.
    #[tactic(auto, unfolding(crate::specs::Scopes::scope_seen))]
    pub fn belongs(&self, session: &SessionId, id: ConsumerId) -> bool
        ensures { result ≡ lone.belongs (scope_seen self.now) session.now id }
    {
        is_made(&self.numbers, session, id) && self.is_own(session)
    }

    /// Whether the session is an own one, and its request creates a consumer and names the key by its own words.
    pub fn names(&self, session: &SessionId, request: &Request) -> bool
        ensures { result ≡ (owns.is_own (scope_seen self.now).sessions session.now && lone.names_key (scope_seen self.now).key (scope_seen self.now).clients session.now request.now) }
    {
        let client = client_of(&self.clients, session.connection);
        names_key(&self.key, client, session, request) && self.is_own(session)
    }

    /// Whether the session is an own one, and means the key by the name of a durable subscription that it deletes.
    pub fn deletes(&self, session: &SessionId, name: &SubscriptionName) -> bool
        ensures { result ≡ (owns.is_own (scope_seen self.now).sessions session.now && lone.deletes_key (scope_seen self.now).key (scope_seen self.now).clients session.now name.now) }
    {
        let client = client_of(&self.clients, session.connection);
        is_durable(&self.key, client, name) && self.is_own(session)
    }
}
