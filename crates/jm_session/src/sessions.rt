//! What was opened and made, by number.

ghost use Rattle.std.specs.Prelude.{◌≡◌, ◌+◌, ◌<◌, ◌≤◌, ◌++◌, [], ◌∷◌, map, filter, not, true, false, is_ok, is_some, option_to_list, IfOk, IfErr, OnOk, OnErr, None, if◌then◌else◌};
ghost use Rattle.std.specs.List.{list_any};
ghost use Rattle.std.specs.Option.{option_copied};
ghost use Rattle.jm_base.specs.declared.refusal.Refusal.TheVariants.{IllegalState};
ghost use Rattle.jm_machine.specs.declared.call.Who.TheVariants.{Connection, Session};
ghost use Rattle.jm_machine.specs.declared.call.Request.TheVariants.{Open, Start, Stop, CloseConnection, CreateSession, CloseSession};
ghost use Rattle.jm_dest.specs.Keys.{key_eq};
ghost use Rattle.jm_machine.specs.Attached.{AreCounted, is_named};
ghost use Rattle.jm_machine.specs.Life as life;
ghost use Rattle.jm_machine.specs.Machine as machine;
ghost use Rattle.jm_session.specs.Known.{cause, life_set, may_set_busy, open_cause};

use crate::clients::Clients;
use crate::closing::{close_session, close_sessions};
use crate::copies::copied_keys;
use crate::one::{one_connection, one_open, one_session};
use crate::roster::Roster;
use crate::source::Source;
use indexmap::IndexMap;
use jm_base::{Mode, Refusal};
use jm_dest::{ClientId, ConnectionId, ConsumerId, Key, SessionId};
use jm_indexed::KeySet;
use jm_machine::{Attached, ConnectionState, Consumer, Consumers, SessionState};
use std::alloc::{AllocError, Global};
use std::marker::Model;

/// The connections and sessions that were opened, and the consumers that were made in them, each in
/// order and found by its number, and the numbers of the open sessions. Contracts see the connections and
/// sessions as the machine's `Life`, the consumers as its list, and `spare`, for how many more calls there is room.
pub struct Sessions {
    alloc: Global,
    connections: IndexMap<ConnectionId, ConnectionState>,
    sessions: IndexMap<SessionId, SessionState>,
    opened: KeySet<SessionId>,
    roster: Roster,
    clients: Clients,
}

impl Drop for Sessions {
    fn drop(self) {
        let Sessions {
            alloc: _alloc,
            connections: _connections,
            sessions: _sessions,
            opened: _opened,
            roster: _roster,
            clients: _clients,
        } = self;
    }
}

impl Model for Sessions {
    ghost use Rattle.std.specs.Prelude.{◌≡◌, min, true};
    ghost use Rattle.indexmap.specs.IndexMap.{spare, values};
    ghost use Rattle.jm_session.specs.Clients.{AreClientsApart, IsIndexOf, room};
    ghost use Rattle.jm_session.specs.Known.{Known};

    ghost Value = { Known };

    ghost use Rattle.jm_session.specs.Numbers.{IsNumbered};
    ghost use Rattle.jm_session.specs.Opened.{AreOpen};

    ghost view = { λ s. record {
      life = record { connections = values s.connections; sessions = values s.sessions };
      consumers = s.roster.consumers;
      spare = min (min (spare s.connections) (room s.clients)) (min (min (spare s.sessions) s.opened.spare) s.roster.spare);
    } };

    ghost invariant = { λ s.
        IsNumbered (λ x. x.id) s.connections.entries
        × IsNumbered (λ x. x.id) s.sessions.entries
        × AreClientsApart (values s.connections)
        × (s.clients.has_all ≡ true → IsIndexOf (values s.connections) s.clients)
        × AreOpen (values s.sessions) s.opened };
}

/// The same connections, under the same numbers. `AllocError` where a request for memory was refused.
#[tactic(auto, using(crate::proofs::Found::same_entries))]
fn copied_connections(
    connections: &IndexMap<ConnectionId, ConnectionState>,
) -> Result<IndexMap<ConnectionId, ConnectionState>, AllocError>
    ensures { IfOk result (λ copy. copy.entries ≡ connections.now.entries) }
{
    connections.clone()
}

/// The same sessions, under the same numbers. `AllocError` where a request for memory was refused.
#[tactic(auto, using(crate::proofs::Found::same_entries))]
fn copied_sessions(
    sessions: &IndexMap<SessionId, SessionState>,
) -> Result<IndexMap<SessionId, SessionState>, AllocError>
    ensures { IfOk result (λ copy. copy.entries ≡ sessions.now.entries) }
{
    sessions.clone()
}

/// The connection of that number, open and stopped, of the client, if any.
fn new_connection(id: ConnectionId, client: Option<ClientId>) -> ConnectionState
    ensures { result ≡ record { id = id; client = client; is_started = false; is_open = true } }
{
    ConnectionState {
        id,
        client,
        is_started: false,
        is_open: true,
    }
}

impl Sessions {
    /// Nothing was opened. Takes no memory.
    pub fn new(alloc: Global) -> Sessions
        ensures life { result.life ≡ record { connections = []; sessions = [] } }
        ensures consumers { result.consumers ≡ [] }
    {
        Sessions {
            alloc,
            connections: IndexMap::new(alloc),
            sessions: IndexMap::new(alloc),
            opened: KeySet::new(alloc),
            roster: Roster::new(alloc),
            clients: Clients::new(alloc),
        }
    }

    /// What is given of one session, as it is: its connection, the session, and a consumer. `AllocError` where a
    /// request for memory was refused.
    pub fn of_one(
        alloc: Global,
        connection: Option<ConnectionState>,
        session: Option<SessionState>,
        consumer: Option<Consumer>,
    ) -> Result<Sessions, AllocError>
        ensures life { IfOk result (λ one. one.life ≡ record { connections = option_to_list connection; sessions = option_to_list session }) }
        ensures consumers { IfOk result (λ one. one.consumers ≡ option_to_list consumer) }
    {
        let roster = Roster::of_one(alloc, consumer)?;
        let opened = one_open(alloc, &session)?;
        let sessions = one_session(alloc, session)?;
        let connections = one_connection(alloc, connection)?;
        let clients = Clients::of(alloc, connections.values().as_slice())?;
        Ok(Sessions {
            alloc,
            connections,
            sessions,
            opened,
            roster,
            clients,
        })
    }

    /// The same connections, sessions and consumers; the room may differ. `AllocError` where a request for
    /// memory was refused.
    pub fn copy(&self) -> Result<Sessions, AllocError>
        ensures { IfOk result (λ copy. copy ≡ record self.now { spare = copy.spare }) }
    {
        let clients = Clients::of(self.alloc, self.connections())?;
        let roster = self.roster.copy(self.alloc)?;
        let opened = copied_keys(self.alloc, &self.opened)?;
        let sessions = copied_sessions(&self.sessions)?;
        Ok(Sessions {
            alloc: self.alloc,
            connections: copied_connections(&self.connections)?,
            sessions,
            opened,
            roster,
            clients,
        })
    }

    /// The connections that were opened, in order.
    pub fn connections(&self) -> &[ConnectionState]
        ensures { result.now ≡ self.now.life.connections }
    {
        self.connections.values().as_slice()
    }

    /// The sessions that were opened, in order.
    pub fn sessions(&self) -> &[SessionState]
        ensures { result.now ≡ self.now.life.sessions }
    {
        self.sessions.values().as_slice()
    }

    /// The consumers that were made, in order.
    pub fn consumers(&self) -> &[Consumer]
        ensures { result.now ≡ self.now.consumers }
    {
        self.roster.as_slice()
    }

    /// How many active consumers the subscriptions that have names have.
    pub fn attached(&self) -> &Attached
        ensures { AreCounted self.now.consumers result.now }
    {
        self.roster.attached()
    }

    /// Whether no consumer of the key is active. The subscription of the key has a name; else the answer says nothing.
    #[tactic(auto, using(crate::proofs::Counted::idle))]
    pub fn is_idle(&self, key: &Key) -> bool
        ensures { is_named key.now ≡ true → result ≡ not (list_any (λ x. x.is_active) (filter (λ x. key_eq x.key key.now) self.now.consumers)) }
    {
        self.attached().number(key) == 0
    }

    /// The connection of that number, where it was opened.
    #[tactic(auto, using(crate::proofs::Found::connection_found))]
    pub fn connection_of(&self, id: ConnectionId) -> Option<&ConnectionState>
        ensures { option_copied result ≡ life.connection_of self.now.life.connections id }
    {
        self.connections.get(&id)
    }

    /// The client of the connection of that number, where it was opened and has one.
    pub fn client_of(&self, id: ConnectionId) -> Option<&ClientId>
        ensures { option_copied result ≡ life.client_of self.now.life id }
    {
        match self.connection_of(id) {
            Some(connection) => connection.client.as_ref(),
            None => None,
        }
    }

    /// Whether an open connection has the client identifier, where there is one (Jakarta Messaging 3.1, section 6.1.2).
    pub fn is_client_taken(&self, client: &Option<ClientId>) -> bool
        ensures { result ≡ life.is_client_taken self.now.life client.now }
    {
        match client {
            Some(client) => self.clients.include(client, self.connections()),
            None => false,
        }
    }

    /// Whether the connection of that number was opened.
    pub fn is_used(&self, id: ConnectionId) -> bool
        ensures { result ≡ is_some (life.connection_of self.now.life.connections id) }
    {
        self.connection_of(id).is_some()
    }

    /// Whether the connection of that number is open.
    pub fn is_open_connection(&self, id: ConnectionId) -> bool
        ensures { result ≡ life.is_open_connection (life.connection_of self.now.life.connections id) }
    {
        self.connection_of(id).is_some_and(|x| x.is_open)
    }

    /// Whether the connection of that number was opened, and is closed.
    pub fn is_closed_connection(&self, id: ConnectionId) -> bool
        ensures { result ≡ life.is_closed_connection (life.connection_of self.now.life.connections id) }
    {
        self.connection_of(id).is_some_and(|x| !x.is_open)
    }

    /// Whether the connection of that number is started.
    pub fn is_started(&self, id: ConnectionId) -> bool
        ensures { result ≡ life.is_started self.now.life id }
    {
        self.connection_of(id).is_some_and(|x| x.is_started)
    }

    /// The session of that number, where it was opened.
    #[tactic(auto, using(crate::proofs::Found::session_found))]
    pub fn session_of(&self, id: &SessionId) -> Option<SessionState>
        ensures { result ≡ life.session_of self.now.life.sessions id.now }
    {
        self.sessions.get(id).copied()
    }

    /// The mode of the session of that number, where it is open.
    pub fn mode_of(&self, id: &SessionId) -> Option<Mode>
        ensures { result ≡ life.mode_of self.now.life id.now }
    {
        match self.session_of(id) {
            Some(session) if session.is_open => Some(session.mode),
            _ => None,
        }
    }

    /// Whether the session of that number is open.
    pub fn is_open(&self, id: &SessionId) -> bool
        ensures { result ≡ is_some (life.mode_of self.now.life id.now) }
    {
        self.mode_of(id).is_some()
    }

    /// Whether the session may be opened: its connection is open, and its number was not used.
    pub fn is_new_session(&self, id: &SessionId) -> bool
        ensures { result ≡ life.is_new_session self.now.life id.now }
    {
        self.is_open_connection(id.connection) && self.session_of(id).is_none()
    }

    /// The session's consumer of that number, where it was made.
    pub fn consumer_of(&self, session: &SessionId, id: ConsumerId) -> Option<&Consumer>
        ensures { option_copied result ≡ machine.consumer_of self.now.consumers session.now id }
    {
        self.roster.find(session, id)
    }

    /// Whether the session's consumer of that number is active.
    pub fn is_active(&self, session: &SessionId, id: ConsumerId) -> bool
        ensures { result ≡ machine.is_active (machine.consumer_of self.now.consumers session.now id) }
    {
        match self.consumer_of(session, id) {
            Some(consumer) => consumer.is_active,
            None => false,
        }
    }

    /// Whether the session's consumer of that number may be made: the session is open, and the number
    /// was not used in it.
    pub fn may_begin(&self, session: &SessionId, id: ConsumerId) -> bool
        ensures { result ≡ machine.may_begin self.now.life self.now.consumers session.now id }
    {
        self.is_open(session) && self.consumer_of(session, id).is_none()
    }

    /// Whether the session's consumer of that number listens: it is active, and its listener was set.
    pub fn is_listening(&self, session: &SessionId, id: ConsumerId) -> bool
        ensures { result ≡ machine.is_listening (machine.consumer_of self.now.consumers session.now id) }
    {
        match self.consumer_of(session, id) {
            Some(consumer) => consumer.is_active && consumer.is_listening,
            None => false,
        }
    }

    /// Whether the session's consumer of that number is busy: it is active, and its listener is not done with a message.
    pub fn is_busy(&self, session: &SessionId, id: ConsumerId) -> bool
        ensures { result ≡ machine.is_busy (machine.consumer_of self.now.consumers session.now id) }
    {
        match self.consumer_of(session, id) {
            Some(consumer) => consumer.is_active && consumer.is_busy,
            None => false,
        }
    }

    /// Whether the session's consumer of that number may be used: the session is open, and the consumer is active in it.
    pub fn may_use(&self, session: &SessionId, id: ConsumerId) -> bool
        ensures { result ≡ machine.may_use self.now.life self.now.consumers session.now id }
    {
        self.is_open(session) && self.is_active(session, id)
    }

    /// Whether the session's consumer of that number may receive: it may be used, and does not listen.
    pub fn may_receive(&self, session: &SessionId, id: ConsumerId) -> bool
        ensures { result ≡ machine.may_receive self.now.life self.now.consumers session.now id }
    {
        self.may_use(session, id) && !self.is_listening(session, id)
    }

    /// Whether the listener of the session's consumer of that number may be set, or taken away: the consumer may be used,
    /// and is not busy.
    pub fn may_set_listener(&self, session: &SessionId, id: ConsumerId) -> bool
        ensures { result ≡ machine.may_set_listener self.now.life self.now.consumers session.now id }
    {
        self.may_use(session, id) && !self.is_busy(session, id)
    }

    /// Whether the listener of the session's consumer of that number may take a message: the consumer may be used, listens,
    /// and is not busy.
    pub fn may_take(&self, session: &SessionId, id: ConsumerId) -> bool
        ensures { result ≡ machine.may_take self.now.life self.now.consumers session.now id }
    {
        self.may_use(session, id) && self.is_listening(session, id) && !self.is_busy(session, id)
    }

    /// Whether the listener of the session's consumer of that number may be done with a message: the consumer may be used,
    /// and is busy.
    pub fn may_be_done(&self, session: &SessionId, id: ConsumerId) -> bool
        ensures { result ≡ machine.may_be_done self.now.life self.now.consumers session.now id }
    {
        self.may_use(session, id) && self.is_busy(session, id)
    }

    fn may_set_busy(&self, session: &SessionId, id: ConsumerId, on: bool) -> bool
        ensures { result ≡ may_set_busy self.now.life self.now.consumers session.now id on }
    {
        self.may_take(session, id) || !on && self.may_be_done(session, id)
    }

    /// Whether the session may be closed: it was opened, or its connection is closed.
    pub fn may_close_session(&self, id: &SessionId) -> bool
        ensures { result ≡ machine.may_close_session self.now.life id.now }
    {
        self.session_of(id).is_some() || self.is_closed_connection(id.connection)
    }

    /// Whether the session's consumer of that number may be closed: it was made in the session, which is
    /// open, and is not busy, or the session is closed.
    pub fn may_close_consumer(&self, session: &SessionId, id: ConsumerId) -> bool
        ensures { result ≡ machine.may_close_consumer self.now.life self.now.consumers session.now id }
    {
        if self.is_open(session) {
            self.consumer_of(session, id).is_some() && !self.is_busy(session, id)
        } else {
            self.session_of(session).is_some()
        }
    }

    /// Makes room, so that the next `n` calls are not refused for memory, and a client is found by one look-up again
    /// where it was not (`open`). `AllocError` where a request for memory was refused.
    pub fn reserve(&mut self, n: usize) -> Result<(), AllocError>
        ensures room { OnOk result (n ≤ self.new.spare) }
        ensures spare { self.old.spare ≤ self.new.spare }
        ensures life { self.new.life ≡ self.old.life }
        ensures consumers { self.new.consumers ≡ self.old.consumers }
    {
        self.connections.reserve(n)?;
        self.sessions.reserve(n)?;
        self.opened.reserve(n)?;
        self.roster.reserve(n)?;
        let connections = self.connections.values().as_slice();
        self.clients.reserve(self.alloc, connections, n)
    }

    /// Whether the connection may be opened for the client, if any. `IllegalState` where the number was used; else
    /// `InvalidClientId` where an open connection has the client.
    fn may_open(&self, id: ConnectionId, client: &Option<ClientId>) -> Result<(), Refusal>
        ensures unused { OnOk result (is_some (life.connection_of self.now.life.connections id) ≡ false) }
        ensures free { OnOk result (life.is_client_taken self.now.life client.now ≡ false) }
        ensures refused { IfErr result (λ refusal. refusal ≡ open_cause (is_some (life.connection_of self.now.life.connections id)) (life.is_client_taken self.now.life client.now)) }
        ensures allowed { is_some (life.connection_of self.now.life.connections id) ≡ false → life.is_client_taken self.now.life client.now ≡ false → is_ok result ≡ true }
    {
        if self.is_used(id) {
            return Err(Refusal::IllegalState);
        }
        if self.is_client_taken(client) {
            return Err(Refusal::InvalidClientId);
        }
        Ok(())
    }

    /// Opens the connection, stopped, for the client, if any. `IllegalState` where the number was used; else
    /// `InvalidClientId` where an open connection has the client (Jakarta Messaging 3.1, section 6.1.2); else `Memory`
    /// where a request for memory was refused, which does not come where there is room. A refusal leaves all as it was.
    /// The index takes a copy of the client: where memory for that is refused, the connection opens nevertheless, and
    /// clients are found by a walk over the connections until `reserve` succeeds.
    pub fn open(&mut self, id: ConnectionId, client: Option<ClientId>) -> Result<(), Refusal>
        ensures unused { OnOk result (life.connection_of self.old.life.connections id ≡ None) }
        ensures free { OnOk result (life.is_client_taken self.old.life client ≡ false) }
        ensures refused { IfErr result (λ refusal. refusal ≡ open_cause (is_some (life.connection_of self.old.life.connections id)) (life.is_client_taken self.old.life client)) }
        ensures room { 0 < self.old.spare → life.connection_of self.old.life.connections id ≡ None → life.is_client_taken self.old.life client ≡ false → is_ok result ≡ true }
        ensures life { self.new.life ≡ (if is_ok result then life.life_after self.old.life (Connection id) (Open client) else self.old.life) }
        ensures consumers { self.new.consumers ≡ self.old.consumers }
        ensures spare { self.old.spare ≤ self.new.spare + 1 }
    {
        self.may_open(id, &client)?;
        self.connections.reserve(1)?;
        let connection = new_connection(id, client);
        self.clients.note(&connection);
        drop(self.connections.insert(id, connection));
        Ok(())
    }

    /// Starts the connection. `IllegalState` where it is not open. Takes no memory.
    #[tactic(auto, unfolding(jm_machine::specs::Life::life_after))]
    pub fn start(&mut self, id: ConnectionId) -> Result<(), Refusal>
        ensures ok { is_ok result ≡ life.is_open_connection (life.connection_of self.old.life.connections id) }
        ensures refused { IfErr result (λ refusal. refusal ≡ IllegalState) }
        ensures life { self.new.life ≡ (if is_ok result then life.life_after self.old.life (Connection id) Start else self.old.life) }
        ensures consumers { self.new.consumers ≡ self.old.consumers }
        ensures spare { self.old.spare ≤ self.new.spare }
    {
        self.set_started(id, true)
    }

    /// Stops the connection. `IllegalState` where it is not open. Takes no memory.
    #[tactic(auto, unfolding(jm_machine::specs::Life::life_after))]
    pub fn stop(&mut self, id: ConnectionId) -> Result<(), Refusal>
        ensures ok { is_ok result ≡ life.is_open_connection (life.connection_of self.old.life.connections id) }
        ensures refused { IfErr result (λ refusal. refusal ≡ IllegalState) }
        ensures life { self.new.life ≡ (if is_ok result then life.life_after self.old.life (Connection id) Stop else self.old.life) }
        ensures consumers { self.new.consumers ≡ self.old.consumers }
        ensures spare { self.old.spare ≤ self.new.spare }
    {
        self.set_started(id, false)
    }

    /// Starts or stops the connection, where it is open.
    fn set_started(&mut self, id: ConnectionId, on: bool) -> Result<(), Refusal>
        ensures ok { is_ok result ≡ life.is_open_connection (life.connection_of self.old.life.connections id) }
        ensures refused { IfErr result (λ refusal. refusal ≡ IllegalState) }
        ensures life { self.new.life ≡ (if is_ok result then life_set self.old.life id on else self.old.life) }
        ensures consumers { self.new.consumers ≡ self.old.consumers }
        ensures spare { self.old.spare ≤ self.new.spare }
    {
        let Some(at) = self.connections.get_index_of(&id) else {
            return Err(Refusal::IllegalState);
        };
        if !self.connections[at].is_open {
            return Err(Refusal::IllegalState);
        }
        self.connections[at].is_started = on;
        Ok(())
    }

    /// Closes the connection, its sessions and their consumers, which stay known. `IllegalState` where it
    /// was never opened; closing a closed one does nothing. Takes no memory. It looks at those that close, and at no
    /// other session or consumer.
    pub fn close_connection(&mut self, id: ConnectionId) -> Result<(), Refusal>
        ensures ok { is_ok result ≡ is_some (life.connection_of self.old.life.connections id) }
        ensures refused { IfErr result (λ refusal. refusal ≡ IllegalState) }
        ensures life { self.new.life ≡ (if is_ok result then life.life_after self.old.life (Connection id) CloseConnection else self.old.life) }
        ensures consumers { self.new.consumers ≡
            (if is_ok result then map (machine.closed_consumer (machine.of_connection id)) self.old.consumers else self.old.consumers) }
        ensures spare { self.old.spare ≤ self.new.spare }
    {
        let Some(at) = self.connections.get_index_of(&id) else {
            return Err(Refusal::IllegalState);
        };
        let connection = &mut self.connections[at];
        self.clients.free(connection);
        connection.client = None;
        connection.is_started = false;
        connection.is_open = false;
        close_sessions(&mut self.sessions, &mut self.opened, id);
        self.roster.close(&Consumers::OfConnection(id));
        Ok(())
    }

    /// Opens the session in that mode. `IllegalState` where it may not be opened; else `Memory` where a
    /// request for memory was refused, which does not come where there is room.
    #[tactic(auto, unfolding(jm_machine::specs::Life::life_after))]
    pub fn session(&mut self, id: &SessionId, mode: Mode) -> Result<(), Refusal>
        ensures ok { OnOk result (life.is_new_session self.old.life id.now ≡ true) }
        ensures refused { IfErr result (λ refusal. refusal ≡ cause (life.is_new_session self.old.life id.now)) }
        ensures room { 0 < self.old.spare → life.is_new_session self.old.life id.now ≡ true → is_ok result ≡ true }
        ensures life { self.new.life ≡
            (if is_ok result then life.life_after self.old.life (Session id.now) (CreateSession mode) else self.old.life) }
        ensures consumers { self.new.consumers ≡ self.old.consumers }
        ensures spare { self.old.spare ≤ self.new.spare + 1 }
    {
        if !self.is_new_session(id) {
            return Err(Refusal::IllegalState);
        }
        let session = SessionState {
            id: *id,
            mode,
            is_open: true,
        };
        self.sessions.reserve(1)?;
        self.opened.reserve(1)?;
        self.opened.insert(*id);
        drop(self.sessions.insert(*id, session));
        Ok(())
    }

    /// Closes the session and its consumers, which stay known. `IllegalState` where it was never opened,
    /// unless its connection is closed; closing a closed one does nothing. Takes no memory. It looks at those that
    /// close, and at no other session or consumer.
    pub fn close_session(&mut self, id: &SessionId) -> Result<(), Refusal>
        ensures ok { is_ok result ≡ machine.may_close_session self.old.life id.now }
        ensures refused { IfErr result (λ refusal. refusal ≡ IllegalState) }
        ensures life { self.new.life ≡ (if is_ok result then life.life_after self.old.life (Session id.now) CloseSession else self.old.life) }
        ensures consumers { self.new.consumers ≡
            (if is_ok result then map (machine.closed_consumer (machine.of_session id.now)) self.old.consumers else self.old.consumers) }
        ensures spare { self.old.spare ≤ self.new.spare }
    {
        if !self.may_close_session(id) {
            return Err(Refusal::IllegalState);
        }
        close_session(&mut self.sessions, &mut self.opened, id);
        self.roster.close(&Consumers::OfSession(*id));
        Ok(())
    }

    /// Makes the session's consumer of that number, which receives from the source.
    /// `IllegalState` where it may not be made; else `Memory` where a request for memory was refused, which
    /// does not come where there is room.
    pub fn consumer(
        &mut self,
        session: &SessionId,
        id: ConsumerId,
        source: Source,
    ) -> Result<(), Refusal>
        ensures ok { OnOk result (machine.may_begin self.old.life self.old.consumers session.now id ≡ true) }
        ensures refused { IfErr result (λ refusal. refusal ≡ cause (machine.may_begin self.old.life self.old.consumers session.now id)) }
        ensures room { 0 < self.old.spare → machine.may_begin self.old.life self.old.consumers session.now id ≡ true → is_ok result ≡ true }
        ensures life { self.new.life ≡ self.old.life }
        ensures consumers { self.new.consumers ≡
            (if is_ok result then self.old.consumers ++ machine.new_consumer session.now id source.key source.selector ∷ [] else self.old.consumers) }
        ensures spare { self.old.spare ≤ self.new.spare + 1 }
    {
        if !self.may_begin(session, id) {
            return Err(Refusal::IllegalState);
        }
        self.roster.reserve(1)?;
        self.roster.add(session, id, source);
        Ok(())
    }

    /// Closes the session's consumer of that number, which stays known. `IllegalState` where it was never
    /// made in the session, which is open, or is busy (ours), or the session was never opened; closing a
    /// closed one does nothing. Takes no memory.
    pub fn close_consumer(&mut self, session: &SessionId, id: ConsumerId) -> Result<(), Refusal>
        ensures ok { is_ok result ≡ machine.may_close_consumer self.old.life self.old.consumers session.now id }
        ensures refused { IfErr result (λ refusal. refusal ≡ IllegalState) }
        ensures life { self.new.life ≡ self.old.life }
        ensures consumers { self.new.consumers ≡
            (if is_ok result then map (machine.closed_consumer (machine.of_number session.now id)) self.old.consumers else self.old.consumers) }
        ensures spare { self.old.spare ≤ self.new.spare }
    {
        if !self.may_close_consumer(session, id) {
            return Err(Refusal::IllegalState);
        }
        self.roster.close_one(session, id);
        Ok(())
    }

    /// Sets the listener of the session's consumer of that number, or takes it away. `IllegalState` where the session is not
    /// open, or the consumer is not active in it, or is busy (ours); then all is as before. Takes no memory.
    pub fn set_listening(
        &mut self,
        session: &SessionId,
        id: ConsumerId,
        on: bool,
    ) -> Result<(), Refusal>
        ensures ok { is_ok result ≡ machine.may_set_listener self.old.life self.old.consumers session.now id }
        ensures refused { IfErr result (λ refusal. refusal ≡ IllegalState) }
        ensures life { self.new.life ≡ self.old.life }
        ensures consumers { self.new.consumers ≡
            (if is_ok result then machine.set_listening session.now id on self.old.consumers else self.old.consumers) }
        ensures spare { self.old.spare ≤ self.new.spare }
    {
        if !self.may_set_listener(session, id) {
            return Err(Refusal::IllegalState);
        }
        self.roster.set_listening(session, id, on);
        Ok(())
    }

    /// The session's consumer of that number is busy from now on, or is not: its listener took a message or found none, or is
    /// done with one. `IllegalState` where the session is not open, or the consumer is not active in it, or neither listens
    /// nor is busy, or is busy and is to become so; then all is as before. Takes no memory.
    pub fn set_busy(&mut self, session: &SessionId, id: ConsumerId, on: bool) -> Result<(), Refusal>
        ensures ok { is_ok result ≡ may_set_busy self.old.life self.old.consumers session.now id on }
        ensures refused { IfErr result (λ refusal. refusal ≡ IllegalState) }
        ensures life { self.new.life ≡ self.old.life }
        ensures consumers { self.new.consumers ≡
            (if is_ok result then machine.set_busy session.now id on self.old.consumers else self.old.consumers) }
        ensures spare { self.old.spare ≤ self.new.spare }
    {
        if !self.may_set_busy(session, id, on) {
            return Err(Refusal::IllegalState);
        }
        self.roster.set_busy(session, id, on);
        Ok(())
    }
}
