//! What a record has said so far of connections and sessions, and what each transaction has sent.

ghost use Rattle.std.specs.Prelude.{◌≡◌, ◌==◌, ℕ, List, [], ◌∷◌, option_map, IfOk, OnOk, Result, Some};
ghost use Rattle.std.specs.Option.{option_copied, option_or};
ghost use Rattle.std.specs.HashMap.{get};
ghost use Rattle.jm_base.specs.declared.refusal.Refusal.{Refusal as OfRefusal};
ghost use Rattle.jm_dest.specs.Names.{session_eq};
ghost use Rattle.jm_dest.specs.declared.session.SessionId.{SessionId as OfSession};
ghost use Rattle.jm_machine.specs.declared.answer.Answer.{Answer as OfAnswer};
ghost use Rattle.jm_machine.specs.declared.entry.Entry.{Entry as OfEntry};
ghost use Rattle.jm_machine.specs.Life as life;
ghost use Rattle.jm_machine.specs.Life.{Life};
ghost use Rattle.jm_machine.specs.Machine as machine;
ghost use Rattle.jm_transactions.specs.Transactions as spec;
ghost use Rattle.jm_transactions.specs.Transactions.{AreNested, Follows, mode_in};
ghost use Rattle.jm_transactions.specs.Courses.{connected_as, course_of};

use jm_base::Mode;
use jm_dest::{ClientId, ConnectionId, SessionId};
use jm_header::Message;
use jm_machine::{ConnectionState, Entry, Reply, Request, SessionState, Who};
use std::alloc::{AllocError, Global};
use std::collections::HashMap;

/// A connection that was opened.
#[derive(Drop)]
struct Connected {
    is_open: bool,
    /// The client for which it was opened, if any, until it closes.
    client: Option<ClientId>,
}

/// What the entries of a record have said so far of connections, sessions and transactions. Every look-up is by number.
/// Contracts see it by what it says (`course_of`).
#[derive(Drop)]
pub struct Transactions {
    alloc: Global,
    /// The connections that were opened.
    connections: HashMap<ConnectionId, Connected>,
    /// The mode of a session that was opened, and none once it was closed. Those of a connection that is closed are
    /// closed too.
    sessions: HashMap<SessionId, Option<Mode>>,
    /// Where among the entries the messages stand that a session has sent since its transaction began.
    sent: HashMap<SessionId, Vec<usize>>,
}

impl Transactions {
    /// Whether the connection of that number is open.
    fn is_up(&self, id: ConnectionId) -> bool
        ensures { result ≡ spec.is_up ((course_of self.now).connection id) }
    {
        match self.connections.get(&id) {
            Some(connection) => connection.is_open,
            None => false,
        }
    }

    /// The client for which the connection was opened, if any, until it closes.
    pub fn client_of(&self, id: ConnectionId) -> Option<&ClientId>
        ensures { option_copied result ≡ (course_of self.now).client id }
    {
        self.connections.get(&id)?.client.as_ref()
    }

    /// The mode of the session, where it is open.
    fn mode_of(&self, id: &SessionId) -> Option<Mode>
        ensures { result ≡ mode_in (course_of self.now) id.now }
    {
        if !self.is_up(id.connection) {
            return None;
        }
        self.sessions.get(id).copied().flatten()
    }

    /// Whether the session is open, and transacted.
    pub fn is_transacted(&self, id: &SessionId) -> bool
        ensures { result ≡ machine.is_transacted (mode_in (course_of self.now) id.now) }
    {
        match self.mode_of(id) {
            Some(Mode::Transacted) => true,
            _ => false,
        }
    }

    /// Whether the session may still commit: it was not opened yet, or as a transacted one, and was not closed.
    fn may_commit(&self, id: &SessionId) -> bool
        ensures { result ≡ spec.may_commit ((course_of self.now).session id.now) }
    {
        match self.sessions.get(id).copied() {
            None | Some(Some(Mode::Transacted)) => true,
            _ => false,
        }
    }

    /// Where the messages stand that a commit of the session publishes, in the order of their sends.
    pub fn committed(&self, id: &SessionId) -> &[usize]
        ensures { result.now ≡ spec.committed_places (course_of self.now) id.now }
    {
        if !self.is_transacted(id) {
            return &[];
        }
        match self.sent.get(id) {
            Some(places) => places.as_slice(),
            None => &[],
        }
    }

    /// The connection is opened for the client, or for none, where its number is new.
    fn open(&mut self, id: ConnectionId, client: &Option<ClientId>) -> Result<(), AllocError>
        ensures { OnOk result (course_of self.new ≡ spec.opened id client.now (course_of self.old)) }
    {
        if !self.connections.contains_key(&id) {
            let client = copy_client(client)?;
            self.connections.insert(
                id,
                Connected {
                    is_open: true,
                    client,
                },
            )?;
        }
        Ok(())
    }

    /// The connection closes, where it was opened. Takes no memory.
    fn close_connection(&mut self, id: ConnectionId)
        ensures { course_of self.new ≡ spec.connection_closed id (course_of self.old) }
    {
        if let Some(connection) = self.connections.get_mut(&id) {
            connection.is_open = false;
            connection.client = None;
        }
    }

    /// The transactions of the connection's sessions end.
    fn end_all(&mut self, id: ConnectionId)
        ensures { course_of self.new ≡ spec.all_ended id (course_of self.old) }
    {
        self.sent.retain(|session, _| session.connection != id);
    }

    /// The connection closes with its sessions. Takes no memory.
    fn shut(&mut self, id: ConnectionId)
        ensures { course_of self.new ≡ spec.shut id (course_of self.old) }
    {
        self.close_connection(id);
        self.end_all(id);
    }

    /// The session is opened, where its connection is open and its number is new.
    fn create(&mut self, id: &SessionId, mode: Mode) -> Result<(), AllocError>
        ensures { OnOk result (course_of self.new ≡ spec.created id.now mode (course_of self.old)) }
    {
        if self.is_up(id.connection) && !self.sessions.contains_key(id) {
            self.sessions.insert(*id, Some(mode))?;
        }
        Ok(())
    }

    /// The session closes, where it was opened. Takes no memory.
    fn close_session(&mut self, id: &SessionId)
        ensures { course_of self.new ≡ spec.session_closed id.now (course_of self.old) }
    {
        if let Some(mode) = self.sessions.get_mut(id) {
            *mode = None;
        }
    }

    /// The session's transaction ends.
    fn end(&mut self, id: &SessionId)
        ensures { course_of self.new ≡ spec.ended id.now (course_of self.old) }
    {
        self.sent.remove(id);
    }

    /// The session closes, and its transaction ends. Takes no memory.
    fn leave(&mut self, id: &SessionId)
        ensures { course_of self.new ≡ spec.left id.now (course_of self.old) }
    {
        self.close_session(id);
        self.end(id);
    }

    /// One more message of the session's transaction stands at that place.
    fn keep(&mut self, id: &SessionId, place: usize) -> Result<(), AllocError>
        ensures { OnOk result (course_of self.new ≡ spec.kept id.now place (course_of self.old)) }
    {
        let mut places = match self.sent.remove(id) {
            Some(places) => places,
            None => Vec::new(self.alloc),
        };
        places.push(place)?;
        self.sent.insert(*id, places)?;
        Ok(())
    }

    /// Notes what a call by a connection says, where it was accepted.
    #[tactic(auto, unfolding(crate::specs::Transactions::noted))]
    fn note_connection(
        &mut self,
        id: ConnectionId,
        request: &Request,
        reply: &Reply,
    ) -> Result<(), AllocError>
        ensures { (place : ℕ) → OnOk result (course_of self.new
            ≡ spec.noted place (Entry.Asked (Who.Connection id) request.now reply.now) (course_of self.old)) }
    {
        if reply.is_err() {
            return Ok(());
        }
        match request {
            Request::Open { client } => self.open(id, client),
            Request::CloseConnection => {
                self.shut(id);
                Ok(())
            }
            _ => Ok(()),
        }
    }

    /// Notes what a call by a session says, whatever it was told.
    #[tactic(auto, unfolding(crate::specs::Transactions::noted))]
    fn note_session(&mut self, id: &SessionId, request: &Request) -> Result<(), AllocError>
        ensures { (place : ℕ) (told : Result OfAnswer OfRefusal) → OnOk result (course_of self.new
            ≡ spec.noted place (Entry.Asked (Who.Session id.now) request.now told) (course_of self.old)) }
    {
        match request {
            Request::CreateSession { mode } => self.create(id, *mode),
            Request::CloseSession => {
                self.leave(id);
                Ok(())
            }
            Request::Rollback => {
                self.end(id);
                Ok(())
            }
            _ => Ok(()),
        }
    }

    /// Notes what a message says that was sent, at its place among the entries.
    #[tactic(auto, unfolding(crate::specs::Transactions::noted))]
    fn note_sent(&mut self, place: usize, message: &Message) -> Result<(), AllocError>
        ensures { OnOk result (course_of self.new ≡ spec.noted place (Entry.Sent message.now) (course_of self.old)) }
    {
        let session = message.sender().session;
        if self.may_commit(&session) {
            self.keep(&session, place)?;
        }
        Ok(())
    }

    /// Notes what the entry says that stands at that place, from 0: of the calls by connections the accepted ones count.
    /// `AllocError` where a request for memory was refused; then what was noted is not said.
    #[tactic(auto, unfolding(crate::specs::Transactions::noted))]
    pub fn note(&mut self, place: usize, entry: &Entry) -> Result<(), AllocError>
        ensures { OnOk result (course_of self.new ≡ spec.noted place entry.now (course_of self.old)) }
    {
        match entry {
            Entry::Asked {
                who,
                request,
                reply,
            } => match who {
                Who::Connection(id) => self.note_connection(*id, request, reply),
                Who::Session(id) => self.note_session(id, request),
            },
            Entry::Sent(message) => self.note_sent(place, message),
            Entry::Committed(session) => {
                self.end(session);
                Ok(())
            }
        }
    }
}

/// An equal client identifier, or none.
fn copy_client(client: &Option<ClientId>) -> Result<Option<ClientId>, AllocError>
    ensures { IfOk result (λ copy. copy ≡ client.now) }
{
    match client {
        None => Ok(None),
        Some(client) => Ok(Some(client.copy()?)),
    }
}

/// What is noted of a connection.
fn noted_as(connection: &ConnectionState) -> Result<Connected, AllocError>
    ensures { IfOk result (λ noted. noted ≡ connected_as connection.now) }
{
    Ok(Connected {
        is_open: connection.is_open,
        client: copy_client(&connection.client)?,
    })
}

/// Notes the connection, where its number is new.
fn add_connection(
    connections: &mut HashMap<ConnectionId, Connected>,
    connection: &ConnectionState,
) -> Result<(), AllocError>
    ensures { (c : ℕ) → OnOk result (get (λ a b. a == b) connections.new c
        ≡ option_or (get (λ a b. a == b) connections.old c) (option_map connected_as (life.connection_of (connection.now ∷ []) c))) }
{
    if !connections.contains_key(&connection.id) {
        connections.insert(connection.id, noted_as(connection)?)?;
    }
    Ok(())
}

/// What is noted of each of the connections.
fn connections_of(
    alloc: Global,
    connections: &[ConnectionState],
) -> Result<HashMap<ConnectionId, Connected>, AllocError>
    ensures { (c : ℕ) → IfOk result (λ made. get (λ a b. a == b) made c
        ≡ option_map connected_as (life.connection_of connections.now c)) }
{
    let mut made = HashMap::with_capacity(alloc, connections.len())?;
    for connection in connections {
        add_connection(&mut made, connection)?;
    }
    Ok(made)
}

/// The mode of a session that is open.
fn mode_left(session: &SessionState) -> Option<Mode>
    ensures { result ≡ life.open_mode (Some session.now) }
{
    if session.is_open {
        Some(session.mode)
    } else {
        None
    }
}

/// Notes the session, where its number is new.
fn add_session(
    sessions: &mut HashMap<SessionId, Option<Mode>>,
    session: &SessionState,
) -> Result<(), AllocError>
    ensures { (s : OfSession) → OnOk result (get session_eq sessions.new s
        ≡ option_or (get session_eq sessions.old s) (option_map (λ x. life.open_mode (Some x)) (life.session_of (session.now ∷ []) s))) }
{
    if !sessions.contains_key(&session.id) {
        sessions.insert(session.id, mode_left(session))?;
    }
    Ok(())
}

/// The mode of each of the sessions, where it is open.
fn sessions_of(
    alloc: Global,
    sessions: &[SessionState],
) -> Result<HashMap<SessionId, Option<Mode>>, AllocError>
    ensures { (s : OfSession) → IfOk result (λ made. get session_eq made s
        ≡ option_map (λ x. life.open_mode (Some x)) (life.session_of sessions.now s)) }
{
    let mut made = HashMap::with_capacity(alloc, sessions.len())?;
    for session in sessions {
        add_session(&mut made, session)?;
    }
    Ok(made)
}

impl Transactions {
    /// What these connections and sessions say, each list with the first of a number first: no transaction has sent
    /// anything. `AllocError` where a request for memory was refused.
    pub fn of(
        alloc: Global,
        connections: &[ConnectionState],
        sessions: &[SessionState],
    ) -> Result<Transactions, AllocError>
        requires { AreNested connections.now sessions.now }
        ensures { (entries : List OfEntry) (of : Life) → of.connections ≡ connections.now → of.sessions ≡ sessions.now
            → IfOk result (λ made. Follows entries of [] (course_of made)) }
    {
        let connections = connections_of(alloc, connections)?;
        let sessions = sessions_of(alloc, sessions)?;
        Ok(Transactions {
            alloc,
            connections,
            sessions,
            sent: HashMap::new(alloc),
        })
    }
}
