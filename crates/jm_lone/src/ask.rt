//! What one subscription answers to the calls of its own sessions, and takes up of them and of their connections'.

ghost use Rattle.std.specs.Prelude.{◌≡◌, ℕ, List, true, IfOk, OnOk, OnErr, if◌then◌else◌};
ghost use Rattle.jm_dest.specs.declared.key.Key.{Key as OfKey};
ghost use Rattle.jm_dest.specs.declared.destination.Destination.TheVariants.{Topic};
ghost use Rattle.jm_machine.specs.Life.{mode_of as mode_in};
ghost use Rattle.jm_machine.specs.Machine as machine;
ghost use Rattle.jm_machine.specs.Rows as rows;
ghost use Rattle.jm_machine.specs.Rows.{settles_at_once};
ghost use Rattle.jm_machine.specs.Lone as spec;
ghost use Rattle.jm_machine.specs.Lone.Item.{Called};
ghost use Rattle.jm_scope.specs.Scopes.{scope_seen};
ghost use Rattle.jm_lone.specs.Parts.{IsAnswered, IsAttached, after, asks_no_shared, is_handed_out, is_held_alone, is_whole_session};

use crate::known::{
    has_client, is_active, is_busy, is_listening, is_new_session, is_started, may_begin,
    may_close_consumer, may_close_session,
};
use crate::lone::Lone;
use crate::marks::{
    close_connection, close_session, close_sessions_of, set_busy, set_listening, set_started,
};
use jm_base::{Mode, Refusal, Str};
use jm_dest::{ClientId, ConnectionId, ConsumerId, Destination, Moment, Name, SessionId};
use jm_machine::{
    Answer, ConnectionState, Consumers, Definition, Reply, Request, SessionState, Who,
};
use jm_scope::Scope;
use jm_sub::{Sharing, defined};
use std::alloc::{AllocError, Global};

fn copy_client(client: &Option<ClientId>) -> Result<Option<ClientId>, AllocError>
    ensures { IfOk result (λ copy. copy ≡ client.now) }
{
    match client {
        None => Ok(None),
        Some(client) => Ok(Some(client.copy()?)),
    }
}

/// Whether the answer hands a message out.
fn is_delivered(answer: &Answer) -> bool
    ensures { result ≡ is_handed_out answer.now }
{
    matches!(answer, Answer::Delivered(_))
}

impl Lone {
    /// The connection is opened for that client. `AllocError` where a request for memory was refused: all stays as before.
    #[tactic(auto, unfolding(jm_machine::specs::Life::life_after))]
    fn open(&mut self, id: ConnectionId, client: &Option<ClientId>) -> Result<(), AllocError>
        ensures ok { OnOk result (self.new ≡ spec.lone_life (Who.Connection id) (Request.Open client.now) self.old) }
        ensures err { OnErr result (self.new ≡ self.old) }
    {
        self.connections.push(ConnectionState {
            id,
            client: copy_client(client)?,
            is_started: false,
            is_open: true,
        })?;
        Ok(())
    }

    /// The connection is started.
    #[tactic(auto, unfolding(jm_machine::specs::Life::life_after))]
    fn start(&mut self, id: ConnectionId)
        ensures { self.new ≡ spec.lone_life (Who.Connection id) Request.Start self.old }
    {
        set_started(&mut self.connections, id, true);
    }

    /// The connection is stopped.
    #[tactic(auto, unfolding(jm_machine::specs::Life::life_after))]
    fn stop(&mut self, id: ConnectionId)
        ensures { self.new ≡ spec.lone_life (Who.Connection id) Request.Stop self.old }
    {
        set_started(&mut self.connections, id, false);
    }

    /// The connection is closed, and its sessions with it.
    #[tactic(auto, unfolding(jm_machine::specs::Life::life_after))]
    fn shut(&mut self, id: ConnectionId)
        ensures { self.new ≡ spec.lone_life (Who.Connection id) Request.CloseConnection self.old }
    {
        close_connection(&mut self.connections, id);
        close_sessions_of(&mut self.sessions, id);
    }

    /// The connection closes with its sessions and their consumers: what is out to them waits again, and a consumer's own
    /// subscription ends.
    #[tactic(auto, unfolding(jm_machine::specs::Lone::lone_did))]
    fn close_connection(&mut self, scope: &Scope, id: ConnectionId)
        requires { is_held_alone (scope_seen scope.now).key ≡ true }
        ensures { self.new ≡ spec.lone_did (scope_seen scope.now).key self.old (Who.Connection id) Request.CloseConnection }
    {
        let which = Consumers::OfConnection(id);
        self.shut(id);
        self.give_back(&which);
        self.close(scope.key(), &which);
    }

    /// Takes up a request of a connection that was accepted. `AllocError` where a request for memory was refused: all stays as
    /// before.
    #[tactic(auto, unfolding(jm_machine::specs::Lone::lone_did, jm_machine::specs::Life::life_after))]
    fn ask_connection(
        &mut self,
        scope: &Scope,
        id: ConnectionId,
        request: &Request,
    ) -> Result<(), AllocError>
        requires { is_held_alone (scope_seen scope.now).key ≡ true }
        ensures ok { OnOk result (self.new ≡ spec.lone_did (scope_seen scope.now).key self.old (Who.Connection id) request.now) }
        ensures err { OnErr result (self.new ≡ self.old) }
    {
        match request {
            Request::Open { client } => self.open(id, client)?,
            Request::Start => self.start(id),
            Request::Stop => self.stop(id),
            Request::CloseConnection => self.close_connection(scope, id),
            _ => {}
        }
        Ok(())
    }

    /// Opens the session, where it may be opened. `AllocError` where a request for memory was refused: all stays as before.
    #[tactic(auto, unfolding(jm_machine::specs::Life::life_after))]
    fn create_session(&mut self, id: &SessionId, mode: Mode) -> Result<(), AllocError>
        ensures ok { OnOk result (self.new
            ≡ spec.lone_life (Who.Session id.now) (Request.CreateSession mode) self.old) }
        ensures err { OnErr result (self.new ≡ self.old) }
    {
        if !is_new_session(&self.connections, &self.sessions, id) {
            return Ok(());
        }
        self.sessions.push(SessionState {
            id: *id,
            mode,
            is_open: true,
        })?;
        Ok(())
    }

    /// The session is closed.
    #[tactic(auto, unfolding(jm_machine::specs::Life::life_after))]
    fn shut_session(&mut self, id: &SessionId)
        ensures { self.new ≡ spec.lone_life (Who.Session id.now) Request.CloseSession self.old }
    {
        close_session(&mut self.sessions, id);
    }

    /// Closes the session with its consumers, where it may be closed: what is out to it waits again, and the own subscription
    /// of a consumer of it ends.
    #[tactic(auto, unfolding(jm_machine::specs::Machine::refusal, jm_machine::specs::Lone::lone_did))]
    fn close_session(&mut self, scope: &Scope, id: &SessionId)
        requires { is_held_alone (scope_seen scope.now).key ≡ true }
        ensures { self.new ≡ after (scope_seen scope.now).key self.old id.now Request.CloseSession }
    {
        if !may_close_session(&self.connections, &self.sessions, id) {
            return;
        }
        let which = Consumers::OfSession(*id);
        self.shut_session(id);
        self.give_back(&which);
        self.close(scope.key(), &which);
    }

    /// Whether the session is open, and has no consumer of that number yet.
    fn may_begin(&self, session: &SessionId, id: ConsumerId) -> bool
        ensures { result ≡ machine.may_begin self.now.life self.now.consumers session.now id }
    {
        may_begin(&self.sessions, &self.consumers, session, id)
    }

    /// Makes the consumer of the topic with a subscription of its own, where it may be made. The refusals, in their order:
    /// `IllegalState` where the session is not open or its number was used, `InvalidSelector`. `AllocError` where a request for
    /// memory was refused: all stays as before.
    #[tactic(auto, unfolding(jm_machine::specs::Machine::refusal, jm_machine::specs::Machine::answer, jm_machine::specs::Lone::lone_did))]
    fn create_own(
        &mut self,
        alloc: Global,
        scope: &Scope,
        session: &SessionId,
        id: ConsumerId,
        topic: &Name,
        selector: &Option<Str>,
        no_local: bool,
    ) -> Result<Reply, AllocError>
        ensures told { IfOk result (λ reply.
            let request = Request.CreateConsumer id (Topic topic.now) selector.now no_local in
            IsAnswered (scope_seen scope.now).key self.old session.now request reply self.new) }
        ensures err { OnErr result (self.new ≡ self.old) }
    {
        if !self.may_begin(session, id) {
            return Ok(Err(Refusal::IllegalState));
        }
        match defined(alloc, topic, selector, no_local, false) {
            Ok(definition) => {
                self.make(alloc, scope.key(), session, id, definition)?;
                Ok(Ok(Answer::Done))
            }
            Err(Refusal::Memory) => Err(AllocError),
            Err(refusal) => Ok(Err(refusal)),
        }
    }

    /// Attaches the consumer, where the subscription that asks for that may be had: `SubscriptionInUse` where it may not.
    /// `AllocError` where a request for memory was refused: all stays as before.
    fn attach(
        &mut self,
        alloc: Global,
        scope: &Scope,
        session: &SessionId,
        id: ConsumerId,
        asked: Definition,
    ) -> Result<Reply, AllocError>
        ensures told { IfOk result (λ reply. IsAttached (scope_seen scope.now).key self.old session.now id asked reply self.new) }
        ensures err { OnErr result (self.new ≡ self.old) }
    {
        if !Sharing::Unshared.may(
            self.definition.as_ref(),
            self.is_idle(),
            self.is_home(),
            &asked,
        ) {
            return Ok(Err(Refusal::SubscriptionInUse));
        }
        self.subscribe(alloc, scope.key(), session, id, asked)?;
        Ok(Ok(Answer::Done))
    }

    /// Makes a consumer of the durable subscription, where it may be made. The refusals, in their order: `IllegalState` where
    /// the session is not open, its number was used, or its connection has no client identifier; `InvalidDestination` of a
    /// queue; `InvalidSelector`; `SubscriptionInUse` where a consumer is active, or where it asks for another thing and a row
    /// is out, or the subscription is a shared one. `AllocError` where a request for memory was refused: all stays as before.
    #[tactic(auto, unfolding(jm_machine::specs::Machine::refusal, jm_machine::specs::Machine::answer, jm_machine::specs::Lone::lone_did))]
    fn create_durable(
        &mut self,
        alloc: Global,
        scope: &Scope,
        session: &SessionId,
        id: ConsumerId,
        destination: &Destination,
        selector: &Option<Str>,
        no_local: bool,
    ) -> Result<Reply, AllocError>
        ensures told { (name : List ℕ) → IfOk result (λ reply.
            let request = Request.CreateDurable id destination.now name selector.now no_local in
            IsAnswered (scope_seen scope.now).key self.old session.now request reply self.new) }
        ensures err { OnErr result (self.new ≡ self.old) }
    {
        if !(self.may_begin(session, id) && has_client(&self.connections, session.connection)) {
            return Ok(Err(Refusal::IllegalState));
        }
        let Destination::Topic(topic) = destination else {
            return Ok(Err(Refusal::InvalidDestination));
        };
        match defined(alloc, topic, selector, no_local, false) {
            Ok(asked) => self.attach(alloc, scope, session, id, asked),
            Err(Refusal::Memory) => Err(AllocError),
            Err(refusal) => Ok(Err(refusal)),
        }
    }

    /// Deletes the durable subscription with its rows, where it may be deleted. The refusals, in their order: `IllegalState`
    /// where the session is not open, `InvalidDestination` where there is no subscription, `SubscriptionInUse` where a consumer
    /// is active or a row is out.
    #[tactic(auto, unfolding(jm_machine::specs::Machine::refusal, jm_machine::specs::Machine::answer, jm_machine::specs::Lone::lone_did))]
    fn unsubscribe(&mut self, session: &SessionId) -> Reply
        ensures { (key : OfKey) (name : List ℕ) →
            IsAnswered key self.old session.now (Request.Unsubscribe name) result self.new }
    {
        if self.mode_of(session).is_none() {
            return Err(Refusal::IllegalState);
        }
        if self.definition.is_none() {
            return Err(Refusal::InvalidDestination);
        }
        if !(self.is_idle() && self.is_home()) {
            return Err(Refusal::SubscriptionInUse);
        }
        self.end();
        Ok(Answer::Done)
    }

    /// Closes the consumer, where it may be closed: its own subscription ends with it. `IllegalState` where the open session
    /// has no such consumer, or it is busy, or the session was never opened.
    #[tactic(auto, unfolding(jm_machine::specs::Machine::refusal, jm_machine::specs::Machine::answer, jm_machine::specs::Lone::lone_did))]
    fn close_consumer(&mut self, scope: &Scope, session: &SessionId, id: ConsumerId) -> Reply
        requires { is_held_alone (scope_seen scope.now).key ≡ true }
        ensures { IsAnswered (scope_seen scope.now).key self.old session.now (Request.CloseConsumer id) result self.new }
    {
        if !may_close_consumer(&self.sessions, &self.consumers, session, id) {
            return Err(Refusal::IllegalState);
        }
        self.close(scope.key(), &Consumers::One(*session, id));
        Ok(Answer::Done)
    }

    /// Delivers the next message to the consumer, where it may receive, as the mode of its session says; on a stopped
    /// connection there is nothing. `IllegalState` where the session is not open, or the consumer not active, or listens.
    /// `AllocError` where a request for memory was refused: all stays as before.
    #[tactic(auto, unfolding(jm_machine::specs::Machine::refusal, jm_machine::specs::Machine::answer, jm_machine::specs::Lone::lone_did))]
    fn receive(
        &mut self,
        session: &SessionId,
        id: ConsumerId,
        now: Moment,
    ) -> Result<Reply, AllocError>
        ensures told { (key : OfKey) → IfOk result (λ reply.
            IsAnswered key self.old session.now (Request.Receive id now) reply self.new) }
        ensures err { OnErr result (self.new ≡ self.old) }
    {
        let Some(mode) = self.mode_of(session) else {
            return Ok(Err(Refusal::IllegalState));
        };
        if !is_active(&self.consumers, session, id) || is_listening(&self.consumers, session, id) {
            return Ok(Err(Refusal::IllegalState));
        }
        if !is_started(&self.connections, session.connection) {
            return Ok(Ok(Answer::Nothing));
        }
        let answer = self.rows.receive(mode, session, id, now)?;
        Ok(Ok(answer))
    }

    /// How many publications the subscription missed, where the consumer may ask. `IllegalState` where the session is not open
    /// or the consumer not active.
    #[tactic(auto, unfolding(jm_machine::specs::Machine::refusal, jm_machine::specs::Machine::answer))]
    fn missed(&self, session: &SessionId, id: ConsumerId) -> Reply
        ensures { result ≡ spec.lone_reply self.now (Who.Session session.now) (Request.Missed id) }
    {
        if self.mode_of(session).is_none() || !is_active(&self.consumers, session, id) {
            return Err(Refusal::IllegalState);
        }
        Ok(Answer::Missed(self.missed))
    }

    /// Whether the session's consumer of that number may be used: the session is open, and the consumer active.
    fn may_use(&self, session: &SessionId, id: ConsumerId) -> bool
        ensures { result ≡ machine.may_use self.now.life self.now.consumers session.now id }
    {
        self.mode_of(session).is_some() && is_active(&self.consumers, session, id)
    }

    /// Sets the consumer's listener, or takes it away. `IllegalState` where the consumer may not be used, or is busy.
    #[tactic(auto, unfolding(jm_machine::specs::Machine::refusal, jm_machine::specs::Machine::answer, jm_machine::specs::Lone::lone_did))]
    fn set_listener(&mut self, session: &SessionId, id: ConsumerId, on: bool) -> Reply
        ensures { (key : OfKey) →
            IsAnswered key self.old session.now (Request.SetListener id on) result self.new }
    {
        if !self.may_use(session, id) || is_busy(&self.consumers, session, id) {
            return Err(Refusal::IllegalState);
        }
        set_listening(&mut self.consumers, session, id, on);
        Ok(Answer::Done)
    }

    /// The next message goes out to the consumer's listener; where there is one, the consumer is busy. `AllocError` where a
    /// request for memory was refused: all stays as before.
    fn take_next(
        &mut self,
        session: &SessionId,
        id: ConsumerId,
        now: Moment,
    ) -> Result<Answer, AllocError>
        ensures answer { IfOk result (λ answer. answer ≡ machine.delivery (rows.next now (rows.live now self.old.rows))) }
        ensures lone { OnOk result (self.new ≡ spec.lone_take session.now id now self.old) }
        ensures err { OnErr result (self.new ≡ self.old) }
    {
        let answer = self.rows.take(session, id, now)?;
        set_busy(&mut self.consumers, session, id, is_delivered(&answer));
        Ok(answer)
    }

    /// Gives the next message to the consumer's listener, where it may take one: what it takes is out in every mode. On a
    /// stopped connection there is nothing. `IllegalState` where the consumer may not be used, does not listen, or is busy.
    /// `AllocError` where a request for memory was refused: all stays as before.
    #[tactic(auto, unfolding(jm_machine::specs::Machine::refusal, jm_machine::specs::Machine::answer, jm_machine::specs::Lone::lone_did))]
    fn take(
        &mut self,
        session: &SessionId,
        id: ConsumerId,
        now: Moment,
    ) -> Result<Reply, AllocError>
        ensures told { (key : OfKey) → IfOk result (λ reply.
            IsAnswered key self.old session.now (Request.Take id now) reply self.new) }
        ensures err { OnErr result (self.new ≡ self.old) }
    {
        let listens = is_listening(&self.consumers, session, id);
        if !self.may_use(session, id) || !listens || is_busy(&self.consumers, session, id) {
            return Ok(Err(Refusal::IllegalState));
        }
        if is_started(&self.connections, session.connection) {
            Ok(Ok(self.take_next(session, id, now)?))
        } else {
            Ok(Ok(Answer::Nothing))
        }
    }

    /// Settles what is out through the consumer, where `ok` is set, or else lets it wait again, where the mode of its session
    /// settles a message as it is delivered.
    fn finish(&mut self, session: &SessionId, id: ConsumerId, ok: bool)
        ensures { self.new ≡ (if settles_at_once (mode_in self.old.life session.now)
            then (if ok then spec.lone_settled (machine.of_number session.now id) self.old
            else spec.lone_returned (machine.of_number session.now id) self.old)
            else self.old) }
    {
        if let Some(Mode::Auto | Mode::Dups) = self.mode_of(session) {
            let which = Consumers::One(*session, id);
            if ok {
                self.rows.settle(&which);
            } else {
                self.rows.give_back(&which);
            }
        }
    }

    /// Ends the delivery for which the consumer is busy. `IllegalState` where the consumer may not be used, or is not busy.
    #[tactic(auto, unfolding(jm_machine::specs::Machine::refusal, jm_machine::specs::Machine::answer, jm_machine::specs::Lone::lone_did))]
    fn done(&mut self, session: &SessionId, id: ConsumerId, ok: bool) -> Reply
        ensures { (key : OfKey) →
            IsAnswered key self.old session.now (Request.Done id ok) result self.new }
    {
        if !self.may_use(session, id) || !is_busy(&self.consumers, session, id) {
            return Err(Refusal::IllegalState);
        }
        set_busy(&mut self.consumers, session, id, false);
        self.finish(session, id, ok);
        Ok(Answer::Done)
    }

    /// Settles what is out to the session, where it is open and its mode lets the client acknowledge.
    fn acknowledge(&mut self, id: &SessionId)
        ensures { self.new ≡ (if machine.is_client (mode_in self.old.life id.now)
            then spec.lone_settled (machine.of_session id.now) self.old else self.old) }
    {
        if let Some(Mode::Client) = self.mode_of(id) {
            self.rows.settle(&Consumers::OfSession(*id));
        }
    }

    /// Lets what is out to the session wait again, where it is open and not transacted.
    fn recover(&mut self, id: &SessionId)
        ensures { self.new ≡ (if machine.is_untransacted (mode_in self.old.life id.now)
            then spec.lone_returned (machine.of_session id.now) self.old else self.old) }
    {
        if let Some(Mode::Auto | Mode::Client | Mode::Dups) = self.mode_of(id) {
            self.rows.give_back(&Consumers::OfSession(*id));
        }
    }

    /// Lets what is out to the session wait again, where it is open and transacted.
    fn roll_back(&mut self, id: &SessionId)
        ensures { self.new ≡ (if machine.is_transacted (mode_in self.old.life id.now)
            then spec.lone_returned (machine.of_session id.now) self.old else self.old) }
    {
        if let Some(Mode::Transacted) = self.mode_of(id) {
            self.rows.give_back(&Consumers::OfSession(*id));
        }
    }

    /// Takes up a request that is about the whole session, where it is not refused. `AllocError` where a request for memory was
    /// refused: all stays as before.
    #[tactic(auto, unfolding(jm_machine::specs::Machine::refusal, jm_machine::specs::Lone::lone_did, jm_machine::specs::Life::life_after))]
    fn take_up(
        &mut self,
        scope: &Scope,
        session: &SessionId,
        request: &Request,
    ) -> Result<(), AllocError>
        requires { is_held_alone (scope_seen scope.now).key ≡ true }
        ensures ok { OnOk result (self.new ≡ (if is_whole_session (spec.about (scope_seen scope.now) session.now request.now)
            then spec.lone_after (scope_seen scope.now) self.old (Called (Who.Session session.now) request.now)
            else self.old)) }
        ensures err { OnErr result (self.new ≡ self.old) }
    {
        match request {
            Request::CreateSession { mode } => self.create_session(session, *mode)?,
            Request::CloseSession => self.close_session(scope, session),
            Request::Acknowledge => self.acknowledge(session),
            Request::Recover => self.recover(session),
            Request::Rollback => self.roll_back(session),
            _ => {}
        }
        Ok(())
    }

    /// What is answered to a session's request, and taken up of it. `AllocError` where a request for memory was refused: all
    /// stays as before.
    #[tactic(auto, unfolding(jm_machine::specs::Lone::is_answered))]
    fn ask_session(
        &mut self,
        alloc: Global,
        scope: &Scope,
        session: &SessionId,
        request: &Request,
    ) -> Result<Option<Reply>, AllocError>
        requires alone { is_held_alone (scope_seen scope.now).key ≡ true }
        requires unshared { asks_no_shared (scope_seen scope.now) (Who.Session session.now) request.now ≡ true }
        ensures told { IfOk result (λ reply.
            let item = Called (Who.Session session.now) request.now in
            (reply ≡ spec.lone_told (scope_seen scope.now) self.old item)
            × (self.new ≡ spec.lone_after (scope_seen scope.now) self.old item)) }
        ensures err { OnErr result (self.new ≡ self.old) }
    {
        match request {
            Request::CreateConsumer {
                consumer,
                destination: Destination::Topic(topic),
                selector,
                no_local,
            } if scope.names(session, request) => {
                let reply = self.create_own(
                    alloc, scope, session, *consumer, topic, selector, *no_local,
                )?;
                Ok(Some(reply))
            }
            Request::CreateDurable {
                consumer,
                destination,
                name: _,
                selector,
                no_local,
            } if scope.names(session, request) => {
                let reply = self.create_durable(
                    alloc,
                    scope,
                    session,
                    *consumer,
                    destination,
                    selector,
                    *no_local,
                )?;
                Ok(Some(reply))
            }
            Request::Unsubscribe { name } if scope.deletes(session, name) => {
                Ok(Some(self.unsubscribe(session)))
            }
            Request::CloseConsumer { consumer } if scope.belongs(session, *consumer) => {
                Ok(Some(self.close_consumer(scope, session, *consumer)))
            }
            Request::Receive { consumer, now } if scope.belongs(session, *consumer) => {
                Ok(Some(self.receive(session, *consumer, *now)?))
            }
            Request::Missed { consumer } if scope.belongs(session, *consumer) => {
                Ok(Some(self.missed(session, *consumer)))
            }
            Request::SetListener { consumer, on } if scope.belongs(session, *consumer) => {
                Ok(Some(self.set_listener(session, *consumer, *on)))
            }
            Request::Take { consumer, now } if scope.belongs(session, *consumer) => {
                Ok(Some(self.take(session, *consumer, *now)?))
            }
            Request::Done { consumer, ok } if scope.belongs(session, *consumer) => {
                Ok(Some(self.done(session, *consumer, *ok)))
            }
            _ => {
                self.take_up(scope, session, request)?;
                Ok(None)
            }
        }
    }

    /// Takes up a call, and answers it where the reply to it is the subscription's: where it is a session's request that
    /// creates a consumer of its key, deletes it, or names one of its consumers. Of a connection's calls it is to be told
    /// those that were accepted. `None` where the reply is not the subscription's. `AllocError` where a request for memory
    /// was refused: all stays as before.
    #[tactic(auto, unfolding(jm_machine::specs::Lone::is_answered))]
    pub fn ask(
        &mut self,
        alloc: Global,
        scope: &Scope,
        who: Who,
        request: &Request,
    ) -> Result<Option<Reply>, AllocError>
        // the key is a consumer's own, or a durable one
        requires alone { is_held_alone (scope_seen scope.now).key ≡ true }
        // which is not asked for as a shared one
        requires unshared { asks_no_shared (scope_seen scope.now) who request.now ≡ true }
        ensures told { IfOk result (λ reply.
            let item = Called who request.now in
            (reply ≡ spec.lone_told (scope_seen scope.now) self.old item)
            × (self.new ≡ spec.lone_after (scope_seen scope.now) self.old item)) }
        ensures err { OnErr result (self.new ≡ self.old) }
    {
        match who {
            Who::Connection(id) => {
                self.ask_connection(scope, id, request)?;
                Ok(None)
            }
            Who::Session(session) => self.ask_session(alloc, scope, &session, request),
        }
    }
}
