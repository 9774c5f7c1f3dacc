//! What one subscription holds, and what becomes of it.

ghost use Rattle.std.specs.Prelude.{◌≡◌, ◌&&◌, length, true, false, IfOk, OnOk, OnErr, if◌then◌else◌};
ghost use Rattle.std.specs.Option.{option_copied};
ghost use Rattle.jm_dest.specs.Keys.{key_eq};
ghost use Rattle.jm_machine.specs.Life.{mode_of as mode_in};
ghost use Rattle.jm_machine.specs.Machine as machine;
ghost use Rattle.jm_machine.specs.Machine.{State};
ghost use Rattle.jm_machine.specs.Lone as spec;
ghost use Rattle.jm_scope.specs.Scopes.{scope_seen};
ghost use Rattle.jm_lone.specs.Parts.{is_held_alone};

use crate::known::is_used;
use crate::marks::close_consumers;
use crate::parts::{Parts, consumers_of, own_connections, own_parts, own_sessions};
use jm_base::Mode;
use jm_dest::{ClientId, ConsumerId, Key, SessionId};
use jm_header::Message;
use jm_machine::find::mode_of;
use jm_machine::{ConnectionState, Consumer, Consumers, Definition, SessionState, Station};
use jm_rows::Rows;
use jm_scope::Scope;
use jm_selector::Selector;
use jm_sub::{accepts, is_same};
use std::alloc::{AllocError, Global};
use std::marker::Model;

/// What one subscription holds: its own connections and sessions, its consumers, what it asks for, and its rows. Contracts
/// see it as the lone subscription of the definitions. Its drop is its own, so that a function with several ways out does
/// not drop part by part on each.
pub struct Lone {
    pub(crate) connections: Vec<ConnectionState>,
    pub(crate) sessions: Vec<SessionState>,
    pub(crate) consumers: Vec<Consumer>,
    pub(crate) definition: Option<Definition>,
    /// How many publications it missed.
    pub(crate) missed: u64,
    pub(crate) rows: Rows,
    /// How many rows it may hold, where it is not durable.
    pub(crate) limit: u32,
}

impl Drop for Lone {
    fn drop(self) {
        let Lone {
            connections,
            sessions,
            consumers,
            definition,
            missed: _,
            rows,
            limit: _,
        } = self;
        drop(connections);
        drop(sessions);
        drop(consumers);
        drop(definition);
        drop(rows);
    }
}

impl Model for Lone {
    ghost use Rattle.jm_machine.specs.Lone.{Lone as LoneHeld};

    ghost Value = { LoneHeld };

    ghost view = { λ l. record {
      limit = l.limit;
      life = record { connections = l.connections.items; sessions = l.sessions.items };
      consumers = l.consumers.items;
      definition = l.definition;
      missed = l.missed;
      rows = l.rows;
    } };
}

/// Whether the consumer is one of those, and receives from the key.
fn is_one(consumer: &Consumer, key: &Key, which: &Consumers) -> bool
    ensures { result ≡ (key_eq consumer.now.key key.now && machine.are_meant which.now consumer.now.session consumer.now.id) }
{
    consumer.key.is(key) && which.include(&consumer.session, consumer.id)
}

/// Whether one of the consumers is meant, and receives from the key.
fn is_one_of(consumers: &[Consumer], key: &Key, which: &Consumers) -> bool
    ensures { result ≡ machine.is_one_of (machine.are_meant which.now) consumers.now key.now }
{
    consumers.iter().any(|x| is_one(x, key, which))
}

impl Lone {
    /// What an opening holds of the subscription to which that belongs, by its connections, sessions and consumers, by the
    /// subscription of its key, if any, and by the limit of rows that are not durable. `AllocError` where a request for memory
    /// was refused.
    #[tactic(auto, unfolding(jm_machine::specs::Lone::lone_of, jm_machine::specs::Life::own_life))]
    pub fn of(
        alloc: Global,
        scope: &Scope,
        limit: u32,
        connections: &[ConnectionState],
        sessions: &[SessionState],
        consumers: &[Consumer],
        station: Option<Station>,
    ) -> Result<Lone, AllocError>
        ensures { (state : State) → state.limit ≡ limit → state.life.connections ≡ connections.now
            → state.life.sessions ≡ sessions.now → state.consumers ≡ consumers.now
            → machine.station_of (scope_seen scope.now).key state.stations ≡ station
            → IfOk result (λ lone. lone ≡ spec.lone_of (scope_seen scope.now) state) }
    {
        let Parts {
            definition,
            missed,
            rows,
        } = own_parts(alloc, scope.key(), station)?;
        Ok(Lone {
            connections: own_connections(alloc, scope, connections)?,
            sessions: own_sessions(alloc, scope, sessions)?,
            consumers: consumers_of(alloc, scope.key(), consumers)?,
            definition,
            missed,
            rows,
            limit,
        })
    }

    /// The mode of the session, where it is open.
    pub(crate) fn mode_of(&self, session: &SessionId) -> Option<Mode>
        ensures { result ≡ mode_in self.now.life session.now }
    {
        mode_of(&self.sessions, session)
    }

    /// Whether no consumer is active.
    pub(crate) fn is_idle(&self) -> bool
        ensures { result ≡ machine.is_idle (spec.lone_holding self.now) }
    {
        !is_used(&self.consumers)
    }

    /// Whether no row is out to a session.
    pub(crate) fn is_home(&self) -> bool
        ensures { result ≡ machine.is_home (spec.lone_holding self.now) }
    {
        self.rows.is_home()
    }

    /// Whether it ends as those consumers close: a consumer's own subscription ends with it, a durable one with none.
    fn ends(&self, key: &Key, which: &Consumers) -> bool
        requires { is_held_alone key.now ≡ true }
        ensures { result ≡ machine.ends (machine.are_meant which.now) self.now.consumers key.now }
    {
        match key {
            Key::Own(..) => is_one_of(&self.consumers, key, which),
            Key::Queue(_) | Key::SharedOwn(..) | Key::Durable(..) => false,
        }
    }

    /// It ends with its rows. Takes no memory.
    pub(crate) fn end(&mut self)
        ensures { self.new ≡ spec.lone_ended self.old }
    {
        self.rows.clear();
        self.missed = 0;
        self.definition = None;
    }

    /// One that asks for that takes its place, without rows. Takes no memory.
    pub(crate) fn replace(&mut self, definition: Definition)
        ensures { self.new ≡ spec.lone_put definition self.old }
    {
        self.rows.clear();
        self.missed = 0;
        self.definition = Some(definition);
    }

    /// The session's consumer of that number joins. `AllocError` where a request for memory was refused: all stays as before.
    pub(crate) fn join(
        &mut self,
        alloc: Global,
        key: &Key,
        session: &SessionId,
        id: ConsumerId,
    ) -> Result<(), AllocError>
        ensures ok { OnOk result (self.new ≡ spec.lone_joined session.now id key.now self.old) }
        ensures err { OnErr result (self.new ≡ self.old) }
    {
        self.consumers.push(Consumer {
            session: *session,
            id,
            key: key.copy()?,
            selector: Selector::none(alloc),
            is_active: true,
            is_listening: false,
            is_busy: false,
        })?;
        Ok(())
    }

    /// The session's consumer of that number joins with a subscription that asks for that, without rows, in place of any other.
    /// `AllocError` where a request for memory was refused: all stays as before.
    pub(crate) fn make(
        &mut self,
        alloc: Global,
        key: &Key,
        session: &SessionId,
        id: ConsumerId,
        definition: Definition,
    ) -> Result<(), AllocError>
        ensures ok { OnOk result (self.new ≡ spec.lone_joined session.now id key.now (spec.lone_put definition self.old)) }
        ensures err { OnErr result (self.new ≡ self.old) }
    {
        self.join(alloc, key, session, id)?;
        self.replace(definition);
        Ok(())
    }

    /// The session's consumer of that number joins the subscription where that asks for the same, else one that does takes its
    /// place. `AllocError` where a request for memory was refused: all stays as before.
    pub(crate) fn subscribe(
        &mut self,
        alloc: Global,
        key: &Key,
        session: &SessionId,
        id: ConsumerId,
        asked: Definition,
    ) -> Result<(), AllocError>
        ensures ok { OnOk result (self.new ≡ spec.lone_subscribed session.now id key.now asked self.old) }
        ensures err { OnErr result (self.new ≡ self.old) }
    {
        if is_same(self.definition.as_ref(), &asked) {
            return self.join(alloc, key, session, id);
        }
        self.make(alloc, key, session, id, asked)
    }

    /// Those consumers are closed, and the subscription ends where it ends with them. Takes no memory.
    pub(crate) fn close(&mut self, key: &Key, which: &Consumers)
        requires { is_held_alone key.now ≡ true }
        ensures { self.new ≡ spec.lone_closed key.now (machine.are_meant which.now) self.old }
    {
        let ends = self.ends(key, which);
        close_consumers(&mut self.consumers, which);
        if ends {
            self.end();
        }
    }

    /// Rows that are out through those consumers wait again.
    pub(crate) fn give_back(&mut self, which: &Consumers)
        ensures { self.new ≡ spec.lone_returned (machine.are_meant which.now) self.old }
    {
        self.rows.give_back(which);
    }

    /// A commit of the session settles what is out to it, where it is open and transacted.
    pub fn settle(&mut self, session: &SessionId)
        ensures { self.new ≡ (if machine.is_transacted (mode_in self.old.life session.now)
            then spec.lone_settled (machine.of_session session.now) self.old else self.old) }
    {
        if let Some(Mode::Transacted) = self.mode_of(session) {
            self.rows.settle(&Consumers::OfSession(*session));
        }
    }

    /// Whether it holds as many rows as it may, of which a durable one may hold any number.
    fn is_full(&self, key: &Key) -> bool
        ensures { result ≡ machine.is_full self.now.limit key.now (length self.now.rows) }
    {
        match key {
            Key::Own(..) | Key::SharedOwn(..) => self.rows.len() >= self.limit as usize,
            Key::Queue(_) | Key::Durable(..) => false,
        }
    }

    /// A message comes that the subscription accepts; at its limit it is missed, and counted, which takes no memory.
    /// `AllocError` where a request for memory was refused, which comes only below the limit: all stays as before.
    pub fn bring(&mut self, scope: &Scope, message: &Message) -> Result<(), AllocError>
        ensures ok { OnOk result (self.new ≡ spec.lone_brought (scope_seen scope.now).key message.now self.old) }
        ensures err { OnErr result (self.new ≡ self.old) }
        ensures below { OnErr result (machine.is_full self.old.limit (scope_seen scope.now).key (length self.old.rows) ≡ false) }
    {
        if self.is_full(scope.key()) {
            self.missed = self.missed.saturating_add(1);
            return Ok(());
        }
        self.rows.push(message)
    }

    /// Whether the subscription accepts the message, whose publisher's connection has that client identifier, if any: there is
    /// one, the message goes to its topic and is not barred as a local one, and its selector selects it. Of a consumer's own
    /// subscription a message of the consumer's connection is local, of a durable one that of a connection with the
    /// subscription's client identifier.
    pub fn accepts(&self, scope: &Scope, message: &Message, client: Option<&ClientId>) -> bool
        ensures { result ≡ spec.lone_accepts (scope_seen scope.now).key self.now.definition (record { connection = message.now.sender.session.connection; client = option_copied client.entry }) message.now }
    {
        match &self.definition {
            None => false,
            Some(definition) => accepts(scope.key(), definition, message, client),
        }
    }
}
