//! Plans steps: finds why a step is refused, and else takes all the memory that it needs.

ghost use Rattle.std.specs.Prelude.{◌≡◌, Bool, true, Some};
ghost use Rattle.jm_dest.specs.declared.destination.Destination.TheVariants as destination;
ghost use Rattle.jm_base.specs.declared.mode.Mode.TheVariants as mode;
ghost use Rattle.jm_machine.specs.Life as life;
ghost use Rattle.jm_machine.specs.Machine.{consumer_of, may_receive, may_take};
ghost use Rattle.jm_plans.specs.Plans.{PlanFits};
ghost use Rattle.jm_parts.specs.Takings.{source_of};

use crate::state::CoreState;
use jm_base::{Boxed, Mode, Refusal, Str};
use jm_dest::{
    ClientId, ConnectionId, ConsumerId, Destination, Key, Moment, Name, SessionId, SubscriptionName,
};
use jm_header::Message;
use jm_machine::{Call, Consumer, Request, Step, Who};
use jm_parts::create::{prepare_create, prepare_create_of};
use jm_parts::life::{prepare_open, prepare_session};
use jm_parts::listen::taker;
use jm_parts::named::Wanted;
use jm_parts::publish::Publication;
use jm_parts::receive::{
    Receiver, Taking, missed_key, missed_under, prepare_delivery, prepare_delivery_from, receiving,
};
use jm_session::Source;
use jm_sub::{Decision, Sharing};

/// What a step changes, with all that was prepared for it.
#[derive(Drop)]
pub enum Change {
    /// For a client, or for none.
    Open(ConnectionId, Option<ClientId>),
    Start(ConnectionId),
    Stop(ConnectionId),
    CloseConnection(ConnectionId),
    CreateSession(SessionId, Mode),
    CloseSession(SessionId),
    /// Where a subscription was decided, it takes the place of any other of its key first, of which a copy stands
    /// beside it.
    CreateConsumer(SessionId, ConsumerId, Boxed<Source>, Option<Boxed<(Key, Decision)>>),
    /// The subscription of that key.
    Unsubscribe(Key),
    CloseConsumer(SessionId, ConsumerId),
    /// What the receiver takes: nothing where the connection is stopped.
    Receive(Receiver, Option<Taking>),
    /// What it takes from its consumer's queue.
    ReceiveFrom(Receiver, Option<Taking>),
    /// Whether the consumer listens from then on.
    SetListener(SessionId, ConsumerId, bool),
    /// What the receiver's listener takes; what it takes stays held, as in mode `Client`.
    Take(Receiver, Option<Taking>),
    /// What it takes from its consumer's queue.
    TakeFrom(Receiver, Option<Taking>),
    /// A listener takes while its connection is stopped.
    Nothing,
    /// Whether what is out through the consumer is settled, where the mode settles a message in the step that delivers it.
    Done(SessionId, ConsumerId, Mode, bool),
    Acknowledge(SessionId, Mode),
    Recover(SessionId),
    Rollback(SessionId),
    /// So many publications were missed.
    Missed(u64),
    Publish(Vec<Publication>),
    /// What the session's transaction sent.
    Commit(SessionId, Vec<Publication>),
}

impl CoreState {
    /// Plans one step, as `Core::plan` says.
    pub fn plan(&mut self, step: &Step) -> Result<Change, Refusal>
        ensures { PlanFits self.old step.now.who step.now.call result self.new }
    {
        match &step.call {
            Call::Ask(request) => self.plan_request(step.who, request),
            Call::Publish(messages) => self.plan_publication(step.who, messages.as_slice()),
            Call::Commit(messages) => self.plan_commit(step.who, messages.as_slice()),
        }
    }

    /// Plans one step that asks for something.
    pub(crate) fn plan_request(&mut self, who: Who, request: &Request) -> Result<Change, Refusal>
        ensures { PlanFits self.old who (Call.Ask request.now) result self.new }
    {
        match who {
            Who::Connection(connection) => self.plan_of_connection(connection, request),
            Who::Session(session) => self.plan_of_session(&session, request),
        }
    }

    #[tactic(auto, unfolding(jm_machine::specs::Machine::refusal, jm_machine::specs::Machine::reply))]
    fn plan_of_connection(
        &mut self,
        connection: ConnectionId,
        request: &Request,
    ) -> Result<Change, Refusal>
        ensures { PlanFits self.old (Who.Connection connection) (Call.Ask request.now) result self.new }
    {
        match request {
            Request::Open { client } => self.plan_open(connection, client),
            Request::Start => self.plan_start(connection),
            Request::Stop => self.plan_stop(connection),
            Request::CloseConnection => self.plan_close_connection(connection),
            Request::CreateSession { .. }
            | Request::CloseSession
            | Request::CreateConsumer { .. }
            | Request::CreateDurable { .. }
            | Request::CreateShared { .. }
            | Request::CreateSharedDurable { .. }
            | Request::Unsubscribe { .. }
            | Request::CloseConsumer { .. }
            | Request::Receive { .. }
            | Request::Acknowledge
            | Request::Recover
            | Request::Rollback
            | Request::Missed { .. }
            | Request::SetListener { .. }
            | Request::Take { .. }
            | Request::Done { .. } => Err(Refusal::IllegalState),
        }
    }

    #[tactic(auto, unfolding(jm_machine::specs::Machine::refusal, jm_machine::specs::Machine::reply))]
    fn plan_of_session(&mut self, session: &SessionId, request: &Request) -> Result<Change, Refusal>
        ensures { PlanFits self.old (Who.Session session.now) (Call.Ask request.now) result self.new }
    {
        match request {
            Request::CreateSession { mode } => self.plan_session(session, *mode),
            Request::CloseSession => self.plan_close_session(session),
            Request::CreateConsumer {
                consumer,
                destination,
                selector,
                no_local,
            } => self.plan_consumer(session, *consumer, destination, selector, *no_local),
            Request::CreateDurable {
                consumer,
                destination,
                name,
                selector,
                no_local,
            } => self.plan_durable(session, *consumer, destination, name, selector, *no_local),
            Request::CreateShared {
                consumer,
                destination,
                name,
                selector,
            } => self.plan_shared(session, *consumer, destination, name, selector),
            Request::CreateSharedDurable {
                consumer,
                destination,
                name,
                selector,
            } => self.plan_shared_durable(session, *consumer, destination, name, selector),
            Request::Unsubscribe { name } => self.plan_unsubscribe(session, name),
            Request::CloseConsumer { consumer } => self.plan_close_consumer(session, *consumer),
            Request::Receive { consumer, now } => self.plan_delivery(session, *consumer, *now),
            Request::Acknowledge => self.plan_acknowledge(session),
            Request::Recover => self.plan_recover(session),
            Request::Rollback => self.plan_rollback(session),
            Request::Missed { consumer } => self.plan_missed(session, *consumer),
            Request::SetListener { consumer, on } => self.plan_listener(session, *consumer, *on),
            Request::Take { consumer, now } => self.plan_take(session, *consumer, *now),
            Request::Done { consumer, ok } => self.plan_done(session, *consumer, *ok),
            Request::Open { client: _ }
            | Request::Start
            | Request::Stop
            | Request::CloseConnection => Err(Refusal::IllegalState),
        }
    }

    #[tactic(auto, unfolding(jm_machine::specs::Machine::refusal, jm_machine::specs::Machine::reply, jm_machine::specs::Wants::may_want))]
    fn plan_open(&mut self, id: ConnectionId, client: &Option<ClientId>) -> Result<Change, Refusal>
        ensures { PlanFits self.old (Who.Connection id) (Call.Ask (Request.Open client.now)) result self.new }
    {
        let client = prepare_open(&mut self.sessions, id, client)?;
        Ok(Change::Open(id, client))
    }

    #[tactic(auto, unfolding(jm_machine::specs::Machine::refusal, jm_machine::specs::Machine::reply))]
    fn plan_start(&self, id: ConnectionId) -> Result<Change, Refusal>
        ensures { PlanFits self.now (Who.Connection id) (Call.Ask Request.Start) result self.now }
    {
        if !self.sessions.is_open_connection(id) {
            return Err(Refusal::IllegalState);
        }
        Ok(Change::Start(id))
    }

    #[tactic(auto, unfolding(jm_machine::specs::Machine::refusal, jm_machine::specs::Machine::reply))]
    fn plan_stop(&self, id: ConnectionId) -> Result<Change, Refusal>
        ensures { PlanFits self.now (Who.Connection id) (Call.Ask Request.Stop) result self.now }
    {
        if !self.sessions.is_open_connection(id) {
            return Err(Refusal::IllegalState);
        }
        Ok(Change::Stop(id))
    }

    #[tactic(auto, unfolding(jm_machine::specs::Machine::refusal, jm_machine::specs::Machine::reply))]
    fn plan_close_connection(&self, id: ConnectionId) -> Result<Change, Refusal>
        ensures { PlanFits self.now (Who.Connection id) (Call.Ask Request.CloseConnection) result self.now }
    {
        if !self.sessions.is_used(id) {
            return Err(Refusal::IllegalState);
        }
        Ok(Change::CloseConnection(id))
    }

    #[tactic(auto, unfolding(jm_machine::specs::Machine::refusal, jm_machine::specs::Machine::reply, jm_machine::specs::Wants::may_want))]
    fn plan_session(&mut self, id: &SessionId, mode: Mode) -> Result<Change, Refusal>
        ensures { PlanFits self.old (Who.Session id.now) (Call.Ask (Request.CreateSession mode)) result self.new }
    {
        prepare_session(&mut self.sessions, id)?;
        Ok(Change::CreateSession(*id, mode))
    }

    #[tactic(auto, unfolding(jm_machine::specs::Machine::refusal, jm_machine::specs::Machine::reply))]
    fn plan_close_session(&self, id: &SessionId) -> Result<Change, Refusal>
        ensures { PlanFits self.now (Who.Session id.now) (Call.Ask Request.CloseSession) result self.now }
    {
        if !self.sessions.may_close_session(id) {
            return Err(Refusal::IllegalState);
        }
        Ok(Change::CloseSession(*id))
    }

    fn plan_consumer(
        &mut self,
        session: &SessionId,
        id: ConsumerId,
        destination: &Destination,
        selector: &Option<Str>,
        no_local: bool,
    ) -> Result<Change, Refusal>
        ensures { PlanFits self.old (Who.Session session.now)
            (Call.Ask (Request.CreateConsumer id destination.now selector.now no_local)) result self.new }
    {
        match destination {
            Destination::Queue(queue) => { self.plan_consumer_of(session, id, queue, selector) }
            Destination::Topic(topic) => {
                self.plan_subscription(session, id, topic, selector, no_local)
            }
        }
    }

    /// Plans a consumer of a queue, to which it makes no difference whether it asks for none that is local.
    fn plan_consumer_of(
        &mut self,
        session: &SessionId,
        id: ConsumerId,
        queue: &Name,
        selector: &Option<Str>,
    ) -> Result<Change, Refusal>
        ensures { (no_local : Bool) → PlanFits self.old (Who.Session session.now)
            (Call.Ask (Request.CreateConsumer id (destination.Queue queue.now) selector.now no_local)) result self.new }
    {
        let source = prepare_create_of(
            self.alloc,
            &mut self.sessions,
            session,
            id,
            queue,
            selector,
        )?;
        Ok(Change::CreateConsumer(*session, id, source, None))
    }

    /// Plans a consumer of a topic, with a subscription of its own.
    fn plan_subscription(
        &mut self,
        session: &SessionId,
        id: ConsumerId,
        topic: &Name,
        selector: &Option<Str>,
        no_local: bool,
    ) -> Result<Change, Refusal>
        ensures { PlanFits self.old (Who.Session session.now)
            (Call.Ask (Request.CreateConsumer id (destination.Topic topic.now) selector.now no_local)) result self.new }
    {
        let (source, decision) = prepare_create(
            self.alloc,
            &mut self.sessions,
            &mut self.subs,
            &mut self.stations,
            session,
            id,
            topic,
            selector,
            no_local,
        )?;
        Ok(Change::CreateConsumer(*session, id, source, Some(decision)))
    }

    /// Plans a consumer of an unshared durable subscription.
    fn plan_durable(
        &mut self,
        session: &SessionId,
        id: ConsumerId,
        destination: &Destination,
        name: &SubscriptionName,
        selector: &Option<Str>,
        no_local: bool,
    ) -> Result<Change, Refusal>
        ensures { PlanFits self.old (Who.Session session.now)
            (Call.Ask (Request.CreateDurable id destination.now name.now selector.now no_local)) result self.new }
    {
        let wanted = Wanted {
            destination,
            name,
            selector,
            no_local,
            sharing: Sharing::Unshared,
        };
        self.plan_named(session, id, &wanted)
    }

    /// Plans a consumer of a shared non-durable subscription.
    fn plan_shared(
        &mut self,
        session: &SessionId,
        id: ConsumerId,
        destination: &Destination,
        name: &SubscriptionName,
        selector: &Option<Str>,
    ) -> Result<Change, Refusal>
        ensures { PlanFits self.old (Who.Session session.now)
            (Call.Ask (Request.CreateShared id destination.now name.now selector.now)) result self.new }
    {
        let wanted = Wanted {
            destination,
            name,
            selector,
            no_local: false,
            sharing: Sharing::Shared,
        };
        self.plan_named(session, id, &wanted)
    }

    /// Plans a consumer of a shared durable subscription.
    fn plan_shared_durable(
        &mut self,
        session: &SessionId,
        id: ConsumerId,
        destination: &Destination,
        name: &SubscriptionName,
        selector: &Option<Str>,
    ) -> Result<Change, Refusal>
        ensures { PlanFits self.old (Who.Session session.now)
            (Call.Ask (Request.CreateSharedDurable id destination.now name.now selector.now)) result self.new }
    {
        let wanted = Wanted {
            destination,
            name,
            selector,
            no_local: false,
            sharing: Sharing::SharedDurable,
        };
        self.plan_named(session, id, &wanted)
    }

    #[tactic(auto, unfolding(jm_machine::specs::Machine::refusal, jm_machine::specs::Machine::reply))]
    fn plan_close_consumer(&self, session: &SessionId, id: ConsumerId) -> Result<Change, Refusal>
        ensures { PlanFits self.now (Who.Session session.now) (Call.Ask (Request.CloseConsumer id)) result self.now }
    {
        if !self.sessions.may_close_consumer(session, id) {
            return Err(Refusal::IllegalState);
        }
        Ok(Change::CloseConsumer(*session, id))
    }

    fn plan_delivery(
        &self,
        session: &SessionId,
        consumer: ConsumerId,
        now: Moment,
    ) -> Result<Change, Refusal>
        ensures { PlanFits self.now (Who.Session session.now) (Call.Ask (Request.Receive consumer now)) result self.now }
    {
        let (mode, source) = receiving(&self.sessions, session, consumer)?;
        let receiver = Receiver {
            session: *session,
            mode,
            consumer,
            moment: now,
        };
        match source {
            None => Ok(Change::Receive(receiver, None)),
            Some(source) => self.plan_delivery_to(receiver, source),
        }
    }

    /// Plans a delivery to a consumer that may receive, of a connection that is started.
    fn plan_delivery_to(&self, receiver: Receiver, source: &Consumer) -> Result<Change, Refusal>
        requires mode { life.mode_of self.now.known.life receiver.session ≡ Some receiver.mode }
        requires allowed { may_receive self.now.known.life self.now.known.consumers receiver.session receiver.consumer ≡ true }
        requires source { source_of self.now.known.life self.now.known.consumers receiver.session receiver.consumer ≡ Some source.now }
        ensures { PlanFits self.now (Who.Session receiver.session)
            (Call.Ask (Request.Receive receiver.consumer receiver.moment)) result self.now }
    {
        match &source.key {
            Key::Queue(_) => {
                let taking = prepare_delivery_from(&self.queues, source, &receiver)?;
                Ok(Change::ReceiveFrom(receiver, taking))
            }
            Key::Own(_, _) | Key::SharedOwn(_, _) | Key::Durable(_, _) => {
                let taking = prepare_delivery(&self.stations, &source.key, &receiver)?;
                Ok(Change::Receive(receiver, taking))
            }
        }
    }

    #[tactic(auto, unfolding(jm_machine::specs::Machine::refusal, jm_machine::specs::Machine::reply))]
    fn plan_listener(
        &self,
        session: &SessionId,
        id: ConsumerId,
        on: bool,
    ) -> Result<Change, Refusal>
        ensures { PlanFits self.now (Who.Session session.now) (Call.Ask (Request.SetListener id on)) result self.now }
    {
        if !self.sessions.may_set_listener(session, id) {
            return Err(Refusal::IllegalState);
        }
        Ok(Change::SetListener(*session, id, on))
    }

    fn plan_take(
        &self,
        session: &SessionId,
        consumer: ConsumerId,
        now: Moment,
    ) -> Result<Change, Refusal>
        ensures { PlanFits self.now (Who.Session session.now) (Call.Ask (Request.Take consumer now)) result self.now }
    {
        let source = taker(&self.sessions, session, consumer)?;
        if !self.sessions.is_started(session.connection) {
            return Ok(Change::Nothing);
        }
        let receiver = Receiver {
            session: *session,
            mode: Mode::Client,
            consumer,
            moment: now,
        };
        self.plan_take_by(receiver, source)
    }

    /// Plans a delivery to the listener of a consumer that may take, of a connection that is started.
    fn plan_take_by(&self, receiver: Receiver, source: &Consumer) -> Result<Change, Refusal>
        requires mode { receiver.mode ≡ mode.Client }
        requires started { life.is_started self.now.known.life receiver.session.connection ≡ true }
        requires allowed { may_take self.now.known.life self.now.known.consumers receiver.session receiver.consumer ≡ true }
        requires source { consumer_of self.now.known.consumers receiver.session receiver.consumer ≡ Some source.now }
        ensures { PlanFits self.now (Who.Session receiver.session)
            (Call.Ask (Request.Take receiver.consumer receiver.moment)) result self.now }
    {
        match &source.key {
            Key::Queue(_) => {
                let taking = prepare_delivery_from(&self.queues, source, &receiver)?;
                Ok(Change::TakeFrom(receiver, taking))
            }
            Key::Own(_, _) | Key::SharedOwn(_, _) | Key::Durable(_, _) => {
                let taking = prepare_delivery(&self.stations, &source.key, &receiver)?;
                Ok(Change::Take(receiver, taking))
            }
        }
    }

    #[tactic(auto, unfolding(jm_machine::specs::Machine::refusal, jm_machine::specs::Machine::reply))]
    fn plan_done(&self, session: &SessionId, id: ConsumerId, ok: bool) -> Result<Change, Refusal>
        ensures { PlanFits self.now (Who.Session session.now) (Call.Ask (Request.Done id ok)) result self.now }
    {
        let Some(mode) = self.sessions.mode_of(session) else {
            return Err(Refusal::IllegalState);
        };
        if !self.sessions.may_be_done(session, id) {
            return Err(Refusal::IllegalState);
        }
        Ok(Change::Done(*session, id, mode, ok))
    }

    #[tactic(auto, unfolding(jm_machine::specs::Machine::refusal, jm_machine::specs::Machine::reply))]
    fn plan_acknowledge(&self, id: &SessionId) -> Result<Change, Refusal>
        ensures { PlanFits self.now (Who.Session id.now) (Call.Ask Request.Acknowledge) result self.now }
    {
        match self.sessions.mode_of(id) {
            Some(mode) => Ok(Change::Acknowledge(*id, mode)),
            None => Err(Refusal::IllegalState),
        }
    }

    #[tactic(auto, unfolding(jm_machine::specs::Machine::refusal, jm_machine::specs::Machine::reply))]
    fn plan_recover(&self, id: &SessionId) -> Result<Change, Refusal>
        ensures { PlanFits self.now (Who.Session id.now) (Call.Ask Request.Recover) result self.now }
    {
        if !self.is_untransacted(id) {
            return Err(Refusal::IllegalState);
        }
        Ok(Change::Recover(*id))
    }

    #[tactic(auto, unfolding(jm_machine::specs::Machine::refusal, jm_machine::specs::Machine::reply))]
    fn plan_rollback(&self, id: &SessionId) -> Result<Change, Refusal>
        ensures { PlanFits self.now (Who.Session id.now) (Call.Ask Request.Rollback) result self.now }
    {
        if !self.is_transacted(id) {
            return Err(Refusal::IllegalState);
        }
        Ok(Change::Rollback(*id))
    }

    fn plan_missed(&self, session: &SessionId, id: ConsumerId) -> Result<Change, Refusal>
        ensures { PlanFits self.now (Who.Session session.now) (Call.Ask (Request.Missed id)) result self.now }
    {
        let key = missed_key(&self.sessions, session, id)?;
        Ok(Change::Missed(missed_under(&self.stations, key)))
    }

    #[tactic(auto, unfolding(jm_machine::specs::Machine::publish_refusal, jm_machine::specs::Machine::reply))]
    fn plan_publication(&mut self, who: Who, messages: &[Message]) -> Result<Change, Refusal>
        ensures { PlanFits self.old who (Call.Publish messages.now) result self.new }
    {
        match who {
            Who::Connection(_) => Err(Refusal::IllegalState),
            Who::Session(session) => self.plan_publication_from(&session, messages),
        }
    }

    /// Plans to publish copies of messages that the session stamped, each at a place of its own.
    fn plan_publication_from(
        &mut self,
        session: &SessionId,
        messages: &[Message],
    ) -> Result<Change, Refusal>
        ensures { PlanFits self.old (Who.Session session.now) (Call.Publish messages.now) result self.new }
    {
        if !self.may_publish(session, messages) {
            return Err(Refusal::IllegalState);
        }
        let publications = self.prepare_messages(messages)?;
        Ok(Change::Publish(publications))
    }

    #[tactic(auto, unfolding(jm_machine::specs::Machine::commit_refusal, jm_machine::specs::Machine::reply))]
    fn plan_commit(&mut self, who: Who, messages: &[Message]) -> Result<Change, Refusal>
        ensures { PlanFits self.old who (Call.Commit messages.now) result self.new }
    {
        match who {
            Who::Connection(_) => Err(Refusal::IllegalState),
            Who::Session(session) => self.plan_commit_from(&session, messages),
        }
    }

    /// Plans to commit the session's transaction, with copies of the messages that it sent.
    pub(crate) fn plan_commit_from(
        &mut self,
        session: &SessionId,
        messages: &[Message],
    ) -> Result<Change, Refusal>
        ensures { PlanFits self.old (Who.Session session.now) (Call.Commit messages.now) result self.new }
    {
        if !self.may_commit(session, messages) {
            return Err(Refusal::IllegalState);
        }
        let sent = self.prepare_messages(messages)?;
        Ok(Change::Commit(*session, sent))
    }
}
