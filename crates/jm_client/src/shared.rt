//! What lies under the lock.

ghost use Rattle.std.specs.Prelude.{◌≡◌, ◌+◌, ◌-◌, ◌^◌, [], ◌∷◌, true, count_by, length, Err, IfErr, MatchResult};
ghost use Rattle.jm_client.specs.Locked.{publication};
ghost use Rattle.jm_client.specs.Told as spec;
ghost use Rattle.jm_client.specs.Told.{Asks, IsOverview, IsRefusedIn, IsToldIn, Told, is_receipt, message_answer};
ghost use Rattle.jm_plans.specs.Kept.{IsNumberOfMessages};
ghost use Rattle.jm_plans.specs.Provider.{state_of};
ghost use Rattle.jm_error.specs.Refused.{without_cause};
ghost use Rattle.jm_header.specs.declared.content.Content.{Content};
ghost use Rattle.jm_kept.specs.Kept.{KeptFits};
ghost use Rattle.jm_machine.specs.Isolation.{Reached};
ghost use Rattle.jm_stations.specs.Backlogs as backlogs;
ghost use Rattle.jm_why.specs.Why.{why};

use crate::backend::Backend;
use crate::overview::Overview;
use jm_base::Refusal;
use jm_core::{Answer, Call, Core, Delivery, Request, Step, Who, law_core_reached};
use jm_dest::{ConnectionId, ConsumerId, Moment, Number, SessionId};
use jm_error::Error;
use jm_explain::send_why;
use jm_header::{Message, Sender};
use jm_machine::Consumer;
use jm_why::law_explained;
use std::alloc::Global;
use std::marker::Model;

/// What lies under the lock: a backend, and the numbers that were given last. Contracts see all of them, and the backend's core,
/// whose state is one that the provider reaches.
#[derive(Drop)]
pub struct Shared<B: Backend> {
    alloc: Global,
    backend: B,
    connections: u32,
    sessions: u32,
    consumers: u32,
}

impl<B: Backend> Model for Shared<B> {
    ghost use Rattle.jm_client.specs.Locked.{Locked};

    ghost Value = { Locked B };

    ghost view = { λ s. record {
      core = B.core_of s.backend;
      backend = s.backend;
      connections = s.connections;
      sessions = s.sessions;
      consumers = s.consumers;
    } };
}

/// The number after the one that was given last. `Exhausted` exactly where that is 4,294,967,295.
fn next_number(last: u32) -> Result<u32, Refusal>
    ensures { MatchResult result (λ n. n ≡ last + 1) (λ refusal. (refusal ≡ Refusal.Exhausted) × (last ≡ 2 ^ 32 - 1)) }
{
    match last.checked_add(1) {
        Some(number) => Ok(number),
        None => Err(Refusal::Exhausted),
    }
}

/// The greatest number of a connection, or 0 where there is none.
fn last_connection(core: &Core) -> u32 {
    let mut last = 0;
    for connection in core.connections() {
        last = connection.id.get().max(last);
    }
    last
}

/// How many of the consumers are active.
fn active(consumers: &[Consumer]) -> usize
    ensures { result ≡ count_by (λ x. x.is_active) consumers.now }
{
    let mut number: usize = 0;
    for consumer in consumers {
        if consumer.is_active {
            number += 1;
        }
    }
    number
}

/// Whether a cause stands behind the refusal.
fn has_cause(refusal: &Refusal) -> bool
    ensures { result ≡ spec.has_cause refusal.now }
{
    matches!(refusal, Refusal::IllegalState | Refusal::SubscriptionInUse)
}

/// The error of a step that was refused so by the core, which stands as it met it: with the cause of it, or without one where
/// memory was wanted to find it.
fn error_of(alloc: Global, core: &Core, step: &Step, refusal: Refusal) -> Error
    requires { IsRefusedIn (state_of core.now) step.now.who step.now.call refusal }
    ensures same { result.refusal ≡ refusal }
    ensures told { IsToldIn (state_of core.now) step.now.who step.now.call (Err result) }
{
    law_explained();
    if !has_cause(&refusal) {
        return Error::new(refusal, None);
    }
    match jm_explain::why(alloc, core, step) {
        Ok(cause) => Error::new(refusal, cause),
        Err(_) => Error::new(refusal, None),
    }
}

/// The reply to a step, where it is refused with its cause. Then the core stands as the step met it.
fn with_cause(
    alloc: Global,
    core: &Core,
    step: &Step,
    reply: Result<Answer, Refusal>,
) -> Result<Answer, Error>
    requires { IfErr reply (λ r. IsRefusedIn (state_of core.now) step.now.who step.now.call r) }
    ensures same { without_cause result ≡ reply }
    ensures told { IfErr result (λ r. IsToldIn (state_of core.now) step.now.who step.now.call (Err r)) }
{
    match reply {
        Ok(answer) => Ok(answer),
        Err(refusal) => Err(error_of(alloc, core, step, refusal)),
    }
}

/// One step of the backend, which is told with its cause where it is refused.
fn applied<B: Backend>(alloc: Global, backend: &mut B, step: &Step) -> Result<Answer, Error>
    ensures fits { KeptFits (state_of (B.core_of backend.old)) step.now.who step.now.call (without_cause result) (state_of (B.core_of backend.new)) }
    ensures told { IsToldIn (state_of (B.core_of backend.old)) step.now.who step.now.call result }
    ensures backend { B.IsStep backend.old step.now (without_cause result) backend.new }
{
    let reply = backend.apply(step);
    with_cause(alloc, backend.core(), step, reply)
}

/// The error of a publication of the session that was refused so by the core, which stands as it met it: with the cause of it.
/// Of the message, which was published alone, it needs the sender.
fn publication_error_of(
    core: &Core,
    session: &SessionId,
    sender: &Sender,
    refusal: Refusal,
) -> Error
    ensures same { result.refusal ≡ refusal }
    ensures told { (message : Content) → message.sender ≡ sender.now →
        IsRefusedIn (state_of core.now) (Who.Session session.now) (Call.Publish (message ∷ [])) refusal →
        IsToldIn (state_of core.now) (Who.Session session.now) (Call.Publish (message ∷ [])) (Err result) }
{
    law_explained();
    if !has_cause(&refusal) {
        return Error::new(refusal, None);
    }
    let cause = send_why(core, session, sender);
    Error::new(refusal, cause)
}

/// The reply to a publication of the session, where it is refused with its cause. Then the core stands as the publication met
/// it.
fn publication_with_cause(
    core: &Core,
    session: &SessionId,
    sender: &Sender,
    reply: Result<Answer, Refusal>,
) -> Result<Answer, Error>
    ensures same { without_cause result ≡ reply }
    ensures told { (message : Content) → message.sender ≡ sender.now →
        IfErr reply (λ r. IsRefusedIn (state_of core.now) (Who.Session session.now) (Call.Publish (message ∷ [])) r) →
        IfErr result (λ r. IsToldIn (state_of core.now) (Who.Session session.now) (Call.Publish (message ∷ [])) (Err r)) }
{
    match reply {
        Ok(answer) => Ok(answer),
        Err(refusal) => Err(publication_error_of(core, session, sender, refusal)),
    }
}

/// One publication by the backend, which is told with its cause where it is refused.
fn published<B: Backend>(
    backend: &mut B,
    session: &SessionId,
    message: Message,
) -> Result<Answer, Error>
    ensures fits { KeptFits (state_of (B.core_of backend.old)) (Who.Session session.now) (Call.Publish (message ∷ []))
        (without_cause result) (state_of (B.core_of backend.new)) }
    ensures told { IsToldIn (state_of (B.core_of backend.old)) (Who.Session session.now) (Call.Publish (message ∷ [])) result }
    ensures backend { B.IsStep backend.old (publication session.now message) (without_cause result) backend.new }
{
    let sender = message.sender();
    let reply = backend.publish(*session, message);
    publication_with_cause(backend.core(), session, &sender, reply)
}

/// In which way a consumer's next message is asked for.
#[derive(Clone, Copy)]
pub(crate) enum Way {
    /// By a receive.
    Receive,
    /// By a take, for its listener.
    Take,
}

/// The request for the consumer's next message at that moment.
fn request_of(way: Way, consumer: ConsumerId, now: Moment) -> Request
    ensures { result ≡ spec.asked way consumer now }
{
    match way {
        Way::Receive => Request::Receive { consumer, now },
        Way::Take => Request::Take { consumer, now },
    }
}

/// What is handed out to a request for a message that was answered so.
fn handed_out(answer: Answer) -> Option<Delivery>
    requires { is_receipt answer ≡ true }
    ensures { message_answer result ≡ answer }
{
    match answer {
        Answer::Delivered(delivery) => Some(delivery),
        Answer::Nothing => None,
        Answer::Done | Answer::Sent(_) | Answer::Missed(_) => unreachable!(),
    }
}

impl<B: Backend> Shared<B> {
    /// The backend, with numbers of connections that go on above the greatest that its core knows.
    pub(crate) fn new(alloc: Global, backend: B) -> Shared<B>
        ensures core { result.core ≡ B.core_of backend }
        ensures backend { result.backend ≡ backend }
    {
        let connections = last_connection(backend.core());
        Shared {
            alloc,
            backend,
            connections,
            sessions: 0,
            consumers: 0,
        }
    }

    /// The backend.
    pub(crate) fn into_backend(self) -> B
        ensures { result ≡ self.backend }
    {
        let Shared {
            alloc: _,
            backend,
            connections: _,
            sessions: _,
            consumers: _,
        } = self;
        backend
    }

    /// The law of the core's state, proved; the function itself does nothing.
    pub(crate) fn law_reached(&self)
        ensures { Reached (state_of self.now.core) }
    {
        law_core_reached(self.backend.core());
    }

    /// One step, as the backend makes it, with its refusals, each told with its cause in the state that the step met. Over a
    /// plain backend it has the clauses of `jm_kept::step`. The numbers stay.
    pub(crate) fn apply(&mut self, step: &Step) -> Result<Answer, Error>
        ensures fits { KeptFits (state_of self.old.core) step.now.who step.now.call (without_cause result) (state_of self.new.core) }
        ensures told { IsToldIn (state_of self.old.core) step.now.who step.now.call result }
        ensures backend { B.IsStep self.old.backend step.now (without_cause result) self.new.backend }
        ensures numbers { self.new ≡ record self.old { core = self.new.core; backend = self.new.backend } }
    {
        let Shared {
            alloc,
            backend,
            connections: _,
            sessions: _,
            consumers: _,
        } = self;
        applied(*alloc, backend, step)
    }

    /// One publication of a message that the session stamped, as `apply` makes the step of it.
    pub(crate) fn publish(&mut self, session: &SessionId, message: Message) -> Result<Answer, Error>
        ensures fits { KeptFits (state_of self.old.core) (Who.Session session.now) (Call.Publish (message ∷ []))
            (without_cause result) (state_of self.new.core) }
        ensures told { IsToldIn (state_of self.old.core) (Who.Session session.now) (Call.Publish (message ∷ [])) result }
        ensures backend { B.IsStep self.old.backend (publication session.now message) (without_cause result) self.new.backend }
        ensures numbers { self.new ≡ record self.old { core = self.new.core; backend = self.new.backend } }
    {
        let Shared {
            alloc: _,
            backend,
            connections: _,
            sessions: _,
            consumers: _,
        } = self;
        published(backend, session, message)
    }

    /// A step, and what a client may know of it.
    pub(crate) fn tell(&mut self, step: &Step) -> Result<Answer, Error>
        ensures { Told step.now.who step.now.call result }
    {
        self.law_reached();
        self.apply(step)
    }

    /// A publication, and what a client may know of it.
    pub(crate) fn tell_publication(
        &mut self,
        session: &SessionId,
        message: Message,
    ) -> Result<Answer, Error>
        ensures { Told (Who.Session session.now) (Call.Publish (message ∷ [])) result }
    {
        self.law_reached();
        self.publish(session, message)
    }

    /// The next message of the session's consumer at that moment, or none, with the refusals of `apply`.
    pub(crate) fn ask_message(
        &mut self,
        way: Way,
        session: SessionId,
        consumer: ConsumerId,
        now: Moment,
    ) -> Result<Option<Delivery>, Error>
        ensures { Asks way session consumer result }
    {
        let step = Step {
            who: Who::Session(session),
            call: Call::Ask(request_of(way, consumer, now)),
        };
        let answer = self.tell(&step)?;
        Ok(handed_out(answer))
    }

    /// Gives a connection its number, which was not given before. `Exhausted` exactly where the last one is given; then all
    /// is as before.
    pub(crate) fn give_connection(&mut self) -> Result<ConnectionId, Refusal>
        ensures { MatchResult result
            (λ id. (id ≡ self.old.connections + 1) × (self.new ≡ record self.old { connections = id }))
            (λ refusal. (refusal ≡ Refusal.Exhausted) × (self.old.connections ≡ 2 ^ 32 - 1) × (self.new ≡ self.old)) }
    {
        let number = next_number(self.connections)?;
        let id = ConnectionId::new(number)?;
        self.connections = number;
        Ok(id)
    }

    /// Gives a session its number, which was not given before. `Exhausted` exactly where the last one is given; then all is
    /// as before.
    pub(crate) fn give_session(&mut self) -> Result<Number, Refusal>
        ensures { MatchResult result
            (λ number. (number ≡ self.old.sessions + 1) × (self.new ≡ record self.old { sessions = number }))
            (λ refusal. (refusal ≡ Refusal.Exhausted) × (self.old.sessions ≡ 2 ^ 32 - 1) × (self.new ≡ self.old)) }
    {
        let next = next_number(self.sessions)?;
        let number = Number::new(next)?;
        self.sessions = next;
        Ok(number)
    }

    /// Gives a consumer its number, which was not given before. `Exhausted` exactly where the last one is given; then all is
    /// as before.
    pub(crate) fn give_consumer(&mut self) -> Result<ConsumerId, Refusal>
        ensures { MatchResult result
            (λ id. (id ≡ self.old.consumers + 1) × (self.new ≡ record self.old { consumers = id }))
            (λ refusal. (refusal ≡ Refusal.Exhausted) × (self.old.consumers ≡ 2 ^ 32 - 1) × (self.new ≡ self.old)) }
    {
        let number = next_number(self.consumers)?;
        let id = ConsumerId::new(number)?;
        self.consumers = number;
        Ok(id)
    }

    /// What is open, and what is held. Takes no memory.
    pub(crate) fn overview(&self) -> Overview
        ensures connections { result.connections ≡ count_by (λ x. x.is_open) (state_of self.now.core).life.connections }
        ensures sessions { result.sessions ≡ count_by (λ x. x.is_open) (state_of self.now.core).life.sessions }
        ensures consumers { result.consumers ≡ count_by (λ x. x.is_active) (state_of self.now.core).consumers }
        ensures subscriptions { result.subscriptions ≡ length (state_of self.now.core).stations }
        ensures held { IsNumberOfMessages result.held (state_of self.now.core).stations }
        ensures queued { backlogs.IsNumberOfMessages result.queued self.now.core.queues.list }
    {
        let core = self.backend.core();
        Overview {
            connections: core.connections().iter().filter(|x| x.is_open).count(),
            sessions: core.sessions().iter().filter(|x| x.is_open).count(),
            consumers: active(core.consumers()),
            subscriptions: core.stations_len(),
            held: core.kept(),
            queued: core.kept_by_queues(),
        }
    }

    /// The same, and what a client may know of it.
    pub(crate) fn tell_overview(&self) -> Overview
        ensures { IsOverview result }
    {
        self.law_reached();
        self.overview()
    }
}
