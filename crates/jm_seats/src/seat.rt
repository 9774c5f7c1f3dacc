//! The seat of one session.

ghost use Rattle.std.specs.Prelude.{◌≡◌, ◌∷◌, [], IfOk};
ghost use Rattle.jm_dest.specs.Names.{session_eq};
ghost use Rattle.jm_broker.specs.Calls.{Noted};
ghost use Rattle.jm_seats.specs.Seat as seat;
ghost use Rattle.jm_seats.specs.Seat.{unopened, with_effect, half_after, asked, PublishFits, SendFits, CommitFits, SeatFits, stamp_at};

use crate::effect::{Effect, effect_of};
use jm_audit::Pass;
use jm_base::{List, Mode, Refusal};
use jm_broker::{Broker, PlannedCore};
use jm_dest::{Destination, Moment, SessionId};
use jm_header::{Draft, Message, Sender};
use jm_keep::Keep;
use jm_machine::find::same_session;
use jm_machine::{Answer, Call, ClientCall, Reply, Request, Step, Who};
use jm_tx::{Sent, SessionHalf};
use std::alloc::{AllocError, Global};
use std::marker::Model;
use std::sync::Wait;
use std::sync::ledger::Ledger;

/// What a session's thread holds (ours): the session's half of its transaction, and the pass that notes its calls. Contracts
/// see the half as a `Buffer`, and the pass.
///
/// The seat knows of its session what it was told: the session is open from an accepted `CreateSession` of its own, whose mode
/// it has, to an accepted `CloseSession` of its own or `CloseConnection` of its connection of which it hears. A send at any
/// other time is `IllegalState`, and makes no step. Where the connection was closed and the seat has not heard of it, what is
/// sent in a session that is not transacted is refused by the provider as `IllegalState`, and what is sent in a transacted one
/// waits for a commit, which the provider refuses so.
#[derive(Drop)]
pub struct Seat<L: Ledger> {
    alloc: Global,
    sender: Sender,
    half: SessionHalf,
    pass: Pass<L>,
}

impl<L: Ledger> Model for Seat<L> {
    ghost use Rattle.std.specs.Prelude.{◌≡◌, ◌∷◌, [], IfOk};
    ghost use Rattle.jm_seats.specs.Seat.{Seated};

    ghost Value = { Seated };

    ghost view = { λ s. record { half = s.half; pass = s.pass } };

    ghost invariant = { λ s. s.half.sender ≡ s.sender };
}

/// The messages that the call carries. Takes no memory.
fn messages_of(alloc: Global, call: Call) -> Vec<Message>
    ensures { result.items ≡ seat.messages_of call }
{
    match call {
        Call::Ask(_) => Vec::new(alloc),
        Call::Publish(messages) | Call::Commit(messages) => messages.into_inner(),
    }
}

/// The message alone, in a list. `AllocError` where a request for memory was refused.
fn alone(alloc: Global, message: Message) -> Result<List<Message>, AllocError>
    ensures { IfOk result (λ messages. messages ≡ message ∷ []) }
{
    let mut messages = List::new(Vec::new(alloc));
    messages.push(message)?;
    Ok(messages)
}

/// The step by which the session publishes the messages.
fn publication(session: SessionId, messages: List<Message>) -> Step
    ensures { result ≡ seat.by_session session (Call.Publish messages) }
{
    Step {
        who: Who::Session(session),
        call: Call::Publish(messages),
    }
}

/// Makes the step, which the pass notes.
fn make<C: PlannedCore, K: Keep + Drop, L: Ledger, R: Wait>(
    rt: &R,
    broker: &Broker<C, K, L>,
    pass: &mut Pass<L>,
    step: Step,
) -> Reply
    ensures { Noted pass.old pass.new step result }
{
    broker.call(rt, pass, &step)
}

/// What a send is told, where its publication was told that.
fn told_sent(number: u64, reply: Reply) -> Reply
    ensures { result ≡ seat.told_sent number reply }
{
    match reply {
        Ok(_) => Ok(Answer::Sent(number)),
        Err(refusal) => Err(refusal),
    }
}

/// Publishes the session's message, in one step.
fn publish<C: PlannedCore, K: Keep + Drop, L: Ledger, R: Wait>(
    rt: &R,
    alloc: Global,
    broker: &Broker<C, K, L>,
    session: SessionId,
    pass: &mut Pass<L>,
    message: Message,
) -> Reply
    ensures { PublishFits session message pass.old pass.new result }
{
    let number = message.number();
    let Ok(messages) = alone(alloc, message) else {
        return Err(Refusal::Memory);
    };
    let step = publication(session, messages);
    let reply = make(rt, broker, pass, step);
    told_sent(number, reply)
}

/// Commits what waits, in one step. A commit that is refused leaves it.
fn commit<C: PlannedCore, K: Keep + Drop, L: Ledger, R: Wait>(
    rt: &R,
    alloc: Global,
    broker: &Broker<C, K, L>,
    session: SessionId,
    half: &mut SessionHalf,
    pass: &mut Pass<L>,
) -> Reply
    ensures noted { Noted pass.old pass.new (seat.committed session half.old.messages) result }
    ensures half { half.new ≡ seat.half_after_commit result half.old }
{
    let step = Step {
        who: Who::Session(session),
        call: Call::Commit(List::new(half.take_commit())),
    };
    let reply = broker.call(rt, pass, &step);
    if reply.is_err() {
        half.put_back(messages_of(alloc, step.call));
    }
    reply
}

/// The half of a session that is not open yet. Takes no memory.
fn unopened_half(alloc: Global, sender: &Sender) -> SessionHalf
    ensures { result ≡ unopened sender.now }
{
    let mut half = SessionHalf::new(alloc, *sender, Mode::Auto, 0);
    half.close();
    half
}

/// The half of the sender once the effect was had. Takes no memory.
fn have(alloc: Global, sender: Sender, half: &mut SessionHalf, effect: Effect)
    requires { half.old.sender ≡ sender }
    ensures { half.new ≡ with_effect effect half.old }
{
    match effect {
        Effect::Nothing => {}
        Effect::Opens(mode) => *half = SessionHalf::new(alloc, sender, mode, 0),
        Effect::Closes => half.close(),
        Effect::RollsBack => half.drop_all(),
    }
}

impl<L: Ledger> Seat<L> {
    /// The seat of a session that is not open yet, with the pass for its calls. Takes no memory.
    pub fn new(alloc: Global, sender: Sender, pass: Pass<L>) -> Seat<L>
        ensures half { result.half ≡ unopened sender }
        ensures pass { result.pass ≡ pass }
    {
        let half = unopened_half(alloc, &sender);
        Seat {
            alloc,
            sender,
            half,
            pass,
        }
    }

    /// The session whose seat it is.
    pub fn session(&self) -> SessionId
        ensures { result ≡ self.now.half.sender.session }
    {
        self.sender.session
    }

    /// The pass, with all that was called at the seat.
    pub fn into_pass(self) -> Pass<L>
        ensures { result ≡ self.pass }
    {
        let Seat {
            alloc: _,
            sender: _,
            half: _,
            pass,
        } = self;
        pass
    }

    /// Hears what a request of whoever made it was told: that its session is open or closed, or its transaction rolled back.
    /// What waits is dropped with the session, and with a transaction that is rolled back. Takes no memory.
    pub fn hear(&mut self, who: &Who, request: &Request, reply: &Reply)
        ensures half { self.new.half ≡ half_after who.now request.now reply.now self.old.half }
        ensures pass { self.new.pass ≡ self.old.pass }
    {
        if reply.is_ok() {
            let effect = effect_of(&self.sender.session, who, request);
            have(self.alloc, self.sender, &mut self.half, effect);
        }
    }

    /// Makes the request by one step, and hears what it is told.
    fn ask<C: PlannedCore, K: Keep + Drop, R: Wait>(
        &mut self,
        rt: &R,
        broker: &Broker<C, K, L>,
        who: Who,
        request: Request,
    ) -> Reply
        ensures noted { Noted self.old.pass self.new.pass (asked who request) result }
        ensures half { self.new.half ≡ half_after who request result self.old.half }
    {
        let effect = effect_of(&self.sender.session, &who, &request);
        let step = Step {
            who,
            call: Call::Ask(request),
        };
        let reply = broker.call(rt, &mut self.pass, &step);
        if reply.is_ok() {
            have(self.alloc, self.sender, &mut self.half, effect);
        }
        reply
    }

    /// Sends, where the session is the seat's and is open: what is stamped is published by one step, or waits for the commit.
    fn send<C: PlannedCore, K: Keep + Drop, R: Wait>(
        &mut self,
        rt: &R,
        broker: &Broker<C, K, L>,
        session: &SessionId,
        draft: Draft,
        destination: Destination,
        now: Moment,
    ) -> Reply
        ensures { SendFits (stamp_at self.old.half session.now draft destination now) self.old result self.new }
    {
        if !same_session(&self.sender.session, session) {
            return Err(Refusal::IllegalState);
        }
        match self.half.send(draft, destination, now) {
            Err(refusal) => Err(refusal),
            Ok(Sent::Kept(number)) => Ok(Answer::Sent(number)),
            Ok(Sent::Publish(message)) => publish(
                rt,
                self.alloc,
                broker,
                self.sender.session,
                &mut self.pass,
                message,
            ),
        }
    }

    /// Commits, where the session is the seat's.
    fn commit<C: PlannedCore, K: Keep + Drop, R: Wait>(
        &mut self,
        rt: &R,
        broker: &Broker<C, K, L>,
        session: &SessionId,
    ) -> Reply
        ensures { CommitFits (session_eq self.old.half.sender.session session.now) self.old result self.new }
    {
        if !same_session(&self.sender.session, session) {
            return Err(Refusal::IllegalState);
        }
        commit(
            rt,
            self.alloc,
            broker,
            self.sender.session,
            &mut self.half,
            &mut self.pass,
        )
    }

    /// Makes the client's call, as `Core::run` makes it over a core, each step in one hold of the broker's lock, which the pass
    /// notes. A request is one step; of a send in a session that is not transacted its publication is one, and of a commit; a
    /// send in a transacted session makes none, and its message waits for the commit. A commit that is refused leaves what
    /// waits, and one that is accepted leaves nothing; nor does a rollback or a close.
    ///
    /// A refusal of a step is as `Broker::call` says; then the half is as before, but that a send whose message was to be
    /// published has used its number. These refusals come without a step, and leave all as before:
    /// - `IllegalState`: a send in a session that is not open, as the seat knows, or a send or commit of another session.
    /// - `OutOfRange`: the moment of a send is past 9,223,372,036,854,775,807 together with the time to live, or with the
    ///   delivery delay.
    /// - `Exhausted`: the numbers of the session's sends are used up.
    /// - `Memory`: a request for memory was refused for a message that was to wait.
    pub fn call<C: PlannedCore, K: Keep + Drop, R: Wait>(
        &mut self,
        rt: &R,
        broker: &Broker<C, K, L>,
        call: ClientCall,
    ) -> Reply
        ensures { SeatFits self.old call result self.new }
    {
        match call {
            ClientCall::Ask { who, request } => self.ask(rt, broker, who, request),
            ClientCall::Send {
                session,
                draft,
                destination,
                now,
            } => self.send(rt, broker, &session, draft, destination, now),
            ClientCall::CommitSession(session) => self.commit(rt, broker, &session),
        }
    }
}
