//! The provider: the lock, and what is called through it.

ghost use Rattle.std.specs.Prelude.{◌≡◌, ◌⊎◌, false, true, Err, IfOk, IfErr, IsTrue, Ok, OnOk};
ghost use Rattle.std.specs.Option.{option_copied};
ghost use Rattle.jm_client.specs.Sends.{IsPublished};
ghost use Rattle.jm_client.specs.Told.{Answers, IsOverview, RefusesNew, Told, is_named, is_plain};
ghost use Rattle.jm_plans.specs.Provider.{state_of};
ghost use Rattle.jm_error.specs.Refused.{bare};
ghost use Rattle.jm_keep.specs.Persisted.{IsPersisted};
ghost use Rattle.jm_machine.specs.Isolation.{Reached};
ghost use Rattle.jm_machine.specs.declared.answer.Answer.TheVariants.{Done};
ghost use Rattle.jm_machine.specs.declared.call.Call.TheVariants.{Ask, Commit};
ghost use Rattle.jm_machine.specs.declared.call.Request.TheVariants.{Open};
ghost use Rattle.jm_machine.specs.declared.call.Who.TheVariants.{Connection as ByConnection, Session as BySession};

use crate::backend::Backend;
use crate::connection::Connection;
use crate::overview::Overview;
use crate::plain::Plain;
use crate::shared::Shared;
use crate::texts::client_named;
use crate::time::moment;
use jm_base::{List, Refusal};
use jm_core::{Answer, Call, Core, Request, Step, Who};
use jm_dest::{ConsumerId, Moment, Number, SessionId};
use jm_error::Error;
use jm_header::Message;
use jm_keep::{Keep, NoKeep};
use std::alloc::Global;
use std::sync::{Condvar, Mutex, Wait};
use std::time::Clock;

/// The number of the opening of a provider that keeps nothing (ours).
const OPENING: u32 = 1;

/// How many rows a subscription that is not durable may hold, in a provider that keeps nothing (ours).
const HELD_LIMIT: u32 = 100_000;

/// A provider that a service embeds (ours): one lock round its backend, which has the core, for all threads. It has the runtime,
/// which waits for the lock and tells the time, so that no call needs it. Each call is one step in one hold of the lock, but that
/// `receive` makes one each time that it looks. Nothing is promised of how long a thread waits for the lock, or of the order
/// in which those that wait go on.
#[derive(Drop)]
pub struct Provider<'r, R: Wait + Clock, B: Backend = Plain<NoKeep>> {
    pub(crate) rt: &'r R,
    pub(crate) alloc: Global,
    pub(crate) opening: Number,
    pub(crate) shared: Mutex<Shared<B>>,
    pub(crate) changed: Condvar,
}

/// What a commit hands back that was refused.
#[derive(Drop)]
pub(crate) struct NotCommitted {
    pub error: Error,
    pub messages: Vec<Message>,
}

/// The messages of a commit; none of another call.
fn committed(alloc: Global, call: Call) -> Vec<Message>
    ensures { (messages : _) → call ≡ Commit messages → result.items ≡ messages }
{
    match call {
        Call::Commit(messages) => messages.into_inner(),
        Call::Ask(_) | Call::Publish(_) => Vec::new(alloc),
    }
}

impl<'r, R: Wait + Clock> Provider<'r, R, Plain<NoKeep>> {
    /// A new provider that keeps nothing beyond the process. A subscription that is not durable may hold 100,000 messages.
    /// Takes no memory.
    pub fn in_memory(rt: &'r R, alloc: Global) -> Provider<'r, R, Plain<NoKeep>>
        ensures { result.opening ≡ 1 }
    {
        let Ok(core) = Core::new(alloc, OPENING, HELD_LIMIT) else {
            unreachable!();
        };
        Provider::over(rt, alloc, core, NoKeep)
    }
}

impl<'r, R: Wait + Clock, K: Keep + Drop> Provider<'r, R, Plain<K>> {
    /// A provider over that core and its keeper, which has stored what is stored of the core's state, where it is clean.
    /// Connections that the core knows stay as they are, and nobody has them. Takes no memory.
    pub fn over(rt: &'r R, alloc: Global, core: Core, keeper: K) -> Provider<'r, R, Plain<K>>
        requires { IsTrue (K.is_clean keeper) → IsPersisted (state_of core) (K.stored keeper) }
        ensures { result.opening ≡ (state_of core).opening }
    {
        Provider::with_backend(rt, alloc, Plain::new(alloc, core, keeper))
    }
}

impl<'r, R: Wait + Clock, B: Backend> Provider<'r, R, B> {
    /// A provider whose calls that backend makes. Connections that its core knows stay as they are, and nobody has them. Takes
    /// no memory.
    pub fn with_backend(rt: &'r R, alloc: Global, backend: B) -> Provider<'r, R, B>
        ensures { result.opening ≡ (state_of (B.core_of backend)).opening }
    {
        Provider {
            rt,
            alloc,
            opening: backend.core().opening(),
            shared: Mutex::new(Shared::new(alloc, backend)),
            changed: Condvar::new(),
        }
    }

    /// The backend, once nobody calls it any more. Its core's state is one that the provider reaches.
    pub fn into_backend(self) -> B
        ensures { Reached (state_of (B.core_of result)) }
    {
        let Provider {
            rt: _,
            alloc: _,
            opening: _,
            shared,
            changed: _,
        } = self;
        let shared = shared.into_inner();
        shared.law_reached();
        shared.into_backend()
    }

    /// Opens a connection, stopped (Jakarta Messaging 3.1, section 6.1.4), for that client, or for none (section 6.1.2). A
    /// refusal opens none:
    ///
    /// - `BadName`: the client identifier is no name: 1 to 255 bytes, none below 0x20 and none 0x7F.
    /// - `Exhausted`: 4,294,967,295 connections were asked for already.
    /// - `InvalidClientId`: an open connection has that client identifier.
    /// - `Memory`: a request for memory was refused.
    pub fn create_connection<'p>(
        &'p self,
        client: Option<&str>,
    ) -> Result<Connection<'p, R, B>, Error>
        ensures ok { IfOk result (λ c. Told (ByConnection c) (Ask (Open (option_copied client.entry))) (Ok Done)) }
        ensures refused { IfErr result (λ r. ((r ≡ bare Refusal.BadName) × (is_named (option_copied client.entry) ≡ false))
            ⊎ RefusesNew (λ n. ByConnection n) (λ n. Open (option_copied client.entry)) r) }
    {
        let client = client_named(self.alloc, client)?;
        let given = self.shared.lock(self.rt).give_connection();
        let id = given?;
        self.ask_plain(Who::Connection(id), Request::Open { client })?;
        Ok(Connection::new(self, id))
    }

    /// How much is open, and how much is held. Takes no memory; goes over all connections, sessions and consumers that were
    /// ever made.
    pub fn overview(&self) -> Overview
        ensures { IsOverview result }
    {
        self.shared.lock(self.rt).tell_overview()
    }

    /// One step in one hold of the lock. What it may bring to those that wait for a message wakes them.
    pub(crate) fn apply(&self, step: &Step) -> Result<Answer, Error>
        ensures { Told step.now.who step.now.call result }
    {
        let reply = self.shared.lock(self.rt).tell(step);
        if step.call.wakes(&reply) {
            self.changed.notify_all();
        }
        reply
    }

    /// A call that carries no messages.
    pub(crate) fn ask(&self, who: Who, request: Request) -> Result<Answer, Error>
        ensures { Told who (Ask request) result }
    {
        let step = Step {
            who,
            call: Call::Ask(request),
        };
        self.apply(&step)
    }

    /// The same, where nothing is handed out.
    #[tactic(auto, using(crate::proofs::Replies::told_done))]
    pub(crate) fn ask_plain(&self, who: Who, request: Request) -> Result<(), Error>
        requires { is_plain request ≡ true }
        ensures { Answers who request result }
    {
        match self.ask(who, request) {
            Ok(_) => Ok(()),
            Err(error) => Err(error),
        }
    }

    /// Publishes a message that the session stamped, in one hold of the lock, and gives its number. Those that wait for a
    /// message are woken.
    #[tactic(auto, using(crate::proofs::Replies::told_publish))]
    pub(crate) fn publish(&self, session: &SessionId, message: Message) -> Result<u64, Error>
        ensures { IsPublished session.now message result }
    {
        let number = message.number();
        let reply = self.shared.lock(self.rt).tell_publication(session, message);
        match reply {
            Ok(_) => {
                self.changed.notify_all();
                Ok(number)
            }
            Err(error) => Err(error),
        }
    }

    /// Commits the transaction of the session, which sent those messages in it. They come back where it is refused.
    #[tactic(auto, using(crate::proofs::Replies::told_commit))]
    pub(crate) fn commit(
        &self,
        session: &SessionId,
        messages: Vec<Message>,
    ) -> Result<(), NotCommitted>
        ensures ok { OnOk result (Told (BySession session.now) (Commit messages.items) (Ok Done)) }
        ensures err { IfErr result (λ back. Told (BySession session.now) (Commit messages.items) (Err back.error)) }
        ensures back { IfErr result (λ back. back.messages.items ≡ messages.items) }
    {
        let step = Step {
            who: Who::Session(*session),
            call: Call::Commit(List::new(messages)),
        };
        let reply = self.apply(&step);
        let messages = committed(self.alloc, step.call);
        match reply {
            Ok(_) => Ok(()),
            Err(error) => Err(NotCommitted { error, messages }),
        }
    }

    /// The number of a new session, or `Exhausted`.
    pub(crate) fn give_session(&self) -> Result<Number, Refusal>
        ensures { IfErr result (λ refusal. refusal ≡ Refusal.Exhausted) }
    {
        self.shared.lock(self.rt).give_session()
    }

    /// The number of a new consumer, or `Exhausted`.
    pub(crate) fn give_consumer(&self) -> Result<ConsumerId, Refusal>
        ensures { IfErr result (λ refusal. refusal ≡ Refusal.Exhausted) }
    {
        self.shared.lock(self.rt).give_consumer()
    }

    /// The moment now, or `OutOfRange`.
    pub(crate) fn now(&self) -> Result<Moment, Refusal>
        ensures { IfErr result (λ refusal. refusal ≡ Refusal.OutOfRange) }
    {
        moment(self.rt)
    }
}
