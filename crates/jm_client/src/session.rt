//! Sessions.

ghost use Rattle.std.specs.Prelude.{◌≡◌, ◌⊎◌, [], false, true, IfOk, IfErr, OnErr, OnOk, MatchResult, Ok, Err, IsTrue, if◌then◌else◌};
ghost use Rattle.std.specs.Option.{option_copied};
ghost use Rattle.jm_base.specs.declared.refusal.Refusal.TheVariants.{BadName, Memory};
ghost use Rattle.jm_client.specs.Told.{Answers, RefusesNew, Told, done_reply};
ghost use Rattle.jm_client.specs.Sends.{Sends};
ghost use Rattle.jm_dest.specs.Names.{is_name};
ghost use Rattle.jm_error.specs.Refused.{bare};
ghost use Rattle.jm_header.specs.declared.body.Body.TheVariants.{Bytes, Text};
ghost use Rattle.jm_header.specs.Headers.{defaults};
ghost use Rattle.jm_machine.specs.declared.answer.Answer.TheVariants.{Done};
ghost use Rattle.jm_machine.specs.declared.call.Call.TheVariants.{Ask, Commit};
ghost use Rattle.jm_machine.specs.declared.call.Request.TheVariants.{Acknowledge, CloseSession, CreateConsumer, CreateDurable, CreateShared, CreateSharedDurable, Recover, Rollback, Unsubscribe};
ghost use Rattle.jm_machine.specs.declared.call.Who.TheVariants.{Session as BySession};
ghost use Rattle.jm_tx.specs.Buffers.{new_buffer};

use crate::backend::Backend;
use crate::consumer::Consumer;
use crate::plain::Plain;
use crate::provider::{NotCommitted, Provider};
use crate::texts::{copied_text, subscription_named};
use jm_base::Mode;
use jm_core::{Request, Who};
use jm_dest::{Destination, SessionId};
use jm_error::{Error, passed_on};
use jm_header::{Draft, Sender};
use jm_keep::NoKeep;
use jm_tx::{Sent, SessionHalf};
use std::marker::Model;
use std::sync::Wait;
use std::time::Clock;

/// A session, which one thread calls, and which closes as it is dropped, with its consumers. It keeps what is sent in a
/// transaction until the commit. Contracts see what it has sent, and what waits: a `Buffer`.
pub struct Session<'p, R: Wait + Clock, B: Backend = Plain<NoKeep>> {
    pub(crate) provider: &'p Provider<'p, R, B>,
    pub(crate) id: SessionId,
    half: SessionHalf,
}

impl<'p, R: Wait + Clock, B: Backend> Model for Session<'p, R, B> {
    ghost use Rattle.std.specs.Prelude.{◌≡◌};
    ghost use Rattle.jm_tx.specs.declared.buffer.Buffer.{Buffer};

    ghost Value = { Buffer };

    ghost view = { λ s. s.half };

    ghost invariant = { λ s. s.half.sender.session ≡ s.id };
}

/// Closes the session.
fn end<R: Wait + Clock, B: Backend>(
    provider: &Provider<'_, R, B>,
    id: SessionId,
) -> Result<(), Error>
    ensures { Answers (BySession id) CloseSession result }
{
    provider.ask_plain(Who::Session(id), Request::CloseSession)
}

impl<'p, R: Wait + Clock, B: Backend> Drop for Session<'p, R, B> {
    fn drop(self) {
        let Session {
            provider,
            id,
            half: _half,
        } = self;
        let _ = end(provider, id);
    }
}

impl<'p, R: Wait + Clock, B: Backend> Session<'p, R, B> {
    /// The session of that number, which is open in that mode, and has sent nothing.
    pub(crate) fn new(
        provider: &'p Provider<'p, R, B>,
        id: &SessionId,
        mode: Mode,
    ) -> Session<'p, R, B>
        ensures opening { result.sender.opening ≡ provider.now.opening }
        ensures session { result.sender.session ≡ id.now }
        ensures buffer { result ≡ new_buffer result.sender mode 0 }
    {
        let sender = Sender {
            opening: provider.opening,
            session: *id,
        };
        let half = SessionHalf::new(provider.alloc, sender, mode, 0);
        Session {
            provider,
            id: *id,
            half,
        }
    }

    /// The topic of that name. `BadName` where the text is no name: 1 to 255 bytes, none below 0x20 and none 0x7F; else
    /// `Memory` where a request for memory was refused.
    pub fn create_topic(&self, name: &str) -> Result<Destination, Error>
        ensures ok { IfOk result (λ destination. (destination ≡ Destination.Topic name.now) × IsTrue (is_name name.now)) }
        ensures err { IfErr result (λ r. r ≡ bare (if is_name name.now then Memory else BadName)) }
    {
        passed_on(Destination::topic(self.provider.alloc, name))
    }

    /// The queue of that name, with the same refusals.
    pub fn create_queue(&self, name: &str) -> Result<Destination, Error>
        ensures ok { IfOk result (λ destination. (destination ≡ Destination.Queue name.now) × IsTrue (is_name name.now)) }
        ensures err { IfErr result (λ r. r ≡ bare (if is_name name.now then Memory else BadName)) }
    {
        passed_on(Destination::queue(self.provider.alloc, name))
    }

    /// A message to be sent, without a body: PERSISTENT, of priority 4, which does not expire and is not delayed. Takes no
    /// memory.
    pub fn create_message(&self) -> Draft
        ensures { result ≡ defaults }
    {
        Draft::new(self.provider.alloc)
    }

    /// The same with that text. `Memory` where a request for memory was refused.
    pub fn create_text_message(&self, text: &str) -> Result<Draft, Error>
        ensures { MatchResult result
            (λ draft. draft ≡ record defaults { body = Text text.now })
            (λ r. r ≡ bare Memory) }
    {
        let mut draft = self.create_message();
        draft.set_text(text)?;
        Ok(draft)
    }

    /// The same with those bytes. `Memory` where a request for memory was refused.
    pub fn create_bytes_message(&self, bytes: &[u8]) -> Result<Draft, Error>
        ensures { MatchResult result
            (λ draft. draft ≡ record defaults { body = Bytes bytes.now })
            (λ r. r ≡ bare Memory) }
    {
        let mut draft = self.create_message();
        draft.set_bytes(bytes)?;
        Ok(draft)
    }

    /// Makes a consumer of the queue, or of the topic with a subscription of its own that is not durable (Jakarta Messaging
    /// 3.1, section 8.3.1). It takes the messages that the selector selects, or all where there is none. Where `no_local` is
    /// set it takes none that this connection publishes; of a queue that has no effect. A refusal makes none:
    ///
    /// - `IllegalState`: the session is closed.
    /// - `InvalidSelector`: the selector does not read.
    /// - `Exhausted`: 4,294,967,295 consumers were asked for already, of all sessions of the provider.
    /// - `Memory`: a request for memory was refused.
    pub fn create_consumer(
        &self,
        destination: &Destination,
        selector: Option<&str>,
        no_local: bool,
    ) -> Result<Consumer<'p, R, B>, Error>
        ensures ok { IfOk result (λ c. (c.0 ≡ self.now.sender.session)
            × Told (BySession c.0) (Ask (CreateConsumer c.1 destination.now (option_copied selector.entry) no_local)) (Ok Done)) }
        ensures refused { IfErr result (RefusesNew (λ n. BySession self.now.sender.session)
            (λ n. CreateConsumer n destination.now (option_copied selector.entry) no_local)) }
    {
        let destination = destination.copy()?;
        let selector = copied_text(self.provider.alloc, selector)?;
        let consumer = self.provider.give_consumer()?;
        let request = Request::CreateConsumer {
            consumer,
            destination,
            selector,
            no_local,
        };
        self.provider.ask_plain(Who::Session(self.id), request)?;
        Ok(Consumer::new(self.provider, self.id, consumer))
    }

    /// Makes the one consumer of the unshared durable subscription of that name and of the connection's client identifier
    /// (Jakarta Messaging 3.1, section 8.3.3). A subscription that asks for the same stands as it is, with all that it holds;
    /// another, of which nothing is out, is deleted with its messages, and a new one made. Where `no_local` is set it takes
    /// none that connections with its client identifier publish. A refusal makes no consumer and leaves the subscription:
    ///
    /// - `BadName`: the name is none, as `create_topic` says.
    /// - `IllegalState`: the session is closed, or its connection has no client identifier.
    /// - `InvalidDestination`: the destination is a queue.
    /// - `InvalidSelector`: the selector does not read.
    /// - `SubscriptionInUse`: another consumer of it is open; or it asks for another thing and a message of it is out; or it
    ///   is shared.
    /// - `Exhausted`, `Memory`: as `create_consumer` says. `Store`: the keeper failed.
    pub fn create_durable_consumer(
        &self,
        destination: &Destination,
        name: &str,
        selector: Option<&str>,
        no_local: bool,
    ) -> Result<Consumer<'p, R, B>, Error>
        ensures ok { IfOk result (λ c. (c.0 ≡ self.now.sender.session)
            × Told (BySession c.0) (Ask (CreateDurable c.1 destination.now name.now (option_copied selector.entry) no_local)) (Ok Done)) }
        ensures refused { IfErr result (λ r. ((r ≡ bare BadName) × (is_name name.now ≡ false))
            ⊎ RefusesNew (λ n. BySession self.now.sender.session)
            (λ n. CreateDurable n destination.now name.now (option_copied selector.entry) no_local) r) }
    {
        let destination = destination.copy()?;
        let name = subscription_named(self.provider.alloc, name)?;
        let selector = copied_text(self.provider.alloc, selector)?;
        let consumer = self.provider.give_consumer()?;
        let request = Request::CreateDurable {
            consumer,
            destination,
            name,
            selector,
            no_local,
        };
        self.provider.ask_plain(Who::Session(self.id), request)?;
        Ok(Consumer::new(self.provider, self.id, consumer))
    }

    /// Makes a consumer of the shared subscription of that name and of the connection's client identifier, or of none where
    /// it has none, that is not durable (Jakarta Messaging 3.1, section 8.3.2). It ends with its last consumer. A refusal
    /// makes none and leaves the subscription:
    ///
    /// - `SubscriptionInUse`: there is one that asks for another thing.
    /// - All others: as `create_durable_consumer` says, but that no client identifier is wanted.
    pub fn create_shared_consumer(
        &self,
        destination: &Destination,
        name: &str,
        selector: Option<&str>,
    ) -> Result<Consumer<'p, R, B>, Error>
        ensures ok { IfOk result (λ c. (c.0 ≡ self.now.sender.session)
            × Told (BySession c.0) (Ask (CreateShared c.1 destination.now name.now (option_copied selector.entry))) (Ok Done)) }
        ensures refused { IfErr result (λ r. ((r ≡ bare BadName) × (is_name name.now ≡ false))
            ⊎ RefusesNew (λ n. BySession self.now.sender.session)
            (λ n. CreateShared n destination.now name.now (option_copied selector.entry)) r) }
    {
        let destination = destination.copy()?;
        let name = subscription_named(self.provider.alloc, name)?;
        let selector = copied_text(self.provider.alloc, selector)?;
        let consumer = self.provider.give_consumer()?;
        let request = Request::CreateShared {
            consumer,
            destination,
            name,
            selector,
        };
        self.provider.ask_plain(Who::Session(self.id), request)?;
        Ok(Consumer::new(self.provider, self.id, consumer))
    }

    /// Makes a consumer of the shared durable subscription of that name and of the connection's client identifier, or of none
    /// where it has none (Jakarta Messaging 3.1, section 8.3.4). A subscription that asks for another thing, that has no open
    /// consumer and of which nothing is out, is deleted with its messages, and a new one made. A refusal makes no consumer
    /// and leaves the subscription:
    ///
    /// - `SubscriptionInUse`: there is one that asks for another thing, and has an open consumer or a message that is out; or
    ///   one that is not shared.
    /// - All others: as `create_durable_consumer` says, but that no client identifier is wanted.
    pub fn create_shared_durable_consumer(
        &self,
        destination: &Destination,
        name: &str,
        selector: Option<&str>,
    ) -> Result<Consumer<'p, R, B>, Error>
        ensures ok { IfOk result (λ c. (c.0 ≡ self.now.sender.session)
            × Told (BySession c.0) (Ask (CreateSharedDurable c.1 destination.now name.now (option_copied selector.entry))) (Ok Done)) }
        ensures refused { IfErr result (λ r. ((r ≡ bare BadName) × (is_name name.now ≡ false))
            ⊎ RefusesNew (λ n. BySession self.now.sender.session)
            (λ n. CreateSharedDurable n destination.now name.now (option_copied selector.entry)) r) }
    {
        let destination = destination.copy()?;
        let name = subscription_named(self.provider.alloc, name)?;
        let selector = copied_text(self.provider.alloc, selector)?;
        let consumer = self.provider.give_consumer()?;
        let request = Request::CreateSharedDurable {
            consumer,
            destination,
            name,
            selector,
        };
        self.provider.ask_plain(Who::Session(self.id), request)?;
        Ok(Consumer::new(self.provider, self.id, consumer))
    }

    /// Deletes the durable subscription of that name and of the connection's client identifier, or of none where it has none,
    /// with all that waits for it. A refusal leaves it:
    ///
    /// - `BadName`: the name is none, as `create_topic` says.
    /// - `IllegalState`: the session is closed.
    /// - `InvalidDestination`: there is no such subscription.
    /// - `SubscriptionInUse`: a consumer of it is open, or a message of it is out.
    /// - `Memory`: a request for memory was refused. `Store`: the keeper failed.
    pub fn unsubscribe(&self, name: &str) -> Result<(), Error>
        ensures { ((result ≡ Err (bare BadName)) × (is_name name.now ≡ false))
            ⊎ Answers (BySession self.now.sender.session) (Unsubscribe name.now) result }
    {
        let name = subscription_named(self.provider.alloc, name)?;
        self.provider
            .ask_plain(Who::Session(self.id), Request::Unsubscribe { name })
    }

    /// Sends the draft to the destination, and gives the message's number among the session's sends, from 1. In a transacted
    /// session it waits for the commit, which takes no lock; in any other it is published before this returns. Its time to
    /// live and its delivery delay count from now (Jakarta Messaging 3.1, section 7.9). A refusal publishes nothing, drops
    /// the draft and leaves what waits for the commit:
    ///
    /// - `OutOfRange`: the clock is not read; or the moment with the time to live, or with the delivery delay, is past
    ///   9,223,372,036,854,775,807. The number stays free.
    /// - `Exhausted`: so many sends were made already, and the number stays free; or places ran out, and it is used.
    /// - `Memory`: a request for memory was refused. The number is used where the session is not transacted and the draft was
    ///   stamped already.
    /// - `IllegalState`: the session is closed. One that is transacted tells that at its commit. The number is used.
    /// - `Store`: the keeper failed. The number is used.
    pub fn send(&mut self, destination: &Destination, draft: Draft) -> Result<u64, Error>
        ensures { Sends self.old draft destination.now result self.new }
    {
        let destination = destination.copy()?;
        let now = self.provider.now()?;
        match self.half.send(draft, destination, now) {
            Ok(Sent::Kept(number)) => Ok(number),
            Ok(Sent::Publish(message)) => self.provider.publish(&self.id, message),
            Err(refusal) => Err(Error::new(refusal, None)),
        }
    }

    /// Commits the session's transaction: settles all that is out to it, and publishes what it sent, in the order of its
    /// sends (Jakarta Messaging 3.1, section 6.2). A refusal settles and publishes nothing, and all that was sent waits for
    /// the next commit:
    ///
    /// - `IllegalState`: the session is closed, or it is not transacted.
    /// - `Exhausted`: places run out before all messages have one.
    /// - `Memory`: a request for memory was refused.
    /// - `Store`: the keeper failed.
    pub fn commit(&mut self) -> Result<(), Error>
        ensures told { Told (BySession self.old.sender.session) (Commit self.old.messages) (done_reply result) }
        ensures ok { OnOk result (self.new ≡ record self.old { messages = [] }) }
        ensures err { OnErr result (self.new ≡ self.old) }
    {
        let messages = self.half.take_commit();
        match self.provider.commit(&self.id, messages) {
            Ok(()) => Ok(()),
            Err(back) => {
                let NotCommitted { error, messages } = back;
                self.half.put_back(messages);
                Err(error)
            }
        }
    }

    /// Ends the session's transaction without a commit: all that is out to it waits again, in its order, and what it sent is
    /// dropped (Jakarta Messaging 3.1, section 6.2). The numbers of these sends stay used. A refusal leaves what is out, and
    /// what waits for the commit:
    ///
    /// - `IllegalState`: the session is closed, or it is not transacted.
    /// - `Store`: the keeper failed.
    pub fn rollback(&mut self) -> Result<(), Error>
        ensures told { Answers (BySession self.old.sender.session) Rollback result }
        ensures ok { OnOk result (self.new ≡ record self.old { messages = [] }) }
        ensures err { OnErr result (self.new ≡ self.old) }
    {
        self.provider
            .ask_plain(Who::Session(self.id), Request::Rollback)?;
        self.half.drop_all();
        Ok(())
    }

    /// Settles all that is out to the session, in mode `Client`; in any other it does nothing (Jakarta Messaging 3.1, section
    /// 6.2.10). A refusal leaves it out:
    ///
    /// - `IllegalState`: the session is closed.
    /// - `Memory`: a request for memory was refused, over a keeper that keeps something.
    /// - `Store`: the keeper failed.
    pub fn acknowledge(&self) -> Result<(), Error>
        ensures { Answers (BySession self.now.sender.session) Acknowledge result }
    {
        self.provider
            .ask_plain(Who::Session(self.id), Request::Acknowledge)
    }

    /// Lets all that is out to the session wait again, in its order (Jakarta Messaging 3.1, section 6.2.10). A refusal leaves
    /// it out:
    ///
    /// - `IllegalState`: the session is closed, or it is transacted.
    /// - `Store`: the keeper failed.
    pub fn recover(&self) -> Result<(), Error>
        ensures { Answers (BySession self.now.sender.session) Recover result }
    {
        self.provider
            .ask_plain(Who::Session(self.id), Request::Recover)
    }

    /// Closes the session with its consumers: what is out to it waits again, and what waits for its commit is never published
    /// (Jakarta Messaging 3.1, section 6.2.15). Where it is refused the session stays open, and nobody has it.
    ///
    /// - `Store`: the keeper failed.
    pub fn close(self) -> Result<(), Error>
        ensures { Answers (BySession self.entry.sender.session) CloseSession result }
    {
        let Session {
            provider,
            id,
            half: _half,
        } = self;
        end(provider, id)
    }
}
