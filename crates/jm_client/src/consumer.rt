//! Consumers.

ghost use Rattle.std.specs.Prelude.{◌≡◌, ◌⊎◌, Err, true};
ghost use Rattle.jm_base.specs.declared.refusal.Refusal.TheVariants.{OutOfRange};
ghost use Rattle.jm_client.specs.Told.{Answers, Receives, Told, is_missed, missed_reply};
ghost use Rattle.jm_error.specs.Refused.{bare};
ghost use Rattle.jm_machine.specs.declared.answer.Answer.TheVariants.{Missed as MissedSoFar};
ghost use Rattle.jm_machine.specs.declared.call.Call.TheVariants.{Ask};
ghost use Rattle.jm_machine.specs.declared.call.Request.TheVariants.{CloseConsumer, Missed};
ghost use Rattle.jm_machine.specs.declared.call.Who.TheVariants.{Session as BySession};

use crate::backend::Backend;
use crate::plain::Plain;
use crate::provider::Provider;
use crate::shared::Way;
use jm_core::{Answer, Delivery, Request, Who};
use jm_dest::{ConsumerId, SessionId};
use jm_error::Error;
use jm_keep::NoKeep;
use std::marker::Model;
use std::sync::Wait;
use std::time::{Clock, Duration};

/// A consumer, which closes as it is dropped. Contracts see its session and its number.
pub struct Consumer<'p, R: Wait + Clock, B: Backend = Plain<NoKeep>> {
    provider: &'p Provider<'p, R, B>,
    session: SessionId,
    pub(crate) id: ConsumerId,
}

impl<'p, R: Wait + Clock, B: Backend> Model for Consumer<'p, R, B> {
    ghost use Rattle.std.specs.Prelude.{ℕ};
    ghost use Rattle.jm_dest.specs.declared.session.SessionId.{SessionId};

    ghost Value = { SessionId × ℕ };

    ghost view = { λ c. (c.session, c.id) };
}

/// Closes the session's consumer of that number.
fn end<R: Wait + Clock, B: Backend>(
    provider: &Provider<'_, R, B>,
    session: SessionId,
    id: ConsumerId,
) -> Result<(), Error>
    ensures { Answers (BySession session) (CloseConsumer id) result }
{
    provider.ask_plain(
        Who::Session(session),
        Request::CloseConsumer { consumer: id },
    )
}

impl<'p, R: Wait + Clock, B: Backend> Drop for Consumer<'p, R, B> {
    fn drop(self) {
        let Consumer {
            provider,
            session,
            id,
        } = self;
        let _ = end(provider, session, id);
    }
}

/// How many publications were missed, where that was answered.
fn number_of(answer: &Answer) -> u64
    requires { is_missed answer.now ≡ true }
    ensures { answer.now ≡ MissedSoFar result }
{
    match answer {
        Answer::Missed(number) => *number,
        Answer::Done | Answer::Sent(_) | Answer::Delivered(_) | Answer::Nothing => unreachable!(),
    }
}

impl<'p, R: Wait + Clock, B: Backend> Consumer<'p, R, B> {
    /// The session's consumer of that number, which is open.
    pub(crate) fn new(
        provider: &'p Provider<'p, R, B>,
        session: SessionId,
        id: ConsumerId,
    ) -> Consumer<'p, R, B>
        ensures { result ≡ (session, id) }
    {
        Consumer {
            provider,
            session,
            id,
        }
    }

    /// The next message, or none where none came within the timeout, which may be zero; `Duration::MAX` waits without an end.
    /// It looks again whenever another call may have brought a message, and 50 times a second, since a message that was held
    /// back comes with no call. On a stopped connection none comes. In modes `Auto` and `Dups` the message is settled; in the
    /// others it is out to the session. After a refusal no message was taken:
    ///
    /// - `IllegalState`: the consumer, its session or its connection is closed, also while it waits.
    /// - `OutOfRange`: the clock is not read.
    /// - `Memory`: a request for memory was refused.
    /// - `Store`: the keeper failed.
    pub fn receive(&self, timeout: Duration) -> Result<Option<Delivery>, Error>
        ensures { (result ≡ Err (bare OutOfRange)) ⊎ Receives self.now.0 self.now.1 result }
    {
        self.provider
            .await_message(Way::Receive, &self.session, self.id, timeout)
    }

    /// The next message, or none where none is there now. A message and a refusal are as `receive` says.
    pub fn receive_no_wait(&self) -> Result<Option<Delivery>, Error>
        ensures { (result ≡ Err (bare OutOfRange)) ⊎ Receives self.now.0 self.now.1 result }
    {
        let provider = self.provider;
        let now = provider.now()?;
        provider
            .shared
            .lock(provider.rt)
            .ask_message(Way::Receive, self.session, self.id, now)
    }

    /// How many publications the consumer's subscription missed, since it was at its limit; at 18,446,744,073,709,551,615 it
    /// stays (ours). Of a queue, which has no limit, 0. Takes no memory.
    ///
    /// - `IllegalState`: the consumer, its session or its connection is closed.
    pub fn missed(&self) -> Result<u64, Error>
        ensures { Told (BySession self.now.0) (Ask (Missed self.now.1)) (missed_reply result) }
    {
        let request = Request::Missed { consumer: self.id };
        let answer = self.provider.ask(Who::Session(self.session), request)?;
        Ok(number_of(&answer))
    }

    /// Closes the consumer. A subscription of its own ends, and a shared one that is not durable with its last consumer; what
    /// was received stays out to the session, where the subscription stands. Where it is refused the consumer stays open, and
    /// nobody has it.
    ///
    /// - `IllegalState`: its session is not known any more (ours).
    /// - `Store`: the keeper failed.
    pub fn close(self) -> Result<(), Error>
        ensures { Answers (BySession self.entry.0) (CloseConsumer self.entry.1) result }
    {
        let Consumer {
            provider,
            session,
            id,
        } = self;
        end(provider, session, id)
    }
}
