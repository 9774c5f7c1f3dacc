//! A session that listens: its listener handles the messages of a consumer, one after another.

ghost use Rattle.std.specs.Prelude.{◌≡◌, MatchBool, MatchResult, None, Ok};
ghost use Rattle.jm_client.specs.Listening as spec;
ghost use Rattle.jm_client.specs.Listening.{Broken, Finishes, Follows, Hears, Listens, Turn};
ghost use Rattle.jm_client.specs.Told.{Answers, Takes};
ghost use Rattle.jm_machine.specs.declared.call.Request.TheVariants.{Done, SetListener};
ghost use Rattle.jm_machine.specs.declared.call.Who.TheVariants.{Session as BySession};

use crate::backend::Backend;
use crate::consumer::Consumer;
use crate::lent::SessionListener;
use crate::provider::Provider;
use crate::session::Session;
use crate::shared::Way;
use jm_core::{Request, Who};
use jm_dest::{ConsumerId, SessionId};
use jm_error::Error;
use jm_listener::{After, ListenerFault};
use std::sync::Wait;
use std::time::{Clock, Duration};

/// Lets the session's consumer listen, or no more.
fn set_listener<R: Wait + Clock, B: Backend>(
    provider: &Provider<'_, R, B>,
    session: &SessionId,
    consumer: ConsumerId,
    on: bool,
) -> Result<(), Error>
    ensures { Answers (BySession session.now) (SetListener consumer on) result }
{
    provider.ask_plain(
        Who::Session(*session),
        Request::SetListener { consumer, on },
    )
}

/// Ends the delivery to the consumer's listener, well or not. Where that is refused it is ended as one that failed, where that
/// can be, since a consumer whose listener is not done with its message cannot be used.
fn end_delivery<R: Wait + Clock, B: Backend>(
    provider: &Provider<'_, R, B>,
    session: &SessionId,
    consumer: ConsumerId,
    ok: bool,
) -> Result<(), Error>
    ensures { Answers (BySession session.now) (Done consumer ok) result }
{
    let reply = provider.ask_plain(Who::Session(*session), Request::Done { consumer, ok });
    if reply.is_err() {
        let _ = provider.ask_plain(
            Who::Session(*session),
            Request::Done {
                consumer,
                ok: false,
            },
        );
    }
    reply
}

/// What is told of turns and of the taking away of their listener.
fn outcome(turns: Result<u64, Error>, taken_away: Result<(), Error>) -> Result<u64, Error>
    ensures { result ≡ spec.outcome turns taken_away }
{
    match turns {
        Err(error) => Err(error),
        Ok(count) => match taken_away {
            Err(error) => Err(error),
            Ok(()) => Ok(count),
        },
    }
}

impl<'p, R: Wait + Clock, B: Backend> Session<'p, R, B> {
    /// Makes the call that the listener's answer names, where it names one.
    fn follow(&mut self, answer: Result<After, ListenerFault>) -> Result<(), Error>
        ensures { Follows answer self.old result self.new }
    {
        match answer {
            Err(ListenerFault) | Ok(After::Go) => Ok(()),
            Ok(After::Acknowledge) => self.acknowledge(),
            Ok(After::Commit) => self.commit(),
            Ok(After::Rollback) => self.rollback(),
            Ok(After::Recover) => self.recover(),
        }
    }

    /// Ends the delivery, well just where the listener answered `Ok`, and makes the call that the answer names.
    fn finish(
        &mut self,
        provider: &Provider<'_, R, B>,
        session: &SessionId,
        consumer: ConsumerId,
        answer: Result<After, ListenerFault>,
    ) -> Result<(), Error>
        ensures { Finishes session.now consumer answer self.old result self.new }
    {
        match end_delivery(provider, session, consumer, answer.is_ok()) {
            Ok(()) => self.follow(answer),
            Err(error) => Err(error),
        }
    }

    /// One turn: waits for the consumer's next message, has the listener handle it, and ends the turn. Whether a message came.
    #[tactic(auto, using(crate::proofs::Turns::not_taken))]
    fn turn<N: SessionListener<R, B>>(
        &mut self,
        consumer: ConsumerId,
        listener: &mut N,
        timeout: Duration,
    ) -> Result<bool, Error>
        ensures { MatchResult result
            (λ came. MatchBool came
            (Turn N.handles_in consumer listener.old self.old listener.new self.new)
            (Takes self.old.sender.session consumer (Ok None) × (listener.new ≡ listener.old) × (self.new ≡ self.old)))
            (λ r. Broken N.handles_in consumer listener.old self.old r listener.new self.new) }
    {
        let provider = self.provider;
        let session = self.id;
        let delivery = match provider.await_message(Way::Take, &session, consumer, timeout) {
            Ok(Some(delivery)) => delivery,
            Ok(None) => return Ok(false),
            Err(error) => return Err(error),
        };
        let answer = listener.on_session_message(self, &delivery);
        match self.finish(provider, &session, consumer, answer) {
            Ok(()) => Ok(true),
            Err(error) => Err(error),
        }
    }

    /// Has the listener handle so many messages at most, until none comes within the timeout. How many it handled.
    fn handle_all<N: SessionListener<R, B>>(
        &mut self,
        consumer: ConsumerId,
        listener: &mut N,
        timeout: Duration,
        messages: u64,
    ) -> Result<u64, Error>
        ensures { Hears N.handles_in consumer messages listener.old self.old result listener.new self.new }
    {
        for handled in 0..messages {
            match self.turn(consumer, listener, timeout) {
                Ok(true) => {}
                Ok(false) => return Ok(handled),
                Err(error) => return Err(error),
            }
        }
        Ok(messages)
    }

    /// Sets the listener of the consumer, has it handle the consumer's messages one after another, on this thread, and takes it
    /// away again once it handled so many, or none came within the timeout, which may be zero; `Duration::MAX` waits without
    /// an end. Tells how many it handled. It waits as `Consumer::receive` does; meanwhile a receive of the consumer is refused.
    ///
    /// A message is out to the session while the listener handles it. Then its delivery is ended: in modes `Auto` and `Dups`
    /// the message is settled where the listener answered `Ok`, and waits again where it failed, so that it comes again at
    /// once; in the others it stays out to the session. At last the call is made that the answer names, in this session: a
    /// commit publishes all that waits in it, also what the listener sent. A listener that fails does not end the listening.
    ///
    /// A refusal ends it, and the listener is taken away; what was handled before stays so:
    ///
    /// - `IllegalState`: the consumer is not open, or not this session's, also where its session or connection is closed in
    ///   the meantime; or the answer named a commit or a rollback, and the session is not transacted, or a recover, and it is.
    /// - `OutOfRange`: the clock is not read.
    /// - `Exhausted`: places run out before all messages of a commit have one.
    /// - `Memory`: a request for memory was refused.
    /// - `Store`: the keeper failed.
    ///
    /// Where no message could be taken, none was. Where the end of a delivery is refused, it is ended as one that failed; where
    /// that is refused too, the message stays out, and the consumer is of no use until its session closes. Where the call that
    /// the answer names is refused, the delivery was ended before, and what waits for the commit waits still.
    pub fn listen<N: SessionListener<R, B>>(
        &mut self,
        consumer: &Consumer<'_, R, B>,
        listener: &mut N,
        timeout: Duration,
        messages: u64,
    ) -> Result<u64, Error>
        ensures { Listens N.handles_in consumer.now.1 messages listener.old self.old result listener.new self.new }
    {
        let provider = self.provider;
        let session = self.id;
        let consumer = consumer.id;
        match set_listener(provider, &session, consumer, true) {
            Ok(()) => {}
            Err(error) => return Err(error),
        }
        let turns = self.handle_all(consumer, listener, timeout, messages);
        let taken_away = set_listener(provider, &session, consumer, false);
        outcome(turns, taken_away)
    }
}
