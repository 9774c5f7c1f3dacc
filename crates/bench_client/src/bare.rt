//! The work on a core over a keeper that keeps nothing, at one moment.

use crate::work::{Client, Outcome, timed_work};
use jm_base::{List, Mode, Refusal};
use jm_core::{Answer, Call, Core, Request, Step, Who};
use jm_dest::{ConnectionId, ConsumerId, Destination, Moment, Number, SessionId};
use jm_header::{Draft, Message, Sender};
use jm_keep::NoKeep;
use jm_kept::step;
use jm_tx::{Sent, SessionHalf};
use std::alloc::Global;
use std::time::Clock;

/// The most rows that the subscription may hold.
const HELD_LIMIT: u32 = 100_000;

/// A core, with the session's half of its transaction.
#[derive(Drop)]
struct Bare {
    alloc: Global,
    core: Core,
    session: SessionId,
    consumer: ConsumerId,
    now: Moment,
    topic: Destination,
    half: SessionHalf,
    sum: u64,
}

impl Bare {
    fn new(alloc: Global, mode: Mode) -> Result<Bare, Refusal> {
        let session = SessionId::new(ConnectionId::new(1)?, 1)?;
        let consumer = ConsumerId::new(1)?;
        let now = Moment::new(1000)?;
        let sender = Sender {
            opening: Number::new(1)?,
            session,
        };
        let topic = Destination::topic(alloc, "t")?;
        let core = Core::new(alloc, 1, HELD_LIMIT)?;
        Ok(Bare {
            alloc,
            core,
            session,
            consumer,
            now,
            topic,
            half: SessionHalf::new(alloc, sender, mode, 0),
            sum: 0,
        })
    }

    fn ask(&mut self, who: Who, request: Request) -> Result<Answer, Refusal> {
        let asked = Step {
            who,
            call: Call::Ask(request),
        };
        step(self.alloc, &mut self.core, &mut NoKeep, &asked)
    }

    /// Makes the consumer of the topic.
    fn subscribe(&mut self) -> Result<(), Refusal> {
        let request = Request::CreateConsumer {
            consumer: self.consumer,
            destination: self.topic.copy()?,
            selector: None,
            no_local: false,
        };
        self.ask(Who::Session(self.session), request)?;
        Ok(())
    }

    /// Opens and starts the connection, and opens its session.
    fn open(&mut self, mode: Mode) -> Result<(), Refusal> {
        let connection = self.session.connection;
        self.ask(Who::Connection(connection), Request::Open { client: None })?;
        self.ask(Who::Connection(connection), Request::Start)?;
        self.ask(Who::Session(self.session), Request::CreateSession { mode })?;
        self.subscribe()
    }

    /// Makes the session's call.
    fn make(&mut self, call: Call) -> Result<(), Refusal> {
        let made = Step {
            who: Who::Session(self.session),
            call,
        };
        match step(self.alloc, &mut self.core, &mut NoKeep, &made) {
            Ok(_) => Ok(()),
            Err(refusal) => Err(refusal),
        }
    }

    fn publish(&mut self, message: Message) -> Result<(), Refusal> {
        let Ok(mut messages) = Vec::with_capacity(self.alloc, 1) else {
            return Err(Refusal::Memory);
        };
        messages.push_reserved(message);
        self.make(Call::Publish(List::new(messages)))
    }

    /// Sends a message there.
    fn send_to(&mut self, topic: Destination) -> Result<(), Refusal> {
        let draft = draft(self.alloc)?;
        match self.half.send(draft, topic, self.now) {
            Ok(Sent::Publish(message)) => self.publish(message),
            Ok(Sent::Kept(_)) => Ok(()),
            Err(refusal) => Err(refusal),
        }
    }
}

fn draft(alloc: Global) -> Result<Draft, Refusal> {
    let mut draft = Draft::new(alloc);
    match draft.set_text("work") {
        Ok(()) => Ok(draft),
        Err(refusal) => Err(refusal),
    }
}

impl Client for Bare {
    fn send(&mut self) -> Result<(), Refusal> {
        match self.topic.copy() {
            Ok(topic) => self.send_to(topic),
            Err(_) => Err(Refusal::Memory),
        }
    }

    fn receive(&mut self) -> Result<(), Refusal> {
        let request = Request::Receive {
            consumer: self.consumer,
            now: self.now,
        };
        if let Answer::Delivered(delivery) = self.ask(Who::Session(self.session), request)? {
            self.sum = self.sum.wrapping_add(delivery.message.number());
        }
        Ok(())
    }

    fn commit(&mut self) -> Result<(), Refusal> {
        let messages = List::new(self.half.take_commit());
        self.make(Call::Commit(messages))
    }

    fn sum(&self) -> u64 {
        self.sum
    }
}

/// Makes the rounds on a new core.
pub(crate) fn work_on_core(
    rt: &impl Clock,
    alloc: Global,
    mode: Mode,
    rounds: u32,
) -> Result<Outcome, Refusal> {
    let mut bare = Bare::new(alloc, mode)?;
    match bare.open(mode) {
        Ok(()) => timed_work(rt, &mut bare, mode, rounds),
        Err(refusal) => Err(refusal),
    }
}
