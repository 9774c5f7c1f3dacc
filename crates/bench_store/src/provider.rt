//! A provider under work: one session that receives from a durable subscription, one that publishes with its half of a
//! transaction, and what was received.

use jm_base::{List, Mode, Refusal};
use jm_core::{Answer, Call, Core, Request, Step, Who};
use jm_dest::{
    ClientId, ConnectionId, ConsumerId, Destination, Moment, SessionId, SubscriptionName,
};
use jm_header::{Draft, Message, Sender};
use jm_keep::Keep;
use jm_kept::step;
use jm_tx::{Sent, SessionHalf};
use std::alloc::Global;

/// The moment of all sends and receipts.
const NOW: i64 = 1_000;

/// Who receives, and who publishes.
#[derive(Clone, Copy)]
pub(crate) struct Sessions {
    pub(crate) receiver: SessionId,
    pub(crate) publisher: SessionId,
}

/// A core and its keeper, with its two sessions, what the publisher sent in its transaction, and the sum of the numbers of the
/// messages that were received.
#[derive(Drop)]
pub(crate) struct Provider<K: Keep + Drop> {
    alloc: Global,
    core: Core,
    keeper: K,
    receiver: SessionId,
    publisher: SessionId,
    half: SessionHalf,
    mode: Mode,
    sum: u64,
}

fn topic(alloc: Global) -> Result<Destination, Refusal> {
    Destination::topic(alloc, "topic")
}

fn draft(alloc: Global) -> Result<Draft, Refusal> {
    let mut draft = Draft::new(alloc);
    match draft.set_text("work") {
        Ok(()) => Ok(draft),
        Err(refusal) => Err(refusal),
    }
}

/// Session 1 of that connection.
pub(crate) fn session(connection: u32) -> Result<SessionId, Refusal> {
    SessionId::new(ConnectionId::new(connection)?, 1)
}

impl<K: Keep + Drop> Provider<K> {
    /// No connection is open yet. The session that publishes will have that mode.
    pub(crate) fn new(
        alloc: Global,
        core: Core,
        keeper: K,
        sessions: Sessions,
        mode: Mode,
    ) -> Provider<K> {
        let sender = Sender {
            opening: core.opening(),
            session: sessions.publisher,
        };
        Provider {
            alloc,
            core,
            keeper,
            receiver: sessions.receiver,
            publisher: sessions.publisher,
            half: SessionHalf::new(alloc, sender, mode, 0),
            mode,
            sum: 0,
        }
    }

    fn ask(&mut self, who: Who, request: Request) -> Result<Answer, Refusal> {
        let asked = Step {
            who,
            call: Call::Ask(request),
        };
        step(self.alloc, &mut self.core, &mut self.keeper, &asked)
    }

    /// Opens and starts the session's connection for that client, and opens the session in that mode.
    fn open_session(
        &mut self,
        session: SessionId,
        mode: Mode,
        client: Option<ClientId>,
    ) -> Result<(), Refusal> {
        let connection = session.connection;
        self.ask(Who::Connection(connection), Request::Open { client })?;
        self.ask(Who::Connection(connection), Request::Start)?;
        self.ask(Who::Session(session), Request::CreateSession { mode })?;
        Ok(())
    }

    /// Makes consumer 1 of the durable subscription.
    fn subscribe(&mut self) -> Result<(), Refusal> {
        let consumer = ConsumerId::new(1)?;
        let name = SubscriptionName::new(self.alloc, "subscription")?;
        let request = Request::CreateDurable {
            consumer,
            destination: topic(self.alloc)?,
            name,
            selector: None,
            no_local: false,
        };
        self.ask(Who::Session(self.receiver), request)?;
        Ok(())
    }

    /// Opens both connections and their sessions, and makes the consumer.
    pub(crate) fn open(&mut self) -> Result<(), Refusal> {
        let client = ClientId::new(self.alloc, "client")?;
        self.open_session(self.receiver, Mode::Auto, Some(client))?;
        self.open_session(self.publisher, self.mode, None)?;
        self.subscribe()
    }

    /// Makes the publisher's call.
    fn make(&mut self, call: Call) -> Result<(), Refusal> {
        let who = Who::Session(self.publisher);
        let made = Step { who, call };
        match step(self.alloc, &mut self.core, &mut self.keeper, &made) {
            Ok(_) => Ok(()),
            Err(refusal) => Err(refusal),
        }
    }

    fn publish(&mut self, message: Message) -> Result<(), Refusal> {
        let Ok(mut messages) = Vec::with_capacity(self.alloc, 1) else {
            return Err(Refusal::Memory);
        };
        messages.push_reserved(message);
        self.make(Call::Publish(List::new(messages)))
    }

    /// Sends one message: it is published, or waits for the commit.
    pub(crate) fn send(&mut self) -> Result<(), Refusal> {
        let now = Moment::new(NOW)?;
        match (topic(self.alloc), draft(self.alloc)) {
            (Ok(topic), Ok(draft)) => match self.half.send(draft, topic, now) {
                Ok(Sent::Publish(message)) => self.publish(message),
                Ok(Sent::Kept(_)) => Ok(()),
                Err(refusal) => Err(refusal),
            },
            (Err(refusal), _) | (_, Err(refusal)) => Err(refusal),
        }
    }

    /// Commits what was sent.
    pub(crate) fn commit(&mut self) -> Result<(), Refusal> {
        let messages = List::new(self.half.take_commit());
        self.make(Call::Commit(messages))
    }

    /// Receives, and adds the number of the message to the sum.
    pub(crate) fn receive(&mut self) -> Result<(), Refusal> {
        let request = Request::Receive {
            consumer: ConsumerId::new(1)?,
            now: Moment::new(NOW)?,
        };
        if let Answer::Delivered(delivery) = self.ask(Who::Session(self.receiver), request)? {
            self.sum = self.sum.wrapping_add(delivery.message.number());
        }
        Ok(())
    }

    /// The sum of the numbers of the messages that were received.
    pub(crate) fn sum(&self) -> u64 {
        self.sum
    }

    /// How many messages the subscription holds.
    pub(crate) fn kept(&self) -> usize {
        self.core.kept()
    }
}
