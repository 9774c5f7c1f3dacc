//! A provider under work: one session that receives, one that publishes with its half of a transaction, and what was
//! received.

use jm_base::{List, Mode, Refusal, Str};
use jm_core::{Answer, Call, Core, Request, Step, Who};
use jm_dest::{
    ClientId, ConnectionId, ConsumerId, Destination, Moment, Number, SessionId, SubscriptionName,
};
use jm_header::{Draft, Message, Sender};
use jm_keep::Keep;
use jm_kept::{publish, step};
use jm_property::Property;
use jm_tx::{Sent, SessionHalf};
use std::alloc::Global;

/// A message to be sent.
#[derive(Clone, Copy)]
pub(crate) struct Parcel {
    /// The number of its topic, or of its queue.
    pub topic: u32,
    pub is_queued: bool,
    /// The number that its property `x` is, if it has one.
    pub selected: Option<u32>,
    /// From 0 to 9.
    pub priority: u8,
    /// In milliseconds; 0 for no end.
    pub time_to_live: i64,
    /// The delivery delay in milliseconds; 0 for none.
    pub delay: i64,
    pub now: i64,
}

/// The most rows that a subscription may hold.
const HELD_LIMIT: u32 = 1_000_000;

/// A core and its keeper, with its two sessions, their mode, what the publisher sent in its transaction, and the sum of the
/// numbers of the messages that were received.
#[derive(Drop)]
pub(crate) struct Provider<K: Keep + Drop> {
    alloc: Global,
    core: Core,
    keeper: K,
    receiver: SessionId,
    publisher: SessionId,
    half: SessionHalf,
    mode: Mode,
    sum: u64,
}

fn topic_name(alloc: Global, topic: u32) -> Result<String, Refusal> {
    Ok(format!(in alloc; "topic{topic}")?)
}

/// The topic of that number.
fn destination(alloc: Global, topic: u32) -> Result<Destination, Refusal> {
    let name = topic_name(alloc, topic)?;
    Destination::topic(alloc, name.as_str())
}

/// The queue of that number.
fn queue(alloc: Global, number: u32) -> Result<Destination, Refusal> {
    let name = topic_name(alloc, number)?;
    Destination::queue(alloc, name.as_str())
}

/// Where the message of the parcel goes.
fn destination_of(alloc: Global, parcel: Parcel) -> Result<Destination, Refusal> {
    if parcel.is_queued {
        queue(alloc, parcel.topic)
    } else {
        destination(alloc, parcel.topic)
    }
}

/// The name of a subscription to the topic of that number.
fn subscription_name(alloc: Global, topic: u32) -> Result<SubscriptionName, Refusal> {
    let name = topic_name(alloc, topic)?;
    SubscriptionName::new(alloc, name.as_str())
}

/// Sets what the message of the parcel has beside its destination.
fn set(draft: &mut Draft, parcel: Parcel) -> Result<(), Refusal> {
    draft.set_text("work")?;
    if let Some(number) = parcel.selected {
        let _ = draft.set_property("x", Property::Long(i64::from(number)));
    }
    draft.set_priority(parcel.priority)?;
    draft.set_time_to_live(parcel.time_to_live)?;
    draft.set_delivery_delay(parcel.delay)
}

fn draft(alloc: Global, parcel: Parcel) -> Result<Draft, Refusal> {
    let mut draft = Draft::new(alloc);
    match set(&mut draft, parcel) {
        Ok(()) => Ok(draft),
        Err(refusal) => Err(refusal),
    }
}

/// The mode of the session that publishes.
fn publishing(mode: Mode) -> Mode {
    match mode {
        Mode::Transacted => Mode::Transacted,
        Mode::Auto | Mode::Client | Mode::Dups => Mode::Auto,
    }
}

impl<K: Keep + Drop> Provider<K> {
    /// No connection is open yet. The session that receives will have that mode; the one that publishes is transacted where
    /// that is, and else in mode `Auto`.
    pub(crate) fn new(alloc: Global, mode: Mode, keeper: K) -> Result<Provider<K>, Refusal> {
        let receiver = SessionId::new(ConnectionId::new(1)?, 1)?;
        let publisher = SessionId::new(ConnectionId::new(2)?, 1)?;
        let sender = Sender {
            opening: Number::new(1)?,
            session: publisher,
        };
        let core = Core::new(alloc, 1, HELD_LIMIT)?;
        Ok(Provider {
            alloc,
            core,
            keeper,
            receiver,
            publisher,
            half: SessionHalf::new(alloc, sender, publishing(mode), 0),
            mode,
            sum: 0,
        })
    }

    /// Opens and starts the session's connection for that client, and opens the session in that mode.
    fn open_session(
        &mut self,
        session: SessionId,
        mode: Mode,
        client: Option<ClientId>,
    ) -> Result<(), Refusal> {
        let connection = session.connection;
        self.ask(Who::Connection(connection), Request::Open { client })?;
        self.ask(Who::Connection(connection), Request::Start)?;
        self.ask(Who::Session(session), Request::CreateSession { mode })?;
        Ok(())
    }

    /// Opens and starts both connections, the one that receives for a client, and opens both sessions.
    pub(crate) fn open(&mut self) -> Result<(), Refusal> {
        let receiver = self.receiver;
        let publisher = self.publisher;
        let client = ClientId::new(self.alloc, "receiver")?;
        self.open_session(receiver, self.mode, Some(client))?;
        self.open_session(publisher, publishing(self.mode), None)
    }

    fn ask(&mut self, who: Who, request: Request) -> Result<Answer, Refusal> {
        let asked = Step {
            who,
            call: Call::Ask(request),
        };
        step(self.alloc, &mut self.core, &mut self.keeper, &asked)
    }

    /// Acknowledges what was received.
    pub(crate) fn acknowledge(&mut self) -> Result<(), Refusal> {
        self.ask(Who::Session(self.receiver), Request::Acknowledge)?;
        Ok(())
    }

    /// Lets what was received and not acknowledged come again.
    pub(crate) fn recover(&mut self) -> Result<(), Refusal> {
        self.ask(Who::Session(self.receiver), Request::Recover)?;
        Ok(())
    }

    /// Lets what was received and not committed come again.
    pub(crate) fn roll_back(&mut self) -> Result<(), Refusal> {
        self.ask(Who::Session(self.receiver), Request::Rollback)?;
        Ok(())
    }

    /// The sum of the numbers of the messages that were received.
    pub(crate) fn sum(&self) -> u64 {
        self.sum
    }

    /// Makes a consumer of that number on the topic of that number.
    pub(crate) fn subscribe(&mut self, consumer: u32, topic: u32) -> Result<(), Refusal> {
        let consumer = ConsumerId::new(consumer)?;
        let destination = destination(self.alloc, topic)?;
        let request = Request::CreateConsumer {
            consumer,
            destination,
            selector: None,
            no_local: false,
        };
        self.ask(Who::Session(self.receiver), request)?;
        Ok(())
    }

    /// Makes a consumer of that number, which selects the messages whose property `x` is its number.
    fn consume_selecting(
        &mut self,
        consumer: u32,
        destination: Destination,
    ) -> Result<(), Refusal> {
        let selector = format!(in self.alloc; "x = {consumer}")?;
        let request = Request::CreateConsumer {
            consumer: ConsumerId::new(consumer)?,
            destination,
            selector: Some(Str::new(selector)),
            no_local: false,
        };
        self.ask(Who::Session(self.receiver), request)?;
        Ok(())
    }

    /// Makes such a consumer on the topic of that number.
    pub(crate) fn subscribe_selecting(&mut self, consumer: u32, topic: u32) -> Result<(), Refusal> {
        let topic = destination(self.alloc, topic)?;
        self.consume_selecting(consumer, topic)
    }

    /// Makes such a consumer on the queue of that number.
    pub(crate) fn choose(&mut self, consumer: u32, number: u32) -> Result<(), Refusal> {
        let queue = queue(self.alloc, number)?;
        self.consume_selecting(consumer, queue)
    }

    /// Makes a consumer of that number of the durable subscription to the topic of that number.
    pub(crate) fn subscribe_durably(&mut self, consumer: u32, topic: u32) -> Result<(), Refusal> {
        let consumer = ConsumerId::new(consumer)?;
        let name = subscription_name(self.alloc, topic)?;
        let request = Request::CreateDurable {
            consumer,
            destination: destination(self.alloc, topic)?,
            name,
            selector: None,
            no_local: false,
        };
        self.ask(Who::Session(self.receiver), request)?;
        Ok(())
    }

    /// Makes a consumer of that number of the shared subscription to the topic of that number, which ends with its last
    /// consumer.
    pub(crate) fn share(&mut self, consumer: u32, topic: u32) -> Result<(), Refusal> {
        let consumer = ConsumerId::new(consumer)?;
        let name = subscription_name(self.alloc, topic)?;
        let request = Request::CreateShared {
            consumer,
            destination: destination(self.alloc, topic)?,
            name,
            selector: None,
        };
        self.ask(Who::Session(self.receiver), request)?;
        Ok(())
    }

    /// Closes the consumer of that number.
    pub(crate) fn close(&mut self, consumer: u32) -> Result<(), Refusal> {
        let consumer = ConsumerId::new(consumer)?;
        self.ask(
            Who::Session(self.receiver),
            Request::CloseConsumer { consumer },
        )?;
        Ok(())
    }

    /// Closes the connection that receives, with its session and all consumers.
    pub(crate) fn close_all(&mut self) -> Result<(), Refusal> {
        self.ask(
            Who::Connection(self.receiver.connection),
            Request::CloseConnection,
        )?;
        Ok(())
    }

    /// Opens a session of that number on the connection that receives, makes a consumer of its own, and closes it.
    pub(crate) fn request(&mut self, number: u32) -> Result<(), Refusal> {
        let session = SessionId::new(self.receiver.connection, number)?;
        self.ask(
            Who::Session(session),
            Request::CreateSession { mode: Mode::Auto },
        )?;
        let request = Request::CreateConsumer {
            consumer: ConsumerId::new(1)?,
            destination: destination(self.alloc, 0)?,
            selector: None,
            no_local: false,
        };
        self.ask(Who::Session(session), request)?;
        self.ask(Who::Session(session), Request::CloseSession)?;
        Ok(())
    }

    /// Sends one message: it is published, or waits for the publisher's commit.
    pub(crate) fn send(&mut self, parcel: Parcel) -> Result<(), Refusal> {
        let now = Moment::new(parcel.now)?;
        match (
            destination_of(self.alloc, parcel),
            draft(self.alloc, parcel),
        ) {
            (Ok(to), Ok(draft)) => match self.half.send(draft, to, now) {
                Ok(Sent::Publish(message)) => self.publish(message),
                Ok(Sent::Kept(_)) => Ok(()),
                Err(refusal) => Err(refusal),
            },
            (Err(refusal), _) | (_, Err(refusal)) => Err(refusal),
        }
    }

    fn publish(&mut self, message: Message) -> Result<(), Refusal> {
        let publisher = self.publisher;
        match publish(
            self.alloc,
            &mut self.core,
            &mut self.keeper,
            publisher,
            message,
        ) {
            Ok(_) => Ok(()),
            Err(refusal) => Err(refusal),
        }
    }

    /// Commits what was sent and what was received, each in its session.
    pub(crate) fn commit(&mut self) -> Result<(), Refusal> {
        let messages = List::new(self.half.take_commit());
        match self.make(self.publisher, Call::Commit(messages)) {
            Ok(()) => self.make(self.receiver, Call::Commit(List::new(Vec::new(self.alloc)))),
            Err(refusal) => Err(refusal),
        }
    }

    /// Makes the session's call.
    fn make(&mut self, session: SessionId, call: Call) -> Result<(), Refusal> {
        let who = Who::Session(session);
        let made = Step { who, call };
        match step(self.alloc, &mut self.core, &mut self.keeper, &made) {
            Ok(_) => Ok(()),
            Err(refusal) => Err(refusal),
        }
    }

    /// Receives for that consumer, and adds the number of the message to the sum.
    pub(crate) fn receive(&mut self, consumer: u32, now: i64) -> Result<(), Refusal> {
        let request = Request::Receive {
            consumer: ConsumerId::new(consumer)?,
            now: Moment::new(now)?,
        };
        if let Answer::Delivered(delivery) = self.ask(Who::Session(self.receiver), request)? {
            self.sum = self.sum.wrapping_add(delivery.message.number());
        }
        Ok(())
    }
}
