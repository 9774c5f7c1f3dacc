ghost use Rattle.std.specs.Prelude.{◌≡◌, ◌↔◌, IfOk, IsTrue};
ghost use Rattle.jm_machine.specs.Wakes as waiting;

use crate::answer::Answer;
use jm_base::{List, Mode, Str};
use jm_dest::{
    ClientId, ConnectionId, ConsumerId, Destination, Moment, SessionId, SubscriptionName,
};
use jm_header::{Draft, Message};
use std::alloc::{AllocError, Global};

/// Who makes a call: a connection or a session.
#[derive(Clone, Copy, Debug, PartialEq, Eq)]
pub enum Who {
    Connection(ConnectionId),
    Session(SessionId),
}

/// What is asked of the provider by a call that carries no messages.
#[derive(Clone, Debug, PartialEq, Drop)]
pub enum Request {
    /// Opens the connection, stopped (Jakarta Messaging 3.1, section 6.1.4), for that client, or for none (section
    /// 6.1.2).
    Open {
        client: Option<ClientId>,
    },
    /// Starts the delivery of messages to the connection's consumers.
    Start,
    /// Stops the delivery of messages to the connection's consumers.
    Stop,
    /// Closes the connection, and its sessions as `CloseSession` does (Jakarta Messaging 3.1, section 6.1.8).
    CloseConnection,
    /// Opens the session in that acknowledgement mode.
    CreateSession {
        mode: Mode,
    },
    /// Closes the session with its consumers; what is out to it waits again (Jakarta Messaging 3.1, section
    /// 6.2.15).
    CloseSession,
    /// Makes a consumer of the messages that the selector's text selects, or of all where there is none: of a queue, or
    /// of a topic, with an unshared non-durable subscription of its own. Where `no_local` is set, what the consumer's own
    /// connection publishes does not come to that subscription (Jakarta Messaging 3.1, section 8.3.1); of a queue it has no
    /// effect.
    CreateConsumer {
        consumer: ConsumerId,
        destination: Destination,
        selector: Option<Str>,
        no_local: bool,
    },
    /// Makes a consumer of the unshared durable subscription that has that name and the connection's client identifier,
    /// which has no other active one (Jakarta Messaging 3.1, section 8.3.3). A subscription that asks for the same stands
    /// as it is; another, of which nothing is out, is deleted with its rows, and a new one made. Where `no_local` is set,
    /// what connections with its client identifier publish does not come to it.
    CreateDurable {
        consumer: ConsumerId,
        destination: Destination,
        name: SubscriptionName,
        selector: Option<Str>,
        no_local: bool,
    },
    /// Makes a consumer of the shared non-durable subscription that has that name and the connection's client identifier,
    /// or none where the connection has none (Jakarta Messaging 3.1, section 8.3.2). It ends with its last consumer.
    CreateShared {
        consumer: ConsumerId,
        destination: Destination,
        name: SubscriptionName,
        selector: Option<Str>,
    },
    /// Makes a consumer of the shared durable subscription that has that name and the connection's client identifier, or
    /// none where the connection has none (Jakarta Messaging 3.1, section 8.3.4). A subscription that asks for another
    /// thing, that has no active consumer and of which nothing is out, is deleted with its rows, and a new one made.
    CreateSharedDurable {
        consumer: ConsumerId,
        destination: Destination,
        name: SubscriptionName,
        selector: Option<Str>,
    },
    /// Deletes the durable subscription that has that name and the connection's client identifier, or none where the
    /// connection has none, with its rows; it has no active consumer, and nothing is out of it.
    Unsubscribe {
        name: SubscriptionName,
    },
    /// Closes the consumer, unless it is busy. A subscription of its own ends, and a shared non-durable one with its last
    /// consumer, each with all that is held for it; what another's consumer received stays with the session.
    CloseConsumer {
        consumer: ConsumerId,
    },
    /// Asks for the consumer's next message at that moment; the consumer does not listen.
    Receive {
        consumer: ConsumerId,
        now: Moment,
    },
    /// Settles all that is out to the session, in mode `Client`; in any other it does nothing (Jakarta
    /// Messaging 3.1, section 6.2.10).
    Acknowledge,
    /// Lets all that is out to the session wait again, in its order, unless the session is transacted (Jakarta
    /// Messaging 3.1, section 6.2.10).
    Recover,
    /// Ends the session's transaction: all that is out to it waits again, in its order, and what it sent is dropped
    /// (Jakarta Messaging 3.1, section 6.2).
    Rollback,
    /// Asks how many publications the consumer's subscription missed, since it was at its limit (ours).
    Missed {
        consumer: ConsumerId,
    },
    /// Lets the consumer listen, where `on` is set, or else no more; it is not busy. One that listens gives its messages to
    /// its listener alone.
    SetListener {
        consumer: ConsumerId,
        on: bool,
    },
    /// Asks for the next message at that moment, for the listener of the consumer, which listens and is not busy. What is
    /// delivered is out to the session in every mode, and the consumer is busy until `Done`.
    Take {
        consumer: ConsumerId,
        now: Moment,
    },
    /// Ends the delivery for which the consumer is busy. In modes `Auto` and `Dups`, where the message is still out through
    /// this consumer, it is settled where `ok` is set, and else waits again; in any other it stays out.
    Done {
        consumer: ConsumerId,
        ok: bool,
    },
}

/// A call of the core.
#[derive(Debug, PartialEq, Drop)]
pub enum Call {
    /// A call that carries no messages.
    Ask(Request),
    /// Publishes stamped messages of a session that is not transacted, in the order of the list.
    Publish(List<Message>),
    /// Commits the session's transaction: settles all that is out to it, and then publishes the stamped messages that
    /// it sent, in the order of the list (Jakarta Messaging 3.1, section 6.2).
    Commit(List<Message>),
}

/// One event of the core: a call, and who makes it.
#[derive(Debug, PartialEq, Drop)]
pub struct Step {
    pub who: Who,
    pub call: Call,
}

/// What a client asks: a step that carries no messages; a send, which is stamped on the way; or a commit of what the
/// session sent.
#[derive(PartialEq, Drop)]
pub enum ClientCall {
    Ask {
        who: Who,
        request: Request,
    },
    /// Sends the draft to the destination.
    Send {
        session: SessionId,
        draft: Draft,
        destination: Destination,
        now: Moment,
    },
    /// Commits the session's transaction, with the messages that it sent in it.
    CommitSession(SessionId),
}

impl Request {
    /// Whether both are equal in every field.
    pub fn is(&self, request: &Request) -> bool
        ensures { IsTrue result ↔ (self.now ≡ request.now) }
    {
        *self == *request
    }

    /// An equal request. `AllocError` where a request for memory was refused.
    pub fn copy(&self) -> Result<Request, AllocError>
        ensures { IfOk result (λ copy. copy ≡ self.now) }
    {
        self.clone()
    }

    /// Whether others may find a message after the request, or their wait ends.
    fn may_wake(&self) -> bool
        ensures { result ≡ waiting.may_wake self.now }
    {
        match self {
            Request::Start
            | Request::Recover
            | Request::Rollback
            | Request::Done { .. }
            | Request::CloseConnection
            | Request::CloseSession
            | Request::CloseConsumer { .. } => true,
            Request::Open { .. }
            | Request::Stop
            | Request::CreateSession { .. }
            | Request::CreateConsumer { .. }
            | Request::CreateDurable { .. }
            | Request::CreateShared { .. }
            | Request::CreateSharedDurable { .. }
            | Request::Unsubscribe { .. }
            | Request::Receive { .. }
            | Request::Acknowledge
            | Request::Missed { .. }
            | Request::SetListener { .. }
            | Request::Take { .. } => false,
        }
    }
}

impl Call {
    /// Whether the call, answered so, is accepted, and others that wait may find a message after it, or their wait ends
    /// (ours).
    pub fn wakes<E>(&self, reply: &Result<Answer, E>) -> bool
        ensures { result ≡ waiting.wakes self.now reply.now }
    {
        if reply.is_err() {
            return false;
        }
        match self {
            Call::Publish(_) | Call::Commit(_) => true,
            Call::Ask(request) => request.may_wake(),
        }
    }
}

fn copy_messages(alloc: Global, messages: &List<Message>) -> Result<List<Message>, AllocError>
    ensures { IfOk result (λ copies. copies ≡ messages.now) }
{
    Ok(List::new(messages.as_slice().to_vec(alloc)?))
}

impl Step {
    /// Whether both are equal in every field.
    pub fn is(&self, other: &Step) -> bool
        ensures { IsTrue result ↔ (self.now ≡ other.now) }
    {
        *self == *other
    }

    /// An equal step. `AllocError` where a request for memory was refused.
    pub fn copy(&self, alloc: Global) -> Result<Step, AllocError>
        ensures { IfOk result (λ copy. copy ≡ self.now) }
    {
        let call = match &self.call {
            Call::Ask(request) => Call::Ask(request.copy()?),
            Call::Publish(messages) => Call::Publish(copy_messages(alloc, messages)?),
            Call::Commit(messages) => Call::Commit(copy_messages(alloc, messages)?),
        };
        Ok(Step {
            who: self.who,
            call,
        })
    }
}

impl ClientCall {
    /// Whether both are equal in every field.
    pub fn is(&self, call: &ClientCall) -> bool
        ensures { IsTrue result ↔ (self.now ≡ call.now) }
    {
        *self == *call
    }

    /// An equal call. `AllocError` where a request for memory was refused.
    pub fn copy(&self) -> Result<ClientCall, AllocError>
        ensures { IfOk result (λ copy. copy ≡ self.now) }
    {
        match self {
            ClientCall::Ask { who, request } => Ok(ClientCall::Ask {
                who: *who,
                request: request.copy()?,
            }),
            ClientCall::Send {
                session,
                draft,
                destination,
                now,
            } => Ok(ClientCall::Send {
                session: *session,
                draft: draft.copy()?,
                destination: destination.copy()?,
                now: *now,
            }),
            ClientCall::CommitSession(session) => Ok(ClientCall::CommitSession(*session)),
        }
    }
}
