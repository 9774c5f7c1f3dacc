//! Calls in few words.

use jm_base::{Mode, Refusal};
use jm_dest::{ConnectionId, SessionId};
use jm_machine::Who;

/// A session: the number of its connection, and its own.
pub type Numbers = (u32, u32);

/// Where a consumer receives from, and where a message is sent to.
#[derive(Clone, Copy)]
pub enum At {
    Topic(&'static str),
    Queue(&'static str),
}

/// How a subscription that has a name is asked for.
#[derive(Clone, Copy)]
pub enum Kind {
    /// Unshared and durable.
    Durable,
    /// The same, of others' messages alone.
    Others,
    /// Shared and not durable.
    Shared,
    SharedDurable,
}

/// A call: the topic is t where no destination is given, and the moment is 1000 where none is given.
#[derive(Clone, Copy)]
pub enum Op {
    /// Opens the connection of that number, for no client.
    Open(u32),
    /// The same for that client.
    OpenFor(u32, &'static str),
    Start(u32),
    Stop(u32),
    CloseConnection(u32),
    Session(Numbers, Mode),
    CloseSession(Numbers),
    /// The consumer of that number, with a selector or with none.
    Consumer(Numbers, u32, Option<&'static str>),
    /// The consumer of that number there, with a selector or with none, and whether it is one of others' messages alone.
    ConsumerAt(Numbers, u32, At, Option<&'static str>, bool),
    /// The consumer of that number, of the subscription of that kind and name, with a selector or with none.
    Named(Numbers, u32, Kind, &'static str, Option<&'static str>),
    /// The same there.
    NamedAt(Numbers, u32, Kind, At, &'static str, Option<&'static str>),
    CloseConsumer(Numbers, u32),
    /// The end of the durable subscription of that name.
    Unsubscribe(Numbers, &'static str),
    /// A text of session 1 of that connection, with that property x or with none.
    Send(u32, &'static str, Option<i64>),
    /// The same to that destination.
    SendTo(u32, At, &'static str, Option<i64>),
    /// A text of session 1 of that connection, at that moment, with that time to live.
    SendAt(u32, &'static str, i64, i64),
    /// A text of session 1 of that connection to that destination, with that delivery delay, and with that property x or
    /// with none.
    SendDelayed(u32, At, &'static str, i64, Option<i64>),
    Receive(Numbers, u32),
    ReceiveAt(Numbers, u32, i64),
    /// Whether the consumer of that number listens from then on.
    Listener(Numbers, u32, bool),
    Take(Numbers, u32),
    TakeAt(Numbers, u32, i64),
    /// Whether the listener of the consumer of that number was done well.
    Done(Numbers, u32, bool),
    Acknowledge(Numbers),
    Recover(Numbers),
    Rollback(Numbers),
    Commit(Numbers),
    Missed(Numbers, u32),
}

/// Session 1 of that connection. `OutOfRange` where the number is 0.
pub fn session(connection: u32) -> Result<SessionId, Refusal> {
    session_of((connection, 1))
}

/// The session of those numbers. `OutOfRange` where one of them is 0.
pub fn session_of(numbers: Numbers) -> Result<SessionId, Refusal> {
    SessionId::new(ConnectionId::new(numbers.0)?, numbers.1)
}

/// Who makes the call.
pub(crate) fn who(op: Op) -> Result<Who, Refusal> {
    match op {
        Op::Open(c) | Op::OpenFor(c, _) | Op::Start(c) | Op::Stop(c) | Op::CloseConnection(c) => {
            Ok(Who::Connection(ConnectionId::new(c)?))
        }
        Op::Send(c, _, _)
        | Op::SendTo(c, _, _, _)
        | Op::SendAt(c, _, _, _)
        | Op::SendDelayed(c, _, _, _, _) => Ok(Who::Session(session(c)?)),
        Op::Session(numbers, _)
        | Op::CloseSession(numbers)
        | Op::Consumer(numbers, _, _)
        | Op::ConsumerAt(numbers, _, _, _, _)
        | Op::Named(numbers, _, _, _, _)
        | Op::NamedAt(numbers, _, _, _, _, _)
        | Op::CloseConsumer(numbers, _)
        | Op::Unsubscribe(numbers, _)
        | Op::Receive(numbers, _)
        | Op::ReceiveAt(numbers, _, _)
        | Op::Listener(numbers, _, _)
        | Op::Take(numbers, _)
        | Op::TakeAt(numbers, _, _)
        | Op::Done(numbers, _, _)
        | Op::Acknowledge(numbers)
        | Op::Recover(numbers)
        | Op::Rollback(numbers)
        | Op::Commit(numbers)
        | Op::Missed(numbers, _) => Ok(Who::Session(session_of(numbers)?)),
    }
}
