//! Calls in few words, and what they are told. Connections, sessions and consumers are named by their order, from 0.

use crate::meanwhile::Meanwhile;
use jm_client::{Error, Mode, Refusal, Why};

/// Where a consumer receives from, and where a message is sent to.
#[derive(Clone, Copy)]
pub(crate) enum At {
    Topic(&'static str),
    Queue(&'static str),
}

/// What a consumer receives by.
#[derive(Clone, Copy)]
pub(crate) enum Kind {
    /// A queue, or a subscription of its own.
    Plain,
    /// The same, with that selector.
    Selecting(&'static str),
    Durable(&'static str),
    Shared(&'static str),
    SharedDurable(&'static str),
}

/// A call.
#[derive(Clone, Copy)]
pub(crate) enum Op {
    Connect(Option<&'static str>),
    Start(usize),
    Session(usize, Mode),
    Consumer(usize, Kind, At),
    Unsubscribe(usize, &'static str),
    /// Sends a message with the boolean property `x`.
    Send(usize, At),
    Commit(usize),
    Rollback(usize),
    Acknowledge(usize),
    Recover(usize),
    /// Receives, and does not wait.
    Receive(usize),
    /// The same, and reads the property `x` of the message as an int.
    Read(usize),
    /// The same, and writes a text into the message.
    Write(usize),
    Missed(usize),
    /// The session listens to the consumer, for one message at most, with no wait; and what its listener calls.
    Listen(usize, usize, Meanwhile),
    /// Drops it, which closes it; and so the others.
    CloseConnection(usize),
    CloseSession(usize),
    CloseConsumer(usize),
    /// Sets the clock to so many milliseconds since 1970; with none it is not read.
    Clock(Option<u64>),
    /// Asks whether the text of the last refusal is that.
    Says(&'static str),
}

/// What a call is told.
#[derive(Clone, Copy, PartialEq, Eq)]
pub(crate) enum Told {
    Done,
    /// No message came, or the text is another.
    Nothing,
    /// It is refused so, for that cause.
    Because(Refusal, Why),
    /// It is refused so, and no cause is told.
    Bare(Refusal),
    /// Who should make the call is not there.
    Absent,
}

/// A call, and what it is told.
pub(crate) type Row = (Op, Told);

/// What is told by an error.
pub(crate) fn told_by(error: &Error) -> Told {
    match error.cause() {
        Some(cause) => Told::Because(error.refusal(), cause),
        None => Told::Bare(error.refusal()),
    }
}

/// What is told of a call that hands out nothing that is looked at.
pub(crate) fn done<T: Drop>(reply: Result<T, Error>) -> Result<Told, Error> {
    match reply {
        Ok(_value) => Ok(Told::Done),
        Err(error) => Err(error),
    }
}
