//! Calls in few words. Connections, sessions and consumers are named by their order, from 0.

use jm_client::Mode;

/// Where a consumer receives from, and where a message is sent to.
#[derive(Clone, Copy)]
pub(crate) enum At {
    Topic(&'static str),
    Queue(&'static str),
}

/// What a consumer receives by.
#[derive(Clone, Copy)]
pub(crate) enum Kind {
    /// A queue, or a subscription of its own.
    Plain,
    /// The same, without what its connection sends.
    Others,
    Durable(&'static str),
    /// The same, without what connections with its client identifier send.
    DurableOthers(&'static str),
    Shared(&'static str),
    SharedDurable(&'static str),
}

/// What is sent.
#[derive(Clone, Copy)]
pub(crate) enum What {
    NoBody,
    Text(&'static str),
    Bytes(&'static [u8]),
    /// A text with that time to live, in milliseconds.
    Living(&'static str, i64),
    /// A text with that delivery delay, in milliseconds.
    Delayed(&'static str, i64),
}

/// What is closed, or dropped.
#[derive(Clone, Copy)]
pub(crate) enum Part {
    Connection(usize),
    Session(usize),
    Consumer(usize),
}

/// A call.
#[derive(Clone, Copy)]
pub(crate) enum Op {
    Connect(Option<&'static str>),
    Start(usize),
    Stop(usize),
    Session(usize, Mode),
    /// Makes a topic, or a queue, and nothing of it.
    Name(usize, At),
    /// With a selector, or with none.
    Consumer(usize, Kind, At, Option<&'static str>),
    Unsubscribe(usize, &'static str),
    Send(usize, At, What),
    Commit(usize),
    Rollback(usize),
    Acknowledge(usize),
    Recover(usize),
    /// Does not wait.
    Receive(usize),
    /// Waits for a moment.
    Wait(usize),
    Missed(usize),
    Close(Part),
    Drop(Part),
    /// Sets the clock to so many milliseconds since 1970; with none it is not read.
    Clock(Option<u64>),
    /// Asks what is open.
    Open,
    /// Asks what is held.
    Held,
}
