//! Causes.

ghost use Rattle.std.specs.Prelude.{◌≡◌};
ghost use Rattle.jm_why.specs.Why as spec;

use jm_base::Refusal;
use std::fmt;

/// Why a call is refused as `IllegalState`, or as `SubscriptionInUse`: the first cause that stands (ours).
#[derive(Clone, Copy, Debug, PartialEq, Eq)]
pub enum Why {
    /// The connection is closed, or was never opened.
    ConnectionNotOpen,
    /// The session is closed, or was never opened, on a connection that is open.
    SessionNotOpen,
    /// The consumer is closed, or was never made, in a session that is open.
    ConsumerNotOpen,
    /// The number was given before: to a connection, to a session of the connection, or to a consumer of the session.
    NumberUsed,
    /// The connection has no client identifier, which an unshared durable subscription wants (Jakarta Messaging 3.1, section
    /// 8.3.3).
    NoClient,
    /// The consumer listens, so its listener alone takes messages.
    Listening,
    /// The consumer does not listen.
    NotListening,
    /// The consumer's listener is not done with its message.
    Busy,
    /// The consumer's listener has no message.
    NotBusy,
    /// The session is transacted, and the call is for one that is not (Jakarta Messaging 3.1, section 6.2).
    Transacted,
    /// The session is not transacted, and the call is for one that is.
    NotTransacted,
    /// A message was stamped by another session, or in another opening.
    ForeignStamp,
    /// A session makes a connection's call, or a connection a session's.
    OtherCaller,
    /// The name is that of a subscription that is shared where this is not, or not where this is.
    OtherKind,
    /// The subscription asks for another thing, and ends with its last consumer.
    OtherDefinition,
    /// A consumer of the subscription is open, and it may have no other, or is to be replaced or deleted.
    ActiveConsumer,
    /// A message of the subscription is out to a session, and it is to be replaced or deleted.
    RowOut,
}

impl Why {
    /// The refusal that it explains.
    pub fn refusal(&self) -> Refusal
        ensures { result ≡ spec.refusal_of self.now }
    {
        match self {
            Why::ConnectionNotOpen
            | Why::SessionNotOpen
            | Why::ConsumerNotOpen
            | Why::NumberUsed
            | Why::NoClient
            | Why::Listening
            | Why::NotListening
            | Why::Busy
            | Why::NotBusy
            | Why::Transacted
            | Why::NotTransacted
            | Why::ForeignStamp
            | Why::OtherCaller => Refusal::IllegalState,
            Why::OtherKind | Why::OtherDefinition | Why::ActiveConsumer | Why::RowOut => {
                Refusal::SubscriptionInUse
            }
        }
    }
}

/// The cause, and what to do.
fn text(why: &Why) -> &'static str {
    match why {
        Why::ConnectionNotOpen => "the connection is not open: create another",
        Why::SessionNotOpen => "the session is not open: create another",
        Why::ConsumerNotOpen => "the consumer is not open: create another",
        Why::NumberUsed => "the number was used: take the next",
        Why::NoClient => "the connection has no client identifier: create one with it",
        Why::Listening => "the consumer listens: take its listener away before a receive",
        Why::NotListening => "the consumer does not listen: set its listener",
        Why::Busy => "the listener has a message: let it end first",
        Why::NotBusy => "the listener has no message: let it take one first",
        Why::Transacted => "the session is transacted: commit, or roll back",
        Why::NotTransacted => "the session is not transacted: acknowledge, or recover",
        Why::ForeignStamp => "another session stamped a message: send it anew",
        Why::OtherCaller => "the call is not this caller's: ask the connection, or a session",
        Why::OtherKind => "the name is that of a subscription shared in another way: take another",
        Why::OtherDefinition =>
            "the subscription asks for another thing: ask for the same, or close its consumers",
        Why::ActiveConsumer => "a consumer of the subscription is open: close it",
        Why::RowOut => "a message of the subscription is out: settle it, or give it back",
    }
}

impl fmt::Display for Why {
    /// The cause, and what to do.
    fn fmt<W: fmt::Write>(&self, f: &mut fmt::Formatter<W>) -> fmt::Result {
        f.write_str(text(self))
    }
}
