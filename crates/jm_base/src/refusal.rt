use std::alloc::AllocError;
use std::fmt;

/// Why a selector text is refused (ours; the grammar is that of Jakarta Messaging 3.1, section 3.8.1).
#[derive(Clone, Copy, Debug, PartialEq, Eq)]
pub enum Cause {
    /// No token begins here.
    Token,
    /// The grammar cannot go on with this token, or with the end of the text.
    Expected,
    /// An operand is of a kind that its operator does not take, or the text after ESCAPE is not one
    /// character.
    Kind,
    /// A number word of no form that is read, or a number that is too large.
    Number,
    /// A floating literal, which this provider leaves out.
    Floating,
    /// The text is longer than 8,192 bytes.
    TooLong,
    /// The text nests deeper than 64 levels.
    TooDeep,
    /// A request for memory was refused.
    Memory,
}

/// Why a call is refused, in the order in which the causes are checked.
///
/// A refused call leaves the state as it was.
#[derive(Clone, Copy, Debug, PartialEq, Eq)]
pub enum Refusal {
    /// The connection, session or consumer is not in a state for the call.
    IllegalState,
    /// The name of a property, destination, subscription or client is not allowed.
    BadName,
    /// A number or a moment is outside its range.
    OutOfRange,
    /// A property cannot be read as that type.
    MessageFormat,
    /// A queue where a topic is needed, or an unknown subscription name.
    InvalidDestination,
    /// The selector text is refused at that byte offset.
    InvalidSelector { at: usize, cause: Cause },
    /// An open connection has this client identifier.
    InvalidClientId,
    /// The subscription is in use, and the call would change it.
    SubscriptionInUse,
    /// The numbers are used up.
    Exhausted,
    /// A request for memory was refused.
    Memory,
    /// The keeper refused for another cause than memory.
    Store,
}

/// Why a read or a write of a message is refused.
///
/// A refused write leaves the message as it was.
#[derive(Clone, Copy, Debug, PartialEq, Eq)]
pub enum MessageFault {
    /// This part of the message is read-only until it is cleared.
    NotWriteable,
    /// There is no property of that name.
    Unset,
    /// The property name is not allowed.
    BadName,
    /// A number is outside its range.
    OutOfRange,
    /// The property cannot be read as that type.
    MessageFormat,
    /// A request for memory was refused.
    Memory,
}

impl From<AllocError> for Refusal {
    ghost use Rattle.std.specs.Prelude.{◌≡◌};
    ghost use Rattle.jm_base.specs.declared.refusal.Refusal.TheVariants.{Memory};

    ghost from_gives = { λ _ refusal. refusal ≡ Memory };

    fn from(_: AllocError) -> Refusal {
        Refusal::Memory
    }
}

impl From<AllocError> for MessageFault {
    ghost use Rattle.std.specs.Prelude.{◌≡◌};
    ghost use Rattle.jm_base.specs.declared.refusal.MessageFault.TheVariants.{Memory};

    ghost from_gives = { λ _ fault. fault ≡ Memory };

    fn from(_: AllocError) -> MessageFault {
        MessageFault::Memory
    }
}

impl fmt::Display for Cause {
    ghost use Rattle.std.specs.Prelude.{Some};
    ghost use Rattle.jm_base.specs.Shown.{cause_name};

    ghost output = { λ cause. Some (cause_name cause) };

    /// The name.
    fn fmt<W: fmt::Write>(&self, f: &mut fmt::Formatter<W>) -> fmt::Result {
        f.write_str(match self {
            Cause::Token => "Token",
            Cause::Expected => "Expected",
            Cause::Kind => "Kind",
            Cause::Number => "Number",
            Cause::Floating => "Floating",
            Cause::TooLong => "TooLong",
            Cause::TooDeep => "TooDeep",
            Cause::Memory => "Memory",
        })
    }
}

impl fmt::Display for Refusal {
    ghost use Rattle.std.specs.Prelude.{Some};
    ghost use Rattle.jm_base.specs.Shown.{refusal_name};

    ghost output = { λ refusal. Some (refusal_name refusal) };

    /// The name, and for a selector its cause and offset.
    fn fmt<W: fmt::Write>(&self, f: &mut fmt::Formatter<W>) -> fmt::Result {
        match self {
            Refusal::IllegalState => f.write_str("IllegalState"),
            Refusal::BadName => f.write_str("BadName"),
            Refusal::OutOfRange => f.write_str("OutOfRange"),
            Refusal::MessageFormat => f.write_str("MessageFormat"),
            Refusal::InvalidDestination => f.write_str("InvalidDestination"),
            Refusal::InvalidSelector { at, cause } => write!(f, "InvalidSelector {cause} {at}"),
            Refusal::InvalidClientId => f.write_str("InvalidClientId"),
            Refusal::SubscriptionInUse => f.write_str("SubscriptionInUse"),
            Refusal::Exhausted => f.write_str("Exhausted"),
            Refusal::Memory => f.write_str("Memory"),
            Refusal::Store => f.write_str("Store"),
        }
    }
}
