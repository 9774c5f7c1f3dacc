//! What a client is told of a call that is refused.

ghost use Rattle.std.specs.Prelude.{◌≡◌, None};
ghost use Rattle.jm_error.specs.Faults as spec;
ghost use Rattle.jm_error.specs.Refused.{bare_reply};

use jm_base::{MessageFault, Refusal};
use jm_why::Why;
use std::alloc::{AllocError, AllocFailed};
use std::marker::Model;
use std::{error, fmt};

/// Why a call is refused, with a text that says what to do. It is an `Error`, so `?` passes it on, as that of a program too.
/// Contracts see its refusal, and its cause, where one is told.
#[derive(Clone, Copy, Debug, PartialEq, Eq)]
pub struct Error {
    refusal: Refusal,
    cause: Option<Why>,
}

impl Model for Error {
    ghost use Rattle.jm_error.specs.Refused.{Refused};

    ghost Value = { Refused };

    ghost view = { λ e. record { refusal = e.refusal; cause = e.cause } };

    ghost inverse = { λ r. record { refusal = r.refusal; cause = r.cause } };
}

impl Error {
    /// The error of that refusal, with its cause, where one is told.
    pub fn new(refusal: Refusal, cause: Option<Why>) -> Error
        ensures { result ≡ record { refusal = refusal; cause = cause } }
    {
        Error { refusal, cause }
    }

    /// The refusal, to be matched on.
    pub fn refusal(&self) -> Refusal
        ensures { result ≡ self.now.refusal }
    {
        self.refusal
    }

    /// The cause of the refusal, to be matched on (ours). An `IllegalState` that a provider answers has one, and so has a
    /// `SubscriptionInUse`, but where memory was wanted to find it. No other refusal has one, and none has the `IllegalState`
    /// of a message that is read-only, which no provider answers.
    pub fn cause(&self) -> Option<Why>
        ensures { result ≡ self.now.cause }
    {
        self.cause
    }
}

/// The error of that refusal, without a cause.
fn bare(refusal: Refusal) -> Error
    ensures { result ≡ record { refusal = refusal; cause = None } }
{
    Error {
        refusal,
        cause: None,
    }
}

/// The refusal that a fault of a message comes nearest to (ours): one that is read-only is in no state for a write, and a
/// property that is not there is of no type. The others have their names.
fn refusal_of(fault: MessageFault) -> Refusal
    ensures { result ≡ spec.refusal_of fault }
{
    match fault {
        MessageFault::NotWriteable => Refusal::IllegalState,
        MessageFault::Unset | MessageFault::MessageFormat => Refusal::MessageFormat,
        MessageFault::BadName => Refusal::BadName,
        MessageFault::OutOfRange => Refusal::OutOfRange,
        MessageFault::Memory => Refusal::Memory,
    }
}

/// A reply that is passed on, its refusal without a cause.
pub fn passed_on<T>(reply: Result<T, Refusal>) -> Result<T, Error>
    ensures { result ≡ bare_reply reply }
{
    match reply {
        Ok(value) => Ok(value),
        Err(refusal) => Err(bare(refusal)),
    }
}

impl From<Refusal> for Error {
    ghost use Rattle.std.specs.Prelude.{◌≡◌};
    ghost use Rattle.jm_error.specs.Refused.{bare};

    ghost from_gives = { λ refusal error. error ≡ bare refusal };

    fn from(refusal: Refusal) -> Error {
        bare(refusal)
    }
}

impl From<MessageFault> for Error {
    ghost use Rattle.std.specs.Prelude.{◌≡◌};
    ghost use Rattle.jm_error.specs.Faults.{refusal_of};
    ghost use Rattle.jm_error.specs.Refused.{bare};

    ghost from_gives = { λ fault error. error ≡ bare (refusal_of fault) };

    fn from(fault: MessageFault) -> Error {
        bare(refusal_of(fault))
    }
}

impl From<AllocError> for Error {
    ghost use Rattle.std.specs.Prelude.{◌≡◌};
    ghost use Rattle.jm_base.specs.declared.refusal.Refusal.TheVariants.{Memory};
    ghost use Rattle.jm_error.specs.Refused.{bare};

    ghost from_gives = { λ _ error. error ≡ bare Memory };

    fn from(_: AllocError) -> Error {
        bare(Refusal::Memory)
    }
}

impl<T: Drop> From<AllocFailed<T>> for Error {
    ghost use Rattle.std.specs.Prelude.{◌≡◌};
    ghost use Rattle.jm_base.specs.declared.refusal.Refusal.TheVariants.{Memory};
    ghost use Rattle.jm_error.specs.Refused.{bare};

    ghost from_gives = { λ _ error. error ≡ bare Memory };

    fn from(_failed: AllocFailed<T>) -> Error {
        bare(Refusal::Memory)
    }
}

/// What to do after the refusal.
fn advice(refusal: &Refusal) -> &'static str {
    match refusal {
        Refusal::IllegalState => {
            "it is closed, or not in a mode or a state for the call; make it anew, or call another"
        }
        Refusal::BadName => {
            "take a name of 1 to 255 bytes without control characters, of a property an identifier"
        }
        Refusal::OutOfRange => "set the clock, or take a number or a moment within its range",
        Refusal::MessageFormat => "read the property as the type that it was set with",
        Refusal::InvalidDestination => { "name a topic, or a durable subscription that there is" }
        Refusal::InvalidSelector { .. } => "mend the selector at that byte",
        Refusal::InvalidClientId => {
            "close the connection that has the client identifier, or take another"
        }
        Refusal::SubscriptionInUse => {
            "close its consumers and settle what is out of it, or take another name"
        }
        Refusal::Exhausted => "no number is left; make a new provider",
        Refusal::Memory => "nothing was changed; let memory go, and call again",
        Refusal::Store =>
            "nothing was changed; mend the store, open it anew if it stays shut, and call again",
    }
}

impl fmt::Display for Error {
    /// The refusal, its cause where one is told, and what to do.
    fn fmt<W: fmt::Write>(&self, f: &mut fmt::Formatter<W>) -> fmt::Result {
        match self.cause {
            Some(why) => write!(f, "{}: {}", self.refusal, why),
            None => write!(f, "{}: {}", self.refusal, advice(&self.refusal)),
        }
    }
}

impl error::Error for Error {}
