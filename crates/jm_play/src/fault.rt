ghost use Rattle.std.specs.Prelude.{◌≡◌};
ghost use Rattle.jm_play.specs.Faults.{status_of_fault};

use crate::database::DatabaseFault;
use jm_base::Cause;
use jm_scenario::ScenarioFault;
use std::alloc::AllocError;
use std::fmt;
use thiserror::Error;

/// Why the program ends without the lines of its replies.
#[derive(Debug, PartialEq, Drop, Error)]
pub enum Fault {
    /// A read failed, or the scenario has more than 16,777,216 bytes.
    File,
    /// The bytes are no scenario.
    Scenario(ScenarioFault),
    /// The selector is refused, at that offset in bytes.
    Selector { cause: Cause, at: usize },
    /// The text is no key of an unshared subscription.
    Key(KeyFault),
    /// The database of the store serves no run.
    Database(DatabaseFault),
    /// A request for memory was refused.
    Memory,
}

/// Why a text is no key of an unshared subscription.
#[derive(Clone, Copy, Debug, PartialEq, Eq, Error)]
pub enum KeyFault {
    /// The text spells no key.
    Syntax,
    /// The key is none of an unshared topic subscription. In a run that is a consumer's own, where a creating call,
    /// accepted or not, names its number for another subscription or for a queue; and a durable one, where a call,
    /// accepted or not, asks for it as a shared one.
    NotUnshared,
}

impl Fault {
    /// The exit status of the program: 3 where a request for memory was refused or the store was not opened, else 1.
    pub(crate) fn status(&self) -> u8
        ensures { result ≡ status_of_fault self.now }
    {
        match self {
            Fault::Database(_) | Fault::Memory => 3,
            Fault::File | Fault::Scenario(_) | Fault::Selector { .. } | Fault::Key(_) => 1,
        }
    }
}

impl fmt::Display for KeyFault {
    ghost use Rattle.std.specs.Prelude.{Some};
    ghost use Rattle.jm_play.specs.Faults.{key_fault_text};

    ghost output = { λ fault. Some (key_fault_text fault) };

    /// What is told of the fault.
    fn fmt<W: fmt::Write>(&self, f: &mut fmt::Formatter<W>) -> fmt::Result {
        f.write_str(match self {
            KeyFault::Syntax => "key: syntax",
            KeyFault::NotUnshared => "key: not an unshared subscription",
        })
    }
}

impl fmt::Display for Fault {
    ghost use Rattle.std.specs.Prelude.{Some};
    ghost use Rattle.jm_play.specs.Faults.{fault_text};

    ghost output = { λ fault. Some (fault_text fault) };

    /// What is told of the fault: what is refused, and why.
    fn fmt<W: fmt::Write>(&self, f: &mut fmt::Formatter<W>) -> fmt::Result {
        match self {
            Fault::File => f.write_str("file: not readable"),
            Fault::Scenario(fault) => write!(f, "{fault}"),
            Fault::Selector { cause, at } => write!(f, "selector: {cause} at {at}"),
            Fault::Key(fault) => write!(f, "{fault}"),
            Fault::Database(fault) => write!(f, "{fault}"),
            Fault::Memory => f.write_str("memory"),
        }
    }
}

impl From<AllocError> for Fault {
    ghost use Rattle.std.specs.Prelude.{◌≡◌};
    ghost use Rattle.jm_play.specs.declared.fault.Fault.TheVariants.{Memory};

    ghost from_gives = { λ _ fault. fault ≡ Memory };

    fn from(_: AllocError) -> Fault {
        Fault::Memory
    }
}
