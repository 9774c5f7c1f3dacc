//! What works on the messages of a consumer.

ghost use Rattle.std.specs.Prelude.{Result};
ghost use Rattle.jm_machine.specs.declared.answer.Delivery.{Delivery};

use jm_error::Error;
use jm_machine::Delivery;

/// What is called for the session once its listener has handled a message (ours).
#[derive(Clone, Copy, Debug, PartialEq, Eq)]
pub enum After {
    /// Nothing is called.
    Go,
    /// The session acknowledges: in mode `Client` all that is out to it is settled (Jakarta Messaging 3.1, section 6.2.10).
    Acknowledge,
    /// The session's transaction is committed (Jakarta Messaging 3.1, section 6.2).
    Commit,
    /// The session's transaction is rolled back.
    Rollback,
    /// All that is out to the session waits again.
    Recover,
}

/// The listener failed with its message (ours). A refusal of a call that it makes is one, by `?`.
#[derive(Clone, Copy, Debug, PartialEq, Eq)]
pub struct ListenerFault;

impl From<Error> for ListenerFault {
    ghost from_gives = { λ _ _. Unit {0} };

    fn from(_refused: Error) -> ListenerFault {
        ListenerFault
    }
}

/// Handles the messages of a consumer, one after another (ours).
pub trait Listener {
    ghost use Rattle.jm_listener.specs.declared.listener.After.{After};
    ghost use Rattle.jm_listener.specs.declared.listener.ListenerFault.{ListenerFault};

    /// What it may be after a message that it answered so; by default anything.
    ghost handles: { Self → Delivery → Result After ListenerFault → Self → Type 0 } = { λ _ _ _ _. Unit {0} };

    /// Handles a message, and names what is called then. A failure is told to the provider with the end of the delivery, and
    /// nothing is called then.
    fn on_message(&mut self, delivery: &Delivery) -> Result<After, ListenerFault>
        ensures { handles self.old delivery.now result self.new };
}
