//! What consumers are found by.

ghost use Rattle.std.specs.Prelude.{◌≡◌};
ghost use Rattle.jm_session.specs.Numbers.{number_of};

use jm_dest::{ConsumerId, SessionId};
use jm_machine::Consumer;

/// What a consumer is found by: its session, and its number in that session. In their order they stand by connections, then by
/// the numbers of sessions and of consumers.
#[derive(Clone, Copy, PartialEq, Eq, PartialOrd, Ord, Hash)]
pub(crate) struct ConsumerNumber {
    pub session: SessionId,
    pub consumer: ConsumerId,
}

impl ConsumerNumber {
    /// What the consumer is found by.
    pub(crate) fn of(consumer: &Consumer) -> ConsumerNumber
        ensures { result ≡ number_of consumer.now }
    {
        ConsumerNumber {
            session: consumer.session,
            consumer: consumer.id,
        }
    }
}
