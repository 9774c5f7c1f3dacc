ghost use Rattle.std.specs.Prelude.{◌≡◌, IfOk};
ghost use Rattle.jm_dest.specs.Keys as spec;

use crate::name::{ClientId, Name, SubscriptionName};
use crate::number::ConsumerId;
use crate::session::SessionId;
use std::alloc::AllocError;

/// What a row is held for: a queue, or a subscription of one of three families (Jakarta Messaging
/// 3.1, section 8.3; the keys are ours).
#[derive(Clone, Debug, PartialEq, Eq, PartialOrd, Ord, Hash, Drop)]
pub enum Key {
    /// The queue of that name.
    Queue(Name),
    /// The unshared non-durable subscription of one consumer.
    Own(SessionId, ConsumerId),
    /// A shared non-durable subscription, by client identifier and name.
    SharedOwn(Option<ClientId>, SubscriptionName),
    /// A durable subscription, unshared or shared, by client identifier and name.
    Durable(Option<ClientId>, SubscriptionName),
}

impl Key {
    /// An equal key, over the same text. Takes no memory; `AllocError` where the text has 9,223,372,036,854,775,807 owners.
    pub fn copy(&self) -> Result<Key, AllocError>
        ensures { IfOk result (λ copy. copy ≡ self.now) }
    {
        self.clone()
    }

    /// Whether both are the same key.
    pub fn is(&self, other: &Key) -> bool
        ensures { result ≡ spec.key_eq self.now other.now }
    {
        *self == *other
    }
}
