//! How subscriptions that have names are shared.

ghost use Rattle.std.specs.Prelude.{◌≡◌, if◌then◌else◌};
ghost use Rattle.std.specs.Option.{option_copied};
ghost use Rattle.jm_sub.specs.Sharing as spec;
ghost use Rattle.jm_sub.specs.Subscriptions.{is_shared_own};

use crate::definition::{is_same, is_same_kind};
use jm_dest::Key;
use jm_machine::Definition;

/// How a subscription that has a name is shared (Jakarta Messaging 3.1, section 8.3).
#[derive(Clone, Copy, Debug, PartialEq, Eq)]
pub enum Sharing {
    /// Durable, with one consumer at a time.
    Unshared,
    /// Durable, with any number of consumers.
    SharedDurable,
    /// Not durable, with any number of consumers.
    Shared,
}

impl Sharing {
    /// Whether the subscription may have more than one active consumer.
    pub fn is_shared(self) -> bool
        ensures { result ≡ spec.is_shared self }
    {
        match self {
            Sharing::Unshared => false,
            Sharing::SharedDurable | Sharing::Shared => true,
        }
    }

    /// Whether a subscription that is shared so may be had, where that is held under its key: `is_idle` says that no
    /// consumer of the key is active, and `is_home` that no row of it is out.
    pub fn may(
        self,
        held: Option<&Definition>,
        is_idle: bool,
        is_home: bool,
        asked: &Definition,
    ) -> bool
        ensures { result ≡ spec.may self (option_copied held.entry) is_idle is_home asked.now }
    {
        match self {
            Sharing::Unshared => {
                is_same_kind(held, asked) && is_idle && (is_same(held, asked) || is_home)
            }
            Sharing::SharedDurable => {
                is_same_kind(held, asked) && (is_same(held, asked) || is_idle && is_home)
            }
            Sharing::Shared => held.is_none() || is_same(held, asked),
        }
    }
}

/// How many shared subscriptions that are not durable have the key: one, or none by its kind.
pub(crate) fn shared_own(key: &Key) -> usize
    ensures { result ≡ (if is_shared_own key.now then 1 else 0) }
{
    match key {
        Key::SharedOwn(_, _) => 1,
        Key::Queue(_) | Key::Own(_, _) | Key::Durable(_, _) => 0,
    }
}
