//! Where a subscription stands in the list of channels.

ghost use Rattle.std.specs.Prelude.{◌≡◌, IfOk};
ghost use Rattle.jm_sub.specs.Channels.{channel_of};

use jm_dest::Name;
use jm_machine::Definition;
use jm_selector::Literal;
use std::alloc::AllocError;

/// The subscriptions of a topic whose selectors ask by `=` for the same literal, or for none.
#[derive(PartialEq, Eq, PartialOrd, Ord, Drop)]
pub(crate) struct Channel {
    /// The literal that each of them asks a value of the message to be equal to, if they ask so. It stands first, so that
    /// channels of one topic are compared by their literals.
    pub(crate) literal: Option<Literal>,
    pub(crate) topic: Name,
}

impl Channel {
    /// The channel of a subscription that asks for that. `AllocError` where a request for memory was refused.
    pub(crate) fn of(definition: &Definition) -> Result<Channel, AllocError>
        ensures { IfOk result (λ channel. channel ≡ channel_of definition.now) }
    {
        Ok(Channel {
            literal: definition.selector.literal()?,
            topic: definition.topic.copy()?,
        })
    }
}
