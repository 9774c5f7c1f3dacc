//! Listeners that are lent their session.

ghost use Rattle.std.specs.Prelude.{Result};
ghost use Rattle.jm_machine.specs.declared.answer.Delivery.{Delivery};

use crate::backend::Backend;
use crate::session::Session;
use jm_listener::{After, Listener, ListenerFault};
use jm_machine::Delivery;
use std::sync::Wait;
use std::time::Clock;

/// Handles the messages of a consumer, one after another, and is lent their session meanwhile: it may send in it, and what it
/// sends in a transaction is published by the commit that it names (ours).
pub trait SessionListener<R: Wait + Clock, B: Backend> {
    ghost use Rattle.jm_listener.specs.declared.listener.After.{After};
    ghost use Rattle.jm_listener.specs.declared.listener.ListenerFault.{ListenerFault};
    ghost use Rattle.jm_tx.specs.declared.buffer.Buffer.{Buffer};

    /// What it, and what waits in the session, may be after a message that it answered so; by default anything.
    ghost handles_in: { Self → Buffer → Delivery → Result After ListenerFault → Self → Buffer → Type 0 } = { λ _ _ _ _ _ _. Unit {0} };

    /// Handles a message of the session, and names what is called then. A failure is told to the provider with the end of the
    /// delivery, and nothing is called then; what was sent in the session is sent.
    fn on_session_message(
        &mut self,
        session: &mut Session<'_, R, B>,
        delivery: &Delivery,
    ) -> Result<After, ListenerFault>
        ensures { handles_in self.old session.old delivery.now result self.new session.new };
}

impl<R: Wait + Clock, B: Backend, N: Listener> SessionListener<R, B> for N {
    ghost use Rattle.std.specs.Prelude.{◌≡◌};

    ghost handles_in = { λ old before delivery answer new after. N.handles old delivery answer new × (after ≡ before) };

    fn on_session_message(
        &mut self,
        _session: &mut Session<'_, R, B>,
        delivery: &Delivery,
    ) -> Result<After, ListenerFault> {
        self.on_message(delivery)
    }
}
