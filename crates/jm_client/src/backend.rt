//! How calls are made under the lock.

ghost use Rattle.std.specs.Prelude.{◌≡◌, [], ◌∷◌};
ghost use Rattle.jm_client.specs.Locked.{publication};
ghost use Rattle.jm_plans.specs.Provider.{state_of};
ghost use Rattle.jm_kept.specs.Kept.{KeptFits};
ghost use Rattle.jm_machine.specs.declared.call.Call.TheVariants.{Publish};
ghost use Rattle.jm_machine.specs.declared.call.Who.TheVariants.{Session as BySession};

use jm_base::Refusal;
use jm_core::{Answer, Core, Step};
use jm_dest::SessionId;
use jm_header::Message;

/// How the calls of an embedded provider are made, and on what: this lies under its lock (ours). A service that is generic in
/// it runs over one that keeps nothing, over a store, and in tests over one that is audited.
pub trait Backend: Drop {
    ghost use Rattle.std.specs.Prelude.{Result};
    ghost use Rattle.jm_base.specs.declared.refusal.Refusal.{Refusal};
    ghost use Rattle.jm_plans.specs.Provider.{Provider};
    ghost use Rattle.jm_machine.specs.declared.answer.Answer.{Answer};
    ghost use Rattle.jm_machine.specs.declared.call.Step.{Step};

    /// The core that answers.
    ghost core_of: { Self → Provider };

    /// What a step with its reply does to the backend, beyond what it does to the core's state: to a keeper, or to a trace.
    ghost IsStep: { Self → Step → Result Answer Refusal → Self → Type 0 };

    /// The core that answers, as it stands.
    fn core(&self) -> &Core
        ensures { result.now ≡ core_of self.now };

    /// One step. A refusal is the machine's, as `Core::step` says; or it is `Memory` or `Store`, and then the core's state is
    /// as before.
    fn apply(&mut self, step: &Step) -> Result<Answer, Refusal>
        ensures fits { KeptFits (state_of (core_of self.old)) step.now.who step.now.call result (state_of (core_of self.new)) }
        ensures backend { IsStep self.old step.now result self.new };

    /// Publishes one message that the session stamped, as `apply` makes the step that publishes it alone, with its refusals; a
    /// refusal drops the message.
    fn publish(&mut self, session: SessionId, message: Message) -> Result<Answer, Refusal>
        ensures fits { KeptFits (state_of (core_of self.old)) (BySession session) (Publish (message ∷ [])) result
            (state_of (core_of self.new)) }
        ensures backend { IsStep self.old (publication session message) result self.new };
}
