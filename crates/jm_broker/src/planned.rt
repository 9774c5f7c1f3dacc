//! What the lock needs of a core.

ghost use Rattle.std.specs.Prelude.{◌≡◌, ◌≢◌, Ok, Err, IfOk, IfErr};
ghost use Rattle.jm_broker.specs.Traces.{OnMade, reply_to, state_after};
ghost use Rattle.jm_keep.specs.Persisted.{LeadsTo};

use jm_base::Refusal;
use jm_keep::RowChange;
use jm_machine::{Answer, Step};
use std::alloc::{AllocError, Global};

/// A core whose steps are planned, so that the answer is known, and told to a keeper, before anything changes (ours).
pub trait PlannedCore: Drop {
    /// A step that is prepared.
    type Plan: Drop;

    ghost use Rattle.jm_machine.specs.Machine.{State};
    ghost use Rattle.jm_machine.specs.declared.call.Step.{Step};

    /// The machine's state.
    ghost state: { Self → State };
    /// The plan is that of the step, on the core as it stands.
    ghost is_plan: { Self → Step → Self.Plan → Type 0 };

    /// A core with an equal state. `AllocError` where a request for memory was refused.
    fn copy(&self) -> Result<Self, AllocError>
        ensures { IfOk result (λ copy. state copy ≡ state self.now) };

    /// Plans one step: finds why it is refused, or takes all the memory that it needs. Either way the state stays.
    fn plan(&mut self, step: &Step) -> Result<Self::Plan, Refusal>
        ensures same { state self.new ≡ state self.old }
        ensures ok { IfOk result (λ plan. is_plan self.new step.now plan) }
        ensures err { IfErr result (λ refusal. OnMade (Err refusal)
            ((Err refusal ≡ reply_to (state self.old) step.now) × (state_after (state self.old) step.now ≡ state self.old))) }
        ensures no_store { IfErr result (λ refusal. refusal ≢ Refusal.Store) };

    /// What `install` will answer. `AllocError` where a request for memory was refused.
    fn copy_answer(&self, step: &Step, plan: &Self::Plan) -> Result<Answer, AllocError>
        requires { is_plan self.now step.now plan.now }
        ensures { IfOk result (λ answer. Ok answer ≡ reply_to (state self.now) step.now) };

    /// What the planned step changes of what is stored, in turn. `AllocError` where a request for memory was refused.
    fn changes(
        &self,
        alloc: Global,
        step: &Step,
        plan: &Self::Plan,
    ) -> Result<Vec<RowChange>, AllocError>
        requires { is_plan self.now step.now plan.now }
        ensures { IfOk result (λ changes. LeadsTo (state self.now) (state_after (state self.now) step.now) changes.items) };

    /// Makes the step, and gives its answer. Takes no memory.
    fn install(&mut self, step: &Step, plan: Self::Plan) -> Answer
        requires { is_plan self.old step.now plan }
        ensures answer { Ok result ≡ reply_to (state self.old) step.now }
        ensures state { state self.new ≡ state_after (state self.old) step.now };
}
