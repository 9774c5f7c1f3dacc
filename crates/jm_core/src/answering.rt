//! What a plan will answer, as a copy that is made before it is installed.

ghost use Rattle.std.specs.Prelude.{◌<◌, IfOk};
ghost use Rattle.jm_plans.specs.Plans.{IsAnswer, IsPlanned};

use crate::planned::Plan;
use crate::provider::Core;
use jm_machine::Answer;
use std::alloc::AllocError;

impl Core {
    /// A copy of the answer that `install` will give to the plan, which was planned on this core as it stands. Changes
    /// nothing. `AllocError` where a request for memory was refused: only a plan that delivers a message takes any.
    pub fn copy_answer(&self, plan: &Plan) -> Result<Answer, AllocError>
        requires { IsPlanned self.now plan.now }
        ensures { IfOk result (λ answer. IsAnswer self.now plan.now answer) }
    {
        self.state.copy_answer(&plan.change)
    }
}
