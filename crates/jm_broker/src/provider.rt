//! The provider's core under the lock.

use crate::planned::PlannedCore;
use jm_base::Refusal;
use jm_core::{Core, Plan};
use jm_keep::RowChange;
use jm_machine::{Answer, Step};
use std::alloc::{AllocError, Global};

impl PlannedCore for Core {
    type Plan = Plan;

    ghost use Rattle.jm_plans.specs.Plans.{IsPlan};
    ghost use Rattle.jm_plans.specs.Provider.{state_of};

    ghost state = { λ core. state_of core };

    ghost is_plan = { λ core step plan. IsPlan core step.who step.call plan };

    fn copy(&self) -> Result<Core, AllocError> {
        Core::copy(self)
    }

    fn plan(&mut self, step: &Step) -> Result<Plan, Refusal> {
        Core::plan(self, step)
    }

    fn copy_answer(&self, _step: &Step, plan: &Plan) -> Result<Answer, AllocError> {
        Core::copy_answer(self, plan)
    }

    fn changes(
        &self,
        alloc: Global,
        step: &Step,
        plan: &Plan,
    ) -> Result<Vec<RowChange>, AllocError> {
        jm_listed::changes(alloc, self, step, plan)
    }

    fn install(&mut self, _step: &Step, plan: Plan) -> Answer {
        Core::install(self, plan)
    }
}
