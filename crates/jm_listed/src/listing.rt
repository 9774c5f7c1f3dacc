//! The changes of a step that is planned on the core.

ghost use Rattle.std.specs.Prelude.{IfOk};
ghost use Rattle.jm_machine.specs.Machine as machine;
ghost use Rattle.jm_keep.specs.Calls.{AreChanges};
ghost use Rattle.jm_keep.specs.Persisted.{LeadsTo};
ghost use Rattle.jm_plans.specs.Plans.{IsPlan};
ghost use Rattle.jm_plans.specs.Provider.{state_of};

use crate::planned::PlannedStep;
use jm_core::{Core, Plan, Step};
use jm_keep::RowChange;
use std::alloc::{AllocError, Global};

/// What the step changes of what is stored that was planned on the core as it stands, in turn. Only a publication, a commit, a
/// receive, an acknowledgement in a session of mode `Client`, and the making and deleting of a durable subscription change
/// anything; no other call takes memory for it. Nothing of the core is copied but keys, and the records of messages that are
/// published. `AllocError` where a request for memory was refused.
pub fn changes(
    alloc: Global,
    core: &Core,
    step: &Step,
    plan: &Plan,
) -> Result<Vec<RowChange>, AllocError>
    requires { IsPlan core.now step.now.who step.now.call plan.now }
    ensures listed { IfOk result (λ changes. AreChanges (state_of core.now) step.now.who step.now.call changes.items) }
    ensures leads { IfOk result (λ changes. LeadsTo (state_of core.now) (machine.step (state_of core.now) step.now.who step.now.call) changes.items) }
{
    let planned = PlannedStep::new(core, plan);
    jm_changes::changes(alloc, &planned, step)
}
