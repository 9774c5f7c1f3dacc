//! Steps whose changes a keeper keeps.

ghost use Rattle.std.specs.Prelude.{◌≡◌, ◌≤◌, [], ◌∷◌, false, true, Err, IsTrue, IfErr, OnOk, OnErr, IsErrOf};
ghost use Rattle.jm_plans.specs.Plans.{IsPlan};
ghost use Rattle.jm_plans.specs.Provider.{state_of};
ghost use Rattle.jm_plans.specs.Steps.{StepFits};
ghost use Rattle.jm_keep.specs.Persisted.{IsPersisted};
ghost use Rattle.jm_keep.specs.Stored.{HasRisen, changed_all};
ghost use Rattle.jm_kept.specs.Kept.{KeptFits};
ghost use Rattle.jm_machine.specs.Entries.{is_not_made};
ghost use Rattle.jm_machine.specs.Machine as machine;

use jm_base::{List, Refusal};
use jm_core::{Answer, Call, Core, Plan, Step, Who};
use jm_dest::SessionId;
use jm_header::Message;
use jm_keep::{Keep, RowChange, StoreFault};
use jm_listed::changes;
use std::alloc::Global;

fn refusal_of(fault: StoreFault) -> Refusal
    ensures device { fault ≡ StoreFault.Device → result ≡ Refusal.Store }
    ensures memory { fault ≡ StoreFault.Memory → result ≡ Refusal.Memory }
{
    match fault {
        StoreFault::Memory => Refusal::Memory,
        StoreFault::Device => Refusal::Store,
    }
}

/// Has the keeper write the changes, where there are some.
fn write<K: Keep>(keeper: &mut K, changes: &[RowChange]) -> Result<(), Refusal>
    ensures written { IsTrue (K.is_clean keeper.new) → OnOk result (K.stored keeper.new ≡ changed_all (K.stored keeper.old) changes.now) }
    ensures refused { IsTrue (K.is_clean keeper.new) → OnErr result (K.stored keeper.new ≡ K.stored keeper.old) }
    ensures clean { IsTrue (K.is_clean keeper.new) → IsTrue (K.is_clean keeper.old) }
    ensures not_made { IfErr result (λ refusal. is_not_made (Err refusal) ≡ true) }
    ensures store { IsErrOf result Refusal.Store → HasRisen (K.faults keeper.old) (K.faults keeper.new) }
    ensures faults { K.faults keeper.old ≤ K.faults keeper.new }
{
    if changes.is_empty() {
        return Ok(());
    }
    match keeper.write(changes) {
        Ok(()) => Ok(()),
        Err(fault) => Err(refusal_of(fault)),
    }
}

/// Lists what the planned step changes, and has the keeper write it.
fn keep<K: Keep>(
    alloc: Global,
    core: &Core,
    keeper: &mut K,
    step: &Step,
    plan: &Plan,
) -> Result<(), Refusal>
    requires { IsPlan core.now step.now.who step.now.call plan.now }
    ensures written { IsTrue (K.is_clean keeper.new) → IsPersisted (state_of core.now) (K.stored keeper.old) →
        OnOk result (IsPersisted (machine.step (state_of core.now) step.now.who step.now.call) (K.stored keeper.new)) }
    ensures refused { IsTrue (K.is_clean keeper.new) → OnErr result (K.stored keeper.new ≡ K.stored keeper.old) }
    ensures clean { IsTrue (K.is_clean keeper.new) → IsTrue (K.is_clean keeper.old) }
    ensures not_made { IfErr result (λ refusal. is_not_made (Err refusal) ≡ true) }
    ensures store { IsErrOf result Refusal.Store → HasRisen (K.faults keeper.old) (K.faults keeper.new) }
    ensures faults { K.faults keeper.old ≤ K.faults keeper.new }
{
    let changes = changes(alloc, core, step, plan)?;
    write(keeper, &changes)
}

/// Plans one step and installs it, for a provider without a store: nothing is listed or written. Each refusal and when it
/// comes is `Core::step`'s.
pub fn step_without_store(core: &mut Core, step: &Step) -> Result<Answer, Refusal>
    ensures { StepFits (state_of core.old) step.now.who step.now.call result (state_of core.new) }
{
    core.step(step)
}

/// Plans one step, has the keeper write what it changes, and installs it. Over a keeper that keeps nothing it is
/// `step_without_store`, and leaves the keeper alone. A refusal is the first cause that stands, as `Core::step` says, and leaves core and keeper as they
/// were; so do these, which come after all others:
///
/// - `Memory`: a request for memory was refused, as `Core::step` says, or to list what the step changes, or to the keeper.
/// - `Store`: the keeper failed to write what the step changes: its count of faults rose in this call, or is at its last
///   value.
pub fn step<K: Keep>(
    alloc: Global,
    core: &mut Core,
    keeper: &mut K,
    step: &Step,
) -> Result<Answer, Refusal>
    ensures fits { KeptFits (state_of core.old) step.now.who step.now.call result (state_of core.new) }
    ensures without { K.is_keeping keeper.old ≡ false →
        StepFits (state_of core.old) step.now.who step.now.call result (state_of core.new) }
    ensures alone { K.is_keeping keeper.old ≡ false → keeper.new ≡ keeper.old }
    ensures store { IsErrOf result Refusal.Store → HasRisen (K.faults keeper.old) (K.faults keeper.new) }
    ensures faults { K.faults keeper.old ≤ K.faults keeper.new }
    ensures clean { IsTrue (K.is_clean keeper.new) → IsTrue (K.is_clean keeper.old) }
    ensures kept { IsTrue (K.is_clean keeper.new) → IsPersisted (state_of core.old) (K.stored keeper.old) →
        IsPersisted (state_of core.new) (K.stored keeper.new) }
{
    if !keeper.keeps() {
        return step_without_store(core, step);
    }
    let plan = match core.plan(step) {
        Ok(plan) => plan,
        Err(refusal) => return Err(refusal),
    };
    keep(alloc, core, keeper, step, &plan)?;
    Ok(core.install(plan))
}

/// Publishes one message that the session stamped, as `step` makes a `Publish` of it alone, with its refusals; a refusal drops
/// the message. Over a keeper that keeps nothing the message is moved to where it is held, and not copied.
pub fn publish<K: Keep>(
    alloc: Global,
    core: &mut Core,
    keeper: &mut K,
    session: SessionId,
    message: Message,
) -> Result<Answer, Refusal>
    ensures fits { KeptFits (state_of core.old) (Who.Session session) (Call.Publish (message ∷ [])) result (state_of core.new) }
    ensures without { K.is_keeping keeper.old ≡ false →
        StepFits (state_of core.old) (Who.Session session) (Call.Publish (message ∷ [])) result (state_of core.new) }
    ensures alone { K.is_keeping keeper.old ≡ false → keeper.new ≡ keeper.old }
    ensures store { IsErrOf result Refusal.Store → HasRisen (K.faults keeper.old) (K.faults keeper.new) }
    ensures faults { K.faults keeper.old ≤ K.faults keeper.new }
    ensures clean { IsTrue (K.is_clean keeper.new) → IsTrue (K.is_clean keeper.old) }
    ensures kept { IsTrue (K.is_clean keeper.new) → IsPersisted (state_of core.old) (K.stored keeper.old) →
        IsPersisted (state_of core.new) (K.stored keeper.new) }
{
    if !keeper.keeps() {
        return core.publish(&session, message);
    }
    let mut messages = List::new(Vec::new(alloc));
    if messages.push(message).is_err() {
        return Err(Refusal::Memory);
    }
    let published = Step {
        who: Who::Session(session),
        call: Call::Publish(messages),
    };
    step(alloc, core, keeper, &published)
}
