//! Runs lists of client calls over a keeper.

ghost use Rattle.std.specs.Prelude.{◌≡◌, ◌≤◌, false, Err, Contains, IsTrue, IfOk, OnErr};
ghost use Rattle.jm_plans.specs.Provider.{state_of};
ghost use Rattle.jm_keep.specs.Persisted.{IsPersisted};
ghost use Rattle.jm_kept.specs.Runs.{HasFailed, RunKept};
ghost use Rattle.jm_machine.specs.Client.{Progress, begun, RunOwed};
ghost use Rattle.jm_machine.specs.Isolation.{AreIsolated};

use crate::calls::answer;
use jm_base::Refusal;
use jm_core::{ClientCall, Core, Reply, law_core_reached};
use jm_keep::Keep;
use jm_law::law_isolation;
use jm_tx::Halves;
use std::alloc::{AllocError, Global};

/// Makes the calls in turn over a keeper, and gives the reply to each. `AllocError` where no room was found for the
/// replies and for the sessions that send; then no call was made.
fn run_keeping<K: Keep>(
    alloc: Global,
    core: &mut Core,
    keeper: &mut K,
    calls: Vec<ClientCall>,
) -> Result<Vec<Reply>, AllocError>
    ensures ok { IfOk result (λ replies. (end : Progress)
        × RunKept (begun (state_of core.old)) calls.items replies.items end × (state_of core.new ≡ end.state)) }
    ensures err { OnErr result (state_of core.new ≡ state_of core.old) }
    ensures alone { OnErr result (keeper.new ≡ keeper.old) }
    ensures store { IfOk result (λ replies. Contains replies.items (Err Refusal.Store) →
        HasFailed (K.faults keeper.old) (K.faults keeper.new)) }
    ensures faults { K.faults keeper.old ≤ K.faults keeper.new }
    ensures clean { IsTrue (K.is_clean keeper.new) → IsTrue (K.is_clean keeper.old) }
    ensures kept { IsTrue (K.is_clean keeper.new) → IsPersisted (state_of core.old) (K.stored keeper.old) →
        IsPersisted (state_of core.new) (K.stored keeper.new) }
{
    let mut replies = Vec::with_capacity(alloc, calls.len())?;
    let mut halves = Halves::with_capacity(alloc, calls.len())?;
    for call in calls {
        replies.push_reserved(answer(alloc, core, keeper, &mut halves, call));
    }
    Ok(replies)
}

/// Makes the calls in turn over a keeper, each as `step` does, and gives the reply to each, as `Core::run` does. Over a
/// keeper that keeps nothing it is `Core::run`, and leaves the keeper alone. `AllocError` where no room was found for the
/// replies and for the sessions that send; then no call was made. Where one call wants memory its reply is `Memory`, and
/// where the keeper fails to write what it changes, `Store`: the core, what is stored and what is kept in transactions are
/// as they were before that call, and the run goes on; so a rollback or a close that is told so drops nothing, and a commit
/// leaves what was sent. A send that was to be published has used its number then.
///
/// The replies are isolated, as those of `Core::run` are.
pub fn run<K: Keep>(
    alloc: Global,
    core: &mut Core,
    keeper: &mut K,
    calls: Vec<ClientCall>,
) -> Result<Vec<Reply>, AllocError>
    ensures ok { IfOk result (λ replies. (end : Progress)
        × RunKept (begun (state_of core.old)) calls.items replies.items end × (state_of core.new ≡ end.state)) }
    ensures isolated { IfOk result (λ replies. AreIsolated (state_of core.old) calls.items replies.items) }
    ensures err { OnErr result (state_of core.new ≡ state_of core.old) }
    ensures same { OnErr result (keeper.new ≡ keeper.old) }

    ensures without { K.is_keeping keeper.old ≡ false → IfOk result (λ replies. (end : Progress)
        × RunOwed (begun (state_of core.old)) calls.items replies.items end × (state_of core.new ≡ end.state)) }
    ensures alone { K.is_keeping keeper.old ≡ false → keeper.new ≡ keeper.old }

    ensures store { IfOk result (λ replies. Contains replies.items (Err Refusal.Store) →
        HasFailed (K.faults keeper.old) (K.faults keeper.new)) }
    ensures faults { K.faults keeper.old ≤ K.faults keeper.new }
    ensures clean { IsTrue (K.is_clean keeper.new) → IsTrue (K.is_clean keeper.old) }
    ensures kept { IsTrue (K.is_clean keeper.new) → IsPersisted (state_of core.old) (K.stored keeper.old) →
        IsPersisted (state_of core.new) (K.stored keeper.new) }
{
    law_isolation();
    law_core_reached(core);
    if !keeper.keeps() {
        return core.run(calls);
    }
    run_keeping(alloc, core, keeper, calls)
}
