//! Calls of clients, each made by a step over a keeper.

ghost use Rattle.std.specs.Prelude.{◌≡◌, ◌≤◌, ◌<◌, ◌+◌, [], ◌∷◌, IsTrue, IsErrOf};
ghost use Rattle.jm_plans.specs.Provider.{state_of};
ghost use Rattle.jm_core.specs.Runs.{progress};
ghost use Rattle.jm_keep.specs.Persisted.{IsPersisted};
ghost use Rattle.jm_keep.specs.Stored.{HasRisen};
ghost use Rattle.jm_kept.specs.Kept.{KeptFits};
ghost use Rattle.jm_kept.specs.Runs.{CallKept, StampKept, kept_past, messages_in};
ghost use Rattle.jm_machine.specs.Entries as entries;
ghost use Rattle.jm_tx.specs.Halves.{kept_of, room, sent_of};

use crate::steps::{publish, step};
use jm_base::{List, Refusal};
use jm_core::{Answer, Call, ClientCall, Core, Reply, Request, Step, Who, drop_ended};
use jm_dest::{Destination, Moment, SessionId};
use jm_header::{Draft, Message, Sender};
use jm_keep::Keep;
use jm_tx::{Halves, Sent};
use std::alloc::Global;

/// Whether the call counts as not made: memory was wanted, or the keeper refused.
fn is_not_made(told: &Reply) -> bool
    ensures { result ≡ entries.is_not_made told.now }
{
    matches!(told, Err(Refusal::Memory | Refusal::Store))
}

/// Drops what was sent in the transactions that the step ends, to which that was told, unless it counts as not made.
fn drop_past(halves: &mut Halves, step: &Step, told: &Reply)
    ensures sent { sent_of halves.new ≡ sent_of halves.old }
    ensures kept { kept_of halves.new ≡ kept_past step.now.who step.now.call told.now (kept_of halves.old) }
    ensures room { room halves.old ≤ room halves.new }
{
    match &step.call {
        Call::Ask(request) => {
            if !is_not_made(told) {
                drop_ended(halves, &step.who, request, told);
            }
        }
        Call::Publish(_) | Call::Commit(_) => {}
    }
}

/// Makes the request, and drops what was sent in the transactions that it ends.
fn ask<K: Keep>(
    alloc: Global,
    core: &mut Core,
    keeper: &mut K,
    halves: &mut Halves,
    who: Who,
    request: Request,
) -> Reply
    ensures owed { CallKept (progress (state_of core.old) halves.old) (ClientCall.Ask who request) result
        (progress (state_of core.new) halves.new) }
    ensures room { room halves.old ≤ room halves.new }
    ensures store { IsErrOf result Refusal.Store → HasRisen (K.faults keeper.old) (K.faults keeper.new) }
    ensures faults { K.faults keeper.old ≤ K.faults keeper.new }
    ensures clean { IsTrue (K.is_clean keeper.new) → IsTrue (K.is_clean keeper.old) }
    ensures kept { IsTrue (K.is_clean keeper.new) → IsPersisted (state_of core.old) (K.stored keeper.old) →
        IsPersisted (state_of core.new) (K.stored keeper.new) }
{
    let asked = Step {
        who,
        call: Call::Ask(request),
    };
    let told = step(alloc, core, keeper, &asked);
    drop_past(halves, &asked, &told);
    told
}

/// Stamps a message of the session, where it is open, to be published; or keeps it for the commit. With room, only what
/// is kept takes memory.
fn stamp(
    core: &Core,
    halves: &mut Halves,
    session: &SessionId,
    draft: Draft,
    destination: Destination,
    now: Moment,
) -> Result<Sent, Refusal>
    requires { 0 < room halves.old }
    ensures owed { StampKept (progress (state_of core.now) halves.old) session.now draft destination now result
        (progress (state_of core.now) halves.new) }
    ensures room { room halves.old ≤ room halves.new + 1 }
    ensures store { IsErrOf result Refusal.Store → ⊥ }
{
    match core.mode_of(session) {
        None => Err(Refusal::IllegalState),
        Some(mode) => {
            let sender = Sender {
                opening: core.opening(),
                session: *session,
            };
            halves.send(sender, mode, draft, destination, now)
        }
    }
}

/// Sends, where the session is open. A message that is not published, since memory was wanted or the keeper refused, has
/// used its number.
fn send<K: Keep>(
    alloc: Global,
    core: &mut Core,
    keeper: &mut K,
    halves: &mut Halves,
    session: SessionId,
    draft: Draft,
    destination: Destination,
    now: Moment,
) -> Reply
    requires { 0 < room halves.old }
    ensures owed { CallKept (progress (state_of core.old) halves.old) (ClientCall.Send session draft destination now) result
        (progress (state_of core.new) halves.new) }
    ensures room { room halves.old ≤ room halves.new + 1 }
    ensures store { IsErrOf result Refusal.Store → HasRisen (K.faults keeper.old) (K.faults keeper.new) }
    ensures faults { K.faults keeper.old ≤ K.faults keeper.new }
    ensures clean { IsTrue (K.is_clean keeper.new) → IsTrue (K.is_clean keeper.old) }
    ensures kept { IsTrue (K.is_clean keeper.new) → IsPersisted (state_of core.old) (K.stored keeper.old) →
        IsPersisted (state_of core.new) (K.stored keeper.new) }
{
    match stamp(core, halves, &session, draft, destination, now) {
        Err(refusal) => Err(refusal),
        Ok(Sent::Kept(number)) => Ok(Answer::Sent(number)),
        Ok(Sent::Publish(message)) => {
            let number = message.number();
            match publish(alloc, core, keeper, session, message) {
                Ok(_) => Ok(Answer::Sent(number)),
                Err(refusal) => Err(refusal),
            }
        }
    }
}

/// The messages that the call commits.
fn messages_of(alloc: Global, call: Call) -> Vec<Message>
    ensures { result.items ≡ messages_in call }
{
    match call {
        Call::Commit(messages) => messages.into_inner(),
        Call::Ask(_) | Call::Publish(_) => Vec::new(alloc),
    }
}

/// Commits what the session sent in its transaction. A commit that is refused leaves it there.
fn commit<K: Keep>(
    alloc: Global,
    core: &mut Core,
    keeper: &mut K,
    halves: &mut Halves,
    session: SessionId,
) -> Reply
    ensures owed { CallKept (progress (state_of core.old) halves.old) (ClientCall.CommitSession session) result
        (progress (state_of core.new) halves.new) }
    ensures room { room halves.old ≤ room halves.new }
    ensures store { IsErrOf result Refusal.Store → HasRisen (K.faults keeper.old) (K.faults keeper.new) }
    ensures faults { K.faults keeper.old ≤ K.faults keeper.new }
    ensures clean { IsTrue (K.is_clean keeper.new) → IsTrue (K.is_clean keeper.old) }
    ensures kept { IsTrue (K.is_clean keeper.new) → IsPersisted (state_of core.old) (K.stored keeper.old) →
        IsPersisted (state_of core.new) (K.stored keeper.new) }
{
    let messages = halves.take_commit(&session);
    let commit = Step {
        who: Who::Session(session),
        call: Call::Commit(List::new(messages)),
    };
    match step(alloc, core, keeper, &commit) {
        Ok(answer) => Ok(answer),
        Err(refusal) => {
            let Step { call, .. } = commit;
            halves.put_back(&session, messages_of(alloc, call));
            Err(refusal)
        }
    }
}

/// Makes the call.
pub(crate) fn answer<K: Keep>(
    alloc: Global,
    core: &mut Core,
    keeper: &mut K,
    halves: &mut Halves,
    call: ClientCall,
) -> Reply
    requires { 0 < room halves.old }
    ensures owed { CallKept (progress (state_of core.old) halves.old) call result (progress (state_of core.new) halves.new) }
    ensures room { room halves.old ≤ room halves.new + 1 }
    ensures store { IsErrOf result Refusal.Store → HasRisen (K.faults keeper.old) (K.faults keeper.new) }
    ensures faults { K.faults keeper.old ≤ K.faults keeper.new }
    ensures clean { IsTrue (K.is_clean keeper.new) → IsTrue (K.is_clean keeper.old) }
    ensures kept { IsTrue (K.is_clean keeper.new) → IsPersisted (state_of core.old) (K.stored keeper.old) →
        IsPersisted (state_of core.new) (K.stored keeper.new) }
{
    match call {
        ClientCall::Ask { who, request } => ask(alloc, core, keeper, halves, who, request),
        ClientCall::Send {
            session,
            draft,
            destination,
            now,
        } => send(
            alloc,
            core,
            keeper,
            halves,
            session,
            draft,
            destination,
            now,
        ),
        ClientCall::CommitSession(session) => commit(alloc, core, keeper, halves, session),
    }
}
