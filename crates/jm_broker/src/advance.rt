//! One step of a core with its keeper, which the trace and a pass note.

ghost use Rattle.std.specs.Prelude.{◌≡◌, ◌+◌, ◌<◌, ◌++◌, ◌∷◌, [], ℕ, Ok, Err, true, IsTrue, IfOk, IfErr, OnOk, OnErr, IsErrOf, vec_capacity, vec_len};
ghost use Rattle.jm_broker.specs.Calls.{entry, Gains, HasSame};
ghost use Rattle.jm_broker.specs.Traces.{event, OnMade, OnNotMade, reply_to, state_after};
ghost use Rattle.jm_keep.specs.Persisted.{IsPersisted};
ghost use Rattle.jm_keep.specs.Stored.{HasRisen, changed_all};
ghost use Rattle.jm_machine.specs.Entries as entries;

use crate::planned::PlannedCore;
use jm_audit::{Pass, PassEntry};
use jm_base::Refusal;
use jm_keep::{Keep, RowChange, StoreFault};
use jm_machine::{Event, Reply, Step, copy_reply};
use std::alloc::{AllocError, Global};
use std::sync::ledger::{Book, Ledger};

/// Whether the call counts as not made.
fn is_not_made(reply: &Reply) -> bool
    ensures { result ≡ entries.is_not_made reply.now }
{
    matches!(reply, Err(Refusal::Memory) | Err(Refusal::Store))
}

fn refusal_of(fault: StoreFault) -> Refusal
    ensures device { fault ≡ StoreFault.Device → result ≡ Refusal.Store }
    ensures memory { fault ≡ StoreFault.Memory → result ≡ Refusal.Memory }
{
    match fault {
        StoreFault::Memory => Refusal::Memory,
        StoreFault::Device => Refusal::Store,
    }
}

/// Has the keeper write the changes, where there are some.
fn write<K: Keep>(keeper: &mut K, changes: &[RowChange]) -> Result<(), Refusal>
    ensures written { IsTrue (K.is_clean keeper.new) → OnOk result (K.stored keeper.new ≡ changed_all (K.stored keeper.old) changes.now) }
    ensures refused { IsTrue (K.is_clean keeper.new) → OnErr result (K.stored keeper.new ≡ K.stored keeper.old) }
    ensures clean { IsTrue (K.is_clean keeper.new) → IsTrue (K.is_clean keeper.old) }
    ensures not_made { IfErr result (λ refusal. entries.is_not_made (Err refusal) ≡ true) }
    ensures store { IsErrOf result Refusal.Store → HasRisen (K.faults keeper.old) (K.faults keeper.new) }
{
    if changes.is_empty() {
        return Ok(());
    }
    match keeper.write(changes) {
        Ok(()) => Ok(()),
        Err(fault) => Err(refusal_of(fault)),
    }
}

/// Has the keeper write what the planned step changes of what is stored, where it keeps anything.
fn keep<C: PlannedCore, K: Keep>(
    alloc: Global,
    core: &C,
    keeper: &mut K,
    step: &Step,
    plan: &C::Plan,
) -> Result<(), Refusal>
    requires { C.is_plan core.now step.now plan.now }
    ensures written { IsTrue (K.is_clean keeper.new) → IsPersisted (C.state core.now) (K.stored keeper.old) →
        OnOk result (IsPersisted (state_after (C.state core.now) step.now) (K.stored keeper.new)) }
    ensures refused { IsTrue (K.is_clean keeper.new) → OnErr result (K.stored keeper.new ≡ K.stored keeper.old) }
    ensures clean { IsTrue (K.is_clean keeper.new) → IsTrue (K.is_clean keeper.old) }
    ensures not_made { IfErr result (λ refusal. entries.is_not_made (Err refusal) ≡ true) }
    ensures store { IsErrOf result Refusal.Store → HasRisen (K.faults keeper.old) (K.faults keeper.new) }
{
    if !keeper.keeps() {
        return Ok(());
    }
    let changes = core.changes(alloc, step, plan)?;
    write(keeper, &changes)
}

/// An event, for the trace, and another that is equal, for the pass.
#[derive(Drop)]
struct Twice {
    event: Event,
    twin: Event,
}

fn event_twice(alloc: Global, step: &Step, reply: Reply) -> Result<Twice, AllocError>
    ensures { IfOk result (λ both. (both.event ≡ event step.now reply) × (both.twin ≡ event step.now reply)) }
{
    let twin = Event {
        step: step.copy(alloc)?,
        reply: copy_reply(&reply)?,
    };
    let event = Event {
        step: step.copy(alloc)?,
        reply,
    };
    Ok(Twice { event, twin })
}

/// The event of the planned step, twice. Nothing changes.
fn planned_twice<C: PlannedCore>(
    alloc: Global,
    core: &C,
    step: &Step,
    plan: &C::Plan,
) -> Result<Twice, AllocError>
    requires { C.is_plan core.now step.now plan.now }
    ensures { IfOk result (λ both.
        (both.event ≡ event step.now (reply_to (C.state core.now) step.now))
        × (both.twin ≡ event step.now (reply_to (C.state core.now) step.now))) }
{
    let answer = core.copy_answer(step, plan)?;
    event_twice(alloc, step, Ok(answer))
}

/// Adds the event to the trace and to the pass, and counts it. Takes no memory.
fn note<L: Ledger>(
    events: &mut Vec<Event>,
    book: &mut Book<L>,
    pass: &mut Pass<L>,
    position: u64,
    both: Twice,
)
    requires events { vec_len events.old < vec_capacity events.old }
    requires pass { 0 < pass.old.room }
    ensures events { events.new.items ≡ events.old.items ++ both.event ∷ [] }
    ensures entries { pass.new.entries ≡ pass.old.entries ++ record { position = position; event = both.twin } ∷ [] }
    ensures made { pass.new.made ≡ pass.old.made + 1 }
    ensures counted { book.new.total ≡ book.old.total + 1 }
{
    let Twice { event, twin } = both;
    events.push_reserved(event);
    pass.note(
        book,
        PassEntry {
            position,
            event: twin,
        },
    );
}

/// One step, over the parts of what lies under the lock and a pass. Where it counts as not made, all is as before.
pub(crate) fn advance<C: PlannedCore, K: Keep, L: Ledger>(
    alloc: Global,
    core: &mut C,
    keeper: &mut K,
    events: &mut Vec<Event>,
    book: &mut Book<L>,
    pass: &mut Pass<L>,
    position: u64,
    step: &Step,
) -> Reply
    ensures reply { OnMade result ((result ≡ reply_to (C.state core.old) step.now) × (C.state core.new ≡ state_after (C.state core.old) step.now)) }
    ensures events { OnMade result (events.new.items ≡ events.old.items ++ event step.now result ∷ []) }
    ensures pass { OnMade result (Gains pass.old pass.new (entry position step.now result ∷ [])) }
    ensures counted { OnMade result (book.new.total ≡ book.old.total + 1) }
    ensures same { OnNotMade result ((C.state core.new ≡ C.state core.old) × (events.new.items ≡ events.old.items)
        × HasSame pass.old pass.new × (book.new.total ≡ book.old.total)) }
    ensures rows { IsTrue (K.is_clean keeper.new) → OnNotMade result (K.stored keeper.new ≡ K.stored keeper.old) }
    ensures kept { IsTrue (K.is_clean keeper.new) → IsPersisted (C.state core.old) (K.stored keeper.old) →
        IsPersisted (C.state core.new) (K.stored keeper.new) }
    ensures clean { IsTrue (K.is_clean keeper.new) → IsTrue (K.is_clean keeper.old) }
    ensures store { IsErrOf result Refusal.Store → HasRisen (K.faults keeper.old) (K.faults keeper.new) }
{
    if events.reserve(1).is_err() || pass.reserve().is_err() {
        return Err(Refusal::Memory);
    }
    match core.plan(step) {
        Err(refusal) => {
            let reply: Reply = Err(refusal);
            if is_not_made(&reply) {
                return reply;
            }
            let Ok(both) = event_twice(alloc, step, Err(refusal)) else {
                return Err(Refusal::Memory);
            };
            note(events, book, pass, position, both);
            reply
        }
        Ok(plan) => {
            let Ok(both) = planned_twice(alloc, core, step, &plan) else {
                return Err(Refusal::Memory);
            };
            if let Err(refusal) = keep(alloc, core, keeper, step, &plan) {
                return Err(refusal);
            }
            note(events, book, pass, position, both);
            Ok(core.install(step, plan))
        }
    }
}
