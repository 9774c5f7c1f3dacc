//! A scenario whose sessions call on threads of their own.

ghost use Rattle.std.specs.Prelude.{◌≡◌, ◌≢◌, ◌≤◌, ℕ, All, Ok, Err, IfErr, IfOk, IsTrue};
ghost use Rattle.jm_plans.specs.Provider.{state_of};
ghost use Rattle.jm_forks.specs.Forks as forks;
ghost use Rattle.jm_keep.specs.Persisted.{IsPersisted};
ghost use Rattle.jm_scenario.specs.Items.{AreWellForked};
ghost use Rattle.jm_seats.specs.Seats.{Seating};
ghost use Rattle.jm_threaded.specs.Runs.{AreNew};
ghost use Rattle.jm_threaded.specs.Threaded.{PlaysThreaded, RunsAudited};

use crate::audit::audited;
use crate::run::run_parts;
use crate::threaded::{Threaded, ThreadedFault, Told};
use jm_base::Refusal;
use jm_broker::{Broker, Finished, NotMade};
use jm_core::Core;
use jm_dest::{Number, SessionId};
use jm_forks::{Part, parts_of, sessions_of};
use jm_keep::Keep;
use jm_machine::Reply;
use jm_scenario::Item;
use jm_seats::{Seats, StretchFault};
use std::alloc::{AllocError, Global};
use std::sync::Wait;
use std::sync::ledger::{Blank, Ledger};
use std::thread::Threads;

/// The parts of a scenario, and the sessions that call in them.
#[derive(Drop)]
struct Script {
    parts: Vec<Part>,
    sessions: Vec<SessionId>,
}

/// The script of the items. `AllocError` where a request for memory was refused.
fn script_of(alloc: Global, items: Vec<Item>) -> Result<Script, AllocError>
    ensures parts { IfOk result (λ script. script.parts.items ≡ forks.parts items.items) }
    ensures sessions { IfOk result (λ script. script.sessions.items ≡ forks.sessions_of (forks.parts items.items)) }
{
    let parts = parts_of(alloc, items)?;
    let sessions = sessions_of(alloc, &parts)?;
    Ok(Script { parts, sessions })
}

/// Why there are no replies, where a part was not made.
fn part_fault_of(fault: StretchFault) -> ThreadedFault
    ensures { result ≡ ThreadedFault.NoSeat → fault ≡ StretchFault.NoSeat }
{
    match fault {
        StretchFault::NoSeat => ThreadedFault::NoSeat,
        StretchFault::Memory => ThreadedFault::Memory,
    }
}

/// Why there are no replies, where there are no seats.
fn seats_fault_of(refusal: Refusal) -> ThreadedFault
    ensures { result ≢ ThreadedFault.NoSeat }
{
    match refusal {
        Refusal::Exhausted => ThreadedFault::Exhausted,
        _ => ThreadedFault::Memory,
    }
}

/// What came back from the lock, with the replies.
fn with_replies<K: Drop>(finished: Finished<Core, K>, replies: Vec<Reply>) -> Threaded<K>
    ensures core { result.core ≡ finished.core }
    ensures keeper { result.keeper ≡ finished.keeper }
    ensures outcome { result.outcome ≡ Ok (record { replies = replies; verdict = finished.verdict }) }
{
    let Finished {
        core,
        keeper,
        trace: _,
        verdict,
    } = finished;
    Threaded {
        core,
        keeper,
        outcome: Ok(Told { replies, verdict }),
    }
}

/// What came back from the lock, without replies.
fn without_replies<K: Drop>(finished: Finished<Core, K>, fault: ThreadedFault) -> Threaded<K>
    ensures core { result.core ≡ finished.core }
    ensures keeper { result.keeper ≡ finished.keeper }
    ensures outcome { result.outcome ≡ Err fault }
{
    let Finished {
        core,
        keeper,
        trace: _,
        verdict: _,
    } = finished;
    Threaded {
        core,
        keeper,
        outcome: Err(fault),
    }
}

/// Runs the parts at the seats, and audits their passes.
fn play_seated<K: Keep + Drop + Send, L: Ledger + Send + Sync, R: Threads + Wait + Sync>(
    rt: &R,
    alloc: Global,
    broker: Broker<Core, K, L>,
    mut seats: Seats<L>,
    parts: Vec<Part>,
) -> Threaded<K>
    ensures ran { IfOk result.outcome (λ told. RunsAudited seats parts.items told.replies.items told.verdict (state_of result.core)) }
    ensures kept { IsTrue (K.is_clean result.keeper) → IsPersisted (state_of result.core) (K.stored result.keeper) }
    ensures seated { (opening : ℕ) → AreNew opening (forks.sessions_of parts.items) seats → All forks.IsBySessions parts.items →
        IfErr result.outcome (λ fault. fault ≢ ThreadedFault.NoSeat) }
{
    match run_parts(rt, alloc, &broker, &mut seats, parts) {
        Ok(replies) => with_replies(audited(alloc, broker, seats), replies),
        Err(stopped) => {
            let fault = part_fault_of(stopped.fault);
            without_replies(audited(alloc, broker, seats), fault)
        }
    }
}

/// Seats the sessions, runs the parts there, and audits their passes.
fn play_script<K: Keep + Drop + Send, L: Ledger + Send + Sync, R: Threads + Wait + Sync>(
    rt: &R,
    alloc: Global,
    broker: Broker<Core, K, L>,
    opening: Number,
    script: Script,
) -> Threaded<K>
    requires { script.sessions.items ≡ forks.sessions_of script.parts.items }
    ensures ran { IfOk result.outcome (λ told. (seats : Seating) × AreNew opening (forks.sessions_of script.parts.items) seats
        × RunsAudited seats script.parts.items told.replies.items told.verdict (state_of result.core)) }
    ensures kept { IsTrue (K.is_clean result.keeper) → IsPersisted (state_of result.core) (K.stored result.keeper) }
    ensures seated { All forks.IsBySessions script.parts.items → IfErr result.outcome (λ fault. fault ≢ ThreadedFault.NoSeat) }
{
    let Script { parts, sessions } = script;
    match Seats::new(rt, alloc, &broker, opening, &sessions) {
        Ok(seats) => play_seated(rt, alloc, broker, seats, parts),
        Err(refusal) => { without_replies(broker.finish(Vec::new(alloc)), seats_fault_of(refusal)) }
    }
}

/// Core and keeper as they are, where no memory was found for the lock.
fn without_memory<K: Drop>(core: Core, keeper: K) -> Threaded<K>
    ensures core { result.core ≡ core }
    ensures keeper { result.keeper ≡ keeper }
    ensures outcome { result.outcome ≡ Err ThreadedFault.Memory }
{
    Threaded {
        core,
        keeper,
        outcome: Err(ThreadedFault::Memory),
    }
}

/// Makes the calls of the items over the core and its keeper, under one lock: a call outside forks as `Seats::call` says, and
/// what a fork and its join hold as `Seats::stretch` says, each session's calls in their order on a thread of its own where the
/// system gives so many. Then the passes of all calls are audited. The blank's ledger counts the calls, and has as many parts as
/// said: one for each session that calls, one for the connections and one for the lock are needed.
///
/// Core and keeper come back in every case. The replies are in the order of the calls among the items. A want of memory in one
/// call is its reply, and the run goes on. Where the verdict is `Memory`, all calls were made, and the audit found no memory.
///
/// - `NoSeat`: a connection makes a call between a fork and its join, so never where the items are well forked. The calls of the
///   parts before were made.
/// - `Exhausted`: the ledger has fewer parts than needed; no call was made.
/// - `Memory`: a request for memory was refused: for the lock, for the seats or for the list of the parts, and then no call was
///   made; or for the replies of a part, and then those of the parts before were made.
pub fn play_threaded<K: Keep + Drop + Send, L: Ledger + Send + Sync, R: Threads + Wait + Sync>(
    rt: &R,
    alloc: Global,
    blank: Blank,
    parts: u64,
    core: Core,
    keeper: K,
    items: Vec<Item>,
) -> Threaded<K>
    requires name { blank.name ≡ L.name }
    requires parts { (blank.parts ≡ L.parts) × (blank.parts ≡ parts) }
    requires some { 2 ≤ parts }
    requires kept { IsTrue (K.is_clean keeper) → IsPersisted (state_of core) (K.stored keeper) }
    ensures played { IfOk result.outcome (λ told. PlaysThreaded (state_of core).opening items.items
        told.replies.items told.verdict (state_of result.core)) }
    ensures kept { IsTrue (K.is_clean result.keeper) → IsPersisted (state_of result.core) (K.stored result.keeper) }
    ensures seated { AreWellForked items.items → IfErr result.outcome (λ fault. fault ≢ ThreadedFault.NoSeat) }
{
    let Ok(script) = script_of(alloc, items) else {
        return without_memory(core, keeper);
    };
    let opening = core.opening();
    let made: Result<Broker<Core, K, L>, NotMade<Core, K>> = Broker::new(
        alloc, blank, parts, core, keeper,
    );
    match made {
        Ok(broker) => play_script(rt, alloc, broker, opening, script),
        Err(NotMade { core, keeper }) => without_memory(core, keeper),
    }
}
