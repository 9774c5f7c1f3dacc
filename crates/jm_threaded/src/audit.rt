//! The end of a run: all is taken back from the lock, and its passes are audited.

ghost use Rattle.std.specs.Prelude.{◌≡◌, IsTrue};
ghost use Rattle.jm_keep.specs.Persisted.{IsPersisted};
ghost use Rattle.jm_threaded.specs.Audits.{Audits};
ghost use Rattle.jm_threaded.specs.Runs.{passes_of};

use jm_broker::{Broker, FinishFault, Finished, PlannedCore};
use jm_keep::Keep;
use jm_seats::Seats;
use std::alloc::Global;
use std::sync::ledger::Ledger;

/// Takes all back from the lock as `Broker::finish` says, which audits the passes of all calls that were made at the seats. The
/// verdict is also `Memory` where a request for memory was refused for the list of the passes. Core and keeper come back in
/// every case.
pub fn audited<C: PlannedCore, K: Keep + Drop, L: Ledger>(
    alloc: Global,
    broker: Broker<C, K, L>,
    seats: Seats<L>,
) -> Finished<C, K>
    ensures audits { Audits (C.state result.trace.opening) result.trace.first result.trace.events (passes_of seats)
        result.verdict (C.state result.core) }
    ensures kept { IsTrue (K.is_clean result.keeper) → IsPersisted (C.state result.core) (K.stored result.keeper) }
{
    let Ok(passes) = seats.into_passes() else {
        let Finished {
            core,
            keeper,
            trace,
            verdict: _,
        } = broker.finish(Vec::new(alloc));
        trace.law_legal();
        return Finished {
            core,
            keeper,
            trace,
            verdict: Err(FinishFault::Memory),
        };
    };
    let finished = broker.finish(passes);
    finished.trace.law_legal();
    finished
}
