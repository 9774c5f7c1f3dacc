//! What a run of a scenario on threads hands back.

use jm_broker::FinishFault;
use jm_core::Core;
use jm_machine::Reply;

/// Why a run on threads has no replies (ours).
#[derive(Clone, Copy, Debug, PartialEq, Eq)]
pub enum ThreadedFault {
    /// A connection makes a call between a fork and its join. Some calls may have been made.
    NoSeat,
    /// The ledger of the lock has fewer parts than one for each session that calls, one for the connections and one for the
    /// lock. No call was made.
    Exhausted,
    /// A request for memory was refused outside a call. Some calls may have been made.
    Memory,
}

/// What a run on threads told (ours).
#[derive(Drop)]
pub struct Told {
    /// The replies to the calls, in the order of the items.
    pub replies: Vec<Reply>,
    /// Whether the passes of all calls account for the trace under the lock.
    pub verdict: Result<(), FinishFault>,
}

/// What a run on threads hands back (ours): core and keeper in every case, and what was told.
#[derive(Drop)]
pub struct Threaded<K: Drop> {
    pub core: Core,
    pub keeper: K,
    pub outcome: Result<Told, ThreadedFault>,
}
