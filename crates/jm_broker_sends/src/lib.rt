//! That one lock may be shared by threads, since it owns all that it holds: `Kept_sync` of `proofs/Sent.antt`, which whoever
//! starts threads cites. A search for it finds no end.
//!
//! # Contract
//!
//! `Kept_sync`: threads may share the lock round a `Core`, where its keeper may cross threads; `Broker_sync` is that
//! of a core that keeps nothing; what an event, a pass and a trace hold may cross threads, and so may the plan of a core
//! (`Plan_send`, of `proofs/Planned.antt`).
#![tactic(auto)]

ghost use Rattle.std.specs.Prelude.{◌≡◌};

use jm_broker::Broker;
use jm_core::Core;
use jm_keep::Keep;
use std::sync::ledger::Ledger;

/// The value itself, in whatever thread it is looked at.
fn looked_at<T: Sync>(value: &T) -> &T
    ensures { result.now ≡ value.now }
{
    value
}

/// The lock itself: whoever has it may lend it to other threads, where its keeper may be handed over.
pub fn shared<K: Keep + Drop + Send, L: Ledger>(lock: &Broker<Core, K, L>) -> &Broker<Core, K, L>
    ensures { result.now ≡ lock.now }
{
    looked_at(lock)
}
