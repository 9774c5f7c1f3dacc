//! A core of what the rows say.

ghost use Rattle.std.specs.Prelude.{◌≡◌, true, IfOk, IfErr};
ghost use Rattle.jm_plans.specs.Provider.{may_open, state_of};
ghost use Rattle.jm_keep.specs.Persisted.{IsPersisted};
ghost use Rattle.std.specs.List.{AllByRecursion};
ghost use Rattle.jm_holds.specs.Holds.{HoldsMessages};
ghost use Rattle.jm_loading.specs.Fitting.{IsFirstFault};
ghost use Rattle.jm_loading.specs.Holds.{HasMessage, HasSelector};
ghost use Rattle.jm_loading.specs.Said.{said};

use crate::assembled::{Assembled, assemble};
use jm_core::Core;
use jm_decoding::{DelayRow, HeldRow, MessageRow, StationRow};
use jm_opening::OpenFault;
use jm_reopened::law_reopened;
use std::alloc::Global;

/// A core of that opening, of which that is stored what the rows of the tables say: a subscription that is not durable may hold so
/// many rows. Damaged as `assemble` says, or Memory where a request for memory was refused.
pub fn reopened(
    alloc: Global,
    opening: u32,
    held_limit: u32,
    stations: Vec<StationRow>,
    messages: Vec<MessageRow>,
    held: &[HeldRow],
    delays: &[DelayRow],
) -> Result<Core, OpenFault>
    requires { may_open opening held_limit ≡ true }
    ensures stored { IfOk result (λ core. IsPersisted (state_of core) (said stations.items messages.items held.now delays.now)) }
    // Where the rows have messages, and no selector that is refused, the core holds messages that their keys may hold.
    ensures holds { IfOk result (λ core. AllByRecursion HasMessage messages.items → AllByRecursion HasSelector stations.items → HoldsMessages (state_of core)) }
    ensures err { IfErr result (IsFirstFault stations.items messages.items held.now delays.now) }
    ensures opening { IfOk result (λ core. (state_of core).opening ≡ opening) }
    ensures limit { IfOk result (λ core. (state_of core).limit ≡ held_limit) }
{
    let Assembled {
        subscriptions,
        messages,
    } = assemble(alloc, stations, messages, held, delays)?;
    law_reopened();
    match Core::reopen(alloc, opening, held_limit, subscriptions, messages) {
        Ok(core) => Ok(core),
        Err(_) => Err(OpenFault::Memory),
    }
}
