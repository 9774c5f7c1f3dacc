//! A core of the decoded rows.

ghost use Rattle.std.specs.Prelude.{◌≡◌, None, true, IfOk, IfErr, OnOk};
ghost use Rattle.jm_plans.specs.Provider.{may_open, state_of};
ghost use Rattle.jm_keep.specs.Persisted.{IsPersisted};
ghost use Rattle.std.specs.List.{AllByRecursion};
ghost use Rattle.jm_holds.specs.Holds.{HoldsMessages};
ghost use Rattle.jm_loading.specs.Holds.{HasMessage, HasSelector};
ghost use Rattle.jm_loading.specs.Said.{said};
ghost use Rattle.jm_load.specs.Loaded.{IsUnmade, first_told};

use crate::decoding::Decoded;
use jm_core::Core;
use jm_loading::{Assembled, assemble, reopened};
use jm_opening::{OpenFault, TableName};
use std::alloc::Global;

/// The first of the two faults: what the rows before the damaged one say together, or that this one is damaged. A message that
/// nobody holds among those rows may be held by a later one.
fn first_of(assembled: &Result<Assembled, OpenFault>, damaged: OpenFault) -> OpenFault
    ensures { result ≡ first_told assembled.now damaged }
{
    match assembled {
        Err(OpenFault::Memory) => OpenFault::Memory,
        Err(OpenFault::Damaged(TableName::Held, at)) => OpenFault::Damaged(TableName::Held, *at),
        Err(OpenFault::Damaged(TableName::Delayed, at)) => {
            OpenFault::Damaged(TableName::Delayed, *at)
        }
        _ => damaged,
    }
}

/// A core of that opening, of which that is stored what the rows say. Damaged at the first row that may not be read or does not
/// fit the others; Memory where a request for memory was refused.
pub(crate) fn make(
    alloc: Global,
    opening: u32,
    held_limit: u32,
    decoded: Decoded,
) -> Result<Core, OpenFault>
    requires { may_open opening held_limit ≡ true }
    ensures whole { OnOk result (decoded.damaged ≡ None) }
    ensures stored { IfOk result (λ core. IsPersisted (state_of core) (said decoded.stations.items decoded.messages.items decoded.held.items decoded.delays.items)) }
    ensures holds { IfOk result (λ core. AllByRecursion HasMessage decoded.messages.items → AllByRecursion HasSelector decoded.stations.items → HoldsMessages (state_of core)) }
    ensures err { IfErr result (IsUnmade decoded.stations.items decoded.messages.items decoded.held.items decoded.delays.items decoded.damaged) }
    ensures opening { IfOk result (λ core. (state_of core).opening ≡ opening) }
    ensures limit { IfOk result (λ core. (state_of core).limit ≡ held_limit) }
{
    let Decoded {
        stations,
        messages,
        held,
        delays,
        damaged,
    } = decoded;
    match damaged {
        Some(fault) => {
            let assembled = assemble(alloc, stations, messages, &held, &delays);
            Err(first_of(&assembled, fault))
        }
        None => reopened(
            alloc, opening, held_limit, stations, messages, &held, &delays,
        ),
    }
}
