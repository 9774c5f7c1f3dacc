//! All four tables together.

ghost use Rattle.std.specs.Prelude.{IfOk, IfErr, OnOk};
ghost use Rattle.jm_loading.specs.Fitting.{AreAllFit, IsFirstFault};
ghost use Rattle.jm_loading.specs.Said.{AreSaid};

use crate::delays::{check_delays, check_kept};
use crate::messages::messages_of;
use crate::stations::{Stations, stations_of};
use crate::taking::take_all;
use jm_core::{StoredMessage, StoredSubscription};
use jm_decoding::{DelayRow, HeldRow, MessageRow, StationRow};
use jm_opening::OpenFault;
use std::alloc::Global;

/// What the rows of a store's tables say, as a core is made of it.
#[derive(Debug, Drop)]
pub struct Assembled {
    /// The durable subscriptions, in the order of their rows.
    pub subscriptions: Vec<StoredSubscription>,
    /// The messages by place, each with those who hold it.
    pub messages: Vec<StoredMessage>,
}

/// What the rows of the tables say together: the rows of stations by family, client and name, those of messages by place, those
/// of held by key and place, those of delays by place (ours). Damaged where a row does not fit: in the order station, message, held,
/// delayed, the first that does not stand behind the one before, or that says what those of the other tables do not allow; then
/// the first message that nobody holds, or that is delayed and has no row of delayed. Memory where a request for memory was refused.
pub fn assemble(
    alloc: Global,
    stations: Vec<StationRow>,
    messages: Vec<MessageRow>,
    held: &[HeldRow],
    delays: &[DelayRow],
) -> Result<Assembled, OpenFault>
    ensures ok { IfOk result (λ a. AreSaid stations.items messages.items held.now delays.now a.subscriptions.items a.messages.items) }
    ensures fit { OnOk result (AreAllFit stations.items messages.items held.now delays.now) }
    ensures err { IfErr result (IsFirstFault stations.items messages.items held.now delays.now) }
{
    let stations = stations_of(alloc, stations)?;
    let mut messages = messages_of(alloc, messages)?;
    take_all(&stations, &mut messages, held)?;
    check_delays(&messages, delays)?;
    check_kept(&messages, delays)?;
    let Stations {
        subscriptions,
        queues: _,
    } = stations;
    Ok(Assembled {
        subscriptions,
        messages,
    })
}
