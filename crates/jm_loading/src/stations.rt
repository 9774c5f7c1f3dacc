//! The queues and the durable subscriptions.

ghost use Rattle.std.specs.Prelude.{◌≡◌, ◌<◌, ◌++◌, length, Decides, IfOk, IfErr, OnOk};
ghost use Rattle.jm_loading.specs.Faults.{IsFaultAt};
ghost use Rattle.jm_loading.specs.Fitting.{FitStations, station_cmp};
ghost use Rattle.jm_loading.specs.Stations.{AreSearchable, AreSubscriptions, IsKnown, queues_in, queues_of, subscriptions_in, subscriptions_of};
ghost use Rattle.jm_loading.specs.Unfit.{IsFirstUnfit, IsNext};

use crate::order::is_behind;
use jm_core::StoredSubscription;
use jm_decoding::StationRow;
use jm_dest::{Key, Name};
use jm_opening::{OpenFault, TableName};
use std::alloc::{AllocError, Global};

/// The queues and the durable subscriptions, each in the order of its rows.
#[derive(Drop)]
pub(crate) struct Stations {
    pub queues: Vec<Name>,
    pub subscriptions: Vec<StoredSubscription>,
}

/// Whether the row is that of a queue, or of a durable subscription.
fn is_known(row: &StationRow) -> bool
    ensures { Decides result (IsKnown row.now) }
{
    match &row.key {
        Key::Queue(_) => row.definition.is_none(),
        Key::Durable(_, _) => row.definition.is_some(),
        Key::Own(_, _) | Key::SharedOwn(_, _) => false,
    }
}

/// Whether the row with that index stands behind the one before, and is that of a queue or of a durable subscription.
fn fits(rows: &[StationRow], at: usize) -> bool
    requires { at < length rows.now }
    ensures { Decides result (IsNext station_cmp IsKnown rows.now at) }
{
    is_behind(rows, at) && is_known(&rows[at])
}

/// Tests that the keys rise, and that each row is that of a queue or of a durable subscription. Damaged at the first of which that
/// is not so.
fn check(rows: &[StationRow]) -> Result<(), OpenFault>
    ensures fit { OnOk result (FitStations rows.now) }
    ensures err { IfErr result (IsFaultAt TableName.Station (IsFirstUnfit station_cmp IsKnown rows.now)) }
{
    for at in 0..rows.len() {
        if !fits(rows, at) {
            return Err(OpenFault::Damaged(TableName::Station, at as u64));
        }
    }
    Ok(())
}

/// Adds the queue or the subscription of the row behind those before.
fn add(stations: &mut Stations, row: StationRow) -> Result<(), AllocError>
    ensures queues { OnOk result (stations.new.queues.items ≡ stations.old.queues.items ++ queues_of row) }
    ensures subscriptions { OnOk result (stations.new.subscriptions.items ≡ stations.old.subscriptions.items ++ subscriptions_of row) }
{
    let StationRow { key, definition } = row;
    if let Some(definition) = definition {
        stations
            .subscriptions
            .push(StoredSubscription { key, definition })?;
        return Ok(());
    }
    if let Key::Queue(name) = key {
        stations.queues.push(name)?;
    }
    Ok(())
}

/// Sorts the rows into queues and subscriptions.
fn sorted(alloc: Global, rows: Vec<StationRow>) -> Result<Stations, AllocError>
    ensures queues { IfOk result (λ s. s.queues.items ≡ queues_in rows.items) }
    ensures subscriptions { IfOk result (λ s. s.subscriptions.items ≡ subscriptions_in rows.items) }
{
    let mut stations = Stations {
        queues: Vec::new(alloc),
        subscriptions: Vec::new(alloc),
    };
    for row in rows {
        add(&mut stations, row)?;
    }
    Ok(stations)
}

/// The queues and the durable subscriptions of the rows, whose keys rise. Damaged at the first whose key does not, or that is that
/// of no queue and of no durable subscription.
pub(crate) fn stations_of(alloc: Global, rows: Vec<StationRow>) -> Result<Stations, OpenFault>
    ensures queues { IfOk result (λ s. s.queues.items ≡ queues_in rows.items) }
    ensures subscriptions { IfOk result (λ s. s.subscriptions.items ≡ subscriptions_in rows.items) }
    ensures fit { OnOk result (FitStations rows.items) }
    ensures durable { IfOk result (λ s. AreSubscriptions s.subscriptions.items) }
    ensures sorted { IfOk result (λ s. AreSearchable s.queues.items s.subscriptions.items) }
    ensures err { IfErr result (IsFaultAt TableName.Station (IsFirstUnfit station_cmp IsKnown rows.items)) }
{
    check(&rows)?;
    Ok(sorted(alloc, rows)?)
}
