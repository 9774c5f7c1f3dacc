//! All rows of a table, in their order.

ghost use Rattle.std.specs.Prelude.{OnOk, IfOk, IfErr};
ghost use Rattle.sqlite_value.specs.Order.{Row as SqlRow};
ghost use Rattle.jm_decoding.specs.Decoded.{IsFaultOfRow, IsStationOf, IsMessageOf, IsHeldOf, IsDelayOf};
ghost use Rattle.jm_decoding.specs.Readable.{IsReadableStation, IsReadableMessage, IsReadableHeld, IsReadableDelay};
ghost use Rattle.jm_decoding.specs.Tables.{StandFor, IsFaultOfTable};

use crate::delay::{DelayRow, delay_of};
use crate::fault::{RowFault, TableFault};
use crate::held::{HeldRow, held_of};
use crate::message::{MessageRow, message_of};
use crate::station::{StationRow, station_of};
use sqlite::Row;
use std::alloc::Global;

/// What a row of one table stands for.
trait Decode: Drop {
    /// It is a row of the table that may be read.
    ghost is_readable: { SqlRow → Type 0 };

    /// The row stands for the value.
    ghost stands_for: { SqlRow → Self → Type 0 };

    /// What the row stands for. `Damaged` where it may not be read; `Memory` where a request for memory was refused.
    fn decode(alloc: Global, row: &Row) -> Result<Self, RowFault>
        ensures ok { IfOk result (stands_for row.now) }
        ensures readable { OnOk result (is_readable row.now) }
        ensures err { IfErr result (IsFaultOfRow (is_readable row.now)) };
}

impl Decode for StationRow {
    ghost use Rattle.jm_decoding.specs.Decoded.{IsStationOf};
    ghost use Rattle.jm_decoding.specs.Readable.{IsReadableStation};

    ghost is_readable = { IsReadableStation };

    ghost stands_for = { IsStationOf };

    fn decode(alloc: Global, row: &Row) -> Result<StationRow, RowFault> {
        station_of(alloc, row)
    }
}

impl Decode for MessageRow {
    ghost use Rattle.jm_decoding.specs.Decoded.{IsMessageOf};
    ghost use Rattle.jm_decoding.specs.Readable.{IsReadableMessage};

    ghost is_readable = { IsReadableMessage };

    ghost stands_for = { IsMessageOf };

    fn decode(alloc: Global, row: &Row) -> Result<MessageRow, RowFault> {
        message_of(alloc, row)
    }
}

impl Decode for HeldRow {
    ghost use Rattle.jm_decoding.specs.Decoded.{IsHeldOf};
    ghost use Rattle.jm_decoding.specs.Readable.{IsReadableHeld};

    ghost is_readable = { IsReadableHeld };

    ghost stands_for = { IsHeldOf };

    fn decode(alloc: Global, row: &Row) -> Result<HeldRow, RowFault> {
        held_of(alloc, row)
    }
}

impl Decode for DelayRow {
    ghost use Rattle.jm_decoding.specs.Decoded.{IsDelayOf};
    ghost use Rattle.jm_decoding.specs.Readable.{IsReadableDelay};

    ghost is_readable = { IsReadableDelay };

    ghost stands_for = { IsDelayOf };

    fn decode(_: Global, row: &Row) -> Result<DelayRow, RowFault> {
        delay_of(row)
    }
}

/// What the rows stand for, in their order.
fn decoded<T: Decode>(alloc: Global, rows: &[Row]) -> Result<Vec<T>, TableFault>
    ensures ok { IfOk result (λ decoded. StandFor T.stands_for rows.now decoded.items) }
    ensures err { IfErr result (IsFaultOfTable T.is_readable rows.now) }
{
    let mut decoded = Vec::new(alloc);
    for (at, row) in rows.iter().enumerate() {
        match T::decode(alloc, row) {
            Ok(value) => decoded.push(value)?,
            Err(RowFault::Damaged) => return Err(TableFault::Damaged(at as u64)),
            Err(RowFault::Memory) => return Err(TableFault::Memory),
        }
    }
    Ok(decoded)
}

/// What the rows of station stand for, each as `station_of` says, in their order. `Damaged` with the index of the first row that
/// may not be read; `Memory` where a request for memory was refused, which may come in place of a damage that was not found yet.
pub fn decode_stations(alloc: Global, rows: &[Row]) -> Result<Vec<StationRow>, TableFault>
    ensures ok { IfOk result (λ stations. StandFor IsStationOf rows.now stations.items) }
    ensures err { IfErr result (IsFaultOfTable IsReadableStation rows.now) }
{
    decoded(alloc, rows)
}

/// What the rows of message stand for, each as `message_of` says, in their order. `Damaged` with the index of the first row that
/// may not be read; `Memory` where a request for memory was refused, which may come in place of a damage that was not found yet.
pub fn decode_messages(alloc: Global, rows: &[Row]) -> Result<Vec<MessageRow>, TableFault>
    ensures ok { IfOk result (λ messages. StandFor IsMessageOf rows.now messages.items) }
    ensures err { IfErr result (IsFaultOfTable IsReadableMessage rows.now) }
{
    decoded(alloc, rows)
}

/// What the rows of held stand for, each as `held_of` says, in their order. `Damaged` with the index of the first row that may
/// not be read; `Memory` where a request for memory was refused, which may come in place of a damage that was not found yet.
pub fn decode_held(alloc: Global, rows: &[Row]) -> Result<Vec<HeldRow>, TableFault>
    ensures ok { IfOk result (λ held. StandFor IsHeldOf rows.now held.items) }
    ensures err { IfErr result (IsFaultOfTable IsReadableHeld rows.now) }
{
    decoded(alloc, rows)
}

/// What the rows of delayed stand for, each as `delay_of` says, in their order. `Damaged` with the index of the first row that
/// may not be read; `Memory` where a request for memory was refused, which may come in place of a damage that was not found yet.
pub fn decode_delays(alloc: Global, rows: &[Row]) -> Result<Vec<DelayRow>, TableFault>
    ensures ok { IfOk result (λ delays. StandFor IsDelayOf rows.now delays.items) }
    ensures err { IfErr result (IsFaultOfTable IsReadableDelay rows.now) }
{
    decoded(alloc, rows)
}
