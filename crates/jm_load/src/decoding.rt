//! The rows of all tables, decoded.

ghost use Rattle.std.specs.Prelude.{◌≡◌, IfOk, IfErr};
ghost use Rattle.jm_decoding.specs.declared.fault.TableFault.TheVariants.{Memory as NoMemory};
ghost use Rattle.jm_decoding.specs.Decoded.{IsDelayOf, IsHeldOf};
ghost use Rattle.jm_decoding.specs.Readable.{IsReadableDelay, IsReadableHeld};
ghost use Rattle.jm_load.specs.Loaded.{IsDecodedOf, IsUndecoded, StandTo, fault_told};

use crate::reading::TableRows;
use jm_decoding::{
    DelayRow, HeldRow, MessageRow, StationRow, TableFault, decode_delays, decode_held,
    decode_messages, decode_stations,
};
use jm_opening::{OpenFault, TableName};
use sqlite::Row;
use std::alloc::Global;

/// What the rows of the tables stand for.
#[derive(Drop)]
pub(crate) struct Decoded {
    pub stations: Vec<StationRow>,
    pub messages: Vec<MessageRow>,
    pub held: Vec<HeldRow>,
    pub delays: Vec<DelayRow>,
    /// The first row of held, or else of delayed, that may not be read; neither that one is here nor what comes behind it.
    pub damaged: Option<OpenFault>,
}

/// The fault of a table's rows, as `load` tells it.
fn fault_in(table: TableName, fault: TableFault) -> OpenFault
    ensures { result ≡ fault_told table fault }
{
    match fault {
        TableFault::Damaged(at) => OpenFault::Damaged(table, at),
        TableFault::Memory => OpenFault::Memory,
    }
}

/// What the rows of held stand for, up to the first that may not be read, and the number of that one. Refused only as Memory,
/// where a request for memory was refused.
fn held_before(alloc: Global, rows: &[Row]) -> Result<(Vec<HeldRow>, Option<u64>), TableFault>
    ensures ok { IfOk result (λ p. StandTo IsHeldOf IsReadableHeld rows.now p.0.items p.1) }
    ensures err { IfErr result (λ fault. fault ≡ NoMemory) }
{
    match decode_held(alloc, rows) {
        Ok(held) => Ok((held, None)),
        Err(TableFault::Damaged(at)) => {
            let held = decode_held(alloc, &rows[..at as usize])?;
            Ok((held, Some(at)))
        }
        Err(TableFault::Memory) => Err(TableFault::Memory),
    }
}

/// What the rows of delayed stand for, up to the first that may not be read, and the number of that one. Refused only as Memory,
/// where a request for memory was refused.
fn delays_before(alloc: Global, rows: &[Row]) -> Result<(Vec<DelayRow>, Option<u64>), TableFault>
    ensures ok { IfOk result (λ p. StandTo IsDelayOf IsReadableDelay rows.now p.0.items p.1) }
    ensures err { IfErr result (λ fault. fault ≡ NoMemory) }
{
    match decode_delays(alloc, rows) {
        Ok(delays) => Ok((delays, None)),
        Err(TableFault::Damaged(at)) => {
            let delays = decode_delays(alloc, &rows[..at as usize])?;
            Ok((delays, Some(at)))
        }
        Err(TableFault::Memory) => Err(TableFault::Memory),
    }
}

/// What the rows of all tables stand for: of held and delayed, up to the first that may not be read. Damaged where one of station
/// or of message may not be read, at the first of those; Memory where a request for memory was refused.
pub(crate) fn decode(alloc: Global, rows: &TableRows) -> Result<Decoded, OpenFault>
    ensures ok { IfOk result (IsDecodedOf rows.now) }
    ensures err { IfErr result (IsUndecoded rows.now) }
{
    let stations = match decode_stations(alloc, &rows.stations) {
        Ok(stations) => stations,
        Err(fault) => return Err(fault_in(TableName::Station, fault)),
    };
    let messages = match decode_messages(alloc, &rows.messages) {
        Ok(messages) => messages,
        Err(fault) => return Err(fault_in(TableName::Message, fault)),
    };
    let (held, damaged) = match held_before(alloc, &rows.held) {
        Ok(before) => before,
        Err(fault) => return Err(fault_in(TableName::Held, fault)),
    };
    if let Some(at) = damaged {
        return Ok(Decoded {
            stations,
            messages,
            held,
            delays: Vec::new(alloc),
            damaged: Some(OpenFault::Damaged(TableName::Held, at)),
        });
    }
    let (delays, damaged) = match delays_before(alloc, &rows.delays) {
        Ok(before) => before,
        Err(fault) => return Err(fault_in(TableName::Delayed, fault)),
    };
    let damaged = match damaged {
        Some(at) => Some(OpenFault::Damaged(TableName::Delayed, at)),
        None => None,
    };
    Ok(Decoded {
        stations,
        messages,
        held,
        delays,
        damaged,
    })
}
