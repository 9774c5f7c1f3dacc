//! Rows of message.

ghost use Rattle.std.specs.Prelude.{IfOk, IfErr};
ghost use Rattle.jm_format.specs.Messages.{IsWriteable};
ghost use Rattle.jm_tables.specs.Valid.{IsRecordOf};
ghost use Rattle.jm_decoding.specs.Decoded.{IsMessageOf, IsFaultOfRow};
ghost use Rattle.jm_decoding.specs.Readable.{IsReadableMessage, IsPersistentRecord};

use crate::columns::{bytes_at, natural_at};
use crate::fault::RowFault;
use jm_header::{DeliveryMode, Message};
use jm_record::{RecordFault, read_record};
use sqlite::Row;
use std::alloc::Global;

/// What a row of message stands for.
#[derive(Debug, Drop)]
pub struct MessageRow {
    /// The place of the message, from 1 to 9,223,372,036,854,775,807.
    pub place: u64,
    /// The message, whose body and properties may be written.
    pub message: Message,
}

/// The PERSISTENT message of which the bytes are the record. `Damaged` where they are that of none; `Memory` where a request for
/// memory was refused, which may come in place of it.
fn persistent_message(alloc: Global, bytes: &[u8]) -> Result<Message, RowFault>
    ensures ok { IfOk result (λ message. IsRecordOf message bytes.now) }
    ensures fresh { IfOk result IsWriteable }
    ensures err { IfErr result (IsFaultOfRow (IsPersistentRecord bytes.now)) }
{
    let message = match read_record(alloc, bytes) {
        Ok(message) => message,
        Err(RecordFault::Damaged { .. }) => return Err(RowFault::Damaged),
        Err(RecordFault::Memory) => return Err(RowFault::Memory),
    };
    match message.mode() {
        DeliveryMode::Persistent => Ok(message),
        DeliveryMode::NonPersistent => Err(RowFault::Damaged),
    }
}

/// What the row stands for, which has the columns of message at their indexes in the tree of the table (ours): place, which is
/// the rowid, at 0, and record at 2. `Damaged` where place is no whole number above 0, or record is not the record of a PERSISTENT
/// message in a blob; `Memory` where a request for memory was refused, which may come in place of a damage of the record.
pub fn message_of(alloc: Global, row: &Row) -> Result<MessageRow, RowFault>
    ensures ok { IfOk result (IsMessageOf row.now) }
    ensures err { IfErr result (IsFaultOfRow (IsReadableMessage row.now)) }
{
    let place = natural_at(row, 0)?;
    if place == 0 {
        return Err(RowFault::Damaged);
    }
    let message = persistent_message(alloc, bytes_at(row, 2)?)?;
    Ok(MessageRow { place, message })
}
