//! Rows of held.

ghost use Rattle.std.specs.Prelude.{◌≡◌, ◌≤◌, pos, IfOk, IfErr};
ghost use Rattle.jm_machine.specs.Rows.{greatest_count};
ghost use Rattle.jm_decoding.specs.declared.fault.RowFault.TheVariants.{Damaged};
ghost use Rattle.sqlite_value.specs.declared.value.Value.TheVariants as value;
ghost use Rattle.sqlite_value.specs.Order.{column};
ghost use Rattle.jm_decoding.specs.Decoded.{IsHeldOf, IsFaultOfRow};
ghost use Rattle.jm_decoding.specs.Readable.{IsCountIn, IsReadableHeld};

use crate::columns::{natural_at, number_at};
use crate::fault::RowFault;
use crate::key::key_of;
use jm_dest::Key;
use sqlite::Row;
use std::alloc::Global;

/// The greatest count of deliveries (ours).
const GREATEST_COUNT: u32 = 2_147_483_647;

/// What a row of held stands for.
#[derive(Debug, Drop)]
pub struct HeldRow {
    /// The queue or the durable subscription that holds the message.
    pub key: Key,
    /// The place of the message, from 0 to 9,223,372,036,854,775,807.
    pub place: u64,
    /// How often the message was delivered there, from 0 to 2,147,483,647.
    pub count: u32,
}

/// The count of deliveries in the column. `Damaged` exactly where it is none from 0 to 2,147,483,647. Takes no memory.
fn count_at(row: &Row, at: usize) -> Result<u32, RowFault>
    ensures ok { IfOk result (λ count. column row.now at ≡ value.Int (pos count)) }
    ensures within { IfOk result (λ count. count ≤ greatest_count) }
    ensures err { IfErr result (λ fault. (fault ≡ Damaged) × ¬ IsCountIn (column row.now at)) }
{
    match u32::try_from(number_at(row, at)?) {
        Ok(count) if count <= GREATEST_COUNT => Ok(count),
        _ => Err(RowFault::Damaged),
    }
}

/// What the row stands for, which has the columns of held at their indexes in the tree of the table (ours): family, client, name,
/// place and deliveries from 1 to 5. `Damaged` where a column is not of its kind, the first three are no key of a row of station,
/// place is negative, or deliveries are not from 0 to 2,147,483,647; `Memory` where a request for memory was refused, which may
/// come in place of a damage of the name alone.
pub fn held_of(alloc: Global, row: &Row) -> Result<HeldRow, RowFault>
    ensures ok { IfOk result (IsHeldOf row.now) }
    ensures err { IfErr result (IsFaultOfRow (IsReadableHeld row.now)) }
{
    let place = natural_at(row, 4)?;
    let count = count_at(row, 5)?;
    let key = key_of(alloc, row)?;
    Ok(HeldRow { key, place, count })
}
