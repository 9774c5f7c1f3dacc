//! Rows of delayed.

ghost use Rattle.std.specs.Prelude.{◌≡◌, IfOk, IfErr};
ghost use Rattle.jm_decoding.specs.declared.fault.RowFault.TheVariants.{Damaged};
ghost use Rattle.jm_decoding.specs.Decoded.{IsDelayOf};
ghost use Rattle.jm_decoding.specs.Readable.{IsReadableDelay};

use crate::columns::{natural_at, number_at};
use crate::fault::RowFault;
use jm_dest::Moment;
use sqlite::Row;

/// What a row of delayed stands for.
#[derive(Clone, Copy, Debug, PartialEq, Eq)]
pub struct DelayRow {
    /// The place of its message, from 0 to 9,223,372,036,854,775,807.
    pub place: u64,
    /// The moment at which the message becomes due.
    pub due: Moment,
}

/// What the row stands for, which has the columns of delayed at their indexes in the tree of the table (ours): place, which is
/// the rowid, at 0, and due at 2. `Damaged` exactly where one of them is no whole number that is not negative. Takes no memory.
pub fn delay_of(row: &Row) -> Result<DelayRow, RowFault>
    ensures ok { IfOk result (IsDelayOf row.now) }
    ensures err { IfErr result (λ fault. (fault ≡ Damaged) × ¬ IsReadableDelay row.now) }
{
    let place = natural_at(row, 0)?;
    match Moment::new(number_at(row, 2)?) {
        Ok(due) => Ok(DelayRow { place, due }),
        Err(_) => Err(RowFault::Damaged),
    }
}
