//! The row that a delivery takes, found before the delivery is made.

ghost use Rattle.std.specs.Prelude.{◌≡◌, true, is_some, IfOk, OnErr, Some};
ghost use Rattle.jm_stations.specs.Kept as spec;

use jm_base::Boxed;
use jm_header::Message;
use jm_pending::{Row, Table};
use std::alloc::{AllocError, Global};

/// The row that a delivery takes (ours), by its place, so that nothing is searched a second time.
#[derive(Drop)]
pub struct Picked {
    /// The place of the row.
    pub place: u64,
    /// A copy of its message, where that is held after the delivery.
    pub copy: Option<Boxed<Message>>,
}

/// A copy of the row's message, where it is not settled at once, or some other row holds it too.
fn copy_of(
    alloc: Global,
    table: &Table,
    row: &Row,
    settles: bool,
) -> Result<Option<Boxed<Message>>, AllocError>
    ensures copy { IfOk result (λ copy. copy ≡ spec.copied settles table.now (Some row.now)) }
    ensures err { OnErr result (is_some (spec.copied settles table.now (Some row.now)) ≡ true) }
{
    if settles && table.holders(row.place) == 1 {
        return Ok(None);
    }
    match table.get(row.place) {
        None => Ok(None),
        Some(message) => Ok(Some(Boxed::new(alloc, message.copy()?)?)),
    }
}

/// What a delivery takes that settles at once or not: the row, where there is one, with the copy that it wants.
pub(crate) fn pick(
    alloc: Global,
    table: &Table,
    row: Option<Row>,
    settles: bool,
) -> Result<Option<Picked>, AllocError>
    ensures picked { IfOk result (λ picked. picked ≡ spec.picked settles table.now row) }
    ensures err { OnErr result (is_some (spec.copied settles table.now row) ≡ true) }
{
    let Some(row) = row else {
        return Ok(None);
    };
    let copy = copy_of(alloc, table, &row, settles)?;
    Ok(Some(Picked {
        place: row.place,
        copy,
    }))
}
