//! Copies of keys and of what is held under them.

ghost use Rattle.std.specs.Prelude.{◌≡◌, ◌<◌, map, option_map, IfSome, IfOk};
ghost use Rattle.jm_lane.specs.Holders.{Covers, holders_of};
ghost use Rattle.jm_pending.specs.Placed as placed;
ghost use Rattle.jm_stations.specs.Kept as kept;

use jm_dest::Key;
use jm_gaps::GapList;
use jm_indexed::KeySet;
use jm_machine::{PlacedRow, Row as MachineRow};
use jm_pending::{Held, Row, Table};
use std::alloc::{AllocError, Global};

/// The row with a copy of its message.
fn placed_row(table: &Table, row: Option<Row>) -> Result<Option<PlacedRow>, AllocError>
    requires { IfSome row (λ r. 0 < holders_of table.now r.place) }
    ensures { IfOk result (λ copy. copy ≡ option_map (placed.placed table.now) row) }
{
    let Some(row) = row else {
        return Ok(None);
    };
    match table.get(row.place) {
        None => Ok(None),
        Some(message) => Ok(Some(PlacedRow {
            place: row.place,
            row: MachineRow {
                message: message.copy()?,
                count: row.count,
                state: row.state,
            },
        })),
    }
}

/// The rows of a list, by place, each with a copy of its message.
pub(crate) fn placed_rows(
    alloc: Global,
    table: &Table,
    held: &Held,
) -> Result<Vec<PlacedRow>, AllocError>
    requires { Covers table.now held.now.rows }
    ensures { IfOk result (λ rows. rows.items ≡ placed.all_placed table.now held.now.rows) }
{
    let mut rows = Vec::with_capacity(alloc, held.len())?;
    let mut place = 0;
    while let Some(row) = placed_row(table, held.row_from(place))? {
        place = row.place + 1;
        rows.push(row)?;
    }
    Ok(rows)
}

/// Lists with the same rows, and no room.
pub(crate) fn copy_lists(alloc: Global, lists: &GapList<Held>) -> Result<GapList<Held>, AllocError>
    ensures { IfOk result (λ copies. copies.items ≡ map kept.without_room lists.now.items) }
{
    let mut copies = GapList::new(alloc);
    copies.reserve(lists.len())?;
    for index in 0..lists.len() {
        let copy = lists.at(index).copy()?;
        copies.push(copy);
    }
    Ok(copies)
}

/// The same keys, in their order.
pub(crate) fn copy_keys(alloc: Global, keys: &KeySet<Key>) -> Result<Vec<Key>, AllocError>
    ensures { IfOk result (λ copies. copies.items ≡ keys.now.keys) }
{
    let mut copies = Vec::with_capacity(alloc, keys.len())?;
    for index in 0..keys.len() {
        copies.push(keys.key_at(index).copy()?)?;
    }
    Ok(copies)
}
