//! Rows of messages that were stored, over one table.

ghost use Rattle.std.specs.Prelude.{◌≡◌, ◌<◌, ◌≤◌, nat_eq, All, length, map, slice_index_or};
ghost use Rattle.std.specs.List.{IsDistinct};
ghost use Rattle.jm_dest.specs.Numbers.{long_end};
ghost use Rattle.jm_lane.specs.Holders.{holders_of};
ghost use Rattle.jm_pending.specs.Rows.{Held};
ghost use Rattle.jm_stations.specs.Kept as kept;
ghost use Rattle.jm_stations.specs.Loading.{AreOffered};

use jm_gaps::GapList;
use jm_pending::{Held, Row, Table};

/// A row that was stored: the index of the key under which it stands, and how often it was delivered.
#[derive(Clone, Copy, Debug, PartialEq, Eq)]
pub struct StoredRow {
    /// Where its key stands, in order of creation.
    pub index: usize,
    /// The count of its deliveries, at most 2,147,483,647.
    pub count: u32,
}

/// Adds the message's row to the list of each of those indexes, with the count that was stored there.
pub(crate) fn offer_stored(
    lists: &mut GapList<Held>,
    table: &mut Table,
    row: &Row,
    rows: &[StoredRow],
)
    requires place { row.now.place < long_end }
    requires priority { row.now.priority < 10 }
    requires within { All (λ (r : StoredRow). r.index < length lists.old.items) rows.now }
    requires once { IsDistinct nat_eq (map (λ (r : StoredRow). r.index) rows.now) }
    requires room { All (λ (r : StoredRow). (d : Held) → 0 < (slice_index_or lists.old.items r.index d).room) rows.now }
    requires above { All (λ (h : Held). kept.AreBelow row.now.place h.rows) lists.old.items }
    requires there { holders_of table.old row.now.place ≡ 1 }
    ensures lists { AreOffered rows.now row.now lists.old.items lists.new.items }
    ensures table { kept.FollowsAll table.old table.new (kept.all_rows lists.old.items) (kept.all_rows lists.new.items) }
{
    for stored in rows {
        let held = lists.at_mut(stored.index);
        held.add(
            table,
            Row {
                count: stored.count,
                ..*row
            },
        );
    }
}
