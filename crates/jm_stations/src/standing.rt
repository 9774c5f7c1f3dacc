//! Rows as they stand under a key, read without a copy of their messages.

ghost use Rattle.std.specs.Prelude.{◌≡◌, ◌≤◌, ◌<◌, IfSome, find, option_map};
ghost use Rattle.jm_dest.specs.Numbers.{long_end};
ghost use Rattle.jm_machine.specs.Machine.{are_meant};
ghost use Rattle.jm_lane.specs.Holders.{Covers, holders_of};
ghost use Rattle.jm_pending.specs.Placed.{AreRowsOf, all_placed, placed};
ghost use Rattle.jm_stations.specs.Standing as spec;

use jm_dest::Moment;
use jm_gaps::GapList;
use jm_header::Message;
use jm_machine::{Consumers, RowState};
use jm_pending::{Held, Row, Table};

/// A row as it stands under a key, with its message, which is borrowed (ours).
#[derive(Clone, Copy)]
pub struct Standing<'a> {
    /// The place of the publication.
    pub place: u64,
    /// How often the row was delivered, at most 2,147,483,647.
    pub count: u32,
    pub state: RowState,
    pub message: &'a Message,
}

/// The row with its message, where it is there.
fn with_message<'a>(table: &'a Table, row: Option<Row>) -> Option<Standing<'a>>
    requires { IfSome row (λ r. 0 < holders_of table.now r.place) }
    ensures { option_map spec.row_of result ≡ option_map (placed table.now) row }
{
    let Some(row) = row else {
        return None;
    };
    match table.get(row.place) {
        None => None,
        Some(message) => Some(Standing {
            place: row.place,
            count: row.count,
            state: row.state,
            message,
        }),
    }
}

/// The row of a list at that place.
pub(crate) fn row_of<'a>(table: &'a Table, held: &Held, place: u64) -> Option<Standing<'a>>
    requires { Covers table.now held.now.rows }
    ensures { option_map spec.row_of result ≡ find (spec.is_at place) (all_placed table.now held.now.rows) }
{
    with_message(table, held.row_of(place))
}

/// The first row of a list by place, from that place on.
pub(crate) fn row_from<'a>(table: &'a Table, held: &Held, place: u64) -> Option<Standing<'a>>
    requires place { place ≤ long_end }
    requires covers { Covers table.now held.now.rows }
    ensures { option_map spec.row_of result ≡ find (spec.is_from place) (all_placed table.now held.now.rows) }
{
    with_message(table, held.row_from(place))
}

/// The first row of a list by place, from that place on, that has lapsed at that moment.
pub(crate) fn lapsed_from<'a>(
    table: &'a Table,
    held: &Held,
    place: u64,
    now: Moment,
) -> Option<Standing<'a>>
    requires covers { Covers table.now held.now.rows }
    requires own { AreRowsOf table.now held.now.rows }
    ensures { option_map spec.row_of result ≡ find (spec.lapsed_from place now) (all_placed table.now held.now.rows) }
{
    with_message(table, held.lapsed_from(place, now))
}

/// The first row of a list by place, from that place on, that is out through one of those consumers.
pub(crate) fn out_from<'a>(
    table: &'a Table,
    held: &Held,
    place: u64,
    which: &Consumers,
) -> Option<Standing<'a>>
    requires { Covers table.now held.now.rows }
    ensures { option_map spec.row_of result ≡ find (spec.out_from place (are_meant which.now)) (all_placed table.now held.now.rows) }
{
    with_message(table, held.out_from(place, which))
}

/// The first index from that one on of a list in which a row stands at that place.
pub(crate) fn holder_from(lists: &GapList<Held>, index: usize, place: u64) -> Option<usize>
    ensures { spec.IsFirstOf (spec.has_row place) index lists.now.items result }
{
    for i in index..lists.len() {
        if lists.at(i).row_of(place).is_some() {
            return Some(i);
        }
    }
    None
}
