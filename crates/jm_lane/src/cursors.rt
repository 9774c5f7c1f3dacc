//! Walks over the rows of one lane that look for the next row by place of a kind: one that has lapsed, or one that is out.
//! The lane's bounds spare what cannot be such a row, and it is left at the first row that is not of a lower place than
//! the best of the lanes before it.

ghost use Rattle.std.specs.Prelude.{◌≡◌, ◌<◌, ◌≤◌, All, length, drop, true, false, slice_index_or};
ghost use Rattle.jm_machine.specs.Machine.{are_meant};
ghost use Rattle.jm_lane.specs.declared.row.Row.{Row};
ghost use Rattle.jm_lane.specs.Rows.{IsRising, is_expired, is_out, is_waiting};
ghost use Rattle.jm_lane.specs.Lanes.{IsSteady};
ghost use Rattle.jm_lane.specs.Cursors.{NoneBetween, has_lapsed, improves, is_under};

use crate::row::Row;
use jm_dest::Moment;
use jm_machine::Consumers;
use std::collections::VecDeque;

/// Whether the row is of a lower place than the other, where that is there.
fn is_under(row: &Row, other: &Option<Row>) -> bool
    ensures { result ≡ is_under other.now row.now }
{
    match other {
        Some(other) => row.place < other.place,
        None => true,
    }
}

/// Whether the row has lapsed at that moment.
fn has_lapsed(row: &Row, now: Moment) -> bool
    ensures { result ≡ has_lapsed now row.now }
{
    row.is_waiting() && row.is_expired(now)
}

/// Whether the row is not expired at that moment, and its lane is steady, so that no later one is either.
fn ends_turn(row: &Row, now: Moment, steady: bool) -> bool
    ensures steady { result ≡ true → steady ≡ true }
    ensures row { result ≡ true → is_expired now row.now ≡ false }
{
    steady && !row.is_expired(now)
}

/// Where the first row stands, from that index on, that has lapsed at that moment and is of a lower place than the best
/// so far, or how many rows there are. The walk ends at the first row that is not of a lower place, and where the rows
/// expire in turn at the first that is not expired.
pub(crate) fn first_lapsed(
    rows: &VecDeque<Row>,
    from: usize,
    now: Moment,
    steady: bool,
    best: &Option<Row>,
) -> usize
    requires in_range { from ≤ length rows.now.items }
    requires rising { IsRising rows.now.items }
    requires steady { steady ≡ true → IsSteady rows.now.items }
    ensures from { from ≤ result }
    ensures within { result ≤ length rows.now.items }
    ensures before { NoneBetween (improves best.now (has_lapsed now)) rows.now.items from result }
    ensures found { (d : Row) → result < length rows.now.items →
        improves best.now (has_lapsed now) (slice_index_or rows.now.items result d) ≡ true }
{
    for i in from..rows.len() {
        if !is_under(&rows[i], best) {
            return rows.len();
        }
        if ends_turn(&rows[i], now, steady) {
            return rows.len();
        }
        if has_lapsed(&rows[i], now) {
            return i;
        }
    }
    rows.len()
}

/// Where the first row stands, from that index on, that is out through one of those consumers and is of a lower place
/// than the best so far, or how many rows there are. No row is out from `high` on. The walk ends at the first row that
/// is not of a lower place.
pub(crate) fn first_out(
    rows: &VecDeque<Row>,
    from: usize,
    high: usize,
    which: &Consumers,
    best: &Option<Row>,
) -> usize
    requires in_range { from ≤ length rows.now.items }
    requires high { high ≤ length rows.now.items }
    requires behind { All (λ r. is_waiting r ≡ true) (drop high rows.now.items) }
    requires rising { IsRising rows.now.items }
    ensures from { from ≤ result }
    ensures within { result ≤ length rows.now.items }
    ensures before { NoneBetween (improves best.now (is_out (are_meant which.now))) rows.now.items from result }
    ensures found { (d : Row) → result < length rows.now.items →
        improves best.now (is_out (are_meant which.now)) (slice_index_or rows.now.items result d) ≡ true }
{
    for i in from..high {
        if !is_under(&rows[i], best) {
            return rows.len();
        }
        if rows[i].is_out(which) {
            return i;
        }
    }
    rows.len()
}
