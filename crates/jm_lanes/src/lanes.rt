//! The lanes of one subscription, three for each priority, from the highest on. Which of the three a row stands in is
//! free: rows that expire in turn stand together, so that a delivery drops those of them that are expired from the front;
//! and those that are delayed stand apart, so that a delivery passes over all that are held back.

ghost use Rattle.std.specs.Prelude.{◌≡◌, ℕ, ◌+◌, ◌-◌, ◌^◌, ◌<◌, ◌≤◌, ◌++◌, List, [], length, All, IfOk, IfSome, find, filter, map, option_map, true, false, Option, OnOk, slice_get, slice_index_or, slice_set};
ghost use Rattle.jm_dest.specs.Numbers.{long_end};
ghost use Rattle.jm_lane.specs.declared.row.Row.{Row};
ghost use Rattle.jm_lane.specs.declared.spot.Spot.{Spot};
ghost use Rattle.jm_lanes.specs.declared.span.Span.{Span};
ghost use Rattle.jm_lane.specs.Rows.{IsRising, back, is_among, is_elsewhere, is_ready, keeps, sent_at, stays};
ghost use Rattle.jm_lane.specs.Rows as spec;
ghost use Rattle.jm_lane.specs.Chosen.{is_choice, row_of};
ghost use Rattle.jm_lanes.specs.Lanes.{IsSpot};
ghost use Rattle.jm_selector.specs.Selectors.{matches};
ghost use Rattle.jm_lane.specs.Lanes.{IsPlaceFrom, IsSoonestOf, Lane, is_at, is_below};
ghost use Rattle.jm_lanes.specs.Lanes.{AreEmptyLanes, EachBecomes, IsApart, IsHeld, IsLaneOf, IsPushed, IsWithin, all_rows, rows_of};
ghost use Rattle.jm_lane.specs.Holders.{Covers, Follows};

use jm_dest::{ConsumerId, Moment, SessionId};
use jm_lane::{Lane, Outs, Row, Spot, Table};
use jm_selector::Selector;
use std::alloc::{AllocError, Global};

/// How many rows are of lower places.
fn below(lanes: &[Lane], place: u64) -> usize
    requires { length (all_rows lanes.now) < 2 ^ 64 }
    ensures { result ≡ length (filter (is_below place) (all_rows lanes.now)) }
{
    let mut total = 0;
    for lane in lanes.iter() {
        total += lane.below(place);
    }
    total
}

/// The row at that place.
pub(crate) fn at(lanes: &[Lane], place: u64) -> Option<Row>
    ensures { result ≡ find (is_at place) (all_rows lanes.now) }
{
    for lane in lanes.iter() {
        let found = lane.at(place);
        if found.is_some() {
            return found;
        }
    }
    None
}

/// The greatest place that no more than so many rows are below of, which is that of the next of them.
fn place_after(lanes: &[Lane], count: usize) -> u64
    requires few { length (all_rows lanes.now) < 2 ^ 64 }
    requires some { count < length (all_rows lanes.now) }
    requires bounded { All (λ (r : Row). r.place < long_end) (all_rows lanes.now) }
    ensures low { length (filter (is_below result) (all_rows lanes.now)) ≤ count }
    ensures high { count < length (filter (is_below (result + 1)) (all_rows lanes.now)) }
{
    let mut low = 0;
    let mut high = 1 << 63;
    while high - low > 1 {
        let middle = low + (high - low) / 2;
        if below(lanes, middle) <= count {
            low = middle;
        } else {
            high = middle;
        }
    }
    low
}

/// The row that so many stand before by place.
pub(crate) fn row_at(lanes: &[Lane], index: usize) -> Option<Row>
    requires few { length (all_rows lanes.now) < 2 ^ 64 }
    requires some { index < length (all_rows lanes.now) }
    requires bounded { All (λ (r : Row). r.place < long_end) (all_rows lanes.now) }
    requires rising { IsRising (rows_of lanes.now) }
    ensures { result ≡ slice_get (rows_of lanes.now) index }
{
    at(lanes, place_after(lanes, index))
}

/// The least place of the rows from that place on, or 2^63 where there is none.
fn place_from(lanes: &[Lane], place: u64) -> u64
    requires { place ≤ long_end }
    ensures { IsPlaceFrom place result (all_rows lanes.now) }
{
    let mut least = 1 << 63;
    for lane in lanes.iter() {
        least = least.min(lane.place_from(place));
    }
    least
}

/// The first row by place of those from that place on.
pub(crate) fn row_from(lanes: &[Lane], place: u64) -> Option<Row>
    requires place { place ≤ long_end }
    requires bounded { All (λ (r : Row). r.place < long_end) (all_rows lanes.now) }
    requires rising { IsRising (rows_of lanes.now) }
    ensures { result ≡ find (spec.is_from place) (rows_of lanes.now) }
{
    at(lanes, place_from(lanes, place))
}

/// Whether no row is out.
pub(crate) fn are_home(lanes: &[Lane]) -> bool
    ensures { result ≡ spec.are_home (all_rows lanes.now) }
{
    for lane in lanes.iter() {
        if !lane.is_home() {
            return false;
        }
    }
    true
}

/// Thirty lanes without rows.
fn empty_lanes(alloc: Global) -> Result<Vec<Lane>, AllocError>
    ensures { IfOk result (λ lanes. AreEmptyLanes lanes.items 30) }
{
    let mut lanes = Vec::with_capacity(alloc, 30)?;
    for index in 0..30 {
        lanes.push_reserved(Lane::new(alloc, 9 - index / 3));
    }
    Ok(lanes)
}

/// Makes the lanes, where they are not there. Where a request for memory was refused, they are not there as before.
pub(crate) fn make(lanes: &mut Vec<Lane>) -> Result<(), AllocError>
    ensures there { OnOk result (0 < length lanes.new.items) }
    ensures held { (room : ℕ) → IsHeld lanes.old.items room → IsHeld lanes.new.items room }
    ensures within { (span : Span) (room : ℕ) → IsWithin lanes.old.items span room → IsWithin lanes.new.items span room }
    ensures rows { rows_of lanes.new.items ≡ rows_of lanes.old.items }
{
    if !lanes.is_empty() {
        return Ok(());
    }
    *lanes = empty_lanes(*lanes.allocator())?;
    Ok(())
}

/// Makes room for that many more rows in each lane.
pub(crate) fn reserve(lanes: &mut [Lane], additional: usize) -> Result<(), AllocError>
    ensures same { EachBecomes (λ rows. rows) lanes.old lanes.new }
    ensures ok { OnOk result (All (λ l. additional ≤ l.spare) lanes.new) }
{
    for lane in lanes.iter_mut() {
        lane.reserve(additional)?;
    }
    Ok(())
}

/// Which lane of its priority a row goes to: a delayed one to the last, and each other to the first whose rows still
/// expire in turn with it, or to the last but where that has delayed ones.
fn lane_for(lanes: &[Lane], row: &Row) -> usize
    requires number { length lanes.now ≡ 30 }
    requires priority { row.now.priority < 10 }
    ensures { IsLaneOf result row.now.priority }
{
    let first = (9 - row.priority as usize) * 3;
    let last = first + 2;
    if row.is_delayed() {
        return last;
    }
    if lanes[first].takes(row) {
        return first;
    }
    if lanes[first + 1].takes(row) || lanes[last].is_delaying() {
        return first + 1;
    }
    last
}

/// Adds a row to a lane of its priority. Returns the index of that lane.
pub(crate) fn push(lanes: &mut [Lane], row: Row) -> usize
    requires number { length lanes.old ≡ 30 }
    requires priority { row.priority < 10 }
    requires priorities { (k : ℕ) (d : Lane) → k < length lanes.old → IsLaneOf k (slice_index_or lanes.old k d).priority }
    requires room { All (λ l. 0 < l.spare) lanes.old }
    requires above { All (λ (r : Row). r.place < row.place) (all_rows lanes.old) }
    ensures within { result < length lanes.old }
    ensures pushed { (after : Lane) × (lanes.new ≡ slice_set lanes.old result after) ×
        IsPushed row (slice_index_or lanes.old result after) after }
{
    let at = lane_for(lanes, &row);
    let lane = &mut lanes[at];
    lane.push(row);
    at
}

/// The row of the spot, where one is there.
fn row_of(spot: &Option<Spot>) -> Option<Row>
    ensures { result ≡ row_of spot.now }
{
    match spot {
        Some(spot) => Some(spot.row),
        None => None,
    }
}

/// Puts the row of the lane at that index that goes first of those that are ready in place of the best so far, where it
/// goes before that or none is there, with where it stands.
fn improve(lanes: &[Lane], at: usize, now: Moment, best: &mut Option<Spot>)
    requires at { at < length lanes.now }
    requires best { IfSome best.old (IsSpot lanes.now) }
    ensures spot { IfSome best.new (IsSpot lanes.now) }
    ensures soonest { (rows : List Row) (d : Lane) → IsSoonestOf (is_ready now) rows (row_of best.old) →
        IsSoonestOf (is_ready now) (rows ++ (slice_index_or lanes.now at d).rows) (row_of best.new) }
{
    let lane = &lanes[at];
    if lane.is_behind(best) {
        return;
    }
    let low = lane.first_waiting();
    let index = lane.first_ready(low, now, best);
    if let Some(row) = lane.get(index) {
        *best = Some(Spot {
            lane: at,
            low,
            index,
            row,
        });
    }
}

/// The row that goes first of those that are ready, and where it stands.
fn first_spot(lanes: &[Lane], now: Moment) -> Option<Spot>
    ensures spot { IfSome result (IsSpot lanes.now) }
    ensures soonest { IsSoonestOf (is_ready now) (all_rows lanes.now) (row_of result) }
{
    let mut best = None;
    for i in 0..lanes.len() {
        improve(lanes, i, now, &mut best);
    }
    best
}

/// The row that goes first of those that are ready.
pub(crate) fn next(lanes: &[Lane], now: Moment) -> Option<Row>
    ensures { IsSoonestOf (is_ready now) (all_rows lanes.now) result }
{
    row_of(&first_spot(lanes, now))
}

/// Puts the row of the lane at that index that goes first of those that are ready and whose messages the selector selects
/// in place of the best so far, where it goes before that or none is there, with where it stands.
fn improve_where(
    lanes: &[Lane],
    at: usize,
    table: &Table,
    now: Moment,
    selector: &Selector,
    best: &mut Option<Spot>,
)
    requires at { at < length lanes.now }
    requires best { IfSome best.old (IsSpot lanes.now) }
    ensures spot { IfSome best.new (IsSpot lanes.now) }
    ensures soonest { (rows : List Row) (d : Lane) → IsSoonestOf (is_choice (matches selector.now) table.now now) rows (row_of best.old) →
        IsSoonestOf (is_choice (matches selector.now) table.now now) (rows ++ (slice_index_or lanes.now at d).rows) (row_of best.new) }
{
    let lane = &lanes[at];
    if lane.is_behind(best) {
        return;
    }
    let low = lane.first_waiting();
    let index = lane.first_choice(low, table, now, selector, best);
    if let Some(row) = lane.get(index) {
        *best = Some(Spot {
            lane: at,
            low,
            index,
            row,
        });
    }
}

/// The row that goes first of those that are ready and whose messages the selector selects, and where it stands.
fn best_spot(lanes: &[Lane], table: &Table, now: Moment, selector: &Selector) -> Option<Spot>
    ensures spot { IfSome result (IsSpot lanes.now) }
    ensures soonest { IsSoonestOf (is_choice (matches selector.now) table.now now) (all_rows lanes.now) (row_of result) }
{
    let mut best = None;
    for i in 0..lanes.len() {
        improve_where(lanes, i, table, now, selector, &mut best);
    }
    best
}

/// The row that goes first of those that are ready and whose messages the selector selects.
pub(crate) fn next_where(
    lanes: &[Lane],
    table: &Table,
    now: Moment,
    selector: &Selector,
) -> Option<Row>
    ensures { IsSoonestOf (is_choice (matches selector.now) table.now now) (all_rows lanes.now) result }
{
    row_of(&best_spot(lanes, table, now, selector))
}

/// Drops the waiting rows that are expired, and looks anew when others are due. Returns how many rows are left.
pub(crate) fn drop_expired(lanes: &mut [Lane], table: &mut Table, now: Moment) -> usize
    requires covered { Covers table.old (all_rows lanes.old) }
    requires few { length (all_rows lanes.old) < 2 ^ 64 }
    ensures left { result ≡ length (all_rows lanes.new) }
    ensures rows { EachBecomes (filter (stays now)) lanes.old lanes.new }
    ensures table { Follows table.old table.new (all_rows lanes.old) (all_rows lanes.new) }
{
    let mut left = 0;
    for lane in lanes.iter_mut() {
        lane.drop_expired(table, now);
        lane.look_ahead(now);
        left += lane.len();
    }
    left
}

/// Where the row at that place stands, where there is one.
fn spot_of(lanes: &[Lane], place: u64) -> Option<Spot>
    ensures row { row_of result ≡ find (is_at place) (all_rows lanes.now) }
    ensures spot { IfSome result (λ (s : Spot). (s.row.place ≡ place) × IsSpot lanes.now s) }
{
    for i in 0..lanes.len() {
        let found = lanes[i].spot_of(i, place);
        if found.is_some() {
            return found;
        }
    }
    None
}

/// Sends the row at that place, where there is one.
pub(crate) fn send_at(
    lanes: &mut [Lane],
    place: u64,
    session: SessionId,
    consumer: ConsumerId,
) -> Option<Row>
    requires { IsApart (all_rows lanes.old) }
    ensures result { result ≡ option_map (spec.sent session consumer) (find (is_at place) (all_rows lanes.old)) }
    ensures rows { EachBecomes (map (sent_at place session consumer)) lanes.old lanes.new }
{
    let spot = spot_of(lanes, place)?;
    let lane = &mut lanes[spot.lane];
    Some(lane.send_at(&spot, session, consumer))
}

/// Removes the row at that place, where there is one.
pub(crate) fn remove_at(lanes: &mut [Lane], place: u64) -> Option<Row>
    requires { IsApart (all_rows lanes.old) }
    ensures result { result ≡ find (is_at place) (all_rows lanes.old) }
    ensures rows { EachBecomes (filter (is_elsewhere place)) lanes.old lanes.new }
{
    let spot = spot_of(lanes, place)?;
    let lane = &mut lanes[spot.lane];
    lane.remove_at(&spot);
    Some(spot.row)
}

/// Removes the rows that are among those. Returns how many rows are left.
pub(crate) fn settle(lanes: &mut [Lane], table: &mut Table, outs: &Outs) -> usize
    requires covered { Covers table.old (all_rows lanes.old) }
    requires few { length (all_rows lanes.old) < 2 ^ 64 }
    ensures left { result ≡ length (all_rows lanes.new) }
    ensures rows { EachBecomes (filter (keeps outs.now)) lanes.old lanes.new }
    ensures table { Follows table.old table.new (all_rows lanes.old) (all_rows lanes.new) }
{
    let mut left = 0;
    for lane in lanes.iter_mut() {
        lane.settle(table, outs);
        left += lane.len();
    }
    left
}

/// Makes the rows wait again that are among those.
pub(crate) fn give_back(lanes: &mut [Lane], outs: &Outs)
    ensures { EachBecomes (map (back (is_among outs.now))) lanes.old lanes.new }
{
    for lane in lanes.iter_mut() {
        lane.give_back(outs);
    }
}

/// Removes all rows.
pub(crate) fn clear(lanes: &mut [Lane], table: &mut Table)
    requires { Covers table.old (all_rows lanes.old) }
    ensures rows { EachBecomes (filter (λ r. false)) lanes.old lanes.new }
    ensures gone { all_rows lanes.new ≡ [] }
    ensures table { Follows table.old table.new (all_rows lanes.old) (all_rows lanes.new) }
{
    for lane in lanes.iter_mut() {
        lane.clear(table);
    }
}
