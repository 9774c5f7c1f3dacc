//! Walks over the rows of one lane.

ghost use Rattle.std.specs.Prelude.{◌≡◌, ℕ, ◌<◌, ◌≤◌, [], ◌∷◌, ◌++◌, length, All, filter, map, drop, take, true, false, slice_index_or};
ghost use Rattle.std.specs.List.{remove};
ghost use Rattle.std.specs.VecDeque.{deque_len, deque_capacity};
ghost use Rattle.jm_lane.specs.declared.row.Row.{Row};
ghost use Rattle.jm_lane.specs.Rows.{IsRising, are_home, back, is_among, is_waiting, keeps, stays};
ghost use Rattle.jm_lane.specs.Chosen.{is_better, is_ready_before, row_of};
ghost use Rattle.jm_selector.specs.Selectors.{matches};
ghost use Rattle.jm_lane.specs.Lanes.{AreDueInTurn, IsBound, IsDueBound, IsSteady};
ghost use Rattle.jm_lane.specs.Holders.{Covers, Follows};

use crate::row::{Outs, Row};
use crate::spot::{self, Spot};
use crate::table::Table;
use jm_dest::Moment;
use jm_selector::Selector;
use std::collections::VecDeque;

/// Whether the rows still expire in turn with one more.
pub(crate) fn is_steady_with(rows: &VecDeque<Row>, row: &Row, steady: bool) -> bool
    requires { steady ≡ true → IsSteady rows.now.items }
    ensures { result ≡ true → IsSteady (rows.now.items ++ row.now ∷ []) }
{
    match rows.back() {
        Some(last) => steady && row.expires_after(last),
        None => true,
    }
}

/// Whether the rows are still due in turn with one more.
pub(crate) fn are_in_turn_with(rows: &VecDeque<Row>, row: &Row, in_turn: bool) -> bool
    requires { in_turn ≡ true → AreDueInTurn rows.now.items }
    ensures { result ≡ true → AreDueInTurn (rows.now.items ++ row.now ∷ []) }
{
    match rows.back() {
        Some(last) => in_turn && row.is_due_after(last),
        None => true,
    }
}

/// A bound on when the rows are due that wait.
pub(crate) fn due_of(rows: &VecDeque<Row>) -> u64
    ensures { All (IsDueBound result) rows.now.items }
{
    let mut due = u64::MAX;
    for i in 0..rows.len() {
        due = rows[i].due_earlier(due);
    }
    due
}

/// A bound on when the rows expire that wait.
pub(crate) fn bound_of(rows: &VecDeque<Row>) -> u64
    ensures { All (IsBound result) rows.now.items }
{
    let mut least = u64::MAX;
    for i in 0..rows.len() {
        least = rows[i].earlier(least);
    }
    least
}

/// Where the first row that waits stands; none of the first `low` does.
pub(crate) fn first_waiting(rows: &VecDeque<Row>, low: usize) -> usize
    requires in_range { low ≤ length rows.now.items }
    requires before { All (λ r. is_waiting r ≡ false) (take low rows.now.items) }
    ensures within { result ≤ length rows.now.items }
    ensures before { All (λ r. is_waiting r ≡ false) (take result rows.now.items) }
    ensures found { (d : Row) → result < length rows.now.items →
        is_waiting (slice_index_or rows.now.items result d) ≡ true }
{
    for i in low..rows.len() {
        if rows[i].is_waiting() {
            return i;
        }
    }
    rows.len()
}

/// Where the first row stands that is ready and that goes before the best so far, where that is there; or how many rows
/// there are. None of the first `low` rows waits. The rows, which are of one priority, stand by place, so that the walk
/// ends at the first that does not go before the best; and where they are due in turn, at the first that is held back.
pub(crate) fn first_ready(
    rows: &VecDeque<Row>,
    low: usize,
    now: Moment,
    in_turn: bool,
    best: &Option<Spot>,
) -> usize
    requires in_range { low ≤ length rows.now.items }
    requires before { All (λ r. is_waiting r ≡ false) (take low rows.now.items) }
    requires same { (priority : ℕ) × All (λ (r : Row). r.priority ≡ priority) rows.now.items }
    requires rising { IsRising rows.now.items }
    requires turn { in_turn ≡ true → AreDueInTurn rows.now.items }
    ensures from { low ≤ result }
    ensures within { result ≤ length rows.now.items }
    ensures before { All (λ r. is_ready_before (row_of best.now) now r ≡ false) (take result rows.now.items) }
    ensures found { (d : Row) → result < length rows.now.items →
        is_ready_before (row_of best.now) now (slice_index_or rows.now.items result d) ≡ true }
{
    for i in low..rows.len() {
        let row = &rows[i];
        if !spot::goes_before(row, best) {
            return rows.len();
        }
        if row.holds_back_rest(now, in_turn) {
            return rows.len();
        }
        if row.is_ready(now) {
            return i;
        }
    }
    rows.len()
}

/// Whether each of the first `high` rows waits; no other row is out.
pub(crate) fn are_home(rows: &VecDeque<Row>, high: usize) -> bool
    requires in_range { high ≤ length rows.now.items }
    requires behind { All (λ r. is_waiting r ≡ true) (drop high rows.now.items) }
    ensures { result ≡ are_home rows.now.items }
{
    for i in 0..high {
        if !rows[i].is_waiting() {
            return false;
        }
    }
    true
}

/// Where the first row stands that is ready, whose message the selector selects, and that goes before the best so far,
/// where that is there; or how many rows there are. None of the first `low` rows waits. The rows, which are of one
/// priority, stand by place, so that the walk ends at the first that does not go before the best; and where they are due
/// in turn, at the first that is held back.
pub(crate) fn first_choice(
    rows: &VecDeque<Row>,
    low: usize,
    table: &Table,
    now: Moment,
    in_turn: bool,
    selector: &Selector,
    best: &Option<Spot>,
) -> usize
    requires in_range { low ≤ length rows.now.items }
    requires before { All (λ r. is_waiting r ≡ false) (take low rows.now.items) }
    requires same { (priority : ℕ) × All (λ (r : Row). r.priority ≡ priority) rows.now.items }
    requires rising { IsRising rows.now.items }
    requires turn { in_turn ≡ true → AreDueInTurn rows.now.items }
    ensures from { low ≤ result }
    ensures within { result ≤ length rows.now.items }
    ensures before { All (λ r. is_better (row_of best.now) (matches selector.now) table.now now r ≡ false) (take result rows.now.items) }
    ensures found { (d : Row) → result < length rows.now.items →
        is_better (row_of best.now) (matches selector.now) table.now now (slice_index_or rows.now.items result d) ≡ true }
{
    for i in low..rows.len() {
        let row = &rows[i];
        if !spot::goes_before(row, best) {
            return rows.len();
        }
        if row.holds_back_rest(now, in_turn) {
            return rows.len();
        }
        if row.is_choice(table, now, selector) {
            return i;
        }
    }
    rows.len()
}

/// Bounds on the rows of a lane that wait.
#[derive(Clone, Copy)]
pub(crate) struct Bounds {
    /// None of them expires before that moment.
    pub least: u64,
    /// None of them is due before that moment.
    pub due: u64,
}

/// Makes those of the first `high` rows wait again that are among `outs`; no other row is out. Returns
/// bounds on the rows that wait then.
pub(crate) fn give_back_front(
    rows: &mut VecDeque<Row>,
    high: usize,
    outs: &Outs,
    bounds: Bounds,
) -> Bounds
    requires in_range { high ≤ deque_len rows.old }
    requires behind { All (λ r. is_waiting r ≡ true) (drop high rows.old.items) }
    requires bound { All (IsBound bounds.least) rows.old.items }
    requires due { All (IsDueBound bounds.due) rows.old.items }
    ensures rows { rows.new.items ≡ map (back (is_among outs.now)) rows.old.items }
    ensures bound { All (IsBound result.least) rows.new.items }
    ensures due { All (IsDueBound result.due) rows.new.items }
    ensures room { (deque_capacity rows.new ≡ deque_capacity rows.old) × (deque_len rows.new ≡ deque_len rows.old) }
{
    let mut least = bounds.least;
    let mut due = bounds.due;
    for i in 0..high {
        rows[i] = rows[i].back(outs);
        least = rows[i].earlier(least);
        due = rows[i].due_earlier(due);
    }
    Bounds { least, due }
}

/// Each row leaves at the front, and comes again behind the others where it stays. Else it releases
/// its message.
pub(crate) fn drop_each(rows: &mut VecDeque<Row>, table: &mut Table, now: Moment)
    requires { Covers table.old rows.old.items }
    ensures rows { rows.new.items ≡ filter (stays now) rows.old.items }
    ensures table { Follows table.old table.new rows.old.items rows.new.items }
    ensures room { (deque_capacity rows.new ≡ deque_capacity rows.old) × (deque_len rows.new ≤ deque_len rows.old) }
{
    for _turn in 0..rows.len() {
        let row = rows[0];
        let _ = rows.pop_front();
        if row.stays(now) {
            rows.push_back_reserved(Row { ..row });
        } else {
            table.let_go(row.place);
        }
    }
}

/// Of rows that expire in turn, drops those that wait and are expired; none of the first `low` waits.
/// Stops at the first row that is not expired. Returns where it stands: all before it are out.
pub(crate) fn drop_front(
    rows: &mut VecDeque<Row>,
    table: &mut Table,
    low: usize,
    now: Moment,
) -> usize
    requires in_range { low ≤ deque_len rows.old }
    requires before { All (λ r. is_waiting r ≡ false) (take low rows.old.items) }
    requires steady { IsSteady rows.old.items }
    requires covered { Covers table.old rows.old.items }
    ensures rows { rows.new.items ≡ filter (stays now) rows.old.items }
    ensures table { Follows table.old table.new rows.old.items rows.new.items }
    ensures within { result ≤ length rows.new.items }
    ensures low { All (λ r. is_waiting r ≡ false) (take result rows.new.items) }
    ensures room { (deque_capacity rows.new ≡ deque_capacity rows.old) × (deque_len rows.new ≤ deque_len rows.old) }
{
    let mut at = low;
    for _turn in low..rows.len() {
        let row = rows[at];
        if !row.is_expired(now) {
            return at;
        }
        if row.is_waiting() {
            let _ = rows.remove(at);
            table.let_go(row.place);
        } else {
            at += 1;
        }
    }
    at
}

/// Removes the row that stands there; the first moves no other.
pub(crate) fn remove(rows: &mut VecDeque<Row>, at: usize)
    requires { at < length rows.old.items }
    ensures rows { rows.new.items ≡ remove rows.old.items at }
    ensures room { (deque_capacity rows.new ≡ deque_capacity rows.old) × (deque_len rows.new ≤ deque_len rows.old) }
{
    if at == 0 {
        let _ = rows.pop_front();
    } else {
        let _ = rows.remove(at);
    }
}

/// Removes those of the first `high` rows that are among `outs`; no other row is out. Returns how many
/// of the first are left.
pub(crate) fn settle_front(
    rows: &mut VecDeque<Row>,
    table: &mut Table,
    high: usize,
    outs: &Outs,
) -> usize
    requires in_range { high ≤ deque_len rows.old }
    requires behind { All (λ r. is_waiting r ≡ true) (drop high rows.old.items) }
    requires covered { Covers table.old rows.old.items }
    ensures rows { rows.new.items ≡ filter (keeps outs.now) rows.old.items }
    ensures table { Follows table.old table.new rows.old.items rows.new.items }
    ensures within { result ≤ length rows.new.items }
    ensures behind { All (λ r. is_waiting r ≡ true) (drop result rows.new.items) }
    ensures room { (deque_capacity rows.new ≡ deque_capacity rows.old) × (deque_len rows.new ≤ deque_len rows.old) }
{
    let mut at = 0;
    for _turn in 0..high {
        let row = rows[at];
        if row.is_among(outs) {
            let _ = rows.remove(at);
            table.let_go(row.place);
        } else {
            at += 1;
        }
    }
    at
}

/// All rows go.
pub(crate) fn clear(rows: &mut VecDeque<Row>, table: &mut Table)
    requires { Covers table.old rows.old.items }
    ensures rows { rows.new.items ≡ [] }
    ensures table { Follows table.old table.new rows.old.items rows.new.items }
    ensures room { (deque_capacity rows.new ≡ deque_capacity rows.old) × (deque_len rows.new ≤ deque_len rows.old) }
{
    for _turn in 0..rows.len() {
        let row = rows[0];
        let _ = rows.pop_front();
        table.let_go(row.place);
    }
}
