//! The rows of one priority, by place.

ghost use Rattle.std.specs.Prelude.{◌≡◌, ◌+◌, ◌<◌, ◌≤◌, [], ◌∷◌, ◌++◌, length, All, find, filter, map, take, true, false, IfSome, OnOk, slice_get};
ghost use Rattle.jm_lane.specs.declared.row.Row.{Row};
ghost use Rattle.jm_lane.specs.declared.spot.Spot.{Spot};
ghost use Rattle.jm_lane.specs.Rows.{IsRising, are_home, back, is_among, is_elsewhere, is_waiting, keeps, sent_at, stays};
ghost use Rattle.jm_lane.specs.Rows as spec;
ghost use Rattle.jm_lane.specs.Chosen.{StandsIn, goes_before, is_better, is_ready_before, row_of};
ghost use Rattle.jm_selector.specs.Selectors.{matches};
ghost use Rattle.jm_dest.specs.Numbers.{long_end};
ghost use Rattle.jm_lane.specs.Lanes.{IsCopied, IsPlaceFrom, IsSoonestOf, IsSteady, is_at, is_below};
ghost use Rattle.jm_lane.specs.Holders.{Covers, Follows};
ghost use Rattle.jm_machine.specs.Machine.{are_meant};
ghost use Rattle.jm_lane.specs.Cursors.{improves, lapsed_from, out_from};

use crate::cursors;
use crate::row::{Outs, Row};
use crate::spot::Spot;
use crate::table::Table;
use crate::walks::{self, Bounds};
use jm_dest::{ConsumerId, Moment, SessionId};
use jm_machine::Consumers;
use jm_selector::Selector;
use std::alloc::{AllocError, Global};
use std::collections::VecDeque;
use std::marker::Model;

/// The rows of one priority, by place. Rows stay where they stand, with their states, so that giving
/// them back moves nothing. Four bounds spare walks: none of the first `low` rows waits, none from `high`
/// on is out, and none that waits expires before `least`, or is due before `due`. Where the lane is steady, its
/// rows expire in turn; where it is marked so, they are due in turn.
pub struct Lane {
    rows: VecDeque<Row>,
    priority: u8,
    low: usize,
    high: usize,
    least: u64,
    steady: bool,
    due: u64,
    in_turn: bool,
}

impl Drop for Lane {
    fn drop(self) {
        let Lane {
            rows: _rows,
            priority: _,
            low: _,
            high: _,
            least: _,
            steady: _,
            due: _,
            in_turn: _,
        } = self;
    }
}

impl Model for Lane {
    ghost use Rattle.std.specs.Prelude.{◌-◌};
    ghost use Rattle.std.specs.VecDeque.{deque_len, deque_capacity};
    ghost use Rattle.jm_lane.specs.Lanes.{Lane as LaneShown, IsSteadyLane};

    ghost Value = { LaneShown };

    ghost view = { λ a. record { priority = a.priority; rows = a.rows.items; spare = deque_capacity a.rows - deque_len a.rows } };

    ghost invariant = { λ a. IsSteadyLane a.rows.items a.priority a.low a.high a.least a.steady a.due a.in_turn };
}

impl Clone for Lane {
    ghost is_clone = { λ a b. IsCopied a b };

    // The same rows; the room may differ. `AllocError` where a request for memory was refused.
    fn clone(&self) -> Result<Lane, AllocError> {
        Ok(Lane {
            rows: self.rows.clone()?,
            priority: self.priority,
            low: self.low,
            high: self.high,
            least: self.least,
            steady: self.steady,
            due: self.due,
            in_turn: self.in_turn,
        })
    }
}

impl Lane {
    /// A lane of that priority, from 0 to 9, without rows. Takes no memory.
    pub fn new(alloc: Global, priority: u8) -> Lane
        ensures priority { result.priority ≡ priority }
        ensures rows { result.rows ≡ [] }
    {
        Lane {
            rows: VecDeque::new(alloc),
            priority,
            low: 0,
            high: 0,
            least: u64::MAX,
            steady: true,
            due: u64::MAX,
            in_turn: true,
        }
    }

    /// How many rows there are.
    pub fn len(&self) -> usize
        ensures { result ≡ length self.now.rows }
    {
        self.rows.len()
    }

    /// The row that so many stand before, where there is one.
    pub fn get(&self, index: usize) -> Option<Row>
        ensures row { result ≡ slice_get self.now.rows index }
        ensures rising { IsRising self.now.rows }
    {
        self.rows.get(index).copied()
    }

    /// How many rows are of lower places.
    pub fn below(&self, place: u64) -> usize
        ensures { result ≡ length (filter (is_below place) self.now.rows) }
    {
        self.rows.partition_point(|row| row.place < place)
    }

    /// The row at that place, where there is one, looked for by halves.
    #[tactic(auto, using(crate::proofs::Ranks::found_at))]
    pub fn at(&self, place: u64) -> Option<Row>
        ensures { result ≡ find (is_at place) self.now.rows }
    {
        let row = self.get(self.below(place))?;
        if row.place == place {
            Some(Row { ..row })
        } else {
            None
        }
    }

    /// The least place of the rows from that place on, or 2^63 where there is none.
    pub fn place_from(&self, place: u64) -> u64
        requires { place ≤ long_end }
        ensures { IsPlaceFrom place result self.now.rows }
    {
        match self.get(self.below(place)) {
            Some(row) => row.place,
            None => 1 << 63,
        }
    }

    /// Where the first row from that place on stands that has lapsed at that moment and is of a lower place than the best
    /// so far, where that is there; or how many rows there are. Where no row expires by then, none is looked at.
    pub fn first_lapsed(&self, place: u64, now: Moment, best: &Option<Row>) -> usize
        ensures { slice_get self.now.rows result ≡ find (improves best.now (lapsed_from place now)) self.now.rows }
    {
        if now.get() < self.least {
            return self.rows.len();
        }
        let from = self.low.max(self.below(place));
        cursors::first_lapsed(&self.rows, from, now, self.steady, best)
    }

    /// Where the first row from that place on stands that is out through one of those consumers and is of a lower place
    /// than the best so far, where that is there; or how many rows there are. Rows behind the last that is out are not
    /// looked at.
    pub fn first_out(&self, place: u64, which: &Consumers, best: &Option<Row>) -> usize
        ensures { slice_get self.now.rows result ≡ find (improves best.now (out_from place (are_meant which.now))) self.now.rows }
    {
        cursors::first_out(&self.rows, self.below(place), self.high, which, best)
    }

    /// Makes room for that many more rows. A lane without rows, as most are, takes no more than that. `AllocError` where a
    /// request for memory was refused; the rows are as before.
    pub fn reserve(&mut self, additional: usize) -> Result<(), AllocError>
        ensures ok { OnOk result (additional ≤ self.new.spare) }
        ensures same { (self.new.priority ≡ self.old.priority) × (self.new.rows ≡ self.old.rows) }
        ensures room { self.old.spare ≤ self.new.spare }
    {
        if self.rows.is_empty() {
            self.rows.reserve_exact(additional)
        } else {
            self.rows.reserve(additional)
        }
    }

    /// Adds a row behind all others. Takes no memory, since room was reserved.
    pub fn push(&mut self, row: Row)
        requires room { 0 < self.old.spare }
        requires priority { row.priority ≡ self.old.priority }
        requires above { All (λ (r : Row). r.place < row.place) self.old.rows }
        ensures priority { self.new.priority ≡ self.old.priority }
        ensures rows { self.new.rows ≡ self.old.rows ++ row ∷ [] }
        ensures room { self.old.spare ≡ self.new.spare + 1 }
    {
        self.least = row.earlier(self.least);
        self.steady = walks::is_steady_with(&self.rows, &row, self.steady);
        self.due = row.due_earlier(self.due);
        self.in_turn = walks::are_in_turn_with(&self.rows, &row, self.in_turn);
        self.rows.push_back_reserved(Row { ..row });
        if !row.is_waiting() {
            self.high = self.rows.len();
        }
    }

    /// Whether its rows still expire in turn with that one more.
    pub fn takes(&self, row: &Row) -> bool
        ensures { result ≡ true → IsSteady (self.now.rows ++ row.now ∷ []) }
    {
        walks::is_steady_with(&self.rows, row, self.steady)
    }

    /// Whether a row of it is delayed, as far as its last row says.
    pub fn is_delaying(&self) -> bool
        ensures { result ≡ true → 0 < length self.now.rows }
    {
        match self.rows.back() {
            Some(last) => !self.in_turn || last.is_delayed(),
            None => false,
        }
    }

    /// How many rows stand before the first that waits.
    pub fn first_waiting(&self) -> usize
        ensures within { result ≤ length self.now.rows }
        ensures before { All (λ r. is_waiting r ≡ false) (take result self.now.rows) }
    {
        walks::first_waiting(&self.rows, self.low)
    }

    /// Whether no row of it goes before the best so far, as is known without a look at its rows: it has none, or that
    /// is there and of a higher priority.
    pub fn is_behind(&self, best: &Option<Spot>) -> bool
        ensures { result ≡ true → All (λ r. goes_before (row_of best.now) r ≡ false) self.now.rows }
    {
        match best {
            Some(best) => self.rows.is_empty() || self.priority < best.row.priority,
            None => self.rows.is_empty(),
        }
    }

    /// Where the first row stands that is ready and that goes before the best so far, where that is there; or how many
    /// rows there are. None of the first `low` rows waits. Where all are known to be held back, none is looked at.
    pub fn first_ready(&self, low: usize, now: Moment, best: &Option<Spot>) -> usize
        requires in_range { low ≤ length self.now.rows }
        requires before { All (λ r. is_waiting r ≡ false) (take low self.now.rows) }
        ensures from { low ≤ result }
        ensures soonest { IsSoonestOf (is_ready_before (row_of best.now) now) self.now.rows (slice_get self.now.rows result) }
    {
        if now.get() < self.due {
            return self.rows.len();
        }
        walks::first_ready(&self.rows, low, now, self.in_turn, best)
    }

    /// Where the first row stands that is ready, whose message the selector selects, and that goes before the best so
    /// far, where that is there; or how many rows there are. None of the first `low` rows waits. Where all are known to be
    /// held back, none is looked at.
    pub fn first_choice(
        &self,
        low: usize,
        table: &Table,
        now: Moment,
        selector: &Selector,
        best: &Option<Spot>,
    ) -> usize
        requires in_range { low ≤ length self.now.rows }
        requires before { All (λ r. is_waiting r ≡ false) (take low self.now.rows) }
        ensures from { low ≤ result }
        ensures soonest { IsSoonestOf (is_better (row_of best.now) (matches selector.now) table.now now) self.now.rows (slice_get self.now.rows result) }
    {
        if now.get() < self.due {
            return self.rows.len();
        }
        walks::first_choice(&self.rows, low, table, now, self.in_turn, selector, best)
    }

    /// Whether no row is out.
    pub fn is_home(&self) -> bool
        ensures { result ≡ are_home self.now.rows }
    {
        walks::are_home(&self.rows, self.high)
    }

    /// Drops the waiting rows that are expired, which let their messages go. Takes no memory.
    pub fn drop_expired(&mut self, table: &mut Table, now: Moment)
        requires { Covers table.old self.old.rows }
        ensures priority { self.new.priority ≡ self.old.priority }
        ensures rows { self.new.rows ≡ filter (stays now) self.old.rows }
        ensures table { Follows table.old table.new self.old.rows self.new.rows }
        ensures room { self.old.spare ≤ self.new.spare }
    {
        if now.get() < self.least {
            return;
        }
        if self.steady {
            self.low = walks::drop_front(&mut self.rows, table, self.low, now);
            self.high = self.high.min(self.rows.len());
            return;
        }
        walks::drop_each(&mut self.rows, table, now);
        self.low = 0;
        self.high = self.high.min(self.rows.len());
        self.least = walks::bound_of(&self.rows);
    }

    /// Looks anew when the rows that wait are due, where some may be that are not due in turn, and none is ready.
    pub fn look_ahead(&mut self, now: Moment)
        ensures { self.new ≡ self.old }
    {
        if self.in_turn || now.get() < self.due {
            return;
        }
        if walks::first_ready(&self.rows, self.low, now, false, &None) == self.rows.len() {
            self.due = walks::due_of(&self.rows);
        }
    }

    /// Where the row at that place stands, where there is one, in this lane, whose index is `lane`. It is looked for by halves.
    /// None of the first `low` rows waits.
    fn spot_by_halves(&self, lane: usize, low: usize, place: u64) -> Option<Spot>
        requires { All (λ r. is_waiting r ≡ false) (take low self.now.rows) }
        ensures row { row_of result ≡ find (is_at place) self.now.rows }
        ensures spot { IfSome result (λ (s : Spot). (s.lane ≡ lane) × (s.row.place ≡ place) × StandsIn self.now.rows s) }
    {
        let index = self.below(place);
        let row = self.get(index)?;
        if row.place != place {
            return None;
        }
        Some(Spot {
            lane,
            low: low.min(index),
            index,
            row,
        })
    }

    /// Where the row at that place stands, where there is one, in this lane, whose index is `lane`. The first row that waits is
    /// looked at first.
    pub fn spot_of(&self, lane: usize, place: u64) -> Option<Spot>
        ensures row { row_of result ≡ find (is_at place) self.now.rows }
        ensures spot { IfSome result (λ (s : Spot). (s.lane ≡ lane) × (s.row.place ≡ place) × StandsIn self.now.rows s) }
    {
        let low = self.first_waiting();
        match self.get(low) {
            Some(row) if row.place == place => Some(Spot {
                lane,
                low,
                index: low,
                row,
            }),
            _ => self.spot_by_halves(lane, low, place),
        }
    }

    /// Sends the row that stands there out to the session through its consumer, and returns it as it is then.
    pub fn send_at(&mut self, spot: &Spot, session: SessionId, consumer: ConsumerId) -> Row
        requires { StandsIn self.old.rows spot.now }
        ensures priority { self.new.priority ≡ self.old.priority }
        ensures result { result ≡ spec.sent session consumer spot.now.row }
        ensures rows { self.new.rows ≡ map (sent_at spot.now.row.place session consumer) self.old.rows }
        ensures room { self.old.spare ≡ self.new.spare }
    {
        let row = spot.row.sent(session, consumer);
        self.rows[spot.index] = Row { ..row };
        self.low = spot.low_after();
        self.high = self.high.max(spot.index + 1);
        row
    }

    /// Removes the row that stands there. Its message keeps its holder.
    pub fn remove_at(&mut self, spot: &Spot)
        requires { StandsIn self.old.rows spot.now }
        ensures priority { self.new.priority ≡ self.old.priority }
        ensures rows { self.new.rows ≡ filter (is_elsewhere spot.now.row.place) self.old.rows }
        ensures room { self.old.spare ≤ self.new.spare }
    {
        walks::remove(&mut self.rows, spot.index);
        self.low = spot.low;
        self.high = self.high.min(self.rows.len());
    }

    /// Removes the rows that are among those, which let their messages go. Takes no memory.
    pub fn settle(&mut self, table: &mut Table, outs: &Outs)
        requires { Covers table.old self.old.rows }
        ensures priority { self.new.priority ≡ self.old.priority }
        ensures rows { self.new.rows ≡ filter (keeps outs.now) self.old.rows }
        ensures table { Follows table.old table.new self.old.rows self.new.rows }
        ensures room { self.old.spare ≤ self.new.spare }
    {
        self.high = walks::settle_front(&mut self.rows, table, self.high, outs);
        self.low = 0;
    }

    /// Makes the rows wait again that are among those, at their places and with their counts.
    pub fn give_back(&mut self, outs: &Outs)
        ensures priority { self.new.priority ≡ self.old.priority }
        ensures rows { self.new.rows ≡ map (back (is_among outs.now)) self.old.rows }
        ensures room { self.old.spare ≡ self.new.spare }
    {
        let bounds = Bounds {
            least: self.least,
            due: self.due,
        };
        let bounds = walks::give_back_front(&mut self.rows, self.high, outs, bounds);
        self.least = bounds.least;
        self.due = bounds.due;
        self.low = 0;
    }

    /// Removes all rows, which let their messages go. Takes no memory.
    pub fn clear(&mut self, table: &mut Table)
        requires { Covers table.old self.old.rows }
        ensures priority { self.new.priority ≡ self.old.priority }
        ensures rows { self.new.rows ≡ filter (λ r. false) self.old.rows }
        ensures table { Follows table.old table.new self.old.rows self.new.rows }
        ensures room { self.old.spare ≤ self.new.spare }
    {
        walks::clear(&mut self.rows, table);
        self.low = 0;
        self.high = 0;
        self.least = u64::MAX;
        self.steady = true;
        self.due = u64::MAX;
        self.in_turn = true;
    }
}
