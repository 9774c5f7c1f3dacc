//! The rows of one subscription.

ghost use Rattle.std.specs.Prelude.{◌≡◌, ◌+◌, ◌-◌, ◌^◌, ◌<◌, ◌≤◌, [], ◌∷◌, ◌++◌, length, slice_get, All, find, filter, map, option_map, not, true, false, IfSome, IfOk, OnOk};
ghost use Rattle.jm_dest.specs.Numbers.{long_end};
ghost use Rattle.jm_machine.specs.Machine.{are_meant, one_missed};
ghost use Rattle.jm_lane.specs.declared.row.Row.{Row};
ghost use Rattle.jm_lane.specs.Rows as spec;
ghost use Rattle.jm_pending.specs.Rows.{is_at_limit, next};
ghost use Rattle.jm_pending.specs.Chosen.{next_where};
ghost use Rattle.jm_selector.specs.Selectors.{matches};
ghost use Rattle.jm_lane.specs.Holders.{Covers, Follows, holders_of, last_message};
ghost use Rattle.jm_lane.specs.Lanes.{is_at};
ghost use Rattle.jm_lane.specs.Cursors as cursor;

use crate::receivers::Receivers;
use jm_dest::{ConsumerId, Moment, SessionId};
use jm_header::Message;
use jm_lane::{Outs, Row, Table};
use jm_lanes::UsedLanes;
use jm_machine::Consumers;
use jm_selector::Selector;
use std::alloc::{AllocError, Global};
use std::marker::Model;

/// A row that was delivered and settled at once, counted, with its message where no other row holds it.
#[derive(Drop)]
pub struct Taken {
    pub row: Row,
    pub message: Option<Message>,
}

/// The rows that a subscription holds (ours). Contracts see them as a list by place, with the limit of
/// their number, how many publications were missed at the limit, and for how many more rows there is room.
/// The lanes are made when room is first made for a row, and how many rows there are is kept, so that where there is
/// none, no lane is looked at, and else none but those that may have rows.
pub struct Held {
    lanes: UsedLanes,
    count: usize,
    receivers: Receivers,
    limit: Option<u32>,
    missed: u64,
    room: usize,
}

impl Drop for Held {
    fn drop(self) {
        let Held {
            lanes: _lanes,
            count: _,
            receivers: _,
            limit: _,
            missed: _,
            room: _,
        } = self;
    }
}

impl Model for Held {
    ghost use Rattle.std.specs.Prelude.{◌≡◌, length};
    ghost use Rattle.jm_lanes.specs.Lanes.{IsHeld, rows_of};
    ghost use Rattle.jm_pending.specs.Receivers.{AreKnown};
    ghost use Rattle.jm_pending.specs.Rows.{Held as HeldShown};

    ghost Value = { HeldShown };

    ghost view = { λ h. record { rows = rows_of h.lanes; limit = h.limit; missed = h.missed; room = h.room } };

    ghost invariant = { λ h. IsHeld h.lanes h.room × AreKnown h.receivers (rows_of h.lanes) × (h.count ≡ length (rows_of h.lanes)) };
}

impl Held {
    /// No rows, of which there may be at most so many, or any number. Takes no memory.
    pub fn new(alloc: Global, limit: Option<u32>) -> Held
        ensures { result ≡ record { rows = []; limit = limit; missed = 0; room = 0 } }
    {
        Held {
            lanes: UsedLanes::new(alloc),
            count: 0,
            receivers: Receivers::Nobody,
            limit,
            missed: 0,
            room: 0,
        }
    }

    /// The same rows, with the same limit and as many publications missed, and no room. `AllocError` where a request
    /// for memory was refused.
    pub fn copy(&self) -> Result<Held, AllocError>
        ensures { IfOk result (λ copy. copy ≡ record self.now { room = 0 }) }
    {
        Ok(Held {
            lanes: self.lanes.copy()?,
            count: self.count,
            receivers: self.receivers,
            limit: self.limit,
            missed: self.missed,
            room: 0,
        })
    }

    /// How many rows there are. No lane is looked at.
    pub fn len(&self) -> usize
        ensures len { result ≡ length self.now.rows }
        ensures rising { spec.IsRising self.now.rows }
    {
        self.count
    }

    /// Whether there is no row. No lane is looked at.
    fn is_empty(&self) -> bool
        ensures { result ≡ true → self.now.rows ≡ [] }
    {
        self.count == 0
    }

    /// How many publications were missed at the limit; at 18,446,744,073,709,551,615 it stays.
    pub fn missed(&self) -> u64
        ensures { result ≡ self.now.missed }
    {
        self.missed
    }

    /// The row that so many stand before by place, where there is one.
    pub fn row_at(&self, index: usize) -> Option<Row>
        ensures { result ≡ slice_get self.now.rows index }
    {
        if index < self.count {
            self.lanes.row_at(index)
        } else {
            None
        }
    }

    /// The first row by place of those from that place on. All rows are met in turn from 0 on, each looked for from the
    /// place after the one before.
    pub fn row_from(&self, place: u64) -> Option<Row>
        requires { place ≤ long_end }
        ensures row { result ≡ find (spec.is_from place) self.now.rows }
        ensures place { IfSome result (λ r. r.place < long_end) }
        ensures rising { spec.IsRising self.now.rows }
    {
        if self.is_empty() {
            return None;
        }
        self.lanes.row_from(place)
    }

    /// The row at that place, where there is one. Looks for it by halves in each lane that may have rows.
    #[tactic(auto, using(jm_lanes::proofs::Ranks::at_sorted))]
    pub fn row_of(&self, place: u64) -> Option<Row>
        ensures { result ≡ find (is_at place) self.now.rows }
    {
        if self.is_empty() {
            return None;
        }
        self.lanes.row_of(place)
    }

    /// The first row by place, from that place on, that waits and is expired at that moment. All such rows are met in turn
    /// from 0 on, each looked for from the place after the one before. Takes no memory. A lane of which no row expires by
    /// then costs nothing; in any other the place is found by halves, and of rows that expire in turn those are looked at
    /// that are out and expired, up to the first that waits. Where rows do not expire in turn, those of the lane are
    /// looked at from the place on, up to the row that is given, or to the first such row of that lane.
    pub fn lapsed_from(&self, place: u64, now: Moment) -> Option<Row>
        ensures row { result ≡ find (cursor.lapsed_from place now) self.now.rows }
        ensures place { IfSome result (λ r. r.place < long_end) }
        ensures rising { spec.IsRising self.now.rows }
    {
        if self.is_empty() {
            return None;
        }
        self.lanes.lapsed_from(place, now)
    }

    /// The first row by place, from that place on, that is out through one of those consumers. All such rows are met in turn
    /// from 0 on, each looked for from the place after the one before. Takes no memory. Where it is known that no row is
    /// out through them, no row is looked at; else the place is found by halves in each lane, and rows are looked at from
    /// there on, up to the first such row of the lane, and never behind the last that is out.
    pub fn out_from(&self, place: u64, which: &Consumers) -> Option<Row>
        ensures row { result ≡ find (cursor.out_from place (are_meant which.now)) self.now.rows }
        ensures place { IfSome result (λ r. r.place < long_end) }
        ensures rising { spec.IsRising self.now.rows }
    {
        if self.is_empty() {
            return None;
        }
        if self.receivers.include(which) {
            self.lanes.out_from(place, which)
        } else {
            None
        }
    }

    /// Whether one more publication would be missed.
    pub fn is_at_limit(&self) -> bool
        ensures { result ≡ is_at_limit self.now.limit (length self.now.rows) }
    {
        match self.limit {
            Some(limit) => limit as usize <= self.count,
            None => false,
        }
    }

    /// Whether no row is out. Where there is none, or it is known that none is out, no lane is looked at. Takes no memory.
    pub fn is_home(&self) -> bool
        ensures { result ≡ spec.are_home self.now.rows }
    {
        if self.is_empty() {
            return true;
        }
        self.receivers.is_nobody() || self.lanes.are_home()
    }

    /// Makes room for that many more rows, and the lanes, where they are not there. `AllocError` where a request for
    /// memory was refused. Either way the rows are as before. Where there is room for so many, no lane is looked at, and
    /// where the empty lanes are known to have it, none but those that may have rows.
    pub fn reserve(&mut self, additional: usize) -> Result<(), AllocError>
        ensures ok { OnOk result (additional ≤ self.new.room) }
        ensures same { self.new ≡ record self.old { room = self.new.room } }
        ensures kept { self.old.room ≤ self.new.room }
    {
        if additional <= self.room {
            return Ok(());
        }
        self.lanes.make()?;
        self.lanes.reserve(additional)?;
        self.room = additional;
        Ok(())
    }

    /// Adds a row behind all others, which holds its message in the table. At the limit it is missed
    /// instead. Takes no memory, since room was reserved.
    #[tactic(auto, using(crate::proofs::Shown::missed_more))]
    pub fn add(&mut self, table: &mut Table, row: Row)
        requires room { 0 < self.old.room }
        requires place { row.place < long_end }
        requires priority { row.priority < 10 }
        requires above { All (λ (r : Row). r.place < row.place) self.old.rows }
        requires there { 0 < holders_of table.old row.place }
        requires fits { holders_of table.old row.place < 2 ^ 64 - 1 }
        ensures missed { is_at_limit self.old.limit (length self.old.rows) ≡ true →
            self.new ≡ record self.old { missed = one_missed self.old.missed } }
        ensures added { is_at_limit self.old.limit (length self.old.rows) ≡ false →
            self.new ≡ record self.old { rows = self.old.rows ++ row ∷ []; room = self.old.room - 1 } }
        ensures table { Follows table.old table.new self.old.rows self.new.rows }
    {
        if self.is_at_limit() {
            self.missed = self.missed.saturating_add(1);
            return;
        }
        table.hold(row.place);
        self.receivers = self.receivers.with(row.state);
        self.lanes.push(row, self.count);
        self.count += 1;
        self.room -= 1;
    }

    /// The row that a delivery at that moment would take: of those that wait, and are not expired and not held back, the
    /// one of highest priority, then of least place.
    #[tactic(auto, using(crate::proofs::Soonest::next_soonest))]
    pub fn next(&self, now: Moment) -> Option<Row>
        ensures next { result ≡ next now self.now.rows }
        ensures rising { spec.IsRising self.now.rows }
    {
        if self.is_empty() {
            return None;
        }
        self.lanes.next(now)
    }

    /// The row that a delivery at that moment would take of those whose messages the selector selects: of those that wait,
    /// and are not expired and not held back, the one of highest priority, then of least place. A row of which the table has no message is
    /// not selected. Looks at the rows that wait, from the first on, up to that row, and at none of lower priority.
    #[tactic(auto, using(crate::proofs::Soonest::next_choice))]
    pub fn next_where(&self, table: &Table, now: Moment, selector: &Selector) -> Option<Row>
        ensures next { result ≡ next_where (matches selector.now) table.now now self.now.rows }
        ensures rising { spec.IsRising self.now.rows }
    {
        if self.is_empty() {
            return None;
        }
        self.lanes.next_where(table, now, selector)
    }

    /// Drops the waiting rows that are expired at that moment, and delivers the row at that place, which goes out to the
    /// session through its consumer, and is returned as it is then. Where none of those that are left is there, none is
    /// delivered. Takes no memory.
    pub fn deliver_at(
        &mut self,
        table: &mut Table,
        now: Moment,
        place: u64,
        session: SessionId,
        consumer: ConsumerId,
    ) -> Option<Row>
        requires { Covers table.old self.old.rows }
        ensures result { result ≡ option_map (spec.sent session consumer) (find (is_at place) (filter (spec.stays now) self.old.rows)) }
        ensures rows { self.new ≡ record self.old { rows = map (spec.sent_at place session consumer) (filter (spec.stays now) self.old.rows) } }
        ensures table { Follows table.old table.new self.old.rows self.new.rows }
        ensures rising { spec.IsRising self.old.rows }
    {
        if self.is_empty() {
            return None;
        }
        self.count = self.lanes.drop_expired(table, now);
        self.receivers = self.receivers.with_one(&session, consumer);
        self.lanes.send_at(place, session, consumer)
    }

    /// Drops the waiting rows that are expired at that moment, and delivers the row at that place, which is settled at once.
    /// Its message is handed out where no other row holds it, and else stays in the table. Where none of those that are left
    /// is there, none is delivered. Takes no memory.
    pub fn receive_at(&mut self, table: &mut Table, now: Moment, place: u64) -> Option<Taken>
        requires { Covers table.old self.old.rows }
        ensures result { result ≡ option_map (λ r. record { row = spec.counted r; message = last_message table.old r.place })
            (find (is_at place) (filter (spec.stays now) self.old.rows)) }
        ensures rows { self.new ≡ record self.old { rows = filter (spec.is_elsewhere place) (filter (spec.stays now) self.old.rows) } }
        ensures table { Follows table.old table.new self.old.rows self.new.rows }
        ensures rising { spec.IsRising self.old.rows }
    {
        if self.is_empty() {
            return None;
        }
        self.count = self.lanes.drop_expired(table, now);
        let row = self.lanes.remove_at(place)?;
        self.count -= 1;
        let message = table.release(place);
        Some(Taken {
            row: row.counted(),
            message,
        })
    }

    /// Drops the waiting rows that are expired at that moment. Takes no memory.
    pub fn drop_expired(&mut self, table: &mut Table, now: Moment)
        requires { Covers table.old self.old.rows }
        ensures rows { self.new ≡ record self.old { rows = filter (spec.stays now) self.old.rows } }
        ensures table { Follows table.old table.new self.old.rows self.new.rows }
        ensures rising { spec.IsRising self.old.rows }
    {
        if !self.is_empty() {
            self.count = self.lanes.drop_expired(table, now);
        }
    }

    /// The rows that are out through one of those consumers go. Where it is known that none is, no row is looked at.
    /// Takes no memory.
    #[tactic(auto, using(crate::proofs::Shown::filter_shown))]
    pub fn settle(&mut self, table: &mut Table, which: &Consumers)
        requires { Covers table.old self.old.rows }
        ensures rows { self.new ≡ record self.old { rows = filter (λ r. not (spec.is_out (are_meant which.now) r)) self.old.rows } }
        ensures table { Follows table.old table.new self.old.rows self.new.rows }
    {
        if self.is_empty() {
            self.receivers = Receivers::Nobody;
            return;
        }
        if self.receivers.include(which) {
            self.count = self.lanes.settle(table, &Outs::Of(*which));
            self.receivers = self.receivers.without(which);
        }
    }

    /// The row at that place goes, where it is out through that consumer of the session. Takes no
    /// memory.
    #[tactic(auto, using(crate::proofs::Shown::filter_shown))]
    pub fn settle_one(
        &mut self,
        table: &mut Table,
        session: SessionId,
        consumer: ConsumerId,
        place: u64,
    )
        requires { Covers table.old self.old.rows }
        ensures rows { self.new ≡ record self.old {
          rows =
              filter (λ r. not (spec.is_out_through session consumer place r)) self.old.rows;
        } }
        ensures table { Follows table.old table.new self.old.rows self.new.rows }
    {
        if self.is_empty() {
            return;
        }
        self.count = self
            .lanes
            .settle(table, &Outs::Through(session, consumer, place));
    }

    /// The rows that are out through one of those consumers wait again, at their places and with their counts. Where
    /// it is known that none is, no row is looked at. Takes no memory.
    #[tactic(auto, using(crate::proofs::Shown::back_shown))]
    pub fn give_back(&mut self, which: &Consumers)
        ensures { self.new ≡ record self.old { rows = map (spec.back (spec.is_out (are_meant which.now))) self.old.rows } }
    {
        if self.is_empty() {
            self.receivers = Receivers::Nobody;
            return;
        }
        if self.receivers.include(which) {
            self.lanes.give_back(&Outs::Of(*which));
            self.receivers = self.receivers.without(which);
        }
    }

    /// The row at that place waits again, where it is out through that consumer of the session. Takes
    /// no memory.
    #[tactic(auto, using(crate::proofs::Shown::back_shown))]
    pub fn give_back_one(&mut self, session: SessionId, consumer: ConsumerId, place: u64)
        ensures { self.new ≡ record self.old {
          rows =
              map (spec.back (spec.is_out_through session consumer place)) self.old.rows;
        } }
    {
        if self.is_empty() {
            return;
        }
        self.lanes
            .give_back(&Outs::Through(session, consumer, place));
    }

    /// All rows go. Takes no memory.
    pub fn clear(&mut self, table: &mut Table)
        requires { Covers table.old self.old.rows }
        ensures rows { self.new ≡ record self.old { rows = [] } }
        ensures table { Follows table.old table.new self.old.rows self.new.rows }
    {
        if self.is_empty() {
            self.receivers = Receivers::Nobody;
            return;
        }
        self.lanes.clear(table);
        self.count = 0;
        self.receivers = Receivers::Nobody;
    }
}
