//! The lanes of one subscription, of which none is looked at but those of a span: the lanes from the first to the last
//! that got a row since there were none. Only a copy, and what makes lanes or more room than all have, goes over all.

ghost use Rattle.std.specs.Prelude.{◌≡◌, ℕ, ◌^◌, ◌<◌, ◌≤◌, List, [], length, All, IfOk, OnOk, find, filter, map, option_map, false, Option, slice_get, slice_index_or, slice_set};
ghost use Rattle.std.specs.List.{AllZip};
ghost use Rattle.jm_dest.specs.Numbers.{long_end};
ghost use Rattle.jm_machine.specs.Machine.{are_meant};
ghost use Rattle.jm_lane.specs.declared.row.Row.{Row};
ghost use Rattle.jm_lane.specs.Rows.{IsRising, back, is_among, is_elsewhere, is_ready, keeps, sent_at, stays};
ghost use Rattle.jm_lane.specs.Rows as spec;
ghost use Rattle.jm_lane.specs.Chosen.{is_choice};
ghost use Rattle.jm_lane.specs.Cursors as cursor;
ghost use Rattle.jm_selector.specs.Selectors.{matches};
ghost use Rattle.jm_lane.specs.Lanes.{IsCopied, IsSoonestOf, Lane, is_at};
ghost use Rattle.jm_lanes.specs.Lanes.{EachBecomes, IsApart, IsHeld, IsLaneOf, IsPushed, all_rows, rows_of};
ghost use Rattle.jm_lane.specs.Holders.{Covers, Follows};

use crate::span::Span;
use crate::{cursors, lanes};
use jm_dest::{ConsumerId, Moment, SessionId};
use jm_lane::{Lane, Outs, Row, Table};
use jm_machine::Consumers;
use jm_selector::Selector;
use std::alloc::{AllocError, Global};
use std::marker::Model;

/// The lanes, where they are made; the span of those that may have rows, where all others are empty; and for how many
/// rows each of these others has room at least.
pub struct UsedLanes {
    lanes: Vec<Lane>,
    span: Span,
    room: u32,
}

impl Drop for UsedLanes {
    fn drop(self) {
        let UsedLanes {
            lanes: _lanes,
            span: _,
            room: _,
        } = self;
    }
}

impl Model for UsedLanes {
    ghost use Rattle.std.specs.Prelude.{List};
    ghost use Rattle.jm_lane.specs.Lanes.{Lane as LaneShown};
    ghost use Rattle.jm_lanes.specs.Lanes.{IsWithin};

    ghost Value = { List LaneShown };

    ghost view = { λ a. a.lanes.items };

    ghost invariant = { λ a. IsWithin a.lanes.items a.span a.room };
}

impl UsedLanes {
    /// No lanes. Takes no memory.
    pub fn new(alloc: Global) -> UsedLanes
        ensures { result ≡ [] }
    {
        UsedLanes {
            lanes: Vec::new(alloc),
            span: Span::nothing(),
            room: 0,
        }
    }

    /// Lanes with the same rows; the room may differ. `AllocError` where a request for memory was refused.
    pub fn copy(&self) -> Result<UsedLanes, AllocError>
        ensures { IfOk result (λ copy. AllZip IsCopied self.now copy) }
    {
        Ok(UsedLanes {
            lanes: self.lanes.clone()?,
            span: self.span,
            room: 0,
        })
    }

    /// The lanes that may have rows.
    fn used(&self) -> &[Lane]
        ensures { all_rows result.now ≡ all_rows self.now }
    {
        &self.lanes[self.span.first()..self.span.end()]
    }

    /// The row that so many stand before by place.
    pub fn row_at(&self, index: usize) -> Option<Row>
        requires few { length (all_rows self.now) < 2 ^ 64 }
        requires some { index < length (all_rows self.now) }
        requires bounded { All (λ (r : Row). r.place < long_end) (all_rows self.now) }
        requires rising { IsRising (rows_of self.now) }
        ensures { result ≡ slice_get (rows_of self.now) index }
    {
        lanes::row_at(self.used(), index)
    }

    /// The first row by place of those from that place on.
    pub fn row_from(&self, place: u64) -> Option<Row>
        requires place { place ≤ long_end }
        requires bounded { All (λ (r : Row). r.place < long_end) (all_rows self.now) }
        requires rising { IsRising (rows_of self.now) }
        ensures { result ≡ find (spec.is_from place) (rows_of self.now) }
    {
        lanes::row_from(self.used(), place)
    }

    /// The row at that place.
    pub fn row_of(&self, place: u64) -> Option<Row>
        ensures { result ≡ find (is_at place) (all_rows self.now) }
    {
        lanes::at(self.used(), place)
    }

    /// The first row by place, from that place on, that has lapsed at that moment.
    pub fn lapsed_from(&self, place: u64, now: Moment) -> Option<Row>
        requires { IsRising (rows_of self.now) }
        ensures { result ≡ find (cursor.lapsed_from place now) (rows_of self.now) }
    {
        cursors::lapsed_from(self.used(), place, now)
    }

    /// The first row by place, from that place on, that is out through one of those consumers.
    pub fn out_from(&self, place: u64, which: &Consumers) -> Option<Row>
        requires { IsRising (rows_of self.now) }
        ensures { result ≡ find (cursor.out_from place (are_meant which.now)) (rows_of self.now) }
    {
        cursors::out_from(self.used(), place, which)
    }

    /// Whether no row is out.
    pub fn are_home(&self) -> bool
        ensures { result ≡ spec.are_home (all_rows self.now) }
    {
        lanes::are_home(self.used())
    }

    /// Makes the lanes, where they are not there. `AllocError` where a request for memory was refused: they are not there, as
    /// before.
    pub fn make(&mut self) -> Result<(), AllocError>
        ensures there { OnOk result (0 < length self.new) }
        ensures held { (room : ℕ) → IsHeld self.old room → IsHeld self.new room }
        ensures rows { rows_of self.new ≡ rows_of self.old }
    {
        lanes::make(&mut self.lanes)
    }

    /// Makes room for that many more rows in each lane. Where those outside the span have it, none of them is looked at.
    /// `AllocError` where a request for memory was refused; the rows are as before.
    pub fn reserve(&mut self, additional: usize) -> Result<(), AllocError>
        requires { 0 < length self.old }
        ensures same { EachBecomes (λ rows. rows) self.old self.new }
        ensures ok { OnOk result (All (λ l. additional ≤ l.spare) self.new) }
    {
        if additional <= self.room as usize {
            let used = &mut self.lanes[self.span.first()..self.span.end()];
            return lanes::reserve(used, additional);
        }
        lanes::reserve(&mut self.lanes, additional)?;
        self.room = additional.min(u32::MAX as usize) as u32;
        Ok(())
    }

    /// Adds a row to a lane of its priority, behind so many others. Where there is none, no lane but that one may have rows
    /// from then on. Takes no memory, since room was reserved.
    pub fn push(&mut self, row: Row, count: usize)
        requires count { count ≡ length (all_rows self.old) }
        requires number { length self.old ≡ 30 }
        requires priority { row.priority < 10 }
        requires priorities { (k : ℕ) (d : Lane) → k < length self.old → IsLaneOf k (slice_index_or self.old k d).priority }
        requires room { All (λ l. 0 < l.spare) self.old }
        requires above { All (λ (r : Row). r.place < row.place) (all_rows self.old) }
        ensures { (at : ℕ) × (after : Lane) × (at < length self.old) × (self.new ≡ slice_set self.old at after) ×
            IsPushed row (slice_index_or self.old at after) after }
    {
        let at = lanes::push(&mut self.lanes, row);
        let span = self.span.with(at as u8, count);
        self.room = self.span.room_outside(&span, self.room);
        self.span = span;
    }

    /// The row that goes first of those that are ready.
    pub fn next(&self, now: Moment) -> Option<Row>
        ensures { IsSoonestOf (is_ready now) (all_rows self.now) result }
    {
        lanes::next(self.used(), now)
    }

    /// The row that goes first of those that are ready and whose messages the selector selects.
    pub fn next_where(&self, table: &Table, now: Moment, selector: &Selector) -> Option<Row>
        ensures { IsSoonestOf (is_choice (matches selector.now) table.now now) (all_rows self.now) result }
    {
        lanes::next_where(self.used(), table, now, selector)
    }

    /// Drops the waiting rows that are expired, and looks anew when others are due. Returns how many rows are left.
    pub fn drop_expired(&mut self, table: &mut Table, now: Moment) -> usize
        requires covered { Covers table.old (all_rows self.old) }
        requires few { length (all_rows self.old) < 2 ^ 64 }
        ensures left { result ≡ length (all_rows self.new) }
        ensures rows { EachBecomes (filter (stays now)) self.old self.new }
        ensures table { Follows table.old table.new (all_rows self.old) (all_rows self.new) }
    {
        let used = &mut self.lanes[self.span.first()..self.span.end()];
        lanes::drop_expired(used, table, now)
    }

    /// Sends the row at that place, where there is one, and returns it as it is then. Looks for it by halves in each lane
    /// that may have rows, but first at the first row there that waits.
    pub fn send_at(&mut self, place: u64, session: SessionId, consumer: ConsumerId) -> Option<Row>
        requires { IsApart (all_rows self.old) }
        ensures result { result ≡ option_map (spec.sent session consumer) (find (is_at place) (all_rows self.old)) }
        ensures rows { EachBecomes (map (sent_at place session consumer)) self.old self.new }
    {
        let used = &mut self.lanes[self.span.first()..self.span.end()];
        lanes::send_at(used, place, session, consumer)
    }

    /// Removes the row at that place, where there is one, and returns it as it was. Looks for it as `send_at` does.
    pub fn remove_at(&mut self, place: u64) -> Option<Row>
        requires { IsApart (all_rows self.old) }
        ensures result { result ≡ find (is_at place) (all_rows self.old) }
        ensures rows { EachBecomes (filter (is_elsewhere place)) self.old self.new }
    {
        let used = &mut self.lanes[self.span.first()..self.span.end()];
        lanes::remove_at(used, place)
    }

    /// Removes the rows that are among those. Returns how many rows are left.
    pub fn settle(&mut self, table: &mut Table, outs: &Outs) -> usize
        requires covered { Covers table.old (all_rows self.old) }
        requires few { length (all_rows self.old) < 2 ^ 64 }
        ensures left { result ≡ length (all_rows self.new) }
        ensures rows { EachBecomes (filter (keeps outs.now)) self.old self.new }
        ensures table { Follows table.old table.new (all_rows self.old) (all_rows self.new) }
    {
        let used = &mut self.lanes[self.span.first()..self.span.end()];
        lanes::settle(used, table, outs)
    }

    /// Makes the rows wait again that are among those.
    pub fn give_back(&mut self, outs: &Outs)
        ensures { EachBecomes (map (back (is_among outs.now))) self.old self.new }
    {
        let used = &mut self.lanes[self.span.first()..self.span.end()];
        lanes::give_back(used, outs);
    }

    /// Removes all rows.
    pub fn clear(&mut self, table: &mut Table)
        requires { Covers table.old (all_rows self.old) }
        ensures rows { EachBecomes (filter (λ r. false)) self.old self.new }
        ensures gone { all_rows self.new ≡ [] }
        ensures table { Follows table.old table.new (all_rows self.old) (all_rows self.new) }
    {
        let used = &mut self.lanes[self.span.first()..self.span.end()];
        lanes::clear(used, table);
    }
}
