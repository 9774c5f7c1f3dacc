//! A list of rows over a table of its own, in which each row has its message.

ghost use Rattle.std.specs.Prelude.{◌≡◌};

use jm_base::Refusal;
use jm_dest::{ConsumerId, Moment, SessionId};
use jm_machine::{Consumers, RowState};
use jm_pending::{Held, Row, Table};
use jm_selector::Selector;
use std::alloc::Global;
use std::marker::Model;
use tests_messages::{Words, delayed, is_there};

/// What is seen of a row: its place, its count, and the number of the session that it is out to, or 0 where it waits.
pub(crate) type Seen = (u64, u32, u32);

#[derive(Drop)]
pub(crate) struct Rig {
    table: Table,
    held: Held,
}

impl Model for Rig {
    ghost use Rattle.jm_lane.specs.Holders.{Covers};
    ghost use Rattle.jm_pending.specs.Rows.{Held as HeldShown};

    ghost Value = { HeldShown };

    ghost view = { λ r. r.held };

    ghost invariant = { λ r. Covers r.table r.held.rows };
}

fn out_to(row: &Row) -> u32 {
    match row.state {
        RowState::Waiting => 0,
        RowState::Out(session, _) => session.number.get(),
    }
}

impl Rig {
    pub(crate) fn new(alloc: Global, limit: Option<u32>) -> Rig {
        Rig {
            table: Table::new(alloc),
            held: Held::new(alloc, limit),
        }
    }

    /// The rows as they are seen, each with its message in the table, are those, and it is told whether one is out.
    pub(crate) fn shows(&self, seen: &[Seen]) -> bool {
        if self.held.len() != seen.len() || self.table.len() != seen.len() {
            return false;
        }
        for (index, it) in seen.iter().enumerate() {
            if self.seen(index) != Some(*it) {
                return false;
            }
        }
        self.held.is_home() == seen.iter().all(|it| it.2 == 0)
    }

    fn seen(&self, index: usize) -> Option<Seen> {
        match self.held.row_at(index) {
            None => None,
            Some(row) => Some((row.place, row.count, out_to(&row))),
        }
    }

    pub(crate) fn missed(&self) -> u64 {
        self.held.missed()
    }

    /// Adds a row of those words, with that delivery delay, at a place that is above all others.
    pub(crate) fn add(
        &mut self,
        alloc: Global,
        place: u64,
        words: Words,
        delay: i64,
    ) -> Result<u64, Refusal> {
        if place > 100 || self.table.holders(place) != 0 || self.held.row_from(place).is_some() {
            return Err(Refusal::IllegalState);
        }
        self.table.reserve(1)?;
        self.held.reserve(1)?;
        let message = delayed(alloc, words, delay)?;
        let row = Row::new(place, &message);
        self.table.put(place, message);
        self.held.add(&mut self.table, row);
        let _ = is_there(self.table.release(place));
        Ok(0)
    }

    /// The place of the row, where it is one, once it is out through the consumer, or 0.
    fn deliver(
        &mut self,
        row: Option<Row>,
        now: Moment,
        to: SessionId,
        through: ConsumerId,
    ) -> u64 {
        let Some(row) = row else {
            self.held.drop_expired(&mut self.table, now);
            return 0;
        };
        let place = row.place;
        match self
            .held
            .deliver_at(&mut self.table, now, place, to, through)
        {
            Some(row) => row.place,
            None => 0,
        }
    }

    /// The place of the row, where it is one, once it is delivered and settled, or 0.
    fn receive(&mut self, row: Option<Row>, now: Moment) -> u64 {
        let Some(row) = row else {
            self.held.drop_expired(&mut self.table, now);
            return 0;
        };
        match self.held.receive_at(&mut self.table, now, row.place) {
            Some(taken) => taken.row.place,
            None => 0,
        }
    }

    /// The place of the next row, which goes out through the consumer, or 0.
    pub(crate) fn take(&mut self, now: Moment, to: SessionId, through: ConsumerId) -> u64 {
        let row = self.held.next(now);
        self.deliver(row, now, to, through)
    }

    /// The place of the next row, which is delivered and settled, or 0.
    pub(crate) fn take_settled(&mut self, now: Moment) -> u64 {
        let row = self.held.next(now);
        self.receive(row, now)
    }

    /// The place of the next row of those that the selector selects, or 0.
    pub(crate) fn next_where(&self, now: Moment, selector: &Selector) -> u64 {
        match self.held.next_where(&self.table, now, selector) {
            Some(row) => row.place,
            None => 0,
        }
    }

    /// The place of the next row of those that the selector selects, which goes out through the consumer, or 0.
    pub(crate) fn take_where(
        &mut self,
        now: Moment,
        selector: &Selector,
        to: SessionId,
        through: ConsumerId,
    ) -> u64 {
        let row = self.held.next_where(&self.table, now, selector);
        self.deliver(row, now, to, through)
    }

    /// The place of the next row of those that the selector selects, which is delivered and settled, or 0.
    pub(crate) fn take_settled_where(&mut self, now: Moment, selector: &Selector) -> u64 {
        let row = self.held.next_where(&self.table, now, selector);
        self.receive(row, now)
    }

    pub(crate) fn settle(&mut self, of: SessionId) {
        self.held.settle(&mut self.table, &Consumers::OfSession(of));
    }

    pub(crate) fn settle_one(&mut self, of: SessionId, through: ConsumerId, place: u64) {
        self.held.settle_one(&mut self.table, of, through, place);
    }

    pub(crate) fn give_back(&mut self, of: SessionId) {
        self.held.give_back(&Consumers::OfSession(of));
    }

    pub(crate) fn give_back_one(&mut self, of: SessionId, through: ConsumerId, place: u64) {
        self.held.give_back_one(of, through, place);
    }

    pub(crate) fn clear(&mut self) {
        self.held.clear(&mut self.table);
    }
}
