//! The rows that a step loses, and the messages that go with them.

ghost use Rattle.std.specs.Prelude.{◌≡◌, ◌<◌, ◌≤◌, ◌++◌, ◌∷◌, [], ◌&&◌, ◌||◌, ℕ, length, map, IfOk, OnOk};
ghost use Rattle.jm_dest.specs.Numbers.{long_end};
ghost use Rattle.jm_dest.specs.declared.key.Key as logic;
ghost use Rattle.jm_dest.specs.Keys.{key_eq};
ghost use Rattle.jm_machine.specs.Under.{placed_under};
ghost use Rattle.jm_keep.specs.declared.change.RowChange.TheVariants.{DropDelay, DropHeld, DropMessage};
ghost use Rattle.jm_keep.specs.Leads.{drops, is_one_of};
ghost use Rattle.jm_keep.specs.Persisted.{row_at};
ghost use Rattle.jm_keep.specs.Steps.{StandsInOrder, passes};
ghost use Rattle.jm_changes.specs.Standing.{AreMet, IsRead, IsWithin, delay_at, goes, key_in, meant};

use crate::going::{Going, is_left};
use crate::planned::{Planned, Standing, Which};
use jm_dest::Key;
use jm_keep::RowChange;
use std::alloc::{AllocError, Global};

/// Rows that go, each by its key and place, and the places of the messages that go with them: of those with a delay also
/// among the delays.
pub(crate) struct Lost {
    alloc: Global,
    pub(crate) rows: Vec<(Key, u64)>,
    pub(crate) delays: Vec<u64>,
    pub(crate) gone: Vec<u64>,
}

impl Drop for Lost {
    fn drop(self) {
        let Lost {
            alloc: _alloc,
            rows: _rows,
            delays: _delays,
            gone: _gone,
        } = self;
    }
}

/// Adds that the rows go.
fn push_rows(changes: &mut Vec<RowChange>, rows: Vec<(Key, u64)>) -> Result<(), AllocError>
    ensures { OnOk result (changes.new.items ≡ changes.old.items ++ map (λ (x : logic.Key × ℕ). DropHeld x.0 x.1) rows.items) }
{
    for (key, place) in rows {
        changes.push(RowChange::DropHeld { key, place })?;
    }
    Ok(())
}

/// Adds that the delivery times go.
fn push_delays(changes: &mut Vec<RowChange>, delays: &[u64]) -> Result<(), AllocError>
    ensures { OnOk result (changes.new.items ≡ changes.old.items ++ map (λ (p : ℕ). DropDelay p) delays.now) }
{
    for place in delays {
        changes.push(RowChange::DropDelay { place: *place })?;
    }
    Ok(())
}

/// Adds that the messages go.
fn push_gone(changes: &mut Vec<RowChange>, gone: &[u64]) -> Result<(), AllocError>
    ensures { OnOk result (changes.new.items ≡ changes.old.items ++ map (λ (p : ℕ). DropMessage p) gone.now) }
{
    for place in gone {
        changes.push(RowChange::DropMessage { place: *place })?;
    }
    Ok(())
}

impl Lost {
    /// Nothing goes. Takes no memory.
    pub(crate) fn new(alloc: Global) -> Lost
        ensures rows { result.rows.items ≡ [] }
        ensures delays { result.delays.items ≡ [] }
        ensures gone { result.gone.items ≡ [] }
    {
        Lost {
            alloc,
            rows: Vec::new(alloc),
            delays: Vec::new(alloc),
            gone: Vec::new(alloc),
        }
    }

    /// Adds the message of the row that was read, with its delivery time where it has a delay.
    fn add_message(&mut self, row: Standing) -> Result<(), AllocError>
        ensures delays { OnOk result (self.new.delays.items ≡ self.old.delays.items ++ delay_at row.is_delayed row.place) }
        ensures gone { OnOk result (self.new.gone.items ≡ self.old.gone.items ++ row.place ∷ []) }
        ensures rows { OnOk result (self.new.rows.items ≡ self.old.rows.items) }
    {
        if row.is_delayed {
            self.delays.push(row.place)?;
        }
        self.gone.push(row.place)?;
        Ok(())
    }

    /// Adds the row of the key with that index that was read, and its message where no stored row is left of it.
    pub(crate) fn add<P: Planned>(
        &mut self,
        planned: &P,
        index: usize,
        row: Standing,
        going: &Going,
    ) -> Result<(), AllocError>
        requires within { index < length (P.keys planned.now) }
        requires one { IsWithin (P.keys planned.now) going.now }
        requires place { row.place ≤ long_end }
        requires read { IsRead (P.state planned.now) (key_in (P.keys planned.now) index) row }
        requires order { StandsInOrder (P.state planned.now) }
        requires fit { AreMet (goes (P.keys planned.now) going.now) (P.state planned.now) self.old.rows.items self.old.delays.items self.old.gone.items }
        ensures fit { OnOk result (AreMet (goes (P.keys planned.now) going.now) (P.state planned.now) self.new.rows.items self.new.delays.items self.new.gone.items) }
        ensures rows { OnOk result (self.new.rows.items ≡ self.old.rows.items ++ (key_in (P.keys planned.now) index, row.place) ∷ []) }
    {
        if !is_left(planned, row.place, going) {
            self.add_message(row)?;
        }
        self.rows.push((planned.key_at(index).copy()?, row.place))?;
        Ok(())
    }

    /// Adds the stored rows of the key with that index that are meant, as `add` does.
    pub(crate) fn add_where<P: Planned>(
        &mut self,
        planned: &P,
        index: usize,
        which: &Which,
        going: &Going,
    ) -> Result<(), AllocError>
        requires within { index < length (P.keys planned.now) }
        requires one { IsWithin (P.keys planned.now) going.now }
        requires order { StandsInOrder (P.state planned.now) }
        requires fit { AreMet (goes (P.keys planned.now) going.now) (P.state planned.now) self.old.rows.items self.old.delays.items self.old.gone.items }
        ensures fit { OnOk result (AreMet (goes (P.keys planned.now) going.now) (P.state planned.now) self.new.rows.items self.new.delays.items self.new.gone.items) }
        ensures rows { OnOk result ((key : logic.Key) (p : ℕ) → is_one_of self.new.rows.items key p ≡ (is_one_of self.old.rows.items key p
            || (key_eq (key_in (P.keys planned.now) index) key
            && passes (meant which.now) (row_at p (placed_under (P.state planned.now) (key_in (P.keys planned.now) index)))))) }
    {
        let mut place = 0;
        while let Some(row) = planned.row_where(index, place, which) {
            if row.is_persistent {
                self.add(planned, index, row, going)?;
            }
            place = row.place + 1;
        }
        Ok(())
    }

    /// The changes: first the rows go, then the delivery times, then the messages.
    pub(crate) fn into_changes(self) -> Result<Vec<RowChange>, AllocError>
        ensures { IfOk result (λ changes. changes.items ≡ drops self.rows.items self.delays.items self.gone.items) }
    {
        let Lost {
            alloc,
            rows,
            delays,
            gone,
        } = self;
        let mut changes = Vec::new(alloc);
        push_rows(&mut changes, rows)?;
        push_delays(&mut changes, &delays)?;
        push_gone(&mut changes, &gone)?;
        Ok(changes)
    }
}
