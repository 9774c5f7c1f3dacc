//! What a settling and a delivery change of what is stored.

ghost use Rattle.std.specs.Prelude.{◌≡◌, ◌<◌, ◌++◌, [], Some, true, length, option_map, IfOk, IfSome, OnOk};
ghost use Rattle.jm_dest.specs.Numbers.{long_end};
ghost use Rattle.jm_machine.specs.declared.state.PlacedRow.{PlacedRow};
ghost use Rattle.jm_machine.specs.Machine.{are_meant, selected_by};
ghost use Rattle.jm_machine.specs.Rows.{raised};
ghost use Rattle.jm_machine.specs.Under.{next_under, placed_under};
ghost use Rattle.jm_keep.specs.Calls.{AreDelivered, AreDone, DropsThen};
ghost use Rattle.jm_keep.specs.Persisted.{is_lasting as lasts};
ghost use Rattle.jm_keep.specs.Steps.{AreGone, StandsInOrder, counted, lapsed_under, out_through, out_under, taken_under};
ghost use Rattle.jm_changes.specs.declared.going.Going.TheVariants as one;
ghost use Rattle.jm_changes.specs.Standing.{AreMet, AreOf, goes, key_in, meant, standing, taken_row};

use crate::going::{Going, is_lasting};
use crate::lost::Lost;
use crate::planned::{Planned, Standing, Which};
use jm_base::Mode;
use jm_dest::{Key, Moment};
use jm_keep::RowChange;
use jm_machine::{Consumer, Consumers};
use std::alloc::{AllocError, Global};

/// The greatest count of deliveries.
const GREATEST_COUNT: u32 = 2_147_483_647;

/// A count of deliveries, one more; from the greatest on it stays.
fn raised_count(count: u32) -> u32
    ensures { result ≡ raised count }
{
    if count < GREATEST_COUNT {
        count + 1
    } else {
        count
    }
}

/// The stored rows that are out through those consumers, and the messages that go with them. Goes over all keys, and under
/// each over the rows that are out.
pub(crate) fn lost_out<P: Planned>(
    alloc: Global,
    planned: &P,
    which: &Consumers,
) -> Result<Lost, AllocError>
    requires { StandsInOrder (P.state planned.now) }
    ensures { IfOk result (λ lost. AreGone (out_through (are_meant which.now)) (P.state planned.now) lost.rows.items lost.delays.items lost.gone.items) }
{
    let mut lost = Lost::new(alloc);
    for index in 0..planned.len() {
        if is_lasting(planned.key_at(index)) {
            lost.add_where(planned, index, &Which::Out(*which), &Going::Out(*which))?;
        }
    }
    Ok(lost)
}

/// The stored rows under the key with that index that are meant.
fn lost_where<P: Planned>(
    alloc: Global,
    planned: &P,
    index: usize,
    which: &Which,
) -> Result<Lost, AllocError>
    requires within { index < length (P.keys planned.now) }
    requires order { StandsInOrder (P.state planned.now) }
    ensures rows { IfOk result (λ lost. AreOf (key_in (P.keys planned.now) index) (λ place. meant which.now) (P.state planned.now) lost.rows.items) }
    ensures met { IfOk result (λ lost. AreMet (goes (P.keys planned.now) (one.Under index)) (P.state planned.now) lost.rows.items lost.delays.items lost.gone.items) }
{
    let mut lost = Lost::new(alloc);
    lost.add_where(planned, index, which, &Going::Under(index))?;
    Ok(lost)
}

/// The row under the key with that index that the delivery takes: that at the planned place.
fn taken_at<P: Planned>(planned: &P, index: usize) -> Option<Standing>
    requires { index < length (P.keys planned.now) }
    ensures row { result ≡ option_map standing (taken_row (P.takes planned.now) (placed_under (P.state planned.now) (key_in (P.keys planned.now) index))) }
    ensures place { IfSome result (λ r. r.place < long_end) }
{
    let place = planned.taken()?;
    planned.row_where(index, place, &Which::All)
}

/// The stored rows under the key with that index that a delivery loses which settles at once.
fn lost_taken<P: Planned>(
    alloc: Global,
    planned: &P,
    index: usize,
    now: Moment,
) -> Result<Lost, AllocError>
    requires within { index < length (P.keys planned.now) }
    requires order { StandsInOrder (P.state planned.now) }
    requires lasting { lasts (key_in (P.keys planned.now) index) ≡ true }
    ensures { IfOk result (λ lost. AreGone
        (taken_under (key_in (P.keys planned.now) index) now
        (taken_row (P.takes planned.now) (placed_under (P.state planned.now) (key_in (P.keys planned.now) index))))
        (P.state planned.now) lost.rows.items lost.delays.items lost.gone.items) }
{
    let mut lost = lost_where(alloc, planned, index, &Which::Lapsed(now))?;
    if let Some(row) = taken_at(planned, index) {
        if row.is_persistent {
            lost.add(planned, index, row, &Going::Under(index))?;
        }
    }
    Ok(lost)
}

/// What a delivery changes that settles at once.
fn received<P: Planned>(
    alloc: Global,
    planned: &P,
    index: usize,
    now: Moment,
) -> Result<Vec<RowChange>, AllocError>
    requires within { index < length (P.keys planned.now) }
    requires order { StandsInOrder (P.state planned.now) }
    requires lasting { lasts (key_in (P.keys planned.now) index) ≡ true }
    ensures { IfOk result (λ changes. DropsThen
        (taken_under (key_in (P.keys planned.now) index) now
        (taken_row (P.takes planned.now) (placed_under (P.state planned.now) (key_in (P.keys planned.now) index))))
        (P.state planned.now) [] changes.items) }
{
    lost_taken(alloc, planned, index, now)?.into_changes()
}

/// Adds the count of the row that is taken, where it is stored.
fn push_count<P: Planned>(
    changes: &mut Vec<RowChange>,
    planned: &P,
    index: usize,
) -> Result<(), AllocError>
    requires within { index < length (P.keys planned.now) }
    ensures { OnOk result (changes.new.items ≡ changes.old.items ++ counted (key_in (P.keys planned.now) index)
        (taken_row (P.takes planned.now) (placed_under (P.state planned.now) (key_in (P.keys planned.now) index)))) }
{
    if let Some(row) = taken_at(planned, index) {
        if row.is_persistent {
            let key = planned.key_at(index).copy()?;
            let count = raised_count(row.count);
            changes.push(RowChange::SetCount {
                key,
                place: row.place,
                count,
            })?;
        }
    }
    Ok(())
}

/// What a delivery changes that goes out to a session.
fn sent<P: Planned>(
    alloc: Global,
    planned: &P,
    index: usize,
    now: Moment,
) -> Result<Vec<RowChange>, AllocError>
    requires within { index < length (P.keys planned.now) }
    requires order { StandsInOrder (P.state planned.now) }
    requires lasting { lasts (key_in (P.keys planned.now) index) ≡ true }
    ensures { IfOk result (λ changes. DropsThen (lapsed_under (key_in (P.keys planned.now) index) now) (P.state planned.now)
        (counted (key_in (P.keys planned.now) index)
        (taken_row (P.takes planned.now) (placed_under (P.state planned.now) (key_in (P.keys planned.now) index))))
        changes.items) }
{
    let lost = lost_where(alloc, planned, index, &Which::Lapsed(now))?;
    let mut changes = lost.into_changes()?;
    push_count(&mut changes, planned, index)?;
    Ok(changes)
}

/// What a delivery to the consumer changes, whose session is in that mode, where it is open: it takes the row at the planned
/// place.
pub(crate) fn delivered<P: Planned>(
    alloc: Global,
    planned: &P,
    consumer: &Consumer,
    mode: Option<Mode>,
    now: Moment,
) -> Result<Vec<RowChange>, AllocError>
    requires order { StandsInOrder (P.state planned.now) }
    requires taken { P.takes planned.now ≡ option_map (λ (r : PlacedRow). r.place)
        (next_under (selected_by (Some consumer.now)) now consumer.now.key (placed_under (P.state planned.now) consumer.now.key)) }
    ensures { IfOk result (λ changes. AreDelivered mode (selected_by (Some consumer.now)) now consumer.now.key (P.state planned.now) changes.items) }
{
    if !is_lasting(&consumer.key) {
        return Ok(Vec::new(alloc));
    }
    let Some(index) = planned.index_of(&consumer.key) else {
        return Ok(Vec::new(alloc));
    };
    match mode {
        Some(Mode::Auto | Mode::Dups) => received(alloc, planned, index, now),
        Some(Mode::Client | Mode::Transacted) | None => sent(alloc, planned, index, now),
    }
}

/// What it changes that of the rows under the key those are settled that are out through those consumers.
pub(crate) fn done<P: Planned>(
    alloc: Global,
    planned: &P,
    key: &Key,
    which: &Consumers,
) -> Result<Vec<RowChange>, AllocError>
    requires { StandsInOrder (P.state planned.now) }
    ensures { IfOk result (λ changes. AreDone (are_meant which.now) (Some key.now) (P.state planned.now) changes.items) }
{
    if !is_lasting(key) {
        return Ok(Vec::new(alloc));
    }
    let Some(index) = planned.index_of(key) else {
        return Ok(Vec::new(alloc));
    };
    lost_where(alloc, planned, index, &Which::Out(*which))?.into_changes()
}
