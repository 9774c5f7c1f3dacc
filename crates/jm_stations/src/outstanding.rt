//! Which lists may have rows out, so that what is done to rows that are out looks at no other list.

ghost use Rattle.std.specs.Prelude.{◌≡◌, ◌≢◌, ℕ, ◌+◌, ◌-◌, ◌<◌, ◌≤◌, ◌||◌, ◌&&◌, ◌==◌, ◌++◌, ◌∷◌, [], true, false, not, All, length, map, slice_index, slice_set, IfOk, OnOk, vec_capacity, vec_len};
ghost use Rattle.jm_machine.specs.Machine.{are_meant};
ghost use Rattle.jm_machine.specs.Rows.{goes_out};
ghost use Rattle.jm_pending.specs.Counts.{IsCounted};
ghost use Rattle.jm_lane.specs.Holders.{Covers, Follows, KeepsMessages};
ghost use Rattle.jm_lane.specs.Rows.{are_home};
ghost use Rattle.jm_stations.specs.Backlogs.{is_named};
ghost use Rattle.jm_stations.specs.Kept as kept;
ghost use Rattle.jm_stations.specs.Outstanding as spec;
ghost use Rattle.jm_stations.specs.Outstanding.{AreHomeBut, AreRising};

use jm_gaps::GapList;
use jm_machine::{Consumers, RowState};
use jm_pending::{Held, Table};
use std::alloc::{AllocError, Global};
use std::marker::Model;

/// The lists that may have rows out: their indexes, which rise, how many lists there are, and room for the index of each.
/// Contracts see the indexes, the number of the lists, and for how many more there is room.
pub(crate) struct Outstanding {
    indexes: Vec<usize>,
    number: usize,
}

impl Drop for Outstanding {
    fn drop(self) {
        let Outstanding {
            indexes: _indexes,
            number: _,
        } = self;
    }
}

impl Model for Outstanding {
    ghost use Rattle.std.specs.Prelude.{◌-◌, ◌≤◌, vec_capacity};
    ghost use Rattle.jm_stations.specs.Outstanding.{Outstanding as OutstandingShown, AreRising};

    ghost Value = { OutstandingShown };

    ghost view = { λ o. record { indexes = o.indexes.items; number = o.number; room = vec_capacity o.indexes - o.number } };

    ghost invariant = { λ o. AreRising 0 o.number o.indexes.items × (o.number ≤ vec_capacity o.indexes) };
}

/// Where a list stands once the one at that index is taken out.
fn moved_up(index: usize, other: usize) -> usize
    ensures { result ≡ spec.moved_up index other }
{
    if index < other { other - 1 } else { other }
}

/// Moves the indexes behind that one up by one.
fn close_gap(indexes: &mut [usize], index: usize)
    ensures { indexes.new ≡ map (spec.moved_up index) indexes.old }
{
    for other in indexes.iter_mut() {
        *other = moved_up(index, *other);
    }
}

/// The rows of the list that are out through one of those consumers go. Whether rows went, and none is out any more.
fn settle(held: &mut Held, table: &mut Table, which: &Consumers) -> bool
    requires { Covers table.old held.old.rows }
    ensures held { held.new ≡ kept.settled_out (are_meant which.now) held.old }
    ensures table { Follows table.old table.new held.old.rows held.new.rows }
    ensures home { result ≡ true → are_home held.new.rows ≡ true }
{
    let number = held.len();
    held.settle(table, which);
    held.len() < number && held.is_home()
}

/// The rows of the list that are out through one of those consumers wait again. Whether none is out any more.
fn give_back(held: &mut Held, which: &Consumers) -> bool
    ensures held { held.new ≡ kept.given_back (are_meant which.now) held.old }
    ensures home { result ≡ true → are_home held.new.rows ≡ true }
{
    held.give_back(which);
    held.is_home()
}

/// Puts the index at that place behind those that stay, unless it goes: how many stay then.
fn keep(indexes: &mut Vec<usize>, stay: usize, index: usize, goes: bool) -> usize
    requires { stay < vec_len indexes.old }
    ensures goes { goes ≡ true → (indexes.new.items ≡ indexes.old.items) × (result ≡ stay) }
    ensures stays { goes ≡ false → (indexes.new.items ≡ slice_set indexes.old.items stay index) × (result ≡ stay + 1) }
    ensures capacity { vec_capacity indexes.new ≡ vec_capacity indexes.old }
{
    if goes {
        return stay;
    }
    indexes[stay] = index;
    stay + 1
}

/// The rows that are out through one of those consumers go, of the lists with those indexes; of the indexes those stay
/// whose lists may have rows out.
fn settle_each(
    indexes: &mut Vec<usize>,
    lists: &mut GapList<Held>,
    table: &mut Table,
    which: &Consumers,
)
    requires rising { AreRising 0 (length lists.old.items) indexes.old.items }
    requires others { AreHomeBut indexes.old.items lists.old.items }
    requires counted { IsCounted table.old (kept.all_rows lists.old.items) }
    ensures lists { lists.new.items ≡ map (kept.settled_out (are_meant which.now)) lists.old.items }
    ensures counted { IsCounted table.new (kept.all_rows lists.new.items) }
    ensures messages { KeepsMessages table.old table.new }
    ensures rising { AreRising 0 (length lists.old.items) indexes.new.items }
    ensures others { AreHomeBut indexes.new.items lists.new.items }
    ensures capacity { vec_capacity indexes.new ≡ vec_capacity indexes.old }
{
    let mut stay = 0;
    for at in 0..indexes.len() {
        let index = indexes[at];
        let held = lists.at_mut(index);
        let goes = settle(held, table, which);
        stay = keep(indexes, stay, index, goes);
    }
    indexes.truncate(stay);
}

/// The rows that are out through one of those consumers wait again, of the lists with those indexes; of the indexes those
/// stay whose lists may have rows out.
fn give_back_each(indexes: &mut Vec<usize>, lists: &mut GapList<Held>, which: &Consumers)
    requires rising { AreRising 0 (length lists.old.items) indexes.old.items }
    requires others { AreHomeBut indexes.old.items lists.old.items }
    ensures lists { lists.new.items ≡ map (kept.given_back (are_meant which.now)) lists.old.items }
    ensures rising { AreRising 0 (length lists.old.items) indexes.new.items }
    ensures others { AreHomeBut indexes.new.items lists.new.items }
    ensures capacity { vec_capacity indexes.new ≡ vec_capacity indexes.old }
{
    let mut stay = 0;
    for at in 0..indexes.len() {
        let index = indexes[at];
        let held = lists.at_mut(index);
        let goes = give_back(held, which);
        stay = keep(indexes, stay, index, goes);
    }
    indexes.truncate(stay);
}

/// Adds the index of the list behind all others, where a row of the list is out.
fn add_out(indexes: &mut Vec<usize>, index: usize, held: &Held)
    requires { vec_len indexes.old < vec_capacity indexes.old }
    ensures home { are_home held.now.rows ≡ true → indexes.new.items ≡ indexes.old.items }
    ensures out { are_home held.now.rows ≡ false → indexes.new.items ≡ indexes.old.items ++ index ∷ [] }
    ensures capacity { vec_capacity indexes.new ≡ vec_capacity indexes.old }
{
    if !held.is_home() {
        indexes.push_reserved(index);
    }
}

/// Adds the indexes of the lists that have rows out.
fn add_each_out(indexes: &mut Vec<usize>, lists: &GapList<Held>)
    requires none { indexes.old.items ≡ [] }
    requires room { length lists.now.items ≤ vec_capacity indexes.old }
    ensures rising { AreRising 0 (length lists.now.items) indexes.new.items }
    ensures others { AreHomeBut indexes.new.items lists.now.items }
    ensures capacity { vec_capacity indexes.new ≡ vec_capacity indexes.old }
{
    for index in 0..lists.len() {
        add_out(indexes, index, lists.at(index));
    }
}

/// The same indexes, with room for so many.
fn copy_indexes(alloc: Global, indexes: &[usize], number: usize) -> Result<Vec<usize>, AllocError>
    ensures { IfOk result (λ copy. (copy.items ≡ indexes.now) × (number ≤ vec_capacity copy)) }
{
    let mut copy = Vec::with_capacity(alloc, number)?;
    for index in indexes {
        copy.push(*index)?;
    }
    Ok(copy)
}

impl Outstanding {
    /// There is no list. Takes no memory.
    pub(crate) fn new(alloc: Global) -> Outstanding
        ensures indexes { result.indexes ≡ [] }
        ensures number { result.number ≡ 0 }
    {
        Outstanding {
            indexes: Vec::new(alloc),
            number: 0,
        }
    }

    /// The same lists; there may be other room. `AllocError` where a request for memory was refused.
    pub(crate) fn copy(&self, alloc: Global) -> Result<Outstanding, AllocError>
        ensures { IfOk result (λ copy. copy ≡ record self.now { room = copy.room }) }
    {
        Ok(Outstanding {
            indexes: copy_indexes(alloc, self.indexes.as_slice(), self.number)?,
            number: self.number,
        })
    }

    /// Makes room for one more list. `AllocError` where a request for memory was refused. Either way all but the room is as
    /// before.
    pub(crate) fn reserve(&mut self) -> Result<(), AllocError>
        ensures same { self.new ≡ record self.old { room = self.new.room } }
        ensures room { self.old.room ≤ self.new.room }
        ensures ok { OnOk result (0 < self.new.room) }
    {
        self.indexes.reserve(self.number - self.indexes.len() + 1)
    }

    /// A list comes behind all others, of which no row is out. Takes no memory, since room was reserved.
    pub(crate) fn add_list(&mut self)
        requires { 0 < self.old.room }
        ensures { self.new ≡ record self.old { number = self.old.number + 1; room = self.old.room - 1 } }
    {
        self.number += 1;
    }

    /// How many of the indexes come before that one. It looks at one index for each halving.
    fn count_before(&self, index: usize) -> usize
        ensures within { result ≤ length self.now.indexes }
        ensures before { (k : ℕ) → k < result → slice_index self.now.indexes k < index }
        ensures behind { (k : ℕ) → result ≤ k → k < length self.now.indexes → index ≤ slice_index self.now.indexes k }
    {
        let mut low = 0;
        let mut high = self.indexes.len();
        while low < high {
            let middle = low + (high - low) / 2;
            if self.indexes[middle] < index {
                low = middle + 1;
            } else {
                high = middle;
            }
        }
        low
    }

    /// Whether the index stands at that place.
    fn is_at(&self, at: usize, index: usize) -> bool
        ensures there { result ≡ true → (at < length self.now.indexes) × (slice_index self.now.indexes at ≡ index) }
        ensures elsewhere { result ≡ false → at < length self.now.indexes → slice_index self.now.indexes at ≢ index }
    {
        at < self.indexes.len() && self.indexes[at] == index
    }

    /// Adds the index, where it is not there.
    fn add(&mut self, index: usize)
        requires { index < self.old.number }
        ensures named { (k : ℕ) → is_named self.new.indexes k ≡ (is_named self.old.indexes k || (index == k)) }
        ensures number { self.new.number ≡ self.old.number }
        ensures room { self.new.room ≡ self.old.room }
    {
        let at = self.count_before(index);
        if self.is_at(at, index) {
            return;
        }
        let _ = self.indexes.insert(at, index);
    }

    /// A row of the list with that index went out, where that is so. Takes no memory.
    pub(crate) fn add_where(&mut self, index: usize, is_out: bool)
        requires { index < self.old.number }
        ensures named { (k : ℕ) → is_named self.new.indexes k ≡ (is_named self.old.indexes k || (is_out && (index == k))) }
        ensures number { self.new.number ≡ self.old.number }
        ensures room { self.new.room ≡ self.old.room }
    {
        if is_out {
            self.add(index);
        }
    }

    /// A row in that state came to each of the lists with those indexes. Takes no memory.
    pub(crate) fn add_each(&mut self, indexes: &[usize], state: &RowState)
        requires { All (λ i. i < self.old.number) indexes.now }
        ensures before { (k : ℕ) → is_named self.old.indexes k ≡ true → is_named self.new.indexes k ≡ true }
        ensures out { goes_out (λ s c. true) state.now ≡ true → (k : ℕ) → is_named indexes.now k ≡ true → is_named self.new.indexes k ≡ true }
        ensures number { self.new.number ≡ self.old.number }
        ensures room { self.new.room ≡ self.old.room }
    {
        if matches!(state, RowState::Waiting) {
            return;
        }
        for index in indexes {
            self.add(*index);
        }
    }

    /// No row of the list with that index is out, where that is so. Takes no memory.
    pub(crate) fn remove_where(&mut self, index: usize, is_home: bool)
        ensures named { (k : ℕ) → is_named self.new.indexes k ≡ (is_named self.old.indexes k && not (is_home && (k == index))) }
        ensures number { self.new.number ≡ self.old.number }
        ensures room { self.new.room ≡ self.old.room }
    {
        if is_home {
            self.indexes.retain(|other| *other != index);
        }
    }

    /// The list with that index goes, and those behind it move up by one. Takes no memory.
    pub(crate) fn remove_list(&mut self, index: usize)
        requires { index < self.old.number }
        ensures named { (k : ℕ) → is_named self.new.indexes k ≡ is_named self.old.indexes (spec.moved_down index k) }
        ensures number { self.new.number + 1 ≡ self.old.number }
        ensures room { self.new.room ≡ self.old.room + 1 }
    {
        self.indexes.retain(|other| *other != index);
        close_gap(&mut self.indexes, index);
        self.number -= 1;
    }

    /// The lists are those, of which there are no more than before. Goes over all. Takes no memory.
    pub(crate) fn look_at(&mut self, lists: &GapList<Held>)
        requires { length lists.now.items ≤ self.old.number }
        ensures others { AreHomeBut self.new.indexes lists.now.items }
        ensures number { self.new.number ≡ length lists.now.items }
        ensures room { self.old.room ≤ self.new.room }
    {
        self.indexes.clear();
        add_each_out(&mut self.indexes, lists);
        self.number = lists.len();
    }

    /// The rows of these lists that are out through one of those consumers go. Looks at no list but those that may have rows
    /// out. Takes no memory.
    pub(crate) fn settle(&mut self, lists: &mut GapList<Held>, table: &mut Table, which: &Consumers)
        requires number { self.old.number ≡ length lists.old.items }
        requires others { AreHomeBut self.old.indexes lists.old.items }
        requires counted { IsCounted table.old (kept.all_rows lists.old.items) }
        ensures lists { lists.new.items ≡ map (kept.settled_out (are_meant which.now)) lists.old.items }
        ensures counted { IsCounted table.new (kept.all_rows lists.new.items) }
        ensures messages { KeepsMessages table.old table.new }
        ensures others { AreHomeBut self.new.indexes lists.new.items }
        ensures number { self.new.number ≡ self.old.number }
        ensures room { self.new.room ≡ self.old.room }
    {
        settle_each(&mut self.indexes, lists, table, which);
    }

    /// The rows of these lists that are out through one of those consumers wait again. Looks at no list but those that may
    /// have rows out. Takes no memory.
    pub(crate) fn give_back(&mut self, lists: &mut GapList<Held>, which: &Consumers)
        requires number { self.old.number ≡ length lists.old.items }
        requires others { AreHomeBut self.old.indexes lists.old.items }
        ensures lists { lists.new.items ≡ map (kept.given_back (are_meant which.now)) lists.old.items }
        ensures others { AreHomeBut self.new.indexes lists.new.items }
        ensures number { self.new.number ≡ self.old.number }
        ensures room { self.new.room ≡ self.old.room }
    {
        give_back_each(&mut self.indexes, lists, which);
    }
}
