//! What is held under a key, read where it stands.

ghost use Rattle.std.specs.Prelude.{◌≡◌, ℕ, Bool, ◌≤◌, ◌<◌, find, length, option_map, slice_index_or, IfOk};
ghost use Rattle.jm_header.specs.declared.content.Content.{Content};
ghost use Rattle.jm_machine.specs.Machine.{are_meant, places_end};
ghost use Rattle.jm_machine.specs.Wants.{next_chosen};
ghost use Rattle.jm_stations.specs.Backlogs as spec;
ghost use Rattle.jm_stations.specs.Backlogs.{Backlog};
ghost use Rattle.jm_stations.specs.Standing as standing;

use crate::copies;
use crate::picked::Picked;
use crate::standing::{self, Standing};
use crate::stations::Stations;
use jm_dest::Moment;
use jm_machine::{Consumers, PlacedRow};
use std::alloc::AllocError;

impl Stations {
    /// The rows under the key with that index, by place, each with a copy of its message. `AllocError` where a
    /// request for memory was refused.
    pub fn rows_of(&self, index: usize) -> Result<Vec<PlacedRow>, AllocError>
        requires { index < length self.now.list }
        ensures { (d : Backlog) → IfOk result (λ rows. rows.items ≡ (slice_index_or self.now.list index d).rows) }
    {
        copies::placed_rows(self.alloc, &self.table, self.lists.at(index))
    }

    /// Whether no row under the key with that index is out to a session. Takes no memory.
    pub fn is_home(&self, index: usize) -> bool
        requires { index < length self.now.list }
        ensures { (d : Backlog) → result ≡ spec.are_home (slice_index_or self.now.list index d).rows }
    {
        self.lists.at(index).is_home()
    }

    /// The row under the key with that index that stands at that place, with its message, which is not copied.
    pub fn row_of(&self, index: usize, place: u64) -> Option<Standing<'_>>
        requires { index < length self.now.list }
        ensures { (d : Backlog) → option_map standing.row_of result ≡ find (standing.is_at place) (slice_index_or self.now.list index d).rows }
    {
        standing::row_of(&self.table, self.lists.at(index), place)
    }

    /// The row that was picked under the key with that index, where one was, with its message, which is not copied. It is found
    /// by its place, and not searched a second time. Takes no memory.
    pub fn row_picked(&self, index: usize, picked: &Option<Picked>) -> Option<Standing<'_>>
        requires within { index < length self.now.list }
        requires picked { (p : Content → Bool) × (settles : Bool) × (now : ℕ) × spec.IsPicked p settles now self.now.list index picked.now }
        ensures { (p : Content → Bool) (settles : Bool) (now : ℕ) (d : Backlog) → spec.IsPicked p settles now self.now.list index picked.now → option_map standing.row_of result ≡ next_chosen p now (slice_index_or self.now.list index d).rows }
    {
        match picked {
            None => None,
            Some(picked) => {
                let held = self.lists.at(index);
                // The number of the rows is what says that they stand by place.
                let _number = held.len();
                standing::row_of(&self.table, held, picked.place)
            }
        }
    }

    /// The first row under the key with that index by place, from that place on, with its message, which is not copied.
    /// Takes no memory.
    pub fn row_from(&self, index: usize, place: u64) -> Option<Standing<'_>>
        requires within { index < length self.now.list }
        requires place { place ≤ places_end }
        ensures { (d : Backlog) → option_map standing.row_of result ≡ find (standing.is_from place) (slice_index_or self.now.list index d).rows }
    {
        standing::row_from(&self.table, self.lists.at(index), place)
    }

    /// The first row under the key with that index by place, from that place on, that has lapsed at that moment: it waits, and
    /// its message is expired. Costs what `Held::lapsed_from` says. Takes no memory.
    pub fn lapsed_from(&self, index: usize, place: u64, now: Moment) -> Option<Standing<'_>>
        requires { index < length self.now.list }
        ensures { (d : Backlog) → option_map standing.row_of result ≡ find (standing.lapsed_from place now) (slice_index_or self.now.list index d).rows }
    {
        standing::lapsed_from(&self.table, self.lists.at(index), place, now)
    }

    /// The first row under the key with that index by place, from that place on, that is out through one of those consumers.
    /// Costs what `Held::out_from` says: where no row is out through them, no row is looked at. Takes no memory.
    pub fn out_from(&self, index: usize, place: u64, which: &Consumers) -> Option<Standing<'_>>
        requires { index < length self.now.list }
        ensures { (d : Backlog) → option_map standing.row_of result ≡ find (standing.out_from place (are_meant which.now)) (slice_index_or self.now.list index d).rows }
    {
        standing::out_from(&self.table, self.lists.at(index), place, which)
    }

    /// How many rows of all keys stand at that place, each of them a holder of the message there.
    pub fn holders_of(&self, place: u64) -> u64
        ensures { result ≡ spec.holders_at place self.now.list }
    {
        self.table.holders(place)
    }

    /// The first index from that one on of a key under which a row stands at that place. Looks for it under
    /// each key in turn, by halves in each of thirty lanes, most of which are empty; where `holders_of` is 1 there is no
    /// other. Takes no memory.
    pub fn holder_from(&self, index: usize, place: u64) -> Option<usize>
        ensures { standing.IsFirstOf (standing.holds place) index self.now.list result }
    {
        standing::holder_from(&self.lists, index, place)
    }

    /// How many publications were missed under the key with that index, since it was at its limit; at
    /// 18,446,744,073,709,551,615 it stays.
    pub fn missed(&self, index: usize) -> u64
        requires { index < length self.now.list }
        ensures { (d : Backlog) → result ≡ (slice_index_or self.now.list index d).missed }
    {
        self.lists.at(index).missed()
    }
}
