//! The rows under a key, read without a copy of their messages.

ghost use Rattle.std.specs.Prelude.{◌≡◌, ◌≤◌, ◌<◌, find, length, option_map, slice_index_or};
ghost use Rattle.jm_machine.specs.Machine.{are_meant, places_end};
ghost use Rattle.jm_stations.specs.Backlogs.{Backlog};
ghost use Rattle.jm_stations.specs.Standing as standing;

use jm_dest::Moment;
use jm_machine::Consumers;
use jm_stations::{Standing, Stations};
use std::marker::Model;

/// The rows under one key as they stand. Contracts see them by place. Nothing here copies a message, or takes memory.
#[derive(Drop)]
pub struct Rows<'a> {
    stations: &'a Stations,
    index: usize,
}

impl<'a> Model for Rows<'a> {
    ghost use Rattle.std.specs.Prelude.{◌<◌, List, None, length, slice_index_or};
    ghost use Rattle.jm_machine.specs.declared.state.PlacedRow.{PlacedRow};
    ghost use Rattle.jm_stations.specs.Backlogs.{empty};

    ghost Value = { List PlacedRow };

    ghost view = { λ r. (slice_index_or r.stations.now.list r.index (empty None)).rows };

    ghost invariant = { λ r. r.index < length r.stations.now.list };
}

impl<'a> Rows<'a> {
    /// The rows under the key with that index.
    pub fn new(stations: &'a Stations, index: usize) -> Rows<'a>
        requires { index < length stations.now.list }
        ensures { (d : Backlog) → result ≡ (slice_index_or stations.now.list index d).rows }
    {
        Rows { stations, index }
    }

    /// The first row by place, from that place on.
    pub fn first_from(&self, place: u64) -> Option<Standing<'a>>
        requires { place ≤ places_end }
        ensures { option_map standing.row_of result ≡ find (standing.is_from place) self.now }
    {
        self.stations.row_from(self.index, place)
    }

    /// The first row by place, from that place on, that has lapsed at that moment: it waits, and its message is expired. Rows
    /// that have not lapsed are passed over by their lanes' bounds.
    pub fn lapsed_from(&self, place: u64, now: Moment) -> Option<Standing<'a>>
        ensures { option_map standing.row_of result ≡ find (standing.lapsed_from place now) self.now }
    {
        self.stations.lapsed_from(self.index, place, now)
    }

    /// The first row by place, from that place on, that is out through one of those consumers. Where no row is out through
    /// them, no row is looked at.
    pub fn out_from(&self, place: u64, which: &Consumers) -> Option<Standing<'a>>
        ensures { option_map standing.row_of result ≡ find (standing.out_from place (are_meant which.now)) self.now }
    {
        self.stations.out_from(self.index, place, which)
    }
}
