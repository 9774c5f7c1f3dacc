//! Where a row stands in the lanes.

ghost use Rattle.std.specs.Prelude.{◌≡◌, ◌<◌, ◌-◌, ◌^◌};
ghost use Rattle.jm_lane.specs.Chosen.{goes_before, low_after, row_of};

use crate::row::Row;

/// A row with the index of its lane, and with how many rows stand before it there, none of the first `low` of which
/// waits.
#[derive(Clone, Copy)]
pub struct Spot {
    /// The index of its lane.
    pub lane: usize,
    /// How many of the first rows of the lane do not wait.
    pub low: usize,
    /// How many rows stand before it in its lane.
    pub index: usize,
    pub row: Row,
}

impl Spot {
    /// How many of the first rows of the lane do not wait once the row does not.
    pub(crate) fn low_after(&self) -> usize
        requires { self.now.index < 2 ^ 64 - 1 }
        ensures { result ≡ low_after self.now }
    {
        if self.low == self.index {
            self.index + 1
        } else {
            self.low
        }
    }
}

/// Whether the row goes before that of the spot, where one is there.
pub(crate) fn goes_before(row: &Row, spot: &Option<Spot>) -> bool
    ensures { result ≡ goes_before (row_of spot.now) row.now }
{
    match spot {
        Some(spot) => row.is_sooner(&spot.row),
        None => true,
    }
}
