//! Walks over lanes that look for the next row by place of a kind: one that has lapsed, or one that is out. A lane is left at
//! the first row that is not of a lower place than the best of the lanes before it.

ghost use Rattle.std.specs.Prelude.{◌≡◌, ◌<◌, find};
ghost use Rattle.std.specs.Option.{option_or};
ghost use Rattle.jm_machine.specs.Machine.{are_meant};
ghost use Rattle.jm_lane.specs.declared.row.Row.{Row};
ghost use Rattle.jm_lane.specs.Rows.{IsRising};
ghost use Rattle.jm_lanes.specs.Lanes.{rows_of};
ghost use Rattle.jm_lane.specs.Cursors as spec;
ghost use Rattle.jm_lane.specs.Cursors.{improves};

use jm_dest::Moment;
use jm_lane::{Lane, Row};
use jm_machine::Consumers;

/// The first row of the lane from that place on that has lapsed at that moment, where it is of a lower place than the best
/// so far, and else that.
fn better_lapsed(lane: &Lane, place: u64, now: Moment, best: Option<Row>) -> Option<Row>
    ensures row { result ≡ option_or (find (improves best (spec.lapsed_from place now)) lane.now.rows) best }
    ensures rising { IsRising lane.now.rows }
{
    let index = lane.first_lapsed(place, now, &best);
    match lane.get(index) {
        Some(row) => Some(row),
        None => best,
    }
}

/// The first row of the lane from that place on that is out through one of those consumers, where it is of a lower place
/// than the best so far, and else that.
fn better_out(lane: &Lane, place: u64, which: &Consumers, best: Option<Row>) -> Option<Row>
    ensures row { result ≡ option_or (find (improves best (spec.out_from place (are_meant which.now))) lane.now.rows) best }
    ensures rising { IsRising lane.now.rows }
{
    let index = lane.first_out(place, which, &best);
    match lane.get(index) {
        Some(row) => Some(row),
        None => best,
    }
}

/// The first row by place, from that place on, that has lapsed at that moment.
pub(crate) fn lapsed_from(lanes: &[Lane], place: u64, now: Moment) -> Option<Row>
    requires { IsRising (rows_of lanes.now) }
    ensures { result ≡ find (spec.lapsed_from place now) (rows_of lanes.now) }
{
    let mut best = None;
    for lane in lanes.iter() {
        best = better_lapsed(lane, place, now, best);
    }
    best
}

/// The first row by place, from that place on, that is out through one of those consumers.
pub(crate) fn out_from(lanes: &[Lane], place: u64, which: &Consumers) -> Option<Row>
    requires { IsRising (rows_of lanes.now) }
    ensures { result ≡ find (spec.out_from place (are_meant which.now)) (rows_of lanes.now) }
{
    let mut best = None;
    for lane in lanes.iter() {
        best = better_out(lane, place, which, best);
    }
    best
}
