//! The rows that stand at a place, and whether they go.

ghost use Rattle.std.specs.Prelude.{◌≡◌, ◌<◌, ◌≤◌, length};
ghost use Rattle.jm_dest.specs.Numbers.{long_end};
ghost use Rattle.jm_machine.specs.Under.{placed_under};
ghost use Rattle.jm_keep.specs.Persisted.{is_lasting as lasts, row_at};
ghost use Rattle.jm_keep.specs.Steps.{StandsInOrder, passes};
ghost use Rattle.jm_changes.specs.Standing.{IsLeft, IsWithin, goes, key_in, meant, stays};

use crate::planned::{Planned, Which};
use jm_dest::Key;
use jm_machine::Consumers;

/// Which rows go that stand at a place where one goes.
#[derive(Clone, Copy, Debug)]
pub(crate) enum Going {
    /// That of the key with that index.
    Under(usize),
    /// Those that are out through one of those consumers.
    Out(Consumers),
}

/// Whether what is held under the key outlasts the process.
pub(crate) fn is_lasting(key: &Key) -> bool
    ensures { result ≡ lasts key.now }
{
    matches!(key, Key::Queue(_) | Key::Durable(_, _))
}

/// Whether a stored row under the key with that index stands at the place, and is meant.
fn stands<P: Planned>(planned: &P, index: usize, place: u64, which: &Which) -> bool
    requires within { index < length (P.keys planned.now) }
    requires place { place ≤ long_end }
    requires order { StandsInOrder (P.state planned.now) }
    ensures { result ≡ passes (meant which.now) (row_at place (placed_under (P.state planned.now) (key_in (P.keys planned.now) index))) }
{
    match planned.row_where(index, place, which) {
        Some(row) => row.place == place && row.is_persistent,
        None => false,
    }
}

/// Whether a stored row under the key with that index stands at the place, and does not go.
fn stays_at<P: Planned>(planned: &P, index: usize, place: u64, going: &Going) -> bool
    requires within { index < length (P.keys planned.now) }
    requires one { IsWithin (P.keys planned.now) going.now }
    requires place { place ≤ long_end }
    requires order { StandsInOrder (P.state planned.now) }
    ensures { result ≡ stays (goes (P.keys planned.now) going.now) (P.state planned.now) (key_in (P.keys planned.now) index) place }
{
    if !is_lasting(planned.key_at(index)) {
        return false;
    }
    match going {
        Going::Under(one) => {
            !planned.key_at(*one).is(planned.key_at(index))
                && stands(planned, index, place, &Which::All)
        }
        Going::Out(which) => {
            stands(planned, index, place, &Which::All)
                && !stands(planned, index, place, &Which::Out(*which))
        }
    }
}

/// Whether a stored row under some key stands at the place, and does not go. Goes over all keys.
pub(crate) fn is_left<P: Planned>(planned: &P, place: u64, going: &Going) -> bool
    requires one { IsWithin (P.keys planned.now) going.now }
    requires place { place ≤ long_end }
    requires order { StandsInOrder (P.state planned.now) }
    ensures { IsLeft (goes (P.keys planned.now) going.now) (P.state planned.now) place result }
{
    for index in 0..planned.len() {
        if stays_at(planned, index, place, going) {
            return true;
        }
    }
    false
}
