//! What stands under a key.

ghost use Rattle.std.specs.Prelude.{◌≡◌, ◌<◌, length, slice_index_or};
ghost use Rattle.jm_dest.specs.declared.key.Key.{Key as KeyShown};
ghost use Rattle.jm_machine.specs.Machine.{places_end};
ghost use Rattle.jm_machine.specs.Rows.{InOrder};
ghost use Rattle.jm_machine.specs.Under.{placed_under};
ghost use Rattle.jm_plans.specs.Provider.{state_of};
ghost use Rattle.jm_core.specs.Reading.{keys_in};
ghost use Rattle.jm_overview.specs.Overview as spec;

use crate::tally::tally_of;
use jm_core::{Core, Rows, law_places, law_rows_in_order};
use jm_dest::Moment;

/// The message that stands under a key for longest.
#[derive(Clone, Copy, Debug, PartialEq, Eq)]
pub struct Oldest {
    /// The place of its publication, from 1.
    pub place: u64,
    /// JMSTimestamp, the moment of its send.
    pub sent: Moment,
}

/// What stands under a key, a subscription's or a queue's.
#[derive(Clone, Copy, Debug, PartialEq, Eq)]
pub struct KeyOverview {
    /// How many messages wait there; those that have expired and were not dropped yet, and those that are held back, too.
    pub waiting: u64,
    /// How many are out to sessions.
    pub out: u64,
    /// The oldest of them, waiting or out.
    pub oldest: Option<Oldest>,
}

/// The oldest of the rows.
fn oldest_of(rows: &Rows<'_>) -> Option<Oldest>
    ensures { result ≡ spec.oldest_in rows.now }
{
    match rows.first_from(0) {
        None => None,
        Some(row) => Some(Oldest {
            place: row.place,
            sent: row.message.timestamp(),
        }),
    }
}

/// What stands among the rows.
fn overview_of(rows: &Rows<'_>) -> KeyOverview
    requires { InOrder places_end rows.now }
    ensures { result ≡ spec.overview rows.now }
{
    let tally = tally_of(rows);
    KeyOverview {
        waiting: tally.waiting,
        out: tally.out,
        oldest: oldest_of(rows),
    }
}

/// What stands under the key with that index (`Core::keys_len`, `Core::key_at`): how many messages wait and are out, and the
/// oldest (ours). Looks at each row once; takes no memory and changes nothing.
pub fn overview_at(core: &Core, index: usize) -> KeyOverview
    requires { index < length (keys_in core.now) }
    ensures { (d : KeyShown) → result ≡ spec.overview (placed_under (state_of core.now) (slice_index_or (keys_in core.now) index d)) }
{
    law_rows_in_order(core);
    law_places(core);
    overview_of(&core.rows_at(index))
}
