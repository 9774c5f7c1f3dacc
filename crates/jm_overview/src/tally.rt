//! How many rows wait, and how many are out.

ghost use Rattle.std.specs.Prelude.{◌≡◌};
ghost use Rattle.jm_machine.specs.Machine.{places_end};
ghost use Rattle.jm_machine.specs.Rows.{InOrder, waits};
ghost use Rattle.jm_overview.specs.Overview as spec;

use jm_core::{RowState, Rows};

/// How many rows wait, and how many are out.
#[derive(Clone, Copy)]
pub(crate) struct Tally {
    pub(crate) waiting: u64,
    pub(crate) out: u64,
}

/// Whether a row in that state waits.
fn is_waiting(state: &RowState) -> bool
    ensures { result ≡ waits state.now }
{
    matches!(state, RowState::Waiting)
}

/// The tally of the rows. Looks at each once, by place, and copies none.
pub(crate) fn tally_of(rows: &Rows<'_>) -> Tally
    requires { InOrder places_end rows.now }
    ensures waiting { result.waiting ≡ spec.waiting_in rows.now }
    ensures out { result.out ≡ spec.out_in rows.now }
{
    let mut tally = Tally { waiting: 0, out: 0 };
    let mut place = 0;
    while let Some(row) = rows.first_from(place) {
        if is_waiting(&row.state) {
            tally.waiting += 1;
        } else {
            tally.out += 1;
        }
        place = row.place + 1;
    }
    tally
}
