//! A step that is planned on the core, as listing reads it.

ghost use Rattle.std.specs.Prelude.{◌≡◌, ◌≤◌, Some, option_map};
ghost use Rattle.jm_machine.specs.Machine.{places_end};
ghost use Rattle.jm_machine.specs.Under.{is_persistent as persists};
ghost use Rattle.jm_stations.specs.Standing as reads;
ghost use Rattle.jm_keep.specs.Steps.{StandsInOrder};
ghost use Rattle.jm_changes.specs.Standing as standing;
ghost use Rattle.jm_plans.specs.Plans.{IsPlanned};
ghost use Rattle.jm_plans.specs.Provider.{state_of};

use jm_base::Mode;
use jm_changes::{Planned, Standing, Which};
use jm_core::{Core, Plan, Rows, law_places, law_rows_in_order};
use jm_dest::{ConnectionId, ConsumerId, Key, SessionId};
use jm_header::{DeliveryMode, Message};
use jm_machine::{Consumer, Definition};
use std::alloc::AllocError;
use std::marker::Model;

/// The core as it stands, and a step that is planned on it.
#[derive(Drop)]
pub(crate) struct PlannedStep<'a> {
    core: &'a Core,
    plan: &'a Plan,
}

impl<'a> Model for PlannedStep<'a> {
    ghost use Rattle.std.specs.Prelude.{◌≤◌};
    ghost use Rattle.jm_machine.specs.Machine.{places_end};
    ghost use Rattle.jm_keep.specs.Steps.{StandsInOrder};
    ghost use Rattle.jm_plans.specs.Plans.{IsPlanned};
    ghost use Rattle.jm_plans.specs.Provider.{state_of};
    ghost use Rattle.jm_listed.specs.Planning.{Planning};

    ghost Value = { Planning };

    ghost view = { λ p. record { core = p.core.now; plan = p.plan.now } };

    ghost invariant = { λ p. IsPlanned p.core.now p.plan.now × StandsInOrder (state_of p.core.now) × ((state_of p.core.now).next_place ≤ places_end) };
}

/// Whether the message is stored where it is held.
fn is_persistent(message: &Message) -> bool
    ensures { result ≡ persists message.now.mode }
{
    match message.mode() {
        DeliveryMode::NonPersistent => false,
        DeliveryMode::Persistent => true,
    }
}

/// What listing reads of a row.
fn shown(row: &jm_core::Standing<'_>) -> Standing
    ensures { result ≡ standing.standing (reads.row_of row.now) }
{
    Standing {
        place: row.place,
        count: row.count,
        is_persistent: is_persistent(row.message),
        is_delayed: row.message.is_delayed(),
    }
}

/// The first row by place, from that place on, of those that are meant.
fn first_of<'a>(rows: &Rows<'a>, place: u64, which: &Which) -> Option<jm_core::Standing<'a>>
    requires { place ≤ places_end }
    ensures { option_map reads.row_of result ≡ standing.first_where (standing.meant which.now) place rows.now }
{
    match which {
        Which::All => rows.first_from(place),
        Which::Lapsed(now) => rows.lapsed_from(place, *now),
        Which::Out(which) => rows.out_from(place, which),
    }
}

/// What listing reads of it.
fn first_meant(rows: &Rows<'_>, place: u64, which: &Which) -> Option<Standing>
    requires { place ≤ places_end }
    ensures { result ≡ option_map standing.standing (standing.first_where (standing.meant which.now) place rows.now) }
{
    match first_of(rows, place, which) {
        None => None,
        Some(row) => Some(shown(&row)),
    }
}

impl<'a> PlannedStep<'a> {
    pub(crate) fn new(core: &'a Core, plan: &'a Plan) -> PlannedStep<'a>
        requires { IsPlanned core.now plan.now }
        ensures core { result.core ≡ core.now }
        ensures plan { result.plan ≡ plan.now }
        ensures order { StandsInOrder (state_of core.now) }
    {
        law_rows_in_order(core);
        law_places(core);
        PlannedStep { core, plan }
    }
}

impl<'a> Planned for PlannedStep<'a> {
    ghost use Rattle.jm_plans.specs.Provider.{state_of};
    ghost use Rattle.jm_core.specs.Reading as reading;

    ghost state = { λ p. state_of p.core };

    ghost keys = { λ p. reading.keys_in p.core };

    ghost messages = { λ p. reading.publishes p.plan };

    ghost deletes = { λ p. reading.deletes p.plan };

    ghost puts = { λ p. reading.puts p.plan };

    ghost takes = { λ p. reading.takes (state_of p.core) p.plan };

    fn len(&self) -> usize {
        self.core.keys_len()
    }

    fn key_at(&self, index: usize) -> &Key {
        self.core.key_at(index)
    }

    fn index_of(&self, key: &Key) -> Option<usize> {
        self.core.index_of(key)
    }

    fn row_where(&self, index: usize, place: u64, which: &Which) -> Option<Standing> {
        first_meant(&self.core.rows_at(index), place, which)
    }

    fn definition_of(&self, key: &Key) -> Option<&Definition> {
        self.core.definition_of(key)
    }

    fn is_started(&self, connection: ConnectionId) -> bool {
        self.core.is_started(connection)
    }

    fn mode_of(&self, session: &SessionId) -> Option<Mode> {
        self.core.mode_of(session)
    }

    fn consumer_of(&self, session: &SessionId, id: ConsumerId) -> Option<&Consumer> {
        self.core.consumer_of(session, id)
    }

    fn next_place(&self) -> u64 {
        self.core.next_place()
    }

    fn takers(&self, index: usize, _message: &Message) -> Result<Vec<Key>, AllocError> {
        self.core.lasting_takers(self.plan, index)
    }

    fn deleted(&self) -> Option<&Key> {
        self.plan.deleted()
    }

    fn decided(&self) -> Option<(&Key, &Definition)> {
        self.plan.decided()
    }

    fn taken(&self) -> Option<u64> {
        self.core.taken(self.plan)
    }
}
