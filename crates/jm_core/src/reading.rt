//! What is read of the core by key, and of a step that is planned on it.

ghost use Rattle.std.specs.Prelude.{◌≡◌, ◌<◌, ◌≤◌, ◌∷◌, [], ℕ, Some, true, All, length, option_map, slice_get, slice_index_or, IfOk};
ghost use Rattle.std.specs.Option.{option_copied};
ghost use Rattle.jm_dest.specs.declared.key.Key.{Key as KeyShown};
ghost use Rattle.jm_header.specs.declared.content.Content.{Content};
ghost use Rattle.jm_machine.specs.Life as life;
ghost use Rattle.jm_machine.specs.Machine as machine;
ghost use Rattle.jm_machine.specs.Under.{placed_under};
ghost use Rattle.jm_plans.specs.Plans.{IsPlanned};
ghost use Rattle.jm_plans.specs.Provider.{state_of};
ghost use Rattle.jm_parts.specs.Publications.{IsReady};
ghost use Rattle.jm_core.specs.Reading as spec;
ghost use Rattle.jm_parts.specs.Takings.{is_queue};

use crate::planned::Plan;
use crate::provider::Core;
use jm_base::Mode;
use jm_dest::{ConnectionId, ConsumerId, Key, SessionId};
use jm_machine::{Consumer, Definition};
use jm_parts::publish::{Goal, Publication};
use jm_parts::receive::Taking;
use jm_plans::plan::Change;
use jm_plans::state::CoreState;
use jm_queues::rows::Rows;
use jm_stations::Stations;
use std::alloc::{AllocError, Global};

/// Whether the key is that of a durable subscription.
fn is_durable(key: &Key) -> bool
    ensures { result ≡ spec.is_durable key.now }
{
    matches!(key, Key::Durable(_, _))
}

/// Copies of those of the keys with these indexes that are durable subscriptions'.
fn durable_keys(
    alloc: Global,
    stations: &Stations,
    indexes: &[usize],
) -> Result<Vec<Key>, AllocError>
    requires { All (λ i. i < length stations.now.list) indexes.now }
    ensures { IfOk result (λ keys. keys.items ≡ spec.durable_at stations.now.keys indexes.now) }
{
    let mut keys = Vec::new(alloc);
    for index in indexes {
        let key = stations.key_at(*index);
        if is_durable(key) {
            keys.push(key.copy()?)?;
        }
    }
    Ok(keys)
}

/// A copy of the key, in a list of its own.
fn one_key(alloc: Global, key: &Key) -> Result<Vec<Key>, AllocError>
    ensures { IfOk result (λ keys. keys.items ≡ key.now ∷ []) }
{
    let mut keys = Vec::new(alloc);
    keys.push(key.copy()?)?;
    Ok(keys)
}

fn law_places_in(core: &CoreState)
    ensures { (state_of core.now).next_place ≤ machine.places_end }
{
    let _ = &core.stations;
}

fn keys_len_in(core: &CoreState) -> usize
    ensures len { result ≡ length (spec.keys_in core.now) }
    ensures covers { spec.CoversRows core.now }
{
    core.stations.len() + core.queues.len()
}

fn key_at_in(core: &CoreState, index: usize) -> &Key
    requires { index < length (spec.keys_in core.now) }
    ensures { (d : KeyShown) → result.now ≡ slice_index_or (spec.keys_in core.now) index d }
{
    let subscriptions = core.stations.len();
    if index < subscriptions {
        return core.stations.key_at(index);
    }
    core.queues.key_at(index - subscriptions)
}

fn index_of_in(core: &CoreState, key: &Key) -> Option<usize>
    ensures { spec.IsIndexOf core.now key.now result }
{
    match key {
        Key::Queue(_) => index_of_queue_in(core, key),
        Key::Own(_, _) | Key::SharedOwn(_, _) | Key::Durable(_, _) => {
            core.stations.index_of(key)
        }
    }
}

fn index_of_queue_in(core: &CoreState, key: &Key) -> Option<usize>
    requires { is_queue (Some key.now) ≡ true }
    ensures { spec.IsIndexOf core.now key.now result }
{
    // The numbers of keys are what says that the sum is in range.
    let subscriptions = core.stations.len();
    let _queues = core.queues.len();
    match core.queues.index_of(key) {
        None => None,
        Some(index) => Some(subscriptions + index),
    }
}

fn rows_at_in(core: &CoreState, index: usize) -> Rows<'_>
    requires { index < length (spec.keys_in core.now) }
    ensures { (d : KeyShown) → result ≡ placed_under (state_of core.now) (slice_index_or (spec.keys_in core.now) index d) }
{
    let subscriptions = core.stations.len();
    if index < subscriptions {
        return Rows::new(&core.stations, index);
    }
    core.queues.rows_at(index - subscriptions)
}

/// The keys at which the publication's message lasts.
fn lasting_keys_in(core: &CoreState, publication: &Publication) -> Result<Vec<Key>, AllocError>
    requires { (n : ℕ) × IsReady n core.now.known.life core.now.subscriptions.list core.now.held core.now.queues publication.now }
    ensures { IfOk result (λ keys. spec.AreLasting (state_of core.now) publication.now.message keys.items) }
{
    match &publication.goal {
        Goal::Queue(index) => one_key(core.alloc, core.queues.key_at(*index)),
        Goal::Subscriptions(indexes) => durable_keys(core.alloc, &core.stations, indexes),
    }
}

/// The place of the row that was picked, where one was.
fn picked_place(taking: &Option<Taking>) -> Option<u64>
    ensures { result ≡ spec.picked_place taking.now }
{
    match taking {
        None => None,
        Some(taking) => match &taking.picked {
            None => None,
            Some(picked) => Some(picked.place),
        },
    }
}

/// The place of the row that the planned change takes.
fn taken_in(core: &CoreState, change: &Change) -> Option<u64>
    requires { IsPlanned core.now change.now }
    ensures { result ≡ spec.takes (state_of core.now) change.now }
{
    let _ = &core.stations;
    match change {
        Change::Receive(_, taking)
        | Change::ReceiveFrom(_, taking)
        | Change::Take(_, taking)
        | Change::TakeFrom(_, taking) => picked_place(taking),
        _ => None,
    }
}

/// The law of places, proved; the function itself does nothing.
///
/// The next place is 2^63 at most, so each place at which a row stands is below that.
pub fn law_places(core: &Core)
    ensures { (state_of core.now).next_place ≤ machine.places_end }
{
    law_places_in(&core.state);
}

impl Core {
    /// How many keys there are: those of subscriptions, and those of queues to which something was sent. Each under which rows
    /// stand is one of them.
    pub fn keys_len(&self) -> usize
        ensures len { result ≡ length (spec.keys_in self.now) }
        ensures covers { spec.CoversRows self.now }
    {
        keys_len_in(&self.state)
    }

    /// The key with that index: from 0 those of subscriptions, in order of creation, and behind them those of queues.
    pub fn key_at(&self, index: usize) -> &Key
        requires { index < length (spec.keys_in self.now) }
        ensures { (d : KeyShown) → result.now ≡ slice_index_or (spec.keys_in self.now) index d }
    {
        key_at_in(&self.state, index)
    }

    /// Where the key stands among those; none where it is none of them, and then no row stands under it. It is found by the
    /// order of the keys.
    pub fn index_of(&self, key: &Key) -> Option<usize>
        ensures { spec.IsIndexOf self.now key.now result }
    {
        index_of_in(&self.state, key)
    }

    /// The rows under the key with that index, which are not copied.
    pub fn rows_at(&self, index: usize) -> Rows<'_>
        requires { index < length (spec.keys_in self.now) }
        ensures { (d : KeyShown) → result ≡ placed_under (state_of self.now) (slice_index_or (spec.keys_in self.now) index d) }
    {
        rows_at_in(&self.state, index)
    }

    /// Whether the connection is open and started.
    pub fn is_started(&self, id: ConnectionId) -> bool
        ensures { result ≡ life.is_started (state_of self.now).life id }
    {
        self.state.sessions.is_started(id)
    }

    /// The mode of the session, where it is open.
    pub fn mode_of(&self, id: &SessionId) -> Option<Mode>
        ensures { result ≡ life.mode_of (state_of self.now).life id.now }
    {
        self.state.mode_of(id)
    }

    /// The session's consumer of that number, where it was made.
    pub fn consumer_of(&self, session: &SessionId, id: ConsumerId) -> Option<&Consumer>
        ensures { option_copied result ≡ machine.consumer_of (state_of self.now).consumers session.now id }
    {
        self.state.sessions.consumer_of(session, id)
    }

    /// The keys at which the message with that index, of those that the plan publishes, outlasts the process: its queue's, or
    /// those of the durable subscriptions that accept it. Looks at those alone that take it. `AllocError` where a request for
    /// memory was refused.
    pub fn lasting_takers(&self, plan: &Plan, index: usize) -> Result<Vec<Key>, AllocError>
        requires planned { IsPlanned self.now plan.now }
        requires within { index < length (spec.publishes plan.now) }
        ensures { (m : Content) → slice_get (spec.publishes plan.now) index ≡ Some m →
            IfOk result (λ keys. spec.AreLasting (state_of self.now) m keys.items) }
    {
        lasting_keys_in(&self.state, &plan.publications()[index])
    }

    /// The place of the row that the planned delivery takes, where the plan is one of a delivery, and a row is there. The plan
    /// has picked it: nothing is searched. Takes no memory.
    pub fn taken(&self, plan: &Plan) -> Option<u64>
        requires { IsPlanned self.now plan.now }
        ensures { result ≡ spec.takes (state_of self.now) plan.now }
    {
        taken_in(&self.state, &plan.change)
    }
}

impl Plan {
    /// The key of the durable subscription that the plan deletes, where it deletes one.
    pub fn deleted(&self) -> Option<&Key>
        ensures { option_copied result ≡ spec.deletes self.now }
    {
        match &self.change {
            Change::Unsubscribe(key) => Some(key),
            _ => None,
        }
    }

    /// The key of the subscription that the plan puts, and what that asks for, where it puts one.
    pub fn decided(&self) -> Option<(&Key, &Definition)>
        ensures { option_map (λ x. (x.0.now, x.1.now)) result ≡ spec.puts self.now }
    {
        match &self.change {
            Change::CreateConsumer(_, _, _, Some(decided)) => {
                let (key, decision) = decided.get();
                Some((key, decision.definition()))
            }
            _ => None,
        }
    }

    /// What the plan publishes.
    fn publications(&self) -> &[Publication]
        ensures { result.now ≡ spec.publications_of self.now }
    {
        match &self.change {
            Change::Publish(publications) | Change::Commit(_, publications) => {
                publications.as_slice()
            }
            _ => &[],
        }
    }
}
