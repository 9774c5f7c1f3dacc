//! Puts what was stored into the parts of a core.

ghost use Rattle.std.specs.Prelude.{◌≡◌, ◌≤◌, ◌<◌, ◌+◌, ◌++◌, ℕ, List, [], ◌∷◌, All, map, length, nat_eq, option_map, None, OnOk, IfOk};
ghost use Rattle.std.specs.List.{IsDistinct};
ghost use Rattle.jm_dest.specs.declared.destination.Destination.TheVariants as destination;
ghost use Rattle.jm_dest.specs.Keys.{key_eq};
ghost use Rattle.jm_machine.specs.Machine.{at_queue, places_end};
ghost use Rattle.jm_stations.specs.Backlogs.{empty};
ghost use Rattle.jm_stations.specs.Loading.{stored_at, stored_row};
ghost use Rattle.jm_stations.specs.Stations.{index_in};
ghost use Rattle.jm_queues.specs.Queues.{HasNoLimit, rows_in, joins};
ghost use Rattle.jm_parts.specs.Reopening.{AreMade, HasTaken, HaveLoaded, MayLoad, subscription_of};
ghost use Rattle.jm_parts.specs.State.{keys_of};
ghost use Rattle.jm_parts.specs.Stored as spec;

use crate::stored::{Holders, StoredMessage, StoredSubscription};
use jm_dest::Destination;
use jm_header::Message;
use jm_queues::queues::Queues;
use jm_stations::{Stations, StoredRow};
use jm_sub::Subs;
use std::alloc::{AllocError, Global};

/// Adds a subscription behind all others, under whose key nothing is held yet.
fn add_subscription(
    subs: &mut Subs,
    stations: &mut Stations,
    stored: StoredSubscription,
) -> Result<(), AllocError>
    requires same { keys_of subs.old.list ≡ stations.old.keys }
    requires absent { index_in stations.old.keys stored.key ≡ None }
    ensures subs { OnOk result (subs.new.list ≡ subs.old.list ++ subscription_of stored ∷ []) }
    ensures keys { OnOk result (stations.new.keys ≡ stations.old.keys ++ stored.key ∷ []) }
    ensures list { OnOk result (stations.new.list ≡ stations.old.list ++ empty None ∷ []) }
    ensures next_place { OnOk result (stations.new.next_place ≡ stations.old.next_place) }
{
    let StoredSubscription { key, definition } = stored;
    stations.reserve_key()?;
    let held = key.copy()?;
    let decision = subs.decide(key, definition)?;
    subs.apply(decision);
    stations.create(held, None);
    Ok(())
}

/// Adds the subscriptions in turn.
pub fn add_subscriptions(
    subs: &mut Subs,
    stations: &mut Stations,
    subscriptions: Vec<StoredSubscription>,
) -> Result<(), AllocError>
    requires subs { subs.old.list ≡ [] }
    requires keys { stations.old.keys ≡ [] }
    requires list { stations.old.list ≡ [] }
    requires once { IsDistinct key_eq (map (λ (s : StoredSubscription). s.key) subscriptions.items) }
    ensures made { OnOk result (AreMade subscriptions.items subs.new.list stations.new.keys stations.new.list) }
    ensures next_place { OnOk result (stations.new.next_place ≡ stations.old.next_place) }
{
    for subscription in subscriptions {
        add_subscription(subs, stations, subscription)?;
    }
    Ok(())
}

/// The indexes of the rows, in their order.
fn indexes_of(alloc: Global, rows: &[StoredRow]) -> Result<Vec<usize>, AllocError>
    ensures { IfOk result (λ indexes. indexes.items ≡ map (λ (r : StoredRow). r.index) rows.now) }
{
    rows.iter().map(|row| row.index).collect(alloc)
}

/// A message comes to subscriptions, at its place: a row of each.
fn load_shared(
    alloc: Global,
    stations: &mut Stations,
    place: u64,
    message: Message,
    rows: &[StoredRow],
) -> Result<(), AllocError>
    requires from { stations.old.next_place ≤ place }
    requires places { place < places_end }
    requires within { All (λ (r : StoredRow). r.index < length stations.old.list) rows.now }
    requires once { IsDistinct nat_eq (map (λ (r : StoredRow). r.index) rows.now) }
    requires unlimited { All HasNoLimit stations.old.list }
    ensures keys { OnOk result (stations.new.keys ≡ stations.old.keys) }
    ensures list { OnOk result (HasTaken place message (λ k. option_map (λ (r : StoredRow). r.count) (stored_at k rows.now)) stations.old.list stations.new.list) }
    ensures next_place { OnOk result (stations.new.next_place ≡ place + 1) }
{
    let indexes = indexes_of(alloc, rows)?;
    stations.reserve(&indexes, 1)?;
    stations.skip_to(place);
    stations.load_shared(message, rows);
    Ok(())
}

/// A message comes to its queue, at its place, after so many deliveries.
fn load_queued(
    stations: &mut Stations,
    queues: &mut Queues,
    place: u64,
    message: Message,
    count: u32,
) -> Result<(), AllocError>
    requires from { stations.old.next_place ≤ place }
    requires places { place < places_end }
    requires queue_place { queues.old.next_place ≤ stations.old.next_place }
    ensures skipped { OnOk result (stations.new ≡ record stations.old { next_place = place + 1 }) }
    ensures rows { (name : List ℕ) → message.destination ≡ destination.Queue name → OnOk result
        (rows_in queues.new ≡ at_queue name (joins place (stored_row message count)) (rows_in queues.old)) }
    ensures others { (topic : List ℕ) → message.destination ≡ destination.Topic topic → OnOk result (rows_in queues.new ≡ rows_in queues.old) }
    ensures queue_place { OnOk result (queues.new.next_place ≤ place + 1) }
{
    if let Destination::Queue(name) = message.destination() {
        let index = queues.reserve(name, 1)?;
        queues.load(message, count, index, place);
    }
    stations.skip_to(place + 1);
    Ok(())
}

/// A message comes to those who hold it, at its place.
fn load(
    alloc: Global,
    stations: &mut Stations,
    queues: &mut Queues,
    stored: StoredMessage,
) -> Result<(), AllocError>
    requires from { stations.old.next_place ≤ stored.place }
    requires places { stored.place < places_end }
    requires held { MayLoad (length stations.old.list) stored.holders }
    requires unlimited { All HasNoLimit stations.old.list }
    requires queue_place { queues.old.next_place ≤ stations.old.next_place }
    ensures keys { OnOk result (stations.new.keys ≡ stations.old.keys) }
    ensures list { OnOk result (HasTaken stored.place stored.message (λ k. spec.count_under k stored.holders) stations.old.list stations.new.list) }
    ensures queues { (name : List ℕ) → OnOk result (rows_in queues.new name ≡
        rows_in queues.old name ++ spec.row_stored stored.place stored.message (spec.count_at name stored.message.destination stored.holders)) }
    ensures next_place { OnOk result (stations.new.next_place ≡ stored.place + 1) }
    ensures queue_place { OnOk result (queues.new.next_place ≤ stations.new.next_place) }
{
    let StoredMessage {
        place,
        message,
        holders,
    } = stored;
    match holders {
        Holders::Queue(count) => load_queued(stations, queues, place, message, count),
        Holders::Subscriptions(rows) => load_shared(alloc, stations, place, message, &rows),
    }
}

/// The messages come in turn, each at its place.
pub fn load_messages(
    alloc: Global,
    stations: &mut Stations,
    queues: &mut Queues,
    messages: Vec<StoredMessage>,
) -> Result<(), AllocError>
    requires placed { spec.ArePlaced stations.old.next_place messages.items }
    requires held { All (λ (m : StoredMessage). MayLoad (length stations.old.list) m.holders) messages.items }
    requires unlimited { All HasNoLimit stations.old.list }
    requires queue_place { queues.old.next_place ≤ stations.old.next_place }
    ensures keys { OnOk result (stations.new.keys ≡ stations.old.keys) }
    ensures list { OnOk result (HaveLoaded messages.items stations.old.list stations.new.list) }
    ensures queues { (name : List ℕ) → OnOk result (rows_in queues.new name ≡ rows_in queues.old name ++ spec.rows_at messages.items name) }
    ensures next_place { OnOk result (stations.new.next_place ≡ spec.place_after stations.old.next_place messages.items) }
    ensures queue_place { OnOk result (queues.new.next_place ≤ stations.new.next_place) }
{
    for message in messages {
        load(alloc, stations, queues, message)?;
    }
    Ok(())
}
