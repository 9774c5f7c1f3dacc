//! Each row of held comes to its message.

ghost use Rattle.std.specs.Prelude.{◌≡◌, ◌<◌, ◌≤◌, List, ℕ, None, true, false, length, map, slice_index_or, IsTrue, IfOk, IfErr, IfSome, OnOk};
ghost use Rattle.std.specs.Cmp.Lexicographic.{slice_cmp};
ghost use Rattle.std.specs.List.{list_any};
ghost use Rattle.std.specs.List.Sorted.{IsStrictlySortedBy};
ghost use Rattle.std.specs.Ordering.{nat_cmp};
ghost use Rattle.jm_dest.specs.Keys.{key_eq};
ghost use Rattle.jm_dest.specs.Names.{text_eq};
ghost use Rattle.jm_parts.specs.declared.stored.StoredSubscription.{StoredSubscription as Subscription};
ghost use Rattle.jm_parts.specs.Stored.{ArePlaced};
ghost use Rattle.jm_decoding.specs.declared.message.MessageRow.{MessageRow};
ghost use Rattle.jm_decoding.specs.declared.station.StationRow.{StationRow};
ghost use Rattle.jm_loading.specs.Faults.{IsFaultAt};
ghost use Rattle.jm_loading.specs.Fitting.{FitHeld, IsHeld, held_cmp};
ghost use Rattle.jm_loading.specs.Holding.{AreHeldAs, CanHold, CanHoldInQueue, CanHoldUnder, CanTake, IsHeldInQueue, IsHeldMore, TakesRow};
ghost use Rattle.jm_loading.specs.Messages.{ArePlacedAs};
ghost use Rattle.jm_loading.specs.Order as spec;
ghost use Rattle.jm_loading.specs.Stations.{AreSearchable, AreStationsOf, AreSubscriptions};
ghost use Rattle.jm_loading.specs.Unfit.{IsFirstUnfit};

use crate::holders::{hold_in_queue, hold_under};
use crate::messages::message_at;
use crate::order::{is_behind, key_cmp, name_cmp};
use crate::stations::Stations;
use jm_core::{StoredMessage, StoredRow, StoredSubscription};
use jm_decoding::HeldRow;
use jm_dest::{Key, Name};
use jm_opening::{OpenFault, TableName};
use std::alloc::AllocError;

/// Whether there is a queue of that name, among queues by name.
fn has_queue(queues: &[Name], name: &Name) -> bool
    requires { IsStrictlySortedBy (slice_cmp nat_cmp) queues.now }
    ensures { result ≡ list_any (λ queue. text_eq queue name.now) queues.now }
{
    queues
        .binary_search_by(|queue| name_cmp(queue, name))
        .is_ok()
}

/// Where the subscription of the key may stand among subscriptions by key: it stands nowhere else.
fn place_of(subscriptions: &[StoredSubscription], key: &Key) -> Option<usize>
    requires { IsStrictlySortedBy spec.key_cmp (map (λ (s : Subscription). s.key) subscriptions.now) }
    ensures within { IfSome result (λ at. at < length subscriptions.now) }
    ensures none { result ≡ None → (k : ℕ) (d : Subscription) → k < length subscriptions.now → key_eq (slice_index_or subscriptions.now k d).key key.now ≡ false }
    ensures alone { IfSome result (λ at. (k : ℕ) (d : Subscription) → k < length subscriptions.now → key_eq (slice_index_or subscriptions.now k d).key key.now ≡ true → k ≡ at) }
{
    subscriptions
        .binary_search_by(|subscription| key_cmp(&subscription.key, key))
        .ok()
}

/// Where the subscription of the key stands among subscriptions by key.
fn subscription_at(subscriptions: &[StoredSubscription], key: &Key) -> Option<usize>
    requires { IsStrictlySortedBy spec.key_cmp (map (λ (s : Subscription). s.key) subscriptions.now) }
    ensures within { IfSome result (λ at. at < length subscriptions.now) }
    ensures there { IfSome result (λ at. (d : Subscription) → key_eq (slice_index_or subscriptions.now at d).key key.now ≡ true) }
    ensures none { result ≡ None → (k : ℕ) (d : Subscription) → k < length subscriptions.now → key_eq (slice_index_or subscriptions.now k d).key key.now ≡ false }
    ensures alone { IfSome result (λ at. (k : ℕ) (d : Subscription) → k < length subscriptions.now → key_eq (slice_index_or subscriptions.now k d).key key.now ≡ true → k ≡ at) }
{
    let at = place_of(subscriptions, key)?;
    if subscriptions[at].key.is(key) {
        return Some(at);
    }
    None
}

/// The message is held in the queue of that name, after so many deliveries. False, and nothing changes, where the queue does not
/// stand or may not hold it, or somebody holds it already.
fn hold_at_queue(queues: &[Name], message: &mut StoredMessage, name: &Name, count: u32) -> bool
    requires { IsStrictlySortedBy (slice_cmp nat_cmp) queues.now }
    ensures can { IsTrue result → CanHoldInQueue queues.now name.now count message.old }
    ensures must { CanHoldInQueue queues.now name.now count message.old → IsTrue result }
    ensures more { IsTrue result → IsHeldInQueue name.now count message.old message.new }
{
    has_queue(queues, name) && hold_in_queue(message, name, count)
}

/// The message is held under the subscription of the key, after so many deliveries. False, and nothing changes, where the
/// subscription does not stand or may not hold it, or it or a later one holds it already.
fn hold_at_subscription(
    subscriptions: &[StoredSubscription],
    message: &mut StoredMessage,
    key: &Key,
    count: u32,
) -> Result<bool, AllocError>
    requires durable { AreSubscriptions subscriptions.now }
    requires sorted { IsStrictlySortedBy spec.key_cmp (map (λ (s : Subscription). s.key) subscriptions.now) }
    ensures can { IfOk result (λ is. IsTrue is → CanHoldUnder subscriptions.now key.now count message.old) }
    ensures must { IfOk result (λ is. CanHoldUnder subscriptions.now key.now count message.old → IsTrue is) }
    ensures more { IfOk result (λ is. IsTrue is → IsHeldMore subscriptions.now key.now count message.old message.new) }
{
    let Some(index) = subscription_at(subscriptions, key) else {
        return Ok(false);
    };
    let definition = &subscriptions[index].definition;
    hold_under(message, definition, StoredRow { index, count })
}

/// The message is held as the row says. False, and nothing changes, where the station of the row does not stand or may not hold
/// the message, or the message is held by it, by a later one, or by one of the other kind.
fn hold(stations: &Stations, message: &mut StoredMessage, row: &HeldRow) -> Result<bool, AllocError>
    requires durable { AreSubscriptions stations.now.subscriptions.items }
    requires sorted { AreSearchable stations.now.queues.items stations.now.subscriptions.items }
    ensures can { IfOk result (λ is. IsTrue is → CanHold stations.now.queues.items stations.now.subscriptions.items row.now.key row.now.count message.old) }
    ensures must { IfOk result (λ is. CanHold stations.now.queues.items stations.now.subscriptions.items row.now.key row.now.count message.old → IsTrue is) }
    ensures more { IfOk result (λ is. IsTrue is → IsHeldMore stations.now.subscriptions.items row.now.key row.now.count message.old message.new) }
{
    let count = row.count;
    match &row.key {
        Key::Queue(name) => Ok(hold_at_queue(&stations.queues, message, name, count)),
        key => hold_at_subscription(&stations.subscriptions, message, key, count),
    }
}

/// The row of held comes to its message. False where the message does not stand, or is not held as the row says.
fn take(
    stations: &Stations,
    messages: &mut [StoredMessage],
    row: &HeldRow,
) -> Result<bool, AllocError>
    requires durable { AreSubscriptions stations.now.subscriptions.items }
    requires sorted { AreSearchable stations.now.queues.items stations.now.subscriptions.items }
    ensures takes { IfOk result (λ is. IsTrue is → TakesRow stations.now.subscriptions.items row.now messages.old messages.new) }
    ensures can { IfOk result (λ is. IsTrue is → CanTake stations.now.queues.items stations.now.subscriptions.items row.now messages.old) }
    ensures must { ArePlaced 1 messages.old → IfOk result (λ is. CanTake stations.now.queues.items stations.now.subscriptions.items row.now messages.old → IsTrue is) }
{
    match message_at(messages, row.place) {
        Some(at) => hold(stations, &mut messages[at], row),
        None => Ok(false),
    }
}

/// The rows of held come to their messages, in turn. Damaged at the first that does not stand behind the one before, or whose
/// station or message does not stand, or of which the one may not hold the other.
pub(crate) fn take_all(
    stations: &Stations,
    messages: &mut [StoredMessage],
    held: &[HeldRow],
) -> Result<(), OpenFault>
    requires durable { AreSubscriptions stations.now.subscriptions.items }
    requires sorted { AreSearchable stations.now.queues.items stations.now.subscriptions.items }
    ensures ok { (rows : List MessageRow) → ArePlacedAs rows messages.old → OnOk result (AreHeldAs rows stations.now.subscriptions.items held.now messages.new) }
    ensures fit { (known : List StationRow) → AreStationsOf known stations.now.queues.items stations.now.subscriptions.items → (rows : List MessageRow) → ArePlacedAs rows messages.old → OnOk result (FitHeld known rows held.now) }
    ensures err { (known : List StationRow) → AreStationsOf known stations.now.queues.items stations.now.subscriptions.items → (rows : List MessageRow) → ArePlacedAs rows messages.old
        → IfErr result (IsFaultAt TableName.Held (IsFirstUnfit held_cmp (IsHeld known rows) held.now)) }
{
    for (at, row) in held.iter().enumerate() {
        if !is_behind(held, at) {
            return Err(OpenFault::Damaged(TableName::Held, at as u64));
        }
        if !take(stations, messages, row)? {
            return Err(OpenFault::Damaged(TableName::Held, at as u64));
        }
    }
    Ok(())
}
