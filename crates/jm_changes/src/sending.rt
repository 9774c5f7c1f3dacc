//! What messages that are published change of what is stored.

ghost use Rattle.std.specs.Prelude.{◌≡◌, ◌≤◌, ◌+◌, ◌∷◌, ◌++◌, [], Some, length, map, slice_get, IfOk, OnOk};
ghost use Rattle.jm_dest.specs.declared.key.Key as logic;
ghost use Rattle.jm_machine.specs.Machine.{places_end};
ghost use Rattle.jm_machine.specs.Under.{is_persistent as persists};
ghost use Rattle.jm_keep.specs.declared.change.RowChange.TheVariants.{PutHeld, PutMessage};
ghost use Rattle.jm_format.specs.Format as format;
ghost use Rattle.jm_keep.specs.Calls.{ArePublished, come, queue_station};
ghost use Rattle.jm_keep.specs.Leads.{put_delay};
ghost use Rattle.jm_changes.specs.Sending.{IsBrought};
ghost use Rattle.jm_keep.specs.Persisted.{due_time};

use crate::planned::Planned;
use jm_base::List as Bytes;
use jm_dest::{Destination, Key};
use jm_format::write_record;
use jm_header::{DeliveryMode, Message};
use jm_keep::RowChange;
use std::alloc::{AllocError, Global};

/// Whether the message is stored where it is held.
fn is_persistent(message: &Message) -> bool
    ensures { result ≡ persists message.now.mode }
{
    match message.mode() {
        DeliveryMode::NonPersistent => false,
        DeliveryMode::Persistent => true,
    }
}

/// Adds the station of the queue to which the message goes.
fn push_station(changes: &mut Vec<RowChange>, message: &Message) -> Result<(), AllocError>
    ensures { OnOk result (changes.new.items ≡ changes.old.items ++ queue_station message.now.destination) }
{
    if let Destination::Queue(name) = message.destination() {
        let key = Key::Queue(name.copy()?);
        changes.push(RowChange::PutStation {
            key,
            definition: None,
        })?;
    }
    Ok(())
}

/// Adds the message.
fn push_message(
    alloc: Global,
    changes: &mut Vec<RowChange>,
    place: u64,
    message: &Message,
) -> Result<(), AllocError>
    ensures { OnOk result (changes.new.items ≡ changes.old.items ++ PutMessage place (format.record message.now) ∷ []) }
{
    let bytes = Bytes::new(write_record(alloc, message)?);
    changes.push(RowChange::PutMessage { place, bytes })?;
    Ok(())
}

/// Adds the delivery time of the message, where it has a delay.
fn push_delay(changes: &mut Vec<RowChange>, place: u64, message: &Message) -> Result<(), AllocError>
    ensures { OnOk result (changes.new.items ≡ changes.old.items ++ put_delay place (due_time message.now)) }
{
    if message.is_delayed() {
        let due = message.delivery_time();
        changes.push(RowChange::PutDelay { place, due })?;
    }
    Ok(())
}

/// Adds a row of each of the keys.
fn push_held(changes: &mut Vec<RowChange>, keys: Vec<Key>, place: u64) -> Result<(), AllocError>
    ensures { OnOk result (changes.new.items ≡ changes.old.items ++ map (λ (k : logic.Key). PutHeld k place) keys.items) }
{
    for key in keys {
        changes.push(RowChange::PutHeld { key, place })?;
    }
    Ok(())
}

/// Adds that the message comes at the place to those keys: its queue's station, the message, its delivery time where it has a
/// delay, and a row of each.
fn push_come(
    alloc: Global,
    changes: &mut Vec<RowChange>,
    keys: Vec<Key>,
    place: u64,
    message: &Message,
) -> Result<(), AllocError>
    ensures { OnOk result (changes.new.items ≡ changes.old.items ++ come message.now place keys.items) }
{
    if keys.is_empty() {
        return Ok(());
    }
    push_station(changes, message)?;
    push_message(alloc, changes, place, message)?;
    push_delay(changes, place, message)?;
    push_held(changes, keys, place)
}

/// Adds what the message with that index changes, which is published at that place.
fn push_brought<P: Planned>(
    alloc: Global,
    changes: &mut Vec<RowChange>,
    planned: &P,
    index: usize,
    place: u64,
    message: &Message,
) -> Result<(), AllocError>
    requires { slice_get (P.messages planned.now) index ≡ Some message.now }
    ensures { OnOk result (IsBrought (P.state planned.now) message.now place changes.old.items changes.new.items) }
{
    if !is_persistent(message) {
        return Ok(());
    }
    let keys = planned.takers(index, message)?;
    push_come(alloc, changes, keys, place, message)
}

/// What the messages change that are published in turn, each at a place of its own.
pub(crate) fn published<P: Planned>(
    alloc: Global,
    planned: &P,
    messages: &[Message],
) -> Result<Vec<RowChange>, AllocError>
    requires messages { P.messages planned.now ≡ messages.now }
    requires places { (P.state planned.now).next_place + length messages.now ≤ places_end }
    ensures { IfOk result (λ changes. ArePublished (P.state planned.now) (P.state planned.now).next_place messages.now changes.items) }
{
    let mut changes = Vec::new(alloc);
    let first = planned.next_place();
    let mut index = 0;
    for message in messages {
        push_brought(
            alloc,
            &mut changes,
            planned,
            index,
            first + index as u64,
            message,
        )?;
        index += 1;
    }
    Ok(changes)
}
