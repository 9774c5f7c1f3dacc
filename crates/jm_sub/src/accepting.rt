//! Which subscriptions accept a message, by the channels of the message.

ghost use Rattle.std.specs.Prelude.{◌≡◌, ◌<◌, ◌↔◌, ◌||◌, ℕ, [], ◌∷◌, length, map, nat_eq, slice_get, Some, IfOk, IsTrue, OnOk, All};
ghost use Rattle.std.specs.List.Sorted.{IsStrictlyIncreasing};
ghost use Rattle.std.specs.Map.{keys_of};
ghost use Rattle.std.specs.Option.{option_copied};
ghost use Rattle.std.specs.Set.{is_member};
ghost use Rattle.jm_dest.specs.declared.destination.Destination.TheVariants.{Topic};
ghost use Rattle.jm_sub.specs.Channels.{channels_in};
ghost use Rattle.jm_sub.specs.Entries.{subscriptions_of};
ghost use Rattle.jm_sub.specs.Places.{channels_with, heard_in, open_channel, passes};
ghost use Rattle.jm_sub.specs.Subscriptions as spec;
ghost use Rattle.jm_sub.specs.Subscriptions.{publisher};

use crate::channel::Channel;
use crate::definition::wants;
use jm_base::Boxed;
use jm_dest::{ClientId, Key, Name};
use jm_grouped::GroupedList;
use jm_header::Message;
use jm_indexed::KeyMap;
use jm_machine::Definition;
use jm_selector::{Literal, law_literal, literals};
use std::alloc::{AllocError, Global};

/// Adds the places of the channel's subscriptions that want the message of that publisher, in their order.
fn add_channel(
    items: &KeyMap<Key, Boxed<Definition>>,
    channels: &GroupedList<Channel>,
    channel: &Channel,
    message: &Message,
    client: Option<&ClientId>,
    places: &mut Vec<usize>,
) -> Result<(), AllocError>
    requires { channels.now.items ≡ channels_in items.now.entries }
    ensures { OnOk result ((at : ℕ) → is_member nat_eq places.new.items at ≡ (is_member nat_eq places.old.items at
        || passes (heard_in (channel.now ∷ []) (publisher message.now (option_copied client.entry)) message.now)
        (slice_get items.now.entries at))) }
{
    for place in channels.indexes_of(channel) {
        let (key, definition) = items.entry_at(place);
        if wants(key, definition.get(), message, client) {
            places.push(place)?;
        }
    }
    Ok(())
}

/// The channel of the topic's subscriptions that ask for no literal. `AllocError` where the topic's text has
/// 9,223,372,036,854,775,807 owners.
fn open(topic: &Name) -> Result<Channel, AllocError>
    ensures { IfOk result (λ channel. channel ≡ open_channel topic.now) }
{
    Ok(Channel {
        literal: None,
        topic: topic.copy()?,
    })
}

/// The places of the subscriptions that want the message of that publisher, in the channels of the topic without a literal and
/// of each of the literals: those of each channel in their order.
fn heard_places(
    alloc: Global,
    items: &KeyMap<Key, Boxed<Definition>>,
    channels: &GroupedList<Channel>,
    topic: &Name,
    literals: Vec<Literal>,
    message: &Message,
    client: Option<&ClientId>,
) -> Result<Vec<usize>, AllocError>
    requires { channels.now.items ≡ channels_in items.now.entries }
    ensures { IfOk result (λ places. (at : ℕ) → is_member nat_eq places.items at
        ≡ passes (heard_in (channels_with topic.now literals.items) (publisher message.now (option_copied client.entry)) message.now)
        (slice_get items.now.entries at)) }
{
    let mut places = Vec::new(alloc);
    let none = open(topic)?;
    add_channel(items, channels, &none, message, client, &mut places)?;
    for literal in literals {
        let channel = Channel {
            literal: Some(literal),
            topic: topic.copy()?,
        };
        add_channel(items, channels, &channel, message, client, &mut places)?;
    }
    Ok(places)
}

/// Whether each place is below the next one.
fn is_rising(places: &[usize]) -> bool
    ensures { IsTrue result ↔ IsStrictlyIncreasing places.now }
{
    for index in 1..places.len() {
        if places[index] <= places[index - 1] {
            return false;
        }
    }
    true
}

/// Puts the places in order, where equal ones count once.
fn put_in_order(places: &mut Vec<usize>)
    ensures order { IsStrictlyIncreasing places.new.items }
    ensures same { (at : ℕ) → is_member nat_eq places.new.items at ≡ is_member nat_eq places.old.items at }
{
    if !is_rising(places.as_slice()) {
        places.sort_unstable();
        places.dedup();
    }
}

/// Where the subscriptions stand that accept the message of that publisher, which goes to the topic, from 0 in order of creation.
pub(crate) fn accepting_places(
    alloc: Global,
    items: &KeyMap<Key, Boxed<Definition>>,
    channels: &GroupedList<Channel>,
    topic: &Name,
    message: &Message,
    client: Option<&ClientId>,
) -> Result<Vec<usize>, AllocError>
    requires channels { channels.now.items ≡ channels_in items.now.entries }
    requires to { message.now.destination ≡ Topic topic.now }
    ensures { IfOk result (λ places. places.items ≡ spec.accepting_places (publisher message.now (option_copied client.entry))
        message.now (subscriptions_of items.now.entries)) }
{
    law_literal();
    let literals = literals(alloc, message)?;
    let mut places = heard_places(alloc, items, channels, topic, literals, message, client)?;
    put_in_order(&mut places);
    Ok(places)
}

/// The keys that stand at the places, in their order.
pub(crate) fn keys_at(
    alloc: Global,
    items: &KeyMap<Key, Boxed<Definition>>,
    places: &[usize],
) -> Result<Vec<Key>, AllocError>
    requires { All (λ place. place < length items.now.entries) places.now }
    ensures { IfOk result (λ keys. map Some keys.items ≡ map (slice_get (keys_of items.now.entries)) places.now) }
{
    let mut keys = Vec::with_capacity(alloc, places.len())?;
    for place in places {
        keys.push_reserved(items.key_at(*place).copy()?);
    }
    Ok(keys)
}
