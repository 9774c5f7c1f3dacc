//! The subscriptions in order of creation.

ghost use Rattle.std.specs.Prelude.{◌≡◌, ◌≢◌, ◌+◌, ◌<◌, ◌≤◌, ◌==◌, ◌++◌, [], ◌∷◌, true, false, length, slice_get, option_map, drop, position, IfOk, IfErr, IfSome, MatchResult, OnOk, None, Some};
ghost use Rattle.std.specs.List.{remove};
ghost use Rattle.std.specs.Option.{option_copied};
ghost use Rattle.std.specs.Set.{distinct_count, is_member};
ghost use Rattle.jm_dest.specs.Names.{text_eq};
ghost use Rattle.jm_base.specs.declared.refusal.Refusal.TheVariants.{Memory, SubscriptionInUse};
ghost use Rattle.jm_dest.specs.declared.key.Key.{Key};
ghost use Rattle.jm_dest.specs.Keys.{key_eq};
ghost use Rattle.jm_machine.specs.Machine as machine;
ghost use Rattle.jm_machine.specs.Machine.{first_cause, unless};
ghost use Rattle.jm_selector.specs.Selectors.{selector_refusal};
ghost use Rattle.jm_sub.specs.Entries.{IsNew, subscriptions_of, topics_of};
ghost use Rattle.jm_sub.specs.Sharing.{is_shared, may};
ghost use Rattle.jm_sub.specs.Subscriptions as spec;
ghost use Rattle.jm_sub.specs.Subscriptions.{needed, number_of_topics, publisher, put, takes, unsubscribe_refusal, without, without_ended, without_own};

use crate::accepting::{accepting_places, keys_at};
use crate::channel::Channel;
use crate::definition::{accepts, defined, is_same};
use crate::sharing::{Sharing, shared_own};
use jm_base::{Boxed, Refusal, Str};
use jm_dest::{ClientId, Destination, Key, Name};
use jm_grouped::GroupedList;
use jm_header::Message;
use jm_indexed::KeyMap;
use jm_machine::{Attached, Consumers, Definition};
use std::alloc::{AllocError, Global};
use std::marker::Model;

/// The subscriptions in order of creation, each found by its key, and those of each channel by the list of channels, which has
/// the channel of each at the same index; `shared` is how many are shared and not durable: such a one may end with any
/// consumer. Contracts see the list of keys and definitions, and `spare`, for how many more there is room.
pub struct Subs {
    alloc: Global,
    items: KeyMap<Key, Boxed<Definition>>,
    channels: GroupedList<Channel>,
    shared: usize,
}

impl Drop for Subs {
    fn drop(self) {
        let Subs {
            alloc: _alloc,
            items: _items,
            channels: _channels,
            shared: _shared,
        } = self;
    }
}

impl Model for Subs {
    ghost use Rattle.std.specs.Prelude.{◌≡◌, min};
    ghost use Rattle.jm_sub.specs.Entries.{subscriptions_of};
    ghost use Rattle.jm_sub.specs.Subscriptions.{Subscriptions, number_of_shared};
    ghost use Rattle.jm_sub.specs.Channels.{channels_in};

    ghost Value = { Subscriptions };

    ghost view = { λ s. record {
      list = subscriptions_of s.items.entries;
      spare = min s.items.spare s.channels.spare;
    } };

    ghost invariant = { λ s. (s.channels.items ≡ channels_in s.items.entries)
        × (s.shared ≡ number_of_shared (subscriptions_of s.items.entries)) };
}

/// A change that was decided: the creation of a subscription, with the channel in which it stands. Both are boxed, so that
/// little moves where one comes. Contracts see that subscription.
#[derive(Drop)]
pub struct Decision {
    key: Key,
    created: Boxed<Definition>,
    channel: Boxed<Channel>,
}

impl Model for Decision {
    ghost use Rattle.std.specs.Prelude.{◌≡◌};
    ghost use Rattle.jm_sub.specs.Channels.{channel_of};
    ghost use Rattle.jm_sub.specs.Subscriptions.{Subscription};

    ghost Value = { Subscription };

    ghost view = { λ d. record { key = d.key; definition = d.created } };

    ghost invariant = { λ d. d.channel ≡ channel_of d.created };
}

/// Puts the subscription last, of which no other has the key. There is room for it.
fn put_last(items: &mut KeyMap<Key, Boxed<Definition>>, key: Key, created: Boxed<Definition>)
    requires room { 0 < items.old.spare }
    requires new { IsNew key (subscriptions_of items.old.entries) }
    ensures items { items.new.entries ≡ items.old.entries ++ (key, created) ∷ [] }
    ensures spare { items.old.spare ≤ items.new.spare + 1 }
{
    items.insert(key, created);
}

/// Whether a subscription at that place or behind it is to the topic.
fn is_topic_from(items: &KeyMap<Key, Boxed<Definition>>, place: usize, topic: &Name) -> bool
    ensures { result ≡ is_member text_eq (topics_of (drop place items.now.entries)) topic.now }
{
    for at in place..items.len() {
        let (_, definition) = items.entry_at(at);
        if *topic == definition.get().topic {
            return true;
        }
    }
    false
}

/// How many topics the subscriptions have, where those of one topic count once, as the last of them.
fn number_of_topics(items: &KeyMap<Key, Boxed<Definition>>) -> usize
    ensures { result ≡ distinct_count text_eq (topics_of items.now.entries) }
{
    let mut number = 0;
    for at in 0..items.len() {
        let (_, definition) = items.entry_at(at);
        if !is_topic_from(items, at + 1, &definition.get().topic) {
            number += 1;
        }
    }
    number
}

/// The creation of an equal subscription under the key.
fn decision_of(alloc: Global, key: &Key, definition: &Definition) -> Result<Decision, AllocError>
    ensures { IfOk result (λ d. d ≡ record { key = key.now; definition = definition.now }) }
{
    let key = key.copy()?;
    let created = definition.copy()?;
    Decision::new(alloc, key, created)
}

/// Equal subscriptions, with a list of channels of their own.
fn copied(alloc: Global, items: &KeyMap<Key, Boxed<Definition>>) -> Result<Subs, AllocError>
    ensures { IfOk result (λ copy. copy.list ≡ subscriptions_of items.now.entries) }
{
    let mut copy = Subs::new(alloc);
    for at in 0..items.len() {
        let (key, definition) = items.entry_at(at);
        copy.reserve()?;
        let decision = decision_of(alloc, key, definition.get())?;
        copy.add(decision);
    }
    Ok(copy)
}

impl Decision {
    /// The creation of that subscription under the key.
    fn new(alloc: Global, key: Key, created: Definition) -> Result<Decision, AllocError>
        ensures { IfOk result (λ d. d ≡ record { key = key; definition = created }) }
    {
        let channel = Channel::of(&created)?;
        let channel = Boxed::new(alloc, channel)?;
        let created = Boxed::new(alloc, created)?;
        Ok(Decision {
            key,
            created,
            channel,
        })
    }

    /// What the new subscription asks for. A selector whose text holds no token is none.
    pub fn definition(&self) -> &Definition
        ensures { result.now ≡ self.now.definition }
    {
        self.created.get()
    }
}

impl Subs {
    /// No subscriptions. Takes no memory.
    pub fn new(alloc: Global) -> Subs
        ensures { result.list ≡ [] }
    {
        Subs {
            alloc,
            items: KeyMap::new(alloc),
            channels: GroupedList::new(alloc),
            shared: 0,
        }
    }

    /// Equal subscriptions. No selector is read again. `AllocError` where a request for memory was
    /// refused.
    pub fn copy(&self) -> Result<Subs, AllocError>
        ensures { IfOk result (λ copy. copy.list ≡ self.now.list) }
    {
        copied(self.alloc, &self.items)
    }

    /// How many subscriptions there are.
    pub fn len(&self) -> usize
        ensures { result ≡ length self.now.list }
    {
        self.items.len()
    }

    /// Whether there is none.
    pub fn is_empty(&self) -> bool
        ensures { result ≡ (length self.now.list == 0) }
    {
        self.items.is_empty()
    }

    /// How many topics have subscriptions. They are counted: for each subscription those behind it are looked at, up to the next
    /// one of its topic.
    pub fn topics(&self) -> usize
        ensures { result ≡ number_of_topics self.now.list }
    {
        number_of_topics(&self.items)
    }

    /// Where the subscription of the key stands, from 0 in order of creation. It is found by halves.
    pub fn position(&self, key: &Key) -> Option<usize>
        ensures { result ≡ position (λ s. key_eq s.key key.now) self.now.list }
    {
        self.items.index_of(key)
    }

    /// What the subscription at that place asks for.
    pub fn definition_at(&self, at: usize) -> &Definition
        requires { at < length self.now.list }
        ensures { option_map (λ s. s.definition) (slice_get self.now.list at) ≡ Some result.now }
    {
        let (_, definition) = self.items.entry_at(at);
        definition.get()
    }

    /// What the subscription of the key asks for, if there is one. It is found by halves.
    pub fn definition_of(&self, key: &Key) -> Option<&Definition>
        ensures { option_copied result ≡ spec.definition_at key.now self.now.list }
    {
        match self.items.get(key) {
            None => None,
            Some(definition) => Some(definition.get()),
        }
    }

    /// Whether the subscription at that place accepts the message, which is published on the connection of its
    /// sender's session; `client` is that connection's client identifier, if it has one. It accepts the message
    /// where the message's topic is the subscription's (Jakarta Messaging 3.1, section 4.2), the publisher is not
    /// local where the subscription asks for none that is (section 8.3.1), and the selector is absent or TRUE over
    /// the message (section 3.8.1). Takes no memory.
    pub fn accepts_at(&self, at: usize, message: &Message, client: Option<&ClientId>) -> bool
        requires { at < length self.now.list }
        ensures { option_map (takes (publisher message.now (option_copied client.entry)) message.now) (slice_get self.now.list at) ≡ Some result }
    {
        let (key, definition) = self.items.entry_at(at);
        accepts(key, definition.get(), message, client)
    }

    /// The keys of the subscriptions that accept the message, in order of creation; `client` is the client
    /// identifier of the connection that publishes it, if it has one. It looks at those of its topic
    /// alone that ask for no literal, or for one that the message has. `Memory` where a request for memory was refused.
    pub fn accepting(
        &self,
        message: &Message,
        client: Option<&ClientId>,
    ) -> Result<Vec<Key>, Refusal>
        ensures ok { IfOk result (λ keys. keys.items ≡ spec.accepting (publisher message.now (option_copied client.entry)) message.now self.now.list) }
        ensures err { IfErr result (λ refusal. refusal ≡ Memory) }
    {
        let places = self.accepting_places(message, client)?;
        Ok(keys_at(self.alloc, &self.items, places.as_slice())?)
    }

    /// Where the subscriptions stand that accept the message, from 0 in order of creation, as `accepting` gives their keys: no
    /// key is looked for.
    pub fn accepting_places(
        &self,
        message: &Message,
        client: Option<&ClientId>,
    ) -> Result<Vec<usize>, Refusal>
        ensures ok { IfOk result (λ places.
            places.items ≡ spec.accepting_places (publisher message.now (option_copied client.entry)) message.now self.now.list) }
        ensures err { IfErr result (λ refusal. refusal ≡ Memory) }
    {
        let Destination::Topic(topic) = message.destination() else {
            return Ok(Vec::new(self.alloc));
        };
        Ok(accepting_places(
            self.alloc,
            &self.items,
            &self.channels,
            topic,
            message,
            client,
        )?)
    }

    /// Makes room for one more subscription, of whatever channel.
    fn reserve(&mut self) -> Result<(), AllocError>
        ensures list { self.new.list ≡ self.old.list }
        ensures ok { OnOk result (0 < self.new.spare) }
    {
        self.items.reserve(1)?;
        self.channels.reserve(1)
    }

    /// Decides the creation of an empty subscription of that key to the topic. It reads the selector,
    /// and takes the room that the change needs; the subscriptions stay as they are. `InvalidSelector`
    /// where the text is refused, with its first fault; `Memory` where a request for memory was
    /// refused, which may come in place of it.
    pub fn decide_create(
        &mut self,
        key: Key,
        topic: &Name,
        selector: &Option<Str>,
        no_local: bool,
    ) -> Result<Decision, Refusal>
        ensures decided { IfOk result (λ d. d ≡ record { key = key; definition = machine.defined topic.now selector.now no_local false }) }
        ensures valid { IfOk result (λ _. selector_refusal selector.now ≡ None) }
        ensures room { OnOk result (0 < self.new.spare) }
        ensures refused { IfErr result (λ refusal. refusal ≢ Memory → selector_refusal selector.now ≡ Some refusal) }
        ensures unchanged { self.new.list ≡ self.old.list }
    {
        let created = defined(self.alloc, topic, selector, no_local, false)?;
        Ok(self.decide(key, created)?)
    }

    /// Decides what a consumer of a subscription that has a name asks for: nothing where what stands under the key asks
    /// for the same, and else the creation of an empty subscription in its place. It reads the selector, and takes the
    /// room that the change needs; the subscriptions stay as they are. `is_idle` says that no consumer of the key is
    /// active, and `is_home` that no row of it is out. `InvalidSelector` where the text is refused, with its first fault;
    /// else `SubscriptionInUse` where the subscription may not be had so; `Memory` where a request for memory was refused,
    /// which may come in place of each.
    pub fn decide_named(
        &mut self,
        key: Key,
        topic: &Name,
        selector: &Option<Str>,
        no_local: bool,
        sharing: Sharing,
        is_idle: bool,
        is_home: bool,
    ) -> Result<Option<Decision>, Refusal>
        ensures decided { IfOk result (λ d. d ≡ needed key (machine.defined topic.now selector.now no_local (is_shared sharing)) self.old.list) }
        ensures valid { IfOk result (λ _. selector_refusal selector.now ≡ None) }
        ensures may { IfOk result (λ _. may sharing (spec.definition_at key self.old.list) is_idle is_home (machine.defined topic.now selector.now no_local (is_shared sharing)) ≡ true) }
        ensures room { IfOk result (λ d. IfSome d (λ _. 0 < self.new.spare)) }
        ensures refused { IfErr result (λ refusal. refusal ≢ Memory → first_cause (selector_refusal selector.now)
            (unless (may sharing (spec.definition_at key self.old.list) is_idle is_home (machine.defined topic.now selector.now no_local (is_shared sharing))) SubscriptionInUse) ≡ Some refusal) }
        ensures unchanged { self.new.list ≡ self.old.list }
    {
        let asked = defined(self.alloc, topic, selector, no_local, sharing.is_shared())?;
        let held = self.definition_of(&key);
        if !sharing.may(held, is_idle, is_home, &asked) {
            return Err(Refusal::SubscriptionInUse);
        }
        if is_same(held, &asked) {
            return Ok(None);
        }
        Ok(Some(self.decide(key, asked)?))
    }

    /// Decides the deletion of the durable subscription of the key. `is_idle` says that no consumer of the key is active, and
    /// `is_home` that no row of it is out. `InvalidDestination` where there is no subscription of the key, else
    /// `SubscriptionInUse` where a consumer is active or a row is out. Takes no memory.
    pub fn decide_unsubscribe(&self, key: &Key, is_idle: bool, is_home: bool) -> Result<(), Refusal>
        ensures { MatchResult result
            (λ _. unsubscribe_refusal (spec.definition_at key.now self.now.list) is_idle is_home ≡ None)
            (λ refusal. unsubscribe_refusal (spec.definition_at key.now self.now.list) is_idle is_home ≡ Some refusal) }
    {
        if self.definition_of(key).is_none() {
            return Err(Refusal::InvalidDestination);
        }
        if !(is_idle && is_home) {
            return Err(Refusal::SubscriptionInUse);
        }
        Ok(())
    }

    /// Decides the creation of an empty subscription under the key, which asks for that, and takes the room that the change
    /// needs; the subscriptions stay as they are. `AllocError` where a request for memory was refused.
    pub fn decide(&mut self, key: Key, created: Definition) -> Result<Decision, AllocError>
        ensures decided { IfOk result (λ d. d ≡ record { key = key; definition = created }) }
        ensures room { OnOk result (0 < self.new.spare) }
        ensures unchanged { self.new.list ≡ self.old.list }
    {
        self.reserve()?;
        Decision::new(self.alloc, key, created)
    }

    /// Makes the change that was decided: the new subscription stands last, in place of any other of
    /// its key. Takes no memory.
    pub fn apply(&mut self, decision: Decision)
        requires { 0 < self.old.spare }
        ensures list { self.new.list ≡ put decision self.old.list }
        ensures spare { self.old.spare ≤ self.new.spare + 1 }
    {
        self.delete(&decision.key);
        self.add(decision);
    }

    /// Ends the subscription of the key, if there is one. It is found by halves, and no other is looked at. Takes no memory.
    pub fn delete(&mut self, key: &Key)
        ensures list { self.new.list ≡ without key.now self.old.list }
        ensures spare { self.old.spare ≤ self.new.spare }
    {
        // The length is what says that each key stands once.
        let _number = self.items.len();
        if let Some(index) = self.items.index_of(key) {
            self.take_out(index);
        }
    }

    /// Ends the subscriptions that end once these consumers are closed, where `attached` has the numbers of those that
    /// are left; the others stay, in their order. Takes no memory.
    pub fn close(&mut self, which: &Consumers, attached: &Attached)
        ensures list { self.new.list ≡ without_ended which.now attached.now self.old.list }
        ensures spare { self.old.spare ≤ self.new.spare }
    {
        self.delete_own(which);
        if self.shared > 0 {
            self.delete_ended(which, attached);
        }
    }

    /// Ends the own subscriptions of these consumers: that of one is found by halves, and so is each of those of a session or a
    /// connection, which stand together in the order of the keys. Takes no memory.
    fn delete_own(&mut self, which: &Consumers)
        ensures list { self.new.list ≡ without_own which.now self.old.list }
        ensures spare { self.old.spare ≤ self.new.spare }
    {
        match which {
            Consumers::One(session, id) => self.delete(&Key::Own(*session, *id)),
            Consumers::OfConnection(_) | Consumers::OfSession(_) => self.delete_each(which),
        }
    }

    /// Ends the own subscriptions of these consumers, one after the other. Takes no memory.
    fn delete_each(&mut self, which: &Consumers)
        ensures list { self.new.list ≡ without_own which.now self.old.list }
        ensures spare { self.old.spare ≤ self.new.spare }
    {
        let mut guess = 0;
        while let Some(index) = self.items.index_in(which, &mut guess) {
            self.take_out(index);
        }
    }

    /// Ends the subscriptions that end once these consumers are closed, in a walk over all, from the last one on. Takes no memory.
    fn delete_ended(&mut self, which: &Consumers, attached: &Attached)
        ensures list { self.new.list ≡ without_ended which.now attached.now self.old.list }
        ensures spare { self.old.spare ≤ self.new.spare }
    {
        let mut end = self.items.len();
        while end > 0 {
            end -= 1;
            if attached.ends(which, self.items.key_at(end)) {
                self.take_out(end);
            }
        }
    }

    /// Adds the subscription that was decided, of which no other has the key. Takes no memory.
    fn add(&mut self, decision: Decision)
        requires room { 0 < self.old.spare }
        requires new { IsNew decision.key self.old.list }
        ensures list { self.new.list ≡ self.old.list ++ decision ∷ [] }
        ensures spare { self.old.spare ≤ self.new.spare + 1 }
    {
        let Decision {
            key,
            created,
            channel,
        } = decision;
        let more = shared_own(&key);
        put_last(&mut self.items, key, created);
        // The length is what says that what is as many at most can be counted.
        let _number = self.items.len();
        self.shared += more;
        self.channels.push(channel.into_inner());
    }

    /// Takes the subscription at that index out, and its channel: those behind it have their indexes one less. Takes no memory.
    fn take_out(&mut self, index: usize)
        requires { index < length self.old.list }
        ensures list { self.new.list ≡ remove self.old.list index }
        ensures spare { self.old.spare ≤ self.new.spare }
    {
        self.shared -= shared_own(self.items.key_at(index));
        self.items.remove_at(index);
        self.channels.remove_at(index);
    }
}
