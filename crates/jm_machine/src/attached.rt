//! How many active consumers the subscriptions that have names have.

ghost use Rattle.std.specs.Prelude.{◌≡◌, ◌+◌, ◌-◌, ◌<◌, ◌≤◌, ◌^◌, List, true, map, IfOk, OnOk, if◌then◌else◌};
ghost use Rattle.jm_dest.specs.declared.key.Key.{Key};
ghost use Rattle.jm_dest.specs.Keys.{key_eq};
ghost use Rattle.jm_machine.specs.declared.state.Consumer.{Consumer};
ghost use Rattle.jm_machine.specs.Attached.{AllOwn, AreCounted, IsOfSubscription, number_at};
ghost use Rattle.jm_machine.specs.Machine.{are_meant, closed_consumer, ends};
ghost use Rattle.jm_machine.specs.Attached as spec;

use crate::consumers::Consumers;
use crate::state::Consumer;
use jm_dest::Key;
use jm_indexed::KeyMap;
use std::alloc::{AllocError, Global};
use std::marker::Model;

/// The keys of active consumers, each with how many. Contracts see the number at each key, and `spare`, for how many more
/// keys there is room.
#[derive(Drop)]
pub struct Attached {
    counts: KeyMap<Key, u64>,
}

impl Model for Attached {
    ghost use Rattle.jm_machine.specs.Attached.{Counts};

    ghost Value = { Counts };

    ghost view = { λ a. record { entries = a.counts.entries; spare = a.counts.spare } };
}

/// Whether the subscription of the key has a name.
pub fn is_named(key: &Key) -> bool
    ensures { result ≡ spec.is_named key.now }
{
    match key {
        Key::SharedOwn(_, _) | Key::Durable(_, _) => true,
        Key::Queue(_) | Key::Own(_, _) => false,
    }
}

impl Attached {
    /// No consumer is active. Takes no memory.
    pub fn new(alloc: Global) -> Attached
        ensures { (key : Key) → number_at result key ≡ 0 }
    {
        Attached {
            counts: KeyMap::new(alloc),
        }
    }

    /// The numbers of the active ones among the consumers. `AllocError` where a request for memory was refused.
    pub fn of(alloc: Global, consumers: &[Consumer]) -> Result<Attached, AllocError>
        ensures { IfOk result (λ attached. AreCounted consumers.now attached) }
    {
        let mut attached = Attached::new(alloc);
        for consumer in consumers {
            attached.add(consumer)?;
        }
        Ok(attached)
    }

    /// How many active consumers the key has. It is found by halves.
    pub fn number(&self, key: &Key) -> u64
        ensures { result ≡ number_at self.now key.now }
    {
        match self.counts.get(key) {
            None => 0,
            Some(number) => *number,
        }
    }

    /// Whether the subscription of the key ends once these consumers are closed, where the numbers are of those that are
    /// left: a consumer's own ends with it, and a shared one that is not durable with its last active one.
    pub fn ends(&self, which: &Consumers, key: &Key) -> bool
        ensures left { result ≡ spec.ended which.now self.now key.now }
        // in the machine's words, by the consumers as they were before
        ensures before { (consumers : List Consumer) → AllOwn consumers → IsOfSubscription consumers key.now →
            AreCounted (map (closed_consumer (are_meant which.now)) consumers) self.now →
            result ≡ ends (are_meant which.now) consumers key.now }
    {
        match key {
            Key::Own(session, id) => which.include(session, *id),
            Key::SharedOwn(_, _) => self.number(key) == 0,
            Key::Queue(_) | Key::Durable(_, _) => false,
        }
    }

    /// Makes room for `n` more keys. `AllocError` where a request for memory was refused.
    pub fn reserve(&mut self, n: usize) -> Result<(), AllocError>
        ensures number { (key : Key) → number_at self.new key ≡ number_at self.old key }
        ensures room { OnOk result (n ≤ self.new.spare) }
        ensures spare { self.old.spare ≤ self.new.spare }
    {
        self.counts.reserve(n)
    }

    /// Counts one more active consumer of the key. Takes no memory.
    pub fn join(&mut self, key: Key)
        requires room { 0 < self.old.spare }
        requires fits { number_at self.old key + 1 < 2 ^ 64 }
        ensures number { (k : Key) → number_at self.new k ≡ number_at self.old k + (if key_eq key k then 1 else 0) }
        ensures spare { self.old.spare ≤ self.new.spare + 1 }
    {
        match self.counts.get_mut(&key) {
            None => self.counts.insert(key, 1),
            Some(number) => {
                *number += 1;
                drop(key);
            }
        }
    }

    /// Counts one active consumer of the key less, where there is one; with the last one the key goes. Takes no
    /// memory.
    pub fn leave(&mut self, key: &Key)
        ensures number { (k : Key) → number_at self.new k ≡ number_at self.old k - (if key_eq key.now k then 1 else 0) }
        ensures spare { self.old.spare ≤ self.new.spare }
    {
        let number = self.number(key);
        if number <= 1 {
            self.counts.remove(key);
        } else if let Some(held) = self.counts.get_mut(key) {
            *held = number - 1;
        }
    }

    /// Counts the consumer, where it is active and its subscription has a name. `AllocError` where a request for memory was
    /// refused.
    fn add(&mut self, consumer: &Consumer) -> Result<(), AllocError>
        requires { (key : Key) → spec.is_named key ≡ true → number_at self.old key + 1 < 2 ^ 64 }
        ensures { OnOk result ((key : Key) → spec.is_named key ≡ true →
            number_at self.new key ≡ number_at self.old key + (if spec.is_at key consumer.now then 1 else 0)) }
    {
        if consumer.is_active && is_named(&consumer.key) {
            self.counts.reserve(1)?;
            self.join(consumer.key.copy()?);
        }
        Ok(())
    }
}
