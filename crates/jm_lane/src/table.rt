//! The table of messages.

ghost use Rattle.std.specs.Prelude.{◌≡◌, ◌≢◌, ℕ, ◌+◌, ◌-◌, ◌<◌, ◌≤◌, ◌^◌, None, Some, IfOk, OnOk, IfSome, nat_eq, option_map, slice_get};
ghost use Rattle.std.specs.Map.{lookup};
ghost use Rattle.std.specs.Option.{option_copied};
ghost use Rattle.jm_lane.specs.Holders.{GainsHolder, IsNumberOfPlaces, KeepsMessages, LosesHolder, holders_of, last_message, message_of};

use indexmap::IndexMap;
use jm_header::Message;
use std::alloc::{AllocError, Global};
use std::marker::Model;

/// A message with the number of its holders, at least 1.
#[derive(Drop)]
pub(crate) struct Stored {
    pub message: Message,
    pub holders: u64,
}

impl Clone for Stored {
    ghost is_clone = { λ a b. b ≡ a };

    fn clone(&self) -> Result<Stored, AllocError> {
        Ok(Stored {
            message: self.message.copy()?,
            holders: self.holders,
        })
    }
}

/// Messages by the places of their publications (ours). Each stands once, beside the number of its
/// holders, and goes with the last of them. Contracts see for each place the message and how many hold
/// it, and `spare`, for how many more messages there is room.
pub struct Table {
    messages: IndexMap<u64, Stored>,
}

impl Drop for Table {
    fn drop(self) {
        let Table {
            messages: _messages,
        } = self;
    }
}

impl Model for Table {
    ghost use Rattle.indexmap.specs.IndexMap.{spare};
    ghost use Rattle.jm_lane.specs.Holders.{IsTable, Messages};

    ghost Value = { Messages };

    ghost view = { λ t. record { entries = t.messages.entries; spare = spare t.messages } };

    ghost invariant = { λ t. IsTable t.messages.entries };
}

impl Table {
    /// A table without messages. Takes no memory.
    pub fn new(alloc: Global) -> Table
        ensures { (p : ℕ) → holders_of result p ≡ 0 }
    {
        Table {
            messages: IndexMap::new(alloc),
        }
    }

    /// The same messages with as many holders each; the room may differ. `AllocError` where a request for memory was
    /// refused.
    pub fn copy(&self) -> Result<Table, AllocError>
        ensures { IfOk result (λ copy. copy ≡ record self.now { spare = copy.spare }) }
    {
        Ok(Table {
            messages: self.messages.clone()?,
        })
    }

    /// Makes room for that many more messages. `AllocError` where a request for memory was refused.
    /// Either way the messages and their holders are as before.
    pub fn reserve(&mut self, additional: usize) -> Result<(), AllocError>
        ensures room { OnOk result (additional ≤ self.new.spare) }
        ensures same { self.new ≡ record self.old { spare = self.new.spare } }
        ensures kept { self.old.spare ≤ self.new.spare }
    {
        self.messages.reserve(additional)
    }

    /// Puts a message at a place where none stands. It has one holder: the publication itself, which
    /// releases it once its rows are added. Takes no memory, since room was reserved.
    pub fn put(&mut self, place: u64, message: Message)
        requires room { 0 < self.old.spare }
        requires free { holders_of self.old place ≡ 0 }
        ensures holders { GainsHolder self.old self.new place }
        ensures message { message_of self.new place ≡ Some message }
        ensures others { (p : ℕ) → p ≢ place → message_of self.new p ≡ message_of self.old p }
        ensures room { self.old.spare ≤ self.new.spare + 1 }
    {
        let stored = Stored {
            message,
            holders: 1,
        };
        let _ = self.messages.insert(place, stored);
    }

    /// What stands at that place, with its index. The last of all, which is the newest where none has gone, is looked at
    /// before the place is looked up.
    fn find(&self, place: u64) -> Option<(usize, &Stored)>
        ensures value { option_map (λ p. p.1.now) result ≡ lookup (nat_eq place) self.now.entries }
        ensures entry { IfSome result (λ p. slice_get self.now.entries p.0 ≡ Some (place, p.1.now)) }
    {
        let last = self.messages.len().saturating_sub(1);
        if let Some((newest, stored)) = self.messages.get_index(last) {
            if *newest == place {
                return Some((last, stored));
            }
        }
        let (index, _, stored) = self.messages.get_full(&place)?;
        Some((index, stored))
    }

    /// The message at that place, where one stands there.
    pub fn get(&self, place: u64) -> Option<&Message>
        ensures { option_copied result ≡ message_of self.now place }
    {
        match self.find(place) {
            Some((_, stored)) => Some(&stored.message),
            None => None,
        }
    }

    /// How many hold the message at that place, and 0 where none stands there.
    pub fn holders(&self, place: u64) -> u64
        ensures { result ≡ holders_of self.now place }
    {
        match self.find(place) {
            Some((_, stored)) => stored.holders,
            None => 0,
        }
    }

    /// How many messages the table has.
    #[tactic(auto, using(crate::proofs::Standing::number_of_places))]
    pub fn len(&self) -> usize
        ensures { IsNumberOfPlaces result self.now }
    {
        self.messages.len()
    }

    /// One more row holds the message at that place. Takes no memory.
    pub fn hold(&mut self, place: u64)
        requires there { 0 < holders_of self.old place }
        requires fits { holders_of self.old place < 2 ^ 64 - 1 }
        ensures holders { GainsHolder self.old self.new place }
        ensures messages { KeepsMessages self.old self.new }
        ensures room { self.old.spare ≤ self.new.spare }
    {
        if let Some((index, _)) = self.find(place) {
            if let Some(stored) = self.messages.get_index_mut(index) {
                stored.holders += 1;
            }
        }
    }

    /// One holder less of the message at that place, which is looked up once. The message is handed out where this
    /// was the last one. Takes no memory.
    pub fn release(&mut self, place: u64) -> Option<Message>
        requires { 0 < holders_of self.old place }
        ensures result { result ≡ last_message self.old place }
        ensures holders { LosesHolder self.old self.new place }
        ensures messages { KeepsMessages self.old self.new }
        ensures room { self.old.spare ≤ self.new.spare }
    {
        let (index, stored) = self.find(place)?;
        if stored.holders == 1 {
            let (_, last) = self.messages.swap_remove_index(index)?;
            return Some(last.message);
        }
        let stored = self.messages.get_index_mut(index)?;
        stored.holders -= 1;
        None
    }

    /// One holder less of the message at that place, which goes where this was the last one.
    pub(crate) fn let_go(&mut self, place: u64)
        requires { 0 < holders_of self.old place }
        ensures holders { LosesHolder self.old self.new place }
        ensures messages { KeepsMessages self.old self.new }
    {
        let _ = self.release(place);
    }
}
