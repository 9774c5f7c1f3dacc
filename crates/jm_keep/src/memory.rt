//! A keeper in memory.

ghost use Rattle.std.specs.Prelude.{◌≡◌, ◌++◌, true, IfOk, OnOk, OnErr};
ghost use Rattle.std.specs.Option.{option_copied};
ghost use Rattle.jm_keep.specs.Stored as spec;
ghost use Rattle.jm_keep.specs.Stored.{changed_all, nothing};

use crate::change::RowChange;
use crate::keep::{Keep, StoreFault};
use jm_base::List;
use jm_dest::{Key, Moment};
use jm_machine::Definition;
use std::alloc::{AllocError, Global};
use std::marker::Model;

/// Keeps all changes that were ever made, in their order; so it grows, and is for tests. It never fails but for memory.
pub struct MemKeep {
    alloc: Global,
    changes: Vec<RowChange>,
}

impl Drop for MemKeep {
    fn drop(self) {
        let MemKeep {
            alloc: _alloc,
            changes: _changes,
        } = self;
    }
}

impl Model for MemKeep {
    ghost use Rattle.std.specs.Prelude.{List};
    ghost use Rattle.jm_keep.specs.declared.change.RowChange.{RowChange};

    ghost Value = { List RowChange };

    ghost view = { λ k. k.changes.items };
}

/// Copies of the changes. `AllocError` where a request for memory was refused.
fn copied(alloc: Global, changes: &[RowChange]) -> Result<Vec<RowChange>, AllocError>
    ensures { IfOk result (λ copies. copies.items ≡ changes.now) }
{
    let mut copies = Vec::with_capacity(alloc, changes.len())?;
    for change in changes {
        copies.push(change.copy(alloc)?)?;
    }
    Ok(copies)
}

/// What the durable subscription of the key asks for after the change, where it was that before.
fn definition_next<'a>(
    definition: Option<&'a Definition>,
    key: &Key,
    change: &'a RowChange,
) -> Option<&'a Definition>
    ensures { option_copied result ≡ spec.definition_after key.now (option_copied definition.entry) change.now }
{
    match change {
        RowChange::DropStation { key: of } if of.is(key) => None,
        RowChange::PutStation {
            key: of,
            definition: Some(new),
        } if of.is(key) => Some(new),
        _ => definition,
    }
}

/// The count of the key's row at the place after the change, where it was that before.
fn count_next(count: Option<u32>, key: &Key, place: u64, change: &RowChange) -> Option<u32>
    ensures { result ≡ spec.count_after key.now place count change.now }
{
    match change {
        RowChange::DropHeld { key: of, place: at } if of.is(key) && *at == place => None,
        RowChange::PutHeld { key: of, place: at } if of.is(key) && *at == place => Some(0),
        RowChange::SetCount {
            key: of,
            place: at,
            count: new,
        } if of.is(key) && *at == place => count.map(|_| *new),
        _ => count,
    }
}

/// The record of the message at the place after the change, where it was that before.
fn message_next<'a>(
    message: Option<&'a List<u8>>,
    place: u64,
    change: &'a RowChange,
) -> Option<&'a List<u8>>
    ensures { option_copied result ≡ spec.message_after place (option_copied message.entry) change.now }
{
    match change {
        RowChange::DropMessage { place: at } if *at == place => None,
        RowChange::PutMessage { place: at, bytes } if *at == place => Some(bytes),
        _ => message,
    }
}

/// The delivery time of the message at the place after the change, where it was that before.
fn due_next(due: Option<Moment>, place: u64, change: &RowChange) -> Option<Moment>
    ensures { result ≡ spec.due_after place due change.now }
{
    match change {
        RowChange::DropDelay { place: at } if *at == place => None,
        RowChange::PutDelay {
            place: at,
            due: delivery_time,
        } if *at == place => Some(*delivery_time),
        _ => due,
    }
}

impl MemKeep {
    /// Nothing is stored. Takes no memory.
    pub fn new(alloc: Global) -> MemKeep
        ensures { changed_all nothing result ≡ nothing }
    {
        MemKeep {
            alloc,
            changes: Vec::new(alloc),
        }
    }

    /// All changes that were made, in turn.
    pub fn changes(&self) -> &[RowChange]
        ensures { result.now ≡ self.now }
    {
        self.changes.as_slice()
    }

    /// What the durable subscription of the key asks for, where it is stored. Goes over all changes; takes no memory.
    pub fn definition(&self, key: &Key) -> Option<&Definition>
        ensures { option_copied result ≡ (changed_all nothing self.now).definition key.now }
    {
        let mut definition = None;
        for change in &self.changes {
            definition = definition_next(definition, key, change);
        }
        definition
    }

    /// How often the key's row at that place was delivered, where it is stored. Goes over all changes; takes no memory.
    pub fn count(&self, key: &Key, place: u64) -> Option<u32>
        ensures { result ≡ (changed_all nothing self.now).count key.now place }
    {
        let mut count = None;
        for change in &self.changes {
            count = count_next(count, key, place, change);
        }
        count
    }

    /// The record of the message at that place, where it is stored. Goes over all changes; takes no memory.
    pub fn message(&self, place: u64) -> Option<&List<u8>>
        ensures { option_copied result ≡ (changed_all nothing self.now).message place }
    {
        let mut message = None;
        for change in &self.changes {
            message = message_next(message, place, change);
        }
        message
    }

    /// The delivery time of the message at that place, where it is stored with a delay. Goes over all changes; takes no
    /// memory.
    pub fn due(&self, place: u64) -> Option<Moment>
        ensures { result ≡ (changed_all nothing self.now).due place }
    {
        let mut due = None;
        for change in &self.changes {
            due = due_next(due, place, change);
        }
        due
    }

    /// Adds the changes behind all others, or none of them.
    fn add(&mut self, changes: &[RowChange]) -> Result<(), AllocError>
        ensures ok { OnOk result (self.new ≡ self.old ++ changes.now) }
        ensures err { OnErr result (self.new ≡ self.old) }
    {
        let mut copies = copied(self.alloc, changes)?;
        self.changes.append(&mut copies)?;
        Ok(())
    }
}

impl Keep for MemKeep {
    ghost use Rattle.std.specs.Prelude.{true};
    ghost use Rattle.jm_keep.specs.Stored.{changed_all, nothing};

    ghost stored = { λ k. changed_all nothing k };

    ghost faults = { λ k. 0 };

    ghost is_clean = { λ k. true };

    ghost is_keeping = { λ k. true };

    fn keeps(&self) -> bool
        ensures { result ≡ true }
    {
        true
    }

    #[tactic(auto, using(std::proofs::lemmas::Grind::common_steps))]
    fn write(&mut self, changes: &[RowChange]) -> Result<(), StoreFault>
        ensures written { OnOk result (changed_all nothing self.new ≡ changed_all (changed_all nothing self.old) changes.now) }
        ensures refused { OnErr result (changed_all nothing self.new ≡ changed_all nothing self.old) }
        ensures memory { OnErr result (result ≡ Err StoreFault.Memory) }
    {
        match self.add(changes) {
            Ok(()) => Ok(()),
            Err(_) => Err(StoreFault::Memory),
        }
    }
}
