//! The consumers, by number, and how many active ones the subscriptions that have names have.

ghost use Rattle.std.specs.Prelude.{◌≡◌, ◌+◌, ◌<◌, ◌≤◌, ◌++◌, [], ◌∷◌, map, true, false, is_some, option_to_list, IfOk, OnOk, IsOk};
ghost use Rattle.std.specs.Option.{option_copied};
ghost use Rattle.indexmap.specs.IndexMap.{spare, values};
ghost use Rattle.jm_machine.specs.Attached.{AreCounted};
ghost use Rattle.jm_machine.specs.Machine as machine;
ghost use Rattle.jm_session.specs.Numbers.{IsNumbered, number_of};
ghost use Rattle.jm_session.specs.Opened.{AreActive};

use crate::closing::{close_consumer, close_consumers};
use crate::copies::copied_keys;
use crate::marks::{mark_busy, mark_listening};
use crate::number::ConsumerNumber;
use crate::one::{one_active, one_consumer};
use crate::source::Source;
use indexmap::IndexMap;
use jm_dest::{ConsumerId, SessionId};
use jm_indexed::KeySet;
use jm_machine::{Attached, Consumer, Consumers};
use std::alloc::{AllocError, Global};
use std::marker::Model;

/// The consumers that were made, each in order and found by its number, the numbers of the active ones, and of the keys that
/// have names how many active ones each has. Contracts see the consumers as the machine's list, and `spare`, for how many
/// more there is room.
pub(crate) struct Roster {
    consumers: IndexMap<ConsumerNumber, Consumer>,
    active: KeySet<ConsumerNumber>,
    attached: Attached,
    /// For so many more keys there is room in `attached`.
    room: usize,
}

impl Drop for Roster {
    fn drop(self) {
        let Roster {
            consumers: _consumers,
            active: _active,
            attached: _attached,
            room: _,
        } = self;
    }
}

impl Model for Roster {
    ghost use Rattle.std.specs.Prelude.{◌≤◌, min};
    ghost use Rattle.indexmap.specs.IndexMap.{spare, values};
    ghost use Rattle.jm_machine.specs.Attached.{AreCounted};
    ghost use Rattle.jm_session.specs.Known.{Listed};
    ghost use Rattle.jm_session.specs.Numbers.{IsNumbered, number_of};
    ghost use Rattle.jm_session.specs.Opened.{AreActive};

    ghost Value = { Listed };

    ghost view = { λ r. record { consumers = values r.consumers; spare = min (min (spare r.consumers) r.active.spare) r.room } };

    ghost invariant = { λ r.
        IsNumbered number_of r.consumers.entries
        × AreCounted (values r.consumers) r.attached
        × (r.room ≤ r.attached.spare)
        × AreActive (values r.consumers) r.active };
}

/// Adds the consumer, which is active, and whose number none has yet. Takes no memory.
fn append(
    consumers: &mut IndexMap<ConsumerNumber, Consumer>,
    active: &mut KeySet<ConsumerNumber>,
    consumer: Consumer,
)
    requires room { 0 < spare consumers.old }
    requires active_room { 0 < active.old.spare }
    requires new { is_some (machine.consumer_of (values consumers.old) consumer.session consumer.id) ≡ false }
    requires numbered { IsNumbered number_of consumers.old.entries }
    requires is_active { consumer.is_active ≡ true }
    requires active { AreActive (values consumers.old) active.old }
    ensures values { values consumers.new ≡ values consumers.old ++ consumer ∷ [] }
    ensures numbered { IsNumbered number_of consumers.new.entries }
    ensures active { AreActive (values consumers.new) active.new }
    ensures spare { spare consumers.old ≤ spare consumers.new + 1 }
    ensures active_spare { active.old.spare ≤ active.new.spare + 1 }
{
    active.insert(ConsumerNumber::of(&consumer));
    let number = ConsumerNumber::of(&consumer);
    drop(consumers.insert(number, consumer));
}

/// The same consumers, under the same numbers. `AllocError` where a request for memory was refused.
#[tactic(auto, using(crate::proofs::Found::same_entries))]
fn copied_consumers(
    consumers: &IndexMap<ConsumerNumber, Consumer>,
) -> Result<IndexMap<ConsumerNumber, Consumer>, AllocError>
    ensures { IfOk result (λ copy. copy.entries ≡ consumers.now.entries) }
{
    consumers.clone()
}

impl Roster {
    /// No consumer was made. Takes no memory.
    pub(crate) fn new(alloc: Global) -> Roster
        ensures { result.consumers ≡ [] }
    {
        Roster {
            consumers: IndexMap::new(alloc),
            active: KeySet::new(alloc),
            attached: Attached::new(alloc),
            room: 0,
        }
    }

    /// That consumer, if any, as it is. `AllocError` where a request for memory was refused.
    pub(crate) fn of_one(alloc: Global, consumer: Option<Consumer>) -> Result<Roster, AllocError>
        ensures { IfOk result (λ one. one.consumers ≡ option_to_list consumer) }
    {
        let active = one_active(alloc, &consumer)?;
        let consumers = one_consumer(alloc, consumer)?;
        let attached = Attached::of(alloc, consumers.values().as_slice())?;
        Ok(Roster {
            consumers,
            active,
            attached,
            room: 0,
        })
    }

    /// The same consumers; the room may differ. `AllocError` where a request for memory was refused.
    pub(crate) fn copy(&self, alloc: Global) -> Result<Roster, AllocError>
        ensures { IfOk result (λ copy. copy.consumers ≡ self.now.consumers) }
    {
        let attached = Attached::of(alloc, self.as_slice())?;
        let active = copied_keys(alloc, &self.active)?;
        Ok(Roster {
            consumers: copied_consumers(&self.consumers)?,
            active,
            attached,
            room: 0,
        })
    }

    /// The consumers, in order.
    pub(crate) fn as_slice(&self) -> &[Consumer]
        ensures { result.now ≡ self.now.consumers }
    {
        self.consumers.values().as_slice()
    }

    /// How many active ones the keys that have names have.
    pub(crate) fn attached(&self) -> &Attached
        ensures { AreCounted self.now.consumers result.now }
    {
        &self.attached
    }

    /// The session's consumer of that number, where it was made.
    pub(crate) fn find(&self, session: &SessionId, id: ConsumerId) -> Option<&Consumer>
        ensures { option_copied result ≡ machine.consumer_of self.now.consumers session.now id }
    {
        self.consumers.get(&ConsumerNumber {
            session: *session,
            consumer: id,
        })
    }

    /// Makes room for `n` more. `AllocError` where a request for memory was refused, which does not come where there is
    /// room.
    pub(crate) fn reserve(&mut self, n: usize) -> Result<(), AllocError>
        ensures room { OnOk result (n ≤ self.new.spare) }
        ensures succeeds { n ≤ self.old.spare → IsOk result }
        ensures spare { self.old.spare ≤ self.new.spare }
        ensures consumers { self.new.consumers ≡ self.old.consumers }
    {
        self.consumers.reserve(n)?;
        self.active.reserve(n)?;
        if self.room < n {
            self.attached.reserve(n)?;
            self.room = n;
        }
        Ok(())
    }

    /// Makes the session's consumer of that number, which was not made yet, of the source. Takes no memory.
    pub(crate) fn add(&mut self, session: &SessionId, id: ConsumerId, source: Source)
        requires room { 0 < self.old.spare }
        requires new { is_some (machine.consumer_of self.old.consumers session.now id) ≡ false }
        ensures consumers { self.new.consumers ≡
            self.old.consumers ++ machine.new_consumer session.now id source.key source.selector ∷ [] }
        ensures spare { self.old.spare ≤ self.new.spare + 1 }
    {
        let (key, selector, counted) = source.into_parts();
        let consumer = Consumer {
            session: *session,
            id,
            key,
            selector,
            is_active: true,
            is_listening: false,
            is_busy: false,
        };
        append(&mut self.consumers, &mut self.active, consumer);
        // The length is what says that one more can be counted.
        let _number = self.consumers.len();
        if let Some(key) = counted {
            self.attached.join(key);
            self.room -= 1;
        }
    }

    /// Closes those that are meant, and looks at no other. Takes no memory.
    pub(crate) fn close(&mut self, which: &Consumers)
        ensures consumers { self.new.consumers ≡ map (machine.closed_consumer (machine.are_meant which.now)) self.old.consumers }
        ensures spare { self.old.spare ≤ self.new.spare }
    {
        close_consumers(
            &mut self.consumers,
            &mut self.active,
            &mut self.attached,
            which,
        );
    }

    /// Closes the session's consumer of that number, where it was made. Takes no memory.
    pub(crate) fn close_one(&mut self, session: &SessionId, id: ConsumerId)
        ensures consumers { self.new.consumers ≡ map (machine.closed_consumer (machine.of_number session.now id)) self.old.consumers }
        ensures spare { self.old.spare ≤ self.new.spare }
    {
        let number = ConsumerNumber {
            session: *session,
            consumer: id,
        };
        close_consumer(
            &mut self.consumers,
            &mut self.active,
            &mut self.attached,
            number,
        );
    }

    /// The session's consumer of that number, where it was made, has that mark of its listener. Takes no memory.
    pub(crate) fn set_listening(&mut self, session: &SessionId, id: ConsumerId, on: bool)
        ensures consumers { self.new.consumers ≡ machine.set_listening session.now id on self.old.consumers }
        ensures spare { self.old.spare ≤ self.new.spare }
    {
        let number = ConsumerNumber {
            session: *session,
            consumer: id,
        };
        mark_listening(&mut self.consumers, number, on);
    }

    /// The session's consumer of that number, where it was made, is busy, or not. Takes no memory.
    pub(crate) fn set_busy(&mut self, session: &SessionId, id: ConsumerId, on: bool)
        ensures consumers { self.new.consumers ≡ machine.set_busy session.now id on self.old.consumers }
        ensures spare { self.old.spare ≤ self.new.spare }
    {
        let number = ConsumerNumber {
            session: *session,
            consumer: id,
        };
        mark_busy(&mut self.consumers, number, on);
    }
}
