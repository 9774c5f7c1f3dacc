//! Lists of items, of which each goes without moving others.

ghost use Rattle.std.specs.Prelude.{◌≡◌, ◌+◌, ◌^◌, ◌<◌, ◌≤◌, ◌==◌, ◌++◌, [], ◌∷◌, length, remove, slice_get, IsOk, OnOk, Some};
ghost use Rattle.std.specs.Borrow.{sem};

use jm_slots::Slots;
use std::alloc::{AllocError, Global};
use std::marker::Model;

/// Items in order of coming, each found by its index, of which each goes without moving others. Contracts see the items, and
/// `spare`, for how many more there is room.
#[derive(Drop)]
pub struct GapList<T> {
    slots: Slots<T>,
}

impl<T> Model for GapList<T> {
    ghost use Rattle.jm_slots.specs.Items.{items};
    ghost use Rattle.jm_gaps.specs.Listed.{Listed};

    ghost Value = { Listed T };

    ghost view = { λ l. record { items = items l.slots.slots; spare = l.slots.spare } };
}

impl<T> GapList<T> {
    ghost use Rattle.jm_gaps.specs.Lends.{lends_at};

    /// No items. Takes no memory.
    pub fn new(alloc: Global) -> GapList<T>
        ensures items { result.items ≡ [] }
        ensures spare { result.spare ≡ 0 }
    {
        GapList {
            slots: Slots::new(alloc),
        }
    }

    /// How many items there are.
    pub fn len(&self) -> usize
        ensures len { result ≡ length self.now.items }
        ensures small { length self.now.items < 2 ^ 63 }
    {
        // The number of slots is what says that there are no more items than that.
        let _number = self.slots.end();
        self.slots.len()
    }

    /// Whether there is none.
    pub fn is_empty(&self) -> bool
        ensures { result ≡ (length self.now.items == 0) }
    {
        self.slots.is_empty()
    }

    /// For how many more items there is room.
    pub fn spare(&self) -> usize
        ensures { result ≡ self.now.spare }
    {
        self.slots.spare()
    }

    /// The item at that index, counted from 0 in order of coming. It is found by halves among the gaps.
    pub fn at(&self, index: usize) -> &T
        requires { index < length self.now.items }
        ensures { slice_get self.now.items index ≡ Some result.now }
    {
        self.slots.at(index)
    }

    /// The item at that index, counted from 0 in order of coming, to write.
    pub fn at_mut(&mut self, index: usize) -> &mut T
        requires { index < length self.old.items }
        ensures* writes_back { sem 𝓛 (lends_at T.row self.entry index result) }
        ensures value { slice_get self.old.items index ≡ Some result.now }
    {
        let slot = self.slots.slot_of(index);
        self.slots.get_mut(slot)
    }

    /// Adds an item behind all others. Takes no memory, since room was reserved.
    pub fn push(&mut self, item: T)
        requires { 0 < self.old.spare }
        ensures items { self.new.items ≡ self.old.items ++ item ∷ [] }
        ensures spare { self.new.spare + 1 ≡ self.old.spare }
    {
        self.slots.push(item);
    }
}

impl<T: Drop> GapList<T> {
    /// Makes room for `n` more items. `AllocError` where a request for memory was refused, which does not come where there is
    /// room. Either way all but the room is as before.
    pub fn reserve(&mut self, n: usize) -> Result<(), AllocError>
        ensures items { self.new.items ≡ self.old.items }
        ensures room { OnOk result (n ≤ self.new.spare) }
        ensures spare { self.old.spare ≤ self.new.spare }
        ensures succeeds { n ≤ self.old.spare → IsOk result }
    {
        if self.slots.spare() < n && self.slots.end() / 16 < self.slots.end() - self.slots.len() {
            self.slots.sweep();
        }
        self.slots.reserve(n)
    }

    /// Takes out the item at that index, and gives it; those behind it have their indexes one less. No other moves, but for one
    /// call in so many that an eighth of the items can go before the next one. Takes no memory.
    pub fn remove(&mut self, index: usize) -> T
        requires { index < length self.old.items }
        ensures item { slice_get self.old.items index ≡ Some result }
        ensures items { self.new.items ≡ remove self.old.items index }
        ensures spare { self.old.spare ≤ self.new.spare }
    {
        if self.slots.leaving() == 0 {
            self.slots.sweep();
        }
        let gap = self.slots.slot_of(index);
        self.slots.take(gap)
    }
}
