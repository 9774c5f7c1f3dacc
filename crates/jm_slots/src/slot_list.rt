//! Lists of items in slots.

ghost use Rattle.std.specs.Prelude.{◌≡◌, ◌+◌, ◌-◌, ◌*◌, ◌^◌, ◌<◌, ◌≤◌, ◌==◌, ◌++◌, [], ◌∷◌, length, map, remove, slice_get, slice_set, IsOk, IsSome, OnOk, None, Some};
ghost use Rattle.std.specs.Borrow.{sem};
ghost use Rattle.std.specs.Option.{option_copied};
ghost use Rattle.jm_slots.specs.Items.{item_in, items, items_before};
ghost use Rattle.jm_slots.specs.Marks.{marked_below};

use crate::marks::keep_marked;
use crate::search::{count_below, count_passed};
use std::alloc::{AllocError, Global};
use std::marker::Model;

/// Items in order of coming, each in a slot that it keeps while others go. Contracts see what stands in each slot, `spare`, for
/// how many more items there is room, and `leaving`, how many may be taken out before the gaps have to be closed.
#[derive(Drop)]
pub struct Slots<T> {
    slots: Vec<Option<T>>,
    /// The slots that are empty, in rising order. There is room for one at least in eight slots.
    gaps: Vec<usize>,
}

impl<T> Model for Slots<T> {
    ghost use Rattle.std.specs.Prelude.{◌≡◌, ◌≤◌, ◌-◌, ◌*◌, length, min, vec_len};
    ghost use Rattle.std.specs.Vec.{vec_capacity};
    ghost use Rattle.jm_slots.specs.Items.{gaps_from};
    ghost use Rattle.jm_slots.specs.SlotList.{SlotList};

    ghost Value = { SlotList T };

    ghost view = { λ s. record {
      slots = s.slots.items;
      spare = min (vec_capacity s.slots - vec_len s.slots) (8 * vec_capacity s.gaps - vec_len s.slots);
      leaving = vec_capacity s.gaps - vec_len s.gaps;
    } };

    ghost invariant = { λ s. (s.gaps.items ≡ gaps_from 0 s.slots.items) × (length s.slots.items ≤ 8 * vec_capacity s.gaps) };
}

impl<T> Slots<T> {
    ghost use Rattle.jm_slots.specs.Lends.{lends_item};

    /// No slots. Takes no memory.
    pub fn new(alloc: Global) -> Slots<T>
        ensures slots { result.slots ≡ [] }
        ensures spare { result.spare ≡ 0 }
        ensures leaving { result.leaving ≡ 0 }
    {
        Slots {
            slots: Vec::new(alloc),
            gaps: Vec::new(alloc),
        }
    }

    /// How many items there are.
    pub fn len(&self) -> usize
        ensures { result ≡ length (items self.now.slots) }
    {
        self.end() - self.gaps.len()
    }

    /// Whether there is none.
    pub fn is_empty(&self) -> bool
        ensures { result ≡ (length (items self.now.slots) == 0) }
    {
        self.len() == 0
    }

    /// How many slots there are, with the empty ones: the slot that the next item gets.
    pub fn end(&self) -> usize
        ensures end { result ≡ length self.now.slots }
        ensures small { length self.now.slots < 2 ^ 63 }
    {
        self.slots.len()
    }

    /// For how many more items there is room.
    pub fn spare(&self) -> usize
        ensures { result ≡ self.now.spare }
    {
        let room = self.slots.capacity() - self.slots.len();
        room.min(self.gaps.capacity().saturating_mul(8) - self.slots.len())
    }

    /// How many items may be taken out before the gaps have to be closed.
    pub fn leaving(&self) -> usize
        ensures leaving { result ≡ self.now.leaving }
        ensures eighth { let gaps = length self.now.slots - length (items self.now.slots) in length self.now.slots ≤ 8 * (result + gaps) }
    {
        self.gaps.capacity() - self.gaps.len()
    }

    /// What stands in the slot. None where it is empty, or there is no such slot.
    pub fn get(&self, slot: usize) -> Option<&T>
        ensures { option_copied result ≡ item_in self.now.slots slot }
    {
        if slot < self.slots.len() {
            self.slots[slot].as_ref()
        } else {
            None
        }
    }

    /// How many items stand before the slot: the index of the item in it, where one is. It is found by halves.
    pub fn index_of(&self, slot: usize) -> usize
        requires { slot ≤ length self.now.slots }
        ensures index { result ≡ items_before self.now.slots slot }
        ensures item { IsSome (item_in self.now.slots slot) → slice_get (items self.now.slots) result ≡ item_in self.now.slots slot }
    {
        slot - count_below(&self.gaps, slot)
    }

    /// The slot of the item at that index, counted from 0 in order of coming. It is found by halves.
    pub fn slot_of(&self, index: usize) -> usize
        requires { index < length (items self.now.slots) }
        ensures there { IsSome (item_in self.now.slots result) }
        ensures item { item_in self.now.slots result ≡ slice_get (items self.now.slots) index }
        ensures index { items_before self.now.slots result ≡ index }
    {
        index + count_passed(&self.gaps, index)
    }

    /// The item at that index, counted from 0 in order of coming. It is found by halves.
    pub fn at(&self, index: usize) -> &T
        requires { index < length (items self.now.slots) }
        ensures { slice_get (items self.now.slots) index ≡ Some result.now }
    {
        let slot = self.slot_of(index);
        self.slots[slot].as_ref().unwrap()
    }

    /// The item in the slot, to write.
    pub fn get_mut(&mut self, slot: usize) -> &mut T
        requires { IsSome (item_in self.old.slots slot) }
        ensures* writes_back { sem 𝓛 (lends_item T.row self.entry slot result) }
        ensures value { item_in self.old.slots slot ≡ Some result.now }
    {
        match &mut self.slots[slot] {
            Some(item) => item,
            None => unreachable!(),
        }
    }

    /// Makes room for `n` more items, and for gaps to match. `AllocError` where a request for memory was refused, which does not
    /// come where there is room. Either way all but the room is as before.
    pub fn reserve(&mut self, n: usize) -> Result<(), AllocError>
        ensures slots { self.new.slots ≡ self.old.slots }
        ensures room { OnOk result (n ≤ self.new.spare) }
        ensures spare { self.old.spare ≤ self.new.spare }
        ensures leaving { self.old.leaving ≤ self.new.leaving }
        ensures succeeds { n ≤ self.old.spare → IsOk result }
    {
        self.slots.reserve(n)?;
        let eighth = (self.slots.len() + n).div_ceil(8);
        self.gaps.reserve(eighth.saturating_sub(self.gaps.len()))
    }

    /// Adds an item behind all others, in a slot of its own. Takes no memory, since room was reserved.
    pub fn push(&mut self, item: T)
        requires { 0 < self.old.spare }
        ensures slots { self.new.slots ≡ self.old.slots ++ Some item ∷ [] }
        ensures items { items self.new.slots ≡ items self.old.slots ++ item ∷ [] }
        ensures spare { self.new.spare + 1 ≡ self.old.spare }
        ensures leaving { self.new.leaving ≡ self.old.leaving }
    {
        self.slots.push_reserved(Some(item));
    }

    /// Takes the item out of the slot, and gives it; each other item keeps its slot. Takes no memory, and moves no item.
    pub fn take(&mut self, slot: usize) -> T
        requires item { IsSome (item_in self.old.slots slot) }
        requires leaving { 0 < self.old.leaving }
        ensures item { item_in self.old.slots slot ≡ Some result }
        ensures slots { self.new.slots ≡ slice_set self.old.slots slot None }
        ensures items { items self.new.slots ≡ remove (items self.old.slots) (items_before self.old.slots slot) }
        ensures spare { self.new.spare ≡ self.old.spare }
        ensures leaving { self.new.leaving + 1 ≡ self.old.leaving }
    {
        let below = count_below(&self.gaps, slot);
        let _ = self.gaps.insert(below, slot);
        self.slots[slot].take().unwrap()
    }
}

impl<T: Drop> Slots<T> {
    /// Closes all gaps: each item then stands in the slot that is its index. Each slot is looked at once. Takes no memory.
    pub fn sweep(&mut self)
        ensures slots { self.new.slots ≡ map (λ item. Some item) (items self.old.slots) }
        ensures items { items self.new.slots ≡ items self.old.slots }
        ensures spare { let gaps = length self.old.slots - length (items self.old.slots) in self.new.spare ≡ self.old.spare + gaps }
        ensures leaving { let gaps = length self.old.slots - length (items self.old.slots) in self.new.leaving ≡ self.old.leaving + gaps }
        ensures eighth { length (items self.old.slots) ≤ 8 * self.new.leaving }
    {
        self.slots.retain(|slot| slot.is_some());
        self.gaps.clear();
    }

    /// Leaves the items whose slots have marks below `gone`, in their order, and closes all gaps: each then stands in the slot
    /// that is its index. Each slot is looked at twice, however many go. Takes no memory.
    pub fn retain_marked(&mut self, marks: &[usize], gone: usize)
        requires { length marks.now ≡ length self.old.slots }
        ensures slots { self.new.slots ≡ map (λ item. Some item) (items (marked_below gone marks.now self.old.slots)) }
        ensures spare { self.old.spare ≤ self.new.spare }
        ensures leaving { self.old.leaving ≤ self.new.leaving }
        ensures eighth { length self.new.slots ≤ 8 * self.new.leaving }
    {
        keep_marked(&mut self.slots, marks, gone);
        self.slots.retain(|slot| slot.is_some());
        self.gaps.clear();
    }

    /// Lets all items go, with their slots. Takes no memory.
    pub fn clear(&mut self)
        ensures slots { self.new.slots ≡ [] }
        ensures spare { self.new.spare ≡ self.old.spare + length self.old.slots }
        ensures leaving { let gaps = length self.old.slots - length (items self.old.slots) in self.new.leaving ≡ self.old.leaving + gaps }
    {
        self.slots.clear();
        self.gaps.clear();
    }
}
