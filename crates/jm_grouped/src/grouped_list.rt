//! Lists of values in order of coming.

ghost use Rattle.std.specs.Prelude.{◌≡◌, ◌+◌, ◌<◌, ◌≤◌, ◌^◌, ◌==◌, ◌++◌, [], ◌∷◌, length, slice_get, IfOk, IsOk, OnOk, Some};
ghost use Rattle.std.specs.List.{All, remove};
ghost use Rattle.jm_grouped.specs.Grouped.{indexes_of};

use crate::copy::{copy_order, taken_slots};
use crate::indexes::Indexes;
use crate::order::{group_of, insert_slot};
use crate::sweep::{sweep_for_room, sweep_to_leave};
use jm_slots::Slots;
use std::alloc::{AllocError, Global};
use std::marker::Model;

/// Values in order of coming, of which some may be equal; those are found together, by the order of the values. Contracts see the
/// items and `spare`, for how many more there is room.
pub struct GroupedList<T: Ord> {
    /// The items by their slots, with those that went, until the slots close up.
    items: Vec<T>,
    /// Which slots are taken.
    slots: Slots<()>,
    /// The slots in the order of their items, and of equal items in order of coming: each that is taken, and some whose items
    /// went.
    order: Vec<usize>,
    /// Empty but while slots close up, with room for a mark of each.
    marks: Vec<usize>,
}

impl<T: Ord + Drop> Drop for GroupedList<T> {
    fn drop(self) {
        let GroupedList {
            items: _items,
            slots: _slots,
            order: _order,
            marks: _marks,
        } = self;
    }
}

impl<T: Ord> Model for GroupedList<T> {
    ghost use Rattle.std.specs.Prelude.{◌-◌, min, vec_len};
    ghost use Rattle.std.specs.Vec.{vec_capacity};
    ghost use Rattle.jm_grouped.specs.Grouped.{GroupedItems, items_of};
    ghost use Rattle.jm_grouped.specs.Order.{IsGrouped};

    ghost Value = { GroupedItems T };

    ghost view = { λ l. record {
      items = items_of l.items.items l.slots.slots;
      spare = min
          (min (vec_capacity l.items - vec_len l.items) (vec_capacity l.order - vec_len l.order))
          (min (vec_capacity l.marks - vec_len l.items) l.slots.spare);
    } };

    ghost invariant = { λ l. IsGrouped T.cmp l.items.items l.slots.slots l.order.items l.marks.items (vec_capacity l.marks) };
}

impl<T: Ord> GroupedList<T> {
    /// No items. Takes no memory.
    pub fn new(alloc: Global) -> GroupedList<T>
        ensures { result.items ≡ [] }
    {
        GroupedList {
            items: Vec::new(alloc),
            slots: Slots::new(alloc),
            order: Vec::new(alloc),
            marks: Vec::new(alloc),
        }
    }

    /// How many items there are.
    pub fn len(&self) -> usize
        ensures len { result ≡ length self.now.items }
        ensures small { length self.now.items < 2 ^ 63 }
    {
        self.slots.len()
    }

    /// Whether there is none.
    pub fn is_empty(&self) -> bool
        ensures { result ≡ (length self.now.items == 0) }
    {
        self.slots.is_empty()
    }

    /// For how many more items there is room.
    pub fn spare(&self) -> usize
        ensures { result ≡ self.now.spare }
    {
        let room = self.items.capacity() - self.items.len();
        let places = self.order.capacity() - self.order.len();
        let marks = self.marks.capacity() - self.items.len();
        room.min(places).min(marks.min(self.slots.spare()))
    }

    /// The item at that index, counted from 0 in order of coming.
    pub fn at(&self, index: usize) -> &T
        requires { index < length self.now.items }
        ensures { slice_get self.now.items index ≡ Some result.now }
    {
        &self.items[self.slots.slot_of(index)]
    }

    /// Where all items stand that are equal to the value: their indexes, counted from 0 in order of coming, in rising order. The
    /// group is found by halves, and each of its items by a step.
    pub fn indexes_of(&self, value: &T) -> Indexes<'_>
        ensures indexes { result ≡ indexes_of T.eq self.now.items value.now }
        ensures within { All (λ i. i < length self.now.items) result }
    {
        Indexes {
            places: group_of(self.items.as_slice(), self.order.as_slice(), value),
            slots: &self.slots,
        }
    }

    /// Adds an item behind all others. Takes no memory, since room was reserved.
    pub fn push(&mut self, value: T)
        requires { 0 < self.old.spare }
        ensures items { self.new.items ≡ self.old.items ++ value ∷ [] }
        ensures spare { self.old.spare ≤ self.new.spare + 1 }
    {
        insert_slot(self.items.as_slice(), &mut self.order, &value);
        self.items.push_reserved(value);
        self.slots.push(());
    }
}

impl<T: Ord + Drop> GroupedList<T> {
    /// Makes room for `n` more items. `AllocError` where a request for memory was refused, which does not come where there is
    /// room. Either way all but the room is as before.
    pub fn reserve(&mut self, n: usize) -> Result<(), AllocError>
        ensures items { self.new.items ≡ self.old.items }
        ensures room { OnOk result (n ≤ self.new.spare) }
        ensures spare { self.old.spare ≤ self.new.spare }
        ensures succeeds { n ≤ self.old.spare → IsOk result }
    {
        let lacks = self.spare() < n;
        sweep_for_room(
            &mut self.items,
            &mut self.slots,
            &mut self.order,
            &mut self.marks,
            lacks,
        );
        self.items.reserve(n)?;
        self.slots.reserve(n)?;
        self.order.reserve(n)?;
        match self.items.len().checked_add(n) {
            Some(all) => self.marks.reserve(all),
            None => Err(AllocError),
        }
    }

    /// Takes out the item at that index; those behind it have their indexes one less. No other moves, but for one call in so many
    /// that an eighth of the items can go before the next one. Takes no memory.
    pub fn remove_at(&mut self, index: usize)
        requires { index < length self.old.items }
        ensures items { self.new.items ≡ remove self.old.items index }
        ensures spare { self.old.spare ≤ self.new.spare }
    {
        sweep_to_leave(
            &mut self.items,
            &mut self.slots,
            &mut self.order,
            &mut self.marks,
        );
        let gap = self.slots.slot_of(index);
        self.slots.take(gap);
    }

    /// A list of equal items, which are handed in: no item is compared. There may be other room. `AllocError` where a request for
    /// memory was refused.
    pub fn copy_with(&self, items: Vec<T>) -> Result<GroupedList<T>, AllocError>
        requires { items.items ≡ self.now.items }
        ensures { IfOk result (λ copy. copy.items ≡ self.now.items) }
    {
        let alloc = *self.order.allocator();
        let order = copy_order(alloc, self.order.as_slice(), &self.slots)?;
        let slots = taken_slots(alloc, items.len())?;
        let marks = Vec::with_capacity(alloc, items.len())?;
        Ok(GroupedList {
            items,
            slots,
            order,
            marks,
        })
    }
}
