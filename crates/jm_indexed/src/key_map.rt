//! Maps of keys in order of coming.

ghost use Rattle.std.specs.Prelude.{◌≡◌, ◌+◌, ◌<◌, ◌≤◌, ◌^◌, ◌==◌, ◌++◌, [], ◌∷◌, filter, length, is_some, slice_get, slice_index_or, IfNone, IfOk, IfSome, IsOk, OnOk, None, Some, false};
ghost use Rattle.std.specs.Borrow.{sem};
ghost use Rattle.std.specs.List.{IsDistinct, list_any, remove};
ghost use Rattle.std.specs.Map.{keys_of, lookup, remove_entry, values_of};
ghost use Rattle.std.specs.Option.{option_copied, option_copied_mut};
ghost use Rattle.std.specs.Ordering.{is_eq};
ghost use Rattle.std.specs.declared.cmp.Ordering.TheVariants.{Equal};
ghost use Rattle.jm_indexed.specs.Entries.{Updates};
ghost use Rattle.jm_indexed.specs.Order.{index_in};

use crate::choice::{Choice, EntryChoice};
use crate::copy::{copy_order, units};
use crate::order::{any_kept, find_slot, insert_slot};
use crate::section::{Section, place_inside};
use crate::sweep::{keep_entries, sweep_for_room, sweep_to_leave};
use jm_slots::Slots;
use std::alloc::{AllocError, Global};
use std::marker::Model;

/// Keys in order of coming, each once and with a value, each found by the order of the keys. Contracts see the entries, which
/// are the keys with their values, and `spare`, for how many more there is room.
pub struct KeyMap<K: Ord, V> {
    /// The keys by their slots, with those of the entries that went, until the slots close up.
    keys: Vec<K>,
    /// The values in the same slots.
    values: Slots<V>,
    /// The slots in the order of their keys: each that has a value, and some whose entries went.
    order: Vec<usize>,
    /// Empty but while slots are chosen, with room for a mark of each.
    marks: Vec<usize>,
}

impl<K: Ord + Drop, V: Drop> Drop for KeyMap<K, V> {
    fn drop(self) {
        let KeyMap {
            keys: _keys,
            values: _values,
            order: _order,
            marks: _marks,
        } = self;
    }
}

impl<K: Ord, V> Model for KeyMap<K, V> {
    ghost use Rattle.std.specs.Prelude.{◌-◌, min, vec_len};
    ghost use Rattle.std.specs.Vec.{vec_capacity};
    ghost use Rattle.jm_indexed.specs.Entries.{Entries, entries_of};
    ghost use Rattle.jm_indexed.specs.Order.{IsIndexed};

    ghost Value = { Entries K V };

    ghost view = { λ m. record {
      entries = entries_of m.keys.items m.values.slots;
      spare = min (min (vec_capacity m.keys - vec_len m.keys) (vec_capacity m.order - vec_len m.order)) (min (vec_capacity m.marks - vec_len m.keys) m.values.spare);
    } };

    ghost invariant = { λ m. IsIndexed K.cmp m.keys.items m.values.slots m.order.items m.marks.items (vec_capacity m.marks) };
}

impl<K: Ord, V> KeyMap<K, V> {
    ghost use Rattle.jm_indexed.specs.Lends.{lends_at, lends_get};

    /// No entries. Takes no memory.
    pub fn new(alloc: Global) -> KeyMap<K, V>
        ensures { result.entries ≡ [] }
    {
        KeyMap {
            keys: Vec::new(alloc),
            values: Slots::new(alloc),
            order: Vec::new(alloc),
            marks: Vec::new(alloc),
        }
    }

    /// How many entries there are. Each key stands once.
    pub fn len(&self) -> usize
        ensures len { result ≡ length self.now.entries }
        ensures once { IsDistinct K.eq (keys_of self.now.entries) }
        ensures small { length self.now.entries < 2 ^ 63 }
    {
        self.values.len()
    }

    /// Whether there is none.
    pub fn is_empty(&self) -> bool
        ensures { result ≡ (length self.now.entries == 0) }
    {
        self.values.is_empty()
    }

    /// For how many more entries there is room.
    pub fn spare(&self) -> usize
        ensures { result ≡ self.now.spare }
    {
        let room = self.keys.capacity() - self.keys.len();
        let places = self.order.capacity() - self.order.len();
        let marks = self.marks.capacity() - self.keys.len();
        room.min(places).min(marks.min(self.values.spare()))
    }

    /// The key at that index, counted from 0 in order of coming.
    pub fn key_at(&self, index: usize) -> &K
        requires { index < length self.now.entries }
        ensures { (d : K) → result.now ≡ slice_index_or (keys_of self.now.entries) index d }
    {
        &self.keys[self.values.slot_of(index)]
    }

    /// The entry at that index, counted from 0 in order of coming.
    pub fn entry_at(&self, index: usize) -> (&K, &V)
        requires { index < length self.now.entries }
        ensures { slice_get self.now.entries index ≡ Some (result.0.now, result.1.now) }
    {
        (self.key_at(index), self.values.at(index))
    }

    /// Where the key stands, from 0 in order of coming. It is found by halves.
    pub fn index_of(&self, key: &K) -> Option<usize>
        ensures index { result ≡ index_in K.eq (keys_of self.now.entries) key.now }
        ensures found { is_some result ≡ is_some (lookup (K.eq key.now) self.now.entries) }
        ensures value { IfSome result (λ i. slice_get (values_of self.now.entries) i ≡ lookup (K.eq key.now) self.now.entries) }
        ensures within { IfSome result (λ i. i < length self.now.entries) }
    {
        match find_slot(
            self.keys.as_slice(),
            &self.values,
            self.order.as_slice(),
            key,
        ) {
            Some(slot) => Some(self.values.index_of(slot)),
            None => None,
        }
    }

    /// Where the key stands, as `index_of` answers it. At the index that is guessed it is found by one comparison, so that keys
    /// which are asked for in their order of coming cost no search.
    pub fn index_near(&self, key: &K, guess: usize) -> Option<usize>
        ensures index { result ≡ index_in K.eq (keys_of self.now.entries) key.now }
        ensures found { is_some result ≡ is_some (lookup (K.eq key.now) self.now.entries) }
        ensures value { IfSome result (λ i. slice_get (values_of self.now.entries) i ≡ lookup (K.eq key.now) self.now.entries) }
        ensures within { IfSome result (λ i. i < length self.now.entries) }
    {
        if guess < self.len() && *self.key_at(guess) == *key {
            return Some(guess);
        }
        self.index_of(key)
    }

    /// Whether the key is there. It is found by halves.
    pub fn contains_key(&self, key: &K) -> bool
        ensures { result ≡ is_some (lookup (K.eq key.now) self.now.entries) }
    {
        find_slot(
            self.keys.as_slice(),
            &self.values,
            self.order.as_slice(),
            key,
        )
        .is_some()
    }

    /// Whether the choice keeps some key. Each slot is looked at once at most.
    pub fn any_key<C: Choice<K>>(&self, choice: &C) -> bool
        ensures { result ≡ list_any (C.kept choice.now) (keys_of self.now.entries) }
    {
        any_kept(self.keys.as_slice(), &self.values, choice)
    }

    /// Where a key of the section stands, if there is one, from 0 in order of coming: the first in the order of the keys from the
    /// guessed place of the order on, or else the first of all. The next guess is behind it, so that a section whose keys are taken
    /// out one by one is gone over once.
    pub fn index_in<S: Section<K>>(&self, section: &S, guess: &mut usize) -> Option<usize>
        ensures within { IfSome result (λ i. i < length self.now.entries) }
        ensures found { IfSome result (λ i. (d : K) → S.place section.now (slice_index_or (keys_of self.now.entries) i d) ≡ Equal) }
        ensures none { IfNone result (list_any (λ key. is_eq (S.place section.now key)) (keys_of self.now.entries) ≡ false) }
    {
        let order = self.order.as_slice();
        match place_inside(self.keys.as_slice(), &self.values, order, section, *guess) {
            Some(place) => {
                *guess = place + 1;
                Some(self.values.index_of(order[place]))
            }
            None => None,
        }
    }

    /// The value of the key, if it is there. It is found by halves.
    pub fn get(&self, key: &K) -> Option<&V>
        ensures { option_copied result ≡ lookup (K.eq key.now) self.now.entries }
    {
        match find_slot(
            self.keys.as_slice(),
            &self.values,
            self.order.as_slice(),
            key,
        ) {
            Some(slot) => self.values.get(slot),
            None => None,
        }
    }

    /// The value at that index, counted from 0 in order of coming, to write.
    pub fn value_mut(&mut self, index: usize) -> &mut V
        requires { index < length self.old.entries }
        ensures* writes_back { sem 𝓛 (lends_at K.row V.row K.Ord self.entry index result) }
        ensures value { slice_get (values_of self.old.entries) index ≡ Some result.now }
    {
        let slot = self.values.slot_of(index);
        self.values.get_mut(slot)
    }

    /// The value of the key, if it is there, to write. It is found by halves.
    pub fn get_mut(&mut self, key: &K) -> Option<&mut V>
        ensures* writes_back { sem 𝓛 (lends_get K.row V.row K.Ord self.entry key.now result) }
        ensures value { option_copied_mut result ≡ lookup (K.eq key.now) self.old.entries }
    {
        match find_slot(
            self.keys.as_slice(),
            &self.values,
            self.order.as_slice(),
            key,
        ) {
            Some(slot) => Some(self.values.get_mut(slot)),
            None => None,
        }
    }

    /// Adds a key behind all others, with its value. Takes no memory, since room was reserved.
    pub fn insert(&mut self, key: K, value: V)
        requires room { 0 < self.old.spare }
        requires absent { lookup (K.eq key) self.old.entries ≡ None }
        ensures entries { self.new.entries ≡ self.old.entries ++ (key, value) ∷ [] }
        ensures updates { Updates K.eq self.old.entries self.new.entries key (Some value) }
        ensures spare { self.old.spare ≤ self.new.spare + 1 }
    {
        insert_slot(self.keys.as_slice(), &self.values, &mut self.order, &key);
        self.keys.push_reserved(key);
        self.values.push(value);
    }
}

impl<K: Ord + Drop, V: Drop> KeyMap<K, V> {
    /// Makes room for `n` more entries. `AllocError` where a request for memory was refused, which does not come where there
    /// is room. Either way all but the room is as before.
    pub fn reserve(&mut self, n: usize) -> Result<(), AllocError>
        ensures entries { self.new.entries ≡ self.old.entries }
        ensures room { OnOk result (n ≤ self.new.spare) }
        ensures spare { self.old.spare ≤ self.new.spare }
        ensures succeeds { n ≤ self.old.spare → IsOk result }
    {
        let lacks = self.spare() < n;
        sweep_for_room(
            &mut self.keys,
            &mut self.values,
            &mut self.order,
            &mut self.marks,
            lacks,
        );
        self.keys.reserve(n)?;
        self.values.reserve(n)?;
        self.order.reserve(n)?;
        match self.keys.len().checked_add(n) {
            Some(all) => self.marks.reserve(all),
            None => Err(AllocError),
        }
    }

    /// Takes out the entry at that index, counted from 0 in order of coming, and gives its value; those behind it have their
    /// indexes one less. No other moves, but for one call in so many that an eighth of the entries can go before the next one.
    /// Takes no memory.
    pub fn remove_at(&mut self, index: usize) -> V
        requires { index < length self.old.entries }
        ensures value { slice_get (values_of self.old.entries) index ≡ Some result }
        ensures entries { self.new.entries ≡ remove self.old.entries index }
        ensures spare { self.old.spare ≤ self.new.spare }
    {
        sweep_to_leave(
            &mut self.keys,
            &mut self.values,
            &mut self.order,
            &mut self.marks,
        );
        let gap = self.values.slot_of(index);
        self.values.take(gap)
    }

    /// Takes out the key, if it is there, and gives its value; those behind it have their indexes one less. Takes no memory.
    pub fn remove(&mut self, key: &K) -> Option<V>
        ensures value { result ≡ lookup (K.eq key.now) self.old.entries }
        ensures entries { self.new.entries ≡ remove_entry (K.eq key.now) self.old.entries }
        ensures updates { Updates K.eq self.old.entries self.new.entries key.now None }
        ensures spare { self.old.spare ≤ self.new.spare }
    {
        // The length is what says that each key stands once.
        let _number = self.len();
        let index = self.index_of(key)?;
        Some(self.remove_at(index))
    }

    /// Leaves the entries that the choice keeps, in their order. Each is looked at once, however many go. Takes no memory.
    pub fn retain<C: EntryChoice<K, V>>(&mut self, choice: &C)
        ensures entries { self.new.entries ≡ filter (λ e. C.kept choice.now e.0 e.1) self.old.entries }
        ensures spare { self.old.spare ≤ self.new.spare }
    {
        keep_entries(
            &mut self.keys,
            &mut self.values,
            &mut self.order,
            &mut self.marks,
            choice,
        );
    }
}

impl<K: Ord + Drop> KeyMap<K, ()> {
    /// A map of equal keys, which are handed in: no key is compared. There may be other room. `AllocError` where a request for
    /// memory was refused.
    pub(crate) fn copy_with(&self, keys: Vec<K>) -> Result<KeyMap<K, ()>, AllocError>
        requires { keys.items ≡ keys_of self.now.entries }
        ensures { IfOk result (λ copy. keys_of copy.entries ≡ keys_of self.now.entries) }
    {
        let alloc = *self.order.allocator();
        let order = copy_order(alloc, self.order.as_slice(), &self.values)?;
        let values = units(alloc, keys.len())?;
        let marks = Vec::with_capacity(alloc, keys.len())?;
        Ok(KeyMap {
            keys,
            values,
            order,
            marks,
        })
    }
}
