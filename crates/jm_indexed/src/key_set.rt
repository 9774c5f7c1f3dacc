//! Sets of keys in order of coming.

ghost use Rattle.std.specs.Prelude.{◌≡◌, ◌+◌, ◌<◌, ◌≤◌, ◌^◌, ◌==◌, ◌++◌, [], ◌∷◌, filter, length, slice_index_or, IfNone, IfOk, IfSome, OnOk, IsOk, None, false};
ghost use Rattle.std.specs.List.{IsDistinct, list_any, remove};
ghost use Rattle.std.specs.Ordering.{is_eq};
ghost use Rattle.std.specs.declared.cmp.Ordering.TheVariants.{Equal};
ghost use Rattle.jm_indexed.specs.Order.{index_in};

use crate::choice::{Choice, EntryChoice};
use crate::key_map::KeyMap;
use crate::section::Section;
use std::alloc::{AllocError, Global};
use std::marker::Model;

/// Keys in order of coming, each once, each found by the order of the keys. Contracts see the keys and `spare`, for how many
/// more there is room.
pub struct KeySet<K: Ord> {
    map: KeyMap<K, ()>,
}

impl<K: Ord + Drop> Drop for KeySet<K> {
    fn drop(self) {
        let KeySet { map: _map } = self;
    }
}

impl<K: Ord> Model for KeySet<K> {
    ghost use Rattle.std.specs.Map.{keys_of};
    ghost use Rattle.jm_indexed.specs.Keys.{Keys};

    ghost Value = { Keys K };

    ghost view = { λ s. record {
      keys = keys_of s.map.entries;
      spare = s.map.spare;
    } };
}

/// A choice among keys, as one among entries.
#[derive(Clone, Copy)]
struct ByKey<'c, C> {
    choice: &'c C,
}

impl<'c, K, C: Choice<K>> EntryChoice<K, ()> for ByKey<'c, C> {
    ghost kept = { λ by key value. C.kept by.choice.now key };

    fn keeps(&self, key: &K, _value: &()) -> bool {
        self.choice.keeps(key)
    }
}

impl<K: Ord> KeySet<K> {
    /// No keys. Takes no memory.
    pub fn new(alloc: Global) -> KeySet<K>
        ensures { result.keys ≡ [] }
    {
        KeySet {
            map: KeyMap::new(alloc),
        }
    }

    /// How many keys there are. Each stands once.
    pub fn len(&self) -> usize
        ensures len { result ≡ length self.now.keys }
        ensures once { IsDistinct K.eq self.now.keys }
        ensures small { length self.now.keys < 2 ^ 63 }
    {
        self.map.len()
    }

    /// Whether there is none.
    pub fn is_empty(&self) -> bool
        ensures { result ≡ (length self.now.keys == 0) }
    {
        self.map.is_empty()
    }

    /// For how many more keys there is room.
    pub fn spare(&self) -> usize
        ensures { result ≡ self.now.spare }
    {
        self.map.spare()
    }

    /// The key at that index, counted from 0 in order of coming.
    pub fn key_at(&self, index: usize) -> &K
        requires { index < length self.now.keys }
        ensures { (d : K) → result.now ≡ slice_index_or self.now.keys index d }
    {
        self.map.key_at(index)
    }

    /// Where the key stands, from 0 in order of coming. It is found by halves.
    pub fn index_of(&self, key: &K) -> Option<usize>
        ensures index { result ≡ index_in K.eq self.now.keys key.now }
        ensures within { IfSome result (λ i. i < length self.now.keys) }
    {
        self.map.index_of(key)
    }

    /// Where the key stands, as `index_of` answers it. At the index that is guessed it is found by one comparison.
    pub fn index_near(&self, key: &K, guess: usize) -> Option<usize>
        ensures index { result ≡ index_in K.eq self.now.keys key.now }
        ensures within { IfSome result (λ i. i < length self.now.keys) }
    {
        self.map.index_near(key, guess)
    }

    /// Where a key of the section stands, if there is one, from 0 in order of coming: the first in the order of the keys from the
    /// guessed place of the order on, or else the first of all. The next guess is behind it, so that a section whose keys are taken
    /// out one by one is gone over once.
    pub fn index_in<S: Section<K>>(&self, section: &S, guess: &mut usize) -> Option<usize>
        ensures within { IfSome result (λ i. i < length self.now.keys) }
        ensures found { IfSome result (λ i. (d : K) → S.place section.now (slice_index_or self.now.keys i d) ≡ Equal) }
        ensures none { IfNone result (list_any (λ key. is_eq (S.place section.now key)) self.now.keys ≡ false) }
    {
        self.map.index_in(section, guess)
    }

    /// Whether the choice keeps some key. Each slot is looked at once at most.
    pub fn any<C: Choice<K>>(&self, choice: &C) -> bool
        ensures { result ≡ list_any (C.kept choice.now) self.now.keys }
    {
        self.map.any_key(choice)
    }

    /// Adds a key behind all others. Takes no memory, since room was reserved.
    pub fn insert(&mut self, key: K)
        requires room { 0 < self.old.spare }
        requires absent { index_in K.eq self.old.keys key ≡ None }
        ensures keys { self.new.keys ≡ self.old.keys ++ key ∷ [] }
        ensures spare { self.old.spare ≤ self.new.spare + 1 }
    {
        self.map.insert(key, ());
    }
}

impl<K: Ord + Drop> KeySet<K> {
    /// Makes room for `n` more keys. `AllocError` where a request for memory was refused, which does not come where there is
    /// room. Either way all but the room is as before.
    pub fn reserve(&mut self, n: usize) -> Result<(), AllocError>
        ensures keys { self.new.keys ≡ self.old.keys }
        ensures room { OnOk result (n ≤ self.new.spare) }
        ensures spare { self.old.spare ≤ self.new.spare }
        ensures succeeds { n ≤ self.old.spare → IsOk result }
    {
        self.map.reserve(n)
    }

    /// Takes out the key at that index; those behind it have their indexes one less. Takes no memory.
    pub fn remove(&mut self, index: usize)
        requires { index < length self.old.keys }
        ensures keys { self.new.keys ≡ remove self.old.keys index }
        ensures spare { self.old.spare ≤ self.new.spare }
    {
        self.map.remove_at(index);
    }

    /// Leaves the keys that the choice keeps, in their order. Each is looked at once, however many go. Takes no memory.
    pub fn retain<C: Choice<K>>(&mut self, choice: &C)
        ensures keys { self.new.keys ≡ filter (C.kept choice.now) self.old.keys }
        ensures spare { self.old.spare ≤ self.new.spare }
    {
        self.map.retain(&ByKey { choice });
    }

    /// A set of equal keys, which are handed in: no key is compared. There may be other room. `AllocError` where a request for
    /// memory was refused.
    pub fn copy_with(&self, keys: Vec<K>) -> Result<KeySet<K>, AllocError>
        requires { keys.items ≡ self.now.keys }
        ensures { IfOk result (λ copy. copy.keys ≡ self.now.keys) }
    {
        let map = self.map.copy_with(keys)?;
        Ok(KeySet { map })
    }
}
