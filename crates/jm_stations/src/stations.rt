//! What is held under each key.

ghost use Rattle.std.specs.Prelude.{◌≡◌, ◌≤◌, ◌<◌, ◌+◌, ◌^◌, ◌++◌, [], ◌∷◌, true, false, not, nat_eq, is_some, All, filter, length, map, slice_index_or, Some, None, IfSome, IfOk, OnOk};
ghost use Rattle.std.specs.List.{IsDistinct, remove};
ghost use Rattle.jm_dest.specs.declared.key.Key.{Key};
ghost use Rattle.jm_dest.specs.Keys.{key_eq};
ghost use Rattle.jm_machine.specs.Attached.{ended};
ghost use Rattle.jm_machine.specs.Machine.{places_end};
ghost use Rattle.jm_machine.specs.Sections.{is_own_of};
ghost use Rattle.jm_stations.specs.Backlogs as spec;
ghost use Rattle.jm_stations.specs.Backlogs.{Backlog};
ghost use Rattle.jm_stations.specs.Stations.{NoneShared, index_in, is_shared};

use crate::outstanding::Outstanding;
use crate::{copies, lists};
use jm_dest::Key;
use jm_gaps::GapList;
use jm_indexed::{Choice, KeySet};
use jm_machine::{Attached, Consumers};
use jm_pending::{Held, Table};
use std::alloc::{AllocError, Global};
use std::marker::Model;

/// What is held under each key, in order of creation, each found by its key (ours): rows by place, with the
/// messages that they hold, of which each stands once. Contracts see the keys, what is held under each, the place
/// of the next publication, and for how many more messages and keys there is room. Where `shares` is false, no key is of
/// a shared subscription that is not durable, and a close ends the consumers' own subscriptions alone.
pub struct Stations {
    pub(crate) alloc: Global,
    keys: KeySet<Key>,
    pub(crate) lists: GapList<Held>,
    pub(crate) table: Table,
    pub(crate) next_place: u64,
    pub(crate) outstanding: Outstanding,
    shares: bool,
}

impl Drop for Stations {
    fn drop(self) {
        let Stations {
            alloc: _alloc,
            keys: _keys,
            lists: _lists,
            table: _table,
            next_place: _,
            outstanding: _outstanding,
            shares: _,
        } = self;
    }
}

impl Model for Stations {
    ghost use Rattle.std.specs.Prelude.{◌≡◌, false, min, length};
    ghost use Rattle.std.specs.List.{IsDistinct};
    ghost use Rattle.jm_dest.specs.Keys.{key_eq};
    ghost use Rattle.jm_stations.specs.Kept.{IsKept, all_shown};
    ghost use Rattle.jm_stations.specs.Outstanding.{AreHomeBut};
    ghost use Rattle.jm_stations.specs.Stations.{Stations as StationsShown, NoneShared};

    ghost Value = { StationsShown };

    ghost view = { λ s. record {
      keys = s.keys.keys;
      list = all_shown s.table s.lists.items;
      next_place = s.next_place;
      message_room = s.table.spare;
      key_room = min s.keys.spare (min s.lists.spare s.outstanding.room);
    } };

    ghost invariant = { λ s. IsKept s.table s.lists.items s.next_place × (s.outstanding.number ≡ length s.lists.items) × AreHomeBut s.outstanding.indexes s.lists.items × (length s.keys.keys ≡ length s.lists.items) × IsDistinct key_eq s.keys.keys × (s.shares ≡ false → NoneShared s.keys.keys) };
}

/// Keeps the keys of the subscriptions that do not end once the consumers are closed.
#[derive(Clone, Copy)]
struct Lasting<'a> {
    which: &'a Consumers,
    attached: &'a Attached,
}

impl Choice<Key> for Lasting<'_> {
    ghost use Rattle.std.specs.Prelude.{not};
    ghost use Rattle.jm_machine.specs.Attached.{ended};

    ghost kept = { λ lasting key. not (ended lasting.which.now lasting.attached.now key) };

    fn keeps(&self, key: &Key) -> bool {
        !self.attached.ends(self.which, key)
    }
}

/// Keeps the keys of shared subscriptions that are not durable.
#[derive(Clone, Copy)]
struct Shared;

impl Choice<Key> for Shared {
    ghost use Rattle.jm_stations.specs.Stations.{is_shared};

    ghost kept = { λ shared key. is_shared key };

    fn keeps(&self, key: &Key) -> bool {
        is_shared(key)
    }
}

impl Stations {
    /// Nothing is held under any key, and the first publication will be at place 1. Takes no memory.
    pub fn new(alloc: Global) -> Stations
        ensures keys { result.keys ≡ [] }
        ensures list { result.list ≡ [] }
        ensures next_place { result.next_place ≡ 1 }
    {
        Stations {
            alloc,
            keys: KeySet::new(alloc),
            lists: GapList::new(alloc),
            table: Table::new(alloc),
            next_place: 1,
            outstanding: Outstanding::new(alloc),
            shares: false,
        }
    }

    /// How many keys there are. Each stands once, and something, if no row, is held under each.
    pub fn len(&self) -> usize
        ensures keys { result ≡ length self.now.keys }
        ensures list { result ≡ length self.now.list }
        ensures once { IsDistinct key_eq self.now.keys }
        ensures small { length self.now.keys < 2 ^ 63 }
    {
        self.keys.len()
    }

    /// The place of the next publication, from 1.
    pub fn next_place(&self) -> u64
        ensures place { result ≡ self.now.next_place }
        ensures bound { self.now.next_place ≤ places_end }
    {
        self.next_place
    }

    /// How many messages are held, each counted once, however many rows hold it.
    pub fn kept(&self) -> usize
        ensures { spec.IsNumberOfMessages result self.now.list }
    {
        self.table.len()
    }

    /// The same keys, in their order, with the same rows under each, and the same next place; there may be other
    /// room. `AllocError` where a request for memory was refused.
    pub fn copy(&self) -> Result<Stations, AllocError>
        ensures { IfOk result (λ copy. copy ≡ record self.now {
          list = map spec.without_room self.now.list;
          message_room = copy.message_room;
          key_room = copy.key_room;
        }) }
    {
        let table = self.table.copy()?;
        let lists = copies::copy_lists(self.alloc, &self.lists)?;
        let outstanding = self.outstanding.copy(self.alloc)?;
        let keys = self
            .keys
            .copy_with(copies::copy_keys(self.alloc, &self.keys)?)?;
        Ok(Stations {
            alloc: self.alloc,
            keys,
            lists,
            table,
            next_place: self.next_place,
            outstanding,
            shares: self.shares,
        })
    }

    /// Where the key stands, in order of creation. It is found by halves.
    pub fn index_of(&self, key: &Key) -> Option<usize>
        ensures index { result ≡ index_in self.now.keys key.now }
        ensures within { IfSome result (λ i. i < length self.now.list) }
    {
        self.keys.index_of(key)
    }

    /// Where the key stands, as `index_of` answers it. It is looked for at the guessed index first; the next guess is the index
    /// behind it.
    fn index_near(&self, key: &Key, guess: &mut usize) -> Option<usize>
        ensures { result ≡ index_in self.now.keys key.now }
    {
        let index = self.keys.index_near(key, *guess)?;
        *guess = index.saturating_add(1);
        Some(index)
    }

    /// Where each of those keys stands, in their order: keys that come in order of creation, each behind the one before, cost no
    /// search. `AllocError` where a request for memory was refused.
    pub fn indexes_of(&self, keys: &[Key]) -> Result<Vec<usize>, AllocError>
        requires there { All (λ k. is_some (index_in self.now.keys k) ≡ true) keys.now }
        ensures indexes { IfOk result (λ is. map Some is.items ≡ map (index_in self.now.keys) keys.now) }
        ensures within { IfOk result (λ is. All (λ i. i < length self.now.list) is.items) }
        ensures once { IsDistinct key_eq keys.now → IfOk result (λ is. IsDistinct nat_eq is.items) }
    {
        let mut indexes = Vec::with_capacity(self.alloc, keys.len())?;
        let mut guess = 0;
        for key in keys {
            if let Some(index) = self.index_near(key, &mut guess) {
                indexes.push(index)?;
            }
        }
        Ok(indexes)
    }

    /// Makes room for one more key. `AllocError` where a request for memory was refused. Either way all but the
    /// room is as before.
    pub fn reserve_key(&mut self) -> Result<(), AllocError>
        ensures same { self.new ≡ record self.old { key_room = self.new.key_room } }
        ensures room { self.old.key_room ≤ self.new.key_room }
        ensures ok { OnOk result (0 < self.new.key_room) }
    {
        self.keys.reserve(1)?;
        self.outstanding.reserve()?;
        self.lists.reserve(1)
    }

    /// Adds a key behind all others, under which nothing is held, of which there may be at most so many rows, or
    /// any number. Takes no memory, since room was reserved.
    pub fn create(&mut self, key: Key, limit: Option<u32>)
        requires room { 0 < self.old.key_room }
        requires absent { index_in self.old.keys key ≡ None }
        ensures created { self.new ≡ record self.old {
          keys = self.old.keys ++ key ∷ [];
          list = self.old.list ++ spec.empty limit ∷ [];
          key_room = self.new.key_room;
        } }
        ensures room { self.old.key_room ≤ self.new.key_room + 1 }
    {
        self.shares = or_shared(self.shares, &key);
        self.keys.insert(key);
        // The length is what says that each key stands once.
        let _number = self.keys.len();
        self.lists.push(Held::new(self.alloc, limit));
        self.outstanding.add_list();
    }

    /// The key with that index goes with the rows under it, and each message that no other row holds with them; the
    /// keys behind it move up by one. Takes no memory.
    pub fn remove(&mut self, index: usize)
        requires { index < length self.old.list }
        ensures removed { self.new ≡ record self.old {
          keys = remove self.old.keys index;
          list = remove self.old.list index;
          message_room = self.new.message_room;
          key_room = self.new.key_room;
        } }
        ensures message_room { self.old.message_room ≤ self.new.message_room }
        ensures key_room { self.old.key_room ≤ self.new.key_room }
    {
        self.keys.remove(index);
        // The length is what says that each key stands once.
        let _number = self.keys.len();
        let mut held = self.lists.remove(index);
        held.clear(&mut self.table);
        self.outstanding.remove_list(index);
    }

    /// The keys of the subscriptions that end once those consumers are closed, as `Attached::ends` has it, go with the rows
    /// under them, and each message that no other row holds with them; the others move up, in their order. Where no key is
    /// of a shared subscription that is not durable, the keys of the consumers' own subscriptions, which stand together in
    /// the order of the keys, are found by halves, each goes as by `remove`, and what is held under another key is not
    /// looked at; else goes over all keys, each time once. Takes no memory.
    pub fn close(&mut self, which: &Consumers, attached: &Attached)
        ensures keys { self.new.keys ≡ filter (λ k. not (ended which.now attached.now k)) self.old.keys }
        ensures list { self.new.list ≡ spec.kept_under (λ k. not (ended which.now attached.now k)) self.old.keys self.old.list }
        ensures next_place { self.new.next_place ≡ self.old.next_place }
        ensures message_room { self.old.message_room ≤ self.new.message_room }
        ensures key_room { self.old.key_room ≤ self.new.key_room }
    {
        if !self.may_share() {
            self.close_own(which);
            return;
        }
        self.close_each(which, attached);
    }

    /// Whether some key may be of a shared subscription that is not durable.
    fn may_share(&self) -> bool
        ensures { result ≡ false → NoneShared self.now.keys }
    {
        self.shares
    }

    /// The keys of the own subscriptions of these consumers go, one after the other, with the rows under them.
    fn close_own(&mut self, which: &Consumers)
        ensures keys { self.new.keys ≡ filter (λ k. not (is_own_of which.now k)) self.old.keys }
        ensures list { self.new.list ≡ spec.kept_under (λ k. not (is_own_of which.now k)) self.old.keys self.old.list }
        ensures next_place { self.new.next_place ≡ self.old.next_place }
        ensures message_room { self.old.message_room ≤ self.new.message_room }
        ensures key_room { self.old.key_room ≤ self.new.key_room }
    {
        let mut guess = 0;
        while let Some(index) = self.keys.index_in(which, &mut guess) {
            self.remove(index);
        }
    }

    /// The keys of the subscriptions that end with those consumers go, with the rows under them.
    fn close_each(&mut self, which: &Consumers, attached: &Attached)
        ensures keys { self.new.keys ≡ filter (λ k. not (ended which.now attached.now k)) self.old.keys }
        ensures list { self.new.list ≡ spec.kept_under (λ k. not (ended which.now attached.now k)) self.old.keys self.old.list }
        ensures next_place { self.new.next_place ≡ self.old.next_place }
        ensures message_room { self.old.message_room ≤ self.new.message_room }
        ensures key_room { self.old.key_room ≤ self.new.key_room }
    {
        lists::close_each(
            &mut self.lists,
            &mut self.table,
            &self.keys,
            which,
            attached,
        );
        self.outstanding.look_at(&self.lists);
        self.keys.retain(&Lasting { which, attached });
        // The length is what says that each key stands once.
        let _number = self.keys.len();
        self.shares = self.keys.any(&Shared);
    }

    /// Makes room for that many more messages, and for as many more rows under each key with one of those indexes.
    /// `AllocError` where a request for memory was refused. Either way all but the room is as before.
    pub fn reserve(&mut self, indexes: &[usize], additional: usize) -> Result<(), AllocError>
        requires within { All (λ i. i < length self.old.list) indexes.now }
        ensures keys { self.new.keys ≡ self.old.keys }
        ensures list { spec.HasMoreRoom self.old.list self.new.list }
        ensures next_place { self.new.next_place ≡ self.old.next_place }
        ensures room { self.old.message_room ≤ self.new.message_room }
        ensures rows { OnOk result (All (λ i. (d : Backlog) → additional ≤ (slice_index_or self.new.list i d).room) indexes.now) }
        ensures messages { OnOk result (additional ≤ self.new.message_room) }
    {
        self.table.reserve(additional)?;
        lists::reserve_each(&mut self.lists, indexes, additional)
    }

    /// The key with that index, in order of creation.
    pub fn key_at(&self, index: usize) -> &Key
        requires { index < length self.now.list }
        ensures { (d : Key) → result.now ≡ slice_index_or self.now.keys index d }
    {
        self.keys.key_at(index)
    }
}

/// Whether the key is of a shared subscription that is not durable.
fn is_shared(key: &Key) -> bool
    ensures { result ≡ is_shared key.now }
{
    match key {
        Key::SharedOwn(_, _) => true,
        Key::Queue(_) | Key::Own(_, _) | Key::Durable(_, _) => false,
    }
}

/// Whether a key was so before, or that one is.
fn or_shared(shares: bool, key: &Key) -> bool
    ensures before { result ≡ false → shares ≡ false }
    ensures key { result ≡ false → is_shared key.now ≡ false }
{
    shares || is_shared(key)
}
