//! Messages that come under keys, are delivered from there, and go or wait again.

ghost use Rattle.std.specs.Prelude.{◌≡◌, Bool, ◌≤◌, ◌<◌, ◌+◌, true, false, nat_eq, is_some, All, length, map, slice_index_or, IfOk, OnErr};
ghost use Rattle.std.specs.List.{IsDistinct};
ghost use Rattle.jm_header.specs.declared.content.Content.{Content};
ghost use Rattle.jm_machine.specs.Machine.{are_meant, places_end};
ghost use Rattle.jm_machine.specs.Wants.{next_placed};
ghost use Rattle.jm_selector.specs.Selectors.{matches};
ghost use Rattle.jm_stations.specs.Backlogs as spec;
ghost use Rattle.jm_stations.specs.Backlogs.{Backlog};
ghost use Rattle.jm_stations.specs.Loading.{AreLoaded};

use crate::loading::{self, StoredRow};
use crate::picked::{self, Picked};
use crate::stations::Stations;
use crate::{handing, lists};
use jm_dest::{ConsumerId, Moment, SessionId};
use jm_header::Message;
use jm_machine::{Answer, Consumers, Row as MachineRow, RowState};
use jm_pending::Row;
use jm_selector::Selector;
use std::alloc::AllocError;

impl Stations {
    /// Publishes a message: it takes the next place, and comes to what is held under each key with one of those
    /// indexes; at its limit it is missed there instead. Takes no memory, since room was reserved.
    pub fn publish(&mut self, message: Message, indexes: &[usize])
        requires places { self.old.next_place < places_end }
        requires messages { 0 < self.old.message_room }
        requires within { All (λ i. i < length self.old.list) indexes.now }
        requires once { IsDistinct nat_eq indexes.now }
        requires rows { All (λ i. (d : Backlog) → 0 < (slice_index_or self.old.list i d).room) indexes.now }
        ensures keys { self.new.keys ≡ self.old.keys }
        ensures list { spec.IsPublished indexes.now self.old.next_place message self.old.list self.new.list }
        ensures next_place { self.new.next_place ≡ self.old.next_place + 1 }
        ensures room { self.old.message_room ≤ self.new.message_room + 1 }
    {
        let row = MachineRow {
            message,
            count: 0,
            state: RowState::Waiting,
        };
        self.bring(row, indexes);
    }

    /// A row that was held elsewhere takes the next place with its state and the count of its deliveries, and comes to
    /// what is held under the key with that index; at its limit it is missed there instead. Takes no memory, since room
    /// was reserved.
    pub fn load(&mut self, index: usize, row: MachineRow)
        requires places { self.old.next_place < places_end }
        requires messages { 0 < self.old.message_room }
        requires within { index < length self.old.list }
        requires rows { (d : Backlog) → 0 < (slice_index_or self.old.list index d).room }
        ensures keys { self.new.keys ≡ self.old.keys }
        ensures list { self.new.list ≡ spec.changed_at index (spec.joined self.old.next_place row) self.old.list }
        ensures next_place { self.new.next_place ≡ self.old.next_place + 1 }
        ensures room { self.old.message_room ≤ self.new.message_room + 1 }
    {
        self.bring(row, &[index]);
    }

    /// A message that was stored takes the next place, with a waiting row under the key of each of those indexes, each with
    /// the count of its deliveries, and stands once for all of them; at the limit of a key it is missed there instead. Takes
    /// no memory, since room was reserved.
    pub fn load_shared(&mut self, message: Message, rows: &[StoredRow])
        requires places { self.old.next_place < places_end }
        requires messages { 0 < self.old.message_room }
        requires within { All (λ (r : StoredRow). r.index < length self.old.list) rows.now }
        requires once { IsDistinct nat_eq (map (λ (r : StoredRow). r.index) rows.now) }
        requires rows { All (λ (r : StoredRow). (d : Backlog) → 0 < (slice_index_or self.old.list r.index d).room) rows.now }
        ensures keys { self.new.keys ≡ self.old.keys }
        ensures list { AreLoaded rows.now self.old.next_place message self.old.list self.new.list }
        ensures next_place { self.new.next_place ≡ self.old.next_place + 1 }
        ensures room { self.old.message_room ≤ self.new.message_room + 1 }
    {
        let place = self.next_place;
        let row = Row::new(place, &message);
        self.table.put(place, message);
        loading::offer_stored(&mut self.lists, &mut self.table, &row, rows);
        let _ = self.table.release(place);
        self.next_place = place + 1;
    }

    /// The next publication, or the next row that is loaded, will be at that place, which is not below the one that it
    /// would have had. Takes no memory.
    pub fn skip_to(&mut self, place: u64)
        requires from { self.old.next_place ≤ place }
        requires places { place ≤ places_end }
        ensures { self.new ≡ record self.old { next_place = place } }
    {
        self.next_place = place;
    }

    /// A row takes the next place with its state and the count of its deliveries, and comes to what is held under each key with
    /// one of those indexes; at its limit it is missed there instead.
    fn bring(&mut self, row: MachineRow, indexes: &[usize])
        requires places { self.old.next_place < places_end }
        requires messages { 0 < self.old.message_room }
        requires within { All (λ i. i < length self.old.list) indexes.now }
        requires once { IsDistinct nat_eq indexes.now }
        requires rows { All (λ i. (d : Backlog) → 0 < (slice_index_or self.old.list i d).room) indexes.now }
        ensures keys { self.new.keys ≡ self.old.keys }
        ensures list { spec.HasCome indexes.now self.old.next_place row self.old.list self.new.list }
        ensures next_place { self.new.next_place ≡ self.old.next_place + 1 }
        ensures room { self.old.message_room ≤ self.new.message_room + 1 }
    {
        let place = self.next_place;
        let MachineRow {
            message,
            count,
            state,
        } = row;
        let row = Row::with_state(place, &message, count, state);
        self.table.put(place, message);
        lists::offer_each(&mut self.lists, &mut self.table, &row, indexes);
        let _ = self.table.release(place);
        self.outstanding.add_each(indexes, &state);
        self.next_place = place + 1;
    }

    /// What a delivery from the rows under the key with that index takes at that moment, which settles at once or not: the next
    /// row, with the copy that it wants, of its message where that is held after it. `AllocError` where a request for memory
    /// was refused, which comes only where a copy is wanted.
    pub fn pick(
        &self,
        index: usize,
        now: Moment,
        settles: bool,
    ) -> Result<Option<Picked>, AllocError>
        requires within { index < length self.now.list }
        ensures picked { (d : Backlog) → IfOk result (λ picked. picked ≡ spec.picked_of settles self.now.list (next_placed now (slice_index_or self.now.list index d).rows)) }
        ensures err { (d : Backlog) → OnErr result (is_some (spec.copy_wanted settles now self.now.list (slice_index_or self.now.list index d).rows) ≡ true) }
        ensures any { IfOk result (spec.IsPicked spec.any settles now self.now.list index) }
    {
        let row = self.lists.at(index).next(now);
        picked::pick(self.alloc, &self.table, row, settles)
    }

    /// The same of those of the rows whose messages the selector selects.
    pub fn pick_where(
        &self,
        index: usize,
        now: Moment,
        settles: bool,
        selector: &Selector,
    ) -> Result<Option<Picked>, AllocError>
        requires within { index < length self.now.list }
        ensures picked { IfOk result (spec.IsPicked (matches selector.now) settles now self.now.list index) }
        ensures err { (d : Backlog) → OnErr result (is_some (spec.copy_wanted_where (matches selector.now) settles now self.now.list (slice_index_or self.now.list index d).rows) ≡ true) }
    {
        let row = self.lists.at(index).next_where(&self.table, now, selector);
        picked::pick(self.alloc, &self.table, row, settles)
    }

    /// Drops the waiting rows under the key with that index that are expired at that moment, also those whose messages do not
    /// pass, and delivers the row that was picked of those that do, which is settled. Its message is moved out where no other
    /// row holds it, and else the copy stands for it. Takes no memory, and searches nothing but that place.
    pub fn receive(&mut self, index: usize, now: Moment, picked: Option<Picked>) -> Answer
        requires within { index < length self.old.list }
        requires picked { (p : Content → Bool) × spec.IsPicked p true now self.old.list index picked }
        ensures answer { (p : Content → Bool) (d : Backlog) → spec.IsPicked p true now self.old.list index picked → result ≡ spec.answered_where p now (slice_index_or self.old.list index d).rows }
        ensures keys { self.new.keys ≡ self.old.keys }
        ensures list { (p : Content → Bool) → spec.IsPicked p true now self.old.list index picked → self.new.list ≡ spec.changed_at index (spec.received p now) self.old.list }
        ensures next_place { self.new.next_place ≡ self.old.next_place }
        ensures room { self.old.message_room ≤ self.new.message_room }
    {
        let Some(Picked { place, copy }) = picked else {
            lists::drop_expired(&mut self.lists, &mut self.table, index, now);
            return Answer::Nothing;
        };
        let taken = lists::receive(&mut self.lists, &mut self.table, index, now, place);
        handing::handed_out(taken, copy)
    }

    /// The same, but that the row goes out to the session through its consumer, and is counted once more. The copy stands for
    /// its message, which stays held.
    pub fn deliver(
        &mut self,
        index: usize,
        now: Moment,
        picked: Option<Picked>,
        session: SessionId,
        consumer: ConsumerId,
    ) -> Answer
        requires within { index < length self.old.list }
        requires picked { (p : Content → Bool) × spec.IsPicked p false now self.old.list index picked }
        ensures answer { (p : Content → Bool) (d : Backlog) → spec.IsPicked p false now self.old.list index picked → result ≡ spec.answered_where p now (slice_index_or self.old.list index d).rows }
        ensures keys { self.new.keys ≡ self.old.keys }
        ensures list { (p : Content → Bool) → spec.IsPicked p false now self.old.list index picked → self.new.list ≡ spec.changed_at index (spec.delivered p session consumer now) self.old.list }
        ensures next_place { self.new.next_place ≡ self.old.next_place }
        ensures room { self.old.message_room ≤ self.new.message_room }
    {
        let Some(Picked { copy, place }) = picked else {
            lists::drop_expired(&mut self.lists, &mut self.table, index, now);
            return Answer::Nothing;
        };
        let row = lists::deliver(
            &mut self.lists,
            &mut self.table,
            index,
            now,
            place,
            session,
            consumer,
        );
        self.outstanding.add_where(index, row.is_some());
        handing::sent_out(row, copy)
    }

    /// The rows that are out through one of those consumers go, and each message that no other row holds with them.
    /// Looks at no key but those under which rows are out, and where none is out through them at no row. Takes no memory.
    pub fn settle(&mut self, which: &Consumers)
        ensures keys { self.new.keys ≡ self.old.keys }
        ensures list { self.new.list ≡ map (spec.settled (are_meant which.now)) self.old.list }
        ensures next_place { self.new.next_place ≡ self.old.next_place }
        ensures room { self.old.message_room ≤ self.new.message_room }
    {
        self.outstanding
            .settle(&mut self.lists, &mut self.table, which);
    }

    /// The rows that are out through one of those consumers wait again, at their places and with their counts. Looks at no
    /// key but those under which rows are out, and where none is out through them at no row. Takes no memory.
    pub fn give_back(&mut self, which: &Consumers)
        ensures keys { self.new.keys ≡ self.old.keys }
        ensures list { self.new.list ≡ map (spec.returned (are_meant which.now)) self.old.list }
        ensures next_place { self.new.next_place ≡ self.old.next_place }
        ensures room { self.old.message_room ≤ self.new.message_room }
    {
        self.outstanding.give_back(&mut self.lists, which);
    }

    /// The rows under the key with that index that are out through one of those consumers go, and each message that no
    /// other row holds with them. What is held under another key is not looked at, and where no row is out through them
    /// no row is. Takes no memory.
    pub fn settle_at(&mut self, index: usize, which: &Consumers)
        requires { index < length self.old.list }
        ensures keys { self.new.keys ≡ self.old.keys }
        ensures list { self.new.list ≡ spec.changed_at index (spec.settled (are_meant which.now)) self.old.list }
        ensures next_place { self.new.next_place ≡ self.old.next_place }
        ensures room { self.old.message_room ≤ self.new.message_room }
    {
        lists::settle_at(&mut self.lists, &mut self.table, index, which);
        let is_home = self.lists.at(index).is_home();
        self.outstanding.remove_where(index, is_home);
    }

    /// The rows under the key with that index that are out through one of those consumers wait again, at their places and
    /// with their counts. What is held under another key is not looked at, and where no row is out through them no row is.
    /// Takes no memory.
    pub fn give_back_at(&mut self, index: usize, which: &Consumers)
        requires { index < length self.old.list }
        ensures keys { self.new.keys ≡ self.old.keys }
        ensures list { self.new.list ≡ spec.changed_at index (spec.returned (are_meant which.now)) self.old.list }
        ensures next_place { self.new.next_place ≡ self.old.next_place }
        ensures room { self.old.message_room ≤ self.new.message_room }
    {
        lists::give_back_at(&mut self.lists, index, which);
        let is_home = self.lists.at(index).is_home();
        self.outstanding.remove_where(index, is_home);
    }
}
