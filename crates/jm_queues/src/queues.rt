//! What the queues hold.

ghost use Rattle.std.specs.Prelude.{◌≡◌, ◌≤◌, ◌<◌, ◌+◌, ◌^◌, ◌++◌, ◌&&◌, Bool, ℕ, true, false, List, [], ◌∷◌, not, is_some, map, length, option_map, slice_index_or, None, Some, IfSome, IfOk, OnOk, OnErr};
ghost use Rattle.jm_dest.specs.declared.key.Key.{Key as KeyShown};
ghost use Rattle.jm_dest.specs.declared.key.Key.TheVariants as key;
ghost use Rattle.jm_dest.specs.declared.destination.Destination.TheVariants as destination;
ghost use Rattle.jm_header.specs.declared.content.Content.{Content};
ghost use Rattle.jm_machine.specs.Machine.{State, are_meant, at_queue, at_queues, places_end, queued, returned_rows, settled_rows};
ghost use Rattle.jm_machine.specs.Rows.{deliver_chosen};
ghost use Rattle.jm_machine.specs.Wants.{next_chosen};
ghost use Rattle.jm_machine.specs.Under.{placed_under};
ghost use Rattle.jm_selector.specs.Selectors.{matches};
ghost use Rattle.jm_stations.specs.Backlogs as backlogs;
ghost use Rattle.jm_stations.specs.Loading.{stored_row};
ghost use Rattle.jm_stations.specs.Standing as standing;
ghost use Rattle.jm_stations.specs.Stations.{index_in};
ghost use Rattle.jm_queues.specs.Queues.{IsReserved, HaveMoreRoom, rows_in, joins};

use crate::rows::Rows;
use jm_dest::{ConsumerId, Key, Moment, Name, SessionId};
use jm_header::Message;
use jm_machine::{Answer, Consumers, PlacedRow, Row, RowState};
use jm_selector::Selector;
use jm_stations::{Picked, Standing, Stations};
use std::alloc::{AllocError, Global};
use std::marker::Model;
use std::slice::from_ref;

/// What the queues hold, in a table of messages of its own: a message is sent to a queue or to a topic, and is held in
/// one of both tables. A queue has a key from the first message on that is sent to it; one that holds nothing is as if it
/// had none. Its drop is its own, so that a function with several ways out does not drop part by part on each.
pub struct Queues {
    stations: Stations,
}

impl Drop for Queues {
    fn drop(self) {
        let Queues {
            stations: _stations,
        } = self;
    }
}

impl Model for Queues {
    ghost use Rattle.std.specs.Prelude.{All};
    ghost use Rattle.jm_stations.specs.Stations.{Stations as StationsShown};
    ghost use Rattle.jm_queues.specs.Queues.{AreQueues, IsOfQueue};

    ghost Value = { StationsShown };

    ghost view = { λ q. q.stations };

    ghost invariant = { λ q. AreQueues q.stations.list q.stations.next_place × All IsOfQueue q.stations.keys };
}

/// Adds the key of a queue behind all others, which holds nothing and may hold any number of messages: where it stands.
fn add(stations: &mut Stations, key: Key) -> Result<usize, AllocError>
    requires absent { index_in stations.old.keys key ≡ None }
    ensures at { IfOk result (λ i. i ≡ length stations.old.keys) }
    ensures end { IfOk result (λ i. i ≡ length stations.old.list) }
    ensures added { OnOk result (stations.new ≡ record stations.old {
      keys = stations.old.keys ++ key ∷ [];
      list = stations.old.list ++ backlogs.empty None ∷ [];
      key_room = stations.new.key_room;
    }) }
    ensures same { OnErr result (stations.new ≡ record stations.old { key_room = stations.new.key_room }) }
{
    let end = stations.len();
    stations.reserve_key()?;
    stations.create(key, None);
    Ok(end)
}

impl Queues {
    /// No queue holds anything. Takes no memory.
    pub fn new(alloc: Global) -> Queues
        ensures keys { result.keys ≡ [] }
        ensures list { result.list ≡ [] }
        ensures next_place { result.next_place ≡ 1 }
    {
        Queues {
            stations: Stations::new(alloc),
        }
    }

    /// How many messages are held, each counted once.
    pub fn kept(&self) -> usize
        ensures { backlogs.IsNumberOfMessages result self.now.list }
    {
        self.stations.kept()
    }

    /// An equal table, with other room. `AllocError` where a request for memory was refused.
    pub fn copy(&self) -> Result<Queues, AllocError>
        ensures rows { IfOk result (λ copy. rows_in copy ≡ rows_in self.now) }
        ensures next_place { IfOk result (λ copy. copy.next_place ≡ self.now.next_place) }
    {
        Ok(Queues {
            stations: self.stations.copy()?,
        })
    }

    /// Copies of the rows of that queue, by place. `AllocError` where a request for memory was refused.
    pub fn rows(&self, alloc: Global, name: &Name) -> Result<Vec<PlacedRow>, AllocError>
        ensures { IfOk result (λ rows. rows.items ≡ rows_in self.now name.now) }
    {
        match self.index_named(name)? {
            None => Ok(Vec::new(alloc)),
            Some(index) => self.stations.rows_of(index),
        }
    }

    /// How many keys of queues there are, each once.
    pub fn len(&self) -> usize
        ensures len { result ≡ length self.now.keys }
        ensures small { length self.now.keys < 2 ^ 63 }
    {
        self.stations.len()
    }

    /// The key with that index.
    pub fn key_at(&self, index: usize) -> &Key
        requires { index < length self.now.keys }
        ensures { (d : KeyShown) → result.now ≡ slice_index_or self.now.keys index d }
    {
        // The length is what says that something is held under each key.
        let _number = self.stations.len();
        self.stations.key_at(index)
    }

    /// The rows under the key with that index, which are those of its queue.
    pub fn rows_at(&self, index: usize) -> Rows<'_>
        requires { index < length self.now.keys }
        ensures { (state : State) (d : KeyShown) → state.queues ≡ rows_in self.now →
            result ≡ placed_under state (slice_index_or self.now.keys index d) }
    {
        // The length is what says that each key stands once.
        let _number = self.stations.len();
        Rows::new(&self.stations, index)
    }

    /// Where the key of a queue stands. It is found by the order of the keys.
    pub fn index_of(&self, key: &Key) -> Option<usize>
        ensures index { result ≡ index_in self.now.keys key.now }
        ensures within { IfSome result (λ i. i < length self.now.list) }
    {
        self.stations.index_of(key)
    }

    /// Where the key of that queue stands. `AllocError` where a request for memory was refused.
    fn index_named(&self, name: &Name) -> Result<Option<usize>, AllocError>
        ensures index { IfOk result (λ i. i ≡ index_in self.now.keys (key.Queue name.now)) }
        ensures within { IfOk result (λ i. IfSome i (λ i. i < length self.now.list)) }
    {
        let key = Key::Queue(name.copy()?);
        Ok(self.index_of(&key))
    }

    /// Where the key of that queue stands, which is made where there was none.
    fn index_made(&mut self, name: &Name) -> Result<usize, AllocError>
        ensures more { HaveMoreRoom self.old self.new }
        ensures there { IfOk result (λ i. index_in self.new.keys (key.Queue name.now) ≡ Some i) }
        ensures within { IfOk result (λ i. i < length self.new.list) }
    {
        let key = Key::Queue(name.copy()?);
        match self.stations.index_of(&key) {
            Some(index) => Ok(index),
            None => Ok(add(&mut self.stations, key)?),
        }
    }

    /// Where that queue stands, with room for that many more messages. `AllocError` where a request for memory was
    /// refused. Either way all but the room is as before.
    pub fn reserve(&mut self, name: &Name, additional: usize) -> Result<usize, AllocError>
        ensures more { HaveMoreRoom self.old self.new }
        ensures there { IfOk result (λ i. index_in self.new.keys (key.Queue name.now) ≡ Some i) }
        ensures reserved { IfOk result (λ i. IsReserved additional self.new.list (i ∷ [])) }
        ensures messages { OnOk result (additional ≤ self.new.message_room) }
    {
        let index = self.index_made(name)?;
        self.stations.reserve(from_ref(&index), additional)?;
        Ok(index)
    }

    /// A message comes to the queue with that index, at that place. Takes no memory, since room was reserved.
    pub fn publish(&mut self, message: Message, index: usize, place: u64)
        requires from { self.old.next_place ≤ place }
        requires places { place < places_end }
        requires messages { 0 < self.old.message_room }
        requires reserved { IsReserved 1 self.old.list (index ∷ []) }
        ensures keys { self.new.keys ≡ self.old.keys }
        ensures list { backlogs.IsPublished (index ∷ []) place message self.old.list self.new.list }
        ensures rows { (name : List ℕ) → index_in self.old.keys (key.Queue name) ≡ Some index →
            rows_in self.new ≡ queued (destination.Queue name) message place (rows_in self.old) }
        ensures next_place { self.new.next_place ≡ place + 1 }
        ensures room { self.old.message_room ≤ self.new.message_room + 1 }
    {
        self.stations.skip_to(place);
        self.stations.publish(message, from_ref(&index));
    }

    /// A message that was stored comes to the queue with that index, at that place, after so many deliveries. Takes no
    /// memory, since room was reserved.
    pub fn load(&mut self, message: Message, count: u32, index: usize, place: u64)
        requires from { self.old.next_place ≤ place }
        requires places { place < places_end }
        requires messages { 0 < self.old.message_room }
        requires reserved { IsReserved 1 self.old.list (index ∷ []) }
        ensures rows { (name : List ℕ) → index_in self.old.keys (key.Queue name) ≡ Some index →
            rows_in self.new ≡ at_queue name (joins place (stored_row message count)) (rows_in self.old) }
        ensures next_place { self.new.next_place ≡ place + 1 }
    {
        self.stations.skip_to(place);
        let row = Row {
            message,
            count,
            state: RowState::Waiting,
        };
        self.stations.load(index, row);
    }

    /// The row that was picked of those of the queue with that index, where one was, which is found at its place and not
    /// searched a second time.
    pub fn row_picked(&self, index: usize, picked: &Option<Picked>) -> Option<Standing<'_>>
        requires within { index < length self.now.list }
        requires picked { (p : Content → Bool) × (settles : Bool) × (now : ℕ) × backlogs.IsPicked p settles now self.now.list index picked.now }
        ensures { (p : Content → Bool) (settles : Bool) (now : ℕ) (name : List ℕ) → index_in self.now.keys (key.Queue name) ≡ Some index →
            backlogs.IsPicked p settles now self.now.list index picked.now →
            option_map standing.row_of result ≡ next_chosen p now (rows_in self.now name) }
    {
        self.stations.row_picked(index, picked)
    }

    /// What a delivery from the queue with that index takes at that moment, which settles at once or not, of the messages that
    /// the selector selects: the next one, with the copy that it wants. `AllocError` where a request for memory was refused,
    /// which comes only where a row stays: a queue's message is held there alone.
    pub fn pick(
        &self,
        index: usize,
        now: Moment,
        settles: bool,
        selector: &Selector,
    ) -> Result<Option<Picked>, AllocError>
        requires within { index < length self.now.list }
        ensures picked { IfOk result (backlogs.IsPicked (matches selector.now) settles now self.now.list index) }
        ensures err { (name : List ℕ) → index_in self.now.keys (key.Queue name) ≡ Some index → OnErr result
            ((not settles && is_some (next_chosen (matches selector.now) now (rows_in self.now name))) ≡ true) }
    {
        self.stations.pick_where(index, now, settles, selector)
    }

    /// Drops the waiting rows of the queue with that index that are expired at that moment, and delivers the row that was
    /// picked of those whose messages pass, which is settled. Takes no memory.
    pub fn receive(&mut self, index: usize, now: Moment, picked: Option<Picked>) -> Answer
        requires within { index < length self.old.list }
        requires picked { (p : Content → Bool) × backlogs.IsPicked p true now self.old.list index picked }
        ensures answer { (name : List ℕ) (p : Content → Bool) → index_in self.old.keys (key.Queue name) ≡ Some index →
            backlogs.IsPicked p true now self.old.list index picked →
            result ≡ backlogs.answered_where p now (rows_in self.old name) }
        ensures rows { (name : List ℕ) (p : Content → Bool) → index_in self.old.keys (key.Queue name) ≡ Some index →
            backlogs.IsPicked p true now self.old.list index picked →
            rows_in self.new ≡ at_queue name (deliver_chosen p now backlogs.gone) (rows_in self.old) }
        ensures next_place { self.new.next_place ≡ self.old.next_place }
    {
        self.stations.receive(index, now, picked)
    }

    /// The same, but that the row goes out to the session through its consumer.
    pub fn deliver(
        &mut self,
        index: usize,
        now: Moment,
        picked: Option<Picked>,
        session: SessionId,
        consumer: ConsumerId,
    ) -> Answer
        requires within { index < length self.old.list }
        requires picked { (p : Content → Bool) × backlogs.IsPicked p false now self.old.list index picked }
        ensures answer { (name : List ℕ) (p : Content → Bool) → index_in self.old.keys (key.Queue name) ≡ Some index →
            backlogs.IsPicked p false now self.old.list index picked →
            result ≡ backlogs.answered_where p now (rows_in self.old name) }
        ensures rows { (name : List ℕ) (p : Content → Bool) → index_in self.old.keys (key.Queue name) ≡ Some index →
            backlogs.IsPicked p false now self.old.list index picked → rows_in self.new ≡
            at_queue name (deliver_chosen p now (backlogs.out_row session consumer)) (rows_in self.old) }
        ensures next_place { self.new.next_place ≡ self.old.next_place }
    {
        self.stations.deliver(index, now, picked, session, consumer)
    }

    /// The rows that are out through one of those consumers go. Takes no memory.
    pub fn settle(&mut self, which: &Consumers)
        ensures keys { self.new.keys ≡ self.old.keys }
        ensures list { self.new.list ≡ map (backlogs.settled (are_meant which.now)) self.old.list }
        ensures rows { rows_in self.new ≡ at_queues (settled_rows (are_meant which.now)) (rows_in self.old) }
        ensures next_place { self.new.next_place ≡ self.old.next_place }
        ensures room { self.old.message_room ≤ self.new.message_room }
    {
        self.stations.settle(which);
    }

    /// The rows that are out through one of those consumers wait again, at their places and with their counts. Takes no
    /// memory.
    pub fn give_back(&mut self, which: &Consumers)
        ensures rows { rows_in self.new ≡ at_queues (returned_rows (are_meant which.now)) (rows_in self.old) }
        ensures next_place { self.new.next_place ≡ self.old.next_place }
    {
        self.stations.give_back(which);
    }

    /// The rows of the queue with that index that are out through one of those consumers go. Takes no memory.
    pub fn settle_at(&mut self, index: usize, which: &Consumers)
        requires { index < length self.old.list }
        ensures rows { (name : List ℕ) → index_in self.old.keys (key.Queue name) ≡ Some index →
            rows_in self.new ≡ at_queue name (settled_rows (are_meant which.now)) (rows_in self.old) }
        ensures next_place { self.new.next_place ≡ self.old.next_place }
    {
        self.stations.settle_at(index, which);
    }

    /// The rows of the queue with that index that are out through one of those consumers wait again, at their places and
    /// with their counts. Takes no memory.
    pub fn give_back_at(&mut self, index: usize, which: &Consumers)
        requires { index < length self.old.list }
        ensures rows { (name : List ℕ) → index_in self.old.keys (key.Queue name) ≡ Some index →
            rows_in self.new ≡ at_queue name (returned_rows (are_meant which.now)) (rows_in self.old) }
        ensures next_place { self.new.next_place ≡ self.old.next_place }
    {
        self.stations.give_back_at(index, which);
    }
}
