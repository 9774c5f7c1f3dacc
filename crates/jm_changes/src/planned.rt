//! What listing reads of a step that is planned, and of the rows under the keys that are there.

ghost use Rattle.std.specs.Prelude.{◌≡◌, ◌<◌, ◌≤◌, ℕ, List, Option, Some, length, option_map, slice_get, IfOk, IfSome};
ghost use Rattle.std.specs.Option.{option_copied};
ghost use Rattle.jm_dest.specs.Numbers.{long_end};
ghost use Rattle.jm_dest.specs.declared.key.Key.{Key as KeyShown};
ghost use Rattle.jm_header.specs.declared.content.Content.{Content};
ghost use Rattle.jm_machine.specs.declared.state.Definition.{Definition as DefinitionShown};
ghost use Rattle.jm_machine.specs.Life as life;
ghost use Rattle.jm_machine.specs.Machine as machine;
ghost use Rattle.jm_machine.specs.Machine.{State};
ghost use Rattle.jm_machine.specs.Under.{placed_under};
ghost use Rattle.jm_keep.specs.Calls.{AreTakers};
ghost use Rattle.jm_changes.specs.Standing.{Covers, IsIndexOf, first_where, key_in, meant, standing};

use jm_base::Mode;
use jm_dest::{ConnectionId, ConsumerId, Key, Moment, SessionId};
use jm_header::Message;
use jm_machine::{Consumer, Consumers, Definition};
use std::alloc::AllocError;

/// What is read of a row without a copy of its message.
#[derive(Clone, Copy, Debug)]
pub struct Standing {
    pub place: u64,
    pub count: u32,
    pub is_persistent: bool,
    /// Whether the message has a delivery delay: its delivery time is after its timestamp.
    pub is_delayed: bool,
}

/// Which rows under a key are meant.
#[derive(Clone, Copy, Debug)]
pub enum Which {
    All,
    /// Those that wait, and whose messages are expired at that moment.
    Lapsed(Moment),
    /// Those that are out through one of those consumers.
    Out(Consumers),
}

/// A step that is planned, and what is held before it: rows under the keys of subscriptions and of queues.
pub trait Planned {
    ghost state: { Self → State };
    /// The keys, each by its index.
    ghost keys: { Self → List KeyShown };
    /// The messages that are published, in order.
    ghost messages: { Self → List Content };
    /// The key of the subscription that is deleted.
    ghost deletes: { Self → Option KeyShown };
    /// The key of the durable subscription that is put, and what it asks for.
    ghost puts: { Self → Option (KeyShown × DefinitionShown) };
    /// The place of the row that the delivery takes, where the step delivers one.
    ghost takes: { Self → Option ℕ };

    /// How many keys there are. Each under which rows stand is one of them.
    fn len(&self) -> usize
        ensures len { result ≡ length (keys self.now) }
        ensures covers { Covers (keys self.now) (state self.now) };

    /// The key with that index.
    fn key_at(&self, index: usize) -> &Key
        requires { index < length (keys self.now) }
        ensures { result.now ≡ key_in (keys self.now) index };

    /// Where the key stands among those; none where no row stands under it.
    fn index_of(&self, key: &Key) -> Option<usize>
        ensures { IsIndexOf (keys self.now) (state self.now) key.now result };

    /// The first row by place of those under the key with that index from that place on that are meant.
    fn row_where(&self, index: usize, place: u64, which: &Which) -> Option<Standing>
        requires within { index < length (keys self.now) }
        requires place { place ≤ long_end }
        ensures row { result ≡ option_map standing (first_where (meant which.now) place (placed_under (state self.now) (key_in (keys self.now) index))) }
        ensures place { IfSome result (λ r. r.place < long_end) };

    /// What the subscription of the key asks for, where there is one.
    fn definition_of(&self, key: &Key) -> Option<&Definition>
        ensures { option_copied result ≡ machine.definition_of (machine.station_of key.now (state self.now).stations) };

    /// Whether the connection is open and started.
    fn is_started(&self, connection: ConnectionId) -> bool
        ensures { result ≡ life.is_started (state self.now).life connection };

    /// The mode of the session, where it is open.
    fn mode_of(&self, session: &SessionId) -> Option<Mode>
        ensures { result ≡ life.mode_of (state self.now).life session.now };

    /// The session's consumer of that number, where it was made.
    fn consumer_of(&self, session: &SessionId, id: ConsumerId) -> Option<&Consumer>
        ensures { option_copied result ≡ machine.consumer_of (state self.now).consumers session.now id };

    /// The place of the next publication.
    fn next_place(&self) -> u64
        ensures { result ≡ (state self.now).next_place };

    /// The keys that take the message with that index of those that are published, and whose rows last.
    fn takers(&self, index: usize, message: &Message) -> Result<Vec<Key>, AllocError>
        requires { slice_get (messages self.now) index ≡ Some message.now }
        ensures { IfOk result (λ keys. AreTakers (state self.now) message.now keys.items) };

    /// The key of the subscription that is deleted.
    fn deleted(&self) -> Option<&Key>
        ensures { option_copied result ≡ deletes self.now };

    /// The key of the durable subscription that is put, and what it asks for.
    fn decided(&self) -> Option<(&Key, &Definition)>
        ensures { option_map (λ x. (x.0.now, x.1.now)) result ≡ puts self.now };

    /// The place of the row that the delivery takes, where the step delivers one.
    fn taken(&self) -> Option<u64>
        ensures taken { result ≡ takes self.now }
        ensures place { IfSome result (λ place. place < long_end) };
}
