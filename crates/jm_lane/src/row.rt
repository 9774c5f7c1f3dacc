//! Rows, and what is asked of one alone.

ghost use Rattle.std.specs.Prelude.{◌≡◌, ◌<◌, ◌≤◌, ◌==◌, not, true};
ghost use Rattle.jm_machine.specs.Machine.{are_meant};
ghost use Rattle.jm_lane.specs.Rows as spec;
ghost use Rattle.jm_lane.specs.Chosen as chosen;
ghost use Rattle.jm_lane.specs.Lanes as by_lane;
ghost use Rattle.jm_lane.specs.Lanes.{IsBound, IsDueBound};
ghost use Rattle.jm_selector.specs.Selectors.{matches};

use crate::table::Table;
use jm_dest::{ConsumerId, Moment, SessionId};
use jm_header::Message;
use jm_machine::{Consumers, RowState};
use jm_selector::Selector;

/// A row that a subscription holds for a message of the table (ours).
#[derive(Clone, Copy, Debug, PartialEq, Eq)]
pub struct Row {
    /// The place of the publication, by which the table has the message.
    pub place: u64,
    /// How often the row was delivered, at most 2,147,483,647.
    pub count: u32,
    pub state: RowState,
    /// The message's JMSPriority, from 0 to 9.
    pub priority: u8,
    /// The message's JMSExpiration, where 0 means that it does not expire.
    pub expiration: Moment,
    /// The message's JMSDeliveryTime in milliseconds, before which it is held back, where it has a delivery delay, and else 0.
    pub due: u64,
}

/// Rows that are out: all through consumers that are meant, or the one at a place through a session's consumer.
#[derive(Clone, Copy)]
pub enum Outs {
    /// Each that is out through one of these consumers.
    Of(Consumers),
    /// The one at that place, where it is out through that consumer of the session.
    Through(SessionId, ConsumerId, u64),
}

/// The moment before which a message is held back, and 0 where it has no delivery delay.
fn due_of(message: &Message) -> u64
    ensures { result ≡ spec.due_of message.now }
{
    if message.is_delayed() {
        message.delivery_time().get()
    } else {
        0
    }
}

/// A count of deliveries, one more; from 2,147,483,647 on it stays.
fn raised(count: u32) -> u32
    ensures { result ≡ spec.raised count }
{
    if count < 2_147_483_647 {
        count + 1
    } else {
        count
    }
}

impl Row {
    /// The row of a message that comes, at its place. It waits, and was never delivered.
    pub fn new(place: u64, message: &Message) -> Row
        ensures row { result ≡ spec.fresh place message.now }
        ensures priority { result.priority < 10 }
    {
        Row::with_state(place, message, 0, RowState::Waiting)
    }

    /// The row of a message that was delivered so often, at its place and in that state.
    pub fn with_state(place: u64, message: &Message, count: u32, state: RowState) -> Row
        ensures row { result ≡ spec.row_of place message.now count state }
        ensures priority { result.priority < 10 }
    {
        Row {
            place,
            count,
            state,
            priority: message.priority(),
            expiration: message.expiration(),
            due: due_of(message),
        }
    }

    /// Whether the row waits for a delivery.
    pub fn is_waiting(&self) -> bool
        ensures { result ≡ spec.is_waiting self.now }
    {
        match self.state {
            RowState::Waiting => true,
            RowState::Out(_, _) => false,
        }
    }

    /// Whether the row is out through one of those consumers.
    pub(crate) fn is_out(&self, which: &Consumers) -> bool
        ensures { result ≡ spec.is_out (are_meant which.now) self.now }
    {
        match self.state {
            RowState::Waiting => false,
            RowState::Out(session, consumer) => which.include(&session, consumer),
        }
    }

    /// Whether the row is one of those.
    pub(crate) fn is_among(&self, outs: &Outs) -> bool
        ensures { result ≡ spec.is_among outs.now self.now }
    {
        match *outs {
            Outs::Of(which) => self.is_out(&which),
            Outs::Through(session, consumer, place) => {
                self.place == place && self.is_out(&Consumers::One(session, consumer))
            }
        }
    }

    /// Whether the row is expired at that moment: its expiration is set, and not later.
    pub fn is_expired(&self, now: Moment) -> bool
        ensures { result ≡ spec.is_expired now self.now }
    {
        let expiration = self.expiration.get();
        expiration != 0 && expiration <= now.get()
    }

    /// Whether the row is held back at that moment: its due moment is later.
    pub(crate) fn is_held_back(&self, now: Moment) -> bool
        ensures { result ≡ spec.is_held_back now self.now }
    {
        now.get() < self.due
    }

    /// Whether the row is held back at that moment, and its lane's rows are due in turn, so that each later one is too.
    pub(crate) fn holds_back_rest(&self, now: Moment, in_turn: bool) -> bool
        ensures turn { result ≡ true → in_turn ≡ true }
        ensures row { result ≡ true → now < self.now.due }
    {
        in_turn && self.is_held_back(now)
    }

    /// Whether the row is held back at some moment.
    pub fn is_delayed(&self) -> bool
        ensures { result ≡ not (self.now.due == 0) }
    {
        self.due != 0
    }

    /// Whether the row may be delivered at that moment.
    pub(crate) fn is_ready(&self, now: Moment) -> bool
        ensures { result ≡ spec.is_ready now self.now }
    {
        self.is_waiting() && !self.is_expired(now) && !self.is_held_back(now)
    }

    /// Whether the selector selects the row's message, where the table has it.
    fn is_selected(&self, table: &Table, selector: &Selector) -> bool
        ensures { result ≡ chosen.passes (matches selector.now) table.now self.now }
    {
        match table.get(self.place) {
            Some(message) => selector.selects(message),
            None => false,
        }
    }

    /// Whether the row may be delivered at that moment, and the selector selects its message.
    pub(crate) fn is_choice(&self, table: &Table, now: Moment, selector: &Selector) -> bool
        ensures { result ≡ chosen.is_choice (matches selector.now) table.now now self.now }
    {
        self.is_ready(now) && self.is_selected(table, selector)
    }

    /// Whether a delivery at that moment leaves the row.
    pub(crate) fn stays(&self, now: Moment) -> bool
        ensures { result ≡ spec.stays now self.now }
    {
        !self.is_waiting() || !self.is_expired(now)
    }

    /// Whether the row does not expire before the other.
    pub(crate) fn expires_after(&self, other: &Row) -> bool
        ensures { result ≡ by_lane.in_turn other.now self.now }
    {
        let expiration = self.expiration.get();
        let first = other.expiration.get();
        expiration == 0 || (first != 0 && first <= expiration)
    }

    /// Whether the row is not due before the other.
    pub(crate) fn is_due_after(&self, other: &Row) -> bool
        ensures { result ≡ true → other.now.due ≤ self.now.due }
    {
        other.due <= self.due
    }

    /// Whether the row goes before the other.
    pub(crate) fn is_sooner(&self, other: &Row) -> bool
        ensures { result ≡ by_lane.is_sooner self.now other.now }
    {
        other.priority < self.priority
            || (self.priority == other.priority && self.place < other.place)
    }

    /// A bound on when what has that bound expires, and the row, where it waits.
    pub(crate) fn earlier(&self, least: u64) -> u64
        ensures lower { result ≤ least }
        ensures bound { IsBound result self.now }
    {
        let expiration = self.expiration.get();
        if self.is_waiting() && expiration != 0 && expiration < least {
            expiration
        } else {
            least
        }
    }

    /// A bound on when what has that bound is due, and the row, where it waits.
    pub(crate) fn due_earlier(&self, due: u64) -> u64
        ensures lower { result ≤ due }
        ensures bound { IsDueBound result self.now }
    {
        if self.is_waiting() {
            self.due.min(due)
        } else {
            due
        }
    }

    /// The row after one more delivery.
    pub fn counted(self) -> Row
        ensures { result ≡ spec.counted self }
    {
        Row {
            count: raised(self.count),
            ..self
        }
    }

    /// The row delivered, and out to the session through its consumer.
    pub(crate) fn sent(self, session: SessionId, consumer: ConsumerId) -> Row
        ensures { result ≡ spec.sent session consumer self }
    {
        Row {
            state: RowState::Out(session, consumer),
            ..self.counted()
        }
    }

    /// The row waiting again, where it is one of those.
    pub(crate) fn back(self, outs: &Outs) -> Row
        ensures { result ≡ spec.back (spec.is_among outs.now) self }
    {
        if self.is_among(outs) {
            Row {
                state: RowState::Waiting,
                ..self
            }
        } else {
            self
        }
    }
}
