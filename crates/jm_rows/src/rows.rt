//! The rows of one subscription.

ghost use Rattle.std.specs.Prelude.{◌≡◌, ◌<◌, ◌++◌, true, [], ◌∷◌, filter, length, map, not, IfOk, OnOk, OnErr};
ghost use Rattle.std.specs.List.{list_any};
ghost use Rattle.jm_machine.specs.Machine as machine;
ghost use Rattle.jm_machine.specs.Rows as spec;
ghost use Rattle.jm_stations.specs.Backlogs.{gone};
ghost use Rattle.jm_rows.specs.Rows.{HasRoom, IsOneAtMost, rows_in};

use jm_base::Mode;
use jm_dest::{ConsumerId, Key, Moment, SessionId};
use jm_header::Message;
use jm_machine::{Answer, Consumers, PlacedRow, Row, RowState};
use jm_stations::Stations;
use std::alloc::{AllocError, Global};
use std::marker::Model;

/// The first number that is no place.
const PLACES_END: u64 = 9_223_372_036_854_775_808;

/// The rows under one key, in order, of which there may be any number. Contracts see them without their places. Nothing is
/// held under the key until a first row comes. Its drop is its own, so that a function with several ways out does not drop part
/// by part on each.
pub struct Rows {
    key: Key,
    stations: Stations,
}

impl Drop for Rows {
    fn drop(self) {
        let Rows { key, stations } = self;
        drop(key);
        drop(stations);
    }
}

impl Model for Rows {
    ghost use Rattle.std.specs.Prelude.{List};
    ghost use Rattle.jm_machine.specs.declared.state.Row.{Row as RowHeld};
    ghost use Rattle.jm_rows.specs.Rows.{IsOneAtMost, rows_in};

    ghost Value = { List RowHeld };

    ghost view = { λ r. rows_in r.stations.list };

    ghost invariant = { λ r. IsOneAtMost r.stations.next_place r.stations.list };
}

/// The key is there, with no rows where it was not. `AllocError` where a request for memory was refused. Either way the rows are
/// as before.
fn begin(stations: &mut Stations, key: &Key) -> Result<(), AllocError>
    requires { IsOneAtMost stations.old.next_place stations.old.list }
    ensures one { IsOneAtMost stations.new.next_place stations.new.list }
    ensures first { OnOk result (0 < length stations.new.list) }
    ensures rows { rows_in stations.new.list ≡ rows_in stations.old.list }
    ensures next_place { stations.new.next_place ≡ stations.old.next_place }
{
    if stations.len() == 0 {
        let key = key.copy()?;
        stations.reserve_key()?;
        stations.create(key, None);
    }
    Ok(())
}

/// Makes room for that many more rows under the key, which is there after it. `AllocError` where a request for memory was
/// refused, or where no place is left, as no memory would hold so many rows. Either way the rows are as before.
fn reserve(stations: &mut Stations, key: &Key, additional: usize) -> Result<(), AllocError>
    requires { IsOneAtMost stations.old.next_place stations.old.list }
    ensures one { IsOneAtMost stations.new.next_place stations.new.list }
    ensures room { OnOk result (HasRoom additional stations.new) }
    ensures rows { rows_in stations.new.list ≡ rows_in stations.old.list }
{
    if PLACES_END - stations.next_place() < additional as u64 {
        return Err(AllocError);
    }
    begin(stations, key)?;
    stations.reserve(&[0], additional)
}

impl Rows {
    /// No rows, which would stand under the key. Takes no memory.
    pub fn new(alloc: Global, key: Key) -> Rows
        ensures { result ≡ [] }
    {
        Rows {
            key,
            stations: Stations::new(alloc),
        }
    }

    /// Those rows under the key, in their order. `AllocError` where a request for memory was refused.
    pub fn of(alloc: Global, key: Key, rows: Vec<PlacedRow>) -> Result<Rows, AllocError>
        ensures { IfOk result (λ loaded. loaded ≡ spec.bare rows.items) }
    {
        let mut stations = Stations::new(alloc);
        reserve(&mut stations, &key, rows.len())?;
        for placed in rows {
            stations.load(0, placed.row);
        }
        Ok(Rows { key, stations })
    }

    /// How many rows there are. Takes no memory.
    pub fn len(&self) -> usize
        ensures { result ≡ length self.now }
    {
        self.stations.kept()
    }

    /// Adds the row of a message that comes, which waits and was never delivered, behind all others. `AllocError` where a
    /// request for memory was refused: all stays as before.
    pub fn push(&mut self, message: &Message) -> Result<(), AllocError>
        ensures ok { OnOk result (self.new ≡ self.old ++ spec.fresh message.now ∷ []) }
        ensures err { OnErr result (self.new ≡ self.old) }
    {
        reserve(&mut self.stations, &self.key, 1)?;
        let row = Row {
            message: message.copy()?,
            count: 0,
            state: RowState::Waiting,
        };
        self.stations.load(0, row);
        Ok(())
    }

    /// All rows go. Takes no memory.
    pub fn clear(&mut self)
        ensures { self.new ≡ [] }
    {
        if self.stations.len() > 0 {
            self.stations.remove(0);
        }
    }

    /// Whether no row is out to a session. Takes no memory.
    pub fn is_home(&self) -> bool
        ensures { result ≡ not (list_any (λ r. spec.is_out (λ s c. true) r) self.now) }
    {
        self.stations.len() == 0 || self.stations.is_home(0)
    }

    /// Drops the rows that wait and have lapsed, and delivers the next one to the session through its consumer, as the
    /// mode says: it is settled at once, or goes out. `AllocError` where a request for memory was refused: all stays as
    /// before.
    #[tactic(auto, unfolding(jm_machine::specs::Rows::left_of))]
    pub fn receive(
        &mut self,
        mode: Mode,
        session: &SessionId,
        consumer: ConsumerId,
        now: Moment,
    ) -> Result<Answer, AllocError>
        ensures answer { IfOk result (λ answer. answer ≡ machine.delivery (spec.next now (spec.live now self.old))) }
        ensures rows { OnOk result (self.new ≡ spec.deliver now (spec.left_of (Some mode) session.now consumer) self.old) }
        ensures err { OnErr result (self.new ≡ self.old) }
    {
        match mode {
            Mode::Auto | Mode::Dups => self.settle_next(now),
            Mode::Client | Mode::Transacted => self.take(session, consumer, now),
        }
    }

    /// Drops the rows that wait and have lapsed, and delivers the next one, which is settled.
    fn settle_next(&mut self, now: Moment) -> Result<Answer, AllocError>
        ensures answer { IfOk result (λ answer. answer ≡ machine.delivery (spec.next now (spec.live now self.old))) }
        ensures rows { OnOk result (self.new ≡ spec.deliver now gone self.old) }
        ensures err { OnErr result (self.new ≡ self.old) }
    {
        if self.stations.len() == 0 {
            return Ok(Answer::Nothing);
        }
        let picked = self.stations.pick(0, now, true)?;
        Ok(self.stations.receive(0, now, picked))
    }

    /// Drops the rows that wait and have lapsed, and delivers the next one, which goes out to the session through its
    /// consumer. `AllocError` where a request for memory was refused: all stays as before.
    pub fn take(
        &mut self,
        session: &SessionId,
        consumer: ConsumerId,
        now: Moment,
    ) -> Result<Answer, AllocError>
        ensures answer { IfOk result (λ answer. answer ≡ machine.delivery (spec.next now (spec.live now self.old))) }
        ensures rows { OnOk result (self.new ≡ spec.deliver now (spec.taken session.now consumer) self.old) }
        ensures err { OnErr result (self.new ≡ self.old) }
    {
        if self.stations.len() == 0 {
            return Ok(Answer::Nothing);
        }
        let picked = self.stations.pick(0, now, false)?;
        Ok(self.stations.deliver(0, now, picked, *session, consumer))
    }

    /// The rows that are out through one of those consumers go. Takes no memory.
    pub fn settle(&mut self, which: &Consumers)
        ensures { self.new ≡ filter (λ r. not (spec.is_out (machine.are_meant which.now) r)) self.old }
    {
        self.stations.settle(which);
    }

    /// The rows that are out through one of those consumers wait again, at their places and with their counts. Takes no
    /// memory.
    pub fn give_back(&mut self, which: &Consumers)
        ensures { self.new ≡ map (spec.given_back (machine.are_meant which.now)) self.old }
    {
        self.stations.give_back(which);
    }
}
