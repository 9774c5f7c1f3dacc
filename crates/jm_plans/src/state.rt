//! What the core holds, and each call on it.

ghost use Rattle.std.specs.Prelude.{◌≡◌, ◌+◌, ◌≤◌, ◌<◌, ◌&&◌, [], ◌∷◌, true, false, nat_le, length, MatchResult, IfOk, IfErr, OnOk, OnErr, Some, None};
ghost use Rattle.std.specs.Option.{option_copied};
ghost use Rattle.jm_base.specs.declared.refusal.Refusal.TheVariants.{OutOfRange, Memory};
ghost use Rattle.jm_machine.specs.Life as life;
ghost use Rattle.jm_machine.specs.Machine as machine;
ghost use Rattle.jm_machine.specs.Accepted.{HoldsAccepted};
ghost use Rattle.jm_plans.specs.Kept.{IsNumberOfMessages};
ghost use Rattle.jm_stations.specs.Backlogs as backlogs;
ghost use Rattle.jm_plans.specs.Provider.{greatest_limit, may_open, state_of};
ghost use Rattle.jm_plans.specs.Publications.{ArePrepared, unprepared};
ghost use Rattle.jm_plans.specs.Steps.{CommitFits, StepFits, PublishFits};

use jm_base::{Mode, Refusal};
use jm_dest::{Key, Name, Number, SessionId};
use jm_header::Message;
use jm_machine::{
    Answer, Call, ConnectionState, Consumer, Definition, PlacedRow, Request, SessionState, Station,
    Who,
};
use jm_parts::copies::{copy_held, is_stamped, station_at};
use jm_parts::publish::{Publication, make_publication, prepare_publication, prepare_publications};
use jm_queues::queues::Queues;
use jm_session::Sessions;
use jm_stations::Stations;
use jm_sub::Subs;
use std::alloc::{AllocError, Global};
use std::marker::Model;
use std::slice::from_ref;

/// What the core holds. Contracts see it as a `Provider`: the parts of the machine's state, each with its
/// room. In that state (`state_of`) the stations are the subscriptions, each with what is held under its key, and a queue
/// without a key holds nothing. Its drop is its own, so that a function with several ways out does not drop part by part
/// on each.
pub struct CoreState {
    pub alloc: Global,
    pub opening: Number,
    /// How many rows a subscription may hold.
    pub limit: u32,
    pub sessions: Sessions,
    pub subs: Subs,
    pub stations: Stations,
    pub queues: Queues,
}

impl Drop for CoreState {
    fn drop(self) {
        let CoreState {
            alloc: _alloc,
            opening: _opening,
            limit: _limit,
            sessions: _sessions,
            subs: _subs,
            stations: _stations,
            queues: _queues,
        } = self;
    }
}

impl Model for CoreState {
    ghost use Rattle.std.specs.Prelude.{◌≤◌};
    ghost use Rattle.jm_plans.specs.Provider.{Provider};
    ghost use Rattle.jm_parts.specs.State.{IsSound};

    ghost Value = { Provider };

    ghost view = { λ c. record {
      opening = c.opening;
      limit = c.limit;
      known = c.sessions;
      subscriptions = c.subs;
      held = c.stations;
      queues = c.queues;
    } };

    ghost invariant = { λ c.
        IsSound c.limit c.sessions.consumers c.subs.list c.stations.keys c.stations.list c.stations.next_place
        × (c.queues.next_place ≤ c.stations.next_place) };
}

/// The greatest number of rows that may be a limit (ours).
const GREATEST_LIMIT: u32 = 1_000_000;

/// The first number that is no place (ours).
const PLACES_END: u64 = 1 << 63;

/// Whether there may be a limit of so many rows.
pub(crate) fn is_limit(limit: u32) -> bool
    ensures { result ≡ (nat_le 1 limit && nat_le limit greatest_limit) }
{
    limit != 0 && limit <= GREATEST_LIMIT
}

/// A copy of what is known by number, and of the subscriptions. It is dropped by one call, so that a function with several
/// ways out does not drop both on each.
struct KnownParts {
    sessions: Sessions,
    subs: Subs,
}

impl Drop for KnownParts {
    fn drop(self) {
        let KnownParts {
            sessions: _sessions,
            subs: _subs,
        } = self;
    }
}

impl KnownParts {
    fn into_parts(self) -> (Sessions, Subs)
        ensures { result ≡ (self.sessions, self.subs) }
    {
        let KnownParts { sessions, subs } = self;
        (sessions, subs)
    }
}

/// A copy of what is known by number, and of the subscriptions. `AllocError` where a request for memory was refused.
fn copy_known(sessions: &Sessions, subs: &Subs) -> Result<KnownParts, AllocError>
    ensures life { IfOk result (λ x. x.sessions.life ≡ sessions.now.life) }
    ensures consumers { IfOk result (λ x. x.sessions.consumers ≡ sessions.now.consumers) }
    ensures subs { IfOk result (λ x. x.subs.list ≡ subs.now.list) }
{
    let sessions = sessions.copy()?;
    let subs = subs.copy()?;
    Ok(KnownParts { sessions, subs })
}

impl CoreState {
    /// A core that holds nothing, in that opening of the provider, with that limit of rows. `OutOfRange` exactly where
    /// `Core::new` says.
    pub fn new(alloc: Global, opening: u32, held_limit: u32) -> Result<CoreState, Refusal>
        ensures { MatchResult result
            (λ core. (state_of core ≡ machine.new_core opening held_limit) × (may_open opening held_limit ≡ true))
            (λ refusal. (refusal ≡ OutOfRange) × (may_open opening held_limit ≡ false)) }
    {
        let opening = Number::new(opening)?;
        if !is_limit(held_limit) {
            return Err(Refusal::OutOfRange);
        }
        Ok(CoreState {
            alloc,
            opening,
            limit: held_limit,
            sessions: Sessions::new(alloc),
            subs: Subs::new(alloc),
            stations: Stations::new(alloc),
            queues: Queues::new(alloc),
        })
    }

    /// Where the core takes its memory from.
    pub fn alloc(&self) -> Global {
        self.alloc
    }

    /// The number of this opening of the provider, from 1.
    pub fn opening(&self) -> Number
        ensures { result ≡ self.now.opening }
    {
        self.opening
    }

    /// How many rows a subscription may hold.
    pub fn limit(&self) -> u32
        ensures { result ≡ self.now.limit }
    {
        self.limit
    }

    /// The connections that were opened, in order.
    pub fn connections(&self) -> &[ConnectionState]
        ensures { result.now ≡ (state_of self.now).life.connections }
    {
        self.sessions.connections()
    }

    /// The sessions that were opened, in order.
    pub fn sessions(&self) -> &[SessionState]
        ensures { result.now ≡ (state_of self.now).life.sessions }
    {
        self.sessions.sessions()
    }

    /// The consumers that were made, in order.
    pub fn consumers(&self) -> &[Consumer]
        ensures { result.now ≡ (state_of self.now).consumers }
    {
        self.sessions.consumers()
    }

    /// The place of the next publication, from 1.
    pub fn next_place(&self) -> u64
        ensures { result ≡ (state_of self.now).next_place }
    {
        self.stations.next_place()
    }

    /// An equal core. `AllocError` where a request for memory was refused.
    pub fn copy(&self) -> Result<CoreState, AllocError>
        ensures { IfOk result (λ copy. state_of copy ≡ state_of self.now) }
    {
        let known = copy_known(&self.sessions, &self.subs)?;
        let (stations, queues) = copy_held(&self.stations, &self.queues)?;
        let (sessions, subs) = known.into_parts();
        Ok(CoreState {
            alloc: self.alloc,
            opening: self.opening,
            limit: self.limit,
            sessions,
            subs,
            stations,
            queues,
        })
    }

    /// How many subscriptions there are.
    pub fn stations_len(&self) -> usize
        ensures { result ≡ length (state_of self.now).stations }
    {
        self.subs.len()
    }

    /// How many messages are held for subscriptions, each counted once.
    pub fn kept(&self) -> usize
        ensures { IsNumberOfMessages result (state_of self.now).stations }
    {
        self.stations.kept()
    }

    /// How many messages queues hold.
    pub fn kept_by_queues(&self) -> usize
        ensures { backlogs.IsNumberOfMessages result self.now.queues.list }
    {
        self.queues.kept()
    }

    /// What the subscription of the key asks for, where there is one.
    pub fn definition_of(&self, key: &Key) -> Option<&Definition>
        ensures { option_copied result ≡ machine.definition_of (machine.station_of key.now (state_of self.now).stations) }
    {
        self.subs.definition_of(key)
    }

    /// A copy of the subscription of the key with its rows, where there is one. `AllocError` where a request
    /// for memory was refused.
    pub fn station(&self, key: &Key) -> Result<Option<Station>, AllocError>
        ensures { IfOk result (λ station. station ≡ machine.station_of key.now (state_of self.now).stations) }
    {
        match self.stations.index_of(key) {
            None => Ok(None),
            Some(index) => {
                let definition = self.subs.definition_at(index);
                Ok(Some(station_at(&self.stations, key, index, definition)?))
            }
        }
    }

    /// Copies of the rows of the queue of that name, by place. `AllocError` where a request for memory was refused.
    pub fn queue_rows(&self, name: &Name) -> Result<Vec<PlacedRow>, AllocError>
        ensures { IfOk result (λ rows. rows.items ≡ (state_of self.now).queues name.now) }
    {
        self.queues.rows(self.alloc, name)
    }

    /// Each row is accepted by the subscription that holds it; the function itself does nothing.
    pub fn law_accepted(&self)
        ensures { HoldsAccepted (state_of self.now).stations }
    {
        let _ = &self.stations;
    }

    /// The mode of the session, where it is open.
    pub fn mode_of(&self, id: &SessionId) -> Option<Mode>
        ensures { result ≡ life.mode_of (state_of self.now).life id.now }
    {
        self.sessions.mode_of(id)
    }

    /// Whether the session is open and transacted.
    pub(crate) fn is_transacted(&self, id: &SessionId) -> bool
        ensures { result ≡ machine.is_transacted (life.mode_of (state_of self.now).life id.now) }
    {
        matches!(self.sessions.mode_of(id), Some(Mode::Transacted))
    }

    /// Whether the session is open and not transacted.
    pub(crate) fn is_untransacted(&self, id: &SessionId) -> bool
        ensures { result ≡ machine.is_untransacted (life.mode_of (state_of self.now).life id.now) }
    {
        matches!(
            self.sessions.mode_of(id),
            Some(Mode::Auto | Mode::Client | Mode::Dups)
        )
    }

    /// Whether the session is open and not transacted, and stamped each of the messages.
    pub(crate) fn may_publish(&self, session: &SessionId, messages: &[Message]) -> bool
        ensures { result ≡ (machine.is_untransacted (life.mode_of (state_of self.now).life session.now)
            && machine.is_stamped self.now.opening session.now messages.now) }
    {
        self.is_untransacted(session) && is_stamped(self.opening, session, messages)
    }

    /// Whether the session is open and transacted, and stamped each of the messages.
    pub(crate) fn may_commit(&self, session: &SessionId, messages: &[Message]) -> bool
        ensures { result ≡ (machine.is_transacted (life.mode_of (state_of self.now).life session.now)
            && machine.is_stamped self.now.opening session.now messages.now) }
    {
        self.is_transacted(session) && is_stamped(self.opening, session, messages)
    }

    /// Whether places are left for that many messages.
    pub(crate) fn has_places(&self, number: usize) -> bool
        ensures { result ≡ nat_le ((state_of self.now).next_place + number) machine.places_end }
    {
        number as u64 <= PLACES_END - self.stations.next_place()
    }

    /// Prepares to publish copies of the messages, each at a place of its own: `Exhausted` where places run out, and
    /// else `Memory` where a request for memory was refused.
    pub(crate) fn prepare_messages(
        &mut self,
        messages: &[Message],
    ) -> Result<Vec<Publication>, Refusal>
        ensures same { state_of self.new ≡ state_of self.old }
        ensures ok { IfOk result (λ publications. ArePrepared self.new messages.now publications.items) }
        ensures err { IfErr result (λ refusal. refusal ≡ unprepared (state_of self.old).next_place messages.now) }
    {
        if !self.has_places(messages.len()) {
            return Err(Refusal::Exhausted);
        }
        prepare_publications(
            self.alloc,
            &self.sessions,
            &self.subs,
            &mut self.stations,
            &mut self.queues,
            messages,
        )
    }

    /// Makes one request.
    pub fn ask(&mut self, who: Who, request: &Request) -> Result<Answer, Refusal>
        ensures { StepFits (state_of self.old) who (Call.Ask request.now) result (state_of self.new) }
    {
        let change = self.plan_request(who, request)?;
        Ok(self.install(change))
    }

    /// Publishes a message that the session stamped.
    pub fn publish_one_from(&mut self, session: &SessionId, message: Message) -> Result<(), Refusal>
        ensures { PublishFits (state_of self.old) session.now (message ∷ []) result (state_of self.new) }
    {
        if !self.may_publish(session, from_ref(&message)) {
            return Err(Refusal::IllegalState);
        }
        if !self.has_places(1) {
            return Err(Refusal::Exhausted);
        }
        self.publish_one(message)
    }

    /// Publishes a message that the session stamped, and answers.
    pub fn publish(&mut self, session: &SessionId, message: Message) -> Result<Answer, Refusal>
        ensures { StepFits (state_of self.old) (Who.Session session.now) (Call.Publish (message ∷ [])) result (state_of self.new) }
    {
        match self.publish_one_from(session, message) {
            Ok(()) => Ok(Answer::Done),
            Err(refusal) => Err(refusal),
        }
    }

    /// Commits the transaction of the session, which sent those messages in it.
    pub fn commit_from(&mut self, session: &SessionId, messages: &[Message]) -> Result<(), Refusal>
        ensures { CommitFits (state_of self.old) session.now messages.now result (state_of self.new) }
    {
        let change = self.plan_commit_from(session, messages)?;
        let _ = self.install(change);
        Ok(())
    }

    /// Brings the message to the subscriptions that accept it, or to its queue, at the next place.
    fn publish_one(&mut self, message: Message) -> Result<(), Refusal>
        requires { self.old.held.next_place + 1 ≤ machine.places_end }
        ensures ok { OnOk result (state_of self.new ≡ machine.published (state_of self.old) (message ∷ [])) }
        ensures refused { IfErr result (λ refusal. refusal ≡ Memory) }
        ensures err { OnErr result (state_of self.new ≡ state_of self.old) }
    {
        let publication = prepare_publication(
            &self.sessions,
            &self.subs,
            &mut self.stations,
            &mut self.queues,
            message,
            1,
        )?;
        make_publication(&mut self.stations, &mut self.queues, publication);
        Ok(())
    }
}
