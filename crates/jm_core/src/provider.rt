ghost use Rattle.std.specs.Prelude.{◌≡◌, ◌∷◌, [], ℕ, List, length, true, false, if◌then◌else◌, MatchResult, IfOk, IfErr, OnErr};
ghost use Rattle.std.specs.Option.{option_copied};
ghost use Rattle.jm_base.specs.declared.refusal.Refusal.TheVariants.{Memory, OutOfRange};
ghost use Rattle.jm_machine.specs.declared.call.Call.TheVariants.{Publish};
ghost use Rattle.jm_machine.specs.declared.call.Who.TheVariants.{Session};
ghost use Rattle.jm_machine.specs.Machine as machine;
ghost use Rattle.jm_machine.specs.Client.{Progress, begun, RunOwed};
ghost use Rattle.jm_machine.specs.Isolation.{AreIsolated, Reached};
ghost use Rattle.jm_machine.specs.Accepted.{HoldsAccepted};
ghost use Rattle.jm_machine.specs.Rows.{InOrder};
ghost use Rattle.jm_plans.specs.Kept.{IsNumberOfMessages};
ghost use Rattle.jm_stations.specs.Backlogs as backlogs;
ghost use Rattle.jm_core.specs.Limits.{AllWithin};
ghost use Rattle.jm_core.specs.Outstanding.{AreOutToOpen};
ghost use Rattle.jm_plans.specs.Plans.{InstallFits, IsPlan, IsPlanned, IsRefused};
ghost use Rattle.jm_plans.specs.Provider.{may_open, state_of};
ghost use Rattle.jm_plans.specs.Steps.{StepFits};
ghost use Rattle.jm_parts.specs.Stored as stored;

use crate::planned::Plan;
use crate::run::run_on;
use jm_base::Refusal;
use jm_dest::{Key, Name, Number, SessionId};
use jm_header::Message;
use jm_law::law_isolation_of_runs;
use jm_machine::{
    Answer, ClientCall, ConnectionState, Consumer, Definition, PlacedRow, Reply, SessionState,
    Station, Step,
};
use jm_parts::stored::{StoredMessage, StoredSubscription};
use jm_plans::state::CoreState;
use std::alloc::{AllocError, Global};
use std::marker::Model;

/// The provider. Contracts see it as a `Provider`: the parts of the machine's state, each with the room that
/// there is for more. What a call answers and leaves is said of that state alone (`state_of`), and every
/// core's state is one that the provider reaches.
pub struct Core {
    pub(crate) state: CoreState,
}

// (by hand, so that a caller lets a core go by one call, on each of its ways out)
impl Drop for Core {
    fn drop(self) {
        let Core { state } = self;
        drop(state);
    }
}

impl Model for Core {
    ghost use Rattle.jm_machine.specs.Isolation.{Reached};
    ghost use Rattle.jm_plans.specs.Provider.{Provider, state_of};

    ghost Value = { Provider };

    ghost view = { λ c. c.state };

    ghost invariant = { λ c. Reached (state_of c.state) };
}

/// The law that each core's state is reached, proved; the function itself does nothing.
///
/// The state of every core is one that the provider reaches: that of a new core or of one that is opened again, or what
/// steps lead to from one. So the law of isolation holds of whatever list of calls is run on it next.
pub fn law_core_reached(core: &Core)
    ensures { Reached (state_of core.now) }
{
    let _ = &core.state;
}

/// The law of what each core holds, proved; the function itself does nothing.
///
/// Each row was accepted: its message goes to the subscription's topic, and the tree of the subscription's
/// selector is TRUE for it, or there is no selector. The rows of each subscription stand by place, below the
/// next place, and so do those of each queue.
pub fn law_rows_in_order(core: &Core)
    ensures accepted { HoldsAccepted (state_of core.now).stations }
    ensures ordered { machine.AllInOrder (state_of core.now).next_place (state_of core.now).stations }
    ensures queued { (name : List ℕ) → InOrder (state_of core.now).next_place ((state_of core.now).queues name) }
{
    core.state.law_accepted();
}

/// The law of how many rows each core holds, proved; the function itself does nothing.
///
/// Each subscription that is not durable holds at most as many rows as the limit says, waiting and out.
pub fn law_rows_within_limit(core: &Core)
    ensures { AllWithin (state_of core.now).limit (state_of core.now).stations }
{
    let _ = &core.state;
}

/// The law of what is out, proved; the function itself does nothing.
///
/// Each row that is out, of a subscription or of a queue, is out to a session that is open.
pub fn law_rows_out_to_open(core: &Core)
    ensures { AreOutToOpen (state_of core.now) }
{
    let _ = &core.state;
}

impl Core {
    /// A core that holds nothing, in that opening of the provider, each of whose subscriptions holds at most so many
    /// rows, if it is not durable. `OutOfRange` exactly where the number of the opening is 0, or the limit is 0 or above
    /// 1,000,000.
    pub fn new(alloc: Global, opening: u32, held_limit: u32) -> Result<Core, Refusal>
        ensures { MatchResult result
            (λ core. (state_of core ≡ machine.new_core opening held_limit) × (may_open opening held_limit ≡ true))
            (λ refusal. (refusal ≡ OutOfRange) × (may_open opening held_limit ≡ false)) }
    {
        let state = CoreState::new(alloc, opening, held_limit)?;
        Ok(Core { state })
    }

    /// A core that is made of what was stored, in that opening of the provider and with that limit: the subscriptions in
    /// their order, and under each, and at each queue, the rows of the messages that it holds, by place and with their
    /// counts. A message stands once, however many hold it. All rows wait, no publication was missed, nobody is connected,
    /// and the next place is one above the greatest, or 1 where there is none.
    ///
    /// The caller sees to it that all of that may be: each key is that of a durable subscription and stands once, the
    /// messages come by place, and who holds one may hold it (`admits`, `queue_admits`), by the index of the subscription,
    /// each once, with a count of at most 2,147,483,647.
    ///
    /// - `OutOfRange`: exactly where `new` says.
    /// - `Memory`: a request for memory was refused.
    pub fn reopen(
        alloc: Global,
        opening: u32,
        held_limit: u32,
        subscriptions: Vec<StoredSubscription>,
        messages: Vec<StoredMessage>,
    ) -> Result<Core, Refusal>
        requires { stored.MayReopen subscriptions.items messages.items }
        ensures ok { IfOk result (λ core. (state_of core ≡ stored.state_stored opening held_limit subscriptions.items messages.items)
            × (may_open opening held_limit ≡ true)) }
        ensures err { IfErr result (λ refusal. refusal ≡ (if may_open opening held_limit then Memory else OutOfRange)) }
    {
        let state = CoreState::reopen(alloc, opening, held_limit, subscriptions, messages)?;
        Ok(Core { state })
    }

    /// An equal core. `AllocError` where a request for memory was refused.
    pub fn copy(&self) -> Result<Core, AllocError>
        ensures { IfOk result (λ copy. state_of copy ≡ state_of self.now) }
    {
        let state = self.state.copy()?;
        Ok(Core { state })
    }

    /// The number of this opening of the provider, from 1.
    pub fn opening(&self) -> Number
        ensures { result ≡ (state_of self.now).opening }
    {
        self.state.opening()
    }

    /// How many rows a subscription that is not durable may hold.
    pub fn held_limit(&self) -> u32
        ensures { result ≡ (state_of self.now).limit }
    {
        self.state.limit()
    }

    /// The connections that were opened, in order. One that was closed stays known.
    pub fn connections(&self) -> &[ConnectionState]
        ensures { result.now ≡ (state_of self.now).life.connections }
    {
        self.state.connections()
    }

    /// The sessions that were opened, in order. One that was closed stays known.
    pub fn sessions(&self) -> &[SessionState]
        ensures { result.now ≡ (state_of self.now).life.sessions }
    {
        self.state.sessions()
    }

    /// The consumers that were made, in order. One that was closed stays known.
    pub fn consumers(&self) -> &[Consumer]
        ensures { result.now ≡ (state_of self.now).consumers }
    {
        self.state.consumers()
    }

    /// How many subscriptions there are.
    pub fn stations_len(&self) -> usize
        ensures { result ≡ length (state_of self.now).stations }
    {
        self.state.stations_len()
    }

    /// How many messages are held for subscriptions, each counted once, however many rows hold it.
    pub fn kept(&self) -> usize
        ensures { IsNumberOfMessages result (state_of self.now).stations }
    {
        self.state.kept()
    }

    /// How many messages queues hold: none of these is held for a subscription.
    pub fn kept_by_queues(&self) -> usize
        ensures { backlogs.IsNumberOfMessages result self.now.queues.list }
    {
        self.state.kept_by_queues()
    }

    /// What the subscription of that key asks for, where there is one. It is found by the order of the keys. Takes no memory.
    pub fn definition_of(&self, key: &Key) -> Option<&Definition>
        ensures { option_copied result ≡ machine.definition_of (machine.station_of key.now (state_of self.now).stations) }
    {
        self.state.definition_of(key)
    }

    /// A copy of the subscription of that key with its rows, where there is one. `AllocError` where a request
    /// for memory was refused.
    pub fn station(&self, key: &Key) -> Result<Option<Station>, AllocError>
        ensures { IfOk result (λ station. station ≡ machine.station_of key.now (state_of self.now).stations) }
    {
        self.state.station(key)
    }

    /// Copies of the rows of the queue of that name, by place: none where it holds nothing. `AllocError` where a request
    /// for memory was refused.
    pub fn queue_rows(&self, name: &Name) -> Result<Vec<PlacedRow>, AllocError>
        ensures { IfOk result (λ rows. rows.items ≡ (state_of self.now).queues name.now) }
    {
        self.state.queue_rows(name)
    }

    /// The place of the next publication, from 1.
    pub fn next_place(&self) -> u64
        ensures { result ≡ (state_of self.now).next_place }
    {
        self.state.next_place()
    }

    /// Plans one step: finds why it is refused, or takes all the memory that it needs. Either way the core is
    /// as it was, but for its room. A plan is made by `install`; one that is let go changes nothing.
    ///
    /// A refusal is the first cause that stands, as `step` says, and `Memory` comes where it says.
    pub fn plan(&mut self, step: &Step) -> Result<Plan, Refusal>
        ensures same { state_of self.new ≡ state_of self.old }
        ensures ok { IfOk result (λ plan. IsPlan self.new step.now.who step.now.call plan) }
        ensures err { IfErr result (λ refusal. IsRefused (state_of self.old) step.now.who step.now.call refusal) }
    {
        let change = self.state.plan(step)?;
        Ok(Plan { change })
    }

    /// Makes the step that was planned on this core as it stands, and gives its answer. Takes no memory, and
    /// cannot fail.
    pub fn install(&mut self, plan: Plan) -> Answer
        requires { IsPlanned self.old plan }
        ensures { InstallFits self.old plan result self.new }
    {
        self.state.install(plan.into_change())
    }

    /// Plans one step and installs it. A refusal is the first cause that stands, in this order, and leaves the core as
    /// it was.
    ///
    /// - `IllegalState`: the connection, the session or the consumer is not in a state for the call. So it is with a
    ///   `Recover` in a transacted session and with a `Commit` or a `Rollback` in any other (Jakarta Messaging 3.1,
    ///   section 6.2), with a `Publish` in a transacted session, and with messages that this session did
    ///   not stamp in this opening (ours), and with a `CreateDurable` on a connection that has no client identifier
    ///   (section 8.3.3). So it is with a `Receive` of a consumer that listens, with a `Take` of one that does not listen or is
    ///   busy, with a `Done` of one that is not busy, and with a `SetListener` or a `CloseConsumer` of one that is (ours).
    /// - `InvalidClientId`: an open connection has the client identifier for which another is to be opened (Jakarta
    ///   Messaging 3.1, section 6.1.2).
    /// - `InvalidDestination`: a subscription that has a name is asked for of a queue, or there is none to be deleted.
    /// - `InvalidSelector`: a new consumer's selector does not read.
    /// - `SubscriptionInUse`: a subscription that has a name may not be had, or not be deleted, while a consumer of it is
    ///   active or a row of it is out, or since its name is that of one that is shared in another way (Jakarta Messaging
    ///   3.1, section 8.3).
    /// - `Exhausted`: places run out before all messages of a `Publish` or a `Commit` have one; none is published then,
    ///   and nothing settled (ours). The limit of rows refuses neither: a subscription at its limit misses the message.
    /// - `Memory`: a request for memory was refused. It comes only to a call that takes memory, and only where no other
    ///   cause stands, or in place of a new consumer's `InvalidSelector` or `SubscriptionInUse`, or of why a subscription
    ///   is not deleted in an open session. Memory is taken to open a connection or a session, to make a consumer, to
    ///   delete a subscription, to publish and to commit, by a `Receive` that hands out a copy: in modes `Client`
    ///   and `Transacted`, and of a message that another subscription holds too; and by a `Take` that hands out a message. No
    ///   other call takes any.
    pub fn step(&mut self, step: &Step) -> Result<Answer, Refusal>
        ensures { StepFits (state_of self.old) step.now.who step.now.call result (state_of self.new) }
    {
        let plan = self.plan(step)?;
        Ok(self.install(plan))
    }

    /// Publishes one message that the session stamped, as `step` makes a `Publish` of it alone; but the message is moved to
    /// where it is held, and not copied. A refusal, as `step` says, drops the message, and leaves the core as it was.
    pub fn publish(&mut self, session: &SessionId, message: Message) -> Result<Answer, Refusal>
        ensures { StepFits (state_of self.old) (Session session.now) (Publish (message ∷ [])) result (state_of self.new) }
    {
        self.state.publish(session, message)
    }

    /// Makes the calls in turn, and gives the reply to each. The numbers of each session's sends count from 1 at the
    /// start of the list. What is sent in a transacted session is kept until it commits, and dropped by its rollback, its
    /// close, the close of its connection, and the end of the list (Jakarta Messaging 3.1, section 6.2); a commit that is
    /// refused leaves it kept. `AllocError` where no room was found for the replies and for the sessions that send; then
    /// no call was made. Where one call wants memory, as `step` says, or a send in a transacted session does, its reply is
    /// `Memory`, the core and what is kept are as they were before that call, and the run goes on; a send that was to be
    /// published has used its number then.
    ///
    /// The replies are isolated: at each key of an unshared topic subscription, whose consumers' numbers name nothing else,
    /// they are those that this subscription answers alone, fed with its own sessions' calls and with the committed
    /// messages that it accepts.
    pub fn run(&mut self, calls: Vec<ClientCall>) -> Result<Vec<Reply>, AllocError>
        ensures ok { IfOk result (λ replies. (end : Progress)
            × RunOwed (begun (state_of self.old)) calls.items replies.items end × (state_of self.new ≡ end.state)) }
        ensures isolated { IfOk result (λ replies. AreIsolated (state_of self.old) calls.items replies.items) }
        ensures err { OnErr result (state_of self.new ≡ state_of self.old) }
    {
        law_isolation_of_runs();
        run_on(&mut self.state, calls)
    }
}
