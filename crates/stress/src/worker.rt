//! A thread's client: three sessions of a connection of its own.

use crate::others::Others;
use crate::turns::{Turn, next_seed, turn_of};
use jm_base::{List, Mode, Refusal};
use jm_broker::{Broker, Clock, Pass, Trace};
use jm_core::{Call, ClientCall, Core, Step, Who};
use jm_dest::{ConsumerId, Moment, Number, SessionId};
use jm_header::{Draft, Message, Sender};
use jm_keep::NoKeep;
use jm_tx::{Sent, SessionHalf};
use std::alloc::Global;
use std::sync::Wait;
use std::sync::ledger::Ledger;
use tests_calls::{At, Kind, Op, call, destination, draft, session_of};

pub(crate) type Lock<L> = Broker<Core, NoKeep, L>;

pub(crate) const QUEUE: At = At::Queue("q");

const TOPIC: At = At::Topic("t");

/// How long a message to the queue lasts that is published outside a transaction, in milliseconds: a turn takes one.
const LASTS: i64 = 40;

/// The moment of the first turn.
const START: i64 = 1000;

/// A clock that stands at the moment of a turn.
#[derive(Clone, Copy)]
struct Still {
    now: Moment,
}

impl Clock for Still {
    fn now(&self) -> Moment {
        self.now
    }
}

/// The client of a thread: its connection's number, whose session 1 settles at once, 2 is transacted and 3 acknowledges; the
/// halves of those that send; where its turns have come to; how many of its calls were refused; and the trace so far, where
/// it has cut it.
#[derive(Drop)]
pub(crate) struct Worker {
    pub(crate) connection: u32,
    pub(crate) made: u64,
    pub(crate) refused: u64,
    pub(crate) segment: Option<Trace<Core>>,
    seed: u64,
    now: i64,
    own: SessionHalf,
    kept: SessionHalf,
}

fn half(heap: Global, connection: u32, number: u32, mode: Mode) -> Result<SessionHalf, Refusal> {
    let sender = Sender {
        opening: Number::new(1)?,
        session: session_of((connection, number))?,
    };
    Ok(SessionHalf::new(heap, sender, mode, 0))
}

/// The client of that connection.
pub(crate) fn new_worker(heap: Global, connection: u32) -> Result<Worker, Refusal> {
    let own = half(heap, connection, 1, Mode::Auto)?;
    let kept = half(heap, connection, 2, Mode::Transacted)?;
    Ok(Worker {
        connection,
        made: 0,
        refused: 0,
        segment: None,
        seed: u64::from(connection),
        now: START,
        own,
        kept,
    })
}

/// Whether the thread's own subscription selects the messages whose x is not 0.
pub(crate) fn is_picky(connection: u32) -> bool {
    connection % 2 == 1
}

/// What opens the connection with its sessions and consumers.
fn opening(c: u32) -> [Op; 9] {
    let selector = if is_picky(c) { Some("x > 0") } else { None };
    [
        Op::Open(c),
        Op::Session((c, 1), Mode::Auto),
        Op::Session((c, 2), Mode::Transacted),
        Op::Session((c, 3), Mode::Client),
        Op::Consumer((c, 1), 1, selector),
        Op::ConsumerAt((c, 1), 2, QUEUE, None, false),
        Op::ConsumerAt((c, 2), 1, QUEUE, None, false),
        Op::Named((c, 3), 1, Kind::Shared, "g", None),
        Op::Start(c),
    ]
}

/// The step of a call that carries no messages.
fn asked(heap: Global, op: Op) -> Result<Step, Refusal> {
    match call(heap, op) {
        Ok(ClientCall::Ask { who, request }) => Ok(Step {
            who,
            call: Call::Ask(request),
        }),
        Ok(_) => Err(Refusal::Store),
        Err(refusal) => Err(refusal),
    }
}

fn by(session: SessionId, call: Call) -> Step {
    Step {
        who: Who::Session(session),
        call,
    }
}

/// A text whose x is 0 or 1, with that time to live.
fn work(heap: Global, x: i64, time_to_live: i64) -> Draft {
    let mut draft = draft(heap, "work", Some(x));
    let _ = draft.set_time_to_live(time_to_live);
    draft
}

/// Sends a text; in a transacted session it is kept, else handed out.
fn send(
    heap: Global,
    half: &mut SessionHalf,
    at: At,
    now: i64,
    time_to_live: i64,
) -> Result<Sent, Refusal> {
    let moment = Moment::new(now)?;
    let destination = destination(heap, at)?;
    half.send(work(heap, now % 2, time_to_live), destination, moment)
}

fn one(heap: Global, message: Message) -> Result<List<Message>, Refusal> {
    let mut messages = List::new(Vec::new(heap));
    match messages.push(message) {
        Ok(()) => Ok(messages),
        Err(_) => Err(Refusal::Memory),
    }
}

/// A text that is published at once.
fn publication(
    heap: Global,
    half: &mut SessionHalf,
    at: At,
    now: i64,
    time_to_live: i64,
) -> Result<Call, Refusal> {
    match send(heap, half, at, now, time_to_live) {
        Ok(Sent::Publish(message)) => Ok(Call::Publish(one(heap, message)?)),
        Ok(Sent::Kept(_)) => Err(Refusal::IllegalState),
        Err(refusal) => Err(refusal),
    }
}

/// A commit of a text to the topic and one to the queue.
fn commit(heap: Global, half: &mut SessionHalf, now: i64) -> Result<Call, Refusal> {
    let topic = send(heap, half, TOPIC, now, 0).is_ok();
    let queue = send(heap, half, QUEUE, now, 0).is_ok();
    if topic && queue {
        Ok(Call::Commit(List::new(half.take_commit())))
    } else {
        Err(Refusal::Memory)
    }
}

impl Worker {
    fn publish(&mut self, heap: Global, at: At, time_to_live: i64) -> Result<Step, Refusal> {
        let session = session_of((self.connection, 1))?;
        match publication(heap, &mut self.own, at, self.now, time_to_live) {
            Ok(call) => Ok(by(session, call)),
            Err(refusal) => Err(refusal),
        }
    }

    fn commit(&mut self, heap: Global) -> Result<Step, Refusal> {
        let session = session_of((self.connection, 2))?;
        match commit(heap, &mut self.kept, self.now) {
            Ok(call) => Ok(by(session, call)),
            Err(refusal) => Err(refusal),
        }
    }

    /// The step of a turn that does not receive for the thread's own subscription.
    fn step(&mut self, heap: Global, turn: Turn) -> Result<Step, Refusal> {
        let c = self.connection;
        let now = self.now;
        match turn {
            Turn::Publish => self.publish(heap, TOPIC, 0),
            Turn::Offer => self.publish(heap, QUEUE, LASTS),
            Turn::Receive => asked(heap, Op::ReceiveAt((c, 1), 1, now)),
            Turn::Draw => asked(heap, Op::ReceiveAt((c, 1), 2, now)),
            Turn::Borrow => asked(heap, Op::ReceiveAt((c, 2), 1, now)),
            Turn::Commit => self.commit(heap),
            Turn::Rollback => asked(heap, Op::Rollback((c, 2))),
            Turn::Share => asked(heap, Op::ReceiveAt((c, 3), 1, now)),
            Turn::Acknowledge => asked(heap, Op::Acknowledge((c, 3))),
            Turn::Recover => asked(heap, Op::Recover((c, 3))),
        }
    }

    /// Goes on to the next turn.
    fn advance(&mut self) -> Turn {
        self.made = self.made.saturating_add(1);
        self.now = self.now.saturating_add(1);
        self.seed = next_seed(self.seed);
        turn_of(self.seed)
    }

    fn refuse(&mut self, is_accepted: bool) {
        if !is_accepted {
            self.refused = self.refused.saturating_add(1);
        }
    }
}

/// Makes the step; whether it is accepted.
fn is_made<L: Ledger, R: Wait>(
    rt: &R,
    lock: &Lock<L>,
    pass: &mut Pass<L>,
    step: Result<Step, Refusal>,
) -> bool {
    match step {
        Ok(step) => lock.call(rt, pass, &step).is_ok(),
        Err(_) => false,
    }
}

/// Receives for the own subscription, so often at most.
fn is_received<L: Ledger, R: Wait>(
    rt: &R,
    lock: &Lock<L>,
    pass: &mut Pass<L>,
    connection: u32,
    now: i64,
    times: u64,
) -> bool {
    let (Ok(session), Ok(consumer), Ok(now)) = (
        session_of((connection, 1)),
        ConsumerId::new(1),
        Moment::new(now),
    ) else {
        return false;
    };
    lock.receive(rt, pass, &session, consumer, &Still { now }, times)
        .is_ok()
}

/// Opens the worker's connection with its sessions and consumers.
pub(crate) fn begin<L: Ledger, R: Wait>(
    rt: &R,
    heap: Global,
    lock: &Lock<L>,
    pass: &mut Pass<L>,
    worker: &mut Worker,
) {
    for op in opening(worker.connection) {
        let is_accepted = is_made(rt, lock, pass, asked(heap, op));
        worker.refuse(is_accepted);
    }
}

/// Makes one turn; one that receives for the own subscription may wait.
fn take_turn<L: Ledger, R: Wait>(
    rt: &R,
    heap: Global,
    lock: &Lock<L>,
    pass: &mut Pass<L>,
    worker: &mut Worker,
    others: &Others,
) {
    let turn = worker.advance();
    let is_accepted = if turn == Turn::Receive {
        let times = others.enter();
        let is_received = is_received(rt, lock, pass, worker.connection, worker.now, times);
        others.leave();
        is_received
    } else {
        let step = worker.step(heap, turn);
        is_made(rt, lock, pass, step)
    };
    worker.refuse(is_accepted);
}

/// Makes so many turns; in the middle of them it cuts the trace, where it is asked to.
pub(crate) fn take_turns<L: Ledger, R: Wait>(
    rt: &R,
    heap: Global,
    lock: &Lock<L>,
    pass: &mut Pass<L>,
    worker: &mut Worker,
    others: &Others,
    turns: u64,
    cuts: bool,
) {
    for turn in 0..turns {
        if cuts && turn == turns / 2 {
            worker.segment = lock.cut(rt).ok();
        }
        take_turn(rt, heap, lock, pass, worker, others);
    }
}
