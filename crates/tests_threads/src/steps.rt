//! Steps in few words, made through the lock.

ghost use Rattle.std.specs.Prelude.{◌≡◌, ◌≤◌};

use jm_base::{List, Mode, Refusal};
use jm_broker::{Broker, Clock, Pass};
use jm_core::{Call, ClientCall, Core, Reply, Step, Who};
use jm_dest::{ConsumerId, Moment, Number};
use jm_header::{Message, Sender};
use jm_keep::NoKeep;
use jm_tx::{Sent, SessionHalf};
use std::alloc::Global;
use std::process::Abort;
use std::sync::Wait;
use std::sync::ledger::{Blank, Ledger};
use tests_calls::{At, Numbers, Op, call, destination, draft, session_of, shown};

pub(crate) type Lock<L> = Broker<Core, NoKeep, L>;

/// A call that carries no messages, and what is told.
pub(crate) type Row = (Op, &'static str);

/// A text that a session of that mode sends, with that property x or with none, after so many others.
#[derive(Clone, Copy)]
pub(crate) struct Parcel {
    pub by: Numbers,
    pub mode: Mode,
    pub at: At,
    pub text: &'static str,
    pub x: Option<i64>,
    pub before: u64,
}

/// A clock that stands still.
#[derive(Clone, Copy)]
pub(crate) struct Standing {
    now: Moment,
}

impl Clock for Standing {
    fn now(&self) -> Moment {
        self.now
    }
}

/// A clock that stands at 1000.
pub(crate) fn still_clock() -> Result<Standing, Refusal> {
    Ok(Standing {
        now: Moment::new(1000)?,
    })
}

/// Asserts that this holds.
pub(crate) fn holds(rt: &impl Abort, what: &str, holds: bool) {
    assert!(rt; holds, "{what}");
}

/// The step of a call that carries no messages.
fn asked(heap: Global, op: Op) -> Result<Step, Refusal> {
    match call(heap, op) {
        Ok(ClientCall::Ask { who, request }) => Ok(Step {
            who,
            call: Call::Ask(request),
        }),
        Ok(_) => Err(Refusal::Store),
        Err(refusal) => Err(refusal),
    }
}

/// Whether the reply shows that text.
fn is_told(heap: Global, reply: &Reply, wanted: &str) -> bool {
    match shown(heap, reply) {
        Ok(text) => text.as_str() == wanted,
        Err(_) => false,
    }
}

/// Makes the step; whether it is told so.
fn is_made<L: Ledger, R: Wait>(
    rt: &R,
    heap: Global,
    lock: &Lock<L>,
    pass: &mut Pass<L>,
    row: Row,
) -> bool {
    match asked(heap, row.0) {
        Ok(step) => is_told(heap, &lock.call(rt, pass, &step), row.1),
        Err(_) => false,
    }
}

/// Makes the steps; whether all are told so.
pub(crate) fn are_made<L: Ledger, R: Wait>(
    rt: &R,
    heap: Global,
    lock: &Lock<L>,
    pass: &mut Pass<L>,
    rows: &[Row],
) -> bool {
    for row in rows {
        if !is_made(rt, heap, lock, pass, *row) {
            return false;
        }
    }
    true
}

/// Receives for consumer 1 of the session, up to 1,000 times; whether that is told so.
pub(crate) fn is_received<L: Ledger, R: Wait>(
    rt: &R,
    heap: Global,
    lock: &Lock<L>,
    pass: &mut Pass<L>,
    numbers: Numbers,
    wanted: &str,
) -> bool {
    let (Ok(session), Ok(consumer), Ok(clock)) = (
        session_of(numbers),
        ConsumerId::new(1),
        still_clock(),
    ) else {
        return false;
    };
    let reply = lock.receive(rt, pass, &session, consumer, &clock, 1000);
    is_told(heap, &reply, wanted)
}

fn sender_of(numbers: Numbers) -> Result<Sender, Refusal> {
    Ok(Sender {
        opening: Number::new(1)?,
        session: session_of(numbers)?,
    })
}

fn publish(heap: Global, message: Message) -> Result<Call, Refusal> {
    let mut messages = List::new(Vec::new(heap));
    if messages.push(message).is_err() {
        return Err(Refusal::Memory);
    }
    Ok(Call::Publish(messages))
}

/// Sends the parcel: a transacted session keeps it, and commits it at once; any other publishes it.
fn sending(
    heap: Global,
    half: &mut SessionHalf,
    parcel: Parcel,
    now: Moment,
) -> Result<Call, Refusal> {
    let destination = destination(heap, parcel.at)?;
    match half.send(draft(heap, parcel.text, parcel.x), destination, now) {
        Ok(Sent::Publish(message)) => publish(heap, message),
        Ok(Sent::Kept(_)) => Ok(Call::Commit(List::new(half.take_commit()))),
        Err(refusal) => Err(refusal),
    }
}

/// The half of the session that sends the parcel.
fn half_of(heap: Global, parcel: Parcel) -> Result<SessionHalf, Refusal> {
    let sender = sender_of(parcel.by)?;
    Ok(SessionHalf::new(heap, sender, parcel.mode, parcel.before))
}

/// The step with which the parcel comes to its destination.
fn sent(heap: Global, parcel: Parcel) -> Result<Step, Refusal> {
    let session = session_of(parcel.by)?;
    let now = Moment::new(1000)?;
    let mut half = half_of(heap, parcel)?;
    match sending(heap, &mut half, parcel, now) {
        Ok(call) => Ok(Step {
            who: Who::Session(session),
            call,
        }),
        Err(refusal) => Err(refusal),
    }
}

/// Sends the parcel; whether that is accepted.
pub(crate) fn is_sent<L: Ledger, R: Wait>(
    rt: &R,
    heap: Global,
    lock: &Lock<L>,
    pass: &mut Pass<L>,
    parcel: Parcel,
) -> bool {
    match sent(heap, parcel) {
        Ok(step) => lock.call(rt, pass, &step).is_ok(),
        Err(_) => false,
    }
}

fn is_stepped(heap: Global, core: &mut Core, op: Op) -> bool {
    match asked(heap, op) {
        Ok(step) => core.step(&step).is_ok(),
        Err(_) => false,
    }
}

/// Opens the connections of the numbers from 1 to 4.
fn are_opened(heap: Global, core: &mut Core) -> bool {
    for number in 1..5 {
        if !is_stepped(heap, core, Op::Open(number)) {
            return false;
        }
    }
    true
}

/// A lock round a core in which connections 1 to 4 are open, and whose ledger has so many parts. None where a request for
/// memory was refused.
pub(crate) fn new_lock<L: Ledger>(heap: Global, blank: Blank, parts: u64) -> Option<Lock<L>>
    requires name { blank.name ≡ L.name }
    requires parts { (blank.parts ≡ L.parts) × (blank.parts ≡ parts) }
    requires some { 2 ≤ parts }
{
    let Ok(mut core) = Core::new(heap, 1, 100_000) else {
        return None;
    };
    if !are_opened(heap, &mut core) {
        return None;
    }
    Broker::new(heap, blank, parts, core, NoKeep).ok()
}
