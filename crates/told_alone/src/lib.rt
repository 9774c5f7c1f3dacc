//! Whether a consumer was told, by its session's pass, what its subscription answers alone.
#![tactic(auto)]

use jm_base::Refusal;
use jm_broker::{Pass, PassEntry, Trace};
use jm_core::{Call, Core, Reply, Request, Step, Who, copy_reply};
use jm_dest::{ConsumerId, Key, SessionId};
use jm_machine::{Entry, same_reply};
use jm_model::{expand, lone_replies};
use std::alloc::{AllocError, Global};
use std::sync::ledger::Ledger;
use tests_calls::session;

/// A consumer of a session that has a subscription of its own.
#[derive(Clone, Copy)]
pub struct Receiver {
    session: SessionId,
    consumer: ConsumerId,
}

/// Consumer 1 of session 1 of that connection. `OutOfRange` where the number is 0.
pub fn receiver_of(connection: u32) -> Result<Receiver, Refusal> {
    Ok(Receiver {
        session: session(connection)?,
        consumer: ConsumerId::new(1)?,
    })
}

/// The number of the consumer that the request makes, or for which it receives.
fn consumer_in(request: &Request) -> Option<ConsumerId> {
    match request {
        Request::CreateConsumer { consumer, .. } => Some(*consumer),
        Request::Receive { consumer, .. } => Some(*consumer),
        _ => None,
    }
}

fn is_by(step: &Step, receiver: Receiver) -> bool {
    match (&step.who, &step.call) {
        (Who::Session(session), Call::Ask(request)) => {
            *session == receiver.session && consumer_in(request) == Some(receiver.consumer)
        }
        _ => false,
    }
}

fn is_between(entry: &PassEntry, first: u64, end: u64) -> bool {
    first <= entry.position && entry.position < end
}

fn add_told(
    told: &mut Vec<Reply>,
    entries: &[PassEntry],
    receiver: Receiver,
    first: u64,
    end: u64,
) -> Result<(), AllocError> {
    for entry in entries {
        if is_between(entry, first, end) && is_by(&entry.event.step, receiver) {
            told.push(copy_reply(&entry.event.reply)?)?;
        }
    }
    Ok(())
}

/// What the receiver was told when it was made and when it received, at positions from the first up to the end, by its
/// session's pass. `AllocError` where a request for memory was refused.
pub fn told<L: Ledger>(
    heap: Global,
    pass: &Pass<L>,
    receiver: Receiver,
    first: u64,
    end: u64,
) -> Result<Vec<Reply>, AllocError> {
    let mut told = Vec::new(heap);
    match add_told(&mut told, pass.entries(), receiver, first, end) {
        Ok(()) => Ok(told),
        Err(error) => Err(error),
    }
}

fn are_same(alone: &[(usize, Reply)], told: &[Reply]) -> bool {
    if alone.len() != told.len() {
        return false;
    }
    for ((_, reply), wanted) in alone.iter().zip(told) {
        if !same_reply(reply, wanted) {
            return false;
        }
    }
    true
}

fn is_answered(
    heap: Global,
    opening: &Core,
    entries: &[Entry],
    receiver: Receiver,
    told: &[Reply],
) -> bool {
    let key = Key::Own(receiver.session, receiver.consumer);
    match lone_replies(heap, opening, entries, &key) {
        Ok(alone) => are_same(alone.as_slice(), told),
        Err(_) => false,
    }
}

/// Whether the receiver's subscription alone answers just so to the events of the trace.
pub fn is_alone(heap: Global, trace: &Trace<Core>, receiver: Receiver, told: &[Reply]) -> bool {
    match expand(heap, trace.events()) {
        Ok(entries) => is_answered(heap, trace.opening(), entries.as_slice(), receiver, told),
        Err(_) => false,
    }
}
