//! Calls as a client makes them.

use crate::op::{At, Kind, Op, session, session_of, who};
use crate::sends::{delayed, destination, draft, expiring, selector};
use jm_base::{Refusal, Str};
use jm_dest::{ClientId, ConsumerId, Destination, Moment, SubscriptionName};
use jm_header::Draft;
use jm_machine::{ClientCall, Request};
use std::alloc::Global;

fn open_for(alloc: Global, client: &str) -> Result<Request, Refusal> {
    let client = Some(ClientId::new(alloc, client)?);
    Ok(Request::Open { client })
}

fn create_consumer(
    alloc: Global,
    number: u32,
    at: At,
    text: Option<&str>,
    no_local: bool,
) -> Result<Request, Refusal> {
    let consumer = ConsumerId::new(number)?;
    let selector = selector(alloc, text)?;
    let destination = destination(alloc, at)?;
    Ok(Request::CreateConsumer {
        consumer,
        destination,
        selector,
        no_local,
    })
}

fn create_durable(
    consumer: ConsumerId,
    destination: Destination,
    name: SubscriptionName,
    selector: Option<Str>,
    no_local: bool,
) -> Request {
    Request::CreateDurable {
        consumer,
        destination,
        name,
        selector,
        no_local,
    }
}

/// What asks for a subscription of that kind.
fn of_kind(
    kind: Kind,
    consumer: ConsumerId,
    destination: Destination,
    name: SubscriptionName,
    selector: Option<Str>,
) -> Request {
    match kind {
        Kind::Durable => create_durable(consumer, destination, name, selector, false),
        Kind::Others => create_durable(consumer, destination, name, selector, true),
        Kind::Shared => Request::CreateShared {
            consumer,
            destination,
            name,
            selector,
        },
        Kind::SharedDurable => Request::CreateSharedDurable {
            consumer,
            destination,
            name,
            selector,
        },
    }
}

fn create_named(
    alloc: Global,
    number: u32,
    kind: Kind,
    at: At,
    name: &str,
    text: Option<&str>,
) -> Result<Request, Refusal> {
    let consumer = ConsumerId::new(number)?;
    let selector = selector(alloc, text)?;
    let destination = destination(alloc, at)?;
    let name = SubscriptionName::new(alloc, name)?;
    Ok(of_kind(kind, consumer, destination, name, selector))
}

fn unsubscribe(alloc: Global, name: &str) -> Result<Request, Refusal> {
    let name = SubscriptionName::new(alloc, name)?;
    Ok(Request::Unsubscribe { name })
}

fn receive(number: u32, now: i64) -> Result<Request, Refusal> {
    let consumer = ConsumerId::new(number)?;
    let now = Moment::new(now)?;
    Ok(Request::Receive { consumer, now })
}

fn set_listener(number: u32, on: bool) -> Result<Request, Refusal> {
    let consumer = ConsumerId::new(number)?;
    Ok(Request::SetListener { consumer, on })
}

fn take(number: u32, now: i64) -> Result<Request, Refusal> {
    let consumer = ConsumerId::new(number)?;
    let now = Moment::new(now)?;
    Ok(Request::Take { consumer, now })
}

fn done(number: u32, ok: bool) -> Result<Request, Refusal> {
    let consumer = ConsumerId::new(number)?;
    Ok(Request::Done { consumer, ok })
}

fn close_consumer(number: u32) -> Result<Request, Refusal> {
    let consumer = ConsumerId::new(number)?;
    Ok(Request::CloseConsumer { consumer })
}

fn missed(number: u32) -> Result<Request, Refusal> {
    let consumer = ConsumerId::new(number)?;
    Ok(Request::Missed { consumer })
}

/// The request of a call that is no send and no commit.
fn request(alloc: Global, op: Op) -> Result<Request, Refusal> {
    match op {
        Op::Open(_) => Ok(Request::Open { client: None }),
        Op::OpenFor(_, client) => open_for(alloc, client),
        Op::Start(_) => Ok(Request::Start),
        Op::Stop(_) => Ok(Request::Stop),
        Op::CloseConnection(_) => Ok(Request::CloseConnection),
        Op::Session(_, mode) => Ok(Request::CreateSession { mode }),
        Op::CloseSession(_) => Ok(Request::CloseSession),
        Op::Consumer(_, k, text) => create_consumer(alloc, k, At::Topic("t"), text, false),
        Op::ConsumerAt(_, k, at, text, no_local) => create_consumer(alloc, k, at, text, no_local),
        Op::Named(_, k, kind, name, text) => {
            create_named(alloc, k, kind, At::Topic("t"), name, text)
        }
        Op::NamedAt(_, k, kind, at, name, text) => create_named(alloc, k, kind, at, name, text),
        Op::CloseConsumer(_, k) => close_consumer(k),
        Op::Unsubscribe(_, name) => unsubscribe(alloc, name),
        Op::Receive(_, k) => receive(k, 1000),
        Op::ReceiveAt(_, k, now) => receive(k, now),
        Op::Listener(_, k, on) => set_listener(k, on),
        Op::Take(_, k) => take(k, 1000),
        Op::TakeAt(_, k, now) => take(k, now),
        Op::Done(_, k, ok) => done(k, ok),
        Op::Acknowledge(_) => Ok(Request::Acknowledge),
        Op::Recover(_) => Ok(Request::Recover),
        Op::Rollback(_) => Ok(Request::Rollback),
        Op::Missed(_, k) => missed(k),
        Op::Send(..) | Op::SendTo(..) | Op::SendAt(..) | Op::SendDelayed(..) | Op::Commit(..) =>
            Err(Refusal::Store),
    }
}

fn ask(alloc: Global, op: Op) -> Result<ClientCall, Refusal> {
    let who = who(op)?;
    match request(alloc, op) {
        Ok(request) => Ok(ClientCall::Ask { who, request }),
        Err(refusal) => Err(refusal),
    }
}

/// A send of session 1 of that connection, at that moment.
fn send(alloc: Global, c: u32, at: At, draft: Draft, now: i64) -> Result<ClientCall, Refusal> {
    match (session(c), Moment::new(now), destination(alloc, at)) {
        (Ok(session), Ok(now), Ok(destination)) => Ok(ClientCall::Send {
            session,
            draft,
            destination,
            now,
        }),
        _ => Err(Refusal::Memory),
    }
}

/// The call. `OutOfRange` where a number is out of range; `BadName` where a name is none; `Memory` where a request for memory
/// was refused, or a send is out of range or its destination's name none.
pub fn call(alloc: Global, op: Op) -> Result<ClientCall, Refusal> {
    match op {
        Op::Send(c, text, x) => send(alloc, c, At::Topic("t"), draft(alloc, text, x), 1000),
        Op::SendTo(c, at, text, x) => send(alloc, c, at, draft(alloc, text, x), 1000),
        Op::SendAt(c, text, now, ttl) => {
            send(alloc, c, At::Topic("t"), expiring(alloc, text, ttl), now)
        }
        Op::SendDelayed(c, at, text, delay, x) => {
            send(alloc, c, at, delayed(alloc, text, delay, x), 1000)
        }
        Op::Commit(numbers) => Ok(ClientCall::CommitSession(session_of(numbers)?)),
        _ => ask(alloc, op),
    }
}

/// The calls, in order, refused as the first that is refused.
pub fn calls(alloc: Global, ops: &[Op]) -> Result<Vec<ClientCall>, Refusal> {
    let mut calls = Vec::new(alloc);
    for op in ops {
        let call = call(alloc, *op)?;
        if calls.push(call).is_err() {
            return Err(Refusal::Memory);
        }
    }
    Ok(calls)
}
