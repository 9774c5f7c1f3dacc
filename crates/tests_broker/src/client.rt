//! Calls of clients, made through the lock.

use crate::steps::Lock;
use jm_base::{List, Mode, Refusal};
use jm_broker::Pass;
use jm_core::{Answer, Call, ClientCall, Core, Reply, Request, Step, Who};
use jm_dest::{Destination, Moment, Number, SessionId};
use jm_header::{Draft, Message, Sender};
use jm_tx::{Sent, SessionHalf};
use std::alloc::Global;
use std::sync::Wait;
use std::sync::ledger::Ledger;
use tests_calls::{Op, call};

/// A session that sent, with its half of its transaction.
#[derive(Drop)]
struct Half {
    session: SessionId,
    half: SessionHalf,
}

/// A lock and its only pass; a core beside it, which knows the modes of sessions, since each step is made there too; and the
/// halves of the sessions that sent.
#[derive(Drop)]
pub(crate) struct Client<L: Ledger> {
    pub(crate) lock: Lock<L>,
    pub(crate) pass: Pass<L>,
    core: Core,
    halves: Vec<Half>,
}

/// The client of a lock round a new core that has that limit.
pub(crate) fn new_client<L: Ledger>(
    heap: Global,
    lock: Lock<L>,
    pass: Pass<L>,
    limit: u32,
) -> Result<Client<L>, Refusal> {
    match Core::new(heap, 1, limit) {
        Ok(core) => Ok(Client {
            lock,
            pass,
            core,
            halves: Vec::new(heap),
        }),
        Err(refusal) => Err(refusal),
    }
}

fn make<L: Ledger, R: Wait>(rt: &R, client: &mut Client<L>, step: &Step) -> Reply {
    let reply = client.lock.call(rt, &mut client.pass, step);
    let _ = client.core.step(step);
    reply
}

/// The place of the session's half.
fn place_of(halves: &[Half], session: &SessionId) -> Option<usize> {
    for (place, half) in halves.iter().enumerate() {
        if half.session == *session {
            return Some(place);
        }
    }
    None
}

/// Takes the session's half out of the list, where there is one.
fn take_half(halves: &mut Vec<Half>, session: &SessionId) -> Option<SessionHalf> {
    match place_of(halves.as_slice(), session) {
        Some(place) if place < halves.len() => Some(halves.swap_remove(place).half),
        _ => None,
    }
}

/// The same; a new one where there is none.
fn half_of(heap: Global, halves: &mut Vec<Half>, sender: Sender, mode: Mode) -> SessionHalf {
    match take_half(halves, &sender.session) {
        Some(half) => half,
        None => SessionHalf::new(heap, sender, mode, 0),
    }
}

/// Puts it back.
fn keep_half(halves: &mut Vec<Half>, session: SessionId, half: SessionHalf) {
    let _ = halves.push(Half { session, half });
}

fn drop_all(half: &mut Half) {
    half.half.drop_all();
}

/// Drops what was sent in the transactions that the request ended.
fn drop_ended(halves: &mut Vec<Half>, who: &Who, request: &Request) {
    for half in halves.iter_mut() {
        let is_ended = match (who, request) {
            (Who::Session(session), Request::CloseSession | Request::Rollback) => {
                half.session == *session
            }
            (Who::Connection(connection), Request::CloseConnection) => {
                half.session.connection == *connection
            }
            _ => false,
        };
        if is_ended {
            drop_all(half);
        }
    }
}

fn ask<L: Ledger, R: Wait>(rt: &R, client: &mut Client<L>, who: Who, request: Request) -> Reply {
    let step = Step {
        who,
        call: Call::Ask(request),
    };
    let reply = make(rt, client, &step);
    if let (Ok(_), Call::Ask(request)) = (&reply, &step.call) {
        drop_ended(&mut client.halves, &step.who, request);
    }
    reply
}

/// Publishes the message, and tells its number where that is accepted.
fn publish<L: Ledger, R: Wait>(
    rt: &R,
    heap: Global,
    client: &mut Client<L>,
    session: SessionId,
    message: Message,
) -> Reply {
    let number = message.number();
    let mut messages = List::new(Vec::new(heap));
    if messages.push(message).is_err() {
        return Err(Refusal::Memory);
    }
    let step = Step {
        who: Who::Session(session),
        call: Call::Publish(messages),
    };
    match make(rt, client, &step) {
        Ok(_) => Ok(Answer::Sent(number)),
        Err(refusal) => Err(refusal),
    }
}

/// Who sends for the session.
fn sender_of(session: SessionId) -> Result<Sender, Refusal> {
    let opening = Number::new(1)?;
    Ok(Sender { opening, session })
}

fn send_half<L: Ledger>(
    heap: Global,
    client: &mut Client<L>,
    sender: Sender,
    mode: Mode,
    draft: Draft,
    destination: Destination,
    now: Moment,
) -> Result<Sent, Refusal> {
    let session = sender.session;
    let mut half = half_of(heap, &mut client.halves, sender, mode);
    let sent = half.send(draft, destination, now);
    keep_half(&mut client.halves, session, half);
    sent
}

fn send<L: Ledger, R: Wait>(
    rt: &R,
    heap: Global,
    client: &mut Client<L>,
    session: SessionId,
    draft: Draft,
    destination: Destination,
    now: Moment,
) -> Reply {
    let (Some(mode), Ok(sender)) = (client.core.mode_of(&session), sender_of(session)) else {
        return Err(Refusal::IllegalState);
    };
    match send_half(heap, client, sender, mode, draft, destination, now) {
        Err(refusal) => Err(refusal),
        Ok(Sent::Kept(number)) => Ok(Answer::Sent(number)),
        Ok(Sent::Publish(message)) => publish(rt, heap, client, session, message),
    }
}

/// Commits those messages, which come back where that is refused.
fn commit_all<L: Ledger, R: Wait>(
    rt: &R,
    client: &mut Client<L>,
    session: SessionId,
    messages: Vec<Message>,
) -> (Reply, Option<Vec<Message>>) {
    let step = Step {
        who: Who::Session(session),
        call: Call::Commit(List::new(messages)),
    };
    let reply = make(rt, client, &step);
    match (reply.is_err(), step.call) {
        (true, Call::Commit(messages)) => (reply, Some(messages.into_inner())),
        _ => (reply, None),
    }
}

/// Commits what the half kept, which stays there where that is refused.
fn commit_half<L: Ledger, R: Wait>(
    rt: &R,
    client: &mut Client<L>,
    session: SessionId,
    half: &mut SessionHalf,
) -> Reply {
    let (reply, back) = commit_all(rt, client, session, half.take_commit());
    if let Some(messages) = back {
        half.put_back(messages);
    }
    reply
}

fn commit<L: Ledger, R: Wait>(
    rt: &R,
    heap: Global,
    client: &mut Client<L>,
    session: SessionId,
) -> Reply {
    match take_half(&mut client.halves, &session) {
        Some(mut half) => {
            let reply = commit_half(rt, client, session, &mut half);
            keep_half(&mut client.halves, session, half);
            reply
        }
        None => commit_all(rt, client, session, Vec::new(heap)).0,
    }
}

/// Makes a client's call through the lock: a send is stamped in its session's half, and in a transaction kept there; a commit
/// carries what was kept.
fn answer<L: Ledger, R: Wait>(
    rt: &R,
    heap: Global,
    client: &mut Client<L>,
    call: ClientCall,
) -> Reply {
    match call {
        ClientCall::Ask { who, request } => ask(rt, client, who, request),
        ClientCall::Send {
            session,
            draft,
            destination,
            now,
        } => send(rt, heap, client, session, draft, destination, now),
        ClientCall::CommitSession(session) => commit(rt, heap, client, session),
    }
}

fn answer_op<L: Ledger, R: Wait>(rt: &R, heap: Global, client: &mut Client<L>, op: Op) -> Reply {
    match call(heap, op) {
        Ok(call) => answer(rt, heap, client, call),
        Err(refusal) => Err(refusal),
    }
}

/// The replies to the calls, made in turn through the lock.
pub(crate) fn answer_all<L: Ledger, R: Wait>(
    rt: &R,
    heap: Global,
    client: &mut Client<L>,
    ops: &[Op],
) -> Result<Vec<Reply>, Refusal> {
    let mut replies = Vec::new(heap);
    for op in ops {
        let reply = answer_op(rt, heap, client, *op);
        if replies.push(reply).is_err() {
            return Err(Refusal::Memory);
        }
    }
    Ok(replies)
}
