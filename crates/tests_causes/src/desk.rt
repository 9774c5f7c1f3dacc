//! A client of a provider, who makes calls in few words.

use crate::meanwhile::{Meanwhile, listened};
use crate::op::{At, Kind, Op, Row, Told, done, told_by};
use crate::watch::Watch;
use jm_client::{Connection, Consumer, Delivery, Destination, Error, Provider, Session};
use jm_property::Property;
use std::alloc::Global;
use std::sync::Wait;

/// What a call is told; none where who should make it is not there.
type Reply = Option<Result<Told, Error>>;

/// What the client of a provider has, and the last refusal: a place is empty once what was there is closed.
#[derive(Drop)]
struct Desk<'p, R: Wait + Drop> {
    alloc: Global,
    watch: &'p Watch<R>,
    provider: &'p Provider<'p, Watch<R>>,
    connections: Vec<Option<Connection<'p, Watch<R>>>>,
    sessions: Vec<Option<Session<'p, Watch<R>>>>,
    consumers: Vec<Option<Consumer<'p, Watch<R>>>>,
    error: Option<Error>,
}

/// What is at that place, where it is not empty.
fn part<T>(parts: &mut Vec<Option<T>>, at: usize) -> Option<&mut T> {
    parts.get_mut(at)?.as_mut()
}

/// The same is dropped, which closes it.
fn let_go<T: Drop>(parts: &mut Vec<Option<T>>, at: usize) -> Reply {
    let _part = parts.get_mut(at)?.take()?;
    Some(Ok(Told::Done))
}

/// Puts what is made at the next place.
fn made<T: Drop>(parts: &mut Vec<Option<T>>, reply: Result<T, Error>) -> Result<Told, Error> {
    let part = reply?;
    parts.push(Some(part))?;
    Ok(Told::Done)
}

/// The destination that is meant.
fn destination<R: Wait + Drop>(
    session: &Session<'_, Watch<R>>,
    at: At,
) -> Result<Destination, Error> {
    match at {
        At::Topic(name) => session.create_topic(name),
        At::Queue(name) => session.create_queue(name),
    }
}

/// Sends a message with the boolean property `x`.
fn sent<R: Wait + Drop>(session: &mut Session<'_, Watch<R>>, at: At) -> Result<u64, Error> {
    let to = destination(session, at)?;
    let mut draft = session.create_message();
    draft.set_property("x", Property::Bool(true))?;
    session.send(&to, draft)
}

/// A consumer of that kind.
fn consumer<'p, R: Wait + Drop>(
    session: &Session<'p, Watch<R>>,
    kind: Kind,
    at: At,
) -> Result<Consumer<'p, Watch<R>>, Error> {
    let from = destination(session, at)?;
    match kind {
        Kind::Plain => session.create_consumer(&from, None, false),
        Kind::Selecting(selector) => session.create_consumer(&from, Some(selector), false),
        Kind::Durable(name) => session.create_durable_consumer(&from, name, None, false),
        Kind::Shared(name) => session.create_shared_consumer(&from, name, None),
        Kind::SharedDurable(name) => session.create_shared_durable_consumer(&from, name, None),
    }
}

/// What is told of a message that came, and that is read as an int, or written into, where the call asks for that.
fn used(op: Op, mut delivery: Delivery) -> Result<Told, Error> {
    match op {
        Op::Read(_) => {
            delivery.message.properties().get_int("x")?;
        }
        Op::Write(_) => delivery.message.set_text("a")?,
        _ => {}
    }
    Ok(Told::Done)
}

/// What is told of a receive.
fn received(op: Op, reply: Result<Option<Delivery>, Error>) -> Result<Told, Error> {
    match reply {
        Ok(Some(delivery)) => used(op, delivery),
        Ok(None) => Ok(Told::Nothing),
        Err(error) => Err(error),
    }
}

impl<'p, R: Wait + Drop> Desk<'p, R> {
    /// Whether the text of the last refusal is that.
    fn says(&self, text: &str) -> Reply {
        let error = self.error.as_ref()?;
        match format!(in self.alloc; "{error}") {
            Ok(written) if written.as_str() == text => Some(Ok(Told::Done)),
            _ => Some(Ok(Told::Nothing)),
        }
    }

    /// A call of a session.
    fn by_session(&mut self, at: usize, op: Op) -> Reply {
        let session = part(&mut self.sessions, at)?;
        match op {
            Op::Send(_, to) => Some(done(sent(session, to))),
            Op::Commit(_) => Some(done(session.commit())),
            Op::Rollback(_) => Some(done(session.rollback())),
            Op::Acknowledge(_) => Some(done(session.acknowledge())),
            Op::Recover(_) => Some(done(session.recover())),
            Op::Unsubscribe(_, name) => Some(done(session.unsubscribe(name))),
            Op::Consumer(_, kind, from) => {
                let reply = consumer(session, kind, from);
                Some(made(&mut self.consumers, reply))
            }
            _ => None,
        }
    }

    /// A call of a consumer.
    fn by_consumer(&mut self, at: usize, op: Op) -> Reply {
        let consumer = part(&mut self.consumers, at)?;
        match op {
            Op::Missed(_) => Some(done(consumer.missed())),
            _ => Some(received(op, consumer.receive_no_wait())),
        }
    }

    /// The session listens to the consumer.
    fn listen(&mut self, at: usize, to: usize, meanwhile: Meanwhile) -> Reply {
        let session = part(&mut self.sessions, at)?;
        let consumer = part(&mut self.consumers, to)?;
        match listened(session, consumer, meanwhile) {
            Ok(0) => Some(Ok(Told::Nothing)),
            Ok(_) => Some(Ok(Told::Done)),
            Err(error) => Some(Err(error)),
        }
    }

    fn reply(&mut self, op: Op) -> Reply {
        match op {
            Op::Connect(client) => {
                let reply = self.provider.create_connection(client);
                Some(made(&mut self.connections, reply))
            }
            Op::Start(at) => Some(done(part(&mut self.connections, at)?.start())),
            Op::Session(at, mode) => {
                let reply = part(&mut self.connections, at)?.create_session(mode);
                Some(made(&mut self.sessions, reply))
            }
            Op::Receive(at) | Op::Read(at) | Op::Write(at) | Op::Missed(at) => {
                self.by_consumer(at, op)
            }
            Op::Listen(at, to, meanwhile) => self.listen(at, to, meanwhile),
            Op::Consumer(at, _, _)
            | Op::Unsubscribe(at, _)
            | Op::Send(at, _)
            | Op::Commit(at)
            | Op::Rollback(at)
            | Op::Acknowledge(at)
            | Op::Recover(at) => self.by_session(at, op),
            Op::CloseConnection(at) => let_go(&mut self.connections, at),
            Op::CloseSession(at) => let_go(&mut self.sessions, at),
            Op::CloseConsumer(at) => let_go(&mut self.consumers, at),
            Op::Clock(now) => {
                self.watch.set(now);
                Some(Ok(Told::Done))
            }
            Op::Says(text) => self.says(text),
        }
    }

    /// Makes the call, and says what it is told.
    fn make(&mut self, op: Op) -> Told {
        match self.reply(op) {
            Some(Ok(told)) => told,
            Some(Err(error)) => {
                self.error = Some(error);
                told_by(&error)
            }
            None => Told::Absent,
        }
    }
}

/// Makes the calls in turn. How many rows are told what they should be, up to the first that is not.
fn right_rows<R: Wait + Drop>(desk: &mut Desk<'_, R>, rows: &[Row]) -> usize {
    let mut right: usize = 0;
    for (op, told) in rows {
        if desk.make(*op) != *told {
            return right;
        }
        right = right.saturating_add(1);
    }
    right
}

/// The same of a client of that provider, who has nothing yet.
fn right_over<R: Wait + Drop>(
    alloc: Global,
    watch: &Watch<R>,
    provider: &Provider<'_, Watch<R>>,
    rows: &[Row],
) -> usize {
    let mut desk = Desk {
        alloc,
        watch,
        provider,
        connections: Vec::new(alloc),
        sessions: Vec::new(alloc),
        consumers: Vec::new(alloc),
        error: None,
    };
    right_rows(&mut desk, rows)
}

/// The same over a new provider in memory.
pub(crate) fn right_in_memory<R: Wait + Drop>(rt: R, alloc: Global, rows: &[Row]) -> usize {
    let watch = Watch::new(rt);
    let provider = Provider::in_memory(&watch, alloc);
    right_over(alloc, &watch, &provider, rows)
}
