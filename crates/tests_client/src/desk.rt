//! A client of a provider, who makes calls in few words.

use crate::op::{At, Kind, Op, Part, What};
use crate::told::{Told, delivered, done, number};
use crate::watch::Watch;
use jm_client::{
    Backend, Connection, Consumer, Destination, Draft, Error, Mode, Provider, Refusal, Session,
};
use std::alloc::Global;
use std::sync::Wait;
use std::time::Duration;

/// How many milliseconds a wait lasts.
const WAIT: u64 = 50;

/// What the client of a provider has: a place is empty once what was there is closed or dropped.
pub(crate) struct Desk<'p, R: Wait + Drop, B: Backend> {
    watch: &'p Watch<R>,
    provider: &'p Provider<'p, Watch<R>, B>,
    connections: Vec<Option<Connection<'p, Watch<R>, B>>>,
    sessions: Vec<Option<Session<'p, Watch<R>, B>>>,
    consumers: Vec<Option<Consumer<'p, Watch<R>, B>>>,
}

impl<'p, R: Wait + Drop, B: Backend> Drop for Desk<'p, R, B> {
    fn drop(self) {
        let Desk {
            watch: _,
            provider: _,
            connections: _connections,
            sessions: _sessions,
            consumers: _consumers,
        } = self;
    }
}

/// What is at that place, where it is not empty.
fn part_at<T>(parts: &[Option<T>], at: usize) -> Option<&T> {
    parts.get(at)?.as_ref()
}

/// The same, to be changed.
fn part_at_mut<T>(parts: &mut [Option<T>], at: usize) -> Option<&mut T> {
    parts.get_mut(at)?.as_mut()
}

/// The same, taken away.
fn part_from<T>(parts: &mut [Option<T>], at: usize) -> Option<T> {
    parts.get_mut(at)?.take()
}

/// What is told of a call that makes something, which is put at the next place.
fn made<T: Drop>(parts: &mut Vec<Option<T>>, reply: Result<T, Error>) -> Told {
    match reply {
        Ok(part) => match parts.push(Some(part)) {
            Ok(()) => Told::Done,
            Err(_) => Told::Refused(Refusal::Memory),
        },
        Err(error) => Told::Refused(error.refusal()),
    }
}

/// What is told of a drop.
fn dropped<T: Drop>(part: Option<T>) -> Told {
    match part {
        Some(_part) => Told::Done,
        None => Told::Absent,
    }
}

/// The destination that is meant.
fn destination<R: Wait + Drop, B: Backend>(
    session: &Session<'_, Watch<R>, B>,
    at: At,
) -> Result<Destination, Error> {
    match at {
        At::Topic(name) => session.create_topic(name),
        At::Queue(name) => session.create_queue(name),
    }
}

/// A text that lives so many milliseconds.
fn living<R: Wait + Drop, B: Backend>(
    session: &Session<'_, Watch<R>, B>,
    text: &str,
    milliseconds: i64,
) -> Result<Draft, Error> {
    let mut draft = session.create_text_message(text)?;
    draft.set_time_to_live(milliseconds)?;
    Ok(draft)
}

/// A text that is held back for so many milliseconds.
fn delayed<R: Wait + Drop, B: Backend>(
    session: &Session<'_, Watch<R>, B>,
    text: &str,
    milliseconds: i64,
) -> Result<Draft, Error> {
    let mut draft = session.create_text_message(text)?;
    draft.set_delivery_delay(milliseconds)?;
    Ok(draft)
}

/// What is to be sent.
fn draft<R: Wait + Drop, B: Backend>(
    session: &Session<'_, Watch<R>, B>,
    what: What,
) -> Result<Draft, Error> {
    match what {
        What::NoBody => Ok(session.create_message()),
        What::Text(text) => session.create_text_message(text),
        What::Bytes(bytes) => session.create_bytes_message(bytes),
        What::Living(text, milliseconds) => living(session, text, milliseconds),
        What::Delayed(text, milliseconds) => delayed(session, text, milliseconds),
    }
}

/// Sends it.
fn sent<R: Wait + Drop, B: Backend>(
    session: &mut Session<'_, Watch<R>, B>,
    at: At,
    what: What,
) -> Result<u64, Error> {
    let to = destination(session, at)?;
    let draft = draft(session, what)?;
    session.send(&to, draft)
}

/// A consumer of that kind.
fn consumer<'p, R: Wait + Drop, B: Backend>(
    session: &Session<'p, Watch<R>, B>,
    kind: Kind,
    at: At,
    selector: Option<&str>,
) -> Result<Consumer<'p, Watch<R>, B>, Error> {
    let from = destination(session, at)?;
    match kind {
        Kind::Plain => session.create_consumer(&from, selector, false),
        Kind::Others => session.create_consumer(&from, selector, true),
        Kind::Durable(name) => session.create_durable_consumer(&from, name, selector, false),
        Kind::DurableOthers(name) => session.create_durable_consumer(&from, name, selector, true),
        Kind::Shared(name) => session.create_shared_consumer(&from, name, selector),
        Kind::SharedDurable(name) => session.create_shared_durable_consumer(&from, name, selector),
    }
}

impl<'p, R: Wait + Drop, B: Backend> Desk<'p, R, B> {
    /// A client who has nothing yet.
    pub(crate) fn new(
        alloc: Global,
        watch: &'p Watch<R>,
        provider: &'p Provider<'p, Watch<R>, B>,
    ) -> Desk<'p, R, B> {
        Desk {
            watch,
            provider,
            connections: Vec::new(alloc),
            sessions: Vec::new(alloc),
            consumers: Vec::new(alloc),
        }
    }

    fn connect(&mut self, client: Option<&str>) -> Told {
        let reply = self.provider.create_connection(client);
        made(&mut self.connections, reply)
    }

    fn session(&mut self, at: usize, mode: Mode) -> Told {
        let Some(connection) = part_at(self.connections.as_slice(), at) else {
            return Told::Absent;
        };
        let reply = connection.create_session(mode);
        made(&mut self.sessions, reply)
    }

    fn consumer(&mut self, at: usize, kind: Kind, from: At, selector: Option<&str>) -> Told {
        let Some(session) = part_at(self.sessions.as_slice(), at) else {
            return Told::Absent;
        };
        let reply = consumer(session, kind, from, selector);
        made(&mut self.consumers, reply)
    }

    /// A call of a connection that hands out nothing.
    fn by_connection(&self, at: usize, op: Op) -> Told {
        let Some(connection) = part_at(self.connections.as_slice(), at) else {
            return Told::Absent;
        };
        match op {
            Op::Start(_) => done(connection.start()),
            Op::Stop(_) => done(connection.stop()),
            _ => Told::Absent,
        }
    }

    fn name(&self, at: usize, of: At) -> Told {
        let Some(session) = part_at(self.sessions.as_slice(), at) else {
            return Told::Absent;
        };
        match destination(session, of) {
            Ok(_) => Told::Done,
            Err(error) => Told::Refused(error.refusal()),
        }
    }

    fn send(&mut self, at: usize, to: At, what: What) -> Told {
        match part_at_mut(self.sessions.as_mut_slice(), at) {
            Some(session) => number(sent(session, to, what)),
            None => Told::Absent,
        }
    }

    /// A call of a session that hands out nothing.
    fn by_session(&mut self, at: usize, op: Op) -> Told {
        let Some(session) = part_at_mut(self.sessions.as_mut_slice(), at) else {
            return Told::Absent;
        };
        match op {
            Op::Commit(_) => done(session.commit()),
            Op::Rollback(_) => done(session.rollback()),
            Op::Acknowledge(_) => done(session.acknowledge()),
            Op::Recover(_) => done(session.recover()),
            Op::Unsubscribe(_, name) => done(session.unsubscribe(name)),
            _ => Told::Absent,
        }
    }

    /// A call of a consumer.
    fn by_consumer(&self, at: usize, op: Op) -> Told {
        let Some(consumer) = part_at(self.consumers.as_slice(), at) else {
            return Told::Absent;
        };
        match op {
            Op::Receive(_) => delivered(consumer.receive_no_wait()),
            Op::Wait(_) => delivered(consumer.receive(Duration::from_millis(WAIT))),
            Op::Missed(_) => number(consumer.missed()),
            _ => Told::Absent,
        }
    }

    fn close_connection(&mut self, at: usize) -> Told {
        match part_from(self.connections.as_mut_slice(), at) {
            Some(connection) => done(connection.close()),
            None => Told::Absent,
        }
    }

    fn close_session(&mut self, at: usize) -> Told {
        match part_from(self.sessions.as_mut_slice(), at) {
            Some(session) => done(session.close()),
            None => Told::Absent,
        }
    }

    fn close_consumer(&mut self, at: usize) -> Told {
        match part_from(self.consumers.as_mut_slice(), at) {
            Some(consumer) => done(consumer.close()),
            None => Told::Absent,
        }
    }

    fn close(&mut self, part: Part) -> Told {
        match part {
            Part::Connection(at) => self.close_connection(at),
            Part::Session(at) => self.close_session(at),
            Part::Consumer(at) => self.close_consumer(at),
        }
    }

    fn let_go(&mut self, part: Part) -> Told {
        match part {
            Part::Connection(at) => dropped(part_from(self.connections.as_mut_slice(), at)),
            Part::Session(at) => dropped(part_from(self.sessions.as_mut_slice(), at)),
            Part::Consumer(at) => dropped(part_from(self.consumers.as_mut_slice(), at)),
        }
    }

    fn clock(&self, now: Option<u64>) -> Told {
        self.watch.set(now);
        Told::Done
    }

    fn open(&self) -> Told {
        let overview = self.provider.overview();
        Told::Open(overview.connections, overview.sessions, overview.consumers)
    }

    fn held(&self) -> Told {
        let overview = self.provider.overview();
        Told::Held(overview.subscriptions, overview.held, overview.queued)
    }

    /// Makes the call, and says what it is told.
    pub(crate) fn make(&mut self, op: Op) -> Told {
        match op {
            Op::Connect(client) => self.connect(client),
            Op::Session(at, mode) => self.session(at, mode),
            Op::Name(at, of) => self.name(at, of),
            Op::Consumer(at, kind, from, selector) => self.consumer(at, kind, from, selector),
            Op::Send(at, to, what) => self.send(at, to, what),
            Op::Start(at) | Op::Stop(at) => self.by_connection(at, op),
            Op::Unsubscribe(at, _)
            | Op::Commit(at)
            | Op::Rollback(at)
            | Op::Acknowledge(at)
            | Op::Recover(at) => self.by_session(at, op),
            Op::Receive(at) | Op::Wait(at) | Op::Missed(at) => self.by_consumer(at, op),
            Op::Close(part) => self.close(part),
            Op::Drop(part) => self.let_go(part),
            Op::Clock(now) => self.clock(now),
            Op::Open => self.open(),
            Op::Held => self.held(),
        }
    }
}
