//! What listeners answer, and what is told of it and left.

use crate::desk::{consumer_of, holds, send};
use jm_client::{
    After, Connection, Consumer, Delivery, Error, Listener, ListenerFault, Mode, Provider, Refusal,
    Session,
};
use std::alloc::Global;
use std::sync::Wait;
use std::time::{Clock, Duration};

/// What comes to a listener: the number of the message, and how often it was delivered; and the listener's answer.
type Turn = (u64, u32, Result<After, ListenerFault>);

const GO: Result<After, ListenerFault> = Ok(After::Go);

const ACKNOWLEDGE: Result<After, ListenerFault> = Ok(After::Acknowledge);

const COMMIT: Result<After, ListenerFault> = Ok(After::Commit);

const ROLLBACK: Result<After, ListenerFault> = Ok(After::Rollback);

const RECOVER: Result<After, ListenerFault> = Ok(After::Recover);

const FAIL: Result<After, ListenerFault> = Err(ListenerFault);

/// A session of that mode listens to a queue, and does not wait.
struct Case {
    name: &'static str,
    mode: Mode,
    /// How many messages were sent to the queue before.
    sent: u64,
    /// How many messages are asked for.
    messages: u64,
    turns: &'static [Turn],
    told: Result<u64, Refusal>,
    /// How many messages the queue holds then, waiting or out.
    queued: usize,
    /// The number of the message that the consumer receives next, and how often it was delivered then.
    next: Option<(u64, u32)>,
}

static CASES: [Case; 15] = [
    Case {
        name: "each is content",
        mode: Mode::Auto,
        sent: 3,
        messages: 10,
        turns: &[(1, 1, GO), (2, 1, GO), (3, 1, GO)],
        told: Ok(3),
        queued: 0,
        next: None,
    },
    Case {
        name: "so many and no more",
        mode: Mode::Auto,
        sent: 3,
        messages: 2,
        turns: &[(1, 1, GO), (2, 1, GO)],
        told: Ok(2),
        queued: 1,
        next: Some((3, 1)),
    },
    Case {
        name: "none is asked for",
        mode: Mode::Auto,
        sent: 1,
        messages: 0,
        turns: &[],
        told: Ok(0),
        queued: 1,
        next: Some((1, 1)),
    },
    Case {
        name: "none is there",
        mode: Mode::Auto,
        sent: 0,
        messages: 10,
        turns: &[],
        told: Ok(0),
        queued: 0,
        next: None,
    },
    Case {
        name: "one fails, and comes again at once",
        mode: Mode::Auto,
        sent: 2,
        messages: 10,
        turns: &[(1, 1, FAIL), (1, 2, GO), (2, 1, GO)],
        told: Ok(3),
        queued: 0,
        next: None,
    },
    Case {
        name: "one fails to the end",
        mode: Mode::Dups,
        sent: 1,
        messages: 2,
        turns: &[(1, 1, FAIL), (1, 2, FAIL)],
        told: Ok(2),
        queued: 1,
        next: Some((1, 3)),
    },
    Case {
        name: "one stays out, where it failed too",
        mode: Mode::Client,
        sent: 3,
        messages: 2,
        turns: &[(1, 1, GO), (2, 1, FAIL)],
        told: Ok(2),
        queued: 3,
        next: Some((3, 1)),
    },
    Case {
        name: "an acknowledgement of all that is out",
        mode: Mode::Client,
        sent: 3,
        messages: 2,
        turns: &[(1, 1, FAIL), (2, 1, ACKNOWLEDGE)],
        told: Ok(2),
        queued: 1,
        next: Some((3, 1)),
    },
    Case {
        name: "a recover",
        mode: Mode::Client,
        sent: 2,
        messages: 10,
        turns: &[(1, 1, GO), (2, 1, RECOVER), (1, 2, GO), (2, 2, ACKNOWLEDGE)],
        told: Ok(4),
        queued: 0,
        next: None,
    },
    Case {
        name: "a commit after each",
        mode: Mode::Transacted,
        sent: 2,
        messages: 10,
        turns: &[(1, 1, COMMIT), (2, 1, COMMIT)],
        told: Ok(2),
        queued: 0,
        next: None,
    },
    Case {
        name: "a rollback of two, and a commit of one",
        mode: Mode::Transacted,
        sent: 2,
        messages: 3,
        turns: &[(1, 1, FAIL), (2, 1, ROLLBACK), (1, 2, COMMIT)],
        told: Ok(3),
        queued: 1,
        next: Some((2, 2)),
    },
    Case {
        name: "a commit in no transaction",
        mode: Mode::Auto,
        sent: 2,
        messages: 10,
        turns: &[(1, 1, GO), (2, 1, COMMIT)],
        told: Err(Refusal::IllegalState),
        queued: 0,
        next: None,
    },
    Case {
        name: "a commit in no transaction, and another message",
        mode: Mode::Dups,
        sent: 2,
        messages: 10,
        turns: &[(1, 1, COMMIT)],
        told: Err(Refusal::IllegalState),
        queued: 1,
        next: Some((2, 1)),
    },
    Case {
        name: "a rollback in no transaction",
        mode: Mode::Client,
        sent: 2,
        messages: 10,
        turns: &[(1, 1, ROLLBACK)],
        told: Err(Refusal::IllegalState),
        queued: 2,
        next: Some((2, 1)),
    },
    Case {
        name: "a recover in a transaction",
        mode: Mode::Transacted,
        sent: 2,
        messages: 10,
        turns: &[(1, 1, RECOVER)],
        told: Err(Refusal::IllegalState),
        queued: 2,
        next: Some((2, 1)),
    },
];

/// Answers as its turns say; `is_right` while what comes is what they say.
#[derive(Drop)]
struct Scripted {
    turns: &'static [Turn],
    heard: usize,
    is_right: bool,
}

impl Scripted {
    fn new(turns: &'static [Turn]) -> Scripted {
        Scripted {
            turns,
            heard: 0,
            is_right: true,
        }
    }

    /// Whether all came, and nothing else.
    fn is_done(&self) -> bool {
        self.is_right && self.heard == self.turns.len()
    }
}

impl Listener for Scripted {
    fn on_message(&mut self, delivery: &Delivery) -> Result<After, ListenerFault> {
        match self.turns.get(self.heard) {
            Some((number, count, answer))
                if delivery.message.number() == *number && delivery.count == *count => {
                self.heard = self.heard.saturating_add(1);
                *answer
            }
            Some(_) | None => {
                self.is_right = false;
                FAIL
            }
        }
    }
}

/// Whether that is told.
fn is_told(reply: Result<u64, Error>, wanted: Result<u64, Refusal>) -> bool {
    match reply {
        Ok(count) => wanted == Ok(count),
        Err(error) => wanted == Err(error.refusal()),
    }
}

/// Whether the session's listener is asked those turns, and that is told, where so many messages are asked for and it waits so
/// long for each.
fn is_heard<'p, R: Wait + Clock>(
    session: &mut Session<'p, R>,
    consumer: &Consumer<'p, R>,
    timeout: Duration,
    messages: u64,
    turns: &'static [Turn],
    told: Result<u64, Refusal>,
) -> bool {
    let mut listener = Scripted::new(turns);
    let reply = session.listen(consumer, &mut listener, timeout, messages);
    is_told(reply, told) && listener.is_done()
}

/// Whether the consumer receives that next, without a wait.
fn is_next<R: Wait + Clock>(consumer: &Consumer<'_, R>, wanted: Option<(u64, u32)>) -> bool {
    match consumer.receive_no_wait() {
        Ok(Some(delivery)) => wanted == Some((delivery.message.number(), delivery.count)),
        Ok(None) => wanted.is_none(),
        Err(_) => false,
    }
}

/// Whether the queue holds so many messages.
fn is_queued<R: Wait + Clock>(provider: &Provider<'_, R>, wanted: usize) -> bool {
    provider.overview().queued == wanted
}

/// Whether all goes as the case says in that session, which is of its mode.
fn passes_in<R: Wait + Clock>(
    provider: &Provider<'_, R>,
    session: &mut Session<'_, R>,
    case: &Case,
) -> Result<bool, Error> {
    let consumer = consumer_of(session)?;
    let is_heard = is_heard(
        session,
        &consumer,
        Duration::ZERO,
        case.messages,
        case.turns,
        case.told,
    );
    Ok(is_heard && is_queued(provider, case.queued) && is_next(&consumer, case.next))
}

/// The same of a connection, which is started.
fn passes_on<R: Wait + Clock>(
    provider: &Provider<'_, R>,
    connection: &Connection<'_, R>,
    case: &Case,
) -> Result<bool, Error> {
    connection.start()?;
    send(connection, case.sent)?;
    let mut session = connection.create_session(case.mode)?;
    passes_in(provider, &mut session, case)
}

/// The same of a new provider.
fn passes<R: Wait + Clock>(rt: &R, alloc: Global, case: &Case) -> bool {
    let provider = Provider::in_memory(rt, alloc);
    match provider.create_connection(None) {
        Ok(connection) => passes_on(&provider, &connection, case).unwrap_or(false),
        Err(_) => false,
    }
}

#[test]
fn answers_of_listeners(rt: HostRuntime) {
    for case in &CASES {
        holds(&rt, case.name, passes(&rt, rt.alloc(), case));
    }
}

/// A connection on which a session listens.
#[derive(Clone, Copy)]
enum Other {
    /// It is stopped: the message that waits does not come within the timeout, and comes once it is started.
    Stopped,
    /// The consumer is another session's: nothing comes, and it receives as before.
    Another,
    /// It is closed before.
    Closed,
}

/// Whether a session of the connection, which is stopped, hears nothing of a message that waits.
fn is_silent_while_stopped<R: Wait + Clock>(connection: &Connection<'_, R>) -> Result<bool, Error> {
    send(connection, 1)?;
    let mut session = connection.create_session(Mode::Auto)?;
    let consumer = consumer_of(&session)?;
    let timeout = Duration::from_millis(50);
    let is_silent = is_heard(&mut session, &consumer, timeout, 1, &[], Ok(0));
    connection.start()?;
    Ok(is_silent && is_next(&consumer, Some((1, 1))))
}

/// Whether a session may not listen to a consumer of another one.
fn is_refused_to_another<R: Wait + Clock>(connection: &Connection<'_, R>) -> Result<bool, Error> {
    connection.start()?;
    send(connection, 1)?;
    let mut session = connection.create_session(Mode::Auto)?;
    let another = connection.create_session(Mode::Auto)?;
    let consumer = consumer_of(&another)?;
    let refused = Err(Refusal::IllegalState);
    let is_refused = is_heard(&mut session, &consumer, Duration::ZERO, 1, &[], refused);
    Ok(is_refused && is_next(&consumer, Some((1, 1))))
}

/// Whether a session may not listen once its connection is closed.
fn is_refused_once_closed<R: Wait + Clock>(connection: Connection<'_, R>) -> Result<bool, Error> {
    let mut session = connection.create_session(Mode::Transacted)?;
    let consumer = consumer_of(&session)?;
    connection.close()?;
    let refused = Err(Refusal::IllegalState);
    Ok(is_heard(&mut session, &consumer, Duration::MAX, 1, &[], refused))
}

/// Whether all goes so on a new provider.
fn others_pass<R: Wait + Clock>(rt: &R, alloc: Global, other: Other) -> bool {
    let provider = Provider::in_memory(rt, alloc);
    match (provider.create_connection(None), other) {
        (Ok(connection), Other::Stopped) => is_silent_while_stopped(&connection).unwrap_or(false),
        (Ok(connection), Other::Another) => is_refused_to_another(&connection).unwrap_or(false),
        (Ok(connection), Other::Closed) => is_refused_once_closed(connection).unwrap_or(false),
        (Err(_), _) => false,
    }
}

#[test]
fn no_message_comes_on_a_stopped_connection(rt: HostRuntime) {
    let passes = others_pass(&rt, rt.alloc(), Other::Stopped);
    holds(&rt, "stopped", passes);
}

#[test]
fn refused_listeners_hear_nothing(rt: HostRuntime) {
    let another = others_pass(&rt, rt.alloc(), Other::Another);
    holds(&rt, "another session's consumer", another);
    let closed = others_pass(&rt, rt.alloc(), Other::Closed);
    holds(&rt, "a closed connection", closed);
}
