//! Connections, sessions and consumers by number: which calls are refused, and what is known after them.

use crate::told::{holds, is_true};
use jm_base::{Mode, Refusal};
use jm_dest::{ClientId, ConnectionId, ConsumerId, Key, SessionId};
use jm_machine::{ConnectionState, Consumer};
use jm_selector::Selector;
use jm_session::{Sessions, Source};
use std::alloc::Global;
use tests_calls::session_of;

#[derive(Clone, Copy)]
enum Op {
    Open(u32),
    /// The same for that client.
    OpenFor(u32, &'static str),
    Start(u32),
    Stop(u32),
    Session(u32, u32),
    Consumer(u32, u32, u32),
    CloseConnection(u32),
    CloseSession(u32, u32),
    CloseConsumer(u32, u32, u32),
}

fn session(connection: u32, number: u32) -> Result<SessionId, Refusal> {
    session_of((connection, number))
}

fn consumer(
    alloc: Global,
    sessions: &mut Sessions,
    session: SessionId,
    number: u32,
) -> Result<(), Refusal> {
    let id = ConsumerId::new(number)?;
    let source = Source::plain(Key::Own(session, id), Selector::none(alloc));
    sessions.consumer(&session, id, source)
}

fn open_for(
    alloc: Global,
    sessions: &mut Sessions,
    number: u32,
    client: &str,
) -> Result<(), Refusal> {
    let id = ConnectionId::new(number)?;
    sessions.open(id, Some(ClientId::new(alloc, client)?))
}

fn make(alloc: Global, sessions: &mut Sessions, op: Op) -> Result<(), Refusal> {
    match op {
        Op::Open(c) => sessions.open(ConnectionId::new(c)?, None),
        Op::OpenFor(c, client) => open_for(alloc, sessions, c, client),
        Op::Start(c) => sessions.start(ConnectionId::new(c)?),
        Op::Stop(c) => sessions.stop(ConnectionId::new(c)?),
        Op::Session(c, s) => sessions.session(&session(c, s)?, Mode::Auto),
        Op::Consumer(c, s, k) => consumer(alloc, sessions, session(c, s)?, k),
        Op::CloseConnection(c) => sessions.close_connection(ConnectionId::new(c)?),
        Op::CloseSession(c, s) => sessions.close_session(&session(c, s)?),
        Op::CloseConsumer(c, s, k) => {
            sessions.close_consumer(&session(c, s)?, ConsumerId::new(k)?)
        }
    }
}

/// Calls, and whether each is done; the others are refused.
static CALLS: [(Op, bool); 17] = [
    (Op::Session(1, 1), false),
    (Op::Start(1), false),
    (Op::Open(1), true),
    (Op::Open(1), false),
    (Op::Open(2), true),
    (Op::Session(1, 1), true),
    (Op::Session(1, 1), false),
    (Op::Session(1, 2), true),
    (Op::Session(2, 1), true),
    (Op::Session(3, 1), false),
    (Op::Consumer(1, 1, 1), true),
    (Op::Consumer(1, 1, 1), false),
    (Op::Consumer(1, 2, 1), true),
    (Op::Consumer(1, 3, 1), false),
    (Op::Start(1), true),
    (Op::Start(2), true),
    (Op::Stop(2), true),
];

/// Makes the calls in turn, and gives whether each is answered as wanted.
fn are_made(alloc: Global, sessions: &mut Sessions, calls: &[(Op, bool)]) -> bool {
    for (op, is_done) in calls {
        let wanted = if *is_done {
            Ok(())
        } else {
            Err(Refusal::IllegalState)
        };
        if make(alloc, sessions, *op) != wanted {
            return false;
        }
    }
    true
}

fn has_lists(sessions: &Sessions) -> bool {
    sessions.connections().len() == 2
        && sessions.sessions().len() == 3
        && sessions.consumers().len() == 2
}

/// What is known after those calls; one that is not answered as wanted is seen by what is missing.
fn made(alloc: Global) -> Sessions {
    let mut sessions = Sessions::new(alloc);
    let _ = are_made(alloc, &mut sessions, &CALLS);
    sessions
}

/// Whether the calls are answered as wanted, after room was made for so many calls.
fn answers(alloc: Global, sessions: &mut Sessions, room: usize) -> Result<bool, Refusal> {
    sessions.reserve(room)?;
    Ok(are_made(alloc, sessions, &CALLS) && has_lists(sessions))
}

/// The same from the first call on.
fn is_answered(alloc: Global, room: usize) -> Result<bool, Refusal> {
    let mut sessions = Sessions::new(alloc);
    answers(alloc, &mut sessions, room)
}

#[test]
fn refused_calls(rt: HostRuntime) {
    is_true(&rt, "no room", is_answered(rt.alloc(), 0));
    is_true(&rt, "room for all", is_answered(rt.alloc(), 17));
}

/// Whether the connection is used and started.
fn connection_known(sessions: &Sessions, connection: u32) -> Result<(bool, bool), Refusal> {
    let id = ConnectionId::new(connection)?;
    let is_used = sessions.is_used(id) && sessions.connection_of(id).is_some();
    Ok((is_used, sessions.is_started(id)))
}

/// Connections, and whether each is used and started.
static CONNECTIONS: [(u32, (bool, bool)); 3] = [
    (1, (true, true)),
    (2, (true, false)),
    (3, (false, false)),
];

fn connections_are_known(sessions: &Sessions) -> bool {
    for (connection, wanted) in &CONNECTIONS {
        if connection_known(sessions, *connection) != Ok(*wanted) {
            return false;
        }
    }
    true
}

#[test]
fn connections_by_number(rt: HostRuntime) {
    let are_known = connections_are_known(&made(rt.alloc()));
    holds(&rt, "connections", are_known);
}

/// Whether the session is open, and whether it may be opened.
fn session_known(sessions: &Sessions, c: u32, s: u32) -> Result<(bool, bool), Refusal> {
    let id = session(c, s)?;
    let is_open = sessions.is_open(&id)
        && sessions.mode_of(&id) == Some(Mode::Auto)
        && sessions.session_of(&id).is_some();
    Ok((is_open, sessions.is_new_session(&id)))
}

/// Sessions, and whether each is open, and may be opened.
static SESSIONS: [(u32, u32, (bool, bool)); 5] = [
    (1, 1, (true, false)),
    (1, 2, (true, false)),
    (2, 1, (true, false)),
    (2, 2, (false, true)),
    (3, 1, (false, false)),
];

fn sessions_are_known(sessions: &Sessions) -> bool {
    for (c, s, wanted) in &SESSIONS {
        if session_known(sessions, *c, *s) != Ok(*wanted) {
            return false;
        }
    }
    true
}

#[test]
fn sessions_by_number(rt: HostRuntime) {
    let are_known = sessions_are_known(&made(rt.alloc()));
    holds(&rt, "sessions", are_known);
}

/// Whether that consumer of session 1.s was made, may be made, and may receive.
fn consumer_known(sessions: &Sessions, s: u32, k: u32) -> Result<[bool; 3], Refusal> {
    let session = session(1, s)?;
    let id = ConsumerId::new(k)?;
    let is_made = sessions.consumer_of(&session, id).is_some();
    let may_begin = sessions.may_begin(&session, id);
    Ok([is_made, may_begin, sessions.may_receive(&session, id)])
}

/// Consumers of sessions of connection 1, and whether each was made, may be made, and may receive.
static CONSUMERS: [(u32, u32, [bool; 3]); 4] = [
    (1, 1, [true, false, true]),
    (1, 2, [false, true, false]),
    (2, 1, [true, false, true]),
    (3, 1, [false, false, false]),
];

fn consumers_are_known(sessions: &Sessions) -> bool {
    for (s, k, wanted) in &CONSUMERS {
        if consumer_known(sessions, *s, *k) != Ok(*wanted) {
            return false;
        }
    }
    true
}

#[test]
fn consumers_by_number(rt: HostRuntime) {
    let are_known = consumers_are_known(&made(rt.alloc()));
    holds(&rt, "consumers", are_known);
}

/// A copy of consumer 1 of the session, where it was made.
fn first_of(sessions: &Sessions, session: &SessionId) -> Result<Option<Consumer>, Refusal> {
    match sessions.consumer_of(session, ConsumerId::new(1)?) {
        Some(consumer) => Ok(Some(consumer.copy()?)),
        None => Ok(None),
    }
}

/// A copy of the connection, where it was opened.
fn copied_connection(
    sessions: &Sessions,
    id: ConnectionId,
) -> Result<Option<ConnectionState>, Refusal> {
    match sessions.connection_of(id) {
        Some(connection) => Ok(Some(connection.copy()?)),
        None => Ok(None),
    }
}

/// The connection, session and consumer of that number, as they are known, and of no other.
fn one_of(alloc: Global, sessions: &Sessions, number: u32) -> Result<Sessions, Refusal> {
    let session = session(number, 1)?;
    let connection = copied_connection(sessions, session.connection)?;
    let known = sessions.session_of(&session);
    match first_of(sessions, &session) {
        Ok(consumer) => Ok(Sessions::of_one(alloc, connection, known, consumer)?),
        Err(refusal) => Err(refusal),
    }
}

/// How many connections, sessions and consumers are known.
fn counts(sessions: &Sessions) -> [usize; 3] {
    [
        sessions.connections().len(),
        sessions.sessions().len(),
        sessions.consumers().len(),
    ]
}

/// How many there are of that connection's first session, and whether the connection is started.
fn one_known(
    alloc: Global,
    sessions: &Sessions,
    number: u32,
) -> Result<([usize; 3], bool), Refusal> {
    let connection = ConnectionId::new(number)?;
    match one_of(alloc, sessions, number) {
        Ok(one) => Ok((counts(&one), one.is_started(connection))),
        Err(refusal) => Err(refusal),
    }
}

/// Connections, how many connections, sessions and consumers are taken of each, and whether it is started.
static TAKEN: [(u32, ([usize; 3], bool)); 3] = [
    (1, ([1, 1, 1], true)),
    (2, ([1, 1, 0], false)),
    (3, ([0, 0, 0], false)),
];

fn ones_are_known(alloc: Global, sessions: &Sessions) -> bool {
    for (number, wanted) in &TAKEN {
        if one_known(alloc, sessions, *number) != Ok(*wanted) {
            return false;
        }
    }
    true
}

#[test]
fn what_is_known_of_one_session(rt: HostRuntime) {
    let are_known = ones_are_known(rt.alloc(), &made(rt.alloc()));
    holds(&rt, "one session", are_known);
}

/// Calls after those, and whether each is done; the others are refused.
static CLOSES: [(Op, bool); 22] = [
    (Op::CloseConsumer(1, 1, 2), false),
    (Op::CloseConsumer(1, 3, 1), false),
    (Op::CloseConsumer(1, 1, 1), true),
    (Op::CloseConsumer(1, 1, 1), true),
    (Op::Consumer(1, 1, 1), false),
    (Op::CloseSession(1, 3), false),
    (Op::CloseSession(1, 2), true),
    (Op::CloseSession(1, 2), true),
    (Op::CloseConsumer(1, 2, 1), true),
    (Op::Session(1, 2), false),
    (Op::Consumer(1, 2, 2), false),
    (Op::CloseConnection(3), false),
    (Op::CloseConnection(1), true),
    (Op::CloseConnection(1), true),
    (Op::Start(1), false),
    (Op::Stop(1), false),
    (Op::Open(1), false),
    (Op::CloseSession(1, 1), true),
    (Op::CloseSession(1, 3), true),
    (Op::CloseConsumer(1, 3, 1), false),
    (Op::Session(1, 3), false),
    (Op::Start(2), true),
];

/// Whether that connection, its session 1, and consumer 1 of that are open; whether the connection is closed; and whether the
/// session and the consumer may be closed.
fn open_parts(sessions: &Sessions, connection: u32) -> Result<[bool; 6], Refusal> {
    let id = ConnectionId::new(connection)?;
    let session = session(connection, 1)?;
    let consumer = ConsumerId::new(1)?;
    Ok([
        sessions.is_open_connection(id),
        sessions.is_open(&session),
        sessions.is_active(&session, consumer),
        sessions.is_closed_connection(id),
        sessions.may_close_session(&session),
        sessions.may_close_consumer(&session, consumer),
    ])
}

/// Connections, and what is open, closed, and may be closed of each before those calls.
static OPEN: [(u32, [bool; 6]); 3] = [
    (1, [true, true, true, false, true, true]),
    (2, [true, true, false, false, true, false]),
    (3, [false, false, false, false, false, false]),
];

/// The same after them.
static OPEN_AFTER: [(u32, [bool; 6]); 3] = [
    (1, [false, false, false, true, true, true]),
    (2, [true, true, false, false, true, false]),
    (3, [false, false, false, false, false, false]),
];

fn are_open(sessions: &Sessions, rows: &[(u32, [bool; 6])]) -> bool {
    for (connection, wanted) in rows {
        if open_parts(sessions, *connection) != Ok(*wanted) {
            return false;
        }
    }
    true
}

/// Whether those calls close what they should, and all stays known.
fn are_closed(alloc: Global, sessions: &mut Sessions) -> bool {
    are_open(sessions, &OPEN)
        && are_made(alloc, sessions, &CLOSES)
        && are_open(sessions, &OPEN_AFTER)
        && has_lists(sessions)
}

#[test]
fn closing_calls(rt: HostRuntime) {
    let are_closed = are_closed(rt.alloc(), &mut made(rt.alloc()));
    holds(&rt, "closings", are_closed);
}

/// Calls of connections with clients, and what each is told.
static CLIENTS: [(Op, Result<(), Refusal>); 13] = [
    (Op::OpenFor(1, "c"), Ok(())),
    (Op::OpenFor(2, "c"), Err(Refusal::InvalidClientId)),
    (Op::OpenFor(1, "c"), Err(Refusal::IllegalState)),
    (Op::OpenFor(2, "d"), Ok(())),
    (Op::OpenFor(3, "C"), Ok(())),
    (Op::Open(4), Ok(())),
    (Op::Open(5), Ok(())),
    (Op::CloseConnection(2), Ok(())),
    (Op::OpenFor(6, "d"), Ok(())),
    (Op::OpenFor(7, "d"), Err(Refusal::InvalidClientId)),
    (Op::CloseConnection(1), Ok(())),
    (Op::CloseConnection(1), Ok(())),
    (Op::CloseConnection(2), Ok(())),
];

/// Makes those calls, and gives whether each is told what is wanted.
fn are_told(alloc: Global, sessions: &mut Sessions) -> bool {
    for (op, wanted) in &CLIENTS {
        if make(alloc, sessions, *op) != *wanted {
            return false;
        }
    }
    true
}

/// Clients, and whether an open connection has each after those calls.
static TAKEN_CLIENTS: [(&str, bool); 4] = [("c", false), ("d", true), ("C", true), ("e", false)];

fn is_taken(alloc: Global, sessions: &Sessions, client: &str) -> Result<bool, Refusal> {
    let client = Some(ClientId::new(alloc, client)?);
    Ok(sessions.is_client_taken(&client))
}

/// Whether the clients are taken so, and a connection of none takes none.
fn are_taken(alloc: Global, sessions: &Sessions) -> bool {
    for (client, wanted) in &TAKEN_CLIENTS {
        if is_taken(alloc, sessions, client) != Ok(*wanted) {
            return false;
        }
    }
    !sessions.is_client_taken(&None)
}

/// Whether the connection of that number has that client, or none.
fn is_for(sessions: &Sessions, number: u32, wanted: Option<&str>) -> bool {
    match (ConnectionId::new(number), wanted) {
        (Ok(id), Some(wanted)) => {
            matches!(sessions.client_of(id), Some(client) if client.as_str() == wanted)
        }
        (Ok(id), None) => sessions.client_of(id).is_none(),
        _ => false,
    }
}

/// Connections, and the client of each after those calls, of which a closed one has none.
static CLIENTS_OF: [(u32, Option<&str>); 7] = [
    (1, None),
    (2, None),
    (3, Some("C")),
    (4, None),
    (5, None),
    (6, Some("d")),
    (7, None),
];

fn are_for(sessions: &Sessions) -> bool {
    for (number, wanted) in &CLIENTS_OF {
        if !is_for(sessions, *number, *wanted) {
            return false;
        }
    }
    true
}

/// Whether all this holds, also of a copy, after room was made for so many calls.
fn clients_stand(alloc: Global, room: usize) -> Result<bool, Refusal> {
    let mut sessions = Sessions::new(alloc);
    sessions.reserve(room)?;
    let are_told = are_told(alloc, &mut sessions);
    let copy = sessions.copy()?;
    Ok(
        are_told
            && are_taken(alloc, &sessions)
            && are_for(&sessions)
            && are_taken(alloc, &copy)
            && are_for(&copy),
    )
}

#[test]
fn clients_of_connections(rt: HostRuntime) {
    is_true(&rt, "no room", clients_stand(rt.alloc(), 0));
    is_true(&rt, "room for all", clients_stand(rt.alloc(), 13));
}
