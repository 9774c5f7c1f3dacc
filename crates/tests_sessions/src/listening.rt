//! Consumers that listen and are busy: which calls are refused, and how each consumer stands after them.

use crate::told::holds_at;
use jm_base::{Mode, Refusal};
use jm_dest::{ConnectionId, ConsumerId, Key, SessionId};
use jm_selector::Selector;
use jm_session::{Sessions, Source};
use std::alloc::Global;
use tests_calls::session_of;

/// A call of a session of connection 1, by its number, or of a consumer of it.
#[derive(Clone, Copy)]
enum Op {
    Listen(u32, u32, bool),
    Busy(u32, u32, bool),
    CloseConsumer(u32, u32),
    CloseSession(u32),
    CloseConnection,
}

fn session(number: u32) -> Result<SessionId, Refusal> {
    session_of((1, number))
}

fn make(sessions: &mut Sessions, op: Op) -> Result<(), Refusal> {
    match op {
        Op::Listen(s, k, on) => sessions.set_listening(&session(s)?, ConsumerId::new(k)?, on),
        Op::Busy(s, k, on) => sessions.set_busy(&session(s)?, ConsumerId::new(k)?, on),
        Op::CloseConsumer(s, k) => sessions.close_consumer(&session(s)?, ConsumerId::new(k)?),
        Op::CloseSession(s) => sessions.close_session(&session(s)?),
        Op::CloseConnection => sessions.close_connection(ConnectionId::new(1)?),
    }
}

fn add_consumer(
    alloc: Global,
    sessions: &mut Sessions,
    session: SessionId,
    number: u32,
) -> Result<(), Refusal> {
    let id = ConsumerId::new(number)?;
    let source = Source::plain(Key::Own(session, id), Selector::none(alloc));
    sessions.consumer(&session, id, source)
}

/// Connection 1 with sessions 1 and 2, which have consumers 1 and 2, and 1.
fn opened(alloc: Global) -> Result<Sessions, Refusal> {
    let mut sessions = Sessions::new(alloc);
    sessions.open(ConnectionId::new(1)?, None)?;
    for number in [1, 2] {
        sessions.session(&session(number)?, Mode::Auto)?;
        add_consumer(alloc, &mut sessions, session(number)?, 1)?;
    }
    add_consumer(alloc, &mut sessions, session(1)?, 2)?;
    Ok(sessions)
}

/// Whether the consumer listens, is busy, may receive, may take, and may be done.
fn standing(sessions: &Sessions, s: u32, k: u32) -> Result<[bool; 5], Refusal> {
    let session = session(s)?;
    let id = ConsumerId::new(k)?;
    Ok([
        sessions.is_listening(&session, id),
        sessions.is_busy(&session, id),
        sessions.may_receive(&session, id),
        sessions.may_take(&session, id),
        sessions.may_be_done(&session, id),
    ])
}

/// A consumer that receives, one that listens, and one that is busy.
const RECEIVES: [bool; 5] = [false, false, true, false, false];

const LISTENS: [bool; 5] = [true, false, false, true, false];

const IS_BUSY: [bool; 5] = [true, true, false, false, true];

const IS_CLOSED: [bool; 5] = [false; 5];

/// A call, whether it is done, and how consumers 1 and 2 of session 1 and consumer 1 of session 2 stand after it.
static CALLS: [(Op, bool, [[bool; 5]; 3]); 20] = [
    (Op::Busy(1, 1, true), false, [RECEIVES, RECEIVES, RECEIVES]),
    (Op::Busy(1, 1, false), false, [RECEIVES, RECEIVES, RECEIVES]),
    (
        Op::Listen(1, 3, true),
        false,
        [RECEIVES, RECEIVES, RECEIVES],
    ),
    (
        Op::Listen(3, 1, true),
        false,
        [RECEIVES, RECEIVES, RECEIVES],
    ),
    (Op::Listen(1, 1, true), true, [LISTENS, RECEIVES, RECEIVES]),
    (Op::Listen(1, 1, true), true, [LISTENS, RECEIVES, RECEIVES]),
    (Op::Busy(1, 1, false), true, [LISTENS, RECEIVES, RECEIVES]),
    (Op::Busy(1, 1, true), true, [IS_BUSY, RECEIVES, RECEIVES]),
    (Op::Busy(1, 1, true), false, [IS_BUSY, RECEIVES, RECEIVES]),
    (
        Op::Listen(1, 1, false),
        false,
        [IS_BUSY, RECEIVES, RECEIVES],
    ),
    (
        Op::CloseConsumer(1, 1),
        false,
        [IS_BUSY, RECEIVES, RECEIVES],
    ),
    (Op::Listen(2, 1, true), true, [IS_BUSY, RECEIVES, LISTENS]),
    (Op::Busy(1, 1, false), true, [LISTENS, RECEIVES, LISTENS]),
    (Op::Listen(1, 1, false), true, [RECEIVES, RECEIVES, LISTENS]),
    (
        Op::CloseConsumer(1, 1),
        true,
        [IS_CLOSED, RECEIVES, LISTENS],
    ),
    (Op::Listen(1, 2, true), true, [IS_CLOSED, LISTENS, LISTENS]),
    (Op::Busy(1, 2, true), true, [IS_CLOSED, IS_BUSY, LISTENS]),
    (Op::CloseSession(1), true, [IS_CLOSED, IS_CLOSED, LISTENS]),
    (Op::Busy(2, 1, true), true, [IS_CLOSED, IS_CLOSED, IS_BUSY]),
    (Op::CloseConnection, true, [IS_CLOSED, IS_CLOSED, IS_CLOSED]),
];

/// Whether the consumers stand so.
fn stand_so(sessions: &Sessions, wanted: &[[bool; 5]; 3]) -> bool {
    standing(sessions, 1, 1) == Ok(wanted[0])
        && standing(sessions, 1, 2) == Ok(wanted[1])
        && standing(sessions, 2, 1) == Ok(wanted[2])
}

/// The number of the first call that is not done as it should be, or leaves something else; none where all are.
fn first_wrong(sessions: &mut Sessions) -> Option<usize> {
    for (row, (op, is_done, wanted)) in CALLS.iter().enumerate() {
        let is_so = make(sessions, *op).is_ok() == *is_done;
        if !is_so || !stand_so(sessions, wanted) {
            return Some(row);
        }
    }
    None
}

#[test]
fn consumers_listen_and_are_busy(rt: HostRuntime) {
    match opened(rt.alloc()) {
        Ok(mut sessions) => match first_wrong(&mut sessions) {
            None => {}
            Some(row) => holds_at(&rt, row, false),
        },
        Err(_) => holds_at(&rt, CALLS.len(), false),
    }
}
