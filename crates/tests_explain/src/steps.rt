//! Causes of steps that no call of a client makes: messages that another opening stamped, and calls of another caller.

use crate::runs::{is_told, right_on};
use jm_base::{Mode, Refusal};
use jm_core::{Call, Core, Request, Step, Who};
use jm_dest::ConnectionId;
use jm_explain::Why;
use std::alloc::Global;
use tests_calls::{At, Op, commit, publication, session};

/// A step of session 2.1, or of connection 2.
#[derive(Clone, Copy)]
enum Made {
    /// The session publishes a message that it stamped in that opening.
    Publication(u32),
    /// The session commits one.
    Commit(u32),
    /// The session makes a connection's call.
    Start,
    /// The connection makes a session's call.
    Acknowledge,
}

/// A step, and why it is refused.
type Row = (Made, Option<Why>);

static UNTRANSACTED: [Row; 5] = [
    (Made::Publication(2), Some(Why::ForeignStamp)),
    (Made::Publication(1), None),
    (Made::Commit(1), Some(Why::NotTransacted)),
    (Made::Start, Some(Why::OtherCaller)),
    (Made::Acknowledge, Some(Why::OtherCaller)),
];

static TRANSACTED: [Row; 3] = [
    (Made::Commit(2), Some(Why::ForeignStamp)),
    (Made::Commit(1), None),
    (Made::Publication(1), Some(Why::Transacted)),
];

fn step_of(alloc: Global, made: Made) -> Result<Step, Refusal> {
    match made {
        Made::Publication(opening) => publication(alloc, opening, At::Topic("t"), None, 1),
        Made::Commit(opening) => commit(alloc, opening, 1),
        Made::Start => Ok(Step {
            who: Who::Session(session(2)?),
            call: Call::Ask(Request::Start),
        }),
        Made::Acknowledge => Ok(Step {
            who: Who::Connection(ConnectionId::new(2)?),
            call: Call::Ask(Request::Acknowledge),
        }),
    }
}

/// Whether the cause of the row is told of its step.
fn is_right(alloc: Global, core: &mut Core, (made, cause): Row) -> bool {
    match step_of(alloc, made) {
        Ok(step) => is_told(alloc, core, &step, cause),
        Err(_) => false,
    }
}

/// Opens the session in that mode. How many rows are told what they should be, up to the first that is not.
fn right_steps(alloc: Global, core: &mut Core, mode: Mode, rows: &[Row]) -> usize {
    let opening = [(Op::Open(2), None), (Op::Session((2, 1), mode), None)];
    if right_on(alloc, core, opening.as_slice()) != opening.len() {
        return 0;
    }
    let mut right: usize = 0;
    for row in rows {
        if !is_right(alloc, core, *row) {
            return right;
        }
        right = right.saturating_add(1);
    }
    right
}

/// The same on a new core.
fn right_rows(alloc: Global, mode: Mode, rows: &[Row]) -> usize {
    match Core::new(alloc, 1, 100_000) {
        Ok(mut core) => right_steps(alloc, &mut core, mode, rows),
        Err(_) => 0,
    }
}

#[test]
fn causes_of_stamps_and_callers(rt: HostRuntime) {
    let right = right_rows(rt.alloc(), Mode::Auto, UNTRANSACTED.as_slice());
    assert_eq!(&rt; right, UNTRANSACTED.len());
}

#[test]
fn causes_of_stamps_in_a_transaction(rt: HostRuntime) {
    let right = right_rows(rt.alloc(), Mode::Transacted, TRANSACTED.as_slice());
    assert_eq!(&rt; right, TRANSACTED.len());
}
