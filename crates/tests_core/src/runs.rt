//! The core: replies, what is held after them, and stamps of another opening.

use crate::ops::OPS;
use crate::told::{holds, is_text};
use jm_base::{Mode, Refusal};
use jm_core::{Core, Reply, Step, Who};
use jm_dest::Key;
use std::alloc::{AllocError, Global};
use tests_calls::{At, Op, all_shown, calls, commit, publication, session_of};

/// The replies of the core to those calls.
pub(crate) fn run(alloc: Global, core: &mut Core, ops: &[Op]) -> Result<Vec<Reply>, Refusal> {
    Ok(core.run(calls(alloc, ops)?)?)
}

fn replies(alloc: Global) -> Result<String, AllocError> {
    let Ok(mut core) = Core::new(alloc, 1, 100_000) else {
        return Err(AllocError);
    };
    match run(alloc, &mut core, &OPS) {
        Ok(replies) => all_shown(alloc, &replies),
        Err(_) => Err(AllocError),
    }
}

const REPLIES: &str =
    "ok, ok, ok, ok, ok, ok, InvalidSelector Expected 4, ok, ok, ok, sent 1, sent 2, sent 3, a#1, none, ok, IllegalState, \
     missed 0, ok, ok, ok, ok, ok, IllegalState, ok, IllegalState, InvalidClientId, ";

#[test]
fn replies_of_a_run(rt: HostRuntime) {
    is_text(&rt, REPLIES, replies(rt.alloc()));
}

/// Whether there is a row under the key, of a queue or of a subscription.
fn has_rows(core: &Core, key: &Key) -> bool {
    if let Key::Queue(name) = key {
        return matches!(core.queue_rows(name), Ok(rows) if rows.len() == 1);
    }
    match core.station(key) {
        Ok(Some(station)) => !station.rows.as_slice().is_empty(),
        _ => false,
    }
}

/// Whether there is a row for each consumer.
fn each_has_rows(core: &Core) -> bool {
    for consumer in core.consumers() {
        if !has_rows(core, &consumer.key) {
            return false;
        }
    }
    true
}

/// Whether the core holds two connections, three sessions, four consumers, three subscriptions with rows of two messages, and
/// a queue with one, has used three places, and is of opening 1.
pub(crate) fn has_run(core: &Core) -> bool {
    core.connections().len() == 2
        && core.sessions().len() == 3
        && core.consumers().len() == 4
        && core.stations_len() == 3
        && each_has_rows(core)
        && core.kept() == 2
        && core.kept_by_queues() == 1
        && core.next_place() == 4
        && core.opening().get() == 1
}

fn copy_has_run(core: &Core) -> bool {
    match core.copy() {
        Ok(copy) => has_run(&copy),
        Err(_) => false,
    }
}

fn leaves(alloc: Global) -> bool {
    match Core::new(alloc, 1, 100_000) {
        Ok(mut core) => {
            let _ = run(alloc, &mut core, &OPS);
            has_run(&core) && copy_has_run(&core)
        }
        Err(_) => false,
    }
}

#[test]
fn what_a_run_leaves(rt: HostRuntime) {
    holds(&rt, "a copy", leaves(rt.alloc()));
}

#[test]
fn no_opening_is_zero(rt: HostRuntime) {
    let refusal = Core::new(rt.alloc(), 0, 100_000).err();
    holds(&rt, "0", refusal == Some(Refusal::OutOfRange));
}

/// The limit of a new core that was made with that one.
fn limit_of(alloc: Global, held_limit: u32) -> Result<u32, Refusal> {
    let core = Core::new(alloc, 1, held_limit)?;
    Ok(core.held_limit())
}

#[test]
fn limits_are_up_to_a_million(rt: HostRuntime) {
    let alloc = rt.alloc();
    holds(&rt, "0", limit_of(alloc, 0) == Err(Refusal::OutOfRange));
    holds(&rt, "1", limit_of(alloc, 1) == Ok(1));
    holds(
        &rt,
        "1,000,000",
        limit_of(alloc, 1_000_000) == Ok(1_000_000),
    );
    holds(
        &rt,
        "1,000,001",
        limit_of(alloc, 1_000_001) == Err(Refusal::OutOfRange),
    );
}

/// A step with a message that session 2.1 stamped: the mode of sessions 2.1 and 2.2, which of them makes the step, whether it
/// is a commit, in which opening the message was stamped, and whether the step is accepted in opening 1.
type Stamp = (Mode, u32, bool, u32, bool);

static STAMPS: [Stamp; 8] = [
    (Mode::Auto, 1, false, 1, true),
    (Mode::Auto, 1, false, 2, false),
    (Mode::Auto, 2, false, 1, false),
    (Mode::Auto, 1, true, 1, false),
    (Mode::Transacted, 1, true, 1, true),
    (Mode::Transacted, 1, true, 2, false),
    (Mode::Transacted, 2, true, 1, false),
    (Mode::Transacted, 1, false, 1, false),
];

fn step_of(alloc: Global, stamp: &Stamp) -> Result<Step, Refusal> {
    let (_, number, is_commit, opening, _) = *stamp;
    let mut step = match is_commit {
        true => commit(alloc, opening, 1)?,
        false => publication(alloc, opening, At::Topic("t"), None, 1)?,
    };
    step.who = Who::Session(session_of((2, number))?);
    Ok(step)
}

/// Whether the step is accepted in a core with these sessions, and then takes one place, and else is IllegalState and takes
/// none.
fn is_answered(alloc: Global, core: &mut Core, stamp: &Stamp, step: &Step) -> bool {
    let (mode, _, _, _, is_accepted) = *stamp;
    let sessions = [
        Op::Open(2),
        Op::Session((2, 1), mode),
        Op::Session((2, 2), mode),
    ];
    let _ = run(alloc, core, &sessions);
    match core.step(step) {
        Ok(_) => is_accepted && core.next_place() == 2,
        Err(refusal) => {
            !is_accepted && refusal == Refusal::IllegalState && core.next_place() == 1
        }
    }
}

fn is_told_by(alloc: Global, core: &mut Core, stamp: &Stamp) -> bool {
    match step_of(alloc, stamp) {
        Ok(step) => is_answered(alloc, core, stamp, &step),
        Err(_) => false,
    }
}

fn is_told(alloc: Global, stamp: &Stamp) -> bool {
    match Core::new(alloc, 1, 100_000) {
        Ok(mut core) => is_told_by(alloc, &mut core, stamp),
        Err(_) => false,
    }
}

#[test]
fn foreign_stamps(rt: HostRuntime) {
    for stamp in &STAMPS {
        holds(&rt, "a stamp", is_told(rt.alloc(), stamp));
    }
}
