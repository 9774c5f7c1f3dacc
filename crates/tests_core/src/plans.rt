//! Plans: to plan a step and to install it is to make it, and a plan that is let go leaves the core as it was. To publish a
//! message that is moved is to make that step, too.

use crate::ops::OPS;
use crate::runs::has_run;
use crate::told::is_true;
use jm_base::{List, Mode, Refusal};
use jm_core::{Call, Core, Reply, Station, Step, Who};
use jm_dest::{Key, Name, SessionId};
use jm_header::Message;
use jm_machine::{ClientCall, same_reply};
use std::alloc::Global;
use tests_calls::{At, Kind, Op, call, publication};

/// The step of a call that is no send; that of a commit carries no message.
pub(crate) fn asked(alloc: Global, call: ClientCall) -> Result<Step, Refusal> {
    match call {
        ClientCall::Ask { who, request } => {
            let call = Call::Ask(request);
            Ok(Step { who, call })
        }
        ClientCall::CommitSession(session) => {
            let who = Who::Session(session);
            let call = Call::Commit(List::new(Vec::new(alloc)));
            Ok(Step { who, call })
        }
        ClientCall::Send { .. } => Err(Refusal::Store),
    }
}

/// The step of the call; that of a send publishes a message of session 2.1.
fn step(alloc: Global, op: Op) -> Result<Step, Refusal> {
    match op {
        Op::Send(_, _, x) => publication(alloc, 1, At::Topic("t"), x, 1),
        Op::SendTo(_, at, _, x) => publication(alloc, 1, at, x, 1),
        _ => asked(alloc, call(alloc, op)?),
    }
}

/// Whether the core holds that under the key.
fn holds_station(core: &Core, key: &Key, station: &Option<Station>) -> bool {
    match core.station(key) {
        Ok(held) => held == *station,
        Err(_) => false,
    }
}

/// Whether both hold the same at the queue of that name.
fn holds_the_same_queue(one: &Core, other: &Core, name: &Name) -> bool {
    match (one.queue_rows(name), other.queue_rows(name)) {
        (Ok(rows), Ok(held)) => rows == held,
        _ => false,
    }
}

/// Whether both hold the same under the key.
fn holds_the_same(one: &Core, other: &Core, key: &Key) -> bool {
    if let Key::Queue(name) = key {
        return holds_the_same_queue(one, other, name);
    }
    match one.station(key) {
        Ok(station) => holds_station(other, key, &station),
        Err(_) => false,
    }
}

/// Whether both hold the same for each consumer of the one.
fn hold_the_same(one: &Core, other: &Core) -> bool {
    for consumer in one.consumers() {
        if !holds_the_same(one, other, &consumer.key) {
            return false;
        }
    }
    one.stations_len() == other.stations_len()
        && one.kept() == other.kept()
        && one.kept_by_queues() == other.kept_by_queues()
}

/// Whether both show the same to callers.
fn show_the_same(one: &Core, other: &Core) -> bool {
    one.connections() == other.connections()
        && one.sessions() == other.sessions()
        && one.consumers() == other.consumers()
        && one.next_place() == other.next_place()
        && hold_the_same(one, other)
}

/// Plans the step, lets the plan go, and gives whether the core shows what the other does.
fn is_left(core: &mut Core, other: &Core, step: &Step) -> bool {
    let _ = core.plan(step);
    show_the_same(core, other)
}

fn planned(core: &mut Core, step: &Step) -> Reply {
    let plan = core.plan(step)?;
    Ok(core.install(plan))
}

/// Publishes a copy of the one message that there is.
fn publish(core: &mut Core, session: &SessionId, messages: &[Message]) -> Reply {
    let [message] = messages else {
        return Err(Refusal::Store);
    };
    match message.copy() {
        Ok(copy) => core.publish(session, copy),
        Err(_) => Err(Refusal::Memory),
    }
}

/// Makes the step of a session.
fn made_by(core: &mut Core, session: &SessionId, step: &Step) -> Reply {
    match &step.call {
        Call::Publish(messages) => publish(core, session, messages.as_slice()),
        Call::Ask(_) | Call::Commit(_) => core.step(step),
    }
}

/// Makes the step; that of a publication moves its message.
fn made(core: &mut Core, step: &Step) -> Reply {
    match &step.who {
        Who::Session(session) => made_by(core, session, step),
        Who::Connection(_) => core.step(step),
    }
}

/// Whether the step, planned and installed on the one core, does what it does on the other; before that a plan of it is let
/// go.
fn is_planned(one: &mut Core, other: &mut Core, step: &Step) -> bool {
    is_left(one, other, step)
        && same_reply(&planned(one, step), &made(other, step))
        && show_the_same(one, other)
}

fn call_is_planned(alloc: Global, one: &mut Core, other: &mut Core, op: Op) -> bool {
    match step(alloc, op) {
        Ok(step) => is_planned(one, other, &step),
        Err(_) => false,
    }
}

/// Whether each step is planned so.
fn are_planned(alloc: Global, one: &mut Core, other: &mut Core, ops: &[Op]) -> bool {
    for op in ops {
        if !call_is_planned(alloc, one, other, *op) {
            return false;
        }
    }
    true
}

/// Whether each step of that run is planned so, and all of them lead to what the run leads to.
fn run_is_planned(alloc: Global) -> Result<bool, Refusal> {
    let mut one = Core::new(alloc, 1, 100_000)?;
    let mut other = Core::new(alloc, 1, 100_000)?;
    Ok(are_planned(alloc, &mut one, &mut other, &OPS) && has_run(&one))
}

/// Subscriptions that have names: each kind is made, one is kept as it is, one replaced, and one deleted; others are refused,
/// and one ends with its last consumer.
static NAMED: [Op; 18] = [
    Op::OpenFor(1, "k"),
    Op::OpenFor(2, "l"),
    Op::Session((1, 1), Mode::Client),
    Op::Session((2, 1), Mode::Auto),
    Op::Named((1, 1), 1, Kind::Others, "n", None),
    Op::Named((1, 1), 2, Kind::Shared, "n", None),
    Op::Named((1, 1), 3, Kind::Shared, "n", None),
    Op::Named((2, 1), 4, Kind::SharedDurable, "n", None),
    Op::Named((2, 1), 5, Kind::Durable, "n", None),
    Op::Send(2, "a", None),
    Op::Start(1),
    Op::Receive((1, 1), 1),
    Op::CloseConsumer((1, 1), 1),
    Op::Unsubscribe((1, 1), "n"),
    Op::Acknowledge((1, 1)),
    Op::Named((1, 1), 4, Kind::SharedDurable, "m", None),
    Op::Unsubscribe((1, 1), "n"),
    Op::CloseConnection(1),
];

/// Whether each step of that run is planned so, and two durable subscriptions are left.
fn named_are_planned(alloc: Global) -> Result<bool, Refusal> {
    let mut one = Core::new(alloc, 1, 100_000)?;
    let mut other = Core::new(alloc, 1, 100_000)?;
    Ok(are_planned(alloc, &mut one, &mut other, &NAMED) && one.stations_len() == 2)
}

#[test]
fn plans_are_installed_or_let_go(rt: HostRuntime) {
    is_true(&rt, "each kind of call", run_is_planned(rt.alloc()));
    is_true(&rt, "names", named_are_planned(rt.alloc()));
}
