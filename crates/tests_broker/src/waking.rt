//! Which calls wake those that wait for a message: of those that are accepted some, of those that are refused none.

use crate::steps::holds;
use jm_base::{List, Mode, Refusal};
use jm_machine::{Answer, Call, ClientCall, Reply};
use std::alloc::Global;
use tests_calls::{Op, call};

const S: (u32, u32) = (1, 1);

/// What brings messages, lets deliveries begin, or ends a consumer; and what does not.
static ROWS: [(Op, bool); 20] = [
    (Op::Send(1, "m", None), true),
    (Op::Commit(S), true),
    (Op::Start(1), true),
    (Op::Recover(S), true),
    (Op::Rollback(S), true),
    (Op::Done(S, 1, true), true),
    (Op::Done(S, 1, false), true),
    (Op::CloseConnection(1), true),
    (Op::CloseSession(S), true),
    (Op::CloseConsumer(S, 1), true),
    (Op::Open(1), false),
    (Op::Stop(1), false),
    (Op::Session(S, Mode::Auto), false),
    (Op::Consumer(S, 1, None), false),
    (Op::Unsubscribe(S, "name"), false),
    (Op::Receive(S, 1), false),
    (Op::Acknowledge(S), false),
    (Op::Missed(S, 1), false),
    (Op::Listener(S, 1, true), false),
    (Op::Take(S, 1), false),
];

/// Whether the call, answered so, wakes those that wait.
fn wakes(heap: Global, op: Op, reply: &Reply) -> Result<bool, Refusal> {
    let call = match call(heap, op)? {
        ClientCall::Ask { who: _, request } => Call::Ask(request),
        ClientCall::Send { .. } => Call::Publish(List::new(Vec::new(heap))),
        ClientCall::CommitSession(_) => Call::Commit(List::new(Vec::new(heap))),
    };
    Ok(call.wakes(reply))
}

fn wakes_as(heap: Global, op: Op, reply: &Reply, wanted: bool) -> bool {
    match wakes(heap, op, reply) {
        Ok(told) => told == wanted,
        Err(_) => false,
    }
}

#[test]
fn what_may_bring_a_message_wakes(rt: HostRuntime) {
    for row in &ROWS {
        let is_so = wakes_as(rt.alloc(), row.0, &Ok(Answer::Done), row.1);
        holds(&rt, "a call that wakes", is_so);
    }
}

#[test]
fn what_is_refused_wakes_nobody(rt: HostRuntime) {
    for row in &ROWS {
        let is_so = wakes_as(rt.alloc(), row.0, &Err(Refusal::Memory), false);
        holds(&rt, "a refused call", is_so);
    }
}
