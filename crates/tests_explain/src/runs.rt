//! Calls on a core, each with the cause that is told before it is made.

use jm_base::{List, Refusal};
use jm_core::{Answer, Call, ClientCall, Core, Step, Who};
use jm_explain::{Why, why};
use std::alloc::Global;
use tests_calls::{Op, call};

/// A call, and why it is refused.
pub(crate) type Row = (Op, Option<Why>);

/// Whether the reply is refused as the cause says; where there is none, not as `IllegalState` or `SubscriptionInUse`.
fn is_explained(reply: &Result<Answer, Refusal>, cause: Option<Why>) -> bool {
    match cause {
        Some(cause) => matches!(reply, Err(refusal) if *refusal == cause.refusal()),
        None => !matches!(
            reply,
            Err(Refusal::IllegalState | Refusal::SubscriptionInUse)
        ),
    }
}

/// Whether that cause is told of the step, and explains the reply.
pub(crate) fn is_told(alloc: Global, core: &mut Core, step: &Step, cause: Option<Why>) -> bool {
    match why(alloc, core, step) {
        Ok(told) => told == cause && is_explained(&core.step(step), cause),
        Err(_) => false,
    }
}

/// Makes the call of a run of its own; whether it was made.
fn is_made(alloc: Global, core: &mut Core, call: ClientCall) -> bool {
    let mut calls = Vec::new(alloc);
    calls.push(call).is_ok() && core.run(calls).is_ok()
}

/// Whether the cause of the row is told of its call.
fn is_right(alloc: Global, core: &mut Core, (op, cause): Row) -> bool {
    match call(alloc, op) {
        Ok(ClientCall::Ask { who, request }) => {
            let step = Step {
                who,
                call: Call::Ask(request),
            };
            is_told(alloc, core, &step, cause)
        }
        Ok(ClientCall::CommitSession(session)) => {
            let step = Step {
                who: Who::Session(session),
                call: Call::Commit(List::new(Vec::new(alloc))),
            };
            is_told(alloc, core, &step, cause)
        }
        Ok(send) => is_made(alloc, core, send),
        Err(_) => false,
    }
}

/// How many rows are told what they should be, up to the first that is not.
pub(crate) fn right_on(alloc: Global, core: &mut Core, rows: &[Row]) -> usize {
    let mut right: usize = 0;
    for row in rows {
        if !is_right(alloc, core, *row) {
            return right;
        }
        right = right.saturating_add(1);
    }
    right
}

/// The same on a new core.
pub(crate) fn right_rows(alloc: Global, rows: &[Row]) -> usize {
    match Core::new(alloc, 1, 100_000) {
        Ok(mut core) => right_on(alloc, &mut core, rows),
        Err(_) => 0,
    }
}
