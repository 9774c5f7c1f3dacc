//! A keeper that fails at one write of a run: what each call is told, and how many changes are stored after all.

use crate::once::OnceKeep;
use crate::told::holds;
use jm_base::{Mode, Refusal};
use jm_core::{Answer, ClientCall, Core, Reply};
use jm_kept::run;
use std::alloc::Global;
use tests_calls::{Kind, Op, call, shown};

/// What a call is told.
#[derive(Clone, Copy)]
enum Told {
    /// It is accepted, and nothing comes.
    Done,
    /// So many were sent.
    Sent(u64),
    Nothing,
    /// The message with that identifier comes, as that text with its count.
    Message(&'static str, &'static str),
    Refused(Refusal),
}

/// A call, and what it is told.
type Row = (Op, Told);

/// How many changes are stored after all calls: a subscription, a message with its row, and both again, as they go.
const CHANGES: usize = 5;

/// A subscription comes, and the first publication fails, which leaves all as it was but for the number of the send.
static PUBLICATION: [Row; 10] = [
    (Op::OpenFor(1, "k"), Told::Done),
    (Op::Session((1, 1), Mode::Auto), Told::Done),
    (Op::Named((1, 1), 2, Kind::Durable, "n", None), Told::Done),
    (Op::Start(1), Told::Done),
    (Op::Open(2), Told::Done),
    (Op::Session((2, 1), Mode::Auto), Told::Done),
    (Op::Send(2, "a", None), Told::Refused(Refusal::Store)),
    (Op::Receive((1, 1), 2), Told::Nothing),
    (Op::Send(2, "a", None), Told::Sent(2)),
    (Op::Receive((1, 1), 2), Told::Message("ID:1-2.1.2", "a#1")),
];

/// A subscription comes, and the first commit fails, which leaves what was sent to the next.
static COMMIT: [Row; 10] = [
    (Op::OpenFor(1, "k"), Told::Done),
    (Op::Session((1, 1), Mode::Auto), Told::Done),
    (Op::Named((1, 1), 2, Kind::Durable, "n", None), Told::Done),
    (Op::Start(1), Told::Done),
    (Op::Open(2), Told::Done),
    (Op::Session((2, 1), Mode::Transacted), Told::Done),
    (Op::Send(2, "b", None), Told::Sent(1)),
    (Op::Commit((2, 1)), Told::Refused(Refusal::Store)),
    (Op::Commit((2, 1)), Told::Done),
    (Op::Receive((1, 1), 2), Told::Message("ID:1-2.1.1", "b#1")),
];

/// Whether the reply shows that text.
fn is_shown(alloc: Global, reply: &Reply, wanted: &str) -> bool {
    match shown(alloc, reply) {
        Ok(text) => text.as_str() == wanted,
        Err(_) => false,
    }
}

/// Whether a message with that identifier came.
fn has_come(reply: &Reply, id: &str) -> bool {
    match reply {
        Ok(Answer::Delivered(delivery)) => delivery.message.message_id().as_str() == id,
        _ => false,
    }
}

fn is_told(alloc: Global, reply: &Reply, told: Told) -> bool {
    match told {
        Told::Done => matches!(reply, Ok(Answer::Done)),
        Told::Sent(wanted) => matches!(reply, Ok(Answer::Sent(number)) if *number == wanted),
        Told::Nothing => matches!(reply, Ok(Answer::Nothing)),
        Told::Message(id, text) => has_come(reply, id) && is_shown(alloc, reply, text),
        Told::Refused(wanted) => matches!(reply, Err(refusal) if *refusal == wanted),
    }
}

/// The calls of the rows.
fn calls_of(alloc: Global, rows: &[Row]) -> Result<Vec<ClientCall>, Refusal> {
    let mut calls = Vec::new(alloc);
    for (op, _) in rows {
        let call = call(alloc, *op)?;
        if calls.push(call).is_err() {
            return Err(Refusal::Memory);
        }
    }
    Ok(calls)
}

/// Whether the calls were told what they should be, each in turn.
fn are_told(alloc: Global, replies: &[Reply], rows: &[Row]) -> bool {
    let mut replies = replies.iter();
    for (_, told) in rows {
        let is_told = match replies.next() {
            Some(reply) => is_told(alloc, reply, *told),
            None => false,
        };
        if !is_told {
            return false;
        }
    }
    true
}

/// Whether all calls, run on that core, are told what they should be.
fn are_answered(alloc: Global, core: &mut Core, keeper: &mut OnceKeep, rows: &[Row]) -> bool {
    match calls_of(alloc, rows) {
        Ok(calls) => match run(alloc, core, keeper, calls) {
            Ok(replies) => are_told(alloc, &replies, rows),
            Err(_) => false,
        },
        Err(_) => false,
    }
}

/// Whether, over a keeper that fails at its second write, all calls are told what they should be and store what they
/// should, and the keeper then has failed once.
fn are_answered_over(alloc: Global, core: &mut Core, rows: &[Row]) -> bool {
    let mut keeper = OnceKeep::new(alloc, 1);
    are_answered(alloc, core, &mut keeper, rows)
        && keeper.changes_len() == CHANGES
        && keeper.faults() == 1
}

/// The same of a new core.
fn fails_second(alloc: Global, rows: &[Row]) -> bool {
    match Core::new(alloc, 1, 100_000) {
        Ok(mut core) => are_answered_over(alloc, &mut core, rows),
        Err(_) => false,
    }
}

#[test]
fn publication_that_is_not_stored_leaves_all_but_the_number_of_the_send(rt: HostRuntime) {
    let is_answered = fails_second(rt.alloc(), &PUBLICATION);
    holds(&rt, "a send after the keeper's fault", is_answered);
}

#[test]
fn commit_that_is_not_stored_leaves_what_was_sent(rt: HostRuntime) {
    let is_answered = fails_second(rt.alloc(), &COMMIT);
    holds(&rt, "a commit after the keeper's fault", is_answered);
}
