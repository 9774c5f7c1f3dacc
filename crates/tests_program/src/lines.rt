//! The lines of replies.

use crate::told::is_text;
use jm_base::{Cause, Refusal};
use jm_machine::Answer;
use jm_scenario::{ItemKind, replies_in_place, write_replies, write_reply};
use std::alloc::{AllocError, Global};

const SELECTOR: Refusal = Refusal::InvalidSelector {
    at: 4,
    cause: Cause::Expected,
};

/// Numbers of calls, refusals of them, and the lines.
static REFUSALS: [(usize, Refusal, &str); 7] = [
    (4, Refusal::IllegalState, "4 refused IllegalState\n"),
    (50, SELECTOR, "50 refused InvalidSelector Expected 4\n"),
    (3, Refusal::InvalidClientId, "3 refused InvalidClientId\n"),
    (6, Refusal::Memory, "6 refused Memory\n"),
    (7, Refusal::Store, "7 refused Store\n"),
    (
        8,
        Refusal::InvalidDestination,
        "8 refused InvalidDestination\n",
    ),
    (
        9,
        Refusal::SubscriptionInUse,
        "9 refused SubscriptionInUse\n",
    ),
];

fn line_of_refusal(alloc: Global, number: usize, refusal: Refusal) -> Result<String, AllocError> {
    write_reply(alloc, number, &Err(refusal))
}

#[test]
fn lines_of_refusals(rt: HostRuntime) {
    for (number, refusal, wanted) in &REFUSALS {
        is_text(&rt, wanted, line_of_refusal(rt.alloc(), *number, *refusal));
    }
}

/// The lines of an answer of each kind but a delivery.
fn lines_of_answers(alloc: Global) -> Result<String, AllocError> {
    let replies = [
        Ok(Answer::Done),
        Ok(Answer::Nothing),
        Ok(Answer::Sent(9223372036854775807)),
        Ok(Answer::Missed(0)),
        Ok(Answer::Missed(18446744073709551615)),
    ];
    write_replies(alloc, &replies)
}

#[test]
fn lines_are_numbered(rt: HostRuntime) {
    let wanted =
        "1 ok\n2 none\n3 sent 9223372036854775807\n4 missed 0\n5 missed 18446744073709551615\n";
    is_text(&rt, wanted, lines_of_answers(rt.alloc()));
}

/// The lines of two forks and a join with two calls between them, of which the second has no reply.
fn lines_of_items(alloc: Global) -> Result<String, AllocError> {
    let mut replies = Vec::new(alloc);
    replies.push(Ok(Answer::Sent(1)))?;
    let replies = replies_in_place(alloc, &KINDS, replies)?;
    write_replies(alloc, &replies)
}

static KINDS: [ItemKind; 5] = [
    ItemKind::Fork,
    ItemKind::Call,
    ItemKind::Join,
    ItemKind::Fork,
    ItemKind::Call,
];

#[test]
fn forks_and_joins_are_answered_done(rt: HostRuntime) {
    is_text(
        &rt,
        "1 ok\n2 sent 1\n3 ok\n4 ok\n",
        lines_of_items(rt.alloc()),
    );
}
