//! Calls, steps, replies and what is held: a copy is the same, and what differs in a part is not.

use crate::ops::OPS;
use crate::runs::run;
use crate::told::holds;
use jm_base::Refusal;
use jm_core::{Consumer, Core, PlacedRow, Station};
use jm_dest::{Key, Name};
use jm_header::Message;
use jm_machine::{
    Answer, Call, ClientCall, Delivery, Reply, Request, Step, Who, copy_reply, same_reply,
};
use std::alloc::Global;
use tests_calls::{At, Kind, Op, call, commit, publication, sent};

fn copied(one: &ClientCall) -> Result<ClientCall, Refusal> {
    Ok(one.copy()?)
}

/// Whether a copy of the one call is the other.
fn copy_is(one: &ClientCall, other: &ClientCall) -> bool {
    match copied(one) {
        Ok(copy) => copy.is(other),
        Err(_) => false,
    }
}

fn copy_is_that(alloc: Global, one: &ClientCall, other: Op) -> bool {
    match call(alloc, other) {
        Ok(other) => copy_is(one, &other),
        Err(_) => false,
    }
}

fn is_call(alloc: Global, one: Op, other: Op) -> bool {
    match call(alloc, one) {
        Ok(one) => copy_is_that(alloc, &one, other),
        Err(_) => false,
    }
}

#[test]
fn calls_are_told_apart(rt: HostRuntime) {
    for (i, one) in OPS.iter().enumerate() {
        for (j, other) in OPS.iter().enumerate() {
            let told = is_call(rt.alloc(), *one, *other);
            holds(&rt, "calls", told == (i == j));
        }
    }
}

fn copied_step(alloc: Global, step: &Step) -> Result<Step, Refusal> {
    Ok(step.copy(alloc)?)
}

/// Whether a copy of the one step is the other.
fn copied_step_is(alloc: Global, one: &Step, other: &Step) -> bool {
    match copied_step(alloc, one) {
        Ok(copy) => copy.is(other),
        Err(_) => false,
    }
}

fn copied_request(request: &Request) -> Result<Request, Refusal> {
    Ok(request.copy()?)
}

/// Whether a copy of the step is the same.
fn step_is_copied(alloc: Global, who: Who, request: Request) -> bool {
    let call = Call::Ask(request);
    let step = Step { who, call };
    copied_step_is(alloc, &step, &step)
}

/// Whether the copy of the request is the same, and makes a step whose copy is the same.
fn is_that(alloc: Global, who: Who, copy: Request, request: &Request) -> bool {
    let is_same = copy.is(request);
    step_is_copied(alloc, who, copy) && is_same
}

/// Whether a copy of the request is the same, and makes a step whose copy is the same.
fn is_copied(alloc: Global, who: Who, request: &Request) -> bool {
    match copied_request(request) {
        Ok(copy) => is_that(alloc, who, copy, request),
        Err(_) => false,
    }
}

fn request_is_copied(alloc: Global, op: Op) -> bool {
    match call(alloc, op) {
        Ok(ClientCall::Ask { who, request }) => is_copied(alloc, who, &request),
        Ok(ClientCall::Send { .. } | ClientCall::CommitSession(_)) => true,
        Err(_) => false,
    }
}

/// Calls that differ in one thing each.
static LIKE: [Op; 25] = [
    Op::Open(1),
    Op::OpenFor(1, "c"),
    Op::OpenFor(1, "d"),
    Op::Consumer((1, 1), 1, None),
    Op::ConsumerAt((1, 1), 1, At::Topic("t"), None, true),
    Op::ConsumerAt((1, 1), 1, At::Topic("t"), Some("x > 0"), true),
    Op::ConsumerAt((1, 1), 1, At::Topic("u"), None, true),
    Op::ConsumerAt((1, 1), 1, At::Queue("t"), None, true),
    Op::ConsumerAt((1, 1), 1, At::Queue("t"), None, false),
    Op::Named((1, 1), 1, Kind::Durable, "n", None),
    Op::Named((1, 1), 1, Kind::Durable, "m", None),
    Op::Named((1, 1), 1, Kind::Durable, "n", Some("x > 0")),
    Op::NamedAt((1, 1), 1, Kind::Durable, At::Topic("u"), "n", None),
    Op::Named((1, 1), 1, Kind::Others, "n", None),
    Op::Named((1, 1), 1, Kind::Shared, "n", None),
    Op::Named((1, 1), 1, Kind::Shared, "m", None),
    Op::Named((1, 1), 2, Kind::Shared, "n", Some("x > 0")),
    Op::Named((1, 1), 1, Kind::SharedDurable, "n", None),
    Op::Named((1, 1), 1, Kind::SharedDurable, "m", None),
    Op::Named((1, 1), 2, Kind::SharedDurable, "n", Some("x > 0")),
    Op::Unsubscribe((1, 1), "n"),
    Op::Unsubscribe((1, 1), "m"),
    Op::Send(2, "a", None),
    Op::SendTo(2, At::Topic("u"), "a", None),
    Op::SendTo(2, At::Queue("t"), "a", None),
];

#[test]
fn like_calls_are_told_apart(rt: HostRuntime) {
    for (i, one) in LIKE.iter().enumerate() {
        for (j, other) in LIKE.iter().enumerate() {
            let told = is_call(rt.alloc(), *one, *other);
            holds(&rt, "like calls", told == (i == j));
        }
    }
}

#[test]
fn requests_are_copied(rt: HostRuntime) {
    for op in &OPS {
        holds(&rt, "a request", request_is_copied(rt.alloc(), *op));
    }
    for op in &LIKE {
        holds(&rt, "a like request", request_is_copied(rt.alloc(), *op));
    }
}

fn more(count: u32, is_one: bool) -> u32 {
    count.saturating_add(u32::from(is_one))
}

/// Whether a copy of the reply is that of the other.
fn copied_reply_is(reply: &Reply, other: &Reply) -> bool {
    match copy_reply(reply) {
        Ok(copy) => same_reply(&copy, other),
        Err(_) => false,
    }
}

/// How many replies have equal copies, and how many of these are done.
fn counts(replies: &[Reply]) -> (u32, u32) {
    let (mut equal, mut done) = (0, 0);
    for reply in replies {
        equal = more(equal, copied_reply_is(reply, reply));
        done = more(done, copied_reply_is(reply, &Ok(Answer::Done)));
    }
    (equal, done)
}

fn counts_of_a_run(alloc: Global, core: &mut Core) -> (u32, u32) {
    match run(alloc, core, &OPS) {
        Ok(replies) => counts(&replies),
        Err(_) => (0, 0),
    }
}

fn copied_replies(alloc: Global) -> (u32, u32) {
    match Core::new(alloc, 1, 100_000) {
        Ok(mut core) => counts_of_a_run(alloc, &mut core),
        Err(_) => (0, 0),
    }
}

#[test]
fn replies_are_copied(rt: HostRuntime) {
    let copied = copied_replies(rt.alloc());
    holds(&rt, "27 replies, 16 of them done", copied == (27, 16));
}

/// Publications and commits: how many messages each carries, and whether it is a commit.
static STEPS: [(u32, bool); 6] = [
    (0, false),
    (1, false),
    (2, false),
    (0, true),
    (1, true),
    (2, true),
];

fn step(alloc: Global, count: u32, is_commit: bool) -> Result<Step, Refusal> {
    match is_commit {
        true => commit(alloc, 1, count),
        false => publication(alloc, 1, At::Topic("t"), None, count),
    }
}

fn copy_is_step(alloc: Global, one: &Step, (count, is_commit): (u32, bool)) -> bool {
    match step(alloc, count, is_commit) {
        Ok(other) => copied_step_is(alloc, one, &other),
        Err(_) => false,
    }
}

/// Whether a copy of the one step is the other.
fn is_copy(alloc: Global, (count, is_commit): (u32, bool), other: (u32, bool)) -> bool {
    match step(alloc, count, is_commit) {
        Ok(one) => copy_is_step(alloc, &one, other),
        Err(_) => false,
    }
}

#[test]
fn publications_and_commits_are_told_apart(rt: HostRuntime) {
    for one in &STEPS {
        for other in &STEPS {
            let told = is_copy(rt.alloc(), *one, *other);
            holds(&rt, "steps", told == (one == other));
        }
    }
}

/// Whether a copy of the answer is the same.
fn answer_is_copied(answer: &Answer) -> bool {
    match answer.copy() {
        Ok(copy) => copy.is(answer),
        Err(_) => false,
    }
}

/// Whether a delivery of that count is a redelivery, where a copy of it is the same.
fn redelivered(message: Message, count: u32) -> Result<bool, Refusal> {
    let delivery = Delivery { message, count };
    let is_redelivered = delivery.redelivered();
    if answer_is_copied(&Answer::Delivered(delivery)) {
        Ok(is_redelivered)
    } else {
        Err(Refusal::Store)
    }
}

fn is_redelivery(alloc: Global, count: u32) -> Result<bool, Refusal> {
    match sent(alloc, 1, At::Topic("t"), None) {
        Ok(message) => redelivered(message, count),
        Err(refusal) => Err(refusal),
    }
}

#[test]
fn first_delivery_is_not_redelivered(rt: HostRuntime) {
    holds(&rt, "1", is_redelivery(rt.alloc(), 1) == Ok(false));
    holds(&rt, "2", is_redelivery(rt.alloc(), 2) == Ok(true));
    holds(
        &rt,
        "the last",
        is_redelivery(rt.alloc(), 2147483647) == Ok(true),
    );
}

fn copied_station(alloc: Global, station: &Station) -> Result<Station, Refusal> {
    Ok(station.copy(alloc)?)
}

fn station_is_copied(alloc: Global, station: &Station) -> bool {
    match copied_station(alloc, station) {
        Ok(copy) => copy == *station,
        Err(_) => false,
    }
}

fn row_is_copied(row: &PlacedRow) -> bool {
    match row.copy() {
        Ok(copy) => copy == *row,
        Err(_) => false,
    }
}

/// Whether the queue holds one row, a copy of which is the same.
fn held_by_queue(core: &Core, name: &Name) -> bool {
    match core.queue_rows(name) {
        Ok(rows) => rows.len() == 1 && rows.iter().all(row_is_copied),
        Err(_) => false,
    }
}

/// Whether a copy of what is held under the key is the same.
fn held_under(alloc: Global, core: &Core, key: &Key) -> bool {
    if let Key::Queue(name) = key {
        return held_by_queue(core, name);
    }
    match core.station(key) {
        Ok(Some(station)) => station_is_copied(alloc, &station),
        _ => false,
    }
}

fn consumer_is_copied(consumer: &Consumer) -> bool {
    match consumer.copy() {
        Ok(copy) => copy == *consumer,
        Err(_) => false,
    }
}

/// Whether copies of what the core holds are the same.
fn holds_copies(alloc: Global, core: &Core) -> bool {
    for consumer in core.consumers() {
        if !(held_under(alloc, core, &consumer.key) && consumer_is_copied(consumer)) {
            return false;
        }
    }
    true
}

fn held_is_copied(alloc: Global, core: &mut Core) -> bool {
    let _ = run(alloc, core, &OPS);
    core.stations_len() == 3 && holds_copies(alloc, core)
}

fn run_is_copied(alloc: Global) -> bool {
    match Core::new(alloc, 1, 100_000) {
        Ok(mut core) => held_is_copied(alloc, &mut core),
        Err(_) => false,
    }
}

#[test]
fn what_is_held_is_copied(rt: HostRuntime) {
    holds(&rt, "three stations and a queue", run_is_copied(rt.alloc()));
}
