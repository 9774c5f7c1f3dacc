//! What one subscription answers alone, over records of runs, also over such as no run gives.

use crate::ops::OPS;
use crate::runs::run;
use crate::told::{holds, is_text, is_told};
use jm_base::{Mode, Refusal};
use jm_core::Core;
use jm_dest::{ConsumerId, Key, Name, Number};
use jm_machine::{Answer, Entry, Event, Reply, copy_reply};
use jm_model::{
    LoneFault, entries, expand, law_isolation, law_isolation_of_events, law_one_consumer,
    law_one_place, law_queue, law_reached, law_runs_fit, law_subscription, law_two_worlds,
    lone_replies,
};
use std::alloc::{AllocError, Global};
use tests_calls::{At, Op, calls, commit, publication, session, shown};

/// Two connections with a session each, a consumer in the first, and a message that it receives.
static FIRST_MESSAGE: [Op; 9] = [
    Op::Open(1),
    Op::Open(2),
    Op::Session((1, 1), Mode::Auto),
    Op::Session((2, 1), Mode::Auto),
    Op::Consumer((1, 1), 1, None),
    Op::Start(1),
    Op::Send(2, "a", None),
    Op::Receive((1, 1), 1),
    Op::Receive((1, 1), 1),
];

/// The key of that consumer of session 1.1; of consumer 0, the key of a queue.
fn key(alloc: Global, consumer: u32) -> Result<Key, Refusal> {
    match consumer {
        0 => Ok(Key::Queue(Name::new(alloc, "t")?)),
        _ => Ok(Key::Own(session(1)?, ConsumerId::new(consumer)?)),
    }
}

fn placed_shown(alloc: Global, replies: &[(usize, Reply)]) -> Result<String, AllocError> {
    let mut text = String::new(alloc);
    for (place, reply) in replies {
        let reply = shown(alloc, reply)?;
        text.push_str(format!(in alloc; "{place} {reply}, ")?.as_str())?;
    }
    Ok(text)
}

/// Puts a refusal in place of the replies at these places.
fn spoil(replies: &mut [Reply], places: &[usize], refusal: Refusal) {
    for place in places {
        if let Some(reply) = replies.get_mut(*place) {
            *reply = Err(refusal);
        }
    }
}

/// The replies of a run but at these places, where that refusal stands.
fn spoiled(
    alloc: Global,
    core: &mut Core,
    ops: &[Op],
    places: &[usize],
    refusal: Refusal,
) -> Result<Vec<Reply>, Refusal> {
    let mut replies = run(alloc, core, ops)?;
    spoil(&mut replies, places, refusal);
    Ok(replies)
}

fn record_of(
    alloc: Global,
    opening: Number,
    ops: &[Op],
    replies: &[Reply],
) -> Result<Vec<Entry>, Refusal> {
    let calls = calls(alloc, ops)?;
    match entries(alloc, opening, &calls, replies) {
        Ok(record) => Ok(record),
        Err(_) => Err(Refusal::Memory),
    }
}

/// The record of the calls, with these replies.
fn record(
    alloc: Global,
    ops: &[Op],
    places: &[usize],
    refusal: Refusal,
) -> Result<Vec<Entry>, Refusal> {
    let mut core = Core::new(alloc, 1, 100_000)?;
    match spoiled(alloc, &mut core, ops, places, refusal) {
        Ok(replies) => record_of(alloc, core.opening(), ops, &replies),
        Err(refusal) => Err(refusal),
    }
}

/// What the key's subscription answers alone over the record from that opening, each reply after its place.
fn alone_from(
    alloc: Global,
    opening: &Core,
    record: &[Entry],
    key: &Key,
) -> Result<String, Refusal> {
    match lone_replies(alloc, opening, record, key) {
        Ok(replies) => Ok(placed_shown(alloc, &replies)?),
        Err(LoneFault::NotUnshared) => Ok(String::from_str(alloc, "not unshared")?),
        Err(LoneFault::Memory) => Err(Refusal::Memory),
    }
}

/// The same from a new core.
fn alone(alloc: Global, record: &[Entry], key: &Key) -> Result<String, Refusal> {
    let opening = Core::new(alloc, 1, 100_000)?;
    alone_from(alloc, &opening, record, key)
}

/// What the subscription of that consumer answers alone in a run of the calls, where the replies at these places are wrong.
fn told(alloc: Global, ops: &[Op], places: &[usize], consumer: u32) -> Result<String, AllocError> {
    let Ok(key) = key(alloc, consumer) else {
        return Err(AllocError);
    };
    match record(alloc, ops, places, Refusal::IllegalState) {
        Ok(record) => match alone(alloc, &record, &key) {
            Ok(text) => Ok(text),
            Err(_) => Err(AllocError),
        },
        Err(_) => Err(AllocError),
    }
}

/// Consumers, and what their subscriptions answer alone; 0 stands for a queue, and 5 is the number of a queue's consumer.
static ALONE: [(u32, &str); 7] = [
    (0, "not unshared"),
    (1, "4 ok, 13 a#1, 17 missed 0, "),
    (2, "5 ok, "),
    (3, "6 InvalidSelector Expected 4, 16 IllegalState, "),
    (4, "7 ok, "),
    (5, "not unshared"),
    (6, ""),
];

#[test]
fn subscriptions_alone(rt: HostRuntime) {
    for (consumer, wanted) in &ALONE {
        is_text(&rt, wanted, told(rt.alloc(), &OPS, &[], *consumer));
    }
}

#[test]
fn wrong_replies_are_not_handed_back(rt: HostRuntime) {
    let told = told(rt.alloc(), &FIRST_MESSAGE, &[4, 7, 8], 1);
    is_text(&rt, "4 ok, 7 a#1, 8 none, ", told);
}

/// A message that comes again after its session recovered, and is acknowledged; then the session closes.
static REDELIVERED: [Op; 15] = [
    Op::Open(1),
    Op::Open(2),
    Op::Session((1, 1), Mode::Client),
    Op::Session((2, 1), Mode::Auto),
    Op::Consumer((1, 1), 1, None),
    Op::Start(1),
    Op::Send(2, "a", None),
    Op::Receive((1, 1), 1),
    Op::Recover((1, 1)),
    Op::Receive((1, 1), 1),
    Op::Acknowledge((1, 1)),
    Op::Recover((1, 1)),
    Op::Receive((1, 1), 1),
    Op::CloseSession((1, 1)),
    Op::Receive((1, 1), 1),
];

#[test]
fn what_comes_again_comes_again_alone(rt: HostRuntime) {
    let told = told(rt.alloc(), &REDELIVERED, &[], 1);
    is_text(&rt, "4 ok, 7 a#1, 9 a#2, 12 none, 14 IllegalState, ", told);
}

/// A message whose session recovers while its consumer is busy: it is not settled with the first delivery.
static LISTENERS: [Op; 17] = [
    Op::Open(1),
    Op::Open(2),
    Op::Session((1, 1), Mode::Auto),
    Op::Session((2, 1), Mode::Auto),
    Op::Consumer((1, 1), 1, None),
    Op::Start(1),
    Op::Send(2, "a", None),
    Op::Listener((1, 1), 1, true),
    Op::Receive((1, 1), 1),
    Op::Take((1, 1), 1),
    Op::CloseConsumer((1, 1), 1),
    Op::Recover((1, 1)),
    Op::Take((1, 1), 1),
    Op::Done((1, 1), 1, true),
    Op::Take((1, 1), 1),
    Op::Done((1, 1), 1, true),
    Op::Take((1, 1), 1),
];

/// What the subscription answers alone to those calls.
static LISTENED: &str =
    "4 ok, 7 ok, 8 IllegalState, 9 a#1, 10 IllegalState, 12 IllegalState, 13 ok, 14 a#2, 15 ok, 16 none, ";

#[test]
fn what_is_taken_is_taken_alone(rt: HostRuntime) {
    is_text(&rt, LISTENED, told(rt.alloc(), &LISTENERS, &[], 1));
}

#[test]
fn wrong_replies_to_listeners_are_not_handed_back(rt: HostRuntime) {
    let told = told(rt.alloc(), &LISTENERS, &[7, 9, 13, 14, 16], 1);
    is_text(&rt, LISTENED, told);
}

/// Two transacted sessions: a message comes with the commit of its session, comes again after a rollback, and is settled by a
/// commit; another is rolled back.
static TRANSACTED: [Op; 19] = [
    Op::Open(1),
    Op::Open(2),
    Op::Session((1, 1), Mode::Transacted),
    Op::Session((2, 1), Mode::Transacted),
    Op::Consumer((1, 1), 1, None),
    Op::Start(1),
    Op::Send(2, "a", None),
    Op::Receive((1, 1), 1),
    Op::Commit((2, 1)),
    Op::Receive((1, 1), 1),
    Op::Rollback((1, 1)),
    Op::Receive((1, 1), 1),
    Op::Commit((1, 1)),
    Op::Rollback((1, 1)),
    Op::Receive((1, 1), 1),
    Op::Send(2, "b", None),
    Op::Rollback((2, 1)),
    Op::Commit((2, 1)),
    Op::Receive((1, 1), 1),
];

#[test]
fn what_is_committed_comes_alone(rt: HostRuntime) {
    let told = told(rt.alloc(), &TRANSACTED, &[], 1);
    is_text(&rt, "4 ok, 7 none, 9 a#1, 11 a#2, 14 none, 18 none, ", told);
}

/// A consumer of others' messages, between messages of its own connection's two sessions and one of another.
static OTHERS: [Op; 13] = [
    Op::OpenFor(1, "c"),
    Op::Open(2),
    Op::Session((1, 1), Mode::Auto),
    Op::Session((1, 2), Mode::Auto),
    Op::Session((2, 1), Mode::Auto),
    Op::ConsumerAt((1, 2), 1, At::Topic("t"), None, true),
    Op::ConsumerAt((1, 1), 1, At::Topic("t"), None, true),
    Op::Start(1),
    Op::Send(1, "a", None),
    Op::Send(2, "b", None),
    Op::SendTo(2, At::Queue("t"), "c", None),
    Op::Receive((1, 1), 1),
    Op::Receive((1, 1), 1),
];

#[test]
fn others_messages_come_alone(rt: HostRuntime) {
    let told = told(rt.alloc(), &OTHERS, &[], 1);
    is_text(&rt, "6 ok, 11 b#1, 12 none, ", told);
}

/// Calls that name number 1 of session 1.1 for a queue too, refused or not.
static SHARED_NUMBERS: [[Op; 5]; 3] = [
    [
        Op::Open(1),
        Op::Session((1, 1), Mode::Auto),
        Op::Consumer((1, 1), 1, None),
        Op::ConsumerAt((1, 1), 1, At::Queue("q"), None, false),
        Op::Start(1),
    ],
    [
        Op::Open(1),
        Op::Session((1, 1), Mode::Auto),
        Op::ConsumerAt((1, 1), 1, At::Queue("q"), Some("x = "), false),
        Op::Consumer((1, 1), 1, None),
        Op::Start(1),
    ],
    [
        Op::Open(1),
        Op::ConsumerAt((1, 1), 1, At::Queue("q"), None, false),
        Op::Session((1, 1), Mode::Auto),
        Op::Consumer((1, 1), 1, None),
        Op::Start(1),
    ],
];

#[test]
fn a_number_that_a_queue_names_too_is_not_unshared(rt: HostRuntime) {
    for ops in &SHARED_NUMBERS {
        is_text(&rt, "not unshared", told(rt.alloc(), ops, &[], 1));
    }
}

/// Calls that name the number twice for consumers of topics, and a number of another session for a queue's.
static OWN_NUMBER: [Op; 7] = [
    Op::Open(1),
    Op::Session((1, 1), Mode::Auto),
    Op::Session((1, 2), Mode::Auto),
    Op::Consumer((1, 1), 1, None),
    Op::ConsumerAt((1, 1), 1, At::Topic("u"), None, true),
    Op::ConsumerAt((1, 2), 1, At::Queue("q"), None, false),
    Op::ConsumerAt((1, 1), 2, At::Queue("q"), None, false),
];

#[test]
fn a_number_that_topics_alone_name_is_unshared(rt: HostRuntime) {
    let told = told(rt.alloc(), &OWN_NUMBER, &[], 1);
    is_text(&rt, "3 ok, 4 IllegalState, ", told);
}

/// A connection that is opened again, once a message came.
static OPENED_TWICE: [Op; 9] = [
    Op::Open(1),
    Op::Open(2),
    Op::Session((1, 1), Mode::Auto),
    Op::Session((2, 1), Mode::Auto),
    Op::Consumer((1, 1), 1, None),
    Op::Start(1),
    Op::Send(2, "a", None),
    Op::Open(1),
    Op::Receive((1, 1), 1),
];

/// The record of those calls, in which the second opening was accepted.
fn opened_twice(alloc: Global) -> Result<Vec<Entry>, Refusal> {
    let mut core = Core::new(alloc, 1, 100_000)?;
    let mut replies = run(alloc, &mut core, &OPENED_TWICE)?;
    if let Some(reply) = replies.get_mut(7) {
        *reply = Ok(Answer::Done);
    }
    record_of(alloc, core.opening(), &OPENED_TWICE, &replies)
}

/// What the subscription answers alone over that record.
fn told_twice(alloc: Global) -> Result<String, Refusal> {
    let record = opened_twice(alloc)?;
    alone(alloc, &record, &key(alloc, 1)?)
}

#[test]
fn a_second_opening_is_not_seen(rt: HostRuntime) {
    is_told(&rt, "4 ok, 8 a#1, ", told_twice(rt.alloc()));
}

/// A consumer for which two messages wait.
static WAITING: [Op; 8] = [
    Op::Open(1),
    Op::Open(2),
    Op::Session((1, 1), Mode::Auto),
    Op::Session((2, 1), Mode::Auto),
    Op::Consumer((1, 1), 1, None),
    Op::Start(1),
    Op::Send(2, "a", None),
    Op::Send(2, "b", None),
];

/// What comes next.
static GOING_ON: [Op; 4] = [
    Op::Receive((1, 1), 1),
    Op::Send(2, "c", None),
    Op::Receive((1, 1), 1),
    Op::Receive((1, 1), 1),
];

/// The record of what comes next on that core.
fn going_on(alloc: Global, core: &mut Core) -> Result<Vec<Entry>, Refusal> {
    let replies = run(alloc, core, &GOING_ON)?;
    record_of(alloc, core.opening(), &GOING_ON, &replies)
}

/// What the subscription answers alone, where two messages wait in the opening.
fn told_from(alloc: Global, opening: &mut Core) -> Result<String, Refusal> {
    let _ = run(alloc, opening, &WAITING)?;
    let record = going_on(alloc, &mut opening.copy()?)?;
    alone_from(alloc, opening, &record, &key(alloc, 1)?)
}

fn told_waiting(alloc: Global) -> Result<String, Refusal> {
    let mut opening = Core::new(alloc, 1, 100_000)?;
    told_from(alloc, &mut opening)
}

#[test]
fn what_waits_in_the_opening_is_delivered(rt: HostRuntime) {
    is_told(&rt, "0 a#1, 2 b#1, 3 c#1, ", told_waiting(rt.alloc()));
}

static PLACES: [usize; 9] = [0, 1, 2, 3, 4, 5, 6, 7, 8];

/// How many entries the record has where each reply is that refusal.
fn count(alloc: Global, refusal: Refusal) -> Result<usize, Refusal> {
    Ok(record(alloc, &FIRST_MESSAGE, &PLACES, refusal)?.len())
}

#[test]
fn a_want_of_memory_leaves_no_entry(rt: HostRuntime) {
    holds(&rt, "Memory", count(rt.alloc(), Refusal::Memory) == Ok(0));
    holds(&rt, "Store", count(rt.alloc(), Refusal::Store) == Ok(0));
    holds(
        &rt,
        "IllegalState",
        count(rt.alloc(), Refusal::IllegalState) == Ok(8),
    );
}

/// A publication or a commit of so many messages, its reply, and how many entries it leaves.
const EVENTS: [(bool, u32, Reply, usize); 6] = [
    (false, 2, Ok(Answer::Done), 2),
    (false, 2, Err(Refusal::Exhausted), 0),
    (true, 0, Ok(Answer::Done), 1),
    (true, 2, Ok(Answer::Done), 3),
    (true, 2, Err(Refusal::Exhausted), 0),
    (true, 2, Err(Refusal::Memory), 0),
];

/// How many entries the event leaves.
fn expanded(
    alloc: Global,
    is_commit: bool,
    messages: u32,
    reply: &Reply,
) -> Result<usize, Refusal> {
    let step = match is_commit {
        true => commit(alloc, 1, messages)?,
        false => publication(alloc, 1, At::Topic("t"), None, messages)?,
    };
    let reply = copy_reply(reply)?;
    Ok(expand(alloc, &[Event { step, reply }])?.len())
}

#[test]
fn what_events_leave(rt: HostRuntime) {
    for (is_commit, messages, reply, wanted) in &EVENTS {
        let left = expanded(rt.alloc(), *is_commit, *messages, reply);
        holds(&rt, "an event", left == Ok(*wanted));
    }
}

#[test]
fn laws_are_stated() {
    law_isolation();
    law_isolation_of_events();
    law_two_worlds();
    law_reached();
    law_runs_fit();
    law_one_place();
    law_queue();
    law_one_consumer();
    law_subscription();
}
