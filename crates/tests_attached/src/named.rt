//! Subscriptions that have names: whether each may be had, is deleted, and what it leaves.

use crate::counts::join;
use crate::keys::{Closing, Of, key, meant};
use crate::told::holds_at;
use jm_base::{Cause, Refusal, Str};
use jm_dest::{Key, Name};
use jm_machine::{Attached, Definition};
use jm_sub::{Sharing, Subs};
use std::alloc::Global;
use tests_calls::selector;

/// What is asked for: a topic, a selector, whether of others' messages alone, and how it is shared.
type Asked = (&'static str, Option<&'static str>, bool, Sharing);

/// What is told of it.
#[derive(Clone, Copy, PartialEq)]
enum Told {
    /// What is held stands as it is.
    Same,
    /// A new subscription is to be made, of what is asked for.
    New,
    /// The same, of something else.
    Other,
    Refused(Refusal),
}

/// Whether no consumer is active, and no row is out.
type Quiet = (bool, bool);

const QUIET: Quiet = (true, true);

const ACTIVE: Quiet = (false, true);

const OUT: Quiet = (true, false);

const BUSY: Quiet = (false, false);

fn of(sharing: Sharing) -> Of {
    match sharing {
        Sharing::Shared => Of::Shared,
        Sharing::Unshared | Sharing::SharedDurable => Of::Durable,
    }
}

/// Whether the definition has that topic and those marks.
fn asks(definition: &Definition, asked: Asked) -> bool {
    let (topic, _, no_local, sharing) = asked;
    definition.topic.as_str() == topic
        && definition.no_local == no_local
        && definition.shared == sharing.is_shared()
}

/// Decides what is asked for, under the key, and makes it.
fn decide(
    subs: &mut Subs,
    key: Key,
    topic: &Name,
    selector: &Option<Str>,
    asked: Asked,
    quiet: Quiet,
) -> Told {
    let (_, _, no_local, sharing) = asked;
    let (is_idle, is_home) = quiet;
    match subs.decide_named(key, topic, selector, no_local, sharing, is_idle, is_home) {
        Ok(None) => Told::Same,
        Ok(Some(decision)) => {
            let is_asked = asks(decision.definition(), asked);
            subs.apply(decision);
            if is_asked { Told::New } else { Told::Other }
        }
        Err(refusal) => Told::Refused(refusal),
    }
}

fn ask_under(
    alloc: Global,
    subs: &mut Subs,
    topic: &Name,
    asked: Asked,
    quiet: Quiet,
) -> Result<Told, Refusal> {
    let selector = selector(alloc, asked.1)?;
    let key = key(alloc, of(asked.3))?;
    Ok(decide(subs, key, topic, &selector, asked, quiet))
}

/// What is told of that.
fn ask(alloc: Global, subs: &mut Subs, asked: Asked, quiet: Quiet) -> Result<Told, Refusal> {
    let topic = Name::new(alloc, asked.0)?;
    ask_under(alloc, subs, &topic, asked, quiet)
}

/// What is told of that, where the other is held, or nothing.
fn told_of(
    alloc: Global,
    held: Option<Asked>,
    asked: Asked,
    quiet: Quiet,
) -> Result<Told, Refusal> {
    let mut subs = Subs::new(alloc);
    if let Some(held) = held {
        let _ = ask(alloc, &mut subs, held, QUIET);
    }
    ask(alloc, &mut subs, asked, quiet)
}

const T: Asked = ("t", None, false, Sharing::Unshared);

const BLANK: Asked = ("t", Some(" "), false, Sharing::Unshared);

const OTHERS: Asked = ("t", None, true, Sharing::Unshared);

const U: Asked = ("u", None, false, Sharing::Unshared);

const X: Asked = ("t", Some("x > 0"), false, Sharing::Unshared);

const BAD: Asked = ("t", Some("x = "), false, Sharing::Unshared);

const T_SHARED: Asked = ("t", None, false, Sharing::SharedDurable);

const X_SHARED: Asked = ("t", Some("x > 0"), false, Sharing::SharedDurable);

const T_LIVE: Asked = ("t", None, false, Sharing::Shared);

const X_LIVE: Asked = ("t", Some("x > 0"), false, Sharing::Shared);

const BAD_LIVE: Asked = ("t", Some("x = "), false, Sharing::Shared);

const IN_USE: Told = Told::Refused(Refusal::SubscriptionInUse);

const BAD_SELECTOR: Told = Told::Refused(Refusal::InvalidSelector {
    at: 4,
    cause: Cause::Expected,
});

/// What is held, what is asked for, whether it is quiet, and what is told.
type Row = (Option<Asked>, Asked, Quiet, Told);

static ROWS: [Row; 28] = [
    (None, T, QUIET, Told::New),
    (Some(T), T, QUIET, Told::Same),
    (Some(T), BLANK, QUIET, Told::Same),
    (Some(T), T, OUT, Told::Same),
    (Some(T), T, ACTIVE, IN_USE),
    (Some(T), U, QUIET, Told::New),
    (Some(T), X, QUIET, Told::New),
    (Some(T), OTHERS, QUIET, Told::New),
    (Some(X), X, OUT, Told::Same),
    (Some(T), U, OUT, IN_USE),
    (Some(T), X, OUT, IN_USE),
    (Some(T), OTHERS, OUT, IN_USE),
    (Some(T), U, ACTIVE, IN_USE),
    (Some(T_SHARED), T, QUIET, IN_USE),
    (Some(T_SHARED), BAD, QUIET, BAD_SELECTOR),
    (None, T_SHARED, QUIET, Told::New),
    (Some(T_SHARED), T_SHARED, BUSY, Told::Same),
    (Some(T_SHARED), X_SHARED, QUIET, Told::New),
    (Some(T_SHARED), X_SHARED, ACTIVE, IN_USE),
    (Some(T_SHARED), X_SHARED, OUT, IN_USE),
    (Some(T), T_SHARED, QUIET, IN_USE),
    (None, T_LIVE, QUIET, Told::New),
    (Some(T_LIVE), T_LIVE, BUSY, Told::Same),
    (Some(T_LIVE), X_LIVE, QUIET, IN_USE),
    (Some(T_LIVE), X_LIVE, BUSY, IN_USE),
    (Some(T), X_LIVE, BUSY, Told::New),
    (Some(X_LIVE), T_SHARED, QUIET, Told::New),
    (Some(T_LIVE), BAD_LIVE, BUSY, BAD_SELECTOR),
];

#[test]
fn subscriptions_that_may_be_had(rt: HostRuntime) {
    for (number, (held, asked, quiet, wanted)) in ROWS.iter().enumerate() {
        let told = told_of(rt.alloc(), *held, *asked, *quiet);
        holds_at(&rt, number, told == Ok(*wanted));
    }
}

/// How a subscription is shared, and whether it may have more than one active consumer.
static SHARINGS: [(Sharing, bool); 3] = [
    (Sharing::Unshared, false),
    (Sharing::SharedDurable, true),
    (Sharing::Shared, true),
];

#[test]
fn subscriptions_are_shared_or_not(rt: HostRuntime) {
    for (number, (sharing, wanted)) in SHARINGS.iter().enumerate() {
        holds_at(&rt, number, sharing.is_shared() == *wanted);
    }
}

/// Deletes the subscription of the key, where that may be.
fn end(subs: &mut Subs, key: &Key, quiet: Quiet) -> Result<(), Refusal> {
    let told = subs.decide_unsubscribe(key, quiet.0, quiet.1);
    if told.is_ok() {
        subs.delete(key);
    }
    told
}

/// What is told of the end of the durable subscription, where that one is held, or nothing, and how many are left.
fn ended(alloc: Global, held: Option<Asked>, quiet: Quiet) -> (Result<(), Refusal>, usize) {
    let mut subs = Subs::new(alloc);
    if let Some(held) = held {
        let _ = ask(alloc, &mut subs, held, QUIET);
    }
    match key(alloc, Of::Durable) {
        Ok(key) => (end(&mut subs, &key, quiet), subs.len()),
        Err(refusal) => (Err(refusal), subs.len()),
    }
}

const UNKNOWN: Result<(), Refusal> = Err(Refusal::InvalidDestination);

const USED: Result<(), Refusal> = Err(Refusal::SubscriptionInUse);

/// What is held, whether it is quiet, what is told of the end of the durable subscription, and how many are left.
static ENDS: [(Option<Asked>, Quiet, Result<(), Refusal>, usize); 8] = [
    (None, QUIET, UNKNOWN, 0),
    (None, BUSY, UNKNOWN, 0),
    (Some(T_LIVE), QUIET, UNKNOWN, 1),
    (Some(T), QUIET, Ok(()), 0),
    (Some(T), ACTIVE, USED, 1),
    (Some(T), OUT, USED, 1),
    (Some(T_SHARED), QUIET, Ok(()), 0),
    (Some(T_SHARED), BUSY, USED, 1),
];

#[test]
fn durable_subscriptions_end(rt: HostRuntime) {
    for (number, (held, quiet, told, left)) in ENDS.iter().enumerate() {
        let is_told = ended(rt.alloc(), *held, *quiet) == (*told, *left);
        holds_at(&rt, number, is_told);
    }
}

/// What happens to a consumer's own subscription of t, a shared one of t, and a durable one of u.
#[derive(Clone, Copy)]
enum Change {
    Delete(Of),
    /// Those consumers close, and it is said whether the shared one has an active consumer left.
    Close(Closing, bool),
}

/// Makes the subscription of consumer 1 of session 1.1.
fn own(alloc: Global, subs: &mut Subs) -> Result<(), Refusal> {
    let topic = Name::new(alloc, "t")?;
    let decision = subs.decide_create(key(alloc, Of::Own(1))?, &topic, &None, false)?;
    subs.apply(decision);
    Ok(())
}

/// The three subscriptions; a want of memory is seen by what is missing.
fn three(alloc: Global) -> Subs {
    let mut subs = Subs::new(alloc);
    let _ = own(alloc, &mut subs);
    let _ = ask(alloc, &mut subs, T_LIVE, QUIET);
    let _ = ask(alloc, &mut subs, U, QUIET);
    subs
}

fn delete(subs: &mut Subs, key: Result<Key, Refusal>) {
    if let Ok(key) = key {
        subs.delete(&key);
    }
}

/// The numbers where the shared subscription has an active consumer, or none has any.
fn attached(alloc: Global, is_active: bool) -> Attached {
    let mut attached = Attached::new(alloc);
    if is_active && let Ok(key) = key(alloc, Of::Shared) {
        let _ = join(&mut attached, key);
    }
    attached
}

fn close(alloc: Global, subs: &mut Subs, closing: Closing, is_active: bool) {
    if let Ok(consumers) = meant(closing) {
        subs.close(&consumers, &attached(alloc, is_active));
    }
}

fn make(alloc: Global, subs: &mut Subs, change: Change) {
    match change {
        Change::Delete(of) => delete(subs, key(alloc, of)),
        Change::Close(closing, is_active) => close(alloc, subs, closing, is_active),
    }
}

/// Whether the subscription of the key is there, and may have more than one active consumer where it is the shared one alone.
fn stands(alloc: Global, subs: &Subs, of: Of) -> bool {
    match key(alloc, of) {
        Ok(key) => matches!(subs.definition_of(&key), Some(it) if it.shared == (of == Of::Shared)),
        Err(_) => false,
    }
}

/// Which of the three are left, and the number of topics.
fn left(alloc: Global, change: Change) -> ([bool; 3], usize) {
    let mut subs = three(alloc);
    make(alloc, &mut subs, change);
    let own = stands(alloc, &subs, Of::Own(1));
    let shared = stands(alloc, &subs, Of::Shared);
    let durable = stands(alloc, &subs, Of::Durable);
    ([own, shared, durable], subs.topics())
}

/// Changes, which of the own, the shared and the durable each leaves, and the number of topics.
static LEFT: [(Change, [bool; 3], usize); 9] = [
    (Change::Delete(Of::Own(1)), [false, true, true], 2),
    (Change::Delete(Of::Shared), [true, false, true], 2),
    (Change::Delete(Of::Durable), [true, true, false], 1),
    (Change::Delete(Of::Queue), [true, true, true], 2),
    (
        Change::Close(Closing::One(1, 1), true),
        [false, true, true],
        2,
    ),
    (
        Change::Close(Closing::One(1, 1), false),
        [false, false, true],
        1,
    ),
    (
        Change::Close(Closing::One(1, 2), false),
        [true, false, true],
        2,
    ),
    (
        Change::Close(Closing::OfSession(2), true),
        [true, true, true],
        2,
    ),
    (
        Change::Close(Closing::OfConnection(1), true),
        [false, true, true],
        2,
    ),
];

#[test]
fn subscriptions_that_are_left(rt: HostRuntime) {
    for (number, (change, are_left, topics)) in LEFT.iter().enumerate() {
        let is_left = left(rt.alloc(), *change) == (*are_left, *topics);
        holds_at(&rt, number, is_left);
    }
}
