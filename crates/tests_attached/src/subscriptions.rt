//! Subscriptions in order of creation: who accepts a message, and what a new one replaces.

use crate::keys::{Closing, meant};
use crate::told::{holds, holds_at};
use jm_base::{Cause, Refusal, Str};
use jm_dest::{ClientId, ConsumerId, Key, Name, SubscriptionName};
use jm_header::Message;
use jm_machine::Attached;
use jm_sub::Subs;
use std::alloc::{AllocError, Global};
use tests_calls::{At, selector, sent, session};

/// The key of that consumer of session 1.1.
fn key(consumer: u32) -> Result<Key, Refusal> {
    Ok(Key::Own(session(1)?, ConsumerId::new(consumer)?))
}

/// A subscription: its consumer, its topic, and its selector.
type Row = (u32, &'static str, Option<&'static str>);

/// Four subscriptions; those of 1 and 4 are equal but for the topic.
static FOUR: [Row; 4] = [
    (1, "t", Some("x > 0")),
    (3, "t", None),
    (2, "t", Some("NOT x > 0")),
    (4, "u", Some("x > 0")),
];

/// Makes the subscription of that consumer.
fn put(
    subs: &mut Subs,
    consumer: u32,
    topic: &Name,
    selector: &Option<Str>,
) -> Result<(), Refusal> {
    let decision = subs.decide_create(key(consumer)?, topic, selector, false)?;
    subs.apply(decision);
    Ok(())
}

/// The same with the text of a selector, or with none.
fn put_with(
    alloc: Global,
    subs: &mut Subs,
    consumer: u32,
    topic: &Name,
    text: Option<&str>,
) -> Result<(), Refusal> {
    let selector = selector(alloc, text)?;
    put(subs, consumer, topic, &selector)
}

fn create(alloc: Global, subs: &mut Subs, row: Row) -> Result<(), Refusal> {
    let (consumer, topic, text) = row;
    let topic = Name::new(alloc, topic)?;
    put_with(alloc, subs, consumer, &topic, text)
}

/// Four subscriptions; a want of memory is seen by what is missing.
fn four(alloc: Global) -> Subs {
    let mut subs = Subs::new(alloc);
    for row in &FOUR {
        let _ = create(alloc, &mut subs, *row);
    }
    subs
}

/// The numbers of the keys' consumers in order, 1 to 9, as the digits of one number.
fn consumers(keys: &[Key]) -> u32 {
    let mut digits: u32 = 0;
    for key in keys {
        if let Key::Own(_, consumer) = key {
            digits = digits.wrapping_mul(10).wrapping_add(consumer.get());
        }
    }
    digits
}

/// Whether the places of the subscriptions that accept the message are those of the keys.
fn stand_there(subs: &Subs, message: &Message, keys: &[Key]) -> bool {
    let Ok(places) = subs.accepting_places(message, None) else {
        return false;
    };
    for (key, place) in keys.iter().zip(&places) {
        if subs.position(key) != Some(*place) {
            return false;
        }
    }
    places.len() == keys.len()
}

/// The consumers whose subscriptions accept the message.
fn takers_of(subs: &Subs, message: &Message) -> Option<u32> {
    match subs.accepting(message, None) {
        Ok(keys) if stand_there(subs, message, &keys) => Some(consumers(&keys)),
        _ => None,
    }
}

/// The consumers whose subscriptions accept a message to there with that property x.
fn takers_at(alloc: Global, subs: &Subs, at: At, x: Option<i64>) -> Option<u32> {
    match sent(alloc, 1, at, x) {
        Ok(message) => takers_of(subs, &message),
        Err(_) => None,
    }
}

/// The same of the four subscriptions.
fn takers(alloc: Global, at: At, x: Option<i64>) -> Option<u32> {
    takers_at(alloc, &four(alloc), at, x)
}

/// Topics and properties of messages, and who accepts each.
static TAKERS: [(&str, Option<i64>, u32); 6] = [
    ("t", Some(1), 13),
    ("t", Some(0), 32),
    ("t", None, 3),
    ("u", Some(1), 4),
    ("u", None, 0),
    ("v", Some(1), 0),
];

#[test]
fn selectors_in_order(rt: HostRuntime) {
    for (topic, x, wanted) in &TAKERS {
        let told = takers(rt.alloc(), At::Topic(topic), *x);
        holds(&rt, topic, told == Some(*wanted));
    }
}

/// The refusal of the first subscription, of that selector, if it leaves none.
fn refusal(alloc: Global, selector: &'static str) -> Option<Refusal> {
    let mut subs = Subs::new(alloc);
    match create(alloc, &mut subs, (1, "t", Some(selector))) {
        Err(refusal) if subs.is_empty() => Some(refusal),
        _ => None,
    }
}

/// Selectors that are refused, where, and why.
static REFUSED: [(&str, usize, Cause); 2] = [
    ("x = ", 4, Cause::Expected),
    ("x = 7E3", 4, Cause::Floating),
];

#[test]
fn refused_selectors(rt: HostRuntime) {
    for (text, at, cause) in &REFUSED {
        let wanted = Refusal::InvalidSelector {
            at: *at,
            cause: *cause,
        };
        holds(&rt, text, refusal(rt.alloc(), text) == Some(wanted));
    }
}

/// Where the consumer's subscription stands, whether it has a selector, and whether it accepts the message.
fn found(subs: &Subs, consumer: u32, message: &Message) -> Option<(usize, bool, bool)> {
    let at = match key(consumer) {
        Ok(key) => subs.position(&key)?,
        Err(_) => return None,
    };
    if at >= subs.len() {
        return None;
    }
    let has_selector = !subs.definition_at(at).selector.is_none();
    Some((at, has_selector, subs.accepts_at(at, message, None)))
}

/// A copy of the four subscriptions, after the first was replaced; a want of memory is seen by what is missing.
fn replaced(alloc: Global) -> Result<Subs, AllocError> {
    let mut subs = four(alloc);
    let _ = create(alloc, &mut subs, (1, "u", Some(" ")));
    subs.copy()
}

/// Consumers, and where the subscription of each stands, whether it has a selector, and whether it accepts a message to u.
static FOUND: [(u32, Option<(usize, bool, bool)>); 4] = [
    (1, Some((3, false, true))),
    (3, Some((0, false, false))),
    (4, Some((2, true, false))),
    (5, None),
];

/// Whether each of these consumers' subscriptions is found so.
fn are_found(subs: &Subs, message: &Message) -> bool {
    for (consumer, wanted) in &FOUND {
        if found(subs, *consumer, message) != *wanted {
            return false;
        }
    }
    subs.len() == 4
}

#[test]
fn replaced_subscription(rt: HostRuntime) {
    let is_replaced = match (
        replaced(rt.alloc()),
        sent(rt.alloc(), 1, At::Topic("u"), None),
    ) {
        (Ok(subs), Ok(message)) => are_found(&subs, &message),
        _ => false,
    };
    holds(&rt, "four", is_replaced);
}

/// Where that consumer's subscription stands.
fn place(subs: &Subs, consumer: u32) -> Option<usize> {
    match key(consumer) {
        Ok(key) => subs.position(&key),
        Err(_) => None,
    }
}

/// Where the subscriptions of consumers 1 to 3 stand after that closing, and how many there are.
fn kept(alloc: Global, closing: Closing) -> Result<([Option<usize>; 3], usize), Refusal> {
    let consumers = meant(closing)?;
    let mut subs = four(alloc);
    subs.close(&consumers, &Attached::new(alloc));
    let places = [place(&subs, 1), place(&subs, 2), place(&subs, 3)];
    Ok((places, subs.len()))
}

/// Closings, and where the subscriptions of consumers 1 to 3 stand after each, and how many there are.
const KEPT: [(Closing, ([Option<usize>; 3], usize)); 6] = [
    (Closing::One(1, 3), ([Some(0), Some(1), None], 3)),
    (Closing::One(2, 3), ([Some(0), Some(2), Some(1)], 4)),
    (Closing::OfSession(1), ([None, None, None], 0)),
    (Closing::OfSession(2), ([Some(0), Some(2), Some(1)], 4)),
    (Closing::OfConnection(1), ([None, None, None], 0)),
    (Closing::OfConnection(2), ([Some(0), Some(2), Some(1)], 4)),
];

#[test]
fn closed_consumers(rt: HostRuntime) {
    for (closing, wanted) in &KEPT {
        holds(&rt, "a closing", kept(rt.alloc(), *closing) == Ok(*wanted));
    }
}

/// Subscriptions of three topics, by turns.
static TURNS: [Row; 6] = [
    (1, "a", None),
    (2, "b", None),
    (3, "a", None),
    (4, "c", None),
    (5, "b", None),
    (6, "a", None),
];

/// What happens to those.
#[derive(Clone, Copy)]
enum Change {
    Nothing,
    /// That consumer of session 1 of connection 1 closes.
    Close(u32),
    /// That consumer's subscription is made anew, to that topic.
    Create(u32, &'static str),
}

fn make_change(alloc: Global, subs: &mut Subs, change: Change) -> Result<(), Refusal> {
    match change {
        Change::Nothing => Ok(()),
        Change::Close(consumer) => {
            subs.close(&meant(Closing::One(1, consumer))?, &Attached::new(alloc));
            Ok(())
        }
        Change::Create(consumer, topic) => create(alloc, subs, (consumer, topic, None)),
    }
}

/// The subscriptions after that change; a want of memory is seen by what is missing.
fn changed(alloc: Global, it: Change) -> Subs {
    let mut subs = Subs::new(alloc);
    for row in &TURNS {
        let _ = create(alloc, &mut subs, *row);
    }
    let _ = make_change(alloc, &mut subs, it);
    subs
}

/// How many topics have subscriptions in a copy.
fn topics_of_copy(subs: &Subs) -> Option<usize> {
    match subs.copy() {
        Ok(copy) => Some(copy.topics()),
        Err(_) => None,
    }
}

/// How many topics have subscriptions after that change, also in a copy.
fn topics(alloc: Global, it: Change) -> (usize, Option<usize>) {
    let subs = changed(alloc, it);
    (subs.topics(), topics_of_copy(&subs))
}

/// The consumers whose subscriptions accept a message to each of a, b, c and d after that change.
fn takers_after(alloc: Global, it: Change) -> [Option<u32>; 4] {
    let subs = changed(alloc, it);
    let to = |topic| takers_at(alloc, &subs, At::Topic(topic), None);
    [to("a"), to("b"), to("c"), to("d")]
}

/// Changes, how many topics have subscriptions after each, and who accepts a message to each of a, b, c and d then.
static CHANGES: [(Change, usize, [u32; 4]); 8] = [
    (Change::Nothing, 3, [136, 25, 4, 0]),
    (Change::Close(1), 3, [36, 25, 4, 0]),
    (Change::Close(4), 2, [136, 25, 0, 0]),
    (Change::Close(7), 3, [136, 25, 4, 0]),
    (Change::Create(1, "a"), 3, [361, 25, 4, 0]),
    (Change::Create(4, "a"), 2, [1364, 25, 0, 0]),
    (Change::Create(3, "d"), 4, [16, 25, 4, 3]),
    (Change::Create(7, "b"), 3, [136, 257, 4, 0]),
];

#[test]
fn many_topics(rt: HostRuntime) {
    for (row, (it, number, takers)) in CHANGES.iter().enumerate() {
        let are_known = topics(rt.alloc(), *it) == (*number, Some(*number));
        holds_at(&rt, row, are_known);
        let told = takers_after(rt.alloc(), *it);
        holds_at(&rt, row, told == takers.map(|digits| Some(digits)));
    }
}

/// Changes in turn, how many topics have subscriptions after each, and who accepts a message to t then.
static IN_TURN: [(Change, usize, u32); 6] = [
    (Change::Create(1, "t"), 1, 1),
    (Change::Create(2, "u"), 2, 1),
    (Change::Create(3, "t"), 2, 13),
    (Change::Close(1), 2, 3),
    (Change::Close(3), 1, 0),
    (Change::Create(4, "t"), 2, 4),
];

/// Whether that is there after the change.
fn comes_out(alloc: Global, subs: &mut Subs, row: &(Change, usize, u32)) -> bool {
    let (it, number, takers) = *row;
    make_change(alloc, subs, it).is_ok()
        && topics_of_copy(subs) == Some(number)
        && subs.topics() == number
        && takers_at(alloc, subs, At::Topic("t"), None) == Some(takers)
}

/// The first change after which something else is there, or how many changes there are.
fn first_other(alloc: Global, subs: &mut Subs) -> usize {
    for (number, row) in IN_TURN.iter().enumerate() {
        if !comes_out(alloc, subs, row) {
            return number;
        }
    }
    IN_TURN.len()
}

#[test]
fn a_topic_that_comes_again(rt: HostRuntime) {
    let mut subs = Subs::new(rt.alloc());
    let first_other = first_other(rt.alloc(), &mut subs);
    holds_at(&rt, first_other, first_other == IN_TURN.len());
}

/// Whose subscription it is: that of a consumer of session 1 of that connection, or a name with that client or none.
#[derive(Clone, Copy)]
enum Owner {
    Consumer(u32),
    Named(Option<&'static str>),
}

fn client(alloc: Global, client: Option<&str>) -> Result<Option<ClientId>, Refusal> {
    match client {
        Some(client) => Ok(Some(ClientId::new(alloc, client)?)),
        None => Ok(None),
    }
}

fn key_of(alloc: Global, owner: Owner) -> Result<Key, Refusal> {
    match owner {
        Owner::Consumer(c) => Ok(Key::Own(session(c)?, ConsumerId::new(1)?)),
        Owner::Named(of) => {
            let name = SubscriptionName::new(alloc, "s")?;
            Ok(Key::Durable(client(alloc, of)?, name))
        }
    }
}

/// A subscription: whose it is, and whether it asks for no messages of local publishers; the client of the connection that
/// publishes, connection 2; and whether the subscription accepts the message.
type Local = (Owner, bool, Option<&'static str>, bool);

static LOCAL: [Local; 12] = [
    (Owner::Consumer(1), false, None, true),
    (Owner::Consumer(1), true, None, true),
    (Owner::Consumer(2), false, None, true),
    (Owner::Consumer(2), true, None, false),
    (Owner::Consumer(1), true, Some("c"), true),
    (Owner::Consumer(2), true, Some("c"), false),
    (Owner::Named(Some("c")), false, Some("c"), true),
    (Owner::Named(Some("c")), true, Some("c"), false),
    (Owner::Named(Some("c")), true, Some("d"), true),
    (Owner::Named(Some("c")), true, None, true),
    (Owner::Named(None), true, Some("c"), true),
    (Owner::Named(None), true, None, true),
];

/// Whether the one subscription accepts the message, as all ways to ask say.
fn says(subs: &Subs, message: &Message, publisher: Option<&ClientId>) -> Option<bool> {
    if subs.is_empty() {
        return None;
    }
    let accepts = subs.accepts_at(0, message, publisher);
    match subs.accepting(message, publisher) {
        Ok(keys) if keys.len() == usize::from(accepts) => Some(accepts),
        _ => None,
    }
}

/// The same, of a publisher on a connection for that client.
fn says_of(alloc: Global, subs: &Subs, message: &Message, publisher: Option<&str>) -> Option<bool> {
    match client(alloc, publisher) {
        Ok(publisher) => says(subs, message, publisher.as_ref()),
        Err(_) => None,
    }
}

fn create_under(subs: &mut Subs, key: Key, topic: &Name, no_local: bool) -> Result<(), Refusal> {
    let decision = subs.decide_create(key, topic, &None, no_local)?;
    subs.apply(decision);
    Ok(())
}

fn create_for(alloc: Global, subs: &mut Subs, owner: Owner, no_local: bool) -> Result<(), Refusal> {
    let topic = Name::new(alloc, "t")?;
    create_under(subs, key_of(alloc, owner)?, &topic, no_local)
}

/// The one subscription of the topic t; a want of memory is seen by what is missing.
fn one(alloc: Global, owner: Owner, no_local: bool) -> Subs {
    let mut subs = Subs::new(alloc);
    let _ = create_for(alloc, &mut subs, owner, no_local);
    subs
}

/// Whether the row's subscription accepts a message that connection 2 publishes.
fn accepted(alloc: Global, row: &Local) -> Option<bool> {
    let (owner, no_local, publisher, _) = *row;
    let subs = one(alloc, owner, no_local);
    match sent(alloc, 1, At::Topic("t"), None) {
        Ok(message) => says_of(alloc, &subs, &message, publisher),
        Err(_) => None,
    }
}

#[test]
fn local_publishers(rt: HostRuntime) {
    for (number, row) in LOCAL.iter().enumerate() {
        holds_at(&rt, number, accepted(rt.alloc(), row) == Some(row.3));
    }
}

#[test]
fn no_subscription_accepts_what_goes_to_a_queue(rt: HostRuntime) {
    let told = takers(rt.alloc(), At::Queue("t"), Some(1));
    holds(&rt, "the queue t", told == Some(0));
}

/// Subscriptions of several channels of two topics, in mixed order of creation: some ask for a literal, by `=` alone or in an
/// AND, and others ask for none.
static CHANNELS: [Row; 8] = [
    (1, "t", Some("x = 7")),
    (2, "t", None),
    (3, "t", Some("8 = x")),
    (4, "t", Some("x = 7 AND y IS NULL")),
    (5, "u", Some("x = 7")),
    (6, "t", Some("x > 6")),
    (7, "t", Some("x = 7 OR x = 8")),
    (8, "t", Some("x = 7")),
];

/// Those subscriptions; a want of memory is seen by what is missing.
fn of_channels(alloc: Global) -> Subs {
    let mut subs = Subs::new(alloc);
    for row in &CHANNELS {
        let _ = create(alloc, &mut subs, *row);
    }
    subs
}

/// Topics and properties of messages, and who accepts each.
static HEARD: [(&str, Option<i64>, u32); 6] = [
    ("t", Some(7), 124_678),
    ("t", Some(8), 2367),
    ("t", Some(9), 26),
    ("t", None, 2),
    ("u", Some(7), 5),
    ("u", Some(8), 0),
];

#[test]
fn takers_of_channels(rt: HostRuntime) {
    for (row, (topic, x, wanted)) in HEARD.iter().enumerate() {
        let told = takers_at(rt.alloc(), &of_channels(rt.alloc()), At::Topic(topic), *x);
        holds_at(&rt, row, told == Some(*wanted));
    }
}

/// What a consumer asks for in place of what it asked for, the property of a message to t, and who accepts it then.
static ASKED_AGAIN: [(Row, Option<i64>, u32); 5] = [
    ((4, "t", Some("x = 8")), Some(7), 12_678),
    ((4, "t", Some("x = 8")), Some(8), 23_674),
    ((1, "t", Some("x = 7")), Some(7), 246_781),
    ((2, "t", Some("x = 7")), Some(8), 367),
    ((1, "t", None), Some(7), 246_781),
];

/// Who accepts a message to t with that property, once that was asked for.
fn takers_once_asked(alloc: Global, row: Row, x: Option<i64>) -> Option<u32> {
    let mut subs = of_channels(alloc);
    let _ = create(alloc, &mut subs, row);
    takers_at(alloc, &subs, At::Topic("t"), x)
}

#[test]
fn channels_asked_again(rt: HostRuntime) {
    for (number, (row, x, wanted)) in ASKED_AGAIN.iter().enumerate() {
        let told = takers_once_asked(rt.alloc(), *row, *x);
        holds_at(&rt, number, told == Some(*wanted));
    }
}

/// The consumer that is closed, and who accepts a message to t whose property is 7 then.
static CLOSED: [(u32, u32); 4] = [(1, 24_678), (2, 14_678), (5, 124_678), (8, 12_467)];

/// Who accepts that message, once the consumer was closed.
fn takers_once_closed(alloc: Global, consumer: u32) -> Option<u32> {
    let mut subs = of_channels(alloc);
    let _ = make_change(alloc, &mut subs, Change::Close(consumer));
    takers_at(alloc, &subs, At::Topic("t"), Some(7))
}

#[test]
fn channels_closed(rt: HostRuntime) {
    for (row, (consumer, wanted)) in CLOSED.iter().enumerate() {
        let told = takers_once_closed(rt.alloc(), *consumer);
        holds_at(&rt, row, told == Some(*wanted));
    }
}
