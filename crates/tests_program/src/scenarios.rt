//! Scenarios and the calls that they spell.

use crate::told::{holds, is_text};
use jm_base::{Mode, Refusal, Str};
use jm_dest::{
    ClientId, ConnectionId, ConsumerId, Destination, Moment, SessionId, SubscriptionName,
};
use jm_header::Draft;
use jm_machine::{ClientCall, Request, Who};
use jm_scenario::{Field, Item, ItemKind, copy_calls, into_calls, item_kinds, read_scenario};
use std::alloc::{AllocError, Global};

const CALLS: &str = r#"{"calls": [
  {"op": "open", "c": 1},
  {"op": "open", "c": 1, "client": "k"},
  {"op": "start", "c": 4294967295},
  {"op": "stop", "c": 2},
  {"op": "close-connection", "c": 2},
  {"op": "session", "s": [1, 2], "mode": "auto"},
  {"op": "session", "s": [1, 2], "mode": "client"},
  {"op": "session", "s": [1, 2], "mode": "dups"},
  {"op": "session", "s": [1, 2], "mode": "transacted"},
  {"op": "close-session", "s": [1, 2]},
  {"op": "acknowledge", "s": [1, 2]},
  {"op": "recover", "s": [1, 2]},
  {"op": "commit", "s": [1, 2]},
  {"op": "rollback", "s": [1, 2]},
  {"op": "close-consumer", "s": [1, 2], "k": 3},
  {"op": "missed", "s": [1, 2], "k": 3},
  {"op": "consumer", "s": [1, 2], "k": 3, "topic": "t", "selector": "x > 0"},
  {"op": "consumer", "s": [1, 2], "k": 3, "topic": "t", "noLocal": true},
  {"op": "consumer", "s": [1, 2], "k": 3, "queue": "q", "selector": "x > 0", "noLocal": false},
  {"op": "receive", "s": [1, 2], "k": 3, "now": 9223372036854775807},
  {"op": "send", "s": [1, 2], "topic": "t", "now": 9223372036854775807, "priority": 9, "text": "a"},
  {"op": "send", "s": [1, 2], "queue": "q", "now": 9223372036854775807, "priority": 9, "text": "a"},
  {"op": "durable", "s": [1, 2], "k": 3, "topic": "t", "name": "n", "selector": "x > 0", "noLocal": true},
  {"op": "durable", "s": [1, 2], "k": 3, "queue": "q", "name": "n"},
  {"op": "shared", "s": [1, 2], "k": 3, "topic": "t", "name": "n", "selector": "x > 0"},
  {"op": "shared-durable", "s": [1, 2], "k": 3, "queue": "q", "name": "n"},
  {"op": "unsubscribe", "s": [1, 2], "name": "n"}
]}"#;

fn by_connection(connection: u32, request: Request) -> Result<ClientCall, Refusal> {
    match ConnectionId::new(connection) {
        Ok(id) => {
            let who = Who::Connection(id);
            Ok(ClientCall::Ask { who, request })
        }
        Err(refusal) => Err(refusal),
    }
}

fn session() -> Result<SessionId, Refusal> {
    SessionId::new(ConnectionId::new(1)?, 2)
}

fn by_session(request: Request) -> Result<ClientCall, Refusal> {
    match session() {
        Ok(id) => {
            let who = Who::Session(id);
            Ok(ClientCall::Ask { who, request })
        }
        Err(refusal) => Err(refusal),
    }
}

fn create_session(mode: Mode) -> Result<ClientCall, Refusal> {
    by_session(Request::CreateSession { mode })
}

fn commit() -> Result<ClientCall, Refusal> {
    match session() {
        Ok(id) => Ok(ClientCall::CommitSession(id)),
        Err(refusal) => Err(refusal),
    }
}

fn open(alloc: Global) -> Result<Request, Refusal> {
    let client = ClientId::new(alloc, "k")?;
    Ok(Request::Open {
        client: Some(client),
    })
}

/// The request for a consumer that selects by `x > 0`.
fn create_selecting(destination: Destination, alloc: Global) -> Result<Request, Refusal> {
    let consumer = ConsumerId::new(3)?;
    let selector = Str::new(String::from_str(alloc, "x > 0")?);
    Ok(Request::CreateConsumer {
        consumer,
        destination,
        selector: Some(selector),
        no_local: false,
    })
}

/// The request for a consumer that asks for nothing local.
fn create_no_local(alloc: Global) -> Result<Request, Refusal> {
    let consumer = ConsumerId::new(3)?;
    let destination = Destination::topic(alloc, "t")?;
    Ok(Request::CreateConsumer {
        consumer,
        destination,
        selector: None,
        no_local: true,
    })
}

/// The request for a consumer of the unshared durable subscription n, which selects by `x > 0` and asks for nothing local, or
/// does neither.
fn create_durable(
    alloc: Global,
    destination: Destination,
    is_of_others: bool,
) -> Result<Request, Refusal> {
    let consumer = ConsumerId::new(3)?;
    let name = SubscriptionName::new(alloc, "n")?;
    let selector = match is_of_others {
        true => Some(Str::new(String::from_str(alloc, "x > 0")?)),
        false => None,
    };
    Ok(Request::CreateDurable {
        consumer,
        destination,
        name,
        selector,
        no_local: is_of_others,
    })
}

/// The request for a consumer of the shared non-durable subscription n that selects by `x > 0`.
fn create_shared(alloc: Global) -> Result<Request, Refusal> {
    let consumer = ConsumerId::new(3)?;
    let destination = Destination::topic(alloc, "t")?;
    let name = SubscriptionName::new(alloc, "n")?;
    let selector = Str::new(String::from_str(alloc, "x > 0")?);
    Ok(Request::CreateShared {
        consumer,
        destination,
        name,
        selector: Some(selector),
    })
}

/// The request for a consumer of the shared durable subscription n of a queue.
fn create_shared_durable(alloc: Global) -> Result<Request, Refusal> {
    let consumer = ConsumerId::new(3)?;
    let destination = Destination::queue(alloc, "q")?;
    let name = SubscriptionName::new(alloc, "n")?;
    Ok(Request::CreateSharedDurable {
        consumer,
        destination,
        name,
        selector: None,
    })
}

fn unsubscribe(alloc: Global) -> Result<Request, Refusal> {
    let name = SubscriptionName::new(alloc, "n")?;
    Ok(Request::Unsubscribe { name })
}

fn close_consumer() -> Result<Request, Refusal> {
    let consumer = ConsumerId::new(3)?;
    Ok(Request::CloseConsumer { consumer })
}

fn missed() -> Result<Request, Refusal> {
    let consumer = ConsumerId::new(3)?;
    Ok(Request::Missed { consumer })
}

fn receive() -> Result<Request, Refusal> {
    let consumer = ConsumerId::new(3)?;
    let now = Moment::new(i64::MAX)?;
    Ok(Request::Receive { consumer, now })
}

/// A text of priority 9; a want of memory is seen by what is missing.
fn draft(alloc: Global) -> Draft {
    let mut draft = Draft::new(alloc);
    let _ = draft.set_priority(9);
    let _ = draft.set_text("a");
    draft
}

fn send(alloc: Global, destination: Destination) -> Result<ClientCall, Refusal> {
    let session = session()?;
    let now = Moment::new(i64::MAX)?;
    let draft = draft(alloc);
    Ok(ClientCall::Send {
        session,
        draft,
        destination,
        now,
    })
}

/// The call of that index.
fn wanted(alloc: Global, index: usize) -> Result<ClientCall, Refusal> {
    match index {
        0 => by_connection(1, Request::Open { client: None }),
        1 => by_connection(1, open(alloc)?),
        2 => by_connection(4294967295, Request::Start),
        3 => by_connection(2, Request::Stop),
        4 => by_connection(2, Request::CloseConnection),
        5 => create_session(Mode::Auto),
        6 => create_session(Mode::Client),
        7 => create_session(Mode::Dups),
        8 => create_session(Mode::Transacted),
        9 => by_session(Request::CloseSession),
        10 => by_session(Request::Acknowledge),
        11 => by_session(Request::Recover),
        12 => commit(),
        13 => by_session(Request::Rollback),
        14 => by_session(close_consumer()?),
        15 => by_session(missed()?),
        16 => by_session(create_selecting(Destination::topic(alloc, "t")?, alloc)?),
        17 => by_session(create_no_local(alloc)?),
        18 => by_session(create_selecting(Destination::queue(alloc, "q")?, alloc)?),
        19 => by_session(receive()?),
        20 => send(alloc, Destination::topic(alloc, "t")?),
        21 => send(alloc, Destination::queue(alloc, "q")?),
        22 => by_session(create_durable(alloc, Destination::topic(alloc, "t")?, true)?),
        23 => by_session(create_durable(alloc, Destination::queue(alloc, "q")?, false)?),
        24 => by_session(create_shared(alloc)?),
        25 => by_session(create_shared_durable(alloc)?),
        _ => by_session(unsubscribe(alloc)?),
    }
}

fn is_wanted(alloc: Global, index: usize, call: &ClientCall) -> bool {
    match wanted(alloc, index) {
        Ok(wanted) => call.is(&wanted),
        Err(_) => false,
    }
}

/// Whether the item is the call that is wanted.
fn is_wanted_call(alloc: Global, index: usize, item: &Item) -> bool {
    match item {
        Item::Call(call) => is_wanted(alloc, index, call),
        Item::Fork | Item::Join => false,
    }
}

/// How many calls of the scenario there are, each as it is wanted.
fn count(alloc: Global) -> Option<usize> {
    let scenario = read_scenario(alloc, CALLS.as_bytes()).ok()?;
    let items = scenario.items.into_inner();
    for (index, item) in items.iter().enumerate() {
        if !is_wanted_call(alloc, index, item) {
            return None;
        }
    }
    Some(items.len())
}

#[test]
fn calls_of_a_scenario(rt: HostRuntime) {
    holds(&rt, "calls", count(rt.alloc()) == Some(27));
}

const FORKED: &str = r#"{"calls": [
  {"op": "open", "c": 1},
  {"op": "fork"},
  {"op": "session", "s": [1, 2], "mode": "auto"},
  {"op": "join"},
  {"op": "start", "c": 1},
  {"op": "fork"}
]}"#;

/// The kinds of its items.
static KINDS: [ItemKind; 6] = [
    ItemKind::Call,
    ItemKind::Fork,
    ItemKind::Call,
    ItemKind::Join,
    ItemKind::Call,
    ItemKind::Fork,
];

fn kinds(alloc: Global, text: &str) -> Option<Vec<ItemKind>> {
    let scenario = read_scenario(alloc, text.as_bytes()).ok()?;
    item_kinds(alloc, scenario.items.as_slice()).ok()
}

/// Whether the scenario's items are of the kinds that are wanted.
fn has_kinds(alloc: Global) -> bool {
    match kinds(alloc, FORKED) {
        Some(kinds) => kinds.as_slice() == &KINDS[..],
        None => false,
    }
}

/// How many calls stand among its items, copied and moved out.
fn calls_among(alloc: Global) -> Option<(usize, usize)> {
    let scenario = read_scenario(alloc, FORKED.as_bytes()).ok()?;
    let copied = copy_calls(alloc, scenario.items.as_slice()).ok()?.len();
    let moved = into_calls(alloc, scenario.items.into_inner()).ok()?.len();
    Some((copied, moved))
}

#[test]
fn forks_and_joins_of_a_scenario(rt: HostRuntime) {
    holds(&rt, "kinds", has_kinds(rt.alloc()));
    holds(&rt, "calls", calls_among(rt.alloc()) == Some((3, 3)));
}

/// Scenarios and the limits of held rows that they say.
static LIMITS: [(&str, Option<u32>); 3] = [
    ("{\"calls\":[]}", None),
    ("{\"held\":1,\"calls\":[]}", Some(1)),
    ("{\"calls\":[],\"held\":1000000}", Some(1_000_000)),
];

fn has_limit(alloc: Global, text: &str, limit: Option<u32>) -> bool {
    match read_scenario(alloc, text.as_bytes()) {
        Ok(scenario) => scenario.held == limit,
        Err(_) => false,
    }
}

#[test]
fn limits_of_scenarios(rt: HostRuntime) {
    for (text, limit) in &LIMITS {
        holds(&rt, text, has_limit(rt.alloc(), text, *limit));
    }
}

/// What is told of bytes that are no scenario.
fn fault_text(alloc: Global, bytes: &[u8]) -> Result<String, AllocError> {
    match read_scenario(alloc, bytes) {
        Ok(_) => String::from_str(alloc, "a scenario"),
        Err(fault) => format!(in alloc; "{fault:?}"),
    }
}

/// Bytes, and their fault.
static FAULTS: [(&[u8], &str); 26] = [
    (b"\xff", "Syntax"),
    (b"{}", "Shape { step: 0, field: Known(Calls) }"),
    (
        b"{\"calls\":[],\"held\":0}",
        "Shape { step: 0, field: Known(Held) }",
    ),
    (
        b"{\"calls\":[],\"held\":1000001}",
        "Shape { step: 0, field: Known(Held) }",
    ),
    (b"{\"calls\":[],\"held\":1.5}", "Floating { step: 0 }"),
    (
        b"{\"calls\":[],\"limit\":1}",
        "Shape { step: 0, field: Unknown(\"limit\") }",
    ),
    (
        b"{\"calls\":[{\"op\":\"close\",\"c\":1}]}",
        "Shape { step: 1, field: Known(Operation) }",
    ),
    (
        b"{\"calls\":[{\"op\":\"join\"}]}",
        "Shape { step: 1, field: Known(Operation) }",
    ),
    (
        b"{\"calls\":[{\"op\":\"fork\"},{\"op\":\"fork\",\"c\":1}]}",
        "Shape { step: 2, field: Known(Operation) }",
    ),
    (
        b"{\"calls\":[{\"op\":\"fork\"},{\"op\":\"start\",\"c\":1.5}]}",
        "Shape { step: 2, field: Known(Operation) }",
    ),
    (
        b"{\"calls\":[{\"op\":\"fork\"},{\"op\":\"commit\",\"s\":[1,1.5]}]}",
        "Floating { step: 2 }",
    ),
    (
        b"{\"calls\":[{\"op\":\"fork\",\"c\":1}]}",
        "Shape { step: 1, field: Unknown(\"c\") }",
    ),
    (
        b"{\"calls\":[{\"op\":\"recover\",\"s\":[1,1],\"k\":1}]}",
        "Shape { step: 1, field: Unknown(\"k\") }",
    ),
    (
        b"{\"calls\":[{\"op\":\"commit\",\"c\":1}]}",
        "Shape { step: 1, field: Known(Session) }",
    ),
    (
        b"{\"calls\":[{\"op\":\"commit\",\"s\":[1,1.5]}]}",
        "Floating { step: 1 }",
    ),
    (
        b"{\"calls\":[{\"op\":\"rollback\",\"s\":[1,1],\"k\":1}]}",
        "Shape { step: 1, field: Unknown(\"k\") }",
    ),
    (
        b"{\"calls\":[{\"op\":\"session\",\"s\":[1,1],\"mode\":\"local\"}]}",
        "Shape { step: 1, field: Known(Mode) }",
    ),
    (
        b"{\"calls\":[{\"op\":1.5}]}",
        "Shape { step: 1, field: Known(Operation) }",
    ),
    (
        b"{\"calls\":[{\"op\":\"open\",\"c\":1.5}]}",
        "Floating { step: 1 }",
    ),
    (
        b"{\"calls\":[{\"op\":\"durable\",\"s\":[1,1],\"k\":1,\"topic\":\"t\",\"selector\":1}]}",
        "Shape { step: 1, field: Known(Name) }",
    ),
    (
        b"{\"calls\":[{\"op\":\"durable\",\"s\":[1,1],\"k\":1,\"topic\":\"t\",\"queue\":\"q\"}]}",
        "Shape { step: 1, field: Known(Queue) }",
    ),
    (
        b"{\"calls\":[{\"op\":\"shared\",\"s\":[1,1],\"k\":1,\"topic\":\"t\",\"name\":\"\"}]}",
        "Shape { step: 1, field: Known(Name) }",
    ),
    (
        b"{\"calls\":[{\"op\":\"shared\",\"s\":[1,1],\"k\":1,\"topic\":\"t\",\"name\":\"n\",\"noLocal\":true}]}",
        "Shape { step: 1, field: Unknown(\"noLocal\") }",
    ),
    (
        b"{\"calls\":[{\"op\":\"shared-durable\",\"s\":[1,1],\"k\":1,\"topic\":\"t\",\"name\":1}]}",
        "Shape { step: 1, field: Known(Name) }",
    ),
    (
        b"{\"calls\":[{\"op\":\"unsubscribe\",\"s\":[1,1],\"name\":1.5}]}",
        "Floating { step: 1 }",
    ),
    (
        b"{\"calls\":[{\"op\":\"unsubscribe\",\"s\":[1,1],\"k\":1,\"name\":\"n\"}]}",
        "Shape { step: 1, field: Unknown(\"k\") }",
    ),
];

#[test]
fn faults_of_scenarios(rt: HostRuntime) {
    for (bytes, wanted) in &FAULTS {
        is_text(&rt, wanted, fault_text(rt.alloc(), bytes));
    }
}

static FIELDS: [(Field, &str); 23] = [
    (Field::Calls, "calls"),
    (Field::Held, "held"),
    (Field::Operation, "op"),
    (Field::Connection, "c"),
    (Field::Client, "client"),
    (Field::Session, "s"),
    (Field::Mode, "mode"),
    (Field::Consumer, "k"),
    (Field::Queue, "queue"),
    (Field::Topic, "topic"),
    (Field::Name, "name"),
    (Field::Selector, "selector"),
    (Field::NoLocal, "noLocal"),
    (Field::Now, "now"),
    (Field::Priority, "priority"),
    (Field::Persistent, "persistent"),
    (Field::TimeToLive, "ttl"),
    (Field::DeliveryDelay, "delay"),
    (Field::Correlation, "correlation"),
    (Field::Type, "type"),
    (Field::Properties, "props"),
    (Field::Text, "text"),
    (Field::Bytes, "bytes"),
];

#[test]
fn names_of_fields(rt: HostRuntime) {
    for (field, name) in &FIELDS {
        holds(&rt, name, field.name() == *name);
    }
}
