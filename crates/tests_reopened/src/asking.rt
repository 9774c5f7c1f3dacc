//! The calls that ask what is held.

use jm_base::Mode;
use jm_core::Definition;
use jm_decoding::StationRow;
use jm_dest::{ClientId, Key};
use std::alloc::{AllocError, Global};
use tests_calls::{At, Kind, Numbers, Op};

/// How often each consumer looks for a message: more often than anyone holds rows.
const RECEIVES: usize = 40;

/// No message is held back any more, and one that has a time to live is gone.
const LAST_MOMENT: i64 = 5000;

/// The calls that close the connections of the runs.
pub(crate) static CLOSES: [Op; 3] = [
    Op::CloseConnection(1),
    Op::CloseConnection(2),
    Op::CloseConnection(3),
];

/// Other connections come, with a session each.
static CONNECTIONS: [Op; 9] = [
    Op::OpenFor(11, "k"),
    Op::OpenFor(12, "l"),
    Op::Open(13),
    Op::Session((11, 1), Mode::Auto),
    Op::Session((12, 1), Mode::Auto),
    Op::Session((13, 1), Mode::Auto),
    Op::Start(11),
    Op::Start(12),
    Op::Start(13),
];

/// The consumers of the queues.
static QUEUES: [(Numbers, u32, At); 2] = [
    ((13, 1), 1, At::Queue("q")),
    ((13, 1), 2, At::Queue("r")),
];

static NAMES: [&str; 2] = ["m", "n"];

static SELECTORS: [Option<&str>; 3] = [None, Some("x = 1"), Some("x IS NULL OR x = 2")];

fn session(client: &Option<ClientId>) -> Numbers {
    match client {
        None => (13, 1),
        Some(client) if client.as_str() == "k" => (11, 1),
        Some(_) => (12, 1),
    }
}

fn kind(definition: &Definition) -> Kind {
    match (definition.shared, definition.no_local) {
        (true, _) => Kind::SharedDurable,
        (false, true) => Kind::Others,
        (false, false) => Kind::Durable,
    }
}

/// The selector of the runs that has that text.
fn selector(text: Option<&str>) -> Option<&'static str> {
    for selector in &SELECTORS {
        if *selector == text {
            return *selector;
        }
    }
    None
}

/// The name of the runs that is that text.
fn name(text: &str) -> &'static str {
    for name in &NAMES {
        if *name == text {
            return name;
        }
    }
    ""
}

/// A consumer of the subscription, as it stands.
fn consumer(station: &StationRow, number: u32) -> Option<(Numbers, Op)> {
    let Key::Durable(client, of) = &station.key else {
        return None;
    };
    let Some(definition) = &station.definition else {
        return None;
    };
    let session = session(client);
    let kind = kind(definition);
    let selector = selector(definition.selector.text());
    let op = Op::NamedAt(
        session,
        number,
        kind,
        At::Topic("t"),
        name(of.as_str()),
        selector,
    );
    Some((session, op))
}

/// Adds the consumer, and what it asks.
fn ask(ops: &mut Vec<Op>, session: Numbers, number: u32, create: Op) -> Result<(), AllocError> {
    ops.push(create)?;
    for _ in 0..RECEIVES {
        ops.push(Op::ReceiveAt(session, number, LAST_MOMENT))?;
    }
    Ok(())
}

/// Adds a consumer of each durable subscription, with numbers from 3, and what it asks.
fn ask_durables(ops: &mut Vec<Op>, stations: &[StationRow]) -> Result<(), AllocError> {
    let mut number = 3;
    for station in stations {
        if let Some((session, create)) = consumer(station, number) {
            ask(ops, session, number, create)?;
            number = u32::saturating_add(number, 1);
        }
    }
    Ok(())
}

/// The calls that ask all that the queues and the durable subscriptions of these rows hold.
pub(crate) fn asking(alloc: Global, stations: &[StationRow]) -> Result<Vec<Op>, AllocError> {
    let mut ops = Vec::from_slice(alloc, &CONNECTIONS)?;
    for (session, number, at) in &QUEUES {
        let create = Op::ConsumerAt(*session, *number, *at, None, false);
        ask(&mut ops, *session, *number, create)?;
    }
    ask_durables(&mut ops, stations)?;
    Ok(ops)
}
