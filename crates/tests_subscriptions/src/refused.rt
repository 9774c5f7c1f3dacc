//! Requests for subscriptions that have names that are refused, the first cause that stands, and what they leave.

use crate::runs::{Run, replies_of, told};
use crate::told::{holds, is_text};
use jm_base::{Mode, Refusal};
use jm_core::Core;
use jm_dest::{ClientId, Key, SubscriptionName};
use std::alloc::Global;
use tests_calls::{At, Kind, Op};

const Q: At = At::Queue("q");

static RUNS: [Run; 4] = [
    // Each refusal of an unshared durable one: no client identifier, a queue, a selector, a shared one of the name. The
    // number stays free.
    Run {
        limit: 100_000,
        ops: &[
            Op::OpenFor(1, "k"),
            Op::Open(2),
            Op::Session((1, 1), Mode::Auto),
            Op::Session((2, 1), Mode::Auto),
            Op::NamedAt((2, 1), 1, Kind::Durable, Q, "n", Some("x = ")),
            Op::Named((1, 2), 1, Kind::Durable, "n", None),
            Op::Named((1, 1), 1, Kind::SharedDurable, "n", None),
            Op::NamedAt((1, 1), 1, Kind::Durable, Q, "n", Some("x = ")),
            Op::NamedAt((1, 1), 2, Kind::Durable, Q, "n", Some("x = ")),
            Op::Named((1, 1), 2, Kind::Durable, "n", Some("x = ")),
            Op::Named((1, 1), 2, Kind::Durable, "n", None),
            Op::CloseConsumer((1, 1), 1),
            Op::Named((1, 1), 2, Kind::Durable, "n", None),
            Op::Named((1, 1), 2, Kind::Durable, "m", None),
        ],
        told: "ok, ok, ok, ok, IllegalState, IllegalState, ok, IllegalState, InvalidDestination, InvalidSelector Expected 4, \
               SubscriptionInUse, ok, SubscriptionInUse, ok, 2 and 0",
    },
    // Each refusal of a shared one that is not durable.
    Run {
        limit: 100_000,
        ops: &[
            Op::Open(1),
            Op::Session((1, 1), Mode::Auto),
            Op::Named((1, 2), 1, Kind::Shared, "g", None),
            Op::Named((1, 1), 1, Kind::Shared, "g", None),
            Op::NamedAt((1, 1), 1, Kind::Shared, Q, "g", Some("x = ")),
            Op::NamedAt((1, 1), 2, Kind::Shared, Q, "g", Some("x = ")),
            Op::Named((1, 1), 2, Kind::Shared, "g", Some("x = ")),
            Op::Named((1, 1), 2, Kind::Shared, "g", Some("x = 1")),
            Op::Named((1, 1), 2, Kind::Shared, "g", None),
        ],
        told: "ok, ok, IllegalState, ok, IllegalState, InvalidDestination, InvalidSelector Expected 4, SubscriptionInUse, ok, \
               1 and 0",
    },
    // Each refusal of a shared durable one, also where an unshared one has the name.
    Run {
        limit: 100_000,
        ops: &[
            Op::OpenFor(1, "k"),
            Op::Session((1, 1), Mode::Auto),
            Op::Named((1, 2), 1, Kind::SharedDurable, "n", None),
            Op::Named((1, 1), 1, Kind::Durable, "n", None),
            Op::NamedAt((1, 1), 1, Kind::SharedDurable, Q, "n", Some("x = ")),
            Op::NamedAt((1, 1), 2, Kind::SharedDurable, Q, "n", Some("x = ")),
            Op::Named((1, 1), 2, Kind::SharedDurable, "n", Some("x = ")),
            Op::CloseConsumer((1, 1), 1),
            Op::Named((1, 1), 2, Kind::SharedDurable, "n", None),
            Op::Unsubscribe((1, 1), "n"),
            Op::Named((1, 1), 2, Kind::SharedDurable, "n", None),
        ],
        told: "ok, ok, IllegalState, ok, IllegalState, InvalidDestination, InvalidSelector Expected 4, ok, SubscriptionInUse, \
               ok, ok, 1 and 0",
    },
    // Each refusal of an end: a session that is not open, no durable one of the name and the client, and one in use.
    Run {
        limit: 100_000,
        ops: &[
            Op::OpenFor(1, "k"),
            Op::Open(2),
            Op::Session((1, 1), Mode::Auto),
            Op::Session((2, 1), Mode::Auto),
            Op::Unsubscribe((1, 2), "n"),
            Op::Unsubscribe((1, 1), "n"),
            Op::Named((1, 1), 1, Kind::Durable, "n", None),
            Op::Named((1, 1), 2, Kind::Shared, "m", None),
            Op::Unsubscribe((2, 1), "n"),
            Op::Unsubscribe((1, 1), "m"),
            Op::Unsubscribe((1, 1), "n"),
            Op::CloseSession((1, 1)),
            Op::Unsubscribe((1, 1), "n"),
        ],
        told: "ok, ok, ok, ok, IllegalState, InvalidDestination, ok, ok, InvalidDestination, InvalidDestination, \
               SubscriptionInUse, ok, IllegalState, 1 and 0",
    },
];

#[test]
fn refused_requests(rt: HostRuntime) {
    for run in &RUNS {
        is_text(&rt, run.told, told(rt.alloc(), run));
    }
}

/// The durable key of that name of the client k.
fn key(alloc: Global, name: &str) -> Result<Key, Refusal> {
    let client = ClientId::new(alloc, "k")?;
    Ok(Key::Durable(Some(client), SubscriptionName::new(alloc, name)?))
}

/// Whether the durable subscription of that name may have more than one active consumer, where it is there.
fn mark(alloc: Global, core: &Core, name: &str) -> Option<bool> {
    match key(alloc, name) {
        Ok(key) => Some(core.definition_of(&key)?.shared),
        Err(_) => None,
    }
}

/// The marks of n, m and o after the run.
fn marks(alloc: Global) -> Option<[Option<bool>; 3]> {
    let mut core = Core::new(alloc, 1, 100_000).ok()?;
    let _ = replies_of(alloc, &mut core, &MADE);
    Some([
        mark(alloc, &core, "n"),
        mark(alloc, &core, "m"),
        mark(alloc, &core, "o"),
    ])
}

/// Calls that leave an unshared durable subscription n and a shared one m, and refuse to make each of the other kind.
static MADE: [Op; 6] = [
    Op::OpenFor(1, "k"),
    Op::Session((1, 1), Mode::Auto),
    Op::Named((1, 1), 1, Kind::Durable, "n", None),
    Op::Named((1, 1), 2, Kind::SharedDurable, "m", None),
    Op::Named((1, 1), 3, Kind::SharedDurable, "n", None),
    Op::Named((1, 1), 3, Kind::Durable, "m", None),
];

#[test]
fn what_subscriptions_ask_for(rt: HostRuntime) {
    let are_so = marks(rt.alloc()) == Some([Some(false), Some(true), None]);
    holds(&rt, "n, m and o", are_so);
}
