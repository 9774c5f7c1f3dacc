//! What is loaded, and what the provider that it makes holds.

use crate::parts::{
    DUE, HI, HI_AGAIN, HI_LAST, HOLDS_HI, HOLDS_LATE, LAST, LATE, N, Q, QUEUED, QUEUED_AGAIN,
};
use crate::told::holds;
use jm_base::Mode;
use jm_core::Core;
use jm_keep::Keep;
use jm_kept::run;
use jm_store::{Reopened, open};
use sqlite::{Alter, Connection};
use std::alloc::Global;
use tests_calls::{At, Kind, Op, all_shown, calls};
use tests_databases::{Part, made};

/// What a provider holds.
struct Holding {
    opening: u32,
    subscriptions: usize,
    /// The messages that subscriptions hold, each once, and those that queues hold.
    kept: (usize, usize),
    next_place: u64,
}

/// A database that is loaded, and what is told then.
struct Load {
    what: &'static str,
    /// What makes it.
    parts: &'static [Part],
    holding: Holding,
    /// What is done with the provider.
    ops: &'static [Op],
    /// The replies in a few letters, each followed by a comma and a space.
    told: &'static str,
}

/// How many rows a subscription that is not durable may hold.
const HELD_LIMIT: u32 = 100_000;

static LOADS: [Load; 12] = [
    Load {
        what: "a new database",
        parts: &[],
        holding: Holding {
            opening: 1,
            subscriptions: 0,
            kept: (0, 0),
            next_place: 1,
        },
        ops: &[Op::Open(1), Op::Session((1, 1), Mode::Auto), Op::Start(1)],
        told: "ok, ok, ok, ",
    },
    Load {
        what: "version 2 that holds nothing",
        parts: &[Part::Current, LAST],
        holding: Holding {
            opening: 2,
            subscriptions: 0,
            kept: (0, 0),
            next_place: 1,
        },
        ops: &[],
        told: "",
    },
    Load {
        what: "a queue that holds nothing",
        parts: &[Part::Current, LAST, Q],
        holding: Holding {
            opening: 2,
            subscriptions: 0,
            kept: (0, 0),
            next_place: 1,
        },
        ops: &[],
        told: "",
    },
    Load {
        what: "version 1 whose message was delivered once",
        parts: &[
            Part::Bare,
            Part::Sql("INSERT INTO meta VALUES (1, 1, 1)"),
            N,
            HI,
            Part::Sql("INSERT INTO held VALUES (2, 'k', 'n', 1, 1)"),
        ],
        holding: Holding {
            opening: 2,
            subscriptions: 1,
            kept: (1, 0),
            next_place: 2,
        },
        ops: &[
            Op::OpenFor(1, "k"),
            Op::Session((1, 1), Mode::Client),
            Op::Named((1, 1), 1, Kind::Durable, "n", None),
            Op::Start(1),
            Op::Receive((1, 1), 1),
            Op::Receive((1, 1), 1),
        ],
        told: "ok, ok, ok, ok, hi#2, none, ",
    },
    Load {
        what: "a queue with two messages",
        parts: &[
            Part::Current,
            LAST,
            Q,
            QUEUED_AGAIN,
            QUEUED,
            Part::Sql("INSERT INTO held VALUES (1, '', 'q', 4, 7), (1, '', 'q', 3, 0)"),
        ],
        holding: Holding {
            opening: 2,
            subscriptions: 0,
            kept: (0, 2),
            next_place: 5,
        },
        ops: &[
            Op::Open(1),
            Op::Session((1, 1), Mode::Auto),
            Op::ConsumerAt((1, 1), 1, At::Queue("q"), None, false),
            Op::Start(1),
            Op::Receive((1, 1), 1),
            Op::Receive((1, 1), 1),
            Op::Receive((1, 1), 1),
        ],
        told: "ok, ok, ok, ok, b#1, b#8, none, ",
    },
    Load {
        what: "a message that three subscriptions hold",
        parts: &[
            Part::Current,
            LAST,
            N,
            Part::Sql(
                "INSERT INTO station VALUES (2, '', 'n', 1, 't', 'x = 1', 0), (2, 'k', 'o', 1, 't', '', 0)",
            ),
            HI,
            HOLDS_HI,
            Part::Sql("INSERT INTO held VALUES (2, '', 'n', 1, 1), (2, 'k', 'o', 1, 2)"),
        ],
        holding: Holding {
            opening: 2,
            subscriptions: 3,
            kept: (1, 0),
            next_place: 2,
        },
        ops: &[
            Op::OpenFor(1, "k"),
            Op::Session((1, 1), Mode::Auto),
            Op::Named((1, 1), 1, Kind::Durable, "n", None),
            Op::Named((1, 1), 2, Kind::SharedDurable, "o", None),
            Op::Start(1),
            Op::Open(2),
            Op::Session((2, 1), Mode::Auto),
            Op::Named((2, 1), 1, Kind::SharedDurable, "n", Some("x = 1")),
            Op::Start(2),
            Op::Receive((1, 1), 1),
            Op::Receive((1, 1), 2),
            Op::Receive((2, 1), 1),
            Op::Receive((2, 1), 1),
        ],
        told: "ok, ok, ok, ok, ok, ok, ok, ok, ok, hi#1, hi#3, hi#2, none, ",
    },
    Load {
        what: "a subscription that asks for something else then",
        parts: &[Part::Current, LAST, N, HI, HOLDS_HI],
        holding: Holding {
            opening: 2,
            subscriptions: 1,
            kept: (1, 0),
            next_place: 2,
        },
        ops: &[
            Op::OpenFor(1, "k"),
            Op::Session((1, 1), Mode::Auto),
            Op::Named((1, 1), 1, Kind::Durable, "n", Some("x = 1")),
            Op::Start(1),
            Op::Receive((1, 1), 1),
        ],
        told: "ok, ok, ok, ok, none, ",
    },
    Load {
        what: "others' messages alone",
        parts: &[
            Part::Current,
            LAST,
            Part::Sql("INSERT INTO station VALUES (2, 'k', 'n', 0, 't', '', 1)"),
            HI,
            HOLDS_HI,
        ],
        holding: Holding {
            opening: 2,
            subscriptions: 1,
            kept: (1, 0),
            next_place: 2,
        },
        ops: &[
            Op::OpenFor(1, "k"),
            Op::Session((1, 1), Mode::Auto),
            Op::Named((1, 1), 1, Kind::Others, "n", None),
            Op::Start(1),
            Op::Send(1, "a", None),
            Op::Receive((1, 1), 1),
            Op::Receive((1, 1), 1),
        ],
        told: "ok, ok, ok, ok, sent 1, hi#1, none, ",
    },
    Load {
        what: "a message that is held back",
        parts: &[Part::Current, LAST, N, LATE, DUE, HOLDS_LATE],
        holding: Holding {
            opening: 2,
            subscriptions: 1,
            kept: (1, 0),
            next_place: 6,
        },
        ops: &[
            Op::OpenFor(1, "k"),
            Op::Session((1, 1), Mode::Auto),
            Op::Named((1, 1), 1, Kind::Durable, "n", None),
            Op::Start(1),
            Op::ReceiveAt((1, 1), 1, 1499),
            Op::ReceiveAt((1, 1), 1, 1500),
        ],
        told: "ok, ok, ok, ok, none, c#1, ",
    },
    Load {
        what: "the greatest count stays",
        parts: &[
            Part::Current,
            LAST,
            N,
            HI,
            Part::Sql("INSERT INTO held VALUES (2, 'k', 'n', 1, 2147483647)"),
        ],
        holding: Holding {
            opening: 2,
            subscriptions: 1,
            kept: (1, 0),
            next_place: 2,
        },
        ops: &[
            Op::OpenFor(1, "k"),
            Op::Session((1, 1), Mode::Auto),
            Op::Named((1, 1), 1, Kind::Durable, "n", None),
            Op::Start(1),
            Op::Receive((1, 1), 1),
        ],
        told: "ok, ok, ok, ok, hi#2147483647, ",
    },
    Load {
        what: "two messages, of which the first by its place comes first",
        parts: &[
            Part::Current,
            Part::Sql("INSERT INTO meta VALUES (1, 2, 4294967294)"),
            N,
            HI_AGAIN,
            Part::Sql("INSERT INTO held VALUES (2, 'k', 'n', 2, 4)"),
            HI,
            HOLDS_HI,
        ],
        holding: Holding {
            opening: 4_294_967_295,
            subscriptions: 1,
            kept: (2, 0),
            next_place: 3,
        },
        ops: &[
            Op::OpenFor(1, "k"),
            Op::Session((1, 1), Mode::Auto),
            Op::Named((1, 1), 1, Kind::Durable, "n", None),
            Op::Start(1),
            Op::Receive((1, 1), 1),
            Op::Receive((1, 1), 1),
        ],
        told: "ok, ok, ok, ok, hi#1, hi#5, ",
    },
    Load {
        what: "no place is left",
        parts: &[
            Part::Current,
            LAST,
            N,
            HI_LAST,
            Part::Sql("INSERT INTO held VALUES (2, 'k', 'n', 9223372036854775807, 0)"),
        ],
        holding: Holding {
            opening: 2,
            subscriptions: 1,
            kept: (1, 0),
            next_place: 9_223_372_036_854_775_808,
        },
        ops: &[
            Op::OpenFor(1, "k"),
            Op::Session((1, 1), Mode::Auto),
            Op::Named((1, 1), 1, Kind::Durable, "n", None),
            Op::Start(1),
            Op::Open(2),
            Op::Session((2, 1), Mode::Auto),
            Op::Send(2, "a", None),
            Op::Receive((1, 1), 1),
        ],
        told: "ok, ok, ok, ok, ok, ok, Exhausted, hi#1, ",
    },
];

/// Whether the core holds that, and nobody is connected.
fn is_holding(core: &Core, holding: &Holding) -> bool {
    core.opening().get() == holding.opening
        && core.stations_len() == holding.subscriptions
        && core.kept() == holding.kept.0
        && core.kept_by_queues() == holding.kept.1
        && core.next_place() == holding.next_place
        && core.connections().is_empty()
}

/// Whether the calls are told that.
fn is_told<K: Keep>(
    alloc: Global,
    core: &mut Core,
    keeper: &mut K,
    ops: &[Op],
    told: &str,
) -> bool {
    match calls(alloc, ops) {
        Ok(calls) => match run(alloc, core, keeper, calls) {
            Ok(replies) => match all_shown(alloc, &replies) {
                Ok(text) => text.as_str() == told,
                Err(_) => false,
            },
            Err(_) => false,
        },
        Err(_) => false,
    }
}

/// Whether what was loaded holds what it should, and its calls are told what they should be.
fn is_loaded<S: Alter + Drop>(alloc: Global, reopened: Reopened<S>, load: &Load) -> bool {
    let Reopened {
        mut store,
        mut core,
    } = reopened;
    is_holding(&core, &load.holding) && is_told(alloc, &mut core, &mut store, load.ops, load.told)
}

fn opens<S: Alter + Drop>(alloc: Global, conn: Connection<S>, load: &Load) -> bool {
    match open(alloc, conn, HELD_LIMIT) {
        Ok(reopened) => is_loaded(alloc, reopened, load),
        Err(_) => false,
    }
}

fn passes(alloc: Global, load: &Load) -> bool {
    match made(alloc, load.parts) {
        Some(conn) => opens(alloc, conn, load),
        None => false,
    }
}

#[test]
fn databases_that_are_loaded(rt: HostRuntime) {
    for load in &LOADS {
        let passes = passes(rt.alloc(), load);
        holds(&rt, load.what, passes);
    }
}
