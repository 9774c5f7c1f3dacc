//! Databases, the runs over each, and what stands in meta then.

use crate::played::{Run, all_played, all_played_on_threads};
use crate::scenarios::{
    FIRST, FIRST_LINES, FORKED, FORKED_LINES, FULL, FULL_LINES, JOINED, JOINED_LINES, NONE, SECOND,
    SECOND_LINES,
};
use crate::told::holds;
use sqlite::{Alter, Connection};
use std::alloc::Global;
use std::sync::Wait;
use std::thread::Threads;
use tests_databases::{META, Part, is_shown, made};

/// A database, the runs over it in turn, and the rows of meta then.
struct Store {
    what: &'static str,
    parts: &'static [Part],
    runs: &'static [Run],
    last: &'static [&'static str],
}

/// The tables are of version 2, in opening 1.
const LAST: Part = Part::Sql("INSERT INTO meta VALUES (1, 2, 1)");

/// The client k has the subscription n to the topic t.
const N: Part = Part::Sql("INSERT INTO station VALUES (2, 'k', 'n', 0, 't', '', 0)");

/// At place 1 the text a, which session 2.1 sent to the topic t as its first.
const A: Part = Part::Sql(
    "INSERT INTO message VALUES (1, x'01000000010000000200000001000000000000000100000000000003e800000000000000000104010000000000000001740000010000000000000001610000000000000000')",
);

/// At place 1 the text hi to the topic t, with the long 1 as property x.
const HI: Part = Part::Sql(
    "INSERT INTO message VALUES (1, x'01000000010000000100000001000000000000000100000000000003e80000000000000000010401000000000000000174000001000000000000000268690000000000000001000000000000000178050000000000000001')",
);

static STORES: [Store; 15] = [
    Store {
        what: "a new store, and the same again",
        parts: &[],
        runs: &[
            Run {
                scenario: FIRST,
                status: 0,
                told: FIRST_LINES,
            },
            Run {
                scenario: SECOND,
                status: 0,
                told: SECOND_LINES,
            },
        ],
        last: &["1|2|2"],
    },
    Store {
        what: "two sessions that call at once, and again",
        parts: &[],
        runs: &[
            Run {
                scenario: FORKED,
                status: 0,
                told: FORKED_LINES,
            },
            Run {
                scenario: JOINED,
                status: 0,
                told: JOINED_LINES,
            },
        ],
        last: &["1|2|2"],
    },
    Store {
        what: "a store of version 1, in which a message was delivered once",
        parts: &[
            Part::Bare,
            Part::Sql("INSERT INTO meta VALUES (1, 1, 1)"),
            N,
            A,
            Part::Sql("INSERT INTO held VALUES (2, 'k', 'n', 1, 1)"),
        ],
        runs: &[Run {
            scenario: SECOND,
            status: 0,
            told: SECOND_LINES,
        }],
        last: &["1|2|2"],
    },
    Store {
        what: "no place is left",
        parts: &[
            Part::Current,
            LAST,
            N,
            Part::Sql(
                "INSERT INTO message VALUES (9223372036854775807, x'01000000010000000100000001000000000000000100000000000003e80000000000000000010401000000000000000174000001000000000000000268690000000000000001000000000000000178050000000000000001')",
            ),
            Part::Sql("INSERT INTO held VALUES (2, 'k', 'n', 9223372036854775807, 0)"),
        ],
        runs: &[Run {
            scenario: FULL,
            status: 0,
            told: FULL_LINES,
        }],
        last: &["1|2|2"],
    },
    Store {
        what: "a selector that is FALSE for what is held",
        parts: &[
            Part::Current,
            LAST,
            Part::Sql("INSERT INTO station VALUES (2, 'k', 'n', 0, 't', 'x = 2', 0)"),
            HI,
            Part::Sql("INSERT INTO held VALUES (2, 'k', 'n', 1, 0)"),
        ],
        runs: &[Run {
            scenario: NONE,
            status: 3,
            told: "store: damaged",
        }],
        last: &["1|2|2"],
    },
    Store {
        what: "a message that nobody holds",
        parts: &[Part::Current, LAST, HI],
        runs: &[Run {
            scenario: NONE,
            status: 3,
            told: "store: damaged",
        }],
        last: &["1|2|2"],
    },
    Store {
        what: "a station of family 3",
        parts: &[
            Part::Current,
            LAST,
            Part::Sql("INSERT INTO station VALUES (3, 'k', 'n', 0, 't', '', 0)"),
        ],
        runs: &[Run {
            scenario: NONE,
            status: 3,
            told: "store: damaged",
        }],
        last: &["1|2|2"],
    },
    Store {
        what: "a selector that is refused",
        parts: &[
            Part::Current,
            LAST,
            Part::Sql("INSERT INTO station VALUES (2, 'k', 'n', 0, 't', 'x = ', 0)"),
        ],
        runs: &[Run {
            scenario: NONE,
            status: 3,
            told: "store: damaged",
        }],
        last: &["1|2|2"],
    },
    Store {
        what: "a count past the greatest",
        parts: &[
            Part::Current,
            LAST,
            N,
            HI,
            Part::Sql("INSERT INTO held VALUES (2, 'k', 'n', 1, 2147483648)"),
        ],
        runs: &[Run {
            scenario: NONE,
            status: 3,
            told: "store: damaged",
        }],
        last: &["1|2|2"],
    },
    Store {
        what: "no row in meta",
        parts: &[Part::Current],
        runs: &[Run {
            scenario: NONE,
            status: 3,
            told: "store: damaged",
        }],
        last: &[],
    },
    Store {
        what: "version 7",
        parts: &[
            Part::Current,
            Part::Sql("INSERT INTO meta VALUES (1, 7, 1)"),
        ],
        runs: &[Run {
            scenario: NONE,
            status: 3,
            told: "store: version 7",
        }],
        last: &["1|7|1"],
    },
    Store {
        what: "a negative version",
        parts: &[Part::Bare, Part::Sql("INSERT INTO meta VALUES (1, -7, 1)")],
        runs: &[Run {
            scenario: NONE,
            status: 3,
            told: "store: version -7",
        }],
        last: &["1|-7|1"],
    },
    Store {
        what: "the greatest opening",
        parts: &[
            Part::Current,
            Part::Sql("INSERT INTO meta VALUES (1, 2, 4294967295)"),
        ],
        runs: &[Run {
            scenario: NONE,
            status: 3,
            told: "store: exhausted",
        }],
        last: &["1|2|4294967295"],
    },
    Store {
        what: "tables that are none of a store's",
        parts: &[Part::Meta, LAST],
        runs: &[Run {
            scenario: NONE,
            status: 3,
            told: "store: failed",
        }],
        last: &["1|2|1"],
    },
    Store {
        what: "a scenario that is none, before the store",
        parts: &[
            Part::Current,
            LAST,
            Part::Sql("INSERT INTO station VALUES (3, 'k', 'n', 0, 't', '', 0)"),
        ],
        runs: &[
            Run {
                scenario: "{",
                status: 1,
                told: "scenario: syntax",
            },
            Run {
                scenario: "{\"calls\":[],\"held\":0}",
                status: 1,
                told: "scenario: step 0: field held",
            },
        ],
        last: &["1|2|1"],
    },
];

/// Whether the runs over the store of the connection end as they should, and leave what they should in meta.
fn is_left<S: Alter + Drop>(alloc: Global, conn: Connection<S>, store: &Store) -> bool {
    match all_played(alloc, conn, store.runs) {
        Some(mut conn) => is_shown(&mut conn, META, store.last),
        None => false,
    }
}

/// The same of runs on threads.
fn is_left_by_threads<S: Alter + Drop + Send, T: Threads + Wait + Sync>(
    rt: &T,
    alloc: Global,
    conn: Connection<S>,
    store: &Store,
) -> bool {
    match all_played_on_threads(rt, alloc, conn, store.runs) {
        Some(mut conn) => is_shown(&mut conn, META, store.last),
        None => false,
    }
}

fn passes(alloc: Global, store: &Store) -> bool {
    match made(alloc, store.parts) {
        Some(conn) => is_left(alloc, conn, store),
        None => false,
    }
}

fn passes_on_threads<T: Threads + Wait + Sync>(rt: &T, alloc: Global, store: &Store) -> bool {
    match made(alloc, store.parts) {
        Some(conn) => is_left_by_threads(rt, alloc, conn, store),
        None => false,
    }
}

#[test]
fn runs_over_stores(rt: HostRuntime) {
    for store in &STORES {
        let passes = passes(rt.alloc(), store);
        holds(&rt, store.what, passes);
    }
}

#[test]
fn runs_on_threads_over_stores(rt: HostRuntime) {
    for store in &STORES {
        let passes = passes_on_threads(&rt, rt.alloc(), store);
        holds(&rt, store.what, passes);
    }
}
