//! What the words of a command line print.

ghost use Rattle.std.specs.Prelude.{◌≡◌};
ghost use Rattle.jm_words.specs.Words.{HasLimit};

use crate::commands::{LINES, LINES_ALONE, NAMES, QUEUES, SCENARIO};
use crate::told::is_text;
use jm_runner::{Databases, Ending, PARTS, Sink, Source, perform};
use jm_words::{Words, read_words};
use sqlite::{Connection, Error, ErrorCode, MemStore};
use std::alloc::{AllocError, Global};
use std::marker::Brand;
use std::str;
use std::sync::Wait;
use std::sync::ledger::Blank;
use std::thread::Threads;

const QUEUE_LINES: &str = "1 ok
2 ok
3 ok
4 refused InvalidSelector Expected 4
5 ok
6 sent 1
7 ok
8 none
9 message ID:1-1.1.1 count=1 redelivered=no priority=4 body=text \"a\"
";

const NAMES_LINES: &str = "1 ok
2 ok
3 ok
4 ok
5 ok
6 refused SubscriptionInUse
7 sent 1
8 ok
9 message ID:1-1.1.1 count=1 redelivered=no priority=4 body=text \"a\"
10 ok
11 ok
12 refused InvalidDestination
";

const DURABLE_ALONE: &str = "3 ok
6 refused SubscriptionInUse
9 message ID:1-1.1.1 count=1 redelivered=no priority=4 body=text \"a\"
10 ok
11 ok
12 refused InvalidDestination
";

/// A scenario that lets a subscription hold one row.
const LIMITED: &str = r#"{"held": 1, "calls": [
  {"op": "open", "c": 1},
  {"op": "session", "s": [1, 1], "mode": "client"},
  {"op": "consumer", "s": [1, 1], "k": 1, "topic": "t"},
  {"op": "send", "s": [1, 1], "topic": "t", "now": 1000, "text": "a"},
  {"op": "send", "s": [1, 1], "topic": "t", "now": 1000, "text": "b"},
  {"op": "missed", "s": [1, 1], "k": 1}
]}"#;

/// What is printed of it: of two messages one is held.
const ONE_MISSED: &str = "1 ok
2 ok
3 ok
4 sent 1
5 sent 2
6 missed 1
";

/// The same where two may be held.
const NONE_MISSED: &str = "1 ok
2 ok
3 ok
4 sent 1
5 sent 2
6 missed 0
";

/// A scenario in which two sessions, each with a topic of its own, send and receive between a fork and its join.
const FORKED: &str = r#"{"calls": [
  {"op": "open", "c": 1},
  {"op": "session", "s": [1, 1], "mode": "auto"},
  {"op": "session", "s": [1, 2], "mode": "auto"},
  {"op": "consumer", "s": [1, 1], "k": 1, "topic": "t"},
  {"op": "consumer", "s": [1, 2], "k": 1, "topic": "u"},
  {"op": "start", "c": 1},
  {"op": "fork"},
  {"op": "send", "s": [1, 1], "topic": "t", "now": 1000, "text": "a"},
  {"op": "send", "s": [1, 2], "topic": "u", "now": 1000, "text": "b"},
  {"op": "receive", "s": [1, 2], "k": 1, "now": 1000},
  {"op": "receive", "s": [1, 1], "k": 1, "now": 1000},
  {"op": "join"}
]}"#;

const FORKED_LINES: &str = "1 ok
2 ok
3 ok
4 ok
5 ok
6 ok
7 ok
8 sent 1
9 sent 1
10 message ID:1-1.2.1 count=1 redelivered=no priority=4 body=text \"b\"
11 message ID:1-1.1.1 count=1 redelivered=no priority=4 body=text \"a\"
12 ok
";

/// Words with `|` between them, the scenario, and the lines that are printed.
type Row = (&'static str, &'static str, &'static str);

static ROWS: [Row; 15] = [
    ("jmsrun", SCENARIO, LINES),
    ("jmsrun|run|f", SCENARIO, LINES),
    ("jmsrun|run|f|--db|d", SCENARIO, "a fault"),
    ("jmsrun|select|x = 1|f", SCENARIO, "5 TRUE\n"),
    ("jmsrun|lone|f|{\"own\":[1,1,1]}", SCENARIO, LINES_ALONE),
    ("jmsrun", LIMITED, ONE_MISSED),
    ("jmsrun|run|f", LIMITED, ONE_MISSED),
    ("jmsrun|run|f|--held|2", LIMITED, NONE_MISSED),
    (
        "jmsrun|lone|f|{\"own\":[1,1,1]}",
        LIMITED,
        "3 ok\n6 missed 1\n",
    ),
    ("jmsrun|select|x = 1|f", LIMITED, "4 UNKNOWN\n5 UNKNOWN\n"),
    ("jmsrun", QUEUES, QUEUE_LINES),
    ("jmsrun|select|x = 1|f", QUEUES, "6 TRUE\n"),
    ("jmsrun", NAMES, NAMES_LINES),
    (
        "jmsrun|lone|f|{\"durable\":[\"k\",\"n\"]}",
        NAMES,
        DURABLE_ALONE,
    ),
    ("jmsrun|lone|f|{\"durable\":[\"k\",\"n\"]}", SCENARIO, ""),
];

/// The same with threads: what is printed is what is printed without.
static ROWS_OF_THREADS: [Row; 8] = [
    ("jmsrun|run|f|--threads", SCENARIO, LINES),
    ("jmsrun|run|f|--threads", LIMITED, ONE_MISSED),
    ("jmsrun|run|f|--threads|--held|2", LIMITED, NONE_MISSED),
    ("jmsrun|run|f|--threads", QUEUES, QUEUE_LINES),
    ("jmsrun|run|f|--threads", NAMES, NAMES_LINES),
    ("jmsrun|run|f", FORKED, FORKED_LINES),
    ("jmsrun|run|f|--threads", FORKED, FORKED_LINES),
    ("jmsrun|run|f|--threads|--db|d", FORKED, "a fault"),
];

/// No databases: none can be opened.
struct NoDatabases;

impl Databases<MemStore> for NoDatabases {
    fn connect(&self, _name: &str) -> Result<Connection<MemStore>, Error> {
        Err(Error::SqliteFailure(ErrorCode::CannotOpen))
    }
}

/// What doing what the words ask for ends with; what is written goes to the end of `written`.
fn ended<T: Threads + Wait + Sync>(
    rt: &T,
    alloc: Global,
    words: &Words,
    scenario: &str,
    written: &mut Vec<u8>,
) -> Ending
    requires { HasLimit words.now }
{
    let blank = Blank::new(PARTS);
    let mut source = Source::new(Ok(scenario.as_bytes()));
    let mut sink = Sink::new(written);
    perform::<MemStore, NoDatabases, _, _, Brand, T>(
        rt,
        alloc,
        blank,
        words,
        &NoDatabases,
        &mut source,
        &mut sink,
    )
}

/// What is printed for the words that stand between the marks; of words that are refused, and of a fault, so much.
fn printed<T: Threads + Wait + Sync>(
    rt: &T,
    alloc: Global,
    line: &str,
    scenario: &str,
) -> Result<String, AllocError> {
    let words: Vec<&str> = line.split('|').collect(alloc)?;
    let Ok(words) = read_words(alloc, &words) else {
        return String::from_str(alloc, "refused words");
    };
    let mut written = Vec::new(alloc);
    let ending = ended(rt, alloc, &words, scenario, &mut written);
    if ending.status != 0 || ending.fault.is_some() {
        return String::from_str(alloc, "a fault");
    }
    String::from_str(alloc, str::from_utf8(&written).unwrap_or("no text"))
}

#[test]
fn words_are_performed(rt: HostRuntime) {
    for (line, scenario, wanted) in &ROWS {
        is_text(&rt, wanted, printed(&rt, rt.alloc(), line, scenario));
    }
}

#[test]
fn words_are_performed_on_threads(rt: HostRuntime) {
    for (line, scenario, wanted) in &ROWS_OF_THREADS {
        is_text(&rt, wanted, printed(&rt, rt.alloc(), line, scenario));
    }
}
