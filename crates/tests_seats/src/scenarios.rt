//! Scenarios with forks, and what their calls are told.

ghost use Rattle.std.specs.Prelude.{◌≡◌, ◌≤◌};

use jm_base::{Mode, Refusal};
use jm_core::Core;
use jm_keep::NoKeep;
use jm_scenario::Item;
use jm_threaded::{Threaded, ThreadedFault, play_threaded};
use std::alloc::{AllocError, Global};
use std::marker::Brand;
use std::process::Abort;
use std::sync::Wait;
use std::sync::ledger::{Blank, Ledger};
use std::thread::Threads;
use tests_calls::{At, Op, all_shown, call};

/// An item of a scenario in few words.
#[derive(Clone, Copy)]
enum Line {
    Call(Op),
    Fork,
    Join,
}

const T: At = At::Topic("t");

const U: At = At::Topic("u");

/// Two sessions send and receive, each on a topic of its own, at once.
static TALK: [Line; 14] = [
    Line::Call(Op::Open(1)),
    Line::Call(Op::Open(2)),
    Line::Call(Op::Session((1, 1), Mode::Auto)),
    Line::Call(Op::Session((2, 1), Mode::Auto)),
    Line::Call(Op::ConsumerAt((1, 1), 1, T, None, false)),
    Line::Call(Op::ConsumerAt((2, 1), 1, U, None, false)),
    Line::Call(Op::Start(1)),
    Line::Call(Op::Start(2)),
    Line::Fork,
    Line::Call(Op::SendTo(1, T, "a", None)),
    Line::Call(Op::SendTo(2, U, "b", None)),
    Line::Call(Op::Receive((1, 1), 1)),
    Line::Call(Op::Receive((2, 1), 1)),
    Line::Join,
];

/// A session commits while another closes, and what was committed is received behind the join; the end joins the second fork.
static COMMIT: [Line; 16] = [
    Line::Call(Op::Open(1)),
    Line::Call(Op::Open(2)),
    Line::Call(Op::Session((1, 1), Mode::Transacted)),
    Line::Call(Op::Session((2, 1), Mode::Auto)),
    Line::Call(Op::Session((2, 2), Mode::Auto)),
    Line::Call(Op::ConsumerAt((2, 1), 1, T, None, false)),
    Line::Call(Op::Start(2)),
    Line::Fork,
    Line::Call(Op::SendTo(1, T, "a", None)),
    Line::Call(Op::CloseSession((2, 2))),
    Line::Call(Op::Commit((1, 1))),
    Line::Join,
    Line::Call(Op::Receive((2, 1), 1)),
    Line::Fork,
    Line::Call(Op::Receive((2, 1), 1)),
    Line::Call(Op::SendTo(1, T, "b", None)),
];

/// A connection calls between a fork and its join.
static CONNECTION: [Line; 4] = [
    Line::Call(Op::Open(1)),
    Line::Fork,
    Line::Call(Op::Start(1)),
    Line::Join,
];

/// The scenarios of this table.
#[derive(Clone, Copy)]
enum Scenario {
    Talk,
    Commit,
    Connection,
    Empty,
}

/// The items of the scenario.
fn lines(scenario: Scenario) -> &'static [Line] {
    match scenario {
        Scenario::Talk => &TALK,
        Scenario::Commit => &COMMIT,
        Scenario::Connection => &CONNECTION,
        Scenario::Empty => &[],
    }
}

/// A scenario, how many parts the ledger has, and what its calls are told.
type Row = (Scenario, u64, &'static str);

static ROWS: [Row; 6] = [
    (
        Scenario::Talk,
        4,
        "ok, ok, ok, ok, ok, ok, ok, ok, sent 1, sent 1, a#1, b#1, ",
    ),
    (
        Scenario::Talk,
        100,
        "ok, ok, ok, ok, ok, ok, ok, ok, sent 1, sent 1, a#1, b#1, ",
    ),
    (Scenario::Talk, 3, "exhausted"),
    (
        Scenario::Commit,
        5,
        "ok, ok, ok, ok, ok, ok, ok, sent 1, ok, ok, a#1, none, sent 2, ",
    ),
    (Scenario::Connection, 2, "no seat"),
    (Scenario::Empty, 2, ""),
];

fn item(heap: Global, line: Line) -> Result<Item, Refusal> {
    match line {
        Line::Call(op) => Ok(Item::Call(call(heap, op)?)),
        Line::Fork => Ok(Item::Fork),
        Line::Join => Ok(Item::Join),
    }
}

fn items(heap: Global, lines: &[Line]) -> Result<Vec<Item>, Refusal> {
    let mut items = Vec::new(heap);
    for line in lines {
        let item = item(heap, *line)?;
        if items.push(item).is_err() {
            return Err(Refusal::Memory);
        }
    }
    Ok(items)
}

/// What the run told, where its passes account for it.
fn text(heap: Global, threaded: &Threaded<NoKeep>) -> Result<String, AllocError> {
    match &threaded.outcome {
        Ok(told) => match told.verdict {
            Ok(()) => all_shown(heap, &told.replies),
            Err(_) => format!(in heap; "not accounted for"),
        },
        Err(ThreadedFault::NoSeat) => format!(in heap; "no seat"),
        Err(ThreadedFault::Exhausted) => format!(in heap; "exhausted"),
        Err(ThreadedFault::Memory) => format!(in heap; "memory"),
    }
}

fn is_text(heap: Global, threaded: &Threaded<NoKeep>, wanted: &str) -> bool {
    match text(heap, threaded) {
        Ok(text) => text.as_str() == wanted,
        Err(_) => false,
    }
}

/// Whether the calls of the row are told as wanted.
fn is_told<L: Ledger + Send + Sync, R: Threads + Wait + Sync>(
    rt: &R,
    heap: Global,
    blank: Blank,
    parts: u64,
    row: Row,
) -> bool
    requires name { blank.name ≡ L.name }
    requires parts { (blank.parts ≡ L.parts) × (blank.parts ≡ parts) }
    requires some { 2 ≤ parts }
{
    match (Core::new(heap, 1, 100), items(heap, lines(row.0))) {
        (Ok(core), Ok(items)) => {
            let threaded = play_threaded::<NoKeep, L, R>(
                rt, heap, blank, parts, core, NoKeep, items,
            );
            is_text(heap, &threaded, row.2)
        }
        _ => false,
    }
}

/// Asserts that this holds.
fn holds(rt: &impl Abort, holds: bool) {
    assert!(rt; holds);
}

#[test]
fn calls_on_threads_are_told_as_in_turn(rt: HostRuntime) {
    let heap = rt.alloc();
    for row in &ROWS {
        let parts = row.1.max(2);
        let is_told = is_told::<Brand, _>(&rt, heap, Blank::new(parts), parts, *row);
        holds(&rt, is_told);
    }
}
