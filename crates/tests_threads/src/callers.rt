//! Two threads that call at once.

ghost use Rattle.std.specs.Prelude.{◌≡◌};

use crate::steps::{Lock, Parcel, Row, are_made, holds, is_received, is_sent, new_lock};
use jm_base::Mode;
use jm_broker::{Pass, Trace};
use jm_core::{Core, Reply};
use std::alloc::Global;
use std::marker::Brand;
use std::sync::Wait;
use std::sync::ledger::{Blank, Ledger};
use std::thread::{Threads, join};
use tests_calls::{At, Kind, Op};
use told_alone::{is_alone, receiver_of, told};

const Q: At = At::Queue("q");

const T: At = At::Topic("t");

/// How the first thread begins.
static FIRST: [Row; 6] = [
    (Op::Session((1, 1), Mode::Auto), "ok"),
    (Op::Session((3, 1), Mode::Auto), "ok"),
    (Op::Consumer((1, 1), 1, Some("x > 0")), "ok"),
    (Op::Named((3, 1), 1, Kind::Shared, "g", None), "ok"),
    (Op::Start(1), "ok"),
    (Op::Start(3), "ok"),
];

/// How the second thread begins.
static SECOND: [Row; 5] = [
    (Op::Session((2, 1), Mode::Transacted), "ok"),
    (Op::Session((4, 1), Mode::Auto), "ok"),
    (Op::ConsumerAt((4, 1), 1, Q, None, false), "ok"),
    (Op::Start(2), "ok"),
    (Op::Start(4), "ok"),
];

/// How the first thread ends: what the shared subscription got.
static SHARED: [Row; 3] = [
    (Op::Receive((3, 1), 1), "y#1"),
    (Op::Receive((3, 1), 1), "m#1"),
    (Op::Receive((3, 1), 1), "none"),
];

const Y: Parcel = Parcel {
    by: (1, 1),
    mode: Mode::Auto,
    at: T,
    text: "y",
    x: Some(1),
    before: 0,
};

const H: Parcel = Parcel {
    by: (1, 1),
    mode: Mode::Auto,
    at: Q,
    text: "h",
    x: None,
    before: 1,
};

const M: Parcel = Parcel {
    by: (2, 1),
    mode: Mode::Transacted,
    at: T,
    text: "m",
    x: Some(1),
    before: 0,
};

/// What a thread hands back: its pass, whether all was told as wanted, and the trace so far where it cut it.
#[derive(Drop)]
struct Caller<L: Ledger> {
    pass: Pass<L>,
    is_told: bool,
    segment: Option<Trace<Core>>,
}

/// The first thread publishes y and gets it, sends h to the queue, and waits for m.
fn first_caller<L: Ledger, R: Wait>(
    rt: &R,
    heap: Global,
    lock: &Lock<L>,
    pass: Pass<L>,
) -> Caller<L> {
    let mut pass = pass;
    let is_told = are_made(rt, heap, lock, &mut pass, &FIRST)
        && is_sent(rt, heap, lock, &mut pass, Y)
        && is_received(rt, heap, lock, &mut pass, (1, 1), "y#1")
        && is_sent(rt, heap, lock, &mut pass, H)
        && is_received(rt, heap, lock, &mut pass, (1, 1), "m#1")
        && are_made(rt, heap, lock, &mut pass, &SHARED);
    Caller {
        pass,
        is_told,
        segment: None,
    }
}

/// The trace so far, where it is asked for; none where the cut is refused.
fn cut<L: Ledger, R: Wait>(rt: &R, lock: &Lock<L>, is_asked: bool) -> Option<Trace<Core>> {
    if is_asked { lock.cut(rt).ok() } else { None }
}

/// The second thread waits for h, and commits m.
fn second_caller<L: Ledger, R: Wait>(
    rt: &R,
    heap: Global,
    lock: &Lock<L>,
    pass: Pass<L>,
    cuts: bool,
) -> Caller<L> {
    let mut pass = pass;
    let is_told = are_made(rt, heap, lock, &mut pass, &SECOND)
        && is_received(rt, heap, lock, &mut pass, (4, 1), "h#1")
        && is_sent(rt, heap, lock, &mut pass, M);
    Caller {
        pass,
        is_told,
        segment: cut(rt, lock, cuts),
    }
}

fn both<L: Ledger + Send + Sync, R: Threads + Wait + Sync>(
    rt: &R,
    heap: Global,
    lock: &Lock<L>,
    first: Pass<L>,
    second: Pass<L>,
    cuts: bool,
) -> (Caller<L>, Caller<L>) {
    join(
        rt,
        move || first_caller(rt, heap, lock, first),
        move || second_caller(rt, heap, lock, second, cuts),
    )
}

/// Whether connections 1 to 4 are open before the first event, and nothing else was made.
fn is_opening(core: &Core) -> bool {
    core.connections().len() == 4 && core.consumers().is_empty()
}

/// What session 1.1 was told from that position up to that end.
fn told_between<L: Ledger>(
    heap: Global,
    pass: &Pass<L>,
    first: u64,
    end: u64,
) -> Option<Vec<Reply>> {
    match receiver_of(1) {
        Ok(receiver) => told(heap, pass, receiver, first, end).ok(),
        Err(_) => None,
    }
}

fn is_told_alone(heap: Global, trace: &Trace<Core>, told: &[Reply]) -> bool {
    match receiver_of(1) {
        Ok(receiver) => is_alone(heap, trace, receiver, told),
        Err(_) => false,
    }
}

/// Whether the passes account for the segment, and session 1.1 was told in it what its subscription answers alone.
fn is_segment<L: Ledger>(
    heap: Global,
    segment: &Trace<Core>,
    end: u64,
    passes: &[Pass<L>],
) -> bool {
    if passes.is_empty() || segment.gather(heap, passes) != Ok(()) {
        return false;
    }
    match told_between(heap, &passes[0], segment.first(), end) {
        Some(told) => is_told_alone(heap, segment, told.as_slice()),
        None => false,
    }
}

/// The same of the last segment, which begins at that position.
fn is_last_segment<L: Ledger>(
    heap: Global,
    lock: Lock<L>,
    first: u64,
    passes: Vec<Pass<L>>,
) -> bool {
    if passes.is_empty() {
        return false;
    }
    match told_between(heap, &passes[0], first, u64::MAX) {
        Some(told) => {
            let finished = lock.finish(passes);
            finished.verdict == Ok(())
                && finished.trace.first() == first
                && is_told_alone(heap, &finished.trace, told.as_slice())
                && (first > 0 || is_opening(finished.trace.opening()))
        }
        None => false,
    }
}

/// The same of both segments.
fn are_segments<L: Ledger>(
    heap: Global,
    lock: Lock<L>,
    segment: &Trace<Core>,
    passes: Vec<Pass<L>>,
) -> bool {
    let end = segment
        .first()
        .saturating_add(segment.events().len() as u64);
    segment.first() == 0
        && is_opening(segment.opening())
        && is_segment(heap, segment, end, passes.as_slice())
        && is_last_segment(heap, lock, end, passes)
}

/// Whether all was told as wanted, and the trace, in two segments where it was to be cut, is accounted for.
fn are_accounted_for<L: Ledger>(
    heap: Global,
    lock: Lock<L>,
    first: Caller<L>,
    second: Caller<L>,
    cuts: bool,
) -> bool {
    let is_told = first.is_told && second.is_told;
    let Ok(passes) = vec![in heap; first.pass, second.pass] else {
        return false;
    };
    match second.segment {
        Some(segment) => cuts && is_told && are_segments(heap, lock, &segment, passes),
        None => !cuts && is_told && is_last_segment(heap, lock, 0, passes),
    }
}

/// Whether two threads meet: each gets what the other sends while both call.
fn callers_meet<L: Ledger + Send + Sync, R: Threads + Wait + Sync>(
    rt: &R,
    heap: Global,
    blank: Blank,
    cuts: bool,
) -> bool
    requires name { blank.name ≡ L.name }
    requires parts { (blank.parts ≡ L.parts) × (blank.parts ≡ 3) }
{
    let Some(lock) = new_lock::<L>(heap, blank, 3) else {
        return false;
    };
    let (Ok(first), Ok(second)) = (lock.pass(rt), lock.pass(rt)) else {
        return false;
    };
    let (first, second) = both(rt, heap, &lock, first, second, cuts);
    are_accounted_for(heap, lock, first, second, cuts)
}

#[test]
fn two_callers_meet(rt: HostRuntime) {
    let heap = rt.alloc();
    for cuts in [false, true] {
        let is_met = callers_meet::<Brand, _>(&rt, heap, Blank::new(3), cuts);
        holds(&rt, if cuts { "in two segments" } else { "in one" }, is_met);
    }
}
