//! A trace in segments.

ghost use Rattle.std.specs.Prelude.{◌≡◌};

use crate::steps::{Lock, Row, are_made, holds, is_mismatch, new_lock};
use jm_base::Mode;
use jm_broker::{Pass, Trace};
use jm_core::Core;
use std::alloc::Global;
use std::marker::Brand;
use std::sync::Wait;
use std::sync::ledger::{Blank, Ledger};
use tests_calls::Op;

static FIRST: [Row; 3] = [
    (Op::Open(1), "ok"),
    (Op::Session((1, 1), Mode::Auto), "ok"),
    (Op::Consumer((1, 1), 1, None), "ok"),
];

static SECOND: [Row; 1] = [(Op::Start(1), "ok")];

/// Whether its only connection is open and stopped.
fn is_stopped(core: &Core) -> bool {
    match core.connections() {
        [connection] => connection.is_open && !connection.is_started,
        _ => false,
    }
}

/// Whether the segment has those numbers, the pass accounts for it, and with no pass its first event is missing.
fn is_segment<L: Ledger>(
    heap: Global,
    segment: &Trace<Core>,
    first: u64,
    count: usize,
    passes: &[Pass<L>],
) -> bool {
    segment.first() == first
        && segment.events().len() == count
        && segment.gather(heap, passes) == Ok(())
        && is_mismatch(segment.gather(heap, &passes[..0]), 0, first)
}

/// Makes the steps and cuts the trace. None where one is told otherwise, or the cut is refused.
fn cut_after<L: Ledger, R: Wait>(
    rt: &R,
    heap: Global,
    lock: &Lock<L>,
    pass: &mut Pass<L>,
    rows: &[Row],
) -> Option<Trace<Core>> {
    if are_made(rt, heap, lock, pass, rows) {
        lock.cut(rt).ok()
    } else {
        None
    }
}

/// Whether both segments are gathered, and nothing is left for the last.
fn is_gathered<L: Ledger>(
    heap: Global,
    lock: Lock<L>,
    passes: Vec<Pass<L>>,
    first: &Trace<Core>,
    second: &Trace<Core>,
) -> bool {
    let is_cut = is_segment(heap, first, 0, 3, passes.as_slice())
        && is_segment(heap, second, 3, 1, passes.as_slice())
        && is_stopped(second.opening());
    let finished = lock.finish(passes);
    is_cut
        && finished.trace.first() == 4
        && finished.trace.events().is_empty()
        && finished.verdict == Ok(())
}

/// Whether a trace that is cut twice is gathered in three segments.
fn is_cut_twice<L: Ledger, R: Wait>(rt: &R, heap: Global, blank: Blank) -> bool
    requires name { blank.name ≡ L.name }
    requires parts { (blank.parts ≡ L.parts) × (blank.parts ≡ 2) }
{
    let Some(lock) = new_lock::<L>(heap, blank, 2) else {
        return false;
    };
    let Ok(mut pass) = lock.pass(rt) else {
        return false;
    };
    let Some(first) = cut_after(rt, heap, &lock, &mut pass, &FIRST) else {
        return false;
    };
    let Some(second) = cut_after(rt, heap, &lock, &mut pass, &SECOND) else {
        return false;
    };
    match vec![in heap; pass] {
        Ok(passes) => is_gathered(heap, lock, passes, &first, &second),
        Err(_) => false,
    }
}

#[test]
fn cut_trace_is_gathered_segment_by_segment(rt: HostRuntime) {
    let is_cut = is_cut_twice::<Brand, _>(&rt, rt.alloc(), Blank::new(2));
    holds(&rt, "a trace in three segments", is_cut);
}
