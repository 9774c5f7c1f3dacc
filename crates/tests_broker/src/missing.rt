//! Passes that are not handed in, and those that are not handed out.

ghost use Rattle.std.specs.Prelude.{◌≡◌};

use crate::steps::{Lock, Row, are_made, holds, is_mismatch, new_lock};
use jm_base::Refusal;
use jm_broker::Pass;
use std::alloc::Global;
use std::marker::Brand;
use std::sync::Wait;
use std::sync::ledger::{Blank, Ledger};
use tests_calls::Op;

static FIRST: [Row; 1] = [(Op::Open(1), "ok")];

static SECOND: [Row; 1] = [(Op::Start(1), "ok")];

static THIRD: [Row; 1] = [(Op::Stop(1), "ok")];

/// Whether three calls are made, the second with the second pass.
fn calls_thrice<L: Ledger, R: Wait>(
    rt: &R,
    heap: Global,
    lock: &Lock<L>,
    first: &mut Pass<L>,
    second: &mut Pass<L>,
) -> bool {
    are_made(rt, heap, lock, first, &FIRST)
        && are_made(rt, heap, lock, second, &SECOND)
        && are_made(rt, heap, lock, first, &THIRD)
}

/// Whether the second event is found missing, where its pass is left out, or the first, where both are.
fn is_missed<L: Ledger, R: Wait>(rt: &R, heap: Global, blank: Blank, leaves_both: bool) -> bool
    requires name { blank.name ≡ L.name }
    requires parts { (blank.parts ≡ L.parts) × (blank.parts ≡ 3) }
{
    let Some(lock) = new_lock::<L>(heap, blank, 3) else {
        return false;
    };
    let (Ok(mut first), Ok(mut second)) = (lock.pass(rt), lock.pass(rt)) else {
        return false;
    };
    let is_called = calls_thrice(rt, heap, &lock, &mut first, &mut second);
    if leaves_both {
        return is_called && is_mismatch(lock.finish(Vec::new(heap)).verdict, 0, 0);
    }
    match vec![in heap; first] {
        Ok(passes) => is_called && is_mismatch(lock.finish(passes).verdict, 1, 1),
        Err(_) => false,
    }
}

/// Whether a lock of two parts hands out one pass alone.
fn hands_out_one<L: Ledger, R: Wait>(rt: &R, heap: Global, blank: Blank) -> bool
    requires name { blank.name ≡ L.name }
    requires parts { (blank.parts ≡ L.parts) × (blank.parts ≡ 2) }
{
    match new_lock::<L>(heap, blank, 2) {
        Some(lock) => {
            let first = lock.pass(rt);
            first.is_ok() && matches!(lock.pass(rt), Err(Refusal::Exhausted))
        }
        None => false,
    }
}

#[test]
fn pass_left_out(rt: HostRuntime) {
    let heap = rt.alloc();
    let one_missed = is_missed::<Brand, _>(&rt, heap, Blank::new(3), false);
    holds(&rt, "the second of three events is missing", one_missed);
    let all_missed = is_missed::<Brand, _>(&rt, heap, Blank::new(3), true);
    holds(&rt, "three events and no pass", all_missed);
}

#[test]
fn two_parts_are_one_pass(rt: HostRuntime) {
    let is_one = hands_out_one::<Brand, _>(&rt, rt.alloc(), Blank::new(2));
    holds(&rt, "one pass of two parts", is_one);
}
