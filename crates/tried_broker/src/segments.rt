//! The audit of a segment.

ghost use Rattle.std.specs.Prelude.{◌≡◌};

use crate::locked::{Lock, ask, lock};
use jm_audit::{gather, gather_last};
use jm_base::Refusal;
use jm_broker::{FinishFault, Pass, Trace};
use jm_core::Core;
use std::alloc::Global;
use std::slice;
use std::sync::Wait;
use std::sync::ledger::{Blank, Ledger};
use tests_calls::Op;
use tried::{Answer, Called, Made, Trial, tell, two};

/// A segment of three events, and the passes of two callers.
#[derive(Drop)]
struct Segment<L: Ledger> {
    heap: Global,
    number: usize,
    trace: Trace<Core>,
    passes: Vec<Pass<L>>,
}

/// 1 where the passes account for the segment; else the pass and the index of the first fault, as two numbers behind a 2.
pub(crate) fn verdict(verdict: Result<(), FinishFault>) -> Answer {
    match verdict {
        Ok(()) => Ok(1),
        Err(FinishFault::Memory) => Err(Refusal::Memory),
        Err(FinishFault::Mismatch { pass, index }) => {
            Ok(two(pass, index.min(999) as usize).wrapping_add(2_000_000))
        }
    }
}

/// Makes three calls, the second with the other pass, and cuts the trace.
fn cut<L: Ledger, R: Wait>(
    rt: &R,
    heap: Global,
    lock: &Lock<L>,
    first: &mut Pass<L>,
    second: &mut Pass<L>,
) -> Result<Trace<Core>, Refusal> {
    ask(rt, heap, lock, first, Op::Open(1))?;
    ask(rt, heap, lock, second, Op::Start(1))?;
    ask(rt, heap, lock, first, Op::Stop(1))?;
    lock.cut(rt)
}

fn both<L: Ledger>(heap: Global, first: Pass<L>, second: Pass<L>) -> Result<Vec<Pass<L>>, Refusal> {
    match vec![in heap; first, second] {
        Ok(passes) => Ok(passes),
        Err(_) => Err(Refusal::Memory),
    }
}

/// The audit of a short segment with the first pass alone: the second was left out.
fn left_out<L: Ledger>(heap: Global, trace: &Trace<Core>, passes: &[Pass<L>]) -> Answer {
    let (first, events) = (trace.first(), trace.events());
    if first > 1000 || events.len() > 1000 {
        return Ok(0);
    }
    match passes.first() {
        Some(pass) => verdict(gather(heap, first, events, slice::from_ref(pass))),
        None => Ok(0),
    }
}

/// The audit of a short segment, as the last.
fn last<L: Ledger>(heap: Global, trace: &Trace<Core>, passes: &[Pass<L>]) -> Answer {
    let (first, events) = (trace.first(), trace.events());
    if first > 1000 || events.len() > 1000 {
        return Ok(0);
    }
    verdict(gather_last(heap, first, events, passes))
}

impl<L: Ledger> Segment<L> {
    fn new<R: Wait>(
        rt: &R,
        heap: Global,
        lock: &Lock<L>,
        number: usize,
    ) -> Result<Segment<L>, Refusal> {
        let mut first = lock.pass(rt)?;
        let mut second = lock.pass(rt)?;
        let trace = cut(rt, heap, lock, &mut first, &mut second)?;
        let passes = both(heap, first, second)?;
        Ok(Segment {
            heap,
            number,
            trace,
            passes,
        })
    }
}

impl<L: Ledger> Trial for Segment<L> {
    /// How many events there are, and how many passes.
    fn state(&self) -> u64 {
        two(self.trace.events().len(), self.passes.len())
    }

    fn call(&mut self) -> Called {
        match self.number {
            0 => Called {
                name: "jm_broker Trace::gather",
                answer: verdict(self.trace.gather(self.heap, &self.passes)),
            },
            1 => Called {
                name: "jm_audit gather",
                answer: left_out(self.heap, &self.trace, &self.passes),
            },
            2 => Called {
                name: "jm_audit gather_last",
                answer: last(self.heap, &self.trace, &self.passes),
            },
            _ => Called::NONE,
        }
    }
}

/// Makes the call of that number.
pub fn made<L: Ledger, R: Wait>(rt: &R, heap: Global, blank: Blank, number: usize) -> Made
    requires name { blank.name ≡ L.name }
    requires parts { (blank.parts ≡ L.parts) × (blank.parts ≡ 3) }
{
    match lock::<L>(heap, blank) {
        Ok(lock) => tell(Segment::new(rt, heap, &lock, number)),
        Err(_) => Made::NoMemory,
    }
}
