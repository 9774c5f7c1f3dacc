//! A run at whose end a pass is left out: its event is missing.

ghost use Rattle.std.specs.Prelude.{◌≡◌};

use crate::anew::Run;
use crate::locked::{Lock, ask, lock};
use crate::segments::verdict;
use jm_base::Refusal;
use jm_broker::{Finished, Pass};
use jm_core::Core;
use jm_keep::NoKeep;
use std::alloc::Global;
use std::marker::Brand;
use std::sync::Wait;
use std::sync::ledger::{Blank, Ledger};
use tests_calls::Op;
use tried::{Answer, Left, Made};

/// The run, as it is named.
const NAME: &str = "pass_left_out";

/// A lock, the passes of two callers, and room for one of them.
#[derive(Drop)]
struct Callers<L: Ledger> {
    lock: Lock<L>,
    first: Pass<L>,
    second: Pass<L>,
    passes: Vec<Pass<L>>,
}

/// What the pass showed before and after a call that wanted memory.
type Wanted = Option<(u64, u64)>;

fn two_callers<L: Ledger, R: Wait>(
    rt: &R,
    heap: Global,
    lock: Lock<L>,
) -> Result<Callers<L>, Refusal> {
    let passes = match Vec::with_capacity(heap, 1) {
        Ok(passes) => passes,
        Err(_) => return Err(Refusal::Memory),
    };
    let first = lock.pass(rt)?;
    let second = lock.pass(rt)?;
    Ok(Callers {
        lock,
        first,
        second,
        passes,
    })
}

fn entries<L: Ledger>(pass: &Pass<L>) -> u64 {
    pass.entries().len() as u64
}

/// Makes the call, and makes it again where it wanted memory, which is noted.
fn insist<L: Ledger, R: Wait>(
    rt: &R,
    heap: Global,
    lock: &Lock<L>,
    pass: &mut Pass<L>,
    op: Op,
    wanted: &mut Wanted,
) -> Answer {
    let before = entries(pass);
    match ask(rt, heap, lock, pass, op) {
        Err(Refusal::Memory) => {
            *wanted = Some((before, entries(pass)));
            ask(rt, heap, lock, pass, op)
        }
        answer => answer,
    }
}

impl<L: Ledger> Callers<L> {
    /// Makes three calls, the second with the other pass.
    fn call<R: Wait>(&mut self, rt: &R, heap: Global, wanted: &mut Wanted) -> Answer {
        let Callers {
            lock,
            first,
            second,
            passes: _,
        } = self;
        insist(rt, heap, lock, first, Op::Open(1), wanted)?;
        insist(rt, heap, lock, second, Op::Start(1), wanted)?;
        insist(rt, heap, lock, first, Op::Stop(1), wanted)
    }

    /// How many entries the passes have.
    fn noted(&self) -> u64 {
        entries(&self.first).wrapping_add(entries(&self.second))
    }

    /// Ends the run without the second pass.
    fn finish(self) -> Finished<Core, NoKeep> {
        let Callers {
            lock,
            first,
            second: _second,
            mut passes,
        } = self;
        let _ = passes.push(first);
        lock.finish(passes)
    }
}

/// The end of the run. Where the audit wanted memory, all events came back.
fn ended<L: Ledger>(callers: Callers<L>) -> Run {
    let before = callers.noted();
    let finished = callers.finish();
    let after = finished.trace.events().len() as u64;
    match verdict(finished.verdict) {
        Err(Refusal::Memory) => Run::BrokeOff { before, after },
        answer => Run::Ended(answer),
    }
}

/// The same where a call wanted memory before, and its pass showed that.
fn ended_after<L: Ledger>(callers: Callers<L>, before: u64, after: u64) -> Run {
    Run::WentOn(Left {
        before,
        after,
        again: verdict(callers.finish().verdict),
    })
}

/// The calls of the run, and its end.
fn run_of<L: Ledger, R: Wait>(rt: &R, heap: Global, mut callers: Callers<L>) -> Run {
    let mut wanted = None;
    let made = callers.call(rt, heap, &mut wanted);
    match (wanted, made) {
        (Some((before, after)), Err(refusal)) => Run::WentOn(Left {
            before,
            after,
            again: Err(refusal),
        }),
        (Some((before, after)), Ok(_)) => ended_after(callers, before, after),
        (None, Ok(_)) => ended(callers),
        (None, Err(refusal)) => Run::Ended(Err(refusal)),
    }
}

fn run_on<L: Ledger, R: Wait>(rt: &R, heap: Global, lock: Lock<L>) -> Run {
    match two_callers(rt, heap, lock) {
        Ok(callers) => run_of(rt, heap, callers),
        Err(_) => Run::NotBegun,
    }
}

fn run<L: Ledger, R: Wait>(rt: &R, heap: Global, blank: Blank) -> Run
    requires name { blank.name ≡ L.name }
    requires parts { (blank.parts ≡ L.parts) × (blank.parts ≡ 3) }
{
    match lock::<L>(heap, blank) {
        Ok(lock) => run_on(rt, heap, lock),
        Err(_) => Run::NotBegun,
    }
}

/// Makes the run, and makes it anew where its end wanted memory.
pub fn made<R: Wait>(rt: &R, heap: Global, number: usize) -> Made {
    if number > 0 {
        return Made::NoCall;
    }
    let first = run::<Brand, _>(rt, heap, Blank::new(3));
    let again = if first.is_broken_off() {
        run::<Brand, _>(rt, heap, Blank::new(3))
    } else {
        first
    };
    first.told(NAME, again)
}
