//! A lock round a new core.

ghost use Rattle.std.specs.Prelude.{◌≡◌};

use jm_base::Refusal;
use jm_broker::{Broker, Pass};
use jm_core::Core;
use jm_keep::NoKeep;
use jm_machine::Step;
use std::alloc::Global;
use std::sync::Wait;
use std::sync::ledger::{Blank, Ledger};
use tests_calls::Op;
use tried::Answer;
use tried_core::cores::step;

pub(crate) type Lock<L> = Broker<Core, NoKeep, L>;

/// A lock round a new core, whose ledger has three parts.
pub(crate) fn lock<L: Ledger>(heap: Global, blank: Blank) -> Result<Lock<L>, Refusal>
    requires name { blank.name ≡ L.name }
    requires parts { (blank.parts ≡ L.parts) × (blank.parts ≡ 3) }
{
    let core = Core::new(heap, 1, 100_000)?;
    match Broker::new(heap, blank, 3, core, NoKeep) {
        Ok(lock) => Ok(lock),
        Err(_) => Err(Refusal::Memory),
    }
}

/// Makes the step through the lock; how many entries the pass has then.
pub(crate) fn make<L: Ledger, R: Wait>(
    rt: &R,
    lock: &Lock<L>,
    pass: &mut Pass<L>,
    step: &Step,
) -> Answer {
    match lock.call(rt, pass, step) {
        Ok(_) => Ok(pass.entries().len() as u64),
        Err(refusal) => Err(refusal),
    }
}

/// Makes a call that carries no messages.
pub(crate) fn ask<L: Ledger, R: Wait>(
    rt: &R,
    heap: Global,
    lock: &Lock<L>,
    pass: &mut Pass<L>,
    op: Op,
) -> Answer {
    match step(heap, op) {
        Ok(step) => make(rt, lock, pass, &step),
        Err(refusal) => Err(refusal),
    }
}

/// Makes such calls.
pub(crate) fn ask_all<L: Ledger, R: Wait>(
    rt: &R,
    heap: Global,
    lock: &Lock<L>,
    pass: &mut Pass<L>,
    ops: &[Op],
) -> Result<(), Refusal> {
    for op in ops {
        ask(rt, heap, lock, pass, *op)?;
    }
    Ok(())
}
