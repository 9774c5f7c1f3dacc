//! An audited backend.

ghost use Rattle.std.specs.Prelude.{◌≡◌};

use crate::openings::{Backend, audit_over};
use jm_base::Refusal;
use jm_broker::FinishFault;
use jm_client::Backend as MakesCalls;
use jm_machine::Step;
use std::alloc::Global;
use std::marker::Brand;
use std::sync::ledger::{Blank, Ledger};
use tests_calls::Op;
use tried::{Answer, Called, Made, Trial, tell};
use tried_broker::anew::Run;
use tried_core::cores::{core, numbers, step};

/// A backend over a core that holds messages, and a step.
#[derive(Drop)]
struct Noted<L: Ledger> {
    number: usize,
    step: Step,
    backend: Backend<L>,
}

/// Makes the step; what the core's readers show then.
fn call<L: Ledger>(backend: &mut Backend<L>, step: &Step) -> Answer {
    match backend.call(step) {
        Ok(_) => Ok(numbers(backend.core())),
        Err(refusal) => Err(refusal),
    }
}

impl<L: Ledger> Noted<L> {
    fn new(heap: Global, blank: Blank, number: usize) -> Result<Noted<L>, Refusal>
        requires name { blank.name ≡ L.name }
        requires parts { (blank.parts ≡ L.parts) × (blank.parts ≡ 3) }
    {
        let step = step(heap, Op::Stop(1))?;
        let core = core(heap)?;
        match audit_over(heap, blank, core) {
            Ok(backend) => Ok(Noted {
                number,
                step,
                backend,
            }),
            Err(_) => Err(Refusal::Memory),
        }
    }
}

impl<L: Ledger> Trial for Noted<L> {
    /// How many messages the core holds, and how many consumers there are.
    fn state(&self) -> u64 {
        numbers(self.backend.core())
    }

    fn call(&mut self) -> Called {
        match self.number {
            0 => Called {
                name: "jm_client_audited Audited::call",
                answer: call(&mut self.backend, &self.step),
            },
            _ => Called::NONE,
        }
    }
}

/// Makes the step twice, and ends the audit; where that wanted memory, both events came back.
fn end<L: Ledger>(mut noted: Noted<L>) -> Run {
    let one = call(&mut noted.backend, &noted.step);
    let other = call(&mut noted.backend, &noted.step);
    if one.is_err() || other.is_err() {
        return Run::NotBegun;
    }
    let Noted {
        number: _,
        step: _step,
        backend,
    } = noted;
    let finished = backend.finish();
    let after = finished.trace.events().len() as u64;
    match finished.verdict {
        Ok(()) => Run::Ended(Ok(after)),
        Err(FinishFault::Memory) => Run::BrokeOff { before: 2, after },
        Err(FinishFault::Mismatch { .. }) => Run::Ended(Ok(0)),
    }
}

fn run<L: Ledger>(heap: Global, blank: Blank) -> Run
    requires name { blank.name ≡ L.name }
    requires parts { (blank.parts ≡ L.parts) × (blank.parts ≡ 3) }
{
    match Noted::<L>::new(heap, blank, 0) {
        Ok(noted) => end(noted),
        Err(_) => Run::NotBegun,
    }
}

/// Makes the call of the backend.
fn made_on<L: Ledger>(heap: Global, blank: Blank, number: usize) -> Made
    requires name { blank.name ≡ L.name }
    requires parts { (blank.parts ≡ L.parts) × (blank.parts ≡ 3) }
{
    tell(Noted::<L>::new(heap, blank, number))
}

/// Ends the audit, and where that wanted memory ends another.
fn made_at_the_end(heap: Global) -> Made {
    let first = run::<Brand>(heap, Blank::new(3));
    let again = if first.is_broken_off() {
        run::<Brand>(heap, Blank::new(3))
    } else {
        first
    };
    first.told("jm_client_audited Audited::finish", again)
}

/// Makes the call of that number.
pub fn made(heap: Global, number: usize) -> Made {
    match number {
        0 => made_on::<Brand>(heap, Blank::new(3), number),
        1 => made_at_the_end(heap),
        _ => Made::NoCall,
    }
}
