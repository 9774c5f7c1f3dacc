//! Audited backends and providers that are made.

ghost use Rattle.std.specs.Prelude.{◌≡◌, ◌^◌};

use jm_base::Refusal;
use jm_broker::NotMade;
use jm_client::{Error, Provider};
use jm_client_audited::{Audited, PARTS, in_memory};
use jm_core::Core;
use jm_keep::NoKeep;
use std::alloc::Global;
use std::marker::Brand;
use std::sync::Wait;
use std::sync::ledger::{Blank, Ledger};
use std::time::Clock;
use tried::{Answer, Left, Made};
use tried_broker::anew::Run;
use tried_core::cores::{core, numbers};

pub(crate) type Backend<L> = Audited<NoKeep, L>;

/// A backend over the core, whose ledger has three parts; or the core again, where memory was wanted.
pub(crate) fn audit_over<L: Ledger>(
    heap: Global,
    blank: Blank,
    core: Core,
) -> Result<Backend<L>, Core>
    requires name { blank.name ≡ L.name }
    requires parts { (blank.parts ≡ L.parts) × (blank.parts ≡ 3) }
{
    let backend: Result<Backend<L>, NotMade<Core, NoKeep>> = Audited::new(
        heap, blank, 3, core, NoKeep,
    );
    match backend {
        Ok(backend) => Ok(backend),
        Err(back) => Err(back.core),
    }
}

/// How many parts the backend's ledger has; or the core again, where memory was wanted.
fn opened<L: Ledger>(heap: Global, blank: Blank, core: Core) -> Result<u64, Core>
    requires name { blank.name ≡ L.name }
    requires parts { (blank.parts ≡ L.parts) × (blank.parts ≡ 3) }
{
    match audit_over::<L>(heap, blank, core) {
        Ok(_) => Ok(3),
        Err(core) => Err(core),
    }
}

/// What is told as a backend is made over that core again.
fn again(heap: Global, core: Core) -> Answer {
    match opened::<Brand>(heap, Blank::new(3), core) {
        Ok(parts) => Ok(parts),
        Err(_) => Err(Refusal::Memory),
    }
}

/// A backend is made over the core, and where that wanted memory it is made again.
fn run(heap: Global, core: Core) -> Run {
    let before = numbers(&core);
    match opened::<Brand>(heap, Blank::new(3), core) {
        Ok(parts) => Run::Ended(Ok(parts)),
        Err(core) => Run::WentOn(Left {
            before,
            after: numbers(&core),
            again: again(heap, core),
        }),
    }
}

/// How many connections a new audited provider has.
fn provided<L: Ledger, R: Wait + Clock>(rt: &R, heap: Global, blank: Blank) -> Answer
    requires name { blank.name ≡ L.name }
    requires parts { (blank.parts ≡ L.parts) × (blank.parts ≡ 2 ^ 33) }
{
    let made: Result<Provider<'_, R, Backend<L>>, Error> = in_memory(rt, heap, blank);
    match made {
        Ok(provider) => Ok(provider.overview().connections as u64),
        Err(error) => Err(error.refusal()),
    }
}

/// A provider is made.
fn run_provided<R: Wait + Clock>(rt: &R, heap: Global) -> Run {
    match provided::<Brand, _>(rt, heap, Blank::new(PARTS)) {
        Err(Refusal::Memory) => Run::BrokeOff {
            before: 0,
            after: 0,
        },
        answer => Run::Ended(answer),
    }
}

/// A backend is made over a core that holds messages.
fn made_over(heap: Global) -> Made {
    match core(heap) {
        Ok(core) => run(heap, core).told("jm_client_audited Audited::new", Run::NotBegun),
        Err(_) => Made::NoMemory,
    }
}

/// A provider is made, and where that wanted memory another.
fn made_in_memory<R: Wait + Clock>(rt: &R, heap: Global) -> Made {
    let first = run_provided(rt, heap);
    let again = if first.is_broken_off() {
        run_provided(rt, heap)
    } else {
        first
    };
    first.told("jm_client_audited in_memory", again)
}

/// Makes the call of that number.
pub fn made<R: Wait + Clock>(rt: &R, heap: Global, number: usize) -> Made {
    match number {
        0 => made_over(heap),
        1 => made_in_memory(rt, heap),
        _ => Made::NoCall,
    }
}
