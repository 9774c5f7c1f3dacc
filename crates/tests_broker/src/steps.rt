//! Steps in few words, made through the lock.

ghost use Rattle.std.specs.Prelude.{◌≡◌, ◌≤◌};

use jm_base::Refusal;
use jm_broker::{Broker, FinishFault, Pass};
use jm_core::{Call, ClientCall, Core, Reply, Step};
use jm_keep::NoKeep;
use std::alloc::Global;
use std::process::Abort;
use std::sync::Wait;
use std::sync::ledger::{Blank, Ledger};
use tests_calls::{Op, call, shown};

pub(crate) type Lock<L> = Broker<Core, NoKeep, L>;

/// A call that carries no messages, and what is told.
pub(crate) type Row = (Op, &'static str);

/// Asserts that this holds.
pub(crate) fn holds(rt: &impl Abort, what: &str, holds: bool) {
    assert!(rt; holds, "{what}");
}

/// The step of a call that carries no messages.
pub(crate) fn asked(heap: Global, op: Op) -> Result<Step, Refusal> {
    match call(heap, op) {
        Ok(ClientCall::Ask { who, request }) => Ok(Step {
            who,
            call: Call::Ask(request),
        }),
        Ok(_) => Err(Refusal::Store),
        Err(refusal) => Err(refusal),
    }
}

/// Whether the reply shows that text.
pub(crate) fn is_told(heap: Global, reply: &Reply, wanted: &str) -> bool {
    match shown(heap, reply) {
        Ok(text) => text.as_str() == wanted,
        Err(_) => false,
    }
}

/// Makes the step; whether it is told so.
fn is_made<L: Ledger, R: Wait>(
    rt: &R,
    heap: Global,
    lock: &Lock<L>,
    pass: &mut Pass<L>,
    row: Row,
) -> bool {
    match asked(heap, row.0) {
        Ok(step) => is_told(heap, &lock.call(rt, pass, &step), row.1),
        Err(_) => false,
    }
}

/// Makes the steps; whether all are told so.
pub(crate) fn are_made<L: Ledger, R: Wait>(
    rt: &R,
    heap: Global,
    lock: &Lock<L>,
    pass: &mut Pass<L>,
    rows: &[Row],
) -> bool {
    for row in rows {
        if !is_made(rt, heap, lock, pass, *row) {
            return false;
        }
    }
    true
}

/// A lock round a new core that has that limit, whose ledger has so many parts. None where a request for memory was refused.
pub(crate) fn new_lock_of<L: Ledger>(
    heap: Global,
    blank: Blank,
    parts: u64,
    limit: u32,
) -> Option<Lock<L>>
    requires name { blank.name ≡ L.name }
    requires parts { (blank.parts ≡ L.parts) × (blank.parts ≡ parts) }
    requires some { 2 ≤ parts }
{
    match Core::new(heap, 1, limit) {
        Ok(core) => Broker::new(heap, blank, parts, core, NoKeep).ok(),
        Err(_) => None,
    }
}

/// The same round a core with a limit of 100,000.
pub(crate) fn new_lock<L: Ledger>(heap: Global, blank: Blank, parts: u64) -> Option<Lock<L>>
    requires name { blank.name ≡ L.name }
    requires parts { (blank.parts ≡ L.parts) × (blank.parts ≡ parts) }
    requires some { 2 ≤ parts }
{
    new_lock_of(heap, blank, parts, 100_000)
}

/// Whether that is the first fault.
pub(crate) fn is_mismatch(
    verdict: Result<(), FinishFault>,
    wanted_pass: usize,
    wanted_index: u64,
) -> bool {
    match verdict {
        Err(FinishFault::Mismatch { pass, index }) => pass == wanted_pass && index == wanted_index,
        _ => false,
    }
}
