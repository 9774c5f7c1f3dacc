//! A trace that was handed out.

ghost use Rattle.std.specs.Prelude.{◌≡◌, ◌≤◌, ◌^◌, ℕ, false, length, IfErr, OnOk};
ghost use Rattle.jm_audit.specs.Audit.{segment, Agree, EachOnce, IsFault, Rise};
ghost use Rattle.jm_machine.specs.Isolation.{IsLegal};

use crate::planned::PlannedCore;
use jm_audit::{FinishFault, Pass, gather};
use jm_machine::Event;
use std::alloc::Global;
use std::marker::Model;
use std::sync::ledger::Ledger;

/// Events with the core from which they are legal: each reply is the machine's, from the core's state on. Contracts see that
/// core, the position of the first event, and the events.
#[derive(Drop)]
pub struct Trace<C: PlannedCore> {
    pub(crate) opening: C,
    pub(crate) first: u64,
    pub(crate) events: Vec<Event>,
}

impl<C: PlannedCore> Model for Trace<C> {
    ghost use Rattle.std.specs.Prelude.{◌≤◌, ◌^◌, length};
    ghost use Rattle.jm_machine.specs.Isolation.{IsLegal};
    ghost use Rattle.jm_broker.specs.Traces.{Segment};

    ghost Value = { Segment C };

    ghost view = { λ t. record { opening = t.opening; first = t.first; events = t.events.items } };

    ghost invariant = { λ t. IsLegal (C.state t.opening) t.events.items × (t.first ≤ 2 ^ 62) × (length t.events.items ≤ 2 ^ 62) };
}

impl<C: PlannedCore> Trace<C> {
    /// The law of each trace, proved; the function itself does nothing.
    ///
    /// Its events are legal from its opening: the laws over legal lists of events hold of it.
    pub fn law_legal(&self)
        ensures legal { IsLegal (C.state self.now.opening) self.now.events }
        ensures range { (self.now.first ≤ 2 ^ 62) × (length self.now.events ≤ 2 ^ 62) }
    {
        let _ = &self.first;
    }

    /// The core as it was before the first event.
    pub fn opening(&self) -> &C
        ensures { result.now ≡ self.now.opening }
    {
        &self.opening
    }

    /// The position of the first event, at most 2^62; positions count on over all segments of a trace.
    pub fn first(&self) -> u64
        ensures { result ≡ self.now.first }
    {
        self.first
    }

    /// The events, in order, at most 2^62.
    pub fn events(&self) -> &[Event]
        ensures { result.now ≡ self.now.events }
    {
        self.events.as_slice()
    }

    /// Whether the passes account for this segment of the trace, as `jm_audit::gather` says, with its faults.
    pub fn gather<L: Ledger>(&self, alloc: Global, passes: &[Pass<L>]) -> Result<(), FinishFault>
        ensures agree { OnOk result (Agree (segment self.now.first self.now.events false) passes.now) }
        ensures once { OnOk result (EachOnce (segment self.now.first self.now.events false) passes.now) }
        ensures rise { OnOk result (Rise (segment self.now.first self.now.events false) passes.now) }
        ensures fault { IfErr result (λ fault. IsFault (segment self.now.first self.now.events false) passes.now fault) }
    {
        gather(alloc, self.first, self.events.as_slice(), passes)
    }
}
