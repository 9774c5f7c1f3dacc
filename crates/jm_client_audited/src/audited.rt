//! A backend that notes each call.

ghost use Rattle.std.specs.Prelude.{◌≡◌, ◌+◌, ◌<◌, ◌≤◌, ◌++◌, ◌∷◌, [], false, true, length, sum_by, vec_len, IsTrue, IfOk, IfErr, IfSome, OnOk, IsErrOf};
ghost use Rattle.jm_audit.specs.Audit.{segment, Agree, EachOnce, IsFault, Rise};
ghost use Rattle.jm_audit.specs.Passes.{Calls};
ghost use Rattle.jm_broker.specs.Calls.{entry, Gains, HasSame};
ghost use Rattle.jm_broker.specs.Traces.{event, OnMade, OnNotMade};
ghost use Rattle.jm_client.specs.Locked as locked;
ghost use Rattle.jm_client_audited.specs.Audits.{IsAuditedStep, IsNoted, IsUnnoted, calls_by};
ghost use Rattle.jm_client_audited.specs.Callers as spec;
ghost use Rattle.jm_plans.specs.Provider.{state_of};
ghost use Rattle.jm_keep.specs.Persisted.{IsPersisted};
ghost use Rattle.jm_keep.specs.Stored.{HasRisen};
ghost use Rattle.jm_kept.specs.Kept.{KeptFits};
ghost use Rattle.jm_machine.specs.Isolation.{after_events};

use crate::callers::place_of;
use jm_audit::Pass;
use jm_base::{List, Refusal};
use jm_broker::{Finished, NotMade, Traced};
use jm_client::{Backend, Message};
use jm_core::Core;
use jm_dest::SessionId;
use jm_keep::Keep;
use jm_machine::{Answer, Call, Reply, Step, Who};
use std::alloc::{AllocError, Global};
use std::marker::Model;
use std::sync::ledger::{Blank, Ledger};

/// A core with its keeper, whose calls are noted in a trace and in passes: the backend of a test (ours). Each connection that
/// calls has a pass, and each session, in which the calls of its consumers are noted too. Contracts see the trace, the
/// callers, and their passes.
#[derive(Drop)]
pub struct Audited<K: Keep + Drop, L: Ledger> {
    traced: Traced<Core, K, L>,
    callers: Vec<Who>,
    passes: Vec<Pass<L>>,
}

impl<K: Keep + Drop, L: Ledger> Model for Audited<K, L> {
    ghost use Rattle.std.specs.Prelude.{◌≡◌, ◌+◌, vec_len};
    ghost use Rattle.jm_client_audited.specs.Audits.{Audit};

    ghost Value = { Audit K };

    ghost view = { λ a. record { traced = a.traced; callers = a.callers.items; passes = a.passes.items } };

    ghost invariant = { λ a. (vec_len a.callers ≡ vec_len a.passes) × (vec_len a.passes + a.traced.left ≡ L.parts) };
}

/// Gives a new caller a pass: its place. None where memory was wanted, or no part of the ledger is left. Either way nothing is
/// noted.
#[tactic(auto, using(crate::proofs::Seats::calls_pushed))]
fn give_pass<K: Keep + Drop, L: Ledger>(
    traced: &mut Traced<Core, K, L>,
    callers: &mut Vec<Who>,
    passes: &mut Vec<Pass<L>>,
    who: &Who,
) -> Option<usize>
    requires { vec_len callers.old ≡ vec_len passes.old }
    ensures place { IfSome result (λ i. (i ≡ vec_len callers.old) × (callers.new.items ≡ callers.old.items ++ who.now ∷ [])) }
    ensures calls { (w : _) → HasSame (calls_by callers.old.items passes.old.items w) (calls_by callers.new.items passes.new.items w) }
    ensures lengths { vec_len callers.new ≡ vec_len passes.new }
    ensures parts { vec_len passes.new + traced.new.left ≡ vec_len passes.old + traced.old.left }
    ensures same { (traced.new.core ≡ traced.old.core) × (traced.new.keeper ≡ traced.old.keeper) × (traced.new.events ≡ traced.old.events)
        × (traced.new.opening ≡ traced.old.opening) × (traced.new.first ≡ traced.old.first) }
{
    if callers.reserve(1).is_err() || passes.reserve(1).is_err() {
        return None;
    }
    let Some(pass) = traced.split() else {
        return None;
    };
    let place = callers.len();
    callers.push_reserved(*who);
    passes.push_reserved(pass);
    Some(place)
}

/// The place of the caller's pass, which it is given where it has none; or none, where it could not be given one. Either way
/// nothing is noted.
fn seat<K: Keep + Drop, L: Ledger>(
    traced: &mut Traced<Core, K, L>,
    callers: &mut Vec<Who>,
    passes: &mut Vec<Pass<L>>,
    who: &Who,
) -> Option<usize>
    requires { vec_len callers.old ≡ vec_len passes.old }
    ensures place { IfSome result (λ i. (i ≡ spec.place_of callers.new.items who.now) × (i < vec_len callers.new)) }
    ensures calls { (w : _) → HasSame (calls_by callers.old.items passes.old.items w) (calls_by callers.new.items passes.new.items w) }
    ensures lengths { vec_len callers.new ≡ vec_len passes.new }
    ensures parts { vec_len passes.new + traced.new.left ≡ vec_len passes.old + traced.old.left }
    ensures same { (traced.new.core ≡ traced.old.core) × (traced.new.keeper ≡ traced.old.keeper) × (traced.new.events ≡ traced.old.events)
        × (traced.new.opening ≡ traced.old.opening) × (traced.new.first ≡ traced.old.first) }
{
    let place = place_of(callers.as_slice(), who);
    if place < callers.len() {
        return Some(place);
    }
    let Some(place) = give_pass(traced, callers, passes, who) else {
        return None;
    };
    Some(place)
}

/// One step, over the parts of an audited backend, which the caller's pass notes.
fn noted<K: Keep + Drop, L: Ledger>(
    traced: &mut Traced<Core, K, L>,
    callers: &mut Vec<Who>,
    passes: &mut Vec<Pass<L>>,
    step: &Step,
) -> Reply
    requires { vec_len callers.old ≡ vec_len passes.old }
    ensures fits { KeptFits (state_of traced.old.core) step.now.who step.now.call result (state_of traced.new.core) }
    ensures trace { OnMade result (traced.new.events ≡ traced.old.events ++ event step.now result ∷ []) }
    ensures pass { OnMade result (Gains (calls_by callers.old.items passes.old.items step.now.who) (calls_by callers.new.items passes.new.items step.now.who)
        (entry (traced.old.first + length traced.old.events) step.now result ∷ [])) }
    ensures others { (w : _) → spec.who_eq w step.now.who ≡ false →
        HasSame (calls_by callers.old.items passes.old.items w) (calls_by callers.new.items passes.new.items w) }
    ensures unnoted { OnNotMade result ((traced.new.events ≡ traced.old.events)
        × ((w : _) → HasSame (calls_by callers.old.items passes.old.items w) (calls_by callers.new.items passes.new.items w))) }
    ensures rows { IsTrue (K.is_clean traced.new.keeper) → OnNotMade result (K.stored traced.new.keeper ≡ K.stored traced.old.keeper) }
    ensures store { IsErrOf result Refusal.Store → HasRisen (K.faults traced.old.keeper) (K.faults traced.new.keeper) }
    ensures lengths { vec_len callers.new ≡ vec_len passes.new }
    ensures parts { vec_len passes.new + traced.new.left ≡ vec_len passes.old + traced.old.left }
    ensures opening { (traced.new.opening ≡ traced.old.opening) × (traced.new.first ≡ traced.old.first) }
{
    let Some(place) = seat(traced, callers, passes, &step.who) else {
        return Err(Refusal::Memory);
    };
    traced.apply(&mut passes[place], step)
}

/// The step in which the session publishes that message alone. `AllocError` where a request for memory was refused.
fn publication(alloc: Global, session: SessionId, message: Message) -> Result<Step, AllocError>
    ensures { IfOk result (λ step. step ≡ locked.publication session message) }
{
    let mut messages = List::new(Vec::new(alloc));
    messages.push(message)?;
    Ok(Step {
        who: Who::Session(session),
        call: Call::Publish(messages),
    })
}

impl<K: Keep + Drop, L: Ledger> Audited<K, L> {
    /// The core with its keeper, whose trace is empty and begins at position 0, and which nobody called. The blank's ledger
    /// counts the calls, and has as many parts as said: one for each pass, and one more. Core and keeper come back where a
    /// request for memory was refused.
    pub fn new(
        alloc: Global,
        blank: Blank,
        parts: u64,
        core: Core,
        keeper: K,
    ) -> Result<Audited<K, L>, NotMade<Core, K>>
        requires name { blank.name ≡ L.name }
        requires parts { (blank.parts ≡ L.parts) × (blank.parts ≡ parts) }
        requires some { 1 ≤ parts }
        requires kept { IsTrue (K.is_clean keeper) → IsPersisted (state_of core) (K.stored keeper) }
        ensures core { IfOk result (λ made. (made.traced.core ≡ core) × (made.traced.keeper ≡ keeper) × (state_of made.traced.opening ≡ state_of core)) }
        ensures empty { IfOk result (λ made. (made.traced.events ≡ []) × (made.traced.first ≡ 0)) }
        ensures unused { IfOk result (λ made. (made.callers ≡ []) × (made.passes ≡ []) × (made.traced.left ≡ parts)) }
        ensures back { IfErr result (λ back. (back.core ≡ core) × (back.keeper ≡ keeper)) }
    {
        match Traced::new(alloc, blank, parts, core, keeper) {
            Ok(traced) => Ok(Audited {
                traced,
                callers: Vec::new(alloc),
                passes: Vec::new(alloc),
            }),
            Err(back) => Err(back),
        }
    }

    /// One step, as `Traced::apply` makes it, which the trace and the caller's pass note. A refusal is the machine's, and it is
    /// noted. After these two, which come after all others, nothing is noted, and core, passes and keeper are as before:
    ///
    /// - `Memory`: a request for memory was refused, or the trace holds 2^62 events, or no part of the ledger is left for a
    ///   new caller's pass.
    /// - `Store`: the keeper failed: its count of faults rose, or is at its last value.
    pub fn call(&mut self, step: &Step) -> Reply
        ensures fits { KeptFits (state_of self.old.traced.core) step.now.who step.now.call result (state_of self.new.traced.core) }
        ensures noted { OnMade result (IsNoted self.old self.new step.now result) }
        ensures unnoted { OnNotMade result (IsUnnoted self.old self.new) }
        ensures rows { IsTrue (K.is_clean self.new.traced.keeper) → OnNotMade result (K.stored self.new.traced.keeper ≡ K.stored self.old.traced.keeper) }
        ensures store { IsErrOf result Refusal.Store → HasRisen (K.faults self.old.traced.keeper) (K.faults self.new.traced.keeper) }
        ensures opening { (self.new.traced.opening ≡ self.old.traced.opening) × (self.new.traced.first ≡ self.old.traced.first) }
    {
        let Audited {
            traced,
            callers,
            passes,
        } = self;
        noted(traced, callers, passes, step)
    }

    /// Takes all back, with the trace, and says whether the passes account for it, as `Traced::finish` does.
    pub fn finish(self) -> Finished<Core, K>
        ensures same { (result.core ≡ self.traced.core) × (result.keeper ≡ self.traced.keeper) }
        ensures trace { (result.trace.opening ≡ self.traced.opening) × (result.trace.first ≡ self.traced.first) × (result.trace.events ≡ self.traced.events) }
        ensures ends { state_of result.core ≡ after_events (state_of result.trace.opening) result.trace.events }
        ensures kept { IsTrue (K.is_clean result.keeper) → IsPersisted (state_of result.core) (K.stored result.keeper) }
        ensures agree { OnOk result.verdict (Agree (segment result.trace.first result.trace.events true) self.passes) }
        ensures once { OnOk result.verdict (EachOnce (segment result.trace.first result.trace.events true) self.passes) }
        ensures rise { OnOk result.verdict (Rise (segment result.trace.first result.trace.events true) self.passes) }
        ensures fault { IfErr result.verdict (λ fault. IsFault (segment result.trace.first result.trace.events true) self.passes fault) }
        ensures count { sum_by (λ (c : Calls). c.made) self.passes ≡ result.trace.first + length result.trace.events }
    {
        let Audited {
            traced,
            callers: _,
            passes,
        } = self;
        traced.finish(passes)
    }
}

impl<K: Keep + Drop, L: Ledger> Backend for Audited<K, L> {
    ghost core_of = { λ a. a.traced.core };

    ghost IsStep = { IsAuditedStep K.is_clean K.faults K.stored };

    fn core(&self) -> &Core {
        self.traced.core()
    }

    fn apply(&mut self, step: &Step) -> Result<Answer, Refusal> {
        self.call(step)
    }

    fn publish(&mut self, session: SessionId, message: Message) -> Result<Answer, Refusal> {
        match publication(*self.callers.allocator(), session, message) {
            Ok(step) => self.call(&step),
            // No call is made, and none is noted.
            Err(_) => Err(Refusal::Memory),
        }
    }
}
