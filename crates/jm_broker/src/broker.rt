//! The lock, and what threads call.

ghost use Rattle.std.specs.Prelude.{◌≡◌, ◌⊎◌, ◌≤◌, ◌<◌, ◌+◌, ◌^◌, [], ℕ, true, IsTrue, OnOk, IfOk, IfErr, length, sum_by, vec_len};
ghost use Rattle.jm_audit.specs.Audit.{segment, Agree, EachOnce, IsFault, Rise};
ghost use Rattle.jm_audit.specs.Passes.{Calls};
ghost use Rattle.jm_broker.specs.Calls.{Noted, Received, is_nothing as is_nothing_reply};
ghost use Rattle.jm_broker.specs.Traces.{Seen, IsHeld};
ghost use Rattle.jm_keep.specs.Persisted.{IsPersisted};
ghost use Rattle.jm_machine.specs.Isolation.{after_events};

use crate::planned::PlannedCore;
use crate::trace::Trace;
use crate::traced::{Finished, NotMade, Traced};
use jm_audit::Pass;
use jm_base::Refusal;
use jm_dest::{ConsumerId, Moment, SessionId};
use jm_keep::Keep;
use jm_machine::{Answer, Reply, Step};
use std::alloc::Global;
use std::sync::ledger::{Blank, Ledger};
use std::sync::{Condvar, Mutex, Wait};

/// Tells the moment (ours).
pub trait Clock {
    /// The moment now.
    fn now(&self) -> Moment;
}

/// One lock round a core, its keeper and the trace of all calls, for threads that call at once (ours). The ledger counts the
/// events. Each hold of the lock is one step, one receive of a waiting one, one cut, or one pass that is handed out. Nothing
/// is promised of how long a thread waits, or of the order in which those that wait go on.
#[derive(Drop)]
pub struct Broker<C: PlannedCore, K: Keep + Drop, L: Ledger> {
    traced: Mutex<Traced<C, K, L>>,
    changed: Condvar,
}

impl<C: PlannedCore, K: Keep + Drop, L: Ledger> Broker<C, K, L> {
    /// A broker for a core with its keeper. The blank's ledger counts its events, and has as many parts as said, of which
    /// each pass has one and the broker one. Core and keeper come back where a request for memory was refused.
    pub fn new(
        alloc: Global,
        blank: Blank,
        parts: u64,
        core: C,
        keeper: K,
    ) -> Result<Broker<C, K, L>, NotMade<C, K>>
        requires name { blank.name ≡ L.name }
        requires parts { (blank.parts ≡ L.parts) × (blank.parts ≡ parts) }
        requires some { 2 ≤ parts }
        requires kept { IsTrue (K.is_clean keeper) → IsPersisted (C.state core) (K.stored keeper) }
        ensures { IfErr result (λ back. (back.core ≡ core) × (back.keeper ≡ keeper)) }
    {
        match Traced::new(alloc, blank, parts, core, keeper) {
            Ok(traced) => Ok(Broker {
                traced: Mutex::new(traced),
                changed: Condvar::new(),
            }),
            Err(back) => Err(back),
        }
    }

    /// A pass with which no call was made. `Exhausted` where one part of the ledger is left, as of some trace that may stand
    /// under the lock.
    pub fn pass<R: Wait>(&self, rt: &R) -> Result<Pass<L>, Refusal>
        ensures pass { IfOk result (λ pass. (pass.entries ≡ []) × (pass.made ≡ 0)) }
        ensures refused { IfErr result (λ refusal. (refusal ≡ Refusal.Exhausted)
            × ((seen : Seen C K) × IsHeld C.state K.is_clean K.stored seen × (seen.left ≡ 1))) }
    {
        let split = self.traced.lock(rt).split();
        match split {
            Some(pass) => Ok(pass),
            None => Err(Refusal::Exhausted),
        }
    }

    /// One step, in one hold of the lock, which the pass notes with its reply. A refusal is the machine's; or it is `Memory`,
    /// also where the trace holds 2^62 events, or `Store`: then pass, core and keeper are as before. All that wait are woken
    /// by a call that is accepted and may bring them a message or end their wait: a start, a publication, a commit, a
    /// rollback, a recover, the end of a listener's delivery, or a close.
    pub fn call<R: Wait>(&self, rt: &R, pass: &mut Pass<L>, step: &Step) -> Reply
        ensures { Noted pass.old pass.new step.now result }
    {
        let reply = self.traced.lock(rt).apply(pass, step);
        if step.call.wakes(&reply) {
            self.wake();
        }
        reply
    }

    /// Receives at the clock's moment until a receive is answered otherwise than `Nothing`, or `turns` receives were made,
    /// and waits for a wake-up between two. Each turn is one step, in one hold of the lock, which the pass notes. No turn is
    /// answered `Nothing`. A refusal is as `call` says.
    pub fn receive<R: Wait, T: Clock>(
        &self,
        rt: &R,
        pass: &mut Pass<L>,
        session: &SessionId,
        consumer: ConsumerId,
        clock: &T,
        turns: u64,
    ) -> Reply
        ensures { Received session.now consumer turns pass.old pass.new result }
    {
        if turns == 0 {
            return Ok(Answer::Nothing);
        }
        let mut guard = self.traced.lock(rt);
        for turn in 0..turns {
            let now = clock.now();
            let reply = guard.receive(pass, session, consumer, now);
            if !is_nothing(&reply) {
                return reply;
            }
            if turn + 1 == turns {
                return reply;
            }
            guard = self.changed.wait(rt, guard);
        }
        Ok(Answer::Nothing)
    }

    /// Wakes all that wait in `receive`.
    pub fn wake(&self) {
        self.changed.notify_all();
    }

    /// Hands out the trace so far, in one hold of the lock, as `Traced::cut` says. It wakes nobody.
    ///
    /// - `Exhausted`: the position behind its last event is above 2^62.
    /// - `Memory`: a request for memory was refused.
    pub fn cut<R: Wait>(&self, rt: &R) -> Result<Trace<C>, Refusal>
        ensures { IfErr result (λ refusal. (refusal ≡ Refusal.Memory) ⊎ ((refusal ≡ Refusal.Exhausted)
            × ((seen : Seen C K) × IsHeld C.state K.is_clean K.stored seen × (2 ^ 62 < seen.first + length seen.events)))) }
    {
        self.traced.lock(rt).cut()
    }

    /// Takes all back, with the last segment of the trace, and says whether the passes account for it: as `Trace::gather`
    /// says of a segment, but that an entry whose position is past its end does not fit. What is said of the number of
    /// events is so whatever the verdict is.
    pub fn finish(self, passes: Vec<Pass<L>>) -> Finished<C, K>
        ensures ends { C.state result.core ≡ after_events (C.state result.trace.opening) result.trace.events }
        ensures kept { IsTrue (K.is_clean result.keeper) → IsPersisted (C.state result.core) (K.stored result.keeper) }
        ensures agree { OnOk result.verdict (Agree (segment result.trace.first result.trace.events true) passes.items) }
        ensures once { OnOk result.verdict (EachOnce (segment result.trace.first result.trace.events true) passes.items) }
        ensures rise { OnOk result.verdict (Rise (segment result.trace.first result.trace.events true) passes.items) }
        ensures fault { IfErr result.verdict (λ fault. IsFault (segment result.trace.first result.trace.events true) passes.items fault) }
        ensures count { sum_by (λ (c : Calls). c.made) passes.items ≤ result.trace.first + length result.trace.events }
        ensures whole { vec_len passes + 1 ≡ L.parts → sum_by (λ (c : Calls). c.made) passes.items ≡ result.trace.first + length result.trace.events }
    {
        let Broker { traced, changed: _ } = self;
        traced.into_inner().finish(passes)
    }
}

fn is_nothing(reply: &Reply) -> bool
    ensures { result ≡ is_nothing_reply reply.now }
{
    matches!(reply, Ok(Answer::Nothing))
}
