//! What lies under the lock.

ghost use Rattle.std.specs.Prelude.{◌≡◌, ◌+◌, ◌<◌, ◌≤◌, ◌^◌, ◌++◌, ◌∷◌, ◌⊎◌, [], ℕ, true, length, sum_by, vec_len, IsTrue, IfOk, IfErr, IfSome, IfNone, OnOk, OnErr, IsErrOf};
ghost use Rattle.jm_audit.specs.Audit.{segment, Agree, EachOnce, IsFault, Rise};
ghost use Rattle.jm_audit.specs.Passes.{Calls};
ghost use Rattle.jm_broker.specs.Calls.{entry, Gains, HasSame, Noted, receive};
ghost use Rattle.jm_broker.specs.Traces.{event, IsHeld, OnMade, OnNotMade, reply_to, state_after};
ghost use Rattle.jm_keep.specs.Persisted.{IsPersisted};
ghost use Rattle.jm_keep.specs.Stored.{HasRisen};
ghost use Rattle.jm_machine.specs.Isolation.{IsLegal, after_events};

use crate::advance::advance;
use crate::planned::PlannedCore;
use crate::trace::Trace;
use jm_audit::{FinishFault, Pass, gather_last};
use jm_base::Refusal;
use jm_dest::{ConsumerId, Moment, SessionId};
use jm_keep::Keep;
use jm_machine::{Call, Event, Reply, Request, Step, Who};
use std::alloc::Global;
use std::marker::Model;
use std::mem;
use std::sync::ledger::{Blank, Book, Ledger, Share};

/// No trace holds more events, and none begins later.
pub const MOST: u64 = 1 << 62;

/// What lies under the lock: a core, its keeper, the events since the opening, and the ledger that counts them. Contracts see
/// the cores, the position of the first event, the events, the keeper, and how many parts of the ledger are left.
///
/// The events are legal from the opening on and end in the core's state; and where the keeper is clean, what it has stored is
/// what is stored of that state.
#[derive(Drop)]
pub struct Traced<C: PlannedCore, K: Keep + Drop, L: Ledger> {
    alloc: Global,
    opening: C,
    first: u64,
    core: C,
    keeper: K,
    events: Vec<Event>,
    book: Book<L>,
    rest: Share<L>,
    left: u64,
}

impl<C: PlannedCore, K: Keep + Drop, L: Ledger> Model for Traced<C, K, L> {
    ghost use Rattle.std.specs.Prelude.{◌≡◌, ◌+◌, ◌≤◌, ◌^◌, IsTrue, length};
    ghost use Rattle.jm_broker.specs.Traces.{Seen};
    ghost use Rattle.jm_keep.specs.Persisted.{IsPersisted};
    ghost use Rattle.jm_machine.specs.Isolation.{IsLegal, after_events};

    ghost Value = { Seen C K };

    ghost view = { λ t. record {
      opening = t.opening;
      first = t.first;
      events = t.events.items;
      core = t.core;
      keeper = t.keeper;
      left = t.left;
    } };

    ghost invariant = { λ t. record {
      legal : IsLegal (C.state t.opening) t.events.items;
      ends : C.state t.core ≡ after_events (C.state t.opening) t.events.items;
      kept : IsTrue (K.is_clean t.keeper) → IsPersisted (C.state t.core) (K.stored t.keeper);
      counted : t.book.total ≡ t.first + length t.events.items;
      in_range : t.first ≤ 2 ^ 62;
      in_size : length t.events.items ≤ 2 ^ 62;
      rest_parts : t.rest.parts ≡ t.left;
      rest_amount : t.rest.amount ≡ 0;
      some_left : 1 ≤ t.left;
    } };
}

/// What `new` hands back where memory was wanted.
#[derive(Drop)]
pub struct NotMade<C: Drop, K: Drop> {
    pub core: C,
    pub keeper: K,
}

/// What `finish` hands back.
#[derive(Drop)]
pub struct Finished<C: PlannedCore, K: Drop> {
    pub core: C,
    pub keeper: K,
    /// The last segment of the trace, which ends in the core.
    pub trace: Trace<C>,
    /// Whether the passes account for it.
    pub verdict: Result<(), FinishFault>,
}

/// Puts the parts of all passes together.
fn merge_all<L: Ledger>(rest: &mut Share<L>, passes: Vec<Pass<L>>)
    ensures parts { rest.new.parts ≡ rest.old.parts + vec_len passes }
    ensures amount { rest.new.amount ≡ rest.old.amount + sum_by (λ (c : Calls). c.made) passes.items }
    ensures all { rest.new.parts ≤ L.parts }
{
    let none = rest.empty();
    rest.merge(none);
    for pass in passes {
        rest.merge(pass.into_share());
    }
}

impl<C: PlannedCore, K: Keep + Drop, L: Ledger> Traced<C, K, L> {
    /// The core with its keeper, and an empty trace, whose first position is 0 and whose opening is the core's state. The
    /// blank's ledger counts its events, and has as many parts as said, all of which are left. Core and keeper come back where a
    /// request for memory was refused.
    pub fn new(
        alloc: Global,
        blank: Blank,
        parts: u64,
        core: C,
        keeper: K,
    ) -> Result<Traced<C, K, L>, NotMade<C, K>>
        requires name { blank.name ≡ L.name }
        requires parts { (blank.parts ≡ L.parts) × (blank.parts ≡ parts) }
        requires some { 1 ≤ parts }
        requires kept { IsTrue (K.is_clean keeper) → IsPersisted (C.state core) (K.stored keeper) }
        ensures core { IfOk result (λ traced. (traced.core ≡ core) × (traced.keeper ≡ keeper) × (C.state traced.opening ≡ C.state core)) }
        ensures empty { IfOk result (λ traced. (traced.events ≡ []) × (traced.first ≡ 0)) }
        ensures left { IfOk result (λ traced. traced.left ≡ parts) }
        ensures back { IfErr result (λ back. (back.core ≡ core) × (back.keeper ≡ keeper)) }
    {
        let Ok(opening) = core.copy() else {
            return Err(NotMade { core, keeper });
        };
        let (book, rest) = blank.open::<L>();
        Ok(Traced {
            alloc,
            opening,
            first: 0,
            core,
            keeper,
            events: Vec::new(alloc),
            book,
            rest,
            left: parts,
        })
    }

    /// The law of what lies under the lock, proved; the function itself does nothing.
    ///
    /// The events are legal from the opening on and end in the core's state, what a clean keeper has stored is what is stored
    /// of that state, and a part of the ledger is left.
    pub fn law_held(&self)
        ensures { IsHeld C.state K.is_clean K.stored self.now }
    {
        let _ = &self.first;
    }

    /// The core as it stands.
    pub fn core(&self) -> &C
        ensures { result.now ≡ self.now.core }
    {
        &self.core
    }

    /// One step: the core's, once the keeper wrote what it changes, which the trace and the pass note. The answer is known
    /// before anything changes.
    ///
    /// A refusal is the machine's, and the trace and the pass note it. After these two, which come after all others, they
    /// note nothing, and core, pass and keeper are as before:
    /// - `Memory`: a request for memory was refused, or the trace holds 2^62 events.
    /// - `Store`: the keeper failed: its count of faults rose, or is at its last value.
    pub fn apply(&mut self, pass: &mut Pass<L>, step: &Step) -> Reply
        ensures reply { OnMade result ((result ≡ reply_to (C.state self.old.core) step.now) × (C.state self.new.core ≡ state_after (C.state self.old.core) step.now)) }
        ensures trace { OnMade result (self.new.events ≡ self.old.events ++ event step.now result ∷ []) }
        ensures pass { OnMade result (Gains pass.old pass.new (entry (self.old.first + length self.old.events) step.now result ∷ [])) }
        ensures same { OnNotMade result ((C.state self.new.core ≡ C.state self.old.core) × (self.new.events ≡ self.old.events) × HasSame pass.old pass.new) }
        ensures rows { IsTrue (K.is_clean self.new.keeper) → OnNotMade result (K.stored self.new.keeper ≡ K.stored self.old.keeper) }
        ensures store { IsErrOf result Refusal.Store → HasRisen (K.faults self.old.keeper) (K.faults self.new.keeper) }
        ensures opening { (self.new.opening ≡ self.old.opening) × (self.new.first ≡ self.old.first) × (self.new.left ≡ self.old.left) }
    {
        let Traced {
            alloc,
            opening: _,
            first,
            core,
            keeper,
            events,
            book,
            rest: _,
            left: _,
        } = self;
        if events.len() as u64 >= MOST {
            return Err(Refusal::Memory);
        }
        let position = *first + events.len() as u64;
        advance(*alloc, core, keeper, events, book, pass, position, step)
    }

    /// One turn of a receiver: its `Receive` at that moment.
    pub fn receive(
        &mut self,
        pass: &mut Pass<L>,
        session: &SessionId,
        consumer: ConsumerId,
        now: Moment,
    ) -> Reply
        ensures { Noted pass.old pass.new (receive session.now consumer now) result }
    {
        let step = Step {
            who: Who::Session(*session),
            call: Call::Ask(Request::Receive { consumer, now }),
        };
        self.apply(pass, &step)
    }

    /// A pass with which no call was made, with one part of the ledger. `None` exactly where one part is left, which stays.
    /// Takes no memory.
    pub fn split(&mut self) -> Option<Pass<L>>
        ensures pass { IfSome result (λ pass. (pass.entries ≡ []) × (pass.made ≡ 0) × (self.new.left + 1 ≡ self.old.left)) }
        ensures none { IfNone result (IsHeld C.state K.is_clean K.stored self.old × (self.old.left ≡ 1) × (self.new.left ≡ 1)) }
        ensures same { (self.new.core ≡ self.old.core) × (self.new.events ≡ self.old.events) × (self.new.opening ≡ self.old.opening)
            × (self.new.first ≡ self.old.first) × (self.new.keeper ≡ self.old.keeper) }
    {
        if self.left == 1 {
            return None;
        }
        let Traced {
            alloc,
            opening: _,
            first: _,
            core: _,
            keeper: _,
            events: _,
            book: _,
            rest,
            left,
        } = self;
        let share = rest.split_off(1, 0);
        *left -= 1;
        Some(Pass::new(*alloc, share))
    }

    /// Hands out the trace so far. State and keeper stay; the state is the opening of an empty trace, whose first position
    /// is the one behind the events that were handed out. A refusal leaves all as before.
    ///
    /// - `Exhausted`: that position is above 2^62.
    /// - `Memory`: a request for memory was refused.
    pub fn cut(&mut self) -> Result<Trace<C>, Refusal>
        ensures handed_out { IfOk result (λ trace. (trace.opening ≡ self.old.opening) × (trace.first ≡ self.old.first) × (trace.events ≡ self.old.events)) }
        ensures goes_on { IfOk result (λ trace. (C.state self.new.opening ≡ C.state self.old.core) × (self.new.first ≡ self.old.first + length self.old.events) × (self.new.events ≡ [])) }
        ensures err { OnErr result ((self.new.opening ≡ self.old.opening) × (self.new.first ≡ self.old.first) × (self.new.events ≡ self.old.events)) }
        ensures refused { IfErr result (λ refusal. (refusal ≡ Refusal.Memory)
            ⊎ ((refusal ≡ Refusal.Exhausted) × IsHeld C.state K.is_clean K.stored self.old × (2 ^ 62 < self.old.first + length self.old.events))) }
        ensures same { (self.new.core ≡ self.old.core) × (self.new.keeper ≡ self.old.keeper) × (self.new.left ≡ self.old.left) }
    {
        let end = self.first + self.events.len() as u64;
        if end > MOST {
            return Err(Refusal::Exhausted);
        }
        let Ok(opening) = self.core.copy() else {
            return Err(Refusal::Memory);
        };
        let alloc = self.alloc;
        let Traced {
            alloc: _,
            opening: old,
            first,
            core: _,
            keeper: _,
            events,
            book: _,
            rest: _,
            left: _,
        } = self;
        let opening = mem::replace(old, opening);
        let start = *first;
        *first = end;
        let events = mem::replace(events, Vec::new(alloc));
        Ok(Trace {
            opening,
            first: start,
            events,
        })
    }

    /// Takes all back, with the trace as its last segment, and says whether the passes account for it: as `Trace::gather`
    /// says of a segment, but that an entry whose position is past its end does not fit. What is said of the number of
    /// events, and of the parts of the ledger, is so whatever the verdict is.
    pub fn finish(self, passes: Vec<Pass<L>>) -> Finished<C, K>
        ensures same { (result.core ≡ self.core) × (result.keeper ≡ self.keeper) }
        ensures trace { (result.trace.opening ≡ self.opening) × (result.trace.first ≡ self.first) × (result.trace.events ≡ self.events) }
        ensures ends { C.state result.core ≡ after_events (C.state result.trace.opening) result.trace.events }
        ensures kept { IsTrue (K.is_clean result.keeper) → IsPersisted (C.state result.core) (K.stored result.keeper) }
        ensures agree { OnOk result.verdict (Agree (segment result.trace.first result.trace.events true) passes.items) }
        ensures once { OnOk result.verdict (EachOnce (segment result.trace.first result.trace.events true) passes.items) }
        ensures rise { OnOk result.verdict (Rise (segment result.trace.first result.trace.events true) passes.items) }
        ensures fault { IfErr result.verdict (λ fault. IsFault (segment result.trace.first result.trace.events true) passes.items fault) }
        ensures count { sum_by (λ (c : Calls). c.made) passes.items ≤ result.trace.first + length result.trace.events }
        ensures parts { (1 ≤ self.left) × (vec_len passes + self.left ≤ L.parts) }
        ensures whole { vec_len passes + self.left ≡ L.parts → sum_by (λ (c : Calls). c.made) passes.items ≡ result.trace.first + length result.trace.events }
    {
        let Traced {
            alloc,
            opening,
            first,
            core,
            keeper,
            events,
            mut book,
            mut rest,
            left: _,
        } = self;
        let verdict = gather_last(alloc, first, events.as_slice(), passes.as_slice());
        merge_all(&mut rest, passes);
        book.audit(&mut rest);
        Finished {
            core,
            keeper,
            trace: Trace {
                opening,
                first,
                events,
            },
            verdict,
        }
    }
}
