//! The parts of a scenario, made at the seats of its sessions.

ghost use Rattle.std.specs.Prelude.{◌≡◌, ◌≤◌, ◌+◌, ◌++◌, List, IfErr, IfOk, OnErr, OnOk, Result, vec_capacity, vec_len};
ghost use Rattle.jm_base.specs.declared.refusal.Refusal.{Refusal};
ghost use Rattle.jm_machine.specs.declared.answer.Answer.{Answer};
ghost use Rattle.jm_forks.specs.declared.part.Part.TheVariants as parts;
ghost use Rattle.jm_seats.specs.Faults.{OnNoSeat};
ghost use Rattle.jm_seats.specs.Seats.{senders_of};
ghost use Rattle.jm_threaded.specs.Runs.{IsNowhere, PartFits, PartsFit, StopsAt};

use jm_base::List;
use jm_broker::{Broker, PlannedCore};
use jm_forks::Part;
use jm_keep::Keep;
use jm_machine::{ClientCall, Reply};
use jm_seats::{Seats, StretchFault};
use std::alloc::Global;
use std::sync::Wait;
use std::sync::ledger::Ledger;
use std::thread::Threads;

/// Why a run stops before it has made all parts, and what the calls before were told (ours).
#[derive(Drop)]
pub struct Stopped {
    /// The replies to the calls of all parts that were made, in their order.
    pub replies: Vec<Reply>,
    /// Why the next part is not made.
    pub fault: StretchFault,
}

/// Puts what was told behind the replies, into room that is there. Takes no memory.
fn put_behind(replies: &mut Vec<Reply>, mut told: Vec<Reply>)
    requires { vec_len replies.old + vec_len told ≤ vec_capacity replies.old }
    ensures { replies.new.items ≡ replies.old.items ++ told.items }
{
    let _ = replies.append(&mut told);
}

/// Makes the call at its seat, and puts its reply behind the others. A fault leaves all as before.
fn make_alone<C: PlannedCore, K: Keep + Drop, L: Ledger, R: Wait>(
    rt: &R,
    broker: &Broker<C, K, L>,
    seats: &mut Seats<L>,
    replies: &mut Vec<Reply>,
    call: ClientCall,
) -> Result<(), StretchFault>
    ensures fits { OnOk result ((told : List (Result Answer Refusal)) × (replies.new.items ≡ replies.old.items ++ told)
        × PartFits seats.old (parts.Alone call) told seats.new) }
    ensures same { OnErr result ((replies.new.items ≡ replies.old.items) × (seats.new ≡ seats.old)) }
    ensures fault { IfErr result (λ fault. OnNoSeat fault (IsNowhere seats.old.seats (parts.Alone call))) }
    ensures senders { senders_of seats.new.seats ≡ senders_of seats.old.seats }
{
    if replies.reserve(1).is_err() {
        return Err(StretchFault::Memory);
    }
    match seats.call(rt, broker, call) {
        Some(reply) => {
            replies.push_reserved(reply);
            Ok(())
        }
        None => Err(StretchFault::NoSeat),
    }
}

/// Makes the calls in a stretch, and puts their replies behind the others. A fault leaves all as before.
fn make_together<
    C: PlannedCore + Send,
    K: Keep + Drop + Send,
    L: Ledger + Send + Sync,
    R: Threads + Wait + Sync,
>(
    rt: &R,
    broker: &Broker<C, K, L>,
    seats: &mut Seats<L>,
    replies: &mut Vec<Reply>,
    calls: List<ClientCall>,
) -> Result<(), StretchFault>
where
    C::Plan: Send,
    ensures fits { OnOk result ((told : List (Result Answer Refusal)) × (replies.new.items ≡ replies.old.items ++ told)
        × PartFits seats.old (parts.Together calls) told seats.new) }
    ensures same { OnErr result ((replies.new.items ≡ replies.old.items) × (seats.new ≡ seats.old)) }
    ensures fault { IfErr result (λ fault. OnNoSeat fault (IsNowhere seats.old.seats (parts.Together calls))) }
    ensures senders { senders_of seats.new.seats ≡ senders_of seats.old.seats }
{
    let calls = calls.into_inner();
    if replies.reserve(calls.len()).is_err() {
        return Err(StretchFault::Memory);
    }
    let told = seats.stretch(rt, broker, calls)?;
    put_behind(replies, told);
    Ok(())
}

/// Makes the part, and puts the replies to its calls behind the others. A fault leaves all as before.
fn make_part<
    C: PlannedCore + Send,
    K: Keep + Drop + Send,
    L: Ledger + Send + Sync,
    R: Threads + Wait + Sync,
>(
    rt: &R,
    broker: &Broker<C, K, L>,
    seats: &mut Seats<L>,
    replies: &mut Vec<Reply>,
    part: Part,
) -> Result<(), StretchFault>
where
    C::Plan: Send,
    ensures fits { OnOk result ((told : List (Result Answer Refusal)) × (replies.new.items ≡ replies.old.items ++ told)
        × PartFits seats.old part told seats.new) }
    ensures same { OnErr result ((replies.new.items ≡ replies.old.items) × (seats.new ≡ seats.old)) }
    ensures fault { IfErr result (λ fault. OnNoSeat fault (IsNowhere seats.old.seats part)) }
    ensures senders { senders_of seats.new.seats ≡ senders_of seats.old.seats }
{
    match part {
        Part::Alone(call) => make_alone(rt, broker, seats, replies, call),
        Part::Together(calls) => make_together(rt, broker, seats, replies, calls),
    }
}

/// Makes the parts at the seats, one after another: a call alone as `Seats::call` says, and calls together as `Seats::stretch`
/// says, each session's on a thread of its own where the system gives so many. Gives the replies in the order of the calls.
///
/// The run stops at the first part that is not made, and no call of that part or of those behind it is made:
/// - `NoSeat`: a session that has no seat makes a call of it, or a connection makes one of calls together.
/// - `Memory`: a request for memory was refused, before any call of that part.
pub fn run_parts<
    C: PlannedCore + Send,
    K: Keep + Drop + Send,
    L: Ledger + Send + Sync,
    R: Threads + Wait + Sync,
>(
    rt: &R,
    alloc: Global,
    broker: &Broker<C, K, L>,
    seats: &mut Seats<L>,
    parts: Vec<Part>,
) -> Result<Vec<Reply>, Stopped>
where
    C::Plan: Send,
    ensures fits { IfOk result (λ replies. PartsFit seats.old parts.items replies.items seats.new) }
    ensures stopped { IfErr result (λ stopped. StopsAt seats.old parts.items stopped.replies.items stopped.fault seats.new) }
    ensures senders { senders_of seats.new.seats ≡ senders_of seats.old.seats }
{
    let mut replies = Vec::new(alloc);
    for part in parts {
        match make_part(rt, broker, seats, &mut replies, part) {
            Ok(()) => {}
            Err(fault) => return Err(Stopped { replies, fault }),
        }
    }
    Ok(replies)
}
