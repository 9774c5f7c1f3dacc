//! One turn of a job: its next message, its listener, and the calls that follow.

ghost use Rattle.std.specs.Prelude.{◌≡◌, ◌≤◌, cond, is_some};
ghost use Rattle.jm_listen.specs.Runs.{JobTurned};
ghost use Rattle.jm_listen.specs.Turns.{by_session, call_after as call_that_follows, Ends, Follows, is_delivered, Takes};

use crate::jobs::Job;
use jm_audit::Pass;
use jm_base::List;
use jm_broker::{Broker, Clock, PlannedCore};
use jm_dest::{ConsumerId, SessionId};
use jm_keep::Keep;
use jm_listener::{After, Listener, ListenerFault};
use jm_machine::{Answer, Call, Delivery, Reply, Request, Step, Who};
use std::alloc::Global;
use std::sync::Wait;
use std::sync::ledger::Ledger;

fn step_of(session: &SessionId, call: Call) -> Step
    ensures { result ≡ by_session session.now call }
{
    Step {
        who: Who::Session(*session),
        call,
    }
}

fn delivery_of(reply: Reply) -> Option<Delivery>
    ensures { is_some result ≡ is_delivered reply }
{
    match reply {
        Ok(Answer::Delivered(delivery)) => Some(delivery),
        Ok(Answer::Done | Answer::Sent(_) | Answer::Nothing | Answer::Missed(_)) | Err(_) => None,
    }
}

/// The consumer's next message, for its listener; none where there is none, or where the call is refused.
fn take<C: PlannedCore, K: Keep + Drop, L: Ledger, T: Clock, R: Wait>(
    rt: &R,
    broker: &Broker<C, K, L>,
    clock: &T,
    session: &SessionId,
    consumer: ConsumerId,
    pass: &mut Pass<L>,
) -> Option<Delivery>
    ensures { Takes session.now consumer pass.old pass.new (is_some result) }
{
    let now = clock.now();
    let step = step_of(session, Call::Ask(Request::Take { consumer, now }));
    let reply = broker.call(rt, pass, &step);
    delivery_of(reply)
}

/// Ends the delivery, well or not, and says whether that was accepted.
fn end_delivery<C: PlannedCore, K: Keep + Drop, L: Ledger, R: Wait>(
    rt: &R,
    broker: &Broker<C, K, L>,
    session: &SessionId,
    consumer: ConsumerId,
    ok: bool,
    pass: &mut Pass<L>,
) -> bool
    ensures { Ends session.now consumer ok pass.old pass.new result }
{
    let step = step_of(session, Call::Ask(Request::Done { consumer, ok }));
    let reply = broker.call(rt, pass, &step);
    reply.is_ok()
}

/// What is called after a message, as its listener answered. Takes no memory.
fn call_after(alloc: Global, answer: Result<After, ListenerFault>) -> Option<Call>
    ensures { result ≡ call_that_follows answer }
{
    match answer {
        Err(ListenerFault) | Ok(After::Go) => None,
        Ok(After::Acknowledge) => Some(Call::Ask(Request::Acknowledge)),
        Ok(After::Commit) => Some(Call::Commit(List::new(Vec::new(alloc)))),
        Ok(After::Rollback) => Some(Call::Ask(Request::Rollback)),
        Ok(After::Recover) => Some(Call::Ask(Request::Recover)),
    }
}

/// Makes the call of the session, where there is one, whatever is replied.
fn follow<C: PlannedCore, K: Keep + Drop, L: Ledger, R: Wait>(
    rt: &R,
    broker: &Broker<C, K, L>,
    session: &SessionId,
    call: Option<Call>,
    pass: &mut Pass<L>,
)
    ensures { Follows session.now call pass.old pass.new }
{
    if let Some(call) = call {
        let _ = broker.call(rt, pass, &step_of(session, call));
    }
}

fn one_where(accepted: bool) -> u64
    ensures count { result ≡ cond accepted 1 0 }
    ensures small { result ≤ 1 }
{
    if accepted { 1 } else { 0 }
}

/// One turn of the job: asks for its next message, and where one comes, has its listener handle it, ends the delivery and
/// makes the call that the listener named. Says how many deliveries were ended. A refused call ends nothing.
pub(crate) fn turn<
    C: PlannedCore,
    K: Keep + Drop,
    L: Ledger,
    N: Listener + Drop,
    T: Clock,
    R: Wait,
>(rt: &R, alloc: Global, broker: &Broker<C, K, L>, clock: &T, job: &mut Job<N, L>) -> u64
    ensures turned { JobTurned job.old job.new result }
    ensures small { result ≤ 1 }
{
    let Job {
        session,
        consumer,
        pass,
        listener,
    } = job;
    let Some(delivery) = take(rt, broker, clock, session, *consumer, pass) else {
        return 0;
    };
    let answer = listener.on_message(&delivery);
    let accepted = end_delivery(rt, broker, session, *consumer, answer.is_ok(), pass);
    follow(rt, broker, session, call_after(alloc, answer), pass);
    one_where(accepted)
}
