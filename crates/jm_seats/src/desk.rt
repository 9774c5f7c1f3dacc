//! A seat with what is called at it in a stretch.

ghost use Rattle.std.specs.Prelude.{◌≡◌, ◌≤◌, [], map, vec_capacity, vec_len};
ghost use Rattle.jm_seats.specs.Desks.{seats_at, DeskRan, IsReady};
ghost use Rattle.jm_seats.specs.Seat.{SeatRan};
ghost use Rattle.jm_seats.specs.Seats as seats;
ghost use Rattle.jm_seats.specs.Seats.{all_heard, heard};

use crate::seat::Seat;
use jm_broker::{Broker, PlannedCore};
use jm_dest::SessionId;
use jm_keep::Keep;
use jm_machine::find::same_session;
use jm_machine::{Call, ClientCall, Reply, Request, Step, Who};
use std::alloc::Global;
use std::mem;
use std::sync::Wait;
use std::sync::ledger::Ledger;

/// A seat, the calls that are to be made at it, and what they were told.
#[derive(Drop)]
pub(crate) struct Desk<L: Ledger> {
    pub(crate) seat: Seat<L>,
    pub(crate) calls: Vec<ClientCall>,
    pub(crate) replies: Vec<Reply>,
}

/// The place of the session's seat, or the number of desks, where it has none. Takes no memory.
pub(crate) fn place_of<L: Ledger>(desks: &[Desk<L>], session: &SessionId) -> usize
    ensures { result ≡ seats.place_of (seats_at desks.now) session.now }
{
    for place in 0..desks.len() {
        if same_session(&desks[place].seat.session(), session) {
            return place;
        }
    }
    desks.len()
}

/// The place of the seat at which the call is made, or the number of desks, where it is made at none. Takes no memory.
pub(crate) fn owner_of<L: Ledger>(desks: &[Desk<L>], call: &ClientCall) -> usize
    ensures { result ≡ seats.owner_of (seats_at desks.now) call.now }
{
    match call {
        ClientCall::Ask { who, request: _ } => match who {
            Who::Connection(_) => desks.len(),
            Who::Session(session) => place_of(desks, session),
        },
        ClientCall::Send { session, .. } | ClientCall::CommitSession(session) => {
            place_of(desks, session)
        }
    }
}

/// All seats hear what the request was told. Takes no memory.
pub(crate) fn hear_all<L: Ledger>(
    desks: &mut [Desk<L>],
    who: &Who,
    request: &Request,
    reply: &Reply,
)
    ensures { seats_at desks.new ≡ map (heard who.now request.now reply.now) (seats_at desks.old) }
{
    for desk in desks.iter_mut() {
        desk.seat.hear(who, request, reply);
    }
}

/// All seats hear what the step was told, where it is a request. Takes no memory.
pub(crate) fn hear_step<L: Ledger>(desks: &mut [Desk<L>], step: Step, reply: &Reply)
    ensures { seats_at desks.new ≡ all_heard step.who step.call reply.now (seats_at desks.old) }
{
    if let Call::Ask(request) = &step.call {
        hear_all(desks, &step.who, request, reply);
    }
}

/// Makes the calls in turn at the seat, and puts what each is told into the room that is there.
fn call_all<C: PlannedCore, K: Keep + Drop, L: Ledger, R: Wait>(
    rt: &R,
    broker: &Broker<C, K, L>,
    seat: &mut Seat<L>,
    calls: Vec<ClientCall>,
    mut replies: Vec<Reply>,
) -> Vec<Reply>
    requires empty { replies.items ≡ [] }
    requires room { vec_len calls ≤ vec_capacity replies }
    ensures { SeatRan seat.old calls.items result.items seat.new }
{
    for call in calls {
        replies.push_reserved(seat.call(rt, broker, call));
    }
    replies
}

/// Makes the calls of the desk at its seat.
pub(crate) fn work<C: PlannedCore, K: Keep + Drop, L: Ledger, R: Wait>(
    rt: &R,
    alloc: Global,
    broker: &Broker<C, K, L>,
    desk: &mut Desk<L>,
)
    requires { IsReady desk.old }
    ensures { DeskRan desk.old desk.new }
{
    let calls = mem::replace(&mut desk.calls, Vec::new(alloc));
    let replies = mem::replace(&mut desk.replies, Vec::new(alloc));
    desk.replies = call_all(rt, broker, &mut desk.seat, calls, replies);
}
