//! The seats of all sessions.

ghost use Rattle.std.specs.Prelude.{◌≡◌, ◌⊎◌, ◌∷◌, ◌<◌, All, false, IfErr, IfNone, IfOk, IfSome, OnErr, length, map};
ghost use Rattle.jm_seats.specs.Faults.{OnNoSeat};
ghost use Rattle.jm_seats.specs.Seats as seating;
ghost use Rattle.jm_seats.specs.Seats.{ConnectionFits, IsUnseated, IsUnused, SeatsFit, StretchFits};
ghost use Rattle.jm_seats.specs.Seats.{is_by_connection, senders_of, unopened_at};

use crate::desk::{Desk, hear_step, owner_of};
use crate::seat::Seat;
use crate::stretch::{StretchFault, make_calls, owners_of};
use jm_audit::Pass;
use jm_base::Refusal;
use jm_broker::{Broker, PlannedCore};
use jm_dest::{Number, SessionId};
use jm_header::Sender;
use jm_keep::Keep;
use jm_machine::{Call, ClientCall, Reply, Request, Step, Who};
use jm_parted::joined;
use std::alloc::{AllocError, Global};
use std::marker::Model;
use std::sync::Wait;
use std::sync::ledger::Ledger;
use std::thread::Threads;

/// The seats of all sessions that call, and the pass that notes the calls of connections (ours). Contracts see the seats in
/// their order, and that pass.
#[derive(Drop)]
pub struct Seats<L: Ledger> {
    alloc: Global,
    desks: Vec<Desk<L>>,
    connections: Pass<L>,
}

impl<L: Ledger> Model for Seats<L> {
    ghost use Rattle.jm_seats.specs.Desks.{seats_at};
    ghost use Rattle.jm_seats.specs.Seats.{Seating};

    ghost Value = { Seating };

    ghost view = { λ s. record { seats = seats_at s.desks.items; connections = s.connections } };
}

impl<L: Ledger> Seats<L> {
    /// Seats for these sessions, in that opening of the provider, none of which is open yet; each session is named once, and
    /// is to be opened at its seat. Each seat has a pass of the broker's, and the calls of connections have one more.
    ///
    /// - `Exhausted`: the broker has not so many passes.
    /// - `Memory`: a request for memory was refused.
    pub fn new<C: PlannedCore, K: Keep + Drop, R: Wait>(
        rt: &R,
        alloc: Global,
        broker: &Broker<C, K, L>,
        opening: Number,
        sessions: &[SessionId],
    ) -> Result<Seats<L>, Refusal>
        ensures halves { IfOk result (λ made. map (λ seat. seat.half) made.seats ≡ map (unopened_at opening) sessions.now) }
        ensures unused { IfOk result (λ made. All (λ seat. IsUnused seat.pass) made.seats × IsUnused made.connections) }
        ensures refused { IfErr result (λ refusal. (refusal ≡ Refusal.Exhausted) ⊎ (refusal ≡ Refusal.Memory)) }
    {
        let mut desks = Vec::with_capacity(alloc, sessions.len())?;
        let connections = broker.pass(rt)?;
        for session in sessions {
            let sender = Sender {
                opening,
                session: *session,
            };
            desks.push_reserved(Desk {
                seat: Seat::new(alloc, sender, broker.pass(rt)?),
                calls: Vec::new(alloc),
                replies: Vec::new(alloc),
            });
        }
        Ok(Seats {
            alloc,
            desks,
            connections,
        })
    }

    /// Makes a connection's request by one step, of which each seat hears.
    fn ask<C: PlannedCore, K: Keep + Drop, R: Wait>(
        &mut self,
        rt: &R,
        broker: &Broker<C, K, L>,
        who: Who,
        request: Request,
    ) -> Reply
        ensures { ConnectionFits who request self.old result self.new }
    {
        let step = Step {
            who,
            call: Call::Ask(request),
        };
        let reply = broker.call(rt, &mut self.connections, &step);
        hear_step(self.desks.as_mut_slice(), step, &reply);
        reply
    }

    /// Makes the call at the seat of that place.
    fn call_at<C: PlannedCore, K: Keep + Drop, R: Wait>(
        &mut self,
        rt: &R,
        broker: &Broker<C, K, L>,
        place: usize,
        call: ClientCall,
    ) -> Reply
        requires place { place ≡ seating.owner_of self.old.seats call }
        requires within { place < length self.old.seats }
        ensures { SeatsFit self.old call result self.new }
    {
        self.desks[place].seat.call(rt, broker, call)
    }

    /// Makes the call, where a connection makes it; none where a session does.
    fn ask_by<C: PlannedCore, K: Keep + Drop, R: Wait>(
        &mut self,
        rt: &R,
        broker: &Broker<C, K, L>,
        call: ClientCall,
    ) -> Option<Reply>
        ensures some { IfSome result (λ reply. SeatsFit self.old call reply self.new) }
        ensures none { IfNone result ((is_by_connection call ≡ false) × (self.new ≡ self.old)) }
    {
        match call {
            ClientCall::Ask { who, request } => match who {
                Who::Connection(_) => Some(self.ask(rt, broker, who, request)),
                Who::Session(_) => None,
            },
            ClientCall::Send { .. } | ClientCall::CommitSession(_) => None,
        }
    }

    /// Makes the client's call: a session's at its seat, as `Seat::call` says, with its refusals; a connection's by one step,
    /// with the pass for those, of which each seat hears: where the connection closes, what its sessions sent in their
    /// transactions is dropped, and they are closed at their seats. None where a session that has no seat makes the call; then no
    /// call was made.
    pub fn call<C: PlannedCore, K: Keep + Drop, R: Wait>(
        &mut self,
        rt: &R,
        broker: &Broker<C, K, L>,
        call: ClientCall,
    ) -> Option<Reply>
        ensures some { IfSome result (λ reply. SeatsFit self.old call reply self.new) }
        ensures none { IfNone result ((is_by_connection call ≡ false) × (seating.owner_of self.old.seats call ≡ length self.old.seats) ×
            (self.new ≡ self.old)) }
        ensures senders { senders_of self.new.seats ≡ senders_of self.old.seats }
    {
        let place = owner_of(self.desks.as_slice(), &call);
        if place < self.desks.len() {
            Some(self.call_at(rt, broker, place, call))
        } else {
            self.ask_by(rt, broker, call)
        }
    }

    /// Makes the calls of sessions, each session's at its seat on a thread of its own where the system gives so many, where it
    /// gives fewer, some after others; those of one session in their order. Gives the replies in the order of the calls. Each
    /// call is told as `Seat::call` says, with its refusals. All room for the replies is taken before the first call.
    ///
    /// No call is made after a fault, and the seats are as before:
    /// - `NoSeat`: a call is a connection's, or of a session that has no seat.
    /// - `Memory`: a request for memory was refused.
    pub fn stretch<C: PlannedCore + Send, K: Keep + Drop + Send, R: Threads + Wait + Sync>(
        &mut self,
        rt: &R,
        broker: &Broker<C, K, L>,
        calls: Vec<ClientCall>,
    ) -> Result<Vec<Reply>, StretchFault>
    where
        L: Send + Sync,
        C::Plan: Send,
        ensures fits { IfOk result (λ replies. StretchFits self.old calls.items replies.items self.new) }
        ensures senders { senders_of self.new.seats ≡ senders_of self.old.seats }
        ensures same { OnErr result (self.new ≡ self.old) }
        ensures fault { IfErr result (λ fault. OnNoSeat fault (IsUnseated self.old.seats calls.items)) }
    {
        let Seats {
            alloc,
            desks,
            connections: _,
        } = self;
        let owners = owners_of(*alloc, desks.as_slice(), calls.as_slice())?;
        match make_calls(rt, *alloc, broker, desks.as_mut_slice(), &owners, calls) {
            Ok(replies) => Ok(replies),
            Err(_) => Err(StretchFault::Memory),
        }
    }

    /// All passes, with all that was called: the one for connections, and those of the seats in their order. `AllocError` where
    /// a request for memory was refused.
    pub fn into_passes(self) -> Result<Vec<Pass<L>>, AllocError>
        ensures { IfOk result (λ passes. passes.items ≡ self.connections ∷ map (λ seat. seat.pass) self.seats) }
    {
        let Seats {
            alloc,
            desks,
            connections,
        } = self;
        let mut passes = Vec::with_capacity(alloc, desks.len())?;
        passes.push(connections)?;
        for desk in desks {
            let Desk {
                seat,
                calls: _,
                replies: _,
            } = desk;
            passes.push(seat.into_pass())?;
        }
        Ok(passes)
    }
}
