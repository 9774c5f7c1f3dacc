//! A stretch of calls, each session's on a thread of its own.

ghost use Rattle.std.specs.Prelude.{◌≡◌, ◌≤◌, ◌<◌, ℕ, [], All, length, slice_index_or, IfOk, IfErr, OnErr, OnOk, vec_capacity, vec_len};
ghost use Rattle.jm_parted.specs.Parts.{of_owner};
ghost use Rattle.jm_seats.specs.Desks.{seats_at, DeskRan, IsReady};
ghost use Rattle.jm_seats.specs.Faults.{OnNoSeat};
ghost use Rattle.jm_seats.specs.Seats as seats;
ghost use Rattle.jm_seats.specs.Seats.{AllRan, IsUnseated, senders_of};

use crate::desk::{Desk, owner_of, work};
use jm_broker::{Broker, PlannedCore};
use jm_keep::Keep;
use jm_machine::{ClientCall, Reply};
use jm_parted::{joined, parted};
use std::alloc::{AllocError, Global};
use std::sync::Wait;
use std::sync::ledger::Ledger;
use std::thread::Threads;
use std::{mem, thread};

/// Why a stretch of calls is not made (ours).
#[derive(Clone, Copy, Debug, PartialEq, Eq)]
pub enum StretchFault {
    /// A call is a connection's, or of a session that has no seat.
    NoSeat,
    /// A request for memory was refused.
    Memory,
}

/// For each call the place of its seat. `NoSeat` where one has none; `Memory` where a request for memory was refused.
pub(crate) fn owners_of<L: Ledger>(
    alloc: Global,
    desks: &[Desk<L>],
    calls: &[ClientCall],
) -> Result<Vec<usize>, StretchFault>
    ensures owners { IfOk result (λ owners. owners.items ≡ seats.owners_of (seats_at desks.now) calls.now) }
    ensures below { IfOk result (λ owners. All (λ owner. owner < length desks.now) owners.items) }
    ensures fault { IfErr result (λ fault. OnNoSeat fault (IsUnseated (seats_at desks.now) calls.now)) }
{
    let Ok(mut owners) = Vec::with_capacity(alloc, calls.len()) else {
        return Err(StretchFault::Memory);
    };
    for call in calls {
        let owner = owner_of(desks, call);
        if owner >= desks.len() {
            return Err(StretchFault::NoSeat);
        }
        owners.push_reserved(owner);
    }
    Ok(owners)
}

/// Puts calls on a desk, with empty room for what they are told.
fn lay<L: Ledger>(desk: &mut Desk<L>, calls: Vec<ClientCall>, replies: Vec<Reply>)
    requires { (replies.items ≡ []) × (vec_len calls ≤ vec_capacity replies) }
    ensures seat { desk.new.seat ≡ desk.old.seat }
    ensures calls { desk.new.calls.items ≡ calls.items }
    ensures ready { IsReady desk.new }
{
    desk.calls = calls;
    desk.replies = replies;
}

/// Puts each part on the desk of its place, with room for what it is told. `AllocError` where a request for memory was refused.
/// The seats stay.
fn lay_out<L: Ledger>(
    alloc: Global,
    desks: &mut [Desk<L>],
    mut parts: Vec<Vec<ClientCall>>,
) -> Result<(), AllocError>
    requires { vec_len parts ≡ length desks.old }
    ensures seats { seats_at desks.new ≡ seats_at desks.old }
    ensures calls { OnOk result ((k : ℕ) (d : _) (e : _) → k < length desks.old →
        (slice_index_or desks.new k d).calls.items ≡ (slice_index_or parts.items k e).items) }
    ensures ready { OnOk result (All (λ d. IsReady d) desks.new) }
{
    for place in 0..desks.len() {
        let replies = Vec::with_capacity(alloc, parts[place].len())?;
        let calls = mem::replace(&mut parts[place], Vec::new(alloc));
        lay(&mut desks[place], calls, replies);
    }
    Ok(())
}

/// Puts each session's calls on the desk of its seat, with room for what they are told. `AllocError` where a request for memory
/// was refused. The seats stay.
pub(crate) fn prepare<L: Ledger>(
    alloc: Global,
    desks: &mut [Desk<L>],
    owners: &[usize],
    calls: Vec<ClientCall>,
) -> Result<(), AllocError>
    requires len { length owners.now ≡ vec_len calls }
    requires below { All (λ owner. owner < length desks.old) owners.now }
    ensures seats { seats_at desks.new ≡ seats_at desks.old }
    ensures calls { OnOk result ((k : ℕ) (d : _) → k < length desks.old →
        (slice_index_or desks.new k d).calls.items ≡ of_owner k owners.now calls.items) }
    ensures ready { OnOk result (All (λ d. IsReady d) desks.new) }
{
    let parts = parted(alloc, owners, desks.len(), calls)?;
    lay_out(alloc, desks, parts)
}

/// Has the calls of all desks made, each desk's on a thread of its own where the system gives so many.
pub(crate) fn work_all<
    C: PlannedCore + Send,
    K: Keep + Drop + Send,
    L: Ledger + Send + Sync,
    R: Threads + Wait + Sync,
>(rt: &R, alloc: Global, broker: &Broker<C, K, L>, desks: &mut [Desk<L>])
where
    C::Plan: Send,
    requires { All (λ d. IsReady d) desks.old }
    ensures len { length desks.new ≡ length desks.old }
    ensures each { (k : ℕ) (d : _) → k < length desks.old → DeskRan (slice_index_or desks.old k d) (slice_index_or desks.new k d) }
{
    let threads = desks.len().max(1);
    thread::for_each_mut(rt, desks, threads, &|_, desk| work(rt, alloc, broker, desk));
}

/// Takes what was told from all desks, into a list that is handed in empty, with room. Takes no memory.
pub(crate) fn gather<L: Ledger>(
    alloc: Global,
    mut told: Vec<Vec<Reply>>,
    desks: &mut [Desk<L>],
) -> Vec<Vec<Reply>>
    requires empty { told.items ≡ [] }
    requires room { length desks.old ≤ vec_capacity told }
    ensures len { vec_len result ≡ length desks.old }
    ensures seats { seats_at desks.new ≡ seats_at desks.old }
    ensures each { (k : ℕ) (d : _) (e : _) → k < length desks.old →
        (slice_index_or result.items k d).items ≡ (slice_index_or desks.old k e).replies.items }
{
    for desk in desks.iter_mut() {
        told.push_reserved(mem::replace(&mut desk.replies, Vec::new(alloc)));
    }
    told
}

/// Makes the calls, each at the seat of its owner, and gives what they are told. All room is taken before the first call:
/// `AllocError` where a request for memory was refused; then no call was made.
pub(crate) fn make_calls<
    C: PlannedCore + Send,
    K: Keep + Drop + Send,
    L: Ledger + Send + Sync,
    R: Threads + Wait + Sync,
>(
    rt: &R,
    alloc: Global,
    broker: &Broker<C, K, L>,
    desks: &mut [Desk<L>],
    owners: &[usize],
    calls: Vec<ClientCall>,
) -> Result<Vec<Reply>, AllocError>
where
    C::Plan: Send,
    requires len { length owners.now ≡ vec_len calls }
    requires below { All (λ owner. owner < length desks.old) owners.now }
    ensures len { IfOk result (λ replies. vec_len replies ≡ length owners.now) }
    ensures ran { IfOk result (λ replies. AllRan owners.now (seats_at desks.old) calls.items replies.items (seats_at desks.new)) }
    ensures senders { senders_of (seats_at desks.new) ≡ senders_of (seats_at desks.old) }
    ensures as_many { length desks.new ≡ length desks.old }
    ensures same { OnErr result (seats_at desks.new ≡ seats_at desks.old) }
{
    let replies = Vec::with_capacity(alloc, owners.len())?;
    let told = Vec::with_capacity(alloc, desks.len())?;
    prepare(alloc, desks, owners, calls)?;
    work_all(rt, alloc, broker, desks);
    let told = gather(alloc, told, desks);
    Ok(joined(replies, owners, told))
}
