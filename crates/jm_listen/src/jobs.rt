//! Jobs, and what they have done so far.

ghost use Rattle.std.specs.Prelude.{◌≡◌, ◌<◌, ◌≤◌, [], length, map, vec_capacity, vec_len, IfOk, MatchBool};
ghost use Rattle.jm_listen.specs.Sessions.{Apart, ApartBefore, SameSession};

use jm_audit::Pass;
use jm_dest::{ConsumerId, SessionId};
use jm_listener::Listener;
use std::alloc::{AllocError, Global};
use std::sync::ledger::Ledger;

/// A listener for a consumer of a session, and the pass that notes its calls.
#[derive(Drop)]
pub struct Job<N: Listener + Drop, L: Ledger> {
    pub session: SessionId,
    pub consumer: ConsumerId,
    pub pass: Pass<L>,
    pub listener: N,
}

/// A job under way, and how many of its deliveries were ended.
#[derive(Drop)]
pub(crate) struct Task<N: Listener + Drop, L: Ledger> {
    pub(crate) job: Job<N, L>,
    pub(crate) ended: u64,
}

/// Whether a job before that one is of its session.
fn has_same_before<N: Listener + Drop, L: Ledger>(jobs: &[Job<N, L>], at: usize) -> bool
    requires { at < length jobs.now }
    ensures { MatchBool result (SameSession jobs.now) (ApartBefore jobs.now at at) }
{
    for earlier in 0..at {
        if jobs[earlier].session == jobs[at].session {
            return true;
        }
    }
    false
}

/// Whether two jobs are of one session.
pub(crate) fn is_session_shared<N: Listener + Drop, L: Ledger>(jobs: &[Job<N, L>]) -> bool
    ensures { MatchBool result (SameSession jobs.now) (Apart jobs.now (length jobs.now)) }
{
    for at in 0..jobs.len() {
        if has_same_before(jobs, at) {
            return true;
        }
    }
    false
}

/// Empty lists, with room for all that is put in later.
#[derive(Drop)]
pub(crate) struct Room<N: Listener + Drop, L: Ledger> {
    pub(crate) tasks: Vec<Task<N, L>>,
    pub(crate) jobs: Vec<Job<N, L>>,
    pub(crate) counts: Vec<u64>,
}

/// Room for so many jobs. `AllocError` where a request for memory was refused.
pub(crate) fn room_for<N: Listener + Drop, L: Ledger>(
    alloc: Global,
    count: usize,
) -> Result<Room<N, L>, AllocError>
    ensures empty { IfOk result (λ room. (room.tasks.items ≡ []) × (room.jobs.items ≡ []) × (room.counts.items ≡ [])) }
    ensures room { IfOk result (λ room. (count ≤ vec_capacity room.tasks) × (count ≤ vec_capacity room.jobs) × (count ≤ vec_capacity room.counts)) }
{
    Ok(Room {
        tasks: Vec::with_capacity(alloc, count)?,
        jobs: Vec::with_capacity(alloc, count)?,
        counts: Vec::with_capacity(alloc, count)?,
    })
}

/// The jobs under way, with nothing done. Takes no memory.
pub(crate) fn begin<N: Listener + Drop, L: Ledger>(
    mut tasks: Vec<Task<N, L>>,
    jobs: Vec<Job<N, L>>,
) -> Vec<Task<N, L>>
    requires { (tasks.items ≡ []) × (vec_len jobs ≤ vec_capacity tasks) }
    ensures { map (λ t. t.job) result.items ≡ jobs.items }
{
    for job in jobs {
        tasks.push_reserved(Task { job, ended: 0 });
    }
    tasks
}

/// The jobs, and for each how many of its deliveries were ended. Takes no memory.
pub(crate) fn end<N: Listener + Drop, L: Ledger>(
    mut jobs: Vec<Job<N, L>>,
    mut counts: Vec<u64>,
    tasks: Vec<Task<N, L>>,
) -> (Vec<Job<N, L>>, Vec<u64>)
    requires empty { (jobs.items ≡ []) × (counts.items ≡ []) }
    requires room { (vec_len tasks ≤ vec_capacity jobs) × (vec_len tasks ≤ vec_capacity counts) }
    ensures jobs { result.0.items ≡ map (λ t. t.job) tasks.items }
    ensures counts { result.1.items ≡ map (λ t. t.ended) tasks.items }
{
    for task in tasks {
        let Task { job, ended } = task;
        jobs.push_reserved(job);
        counts.push_reserved(ended);
    }
    (jobs, counts)
}
