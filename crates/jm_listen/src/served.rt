//! The run of all jobs.

ghost use Rattle.std.specs.Prelude.{◌≡◌, ◌<◌, ℕ, length, slice_index_or, IfErr, IfOk, OnErr, OnOk, vec_len};
ghost use Rattle.jm_listen.specs.Faults.{MatchFault};
ghost use Rattle.jm_listen.specs.Runs.{AllRan, TaskRan};
ghost use Rattle.jm_listen.specs.Sessions.{Apart, SameSession};

use crate::gate::Gate;
use crate::jobs::{Job, Room, Task, begin, end, is_session_shared, room_for};
use crate::turns::turn;
use jm_broker::{Broker, Clock, PlannedCore};
use jm_keep::Keep;
use jm_listener::Listener;
use std::alloc::Global;
use std::sync::Wait;
use std::sync::ledger::Ledger;
use std::thread;
use std::thread::Threads;

/// Why jobs are not served (ours).
#[derive(Clone, Copy, Debug, PartialEq, Eq)]
pub enum ServeFault {
    /// Two jobs are of one session, whose calls one thread makes alone (ours).
    SameSession,
    /// A request for memory was refused.
    Memory,
}

/// What `serve` hands back.
#[derive(Drop)]
pub struct Served<N: Listener + Drop, L: Ledger> {
    /// All jobs, in their order.
    pub jobs: Vec<Job<N, L>>,
    /// For each job, how many of its deliveries were ended: the end of each was accepted.
    pub result: Result<Vec<u64>, ServeFault>,
}

/// Makes the turns of one job.
fn work<C: PlannedCore, K: Keep + Drop, L: Ledger, N: Listener + Drop, G: Gate, T: Clock, R: Wait>(
    rt: &R,
    alloc: Global,
    broker: &Broker<C, K, L>,
    gate: &G,
    clock: &T,
    turns: u64,
    index: usize,
    task: &mut Task<N, L>,
)
    ensures { TaskRan turns task.old task.new }
{
    let Task { job, ended } = task;
    *ended = 0;
    for number in 0..turns {
        gate.enter(index, number);
        *ended += turn(rt, alloc, broker, clock, job);
    }
}

/// Makes the turns of all jobs, on as many threads where the system gives them.
fn work_all<
    C: PlannedCore + Send,
    K: Keep + Drop + Send,
    L: Ledger + Send + Sync,
    N: Listener + Drop + Send,
    G: Gate + Sync,
    T: Clock + Sync,
    R: Threads + Wait + Sync,
>(
    rt: &R,
    alloc: Global,
    broker: &Broker<C, K, L>,
    gate: &G,
    clock: &T,
    turns: u64,
    tasks: &mut Vec<Task<N, L>>,
)
where
    C::Plan: Send,
    ensures len { length tasks.new.items ≡ length tasks.old.items }
    ensures each { (i : ℕ) (d : _) → i < length tasks.old.items → TaskRan turns (slice_index_or tasks.old.items i d) (slice_index_or tasks.new.items i d) }
{
    let threads = tasks.len().max(1);
    thread::for_each_mut(
        rt,
        tasks.as_mut_slice(),
        threads,
        &|index, task| work(rt, alloc, broker, gate, clock, turns, index, task),
    );
}

/// Has the listeners of all jobs work, each job on a thread of its own where the system gives so many; where it gives fewer,
/// some work after others. Each job makes `turns` turns. In each it passes the gate and asks for its consumer's next message
/// at the clock's moment; where one comes, the listener handles it, the delivery is ended, well where the listener answered
/// `Ok`, and the call that it named is made, a commit with no messages. A refused call ends nothing but what it was made for.
/// The job's pass notes all its calls. All jobs come back.
///
/// No call is made after a fault:
/// - `SameSession`: two jobs are of one session.
/// - `Memory`: a request for memory was refused.
pub fn serve<
    C: PlannedCore + Send,
    K: Keep + Drop + Send,
    L: Ledger + Send + Sync,
    N: Listener + Drop + Send,
    G: Gate + Sync,
    T: Clock + Sync,
    R: Threads + Wait + Sync,
>(
    rt: &R,
    alloc: Global,
    broker: &Broker<C, K, L>,
    jobs: Vec<Job<N, L>>,
    gate: &G,
    clock: &T,
    turns: u64,
) -> Served<N, L>
where
    C::Plan: Send,
    ensures jobs { vec_len result.jobs ≡ vec_len jobs }
    ensures ran { IfOk result.result (λ counts. AllRan turns jobs.items result.jobs.items counts.items) }
    ensures apart { OnOk result.result (Apart jobs.items (vec_len jobs)) }
    ensures untouched { OnErr result.result (result.jobs.items ≡ jobs.items) }
    ensures fault { IfErr result.result (λ fault. MatchFault fault (SameSession jobs.items) (Apart jobs.items (vec_len jobs))) }
{
    if is_session_shared(jobs.as_slice()) {
        return Served {
            jobs,
            result: Err(ServeFault::SameSession),
        };
    }
    let Ok(room) = room_for(alloc, jobs.len()) else {
        return Served {
            jobs,
            result: Err(ServeFault::Memory),
        };
    };
    let Room {
        tasks,
        jobs: back,
        counts,
    } = room;
    let mut tasks = begin(tasks, jobs);
    work_all(rt, alloc, broker, gate, clock, turns, &mut tasks);
    let (jobs, counts) = end(back, counts, tasks);
    Served {
        jobs,
        result: Ok(counts),
    }
}
