//! Listeners that work at once.

ghost use Rattle.std.specs.Prelude.{◌≡◌};

use crate::steps::{Lock, Parcel, Row, Standing, are_made, holds, is_sent, new_lock, still_clock};
use jm_base::Mode;
use jm_broker::Pass;
use jm_core::Delivery;
use jm_dest::ConsumerId;
use jm_listen::{After, Gate, Job, Listener, ListenerFault, ServeFault, Served, serve};
use std::alloc::{AllocError, Global};
use std::marker::Brand;
use std::sync::Wait;
use std::sync::atomic::{AtomicBool, Ordering};
use std::sync::ledger::{Blank, Ledger};
use std::thread::{Threads, yield_now};
use tests_calls::{At, Op, session};

/// How often a held job looks whether it may go on.
const POLLS: u32 = 1_000_000;

/// Four sessions, each with a consumer of t that listens; and session 4.2, which sends.
static READY: [Row; 17] = [
    (Op::Session((1, 1), Mode::Auto), "ok"),
    (Op::Consumer((1, 1), 1, None), "ok"),
    (Op::Listener((1, 1), 1, true), "ok"),
    (Op::Start(1), "ok"),
    (Op::Session((2, 1), Mode::Auto), "ok"),
    (Op::Consumer((2, 1), 1, None), "ok"),
    (Op::Listener((2, 1), 1, true), "ok"),
    (Op::Start(2), "ok"),
    (Op::Session((3, 1), Mode::Auto), "ok"),
    (Op::Consumer((3, 1), 1, None), "ok"),
    (Op::Listener((3, 1), 1, true), "ok"),
    (Op::Start(3), "ok"),
    (Op::Session((4, 1), Mode::Auto), "ok"),
    (Op::Consumer((4, 1), 1, None), "ok"),
    (Op::Listener((4, 1), 1, true), "ok"),
    (Op::Start(4), "ok"),
    (Op::Session((4, 2), Mode::Auto), "ok"),
];

const A: Parcel = Parcel {
    by: (4, 2),
    mode: Mode::Auto,
    at: At::Topic("t"),
    text: "a",
    x: None,
    before: 0,
};

/// Jobs of session 1 of these connections, how many turns each makes, which of them, from 0, is held until the listener of
/// which other has answered, and how many deliveries each ends, or why none is served.
#[derive(Clone, Copy)]
struct Case {
    connections: &'static [u32],
    turns: u64,
    held: usize,
    awaited: usize,
    ended: Result<u64, ServeFault>,
}

/// Holds a job until the listener of another has answered.
#[derive(Drop)]
struct Hold<'a> {
    job: usize,
    answered: &'a AtomicBool,
    gave_up: &'a AtomicBool,
}

impl Hold<'_> {
    fn wait(&self) {
        for _ in 0..POLLS {
            if self.answered.load(Ordering::SeqCst) {
                return;
            }
            yield_now();
        }
        self.gave_up.store(true, Ordering::SeqCst);
    }
}

impl Gate for Hold<'_> {
    fn enter(&self, job: usize, _turn: u64) {
        if job == self.job {
            self.wait();
        }
    }
}

/// Counts the messages that it handles, and tells where one is awaited that it has answered.
#[derive(Drop)]
struct Counter<'a> {
    is_awaited: bool,
    heard: u64,
    answered: &'a AtomicBool,
}

impl Listener for Counter<'_> {
    fn on_message(&mut self, _delivery: &Delivery) -> Result<After, ListenerFault> {
        self.heard = self.heard.saturating_add(1);
        if self.is_awaited {
            self.answered.store(true, Ordering::SeqCst);
        }
        Ok(After::Go)
    }
}

/// The job of that session's consumer.
fn job<'a, L: Ledger, R: Wait>(
    rt: &R,
    lock: &Lock<L>,
    connection: u32,
    listener: Counter<'a>,
) -> Option<Job<Counter<'a>, L>> {
    let (Ok(session), Ok(consumer)) = (session(connection), ConsumerId::new(1)) else {
        return None;
    };
    match lock.pass(rt) {
        Ok(pass) => Some(Job {
            session,
            consumer,
            pass,
            listener,
        }),
        Err(_) => None,
    }
}

/// Adds the jobs of the case; whether that was done.
fn are_added<'a, L: Ledger, R: Wait>(
    rt: &R,
    lock: &Lock<L>,
    case: Case,
    answered: &'a AtomicBool,
    jobs: &mut Vec<Job<Counter<'a>, L>>,
) -> bool {
    for (index, connection) in case.connections.iter().enumerate() {
        let listener = Counter {
            is_awaited: index == case.awaited,
            heard: 0,
            answered,
        };
        let Some(job) = job(rt, lock, *connection, listener) else {
            return false;
        };
        if jobs.push(job).is_err() {
            return false;
        }
    }
    true
}

fn are_all(counts: &[u64], wanted: u64) -> bool {
    counts.iter().all(|count| *count == wanted)
}

/// Whether each job ended so many deliveries as the case says, or it was not served for that reason.
fn is_ended(told: &Result<Vec<u64>, ServeFault>, case: Case) -> bool {
    match (told, case.ended) {
        (Ok(counts), Ok(wanted)) => {
            counts.len() == case.connections.len() && are_all(counts.as_slice(), wanted)
        }
        (Err(fault), Err(wanted)) => *fault == wanted,
        _ => false,
    }
}

/// Whether the listener of each job handled so many messages.
fn is_heard<L: Ledger>(jobs: &[Job<Counter<'_>, L>], wanted: u64) -> bool {
    for job in jobs {
        if job.listener.heard != wanted {
            return false;
        }
    }
    true
}

fn passes_of<L: Ledger>(
    heap: Global,
    own: Pass<L>,
    jobs: Vec<Job<Counter<'_>, L>>,
) -> Result<Vec<Pass<L>>, AllocError> {
    let mut passes = vec![in heap; own]?;
    for job in jobs {
        passes.push(job.pass)?;
    }
    Ok(passes)
}

/// Whether all went as the case says, and the passes account for the trace.
fn is_accounted_for<L: Ledger>(
    heap: Global,
    lock: Lock<L>,
    own: Pass<L>,
    served: Served<Counter<'_>, L>,
    case: Case,
) -> bool {
    let is_told = is_ended(&served.result, case)
        && is_heard(served.jobs.as_slice(), case.ended.unwrap_or(0));
    match passes_of(heap, own, served.jobs) {
        Ok(passes) => is_told && lock.finish(passes).verdict == Ok(()),
        Err(_) => false,
    }
}

/// Serves the jobs of the case, each of whose consumers has one message; whether all goes as it says.
fn serves<L: Ledger + Send + Sync, R: Threads + Wait + Sync>(
    rt: &R,
    heap: Global,
    lock: Lock<L>,
    own: Pass<L>,
    clock: Standing,
    case: Case,
) -> bool {
    let answered = AtomicBool::new(false);
    let gave_up = AtomicBool::new(false);
    let mut jobs = Vec::new(heap);
    if !are_added(rt, &lock, case, &answered, &mut jobs) {
        return false;
    }
    let gate = Hold {
        job: case.held,
        answered: &answered,
        gave_up: &gave_up,
    };
    let served = serve(rt, heap, &lock, jobs, &gate, &clock, case.turns);
    is_accounted_for(heap, lock, own, served, case) && !gave_up.load(Ordering::SeqCst)
}

/// The same on a new lock.
fn is_served<L: Ledger + Send + Sync, R: Threads + Wait + Sync>(
    rt: &R,
    heap: Global,
    blank: Blank,
    case: Case,
) -> bool
    requires name { blank.name ≡ L.name }
    requires parts { (blank.parts ≡ L.parts) × (blank.parts ≡ 6) }
{
    let Some(lock) = new_lock::<L>(heap, blank, 6) else {
        return false;
    };
    let (Ok(mut own), Ok(clock)) = (lock.pass(rt), still_clock()) else {
        return false;
    };
    if !are_made(rt, heap, &lock, &mut own, &READY) || !is_sent(rt, heap, &lock, &mut own, A) {
        return false;
    }
    serves(rt, heap, lock, own, clock, case)
}

/// Jobs of so many connections, of which one is held until the listener of another has answered.
fn meeting(connections: &'static [u32], held: usize, awaited: usize) -> Case {
    Case {
        connections,
        turns: 3,
        held,
        awaited,
        ended: Ok(1),
    }
}

/// All pairs of a job that is held and one that is awaited, of two, three and four jobs.
static PAIRS: [(&[u32], usize, usize); 20] = [
    (&[1, 2], 0, 1),
    (&[1, 2], 1, 0),
    (&[1, 2, 3], 0, 1),
    (&[1, 2, 3], 0, 2),
    (&[1, 2, 3], 1, 0),
    (&[1, 2, 3], 1, 2),
    (&[1, 2, 3], 2, 0),
    (&[1, 2, 3], 2, 1),
    (&[1, 2, 3, 4], 0, 1),
    (&[1, 2, 3, 4], 0, 2),
    (&[1, 2, 3, 4], 0, 3),
    (&[1, 2, 3, 4], 1, 0),
    (&[1, 2, 3, 4], 1, 2),
    (&[1, 2, 3, 4], 1, 3),
    (&[1, 2, 3, 4], 2, 0),
    (&[1, 2, 3, 4], 2, 1),
    (&[1, 2, 3, 4], 2, 3),
    (&[1, 2, 3, 4], 3, 0),
    (&[1, 2, 3, 4], 3, 1),
    (&[1, 2, 3, 4], 3, 2),
];

#[test]
fn two_listeners_meet(rt: HostRuntime) {
    let heap = rt.alloc();
    for (connections, held, awaited) in &PAIRS {
        let case = meeting(connections, *held, *awaited);
        let is_met = is_served::<Brand, _>(&rt, heap, Blank::new(6), case);
        holds(&rt, "two listeners", is_met);
    }
}

/// No job is held in these: there is none of that number.
const NONE: usize = 9;

static OTHERS: [(&str, Case); 4] = [
    (
        "one job",
        Case {
            connections: &[1],
            turns: 3,
            held: NONE,
            awaited: NONE,
            ended: Ok(1),
        },
    ),
    (
        "one job of no turn",
        Case {
            connections: &[1],
            turns: 0,
            held: NONE,
            awaited: NONE,
            ended: Ok(0),
        },
    ),
    (
        "two jobs of one session",
        Case {
            connections: &[1, 1],
            turns: 3,
            held: NONE,
            awaited: NONE,
            ended: Err(ServeFault::SameSession),
        },
    ),
    (
        "the first and the last of one session",
        Case {
            connections: &[2, 1, 2],
            turns: 3,
            held: NONE,
            awaited: NONE,
            ended: Err(ServeFault::SameSession),
        },
    ),
];

#[test]
fn jobs_that_do_not_wait(rt: HostRuntime) {
    let heap = rt.alloc();
    for (name, case) in &OTHERS {
        let is_told = is_served::<Brand, _>(&rt, heap, Blank::new(6), *case);
        holds(&rt, name, is_told);
    }
}
