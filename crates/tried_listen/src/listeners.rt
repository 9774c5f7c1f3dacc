//! Two listeners that work at once.

ghost use Rattle.std.specs.Prelude.{◌≡◌};

use jm_base::{Mode, Refusal};
use jm_broker::{Broker, Clock, FinishFault, Pass};
use jm_core::Core;
use jm_dest::{ConsumerId, Moment};
use jm_keep::NoKeep;
use jm_listen::{After, Gate, Job, Listener, ListenerFault, ServeFault, Served, serve};
use jm_machine::{Delivery, Step};
use std::alloc::Global;
use std::marker::Brand;
use std::sync::Wait;
use std::sync::ledger::{Blank, Ledger};
use std::thread::Threads;
use tests_calls::{At, Op, publication, session};
use tried::{Made, two};
use tried_broker::anew::Run;
use tried_core::cores::step;

type Lock<L> = Broker<Core, NoKeep, L>;

type Jobs<L> = Vec<Job<Content, L>>;

/// How many messages there are, one for each listener.
const MESSAGES: u64 = 2;
/// How many turns each job makes: it takes its message, and finds none any more.
const TURNS: u64 = 2;
/// How many calls all jobs make: each takes its message, ends its delivery, and takes none.
const ALL_CALLS: usize = 6;

/// What is called before the messages are sent.
static OPS: [Op; 10] = [
    Op::Open(1),
    Op::Open(2),
    Op::Session((1, 1), Mode::Auto),
    Op::Session((2, 1), Mode::Auto),
    Op::ConsumerAt((1, 1), 1, At::Queue("orders"), None, false),
    Op::ConsumerAt((2, 1), 1, At::Queue("invoices"), None, false),
    Op::Listener((1, 1), 1, true),
    Op::Listener((2, 1), 1, true),
    Op::Start(1),
    Op::Start(2),
];

/// Is done well with each message, and counts them.
#[derive(Drop)]
struct Content {
    heard: usize,
}

impl Listener for Content {
    fn on_message(&mut self, _order: &Delivery) -> Result<After, ListenerFault> {
        self.heard = self.heard.saturating_add(1);
        Ok(After::Go)
    }
}

/// Lets all in.
#[derive(Clone, Copy)]
struct Open;

impl Gate for Open {
    fn enter(&self, _job: usize, _turn: u64) {}
}

/// A clock that stands.
#[derive(Clone, Copy)]
struct Noon(Moment);

impl Clock for Noon {
    fn now(&self) -> Moment {
        self.0
    }
}

/// A lock with two listeners and a message for each, the pass of all calls before, and room for all passes.
#[derive(Drop)]
struct Ready<L: Ledger> {
    noon: Noon,
    lock: Lock<L>,
    own: Pass<L>,
    jobs: Jobs<L>,
    passes: Vec<Pass<L>>,
}

/// What the jobs did.
#[derive(Clone, Copy)]
struct Worked {
    /// How many messages were heard.
    heard: usize,
    /// How many calls were made.
    calls: usize,
    /// How many deliveries were ended, or why none was.
    ended: Result<u64, ServeFault>,
}

fn lock<L: Ledger>(heap: Global, blank: Blank) -> Result<Lock<L>, Refusal>
    requires name { blank.name ≡ L.name }
    requires parts { (blank.parts ≡ L.parts) × (blank.parts ≡ 4) }
{
    let core = Core::new(heap, 1, 100_000)?;
    match Broker::new(heap, blank, 4, core, NoKeep) {
        Ok(lock) => Ok(lock),
        Err(_) => Err(Refusal::Memory),
    }
}

/// Makes the step.
fn make<L: Ledger, R: Wait>(
    rt: &R,
    lock: &Lock<L>,
    pass: &mut Pass<L>,
    step: &Step,
) -> Result<(), Refusal> {
    match lock.call(rt, pass, step) {
        Ok(_) => Ok(()),
        Err(refusal) => Err(refusal),
    }
}

/// Makes the call.
fn ask<L: Ledger, R: Wait>(
    rt: &R,
    heap: Global,
    lock: &Lock<L>,
    pass: &mut Pass<L>,
    op: Op,
) -> Result<(), Refusal> {
    match step(heap, op) {
        Ok(step) => make(rt, lock, pass, &step),
        Err(refusal) => Err(refusal),
    }
}

/// Sends a message to the queue.
fn send<L: Ledger, R: Wait>(
    rt: &R,
    heap: Global,
    lock: &Lock<L>,
    pass: &mut Pass<L>,
    queue: &'static str,
) -> Result<(), Refusal> {
    match publication(heap, 1, At::Queue(queue), None, 1) {
        Ok(step) => make(rt, lock, pass, &step),
        Err(refusal) => Err(refusal),
    }
}

/// Makes all calls before.
fn fill<L: Ledger, R: Wait>(
    rt: &R,
    heap: Global,
    lock: &Lock<L>,
    pass: &mut Pass<L>,
) -> Result<(), Refusal> {
    for op in &OPS {
        ask(rt, heap, lock, pass, *op)?;
    }
    send(rt, heap, lock, pass, "orders")?;
    send(rt, heap, lock, pass, "invoices")
}

/// The job of consumer 1 of session 1 of that connection.
fn job<L: Ledger, R: Wait>(
    rt: &R,
    lock: &Lock<L>,
    connection: u32,
) -> Result<Job<Content, L>, Refusal> {
    Ok(Job {
        session: session(connection)?,
        consumer: ConsumerId::new(1)?,
        pass: lock.pass(rt)?,
        listener: Content { heard: 0 },
    })
}

fn two_jobs<L: Ledger, R: Wait>(rt: &R, heap: Global, lock: &Lock<L>) -> Result<Jobs<L>, Refusal> {
    let one = job(rt, lock, 1)?;
    let other = job(rt, lock, 2)?;
    match vec![in heap; one, other] {
        Ok(jobs) => Ok(jobs),
        Err(_) => Err(Refusal::Memory),
    }
}

fn room<L: Ledger>(heap: Global) -> Result<Vec<Pass<L>>, Refusal> {
    match Vec::with_capacity(heap, 3) {
        Ok(room) => Ok(room),
        Err(_) => Err(Refusal::Memory),
    }
}

fn prepared<L: Ledger, R: Wait>(rt: &R, heap: Global, lock: Lock<L>) -> Result<Ready<L>, Refusal> {
    let noon = Noon(Moment::new(1000)?);
    let mut own = lock.pass(rt)?;
    fill(rt, heap, &lock, &mut own)?;
    let jobs = two_jobs(rt, heap, &lock)?;
    let passes = room(heap)?;
    Ok(Ready {
        noon,
        lock,
        own,
        jobs,
        passes,
    })
}

/// How many messages all listeners heard.
fn heard<L: Ledger>(jobs: &[Job<Content, L>]) -> usize {
    let mut heard: usize = 0;
    for job in jobs {
        heard = heard.wrapping_add(job.listener.heard);
    }
    heard
}

/// How many calls all jobs made.
fn calls<L: Ledger>(jobs: &[Job<Content, L>]) -> usize {
    let mut calls: usize = 0;
    for job in jobs {
        calls = calls.wrapping_add(job.pass.entries().len());
    }
    calls
}

fn sum(counts: &[u64]) -> u64 {
    let mut sum: u64 = 0;
    for count in counts {
        sum = sum.wrapping_add(*count);
    }
    sum
}

/// What the jobs did that were served.
fn work_of<L: Ledger>(served: &Served<Content, L>) -> Worked {
    Worked {
        heard: heard(served.jobs.as_slice()),
        calls: calls(served.jobs.as_slice()),
        ended: match &served.result {
            Ok(counts) => Ok(sum(counts.as_slice())),
            Err(fault) => Err(*fault),
        },
    }
}

/// Puts the passes of all jobs into the room.
fn gather<L: Ledger>(passes: &mut Vec<Pass<L>>, own: Pass<L>, jobs: Jobs<L>) {
    let _ = passes.push(own);
    for job in jobs {
        let _ = passes.push(job.pass);
    }
}

/// The end of the run: of each message that was sent, its delivery was ended, or its queue has it.
fn ended(worked: Worked, queued: usize, verdict: Result<(), FinishFault>) -> Run {
    let Worked {
        heard,
        calls,
        ended,
    } = worked;
    let count = ended.unwrap_or(0);
    let wants = ended == Err(ServeFault::Memory) || calls < ALL_CALLS;
    match verdict {
        Err(FinishFault::Mismatch { .. }) => Run::Ended(Ok(0)),
        Ok(()) if !wants => Run::Ended(Ok(two(heard, count as usize))),
        _ => Run::BrokeOff {
            before: MESSAGES,
            after: count.wrapping_add(queued as u64),
        },
    }
}

/// Serves the jobs, and ends the run.
fn served<L: Ledger + Send + Sync, R: Threads + Wait + Sync>(
    rt: &R,
    heap: Global,
    ready: Ready<L>,
) -> Run {
    let Ready {
        noon,
        lock,
        own,
        jobs,
        mut passes,
    } = ready;
    let served = serve(rt, heap, &lock, jobs, &Open, &noon, TURNS);
    let worked = work_of(&served);
    gather(&mut passes, own, served.jobs);
    let finished = lock.finish(passes);
    ended(worked, finished.core.kept_by_queues(), finished.verdict)
}

fn run<L: Ledger + Send + Sync, R: Threads + Wait + Sync>(rt: &R, heap: Global, blank: Blank) -> Run
    requires name { blank.name ≡ L.name }
    requires parts { (blank.parts ≡ L.parts) × (blank.parts ≡ 4) }
{
    let Ok(lock) = lock::<L>(heap, blank) else {
        return Run::NotBegun;
    };
    match prepared(rt, heap, lock) {
        Ok(ready) => served(rt, heap, ready),
        Err(_) => Run::NotBegun,
    }
}

/// Makes the call of that number, and makes it anew where memory was wanted in it.
pub fn made<R: Threads + Wait + Sync>(rt: &R, heap: Global, number: usize) -> Made {
    if number > 0 {
        return Made::NoCall;
    }
    let first = run::<Brand, _>(rt, heap, Blank::new(4));
    let again = if first.is_broken_off() {
        run::<Brand, _>(rt, heap, Blank::new(4))
    } else {
        first
    };
    first.told("jm_listen serve", again)
}
