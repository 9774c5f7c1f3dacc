//! Rounds of turns on all threads, each audited before the next.

ghost use Rattle.std.specs.Prelude.{◌≡◌, ◌≤◌};

use crate::account::Counts;
use crate::book::Book;
use crate::others::Others;
use crate::worker::{Lock, Worker, begin, new_worker, take_turns};
use jm_broker::{Broker, Pass, Trace};
use jm_core::{Core, Reply};
use jm_keep::NoKeep;
use std::alloc::Global;
use std::sync::Wait;
use std::sync::ledger::{Blank, Ledger};
use std::thread::{Threads, yield_now};
use std::{mem, thread};
use told_alone::{is_alone, receiver_of, told};

/// How many turns a thread makes in a round.
const ROUND: u64 = 250;

/// The most rows that a subscription may hold.
const HELD: u32 = 100;

/// How much is called: by so many threads, so many calls in all.
#[derive(Clone, Copy)]
pub(crate) struct Load {
    pub(crate) threads: u32,
    pub(crate) calls: u64,
}

/// What was seen.
#[derive(Clone, Copy)]
pub(crate) struct Outcome {
    /// How many calls the threads made; one that waited counts once.
    pub(crate) calls: u64,
    /// How many events the trace has, in how many segments.
    pub(crate) events: u64,
    pub(crate) segments: u64,
    /// How many calls were refused, segments not gathered, threads told otherwise than alone, and messages not accounted for.
    pub(crate) faults: u64,
    pub(crate) counts: [(&'static str, Counts); 3],
}

/// A thread's client with its pass.
#[derive(Drop)]
struct Shift<L: Ledger> {
    worker: Worker,
    pass: Pass<L>,
}

/// Wakes those that wait until none does: nobody waits any more where no other thread is left to end so.
fn wake_others<L: Ledger, R: Wait>(rt: &R, lock: &Lock<L>, others: &Others) {
    for _ in rt.forever() {
        if others.none_waits() {
            break;
        }
        lock.wake();
        yield_now();
    }
}

/// Makes a thread's turns of the round. The first thread cuts the trace in the middle of them.
fn work<L: Ledger, R: Wait>(
    rt: &R,
    heap: Global,
    lock: &Lock<L>,
    others: &Others,
    turns: u64,
    index: usize,
    shift: &mut Shift<L>,
) {
    let Shift { worker, pass } = shift;
    let cuts = index == 0;
    take_turns(rt, heap, lock, pass, worker, others, turns, cuts);
    others.finish();
    wake_others(rt, lock, others);
}

/// Makes the turns of all threads.
fn work_all<L: Ledger + Send + Sync, R: Threads + Wait + Sync>(
    rt: &R,
    heap: Global,
    lock: &Lock<L>,
    shifts: &mut Vec<Shift<L>>,
    turns: u64,
) {
    let threads = shifts.len();
    let others = Others::new(threads as u64);
    let others = &others;
    thread::for_each_mut(
        rt,
        shifts.as_mut_slice(),
        threads.max(1),
        &|index, shift| work(rt, heap, lock, others, turns, index, shift),
    );
}

/// What was found so far.
#[derive(Drop)]
struct Audit {
    heap: Global,
    book: Book,
    events: u64,
    segments: u64,
    faults: u64,
}

/// What the own subscription of that connection's client was told in the segment, by its pass.
fn told_in<L: Ledger>(
    heap: Global,
    segment: &Trace<Core>,
    end: u64,
    pass: &Pass<L>,
    connection: u32,
) -> Option<Vec<Reply>> {
    match receiver_of(connection) {
        Ok(receiver) => told(heap, pass, receiver, segment.first(), end).ok(),
        Err(_) => None,
    }
}

fn is_answered_alone(heap: Global, segment: &Trace<Core>, connection: u32, told: &[Reply]) -> bool {
    match receiver_of(connection) {
        Ok(receiver) => is_alone(heap, segment, receiver, told),
        Err(_) => false,
    }
}

/// Whether the thread was told in the segment, by its pass, what its own subscription answers alone.
fn is_told_alone<L: Ledger>(
    heap: Global,
    segment: &Trace<Core>,
    end: u64,
    pass: &Pass<L>,
    connection: u32,
) -> bool {
    match told_in(heap, segment, end, pass, connection) {
        Some(told) => is_answered_alone(heap, segment, connection, told.as_slice()),
        None => false,
    }
}

/// How many threads were told otherwise.
fn told_otherwise<L: Ledger>(
    heap: Global,
    segment: &Trace<Core>,
    end: u64,
    passes: &[Pass<L>],
) -> u64 {
    let mut faults = 0u64;
    let mut connection = 0u32;
    for pass in passes {
        connection = connection.saturating_add(1);
        if !is_told_alone(heap, segment, end, pass, connection) {
            faults = faults.saturating_add(1);
        }
    }
    faults
}

fn forget_all<L: Ledger>(passes: &mut Vec<Pass<L>>, first: u64) {
    for pass in passes.iter_mut() {
        pass.forget(first);
    }
}

impl Audit {
    fn note_faults(&mut self, faults: u64) {
        self.faults = self.faults.saturating_add(faults);
    }

    /// The next segment, which the passes are to account for.
    fn check<L: Ledger>(&mut self, segment: &Trace<Core>, passes: &[Pass<L>]) {
        let events = segment.events();
        let end = segment.first().saturating_add(events.len() as u64);
        self.segments = self.segments.saturating_add(1);
        self.events = self.events.saturating_add(events.len() as u64);
        self.book.note_all(events);
        if segment.gather(self.heap, passes) != Ok(()) {
            self.note_faults(1);
        }
        self.note_faults(told_otherwise(self.heap, segment, end, passes));
    }

    fn check_cut<L: Ledger>(&mut self, segment: Option<Trace<Core>>, passes: &[Pass<L>]) {
        match segment {
            Some(segment) => self.check(&segment, passes),
            None => self.note_faults(1),
        }
    }

    /// What is held after all events, told by a segment without any; and what the passes may forget.
    fn close<L: Ledger>(&mut self, segment: Option<Trace<Core>>, passes: &mut Vec<Pass<L>>) {
        match segment {
            Some(segment) => {
                self.book.close(segment.opening());
                forget_all(passes, segment.first());
            }
            None => self.note_faults(1),
        }
    }
}

/// The segment that the first thread has cut.
fn take_segment(workers: &mut Vec<Worker>) -> Option<Trace<Core>> {
    if workers.is_empty() {
        None
    } else {
        mem::replace(&mut workers[0].segment, None)
    }
}

/// The clients and their passes, in their order. None where a request for memory was refused.
fn split<L: Ledger>(heap: Global, shifts: Vec<Shift<L>>) -> Option<(Vec<Worker>, Vec<Pass<L>>)> {
    let mut workers = Vec::new(heap);
    let mut passes = Vec::new(heap);
    for shift in shifts {
        let Shift { worker, pass } = shift;
        if workers.push(worker).is_err() || passes.push(pass).is_err() {
            return None;
        }
    }
    Some((workers, passes))
}

/// The same put together again.
fn unite<L: Ledger>(
    heap: Global,
    workers: Vec<Worker>,
    passes: Vec<Pass<L>>,
) -> Option<Vec<Shift<L>>> {
    let mut shifts = Vec::new(heap);
    for (worker, pass) in workers.into_iter().zip(passes) {
        if shifts.push(Shift { worker, pass }).is_err() {
            return None;
        }
    }
    Some(shifts)
}

/// Audits a round: the segment that the first thread has cut, and the one since.
fn audit_round<L: Ledger, R: Wait>(
    rt: &R,
    lock: &Lock<L>,
    audit: &mut Audit,
    workers: &mut Vec<Worker>,
    passes: &mut Vec<Pass<L>>,
) {
    audit.check_cut(take_segment(workers), passes.as_slice());
    audit.check_cut(lock.cut(rt).ok(), passes.as_slice());
    audit.close(lock.cut(rt).ok(), passes);
}

/// Makes a round of so many turns a thread. None where a request for memory was refused.
fn round<L: Ledger + Send + Sync, R: Threads + Wait + Sync>(
    rt: &R,
    lock: &Lock<L>,
    audit: &mut Audit,
    shifts: Vec<Shift<L>>,
    turns: u64,
) -> Option<Vec<Shift<L>>> {
    let heap = audit.heap;
    let mut shifts = shifts;
    work_all(rt, heap, lock, &mut shifts, turns);
    match split(heap, shifts) {
        Some((mut workers, mut passes)) => {
            audit_round(rt, lock, audit, &mut workers, &mut passes);
            unite(heap, workers, passes)
        }
        None => None,
    }
}

/// Makes all rounds.
fn rounds<L: Ledger + Send + Sync, R: Threads + Wait + Sync>(
    rt: &R,
    lock: &Lock<L>,
    audit: &mut Audit,
    shifts: Vec<Shift<L>>,
    turns: u64,
) -> Option<Vec<Shift<L>>> {
    let mut shifts = shifts;
    for number in 0..turns.div_ceil(ROUND) {
        let left = turns.saturating_sub(number.saturating_mul(ROUND));
        match round(rt, lock, audit, shifts, left.min(ROUND)) {
            Some(all) => shifts = all,
            None => return None,
        }
    }
    Some(shifts)
}

/// A client of that connection with a pass; its connection is open, with its sessions and consumers.
fn new_shift<L: Ledger, R: Wait>(
    rt: &R,
    heap: Global,
    lock: &Lock<L>,
    connection: u32,
) -> Option<Shift<L>> {
    match (new_worker(heap, connection), lock.pass(rt)) {
        (Ok(mut worker), Ok(mut pass)) => {
            begin(rt, heap, lock, &mut pass, &mut worker);
            Some(Shift { worker, pass })
        }
        _ => None,
    }
}

/// So many of them.
fn crew<L: Ledger, R: Wait>(
    rt: &R,
    heap: Global,
    lock: &Lock<L>,
    threads: u32,
) -> Option<Vec<Shift<L>>> {
    let mut shifts = Vec::new(heap);
    for number in 0..threads {
        let Some(shift) = new_shift(rt, heap, lock, number.saturating_add(1)) else {
            return None;
        };
        if shifts.push(shift).is_err() {
            return None;
        }
    }
    Some(shifts)
}

fn new_audit(heap: Global, threads: u32) -> Option<Audit> {
    match Book::new(heap, threads) {
        Ok(book) => Some(Audit {
            heap,
            book,
            events: 0,
            segments: 0,
            faults: 0,
        }),
        Err(_) => None,
    }
}

/// Counts the calls and the refusals of all clients.
fn calls_of(workers: &[Worker]) -> (u64, u64) {
    let mut made = 0u64;
    let mut refused = 0u64;
    for worker in workers {
        made = made.saturating_add(worker.made);
        refused = refused.saturating_add(worker.refused);
    }
    (made, refused)
}

/// Takes all back from the lock, with the last segment.
fn outcome_of<L: Ledger>(
    lock: Lock<L>,
    audit: Audit,
    workers: &[Worker],
    passes: Vec<Pass<L>>,
) -> Outcome {
    let (calls, refused) = calls_of(workers);
    let is_finished = lock.finish(passes).verdict == Ok(());
    let unfinished = if is_finished { 0u64 } else { 1 };
    Outcome {
        calls,
        events: audit.events,
        segments: audit.segments,
        faults: audit
            .faults
            .saturating_add(refused)
            .saturating_add(unfinished)
            .saturating_add(audit.book.faults()),
        counts: audit.book.became(),
    }
}

/// Makes the calls of the load with that crew, and audits them.
fn work_and_audit<L: Ledger + Send + Sync, R: Threads + Wait + Sync>(
    rt: &R,
    lock: &Lock<L>,
    audit: &mut Audit,
    load: Load,
) -> Option<(Vec<Worker>, Vec<Pass<L>>)> {
    let heap = audit.heap;
    let turns = load.calls / u64::from(load.threads.max(1));
    match crew(rt, heap, lock, load.threads) {
        Some(shifts) => match rounds(rt, lock, audit, shifts, turns) {
            Some(shifts) => split(heap, shifts),
            None => None,
        },
        None => None,
    }
}

fn run<L: Ledger + Send + Sync, R: Threads + Wait + Sync>(
    rt: &R,
    lock: Lock<L>,
    audit: Audit,
    load: Load,
) -> Option<Outcome> {
    let mut audit = audit;
    match work_and_audit(rt, &lock, &mut audit, load) {
        Some((workers, passes)) => Some(outcome_of(lock, audit, workers.as_slice(), passes)),
        None => None,
    }
}

fn new_lock<L: Ledger>(heap: Global, blank: Blank, parts: u64) -> Option<Lock<L>>
    requires name { blank.name ≡ L.name }
    requires parts { (blank.parts ≡ L.parts) × (blank.parts ≡ parts) }
    requires some { 2 ≤ parts }
{
    match Core::new(heap, 1, HELD) {
        Ok(core) => Broker::new(heap, blank, parts, core, NoKeep).ok(),
        Err(_) => None,
    }
}

/// Has the threads of the load make its calls, and audits them. None where a request for memory was refused.
pub(crate) fn stress<L: Ledger + Send + Sync, R: Threads + Wait + Sync>(
    rt: &R,
    heap: Global,
    blank: Blank,
    parts: u64,
    load: Load,
) -> Option<Outcome>
    requires name { blank.name ≡ L.name }
    requires parts { (blank.parts ≡ L.parts) × (blank.parts ≡ parts) }
    requires some { 2 ≤ parts }
{
    match new_lock::<L>(heap, blank, parts) {
        Some(lock) => match new_audit(heap, load.threads) {
            Some(audit) => run(rt, lock, audit, load),
            None => None,
        },
        None => None,
    }
}
