//! A stop at each call of the file and of the log.

use crate::files::{Images, Stop, Stopping, all_left, connected, images_of, stopping};
use crate::provider::{fits, steps_over};
use crate::runs::{CARRIED, NEW};
use crate::told::holds;
use crate::turns::Run;
use sqlite::Files;
use std::alloc::Global;

/// What comes of a run that is to be stopped.
enum Outcome {
    /// It was stopped, and leaves what it should.
    Stopped,
    /// No stop was met, and it leaves what it should.
    Whole,
    /// It leaves something else, or a call was told something else.
    Unfit,
}

/// How many steps the run makes over the files, and what is left of them.
fn first(alloc: Global, files: Files<Stopping>, run: &Run) -> (Option<usize>, Files<Stopping>) {
    match connected(alloc, files) {
        Ok(conn) => {
            let (steps, store) = steps_over(alloc, conn, run.turns);
            (steps, store.close())
        }
        Err(files) => (Some(0), files),
    }
}

/// Whether the files, as the stop leaves them, hold what stands after so many steps of the run, or after one more.
fn hold(alloc: Global, files: Files<Stopping>, is_lossy: bool, run: &Run, steps: usize) -> bool {
    match all_left(alloc, files, is_lossy) {
        Some(files) => match connected(alloc, files) {
            Ok(conn) => fits(alloc, conn, run, steps),
            Err(_) => false,
        },
        None => false,
    }
}

fn outcome_of(alloc: Global, files: Files<Stopping>, is_lossy: bool, run: &Run) -> Outcome {
    let (steps, files) = first(alloc, files, run);
    match steps {
        Some(steps) if hold(alloc, files, is_lossy, run, steps) => {
            if steps == run.steps() {
                Outcome::Whole
            } else {
                Outcome::Stopped
            }
        }
        _ => Outcome::Unfit,
    }
}

fn tried(alloc: Global, images: &Images, stop: Stop, run: &Run) -> Outcome {
    match stopping(alloc, images, stop) {
        Some(files) => outcome_of(alloc, files, stop.is_lossy, run),
        None => Outcome::Unfit,
    }
}

/// After how many calls the run meets no stop, where each stop before leaves what it should.
fn calls_of_all(
    alloc: Global,
    images: &Images,
    run: &Run,
    on_log: bool,
    is_lossy: bool,
) -> Option<u64> {
    for calls in 0..100_000u64 {
        let stop = Stop {
            on_log,
            calls,
            is_lossy,
        };
        match tried(alloc, images, stop, run) {
            Outcome::Stopped => {}
            Outcome::Whole => return Some(calls),
            Outcome::Unfit => return None,
        }
    }
    None
}

/// Whether the run met some stops before it met none.
fn has_met_stops(calls: Option<u64>) -> bool {
    match calls {
        Some(calls) => calls > 10,
        None => false,
    }
}

/// Whether each stop of the file, or of the log, leaves what it should, whether it loses what was not synced or not.
fn passes(alloc: Global, run: &Run, on_log: bool) -> bool {
    match images_of(alloc, run.parts) {
        Some(images) => {
            let losing = calls_of_all(alloc, &images, run, on_log, true);
            let keeping = calls_of_all(alloc, &images, run, on_log, false);
            has_met_stops(losing) && losing == keeping
        }
        None => false,
    }
}

#[test]
fn new_store_is_stopped_at_each_call_of_its_file(rt: HostRuntime) {
    let passes = passes(rt.alloc(), &NEW, false);
    holds(&rt, "the file", passes);
}

#[test]
fn new_store_is_stopped_at_each_call_of_its_log(rt: HostRuntime) {
    let passes = passes(rt.alloc(), &NEW, true);
    holds(&rt, "the log", passes);
}

#[test]
fn carried_store_is_stopped_at_each_call_of_its_file(rt: HostRuntime) {
    let passes = passes(rt.alloc(), &CARRIED, false);
    holds(&rt, "the file", passes);
}

#[test]
fn carried_store_is_stopped_at_each_call_of_its_log(rt: HostRuntime) {
    let passes = passes(rt.alloc(), &CARRIED, true);
    holds(&rt, "the log", passes);
}
