//! Threads that call at once through the lock, counted and audited. The words are how many threads and how many calls, 4 and
//! 20,000 where there are none; with `counts` as a further word it is printed what became of the messages.
#![tactic(auto)]

ghost use Rattle.std.specs.Prelude.{◌≡◌, ◌≤◌};

mod account;
mod book;
mod others;
mod rounds;
mod turns;
mod worker;

use rounds::{Load, Outcome, stress};
use std::marker::Brand;
use std::process::ExitCode;
use std::sync::ledger::Blank;
use std::{env, io};

/// What is asked for where there are no words.
const DEFAULT: Load = Load {
    threads: 4,
    calls: 20_000,
};

/// The load that the words ask for.
fn load_of(words: &[String]) -> Option<Load> {
    if words.is_empty() {
        return Some(DEFAULT);
    }
    if words.len() < 2 {
        return None;
    }
    let threads: u32 = words[0].as_str().parse().ok()?;
    let calls: u64 = words[1].as_str().parse().ok()?;
    if threads == 0 || threads > 64 {
        return None;
    }
    Some(Load { threads, calls })
}

/// Whether the word stands behind the load.
fn has_word(words: &[String], word: &str) -> bool {
    words.iter().skip(2).any(|it| it.as_str() == word)
}

fn show_counts(rt: &impl Print, outcome: &Outcome) -> io::Result<()> {
    let Outcome {
        events,
        segments,
        ..
    } = outcome;
    println!(rt; "events {events} in {segments} segments")?;
    for (name, counts) in &outcome.counts {
        let came = counts.came;
        let settled = counts.settled;
        let held = counts.held;
        let expired = counts.expired;
        let missed = counts.missed;
        println!(rt;
            "{name}: came {came}, settled {settled}, held {held}, expired {expired}, missed {missed}"
        )?;
    }
    Ok(())
}

fn show(rt: &impl Print, load: Load, outcome: &Outcome, has_counts: bool) -> io::Result<()> {
    let threads = load.threads;
    let calls = outcome.calls;
    let faults = outcome.faults;
    println!(rt; "threads {threads}")?;
    println!(rt; "calls {calls}")?;
    println!(rt; "faults {faults}")?;
    if has_counts {
        show_counts(rt, outcome)?;
    }
    Ok(())
}

fn main(rt: HostRuntime) -> io::Result<ExitCode> {
    let heap = rt.alloc();
    let words: Vec<String> = env::args(&rt)?.skip(1).collect(heap)?;
    let Some(load) = load_of(words.as_slice()) else {
        println!(&rt; "stress: [THREADS CALLS [counts]], at most 64 threads")?;
        return Ok(ExitCode::from(2));
    };
    let parts = u64::from(load.threads.max(1)) + 1;
    match stress::<Brand, _>(&rt, heap, Blank::new(parts), parts, load) {
        Some(outcome) => {
            show(&rt, load, &outcome, has_word(words.as_slice(), "counts"))?;
            Ok(ExitCode::from(if outcome.faults == 0 { 0 } else { 1 }))
        }
        None => {
            println!(&rt; "stress: memory")?;
            Ok(ExitCode::from(3))
        }
    }
}
