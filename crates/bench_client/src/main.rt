//! What the objects of the embedded provider cost: the same work on the core and through them, in one run. The word is the
//! number of rounds; with `timed` as a further word the nanoseconds a round are printed too.
#![tactic(auto)]

mod bare;
mod objects;
mod work;

use bare::work_on_core;
use jm_base::{Mode, Refusal};
use objects::work_through_objects;
use std::alloc::Global;
use std::env::Env;
use std::process::ExitCode;
use std::rt::Clock;
use std::sync::Wait;
use std::{env, io};
use work::Outcome;

/// The nanoseconds of one of so many rounds; 0 where the clock was not read.
fn nanoseconds(outcome: &Outcome, rounds: u32) -> u128 {
    match outcome.elapsed {
        Some(elapsed) => elapsed.as_nanos() / u128::from(rounds.max(1)),
        None => 0,
    }
}

/// Prints what both came to, side by side.
fn show(
    rt: &impl Print,
    name: &str,
    core: &Outcome,
    objects: &Outcome,
    rounds: u32,
    is_timed: bool,
) -> io::Result<()> {
    let core_sum = core.sum;
    let objects_sum = objects.sum;
    println!(rt; "{name}: core {core_sum}, objects {objects_sum}")?;
    if is_timed {
        let on_core = nanoseconds(core, rounds);
        let through_objects = nanoseconds(objects, rounds);
        println!(rt; "{name}: core {on_core} ns, objects {through_objects} ns")?;
    }
    Ok(())
}

/// Makes the rounds on the core and through objects, in sessions of that mode.
fn both<R: Wait + Clock>(
    rt: &R,
    alloc: Global,
    mode: Mode,
    rounds: u32,
) -> Result<(Outcome, Outcome), Refusal> {
    let core = work_on_core(rt, alloc, mode, rounds)?;
    let objects = work_through_objects(rt, alloc, mode, rounds)?;
    Ok((core, objects))
}

/// The same, and prints what both came to.
fn compare<R: Wait + Clock + Print>(
    rt: &R,
    alloc: Global,
    name: &str,
    mode: Mode,
    rounds: u32,
    is_timed: bool,
) -> io::Result<()> {
    match both(rt, alloc, mode, rounds) {
        Ok((core, objects)) => show(rt, name, &core, &objects, rounds, is_timed),
        Err(refusal) => println!(rt; "{name}: {refusal}"),
    }
}

fn main(rt: HostRuntime) -> io::Result<ExitCode> {
    let alloc = rt.alloc();
    let words: Vec<String> = env::args(&rt)?.skip(1).collect(alloc)?;
    let rounds = match words.first() {
        Some(word) => word.as_str().parse().ok(),
        None => None,
    };
    let Some(rounds) = rounds else {
        println!(&rt; "bench_client: ROUNDS [timed]")?;
        return Ok(ExitCode::from(2));
    };
    let is_timed = words.len() > 1;
    compare(&rt, alloc, "one-to-one", Mode::Auto, rounds, is_timed)?;
    compare(&rt, alloc, "batches", Mode::Transacted, rounds, is_timed)?;
    Ok(ExitCode::from(0))
}
