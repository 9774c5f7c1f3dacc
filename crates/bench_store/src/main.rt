//! Counted work on a provider over a store. The words are the name of a file, or `memory` for a database in memory, a kind of
//! work and its rounds; with `timed` as a further word the nanoseconds of the opening and of a round are printed too.
#![tactic(auto)]

mod provider;
mod work;

use jm_base::Refusal;
use jm_core::Core;
use jm_keep::Keep;
use jm_store::{Reopened, open};
use provider::{Provider, Sessions, session};
use sqlite::{Alter, Connection, Unknown};
use std::alloc::Global;
use std::env::Env;
use std::process::ExitCode;
use std::rt::Clock;
use std::time::Instant;
use std::{env, io};
use work::{Work, make, mode, work_named};

/// What is done, how often, and by whom.
#[derive(Clone, Copy)]
struct Load {
    work: Work,
    rounds: u32,
    sessions: Sessions,
}

/// What so many rounds came to: the sum of the numbers of the messages that were received, and how many are held.
struct Outcome {
    rounds: u32,
    sum: u64,
    kept: usize,
}

/// The same with the nanoseconds of the opening, and of all.
struct Measured {
    outcome: Outcome,
    opening: u128,
    all: u128,
}

/// How many rows a subscription that is not durable may hold.
const HELD_LIMIT: u32 = 100_000;

/// The load of so many rounds of the work of that name.
fn load_of(work: &str, rounds: &str) -> Option<Load> {
    Some(Load {
        work: work_named(work)?,
        rounds: rounds.parse().ok()?,
        sessions: Sessions {
            receiver: session(1).ok()?,
            publisher: session(2).ok()?,
        },
    })
}

/// Whether the words ask for the times.
fn is_timed(words: &[String]) -> bool {
    words.len() > 3 && words[3].as_str() == "timed"
}

/// The nanoseconds since then; 0 where the clock fails.
fn elapsed(rt: &impl Clock, start: Instant) -> u128 {
    match start.elapsed(rt) {
        Ok(duration) => duration.as_nanos(),
        Err(_) => 0,
    }
}

/// Opens the connections and makes the rounds.
fn make_all<K: Keep + Drop>(
    provider: &mut Provider<K>,
    work: Work,
    rounds: u32,
) -> Result<(), Refusal> {
    provider.open()?;
    make(provider, work, rounds)
}

/// Makes the rounds on a provider of the core and the store that were opened.
fn work_on<S: Alter + Drop>(
    alloc: Global,
    reopened: Reopened<S>,
    load: Load,
) -> Result<Outcome, Refusal> {
    let Reopened { store, core } = reopened;
    let mut provider = Provider::new(alloc, core, store, load.sessions, mode(load.work));
    match make_all(&mut provider, load.work, load.rounds) {
        Ok(()) => Ok(Outcome {
            rounds: load.rounds,
            sum: provider.sum(),
            kept: provider.kept(),
        }),
        Err(refusal) => Err(refusal),
    }
}

/// Opens the store of the connection, which was asked for then, and works on it.
fn measure<S: Alter + Drop>(
    rt: &impl Clock,
    alloc: Global,
    conn: Connection<S>,
    load: Load,
    start: Instant,
) -> Result<Measured, Refusal> {
    match open(alloc, conn, HELD_LIMIT) {
        Ok(reopened) => {
            let opening = elapsed(rt, start);
            let outcome = work_on(alloc, reopened, load)?;
            let all = elapsed(rt, start);
            Ok(Measured {
                outcome,
                opening,
                all,
            })
        }
        Err(_) => Err(Refusal::Store),
    }
}

/// Prints what the rounds came to, and the times where these are asked for: of the opening, and of each round.
fn tell(rt: &impl Print, measured: Result<Measured, Refusal>, timed: bool) -> io::Result<()> {
    match measured {
        Ok(
            Measured {
                outcome: Outcome { rounds, sum, kept },
                opening,
                all,
            },
        ) => {
            println!(rt; "sum {sum}\nkept {kept}")?;
            if timed {
                let round = all.saturating_sub(opening) / u128::from(rounds.max(1));
                println!(rt; "opening {opening} ns\nround {round} ns")?;
            }
            Ok(())
        }
        Err(refusal) => println!(rt; "{refusal}"),
    }
}

/// Works on the store of the file of that name.
fn run_file(rt: &HostRuntime, name: &str, load: Load, timed: bool) -> io::Result<()> {
    let start = Instant::now(rt)?;
    match Connection::open_from(rt, name, false, Unknown) {
        Ok(conn) => {
            let measured = measure(rt, rt.alloc(), conn, load, start);
            tell(rt, measured, timed)
        }
        Err(_) => println!(rt; "not connected"),
    }
}

/// Works on a store in memory.
fn run_memory(rt: &HostRuntime, load: Load, timed: bool) -> io::Result<()> {
    let start = Instant::now(rt)?;
    let conn = Connection::open_in_memory(rt.alloc())?;
    let measured = measure(rt, rt.alloc(), conn, load, start);
    tell(rt, measured, timed)
}

/// Works on the store in memory, or on that of the file of that name.
fn run(rt: &HostRuntime, name: &str, load: Load, timed: bool) -> io::Result<()> {
    if name == "memory" {
        run_memory(rt, load, timed)
    } else {
        run_file(rt, name, load, timed)
    }
}

/// Prints what words are wanted.
fn tell_usage(rt: &impl Print) -> io::Result<ExitCode> {
    println!(rt; "bench_store: FILE|memory one-to-one|commits|fill|load ROUNDS [timed]")?;
    Ok(ExitCode::from(2))
}

/// Does what the words ask for.
fn obey(rt: &HostRuntime, words: &[String]) -> io::Result<ExitCode> {
    if words.len() < 3 {
        return tell_usage(rt);
    }
    match load_of(words[1].as_str(), words[2].as_str()) {
        Some(load) => {
            let timed = is_timed(words);
            run(rt, words[0].as_str(), load, timed)?;
            Ok(ExitCode::from(0))
        }
        None => tell_usage(rt),
    }
}

fn main(rt: HostRuntime) -> io::Result<ExitCode> {
    let words: Vec<String> = env::args(&rt)?.skip(1).collect(rt.alloc())?;
    obey(&rt, &words)
}
