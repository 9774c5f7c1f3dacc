//! Counted work on the core. The words are a kind of work, its rounds, the rows that are held before it, and its subscribers
//! (or topics). With `kept` as a further word what is stored is kept in memory; with `timed` the nanoseconds a round are
//! printed too. Or the words are `evaluate`, the rounds, a selector, and the properties of a message, each as `NAME=VALUE`: the
//! selector is evaluated over the message in each round.
#![tactic(auto)]

mod evaluation;
mod provider;
mod work;

use evaluation::Evaluation;
use jm_base::Refusal;
use jm_keep::{Keep, MemKeep, NoKeep};
use provider::Provider;
use std::alloc::Global;
use std::env::Env;
use std::process::ExitCode;
use std::rt::Clock;
use std::time::Instant;
use std::{env, io};
use work::{Load, fill, kind_named, mode, work};

/// The load that the words ask for.
fn load_of(words: &[String]) -> Option<Load> {
    if words.len() < 4 {
        return None;
    }
    Some(Load {
        kind: kind_named(words[0].as_str())?,
        rounds: words[1].as_str().parse().ok()?,
        held: words[2].as_str().parse().ok()?,
        subscribers: words[3].as_str().parse().ok()?,
    })
}

/// Whether the word stands behind the load.
fn has_word(words: &[String], word: &str) -> bool {
    words.iter().skip(4).any(|it| it.as_str() == word)
}

/// Prints what was received, and with `timed` how long a round took.
fn run_on<K: Keep + Drop>(
    rt: &(impl Clock + Print),
    provider: &mut Provider<K>,
    load: Load,
    is_timed: bool,
) -> io::Result<()> {
    if fill(provider, load).is_err() {
        return println!(rt; "refused");
    }
    let start = Instant::now(rt)?;
    if work(provider, load).is_err() {
        return println!(rt; "refused");
    }
    let sum = provider.sum();
    println!(rt; "sum {sum}")?;
    if is_timed {
        let nanoseconds = start.elapsed(rt)?.as_nanos() / u128::from(load.rounds.max(1));
        println!(rt; "{nanoseconds} ns")?;
    }
    Ok(())
}

/// The same on a new provider over that keeper.
fn run<K: Keep + Drop>(
    rt: &(impl Clock + Print),
    alloc: Global,
    keeper: K,
    load: Load,
    is_timed: bool,
) -> io::Result<()> {
    match Provider::new(alloc, mode(load.kind), keeper) {
        Ok(mut provider) => run_on(rt, &mut provider, load, is_timed),
        Err(_) => println!(rt; "refused"),
    }
}

/// The evaluation that the words ask for.
fn evaluation_of(alloc: Global, words: &[String]) -> Option<Result<Evaluation, Refusal>> {
    match words {
        [kind, rounds, selector, properties @ ..] if kind.as_str() == "evaluate" => {
            let rounds = rounds.as_str().parse().ok()?;
            Some(Evaluation::new(alloc, rounds, selector.as_str(), properties))
        }
        _ => None,
    }
}

/// Prints how often the message was selected, and with `timed` among its words how long a round took.
fn evaluate(
    rt: &(impl Clock + Print),
    evaluation: Result<Evaluation, Refusal>,
    is_timed: bool,
) -> io::Result<()> {
    let Ok(evaluation) = evaluation else {
        return println!(rt; "refused");
    };
    let start = Instant::now(rt)?;
    let selected = evaluation.work();
    println!(rt; "selected {selected}")?;
    if is_timed {
        let nanoseconds = start.elapsed(rt)?.as_nanos() / u128::from(evaluation.rounds().max(1));
        println!(rt; "{nanoseconds} ns")?;
    }
    Ok(())
}

fn main(rt: HostRuntime) -> io::Result<ExitCode> {
    let alloc = rt.alloc();
    let words: Vec<String> = env::args(&rt)?.skip(1).collect(alloc)?;
    if let Some(evaluation) = evaluation_of(alloc, &words) {
        evaluate(&rt, evaluation, has_word(&words, "timed"))?;
        return Ok(ExitCode::from(0));
    }
    match load_of(&words) {
        None => {
            println!(&rt; "bench: KIND ROUNDS HELD SUBSCRIBERS [kept] [timed]")?;
            Ok(ExitCode::from(2))
        }
        Some(load) => {
            let is_timed = has_word(&words, "timed");
            if has_word(&words, "kept") {
                run(&rt, alloc, MemKeep::new(alloc), load, is_timed)?;
            } else {
                run(&rt, alloc, NoKeep, load, is_timed)?;
            }
            Ok(ExitCode::from(0))
        }
    }
}
