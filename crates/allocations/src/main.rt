//! Makes calls that take memory, one after the other, or the one whose number is the word: prints its number, its name and what it
//! was answered, and after a want of memory also what the readers showed before and after it, and what it was answered when it was
//! made again. Where memory is wanted before a call it says `memory`, with status 3.
#![tactic(auto)]

use std::alloc::Global;
use std::marker::Brand;
use std::process::ExitCode;
use std::sync::Wait;
use std::sync::ledger::Blank;
use std::thread::Threads;
use std::time::Clock;
use std::{env, io};
use tried::Made;

/// How many numbers each module has.
const NUMBERS: usize = 16;
/// How many modules each family has.
const MODULES: usize = 8;
/// Past the last number.
const END: usize = 8 * MODULES * NUMBERS;

/// Makes the call of that number of a module of values.
fn made_of_values(alloc: Global, module: usize, number: usize) -> Made {
    match module {
        0 => tried_values::lists::made(alloc, number),
        1 => tried_values::shared::made(alloc, number),
        2 => tried_values::keys::made(alloc, number),
        3 => tried_values::names::made(alloc, number),
        4 => tried_values::destinations::made(alloc, number),
        5 => tried_values::properties::made(alloc, number),
        6 => tried_values::drafts::made(alloc, number),
        _ => tried_values::messages::made(alloc, number),
    }
}

/// Makes the call of that number of a module of texts that are read or written.
fn made_of_texts(alloc: Global, module: usize, number: usize) -> Made {
    match module {
        0 => tried_texts::parts::made(alloc, number),
        1 => tried_texts::syntax::made(alloc, number),
        2 => tried_texts::patterns::made(alloc, number),
        3 => tried_texts::memberships::made(alloc, number),
        4 => tried_texts::selectors::made(alloc, number),
        5 => tried_texts::records::made(alloc, number),
        _ => Made::NoCall,
    }
}

/// Makes the call of that number of a module of what the machine is asked and answers.
fn made_of_machine(alloc: Global, module: usize, number: usize) -> Made {
    match module {
        0 => tried_machine::answers::made(alloc, number),
        1 => tried_machine::calls::made(alloc, number),
        2 => tried_machine::definitions::made(alloc, number),
        3 => tried_machine::stations::made(alloc, number),
        4 => tried_machine::attached::made(alloc, number),
        5 => tried_machine::changes::made(alloc, number),
        _ => Made::NoCall,
    }
}

/// Makes the call of that number of a module of what the state is made of.
fn made_of_state(alloc: Global, module: usize, number: usize) -> Made {
    match module {
        0 => tried_state::sends::made(alloc, number),
        1 => tried_state::sessions::made(alloc, number),
        2 => tried_state::subscriptions::made(alloc, number),
        3 => tried_state::tables::made(alloc, number),
        4 => tried_state::stations::made(alloc, number),
        5 => tried_state::rows::made(alloc, number),
        _ => Made::NoCall,
    }
}

/// Makes the call of that number of a module of the core.
fn made_of_core(alloc: Global, module: usize, number: usize) -> Made {
    match module {
        0 => tried_core::cores::made(alloc, number),
        1 => tried_core::causes::made(alloc, number),
        2 => tried_core::events::made(alloc, number),
        3 => tried_core::steps::made(alloc, number),
        _ => Made::NoCall,
    }
}

/// Makes the call of that number of a module of the lock.
fn made_of_lock<R: Threads + Wait + Sync>(
    rt: &R,
    alloc: Global,
    module: usize,
    number: usize,
) -> Made {
    match module {
        0 => tried_broker::openings::made(alloc, number),
        1 => tried_broker::locks::made::<Brand, _>(rt, alloc, Blank::new(3), number),
        2 => tried_broker::segments::made::<Brand, _>(rt, alloc, Blank::new(3), number),
        3 => tried_broker::left_out::made(rt, alloc, number),
        4 => tried_listen::listeners::made(rt, alloc, number),
        _ => Made::NoCall,
    }
}

/// Makes the call of that number of a module of what a service embeds.
fn made_of_client<R: Wait + Clock>(rt: &R, alloc: Global, module: usize, number: usize) -> Made {
    match module {
        0 => tried_client::connections::made(rt, alloc, number),
        1 => tried_client::sessions::made(rt, alloc, number),
        2 => tried_client::receiving::made(rt, alloc, number),
        3 => tried_audited::openings::made(rt, alloc, number),
        4 => tried_audited::backends::made(alloc, number),
        _ => Made::NoCall,
    }
}

/// Makes the call of that number of a module of what is played and stored.
fn made_of_runs<R: Wait + Clock>(rt: &R, alloc: Global, module: usize, number: usize) -> Made {
    match module {
        0 => tried_runs::plays::made(alloc, number),
        1 => tried_runs::stores::made(rt, alloc, number),
        _ => Made::NoCall,
    }
}

/// Makes the call of that number.
fn made<R: Threads + Wait + Clock + Sync>(rt: &R, alloc: Global, at: usize) -> Made {
    let (family, module, number) = (
        at / (MODULES * NUMBERS),
        at / NUMBERS % MODULES,
        at % NUMBERS,
    );
    match family {
        0 => made_of_values(alloc, module, number),
        1 => made_of_texts(alloc, module, number),
        2 => made_of_machine(alloc, module, number),
        3 => made_of_state(alloc, module, number),
        4 => made_of_core(alloc, module, number),
        5 => made_of_lock(rt, alloc, module, number),
        6 => made_of_client(rt, alloc, module, number),
        7 => made_of_runs(rt, alloc, module, number),
        _ => Made::NoCall,
    }
}

/// Prints what the call was told; whether memory sufficed to make it.
fn show(host: &HostRuntime, at: usize, made: Made) -> io::Result<bool> {
    match made {
        Made::Told(told) => {
            println!(host; "{at} {told}")?;
            Ok(true)
        }
        Made::NoMemory => Ok(false),
        Made::NoCall => Ok(true),
    }
}

/// Makes all calls; whether memory sufficed to make them.
fn show_all<R: Threads + Wait + Clock + Sync>(host: &HostRuntime, rt: &R) -> io::Result<bool> {
    for at in 0..END {
        if !show(host, at, made(rt, host.alloc(), at))? {
            return Ok(false);
        }
    }
    Ok(true)
}

/// Makes the call of the number that is the first word, or all where there is no number.
fn run<R: Threads + Wait + Clock + Sync>(host: &HostRuntime, rt: &R) -> io::Result<bool> {
    let word = env::args(host)?.nth(1);
    match word.and_then(|word| word.as_str().parse::<usize>().ok()) {
        Some(at) => show(host, at, made(rt, host.alloc(), at)),
        None => show_all(host, rt),
    }
}

fn main(rt: HostRuntime) -> ExitCode {
    match run(&rt, &rt) {
        Ok(true) => ExitCode::SUCCESS,
        _ => {
            let _ = eprintln!(&rt; "memory");
            ExitCode::from(3)
        }
    }
}
