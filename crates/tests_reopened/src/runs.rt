//! Random runs, each made again of what was kept at its end.

use crate::asking::{CLOSES, asking};
use crate::chance::Chance;
use crate::ops::{BEGINNING, CALLS, op};
use crate::rows::{Rows, rows_of};
use jm_base::Refusal;
use jm_core::{Answer, Core, Reply};
use jm_keep::MemKeep;
use jm_loading::reopened;
use std::alloc::{AllocError, Global};
use tests_calls::{Op, calls};

/// How many runs are made: 10,000 random calls in all.
const RUNS: u64 = 100;

/// How many rows a subscription may hold that is not durable: some runs reach it.
const HELD_LIMIT: u32 = 5;

/// The calls of the run of that start.
fn run_of(alloc: Global, start: u64) -> Result<Vec<Op>, AllocError> {
    let mut chance = Chance::new(start);
    let mut ops = Vec::from_slice(alloc, &BEGINNING)?;
    for _ in 0..CALLS {
        ops.push(op(&mut chance))?;
    }
    Ok(ops)
}

/// Makes the calls on the core over the keeper.
fn run_over(
    alloc: Global,
    core: &mut Core,
    keeper: &mut MemKeep,
    ops: &[Op],
) -> Result<(), Refusal> {
    let calls = calls(alloc, ops)?;
    let _ = jm_kept::run(alloc, core, keeper, calls)?;
    Ok(())
}

/// What the core tells of these calls.
fn told(alloc: Global, core: &mut Core, ops: &[Op]) -> Result<Vec<Reply>, Refusal> {
    let calls = calls(alloc, ops)?;
    Ok(core.run(calls)?)
}

/// A core in the next opening of what the rows say.
fn made_again(alloc: Global, rows: Rows) -> Result<Core, Refusal> {
    let Rows {
        stations,
        messages,
        held,
        delays,
    } = rows;
    match reopened(alloc, 2, HELD_LIMIT, stations, messages, &held, &delays) {
        Ok(core) => Ok(core),
        Err(_) => Err(Refusal::Store),
    }
}

/// How many messages came, where both were told the same.
fn alike(first: &[Reply], again: &[Reply]) -> Option<usize> {
    if first != again {
        return None;
    }
    let delivered = |reply: &&Reply| matches!(reply, Ok(Answer::Delivered(_)));
    Some(first.iter().filter(delivered).count())
}

/// How many messages come of the core, its connections closed, where as many of a core that is made of what the keeper holds,
/// and the same ones.
fn compared(alloc: Global, core: &mut Core, keeper: &MemKeep) -> Result<Option<usize>, Refusal> {
    let _ = told(alloc, core, &CLOSES)?;
    let rows = rows_of(alloc, keeper)?;
    let ops = asking(alloc, &rows.stations)?;
    let first = told(alloc, core, &ops)?;
    let mut again = made_again(alloc, rows)?;
    let again = told(alloc, &mut again, &ops)?;
    Ok(alike(&first, &again))
}

/// The same of the run of that start. None where they differ, or memory was refused.
fn compared_run(alloc: Global, start: u64) -> Option<usize> {
    let ops = run_of(alloc, start).ok()?;
    let mut core = Core::new(alloc, 1, HELD_LIMIT).ok()?;
    let mut keeper = MemKeep::new(alloc);
    run_over(alloc, &mut core, &mut keeper, &ops).ok()?;
    compared(alloc, &mut core, &keeper).ok()?
}

#[test]
fn what_is_kept_answers_as_what_ran_on(rt: HostRuntime) {
    let mut all = 0;
    for start in 1..RUNS + 1 {
        let compared = compared_run(rt.alloc(), start);
        assert!(rt; compared.is_some(), "{start}");
        all = usize::saturating_add(all, compared.unwrap_or(0));
    }
    // (or else the runs leave nothing to compare)
    assert!(rt; all > 500, "{all}");
}
