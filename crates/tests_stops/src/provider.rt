//! A provider over the store of a connection.

use crate::database::Tables;
use crate::turns::{Run, Turn, calls_of, made_before};
use jm_core::Core;
use jm_keep::Keep;
use jm_kept::run;
use jm_store::{Left, Reopened, close, open};
use sqlite::{Alter, Connection};
use std::alloc::Global;

/// How many rows a subscription that is not durable may hold.
const HELD_LIMIT: u32 = 100_000;

/// How many turns were made before the keeper failed; none where one is told something else.
fn made<K: Keep>(alloc: Global, core: &mut Core, keeper: &mut K, turns: &[Turn]) -> Option<usize> {
    match calls_of(alloc, turns) {
        Ok(calls) => match run(alloc, core, keeper, calls) {
            Ok(replies) => made_before(alloc, &replies, turns),
            Err(_) => None,
        },
        Err(_) => None,
    }
}

/// How many steps were made before the store failed, and what is left of it.
fn made_over<S: Alter + Drop>(
    alloc: Global,
    reopened: Reopened<S>,
    turns: &[Turn],
) -> (Option<usize>, S) {
    let Reopened {
        mut store,
        mut core,
    } = reopened;
    let made = made(alloc, &mut core, &mut store, turns);
    let steps = match made {
        Some(made) => Some(made.saturating_add(1)),
        None => None,
    };
    (steps, store.into_connection().into_store())
}

fn store_left<S: Alter + Drop>(left: Left<S>) -> S {
    match left {
        Left::Settled(conn) => conn.into_store(),
        Left::Shut(store) => store,
    }
}

/// Opens the store and makes the turns: how many steps were made before the store failed, the opening among them, and what is left
/// of it; none where a call is told something else.
pub(crate) fn steps_over<S: Alter + Drop>(
    alloc: Global,
    conn: Connection<S>,
    turns: &[Turn],
) -> (Option<usize>, S) {
    match open(alloc, conn, HELD_LIMIT) {
        Ok(reopened) => made_over(alloc, reopened, turns),
        Err(unopened) => (Some(0), store_left(unopened.left)),
    }
}

/// Whether the core is of that opening and holds that.
fn is_core_of(core: &Core, opening: u32, tables: &Tables) -> bool {
    core.opening().get() == opening
        && core.stations_len() == tables.subscriptions_len()
        && core.kept().checked_add(core.kept_by_queues()) == Some(tables.messages_len())
        && core.connections().is_empty()
}

/// Whether what was opened is of that opening, and holds that.
fn is_of<S: Alter + Drop>(reopened: Reopened<S>, opening: u32, tables: &Tables) -> bool {
    let Reopened { store, core } = reopened;
    let is_core = is_core_of(&core, opening, tables);
    let mut conn = close(store);
    is_core && tables.hold_state(&mut conn)
}

/// Whether the store opens and loads with what stands after so many steps of the run.
fn opens<S: Alter + Drop>(alloc: Global, conn: Connection<S>, run: &Run, steps: usize) -> bool {
    let opening = if steps == 0 {
        run.opening
    } else {
        run.opening.saturating_add(1)
    };
    let Some(tables) = run.after(steps.max(1)) else {
        return false;
    };
    match open(alloc, conn, HELD_LIMIT) {
        Ok(reopened) => is_of(reopened, opening, tables),
        Err(_) => false,
    }
}

/// Whether what stands after so many steps of the run stands in the database.
fn stands<S: Alter>(conn: &mut Connection<S>, run: &Run, steps: usize) -> bool {
    match run.after(steps) {
        Some(tables) => tables.hold(conn),
        None => false,
    }
}

/// Whether in the database stands what stands after so many steps of the run, or after one more, and the store opens and loads with
/// it.
pub(crate) fn fits<S: Alter + Drop>(
    alloc: Global,
    mut conn: Connection<S>,
    run: &Run,
    steps: usize,
) -> bool {
    let next = steps.saturating_add(1);
    if stands(&mut conn, run, steps) {
        opens(alloc, conn, run, steps)
    } else if stands(&mut conn, run, next) {
        opens(alloc, conn, run, next)
    } else {
        false
    }
}
