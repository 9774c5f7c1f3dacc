//! Scenarios over a store.

ghost use Rattle.std.specs.Prelude.{◌≡◌, ◌≤◌, ◌+◌, ◌&&◌, false, IsTrue, IfOk, IfErr, IfSome, string_bytes};
ghost use Rattle.sqlite.specs.Held.{state};
ghost use Rattle.jm_plans.specs.Provider.{state_of};
ghost use Rattle.jm_keep.specs.Persisted.{IsPersisted};
ghost use Rattle.jm_opening.specs.Opening.{IsInNoTransaction};
ghost use Rattle.jm_tables.specs.Rows.{stored_in};
ghost use Rattle.jm_play.specs.Ending.{Ends, ToldBy};
ghost use Rattle.jm_play.specs.Source.{reads, reads_max};
ghost use Rattle.jm_words.specs.Words.{IsLimit};
ghost use Rattle.jm_runner.specs.Stored as spec;
ghost use Rattle.jm_runner.specs.Stored.{IsCleanLeft, IsFaultOfStore, PlaysStored, RefusesStored, RepliesStored, RunsStored};

use jm_play::{
    DatabaseFault, Ending, Fault, Printout, Sink, Source, ended, held_limit, printout_over,
    scenario_of,
};
use jm_scenario::{Item, Scenario};
use jm_store::{Left, OpenFault, Reopened, Unopened};
use sqlite::{Alter, Connection};
use std::alloc::Global;
use std::io::{Read, Write};

/// How a run over a store ends, and what is left of the store.
#[derive(Drop)]
pub struct Played<S: Alter + Drop> {
    /// How it ends.
    pub ending: Ending,
    /// The connection, in no transaction; or the store alone, where it could not be settled.
    pub left: Left<S>,
}

/// What is told of a run over a store, and what is left of the store.
#[derive(Drop)]
pub(crate) struct Outcome<S: Alter + Drop> {
    pub(crate) told: Result<Printout, Fault>,
    pub(crate) left: Left<S>,
}

/// The program's fault for a store that is not opened.
pub(crate) fn fault_of(fault: &OpenFault) -> Fault
    ensures { result ≡ spec.fault_of fault.now }
{
    match fault {
        OpenFault::Damaged(_, _) => Fault::Database(DatabaseFault::Damaged),
        OpenFault::WrongVersion(version) => Fault::Database(DatabaseFault::Version(*version)),
        OpenFault::Exhausted => Fault::Database(DatabaseFault::Exhausted),
        OpenFault::Memory => Fault::Memory,
        OpenFault::Store => Fault::Database(DatabaseFault::Failed),
    }
}

/// The lines of the replies to the items, whose calls are made in turn over the store that was opened.
fn told_over<S: Alter + Drop>(alloc: Global, reopened: Reopened<S>, items: Vec<Item>) -> Outcome<S>
    requires { IsTrue ((state S.Store reopened.store.0).is_clean && (state S.Store reopened.store.0).is_open) →
        IsPersisted (state_of reopened.core) (stored_in (state S.Store reopened.store.0).now.trees) }
    ensures told { IfOk result.told (λ printout. RunsStored S.Store (state_of reopened.core) result.left items.items (string_bytes printout.text) printout.status) }
    ensures clean { IsCleanLeft S.Store result.left → IsTrue ((state S.Store reopened.store.0).is_clean && (state S.Store reopened.store.0).is_open) }
    ensures memory { IfErr result.told (λ fault. fault ≡ Fault.Memory) }
    ensures left { IsInNoTransaction result.left }
{
    let Reopened {
        mut store,
        mut core,
    } = reopened;
    let told = printout_over(alloc, &mut core, &mut store, items);
    let left = Left::Settled(store.into_connection());
    match told {
        Ok(printout) => Outcome {
            told: Ok(printout),
            left,
        },
        Err(_) => Outcome {
            told: Err(Fault::Memory),
            left,
        },
    }
}

/// The lines of the replies to the items of the scenario, over the store of the connection, with the limit that is given, if
/// one is.
fn told_of<S: Alter + Drop>(
    alloc: Global,
    held: Option<u32>,
    conn: Connection<S>,
    scenario: Scenario,
) -> Outcome<S>
    requires given { IfSome held IsLimit }
    requires own { IfSome scenario.held IsLimit }
    ensures told { IfOk result.told (λ printout. RepliesStored S.Store (state S.Store conn).committed.trees result.left scenario.items (string_bytes printout.text) printout.status) }
    ensures fault { IfErr result.told (IsFaultOfStore S.Store (state S.Store conn).committed.trees result.left) }
    ensures left { IsInNoTransaction result.left }
{
    let limit = held_limit(held, scenario.held);
    match jm_store::open(alloc, conn, limit) {
        Ok(reopened) => told_over(alloc, reopened, scenario.items.into_inner()),
        Err(Unopened { fault, left }) => Outcome {
            told: Err(fault_of(&fault)),
            left,
        },
    }
}

/// The lines of the replies to the items of the scenario that the source gives, over the store of the connection.
fn told<S: Alter + Drop, R: Read>(
    alloc: Global,
    held: Option<u32>,
    conn: Connection<S>,
    source: &mut Source<R>,
) -> Outcome<S>
    requires held { IfSome held IsLimit }
    requires autocommit { conn.in_transaction ≡ false }
    ensures told { ToldBy (PlaysStored S.Store R.remaining (state S.Store conn).committed.trees result.left source.old source.new)
        (RefusesStored S.Store R.remaining conn result.left source.old source.new) result.told }
    ensures left { IsInNoTransaction result.left }
    ensures reads { reads source.new ≤ reads source.old + reads_max }
{
    match scenario_of(alloc, source) {
        Ok(scenario) => told_of(alloc, held, conn, scenario),
        Err(fault) => Outcome {
            told: Err(fault),
            left: Left::Settled(conn),
        },
    }
}

/// Reads a scenario, in at most 16,777,217 reads, then opens the store of the connection and loads what it holds, makes the
/// calls in turn over it, and prints the line of each reply; forks and joins have no effect, and are answered `Done`. The
/// connection is handed back. A subscription that is not durable holds at most `held` rows, 1 to 1,000,000; where none is
/// given, as many as the scenario says, and where that says none, 100,000. Each reply is the machine's, or is `Memory` or
/// `Store`, and then the call was not made; what an accepted call changes is stored before its reply is printed, and while the
/// store is clean it holds what is stored of the state that the calls lead to. Where the source gives no scenario, the
/// connection is handed back as it was. Where the store is not opened, the fault says why, with status 3. A want of memory for
/// the lines is told after the calls were made.
pub fn play_stored<S: Alter + Drop, R: Read, W: Write>(
    alloc: Global,
    held: Option<u32>,
    conn: Connection<S>,
    source: &mut Source<R>,
    sink: &mut Sink<W>,
) -> Played<S>
    requires held { IfSome held IsLimit }
    requires autocommit { conn.in_transaction ≡ false }
    ensures ends { Ends (PlaysStored S.Store R.remaining (state S.Store conn).committed.trees result.left source.old source.new)
        (RefusesStored S.Store R.remaining conn result.left source.old source.new) W.contents sink.old sink.new result.ending }
    ensures left { IsInNoTransaction result.left }
    ensures reads { reads source.new ≤ reads source.old + reads_max }
{
    let Outcome { told, left } = told(alloc, held, conn, source);
    Played {
        ending: ended(sink, told),
        left,
    }
}
