//! Scenarios whose sessions call on threads of their own, on a new provider or over a store.

ghost use Rattle.std.specs.Prelude.{◌≡◌, ◌≤◌, ◌+◌, ◌&&◌, false, IsOkAnd, IsTrue, IfOk, IfErr, IfSome, string_bytes};
ghost use Rattle.sqlite.specs.Held.{state};
ghost use Rattle.jm_plans.specs.Provider.{state_of};
ghost use Rattle.jm_keep.specs.Persisted.{IsPersisted};
ghost use Rattle.jm_machine.specs.Machine.{State};
ghost use Rattle.jm_opening.specs.Opening.{IsInNoTransaction};
ghost use Rattle.jm_scenario.specs.Items as marks;
ghost use Rattle.jm_scenario.specs.Lines.{lines};
ghost use Rattle.jm_tables.specs.Rows.{stored_in};
ghost use Rattle.jm_play.specs.Ending.{Ends, ToldBy};
ghost use Rattle.jm_play.specs.Play.{RefusesScenario};
ghost use Rattle.jm_play.specs.Play as play;
ghost use Rattle.jm_play.specs.Source.{reads, reads_max};
ghost use Rattle.jm_words.specs.Words.{IsLimit};
ghost use Rattle.jm_runner.specs.Stored.{IsCleanLeft, IsFaultOfStore, RefusesStored};
ghost use Rattle.jm_runner.specs.Threaded as spec;
ghost use Rattle.jm_runner.specs.Threaded.{PlaysOnThreads, PlaysStoredOnThreads, RepliesStoredOnThreads, RepliesThreaded, RunsStoredOnThreads};

use crate::remembering::{Past, Remembering};
use crate::stored::{Outcome, Played, fault_of};
use jm_core::Core;
use jm_keep::{Keep, NoKeep};
use jm_play::{
    Ending, Fault, Printout, Sink, Source, ended, held_limit, new_core, printout_of, scenario_of,
};
use jm_scenario::{Item, ItemKind, Scenario, item_kinds};
use jm_store::{Left, Reopened, Store, Unopened};
use jm_threaded::{FinishFault, Threaded, ThreadedFault, Told, play_threaded};
use sqlite::{Alter, Connection};
use std::alloc::{AllocError, Global};
use std::io::{Read, Write};
use std::marker::Brand;
use std::sync::Wait;
use std::sync::ledger::{Blank, Ledger};
use std::thread::Threads;

/// How many parts the ledger has that counts the calls of a run on threads: one for each session that calls, one for the
/// connections and one for the lock. A scenario has at most 16,777,216 bytes, and each session in it takes several, so there are
/// parts for all of them.
pub const PARTS: u64 = 16_777_218;

/// The exit status of a run that would have this one without its audit, and whose audit ended so (ours): 3 where memory was
/// wanted for it.
fn audited_status(verdict: &Result<(), FinishFault>, status: u8) -> u8
    ensures { result ≡ spec.audited_status verdict.now status }
{
    match verdict {
        Err(FinishFault::Memory) => 3,
        _ => status,
    }
}

/// The lines of what the calls among items of those kinds were told, and the exit status where they are printed.
fn printout(alloc: Global, kinds: &[ItemKind], told: Told) -> Result<Printout, AllocError>
    ensures text { IfOk result (λ printout. string_bytes printout.text ≡ lines (marks.replies_in_place kinds.now told.replies.items)) }
    ensures status { IfOk result (λ printout. printout.status ≡ spec.audited_status told.verdict (play.status_of told.replies.items)) }
{
    let Told { replies, verdict } = told;
    let Printout { text, status } = printout_of(alloc, kinds, replies)?;
    Ok(Printout {
        text,
        status: audited_status(&verdict, status),
    })
}

/// The same of a run that may have told nothing: memory was wanted then, since all sessions of a scenario have seats and parts.
fn told_of(
    alloc: Global,
    kinds: &[ItemKind],
    outcome: Result<Told, ThreadedFault>,
) -> Result<Printout, Fault>
    ensures told { IfOk result (λ printout. IsOkAnd outcome (λ told.
        (string_bytes printout.text ≡ lines (marks.replies_in_place kinds.now told.replies.items))
        × (printout.status ≡ spec.audited_status told.verdict (play.status_of told.replies.items)))) }
    ensures memory { IfErr result (λ fault. fault ≡ Fault.Memory) }
{
    match outcome {
        Ok(told) => Ok(printout(alloc, kinds, told)?),
        Err(_) => Err(Fault::Memory),
    }
}

/// What is told of a run on threads, and core and keeper as they are then.
#[derive(Drop)]
struct Ran<K: Drop> {
    told: Result<Printout, Fault>,
    core: Core,
    keeper: K,
}

/// The lines of the replies to the items, whose calls are made on the core over the keeper as `play_threaded` makes them.
fn run_on_threads<K: Keep + Drop + Send, L: Ledger + Send + Sync, T: Threads + Wait + Sync>(
    rt: &T,
    alloc: Global,
    blank: Blank,
    core: Core,
    keeper: K,
    items: Vec<Item>,
) -> Ran<K>
    requires name { blank.name ≡ L.name }
    requires parts { (blank.parts ≡ L.parts) × (blank.parts ≡ PARTS) }
    requires kept { IsTrue (K.is_clean keeper) → IsPersisted (state_of core) (K.stored keeper) }
    ensures told { IfOk result.told (λ printout. RepliesThreaded (state_of core).opening (state_of result.core) items.items
        (string_bytes printout.text) printout.status) }
    ensures memory { IfErr result.told (λ fault. fault ≡ Fault.Memory) }
    ensures kept { IsTrue (K.is_clean result.keeper) → IsPersisted (state_of result.core) (K.stored result.keeper) }
{
    let Ok(kinds) = item_kinds(alloc, &items) else {
        return Ran {
            told: Err(Fault::Memory),
            core,
            keeper,
        };
    };
    let Threaded {
        core,
        keeper,
        outcome,
    } = play_threaded::<K, L, T>(rt, alloc, blank, PARTS, core, keeper, items);
    Ran {
        told: told_of(alloc, &kinds, outcome),
        core,
        keeper,
    }
}

/// The lines of the replies to the items, whose calls are made on a new provider, which keeps nothing.
fn lines_of<L: Ledger + Send + Sync, T: Threads + Wait + Sync>(
    rt: &T,
    alloc: Global,
    blank: Blank,
    limit: u32,
    items: Vec<Item>,
) -> Result<Printout, Fault>
    requires name { blank.name ≡ L.name }
    requires parts { (blank.parts ≡ L.parts) × (blank.parts ≡ PARTS) }
    requires limit { IsLimit limit }
    ensures told { IfOk result (λ printout. (after : State) × RepliesThreaded 1 after items.items (string_bytes printout.text) printout.status) }
    ensures memory { IfErr result (λ fault. fault ≡ Fault.Memory) }
{
    let core = new_core(alloc, limit);
    run_on_threads::<NoKeep, L, T>(rt, alloc, blank, core, NoKeep, items).told
}

/// The lines of the replies to the items of the scenario that the source gives, on a new provider.
fn told<L: Ledger + Send + Sync, R: Read, T: Threads + Wait + Sync>(
    rt: &T,
    alloc: Global,
    blank: Blank,
    held: Option<u32>,
    source: &mut Source<R>,
) -> Result<Printout, Fault>
    requires name { blank.name ≡ L.name }
    requires parts { (blank.parts ≡ L.parts) × (blank.parts ≡ PARTS) }
    requires held { IfSome held IsLimit }
    ensures told { ToldBy (PlaysOnThreads R.remaining source.old source.new) (RefusesScenario R.remaining source.old source.new) result }
    ensures reads { reads source.new ≤ reads source.old + reads_max }
{
    let scenario = scenario_of(alloc, source)?;
    let limit = held_limit(held, scenario.held);
    lines_of::<L, T>(rt, alloc, blank, limit, scenario.items.into_inner())
}

/// Reads a scenario as `play` does, makes its calls on a new provider, of which those between a fork and its join are made on a
/// thread of each session, and prints the line of each reply in the order of the calls; forks and joins are answered `Done`.
/// The limit of held rows is that of `play`. All calls are audited at the end: the status is 3 where memory was wanted for it.
/// Nothing is promised of waiting, or of the order between threads.
pub fn play_on_threads<L: Ledger + Send + Sync, R: Read, W: Write, T: Threads + Wait + Sync>(
    rt: &T,
    alloc: Global,
    blank: Blank,
    held: Option<u32>,
    source: &mut Source<R>,
    sink: &mut Sink<W>,
) -> Ending
    requires name { blank.name ≡ L.name }
    requires parts { (blank.parts ≡ L.parts) × (blank.parts ≡ PARTS) }
    requires held { IfSome held IsLimit }
    ensures ends { Ends (PlaysOnThreads R.remaining source.old source.new) (RefusesScenario R.remaining source.old source.new)
        W.contents sink.old sink.new result }
    ensures reads { reads source.new ≤ reads source.old + reads_max }
{
    ended(sink, told::<L, R, T>(rt, alloc, blank, held, source))
}

/// The lines of the replies to the items, whose calls are made over the store that was opened, and was clean only if that is so.
fn run_remembering<
    S: Alter + Drop + Send,
    P: Past + Send,
    L: Ledger + Send + Sync,
    T: Threads + Wait + Sync,
>(rt: &T, alloc: Global, blank: Blank, reopened: Reopened<S>, items: Vec<Item>) -> Outcome<S>
    requires name { blank.name ≡ L.name }
    requires parts { (blank.parts ≡ L.parts) × (blank.parts ≡ PARTS) }
    requires clean { IsTrue ((state S.Store reopened.store.0).is_clean && (state S.Store reopened.store.0).is_open) → IsTrue P.was_clean }
    requires stored { IsTrue ((state S.Store reopened.store.0).is_clean && (state S.Store reopened.store.0).is_open) →
        IsPersisted (state_of reopened.core) (stored_in (state S.Store reopened.store.0).now.trees) }
    ensures told { IfOk result.told (λ printout. RunsStoredOnThreads S.Store (state_of reopened.core) result.left items.items (string_bytes printout.text) printout.status) }
    ensures clean { IsCleanLeft S.Store result.left → IsTrue P.was_clean }
    ensures memory { IfErr result.told (λ fault. fault ≡ Fault.Memory) }
    ensures left { IsInNoTransaction result.left }
{
    let Reopened { store, core } = reopened;
    let keeper: Remembering<Store<S>, P> = Remembering::new(store);
    let Ran {
        told,
        core: _core,
        keeper,
    } = run_on_threads::<Remembering<Store<S>, P>, L, T>(rt, alloc, blank, core, keeper, items);
    Outcome {
        told,
        left: Left::Settled(keeper.into_keeper().into_connection()),
    }
}

/// The same, where it is known whether the store was clean as it was opened.
fn run_stored<S: Alter + Drop + Send, L: Ledger + Send + Sync, T: Threads + Wait + Sync>(
    rt: &T,
    alloc: Global,
    blank: Blank,
    reopened: Reopened<S>,
    items: Vec<Item>,
) -> Outcome<S>
    requires name { blank.name ≡ L.name }
    requires parts { (blank.parts ≡ L.parts) × (blank.parts ≡ PARTS) }
    requires stored { IsTrue ((state S.Store reopened.store.0).is_clean && (state S.Store reopened.store.0).is_open) →
        IsPersisted (state_of reopened.core) (stored_in (state S.Store reopened.store.0).now.trees) }
    ensures told { IfOk result.told (λ printout. RunsStoredOnThreads S.Store (state_of reopened.core) result.left items.items (string_bytes printout.text) printout.status) }
    ensures clean { IsCleanLeft S.Store result.left → IsTrue ((state S.Store reopened.store.0).is_clean && (state S.Store reopened.store.0).is_open) }
    ensures memory { IfErr result.told (λ fault. fault ≡ Fault.Memory) }
    ensures left { IsInNoTransaction result.left }
{
    run_remembering::<S, Brand, L, T>(rt, alloc, blank, reopened, items)
}

/// The lines of the replies to the items of the scenario, over the store of the connection, with the limit that is given, if
/// one is.
fn told_of_store<S: Alter + Drop + Send, L: Ledger + Send + Sync, T: Threads + Wait + Sync>(
    rt: &T,
    alloc: Global,
    blank: Blank,
    held: Option<u32>,
    conn: Connection<S>,
    scenario: Scenario,
) -> Outcome<S>
    requires name { blank.name ≡ L.name }
    requires parts { (blank.parts ≡ L.parts) × (blank.parts ≡ PARTS) }
    requires given { IfSome held IsLimit }
    requires own { IfSome scenario.held IsLimit }
    ensures told { IfOk result.told (λ printout. RepliesStoredOnThreads S.Store (state S.Store conn).committed.trees result.left scenario.items (string_bytes printout.text) printout.status) }
    ensures fault { IfErr result.told (IsFaultOfStore S.Store (state S.Store conn).committed.trees result.left) }
    ensures left { IsInNoTransaction result.left }
{
    let limit = held_limit(held, scenario.held);
    match jm_store::open(alloc, conn, limit) {
        Ok(reopened) => {
            run_stored::<S, L, T>(rt, alloc, blank, reopened, scenario.items.into_inner())
        }
        Err(Unopened { fault, left }) => Outcome {
            told: Err(fault_of(&fault)),
            left,
        },
    }
}

/// The lines of the replies to the items of the scenario that the source gives, over the store of the connection.
fn told_stored<S: Alter + Drop + Send, L: Ledger + Send + Sync, R: Read, T: Threads + Wait + Sync>(
    rt: &T,
    alloc: Global,
    blank: Blank,
    held: Option<u32>,
    conn: Connection<S>,
    source: &mut Source<R>,
) -> Outcome<S>
    requires name { blank.name ≡ L.name }
    requires parts { (blank.parts ≡ L.parts) × (blank.parts ≡ PARTS) }
    requires held { IfSome held IsLimit }
    requires autocommit { conn.in_transaction ≡ false }
    ensures told { ToldBy (PlaysStoredOnThreads S.Store R.remaining (state S.Store conn).committed.trees result.left source.old source.new)
        (RefusesStored S.Store R.remaining conn result.left source.old source.new) result.told }
    ensures left { IsInNoTransaction result.left }
    ensures reads { reads source.new ≤ reads source.old + reads_max }
{
    match scenario_of(alloc, source) {
        Ok(scenario) => told_of_store::<S, L, T>(rt, alloc, blank, held, conn, scenario),
        Err(fault) => Outcome {
            told: Err(fault),
            left: Left::Settled(conn),
        },
    }
}

/// Reads a scenario, opens the store of the connection and hands it back as `play_stored` does, and makes the calls over it as
/// `play_on_threads` makes them, in the opening of a state that was loaded from what was committed. While the store is clean it
/// holds what is stored of the state in which the trace of the calls ends. The faults are those of `play_stored`.
pub fn play_stored_on_threads<
    S: Alter + Drop + Send,
    L: Ledger + Send + Sync,
    R: Read,
    W: Write,
    T: Threads + Wait + Sync,
>(
    rt: &T,
    alloc: Global,
    blank: Blank,
    held: Option<u32>,
    conn: Connection<S>,
    source: &mut Source<R>,
    sink: &mut Sink<W>,
) -> Played<S>
    requires name { blank.name ≡ L.name }
    requires parts { (blank.parts ≡ L.parts) × (blank.parts ≡ PARTS) }
    requires held { IfSome held IsLimit }
    requires autocommit { conn.in_transaction ≡ false }
    ensures ends { Ends (PlaysStoredOnThreads S.Store R.remaining (state S.Store conn).committed.trees result.left source.old source.new)
        (RefusesStored S.Store R.remaining conn result.left source.old source.new) W.contents sink.old sink.new result.ending }
    ensures left { IsInNoTransaction result.left }
    ensures reads { reads source.new ≤ reads source.old + reads_max }
{
    let Outcome { told, left } = told_stored::<S, L, R, T>(rt, alloc, blank, held, conn, source);
    Played {
        ending: ended(sink, told),
        left,
    }
}
