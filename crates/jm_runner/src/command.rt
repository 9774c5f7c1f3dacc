//! What the words of the command line ask for, done with a scenario.

ghost use Rattle.std.specs.Prelude.{◌≡◌, ◌≤◌, ◌+◌, true, false, IfSome};
ghost use Rattle.jm_words.specs.Words.{HasLimit, IsLimit};
ghost use Rattle.jm_play.specs.Source.{reads, reads_max};
ghost use Rattle.jm_runner.specs.Perform.{EndsOver, Performs, RunEnds};
ghost use Rattle.jm_runner.specs.Program as spec;

use crate::databases::Databases;
use crate::select::pick;
use crate::stored::play_stored;
use crate::subscription::lone;
use crate::threaded::{PARTS, play_on_threads, play_stored_on_threads};
use jm_base::Str;
use jm_play::{DatabaseFault, Ending, Fault, Sink, Source, play};
use jm_words::Words;
use sqlite::{Alter, Error, ErrorCode};
use std::alloc::Global;
use std::io::{Read, Write};
use std::sync::Wait;
use std::sync::ledger::{Blank, Ledger};
use std::thread::Threads;

/// The program's fault for a database that is not opened.
fn fault_of(error: &Error) -> Fault
    ensures { result ≡ spec.fault_of_database error.now }
{
    match error {
        Error::SqliteFailure(ErrorCode::OutOfMemory) => Fault::Memory,
        _ => Fault::Database(DatabaseFault::Failed),
    }
}

/// Runs the scenario over the store in the database of that name, which is opened before the scenario is read.
fn run_over<S: Alter + Drop, D: Databases<S>, R: Read, W: Write>(
    alloc: Global,
    name: &str,
    held: Option<u32>,
    databases: &D,
    source: &mut Source<R>,
    sink: &mut Sink<W>,
) -> Ending
    requires { IfSome held IsLimit }
    ensures ends { EndsOver S.Store (D.opens databases.now name.now) R.remaining W.contents false source.old source.new sink.old sink.new result }
    ensures reads { reads source.new ≤ reads source.old + reads_max }
{
    match databases.connect(name) {
        Ok(conn) => play_stored(alloc, held, conn, source, sink).ending,
        Err(error) => Ending::of_fault(fault_of(&error)),
    }
}

/// The same, where sessions call on threads of their own.
fn run_over_on_threads<
    S: Alter + Drop + Send,
    D: Databases<S>,
    R: Read,
    W: Write,
    L: Ledger + Send + Sync,
    T: Threads + Wait + Sync,
>(
    rt: &T,
    alloc: Global,
    blank: Blank,
    name: &str,
    held: Option<u32>,
    databases: &D,
    source: &mut Source<R>,
    sink: &mut Sink<W>,
) -> Ending
    requires name { blank.name ≡ L.name }
    requires parts { (blank.parts ≡ L.parts) × (blank.parts ≡ PARTS) }
    requires held { IfSome held IsLimit }
    ensures ends { EndsOver S.Store (D.opens databases.now name.now) R.remaining W.contents true source.old source.new sink.old sink.new result }
    ensures reads { reads source.new ≤ reads source.old + reads_max }
{
    match databases.connect(name) {
        Ok(conn) => {
            play_stored_on_threads::<S, L, R, W, T>(
                rt, alloc, blank, held, conn, source, sink,
            ).ending
        }
        Err(unopened) => Ending::of_fault(fault_of(&unopened)),
    }
}

/// Runs the scenario: over a store, where one is named, and else on a new provider.
fn run<S: Alter + Drop, D: Databases<S>, R: Read, W: Write>(
    alloc: Global,
    db: &Option<Str>,
    held: Option<u32>,
    databases: &D,
    source: &mut Source<R>,
    sink: &mut Sink<W>,
) -> Ending
    requires { IfSome held IsLimit }
    ensures ends { RunEnds S.Store (D.opens databases.now) R.remaining W.contents db.now false held source.old source.new sink.old sink.new result }
    ensures reads { reads source.new ≤ reads source.old + reads_max }
{
    match db {
        Some(name) => run_over(alloc, name.as_str(), held, databases, source, sink),
        None => play(alloc, held, source, sink),
    }
}

/// The same, where sessions call on threads of their own.
fn run_on_threads<
    S: Alter + Drop + Send,
    D: Databases<S>,
    R: Read,
    W: Write,
    L: Ledger + Send + Sync,
    T: Threads + Wait + Sync,
>(
    rt: &T,
    alloc: Global,
    blank: Blank,
    db: &Option<Str>,
    held: Option<u32>,
    databases: &D,
    source: &mut Source<R>,
    sink: &mut Sink<W>,
) -> Ending
    requires name { blank.name ≡ L.name }
    requires parts { (blank.parts ≡ L.parts) × (blank.parts ≡ PARTS) }
    requires held { IfSome held IsLimit }
    ensures ends { RunEnds S.Store (D.opens databases.now) R.remaining W.contents db.now true held source.old source.new sink.old sink.new result }
    ensures reads { reads source.new ≤ reads source.old + reads_max }
{
    match db {
        Some(name) => run_over_on_threads::<S, D, R, W, L, T>(
            rt,
            alloc,
            blank,
            name.as_str(),
            held,
            databases,
            source,
            sink,
        ),
        None => play_on_threads::<L, R, W, T>(rt, alloc, blank, held, source, sink),
    }
}

/// Does what the words ask for with the scenario that the source gives, in at most 16,777,217 reads. Where they name a store,
/// it is that in the database which the databases open by that name, before the scenario is read. Threads are started with the runtime
/// that is handed in, and the ledger of the blank counts the calls that they make.
pub fn perform<
    S: Alter + Drop + Send,
    D: Databases<S>,
    R: Read,
    W: Write,
    L: Ledger + Send + Sync,
    T: Threads + Wait + Sync,
>(
    rt: &T,
    alloc: Global,
    blank: Blank,
    words: &Words,
    databases: &D,
    source: &mut Source<R>,
    sink: &mut Sink<W>,
) -> Ending
    requires name { blank.name ≡ L.name }
    requires parts { (blank.parts ≡ L.parts) × (blank.parts ≡ PARTS) }
    requires limit { HasLimit words.now }
    ensures ends { Performs S.Store (D.opens databases.now) R.remaining W.contents words.now source.old source.new sink.old sink.new result }
    ensures reads { reads source.new ≤ reads source.old + reads_max }
{
    match words {
        Words::Input => play(alloc, None, source, sink),
        Words::Run {
            db,
            threads: false,
            held,
            ..
        } => run(alloc, db, *held, databases, source, sink),
        Words::Run {
            db,
            threads: true,
            held,
            ..
        } => run_on_threads::<S, D, R, W, L, T>(
            rt, alloc, blank, db, *held, databases, source, sink,
        ),
        Words::Select { selector, .. } => pick(alloc, selector.as_str(), source, sink),
        Words::Lone { key, .. } => lone(alloc, source, key.as_str(), sink),
    }
}
