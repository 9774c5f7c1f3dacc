//! Runs of a scenario over the store of a connection.

ghost use Rattle.std.specs.Prelude.{◌≡◌};

use jm_runner::{Ending, Fault, PARTS, Played, Sink, Source, play_stored, play_stored_on_threads};
use jm_store::Left;
use sqlite::{Alter, Connection};
use std::alloc::{AllocError, Global};
use std::marker::Brand;
use std::sync::Wait;
use std::sync::ledger::Blank;
use std::thread::Threads;

/// A run, and what it ends with.
pub(crate) struct Run {
    pub(crate) scenario: &'static str,
    pub(crate) status: u8,
    /// The lines that are printed, or what is told of the fault.
    pub(crate) told: &'static str,
}

/// What is told of the fault.
fn text_of(alloc: Global, fault: &Fault) -> Result<String, AllocError> {
    format!(in alloc; "{fault}")
}

/// Whether what is told of the fault is that.
fn is_fault(alloc: Global, fault: &Fault, told: &str) -> bool {
    match text_of(alloc, fault) {
        Ok(text) => text.as_str() == told,
        Err(_) => false,
    }
}

/// Whether the run ends as it should, where that was printed.
fn is_ended(alloc: Global, ending: &Ending, printed: &[u8], run: &Run) -> bool {
    if ending.status != run.status {
        return false;
    }
    match &ending.fault {
        Some(fault) => printed.is_empty() && is_fault(alloc, fault, run.told),
        None => printed == run.told.as_bytes(),
    }
}

/// The connection that is left.
fn connection_left<S: Alter + Drop>(left: Left<S>) -> Option<Connection<S>> {
    match left {
        Left::Settled(conn) => Some(conn),
        Left::Shut(_) => None,
    }
}

/// How the scenario ends over the store of the connection, which is in no transaction, what it prints, and what is left.
fn printed<S: Alter + Drop>(
    alloc: Global,
    conn: Connection<S>,
    scenario: &'static str,
) -> Option<(Ending, Vec<u8>, Left<S>)> {
    if !conn.is_autocommit() {
        return None;
    }
    let mut printed = Vec::new(alloc);
    let mut source = Source::new(Ok(scenario.as_bytes()));
    let Played { ending, left } = play_stored(
        alloc,
        None,
        conn,
        &mut source,
        &mut Sink::new(&mut printed),
    );
    Some((ending, printed, left))
}

/// The same, where its sessions call on threads of their own.
fn printed_on_threads<S: Alter + Drop + Send, T: Threads + Wait + Sync>(
    rt: &T,
    alloc: Global,
    conn: Connection<S>,
    scenario: &'static str,
) -> Option<(Ending, Vec<u8>, Left<S>)> {
    if !conn.is_autocommit() {
        return None;
    }
    let blank = Blank::new(PARTS);
    let mut printed = Vec::new(alloc);
    let mut source = Source::new(Ok(scenario.as_bytes()));
    let Played { ending, left } = play_stored_on_threads::<S, Brand, _, _, T>(
        rt,
        alloc,
        blank,
        None,
        conn,
        &mut source,
        &mut Sink::new(&mut printed),
    );
    Some((ending, printed, left))
}

/// The connection that is left of a run, where it ended as it should.
fn left_of<S: Alter + Drop>(
    alloc: Global,
    ended: (Ending, Vec<u8>, Left<S>),
    run: &Run,
) -> Option<Connection<S>> {
    let (ending, printed, left) = ended;
    if is_ended(alloc, &ending, &printed, run) {
        connection_left(left)
    } else {
        None
    }
}

/// Makes the runs in turn over the store of the connection, and hands it back where all end as they should.
pub(crate) fn all_played<S: Alter + Drop>(
    alloc: Global,
    mut conn: Connection<S>,
    runs: &[Run],
) -> Option<Connection<S>> {
    for run in runs {
        let ended = printed(alloc, conn, run.scenario)?;
        conn = left_of(alloc, ended, run)?;
    }
    Some(conn)
}

/// The same, where their sessions call on threads of their own.
pub(crate) fn all_played_on_threads<S: Alter + Drop + Send, T: Threads + Wait + Sync>(
    rt: &T,
    alloc: Global,
    mut conn: Connection<S>,
    runs: &[Run],
) -> Option<Connection<S>> {
    for run in runs {
        let ended = printed_on_threads(rt, alloc, conn, run.scenario)?;
        conn = left_of(alloc, ended, run)?;
    }
    Some(conn)
}
