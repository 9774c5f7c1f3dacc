//! A keeper over a database.

ghost use Rattle.std.specs.Prelude.{◌≡◌, ◌≤◌, ◌&&◌, false, true, IsTrue, OnOk, OnErr, IsErrOf};
ghost use Rattle.std.specs.List.{AllByRecursion};
ghost use Rattle.sqlite.specs.Held.{state};
ghost use Rattle.sqlite.specs.State.{HasCleanDisk};
ghost use Rattle.jm_keep.specs.Stored.{HasRisen, changed_all};
ghost use Rattle.jm_tables.specs.Rows.{stored_in};
ghost use Rattle.jm_writes.specs.Faults as spec;
ghost use Rattle.jm_writes.specs.Records.{BringsRecord, StoresRecords};
ghost use Rattle.jm_writes.specs.Steps.{IsOurs, LeavesOnly, LeavesOr};

use crate::transaction::write;
use jm_keep::{Keep, RowChange, StoreFault};
use sqlite::{Alter, Connection, Error, ErrorCode};
use std::marker::Model;

/// Keeps what is stored in a database that nobody else writes, and counts how often that failed. A database that a fault has
/// shut stays shut: each write fails then.
#[derive(Drop)]
pub struct Store<S: Alter> {
    conn: Connection<S>,
    faults: u64,
}

impl<S: Alter> Model for Store<S> {
    ghost use Rattle.std.specs.Prelude.{ℕ, ◌≡◌, false};
    ghost use Rattle.std.specs.Coded.{coded×, coded_ℕ};
    ghost use Rattle.sqlite.specs.Held.{Held, held_code, state};
    ghost use Rattle.jm_writes.specs.Steps.{IsOurs};

    ghost Value = { Held S × ℕ };

    ghost coded = { coded× (held_code S.code) coded_ℕ };

    ghost view = { λ s. (s.conn, s.faults) };

    ghost invariant = { λ s. (s.conn.in_transaction ≡ false) × IsOurs (state S.Store s.conn) };
}

/// What the error is told as: `Memory` where a request for memory was refused, and `Device` for any other.
fn fault_of(error: &Error) -> StoreFault
    ensures { result ≡ spec.fault_of error.now }
{
    match error {
        Error::SqliteFailure(ErrorCode::OutOfMemory) => StoreFault::Memory,
        _ => StoreFault::Device,
    }
}

impl<S: Alter> Store<S> {
    /// The store over a database of its schema, in no transaction, each of whose rows by itself is one of a store's: so are those
    /// that an opening and a loading took, or that `into_connection` hands back. It has not failed yet.
    pub fn over(conn: Connection<S>) -> Store<S>
        requires autocommit { conn.in_transaction ≡ false }
        requires ours { IsOurs (state S.Store conn) }
        ensures { result ≡ (conn, 0) }
    {
        Store { conn, faults: 0 }
    }

    /// The connection, which is in no transaction.
    pub fn into_connection(self) -> Connection<S>
        ensures same { result ≡ self.0 }
        ensures autocommit { result.in_transaction ≡ false }
        ensures ours { IsOurs (state S.Store result) }
    {
        let Store {
            conn,
            faults: _faults,
        } = self;
        conn
    }
}

impl<S: Alter> Keep for Store<S> {
    ghost stored = { λ s. stored_in (state S.Store s.0).now.trees };

    ghost faults = { λ s. s.1 };

    ghost is_clean = { λ s. (state S.Store s.0).is_clean && (state S.Store s.0).is_open };

    ghost is_keeping = { λ s. true };

    fn keeps(&self) -> bool
        ensures { result ≡ true }
    {
        true
    }

    /// Makes all changes in one transaction, or none of them. `Memory` where a request for memory was refused. `Device` where
    /// the database refused a change or failed, which is counted, or the tables cannot hold a change.
    fn write(&mut self, changes: &[RowChange]) -> Result<(), StoreFault>
        ensures written { IsTrue ((state S.Store self.new.0).is_clean && (state S.Store self.new.0).is_open) → OnOk result (stored_in (state S.Store self.new.0).now.trees ≡ changed_all (stored_in (state S.Store self.old.0).now.trees) changes.now) }
        ensures refused { IsTrue ((state S.Store self.new.0).is_clean && (state S.Store self.new.0).is_open) → OnErr result (stored_in (state S.Store self.new.0).now.trees ≡ stored_in (state S.Store self.old.0).now.trees) }
        // Whatever it answers: where each message is stored by its record, it stays so, if the changes bring records alone.
        ensures records { IsTrue ((state S.Store self.new.0).is_clean && (state S.Store self.new.0).is_open) → StoresRecords (stored_in (state S.Store self.old.0).now.trees) → AllByRecursion BringsRecord changes.now → StoresRecords (stored_in (state S.Store self.new.0).now.trees) }
        ensures clean { IsTrue ((state S.Store self.new.0).is_clean && (state S.Store self.new.0).is_open) → IsTrue ((state S.Store self.old.0).is_clean && (state S.Store self.old.0).is_open) }
        ensures counts { self.old.1 ≤ self.new.1 }
        ensures device { IsErrOf result StoreFault.Device → HasRisen self.old.1 self.new.1 }
        // A crash leaves what it could leave before the call, or a store's database with all the changes.
        ensures stop { HasCleanDisk (state S.Store self.new.0) → IsTrue (state S.Store self.old.0).is_open → LeavesOr (state S.Store self.old.0) (state S.Store self.new.0) changes.now }
        // After an accepted write it leaves such a database, and nothing else.
        ensures durable { HasCleanDisk (state S.Store self.new.0) → IsTrue (state S.Store self.old.0).is_open → OnOk result (LeavesOnly (state S.Store self.old.0) (state S.Store self.new.0) changes.now) }
    {
        match write(&mut self.conn, changes) {
            Ok(()) => Ok(()),
            Err(error) => {
                let fault = fault_of(&error);
                if matches!(fault, StoreFault::Device) {
                    self.faults = self.faults.saturating_add(1);
                }
                Err(fault)
            }
        }
    }
}
