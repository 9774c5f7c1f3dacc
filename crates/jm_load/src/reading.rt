//! The rows of all tables, read.

ghost use Rattle.std.specs.Prelude.{◌≡◌, ◌⊎◌, false, IsTrue, IfOk, IfErr};
ghost use Rattle.sqlite.specs.State.{HasCleanDisk, Survives};
ghost use Rattle.sqlite.specs.Held.{state};
ghost use Rattle.jm_tables.specs.Sound.{Serves};
ghost use Rattle.jm_opening.specs.declared.judged.OpenFault.TheVariants.{Memory, Store};
ghost use Rattle.jm_queries.specs.Asked.{IsUndone};
ghost use Rattle.jm_load.specs.Causes.{IsUnread, query_fault};
ghost use Rattle.jm_load.specs.Loaded.{AreRowsOf};

use jm_opening::OpenFault;
use jm_queries::{delays, held, messages, stations};
use sqlite::{Alter, Connection, Error, ErrorCode, Row};

/// The rows of the tables, each as its query shows them.
#[derive(Drop)]
pub(crate) struct TableRows {
    pub stations: Vec<Row>,
    pub messages: Vec<Row>,
    pub held: Vec<Row>,
    pub delays: Vec<Row>,
}

/// An error of a query, as it is told: `Memory` where a request for memory was refused, else `Store`.
fn fault_of(error: Error) -> OpenFault
    ensures { result ≡ query_fault error }
{
    match error {
        Error::SqliteFailure(ErrorCode::OutOfMemory) => OpenFault::Memory,
        _ => OpenFault::Store,
    }
}

/// The rows of all tables. `Memory` where a request for memory was refused, or `Store` where the database was shut before, the disk
/// failed, or a limit on steps was reached; nothing of it is changed.
pub(crate) fn read<S: Alter>(conn: &mut Connection<S>) -> Result<TableRows, OpenFault>
    requires { conn.old.in_transaction ≡ false }
    ensures mode { conn.new.in_transaction ≡ false }
    ensures rows { HasCleanDisk (state S.Store conn.new) → (state S.Store conn.old).now ≡ (state S.Store conn.old).committed → Serves (state S.Store conn.old).now
        → IfOk result (AreRowsOf (state S.Store conn.old).now.trees) }
    ensures fault { IfErr result (λ fault. (fault ≡ Memory) ⊎ (fault ≡ Store)) }
    ensures cause { HasCleanDisk (state S.Store conn.new) → (state S.Store conn.old).now ≡ (state S.Store conn.old).committed → Serves (state S.Store conn.old).now
        → IfErr result (IsUnread (state S.Store conn.old) (state S.Store conn.new)) }
    ensures same { HasCleanDisk (state S.Store conn.new) → IsTrue (state S.Store conn.new).is_open → IsUndone (state S.Store conn.old) (state S.Store conn.new) }
    ensures survives { Survives (state S.Store conn.old) (state S.Store conn.new) (λ _. ⊥) }
{
    let stations = match stations(conn) {
        Ok(rows) => rows,
        Err(error) => return Err(fault_of(error)),
    };
    let messages = match messages(conn) {
        Ok(rows) => rows,
        Err(error) => return Err(fault_of(error)),
    };
    let held = match held(conn) {
        Ok(rows) => rows,
        Err(error) => return Err(fault_of(error)),
    };
    let delays = match delays(conn) {
        Ok(rows) => rows,
        Err(error) => return Err(fault_of(error)),
    };
    Ok(TableRows {
        stations,
        messages,
        held,
        delays,
    })
}
