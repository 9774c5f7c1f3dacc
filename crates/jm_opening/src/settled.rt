//! A connection whose tables are known to have each rowid once.

ghost use Rattle.std.specs.Prelude.{◌≡◌, false, IsTrue, IfOk, IfErr};
ghost use Rattle.sqlite.specs.Effect.{IsDatabase};
ghost use Rattle.sqlite.specs.State.{HasCleanDisk, Opens};
ghost use Rattle.sqlite.specs.Held.{state};
ghost use Rattle.sqlite_trees.specs.Tree.{Trees};
ghost use Rattle.sqlite_trees.specs.View.{IsClean};
ghost use Rattle.jm_opening.specs.Opened.{AreTables};

use sqlite::{Alter, Connection, Error, ErrorCode};
use std::alloc::Global;

/// Opens the store of a connection once more, which reads each row again: the rowids of each of its tables are known to rise.
/// What was not committed is undone. On an error, which the database told, the store is handed back alone: it was shut
/// already, memory was refused, the disk failed, or the rows do not obey their schema. A stop of the process leaves what it could
/// leave before.
pub fn settle<S: Alter + Drop>(
    alloc: Global,
    conn: Connection<S>,
) -> Result<Connection<S>, (Error, S)>
    ensures mode { IfOk result (λ c. c.in_transaction ≡ false) }
    ensures tables { IfOk result (λ c. HasCleanDisk (state S.Store c) → AreTables (state S.Store c).now × IsDatabase (state S.Store c).now × Opens (state S.Store c)) }
    ensures same { IfOk result (λ c. HasCleanDisk (state S.Store c) → (state S.Store c).now.trees ≡ (state S.Store conn).committed.trees) }
    ensures stop { IfOk result (λ c. HasCleanDisk (state S.Store c) → (db : Trees) → (state S.Store c).may_leave db → (state S.Store conn).may_leave db) }
    ensures refused { IfErr result (λ e. IsClean (S.Store.view e.1) → IsTrue (S.Store.view e.1).is_open → (S.Store.view e.1).trees ≡ (state S.Store conn).committed.trees) }
    ensures unharmed { IfErr result (λ e. (db : Trees) → S.Store.recovers e.1 db → (state S.Store conn).may_leave db) }
{
    let store = conn.into_store();
    if store.is_broken() {
        return Err((Error::SqliteFailure(ErrorCode::Closed), store));
    }
    Connection::over(alloc, store)
}
