//! A query that leaves nothing behind.

ghost use Rattle.std.specs.Prelude.{◌≡◌, false, IsTrue, IfErr, IfOk, OnOk};
ghost use Rattle.sqlite.specs.State.{HasCleanDisk, Survives};
ghost use Rattle.sqlite.specs.Held.{state};
ghost use Rattle.sqlite.specs.Query.{Query};
ghost use Rattle.jm_queries.specs.Asked.{Answers, IsQueryFault, IsUndone, Means};

use sqlite::{Alter, Connection, Error, Row};

/// All rows of the query, which has no parameters. It reads in a transaction that it rolls back, so that nothing of the
/// database is changed, whatever the text is. An error is told as the database tells it: of a text that means a query of one
/// table, that memory was refused, the disk failed, the database was shut before or a limit on steps was reached.
pub(crate) fn ask<S: Alter>(conn: &mut Connection<S>, text: &str) -> Result<Vec<Row>, Error>
    requires { conn.old.in_transaction ≡ false }
    ensures mode { conn.new.in_transaction ≡ false }
    ensures rows { HasCleanDisk (state S.Store conn.new) → IfOk result (λ rows. Answers (state S.Store conn.old).now text.now rows.items) }
    ensures was_open { HasCleanDisk (state S.Store conn.new) → OnOk result (IsTrue (state S.Store conn.old).is_open) }
    ensures fault { HasCleanDisk (state S.Store conn.new) → IfErr result (λ e. (q : Query) → Means (state S.Store conn.old).now.schema text.now q
        → IsQueryFault (state S.Store conn.old) (state S.Store conn.new) e) }
    ensures same { HasCleanDisk (state S.Store conn.new) → IsTrue (state S.Store conn.new).is_open → IsUndone (state S.Store conn.old) (state S.Store conn.new) }
    ensures survives { Survives (state S.Store conn.old) (state S.Store conn.new) (λ _. ⊥) }
{
    let mut tx = conn.transaction();
    let rows = tx.query_all(text, &[]);
    tx.rollback();
    rows
}
