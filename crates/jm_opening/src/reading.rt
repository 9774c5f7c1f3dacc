//! The rows of meta, read.

ghost use Rattle.std.specs.Prelude.{◌≡◌, false, map, IsTrue, IfOk};
ghost use Rattle.std.specs.List.Sorted.{IsPermutation};
ghost use Rattle.sqlite.specs.State.{HasCleanDisk, Survives};
ghost use Rattle.sqlite.specs.Held.{state};
ghost use Rattle.jm_tables.specs.Schema.{meta_tree};
ghost use Rattle.jm_opening.specs.Meta.{meta_shown};
ghost use Rattle.jm_opening.specs.Opened.{IsOfStore};

use sqlite::{Alter, Connection, Error, Row};

/// The rows of meta, each with its number, version and opening. It reads in a transaction that it rolls back: of a database
/// whose tables are unknown, too, nothing is changed. An error is told as the database tells it.
pub fn read_meta<S: Alter>(conn: &mut Connection<S>) -> Result<Vec<Row>, Error>
    requires { conn.old.in_transaction ≡ false }
    ensures mode { conn.new.in_transaction ≡ false }
    ensures rows { HasCleanDisk (state S.Store conn.new) → IsOfStore (state S.Store conn.old).now.schema
        → IfOk result (λ rows. IsPermutation (map meta_shown ((state S.Store conn.old).now.trees meta_tree)) rows.items) }
    ensures same { HasCleanDisk (state S.Store conn.new) → IsTrue (state S.Store conn.new).is_open
        → ((state S.Store conn.new).now ≡ (state S.Store conn.old).committed) × ((state S.Store conn.new).committed ≡ (state S.Store conn.old).committed) }
    ensures survives { Survives (state S.Store conn.old) (state S.Store conn.new) (λ _. ⊥) }
{
    let mut tx = conn.transaction();
    let rows = tx.query_all("SELECT id, version, opening FROM meta", &[]);
    tx.rollback();
    rows
}
