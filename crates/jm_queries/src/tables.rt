//! The rows of each table of a store, each column at the index that it has in its tree: a rowid is at 0, which is the place of
//! a message and of a delay and is shown as 0 elsewhere, and the columns of the table are at 1 and on, NULL where one of them
//! is the rowid. An error is told as the database tells it, and changes nothing: memory was refused, the disk failed, the
//! database was shut before, or a limit on steps was reached.

ghost use Rattle.std.specs.Prelude.{◌≡◌, false, IsTrue, IfErr, IfOk, OnOk};
ghost use Rattle.sqlite.specs.State.{HasCleanDisk, Survives};
ghost use Rattle.sqlite.specs.Held.{state};
ghost use Rattle.jm_tables.specs.Sound.{Serves};
ghost use Rattle.jm_queries.specs.Asked.{IsQueryFault, IsUndone};
ghost use Rattle.jm_queries.specs.Shown.{AreDelays, AreHeld, AreMessages, AreStations};

use crate::asked::ask;
use sqlite::{Alter, Connection, Error, Row};

/// The queues and durable subscriptions: 0, and then the columns of station. Their keys rise, by family, client and name.
pub fn stations<S: Alter>(conn: &mut Connection<S>) -> Result<Vec<Row>, Error>
    requires { conn.old.in_transaction ≡ false }
    ensures mode { conn.new.in_transaction ≡ false }
    ensures rows { HasCleanDisk (state S.Store conn.new) → Serves (state S.Store conn.old).now
        → IfOk result (λ rows. AreStations (state S.Store conn.old).now.trees rows.items) }
    ensures was_open { HasCleanDisk (state S.Store conn.new) → OnOk result (IsTrue (state S.Store conn.old).is_open) }
    ensures fault { HasCleanDisk (state S.Store conn.new) → Serves (state S.Store conn.old).now
        → IfErr result (IsQueryFault (state S.Store conn.old) (state S.Store conn.new)) }
    ensures same { HasCleanDisk (state S.Store conn.new) → IsTrue (state S.Store conn.new).is_open → IsUndone (state S.Store conn.old) (state S.Store conn.new) }
    ensures survives { Survives (state S.Store conn.old) (state S.Store conn.new) (λ _. ⊥) }
{
    ask(
        conn,
        "SELECT 0, family, client, name, shared, topic, selector, no_local FROM station ORDER BY family, client, name",
    )
}

/// The messages: the place of each, NULL and its record. Their places rise.
pub fn messages<S: Alter>(conn: &mut Connection<S>) -> Result<Vec<Row>, Error>
    requires { conn.old.in_transaction ≡ false }
    ensures mode { conn.new.in_transaction ≡ false }
    ensures rows { HasCleanDisk (state S.Store conn.new) → Serves (state S.Store conn.old).now
        → IfOk result (λ rows. AreMessages (state S.Store conn.old).now.trees rows.items) }
    ensures was_open { HasCleanDisk (state S.Store conn.new) → OnOk result (IsTrue (state S.Store conn.old).is_open) }
    ensures fault { HasCleanDisk (state S.Store conn.new) → Serves (state S.Store conn.old).now
        → IfErr result (IsQueryFault (state S.Store conn.old) (state S.Store conn.new)) }
    ensures same { HasCleanDisk (state S.Store conn.new) → IsTrue (state S.Store conn.new).is_open → IsUndone (state S.Store conn.old) (state S.Store conn.new) }
    ensures survives { Survives (state S.Store conn.old) (state S.Store conn.new) (λ _. ⊥) }
{
    ask(
        conn,
        "SELECT place, NULL, record FROM message ORDER BY place",
    )
}

/// Which queues and durable subscriptions hold a message, and how often it was delivered there: 0, and then the columns of
/// held. Their keys rise, by family, client and name, and under each key the places.
pub fn held<S: Alter>(conn: &mut Connection<S>) -> Result<Vec<Row>, Error>
    requires { conn.old.in_transaction ≡ false }
    ensures mode { conn.new.in_transaction ≡ false }
    ensures rows { HasCleanDisk (state S.Store conn.new) → Serves (state S.Store conn.old).now
        → IfOk result (λ rows. AreHeld (state S.Store conn.old).now.trees rows.items) }
    ensures was_open { HasCleanDisk (state S.Store conn.new) → OnOk result (IsTrue (state S.Store conn.old).is_open) }
    ensures fault { HasCleanDisk (state S.Store conn.new) → Serves (state S.Store conn.old).now
        → IfErr result (IsQueryFault (state S.Store conn.old) (state S.Store conn.new)) }
    ensures same { HasCleanDisk (state S.Store conn.new) → IsTrue (state S.Store conn.new).is_open → IsUndone (state S.Store conn.old) (state S.Store conn.new) }
    ensures survives { Survives (state S.Store conn.old) (state S.Store conn.new) (λ _. ⊥) }
{
    ask(
        conn,
        "SELECT 0, family, client, name, place, deliveries FROM held ORDER BY family, client, name, place",
    )
}

/// The delayed messages: the place of each, NULL and the moment at which it becomes due, in milliseconds. Their places rise.
pub fn delays<S: Alter>(conn: &mut Connection<S>) -> Result<Vec<Row>, Error>
    requires { conn.old.in_transaction ≡ false }
    ensures mode { conn.new.in_transaction ≡ false }
    ensures rows { HasCleanDisk (state S.Store conn.new) → Serves (state S.Store conn.old).now
        → IfOk result (λ rows. AreDelays (state S.Store conn.old).now.trees rows.items) }
    ensures was_open { HasCleanDisk (state S.Store conn.new) → OnOk result (IsTrue (state S.Store conn.old).is_open) }
    ensures fault { HasCleanDisk (state S.Store conn.new) → Serves (state S.Store conn.old).now
        → IfErr result (IsQueryFault (state S.Store conn.old) (state S.Store conn.new)) }
    ensures same { HasCleanDisk (state S.Store conn.new) → IsTrue (state S.Store conn.new).is_open → IsUndone (state S.Store conn.old) (state S.Store conn.new) }
    ensures survives { Survives (state S.Store conn.old) (state S.Store conn.new) (λ _. ⊥) }
{
    ask(conn, "SELECT place, NULL, due FROM delayed ORDER BY place")
}
