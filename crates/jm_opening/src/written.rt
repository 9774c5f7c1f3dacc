//! One transaction for an opening.

ghost use Rattle.std.specs.Prelude.{◌≡◌, false, IsTrue, OnOk, OnErr};
ghost use Rattle.sqlite.specs.State.{HasCleanDisk, Survives};
ghost use Rattle.sqlite.specs.Held.{state};
ghost use Rattle.sqlite_trees.specs.Tree.{Trees};
ghost use Rattle.jm_opening.specs.Opened.{HoldsOpened, IsFound, IsOpened};

use crate::found::Found;
use crate::statements::open_found;
use sqlite::{Alter, Connection, Error};

/// Opens the database that was found so, in one transaction, whose commit is the last call: its tables are of version 2, and
/// the number of its opening is the one that was found. An error is told as the database tells it, and changes nothing. A stop
/// of the process leaves the database as it was or as it is opened.
pub fn write<S: Alter>(conn: &mut Connection<S>, found: Found) -> Result<(), Error>
    requires { conn.old.in_transaction ≡ false }
    ensures mode { conn.new.in_transaction ≡ false }
    ensures was_open { HasCleanDisk (state S.Store conn.new) → IsTrue (state S.Store conn.new).is_open → IsTrue (state S.Store conn.old).is_open }
    ensures lives { HasCleanDisk (state S.Store conn.new) → OnOk result (IsTrue (state S.Store conn.new).is_open) }
    ensures opened { HasCleanDisk (state S.Store conn.new) → IsTrue (state S.Store conn.old).is_open → IsFound found (state S.Store conn.old).now
        → OnOk result (IsOpened found (state S.Store conn.old).now (state S.Store conn.new).now × IsTrue (state S.Store conn.new).is_open × ((state S.Store conn.new).committed ≡ (state S.Store conn.new).now)) }
    ensures refused { HasCleanDisk (state S.Store conn.new) → IsTrue (state S.Store conn.old).is_open → IsFound found (state S.Store conn.old).now → IsTrue (state S.Store conn.new).is_open
        → OnErr result (((state S.Store conn.new).now ≡ (state S.Store conn.old).committed) × ((state S.Store conn.new).committed ≡ (state S.Store conn.old).committed)) }
    ensures survives { Survives (state S.Store conn.old) (state S.Store conn.new)
        (λ db. IsTrue (state S.Store conn.old).is_open × (IsFound found (state S.Store conn.old).now → HoldsOpened found (state S.Store conn.old).now db)) }
    ensures durable { HasCleanDisk (state S.Store conn.new) → IsTrue (state S.Store conn.old).is_open → IsFound found (state S.Store conn.old).now
        → OnOk result ((db : Trees) → (state S.Store conn.new).may_leave db → db ≡ (state S.Store conn.new).now.trees) }
{
    let mut tx = conn.transaction();
    open_found(&mut tx, found)?;
    tx.commit()
}
