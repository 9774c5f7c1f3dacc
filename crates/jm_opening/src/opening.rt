//! The opening of a store.

ghost use Rattle.std.specs.Prelude.{◌≡◌, ◌≤◌, false, IsTrue, OnOk, OnErr, IfOk, IfErr};
ghost use Rattle.sqlite.specs.State.{HasCleanDisk, Survives};
ghost use Rattle.sqlite.specs.Held.{state};
ghost use Rattle.sqlite_trees.specs.Tree.{Trees};
ghost use Rattle.jm_tables.specs.Sound.{Serves};
ghost use Rattle.jm_tables.specs.Valid.{IsOpening};
ghost use Rattle.jm_opening.specs.Opened.{AreTables, IsFound, opening_of};
ghost use Rattle.jm_opening.specs.Opening.{IsOpenedFrom, IsRefusal, LeavesOpened};

use crate::found::Found;
use crate::judged::{OpenFault, judge};
use crate::reading::read_meta;
use crate::versions::{is_blank, of_version};
use crate::written::write;
use sqlite::{Alter, Connection};
use std::alloc::Global;

/// How the database is found. Nothing of it is changed.
fn find<S: Alter>(alloc: Global, conn: &mut Connection<S>) -> Result<Found, OpenFault>
    requires { conn.old.in_transaction ≡ false }
    ensures mode { conn.new.in_transaction ≡ false }
    ensures found { HasCleanDisk (state S.Store conn.new) → IsTrue (state S.Store conn.new).is_open → (state S.Store conn.old).now ≡ (state S.Store conn.old).committed
        → IfOk result (λ found. IsFound found (state S.Store conn.new).now) }
    ensures number { IfOk result (λ found. IsOpening (opening_of found)) }
    ensures fault { HasCleanDisk (state S.Store conn.new) → IfErr result (IsRefusal (state S.Store conn.old).now) }
    ensures same { HasCleanDisk (state S.Store conn.new) → IsTrue (state S.Store conn.new).is_open → (state S.Store conn.old).now ≡ (state S.Store conn.old).committed
        → ((state S.Store conn.new).now ≡ (state S.Store conn.old).now) × ((state S.Store conn.new).committed ≡ (state S.Store conn.old).committed) }
    ensures survives { Survives (state S.Store conn.old) (state S.Store conn.new) (λ _. ⊥) }
{
    if is_blank(conn.schema()) {
        return Ok(Found::Blank);
    }
    let rows = read_meta(conn)?;
    let last = judge(&rows)?;
    of_version(alloc, conn.schema(), last)
}

/// Opens the database as a store, and answers the number of the opening, from 1 to 4,294,967,295: a new one gets the tables of
/// version 2 and opening 1, and one of version 1 or 2 the next opening and, where they are missing, the tables of version 2. The
/// connection comes from `settle`. The first of these faults is told: the database refuses the query of meta (Store, or Memory),
/// its rows are refused (as `judge` tells), its tables are not those of its version (Store), or it refuses a statement (Store, or
/// Memory). A fault changes nothing. A stop of the process leaves the database as it was or as it is opened (ours).
pub fn open_settled<S: Alter>(alloc: Global, conn: &mut Connection<S>) -> Result<u32, OpenFault>
    requires { conn.old.in_transaction ≡ false }
    ensures mode { conn.new.in_transaction ≡ false }
    ensures opened { HasCleanDisk (state S.Store conn.new) → (state S.Store conn.old).now ≡ (state S.Store conn.old).committed → IfOk result (λ opening. IsOpenedFrom opening (state S.Store conn.old).now (state S.Store conn.new)) }
    ensures number { IfOk result (λ opening. 1 ≤ opening) }
    ensures serves { HasCleanDisk (state S.Store conn.new) → (state S.Store conn.old).now ≡ (state S.Store conn.old).committed → AreTables (state S.Store conn.old).now → OnOk result (Serves (state S.Store conn.new).now) }
    ensures fault { HasCleanDisk (state S.Store conn.new) → IfErr result (IsRefusal (state S.Store conn.old).now) }
    ensures same { HasCleanDisk (state S.Store conn.new) → IsTrue (state S.Store conn.new).is_open → (state S.Store conn.old).now ≡ (state S.Store conn.old).committed
        → OnErr result (((state S.Store conn.new).now ≡ (state S.Store conn.old).now) × ((state S.Store conn.new).committed ≡ (state S.Store conn.old).now)) }
    ensures survives { Survives (state S.Store conn.old) (state S.Store conn.new)
        (λ db. (state S.Store conn.old).now ≡ (state S.Store conn.old).committed → LeavesOpened (state S.Store conn.old).now db) }
    ensures durable { HasCleanDisk (state S.Store conn.new) → (state S.Store conn.old).now ≡ (state S.Store conn.old).committed
        → OnOk result ((db : Trees) → (state S.Store conn.new).may_leave db → db ≡ (state S.Store conn.new).now.trees) }
{
    let found = find(alloc, conn)?;
    write(conn, found)?;
    Ok(found.opening())
}
