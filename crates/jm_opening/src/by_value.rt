//! A store is opened by value.

ghost use Rattle.std.specs.Prelude.{◌≡◌, ◌≤◌, false, IfOk, IfErr};
ghost use Rattle.sqlite.specs.State.{HasCleanDisk};
ghost use Rattle.sqlite.specs.Held.{state};
ghost use Rattle.sqlite_trees.specs.Tree.{Trees};
ghost use Rattle.jm_tables.specs.Sound.{Serves};
ghost use Rattle.jm_opening.specs.Opening.{IsInNoTransaction, IsOpenedAgain, IsRefusedAs, LeavesOf, Stands};

use crate::judged::OpenFault;
use crate::opening::open_settled;
use crate::outcome::{Left, Opened, Unopened};
use crate::settled::settle;
use sqlite::{Alter, Connection};
use std::alloc::Global;

/// Opens the store of a connection: it is settled, its tables are made or carried over, and the number of its opening is raised.
/// What was not committed is undone. The first of these faults is told: it cannot be settled (Memory, or Store), and the store is
/// handed back alone; or one of `open_settled`, and the connection is handed back. Where the disk is clean, a fault leaves what
/// was committed. A stop of the process within an opening leaves the database as it was or as it is opened, and one after it the
/// opened database, and nothing else (ours).
pub fn open<S: Alter + Drop>(alloc: Global, conn: Connection<S>) -> Result<Opened<S>, Unopened<S>>
    ensures mode { IfOk result (λ o. o.conn.in_transaction ≡ false) }
    ensures opened { IfOk result (λ o. HasCleanDisk (state S.Store o.conn) → IsOpenedAgain o.opening (state S.Store conn).committed.trees (state S.Store o.conn)) }
    ensures number { IfOk result (λ o. 1 ≤ o.opening) }
    ensures serves { IfOk result (λ o. HasCleanDisk (state S.Store o.conn) → Serves (state S.Store o.conn).now) }
    ensures durable { IfOk result (λ o. HasCleanDisk (state S.Store o.conn) → (db : Trees) → (state S.Store o.conn).may_leave db → db ≡ (state S.Store o.conn).now.trees) }
    ensures left { IfErr result (λ u. IsInNoTransaction u.left) }
    ensures fault { IfErr result (λ u. IsRefusedAs S.Store (state S.Store conn).committed.trees u.fault u.left) }
    ensures same { IfErr result (λ u. Stands S.Store (state S.Store conn).committed.trees u.left) }
    // A crash leaves what it could leave before the call, or the opened database.
    ensures stop { IfErr result (λ u. LeavesOf S.Store (state S.Store conn) u.left) }
{
    let mut conn = match settle(alloc, conn) {
        Ok(conn) => conn,
        Err((error, store)) => {
            return Err(Unopened {
                fault: OpenFault::from(error),
                left: Left::Shut(store),
            });
        }
    };
    match open_settled(alloc, &mut conn) {
        Ok(opening) => Ok(Opened { conn, opening }),
        Err(fault) => Err(Unopened {
            fault,
            left: Left::Settled(conn),
        }),
    }
}
