//! A store is opened and loaded.

ghost use Rattle.std.specs.Prelude.{◌≡◌, ◌≤◌, ◌&&◌, ℕ, true, IsTrue, IfOk, IfErr};
ghost use Rattle.sqlite.specs.Held.{state};
ghost use Rattle.sqlite_trees.specs.Tree.{Trees};
ghost use Rattle.jm_plans.specs.Provider.{may_open, state_of};
ghost use Rattle.jm_holds.specs.Holds.{HoldsMessages};
ghost use Rattle.jm_keep.specs.Persisted.{IsPersisted};
ghost use Rattle.jm_opening.specs.Opening.{IsInNoTransaction, IsOpenedAgain, LeavesOf};
ghost use Rattle.jm_tables.specs.Rows.{stored_in};
ghost use Rattle.jm_tables.specs.Valid.{IsOpening, IsValid};
ghost use Rattle.jm_store.specs.Opened.{IsLeft, LeavesValidOf};

use jm_core::Core;
use jm_load::load;
use jm_opening::{Left, Opened, Unopened};
use jm_writes::Store;
use sqlite::{Alter, Connection};
use std::alloc::Global;

/// A store that was opened, and what it holds.
#[derive(Drop)]
pub struct Reopened<S: Alter + Drop> {
    /// Keeps what the steps of the core change.
    pub store: Store<S>,
    /// Holds what is stored; nobody is connected.
    pub core: Core,
}

/// A number of 32 bits is that of an opening, where it is not 0; the function itself does nothing.
fn is_opening(opening: u32)
    requires { 1 ≤ opening }
    ensures { IsOpening opening }
{
    let _ = opening;
}

/// Opens the store of a connection, and loads what it holds into a core of the new opening, in which a subscription that is not
/// durable may hold so many rows, from 1 to 1,000,000. The first of these faults is told, and what is left is handed back with it:
/// one of `jm_opening::open`, which leaves the store as it was; or one of `jm_load::load`, which leaves it opened, so that the next
/// opening has the next number. Where the disk is clean, a stop of the process after an opening leaves what is stored, and nothing
/// else, and that is a valid file; one within it leaves the database as it was or as it is opened, and a valid file where it was
/// one (ours).
pub fn open<S: Alter + Drop>(
    alloc: Global,
    conn: Connection<S>,
    held_limit: u32,
) -> Result<Reopened<S>, Unopened<S>>
    requires { may_open 1 held_limit ≡ true }
    ensures stored { IfOk result (λ r. IsTrue ((state S.Store r.store.0).is_clean && (state S.Store r.store.0).is_open) → IsPersisted (state_of r.core) (stored_in (state S.Store r.store.0).now.trees)) }
    ensures holds { IfOk result (λ r. IsTrue ((state S.Store r.store.0).is_clean && (state S.Store r.store.0).is_open) → HoldsMessages (state_of r.core)) }
    // The database is a valid file, of the opening of the core.
    ensures valid { IfOk result (λ r. IsTrue ((state S.Store r.store.0).is_clean && (state S.Store r.store.0).is_open) → IsValid (state_of r.core).opening (state S.Store r.store.0).now.trees) }
    ensures opened { IfOk result (λ r. IsTrue ((state S.Store r.store.0).is_clean && (state S.Store r.store.0).is_open) → IsOpenedAgain (state_of r.core).opening (state S.Store conn).committed.trees (state S.Store r.store.0)) }
    ensures durable { IfOk result (λ r. IsTrue ((state S.Store r.store.0).is_clean && (state S.Store r.store.0).is_open) → (db : Trees) → (state S.Store r.store.0).may_leave db → db ≡ (state S.Store r.store.0).now.trees) }
    ensures limit { IfOk result (λ r. (state_of r.core).limit ≡ held_limit) }
    ensures faults { IfOk result (λ r. r.store.1 ≡ 0) }
    ensures left { IfErr result (λ u. IsInNoTransaction u.left) }
    ensures refused { IfErr result (λ u. IsLeft S.Store (state S.Store conn).committed.trees u.fault u.left) }
    // A crash leaves what it could leave before the call, or the opened database.
    ensures stop { IfErr result (λ u. LeavesOf S.Store (state S.Store conn) u.left) }
    // So it leaves a valid file, where what was committed was one.
    ensures stop_valid { IfErr result (λ u. IsTrue (state S.Store conn).is_open → (last : ℕ) → IsValid last (state S.Store conn).committed.trees → LeavesValidOf S.Store u.left) }
{
    let Opened { mut conn, opening } = match jm_opening::open(alloc, conn) {
        Ok(opened) => opened,
        Err(unopened) => return Err(unopened),
    };
    is_opening(opening);
    match load(alloc, &mut conn, opening, held_limit) {
        Ok(core) => Ok(Reopened {
            store: Store::over(conn),
            core,
        }),
        Err(fault) => Err(Unopened {
            fault,
            left: Left::Settled(conn),
        }),
    }
}
