//! All changes of a list in one transaction.

ghost use Rattle.std.specs.Prelude.{◌≡◌, false, IsTrue, OnOk, OnErr};
ghost use Rattle.sqlite.specs.Held.{state};
ghost use Rattle.sqlite.specs.State.{HasCleanDisk, KeepsCommit, Survives};
ghost use Rattle.sqlite_trees.specs.Tree.{Trees};
ghost use Rattle.jm_keep.specs.Stored.{changed_all};
ghost use Rattle.jm_tables.specs.Rows.{stored_in};
ghost use Rattle.jm_tables.specs.Sound.{Serves};
ghost use Rattle.jm_writes.specs.Own.{HasOwnRows};
ghost use Rattle.jm_writes.specs.Steps.{Holds, HasChanges, Steps, Walks};

use crate::columns::NOT_STORED;
use crate::rows::{
    drop_delay, drop_held, drop_message, drop_station, put_delay, put_held, put_message, put_queue,
    put_subscription, set_count,
};
use jm_dest::Key;
use jm_keep::RowChange;
use sqlite::{Alter, Connection, Error, Transaction};

/// Makes one change: the statement of its kind.
fn make<S: Alter>(tx: &mut Transaction<'_, S>, change: &RowChange) -> Result<usize, Error>
    ensures same { tx.new.conn.ghost_name ≡ tx.old.conn.ghost_name }
    ensures done { HasCleanDisk (state S.Store tx.new.conn.now) → Serves (state S.Store tx.old.conn.now).now → OnOk result (Steps (state S.Store tx.old.conn.now) (state S.Store tx.new.conn.now) change.now) }
    ensures kept { HasCleanDisk (state S.Store tx.new.conn.now) → KeepsCommit (state S.Store tx.old.conn.now) (state S.Store tx.new.conn.now) }
    ensures survives { Survives (state S.Store tx.old.conn.now) (state S.Store tx.new.conn.now) (λ _. ⊥) }
{
    match change {
        RowChange::DropHeld { key, place } => drop_held(tx, key, *place),
        RowChange::DropMessage { place } => drop_message(tx, *place),
        RowChange::DropStation { key } => drop_station(tx, key),
        RowChange::PutStation {
            key: Key::Queue(name),
            definition: None,
        } => put_queue(tx, name),
        RowChange::PutStation {
            key,
            definition: Some(definition),
        } => put_subscription(tx, key, definition),
        RowChange::PutStation { .. } => Err(NOT_STORED),
        RowChange::PutMessage { place, bytes } => put_message(tx, *place, bytes),
        RowChange::PutHeld { key, place } => put_held(tx, key, *place),
        RowChange::SetCount { key, place, count } => set_count(tx, key, *place, *count),
        RowChange::DropDelay { place } => drop_delay(tx, *place),
        RowChange::PutDelay { place, due } => put_delay(tx, *place, *due),
    }
}

/// Makes the changes in turn, up to the first that is refused.
fn walk<S: Alter>(tx: &mut Transaction<'_, S>, changes: &[RowChange]) -> Result<(), Error>
    ensures same { tx.new.conn.ghost_name ≡ tx.old.conn.ghost_name }
    ensures done { HasCleanDisk (state S.Store tx.new.conn.now) → IsTrue (state S.Store tx.old.conn.now).in_transaction → IsTrue (state S.Store tx.old.conn.now).is_open → Serves (state S.Store tx.old.conn.now).now
        → OnOk result (Walks (state S.Store tx.old.conn.now) (state S.Store tx.new.conn.now) changes.now) }
    ensures kept { HasCleanDisk (state S.Store tx.new.conn.now) → KeepsCommit (state S.Store tx.old.conn.now) (state S.Store tx.new.conn.now) }
    ensures survives { Survives (state S.Store tx.old.conn.now) (state S.Store tx.new.conn.now) (λ _. ⊥) }
{
    for change in changes {
        make(tx, change)?;
    }
    Ok(())
}

/// Makes the changes in one transaction, whose commit is its last call: all of them, or none. A fault of the disk shuts the
/// connection. An error is what the database says, or that the tables cannot hold a change.
pub fn write<S: Alter>(conn: &mut Connection<S>, changes: &[RowChange]) -> Result<(), Error>
    requires { conn.old.in_transaction ≡ false }
    ensures mode { conn.new.in_transaction ≡ false }
    ensures was_open { HasCleanDisk (state S.Store conn.new) → IsTrue (state S.Store conn.new).is_open → IsTrue (state S.Store conn.old).is_open }
    ensures written { HasCleanDisk (state S.Store conn.new) → IsTrue (state S.Store conn.old).is_open → Serves (state S.Store conn.old).now
        → OnOk result (Serves (state S.Store conn.new).now × IsTrue (state S.Store conn.new).is_open × ((state S.Store conn.new).committed ≡ (state S.Store conn.new).now)
        × Holds (changed_all (stored_in (state S.Store conn.old).now.trees) changes.now) (state S.Store conn.old).now.trees (state S.Store conn.new).now.trees) }
    // Where each row by itself is one of a store's, it stays so.
    ensures own { HasCleanDisk (state S.Store conn.new) → IsTrue (state S.Store conn.old).is_open → Serves (state S.Store conn.old).now
        → OnOk result (HasOwnRows (state S.Store conn.old).now.trees → HasOwnRows (state S.Store conn.new).now.trees) }
    ensures refused { HasCleanDisk (state S.Store conn.new) → IsTrue (state S.Store conn.old).is_open → Serves (state S.Store conn.old).now → IsTrue (state S.Store conn.new).is_open
        → OnErr result (((state S.Store conn.new).now ≡ (state S.Store conn.old).committed) × ((state S.Store conn.new).committed ≡ (state S.Store conn.old).committed)) }
    ensures survives { Survives (state S.Store conn.old) (state S.Store conn.new)
        (λ db. IsTrue (state S.Store conn.old).is_open → Serves (state S.Store conn.old).now → HasChanges changes.now (state S.Store conn.old).now.trees db) }
    ensures durable { HasCleanDisk (state S.Store conn.new) → IsTrue (state S.Store conn.old).is_open → Serves (state S.Store conn.old).now
        → OnOk result ((db : Trees) → (state S.Store conn.new).may_leave db → HasChanges changes.now (state S.Store conn.old).now.trees db) }
{
    let mut tx = conn.transaction();
    walk(&mut tx, changes)?;
    tx.commit()
}
