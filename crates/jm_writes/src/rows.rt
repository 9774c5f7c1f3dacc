//! One statement for each kind of change. Each says what it makes of what is stored, where the transaction serves and the disk
//! is clean at the end; in all cases it commits nothing, and only `NOT_STORED` and what the database says is an error.

ghost use Rattle.std.specs.Prelude.{◌≡◌, None, Some, Ok, IfOk, OnOk};
ghost use Rattle.jm_dest.specs.declared.key.Key.TheVariants.{Queue};
ghost use Rattle.sqlite.specs.Held.{state};
ghost use Rattle.sqlite.specs.State.{ExecutesInside, HasCleanDisk, KeepsCommit, Survives};
ghost use Rattle.sqlite.specs.Values.{bound};
ghost use Rattle.jm_tables.specs.Sound.{Serves};
ghost use Rattle.jm_writes.specs.Steps.{Steps};

use crate::columns::{
    NOT_STORED, client_of, integer, may_stand, name_of, selector_of, stored_family,
};
use jm_base::List;
use jm_dest::{Key, Moment, Name};
use jm_keep::RowChange;
use jm_machine::Definition;
use sqlite::{Alter, Error, Transaction, params};
use sqlite_value::value::ValueRef;

/// The greatest count of deliveries.
const GREATEST_COUNT: u32 = 2_147_483_647;

/// Runs a statement of the transaction.
fn run<S: Alter>(
    tx: &mut Transaction<'_, S>,
    sql: &str,
    params: &[ValueRef<'_>],
) -> Result<usize, Error>
    ensures same { tx.new.conn.ghost_name ≡ tx.old.conn.ghost_name }
    ensures runs { HasCleanDisk (state S.Store tx.new.conn.now) → IfOk result (λ count. ExecutesInside 0 sql.now (bound params.now) (state S.Store tx.old.conn.now) (state S.Store tx.new.conn.now) (Ok count)) }
    ensures kept { HasCleanDisk (state S.Store tx.new.conn.now) → KeepsCommit (state S.Store tx.old.conn.now) (state S.Store tx.new.conn.now) }
    ensures survives { Survives (state S.Store tx.old.conn.now) (state S.Store tx.new.conn.now) (λ _. ⊥) }
{
    tx.execute(sql, params)
}

/// The row of the key at the place goes.
pub fn drop_held<S: Alter>(
    tx: &mut Transaction<'_, S>,
    key: &Key,
    place: u64,
) -> Result<usize, Error>
    ensures same { tx.new.conn.ghost_name ≡ tx.old.conn.ghost_name }
    ensures done { HasCleanDisk (state S.Store tx.new.conn.now) → Serves (state S.Store tx.old.conn.now).now → OnOk result (Steps (state S.Store tx.old.conn.now) (state S.Store tx.new.conn.now) (RowChange.DropHeld key.now place)) }
    ensures kept { HasCleanDisk (state S.Store tx.new.conn.now) → KeepsCommit (state S.Store tx.old.conn.now) (state S.Store tx.new.conn.now) }
    ensures survives { Survives (state S.Store tx.old.conn.now) (state S.Store tx.new.conn.now) (λ _. ⊥) }
{
    let family = stored_family(key)?;
    let place = integer(place)?;
    run(
        tx,
        "DELETE FROM held WHERE family = ?1 AND client = ?2 AND name = ?3 AND place = ?4",
        params![family, client_of(key), name_of(key), place],
    )
}

/// The message at the place goes.
pub fn drop_message<S: Alter>(tx: &mut Transaction<'_, S>, place: u64) -> Result<usize, Error>
    ensures same { tx.new.conn.ghost_name ≡ tx.old.conn.ghost_name }
    ensures done { HasCleanDisk (state S.Store tx.new.conn.now) → Serves (state S.Store tx.old.conn.now).now → OnOk result (Steps (state S.Store tx.old.conn.now) (state S.Store tx.new.conn.now) (RowChange.DropMessage place)) }
    ensures kept { HasCleanDisk (state S.Store tx.new.conn.now) → KeepsCommit (state S.Store tx.old.conn.now) (state S.Store tx.new.conn.now) }
    ensures survives { Survives (state S.Store tx.old.conn.now) (state S.Store tx.new.conn.now) (λ _. ⊥) }
{
    let place = integer(place)?;
    run(tx, "DELETE FROM message WHERE place = ?1", params![place])
}

/// The station of the key goes.
pub fn drop_station<S: Alter>(tx: &mut Transaction<'_, S>, key: &Key) -> Result<usize, Error>
    ensures same { tx.new.conn.ghost_name ≡ tx.old.conn.ghost_name }
    ensures done { HasCleanDisk (state S.Store tx.new.conn.now) → Serves (state S.Store tx.old.conn.now).now → OnOk result (Steps (state S.Store tx.old.conn.now) (state S.Store tx.new.conn.now) (RowChange.DropStation key.now)) }
    ensures kept { HasCleanDisk (state S.Store tx.new.conn.now) → KeepsCommit (state S.Store tx.old.conn.now) (state S.Store tx.new.conn.now) }
    ensures survives { Survives (state S.Store tx.old.conn.now) (state S.Store tx.new.conn.now) (λ _. ⊥) }
{
    let family = stored_family(key)?;
    run(
        tx,
        "DELETE FROM station WHERE family = ?1 AND client = ?2 AND name = ?3",
        params![family, client_of(key), name_of(key)],
    )
}

/// The delivery time of the message at the place goes.
pub fn drop_delay<S: Alter>(tx: &mut Transaction<'_, S>, place: u64) -> Result<usize, Error>
    ensures same { tx.new.conn.ghost_name ≡ tx.old.conn.ghost_name }
    ensures done { HasCleanDisk (state S.Store tx.new.conn.now) → Serves (state S.Store tx.old.conn.now).now → OnOk result (Steps (state S.Store tx.old.conn.now) (state S.Store tx.new.conn.now) (RowChange.DropDelay place)) }
    ensures kept { HasCleanDisk (state S.Store tx.new.conn.now) → KeepsCommit (state S.Store tx.old.conn.now) (state S.Store tx.new.conn.now) }
    ensures survives { Survives (state S.Store tx.old.conn.now) (state S.Store tx.new.conn.now) (λ _. ⊥) }
{
    let place = integer(place)?;
    run(tx, "DELETE FROM delayed WHERE place = ?1", params![place])
}

/// The station of a queue comes, where it does not stand yet.
pub fn put_queue<S: Alter>(tx: &mut Transaction<'_, S>, name: &Name) -> Result<usize, Error>
    ensures same { tx.new.conn.ghost_name ≡ tx.old.conn.ghost_name }
    ensures done { HasCleanDisk (state S.Store tx.new.conn.now) → Serves (state S.Store tx.old.conn.now).now → OnOk result (Steps (state S.Store tx.old.conn.now) (state S.Store tx.new.conn.now) (RowChange.PutStation (Queue name.now) None)) }
    ensures kept { HasCleanDisk (state S.Store tx.new.conn.now) → KeepsCommit (state S.Store tx.old.conn.now) (state S.Store tx.new.conn.now) }
    ensures survives { Survives (state S.Store tx.old.conn.now) (state S.Store tx.new.conn.now) (λ _. ⊥) }
{
    run(
        tx,
        "INSERT INTO station (family, client, name, shared, topic, selector, no_local) VALUES (1, '', ?1, 0, '', '', 0) ON CONFLICT (family, client, name) DO NOTHING",
        params![name.as_str()],
    )
}

/// The durable subscription of the key comes, with what it asks for, where it may stand.
pub fn put_subscription<S: Alter>(
    tx: &mut Transaction<'_, S>,
    key: &Key,
    definition: &Definition,
) -> Result<usize, Error>
    ensures same { tx.new.conn.ghost_name ≡ tx.old.conn.ghost_name }
    ensures done { HasCleanDisk (state S.Store tx.new.conn.now) → Serves (state S.Store tx.old.conn.now).now → OnOk result (Steps (state S.Store tx.old.conn.now) (state S.Store tx.new.conn.now) (RowChange.PutStation key.now (Some definition.now))) }
    ensures kept { HasCleanDisk (state S.Store tx.new.conn.now) → KeepsCommit (state S.Store tx.old.conn.now) (state S.Store tx.new.conn.now) }
    ensures survives { Survives (state S.Store tx.old.conn.now) (state S.Store tx.new.conn.now) (λ _. ⊥) }
{
    if stored_family(key)? != 2 {
        return Err(NOT_STORED);
    }
    if !may_stand(key, definition) {
        return Err(NOT_STORED);
    }
    run(
        tx,
        "INSERT INTO station (family, client, name, shared, topic, selector, no_local) VALUES (2, ?1, ?2, ?3, ?4, ?5, ?6)",
        params![
            client_of(key),
            name_of(key),
            definition.shared,
            definition.topic.as_str(),
            selector_of(&definition.selector),
            definition.no_local
        ],
    )
}

/// The message at the place comes: its record.
pub fn put_message<S: Alter>(
    tx: &mut Transaction<'_, S>,
    place: u64,
    bytes: &List<u8>,
) -> Result<usize, Error>
    ensures same { tx.new.conn.ghost_name ≡ tx.old.conn.ghost_name }
    ensures done { HasCleanDisk (state S.Store tx.new.conn.now) → Serves (state S.Store tx.old.conn.now).now → OnOk result (Steps (state S.Store tx.old.conn.now) (state S.Store tx.new.conn.now) (RowChange.PutMessage place bytes.now)) }
    ensures kept { HasCleanDisk (state S.Store tx.new.conn.now) → KeepsCommit (state S.Store tx.old.conn.now) (state S.Store tx.new.conn.now) }
    ensures survives { Survives (state S.Store tx.old.conn.now) (state S.Store tx.new.conn.now) (λ _. ⊥) }
{
    let place = integer(place)?;
    run(
        tx,
        "INSERT INTO message (place, record) VALUES (?1, ?2)",
        params![place, bytes.as_slice()],
    )
}

/// The row of the key at the place comes, which was never delivered.
pub fn put_held<S: Alter>(
    tx: &mut Transaction<'_, S>,
    key: &Key,
    place: u64,
) -> Result<usize, Error>
    ensures same { tx.new.conn.ghost_name ≡ tx.old.conn.ghost_name }
    ensures done { HasCleanDisk (state S.Store tx.new.conn.now) → Serves (state S.Store tx.old.conn.now).now → OnOk result (Steps (state S.Store tx.old.conn.now) (state S.Store tx.new.conn.now) (RowChange.PutHeld key.now place)) }
    ensures kept { HasCleanDisk (state S.Store tx.new.conn.now) → KeepsCommit (state S.Store tx.old.conn.now) (state S.Store tx.new.conn.now) }
    ensures survives { Survives (state S.Store tx.old.conn.now) (state S.Store tx.new.conn.now) (λ _. ⊥) }
{
    let family = stored_family(key)?;
    let place = integer(place)?;
    run(
        tx,
        "INSERT INTO held (family, client, name, place, deliveries) VALUES (?1, ?2, ?3, ?4, 0)",
        params![family, client_of(key), name_of(key), place],
    )
}

/// The row of the key at the place was delivered so often, which is at most the greatest count.
pub fn set_count<S: Alter>(
    tx: &mut Transaction<'_, S>,
    key: &Key,
    place: u64,
    count: u32,
) -> Result<usize, Error>
    ensures same { tx.new.conn.ghost_name ≡ tx.old.conn.ghost_name }
    ensures done { HasCleanDisk (state S.Store tx.new.conn.now) → Serves (state S.Store tx.old.conn.now).now → OnOk result (Steps (state S.Store tx.old.conn.now) (state S.Store tx.new.conn.now) (RowChange.SetCount key.now place count)) }
    ensures kept { HasCleanDisk (state S.Store tx.new.conn.now) → KeepsCommit (state S.Store tx.old.conn.now) (state S.Store tx.new.conn.now) }
    ensures survives { Survives (state S.Store tx.old.conn.now) (state S.Store tx.new.conn.now) (λ _. ⊥) }
{
    if count > GREATEST_COUNT {
        return Err(NOT_STORED);
    }
    let family = stored_family(key)?;
    let place = integer(place)?;
    run(
        tx,
        "UPDATE held SET deliveries = ?5 WHERE family = ?1 AND client = ?2 AND name = ?3 AND place = ?4",
        params![family, client_of(key), name_of(key), place, count],
    )
}

/// The delivery time of the message at the place comes.
pub fn put_delay<S: Alter>(
    tx: &mut Transaction<'_, S>,
    place: u64,
    due: Moment,
) -> Result<usize, Error>
    ensures same { tx.new.conn.ghost_name ≡ tx.old.conn.ghost_name }
    ensures done { HasCleanDisk (state S.Store tx.new.conn.now) → Serves (state S.Store tx.old.conn.now).now → OnOk result (Steps (state S.Store tx.old.conn.now) (state S.Store tx.new.conn.now) (RowChange.PutDelay place due)) }
    ensures kept { HasCleanDisk (state S.Store tx.new.conn.now) → KeepsCommit (state S.Store tx.old.conn.now) (state S.Store tx.new.conn.now) }
    ensures survives { Survives (state S.Store tx.old.conn.now) (state S.Store tx.new.conn.now) (λ _. ⊥) }
{
    let place = integer(place)?;
    let due = integer(due.get())?;
    run(
        tx,
        "INSERT INTO delayed (place, due) VALUES (?1, ?2)",
        params![place, due],
    )
}
