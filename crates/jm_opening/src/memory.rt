//! Connections in memory that have the tables of a version, to compare with.

ghost use Rattle.std.specs.Prelude.{◌≡◌, false, IfOk};
ghost use Rattle.sqlite.specs.Held.{state};
ghost use Rattle.sqlite.specs.Steps.{over_memory};
ghost use Rattle.jm_tables.specs.Schema.{schema_1_bare, schema_1, schema};

use crate::found::Found;
use crate::statements::{make_index, make_tables};
use crate::written::write;
use sqlite::{Connection, Error};
use sqlite_trees::memory::MemStore;
use std::alloc::Global;

/// The tables of version 1, without the index of rows by place.
pub(crate) fn bare(alloc: Global) -> Result<Connection<MemStore>, Error>
    ensures mode { IfOk result (λ c. c.in_transaction ≡ false) }
    ensures schema { IfOk result (λ c. (state over_memory c).now.schema ≡ schema_1_bare) }
{
    let mut conn = Connection::open_in_memory(alloc)?;
    let mut tx = conn.transaction();
    make_tables(&mut tx)?;
    tx.commit()?;
    Ok(conn)
}

/// The tables of version 1 and the index.
pub(crate) fn indexed(alloc: Global) -> Result<Connection<MemStore>, Error>
    ensures schema { IfOk result (λ c. (state over_memory c).now.schema ≡ schema_1) }
{
    let mut conn = bare(alloc)?;
    let mut tx = conn.transaction();
    make_index(&mut tx)?;
    tx.commit()?;
    Ok(conn)
}

/// The tables of version 2.
pub(crate) fn current(alloc: Global) -> Result<Connection<MemStore>, Error>
    ensures schema { IfOk result (λ c. (state over_memory c).now.schema ≡ schema) }
{
    let mut conn = Connection::open_in_memory(alloc)?;
    write(&mut conn, Found::Blank)?;
    Ok(conn)
}
