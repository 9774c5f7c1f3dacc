//! Which version's tables a database has.

ghost use Rattle.std.specs.Prelude.{◌≡◌, ◌<◌, ◌≤◌, ◌+◌, ◌⊎◌, Some, IsTrue, IfOk, IfErr};
ghost use Rattle.jm_tables.specs.Valid.{greatest_opening};
ghost use Rattle.jm_tables.specs.Schema as tables;
ghost use Rattle.jm_tables.specs.Schema.{no_schema, schema_1_bare, schema_1};
ghost use Rattle.jm_opening.specs.declared.judged.OpenFault.TheVariants.{Memory, Store};
ghost use Rattle.jm_opening.specs.Judged.{version_number};
ghost use Rattle.jm_opening.specs.Opened.{opening_of, schema_of, version_of};

use crate::found::Found;
use crate::judged::{LastOpening, OpenFault};
use crate::memory::{bare, current, indexed};
use jm_schema::same_schema;
use sqlite::{Error, ErrorCode};
use sqlite_schema::schema::Schema;
use std::alloc::{AllocError, Global};

impl From<Error> for OpenFault {
    ghost use Rattle.std.specs.Prelude.{◌≡◌, ◌⊎◌};
    ghost use Rattle.jm_opening.specs.declared.judged.OpenFault.TheVariants.{Memory, Store};

    ghost from_gives = { λ _ fault. (fault ≡ Memory) ⊎ (fault ≡ Store) };

    fn from(error: Error) -> OpenFault {
        match error {
            Error::SqliteFailure(ErrorCode::OutOfMemory) => OpenFault::Memory,
            _ => OpenFault::Store,
        }
    }
}

impl From<AllocError> for OpenFault {
    ghost use Rattle.std.specs.Prelude.{◌≡◌};
    ghost use Rattle.jm_opening.specs.declared.judged.OpenFault.TheVariants.{Memory};

    ghost from_gives = { λ _ fault. fault ≡ Memory };

    fn from(_: AllocError) -> OpenFault {
        OpenFault::Memory
    }
}

/// Whether nothing stands in the database.
pub(crate) fn is_blank(schema: &Schema) -> bool
    ensures { IsTrue result → schema.now ≡ no_schema }
{
    schema.tables.is_empty() && schema.indexes.is_empty() && schema.views.is_empty()
}

/// Whether the tables are those of version 1, without the index.
fn is_bare(alloc: Global, schema: &Schema) -> Result<bool, Error>
    ensures { IfOk result (λ is. IsTrue is → schema.now ≡ schema_1_bare) }
{
    let conn = bare(alloc)?;
    Ok(same_schema(schema, conn.schema()))
}

/// Whether they are those of version 1 and the index.
fn is_indexed(alloc: Global, schema: &Schema) -> Result<bool, Error>
    ensures { IfOk result (λ is. IsTrue is → schema.now ≡ schema_1) }
{
    let conn = indexed(alloc)?;
    Ok(same_schema(schema, conn.schema()))
}

/// Whether they are those of version 2.
fn is_current(alloc: Global, schema: &Schema) -> Result<bool, Error>
    ensures { IfOk result (λ is. IsTrue is → schema.now ≡ tables.schema) }
{
    let conn = current(alloc)?;
    Ok(same_schema(schema, conn.schema()))
}

/// How a database is found that has these tables, and whose last opening was that one. Tables that are not those of its version
/// are told as Store.
pub(crate) fn of_version(
    alloc: Global,
    schema: &Schema,
    last: LastOpening,
) -> Result<Found, OpenFault>
    requires { last.opening < greatest_opening }
    ensures schema { IfOk result (λ found. schema.now ≡ schema_of found) }
    ensures version { IfOk result (λ found. version_of found ≡ Some (version_number last.is_current)) }
    ensures opening { IfOk result (λ found. opening_of found ≡ last.opening + 1) }
    ensures number { IfOk result (λ found. 1 ≤ opening_of found) }
    ensures err { IfErr result (λ fault. (fault ≡ Memory) ⊎ (fault ≡ Store)) }
{
    let opening = last.opening + 1;
    if last.is_current {
        if is_current(alloc, schema)? {
            return Ok(Found::Current(opening));
        }
    } else if is_indexed(alloc, schema)? {
        return Ok(Found::Indexed(opening));
    } else if is_bare(alloc, schema)? {
        return Ok(Found::Bare(opening));
    }
    Err(OpenFault::Store)
}
