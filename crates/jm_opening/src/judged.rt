//! The table of the version and of the opening, as a database has it.

ghost use Rattle.std.specs.Prelude.{◌≡◌, ◌⊎◌, false, [], ◌∷◌, IsTrue, OnOk, IfOk, IfErr};
ghost use Rattle.jm_opening.specs.declared.judged.OpenFault.TheVariants.{Damaged, Memory};
ghost use Rattle.jm_opening.specs.declared.judged.TableName.TheVariants.{Meta};
ghost use Rattle.jm_opening.specs.Judged.{HasKey, HasNoKey, IsFault, IsFaultOfOnly, IsFaultOfRow, IsLast, IsNoNumberAt, IsNumberAt};

use sqlite::{Error, ErrorCode, Row};

/// A table of the store.
#[derive(Clone, Copy, Debug, PartialEq)]
pub enum TableName {
    Meta,
    Station,
    Message,
    Held,
    Delayed,
}

/// Why a database is not opened.
#[derive(Clone, Copy, Debug, PartialEq)]
pub enum OpenFault {
    /// The row of that table with that number, from 0, is none of a store: the first that fails.
    Damaged(TableName, u64),
    /// The tables are of a version other than 1 and 2.
    WrongVersion(i64),
    /// The number of the last opening is the greatest, 4,294,967,295.
    Exhausted,
    /// A request for memory was refused.
    Memory,
    /// The database refused a statement, or its tables are not those of its version.
    Store,
}

/// What the row of meta says of the opening before.
#[derive(Clone, Copy, Debug, PartialEq)]
pub struct LastOpening {
    /// Whether the tables are of version 2, and not of version 1.
    pub is_current: bool,
    /// Its number, from 1 to 4,294,967,294.
    pub opening: u32,
}

/// A whole number of the row.
fn number_at(row: &Row, at: usize) -> Result<i64, OpenFault>
    ensures ok { IfOk result (λ n. IsNumberAt row.now at n) }
    ensures err { IfErr result (λ fault. IsNoNumberAt row.now at fault) }
{
    match row.get(at) {
        Ok(number) => Ok(number),
        Err(Error::SqliteFailure(ErrorCode::OutOfMemory)) => Err(OpenFault::Memory),
        Err(_) => Err(OpenFault::Damaged(TableName::Meta, 0)),
    }
}

/// What the only row says.
fn judge_row(row: &Row) -> Result<LastOpening, OpenFault>
    ensures ok { IfOk result (IsLast row.now) }
    ensures err { IfErr result (IsFaultOfRow row.now) }
{
    let version = number_at(row, 1)?;
    if version != 1 && version != 2 {
        return Err(OpenFault::WrongVersion(version));
    }
    let last = number_at(row, 2)?;
    match u32::try_from(last) {
        Ok(0) | Err(_) => Err(OpenFault::Damaged(TableName::Meta, 0)),
        Ok(u32::MAX) => Err(OpenFault::Exhausted),
        Ok(opening) => Ok(LastOpening {
            is_current: version == 2,
            opening,
        }),
    }
}

/// Whether the key of the row is 1.
fn has_key(row: &Row) -> Result<bool, OpenFault>
    ensures yes { IfOk result (λ has. IsTrue has → HasKey row.now) }
    ensures no { IfOk result (λ has. has ≡ false → HasNoKey row.now) }
    ensures err { IfErr result (λ fault. (fault ≡ Memory) ⊎ ((fault ≡ Damaged Meta 0) × HasNoKey row.now)) }
{
    Ok(number_at(row, 0)? == 1)
}

/// What the only row says, whose key is 1.
fn judge_only(row: &Row) -> Result<LastOpening, OpenFault>
    ensures ok { IfOk result (IsLast row.now) }
    ensures key { OnOk result (HasKey row.now) }
    ensures err { IfErr result (IsFaultOfOnly row.now) }
{
    let last = judge_row(row)?;
    if !has_key(row)? {
        return Err(OpenFault::Damaged(TableName::Meta, 0));
    }
    Ok(last)
}

/// What the rows of meta, as `SELECT id, version, opening FROM meta` shows them, say of the opening before. There is one row,
/// or the first that there should not be is damaged: number 0 where there is none, number 1 where there are more. Then its
/// version is 1 or 2, else it is a wrong one; then the number of the opening is from 1 to 4,294,967,295, else the row is
/// damaged; the greatest is exhausted; then the key of the row is 1, else it is damaged (ours).
pub fn judge(rows: &[Row]) -> Result<LastOpening, OpenFault>
    ensures ok { IfOk result (λ last. (row : _) × (rows.now ≡ row ∷ []) × IsLast row last × HasKey row) }
    ensures err { IfErr result (IsFault rows.now) }
{
    match rows.len() {
        0 => Err(OpenFault::Damaged(TableName::Meta, 0)),
        1 => judge_only(&rows[0]),
        _ => Err(OpenFault::Damaged(TableName::Meta, 1)),
    }
}
