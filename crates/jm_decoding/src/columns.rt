//! The columns of a row, each of the kind that the schema says.

ghost use Rattle.std.specs.Prelude.{◌≡◌, ◌≢◌, ◌<◌, pos, IsTrue, IfOk, IfErr};
ghost use Rattle.std.specs.Str.{is_utf8};
ghost use Rattle.jm_dest.specs.Numbers.{long_end};
ghost use Rattle.jm_decoding.specs.declared.fault.RowFault.TheVariants.{Damaged};
ghost use Rattle.sqlite.specs.Kind.TheVariants.{Integer, Blob};
ghost use Rattle.sqlite_schema.specs.Rules.{kind_of};
ghost use Rattle.sqlite_value.specs.declared.value.Value.TheVariants as value;
ghost use Rattle.sqlite_value.specs.Order.{column};
ghost use Rattle.jm_decoding.specs.Readable.{IsNaturalIn, IsTextIn};

use crate::fault::RowFault;
use sqlite::Row;
use sqlite::types::ValueRef;

/// The whole number in the column. `Damaged` exactly where it is none. Takes no memory.
pub(crate) fn number_at(row: &Row, at: usize) -> Result<i64, RowFault>
    ensures ok { IfOk result (λ number. column row.now at ≡ value.Int number) }
    ensures err { IfErr result (λ fault. (fault ≡ Damaged) × (kind_of (column row.now at) ≢ Integer)) }
{
    match row.get_ref(at) {
        Ok(ValueRef::Int(number)) => Ok(number),
        _ => Err(RowFault::Damaged),
    }
}

/// The whole number in the column, which is not negative. `Damaged` exactly where it is none. Takes no memory.
pub(crate) fn natural_at(row: &Row, at: usize) -> Result<u64, RowFault>
    ensures ok { IfOk result (λ number. column row.now at ≡ value.Int (pos number)) }
    ensures below { IfOk result (λ number. number < long_end) }
    ensures err { IfErr result (λ fault. (fault ≡ Damaged) × ¬ IsNaturalIn (column row.now at)) }
{
    match u64::try_from(number_at(row, at)?) {
        Ok(number) => Ok(number),
        Err(_) => Err(RowFault::Damaged),
    }
}

/// The text in the column. `Damaged` exactly where it is none, or is not UTF-8. Takes no memory.
pub(crate) fn text_at(row: &Row, at: usize) -> Result<&str, RowFault>
    ensures ok { IfOk result (λ text. column row.now at ≡ value.Text text.now) }
    ensures utf8 { IfOk result (λ text. IsTrue (is_utf8 text.now)) }
    ensures err { IfErr result (λ fault. (fault ≡ Damaged) × ¬ IsTextIn (column row.now at)) }
{
    let Ok(ValueRef::Text(bytes)) = row.get_ref(at) else {
        return Err(RowFault::Damaged);
    };
    match std::str::from_utf8(bytes) {
        Ok(text) => Ok(text),
        Err(_) => Err(RowFault::Damaged),
    }
}

/// The bytes in the column. `Damaged` exactly where it has none. Takes no memory.
pub(crate) fn bytes_at(row: &Row, at: usize) -> Result<&[u8], RowFault>
    ensures ok { IfOk result (λ bytes. column row.now at ≡ value.Blob bytes.now) }
    ensures err { IfErr result (λ fault. (fault ≡ Damaged) × (kind_of (column row.now at) ≢ Blob)) }
{
    match row.get_ref(at) {
        Ok(ValueRef::Blob(bytes)) => Ok(bytes),
        _ => Err(RowFault::Damaged),
    }
}
