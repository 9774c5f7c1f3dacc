//! The columns of a key, in a row of station or of held.

ghost use Rattle.std.specs.Prelude.{◌≡◌, true, IsTrue, IfOk, IfErr, OnOk};
ghost use Rattle.std.specs.Str.{is_utf8};
ghost use Rattle.jm_decoding.specs.Decoded.{IsFaultOfRow};
ghost use Rattle.jm_decoding.specs.Readable.{IsReadableKey, is_key_in};
ghost use Rattle.jm_tables.specs.Keys as spec;
ghost use Rattle.jm_tables.specs.Valid.{is_stored_client};

use crate::columns::{number_at, text_at};
use crate::fault::RowFault;
use jm_dest::{ClientId, Key, Name, SubscriptionName};
use sqlite::Row;
use std::alloc::Global;

/// The client for which a text stands: none where it is empty. `Damaged` where it is neither empty nor a name, else `Memory`
/// where a request for memory was refused.
fn client_in(alloc: Global, text: &str) -> Result<Option<ClientId>, RowFault>
    requires { IsTrue (is_utf8 text.now) }
    ensures ok { IfOk result (λ client. client ≡ spec.client_in text.now) }
    ensures valid { OnOk result (is_stored_client text.now ≡ true) }
    ensures err { IfErr result (IsFaultOfRow (is_stored_client text.now ≡ true)) }
{
    if text.is_empty() {
        return Ok(None);
    }
    Ok(Some(ClientId::new(alloc, text)?))
}

/// The key for which a family, a client and a name stand: family 1 is a queue, and family 2 a durable subscription. `Damaged`
/// where they are no key of a row of station; `Memory` where a request for memory was refused.
fn key_in(alloc: Global, family: i64, client: &str, name: &str) -> Result<Key, RowFault>
    requires client { IsTrue (is_utf8 client.now) }
    requires name { IsTrue (is_utf8 name.now) }
    ensures ok { IfOk result (λ key. spec.key_in family client.now name.now ≡ Some key) }
    ensures valid { OnOk result (is_key_in family client.now name.now ≡ true) }
    ensures err { IfErr result (IsFaultOfRow (is_key_in family client.now name.now ≡ true)) }
{
    match family {
        1 if client.is_empty() => Ok(Key::Queue(Name::new(alloc, name)?)),
        2 => {
            let client = client_in(alloc, client)?;
            Ok(Key::Durable(client, SubscriptionName::new(alloc, name)?))
        }
        _ => Err(RowFault::Damaged),
    }
}

/// The key of the row: its family, client and name at 1, 2 and 3. `Damaged` where one of them is not of its kind, or they are no
/// key of a row of station; `Memory` where a request for memory was refused.
#[tactic(auto, using(crate::proofs::Keys::columns_fault, crate::proofs::Keys::readable_client, crate::proofs::Keys::readable_name))]
pub(crate) fn key_of(alloc: Global, row: &Row) -> Result<Key, RowFault>
    ensures ok { IfOk result (λ key. spec.key_of row.now ≡ Some key) }
    ensures readable { OnOk result (IsReadableKey row.now) }
    ensures err { IfErr result (IsFaultOfRow (IsReadableKey row.now)) }
{
    let family = number_at(row, 1)?;
    let client = text_at(row, 2)?;
    let name = text_at(row, 3)?;
    key_in(alloc, family, client, name)
}
