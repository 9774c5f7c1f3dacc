//! What stands in the columns of rows.

ghost use Rattle.std.specs.Prelude.{◌≡◌, ◌≤◌, pos, Some, None, IfOk, IfErr, OnErr, FitsSigned};
ghost use Rattle.std.specs.Int.{w64};
ghost use Rattle.std.specs.List.{list_all};
ghost use Rattle.jm_dest.specs.Names as names;
ghost use Rattle.jm_dest.specs.Numbers.{long_end};
ghost use Rattle.jm_tables.specs.Rows.{selector_in};
ghost use Rattle.jm_writes.specs.Columns as spec;

use jm_dest::{ClientId, Key};
use jm_machine::Definition;
use jm_selector::Selector;
use sqlite::{Error, ErrorCode};

/// Of a change that the tables cannot hold: it speaks of a key that is neither a queue's nor a durable subscription's, of a
/// place or a moment past 2^63-1, of a count past the greatest, or of a queue that asks for something, or of a subscription
/// that asks for nothing or may not stand.
pub const NOT_STORED: Error = Error::SqliteFailure(ErrorCode::TypeMismatch);

fn durable_family(client: &Option<ClientId>) -> Option<i64>
    ensures { result ≡ spec.durable_family client.now }
{
    match client {
        Some(client) if client.as_str().is_empty() => None,
        _ => Some(2),
    }
}

/// The family of the key: 1 of a queue, 2 of a durable subscription, and none of another key.
fn family_of(key: &Key) -> Option<i64>
    ensures { result ≡ spec.family_of key.now }
{
    match key {
        Key::Queue(_) => Some(1),
        Key::Durable(client, _) => durable_family(client),
        Key::Own(_, _) | Key::SharedOwn(_, _) => None,
    }
}

/// The family of the key. `NOT_STORED` where it has none.
pub fn stored_family(key: &Key) -> Result<i64, Error>
    ensures ok { IfOk result (λ family. spec.family_of key.now ≡ Some family) }
    ensures refused { OnErr result (spec.family_of key.now ≡ None) }
    ensures err { IfErr result (λ error. error ≡ spec.not_stored) }
{
    match family_of(key) {
        Some(family) => Ok(family),
        None => Err(NOT_STORED),
    }
}

fn text_of(client: &Option<ClientId>) -> &str
    ensures { result.now ≡ spec.text_of client.now }
{
    match client {
        None => "",
        Some(client) => client.as_str(),
    }
}

/// The client of the key, and an empty text where it has none.
pub fn client_of(key: &Key) -> &str
    ensures { result.now ≡ spec.client_of key.now }
{
    match key {
        Key::Queue(_) | Key::Own(_, _) => "",
        Key::SharedOwn(client, _) | Key::Durable(client, _) => text_of(client),
    }
}

/// The name of the key, and an empty text where it has none.
pub fn name_of(key: &Key) -> &str
    ensures { result.now ≡ spec.name_of key.now }
{
    match key {
        Key::Queue(name) => name.as_str(),
        Key::Own(_, _) => "",
        Key::SharedOwn(_, name) | Key::Durable(_, name) => name.as_str(),
    }
}

/// The number as a column holds it. `NOT_STORED` where it is past 2^63-1.
pub fn integer(number: u64) -> Result<i64, Error>
    ensures value { IfOk result (λ integer. integer ≡ pos number) }
    ensures fits { IfOk result (FitsSigned w64) }
    ensures refused { OnErr result (long_end ≤ number) }
    ensures err { IfErr result (λ error. error ≡ spec.not_stored) }
{
    match i64::try_from(number) {
        Ok(integer) => Ok(integer),
        Err(_) => Err(NOT_STORED),
    }
}

/// The text of the selector, and an empty text where there is none.
#[tactic(auto, using(crate::proofs::Empty::empty_none))]
pub fn selector_of(selector: &Selector) -> &str
    ensures { selector_in result.now ≡ selector.now }
{
    match selector.text() {
        Some(text) => text,
        None => "",
    }
}

fn are_name_bytes(bytes: &[u8]) -> bool
    ensures { result ≡ list_all names.is_name_byte bytes.now }
{
    bytes.iter().all(|byte| *byte >= 0x20 && *byte != 0x7f)
}

fn is_name(text: &str) -> bool
    ensures { result ≡ names.is_name text.now }
{
    !text.is_empty() && text.len() <= 255 && are_name_bytes(text.as_bytes())
}

fn may_have(client: &str, definition: &Definition) -> bool
    ensures { result ≡ spec.may_have client.now definition.now.shared definition.now.no_local }
{
    if client.is_empty() {
        definition.shared && !definition.no_local
    } else {
        is_name(client) && !(definition.shared && definition.no_local)
    }
}

/// Whether a durable subscription of that key may ask for that: its client and its name are names, one of no client is shared,
/// and one that is shared has no noLocal.
pub fn may_stand(key: &Key, definition: &Definition) -> bool
    ensures { result ≡ spec.may_stand (spec.client_of key.now) (spec.name_of key.now) definition.now.shared definition.now.no_local }
{
    is_name(name_of(key)) && may_have(client_of(key), definition)
}
