ghost use Rattle.std.specs.Prelude.{◌≡◌, string_bytes, IfOk};
ghost use Rattle.serde_json.specs.View.{view, items_view};
ghost use Rattle.jm_scenario.specs.Key as spec;
ghost use Rattle.jm_fields.specs.Values as values;

use jm_base::Refusal;
use jm_dest::{ClientId, Key, SubscriptionName};
use jm_fields::{consumer_of, session_of};
use serde_json::{Category, Value};
use std::alloc::{AllocError, Global};

/// The key of the consumer of those three numbers.
fn own(numbers: &[Value]) -> Option<Key>
    ensures { result ≡ spec.own_of_items (items_view numbers.now) }
{
    if numbers.len() != 3 {
        return None;
    }
    let session = session_of(&numbers[0], &numbers[1]).ok()?;
    let consumer = consumer_of(&numbers[2]).ok()?;
    Some(Key::Own(session, consumer))
}

/// The client identifier of that value. `AllocError` where a request for memory was refused.
fn client(alloc: Global, value: &Value) -> Result<Option<ClientId>, AllocError>
    ensures { IfOk result (λ client. client ≡ values.name (view value.now)) }
{
    let Some(text) = value.as_str() else {
        return Ok(None);
    };
    match ClientId::new(alloc, text) {
        Ok(client) => Ok(Some(client)),
        Err(Refusal::Memory) => Err(AllocError),
        Err(_) => Ok(None),
    }
}

/// The subscription's name of that value. `AllocError` where a request for memory was refused.
fn subscription(alloc: Global, value: &Value) -> Result<Option<SubscriptionName>, AllocError>
    ensures { IfOk result (λ name. name ≡ values.name (view value.now)) }
{
    let Some(text) = value.as_str() else {
        return Ok(None);
    };
    match SubscriptionName::new(alloc, text) {
        Ok(name) => Ok(Some(name)),
        Err(Refusal::Memory) => Err(AllocError),
        Err(_) => Ok(None),
    }
}

/// The key of the durable subscription of those two names. `AllocError` where a request for memory
/// was refused.
fn durable(alloc: Global, names: &[Value]) -> Result<Option<Key>, AllocError>
    ensures { IfOk result (λ key. key ≡ spec.durable_of_items (items_view names.now)) }
{
    if names.len() != 2 {
        return Ok(None);
    }
    let client = client(alloc, &names[0])?;
    let name = subscription(alloc, &names[1])?;
    match (client, name) {
        (Some(client), Some(name)) => Ok(Some(Key::Durable(Some(client), name))),
        _ => Ok(None),
    }
}

/// The key of that field. `AllocError` where a request for memory was refused.
fn key_in(alloc: Global, field: &str, items: &[Value]) -> Result<Option<Key>, AllocError>
    ensures { IfOk result (λ key. key ≡ spec.key_of_items field.now (items_view items.now)) }
{
    match field {
        "own" => Ok(own(items)),
        "durable" => durable(alloc, items),
        _ => Ok(None),
    }
}

/// The key of the object, whose field stands alone. `AllocError` where a request for memory was
/// refused.
fn key(alloc: Global, value: &Value) -> Result<Option<Key>, AllocError>
    ensures { IfOk result (λ key. key ≡ spec.key (view value.now)) }
{
    let Some(members) = value.as_object() else {
        return Ok(None);
    };
    if members.len() != 1 {
        return Ok(None);
    }
    let Some((field, value)) = members.first_key_value() else {
        return Ok(None);
    };
    match value.as_array() {
        Some(items) => key_in(alloc, field.as_str(), items.as_slice()),
        None => Ok(None),
    }
}

/// The key that the JSON text spells: `{"own": [connection, session, consumer]}`, or
/// `{"durable": [client, name]}`; or none. Numbers are 1 to 4,294,967,295, names have 1 to 255 bytes
/// without control characters, and another field stands in no key (ours). `AllocError` where a
/// request for memory was refused.
pub fn read_key(alloc: Global, text: &str) -> Result<Option<Key>, AllocError>
    ensures { IfOk result (λ key. key ≡ spec.key_of_text text.now) }
{
    match Value::from_str(alloc, text) {
        Ok(value) => key(alloc, &value),
        Err(error) => match error.classify() {
            Category::Memory => Err(AllocError),
            _ => Ok(None),
        },
    }
}
