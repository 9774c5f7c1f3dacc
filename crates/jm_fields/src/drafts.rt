ghost use Rattle.std.specs.Prelude.{◌≡◌, ◌≢◌, Some, None, MatchResult};
ghost use Rattle.std.specs.List.{list_all};
ghost use Rattle.serde_json.specs.View.{view, items_view};
ghost use Rattle.jm_fields.specs.Drafts as spec;
ghost use Rattle.jm_fields.specs.Reading.{Leaves, LeavesExactly, Makes, Reads, ReadsExactly};

use crate::field::Field;
use crate::misfit::Misfit;
use crate::value::{misfit, optional, optional_text, text};
use hex::FromHexError;
use jm_base::MessageFault;
use jm_header::{DeliveryMode, Draft};
use jm_property::Property;
use jm_shared::SharedStr;
use serde_json::Value;
use std::alloc::Global;

/// Sets the priority of the field `priority`, where it stands.
fn set_priority(object: &Value, draft: &mut Draft) -> Result<(), Misfit>
    ensures { LeavesExactly result draft.old draft.new (spec.with_priority (view object.now) draft.old) }
{
    let Some(value) = optional(object, Field::Priority) else {
        return Ok(());
    };
    match value.as_u64() {
        Some(priority) if priority <= 9 => match draft.set_priority(priority as u8) {
            Ok(()) => Ok(()),
            Err(_) => Err(Misfit::Shape(Field::Priority)),
        },
        _ => Err(misfit(value, Field::Priority)),
    }
}

/// Sets the delivery mode of the field `persistent`, where it stands.
fn set_persistence(object: &Value, draft: &mut Draft) -> Result<(), Misfit>
    ensures { LeavesExactly result draft.old draft.new (spec.with_persistence (view object.now) draft.old) }
{
    let Some(value) = optional(object, Field::Persistent) else {
        return Ok(());
    };
    match value.as_bool() {
        Some(true) => draft.set_mode(DeliveryMode::Persistent),
        Some(false) => draft.set_mode(DeliveryMode::NonPersistent),
        None => return Err(misfit(value, Field::Persistent)),
    }
    Ok(())
}

/// Sets the time to live of the field `ttl`, where it stands.
fn set_time_to_live(object: &Value, draft: &mut Draft) -> Result<(), Misfit>
    ensures { LeavesExactly result draft.old draft.new (spec.with_time_to_live (view object.now) draft.old) }
{
    let Some(value) = optional(object, Field::TimeToLive) else {
        return Ok(());
    };
    let Some(milliseconds) = value.as_i64() else {
        return Err(misfit(value, Field::TimeToLive));
    };
    match draft.set_time_to_live(milliseconds) {
        Ok(()) => Ok(()),
        Err(_) => Err(Misfit::Shape(Field::TimeToLive)),
    }
}

/// Sets the delivery delay of the field `delay`, where it stands.
fn set_delivery_delay(object: &Value, draft: &mut Draft) -> Result<(), Misfit>
    ensures { LeavesExactly result draft.old draft.new (spec.with_delivery_delay (view object.now) draft.old) }
{
    let Some(value) = optional(object, Field::DeliveryDelay) else {
        return Ok(());
    };
    let Some(milliseconds) = value.as_i64() else {
        return Err(misfit(value, Field::DeliveryDelay));
    };
    match draft.set_delivery_delay(milliseconds) {
        Ok(()) => Ok(()),
        Err(_) => Err(Misfit::Shape(Field::DeliveryDelay)),
    }
}

/// Sets JMSCorrelationID of the field `correlation`, where it stands. `Memory` where a request for
/// memory was refused.
fn set_correlation(object: &Value, draft: &mut Draft) -> Result<(), Misfit>
    ensures { Leaves result draft.old draft.new (spec.with_correlation (view object.now) draft.old) }
{
    let Some(correlation) = optional_text(object, Field::Correlation)? else {
        return Ok(());
    };
    match draft.set_correlation(correlation) {
        Ok(()) => Ok(()),
        Err(_) => Err(Misfit::Memory),
    }
}

/// Sets JMSType of the field `type`, where it stands. `Memory` where a request for memory was
/// refused.
fn set_type(object: &Value, draft: &mut Draft) -> Result<(), Misfit>
    ensures { Leaves result draft.old draft.new (spec.with_type (view object.now) draft.old) }
{
    let Some(message_type) = optional_text(object, Field::Type)? else {
        return Ok(());
    };
    match draft.set_type(message_type) {
        Ok(()) => Ok(()),
        Err(_) => Err(Misfit::Memory),
    }
}

fn has_no_capital(digits: &[u8]) -> bool
    ensures { result ≡ list_all spec.is_no_capital digits.now }
{
    digits
        .iter()
        .all(|digit| !(*digit >= b'A' && *digit <= b'Z'))
}

/// The bytes of the text: pairs of lower-case hexadecimal digits.
fn bytes_of(alloc: Global, pairs: &str) -> Result<Vec<u8>, Misfit>
    ensures { MatchResult result (λ bytes. spec.bytes_of pairs.now ≡ Some bytes.items) (λ misfit. misfit ≢ Misfit.Memory → spec.bytes_of pairs.now ≡ None) }
{
    if !has_no_capital(pairs.as_bytes()) {
        return Err(Misfit::Shape(Field::Bytes));
    }
    match hex::decode(alloc, pairs) {
        Ok(bytes) => Ok(bytes),
        Err(FromHexError::OutOfMemory) => Err(Misfit::Memory),
        Err(_) => Err(Misfit::Shape(Field::Bytes)),
    }
}

/// Sets the body to that text. `Memory` where a request for memory was refused.
fn set_text(value: &Value, draft: &mut Draft) -> Result<(), Misfit>
    ensures { Leaves result draft.old draft.new (spec.with_text (view value.now) draft.old) }
{
    match draft.set_text(text(value, Field::Text)?) {
        Ok(()) => Ok(()),
        Err(_) => Err(Misfit::Memory),
    }
}

/// Sets the body to those bytes. `Memory` where a request for memory was refused.
fn set_bytes(alloc: Global, value: &Value, draft: &mut Draft) -> Result<(), Misfit>
    ensures { Leaves result draft.old draft.new (spec.with_bytes (view value.now) draft.old) }
{
    let bytes = bytes_of(alloc, text(value, Field::Bytes)?)?;
    match draft.set_bytes(&bytes) {
        Ok(()) => Ok(()),
        Err(_) => Err(Misfit::Memory),
    }
}

/// Sets the body of the field `text` or `bytes`, where one of them stands. `Memory` where a request
/// for memory was refused.
fn set_body(alloc: Global, object: &Value, draft: &mut Draft) -> Result<(), Misfit>
    ensures { Leaves result draft.old draft.new (spec.with_body (view object.now) draft.old) }
{
    match (
        optional(object, Field::Text),
        optional(object, Field::Bytes),
    ) {
        (None, None) => Ok(()),
        (Some(text), None) => set_text(text, draft),
        (None, Some(bytes)) => set_bytes(alloc, bytes, draft),
        (Some(_), Some(_)) => Err(Misfit::Shape(Field::Bytes)),
    }
}

/// A whole number within those bounds.
fn integer(value: &Value, least: i64, most: i64) -> Result<i64, Misfit>
    ensures { ReadsExactly result (spec.integer least most (view value.now)) }
{
    match value.as_i64() {
        Some(number) if least <= number && number <= most => Ok(number),
        _ => Err(misfit(value, Field::Properties)),
    }
}

/// The property of that type with that value. `Memory` where a request for memory was refused.
fn property(alloc: Global, type_name: &str, value: &Value) -> Result<Property, Misfit>
    ensures { Reads result (spec.property type_name.now (view value.now)) }
{
    match type_name {
        "boolean" => match value.as_bool() {
            Some(truth) => Ok(Property::Bool(truth)),
            None => Err(misfit(value, Field::Properties)),
        },
        "byte" => Ok(Property::Byte(integer(value, -128, 127)? as i8)),
        "short" => Ok(Property::Short(integer(value, -32768, 32767)? as i16)),
        "int" => Ok(Property::Int(integer(value, -2147483648, 2147483647)? as i32)),
        "long" => match value.as_i64() {
            Some(number) => Ok(Property::Long(number)),
            None => Err(misfit(value, Field::Properties)),
        },
        "String" => {
            let text = text(value, Field::Properties)?;
            Ok(Property::Text(SharedStr::from_str(alloc, text)?))
        }
        "float" | "double" => Err(Misfit::Floating),
        _ => Err(Misfit::Shape(Field::Properties)),
    }
}

/// Sets the property, where its name may have that value. `Memory` where a request for memory was
/// refused.
fn set_allowed(draft: &mut Draft, name: &str, property: Property) -> Result<(), Misfit>
    ensures { Leaves result draft.old draft.new (spec.with_allowed name.now draft.old property) }
{
    match draft.set_property(name, property) {
        Ok(()) => Ok(()),
        Err(MessageFault::BadName) => Err(Misfit::Shape(Field::Properties)),
        Err(_) => Err(Misfit::Memory),
    }
}

/// Sets the property of that name, type and value. `Memory` where a request for memory was refused.
fn set_property(
    alloc: Global,
    draft: &mut Draft,
    name: &Value,
    type_name: &Value,
    value: &Value,
) -> Result<(), Misfit>
    ensures { Leaves result draft.old draft.new (spec.with_named (view name.now) (view type_name.now) (view value.now) draft.old) }
{
    let name = text(name, Field::Properties)?;
    let type_name = text(type_name, Field::Properties)?;
    let property = property(alloc, type_name, value)?;
    set_allowed(draft, name, property)
}

/// Sets the property of an array of name, type and value. `Memory` where a request for memory was
/// refused.
fn set_entry(alloc: Global, draft: &mut Draft, entry: &Value) -> Result<(), Misfit>
    ensures { Leaves result draft.old draft.new (spec.with_entry (view entry.now) draft.old) }
{
    let Some(parts) = entry.as_array() else {
        return Err(misfit(entry, Field::Properties));
    };
    let parts = parts.as_slice();
    if parts.len() != 3 {
        return Err(Misfit::Shape(Field::Properties));
    }
    set_property(alloc, draft, &parts[0], &parts[1], &parts[2])
}

/// Sets the properties of the entries in turn. `Memory` where a request for memory was refused.
fn set_entries(alloc: Global, draft: &mut Draft, entries: &[Value]) -> Result<(), Misfit>
    ensures { Makes result draft.new (spec.with_entries (items_view entries.now) draft.old) }
{
    for entry in entries {
        set_entry(alloc, draft, entry)?;
    }
    Ok(())
}

/// Sets the properties of the field `props`, where it stands. `Memory` where a request for memory was
/// refused.
fn set_properties(alloc: Global, object: &Value, draft: &mut Draft) -> Result<(), Misfit>
    ensures { Makes result draft.new (spec.with_properties (view object.now) draft.old) }
{
    let Some(value) = optional(object, Field::Properties) else {
        return Ok(());
    };
    match value.as_array() {
        Some(entries) => set_entries(alloc, draft, entries.as_slice()),
        None => Err(misfit(value, Field::Properties)),
    }
}

/// Sets the header fields of the object.
fn set_header(object: &Value, draft: &mut Draft) -> Result<(), Misfit>
    ensures { Makes result draft.new (spec.with_header (view object.now) draft.old) }
{
    set_priority(object, draft)?;
    set_persistence(object, draft)?;
    set_time_to_live(object, draft)?;
    set_delivery_delay(object, draft)?;
    set_correlation(object, draft)?;
    set_type(object, draft)
}

/// Sets what the object spells. `Memory` where a request for memory was refused.
fn set_fields(alloc: Global, object: &Value, draft: &mut Draft) -> Result<(), Misfit>
    ensures { Makes result draft.new (spec.changed_draft (view object.now) draft.old) }
{
    set_header(object, draft)?;
    set_properties(alloc, object, draft)?;
    set_body(alloc, object, draft)
}

/// The draft that the object spells. `Memory` where a request for memory was refused.
pub fn draft(alloc: Global, object: &Value) -> Result<Draft, Misfit>
    ensures { Reads result (spec.draft (view object.now)) }
{
    let mut draft = Draft::new(alloc);
    match set_fields(alloc, object, &mut draft) {
        Ok(()) => Ok(draft),
        Err(misfit) => Err(misfit),
    }
}
