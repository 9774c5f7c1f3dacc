ghost use Rattle.std.specs.Option.{option_copied};
ghost use Rattle.std.specs.Prelude.{◌≡◌};
ghost use Rattle.jm_eval.specs.Seen.{seen};
ghost use Rattle.jm_eval.specs.Values as tables;
ghost use Rattle.jm_eval.specs.Values.{Number, Text};
ghost use Rattle.jm_eval.specs.Views as spec;

use crate::truth::Truth;
use crate::value::{Value, number_comparison, text_comparison};
use jm_header::{DeliveryMode, Message};
use jm_property::Property;
use jm_shared::SharedStr;
use jm_tree::{Comparison, Field, Identifier};

fn mode_text<'a>(mode: DeliveryMode) -> &'a str
    ensures { result.now ≡ spec.mode_text mode }
{
    match mode {
        DeliveryMode::Persistent => "PERSISTENT",
        DeliveryMode::NonPersistent => "NON_PERSISTENT",
    }
}

fn text_or_null(text: Option<&SharedStr>) -> Value<'_>
    ensures { seen result ≡ spec.text_or_null (option_copied text.entry) }
{
    match text {
        None => Value::Unknown,
        Some(text) => Value::Text(text.as_str()),
    }
}

fn field_value(message: &Message, field: Field) -> Value<'_>
    ensures { seen result ≡ spec.field_value message.now field }
{
    match field {
        Field::DeliveryMode => Value::Text(mode_text(message.mode())),
        Field::Priority => Value::Number(i64::from(message.priority())),
        Field::Timestamp => Value::Number(message.timestamp().get() as i64),
        Field::MessageId => Value::MessageId(message),
        Field::CorrelationId => text_or_null(message.correlation()),
        Field::Type => text_or_null(message.message_type()),
    }
}

#[inline(always)]
fn property_value(property: &Property) -> Value<'_>
    ensures { seen result ≡ spec.property_value property.now }
{
    match property {
        Property::Bool(value) => Value::Bool(*value),
        Property::Byte(value) => Value::Number(i64::from(*value)),
        Property::Short(value) => Value::Number(i64::from(*value)),
        Property::Int(value) => Value::Number(i64::from(*value)),
        Property::Long(value) => Value::Number(*value),
        Property::Text(text) => Value::Text(text.as_str()),
    }
}

#[inline(always)]
fn property_or_null(property: Option<&Property>) -> Value<'_>
    ensures { seen result ≡ spec.property_or_null (option_copied property.entry) }
{
    match property {
        None => Value::Unknown,
        Some(property) => property_value(property),
    }
}

/// The value of an identifier over a message, UNKNOWN where it is NULL.
#[tactic(auto, unfolding(crate::specs::Views::view))]
pub(crate) fn named<'a>(name: &Identifier, message: &'a Message) -> Value<'a>
    ensures { seen result ≡ spec.view message.now name.now }
{
    match name.field() {
        Some(field) => field_value(message, field),
        None => property_or_null(message.properties().get(name.as_str())),
    }
}

/// A comparison of the value of a header field with a number.
#[inline(never)]
fn field_against_number(op: Comparison, field: Field, number: i64, message: &Message) -> Truth
    ensures { result ≡ tables.comparison op (spec.field_value message.now field) (Number number) }
{
    number_comparison(op, field_value(message, field), number)
}

/// A comparison of the value of an identifier over a message with a number.
#[inline(always)]
#[tactic(auto, unfolding(crate::specs::Views::view))]
pub(crate) fn name_against_number(
    op: Comparison,
    name: &Identifier,
    number: i64,
    message: &Message,
) -> Truth
    ensures { result ≡ tables.comparison op (spec.view message.now name.now) (Number number) }
{
    match name.field() {
        Some(field) => field_against_number(op, field, number, message),
        None => {
            let property = message.properties().get(name.as_str());
            number_comparison(op, property_or_null(property), number)
        }
    }
}

/// A comparison of the value of a header field with a text.
#[inline(never)]
fn field_against_text(op: Comparison, field: Field, text: &str, message: &Message) -> Truth
    ensures { result ≡ tables.comparison op (spec.field_value message.now field) (Text text.now) }
{
    text_comparison(op, field_value(message, field), text)
}

/// A comparison of the value of an identifier over a message with a text.
#[inline(always)]
#[tactic(auto, unfolding(crate::specs::Views::view))]
pub(crate) fn name_against_text(
    op: Comparison,
    name: &Identifier,
    text: &str,
    message: &Message,
) -> Truth
    ensures { result ≡ tables.comparison op (spec.view message.now name.now) (Text text.now) }
{
    match name.field() {
        Some(field) => field_against_text(op, field, text, message),
        None => {
            let property = message.properties().get(name.as_str());
            text_comparison(op, property_or_null(property), text)
        }
    }
}
