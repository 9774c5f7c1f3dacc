ghost use Rattle.std.specs.Prelude.{◌≡◌, ◌+◌, min, length, option_copied};
ghost use Rattle.std.specs.List.{concat, flat_map};
ghost use Rattle.jm_format.specs.Format as format;

use jm_dest::Destination;
use jm_header::{Body, Message};
use jm_property::{Properties, Property};
use jm_shared::SharedStr;

/// The bytes of the fields before the name of the destination, without a delivery time.
const HEAD_LENGTH: usize = 40;

/// The bytes of a length and of what is so long, or the most that there may be.
fn block_length(length: usize) -> usize
    ensures { result ≡ min (8 + length) usize.MAX }
{
    length.saturating_add(8)
}

/// The bytes of a mark and a text.
fn optional_length(text: Option<&SharedStr>) -> usize
    ensures { result ≡ min (length (concat (format.optional (option_copied text.entry)))) usize.MAX }
{
    match text {
        None => 1,
        Some(text) => block_length(text.as_str().len()).saturating_add(1),
    }
}

/// The bytes of a body.
fn body_length(body: &Body) -> usize
    ensures { result ≡ min (length (concat (format.body_fields body.now))) usize.MAX }
{
    match body {
        Body::None => 1,
        Body::Text(text) => block_length(text.as_str().len()).saturating_add(1),
        Body::Bytes(bytes) => block_length(bytes.as_bytes().len()).saturating_add(1),
    }
}

/// The bytes of the value of a property.
fn value_length(value: &Property) -> usize
    ensures { result ≡ min (length (format.property_value value.now)) usize.MAX }
{
    match value {
        Property::Bool(_) | Property::Byte(_) => 1,
        Property::Short(_) => 2,
        Property::Int(_) => 4,
        Property::Long(_) => 8,
        Property::Text(text) => block_length(text.as_str().len()),
    }
}

/// The bytes of the delivery time.
fn delivery_time_length(message: &Message) -> usize
    ensures { result ≡ length (concat (format.delivery_time message.now)) }
{
    if message.is_delayed() { 8 } else { 0 }
}

/// The bytes of the name of a destination.
fn name_length(destination: &Destination) -> usize
    ensures { result ≡ min (length (format.block (format.name_of destination.now))) usize.MAX }
{
    match destination {
        Destination::Queue(name) => block_length(name.as_str().len()),
        Destination::Topic(name) => block_length(name.as_str().len()),
    }
}

/// The bytes of the properties and of their number.
fn properties_length(properties: &Properties) -> usize
    ensures { result ≡ min (8 + length (concat (flat_map format.property_fields properties.now))) usize.MAX }
{
    let mut total: usize = 8;
    for index in 0..properties.len() {
        if let Some((name, value)) = properties.entry_at(index) {
            let property = block_length(name.len()).saturating_add(value_length(value));
            total = total.saturating_add(property).saturating_add(1);
        }
    }
    total
}

/// How many bytes the record of the message has, or the most that there may be.
pub(crate) fn record_length(message: &Message) -> usize
    ensures { result ≡ min (length (format.record message.now)) usize.MAX }
{
    HEAD_LENGTH
        .saturating_add(delivery_time_length(message))
        .saturating_add(name_length(message.destination()))
        .saturating_add(optional_length(message.correlation()))
        .saturating_add(optional_length(message.message_type()))
        .saturating_add(body_length(message.body()))
        .saturating_add(properties_length(message.properties()))
}
