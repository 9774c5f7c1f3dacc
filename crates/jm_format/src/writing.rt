ghost use Rattle.std.specs.Prelude.{◌≡◌, ◌<◌, ◌∷◌, ◌++◌, length, option_copied, IfOk, IfSome, OnOk};
ghost use Rattle.std.specs.Int.{w64, to_be_bytes};
ghost use Rattle.std.specs.List.{concat, AllByRecursion};
ghost use Rattle.jm_dest.specs.Numbers.{long_end};
ghost use Rattle.jm_header.specs.Headers.{is_delayed};
ghost use Rattle.jm_format.specs.Format as format;
ghost use Rattle.jm_format.specs.Messages.{IsBlock, IsText, IsName, IsSender, IsBody, IsValue, IsProperty, AreProperties, IsMessage};

use crate::length::record_length;
use jm_dest::{Destination, Moment, SessionId};
use jm_header::{Body, DeliveryMode, Message, Sender};
use jm_property::{Properties, Property};
use jm_shared::SharedStr;
use std::alloc::{AllocError, Global};

/// The version of the record of a message without a delivery delay.
pub const VERSION: u8 = 1;

/// The version of the record of a delayed message, which has a delivery time.
pub const VERSION_DELAYED: u8 = 2;

/// Adds a length and as many bytes.
fn put_block(out: &mut Vec<u8>, bytes: &[u8]) -> Result<(), AllocError>
    ensures written { OnOk result (out.new.items ≡ out.old.items ++ format.block bytes.now) }
    ensures valid { IsBlock bytes.now }
{
    out.extend_from_slice(&bytes.len().to_be_bytes())?;
    out.extend_from_slice(bytes)
}

/// Adds a text.
fn put_text(out: &mut Vec<u8>, text: &str) -> Result<(), AllocError>
    ensures written { OnOk result (out.new.items ≡ out.old.items ++ format.block text.now) }
    ensures valid { IsText text.now }
{
    put_block(out, text.as_bytes())
}

/// Adds a mark and, where there is one, the text.
fn put_optional(out: &mut Vec<u8>, text: Option<&SharedStr>) -> Result<(), AllocError>
    ensures written { OnOk result (out.new.items ≡ out.old.items ++ concat (format.optional (option_copied text.entry))) }
    ensures valid { OnOk result (IfSome (option_copied text.entry) IsText) }
{
    match text {
        None => Ok(out.push(0)?),
        Some(text) => {
            out.push(1)?;
            put_text(out, text.as_str())
        }
    }
}

/// Adds the opening, the connection and the session.
fn put_sender(out: &mut Vec<u8>, sender: Sender) -> Result<(), AllocError>
    ensures written { OnOk result (out.new.items ≡ out.old.items ++ concat (format.sender_fields sender)) }
    ensures valid { OnOk result (IsSender sender) }
{
    let Sender { opening, session } = sender;
    let SessionId { connection, number } = session;
    out.extend_from_slice(&opening.get().to_be_bytes())?;
    out.extend_from_slice(&connection.get().to_be_bytes())?;
    out.extend_from_slice(&number.get().to_be_bytes())?;
    Ok(())
}

/// Adds a moment.
fn put_moment(out: &mut Vec<u8>, moment: Moment) -> Result<(), AllocError>
    ensures written { OnOk result (out.new.items ≡ out.old.items ++ to_be_bytes w64 moment) }
    ensures valid { OnOk result (moment < long_end) }
{
    out.extend_from_slice(&moment.get().to_be_bytes())
}

/// The version of the record of the message.
fn version(message: &Message) -> u8
    ensures { result ≡ format.version_of (is_delayed message.now) }
{
    if message.is_delayed() {
        VERSION_DELAYED
    } else {
        VERSION
    }
}

/// Adds the delivery time, where the message is delayed.
fn put_delivery_time(out: &mut Vec<u8>, message: &Message) -> Result<(), AllocError>
    ensures written { OnOk result (out.new.items ≡ out.old.items ++ concat (format.delivery_time message.now)) }
    ensures valid { OnOk result (message.now.delivery_time < long_end) }
{
    let delivery_time = message.delivery_time();
    if message.is_delayed() {
        return put_moment(out, delivery_time);
    }
    Ok(())
}

/// The byte of a delivery mode.
fn mode_byte(mode: DeliveryMode) -> u8
    ensures { result ≡ format.mode_byte mode }
{
    match mode {
        DeliveryMode::NonPersistent => 0,
        DeliveryMode::Persistent => 1,
    }
}

/// Adds the kind and the name of a destination.
fn put_destination(out: &mut Vec<u8>, destination: &Destination) -> Result<(), AllocError>
    ensures written { OnOk result (out.new.items ≡ out.old.items ++ concat (format.destination_fields destination.now)) }
    ensures valid { OnOk result (IsName (format.name_of destination.now)) }
{
    match destination {
        Destination::Queue(name) => {
            out.push(0)?;
            put_text(out, name.as_str())
        }
        Destination::Topic(name) => {
            out.push(1)?;
            put_text(out, name.as_str())
        }
    }
}

/// Adds the tag and the body.
fn put_body(out: &mut Vec<u8>, body: &Body) -> Result<(), AllocError>
    ensures written { OnOk result (out.new.items ≡ out.old.items ++ concat (format.body_fields body.now)) }
    ensures valid { OnOk result (IsBody body.now) }
{
    match body {
        Body::None => Ok(out.push(0)?),
        Body::Text(text) => {
            out.push(1)?;
            put_text(out, text.as_str())
        }
        Body::Bytes(bytes) => {
            out.push(2)?;
            put_block(out, bytes.as_bytes())
        }
    }
}

/// Adds the tag and the value of a property.
fn put_value(out: &mut Vec<u8>, value: &Property) -> Result<(), AllocError>
    ensures written { OnOk result (out.new.items ≡ out.old.items ++ format.tagged_value value.now) }
    ensures valid { OnOk result (IsValue value.now) }
{
    match value {
        Property::Bool(value) => out.extend_from_slice(&[1, u8::from(*value)]),
        Property::Byte(value) => out.extend_from_slice(&[2, value.cast_unsigned()]),
        Property::Short(value) => {
            out.push(3)?;
            out.extend_from_slice(&value.to_be_bytes())
        }
        Property::Int(value) => {
            out.push(4)?;
            out.extend_from_slice(&value.to_be_bytes())
        }
        Property::Long(value) => {
            out.push(5)?;
            out.extend_from_slice(&value.to_be_bytes())
        }
        Property::Text(text) => {
            out.push(6)?;
            put_text(out, text.as_str())
        }
    }
}

/// Adds the number of the properties, and each of them.
fn put_properties(out: &mut Vec<u8>, properties: &Properties) -> Result<(), AllocError>
    ensures written { OnOk result (out.new.items ≡ out.old.items ++ concat (format.table_fields properties.now)) }
    ensures valid { OnOk result (AreProperties properties.now) }
{
    let count = properties.len();
    out.extend_from_slice(&count.to_be_bytes())?;
    for index in 0..count {
        if let Some((name, value)) = properties.entry_at(index) {
            put_text(out, name)?;
            put_value(out, value)?;
        }
    }
    Ok(())
}

/// The record of the message (ours), of version 1, or of version 2 where it is delayed. Its read-only marks are no part of
/// it.
///
/// Its length is known, so room is asked for once. `AllocError` where that request for memory was refused.
pub fn write_record(alloc: Global, message: &Message) -> Result<Vec<u8>, AllocError>
    ensures written { IfOk result (λ bytes. bytes.items ≡ format.record message.now) }
    // Each message is one whose record is read again.
    ensures message { OnOk result (IsMessage message.now) }
{
    let mut out = Vec::with_capacity(alloc, record_length(message))?;
    out.push(version(message))?;
    put_sender(&mut out, message.sender())?;
    out.extend_from_slice(&message.number().to_be_bytes())?;
    put_moment(&mut out, message.timestamp())?;
    put_moment(&mut out, message.expiration())?;
    put_delivery_time(&mut out, message)?;
    out.push(mode_byte(message.mode()))?;
    out.push(message.priority())?;
    put_destination(&mut out, message.destination())?;
    put_optional(&mut out, message.correlation())?;
    put_optional(&mut out, message.message_type())?;
    put_body(&mut out, message.body())?;
    put_properties(&mut out, message.properties())?;
    Ok(out)
}
