ghost use Rattle.std.specs.Prelude.{◌≡◌, IfOk};
ghost use Rattle.jm_property.specs.Conversions as spec;

use jm_shared::SharedStr;
use std::alloc::{AllocError, Global};

/// The value of a property, of one of the types that this provider keeps (Jakarta Messaging 3.1,
/// section 3.5.2; `float` and `double` are left out).
#[derive(Clone, Debug, PartialEq, Drop)]
pub enum Property {
    /// boolean
    Bool(bool),
    /// byte
    Byte(i8),
    /// short
    Short(i16),
    /// int
    Int(i32),
    /// long
    Long(i64),
    /// String
    Text(SharedStr),
}

impl Property {
    /// The value read as a boolean, where its type converts to one.
    pub(crate) fn to_bool(&self) -> Option<bool>
        ensures { result ≡ spec.as_boolean self.now }
    {
        match self {
            Property::Bool(value) => Some(*value),
            Property::Text(text) => Some(text.as_str().eq_ignore_ascii_case("true")),
            _ => None,
        }
    }

    /// The value read as a byte, where its type converts to one and its text is in range.
    pub(crate) fn to_byte(&self) -> Option<i8>
        ensures { result ≡ spec.as_byte self.now }
    {
        match self {
            Property::Byte(value) => Some(*value),
            Property::Text(text) => parse_byte(text.as_str()),
            _ => None,
        }
    }

    /// The value read as a short, where its type converts to one and its text is in range.
    pub(crate) fn to_short(&self) -> Option<i16>
        ensures { result ≡ spec.as_short self.now }
    {
        match self {
            Property::Byte(value) => Some(i16::from(*value)),
            Property::Short(value) => Some(*value),
            Property::Text(text) => parse_short(text.as_str()),
            _ => None,
        }
    }

    /// The value read as an int, where its type converts to one and its text is in range.
    pub(crate) fn to_int(&self) -> Option<i32>
        ensures { result ≡ spec.as_int self.now }
    {
        match self {
            Property::Byte(value) => Some(i32::from(*value)),
            Property::Short(value) => Some(i32::from(*value)),
            Property::Int(value) => Some(*value),
            Property::Text(text) => parse_int(text.as_str()),
            _ => None,
        }
    }

    /// The value read as a long, where its type converts to one and its text is in range.
    pub(crate) fn to_long(&self) -> Option<i64>
        ensures { result ≡ spec.as_long self.now }
    {
        match self {
            Property::Byte(value) => Some(i64::from(*value)),
            Property::Short(value) => Some(i64::from(*value)),
            Property::Int(value) => Some(i64::from(*value)),
            Property::Long(value) => Some(*value),
            Property::Text(text) => parse_long(text.as_str()),
            Property::Bool(_) => None,
        }
    }

    /// The value read as a text, to which every type converts. `AllocError` where a request for
    /// memory was refused.
    pub(crate) fn to_text(&self, alloc: Global) -> Result<SharedStr, AllocError>
        ensures { IfOk result (λ text. text ≡ spec.as_text self.now) }
    {
        let text = match self {
            Property::Bool(value) => value.to_string(alloc)?,
            Property::Byte(value) => value.to_string(alloc)?,
            Property::Short(value) => value.to_string(alloc)?,
            Property::Int(value) => value.to_string(alloc)?,
            Property::Long(value) => value.to_string(alloc)?,
            Property::Text(text) => return text.copy(),
        };
        SharedStr::from_string(text)
    }

    /// An equal value. `AllocError` where a request for memory was refused.
    pub fn copy(&self) -> Result<Property, AllocError>
        ensures { IfOk result (λ copy. copy ≡ self.now) }
    {
        self.clone()
    }
}

fn parse_byte(text: &str) -> Option<i8>
    ensures { result ≡ spec.integer_of 8 text.now }
{
    text.parse::<i8>().ok()
}

fn parse_short(text: &str) -> Option<i16>
    ensures { result ≡ spec.integer_of 16 text.now }
{
    text.parse::<i16>().ok()
}

fn parse_int(text: &str) -> Option<i32>
    ensures { result ≡ spec.integer_of 32 text.now }
{
    text.parse::<i32>().ok()
}

fn parse_long(text: &str) -> Option<i64>
    ensures { result ≡ spec.integer_of 64 text.now }
{
    text.parse::<i64>().ok()
}
