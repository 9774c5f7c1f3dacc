ghost use Rattle.std.specs.Prelude.{◌≡◌, ◌<◌, ◌↔◌, [], IfOk, IfErr, OnOk, OnErr, IsTrue, MatchResult, Some, None, Ok, if◌then◌else◌, is_some, length, slice_get};
ghost use Rattle.std.specs.Option.{option_copied, option_map};
ghost use Rattle.jm_base.specs.declared.refusal.MessageFault.TheVariants.{BadName, Memory, Unset};
ghost use Rattle.jm_property.specs.Conversions.{as_boolean, as_byte, as_short, as_int, as_long, as_text};
ghost use Rattle.jm_property.specs.Order.{IsPlaceOf, name_at};
ghost use Rattle.jm_property.specs.Properties as spec;
ghost use Rattle.jm_property.specs.Same.{names_of};

use crate::identifier::is_identifier;
use crate::order::{Entry, add_place, find};
use crate::property::Property;
use jm_base::MessageFault;
use jm_shared::SharedStr;
use std::alloc::{AllocError, Global};
use std::fmt;
use std::marker::Model;

/// The properties of a message (Jakarta Messaging 3.1, section 3.5): distinct names with values, in
/// the order in which they were first set.
///
/// `order` has their places in the order of the names, once there are more than a few.
#[derive(Clone)]
pub struct Properties {
    entries: Vec<Entry>,
    order: Vec<usize>,
}

impl Drop for Properties {
    fn drop(self) {
        let Properties {
            entries: _entries,
            order: _order,
        } = self;
    }
}

impl Model for Properties {
    ghost use Rattle.jm_property.specs.Properties.{Table};

    ghost Value = { Table };

    ghost use Rattle.jm_property.specs.Order.{IsIndex};
    ghost use Rattle.jm_property.specs.Properties.{IsTable};

    ghost view = { λ p. p.entries.items };

    ghost invariant = { λ p. IsTable p.entries.items × IsIndex p.entries.items p.order.items };
}

fn is_group_property(name: &str, value: &Property) -> bool
    ensures { result ≡ spec.is_group_property name.now value.now }
{
    match value {
        Property::Int(_) => name == "JMSXGroupSeq",
        Property::Text(_) => name == "JMSXGroupID",
        _ => false,
    }
}

/// Whether a client may set a property of that name to a value of some type: an identifier, and of those
/// that begin with `JMS` only `JMSXGroupID` and `JMSXGroupSeq` (Jakarta Messaging 3.1, sections 3.5.1 and
/// 3.5.9). Takes no memory.
pub fn is_settable(name: &str) -> bool
    ensures { result ≡ spec.is_settable name.now }
{
    is_identifier(name)
        && (!name.as_bytes().starts_with(b"JMS") || name == "JMSXGroupID" || name == "JMSXGroupSeq")
}

fn is_allowed(name: &str, value: &Property) -> bool
    ensures { result ≡ spec.is_allowed name.now value.now }
{
    is_identifier(name) && (!name.as_bytes().starts_with(b"JMS") || is_group_property(name, value))
}

impl Properties {
    /// No properties. Takes no memory.
    pub fn new(alloc: Global) -> Properties
        ensures { result ≡ [] }
    {
        Properties {
            entries: Vec::new(alloc),
            order: Vec::new(alloc),
        }
    }

    /// How many properties there are.
    pub fn len(&self) -> usize
        ensures count { result ≡ length self.now }
        ensures sound { spec.IsTable self.now }
    {
        self.entries.len()
    }

    /// Whether there are none.
    pub fn is_empty(&self) -> bool
        ensures { IsTrue result ↔ (self.now ≡ []) }
    {
        self.entries.is_empty()
    }

    /// The value of that name, where it is set. Takes no memory.
    #[inline(always)]
    pub fn get(&self, name: &str) -> Option<&Property>
        ensures { option_copied result ≡ spec.value_of self.now name.now }
    {
        let place = self.place_of(name)?;
        Some(&self.entries[place].1)
    }

    #[inline(always)]
    fn place_of(&self, name: &str) -> Option<usize>
        ensures { IsPlaceOf self.now name.now result }
    {
        find(&self.entries, &self.order, name)
    }

    /// The name at that place, from 0, in the order of first setting.
    pub fn name_at(&self, place: usize) -> Option<&str>
        ensures { option_copied result ≡ option_map (λ entry. entry.0) (slice_get self.now place) }
    {
        match self.entries.get(place) {
            None => None,
            Some((name, _)) => Some(name.as_str()),
        }
    }

    /// The name and the value at that index, from 0, in the order of first setting. Takes no memory.
    pub fn entry_at(&self, index: usize) -> Option<(&str, &Property)>
        ensures { option_map (λ entry. (entry.0.now, entry.1.now)) result ≡ slice_get self.now index }
    {
        match self.entries.get(index) {
            None => None,
            Some((name, value)) => Some((name.as_str(), value)),
        }
    }

    /// Removes all properties. Takes no memory.
    pub fn clear(&mut self)
        ensures { self.new ≡ [] }
    {
        self.entries.clear();
        self.order.clear();
    }

    /// Sets the property: a name that is there keeps its place, and a new one goes last.
    ///
    /// `BadName` where the name is no identifier, or begins with `JMS` and is not `JMSXGroupID` with
    /// a text or `JMSXGroupSeq` with an int (Jakarta Messaging 3.1, sections 3.5.1 and 3.5.9); else
    /// `Memory` where a request for memory was refused. Then the properties are as before.
    pub fn set(&mut self, name: &str, value: Property) -> Result<(), MessageFault>
        ensures { MatchResult result
            (λ _. (self.new ≡ spec.with_property self.old name.now value) × IsTrue (spec.is_allowed name.now value))
            (λ fault. (self.new ≡ self.old) × (fault ≡ spec.set_fault name.now value)) }
    {
        if !is_allowed(name, &value) {
            return Err(MessageFault::BadName);
        }
        match self.place_of(name) {
            None => {
                self.add(name, value)?;
                Ok(())
            }
            Some(place) => {
                self.replace(place, value);
                Ok(())
            }
        }
    }

    /// Gives the name at that place another value.
    fn replace(&mut self, place: usize, value: Property)
        requires place { place < length self.old }
        requires allowed { IsTrue (spec.is_allowed (name_at (names_of self.old) place) value) }
        ensures { self.new ≡ spec.with_property self.old (name_at (names_of self.old) place) value }
    {
        self.entries[place].1 = value;
    }

    /// Puts a new name behind the others. `AllocError`, and nothing changes, where a request for memory was refused.
    fn add(&mut self, name: &str, value: Property) -> Result<(), AllocError>
        requires unset { spec.value_of self.old name.now ≡ None }
        requires allowed { IsTrue (spec.is_allowed name.now value) }
        ensures ok { OnOk result (self.new ≡ spec.with_property self.old name.now value) }
        ensures err { OnErr result (self.new ≡ self.old) }
    {
        let own_name = SharedStr::from_str(*self.entries.allocator(), name)?;
        self.entries.reserve(1)?;
        add_place(&self.entries, &mut self.order, name)?;
        match self.entries.push((own_name, value)) {
            Ok(()) => Ok(()),
            Err(_) => Err(AllocError),
        }
    }

    fn find(&self, name: &str) -> Result<&Property, MessageFault>
        ensures { MatchResult result
            (λ value. Some value.now ≡ spec.value_of self.now name.now)
            (λ fault. (fault ≡ Unset) × (spec.value_of self.now name.now ≡ None)) }
    {
        self.get(name).ok_or(MessageFault::Unset)
    }

    /// The property read as a boolean. `Unset` where it is not set, `MessageFormat` where its type
    /// does not convert. Takes no memory.
    pub fn get_bool(&self, name: &str) -> Result<bool, MessageFault>
        ensures { result ≡ spec.read_as as_boolean (spec.value_of self.now name.now) }
    {
        self.find(name)?
            .to_bool()
            .ok_or(MessageFault::MessageFormat)
    }

    /// The property read as a byte. `Unset` where it is not set, `MessageFormat` where its type does
    /// not convert or its text writes no byte. Takes no memory.
    pub fn get_byte(&self, name: &str) -> Result<i8, MessageFault>
        ensures { result ≡ spec.read_as as_byte (spec.value_of self.now name.now) }
    {
        self.find(name)?
            .to_byte()
            .ok_or(MessageFault::MessageFormat)
    }

    /// The property read as a short. `Unset` where it is not set, `MessageFormat` where its type does
    /// not convert or its text writes no short. Takes no memory.
    pub fn get_short(&self, name: &str) -> Result<i16, MessageFault>
        ensures { result ≡ spec.read_as as_short (spec.value_of self.now name.now) }
    {
        self.find(name)?
            .to_short()
            .ok_or(MessageFault::MessageFormat)
    }

    /// The property read as an int. `Unset` where it is not set, `MessageFormat` where its type does
    /// not convert or its text writes no int. Takes no memory.
    pub fn get_int(&self, name: &str) -> Result<i32, MessageFault>
        ensures { result ≡ spec.read_as as_int (spec.value_of self.now name.now) }
    {
        self.find(name)?.to_int().ok_or(MessageFault::MessageFormat)
    }

    /// The property read as a long. `Unset` where it is not set, `MessageFormat` where its type does
    /// not convert or its text writes no long. Takes no memory.
    pub fn get_long(&self, name: &str) -> Result<i64, MessageFault>
        ensures { result ≡ spec.read_as as_long (spec.value_of self.now name.now) }
    {
        self.find(name)?
            .to_long()
            .ok_or(MessageFault::MessageFormat)
    }

    /// The property read as a text: `true` or `false`, a number in plain decimal, or the text itself.
    /// `Unset` where it is not set, else `Memory` where a request for memory was refused.
    pub fn get_text(&self, name: &str) -> Result<SharedStr, MessageFault>
        ensures { MatchResult result
            (λ text. Ok text ≡ spec.read_as (λ value. Some (as_text value)) (spec.value_of self.now name.now))
            (λ fault. fault ≡ (if is_some (spec.value_of self.now name.now) then Memory else Unset)) }
    {
        let text = self.find(name)?.to_text(*self.entries.allocator())?;
        Ok(text)
    }

    /// Whether both have the same names with the same values, in the same order.
    pub fn is(&self, other: &Properties) -> bool
        ensures { IsTrue result ↔ (self.now ≡ other.now) }
    {
        *self == *other
    }

    /// Equal properties. `AllocError` where a request for memory was refused.
    pub fn copy(&self) -> Result<Properties, AllocError>
        ensures { IfOk result (λ copy. copy ≡ self.now) }
    {
        self.clone()
    }
}

impl PartialEq for Properties {
    ghost use Rattle.jm_property.specs.Same.{table_eq, table_laws};

    ghost eq = { table_eq };

    ghost laws = { table_laws };

    fn eq(&self, other: &Properties) -> bool {
        self.entries == other.entries
    }
}

/// What `Debug` writes of the entries.
#[derive(Drop)]
struct AsMap<'a> {
    entries: &'a [Entry],
}

impl fmt::Debug for AsMap<'_> {
    fn fmt<W: fmt::Write>(&self, f: &mut fmt::Formatter<W>) -> fmt::Result {
        let mut map = f.debug_map();
        for (name, value) in self.entries {
            map.entry(name, value);
        }
        map.finish()
    }
}

impl fmt::Debug for Properties {
    fn fmt<W: fmt::Write>(&self, f: &mut fmt::Formatter<W>) -> fmt::Result {
        let entries = AsMap {
            entries: &self.entries,
        };
        f.debug_struct("Properties")
            .field("entries", &entries)
            .finish()
    }
}
