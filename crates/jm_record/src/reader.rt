ghost use Rattle.std.specs.Prelude.{◌≡◌, ◌≤◌, IfOk, None, length};
ghost use Rattle.jm_property.specs.Properties.{value_of};
ghost use Rattle.std.specs.Int.{w16, w32, w64};
ghost use Rattle.jm_format.specs.Limits.{greatest};
ghost use Rattle.jm_format.specs.Reading as spec;
ghost use Rattle.jm_record.specs.Faults.{Reads};

use crate::fault::Fault;
use jm_dest::{Moment, Name};
use jm_format::{VERSION, block_at, byte_at, moment_at, text_at, u16_at, u32_at, u64_at};
use jm_property::{Properties, is_settable};
use std::alloc::Global;
use std::marker::Model;

/// The last moment.
const MOMENT_MAX: u64 = 0x7fff_ffff_ffff_ffff;

/// What is left of the bytes of a record.
///
/// Each method reads a field or several. Where one is cut or not allowed, it answers `Damaged` and leaves
/// the reader before that field.
#[derive(Drop)]
pub(crate) struct Reader<'a> {
    rest: &'a [u8],
}

impl<'a> Model for Reader<'a> {
    ghost use Rattle.std.specs.Prelude.{List, ℕ};

    ghost Value = { List ℕ };

    ghost view = { λ r. r.rest.now };
}

impl<'a> Reader<'a> {
    pub(crate) fn new(bytes: &'a [u8]) -> Reader<'a>
        ensures { result ≡ bytes.now }
    {
        Reader { rest: bytes }
    }

    /// How many bytes are left.
    pub(crate) fn left(&self) -> usize
        ensures { result ≡ length self.now }
    {
        self.rest.len()
    }

    /// A byte from the least to the most.
    #[tactic(auto, unfolding(jm_format::specs::Reading::byte))]
    pub(crate) fn byte(&mut self, least: u8, most: u8) -> Result<u8, Fault>
        ensures { Reads (λ n. n) (spec.byte least most self.old) result self.new }
    {
        match byte_at(self.rest) {
            Some((byte, rest)) if least <= byte && byte <= most => {
                self.rest = rest;
                Ok(byte)
            }
            _ => Err(Fault::Damaged),
        }
    }

    /// A number of 4 bytes, at least 1.
    #[tactic(auto, unfolding(jm_format::specs::Reading::number))]
    pub(crate) fn number(&mut self) -> Result<u32, Fault>
        ensures reads { Reads (λ n. n) (spec.number w32 1 (greatest w32) self.old) result self.new }
        ensures positive { IfOk result (λ n. 1 ≤ n) }
    {
        match u32_at(self.rest) {
            Some((number, rest)) if number >= 1 => {
                self.rest = rest;
                Ok(number)
            }
            _ => Err(Fault::Damaged),
        }
    }

    /// A number of 2 bytes.
    #[tactic(auto, unfolding(jm_format::specs::Reading::number))]
    pub(crate) fn short(&mut self) -> Result<u16, Fault>
        ensures { Reads (λ n. n) (spec.number w16 0 (greatest w16) self.old) result self.new }
    {
        match u16_at(self.rest) {
            Some((number, rest)) => {
                self.rest = rest;
                Ok(number)
            }
            None => Err(Fault::Damaged),
        }
    }

    /// A number of 4 bytes.
    #[tactic(auto, unfolding(jm_format::specs::Reading::number))]
    pub(crate) fn int(&mut self) -> Result<u32, Fault>
        ensures { Reads (λ n. n) (spec.number w32 0 (greatest w32) self.old) result self.new }
    {
        match u32_at(self.rest) {
            Some((number, rest)) => {
                self.rest = rest;
                Ok(number)
            }
            None => Err(Fault::Damaged),
        }
    }

    /// A number of 8 bytes from the least to the most.
    #[tactic(auto, unfolding(jm_format::specs::Reading::number))]
    pub(crate) fn long(&mut self, least: u64, most: u64) -> Result<u64, Fault>
        ensures { Reads (λ n. n) (spec.number w64 least most self.old) result self.new }
    {
        match u64_at(self.rest) {
            Some((number, rest)) if least <= number && number <= most => {
                self.rest = rest;
                Ok(number)
            }
            _ => Err(Fault::Damaged),
        }
    }

    /// The timestamp in a record of that version; in version 2 not the last moment, since a delivery time is after it.
    #[tactic(auto, unfolding(jm_format::specs::Reading::timestamp))]
    pub(crate) fn timestamp(&mut self, version: u8) -> Result<Moment, Fault>
        ensures { Reads (λ moment. moment) (spec.timestamp version self.old) result self.new }
    {
        match moment_at(self.rest) {
            Some((moment, rest)) if version == VERSION || moment.get() < MOMENT_MAX => {
                self.rest = rest;
                Ok(moment)
            }
            _ => Err(Fault::Damaged),
        }
    }

    /// The expiration of a message of that timestamp: 0, or above the timestamp.
    #[tactic(auto, unfolding(jm_format::specs::Reading::expiration))]
    pub(crate) fn expiration(&mut self, timestamp: Moment) -> Result<Moment, Fault>
        ensures { Reads (λ moment. moment) (spec.expiration timestamp self.old) result self.new }
    {
        match moment_at(self.rest) {
            Some((moment, rest)) if moment.get() == 0 || timestamp.get() < moment.get() => {
                self.rest = rest;
                Ok(moment)
            }
            _ => Err(Fault::Damaged),
        }
    }

    /// A moment after that one.
    #[tactic(auto, unfolding(jm_format::specs::Reading::moment_after))]
    pub(crate) fn moment_after(&mut self, earlier: Moment) -> Result<Moment, Fault>
        ensures { Reads (λ moment. moment) (spec.moment_after earlier self.old) result self.new }
    {
        match moment_at(self.rest) {
            Some((moment, rest)) if earlier.get() < moment.get() => {
                self.rest = rest;
                Ok(moment)
            }
            _ => Err(Fault::Damaged),
        }
    }

    /// A length and as many bytes.
    #[tactic(auto, unfolding(jm_format::specs::Reading::block))]
    pub(crate) fn block(&mut self) -> Result<&'a [u8], Fault>
        ensures { Reads (λ bytes. bytes.now) (spec.block self.old) result self.new }
    {
        match block_at(self.rest) {
            Some((bytes, rest)) => {
                self.rest = rest;
                Ok(bytes)
            }
            None => Err(Fault::Damaged),
        }
    }

    /// A text.
    #[tactic(auto, unfolding(jm_format::specs::Reading::text))]
    pub(crate) fn text(&mut self) -> Result<&'a str, Fault>
        ensures { Reads (λ text. text.now) (spec.text self.old) result self.new }
    {
        match text_at(self.rest) {
            Some((text, rest)) => {
                self.rest = rest;
                Ok(text)
            }
            None => Err(Fault::Damaged),
        }
    }

    /// The name of a property beside those before it.
    #[tactic(auto, unfolding(jm_format::specs::Reading::property_name))]
    pub(crate) fn property_name(&mut self, before: &Properties) -> Result<&'a str, Fault>
        ensures reads { Reads (λ name. name.now) (spec.property_name before.now self.old) result self.new }
        ensures new { IfOk result (λ name. value_of before.now name.now ≡ None) }
    {
        match text_at(self.rest) {
            Some((name, rest)) if is_settable(name) && before.get(name).is_none() => {
                self.rest = rest;
                Ok(name)
            }
            _ => Err(Fault::Damaged),
        }
    }

    /// The name of a destination.
    #[tactic(auto, unfolding(jm_format::specs::Reading::name))]
    pub(crate) fn name(&mut self, alloc: Global) -> Result<Name, Fault>
        ensures { Reads (λ name. name) (spec.name self.old) result self.new }
    {
        let Some((text, rest)) = text_at(self.rest) else {
            return Err(Fault::Damaged);
        };
        let name = Name::new(alloc, text)?;
        self.rest = rest;
        Ok(name)
    }
}
