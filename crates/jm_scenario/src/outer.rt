//! The outer object of a scenario, member by member, and its calls, one by one: the JSON value of a call is let go once its item
//! is made.

ghost use Rattle.std.specs.Prelude.{◌≡◌, ◌≢◌, ◌<◌, length, Some, None, MatchResult, MatchOption, OnOk};
ghost use Rattle.json.specs.Json as json_spec;
ghost use Rattle.serde_json.specs.Data.{Data, Items, Members, no_members, object, put};
ghost use Rattle.serde_json.specs.Find.{as_array};
ghost use Rattle.serde_json.specs.Read.{converted, of_items, of_json, of_members};
ghost use Rattle.jm_scenario.specs.Outer as spec;

use crate::held::Held;
use crate::item::Item;
use crate::numbers::number;
use crate::parsed::next_value;
use crate::records::Records;
use crate::scenario::ScenarioFault;
use jm_base::Str;
use json::{Reader, Token};
use serde_json::Value;
use std::alloc::{AllocError, Global};

/// How deep a member's value may nest.
const MEMBER_DEPTH: usize = 126;

/// How deep what stands in a member's value may nest.
const INNER_DEPTH: usize = 125;

/// What is read of the outer object: of each field the last value.
#[derive(Drop)]
pub(crate) struct Outer {
    /// The field `held`.
    pub(crate) held: Option<Value>,
    /// The first name, in the order of bytes, of a field that is not known.
    pub(crate) unknown: Option<Str>,
    /// Of the field `calls`, where it is an array: its items, or the fault of the first record that has one.
    pub(crate) calls: Option<Result<Vec<Item>, ScenarioFault>>,
}

/// The items of the records to the end of the array, in order; or the fault of the first record that has one. One that has not
/// its place behind the others is told at its operation. A fault of its own where what stands there is no JSON, whatever the
/// records spell.
fn read_calls(
    alloc: Global,
    reader: &mut Reader<'_>,
) -> Result<Result<Vec<Item>, ScenarioFault>, ScenarioFault>
    ensures value { MatchResult result
        (λ told. (values : Items) × (converted of_items (json_spec.items (json_spec.value 125) (length reader.old) reader.old) ≡ Some (values, reader.new)) × spec.IsTold values told)
        (λ fault. fault ≢ ScenarioFault.Memory → converted of_items (json_spec.items (json_spec.value 125) (length reader.old) reader.old) ≡ None) }
    ensures shorter { OnOk result (length reader.new < length reader.old) }
{
    let mut records = Records::new(alloc);
    'records: while !reader.take_end_array() {
        let value = Held::new(next_value(alloc, reader, INNER_DEPTH)?);
        records.add(alloc, &value.value)?;
    }
    Ok(records.told())
}

/// Passes the members to the end of the object.
fn pass_members(alloc: Global, reader: &mut Reader<'_>) -> Result<(), ScenarioFault>
    ensures value { MatchResult result
        (λ _. (found : Members) × (converted (λ ms. of_members ms no_members) (json_spec.members (json_spec.value 125) (length reader.old) reader.old) ≡ Some (found, reader.new)))
        (λ fault. fault ≢ ScenarioFault.Memory → converted (λ ms. of_members ms no_members) (json_spec.members (json_spec.value 125) (length reader.old) reader.old) ≡ None) }
    ensures shorter { OnOk result (length reader.new < length reader.old) }
{
    'members: while let Some(_) = reader.next_key()? {
        drop(next_value(alloc, reader, INNER_DEPTH)?);
    }
    Ok(())
}

/// The value of the field `calls`: what its records spell, where it is an array.
fn calls_member(
    alloc: Global,
    reader: &mut Reader<'_>,
) -> Result<Option<Result<Vec<Item>, ScenarioFault>>, ScenarioFault>
    ensures value { MatchResult result
        (λ calls. (one : Data) × (converted of_json (json_spec.value 126 reader.old) ≡ Some (one, reader.new)) × spec.AreCalls (as_array one) calls)
        (λ fault. fault ≢ ScenarioFault.Memory → converted of_json (json_spec.value 126 reader.old) ≡ None) }
    ensures shorter { OnOk result (length reader.new < length reader.old) }
{
    let Some(token) = reader.next() else {
        return Err(ScenarioFault::Syntax);
    };
    match token {
        Token::BeginArray => Ok(Some(read_calls(alloc, reader)?)),
        Token::BeginObject => {
            pass_members(alloc, reader)?;
            Ok(None)
        }
        Token::Number(text) => match number(text) {
            Some(_) => Ok(None),
            None => Err(ScenarioFault::Syntax),
        },
        Token::String(_) => Ok(None),
        Token::Bool(_) => Ok(None),
        Token::Null => Ok(None),
        Token::EndObject | Token::EndArray | Token::Key(_) | Token::Bad => {
            Err(ScenarioFault::Syntax)
        }
    }
}

impl Outer {
    /// Keeps the name of a field that is not known, where it is the first of them.
    fn keep_unknown(&mut self, alloc: Global, name: &str) -> Result<(), AllocError>
        ensures { OnOk result (spec.KeepsUnknown self.old self.new) }
    {
        let is_first = match &self.unknown {
            Some(kept) => name < kept.as_str(),
            None => true,
        };
        if is_first {
            self.unknown = Some(Str::new(String::from_str(alloc, name)?));
        }
        Ok(())
    }

    /// Reads the value of the member of that name.
    fn read_member(
        &mut self,
        alloc: Global,
        reader: &mut Reader<'_>,
        name: &str,
    ) -> Result<(), ScenarioFault>
        ensures value { MatchResult result
            (λ _. (one : Data) × (converted of_json (json_spec.value 126 reader.old) ≡ Some (one, reader.new))
            × ((found : Members) → spec.Describes found self.old → spec.Describes (put name.now one found) self.new))
            (λ fault. fault ≢ ScenarioFault.Memory → converted of_json (json_spec.value 126 reader.old) ≡ None) }
        ensures shorter { OnOk result (length reader.new < length reader.old) }
    {
        match name {
            "calls" => {
                self.calls = calls_member(alloc, reader)?;
                Ok(())
            }
            "held" => {
                self.held = Some(next_value(alloc, reader, MEMBER_DEPTH)?);
                Ok(())
            }
            _ => {
                drop(next_value(alloc, reader, MEMBER_DEPTH)?);
                Ok(self.keep_unknown(alloc, name)?)
            }
        }
    }
}

/// The outer object, whose opening brace is read, to its end.
pub(crate) fn read_outer(alloc: Global, reader: &mut Reader<'_>) -> Result<Outer, ScenarioFault>
    ensures { MatchResult result
        (λ outer. (found : Members) × (converted (λ ms. of_members ms no_members) (json_spec.members (json_spec.value 126) (length reader.old) reader.old) ≡ Some (found, reader.new))
        × spec.Describes found outer)
        (λ fault. fault ≢ ScenarioFault.Memory → converted (λ ms. of_members ms no_members) (json_spec.members (json_spec.value 126) (length reader.old) reader.old) ≡ None) }
{
    let mut outer = Outer {
        held: None,
        unknown: None,
        calls: None,
    };
    'members: while let Some(name) = reader.next_key()? {
        outer.read_member(alloc, reader, name)?;
    }
    Ok(outer)
}
