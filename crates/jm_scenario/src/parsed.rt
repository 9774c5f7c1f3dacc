//! The values of a JSON text, one at a time, read of its tokens.

ghost use Rattle.std.specs.Prelude.{◌≡◌, ◌≢◌, ◌<◌, length, Some, None, OnOk, IsUtf8, MatchResult};
ghost use Rattle.json.specs.Json as json_spec;
ghost use Rattle.serde_json.specs.Data.{no_members};
ghost use Rattle.serde_json.specs.Read.{converted, of_items, of_json, of_members, read};
ghost use Rattle.serde_json.specs.View.{items_view, members_view, view};

use crate::numbers::number;
use crate::scenario::ScenarioFault;
use json::{Reader, Token};
use serde_json::{Category, Map, Value};
use std::alloc::Global;

/// The value that the text spells. `Syntax` where it spells none.
pub(crate) fn value_of(alloc: Global, text: &[u8]) -> Result<Value, ScenarioFault>
    ensures { MatchResult result (λ one. read text.now ≡ Some (view one))
        (λ fault. fault ≢ ScenarioFault.Memory → IsUtf8 text.now → read text.now ≡ None) }
{
    match Value::from_slice(alloc, text) {
        Ok(value) => Ok(value),
        Err(error) => match error.classify() {
            Category::Memory => Err(ScenarioFault::Memory),
            _ => Err(ScenarioFault::Syntax),
        },
    }
}

/// The next value of the text, whose arrays and objects may nest that deep. `Syntax` where none stands there.
#[cycle(next_value)]
pub(crate) fn next_value(
    alloc: Global,
    reader: &mut Reader<'_>,
    depth: usize,
) -> Result<Value, ScenarioFault>
    ensures value { MatchResult result (λ one. converted of_json (json_spec.value depth reader.old) ≡ Some (view one, reader.new))
        (λ fault. fault ≢ ScenarioFault.Memory → converted of_json (json_spec.value depth reader.old) ≡ None) }
    ensures shorter { OnOk result (length reader.new < length reader.old) }
{
    let Some(token) = reader.next() else {
        return Err(ScenarioFault::Syntax);
    };
    match token {
        Token::String(text) => Ok(Value::String(String::from_str(alloc, text)?)),
        Token::Number(text) => match number(text) {
            Some(number) => Ok(Value::Number(number)),
            None => Err(ScenarioFault::Syntax),
        },
        Token::Bool(truth) => Ok(Value::Bool(truth)),
        Token::Null => Ok(Value::Null),
        Token::BeginArray => {
            if depth == 0 {
                return Err(ScenarioFault::Syntax);
            }
            Ok(Value::Array(next_items(alloc, reader, depth - 1)?))
        }
        Token::BeginObject => {
            if depth == 0 {
                return Err(ScenarioFault::Syntax);
            }
            Ok(Value::Object(next_members(alloc, reader, depth - 1)?))
        }
        Token::EndObject | Token::EndArray | Token::Key(_) | Token::Bad => {
            Err(ScenarioFault::Syntax)
        }
    }
}

/// The values to the end of the array, each of which may nest that deep.
#[cycle(next_value)]
fn next_items(
    alloc: Global,
    reader: &mut Reader<'_>,
    depth: usize,
) -> Result<Vec<Value>, ScenarioFault>
    ensures value { MatchResult result
        (λ found. converted of_items (json_spec.items (json_spec.value depth) (length reader.old) reader.old) ≡ Some (items_view found.items, reader.new))
        (λ fault. fault ≢ ScenarioFault.Memory → converted of_items (json_spec.items (json_spec.value depth) (length reader.old) reader.old) ≡ None) }
    ensures shorter { OnOk result (length reader.new < length reader.old) }
{
    let mut found = Vec::new(alloc);
    'items: while !reader.take_end_array() {
        found.push(next_value(alloc, reader, depth)?)?;
    }
    Ok(found)
}

/// The members to the end of the object, whose values may nest that deep: of each name the last value.
#[cycle(next_value)]
fn next_members(
    alloc: Global,
    reader: &mut Reader<'_>,
    depth: usize,
) -> Result<Map<String, Value>, ScenarioFault>
    ensures value { MatchResult result
        (λ found. converted (λ ms. of_members ms no_members) (json_spec.members (json_spec.value depth) (length reader.old) reader.old) ≡ Some (members_view found.entries, reader.new))
        (λ fault. fault ≢ ScenarioFault.Memory → converted (λ ms. of_members ms no_members) (json_spec.members (json_spec.value depth) (length reader.old) reader.old) ≡ None) }
    ensures shorter { OnOk result (length reader.new < length reader.old) }
{
    let mut found = Map::new(alloc);
    'members: while let Some(name) = reader.next_key()? {
        let key = String::from_str(alloc, name)?;
        let value = next_value(alloc, reader, depth)?;
        drop(found.insert(key, value)?);
    }
    Ok(found)
}
