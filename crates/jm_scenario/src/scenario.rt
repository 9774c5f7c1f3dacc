ghost use Rattle.std.specs.Prelude.{◌≡◌, ◌≢◌, ◌↔◌, List, ◌∷◌, MatchResult, IfOk, IfErr, IsUtf8};
ghost use Rattle.std.specs.Bool.{MatchBool};
ghost use Rattle.json.specs.Token as token;
ghost use Rattle.serde_json.specs.Data.{Members, object};
ghost use Rattle.jm_scenario.specs.Calls as spec;
ghost use Rattle.jm_scenario.specs.Outer.{Describes};

use crate::item::Item;
use crate::outer::{Outer, read_outer};
use crate::parsed::{next_value, value_of};
use jm_base::List;
use jm_fields::{Field, FieldName, Misfit, held};
use json::{Invalid, Reader, Scratch, Token};
use std::alloc::{AllocError, AllocFailed, Global};
use std::{fmt, str};
use thiserror::Error;

/// How deep a value in an array may nest that is the whole text.
const VALUE_DEPTH: usize = 126;

/// What a scenario asks for (ours).
#[derive(PartialEq, Drop)]
pub struct Scenario {
    /// How many rows a subscription that is not durable may hold, where the scenario says it: 1 to 1,000,000.
    pub held: Option<u32>,
    /// The items, in order: fork and join alternate, beginning with a fork, and between them stand calls by sessions alone.
    pub items: List<Item>,
}

/// Why bytes are no scenario (ours). Steps are the numbers of items, from 1; step 0 is the outer
/// object.
#[derive(Debug, PartialEq, Drop, Error)]
pub enum ScenarioFault {
    /// The bytes are no JSON.
    Syntax,
    /// The field is missing, of the wrong type, out of its range, or not known there.
    Shape { step: usize, field: FieldName },
    /// A number of the step is no whole number of 64 bits.
    Floating { step: usize },
    /// A request for memory was refused.
    Memory,
}

impl fmt::Display for ScenarioFault {
    ghost use Rattle.std.specs.Prelude.{Some};
    ghost use Rattle.jm_scenario.specs.Faults.{fault_text};

    ghost output = { λ fault. Some (fault_text fault) };

    /// What is told of the fault: `scenario:` and its place, or `memory`.
    fn fmt<W: fmt::Write>(&self, f: &mut fmt::Formatter<W>) -> fmt::Result {
        match self {
            ScenarioFault::Syntax => f.write_str("scenario: syntax"),
            ScenarioFault::Shape { step, field } => {
                write!(f, "scenario: step {step}: field {field}")
            }
            ScenarioFault::Floating { step } => write!(f, "scenario: step {step}: floating"),
            ScenarioFault::Memory => f.write_str("memory"),
        }
    }
}

impl From<AllocError> for ScenarioFault {
    ghost use Rattle.std.specs.Prelude.{◌≡◌};
    ghost use Rattle.jm_scenario.specs.declared.scenario.ScenarioFault.TheVariants.{Memory};

    ghost from_gives = { λ _ fault. fault ≡ Memory };

    fn from(_: AllocError) -> ScenarioFault {
        ScenarioFault::Memory
    }
}

impl<T: Drop> From<AllocFailed<T>> for ScenarioFault {
    ghost use Rattle.std.specs.Prelude.{◌≡◌};
    ghost use Rattle.jm_scenario.specs.declared.scenario.ScenarioFault.TheVariants.{Memory};

    ghost from_gives = { λ _ fault. fault ≡ Memory };

    fn from(_: AllocFailed<T>) -> ScenarioFault {
        ScenarioFault::Memory
    }
}

impl From<Invalid> for ScenarioFault {
    ghost use Rattle.std.specs.Prelude.{◌≡◌};
    ghost use Rattle.jm_scenario.specs.declared.scenario.ScenarioFault.TheVariants.{Syntax};

    ghost from_gives = { λ _ fault. fault ≡ Syntax };

    fn from(_: Invalid) -> ScenarioFault {
        ScenarioFault::Syntax
    }
}

/// The fault of that step.
pub(crate) fn fault_at(step: usize, misfit: Misfit) -> ScenarioFault
    ensures { (result ≡ ScenarioFault.Memory) ↔ (misfit ≡ Misfit.Memory) }
{
    match misfit {
        Misfit::Shape(field) => ScenarioFault::Shape {
            step,
            field: FieldName::Known(field),
        },
        Misfit::Unknown(name) => ScenarioFault::Shape {
            step,
            field: FieldName::Unknown(name),
        },
        Misfit::Floating => ScenarioFault::Floating { step },
        Misfit::Memory => ScenarioFault::Memory,
    }
}

/// The scenario of the outer object.
fn scenario_of(outer: Outer) -> Result<Scenario, ScenarioFault>
    ensures { (found : Members) → Describes found outer → MatchResult result (spec.IsSpelled (spec.scenario (object found)))
        (λ fault. fault ≢ ScenarioFault.Memory → spec.IsNoneSpelled (spec.scenario (object found))) }
{
    let Outer {
        held: limit,
        unknown,
        calls,
    } = outer;
    let Some(items) = calls else {
        return Err(fault_at(0, Misfit::Shape(Field::Calls)));
    };
    let held = match held(&limit) {
        Ok(held) => held,
        Err(misfit) => return Err(fault_at(0, misfit)),
    };
    if let Some(name) = unknown {
        return Err(fault_at(0, Misfit::Unknown(name)));
    }
    let items = List::new(items?);
    Ok(Scenario { held, items })
}

/// Passes the values of the array that the text is, and tells whether it is one. `Syntax` where it goes on otherwise than as one.
fn passes_array(alloc: Global, text: &str) -> Result<bool, ScenarioFault> {
    let mut scratch = Scratch::new(alloc);
    let mut reader = Reader::new(text, &mut scratch)?;
    let Some(Token::BeginArray) = reader.next() else {
        return Ok(false);
    };
    'values: while !reader.take_end_array() {
        drop(next_value(alloc, &mut reader, VALUE_DEPTH)?);
    }
    if reader.next().is_some() {
        return Err(ScenarioFault::Syntax);
    }
    Ok(true)
}

/// The fault of a text that does not begin with an object: it is told at `calls` where it is JSON.
fn without_object(alloc: Global, text: &str) -> ScenarioFault {
    match passes_array(alloc, text) {
        Ok(true) => fault_at(0, Misfit::Shape(Field::Calls)),
        Ok(false) => match value_of(alloc, text.as_bytes()) {
            Ok(_) => fault_at(0, Misfit::Shape(Field::Calls)),
            Err(fault) => fault,
        },
        Err(fault) => fault,
    }
}

/// Passes the brace that opens an object, and tells whether it stood there.
fn takes_brace(reader: &mut Reader<'_>) -> bool
    ensures { MatchBool result (reader.old ≡ token.begin_object ∷ reader.new) ((rest : List token.Token) → reader.old ≡ token.begin_object ∷ rest → ⊥) }
{
    matches!(reader.next(), Some(Token::BeginObject))
}

/// The scenario that the text spells, or why it spells none.
fn read_text(alloc: Global, text: &str) -> Result<Scenario, ScenarioFault>
    ensures { MatchResult result (spec.Spells text.now) (λ fault. fault ≢ ScenarioFault.Memory → spec.SpellsNone text.now) }
{
    let mut scratch = Scratch::new(alloc);
    let mut reader = Reader::new(text, &mut scratch)?;
    if !takes_brace(&mut reader) {
        return Err(without_object(alloc, text));
    }
    let outer = read_outer(alloc, &mut reader)?;
    if reader.next().is_some() {
        return Err(ScenarioFault::Syntax);
    }
    scenario_of(outer)
}

/// The scenario that the bytes spell. `Syntax` where the bytes are no JSON; else the first fault of the outer object, else of
/// the first item that has one, in the order of its fields; or `Memory` where a request for memory was refused. The fault of
/// a fork, a join or a call that has not its place is that of its field `op`: a fork where one is open, a join where none is,
/// a call by a connection where a fork is open.
pub fn read_scenario(alloc: Global, bytes: &[u8]) -> Result<Scenario, ScenarioFault>
    ensures ok { IfOk result (λ scenario. IsUtf8 bytes.now × spec.Spells bytes.now scenario) }
    ensures err { IfErr result (λ fault. fault ≢ ScenarioFault.Memory → IsUtf8 bytes.now → spec.SpellsNone bytes.now) }
{
    match str::from_utf8(bytes) {
        Ok(text) => read_text(alloc, text),
        Err(_) => Err(ScenarioFault::Syntax),
    }
}
