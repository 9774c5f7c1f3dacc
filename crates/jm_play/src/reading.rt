//! Reads a scenario from a source.

ghost use Rattle.std.specs.Prelude.{◌≤◌, ◌+◌, IfOk, IfSome, MatchResult};
ghost use Rattle.jm_play.specs.Play.{GivesScenario, RefusesScenario, RefusesSpelled, SpellsScenario};
ghost use Rattle.jm_words.specs.Words.{IsLimit};
ghost use Rattle.jm_play.specs.Source.{GivesAll, IsFaultOfReading, reads, reads_max};

use crate::fault::Fault;
use crate::source::Source;
use jm_scenario::{Scenario, ScenarioFault, read_scenario};
use std::alloc::Global;
use std::io::Read;

/// The most bytes that a scenario may have.
const SCENARIO_MAX: usize = 16_777_216;

/// How many bytes are asked for in a read.
const CHUNK: usize = 4096;

/// The bytes to the end, in at most 16,777,217 reads. `File` where a read failed, or more than
/// 16,777,216 bytes came; `Memory` where a request for memory was refused.
#[tactic(auto, using(crate::proofs::Consumed::read_more, crate::proofs::Consumed::read_end, crate::proofs::Consumed::read_too_much))]
fn read_all<R: Read>(alloc: Global, source: &mut Source<R>) -> Result<Vec<u8>, Fault>
    ensures bytes { MatchResult result
        (λ bytes. GivesAll R.remaining source.old source.new bytes.items)
        (IsFaultOfReading R.remaining source.old source.new) }
    ensures reads { reads source.new ≤ reads source.old + reads_max }
{
    let mut bytes = Vec::new(alloc);
    'reads: for _ in 0..SCENARIO_MAX + 1 {
        let mut chunk = [0; CHUNK];
        let Some(count) = source.read(&mut chunk) else {
            return Err(Fault::File);
        };
        if count == 0 {
            return Ok(bytes);
        }
        if bytes.len() + count > SCENARIO_MAX {
            return Err(Fault::File);
        }
        bytes.extend_from_slice(&chunk[..count])?;
    }
    Err(Fault::File)
}

/// The scenario that the bytes spell. `Scenario` where they spell none; `Memory` where a request for memory
/// was refused.
#[tactic(auto, using(crate::proofs::Limits::scenario_limit))]
fn scenario_in(alloc: Global, bytes: &[u8]) -> Result<Scenario, Fault>
    ensures scenario { MatchResult result (SpellsScenario bytes.now) (RefusesSpelled bytes.now) }
    ensures limit { IfOk result (λ scenario. IfSome scenario.held IsLimit) }
{
    match read_scenario(alloc, bytes) {
        Ok(scenario) => Ok(scenario),
        Err(ScenarioFault::Memory) => Err(Fault::Memory),
        Err(fault) => Err(Fault::Scenario(fault)),
    }
}

/// The scenario that the source gives, in at most 16,777,217 reads. `File` where it cannot be
/// read, `Scenario` where what it gives is no scenario, `Memory` where a request for memory was refused.
#[tactic(auto, using(crate::proofs::Faults::reading_refuses))]
pub fn scenario_of<R: Read>(alloc: Global, source: &mut Source<R>) -> Result<Scenario, Fault>
    ensures scenario { MatchResult result
        (GivesScenario R.remaining source.old source.new)
        (RefusesScenario R.remaining source.old source.new) }
    ensures limit { IfOk result (λ scenario. IfSome scenario.held IsLimit) }
    ensures reads { reads source.new ≤ reads source.old + reads_max }
{
    let bytes = read_all(alloc, source)?;
    scenario_in(alloc, &bytes)
}
