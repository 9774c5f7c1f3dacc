//! Scenarios on a new provider.

ghost use Rattle.std.specs.Prelude.{◌≤◌, ◌+◌, IfSome};
ghost use Rattle.jm_words.specs.Words.{IsLimit};
ghost use Rattle.jm_play.specs.Ending.{Ends, ToldBy};
ghost use Rattle.jm_play.specs.Play.{Plays, RefusesScenario};
ghost use Rattle.jm_play.specs.Source.{reads, reads_max};

use crate::ending::{Ending, Printout, ended};
use crate::fault::Fault;
use crate::provider::held_limit;
use crate::reading::scenario_of;
use crate::runs::lines_of;
use crate::sink::Sink;
use crate::source::Source;
use std::alloc::Global;
use std::io::{Read, Write};

/// The lines of the replies to the items of the scenario that the source gives, with the limit that is given, if one
/// is.
fn told<R: Read>(
    alloc: Global,
    held: Option<u32>,
    source: &mut Source<R>,
) -> Result<Printout, Fault>
    requires { IfSome held IsLimit }
    ensures told { ToldBy (Plays R.remaining held source.old source.new)
        (RefusesScenario R.remaining source.old source.new) result }
    ensures reads { reads source.new ≤ reads source.old + reads_max }
{
    let scenario = scenario_of(alloc, source)?;
    let limit = held_limit(held, scenario.held);
    Ok(lines_of(alloc, limit, scenario.items.into_inner())?)
}

/// Reads a scenario, in at most 16,777,217 reads, makes its calls in turn on a new provider, and prints the line of each
/// reply; forks and joins have no effect, and are answered `Done`. A subscription that is not durable holds at most `held`
/// rows, 1 to 1,000,000; where none is given, as many as the scenario says, and where that says none, 100,000.
pub fn play<R: Read, W: Write>(
    alloc: Global,
    held: Option<u32>,
    source: &mut Source<R>,
    sink: &mut Sink<W>,
) -> Ending
    requires { IfSome held IsLimit }
    ensures ends { Ends (Plays R.remaining held source.old source.new) (RefusesScenario R.remaining source.old source.new)
        W.contents sink.old sink.new result }
    ensures reads { reads source.new ≤ reads source.old + reads_max }
{
    ended(sink, told(alloc, held, source))
}
