//! Scenarios on a provider over a keeper.

ghost use Rattle.std.specs.Prelude.{◌≡◌, ◌≢◌, ◌≤◌, ◌+◌, IsTrue, IfOk, IfErr, IfSome, OnErr, string_bytes};
ghost use Rattle.jm_plans.specs.Provider.{state_of};
ghost use Rattle.jm_keep.specs.Persisted.{IsPersisted};
ghost use Rattle.jm_play.specs.Ending.{Ends, ToldBy};
ghost use Rattle.jm_play.specs.Over.{PlaysOver, RepliesOver};
ghost use Rattle.jm_play.specs.Play.{RefusesScenario};
ghost use Rattle.jm_play.specs.Source.{reads, reads_max};

use crate::ending::{Ending, Printout, ended};
use crate::fault::Fault;
use crate::reading::scenario_of;
use crate::runs::printout_of;
use crate::sink::Sink;
use crate::source::Source;
use jm_core::Core;
use jm_keep::Keep;
use jm_scenario::{Item, into_calls, item_kinds};
use std::alloc::{AllocError, Global};
use std::io::{Read, Write};

/// The lines of the replies to the items, whose calls are made in turn on the core over the keeper as `jm_kept::run` makes
/// them; forks and joins have no effect. `AllocError` where no room was found for the calls or their replies, and then no call
/// was made; or for the lines, and then all were made.
pub fn printout_over<K: Keep>(
    alloc: Global,
    core: &mut Core,
    keeper: &mut K,
    items: Vec<Item>,
) -> Result<Printout, AllocError>
    ensures told { IfOk result (λ printout. RepliesOver (state_of core.old) (state_of core.new) (K.faults keeper.old) (K.faults keeper.new)
        items.items (string_bytes printout.text) printout.status) }
    ensures faults { K.faults keeper.old ≤ K.faults keeper.new }
    ensures clean { IsTrue (K.is_clean keeper.new) → IsTrue (K.is_clean keeper.old) }
    ensures kept { IsTrue (K.is_clean keeper.new) → IsPersisted (state_of core.old) (K.stored keeper.old) →
        IsPersisted (state_of core.new) (K.stored keeper.new) }
{
    let kinds = item_kinds(alloc, &items)?;
    let calls = into_calls(alloc, items)?;
    let replies = jm_kept::run(alloc, core, keeper, calls)?;
    printout_of(alloc, &kinds, replies)
}

/// The lines of the replies to the items of the scenario that the source gives.
fn told<K: Keep, R: Read>(
    alloc: Global,
    core: &mut Core,
    keeper: &mut K,
    source: &mut Source<R>,
) -> Result<Printout, Fault>
    ensures told { ToldBy (PlaysOver R.remaining (state_of core.old) (state_of core.new) (K.faults keeper.old) (K.faults keeper.new)
        source.old source.new) (RefusesScenario R.remaining source.old source.new) result }
    ensures refused { IfErr result (λ fault. fault ≢ Fault.Memory → (state_of core.new ≡ state_of core.old) × (keeper.new ≡ keeper.old)) }
    ensures faults { K.faults keeper.old ≤ K.faults keeper.new }
    ensures clean { IsTrue (K.is_clean keeper.new) → IsTrue (K.is_clean keeper.old) }
    ensures kept { IsTrue (K.is_clean keeper.new) → IsPersisted (state_of core.old) (K.stored keeper.old) →
        IsPersisted (state_of core.new) (K.stored keeper.new) }
    ensures reads { reads source.new ≤ reads source.old + reads_max }
{
    let scenario = scenario_of(alloc, source)?;
    Ok(printout_over(alloc, core, keeper, scenario.items.into_inner())?)
}

/// Reads a scenario, in at most 16,777,217 reads, makes its calls in turn on the core over the keeper, and prints the line of
/// each reply; forks and joins have no effect, and are answered `Done`. The core's own limit of held rows counts, and not the
/// scenario's. Each reply is the machine's, or is `Memory` or `Store`, and then the call was not made; after each accepted call
/// the keeper has stored what is stored of the state. Where the source gives no scenario, core and keeper are as before. A want
/// of memory for the lines is told after the calls were made.
pub fn play_over<K: Keep, R: Read, W: Write>(
    alloc: Global,
    core: &mut Core,
    keeper: &mut K,
    source: &mut Source<R>,
    sink: &mut Sink<W>,
) -> Ending
    ensures ends { Ends (PlaysOver R.remaining (state_of core.old) (state_of core.new) (K.faults keeper.old) (K.faults keeper.new)
        source.old source.new) (RefusesScenario R.remaining source.old source.new) W.contents sink.old sink.new result }
    ensures refused { IfSome result.fault (λ fault. fault ≢ Fault.Memory → (state_of core.new ≡ state_of core.old) × (keeper.new ≡ keeper.old)) }
    ensures faults { K.faults keeper.old ≤ K.faults keeper.new }
    ensures clean { IsTrue (K.is_clean keeper.new) → IsTrue (K.is_clean keeper.old) }
    ensures kept { IsTrue (K.is_clean keeper.new) → IsPersisted (state_of core.old) (K.stored keeper.old) →
        IsPersisted (state_of core.new) (K.stored keeper.new) }
    ensures reads { reads source.new ≤ reads source.old + reads_max }
{
    ended(sink, told(alloc, core, keeper, source))
}
