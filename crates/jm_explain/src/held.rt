//! What is held of a key that has a name, as far as a cause looks at it.

ghost use Rattle.std.specs.Prelude.{◌≡◌, not};
ghost use Rattle.jm_machine.specs.Under.{placed_under};
ghost use Rattle.jm_plans.specs.Provider.{state_of};
ghost use Rattle.jm_explain.specs.Held.{is_active_at, is_any_active, is_any_out};

use jm_core::Core;
use jm_dest::Key;
use jm_machine::Consumer;
use jm_overview::overview_at;

/// Whether the consumer is active, and receives from the key.
fn is_at(consumer: &Consumer, key: &Key) -> bool
    ensures { result ≡ is_active_at key.now consumer.now }
{
    consumer.key.is(key) && consumer.is_active
}

/// Whether one of the consumers receives from the key, and is active.
fn is_one_active(consumers: &[Consumer], key: &Key) -> bool
    ensures { result ≡ is_any_active key.now consumers.now }
{
    consumers.iter().any(|x| is_at(x, key))
}

/// Whether no consumer of the key is active. Goes over all consumers that were ever made.
pub(crate) fn is_idle(core: &Core, key: &Key) -> bool
    ensures { result ≡ not (is_any_active key.now (state_of core.now).consumers) }
{
    !is_one_active(core.consumers(), key)
}

/// Whether no row of the key is out. Goes over its rows.
pub(crate) fn is_home(core: &Core, key: &Key) -> bool
    ensures { result ≡ not (is_any_out (placed_under (state_of core.now) key.now)) }
{
    match core.index_of(key) {
        None => true,
        Some(index) => overview_at(core, index).out == 0,
    }
}
