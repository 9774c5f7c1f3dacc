//! A new provider, which keeps nothing.

ghost use Rattle.std.specs.Prelude.{◌≡◌, IfSome};
ghost use Rattle.jm_plans.specs.Provider.{state_of};
ghost use Rattle.jm_machine.specs.Machine as machine;
ghost use Rattle.jm_words.specs.Words.{IsLimit};
ghost use Rattle.jm_play.specs.Play as spec;

use jm_core::Core;
use std::alloc::Global;

/// The number of the only opening of a provider that keeps nothing.
pub const OPENING: u32 = 1;

/// How many rows a subscription may hold that is not durable, where nothing says it (ours).
const HELD_LIMIT: u32 = 100_000;

/// How many rows a subscription may hold that is not durable: as many as are given, else as many as the scenario says,
/// else 100,000 (ours).
pub fn held_limit(given: Option<u32>, own: Option<u32>) -> u32
    requires given { IfSome given IsLimit }
    requires own { IfSome own IsLimit }
    ensures limit { result ≡ spec.held_limit given own }
    ensures bounds { IsLimit result }
{
    given.or(own).unwrap_or(HELD_LIMIT)
}

/// A new provider in opening 1, whose subscriptions hold at most so many rows, if they are not durable. Takes no memory.
pub fn new_core(alloc: Global, limit: u32) -> Core
    requires { IsLimit limit }
    ensures { state_of result ≡ machine.new_core 1 limit }
{
    match Core::new(alloc, OPENING, limit) {
        Ok(core) => core,
        Err(_) => unreachable!(),
    }
}
