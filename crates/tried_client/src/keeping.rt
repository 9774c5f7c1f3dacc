//! A keeper that keeps nothing.

ghost use Rattle.std.specs.Prelude.{◌≡◌, true};

use jm_client::{Plain, Provider, Refusal};
use jm_core::Core;
use jm_keep::{Keep, RowChange, StoreFault};
use std::alloc::Global;
use std::sync::Wait;
use std::time::Clock;

/// Is told what changes, and drops it. It is never clean, since it keeps nothing that is read again.
#[derive(Clone, Copy)]
pub struct Heedless;

impl Keep for Heedless {
    ghost use Rattle.std.specs.Prelude.{false, true};
    ghost use Rattle.jm_keep.specs.Stored.{nothing};

    ghost stored = { λ _. nothing };

    ghost faults = { λ _. 0 };

    ghost is_clean = { λ _. false };

    ghost is_keeping = { λ _. true };

    fn keeps(&self) -> bool
        ensures { result ≡ true }
    {
        true
    }

    fn write(&mut self, _changes: &[RowChange]) -> Result<(), StoreFault> {
        Ok(())
    }
}

/// What makes the calls: a core over such a keeper.
pub(crate) type Kept = Plain<Heedless>;

/// A new provider over such a keeper.
pub(crate) fn provider<R: Wait + Clock>(
    rt: &R,
    alloc: Global,
) -> Result<Provider<'_, R, Kept>, Refusal> {
    let core = Core::new(alloc, 1, 100_000)?;
    Ok(Provider::over(rt, alloc, core, Heedless))
}
