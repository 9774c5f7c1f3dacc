//! A keeper that fails once.

ghost use Rattle.std.specs.Prelude.{◌≡◌, true};

use jm_keep::{Keep, MemKeep, RowChange, StoreFault};
use std::alloc::Global;

/// Keeps in memory, and fails at one write: then it makes none of its changes, and counts a fault.
pub(crate) struct OnceKeep {
    kept: MemKeep,
    /// How many writes are to come before the one that fails; none where it has failed.
    before: Option<u32>,
    faults: u64,
}

impl Drop for OnceKeep {
    fn drop(self) {
        let OnceKeep {
            kept: _kept,
            before: _before,
            faults: _faults,
        } = self;
    }
}

impl OnceKeep {
    /// Fails at the write after so many.
    pub(crate) fn new(alloc: Global, before: u32) -> OnceKeep {
        OnceKeep {
            kept: MemKeep::new(alloc),
            before: Some(before),
            faults: 0,
        }
    }

    /// How many changes were made.
    pub(crate) fn changes_len(&self) -> usize {
        self.kept.changes().len()
    }

    /// How often it failed.
    pub(crate) fn faults(&self) -> u64 {
        self.faults
    }

    /// Whether the next write is the one that fails, which none is from then on.
    fn fails_now(&mut self) -> bool
        ensures kept { self.new.kept ≡ self.old.kept }
        ensures faults { self.new.faults ≡ self.old.faults }
    {
        match self.before {
            None => false,
            Some(0) => {
                self.before = None;
                true
            }
            Some(before) => {
                self.before = Some(before - 1);
                false
            }
        }
    }
}

impl Keep for OnceKeep {
    ghost use Rattle.std.specs.Prelude.{true};
    ghost use Rattle.jm_keep.specs.Stored.{changed_all, nothing};

    ghost stored = { λ k. changed_all nothing k.kept };

    ghost faults = { λ k. k.faults };

    ghost is_clean = { λ k. true };

    ghost is_keeping = { λ k. true };

    fn keeps(&self) -> bool
        ensures { result ≡ true }
    {
        true
    }

    fn write(&mut self, changes: &[RowChange]) -> Result<(), StoreFault> {
        if self.fails_now() {
            self.faults = self.faults.saturating_add(1);
            return Err(StoreFault::Device);
        }
        self.kept.write(changes)
    }
}
