//! A keeper that fails once.

ghost use Rattle.std.specs.Prelude.{◌≡◌, true};

use jm_keep::{Keep, RowChange, StoreFault};

/// Fails at one write, and counts a fault then. It is never clean, since it keeps nothing that is read again.
#[derive(Clone, Copy)]
pub(crate) struct OnceKeep {
    /// How many writes are to come before the one that fails; none where none fails any more.
    before: Option<u32>,
    faults: u64,
}

impl OnceKeep {
    /// Fails at the write after so many, or at none.
    pub(crate) fn new(before: Option<u32>) -> OnceKeep {
        OnceKeep { before, faults: 0 }
    }

    /// Whether the next write is the one that fails.
    fn fails_now(&mut self) -> bool
        ensures { self.new.faults ≡ self.old.faults }
    {
        match self.before {
            None => false,
            Some(0) => {
                self.before = None;
                true
            }
            Some(before) => {
                self.before = Some(before - 1);
                false
            }
        }
    }
}

impl Keep for OnceKeep {
    ghost use Rattle.std.specs.Prelude.{false, true};
    ghost use Rattle.jm_keep.specs.Stored.{nothing};

    ghost stored = { λ _. nothing };

    ghost faults = { λ k. k.faults };

    ghost is_clean = { λ _. false };

    ghost is_keeping = { λ _. true };

    fn keeps(&self) -> bool
        ensures { result ≡ true }
    {
        true
    }

    fn write(&mut self, _changes: &[RowChange]) -> Result<(), StoreFault> {
        if self.fails_now() {
            self.faults = self.faults.saturating_add(1);
            return Err(StoreFault::Device);
        }
        Ok(())
    }
}
