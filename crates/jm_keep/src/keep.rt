ghost use Rattle.std.specs.Prelude.{◌≡◌, ◌≤◌, ℕ, Bool, false, IsTrue, IsOk, OnOk, OnErr, IsErrOf};
ghost use Rattle.jm_keep.specs.Stored.{Stored, changed_all, HasRisen, nothing};

use crate::change::RowChange;

/// Why changes are not kept.
#[derive(Debug, Clone, Copy, PartialEq, Eq)]
pub enum StoreFault {
    /// A request for memory was refused.
    Memory,
    /// What keeps the rows failed, which the keeper counts.
    Device,
}

/// What keeps what is stored (ours). Each call says what is stored only of a keeper that is clean at its end.
pub trait Keep {
    /// What is stored.
    ghost stored: { Self → Stored };
    /// How often it has failed; at 2^64-1 it stays.
    ghost faults: { Self → ℕ };
    /// It has found again all that it wrote.
    ghost is_clean: { Self → Bool };

    /// It keeps something.
    ghost is_keeping: { Self → Bool };

    /// Whether it keeps anything. One that does not is never written to, and no changes are listed for it.
    fn keeps(&self) -> bool
        ensures keeping { result ≡ is_keeping self.now }
        ensures clean { IsTrue (is_clean self.now) → IsTrue result };

    /// Makes all changes, in turn, or none of them.
    ///
    /// `Memory` where a request for memory was refused. `Device` where what keeps the rows failed: the count of faults has
    /// risen in this call, or is at its last value.
    fn write(&mut self, changes: &[RowChange]) -> Result<(), StoreFault>
        ensures written { IsTrue (is_clean self.new) → OnOk result (stored self.new ≡ changed_all (stored self.old) changes.now) }
        ensures refused { IsTrue (is_clean self.new) → OnErr result (stored self.new ≡ stored self.old) }
        ensures clean { IsTrue (is_clean self.new) → IsTrue (is_clean self.old) }
        ensures counts { faults self.old ≤ faults self.new }
        ensures device { IsErrOf result StoreFault.Device → HasRisen (faults self.old) (faults self.new) };
}

/// Keeps nothing, for a provider without a store (ours). It is never clean, so nothing is promised of what is stored.
#[derive(Debug, Clone, Copy, PartialEq, Eq)]
pub struct NoKeep;

impl Keep for NoKeep {
    ghost use Rattle.std.specs.Prelude.{false};
    ghost use Rattle.jm_keep.specs.Stored.{nothing};

    ghost stored = { λ _. nothing };

    ghost faults = { λ _. 0 };

    ghost is_clean = { λ _. false };

    ghost is_keeping = { λ _. false };

    fn keeps(&self) -> bool
        ensures { result ≡ false }
    {
        false
    }

    /// Does nothing. Takes no memory.
    fn write(&mut self, _changes: &[RowChange]) -> Result<(), StoreFault>
        ensures { IsOk result }
    {
        Ok(())
    }
}
