//! Keepers in whose type stands whether they were clean once.

ghost use Rattle.std.specs.Prelude.{◌≡◌, ◌≤◌, Bool, false, IsTrue, OnOk, OnErr, IsErrOf};
ghost use Rattle.jm_keep.specs.Stored.{HasRisen, changed_all};

use jm_keep::{Keep, RowChange, StoreFault};
use std::marker::{Brand, Model, PhantomData};

/// Whether a keeper was clean, as a type (ours).
pub(crate) trait Past {
    /// It was clean.
    ghost was_clean: { Bool };
}

impl Past for Brand {
    ghost was_clean = { false };
}

/// A keeper in whose type stands whether it was clean as it was handed over (ours): a lock forgets with which keeper it began, and
/// its type does not. Contracts see the keeper alone, and that it is clean only if it was.
#[derive(Drop)]
pub(crate) struct Remembering<K: Keep, P: Past> {
    keeper: K,
    past: PhantomData<P>,
}

impl<K: Keep, P: Past> Model for Remembering<K, P> {
    ghost use Rattle.std.specs.Prelude.{IsTrue};

    ghost Value = { K };

    ghost view = { λ r. r.keeper };

    ghost invariant = { λ r. IsTrue (K.is_clean r.keeper) → IsTrue P.was_clean };
}

impl<K: Keep, P: Past> Remembering<K, P> {
    /// The keeper, which is clean only if it was.
    pub(crate) fn new(keeper: K) -> Remembering<K, P>
        requires { IsTrue (K.is_clean keeper) → IsTrue P.was_clean }
        ensures { result ≡ keeper }
    {
        Remembering {
            keeper,
            past: PhantomData,
        }
    }

    /// The keeper itself.
    pub(crate) fn into_keeper(self) -> K
        ensures same { result ≡ self }
        ensures clean { IsTrue (K.is_clean result) → IsTrue P.was_clean }
    {
        let Remembering {
            keeper,
            past: _past,
        } = self;
        keeper
    }
}

impl<K: Keep, P: Past> Keep for Remembering<K, P> {
    ghost stored = { λ r. K.stored r };

    ghost faults = { λ r. K.faults r };

    ghost is_clean = { λ r. K.is_clean r };

    ghost is_keeping = { λ r. K.is_keeping r };

    fn keeps(&self) -> bool
        ensures keeping { result ≡ K.is_keeping self.now }
        ensures clean { IsTrue (K.is_clean self.now) → IsTrue result }
    {
        self.keeper.keeps()
    }

    /// The keeper's own.
    fn write(&mut self, changes: &[RowChange]) -> Result<(), StoreFault>
        ensures written { IsTrue (K.is_clean self.new) → OnOk result (K.stored self.new ≡ changed_all (K.stored self.old) changes.now) }
        ensures refused { IsTrue (K.is_clean self.new) → OnErr result (K.stored self.new ≡ K.stored self.old) }
        ensures clean { IsTrue (K.is_clean self.new) → IsTrue (K.is_clean self.old) }
        ensures counts { K.faults self.old ≤ K.faults self.new }
        ensures device { IsErrOf result StoreFault.Device → HasRisen (K.faults self.old) (K.faults self.new) }
    {
        self.keeper.write(changes)
    }
}
