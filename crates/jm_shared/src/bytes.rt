ghost use Rattle.std.specs.Prelude.{◌≡◌, nat_eq, IfOk, Some};
ghost use Rattle.std.specs.Cmp.{partial_equiv_from_equiv};
ghost use Rattle.std.specs.Cmp.Lexicographic.{pointwise, slice_cmp, nat_list_cmp_total, nat_list_eq_equiv, texts_po, texts_ties};
ghost use Rattle.std.specs.Ordering.{nat_cmp};
ghost use Rattle.std.proofs.Common.{refl};

use std::alloc::{AllocError, Global};
use std::cmp::Ordering;
use std::fmt;
use std::marker::Model;
use std::sync::ArcSlice;

/// Bytes that never change, which several may own. Contracts see the list of them.
pub struct SharedBytes {
    bytes: ArcSlice<u8>,
}

impl Drop for SharedBytes {
    fn drop(self) {
        let SharedBytes { bytes: _bytes } = self;
    }
}

impl Model for SharedBytes {
    ghost use Rattle.std.specs.Prelude.{List, ℕ};
    ghost use Rattle.std.specs.Coded.{coded_list, coded_ℕ};
    ghost use Rattle.std.specs.Arc.{arc_slice_items};

    ghost Value = { List ℕ };

    ghost coded = { coded_list coded_ℕ };

    ghost view = { λ b. arc_slice_items b.bytes };
}

impl SharedBytes {
    /// Equal bytes, with memory of their own. `AllocError` where a request for memory was refused.
    pub fn from_slice(alloc: Global, bytes: &[u8]) -> Result<SharedBytes, AllocError>
        ensures { IfOk result (λ shared. shared ≡ bytes.now) }
    {
        Ok(SharedBytes {
            bytes: ArcSlice::from_slice(alloc, bytes)?,
        })
    }

    /// The bytes, moved in. `AllocError` where a request for memory was refused; then the bytes are dropped.
    pub fn from_vec(bytes: Vec<u8>) -> Result<SharedBytes, AllocError>
        ensures { IfOk result (λ shared. shared ≡ bytes.items) }
    {
        Ok(SharedBytes {
            bytes: ArcSlice::from_vec(bytes)?,
        })
    }

    /// The bytes. Takes no memory.
    pub fn as_bytes(&self) -> &[u8]
        ensures { result.now ≡ self.now }
    {
        self.bytes.as_slice()
    }

    /// The same bytes, with one owner more. Takes no memory; `AllocError` where they have 9,223,372,036,854,775,807 owners.
    pub fn copy(&self) -> Result<SharedBytes, AllocError>
        ensures { IfOk result (λ copy. copy ≡ self.now) }
    {
        Ok(SharedBytes {
            bytes: self.bytes.clone()?,
        })
    }
}

impl Clone for SharedBytes {
    ghost use Rattle.std.specs.Prelude.{◌≡◌};

    ghost is_clone = { λ bytes copy. copy ≡ bytes };

    /// The same bytes, with one owner more, as `copy` has it.
    fn clone(&self) -> Result<SharedBytes, AllocError> {
        self.copy()
    }
}

impl PartialEq for SharedBytes {
    ghost eq = { λ a b. pointwise nat_eq a b };

    ghost laws = { partial_equiv_from_equiv nat_list_eq_equiv };

    fn eq(&self, other: &SharedBytes) -> bool {
        self.as_bytes() == other.as_bytes()
    }
}

impl Eq for SharedBytes {
    ghost laws = { nat_list_eq_equiv };
}

impl PartialOrd for SharedBytes {
    ghost partial_cmp = { λ a b. Some (slice_cmp nat_cmp a b) };

    ghost laws = { texts_po };

    fn partial_cmp(&self, other: &SharedBytes) -> Option<Ordering> {
        Some(self.cmp(other))
    }
}

impl Ord for SharedBytes {
    ghost cmp = { λ a b. slice_cmp nat_cmp a b };

    ghost total = { nat_list_cmp_total };

    ghost matches_partial_cmp = { λ a b. refl };

    ghost matches_eq = { texts_ties };

    fn cmp(&self, other: &SharedBytes) -> Ordering {
        self.as_bytes().cmp(other.as_bytes())
    }
}

impl fmt::Debug for SharedBytes {
    fn fmt<W: fmt::Write>(&self, f: &mut fmt::Formatter<W>) -> fmt::Result {
        fmt::Debug::fmt(self.as_bytes(), f)
    }
}
