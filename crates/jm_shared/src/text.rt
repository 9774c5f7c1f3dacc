ghost use Rattle.std.specs.Prelude.{◌≡◌, string_bytes, nat_eq, IfOk, Some};
ghost use Rattle.std.specs.Cmp.{partial_equiv_from_equiv};
ghost use Rattle.std.specs.Cmp.Lexicographic.{pointwise, slice_cmp, nat_list_cmp_total, nat_list_eq_equiv, texts_po, texts_ties};
ghost use Rattle.std.specs.Ordering.{nat_cmp};
ghost use Rattle.std.specs.Hash as fed;
ghost use Rattle.std.specs.Cmp.Rules.{hashing};
ghost use Rattle.std.proofs.Common.{refl, rules};

use std::alloc::{AllocError, Global};
use std::cmp::Ordering;
use std::fmt;
use std::hash::{Hash, Hasher};
use std::marker::Model;
use std::sync::ArcStr;

/// A text that never changes, which several may own. Contracts see its bytes.
pub struct SharedStr {
    text: ArcStr,
}

impl Drop for SharedStr {
    fn drop(self) {
        let SharedStr { text: _text } = self;
    }
}

impl Model for SharedStr {
    ghost use Rattle.std.specs.Prelude.{List, ℕ};
    ghost use Rattle.std.specs.Coded.{coded_list, coded_ℕ};
    ghost use Rattle.std.specs.Arc.{arc_str_bytes};

    ghost Value = { List ℕ };

    ghost coded = { coded_list coded_ℕ };

    ghost view = { λ s. arc_str_bytes s.text };
}

impl SharedStr {
    /// An equal text, with memory of its own. `AllocError` where a request for memory was refused.
    pub fn from_str(alloc: Global, text: &str) -> Result<SharedStr, AllocError>
        ensures { IfOk result (λ shared. shared ≡ text.now) }
    {
        Ok(SharedStr {
            text: ArcStr::from_str(alloc, text)?,
        })
    }

    /// The text, moved in. `AllocError` where a request for memory was refused; then the text is dropped.
    pub fn from_string(text: String) -> Result<SharedStr, AllocError>
        ensures { IfOk result (λ shared. shared ≡ string_bytes text) }
    {
        Ok(SharedStr {
            text: ArcStr::from_string(text)?,
        })
    }

    /// The text. Takes no memory.
    pub fn as_str(&self) -> &str
        ensures { result.now ≡ self.now }
    {
        self.text.as_str()
    }

    /// The same text, with one owner more. Takes no memory; `AllocError` where it has 9,223,372,036,854,775,807 owners.
    pub fn copy(&self) -> Result<SharedStr, AllocError>
        ensures { IfOk result (λ copy. copy ≡ self.now) }
    {
        Ok(SharedStr {
            text: self.text.clone()?,
        })
    }
}

impl Clone for SharedStr {
    ghost use Rattle.std.specs.Prelude.{◌≡◌};

    ghost is_clone = { λ text copy. copy ≡ text };

    /// The same text, with one owner more, as `copy` has it.
    fn clone(&self) -> Result<SharedStr, AllocError> {
        self.copy()
    }
}

impl PartialEq for SharedStr {
    ghost eq = { λ a b. pointwise nat_eq a b };

    ghost laws = { partial_equiv_from_equiv nat_list_eq_equiv };

    fn eq(&self, other: &SharedStr) -> bool {
        self.as_str() == other.as_str()
    }
}

impl Eq for SharedStr {
    ghost laws = { nat_list_eq_equiv };
}

impl PartialOrd for SharedStr {
    ghost partial_cmp = { λ a b. Some (slice_cmp nat_cmp a b) };

    ghost laws = { texts_po };

    fn partial_cmp(&self, other: &SharedStr) -> Option<Ordering> {
        Some(self.cmp(other))
    }
}

impl Ord for SharedStr {
    ghost cmp = { λ a b. slice_cmp nat_cmp a b };

    ghost total = { nat_list_cmp_total };

    ghost matches_partial_cmp = { λ a b. refl };

    ghost matches_eq = { texts_ties };

    fn cmp(&self, other: &SharedStr) -> Ordering {
        self.as_str().cmp(other.as_str())
    }
}

impl Hash for SharedStr {
    ghost hash_input = { fed.str };

    ghost respects_eq = { Prim.search (hashing, rules) };

    fn hash<H: Hasher>(&self, state: &mut H) {
        self.as_str().hash(state);
    }
}

impl fmt::Debug for SharedStr {
    fn fmt<W: fmt::Write>(&self, f: &mut fmt::Formatter<W>) -> fmt::Result {
        fmt::Debug::fmt(self.as_str(), f)
    }
}
