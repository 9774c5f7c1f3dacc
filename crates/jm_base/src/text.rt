ghost use Rattle.std.specs.Prelude.{◌≡◌, ◌↔◌, string_bytes, nat_eq, IfOk, IsTrue};
ghost use Rattle.std.specs.Cmp.{partial_equiv_from_equiv};
ghost use Rattle.std.specs.Cmp.Lexicographic.{pointwise, nat_list_eq_equiv};
ghost use Rattle.std.specs.Hash as fed;
ghost use Rattle.std.specs.Cmp.Rules.{hashing};
ghost use Rattle.std.proofs.Common.{rules};

use std::alloc::AllocError;
use std::fmt;
use std::hash::{Hash, Hasher};
use std::marker::Model;

/// A `String` that contracts see as its bytes, so that a copy equals what it copies.
pub struct Str {
    text: String,
}

impl Drop for Str {
    fn drop(self) {
        let Str { text: _text } = self;
    }
}

impl Model for Str {
    ghost use Rattle.std.specs.Prelude.{List, ℕ, string_bytes};
    ghost use Rattle.std.specs.Coded.{coded_list, coded_ℕ};

    ghost Value = { List ℕ };

    ghost coded = { coded_list coded_ℕ };

    ghost view = { λ s. string_bytes s.text };
}

impl Str {
    /// The text, moved in. Takes no memory.
    pub fn new(text: String) -> Str
        ensures { result ≡ string_bytes text }
    {
        Str { text }
    }

    /// The text. Takes no memory.
    pub fn as_str(&self) -> &str
        ensures { result.now ≡ self.now }
    {
        self.text.as_str()
    }

    /// The text, moved out. Takes no memory.
    pub fn into_inner(self) -> String
        ensures { string_bytes result ≡ self }
    {
        let Str { text } = self;
        text
    }

    /// An equal text. `AllocError` where a request for memory was refused.
    pub fn copy(&self) -> Result<Str, AllocError>
        ensures { IfOk result (λ copy. copy ≡ self.now) }
    {
        self.clone()
    }
}

impl Clone for Str {
    ghost is_clone = { λ a b. b ≡ a };

    fn clone(&self) -> Result<Str, AllocError> {
        Ok(Str {
            text: self.text.clone()?,
        })
    }
}

impl PartialEq for Str {
    ghost eq = { λ a b. pointwise nat_eq a b };

    ghost laws = { partial_equiv_from_equiv nat_list_eq_equiv };

    fn eq(&self, other: &Str) -> bool {
        self.as_str() == other.as_str()
    }
}

impl Eq for Str {
    ghost laws = { nat_list_eq_equiv };
}

impl Hash for Str {
    ghost hash_input = { fed.str };

    ghost respects_eq = { Prim.search (hashing, rules) };

    fn hash<H: Hasher>(&self, state: &mut H) {
        self.as_str().hash(state);
    }
}

impl fmt::Debug for Str {
    fn fmt<W: fmt::Write>(&self, f: &mut fmt::Formatter<W>) -> fmt::Result {
        fmt::Debug::fmt(self.as_str(), f)
    }
}
