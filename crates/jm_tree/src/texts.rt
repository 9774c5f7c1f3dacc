ghost use Rattle.std.specs.Prelude.{◌≡◌, ℕ, List, nat_eq, IfOk};
ghost use Rattle.std.specs.BTreeSet.{contains_text};
ghost use Rattle.std.specs.Cmp.Lexicographic.{pointwise, lists_per, nat_list_eq_equiv};
ghost use Rattle.std.specs.Cmp.{partial_equiv_from_equiv};
ghost use Rattle.jm_tree.specs.Names as spec;

use jm_base::{List, Str};
use std::alloc::{AllocError, Global};
use std::collections::BTreeSet;
use std::fmt;
use std::marker::Model;

/// So many texts are looked through in turn, and more are found in the set of them.
const IN_TURN: usize = 8;

/// The texts of an IN, beside the ordered set of them, which is made once. Contracts see the list.
pub struct Texts {
    alloc: Global,
    list: List<Str>,
    set: BTreeSet<String>,
}

// (by hand, so that what holds one lets it go by one call)
impl Drop for Texts {
    fn drop(self) {
        let Texts {
            alloc: _alloc,
            list: _list,
            set: _set,
        } = self;
    }
}

impl Model for Texts {
    ghost use Rattle.std.specs.Prelude.{◌≡◌, List, ℕ};
    ghost use Rattle.std.specs.Coded.{coded_list, coded_ℕ};

    ghost Value = { List (List ℕ) };

    ghost coded = { coded_list (coded_list coded_ℕ) };

    ghost use Rattle.std.specs.BTreeSet.{contains_text};
    ghost use Rattle.jm_tree.specs.Names.{is_among};

    ghost view = { λ t. t.list };

    ghost invariant = { λ t. (text : List ℕ) → contains_text t.set text ≡ is_among text t.list };
}

/// The ordered set of the texts. `AllocError` where a request for memory was refused.
#[tactic(auto, unfolding(crate::specs::Names::is_among))]
fn set_of(alloc: Global, texts: &[Str]) -> Result<BTreeSet<String>, AllocError>
    ensures { IfOk result (λ set. (text : List ℕ) → contains_text set text ≡ spec.is_among text texts.now) }
{
    let mut set = BTreeSet::new(alloc);
    for text in texts {
        set.insert(text.copy()?.into_inner())?;
    }
    Ok(set)
}

#[inline(never)]
fn are_equal(one: &str, other: &str) -> bool
    ensures { result ≡ spec.texts_equal one.now other.now }
{
    one == other
}

/// Whether both texts are equal. All of them is looked at only where their lengths and their first bytes are equal.
#[inline(always)]
fn is_text(one: &str, other: &str) -> bool
    ensures { result ≡ spec.texts_equal one.now other.now }
{
    let (first, second) = (one.as_bytes(), other.as_bytes());
    if first.len() != second.len() {
        return false;
    }
    if !first.is_empty() && first[0] != second[0] {
        return false;
    }
    are_equal(one, other)
}

/// Whether the text is one of these, which are looked through in turn.
#[tactic(auto, unfolding(crate::specs::Names::is_among))]
fn is_among(texts: &[Str], text: &str) -> bool
    ensures { result ≡ spec.is_among text.now texts.now }
{
    texts.iter().any(|member| is_text(text, member.as_str()))
}

impl Texts {
    /// The texts, moved in, with the set of them. `AllocError` where a request for memory was refused.
    pub fn new(alloc: Global, list: List<Str>) -> Result<Texts, AllocError>
        ensures { IfOk result (λ texts. texts ≡ list) }
    {
        let set = set_of(alloc, list.as_slice())?;
        Ok(Texts { alloc, list, set })
    }

    /// The texts in the order of the list. Takes no memory.
    pub fn as_slice(&self) -> &[Str]
        ensures { result.now ≡ self.now }
    {
        self.list.as_slice()
    }

    /// Whether the text is one of the list: a walk over a few texts, and a look-up among more. Takes no memory.
    pub fn contains(&self, text: &str) -> bool
        ensures { result ≡ spec.is_among text.now self.now }
    {
        let texts = self.as_slice();
        if texts.len() > IN_TURN {
            self.set.contains(text)
        } else {
            is_among(texts, text)
        }
    }

    /// Equal texts. `AllocError` where a request for memory was refused.
    pub fn copy(&self) -> Result<Texts, AllocError>
        ensures { IfOk result (λ copy. copy ≡ self.now) }
    {
        Texts::new(self.alloc, copy_texts(self.alloc, self.as_slice())?)
    }
}

fn copy_texts(alloc: Global, texts: &[Str]) -> Result<List<Str>, AllocError>
    ensures { IfOk result (λ copy. copy ≡ texts.now) }
{
    let mut copies = Vec::new(alloc);
    for text in texts {
        copies.push(text.copy()?)?;
    }
    Ok(List::new(copies))
}

impl PartialEq for Texts {
    ghost eq = { λ a b. pointwise (λ x y. pointwise nat_eq x y) a b };

    ghost laws = { lists_per (partial_equiv_from_equiv nat_list_eq_equiv) };

    fn eq(&self, other: &Texts) -> bool {
        self.list == other.list
    }
}

impl fmt::Debug for Texts {
    fn fmt<W: fmt::Write>(&self, f: &mut fmt::Formatter<W>) -> fmt::Result {
        fmt::Debug::fmt(&self.list, f)
    }
}
