ghost use Rattle.std.specs.Prelude.{◌≡◌, [], ◌∷◌, ◌++◌, ℕ, List, Option, nat_eq, IfOk};
ghost use Rattle.std.specs.Option.{option_copied};
ghost use Rattle.std.specs.Cmp.{partial_equiv_from_equiv};
ghost use Rattle.std.specs.Cmp.Lexicographic.{pointwise, nat_list_eq_equiv};
ghost use Rattle.std.specs.Str.{chars};
ghost use Rattle.jm_tree.specs.Patterns as spec;

use jm_base::Str;
use std::alloc::{AllocError, Global};
use std::fmt;
use std::marker::Model;

/// What one place of a pattern asks of a text.
#[derive(Clone, Copy, Debug, PartialEq, Eq)]
pub enum Item {
    /// Any one character: `_`.
    One,
    /// Any sequence of characters, the empty one too: `%`.
    Any,
    /// This character.
    Only(char),
}

/// The first character, and the text after it. Takes no memory.
pub fn next_char(text: &str) -> Option<(char, &str)>
    ensures { spec.IsNext result text.now }
{
    let mut rest = text.chars();
    match rest.next() {
        None => None,
        Some(c) => Some((c, rest.as_str())),
    }
}

fn is_escape(escape: Option<char>, c: char) -> bool
    ensures { result ≡ spec.is_escape escape c }
{
    match escape {
        None => false,
        Some(e) => e == c,
    }
}

fn plain(c: char) -> Item
    ensures { result ≡ spec.plain c }
{
    match c {
        '_' => Item::One,
        '%' => Item::Any,
        _ => Item::Only(c),
    }
}

/// The first item of the pattern, and the pattern after it (Jakarta Messaging 3.1, section 3.8.1): the escape character
/// with the character after it is that character, and at the end it is itself (ours). Takes no memory.
#[tactic(auto, unfolding(crate::specs::Patterns::items))]
pub fn next_item(pattern: &str, escape: Option<char>) -> Option<(Item, &str)>
    ensures { spec.IsNextItem escape result pattern.now }
{
    match next_char(pattern) {
        None => None,
        Some((c, rest)) => {
            if !is_escape(escape, c) {
                return Some((plain(c), rest));
            }
            match next_char(rest) {
                None => Some((Item::Only(c), rest)),
                Some((escaped, later)) => Some((Item::Only(escaped), later)),
            }
        }
    }
}

/// What stands between two `%` of a pattern, place by place: a character, or any one where there is none; and the text of
/// the characters, where no place is any one. Contracts see the places.
pub struct Segment {
    alloc: Global,
    places: Vec<Option<char>>,
    literal: Option<Str>,
}

// (by hand, so that what holds one lets it go by one call)
impl Drop for Segment {
    fn drop(self) {
        let Segment {
            alloc: _alloc,
            places: _places,
            literal: _literal,
        } = self;
    }
}

impl Model for Segment {
    ghost use Rattle.std.specs.Prelude.{List, Option, ℕ};
    ghost use Rattle.std.specs.Coded.{coded_list, coded_option, coded_ℕ};

    ghost Value = { List (Option ℕ) };

    ghost coded = { coded_list (coded_option coded_ℕ) };

    ghost use Rattle.jm_tree.specs.Patterns.{Literal};

    ghost view = { λ s. s.places.items };

    ghost invariant = { λ s. Literal s.literal s.places.items };
}

/// The text with the character at its end. `AllocError` where a request for memory was refused.
fn appended(text: Str, c: char) -> Result<Str, AllocError>
    ensures { IfOk result (λ appended. chars appended ≡ chars text ++ c ∷ []) }
{
    let mut text = text.into_inner();
    text.push(c)?;
    Ok(Str::new(text))
}

/// The text with the place at its end, or none where there is no text or the place is any one. `AllocError` where a request
/// for memory was refused.
#[tactic(auto, using(crate::proofs::Literals::literal_more))]
fn extended(literal: Option<Str>, place: Option<char>) -> Result<Option<Str>, AllocError>
    ensures { IfOk result (λ text. (places : List (Option ℕ)) → spec.Literal literal places → spec.Literal text (places ++ place ∷ [])) }
{
    match (literal, place) {
        (Some(text), Some(c)) => Ok(Some(appended(text, c)?)),
        _ => Ok(None),
    }
}

impl Segment {
    /// A segment of no places. Takes no memory.
    fn empty(alloc: Global) -> Segment
        ensures { result ≡ [] }
    {
        Segment {
            alloc,
            places: Vec::new(alloc),
            literal: Some(Str::new(String::new(alloc))),
        }
    }

    /// The segment with one place more. `AllocError` where a request for memory was refused.
    fn with(self, place: Option<char>) -> Result<Segment, AllocError>
        ensures { IfOk result (λ segment. segment ≡ self ++ place ∷ []) }
    {
        let Segment {
            alloc,
            mut places,
            literal,
        } = self;
        let literal = extended(literal, place)?;
        places.push(place)?;
        Ok(Segment {
            alloc,
            places,
            literal,
        })
    }

    /// The places in order. Takes no memory.
    pub fn places(&self) -> &[Option<char>]
        ensures { result.now ≡ self.now }
    {
        self.places.as_slice()
    }

    /// The text of the segment, where no place is any one character. Takes no memory.
    pub fn literal(&self) -> Option<&Str>
        ensures { spec.Literal (option_copied result) self.now }
    {
        self.literal.as_ref()
    }
}

/// The items of a pattern, cut into what stands between its `%`. Contracts see the list of the items.
pub struct Items {
    segments: Vec<Segment>,
    last: Segment,
}

// (by hand, so that what holds them lets them go by one call)
impl Drop for Items {
    fn drop(self) {
        let Items {
            segments: _segments,
            last: _last,
        } = self;
    }
}

impl Model for Items {
    ghost use Rattle.std.specs.Prelude.{List};
    ghost use Rattle.jm_tree.specs.declared.pattern.Item.{Item};

    ghost Value = { List Item };

    ghost use Rattle.jm_tree.specs.Patterns.{joined};

    ghost view = { λ i. joined i.segments.items i.last };
}

impl Items {
    /// No items. Takes no memory.
    fn empty(alloc: Global) -> Items
        ensures { result ≡ [] }
    {
        Items {
            segments: Vec::new(alloc),
            last: Segment::empty(alloc),
        }
    }

    /// The items with one more. `AllocError` where a request for memory was refused.
    #[tactic(auto, using(crate::proofs::Joins::joined_place, crate::proofs::Joins::joined_any))]
    fn with(self, alloc: Global, item: Item) -> Result<Items, AllocError>
        ensures { IfOk result (λ items. items ≡ self ++ item ∷ []) }
    {
        let Items { mut segments, last } = self;
        let place = match item {
            Item::Any => {
                segments.push(last)?;
                return Ok(Items {
                    segments,
                    last: Segment::empty(alloc),
                });
            }
            Item::One => None,
            Item::Only(c) => Some(c),
        };
        Ok(Items {
            segments,
            last: last.with(place)?,
        })
    }

    /// The items of a pattern with its escape character, if it has one (Jakarta Messaging 3.1, section 3.8.1): the escape
    /// character with the character after it is that character, also where that is `_` or `%`, and at the end it is itself
    /// (ours); `_` is any one character, `%` any sequence, and any other character is itself. `AllocError` where a request
    /// for memory was refused.
    pub fn cut(alloc: Global, pattern: &str, escape: Option<char>) -> Result<Items, AllocError>
        ensures { IfOk result (λ items. items ≡ spec.items escape (chars pattern.now)) }
    {
        let mut items = Items::empty(alloc);
        let mut rest = pattern;
        while let Some((item, later)) = next_item(rest, escape) {
            items = items.with(alloc, item)?;
            rest = later;
        }
        Ok(items)
    }

    /// What stands before each `%`, in order, and what stands after the last, or alone where there is none. Takes no memory.
    pub fn segments(&self) -> (&[Segment], &Segment)
        ensures { spec.joined result.0.now result.1.now ≡ self.now }
    {
        (self.segments.as_slice(), &self.last)
    }
}

/// The pattern of a LIKE, beside its items with the escape character of that LIKE, which are cut once. Contracts see the
/// pattern's text.
pub struct Pattern {
    text: Str,
    escape: Option<char>,
    kept: Items,
}

// (by hand, so that what holds one lets it go by one call)
impl Drop for Pattern {
    fn drop(self) {
        let Pattern {
            text: _text,
            escape: _escape,
            kept: _kept,
        } = self;
    }
}

impl Model for Pattern {
    ghost use Rattle.std.specs.Prelude.{◌≡◌, List, ℕ};
    ghost use Rattle.std.specs.Coded.{coded_list, coded_ℕ};

    ghost Value = { List ℕ };

    ghost coded = { coded_list coded_ℕ };

    ghost use Rattle.std.specs.Str.{chars};
    ghost use Rattle.jm_tree.specs.Patterns.{items};

    ghost view = { λ p. p.text };

    ghost invariant = { λ p. p.kept ≡ items p.escape (chars p.text) };
}

impl Pattern {
    /// The text, moved in, with its items. `AllocError` where a request for memory was refused.
    pub fn new(alloc: Global, text: Str, escape: Option<char>) -> Result<Pattern, AllocError>
        ensures { IfOk result (λ pattern. pattern ≡ text) }
    {
        let kept = Items::cut(alloc, text.as_str(), escape)?;
        Ok(Pattern { text, escape, kept })
    }

    /// The text. Takes no memory.
    pub fn as_str(&self) -> &str
        ensures { result.now ≡ self.now }
    {
        self.text.as_str()
    }

    /// The items with this escape character, which are kept where they were cut with it, or none. Takes no memory.
    pub fn items(&self, escape: Option<char>) -> Option<&Items>
        ensures { spec.AreKept escape self.now (option_copied result) }
    {
        if self.escape == escape {
            Some(&self.kept)
        } else {
            None
        }
    }

    /// An equal pattern, cut with the same escape character. `AllocError` where a request for memory was refused.
    pub fn copy(&self, alloc: Global) -> Result<Pattern, AllocError>
        ensures { IfOk result (λ copy. copy ≡ self.now) }
    {
        Pattern::new(alloc, self.text.copy()?, self.escape)
    }
}

impl PartialEq for Pattern {
    ghost eq = { λ a b. pointwise nat_eq a b };

    ghost laws = { partial_equiv_from_equiv nat_list_eq_equiv };

    fn eq(&self, other: &Pattern) -> bool {
        self.text == other.text
    }
}

impl fmt::Debug for Pattern {
    fn fmt<W: fmt::Write>(&self, f: &mut fmt::Formatter<W>) -> fmt::Result {
        fmt::Debug::fmt(&self.text, f)
    }
}
