ghost use Rattle.std.specs.Prelude.{◌≡◌, ◌↔◌, ℕ, List, true, IsTrue};
ghost use Rattle.std.specs.Str.{chars};
ghost use Rattle.jm_eval.specs.Patterns as spec;
ghost use Rattle.jm_tree.specs.Patterns as patterns;
ghost use Rattle.jm_tree.specs.declared.pattern.Item.{Item};

use jm_tree::{Item, next_char, next_item};

/// How far a pattern fits before its first `%`.
enum Run<'p, 't> {
    /// There is no `%` on the way: whether the whole text fits.
    Ends(bool),
    /// The pattern after the `%`, and the text that is left there.
    Percent(&'p str, &'t str),
}

/// The law of the test that `value` uses for LIKE: it is true exactly where the text is a
/// concatenation of pieces that fit the items in order.
pub fn law_fits()
    ensures { (items : List Item) (text : List ℕ) → (spec.matches items text ≡ true) ↔ spec.Fits text items }
{}

fn is_any(item: Item) -> bool
    ensures { result ≡ spec.is_any item }
{
    matches!(item, Item::Any)
}

fn fits_one(item: Item, c: char) -> bool
    ensures { result ≡ spec.fits_one item c }
{
    match item {
        Item::Only(wanted) => c == wanted,
        _ => true,
    }
}

/// Goes on to the first `%`, or to the first character that does not fit.
#[tactic(auto, using(crate::proofs::Runs::passed_none, crate::proofs::Runs::passed_more, crate::proofs::Runs::reached))]
fn run_of<'p, 't>(pattern: &'p str, text: &'t str, escape: Option<char>) -> Run<'p, 't>
    ensures { spec.IsRun escape pattern.now text.now result }
{
    let mut pattern = pattern;
    let mut text = text;
    while let Some((wanted, later)) = next_item(pattern, escape) {
        if is_any(wanted) {
            return Run::Percent(later, text);
        }
        match next_char(text) {
            None => return Run::Ends(false),
            Some((c, rest)) => {
                if !fits_one(wanted, c) {
                    return Run::Ends(false);
                }
                text = rest;
                pattern = later;
            }
        }
    }
    Run::Ends(next_char(text).is_none())
}

/// Whether the pattern fits an end of the text. The first place at which the items before the next
/// `%` fit is as good as any later one, so a mismatch goes back to the last `%` alone.
#[tactic(auto, using(crate::proofs::Ends::found_here, crate::proofs::Ends::none_here, crate::proofs::Ends::none_at_end, crate::proofs::Ends::first_match, crate::proofs::Ends::fewer))]
fn search<'a>(pattern: &'a str, text: &'a str, escape: Option<char>) -> bool
    ensures { result ≡ spec.any_suffix (spec.matches (patterns.items escape (chars pattern.now))) (chars text.now) }
{
    let mut pattern = pattern;
    let mut text = text;
    'search: loop {
        match run_of(pattern, text, escape) {
            Run::Ends(true) => return true,
            Run::Ends(false) => match next_char(text) {
                None => return false,
                Some((_, rest)) => text = rest,
            },
            Run::Percent(later, left) => {
                pattern = later;
                text = left;
            }
        }
    }
}

/// Whether the text matches the items of the pattern.
pub(crate) fn is_match(text: &str, pattern: &str, escape: Option<char>) -> bool
    ensures { result ≡ spec.matches (patterns.items escape (chars pattern.now)) (chars text.now) }
{
    match run_of(pattern, text, escape) {
        Run::Ends(answer) => answer,
        Run::Percent(later, left) => search(later, left, escape),
    }
}

/// Whether the text fits the pattern (Jakarta Messaging 3.1, section 3.8.1): it is a concatenation
/// of pieces that fit the pattern's items in order. `_` is any one character, `%` any sequence, the
/// escape character followed by a character is that character, and any other character is itself.
/// The escape rule goes first, also where the escape is `_` or `%`, and an escape at the end is
/// itself (ours). A character is a Unicode scalar value. Takes no memory.
pub fn like(text: &str, pattern: &str, escape: Option<char>) -> bool
    ensures { IsTrue result ↔ spec.Fits (chars text.now) (patterns.items escape (chars pattern.now)) }
{
    is_match(text, pattern, escape)
}
