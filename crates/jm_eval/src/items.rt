ghost use Rattle.std.specs.Prelude.{◌≡◌, ◌↔◌, ℕ, List, Option, Some, map, IsTrue};
ghost use Rattle.std.specs.Str.{chars};
ghost use Rattle.jm_eval.specs.Patterns as spec;
ghost use Rattle.jm_tree.specs.Patterns as patterns;

use jm_tree::{Items, Segment, next_char};

/// The last character, and the text before it.
fn last_char(text: &str) -> Option<(char, &str)>
    ensures { spec.IsLastChar result text.now }
{
    let mut rest = text.chars();
    match rest.next_back() {
        None => None,
        Some(c) => Some((c, rest.as_str())),
    }
}

fn fits_place(place: Option<char>, c: char) -> bool
    ensures { result ≡ spec.fits_place place c }
{
    match place {
        None => true,
        Some(wanted) => c == wanted,
    }
}

/// The text after a front that fits the places, or none where no front does.
fn past<'a>(places: &[Option<char>], text: &'a str) -> Option<&'a str>
    ensures { spec.IsPast places.now text.now result }
{
    let mut rest = text;
    for place in places {
        match next_char(rest) {
            None => return None,
            Some((c, later)) => {
                if !fits_place(*place, c) {
                    return None;
                }
                rest = later;
            }
        }
    }
    Some(rest)
}

/// The text after the first place at which the places fit, or none where they fit nowhere. The first place is as good as
/// any later one. It takes at most as many steps as the text has characters, times the places.
fn after_places<'a>(places: &[Option<char>], text: &'a str) -> Option<&'a str>
    ensures { spec.IsAfterFirst places.now text.now result }
{
    let mut left = text;
    'search: loop {
        match past(places, left) {
            Some(rest) => return Some(rest),
            None => match next_char(left) {
                None => return None,
                Some((_, later)) => left = later,
            },
        }
    }
}

/// The text after the first place at which the literal stands, or none where it stands nowhere. It goes once over the
/// text.
fn after_literal<'a>(literal: &str, text: &'a str) -> Option<&'a str>
    ensures { (places : List (Option ℕ)) → patterns.IsLiteral literal.now places → spec.IsAfterFirst places text.now result }
{
    match text.split_once(literal) {
        None => None,
        Some((_, rest)) => Some(rest),
    }
}

/// The text after the first place at which the segment fits, or none where it fits nowhere. A segment without `_` is found
/// in one walk over the text.
fn after_segment<'a>(segment: &Segment, text: &'a str) -> Option<&'a str>
    ensures { spec.IsAfterFirst segment.now text.now result }
{
    match segment.literal() {
        Some(literal) => after_literal(literal.as_str(), text),
        None => after_places(segment.places(), text),
    }
}

/// The text after the first place at which the segments fit one after another, or none where they fit nowhere.
fn after_each<'a>(segments: &[Segment], text: &'a str) -> Option<&'a str>
    ensures { spec.IsAfterEach segments.now text.now result }
{
    let mut left = text;
    for segment in segments {
        match after_segment(segment, left) {
            None => return None,
            Some(rest) => left = rest,
        }
    }
    Some(left)
}

/// Whether an end of the text fits the places, read from the end.
fn is_end(places: &[Option<char>], text: &str) -> bool
    ensures { result ≡ spec.any_suffix (spec.matches (map patterns.item_of places.now)) (chars text.now) }
{
    let mut left = text;
    let mut count = places.len();
    while count > 0 {
        count -= 1;
        match last_char(left) {
            None => return false,
            Some((c, before)) => {
                if !fits_place(places[count], c) {
                    return false;
                }
                left = before;
            }
        }
    }
    true
}

fn is_empty(text: &str) -> bool
    ensures { result ≡ spec.is_empty (chars text.now) }
{
    match next_char(text) {
        None => true,
        Some(_) => false,
    }
}

/// Whether the whole text fits the places.
fn is_whole(places: &[Option<char>], text: &str) -> bool
    ensures { result ≡ spec.matches (map patterns.item_of places.now) (chars text.now) }
{
    match past(places, text) {
        None => false,
        Some(rest) => is_empty(rest),
    }
}

/// Whether what is left of the text after the first segment fits: the segments in the middle one after another, and the
/// last at the end.
fn is_rest(middle: &[Segment], last: &Segment, text: &str) -> bool
    ensures { result ≡ spec.any_suffix (spec.matches (patterns.joined middle.now last.now)) (chars text.now) }
{
    match after_each(middle, text) {
        None => false,
        Some(rest) => is_end(last.places(), rest),
    }
}

/// Whether the text matches the items.
pub(crate) fn is_match_of(text: &str, items: &Items) -> bool
    ensures { result ≡ spec.matches items.now (chars text.now) }
{
    let (segments, last) = items.segments();
    match segments {
        [] => is_whole(last.places(), text),
        [first, middle @ ..] => match past(first.places(), text) {
            None => false,
            Some(rest) => is_rest(middle, last, rest),
        },
    }
}

/// Whether the text fits the items of a pattern (Jakarta Messaging 3.1, section 3.8.1): it is a concatenation of pieces
/// that fit them in order. It goes once over the text, and where a part of it does not fit back to the last `%` alone: what
/// stands between two `%` is found in as many steps as the text is long, or, where it has a `_`, in at most that many for
/// each of its places. Takes no memory.
pub fn like_items(text: &str, items: &Items) -> bool
    ensures { IsTrue result ↔ spec.Fits (chars text.now) items.now }
{
    is_match_of(text, items)
}
