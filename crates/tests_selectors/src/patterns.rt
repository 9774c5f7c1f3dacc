//! Texts and patterns, by the pattern as it is read and by its items as they are kept.

use crate::told::holds;
use jm_eval::{Items, like, like_items};
use std::alloc::Global;

/// Whether the text fits the items of the pattern, where there was memory for them.
fn fits_items(alloc: Global, text: &str, pattern: &str, escape: Option<char>) -> Option<bool> {
    match Items::cut(alloc, pattern, escape) {
        Ok(items) => Some(like_items(text, &items)),
        Err(_) => None,
    }
}

/// Texts, patterns, escapes, and whether the text fits.
static PATTERNS: [(&str, &str, Option<char>, bool); 34] = [
    ("_abc", "\\_%", Some('\\'), true),
    ("_", "\\_%", Some('\\'), true),
    ("abc", "\\_%", Some('\\'), false),
    ("a\\", "a\\", Some('\\'), true),
    ("a", "a\\", Some('\\'), false),
    ("", "", None, true),
    ("a", "", None, false),
    ("", "%", None, true),
    ("", "%%", None, true),
    ("", "_", None, false),
    ("12993", "12%3", None, true),
    ("123", "12%3", None, true),
    ("1234", "12%3", None, false),
    ("12", "12%2", None, false),
    ("loose", "l_se", None, false),
    ("\u{e9}\u{1f600}", "__", None, true),
    ("\u{e9}\u{1f600}", "%\u{1f600}", None, true),
    ("a\u{e9}b\u{1f600}c", "%\u{e9}%\u{1f600}%", None, true),
    ("\u{e9}", "%\u{e8}%", None, false),
    ("50_", "50__", Some('_'), true),
    ("50%", "50%%", Some('%'), true),
    ("50x", "50%%", Some('%'), false),
    ("%", "!%", Some('!'), true),
    ("x", "!%", Some('!'), false),
    ("aab", "%ab", None, true),
    ("aabaac", "%aab%aac", None, true),
    ("aabaac", "%aac%aab", None, false),
    ("abcbc", "a%bc", None, true),
    ("ab", "%a%b%c%", None, false),
    ("xaybzc", "%a%b%c%", None, true),
    ("xaybzc", "%a_b%_c", None, true),
    ("xaybc", "%a_b%_c", None, false),
    ("abab", "%a_a%", None, true),
    ("mississippi", "m%iss%ip%i", None, true),
];

#[test]
fn like_patterns(rt: HostRuntime) {
    for (text, pattern, escape, fits) in &PATTERNS {
        holds(&rt, text, like(text, pattern, *escape) == *fits);
    }
}

#[test]
fn items_of_patterns(rt: HostRuntime) {
    for (text, pattern, escape, fits) in &PATTERNS {
        holds(
            &rt,
            text,
            fits_items(rt.alloc(), text, pattern, *escape) == Some(*fits),
        );
    }
}
