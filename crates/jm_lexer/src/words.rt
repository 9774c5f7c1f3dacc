ghost use Rattle.std.specs.Prelude.{◌≡◌, ◌==◌, ◌≢◌, ◌+◌, ◌<◌, ◌≤◌, ◌^◌, ℕ, length, take, drop, slice_index, IfSome, IfOk, IsTrue, MatchResult, true, false};
ghost use Rattle.std.specs.Char.{is_ascii_digit, digit_value as value_of_digit};
ghost use Rattle.std.specs.List.{prefix_len, list_all, list_any};
ghost use Rattle.jm_lexer.specs.Words as spec;

use crate::token::Mark;
use jm_base::Cause;
use jm_identifier::{Keyword, is_letter_or_digit};

/// The greatest value of a number, 2^63.
const LIMIT: u64 = 1 << 63;

/// A letter, a digit or a `.`.
pub(crate) fn is_number(b: u8) -> bool
    ensures { result ≡ spec.is_number b }
{
    is_letter_or_digit(b) || b == b'.'
}

/// Space, tab, form feed, line feed and carriage return.
pub(crate) fn is_blank(b: u8) -> bool
    ensures { result ≡ spec.is_blank b }
{
    matches!(b, b' ' | b'\t' | 12 | b'\n' | b'\r')
}

/// Whether a number word begins here: a digit, or a `.` directly followed by one.
pub(crate) fn begins_number(z: &[u8]) -> bool
    ensures { result ≡ spec.begins_number z.now }
{
    match z {
        [] => false,
        [b] => b.is_ascii_digit(),
        [b, c, ..] => b.is_ascii_digit() || (*b == b'.' && c.is_ascii_digit()),
    }
}

/// The length of the run of letters and digits at the front.
pub(crate) fn word_len(z: &[u8]) -> usize
    ensures value { result ≡ prefix_len spec.is_word z.now }
    ensures within { result ≤ length z.now }
{
    let mut end = 0;
    while end < z.len() && is_letter_or_digit(z[end]) {
        end += 1;
    }
    end
}

/// The length of the run of letters, digits and `.` at the front.
pub(crate) fn number_len(z: &[u8]) -> usize
    ensures value { result ≡ prefix_len spec.is_number z.now }
    ensures within { result ≤ length z.now }
{
    let mut end = 0;
    while end < z.len() && is_number(z[end]) {
        end += 1;
    }
    end
}

fn mark_of(keyword: Keyword) -> Mark
    ensures { result ≡ spec.mark_of keyword }
{
    match keyword {
        Keyword::Null => Mark::Null,
        Keyword::True => Mark::True,
        Keyword::False => Mark::False,
        Keyword::Not => Mark::Not,
        Keyword::And => Mark::And,
        Keyword::Or => Mark::Or,
        Keyword::Between => Mark::Between,
        Keyword::Like => Mark::Like,
        Keyword::In => Mark::In,
        Keyword::Is => Mark::Is,
        Keyword::Escape => Mark::Escape,
    }
}

/// The keyword that a word is, in any ASCII case.
#[tactic(auto, unfolding(crate::specs::Words::keyword_of))]
pub(crate) fn keyword_of(word: &[u8]) -> Option<Mark>
    ensures { result ≡ spec.keyword_of word.now }
{
    match jm_identifier::keyword_of(word) {
        None => None,
        Some(keyword) => Some(mark_of(keyword)),
    }
}

/// The word without its final `L` or `l`.
#[tactic(auto, unfolding(crate::specs::Words::stem))]
fn stem(word: &[u8]) -> &[u8]
    ensures { result.now ≡ spec.stem word.now }
{
    if word.is_empty() {
        return word;
    }
    let last = word.len() - 1;
    if matches!(word[last], b'L' | b'l') {
        &word[..last]
    } else {
        word
    }
}

/// The digits of a stem, and their base.
fn digits_of(stem: &[u8]) -> (&[u8], u8)
    ensures digits { result.0.now ≡ (spec.digits_of stem.now).0 }
    ensures base { result.1 ≡ (spec.digits_of stem.now).1 }
    ensures known { result.1 ≤ 16 }
    ensures some { 1 ≤ result.1 }
{
    match stem {
        [b'0'] => (stem, 10),
        [b'0', b'x' | b'X', digits @ ..] => (digits, 16),
        [b'0', digits @ ..] => (digits, 8),
        _ => (stem, 10),
    }
}

/// The value of a byte as a digit: `0` to `9` are 0 to 9, the letters of either case 10 to 35, and any
/// other byte is 36.
fn digit_value(b: u8) -> u8
    ensures value { result ≡ value_of_digit b }
    ensures within { result ≤ 36 }
{
    match b {
        b'0'..=b'9' => b - b'0',
        b'a'..=b'z' => b - b'a' + 10,
        b'A'..=b'Z' => b - b'A' + 10,
        _ => 36,
    }
}

fn is_digit_in(base: u8, b: u8) -> bool
    ensures { result ≡ spec.is_digit_in base b }
{
    digit_value(b) < base
}

fn all_digits(base: u8, digits: &[u8]) -> bool
    ensures { result ≡ list_all (spec.is_digit_in base) digits.now }
{
    digits.iter().all(|b| is_digit_in(base, *b))
}

/// Whether there is a digit at least, and nothing but digits of the base.
fn are_digits(base: u8, digits: &[u8]) -> bool
    ensures { result ≡ spec.are_digits base digits.now }
{
    digits.len() > 0 && all_digits(base, digits)
}

/// The value of digits, where it is at most 2^63. Number where it is above.
#[tactic(auto, using(crate::proofs::Values::bounded_turn))]
fn value_of(base: u8, digits: &[u8]) -> Result<u64, Cause>
    requires known { base ≤ 16 }
    requires some { 1 ≤ base }
    ensures { result ≡ spec.bounded (spec.value_from base 0 digits.now) }
{
    let mut value: u64 = 0;
    for b in digits {
        let next = value as u128 * base as u128 + digit_value(*b) as u128;
        if next > LIMIT as u128 {
            return Err(Cause::Number);
        }
        value = next as u64;
    }
    Ok(value)
}

fn is_float_mark(b: u8) -> bool
    ensures { result ≡ spec.is_float_mark b }
{
    matches!(b, b'e' | b'E' | b'f' | b'F' | b'd' | b'D')
}

/// The length of the run of digits at the front.
fn digit_len(z: &[u8]) -> usize
    ensures value { result ≡ prefix_len is_ascii_digit z.now }
    ensures within { result ≤ length z.now }
{
    let mut end = 0;
    while end < z.len() && z[end].is_ascii_digit() {
        end += 1;
    }
    end
}

/// The byte at a place, or 0 past the end.
fn byte_at(z: &[u8], at: usize) -> u8
    ensures { result ≡ slice_index z.now at }
{
    z.get(at).copied().unwrap_or(0)
}

fn holds_point(word: &[u8]) -> bool
    ensures { result ≡ list_any (λ b. b == 46) word.now }
{
    word.iter().any(|b| *b == b'.')
}

/// Whether a word holds a `.`, or is decimal digits directly followed by one of `e E f F d D`.
fn is_floating(word: &[u8]) -> bool
    ensures { result ≡ spec.is_floating word.now }
{
    holds_point(word) || is_float_mark(byte_at(word, digit_len(word)))
}

/// The value of a number word. Number or Floating where it has none.
#[tactic(auto, unfolding(crate::specs::Words::number_of))]
pub(crate) fn number_of(word: &[u8]) -> Result<u64, Cause>
    ensures { result ≡ spec.number_of word.now }
{
    let (digits, base) = digits_of(stem(word));
    if are_digits(base, digits) {
        return value_of(base, digits);
    }
    if is_floating(word) {
        Err(Cause::Floating)
    } else {
        Err(Cause::Number)
    }
}

/// The signs of one character.
pub(crate) fn one_sign(b: u8) -> Option<Mark>
    ensures { result ≡ spec.one_sign b }
{
    match b {
        b'=' => Some(Mark::Equal),
        b'<' => Some(Mark::Less),
        b'>' => Some(Mark::Greater),
        b'+' => Some(Mark::Plus),
        b'-' => Some(Mark::Minus),
        b'*' => Some(Mark::Times),
        b'/' => Some(Mark::Divide),
        b'(' => Some(Mark::Open),
        b')' => Some(Mark::Close),
        b',' => Some(Mark::Comma),
        _ => None,
    }
}

/// The signs of two characters.
pub(crate) fn two_sign(b: u8, c: u8) -> Option<Mark>
    ensures { result ≡ spec.two_sign b c }
{
    match (b, c) {
        (b'<', b'>') => Some(Mark::NotEqual),
        (b'<', b'=') => Some(Mark::LessOrEqual),
        (b'>', b'=') => Some(Mark::GreaterOrEqual),
        _ => None,
    }
}
