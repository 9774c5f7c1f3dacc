ghost use Rattle.std.specs.Prelude.{◌≡◌};
ghost use Rattle.std.specs.List.{list_all};
ghost use Rattle.jm_identifier.specs.Words as spec;

/// A keyword of selectors, which is no identifier (Jakarta Messaging 3.1, section 3.8.1.1).
#[derive(Clone, Copy, Debug, PartialEq, Eq)]
pub enum Keyword {
    /// `NULL`.
    Null,
    /// `TRUE`.
    True,
    /// `FALSE`.
    False,
    /// `NOT`.
    Not,
    /// `AND`.
    And,
    /// `OR`.
    Or,
    /// `BETWEEN`.
    Between,
    /// `LIKE`.
    Like,
    /// `IN`.
    In,
    /// `IS`.
    Is,
    /// `ESCAPE`.
    Escape,
}

/// Whether the byte is a letter of identifiers: an ASCII letter, `_` or `$` (Jakarta Messaging 3.1,
/// section 3.8.1.1; letters past ASCII are left out).
pub fn is_letter(byte: u8) -> bool
    ensures { result ≡ spec.is_letter byte }
{
    byte.is_ascii_alphabetic() || byte == b'_' || byte == b'$'
}

/// Whether the byte is such a letter or an ASCII digit.
pub fn is_letter_or_digit(byte: u8) -> bool
    ensures { result ≡ spec.is_letter_or_digit byte }
{
    is_letter(byte) || byte.is_ascii_digit()
}

fn are_letters_or_digits(bytes: &[u8]) -> bool
    ensures { result ≡ list_all spec.is_letter_or_digit bytes.now }
{
    bytes.iter().all(|byte| is_letter_or_digit(*byte))
}

/// Whether the bytes are such a letter, then such letters and ASCII digits. Takes no memory.
pub fn is_word(bytes: &[u8]) -> bool
    ensures { result ≡ spec.is_word bytes.now }
{
    match bytes {
        [] => false,
        [first, rest @ ..] => is_letter(*first) && are_letters_or_digits(rest),
    }
}

/// The keyword that a word is, in any ASCII case. Takes no memory.
pub fn keyword_of(word: &[u8]) -> Option<Keyword>
    ensures { result ≡ spec.keyword_of word.now }
{
    if word.eq_ignore_ascii_case(b"null") {
        Some(Keyword::Null)
    } else if word.eq_ignore_ascii_case(b"true") {
        Some(Keyword::True)
    } else if word.eq_ignore_ascii_case(b"false") {
        Some(Keyword::False)
    } else if word.eq_ignore_ascii_case(b"not") {
        Some(Keyword::Not)
    } else if word.eq_ignore_ascii_case(b"and") {
        Some(Keyword::And)
    } else if word.eq_ignore_ascii_case(b"or") {
        Some(Keyword::Or)
    } else if word.eq_ignore_ascii_case(b"between") {
        Some(Keyword::Between)
    } else if word.eq_ignore_ascii_case(b"like") {
        Some(Keyword::Like)
    } else if word.eq_ignore_ascii_case(b"in") {
        Some(Keyword::In)
    } else if word.eq_ignore_ascii_case(b"is") {
        Some(Keyword::Is)
    } else if word.eq_ignore_ascii_case(b"escape") {
        Some(Keyword::Escape)
    } else {
        None
    }
}
