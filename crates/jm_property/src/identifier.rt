ghost use Rattle.std.specs.Prelude.{◌≡◌};
ghost use Rattle.jm_property.specs.Identifiers as spec;

use jm_identifier::{is_word, keyword_of};

/// Whether the text is an identifier of message selectors: an ASCII letter, `_` or `$`, then such
/// letters and ASCII digits; and no keyword in any case (Jakarta Messaging 3.1, section 3.8.1.1;
/// letters past ASCII are left out). Takes no memory.
pub fn is_identifier(text: &str) -> bool
    ensures { result ≡ spec.is_identifier text.now }
{
    is_word(text.as_bytes()) && keyword_of(text.as_bytes()).is_none()
}
