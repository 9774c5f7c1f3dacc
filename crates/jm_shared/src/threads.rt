//! That texts and bytes may cross threads, and be shared by them.

ghost use Rattle.std.specs.Prelude.{◌≡◌};

use crate::bytes::SharedBytes;
use crate::text::SharedStr;

/// The value itself, in whatever thread it is, also while others read it.
fn crosses<T: Send + Sync>(value: T) -> T
    ensures { result ≡ value }
{
    value
}

/// The text itself: whoever has it may hand it to another thread, or share it with one.
pub fn text_handed_over(text: SharedStr) -> SharedStr
    ensures { result ≡ text }
{
    crosses(text)
}

/// The bytes themselves: whoever has them may hand them to another thread, or share them with one.
pub fn bytes_handed_over(bytes: SharedBytes) -> SharedBytes
    ensures { result ≡ bytes }
{
    crosses(bytes)
}
