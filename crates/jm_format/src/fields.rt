ghost use Rattle.std.specs.Prelude.{◌≡◌};
ghost use Rattle.std.specs.Int.{w16, w32, w64};
ghost use Rattle.std.specs.Option.{option_map};
ghost use Rattle.jm_format.specs.Reading as spec;

use jm_dest::Moment;
use std::str;

/// The byte in front, and the bytes after it; `None` where no byte is there.
pub fn byte_at(bytes: &[u8]) -> Option<(u8, &[u8])>
    ensures { option_map (λ field. (field.0, field.1.now)) result ≡ spec.byte_at bytes.now }
{
    match bytes {
        [] => None,
        [byte, rest @ ..] => Some((*byte, rest)),
    }
}

/// The big-endian number of 2 bytes in front, and the bytes after it; `None` where fewer are there.
pub fn u16_at(bytes: &[u8]) -> Option<(u16, &[u8])>
    ensures { option_map (λ field. (field.0, field.1.now)) result ≡ spec.number_at w16 bytes.now }
{
    match bytes.split_first_chunk::<2>() {
        None => None,
        Some((number, rest)) => Some((u16::from_be_bytes(*number), rest)),
    }
}

/// The big-endian number of 4 bytes in front, and the bytes after it; `None` where fewer are there.
pub fn u32_at(bytes: &[u8]) -> Option<(u32, &[u8])>
    ensures { option_map (λ field. (field.0, field.1.now)) result ≡ spec.number_at w32 bytes.now }
{
    match bytes.split_first_chunk::<4>() {
        None => None,
        Some((number, rest)) => Some((u32::from_be_bytes(*number), rest)),
    }
}

/// The big-endian number of 8 bytes in front, and the bytes after it; `None` where fewer are there.
pub fn u64_at(bytes: &[u8]) -> Option<(u64, &[u8])>
    ensures { option_map (λ field. (field.0, field.1.now)) result ≡ spec.number_at w64 bytes.now }
{
    match bytes.split_first_chunk::<8>() {
        None => None,
        Some((number, rest)) => Some((u64::from_be_bytes(*number), rest)),
    }
}

/// As many bytes as the length of 8 bytes in front says, and the bytes after them; `None` where fewer are there.
#[tactic(auto, unfolding(crate::specs::Reading::block_at))]
pub fn block_at(bytes: &[u8]) -> Option<(&[u8], &[u8])>
    ensures { option_map (λ field. (field.0.now, field.1.now)) result ≡ spec.block_at bytes.now }
{
    let (length, rest) = u64_at(bytes)?;
    let length = length as usize;
    if rest.len() < length {
        return None;
    }
    Some(rest.split_at(length))
}

/// The text in front, a length and as many bytes, and the bytes after it; `None` where fewer are there or they
/// are not UTF-8.
#[tactic(auto, unfolding(crate::specs::Reading::text_at))]
pub fn text_at(bytes: &[u8]) -> Option<(&str, &[u8])>
    ensures { option_map (λ field. (field.0.now, field.1.now)) result ≡ spec.text_at bytes.now }
{
    let (bytes, rest) = block_at(bytes)?;
    match str::from_utf8(bytes) {
        Ok(text) => Some((text, rest)),
        Err(_) => None,
    }
}

/// The moment of 8 bytes in front, and the bytes after it; `None` where fewer are there or they are above 2^63-1.
#[tactic(auto, unfolding(crate::specs::Reading::moment_at))]
pub fn moment_at(bytes: &[u8]) -> Option<(Moment, &[u8])>
    ensures { option_map (λ field. (field.0, field.1.now)) result ≡ spec.moment_at bytes.now }
{
    let (number, rest) = u64_at(bytes)?;
    match Moment::new(number.cast_signed()) {
        Ok(moment) => Some((moment, rest)),
        Err(_) => None,
    }
}
