//! The texts that bytes are.

ghost use Rattle.std.specs.Prelude.{◌≡◌, IsTrue, IsUtf8, MatchOption};
ghost use Rattle.std.specs.Str.{IsAscii};

use simdutf8::basic::from_utf8;
use std::str::from_utf8_unchecked;

/// Bytes up to this many are looked at one by one first: most ids, names and values are short, and
/// in ASCII.
const SHORT: usize = 16;

/// The text that bytes are, if they are UTF-8.
pub(crate) fn text_in(bytes: &[u8]) -> Option<&str>
    ensures { MatchOption result (¬ (IsUtf8 bytes.now))
        (λ text. (text.now ≡ bytes.now) × IsUtf8 bytes.now) }
{
    if is_short_ascii(bytes) {
        return Some(unsafe { from_utf8_unchecked(bytes) });
    }
    match from_utf8(bytes) {
        Ok(text) => Some(text),
        Err(_) => None,
    }
}

/// Whether bytes are few, and all of them ASCII.
fn is_short_ascii(bytes: &[u8]) -> bool
    ensures { IsTrue result → IsAscii bytes.now }
{
    if bytes.len() > SHORT {
        return false;
    }
    for byte in bytes {
        if *byte >= 0x80 {
            return false;
        }
    }
    true
}
