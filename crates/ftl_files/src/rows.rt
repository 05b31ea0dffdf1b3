//! The lines of files that aren't UTF-8.
ghost use Rattle.std.specs.Prelude.{◌≡◌, None, IfSome, IsUtf8};
ghost use Rattle.ftl_files.specs.Rows.{bad_row, last_row};

use simdutf8::basic;
use std::str::from_utf8;

/// The number of the line with the first byte that isn't UTF-8, if there is one.
pub fn bad_row(bytes: &[u8]) -> Option<usize>
    ensures utf8 { result ≡ None → IsUtf8 bytes.now }
    ensures row { IfSome result (λ row. (IsUtf8 bytes.now → ⊥) × (row ≡ bad_row bytes.now)) }
{
    if basic::from_utf8(bytes).is_ok() {
        return None;
    }
    match from_utf8(bytes) {
        Ok(_) => None,
        Err(error) => Some(last_row(&bytes[..error.valid_up_to()])),
    }
}

/// The number of the line on which a text ends, from 1.
pub fn last_row(text: &[u8]) -> usize
    ensures { result ≡ last_row text.now }
{
    text.iter().filter(|byte| **byte == b'\n').count() + 1
}
