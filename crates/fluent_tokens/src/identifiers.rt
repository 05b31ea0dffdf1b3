//! Identifiers.
#![tactic(auto, using(crate::proofs::Counted::cuts))]

ghost use Rattle.std.specs.Prelude.{◌≡◌};
ghost use Rattle.std.specs.List.{prefix_len};
ghost use Rattle.fluent_grammar.specs.Words as w;
ghost use Rattle.fluent_tokens.specs.Counted.{Cuts};

use crate::begins_with_letter;
use crate::lanes::{LANES, no_name_bytes};
use std::simd::prelude::*;

/// How many bytes the identifier at the front has, or 0. Production `Identifier`.
pub fn identifier_len(text: &[u8]) -> usize
    ensures value { result ≡ w.name_len text.now }
    ensures cuts { Cuts text.now result }
{
    if begins_with_letter(text) {
        name_bytes_len(text)
    } else {
        0
    }
}

/// How many bytes of identifiers stand at the front, read sixteen at a time.
fn name_bytes_len(text: &[u8]) -> usize
    ensures { result ≡ prefix_len w.is_name_byte text.now }
{
    let mut end = 0;
    while text.len() - end >= LANES {
        let others = no_name_bytes(u8x16::from_slice(&text[end..]));
        if others != 0 {
            return end + others.trailing_zeros() as usize;
        }
        end += LANES;
    }
    end + last_name_bytes_len(&text[end..])
}

/// The same for the last bytes of a text, read one by one.
fn last_name_bytes_len(text: &[u8]) -> usize
    ensures { result ≡ prefix_len w.is_name_byte text.now }
{
    text.iter().take_while(|byte| is_name_byte(**byte)).count()
}

/// Whether a byte may follow the first one of an identifier.
fn is_name_byte(byte: u8) -> bool
    ensures { result ≡ w.is_name_byte byte }
{
    byte.is_ascii_alphanumeric() || byte == b'-' || byte == b'_'
}
