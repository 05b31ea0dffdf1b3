//! Blanks: spaces, and spaces with line ends.
#![tactic(auto, using(crate::proofs::Counted::cuts))]

ghost use Rattle.std.specs.Prelude.{◌≡◌, drop};
ghost use Rattle.fluent_grammar.specs.Words as w;
ghost use Rattle.fluent_tokens.specs.Counted.{Cuts, is_blank_at};

use crate::lanes::{LANES, no_spaces};
use std::simd::prelude::*;

/// How many spaces stand at the front: production `blank_inline`, which may be empty here. Mostly
/// there is none or one.
#[inline(always)]
pub fn blank_inline_len(text: &[u8]) -> usize
    ensures { result ≡ w.spaces text.now }
{
    match text {
        [b' ', b' ', ..] => spaces_len(text),
        [b' ', ..] => 1,
        _ => 0,
    }
}

/// The same for any number of spaces, read sixteen at a time.
fn spaces_len(text: &[u8]) -> usize
    ensures { result ≡ w.spaces text.now }
{
    let mut end = 0;
    while text.len() - end >= LANES {
        let others = no_spaces(u8x16::from_slice(&text[end..]));
        if others != 0 {
            return end + others.trailing_zeros() as usize;
        }
        end += LANES;
    }
    end + last_spaces_len(&text[end..])
}

/// The same for the last bytes of a text, read one by one.
fn last_spaces_len(text: &[u8]) -> usize
    ensures { result ≡ w.spaces text.now }
{
    text.iter().take_while(|byte| **byte == b' ').count()
}

/// How many bytes of spaces and line ends stand at the front. Production `blank`.
pub fn blank_len(text: &[u8]) -> usize
    ensures value { drop result text.now ≡ w.skip_blank text.now }
    ensures cuts { Cuts text.now result }
{
    let mut end = 0;
    while end < text.len() && is_blank_at(&text[end..]) {
        end += 1;
    }
    end
}

/// Whether a text begins with a space or a line end.
fn is_blank_at(text: &[u8]) -> bool
    ensures { result ≡ is_blank_at text.now }
{
    matches!(text, [b' ' | b'\n', ..] | [b'\r', b'\n', ..])
}

/// How many bytes the blank lines at the front have, each with its line end. Production
/// `blank_block`.
pub fn blank_block_len(text: &[u8]) -> usize
    ensures value { drop result text.now ≡ w.skip_blank_block text.now }
    ensures cuts { Cuts text.now result }
{
    let mut line = 0;
    let mut end = 0;
    while end < text.len() && is_blank_at(&text[end..]) {
        if text[end] == b'\n' {
            line = end + 1;
        }
        end += 1;
    }
    line
}
