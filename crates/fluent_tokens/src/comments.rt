//! The signs that comments begin with.
#![tactic(auto, using(crate::proofs::Counted::cuts))]

ghost use Rattle.std.specs.Prelude.{◌≡◌};
ghost use Rattle.std.specs.List.{prefix_len};
ghost use Rattle.fluent_grammar.specs.Words as w;
ghost use Rattle.fluent_tokens.specs.Counted.{Cuts, is_comment_line, is_sign};

use crate::{begins_with, line_end_len};

/// How many signs of a comment stand at the front, at most three.
pub fn comment_level(text: &[u8]) -> usize
    ensures value { result ≡ w.comment_level text.now }
    ensures cuts { Cuts text.now result }
{
    signs_len(text).min(3)
}

/// How many number signs stand at the front.
fn signs_len(text: &[u8]) -> usize
    ensures { result ≡ prefix_len is_sign text.now }
{
    text.iter().take_while(|byte| **byte == b'#').count()
}

/// Whether a comment may go on so after its sign: with a space, a line end or the end of the text.
pub fn is_comment_line(text: &[u8]) -> bool
    ensures { result ≡ is_comment_line text.now }
{
    text.is_empty() || begins_with(text, b' ') || line_end_len(text) > 0
}
