//! The rest after the texts of a pattern.
#![tactic(auto, using(fluent_tokens::proofs::Counted::cuts))]

ghost use Rattle.std.specs.Prelude.{◌≡◌};
ghost use Rattle.lint_nodes.specs.Rests as rests;

use crate::words::skip;
use fluent_tokens as words;
use memchr::memchr2;

/// The rest after the texts at the front, from within a line on: it begins with the next placeable,
/// or at the end of the pattern.
pub fn after_texts(text: &[u8]) -> &[u8]
    ensures { result.now ≡ rests.after_texts text.now }
{
    let mut rest = text;
    while let Some(stop) = memchr2(b'{', b'\n', rest) {
        let found = skip(rest, stop);
        if words::begins_with(found, b'{') {
            return found;
        }
        rest = skip(found, 1);
        if words::pattern_ends(rest, words::blank_inline_len(rest)) {
            return rest;
        }
    }
    skip(rest, rest.len())
}

/// The rest after the texts at the front, from the start of a line on.
fn after_lines(text: &[u8]) -> &[u8]
    ensures { result.now ≡ rests.after_lines text.now }
{
    if words::pattern_ends(text, words::blank_inline_len(text)) {
        text
    } else {
        after_texts(text)
    }
}

/// The first placeable of the pattern at the front, or its end.
pub fn first_placeable(text: &[u8]) -> &[u8]
    ensures { result.now ≡ rests.first_placeable text.now }
{
    let begun = skip(text, words::blank_inline_len(text));
    let line_end = words::line_end_len(begun);
    if line_end == 0 {
        return after_texts(begun);
    }
    let line = skip(begun, line_end);
    after_lines(skip(line, words::blank_block_len(line)))
}
