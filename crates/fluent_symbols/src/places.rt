//! Where lines end, and where the texts of a pattern begin.
#![tactic(auto, using(fluent_tokens::proofs::Counted::cuts))]

ghost use Rattle.std.specs.Prelude.{◌≡◌};
ghost use Rattle.fluent_symbols.specs.Node as place;

use fluent_tokens as words;
use lint_nodes::skip;

/// The line end after the line at the front, or the end of the text.
pub fn line_end(text: &[u8]) -> &[u8]
    ensures { result.now ≡ place.line_end text.now }
{
    skip(text, words::line_len(text))
}

/// The rest after the line at the front, with its line end.
pub fn next_line(text: &[u8]) -> &[u8]
    ensures { result.now ≡ place.next_line text.now }
{
    let len = words::line_len(text);
    let end = skip(text, len);
    let feed = words::line_end_len(end);
    if feed == 0 {
        return skip(end, end.len());
    }
    skip(end, feed)
}

/// Where a pattern begins: on this line, or with the first line that isn't blank, whose indent
/// belongs to it. The second is whether it is the latter.
pub fn pattern_start(text: &[u8]) -> (&[u8], bool)
    ensures start { result.0.now ≡ place.pattern_start text.now }
    ensures line { result.1 ≡ place.begins_line text.now }
{
    let begun = skip(text, words::blank_inline_len(text));
    let line_end = words::line_end_len(begun);
    if line_end == 0 {
        return (begun, false);
    }
    let line = skip(begun, line_end);
    (skip(line, words::blank_block_len(line)), true)
}

/// Where a text of a pattern begins, which comes next, at the start of a line or not: after the
/// common indent.
pub fn text_start<'t>(at_line: bool, value: &str, text: &'t [u8]) -> &'t [u8]
    ensures { result.now ≡ place.text_start at_line value.now text.now }
{
    let start = if at_line {
        let indent = words::blank_inline_len(text);
        let kept = words::blank_inline_len(value.as_bytes());
        skip(text, indent.saturating_sub(kept))
    } else {
        text
    };
    if words::begins_crlf(start) {
        skip(start, 1)
    } else {
        start
    }
}
